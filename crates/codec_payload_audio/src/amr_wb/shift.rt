//! AMR-WB: bytes out of bits that stand between bytes (docs/use/FORMATS.md, "AMR-WB").

ghost use Rattle.std.specs.Prelude.{◌≡◌, ℕ, ◌+◌, ◌-◌, ◌*◌, ◌<◌, ◌≤◌, ◌++◌, length, take, drop, OnOk};
ghost use Rattle.codec_payload_base.specs.Bits.{bits_of};
ghost use Rattle.codec_payload_audio.specs.AmrWbReceived.{Extends};

use std::alloc::AllocError;

/// Writes over `count` bytes from `start` on the bits of `bytes` from the one at `shift` on.
pub(crate) fn write_shifted(to: &mut [u8], start: usize, bytes: &[u8], shift: usize, count: usize)
    requires some { 0 < shift }
    requires few { shift < 8 }
    requires there { 8 * count ≤ 8 * length bytes.now - shift }
    requires space { start + count ≤ length to.old }
    ensures written { bits_of (take (start + count) to.new) ≡ bits_of (take start to.old) ++ take (8 * count) (drop shift (bits_of bytes.now)) }
    ensures kept { take start to.new ≡ take start to.old }
    ensures size { length to.new ≡ length to.old }
{
    let down = 8 - shift;
    for i in 0..count {
        to[start + i] = (bytes[i] << shift) | (bytes[i + 1] >> down);
    }
}

/// Appends `count` bytes that are the bits of `bytes` from the one at `shift` on.
pub(crate) fn append_shifted(
    out: &mut Vec<u8>,
    bytes: &[u8],
    shift: usize,
    count: usize,
) -> Result<(), AllocError>
    requires some { 0 < shift }
    requires few { shift < 8 }
    requires there { 8 * count ≤ 8 * length bytes.now - shift }
    ensures copied { OnOk result (bits_of out.new.items ≡ bits_of out.old.items ++ take (8 * count) (drop shift (bits_of bytes.now))) }
    ensures kept { Extends out.old.items out.new.items }
{
    let start = out.len();
    out.resize(start + count, 0)?;
    write_shifted(out, start, bytes, shift, count);
    Ok(())
}
