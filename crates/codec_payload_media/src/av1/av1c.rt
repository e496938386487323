//! AV1: the `av1C` record (AV1 codec ISO media file format binding, section 2.3; docs/use/FORMATS.md, "What a frame says").

ghost use Rattle.std.specs.Prelude.{◌≡◌, ◌≤◌, ◌++◌, OnErr, OnOk};
ghost use Rattle.codec_payload_media.specs.Av1Records.{av1c_bytes, av1c_front};
ghost use Rattle.codec_payload_vpx.specs.BitFields.{bit_if};

use crate::av1::sequence_header::Av1SequenceHeader;
use std::alloc::AllocError;

/// The number of bytes before the sequence header OBU of a record.
pub const AV1C_FRONT_LEN: usize = 4;

/// A bit, if it is set.
fn bit_if(set: bool, bit: u8) -> u8
    ensures value { result ≡ bit_if set bit }
    ensures most { result ≤ bit }
{
    if set { bit } else { 0 }
}

/// The four bytes before the sequence header OBU: marker and version, profile and level, tier to chroma position, and no initial
/// presentation delay.
#[tactic(auto, unfolding(crate::specs::Av1Records::av1c_front))]
pub fn av1c_front(header: &Av1SequenceHeader) -> [u8; AV1C_FRONT_LEN]
    ensures { result ≡ av1c_front header.now }
{
    let color = &header.color;
    let point = &header.operating_point;
    let tier = bit_if(point.high_tier, 128);
    let depth = bit_if(color.bit_depth != 8, 64) + bit_if(color.bit_depth == 12, 32);
    let gray = bit_if(color.monochrome, 16);
    let subsampling = bit_if(color.subsampling_x, 8) + bit_if(color.subsampling_y, 4);
    [
        0x81,
        header.profile % 8 * 32 + point.level % 32,
        tier + depth + gray + subsampling + color.chroma_sample_position % 4,
        0,
    ]
}

/// Appends the record of a stream: the four bytes of [`av1c_front`], and the sequence header OBU with its header and size, as it
/// is in the stream. If the allocation fails, `out` is unchanged.
pub fn write_av1c(
    header: &Av1SequenceHeader,
    sequence_header_obu: &[u8],
    out: &mut Vec<u8>,
) -> Result<(), AllocError>
    ensures written { OnOk result (out.new.items ≡ out.old.items ++ av1c_bytes header.now sequence_header_obu.now) }
    ensures err { OnErr result (out.new.items ≡ out.old.items) }
{
    out.reserve(AV1C_FRONT_LEN + sequence_header_obu.len())?;
    out.extend_from_slice(&av1c_front(header))?;
    out.extend_from_slice(sequence_header_obu)
}
