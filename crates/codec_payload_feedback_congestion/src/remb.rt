//! Estimates, read and written.

ghost use Rattle.std.specs.Prelude.{◌≡◌, ℕ, ◌+◌, ◌*◌, ◌/◌, ◌%◌, ◌<◌, ◌≤◌, ◌++◌, length, OnOk};
ghost use Rattle.codec_payload_base.specs.Answers.{seen};
ghost use Rattle.codec_payload_feedback_congestion.specs.Remb.{AppendsRemb, IsRounded, estimate_of, remb_at, remb_head, scaled_at, sources_at};

use std::alloc::AllocError;
use thiserror::Error;

/// Why bytes are not an estimate: the first fault in reading order.
#[derive(Clone, Copy, Debug, PartialEq, Eq, Error)]
pub enum RembFault {
    /// Fewer than 8 bytes are left for the identifier and the bitrate.
    #[error("REMB is shorter than its bitrate")]
    TooShort,
    /// The identifier is not "REMB".
    #[error("feedback is not REMB")]
    NotRemb,
    /// The bitrate has more than 64 bits.
    #[error("REMB has a bitrate above 64 bits")]
    TooLarge,
    /// The bytes end inside the sources.
    #[error("REMB ends inside its sources")]
    SourcesTooShort,
}

/// An estimate.
#[derive(Clone, Copy, Debug, PartialEq, Eq)]
pub struct Remb<'a> {
    /// In bits per second.
    pub bitrate: u64,
    /// The sources that it is about, 4 bytes each, as they are in the packet.
    pub ssrcs: &'a [u8],
}

/// Reads the sources.
fn read_sources(bitrate: u64, count: usize, bytes: &[u8]) -> Result<Remb<'_>, RembFault>
    requires { count < 256 }
    ensures { seen estimate_of result ≡ sources_at bitrate count bytes.now }
{
    if bytes.len() < 4 * count {
        return Err(RembFault::SourcesTooShort);
    }
    let (ssrcs, _) = bytes.split_at(4 * count);
    Ok(Remb { bitrate, ssrcs })
}

/// Reads the bitrate and the sources.
fn read_scaled(
    mantissa: u64,
    exponent: u32,
    count: usize,
    bytes: &[u8],
) -> Result<Remb<'_>, RembFault>
    requires exponent { exponent < 64 }
    requires count { count < 256 }
    ensures { seen estimate_of result ≡ scaled_at mantissa exponent count bytes.now }
{
    let Some(bitrate) = mantissa.checked_mul(1 << exponent) else {
        return Err(RembFault::TooLarge);
    };
    read_sources(bitrate, count, bytes)
}

/// Reads feedback control information as an estimate.
#[tactic(auto, unfolding(crate::specs::Remb::remb_at))]
pub fn read_remb(bytes: &[u8]) -> Result<Remb<'_>, RembFault>
    ensures { seen estimate_of result ≡ remb_at bytes.now }
{
    let [r, e, m, b, w3, w2, w1, w0, rest @ ..] = bytes else {
        return Err(RembFault::TooShort);
    };
    if *r != 82 || *e != 69 || *m != 77 || *b != 66 {
        return Err(RembFault::NotRemb);
    }
    let word = u32::from_be_bytes([*w3, *w2, *w1, *w0]);
    read_scaled(
        u64::from(word % 262_144),
        word / 262_144 % 64,
        (word / 16_777_216) as usize,
        rest,
    )
}

/// Returns the mantissa and the exponent of the largest bitrate up to this one that can be written: it is at most a
/// part in 131,072 below it.
fn rounded(bitrate: u64) -> (u32, u8)
    ensures { IsRounded bitrate result.0 result.1 }
{
    let mut exponent: u8 = 0;
    while exponent < 46 && bitrate >> exponent >= 262_144 {
        exponent += 1;
    }
    ((bitrate >> exponent) as u32, exponent)
}

/// The identifier, and the number of sources with the bitrate.
fn remb_head(word: u32) -> [u8; 8]
    ensures { result ≡ remb_head word }
{
    let [w3, w2, w1, w0] = word.to_be_bytes();
    [82, 69, 77, 66, w3, w2, w1, w0]
}

/// Appends feedback control information with a bitrate in bits per second, rounded down to 18 binary digits, about these sources:
/// 4 bytes each, at most 255.
pub fn write_remb(bitrate: u64, ssrcs: &[u8], out: &mut Vec<u8>) -> Result<(), AllocError>
    requires whole { length ssrcs.now % 4 ≡ 0 }
    requires few { length ssrcs.now ≤ 1020 }
    ensures { OnOk result (AppendsRemb out.old.items out.new.items bitrate ssrcs.now) }
{
    let (mantissa, exponent) = rounded(bitrate);
    let count = (ssrcs.len() / 4) as u32;
    let word = count * 16_777_216 + u32::from(exponent) * 262_144 + mantissa;
    out.extend_from_slice(&remb_head(word))?;
    out.extend_from_slice(ssrcs)?;
    Ok(())
}
