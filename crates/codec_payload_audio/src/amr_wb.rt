//! AMR-WB (RFC 4867), one channel, in both layouts, without CRC, interleaving and robust sorting (docs/use/FORMATS.md, "AMR-WB").
//!
//! Frames are taken and returned in storage form (RFC 4867, section 5.3): a byte with the frame type and the quality bit, then the
//! speech bits, padded with zeros to a byte.

ghost use Rattle.std.specs.Prelude.{◌≡◌, ◌<◌, false};
ghost use Rattle.codec_payload_audio.specs.AmrWb.{speech_size};

mod receive;
mod send;
mod shift;
mod toc;

pub use crate::theorems::payloads_follow_the_grammar;
pub use receive::AmrWbDepacketizer;
pub use send::AmrWbPacketizer;

/// The defaults of both ways have the bandwidth-efficient layout.
pub fn defaults_of_amr_wb() -> (AmrWbPacketizer, AmrWbDepacketizer)
    ensures sent { result.0.octet_align ≡ false }
    ensures received { result.1.octet_align ≡ false }
{
    (AmrWbPacketizer::default(), AmrWbDepacketizer::default())
}

/// The number of speech bits of a frame type; `None` for a reserved type. Types 14 and 15 mark a lost frame and a frame without
/// data (3GPP TS 26.201, table 1a).
fn speech_bits(frame_type: u8) -> Option<usize>
    requires { frame_type < 16 }
    ensures { result ≡ speech_size frame_type }
{
    let bits = match frame_type {
        0 => 132,
        1 => 177,
        2 => 253,
        3 => 285,
        4 => 317,
        5 => 365,
        6 => 397,
        7 => 461,
        8 => 477,
        9 => 40,
        _ => 0,
    };
    if (10..14).contains(&frame_type) {
        None
    } else {
        Some(bits)
    }
}
