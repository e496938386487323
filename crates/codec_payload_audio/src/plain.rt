//! The codecs whose payloads carry themselves: Opus, G.711 and G.722, comfort noise, and Null (docs/use/FORMATS.md, "Opus, G.711,
//! G.722", "Comfort noise" and "Null").

ghost use Rattle.std.specs.Prelude.{◌≡◌, [], Some, true};
ghost use Rattle.codec_payload_audio.specs.Payloads.{Appends};

mod comfort_noise;
mod g7xx;
mod null;
mod opus;
mod pieces;

pub use crate::theorems::pieces_are_one;
pub use crate::whole::WholePacketizer;
use codec_payload_base::error::PacketError;
use codec_payload_base::interface::{CodecExtra, Depacketizer};
pub use comfort_noise::{ComfortNoiseDepacketizer, ComfortNoisePacketizer};
pub use g7xx::{G7xxPacketizer, G711Depacketizer, G711Packetizer, G722Packetizer};
pub use null::{NullDepacketizer, NullPacketizer};
pub use opus::{OpusDepacketizer, OpusPacketizer};
pub use pieces::PiecesPacketizer;
use std::fmt;

/// Appends a payload that carries itself.
fn append_payload(payload: &[u8], out: &mut Vec<u8>) -> Result<(), PacketError>
    ensures { (extra : _) → Appends payload.now out.old.items extra result out.new.items extra }
{
    out.extend_from_slice(payload)?;
    Ok(())
}

/// Appends each payload as it is; each payload is a unit. The depacketizer of Opus, of G.711 and G.722, and of Null. `FORMAT` makes
/// them three types, and has no other effect: 0 is Opus, 1 is G.711 and G.722, and any other number is Null.
#[derive(Clone, Default, PartialEq, Eq, Drop)]
pub struct PlainDepacketizer<const FORMAT: u8> {}

/// Prints the name of the depacketizer.
impl<const FORMAT: u8> fmt::Debug for PlainDepacketizer<FORMAT> {
    fn fmt<W: fmt::Write>(&self, f: &mut fmt::Formatter<W>) -> fmt::Result {
        match FORMAT {
            0 => f.write_str("OpusDepacketizer"),
            1 => f.write_str("G711Depacketizer"),
            _ => f.write_str("NullDepacketizer"),
        }
    }
}

impl<const FORMAT: u8> Depacketizer for PlainDepacketizer<FORMAT> {
    ghost state = { λ _. [] };

    ghost depacketize_step = { λ _ payload out extra answer after out' extra'. Appends payload out extra answer out' extra' × (after ≡ []) };

    ghost size_hint = { λ _ size. Some size };

    ghost is_head = { λ _ _. true };

    ghost is_tail = { λ _ _ _. true };

    fn out_size_hint(&self, packets_size: usize) -> Option<usize> {
        Some(packets_size)
    }

    fn depacketize(
        &mut self,
        packet: &[u8],
        out: &mut Vec<u8>,
        _codec_extra: &mut CodecExtra,
    ) -> Result<(), PacketError> {
        append_payload(packet, out)
    }

    fn is_partition_head(&self, _packet: &[u8]) -> bool {
        true
    }

    fn is_partition_tail(&self, _marker: bool, _packet: &[u8]) -> bool {
        true
    }
}
