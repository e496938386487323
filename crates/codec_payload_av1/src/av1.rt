//! AV1 (RTP Payload Format for AV1, version 1.0): payloads of frames, and frames of payloads (docs/use/FORMATS.md, "AV1").

ghost use Rattle.std.specs.Prelude.{◌≡◌, length};
ghost use Rattle.codec_payload_base.specs.Leb.{leb};
ghost use Rattle.codec_payload_av1.specs.Av1Steps.{is_keyframe};

mod aggregation_header;
mod depacketizer;
mod leb;
mod obu;
mod packer;
mod packetizer;
mod payload;
mod payload_writer;
mod pending;
mod piece;
mod theorems;

use aggregation_header::AggregationHeader;
pub use codec_payload_base::interface::Av1CodecExtra;
pub use depacketizer::Av1Depacketizer;
pub use packetizer::Av1Packetizer;
pub use theorems::{
    canonical_unit_is_its_own, last_packets_give_last_obus, reading_follows_the_grammars,
};

/// How many bytes a number takes as the shortest LEB128 (AV1 bitstream specification, section 4.10.5): 1 to 10.
pub fn leb_128_size(value: usize) -> usize
    ensures { result ≡ length (leb value) }
{
    leb::number_len(value as u64)
}

/// Whether the N bit of the payload is set, with which a new coded video sequence starts (RTP Payload Format for AV1,
/// section 4.4). An empty payload has none.
pub fn detect_av1_keyframe(payload: &[u8]) -> bool
    ensures { result ≡ is_keyframe payload.now }
{
    match payload.first() {
        Some(header) => AggregationHeader { byte: *header }.starts(),
        None => false,
    }
}
