//! Packetizers and depacketizers of all supported codecs.

mod boxed;
mod depacketizer;
mod packetizer;

pub use boxed::{BoxedDepacketizer, BoxedPacketizer, NoBox};
pub use codec_payload_base::interface::{
    Av1CodecExtra, CodecExtra, Depacketizer, Packetizer, TelephoneEvent, Vp8CodecExtra,
    Vp9CodecExtra, Vp9PacketizerMode,
};
pub use codec_payload_base::payloads::{PayloadWriter, Payloads};
pub use depacketizer::CodecDepacketizer;
pub use packetizer::CodecPacketizer;
