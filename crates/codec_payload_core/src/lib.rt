//! RTP payloads of media frames: packetizing, sending, buffering and reassembly. This crate re-exports the crates below it, so
//! users need no other.
#![tactic(auto)]

pub use codec_payload_audio::{amr_wb, plain, tele};
pub use codec_payload_av1::av1;
pub use codec_payload_base::{bits, error, interface, payloads, wire};
pub use codec_payload_buffer::buffer;
pub use codec_payload_codec::codec;
pub use codec_payload_contiguity::contiguity;
pub use codec_payload_red::red;
pub use codec_payload_vp8::vp8;
pub use codec_payload_vp9::vp9;

pub mod payload;
pub mod schedule;
