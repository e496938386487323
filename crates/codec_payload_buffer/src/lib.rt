//! The buffer that restores the order of received packets and reassembles units.
#![tactic(auto)]

pub use codec_payload_contiguity::contiguity;

pub mod buffer;
