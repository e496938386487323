//! Forward error correction by ULPFEC (RFC 5109), in RED (RFC 2198): packets of FEC, how they are made, and a receiver that rebuilds lost
//! packets.
#![tactic(auto)]

pub mod content;
pub mod fec_receiver;
pub mod late;
pub mod theorems;

pub use codec_payload_fec::{packet, rebuilding, store, writing};
