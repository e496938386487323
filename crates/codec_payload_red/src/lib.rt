//! Redundant audio in RTP (RFC 2198). `codec_payload_core` re-exports the module, so users need only that crate.
#![tactic(auto)]

pub mod red;
