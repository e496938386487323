//! AV1 payloads (RTP Payload Format for AV1, version 1.0; docs/use/FORMATS.md, "AV1").
#![tactic(auto)]

pub mod av1;
