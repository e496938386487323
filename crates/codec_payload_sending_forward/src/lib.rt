//! What a forwarder (SFU) needs for each viewer: the numbers of its packets between and across switches of the source
//! (docs/use/FORWARDING.md).
#![tactic(auto)]

pub mod counts;
pub mod forwarder;
pub mod ids;
mod payloads;
pub mod renumbering;
pub mod theorems;
pub mod times;
mod vp8_ids;
mod vp9_ids;
