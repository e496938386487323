//! The metadata of received packets, as users see it and packed.
#![tactic(auto)]

pub mod known;
pub mod meta;
pub mod packed_header;
