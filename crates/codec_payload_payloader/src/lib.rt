//! Turns samples into packets: a payloader packetizes each sample, and a sink accepts the packets.
#![tactic(auto)]

pub mod memory_sink;
pub mod payloader;
pub mod red_sink;
pub mod sink;
