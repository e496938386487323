//! The codecs together: a packetizer and a depacketizer of any codec, and of one that a caller brings.
#![tactic(auto)]

pub mod codec;
