//! Forward error correction on the sending side: media in RED, and packets of FEC behind each frame, under the numbers of one stream.
#![tactic(auto)]

pub mod fec_sender;
mod held_frame;
mod red_packets;
mod stream_numbers;
pub mod theorems;
