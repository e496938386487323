//! Frames, packets, RTCP and senders of the C API: their structs, and what each call does.
#![tactic(auto)]

pub mod buffer;
pub mod congestion;
pub mod depacketizer;
pub mod extension;
pub mod forwarder;
pub mod frames;
pub mod freezes;
pub mod history;
pub mod media;
pub mod original;
pub mod packetizer;
pub mod red;
pub mod red_blocks;
pub mod red_places;
pub mod rtcp_reports;
pub mod rtcp_writing;
pub mod rtp;
pub mod sender;
pub mod sent;
pub mod source_names;
pub mod tele;
pub mod transport;
pub mod vp8;
pub mod whole_frames;
