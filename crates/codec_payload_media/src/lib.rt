//! Facts from the bytes of a frame: its size, whether it is a keyframe, its duration, and the setup of a decoder.
#![tactic(auto)]

pub use codec_payload_vpx::{error, vp8, vp9};

pub mod amr_wb;
pub mod av1;
pub mod frame_info;
pub mod opus;
pub mod theorems;
