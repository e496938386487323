//! Headers of VP8 and VP9 frames.
#![tactic(auto)]

pub mod error;
pub mod fields;
pub mod vp8;
pub mod vp9;
