//! The dependency descriptor: which frames a frame of video refers to (AV1 RTP specification, appendix A).
#![tactic(auto)]

pub mod dependency;
pub mod error;
mod fields;
pub mod numbers;
pub mod structure;
