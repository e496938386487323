//! Picture ids of VP8 and VP9: whether they allow a frame to be released, and whether it follows the previous one.
#![tactic(auto)]

pub mod contiguity;
