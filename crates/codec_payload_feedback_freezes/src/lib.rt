//! Freezes of a video, by the rule of the W3C.
#![tactic(auto)]

pub mod freezes;
