//! When a receiver requests missing packets and keyframes.
#![tactic(auto)]

pub mod keyframe;
pub mod nack;
pub mod round_trip;
