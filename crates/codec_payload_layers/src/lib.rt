//! What a payload says to a server that passes it on: whether a keyframe begins in it, and its temporal layer.
#![tactic(auto)]

pub mod layers;
