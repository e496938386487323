//! Which units of a video stream a decoder can show: keyframes, and units that follow one without a gap.
#![tactic(auto)]

pub mod gate;
pub mod references;
pub mod unit_gate;
pub mod vp8_layers;
