//! What packets say of the frames that they begin, kept until their unit is released.
#![tactic(auto)]

mod frames;
pub mod layer_frame;
pub mod note;
pub mod notes;
mod unit;
