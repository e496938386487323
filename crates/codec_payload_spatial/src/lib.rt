//! Spatial layers of one stream: which packets a viewer gets that does not want the upper ones.
#![tactic(auto)]

pub mod spatial;
pub mod theorems;
