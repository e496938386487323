//! The rate that a path carries: up by trials, down by a standing queue.
#![tactic(auto)]

pub mod estimator;
pub mod theorems;
