//! Runs whose lost packets are requested, answered and popped.
#![tactic(auto)]

pub mod theorems;
