//! Sequence numbers of one sender without wrap, and what a receiver keeps by them: times, statistics, windows.
#![tactic(auto)]

pub mod noted_times;
pub mod numbers;
pub mod seen_times;
pub mod statistics;
mod theorems;
pub mod windows;
