//! A limit of waiting that follows how late missing packets arrive.
#![tactic(auto)]

pub mod adaptive_wait;
mod gaps;
mod latest_ages;
