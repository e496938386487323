//! When packets leave for a viewer, by a rate, and how much may be retransmitted.
#![tactic(auto)]

pub mod pacer;
pub mod resends;
pub mod theorems;
