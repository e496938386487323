//! What leaves for one viewer, and when: pace, limit of retransmissions, choice of layers and estimate in one value.
#![tactic(auto)]

pub mod departures;
pub mod path;
pub mod theorems;
