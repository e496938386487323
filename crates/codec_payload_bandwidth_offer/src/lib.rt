//! The rate that is offered to a publisher, by how its packets arrive.
#![tactic(auto)]

pub mod offer;
