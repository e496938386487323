//! What a path carries, measured from what its feedback says of sent packets.
#![tactic(auto)]

pub mod arrivals;
pub mod delays;
pub mod losses;
pub mod rate;
pub mod steady;
pub mod theorems;
