//! Which layers a viewer gets, by what its path carries.
#![tactic(auto)]

pub mod chooser;
pub mod theorems;
