//! The edges of the pictures of a receiver's stream, as its packets arrive. The numbers between two pictures carry no media: they are
//! not missing.
#![tactic(auto)]

mod followed;
pub mod following;
pub mod rules;
pub mod theorems;
