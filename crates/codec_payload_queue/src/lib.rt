//! A queue whose insertions move few items, wherever they are, and searches by number.
#![tactic(auto)]

mod above;
pub mod search;
pub mod tiers;
