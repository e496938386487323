//! The formats and names of the streams of a session, whether a session can meet its settings, and which stream a packet is of.
#![tactic(auto)]

pub mod checks;
pub mod formats;
pub mod names;
pub mod sort;
pub mod tick_rate;
