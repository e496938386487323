//! The units of a session's streams are the units of their senders.
#![tactic(auto)]

pub mod theorems;
