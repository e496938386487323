//! The sending side of a transport: the number and the time of each packet that is sent, and what feedback reports about them.
#![tactic(auto)]

pub mod messages;
pub mod numbering;
pub mod sent;
pub mod theorems;
