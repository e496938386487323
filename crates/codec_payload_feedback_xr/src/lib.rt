//! Extended reports of RFC 3611 that measure the round trip from a receiver: its reference time, and the sender's answer to it.
#![tactic(auto)]

pub mod exchange;
mod reading;
pub mod report;
pub mod theorems;
pub mod times;
pub mod writing;
