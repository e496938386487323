//! Congestion control feedback of RFC 8888: when each packet of a stream arrived, read and written.
#![tactic(auto)]

pub mod feedback;
pub mod log;
mod reading;
pub mod theorems;
mod writing;
