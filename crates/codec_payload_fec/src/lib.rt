//! Forward error correction by ULPFEC (RFC 5109): packets of FEC, what they rebuild, and how they are made.
#![tactic(auto)]

pub mod packet;
pub mod rebuilding;
pub mod store;
mod strings;
pub mod theorems;
pub mod writing;
