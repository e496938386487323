//! Runs over datagrams with forward error correction: rebuilt packets are further deliveries.
#![tactic(auto)]

pub mod theorems;
