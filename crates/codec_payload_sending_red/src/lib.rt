//! Datagrams in RED: each packet repeats payloads that were sent before it (RFC 2198).
#![tactic(auto)]

pub mod red_writer;
