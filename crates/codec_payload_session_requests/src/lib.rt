//! What a stream of a session requests, how long its frames wait, and the feedback about its transport.
#![tactic(auto)]

pub mod late;
pub mod named;
pub mod probes;
pub mod requests;
pub mod transports;
