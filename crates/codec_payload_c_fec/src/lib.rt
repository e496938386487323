//! Ports with FEC and senders of FEC in the C API: their structs, and what each call does. Their handles are those of a path to a viewer.
#![tactic(auto)]

pub mod lending;
pub mod port;
pub mod port_settings;
pub mod sender;
pub mod sender_settings;
pub mod status;
