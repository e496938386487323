//! Error correction in front of all streams of a port: packets as they were before RED (RFC 2198), and lost packets that ULPFEC (RFC 5109)
//! rebuilds.
#![tactic(auto)]

pub mod cleared;
pub mod fec_port;
pub mod fec_stream;
pub mod plain;
pub mod port_settings;
pub mod theorems;
