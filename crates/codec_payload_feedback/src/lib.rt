//! What a receiver sends to a sender: the requests of a stream for missing packets and for keyframes, as a compound packet of RTCP.
#![tactic(auto)]

pub mod requests;
pub mod transport;
