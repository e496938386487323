//! Turns samples into datagrams. Each datagram is an RTP packet, with its header in front of its payload. The memory of the
//! datagrams is reused.
#![tactic(auto)]

pub mod sender;
