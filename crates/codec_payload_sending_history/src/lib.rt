//! What a sender needs to answer its receivers: a history of sent packets, which are retransmitted on request (RFC 4588), and the
//! requests that RTCP feedback carries (RFC 4585, RFC 5104).
#![tactic(auto)]

pub mod feedback;
pub mod original;
pub mod retransmission;
pub mod theorems;
