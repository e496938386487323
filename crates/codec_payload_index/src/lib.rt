//! Lists of one value for each stream of a session, with an index: SSRCs, and times.
#![tactic(auto)]

pub mod ssrcs;
pub mod times;
