//! Whole runs of a media server: the datagrams of a sender come to its session, the session's datagrams of the sender's stream go to a
//! forwarder, and what the forwarder writes comes to a viewer's receiver. On both hops datagrams are lost, repeated and reordered.
#![tactic(auto)]

pub mod leave_run;
pub mod run;
mod serving;
pub mod store_run;
pub mod theorems;
