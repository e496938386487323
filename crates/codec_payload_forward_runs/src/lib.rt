//! Whole runs over two hops: samples are sent to a forwarder, which forwards their datagrams to a viewer's receiver. On both hops
//! datagrams are lost, repeated and reordered.
#![tactic(auto)]

pub mod leave_run;
pub mod run;
pub mod store_run;
pub mod switch_run;
pub mod theorems;
