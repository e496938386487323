//! When the units of a run over datagrams come, if its receiver is popped in time.
#![tactic(auto)]

pub mod run;
pub mod theorems;
