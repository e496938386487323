//! Whole runs over datagrams: samples are sent, some of their datagrams are delivered, in any order, and units are popped.
#![tactic(auto)]

pub mod history_run;
pub mod red_history_run;
pub mod red_run;
pub mod restart_run;
pub mod run;
pub mod theorems;
