//! Whole runs, from samples to units, and theorems about whole runs.
#![tactic(auto)]

mod plain;
pub mod red;
pub mod run;
pub mod theorems;
