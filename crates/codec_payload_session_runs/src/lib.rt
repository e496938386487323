//! Whole runs of a session: its calls in order, and what they give each stream.
#![tactic(auto)]

pub mod run;
