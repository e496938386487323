//! Syntax tables of bit fields as the standards write them, and a reader of fields.
#![tactic(auto)]

pub mod fields;
pub mod reader;
