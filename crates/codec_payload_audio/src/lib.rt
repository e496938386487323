//! The audio codecs, comfort noise, telephone events, and payloads that carry whatever they are given (docs/use/FORMATS.md, "Opus,
//! G.711, G.722", "Comfort noise", "AMR-WB", "Telephone events" and "Null").
#![tactic(auto)]

pub mod amr_wb;
pub mod plain;
pub mod tele;
mod theorems;
mod whole;
