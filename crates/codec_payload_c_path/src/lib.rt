//! The path to a viewer, extended reports, RFC 8888 and error correction in the C API: their structs, and what each call does.
//!
//! These objects have handles of their own, which no session stands below. So they are proved without sessions.
#![tactic(auto)]

pub mod bytes;
pub mod ccfb;
pub mod exchange;
pub mod fec;
pub mod fec_receiver;
pub mod handle;
pub mod limit;
pub mod loose;
pub mod object;
pub mod path;
pub mod path_report;
pub mod path_settings;
pub mod rate_offer;
pub mod status;
pub mod writing;
