//! Receivers and sessions of the C API: their settings, and what each call does with the object of its handle.
#![tactic(auto)]

pub mod adaptive_wait;
pub mod beginnings;
pub mod receiver;
pub mod receiver_lending;
pub mod receiver_units;
pub mod session;
pub mod session_faults;
pub mod session_formats;
pub mod session_keyframes;
pub mod session_names;
pub mod session_pairs;
pub mod session_reports;
pub mod session_settings;
pub mod session_streams;
