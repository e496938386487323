//! The base of the C API: a handle in the caller's memory and its contents, statuses, settings, output buffers, and the structs
//! that describe units.
#![tactic(auto)]

pub mod bytes;
pub mod extension_ids;
pub mod extension_values;
pub mod extra;
pub mod handle;
pub mod loose;
pub mod object;
pub mod port;
pub mod report_block;
pub mod rtp_faults;
pub mod settings;
pub mod slot;
pub mod status;
pub mod stream;
pub mod unit;
