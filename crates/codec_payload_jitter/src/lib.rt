//! Sequence numbers and a jitter buffer for the packets of one sender: 16-bit sequence numbers are extended, and frames wait
//! for missing packets by time and by count. Users depend on `codec_payload_receiver`, which re-exports this crate.
#![tactic(auto)]

pub use codec_payload_numbers::{noted_times, numbers};

pub mod jitter;
mod kept_missing;
pub mod missing;
pub mod no_media_numbers;
pub mod outcome;
mod theorems;
pub mod waiting;
