//! Whole runs: samples are sent, some of their packets are pushed, in any order, and units are popped.

pub use codec_payload_buffer_runs::red::run_in_red;
pub use codec_payload_buffer_runs::run::{
    RedRun, Run, Sent, Step, Stream, run_schedule, run_stream,
};
pub use codec_payload_buffer_runs::theorems::{order_of_red_runs, order_of_runs, release_in_order};
