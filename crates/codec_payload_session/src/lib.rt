//! Sessions: all streams of one port. A session finds the stream of each datagram, announces when streams begin and end,
//! returns the units of all streams, requests what they miss, and reports on them.
#![tactic(auto)]

pub use codec_payload_session_formats::{checks, formats, names};
pub use codec_payload_session_stream::{reports, stream};

mod association;
mod compound;
mod exchange;
mod former;
mod goodbyes;
pub mod keyframe;
mod reporter;
pub mod session;
mod streams;
mod transport;
