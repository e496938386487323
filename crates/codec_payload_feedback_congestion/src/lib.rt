//! Feedback for congestion control: when the packets of a transport arrived, reported to their sender.
//!
//! An `ArrivalLog` records the arrivals. `take_report` writes them as transport-wide feedback (RTCP RTPFB, format 15;
//! draft-holmer-rmcat-transport-wide-cc-extensions-01, section 3.1). `read_remb` and `write_remb` read and write REMB, the largest
//! bitrate that a receiver wants from its sender (RTCP PSFB, format 15; draft-alvestrand-rmcat-remb-03, section 2.2).
#![tactic(auto)]

pub mod arrivals;
mod chunks;
pub mod packet;
pub mod remb;
pub mod report;
mod slots;
pub mod theorems;
pub mod transport;
