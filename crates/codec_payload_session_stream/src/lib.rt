//! One stream of a session: its state, its events, and when it has the next one.
#![tactic(auto)]

pub mod arrival;
pub mod changes;
pub mod dues;
mod edges;
pub mod events;
pub mod pairs;
pub mod renegotiation;
pub mod reports;
pub mod stream;
pub mod telephone;
pub mod times;
pub mod trips;
pub mod waking;
