//! What a datagram is, as one stream sees it, and which stream is chosen if the settings name none.
#![tactic(auto)]

pub mod choice;
pub mod kinds;
pub mod parsed;
