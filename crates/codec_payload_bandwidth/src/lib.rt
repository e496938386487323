//! What the path to a viewer carries: when packets leave, how much may be retransmitted, which layers fit, and measurements of
//! the path.
#![tactic(auto)]

pub use codec_payload_bandwidth_estimate::{arrivals, delays, losses, rate, steady};
pub use codec_payload_bandwidth_estimator::estimator;
pub use codec_payload_bandwidth_layers::chooser;
pub use codec_payload_bandwidth_offer::offer;
pub use codec_payload_bandwidth_pacer::{pacer, resends};
pub use codec_payload_bandwidth_path::path;
