//! What is proved of whole runs of an estimator. These functions exist for what they prove; they do nothing.

ghost use Rattle.codec_payload_bandwidth_estimator.specs.Runs.{StaysWithin};

/// Proves for any feedback at any times, repeated, in any order or lying, that the estimate stays within the bounds with which it began.
pub fn estimates_stay_within()
    ensures { StaysWithin }
{}
