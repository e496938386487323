//! Theorems about the log of arrivals. These functions exist for what they prove; they do nothing.

ghost use Rattle.codec_payload_feedback_congestion.specs.ArrivalRuns.{ReportsArrivals};
ghost use Rattle.codec_payload_feedback_congestion.specs.Arrivals.{ArrivalsAreReported};

/// Proves that an arrival changes nothing, since it is a repetition or before the window, or that its number is reported with its
/// time after it.
pub fn arrivals_are_reported()
    ensures { ArrivalsAreReported }
{}

/// Proves, for any arrivals and reports in any order: each time that is reported next is a time at which a packet with that number
/// arrived.
pub fn reports_are_arrivals()
    ensures { ReportsArrivals }
{}
