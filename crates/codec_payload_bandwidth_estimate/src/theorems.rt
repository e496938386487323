//! What is proved of measurements. These functions exist for what they prove; they do nothing.

ghost use Rattle.codec_payload_bandwidth_estimate.specs.Arrivals.{LinkIsMeasured};
ghost use Rattle.codec_payload_bandwidth_estimate.specs.Delays.{AnyClockServes};
ghost use Rattle.codec_payload_bandwidth_estimate.specs.Rates.{RisesByTrials, StaysWithin, TrialAscends};

/// Proves for any packets that another clock of the receiver changes nothing of the queueing delay: if each arrival has the same
/// time more, [`Delays::standing`] and [`Delays::above`] return the same.
///
/// [`Delays::standing`]: crate::delays::Delays::standing
/// [`Delays::above`]: crate::delays::Delays::above
pub fn any_clock_serves()
    ensures { AnyClockServes }
{}

/// Proves for any packets that arrive as a link of some rate carries them, one after another without a pause: if
/// [`Arrivals::link_rate`] returns a rate, it is that of the link.
///
/// [`Arrivals::link_rate`]: crate::arrivals::Arrivals::link_rate
pub fn links_are_measured()
    ensures { LinkIsMeasured }
{}

/// Proves for any calls of a rate of a path that it stays within its bounds, and does not rise without a trial; and that the rate of a
/// trial does not fall.
pub fn rates_stay_within()
    ensures within { StaysWithin }
    ensures rises { RisesByTrials }
    ensures ascends { TrialAscends }
{}
