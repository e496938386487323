//! What is proved of whole runs. These functions exist for what they prove; they do nothing.

ghost use Rattle.codec_payload_bandwidth_pacer.specs.ResendRuns.{ResendsAreApart, ResendsAreShared};
ghost use Rattle.codec_payload_bandwidth_pacer.specs.Runs.{LeavesByTheRate, LeavesByTheTime, LeavesWhenDue};

/// Proves for any calls of a pacer, from any state on, that no more leaves than what its rates carry meanwhile, and the burst, and one
/// packet. So in each interval of time at most the rate times the time leaves, and the burst, and one packet.
pub fn packets_leave_by_the_rate()
    ensures rate { LeavesByTheRate }
    ensures time { LeavesByTheTime }
{}

/// Proves that a packet leaves at the deadline that [`Pacer::next_deadline`] returns.
///
/// [`Pacer::next_deadline`]: crate::pacer::Pacer::next_deadline
pub fn packets_leave_when_due()
    ensures { LeavesWhenDue }
{}

/// Proves for any calls of a limit of retransmissions: the bytes that are retransmitted in any of them are at most the share of the
/// bytes that are sent in them and in the window before them; and a number is retransmitted at most once in a round trip.
pub fn resends_cannot_flood()
    ensures shared { ResendsAreShared }
    ensures apart { ResendsAreApart }
{}
