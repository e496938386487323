//! What is proved of paths. These functions exist for what they prove; they do nothing.

ghost use Rattle.codec_payload_bandwidth_path.specs.PathRuns.{LeavesByThePace, LimitsByCalls, PacketsBehindChangeNothing, ResendsByTheShare, StrangersChangeNothing};

/// Proves for any calls of a path, from any state on, that no more leaves than what its paces carry meanwhile, and the burst, and one
/// packet.
pub fn paths_leave_by_the_pace()
    ensures { LeavesByThePace }
{}

/// Proves for any calls of a new path: the bytes that may be retransmitted are at most the share of the bytes that leave for the first
/// time.
pub fn paths_resend_by_the_share()
    ensures share { ResendsByTheShare }
    ensures calls { LimitsByCalls }
{}

/// Proves that feedback on packets that did not leave on a path changes nothing: not all of it, if its first packet did not leave, and not
/// what it says of packets behind all that left.
pub fn strangers_change_nothing()
    ensures first { StrangersChangeNothing }
    ensures behind { PacketsBehindChangeNothing }
{}
