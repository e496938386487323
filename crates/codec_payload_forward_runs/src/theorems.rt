//! Theorems on runs over two hops. These functions exist for their proofs and do nothing.

ghost use Rattle.codec_payload_forward_runs.specs.FirstHop.{ReadsAsSent};
ghost use Rattle.codec_payload_forward_runs.specs.ForwardRunExample.{ForwardingCanBeMet};
ghost use Rattle.codec_payload_forward_runs.specs.LeaveRunExample.{LeavingCanBeMet};
ghost use Rattle.codec_payload_forward_runs.specs.StoreRunExample.{StoreCanBeMet};
ghost use Rattle.codec_payload_forward_runs.specs.SwitchBackExample.{SwitchedBackCanBeMet};
ghost use Rattle.codec_payload_forward_runs.specs.SwitchRunExample.{SwitchingCanBeMet};
ghost use Rattle.codec_payload_forward_runs.specs.SwitchUnitsExample.{SwitchedUnitsCanBeMet};

/// The premises of a run with a forwarder can be met: datagrams of Opus come to the forwarder in another order, and to the viewer in
/// another one again. All come on both hops before the stream ends. Frames of VP8 meet them too, whose forwarder begins at a keyframe,
/// without picture ids and with them.
pub fn forwarding_premises_can_be_met()
    ensures { ForwardingCanBeMet }
{}

/// The premises of a run whose forwarder leaves a frame out can be met: of three frames the second is left out, and the other two come
/// to the viewer in another order. The frames are of Opus, and of VP8 with picture ids.
pub fn leaving_premises_can_be_met()
    ensures { LeavingCanBeMet }
{}

/// The premises of a run with a forwarder and a store can be met: of three frames of Opus the second is lost on the second hop. The
/// viewer requests the frame's number, and the forwarder writes the packet again, as a retransmission.
pub fn store_premises_can_be_met()
    ensures { StoreCanBeMet }
{}

/// The premises of a run with two sources can be met: the forwarder begins with a source of Opus, and goes over to another one. The two
/// packets that it writes have consecutive numbers.
pub fn switching_premises_can_be_met()
    ensures { SwitchingCanBeMet }
{}

/// The premises on the units of a run with one switch can be met: of a frame of one source and two frames of another one, the last two
/// come to the viewer in another order. All come before the stream ends. The frames are of Opus, and of VP8 with picture ids.
pub fn switched_units_premises_can_be_met()
    ensures { SwitchedUnitsCanBeMet }
{}

/// The premises on the units of a run with two switches can be met: the forwarder goes over to another source, and back. Of three frames,
/// the last two come to the viewer in another order. All come before the stream ends. The frames are of Opus, and of VP8 with picture ids.
pub fn switched_back_premises_can_be_met()
    ensures { SwitchedBackCanBeMet }
{}

/// A packet that the sender retransmitted on the first hop (RFC 4588), and that was unwrapped (`OriginalStream::write`), reads as
/// the datagram that it repeats. So it is as good for a forwarder.
pub fn unwrapped_reads_as_sent()
    ensures { ReadsAsSent }
{}
