//! Theorems on runs over datagrams. These functions exist for their proofs and do nothing.

ghost use Rattle.codec_payload_datagram_runs.specs.HistoryRunExample.{HistoryCanBeMet};
ghost use Rattle.codec_payload_datagram_runs.specs.RestartRunExample.{RestartCanBeMet};
ghost use Rattle.codec_payload_datagram_runs.specs.RedHistoryRunExample.{RedHistoryCanBeMet};
ghost use Rattle.codec_payload_datagram_runs.specs.RedRunExample.{RedCanBeMet};
ghost use Rattle.codec_payload_datagram_runs.specs.WireRunExample.{CanBeMet};

/// The premises of a run over datagrams can be met: datagrams of Opus that arrive in another order, one of them twice, are
/// within the windows, and all arrive before the stream ends.
pub fn premises_can_be_met()
    ensures { CanBeMet }
{}

/// The premises of a run with retransmissions can be met: of three datagrams of Opus one is lost, and one of its retransmissions
/// too. The other retransmission arrives before the stream ends, so each packet has arrived.
pub fn history_premises_can_be_met()
    ensures { HistoryCanBeMet }
{}

/// The premises of a run with an announced restart can be met: after two datagrams of Opus another sender takes over, with another
/// SSRC and other numbers. All datagrams of each part arrive before its stream ends.
pub fn restart_premises_can_be_met()
    ensures { RestartCanBeMet }
{}

/// The premises of a run in RED can be met: of three datagrams of Opus the second is lost, and the third repeats its payload. So
/// each packet comes before the stream ends. Deliveries within the windows stay within a turn of the RTP clock, if packets are at most
/// 2,016 ticks apart, or the forward window is at most 4,000.
pub fn red_premises_can_be_met()
    ensures { RedCanBeMet }
{}

/// The premises of a run in RED with retransmissions can be met: of three datagrams of Opus the second and the third are lost, and a
/// retransmission of the third has both packets. So each packet comes before the stream ends.
pub fn red_history_premises_can_be_met()
    ensures { RedHistoryCanBeMet }
{}
