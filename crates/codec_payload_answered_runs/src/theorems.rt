//! Theorems on runs whose lost packets come back. These functions exist for their proofs and do nothing.

ghost use Rattle.codec_payload_answered_runs.specs.AnsweredRequests.{RequestsAreAnswered};
ghost use Rattle.codec_payload_answered_runs.specs.AnsweredRuns.{AnswersFillGaps, AnswersServe, LostPacketsComeBack};
ghost use Rattle.codec_payload_answered_runs.specs.AskedRuns.{RequestsFillGaps};
ghost use Rattle.codec_payload_answered_runs.specs.ComeBackExample.{AnswersCanBeMet};
ghost use Rattle.codec_payload_answered_runs.specs.FilledGaps.{FilledGapsLoseNone, FilledGapsLoseNoneWithHistory};
ghost use Rattle.codec_payload_answered_runs.specs.Repeats.{RequestsAreRepeated};

use codec_payload_feedback_requests::nack::nack_schedules_keep_their_settings;

/// A number that stays missing is requested again and again, each time by a moment that the settings say, if its schedule is polled in
/// time.
pub fn requests_are_repeated()
    ensures { RequestsAreRepeated }
{
    nack_schedules_keep_their_settings();
}

/// A history with the interval 0 answers each request for one of the last datagrams, as many as its limit, and the answer repeats this
/// datagram.
pub fn requests_are_answered()
    ensures { RequestsAreAnswered }
{}

/// If each gap is filled before a frame behind it is due, the pops of a run over datagrams return each unit, whole and in turn, and in
/// time. So it is with retransmissions, too.
pub fn filled_gaps_lose_none()
    ensures plain { FilledGapsLoseNone }
    ensures with_history { FilledGapsLoseNoneWithHistory }
{}

/// If, of the first requests for each datagram, not too many are in vain, the requests of a receiver fill each gap before a frame behind
/// it is due. So it is if the sender answers by its history, too: then a request is in vain if the request is lost, or its answer.
pub fn requests_fill_gaps()
    ensures plain { RequestsFillGaps }
    ensures with_history { AnswersFillGaps }
{
    nack_schedules_keep_their_settings();
}

/// Lost, requested, answered, whole: of a sender that answers by its history, and a receiver that requests what is missing. If each
/// request and each answer that is not lost arrives within a delay, if of the first k + 1 requests for each datagram at most k are lost,
/// or their answers, and if the settings allow k + 1 tries in time, then the pops return each unit, whole and in turn, and in time.
pub fn lost_packets_come_back()
    ensures whole { LostPacketsComeBack }
    // A request that arrives and is answered, and whose answer arrives: the datagram comes within twice the delay.
    ensures hops { AnswersServe }
{
    nack_schedules_keep_their_settings();
}

/// The premises can be met: of three datagrams of Opus the second is lost, and the first request for it too. The second request is
/// answered, and the answer arrives before the third datagram is due.
pub fn answers_can_be_met()
    ensures { AnswersCanBeMet }
{}
