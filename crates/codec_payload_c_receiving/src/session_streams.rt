//! The streams of a session: counters, what to request, and how long to wait.

ghost use Rattle.std.specs.Prelude.{◌≡◌, ◌≢◌, slice_get};
ghost use Rattle.codec_payload_c_receiving.specs.SessionStreams.{DescribesStream, HasLastCounts, SetsRoundTrip, SetsWaitLimits, TellsLast, TellsMissingOf, TellsSessionCounts, TellsStreamAt, TellsWants, end_time, end_reason, receiver_in, stage_number};
ghost use Rattle.codec_payload_c_receiving.specs.StreamReceivers.{wait_limits_given};

use crate::receiver::{ReceiverCountsInfo, WaitLimits, counts_from, missing_into, waiting_for};
use crate::session::number_of;
use codec_payload_handle::object::PortSession;
use codec_payload_handle::status;
use codec_payload_session_stream::stream::{Stage, StreamInfo};

/// Counts of datagrams by result, each modulo 2^64.
#[repr(C)]
#[derive(Clone, Copy)]
pub struct SessionCountsInfo {
    pub received: u64,
    pub rtcp: u64,
    pub malformed: u64,
    pub unknown: u64,
    pub refused: u64,
    pub unassociated: u64,
    /// Datagrams that the removed streams received.
    pub ended: u64,
    /// Packets of telephone events that a stream received and that have no event, since 32 others waited.
    pub telephone_dropped: u64,
    /// The number of streams, announced or not.
    pub streams: usize,
}

/// A stream of a session.
#[repr(C)]
#[derive(Drop)]
pub struct SessionStream {
    /// How many datagrams it received, modulo 2^64.
    pub taken: u64,
    /// How many bytes of payload these had, without headers and padding, modulo 2^64.
    pub bytes: u64,
    /// When it ends, if it is leaving; 0 in other stages.
    pub ends_at: u64,
    /// The measured round-trip time in ticks, once a request of the session was answered; else 0.
    pub round_trip: u64,
    /// How many numbers of missing packets the session requested, modulo 2^64.
    pub numbers_requested: u64,
    /// How many keyframes, modulo 2^64.
    pub keyframes_requested: u64,
    pub ssrc: u32,
    /// 0: in probation; 1: playing; 2: leaving; 3: draining.
    pub stage: u32,
    /// Why it ends, if it is leaving or draining. 0: a BYE; 1: the idle timeout; 2: a call; 3: a change of format.
    pub why: u32,
    pub payload_type: u8,
    /// Whether `round_trip` is set.
    pub has_round_trip: bool,
    /// The counters of its receiver, without `probes`.
    pub counts: ReceiverCountsInfo,
    /// How many retransmissions were of numbers that came before, modulo 2^64.
    pub probes: u64,
}

/// Returns the number of a stage.
fn number_of_stage(stage: Stage) -> u32
    ensures { result ≡ stage_number stage }
{
    match stage {
        Stage::Probation => 0,
        Stage::Playing => 1,
        Stage::Leaving(..) => 2,
        Stage::Draining(_) => 3,
    }
}

/// Returns the number of the reason to end, or 0 if the stream does not end yet.
fn reason_of(stage: Stage) -> u32
    ensures { result ≡ end_reason stage }
{
    match stage {
        Stage::Leaving(why, _) | Stage::Draining(why) => number_of(why),
        Stage::Probation | Stage::Playing => 0,
    }
}

/// Returns when a stream that is leaving ends.
fn end_of(stage: Stage) -> u64
    ensures { result ≡ end_time stage }
{
    match stage {
        Stage::Leaving(_, at) => at,
        _ => 0,
    }
}

/// Returns the counters of a session.
pub fn counts_of(port: &PortSession) -> SessionCountsInfo
    ensures { TellsSessionCounts port.now result }
{
    let counts = port.session.counts();
    SessionCountsInfo {
        received: counts.received,
        rtcp: counts.rtcp,
        malformed: counts.malformed,
        unknown: counts.unknown,
        refused: counts.refused,
        unassociated: counts.unassociated,
        ended: counts.ended,
        telephone_dropped: counts.telephone_dropped,
        streams: port.session.stream_count(),
    }
}

/// Returns a stream with these counters of its receiver.
fn described(info: &StreamInfo, counts: ReceiverCountsInfo) -> SessionStream
    ensures { DescribesStream info.now counts result }
{
    SessionStream {
        taken: info.taken,
        bytes: info.bytes,
        ends_at: end_of(info.stage),
        round_trip: info.round_trip.unwrap_or(0),
        numbers_requested: info.requests.numbers,
        keyframes_requested: info.requests.keyframes,
        ssrc: info.ssrc,
        stage: number_of_stage(info.stage),
        why: reason_of(info.stage),
        payload_type: info.payload_type,
        has_round_trip: info.round_trip.is_some(),
        counts,
        probes: info.probes,
    }
}

/// Returns the counters of the receiver of a stream that was removed.
fn last_counts(info: &StreamInfo) -> ReceiverCountsInfo
    ensures { HasLastCounts info.now result }
{
    counts_from(&info.counters, info.held, Some(info.ssrc))
}

/// Describes the stream that was removed last.
pub fn last_stream(port: &PortSession, stream: &mut SessionStream) -> u32
    ensures tells { TellsLast port.now.session.port.last result stream.old stream.new }
    ensures unchanged { result ≢ 0 → stream.new ≡ stream.old }
{
    match port.session.last_stream() {
        Some(info) => {
            *stream = described(&info, last_counts(&info));
            status::OK
        }
        None => status::NONE,
    }
}

/// Describes the stream at a place.
pub fn stream_at(port: &PortSession, place: usize, stream: &mut SessionStream) -> u32
    ensures tells { TellsStreamAt (slice_get port.now.session.port.streams place) result stream.old stream.new }
    ensures unchanged { result ≢ 0 → stream.new ≡ stream.old }
{
    let (Some(info), Some(receiver)) = (
        port.session.stream_at(place),
        port.session.receiver_at(place),
    ) else {
        return status::NONE;
    };
    *stream = described(
        &info,
        counts_from(&info.counters, info.held, receiver.ssrc()),
    );
    status::OK
}

/// Writes the missing numbers of a stream, as many as there is room for.
pub fn missing(port: &PortSession, of: (u32, u8), numbers: &mut [u64], count: &mut usize) -> u32
    ensures tells { TellsMissingOf (receiver_in of.0 of.1 port.now) result (record { before = numbers.old; numbers = numbers.new; count_before = count.old; count = count.new }) }
    ensures unchanged { result ≢ 0 → (count.new ≡ count.old) × (numbers.new ≡ numbers.old) }
{
    match port.session.receiver_of(of.0, of.1) {
        Some(receiver) => {
            *count = missing_into(receiver, numbers);
            status::OK
        }
        None => status::NONE,
    }
}

/// Reports whether a keyframe of a stream is needed.
pub fn wants_keyframe(port: &PortSession, ssrc: u32, payload_type: u8, wants: &mut bool) -> u32
    ensures tells { TellsWants (receiver_in ssrc payload_type port.now) result wants.old wants.new }
    ensures unchanged { result ≢ 0 → wants.new ≡ wants.old }
{
    match port.session.receiver_of(ssrc, payload_type) {
        Some(receiver) => {
            *wants = receiver.wants_keyframe();
            status::OK
        }
        None => status::NONE,
    }
}

/// Replaces the wait limits of a stream.
pub fn set_wait_limits(
    port: &mut PortSession,
    ssrc: u32,
    payload_type: u8,
    limits: &WaitLimits,
) -> u32
    ensures { SetsWaitLimits (receiver_in ssrc payload_type port.old) ssrc payload_type (wait_limits_given limits.now) port.old result port.new }
{
    if port.session.receiver_of(ssrc, payload_type).is_none() {
        return status::NONE;
    }
    port.session
        .set_wait_limits(ssrc, payload_type, waiting_for(*limits));
    status::OK
}

/// Sets the round trip of a stream. 0: the answers to requests count.
pub fn set_round_trip(port: &mut PortSession, ssrc: u32, payload_type: u8, round_trip: u64) -> u32
    ensures { SetsRoundTrip (receiver_in ssrc payload_type port.old) ssrc payload_type round_trip port.old result port.new }
{
    if port.session.receiver_of(ssrc, payload_type).is_none() {
        return status::NONE;
    }
    let reported = if round_trip > 0 {
        Some(round_trip)
    } else {
        None
    };
    port.session.set_round_trip(ssrc, payload_type, reported);
    status::OK
}
