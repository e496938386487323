//! Receivers: the datagrams of one stream in, units out.

ghost use Rattle.std.specs.Prelude.{◌≡◌, ◌&&◌, ◌++◌, drop, is_some, length, nat_le, nat_lt, if◌then◌else◌, Bool, IfErr, IfOk, IfSome, Option};
ghost use Rattle.codec_payload_core.specs.Depacketizers.{depacketizer_state_of};
ghost use Rattle.codec_payload_jitter.specs.Missing.{missing_numbers};
ghost use Rattle.codec_payload_jitter.specs.Receiving.{deadline_of};
ghost use Rattle.codec_payload_handle.specs.Refusals.{RefusesSettings};
ghost use Rattle.codec_payload_c_receiving.specs.StreamReceivers.{AreSettings, counts_from, EndsWith, IsNewStream, Takes, Tells, TellsCounts, bound_given, from_keyframe_numbered, is_in_range, outcome_number, red_rtx_in_range, red_set, rtx_set, wait_limits_given};
ghost use Rattle.codec_payload_handle.specs.Numbers.{at_once_if};

use codec_payload_core::codec::CodecDepacketizer;
use codec_payload_core::wire::{Frequency, Ticks};
use codec_payload_handle::extension_ids::{ExtensionIds, id_of, ids_of};
use codec_payload_handle::object::StreamReceiver;
use codec_payload_handle::rtp_faults::status_of;
use codec_payload_handle::settings::Spec;
use codec_payload_handle::slot::{TakenPackets, UnitSlot};
use codec_payload_handle::status;
use codec_payload_jitter::jitter::WaitLimits as Waiting;
use codec_payload_jitter::outcome::Outcome;
use codec_payload_receiver::receiver::{
    Counters, ReceiveError, Receiver, RedSettings, Retransmission, Settings,
};
use codec_payload_receiver::unit_gate::FromKeyframe;
use std::alloc::Global;

/// The settings of a receiver.
#[repr(C)]
#[derive(Drop)]
pub struct ReceiverSettings {
    pub spec: Spec,
    /// A complete frame behind a gap waits until more than this many complete frames are held. `usize::MAX`: no bound.
    pub hold_back: usize,
    /// The first frame waits until more than this many complete frames are held.
    pub start: usize,
    /// The largest number of held packets, 1 to 65,536.
    pub limit: usize,
    /// The largest number of bytes of a unit. `usize::MAX`: no bound.
    pub max_unit: usize,
    /// The longest time that a complete frame waits behind a gap, in ticks of your clock.
    pub max_wait: u64,
    pub ssrc: u32,
    /// Ticks per second of your clock: for the jitter of reports, and for the 2 s after which another stream can be chosen.
    pub tick_rate: u32,
    /// The RTP timestamp difference between successive RED packets, 1 to 16,383.
    pub red_step: u32,
    /// The SSRC of retransmissions.
    pub rtx_ssrc: u32,
    /// How far ahead of the highest number a packet may be, exclusive: 1 to 32,768.
    pub forward: u16,
    /// How far behind the highest number a packet may be, inclusive; less than `forward`.
    pub backward: u16,
    /// The payload type of the media, 0 to 127.
    pub payload_type: u8,
    /// The payload type of RED, 0 to 127; differs from `payload_type`.
    pub red_payload_type: u8,
    /// The payload type of retransmissions, 0 to 127.
    pub rtx_payload_type: u8,
    /// The payload type of retransmitted RED packets, 0 to 127.
    pub red_rtx_payload_type: u8,
    /// What happens to units of video that a decoder cannot show. 0: nothing; 1: they are marked; 2: they are dropped.
    pub from_keyframe: u8,
    /// Whether `max_wait` is set. If not, frames wait for as long as `hold_back` and `start` say.
    pub has_max_wait: bool,
    /// Whether `ssrc` is set. If not, two packets of one SSRC choose the stream.
    pub has_ssrc: bool,
    /// Whether the stream uses RED.
    pub has_red: bool,
    /// Whether there is a stream of retransmissions.
    pub has_rtx: bool,
    /// Whether RED packets are retransmitted there too.
    pub has_red_rtx: bool,
    /// The ids of the header extensions to read.
    pub extension_ids: ExtensionIds,
    /// The id of the header extension with the dependency descriptor. 0: it is not read.
    pub dependency_descriptor: u8,
}

/// How long to wait for missing packets.
#[repr(C)]
#[derive(Clone, Copy)]
pub struct WaitLimits {
    /// The longest time that a complete frame waits behind a gap, in ticks of your clock.
    pub max_wait: u64,
    /// A complete frame behind a gap waits until more than this many complete frames are held. `usize::MAX`: no bound.
    pub hold_back: usize,
    /// The first frame waits until more than this many complete frames are held.
    pub start: usize,
    /// Whether `max_wait` is set. If not, frames wait for as long as `hold_back` and `start` say.
    pub has_max_wait: bool,
}

/// Counts of datagrams and packets by outcome, each modulo 2^64.
#[repr(C)]
#[derive(Drop)]
pub struct ReceiverCountsInfo {
    pub received: u64,
    pub rtcp: u64,
    pub malformed: u64,
    pub other_streams: u64,
    /// Packets that wait for the choice of the stream.
    pub undecided: u64,
    pub no_media: u64,
    pub duplicates: u64,
    pub late: u64,
    pub suspect: u64,
    pub evicted: u64,
    /// Packets that were released in a unit.
    pub released: u64,
    /// Packets that were discarded with a frame: the sum of the next three, modulo 2^64.
    pub left: u64,
    /// Discarded packets of frames that were never complete.
    pub incomplete: u64,
    /// Discarded packets of complete frames that were skipped for their picture ids.
    pub skipped: u64,
    /// Discarded packets of frames that the depacketizer refused, and of units that were too large.
    pub refused: u64,
    pub restarts: u64,
    pub retransmitted: u64,
    pub recovered: u64,
    pub units: u64,
    /// Units of video that a decoder cannot show.
    pub undecodable: u64,
    /// Units with more bytes than the settings allow.
    pub too_large: u64,
    /// The number of held packets.
    pub held: usize,
    pub ssrc: u32,
    /// Whether the SSRC of the stream is known.
    pub has_ssrc: bool,
    /// Whether a unit waits for a larger output buffer.
    pub waiting: bool,
}

/// The fields of a receiver report (RFC 3550, section 6.4.1).
#[repr(C)]
#[derive(Drop)]
pub struct ReportInfo {
    /// Lost packets in total, minus packets that arrived more than once.
    pub cumulative_lost: i32,
    /// The highest sequence number in the low 16 bits, and above it the number of wraps.
    pub highest: u32,
    /// The interarrival jitter, in ticks of the RTP clock.
    pub jitter: u32,
    /// Lost packets since the previous report, in 1/256 of the expected packets.
    pub fraction_lost: u8,
}

/// Returns how the stream uses RED.
fn red_of(settings: &ReceiverSettings) -> Option<RedSettings>
    ensures { result ≡ red_set settings.now }
{
    if !settings.has_red {
        return None;
    }
    Some(RedSettings {
        payload_type: settings.red_payload_type,
        step: settings.red_step,
        retransmission: if settings.has_red_rtx {
            Some(settings.red_rtx_payload_type)
        } else {
            None
        },
    })
}

/// Returns whether the payload type of retransmitted RED packets, if it is used, is in range.
fn red_rtx_fits(settings: &ReceiverSettings) -> bool
    ensures { result ≡ red_rtx_in_range settings.now }
{
    !settings.has_red || !settings.has_red_rtx || settings.red_rtx_payload_type <= 127
}

/// Returns the SSRC and payload type of retransmissions.
fn retransmission_of(settings: &ReceiverSettings) -> Option<Retransmission>
    ensures { result ≡ rtx_set settings.now }
{
    if !settings.has_rtx {
        return None;
    }
    Some(Retransmission {
        ssrc: settings.rtx_ssrc,
        payload_type: settings.rtx_payload_type,
    })
}

/// Returns what happens to units that a decoder cannot show. `None`: the number has no meaning.
pub(crate) fn from_keyframe_of(number: u8) -> Option<FromKeyframe>
    ensures { result ≡ if nat_le number 2 then Option.Some (from_keyframe_numbered number) else Option.None }
{
    match number {
        0 => Some(FromKeyframe::Off),
        1 => Some(FromKeyframe::Mark),
        2 => Some(FromKeyframe::Drop),
        _ => None,
    }
}

/// Returns the bound, if there is one.
pub(crate) fn bound_of(most: usize) -> Option<usize>
    ensures { result ≡ bound_given most }
{
    if most == usize::MAX { None } else { Some(most) }
}

/// Converts the wait limits of C.
pub fn waiting_for(wait_limits: WaitLimits) -> Waiting
    ensures { result ≡ wait_limits_given wait_limits }
{
    Waiting {
        hold_back: bound_of(wait_limits.hold_back),
        start: wait_limits.start,
        max_wait: if wait_limits.has_max_wait {
            Some(wait_limits.max_wait)
        } else {
            None
        },
    }
}

/// Converts the settings of C. `None`: the clock has no rate, or `from_keyframe` or the payload type of retransmitted RED
/// packets is out of range.
fn settings_of(
    settings: &ReceiverSettings,
    clock_rate: Frequency,
    no_media: Vec<u8>,
) -> Option<Settings>
    requires clock { clock_rate ≡ settings.now.spec.rate }
    ensures made { is_some result ≡ (nat_lt 0 settings.now.tick_rate && nat_le settings.now.from_keyframe 2 && red_rtx_in_range settings.now) }
    ensures settings { IfSome result (AreSettings settings.now no_media.items) }
{
    let tick_rate = Frequency::make(settings.tick_rate)?;
    let from_keyframe = from_keyframe_of(settings.from_keyframe)?;
    if !red_rtx_fits(settings) {
        return None;
    }
    Some(Settings {
        payload_type: settings.payload_type,
        no_media,
        ssrc: if settings.has_ssrc {
            Some(settings.ssrc)
        } else {
            None
        },
        red: red_of(settings),
        retransmission: retransmission_of(settings),
        extension_ids: ids_of(settings.extension_ids),
        clock_rate,
        tick_rate,
        wait_limits: waiting_for(WaitLimits {
            max_wait: settings.max_wait,
            hold_back: settings.hold_back,
            start: settings.start,
            has_max_wait: settings.has_max_wait,
        }),
        limit: settings.limit,
        max_unit: bound_of(settings.max_unit),
        forward: settings.forward,
        backward: settings.backward,
        from_keyframe,
        dependency_descriptor: id_of(settings.dependency_descriptor),
    })
}

/// Returns the number of an outcome.
#[inline(always)]
pub(crate) fn number_of(outcome: Outcome) -> u32
    ensures { result ≡ outcome_number outcome }
{
    match outcome {
        Outcome::Held => 0,
        Outcome::HeldAndEvicted => 1,
        Outcome::Duplicate => 2,
        Outcome::Late => 3,
        Outcome::Suspect => 4,
        Outcome::Restarted(true) => 5,
        Outcome::Restarted(false) => 6,
        Outcome::NoMedia => 7,
        Outcome::OtherStream => 8,
        Outcome::Rtcp => 9,
        Outcome::Undecided => 10,
    }
}

/// Receives a datagram.
pub fn receive(stream: &mut StreamReceiver, now: u64, datagram: &[u8], outcome: &mut u32) -> u32
    ensures { Takes stream.old now datagram.now result outcome.old outcome.new stream.new }
{
    let answer = stream.receiver.receive(Ticks(now), datagram);
    report_answer(answer, outcome)
}

/// Returns the status of an answer, and its outcome, if it has one.
pub(crate) fn report_answer(answer: Result<Outcome, ReceiveError>, outcome: &mut u32) -> u32
    ensures { Tells answer result outcome.old outcome.new }
{
    match answer {
        Ok(known) => {
            *outcome = number_of(known);
            status::OK
        }
        Err(ReceiveError::Rtp(fault)) => status_of(fault),
        Err(ReceiveError::Red) => status::RED_CORRUPTED,
        Err(ReceiveError::Retransmission) => status::RTX_TOO_SHORT,
        Err(ReceiveError::OutOfMemory | ReceiveError::BlocksOutOfMemory) => status::OUT_OF_MEMORY,
    }
}

/// Returns the counters of a receiver, and whether a unit waits.
pub fn counts_of(stream: &StreamReceiver) -> ReceiverCountsInfo
    ensures { TellsCounts stream.now.receiver (is_some stream.now.waiting) result }
{
    ReceiverCountsInfo {
        waiting: stream.waiting.is_some(),
        ..counts_by(&stream.receiver)
    }
}

/// Returns the counters of a receiver for which no unit waits.
pub(crate) fn counts_by(receiver: &Receiver) -> ReceiverCountsInfo
    ensures { TellsCounts receiver.now Bool.false result }
{
    counts_from(&receiver.counters(), receiver.held(), receiver.ssrc())
}

/// Returns these counters of a receiver with this SSRC, which holds `held` packets and for which no unit waits.
pub(crate) fn counts_from(counters: &Counters, held: usize, ssrc: Option<u32>) -> ReceiverCountsInfo
    ensures { result ≡ counts_from counters.now held ssrc }
{
    let packets = &counters.packets;
    ReceiverCountsInfo {
        received: counters.received,
        rtcp: counters.rtcp,
        malformed: counters.malformed,
        other_streams: counters.other_streams,
        undecided: counters.undecided,
        no_media: packets.no_media,
        duplicates: packets.duplicates,
        late: packets.late,
        suspect: packets.suspect,
        evicted: packets.evicted,
        released: packets.released,
        left: packets.left,
        incomplete: packets.incomplete,
        skipped: packets.skipped,
        refused: packets.refused,
        restarts: packets.restarts,
        retransmitted: packets.retransmitted,
        recovered: packets.recovered,
        units: packets.units,
        undecodable: counters.undecodable,
        too_large: counters.too_large,
        held,
        ssrc: ssrc.unwrap_or(0),
        has_ssrc: ssrc.is_some(),
        waiting: false,
    }
}

/// Writes the missing numbers to `numbers`, as many as there is room for, and returns how many were written.
pub fn missing_into(receiver: &Receiver, numbers: &mut [u64]) -> usize
    ensures count { result ≡ length (missing_numbers receiver.now.packets (length numbers.old)) }
    ensures numbers { numbers.new ≡ missing_numbers receiver.now.packets (length numbers.old) ++ drop result numbers.old }
{
    let mut count = 0;
    for number in receiver.missing(numbers.len()) {
        numbers[count] = number;
        count += 1;
    }
    count
}

/// Copies the payload types. Returns `false`, and none of them, if memory runs out.
fn copied(alloc: Global, types: &[u8]) -> (Vec<u8>, bool)
    ensures { result.1 ≡ Bool.true → result.0.items ≡ types.now }
{
    match Vec::from_slice(alloc, types) {
        Ok(types) => (types, true),
        Err(_) => (Vec::new(alloc), false),
    }
}

/// Creates a receiver with these settings. Settings out of range are refused before memory that has run out.
pub fn stream_by(
    alloc: Global,
    settings: &ReceiverSettings,
    depacketizer: CodecDepacketizer,
    clock_rate: Frequency,
    no_media: &[u8],
) -> Result<StreamReceiver, u32>
    requires rate { clock_rate ≡ settings.now.spec.rate }
    ensures ok { IfOk result (λ r. IsNewStream settings.now no_media.now (Option.Some (depacketizer_state_of depacketizer)) r × (is_in_range settings.now ≡ Bool.true)) }
    ensures err { IfErr result (λ status. RefusesSettings (is_in_range settings.now) status) }
{
    let (no_media, has_memory) = copied(alloc, no_media);
    let Some(settings) = settings_of(settings, clock_rate, no_media) else {
        return Err(status::INVALID);
    };
    let Ok(receiver) = Receiver::new(alloc, depacketizer, settings) else {
        return Err(status::INVALID);
    };
    if !has_memory {
        return Err(status::OUT_OF_MEMORY);
    }
    let waiting = UnitSlot::new(alloc);
    let lent = Vec::new(alloc);
    let taken = TakenPackets::new(alloc);
    Ok(StreamReceiver {
        receiver,
        waiting,
        lent,
        taken,
    })
}

/// Returns when a pop may return a unit even if no datagram arrives: at once if one waits for a larger output buffer.
pub fn next_pop(stream: &StreamReceiver) -> Option<u64>
    ensures { result ≡ at_once_if stream.now.waiting (deadline_of stream.now.receiver.packets) }
{
    if stream.waiting.is_some() {
        return Some(0);
    }
    match stream.receiver.next_deadline() {
        Some(at) => Some(at.0),
        None => None,
    }
}

/// Ends the stream. If memory runs out for a packet that waits, nothing changes.
pub fn finish(stream: &mut StreamReceiver) -> u32
    ensures ends { EndsWith result stream.old.receiver stream.new.receiver }
    ensures rest { stream.new ≡ record stream.old { receiver = stream.new.receiver } }
{
    match stream.receiver.finish() {
        Ok(()) => status::OK,
        Err(_) => status::OUT_OF_MEMORY,
    }
}
