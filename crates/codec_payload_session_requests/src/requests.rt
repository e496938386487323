//! What a stream of a session requests: missing packets and keyframes.

ghost use Rattle.std.specs.Prelude.{◌≡◌, ◌<◌, ◌&&◌, ℕ, IfOk, Option, true};
ghost use Rattle.codec_payload_session_requests.specs.Requests.{MayRest};
ghost use Rattle.codec_payload_session_requests.specs.Requests.{IsCalm, are_idle, is_calm};
ghost use Rattle.codec_payload_feedback.specs.Feedback.{is_idle};
ghost use Rattle.codec_payload_session_requests.specs.Requests.{Asks, Refreshes, after_number, answer_by, answered_if, asked_by, feedback_by, fitted, has_requested, heard_by, is_heard, is_patient, longest_for, nack_for, number_at, original_number, range_for, reported_by, request_counts_of, requests_due, round_trip_of, source_for, spaced, wait_by, wait_for, wait_of, wants_keyframe};

use crate::named::NamedReceiver;
use codec_payload_base::wire::Ticks;
use codec_payload_datagrams::parsed::ParsedDatagram;
use codec_payload_feedback::requests::{FeedbackSource, RequestCounts, StreamRequests};
use codec_payload_feedback_requests::nack::NackSettings;
use codec_payload_receiver::receiver::Receiver;
use codec_payload_session_formats::formats::{
    FeedbackSettings, Format, LONGEST_NAME, Waiting, is_video,
};
use std::alloc::{AllocError, Global};
use std::marker::Model;

/// What a session does with a request for a keyframe.
#[derive(Clone, Copy, Debug, PartialEq, Eq)]
pub enum KeyframeAnswer {
    /// The stream requests a keyframe as soon as its limit allows.
    Requested,
    /// No stream has this SSRC, or the first one that has it is about to end.
    NoStream,
    /// The sender answers no requests for keyframes: the format has no `pli`, or the settings of the session have no `feedback`.
    NotNegotiated,
}

/// The requests of one stream, and who sends them.
#[derive(Debug, Drop)]
pub struct Feedback {
    source: FeedbackSource,
    requests: Box<StreamRequests>,
    /// How many missing packets are requested at most.
    most: usize,
    /// Whether keyframes are requested.
    pli: bool,
    /// For how many ticks after the latest datagram anything is requested.
    silence: u64,
    /// How waiting follows the round trip. `None`: it does not.
    waits: Option<WaitRange>,
    /// Whether the caller asked for a keyframe, and none was requested or released since.
    asked: bool,
    /// Memory for the missing numbers.
    missing: Vec<u64>,
}

/// The limits between which waiting follows the round trip, in ticks.
#[derive(Clone, Copy, Debug)]
pub(crate) struct WaitRange {
    least: u64,
    most: u64,
    /// Whether frames wait for `most` until the round trip is known.
    is_patient: bool,
}

impl Model for Feedback {
    ghost use Rattle.codec_payload_session_requests.specs.Requests.{Asking};

    ghost Value = { Asking };

    ghost view = { λ f. record { source = f.source; requests = f.requests.value; most = f.most; pli = f.pli; silence = f.silence; waits = f.waits; asked = f.asked } };
}

impl Feedback {
    /// Returns the requests of a new stream whose frames wait for at most `max_wait`. `None`: it requests nothing.
    pub fn begin(
        alloc: Global,
        settings: &Option<FeedbackSettings>,
        ssrc: u32,
        format: &Format,
        max_wait: Option<u64>,
    ) -> Result<Option<Feedback>, AllocError>
        ensures { IfOk result (λ feedback. feedback ≡ feedback_by settings.now ssrc format.now max_wait) }
    {
        match settings {
            Some(settings) if format.nack || format.pli => {
                let source = source_for(alloc, settings)?;
                let requests = StreamRequests::new(
                    alloc,
                    ssrc,
                    nack_for(settings, format, max_wait),
                    settings.keyframe_interval.max(1),
                );
                let most = if format.nack {
                    settings.nack.capacity
                } else {
                    0
                };
                Ok(Some(Feedback {
                    source,
                    requests: Box::new(alloc, requests)?,
                    most,
                    pli: format.pli,
                    silence: settings.silence,
                    waits: wait_range(settings, format, max_wait),
                    asked: false,
                    missing: Vec::new(alloc),
                }))
            }
            _ => Ok(None),
        }
    }

    /// Records that a packet with this number came. If the number was requested, that measures the round trip.
    #[inline(always)]
    fn hear(&mut self, now: Ticks, number: Option<u16>)
        ensures { self.new ≡ after_number now.0 number self.old }
    {
        if let Some(number) = number {
            self.requests.answered(now, number);
        }
    }

    /// Returns how long a frame may wait, by the round trip. `None`: the wait limits stay.
    fn wait(&self) -> Option<u64>
        ensures { result ≡ wait_of self.now }
    {
        match self.waits {
            Some(range) => wait_for(range, self.requests.answer_time()),
            None => None,
        }
    }

    /// Returns whether a keyframe is to be requested: the receiver needs one, or the caller asked for one.
    #[inline(always)]
    fn wants_keyframe(&self, receiver: &Receiver) -> bool
        ensures { result ≡ wants_keyframe self.now receiver.now }
    {
        self.pli && (receiver.wants_keyframe() || self.asked)
    }

    /// Returns whether nothing is to be requested: the receiver misses no packet, and needs no keyframe.
    fn is_calm(&self, receiver: &Receiver) -> bool
        ensures { result ≡ is_calm self.now receiver.now }
    {
        !self.wants_keyframe(receiver) && receiver.missing(self.most.min(1)).next().is_none()
    }

    /// Returns whether nothing is requested, and nothing is to be requested.
    #[inline(always)]
    fn is_idle(&self, receiver: &Receiver) -> bool
        ensures { result ≡ (is_idle self.now.requests && is_calm self.now receiver.now) }
    {
        self.requests.is_idle() && self.is_calm(receiver)
    }

    /// Returns until when what is requested changes by no other cause than a request that is due. `calm` says that nothing is to be
    /// requested.
    #[inline(always)]
    fn rest_time(&self, now: Ticks, last: u64, receiver: &Receiver, calm: bool) -> u64
        requires { calm ≡ true → is_calm self.now receiver.now ≡ true }
        ensures { (later : ℕ) → later < result → MayRest (Option.Some self.now) now.0 later last receiver.now }
    {
        if calm {
            return u64::MAX;
        }
        if now.0.saturating_sub(last) <= self.silence {
            last.saturating_add(self.silence).saturating_add(1)
        } else if self.is_calm(receiver) {
            u64::MAX
        } else {
            0
        }
    }

    /// Replaces what is requested by what the receiver misses now. Nothing is requested of a silent sender.
    fn refresh(
        &mut self,
        now: Ticks,
        is_heard: bool,
        receiver: &mut NamedReceiver,
    ) -> Result<(), AllocError>
        ensures refreshes { Refreshes now.0 is_heard receiver.old self.old result self.new }
        ensures same { receiver.new ≡ receiver.old }
    {
        let most = if is_heard { self.most } else { 0 };
        let wants_keyframe = is_heard && self.wants_keyframe(receiver.inner());
        receiver.missing_into(most, &mut self.missing)?;
        self.requests.update(now, &self.missing, wants_keyframe)
    }

    /// Returns the packet with all requests that are due, by what the receiver misses now. `None`: nothing is due. `last` is when
    /// the latest datagram arrived. With `true` beside it nothing is to be requested.
    pub fn take_due(
        &mut self,
        now: Ticks,
        last: u64,
        receiver: &mut NamedReceiver,
    ) -> (Result<Option<Vec<u8>>, AllocError>, bool)
        ensures asks { Asks now.0 (is_heard now.0 last self.old) receiver.old self.old result.0 self.new }
        ensures calm { result.1 ≡ true → is_calm self.new receiver.new ≡ true }
        ensures same { receiver.new ≡ receiver.old }
    {
        if self.is_idle(receiver.inner()) {
            return (Ok(None), true);
        }
        (self.take_requests(now, last, receiver), false)
    }

    /// Returns the same packet, whatever is to be requested.
    #[inline(always)]
    fn take_requests(
        &mut self,
        now: Ticks,
        last: u64,
        receiver: &mut NamedReceiver,
    ) -> Result<Option<Vec<u8>>, AllocError>
        ensures asks { Asks now.0 (is_heard now.0 last self.old) receiver.old self.old result self.new }
        ensures same { receiver.new ≡ receiver.old }
    {
        let is_heard = now.0.saturating_sub(last) <= self.silence;
        self.refresh(now, is_heard, receiver)?;
        let keyframe = self.requests.is_keyframe_due(now);
        let packet = self.requests.take_due(now, &self.source)?;
        self.asked = self.asked && !keyframe;
        Ok(packet)
    }
}

/// Asks for a keyframe, if the stream's sender answers requests for keyframes.
pub fn ask_keyframe(feedback: &mut Option<Feedback>) -> KeyframeAnswer
    ensures answer { result ≡ answer_by feedback.old }
    ensures after { feedback.new ≡ asked_by feedback.old }
{
    match feedback {
        Some(feedback) if feedback.pli => {
            feedback.asked = true;
            feedback.requests.want_keyframe();
            KeyframeAnswer::Requested
        }
        _ => KeyframeAnswer::NotNegotiated,
    }
}

/// Forgets that the caller asked for a keyframe, if one was released.
#[inline(always)]
pub fn answer_if(feedback: &mut Option<Feedback>, keyframe: bool)
    ensures { feedback.new ≡ answered_if keyframe feedback.old }
{
    if let Some(feedback) = feedback {
        feedback.asked = feedback.asked && !keyframe;
    }
}

/// Records the number of a packet that was accepted.
#[inline(always)]
pub fn hear(
    feedback: &mut Option<Feedback>,
    format: &Format,
    now: Ticks,
    datagram: &ParsedDatagram<'_>,
)
    ensures { feedback.new ≡ heard_by now.0 (number_at format.now datagram.now) feedback.old }
{
    if let Some(feedback) = feedback {
        feedback.hear(now, number_of(format, datagram));
    }
}

/// Returns when the next request is due.
#[inline(always)]
pub fn requests_due(feedback: &Option<Feedback>) -> Option<u64>
    ensures { result ≡ requests_due feedback.now }
{
    match feedback {
        Some(feedback) => match feedback.requests.next_deadline() {
            Some(at) => Some(at.0),
            None => None,
        },
        None => None,
    }
}

/// Returns whether nothing is requested, and nothing is to be requested.
#[inline(always)]
pub fn are_idle(feedback: &Option<Feedback>, receiver: &Receiver) -> bool
    ensures { result ≡ are_idle feedback.now receiver.now }
{
    match feedback {
        Some(feedback) => feedback.is_idle(receiver),
        None => true,
    }
}

/// Returns until when a stream requests nothing before a request is due, if it had nothing to request at `now`, and its receiver
/// stays as it is. `last` is when its latest datagram arrived. `calm` says that nothing is to be requested.
#[inline(always)]
pub fn rest_time(
    feedback: &Option<Feedback>,
    now: Ticks,
    last: u64,
    receiver: &Receiver,
    calm: bool,
) -> u64
    requires { calm ≡ true → IsCalm feedback.now receiver.now }
    ensures { (later : ℕ) → later < result → MayRest feedback.now now.0 later last receiver.now }
{
    match feedback {
        Some(feedback) => feedback.rest_time(now, last, receiver, calm),
        None => u64::MAX,
    }
}

/// Returns whether a missing packet with this number was requested.
pub fn has_requested(feedback: &Option<Feedback>, number: u16) -> bool
    ensures { result ≡ has_requested number feedback.now }
{
    match feedback {
        Some(feedback) => feedback.requests.has_requested(number),
        None => false,
    }
}

/// Returns how many requests were sent.
pub fn request_counts(feedback: &Option<Feedback>) -> RequestCounts
    ensures { result ≡ request_counts_of feedback.now }
{
    match feedback {
        Some(feedback) => feedback.requests.counts(),
        None => RequestCounts {
            numbers: 0,
            keyframes: 0,
        },
    }
}

/// Sets the round trip that extended reports measured, in ticks. `None`: the answers to requests count.
pub fn set_reported(feedback: &mut Option<Feedback>, round_trip: Option<u64>)
    ensures { feedback.new ≡ reported_by round_trip feedback.old }
{
    if let Some(feedback) = feedback {
        feedback.requests.set_reported(round_trip);
    }
}

/// Returns the round-trip time: what extended reports say, or else the median of the latest five answers to requests.
pub fn round_trip(feedback: &Option<Feedback>) -> Option<u64>
    ensures { result ≡ round_trip_of feedback.now }
{
    match feedback {
        Some(feedback) => feedback.requests.round_trip(),
        None => None,
    }
}

/// Returns how long a frame of the stream may wait, by the round trip. `None`: its wait limits stay.
#[inline(always)]
pub fn wait_by(feedback: &Option<Feedback>) -> Option<u64>
    ensures { result ≡ wait_by feedback.now }
{
    match feedback {
        Some(feedback) => feedback.wait(),
        None => None,
    }
}

/// Returns whether a stream of the format waits for the first answers: it is video, and requests missing packets. A keyframe that is
/// dropped before that costs all frames up to the next one.
fn is_patient(format: &Format) -> bool
    ensures { result ≡ is_patient format.now }
{
    format.nack && is_video(format.spec.codec)
}

/// Returns how waiting follows the round trip, if it does.
fn wait_range(
    settings: &FeedbackSettings,
    format: &Format,
    max_wait: Option<u64>,
) -> Option<WaitRange>
    ensures { result ≡ range_for settings.now format.now max_wait }
{
    match (format.wait, settings.longest_wait, max_wait) {
        (Waiting::RoundTrip, Some(most), Some(least)) => Some(WaitRange {
            least,
            most,
            is_patient: is_patient(format),
        }),
        _ => None,
    }
}

/// Returns how long a frame may wait: until its last request is answered, if the round trip is sure, within the range. `None`: the wait
/// limits stay.
fn wait_for(range: WaitRange, answer_time: Option<u64>) -> Option<u64>
    ensures { result ≡ wait_for (Option.Some range) answer_time }
{
    match answer_time {
        Some(answer_time) => Some(answer_time.min(range.most).max(range.least)),
        None if range.is_patient => Some(range.most.max(range.least)),
        None => None,
    }
}

/// Returns when a stream of the format requests a missing packet: as the settings say, and so that four requests leave while a frame
/// waits.
fn nack_for(settings: &FeedbackSettings, format: &Format, max_wait: Option<u64>) -> NackSettings
    ensures { result ≡ nack_for settings.now format.now max_wait }
{
    spaced(fitted(settings.nack, longest_for(settings, format, max_wait)))
}

/// Returns how long a frame of the format waits at most. `None`: there is no limit, or waiting follows how late packets arrive.
fn longest_for(settings: &FeedbackSettings, format: &Format, max_wait: Option<u64>) -> Option<u64>
    ensures { result ≡ longest_for settings.now format.now max_wait }
{
    match (format.wait, settings.longest_wait, max_wait) {
        (Waiting::Late, _, _) => None,
        (Waiting::RoundTrip, Some(most), Some(least)) => Some(most.max(least)),
        _ => max_wait,
    }
}

/// Returns the settings with at most a quarter of the wait between two requests of a number, but not less than `shortest_retry`.
fn fitted(nack: NackSettings, wait: Option<u64>) -> NackSettings
    ensures { result ≡ fitted nack wait }
{
    match wait {
        Some(wait) => {
            let longest = nack.shortest_retry.max(wait / 4);
            NackSettings {
                retry: nack.retry.min(longest),
                longest_retry: nack.longest_retry.min(longest),
                ..nack
            }
        }
        None => nack,
    }
}

/// Returns the settings with at least one tick between two requests of a number, so that a loop of polls at one moment ends.
fn spaced(nack: NackSettings) -> NackSettings
    ensures { result ≡ spaced nack }
{
    NackSettings {
        retry: nack.retry.max(1),
        shortest_retry: nack.shortest_retry.max(1),
        longest_retry: nack.longest_retry.max(1),
        ..nack
    }
}

/// Returns who sends the requests.
pub fn source_for(alloc: Global, settings: &FeedbackSettings) -> Result<FeedbackSource, AllocError>
    ensures { IfOk result (λ source. source ≡ source_for settings.now) }
{
    let len = LONGEST_NAME.min(settings.cname.len());
    let cname = Vec::from_slice(alloc, &settings.cname[..len])?;
    Ok(FeedbackSource::new(alloc, settings.ssrc, cname, settings.has_report).unwrap())
}

/// Returns the number that a packet answers: that of a retransmission is its original number (RFC 4588, section 4). If
/// retransmissions have a separate payload type, no other packet answers: it may only be late.
fn number_of(format: &Format, datagram: &ParsedDatagram<'_>) -> Option<u16>
    ensures { result ≡ number_at format.now datagram.now }
{
    match datagram.packet() {
        Ok(packet) if format.resends(packet.header.payload_type) => original_number(packet.payload),
        Ok(packet) if format.retransmission.is_none() => Some(packet.header.sequence_number),
        _ => None,
    }
}

/// Returns the original number of a retransmission.
pub fn original_number(payload: &[u8]) -> Option<u16>
    ensures { result ≡ original_number payload.now }
{
    match payload {
        [high, low, ..] => Some(u16::from(*high) * 256 + u16::from(*low)),
        _ => None,
    }
}
