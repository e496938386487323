//! One stream of a session: its receiver, and when it begins and ends.

ghost use Rattle.std.specs.Prelude.{◌≡◌, if◌then◌else◌, IfOk, IfSome, true};
ghost use Rattle.std.specs.Option.{option_map};
ghost use Rattle.codec_payload_session_stream.specs.Changes.{is_left_behind, is_playing, left_behind, plays};
ghost use Rattle.codec_payload_session_formats.specs.Checks.{can_begin};
ghost use Rattle.codec_payload_session_stream.specs.Dues.{key_of};
ghost use Rattle.codec_payload_session_stream.specs.Pairs.{paired_if};
ghost use Rattle.codec_payload_session_stream.specs.Quiet.{RestsUntil, is_done};
ghost use Rattle.codec_payload_session_requests.specs.Requests.{IsCalm, wait_by};
ghost use Rattle.codec_payload_rtp.specs.RtpReading.{rtp_at};
ghost use Rattle.codec_payload_session_stream.specs.Streams.{Begins, Drains, IsInfo, Pops, RequestsBy, RestsBy, Steps, Takes, answer_for, asked_for, due_of, end_of, heard, heard_unless, is_accepted, is_ending, is_former, is_keyframe, is_no_memory, is_of, is_probation, late_followed, left, left_when, payload_size, received, step_of, step_with, waiting_for, waiting_if, work_deadline};
ghost use Rattle.codec_payload_session_stream.specs.Turns.{is_nothing};
ghost use Rattle.codec_payload_session_stream.specs.Units.{step_to};
ghost use Rattle.codec_payload_session_stream.specs.Waking.{WakesAt, or_max};
ghost use Rattle.codec_payload_session_stream.specs.declared.stream.Step.TheVariants as steps;

use crate::arrival::size_of;
use crate::changes::{are_alike, takes_turns};
use crate::reports::SenderClock;
use crate::times::{LAST_KEY, earlier, key_of, or_max, or_none, time_of};
use codec_payload_base::error::PacketError;
use codec_payload_base::wire::Ticks;
use codec_payload_buffer::buffer::PoppedUnit;
use codec_payload_codec::codec::CodecDepacketizer;
use codec_payload_datagrams::parsed::ParsedDatagram;
use codec_payload_feedback::requests::RequestCounts;
use codec_payload_feedback_wait::adaptive_wait::AdaptiveWait;
use codec_payload_jitter::jitter::WaitLimits;
use codec_payload_jitter::outcome::Outcome;
use codec_payload_receiver::pops::Popped;
use codec_payload_receiver::receiver::{Counters, ReceiveError, Receiver};
use codec_payload_session_formats::formats::{
    Format, SessionSettings, SsrcPair, retransmission_for,
};
use codec_payload_session_formats::names::{StreamNameIds, StreamNames};
use codec_payload_session_requests::late::{follow, late_for, limit_by};
use codec_payload_session_requests::named::NamedReceiver;
use codec_payload_session_requests::probes::{
    Probes, note_probe, probe_count, probes_for, without_probes,
};
use codec_payload_session_requests::requests::{
    Feedback, KeyframeAnswer, answer_if, are_idle, ask_keyframe, hear, request_counts,
    requests_due, rest_time, round_trip, wait_by,
};
use codec_payload_stream_edges::following::StreamEdges;
use std::alloc::{AllocError, Global};
use std::marker::Model;

/// Why a stream ended.
#[derive(Clone, Copy, Debug, PartialEq, Eq)]
pub enum Ending {
    /// Its sender left by a BYE (RFC 3550, section 6.6).
    Bye,
    /// No datagram arrived for the idle timeout.
    Timeout,
    /// The caller ended it.
    ByCall,
    /// Its sender continues in another format under the same SSRC, or its format is gone (`Session::set_formats`).
    Changed,
}

/// The stage of a stream's life.
#[derive(Clone, Copy, Debug, PartialEq, Eq)]
pub enum Stage {
    /// Too few datagrams were accepted so far, and the stream is not announced.
    Probation,
    Playing,
    /// The stream takes datagrams until this time, and then ends.
    Leaving(Ending, u64),
    /// The complete frames that it holds are released, and then the stream is removed.
    Draining(Ending),
}

/// A stream of a session, as `Session::stream_at` reports it.
#[derive(Clone, Copy, Debug)]
pub struct StreamInfo {
    pub ssrc: u32,
    /// The payload type of its format.
    pub payload_type: u8,
    pub stage: Stage,
    /// How many datagrams it took, modulo 2^64.
    pub taken: u64,
    /// How many bytes of payload these had, without headers and padding, modulo 2^64: `bytesReceived` of the W3C's statistics.
    pub bytes: u64,
    /// The number of held packets.
    pub held: usize,
    /// The outcomes of its datagrams, without `probes`: these are neither late nor duplicates here.
    pub counters: Counters,
    /// Retransmissions (RFC 4588) of numbers that came before, modulo 2^64. A sender sends such ones to find out what the network carries.
    /// Of all numbers with the same remainder by 2,048 the latest is remembered.
    pub probes: u64,
    /// The round-trip time in ticks: what extended reports say (RFC 3611), or else the median of the latest five answers to requests of
    /// the session. `None`: neither came.
    pub round_trip: Option<u64>,
    /// How many missing packets and keyframes the session requested.
    pub requests: RequestCounts,
    /// What the latest sender report of its SSRC says, once one arrived after the stream began.
    pub sender_clock: Option<SenderClock>,
}

/// A stream of a session.
#[derive(Debug, Drop)]
pub struct StreamState {
    pub ssrc: u32,
    pub format: Format,
    pub receiver: NamedReceiver,
    /// The edges of its pictures: they show which of its missing numbers carry no media.
    pub(crate) edges: StreamEdges,
    /// The id of the header extension element with the dependency descriptor.
    pub(crate) descriptor: Option<u8>,
    pub stage: Stage,
    /// Whether the stream was announced.
    pub announced: bool,
    pub taken: u64,
    /// How many of these datagrams were accepted.
    pub(crate) accepted: u64,
    /// How many bytes of payload they had.
    bytes: u64,
    /// When the latest datagram arrived.
    pub(crate) last: u64,
    /// What it requests. `None`: nothing.
    pub feedback: Option<Feedback>,
    /// Which of its retransmissions are of packets that came before.
    probes: Option<Box<Probes>>,
    /// How late its missing packets arrive, if waiting follows that.
    late: Option<Box<AdaptiveWait>>,
    /// What the latest sender report says.
    pub sender_clock: Option<SenderClock>,
    /// Whether this round of reports had a block about it.
    pub was_reported: bool,
    /// The header extensions that have its names.
    name_ids: StreamNameIds,
    /// The names that its accepted packets had.
    pub names: StreamNames,
    /// At earlier times a step has no event, unless the stream is idle. 0: it is not known.
    pub(crate) quiet_until: u64,
    /// Its `work_deadline`, unless `quiet_until` is 0. 0: there is none.
    work: u64,
}

impl Model for StreamState {
    ghost use Rattle.codec_payload_session_stream.specs.Streams.{StreamState};

    ghost Value = { StreamState };

    ghost use Rattle.codec_payload_session_stream.specs.Quiet.{IsQuietUntil, time_of};
    ghost use Rattle.codec_payload_session_requests.specs.Late.{unboxed};
    ghost use Rattle.codec_payload_session_requests.specs.Probes.{in_box};

    ghost view = { λ s. record {
      ssrc = s.ssrc;
      format = s.format;
      receiver = s.receiver;
      edges = record { descriptor = s.descriptor; followed = s.edges };
      stage = s.stage;
      announced = s.announced;
      taken = s.taken;
      accepted = s.accepted;
      bytes = s.bytes;
      last = s.last;
      feedback = s.feedback;
      probes = in_box s.probes;
      late = unboxed s.late;
      sender_clock = s.sender_clock;
      was_reported = s.was_reported;
      name_ids = s.name_ids;
      names = s.names;
    } };

    ghost invariant = { λ s. IsQuietUntil s.quiet_until (time_of s.work) s.announced s.stage s.last s.feedback s.receiver };
}

/// A step of a stream: its next event, or nothing. `U` is what it carries of a unit.
#[derive(Debug, Drop)]
pub enum Step<U> {
    Begun,
    /// A unit. If memory ran out for it, the frame is kept.
    Unit(Result<U, AllocError>),
    /// A unit above the bound of the settings.
    TooLarge(U),
    /// A frame that the depacketizer refused.
    Refused(PacketError),
    /// A packet of RTCP to send. If memory ran out, its requests stay due.
    Feedback(Result<Vec<u8>, AllocError>),
    Ended(Ending),
    Nothing,
}

/// The step of the stream at a place.
#[derive(Debug, Drop)]
pub struct Turn<U> {
    pub place: usize,
    pub step: Step<U>,
}

impl StreamState {
    /// Creates a stream without datagrams.
    pub fn begin(
        alloc: Global,
        settings: &SessionSettings,
        ssrc: u32,
        format: &Format,
    ) -> Result<StreamState, AllocError>
        requires { can_begin settings.now format.now ≡ true }
        ensures { IfOk result (Begins settings.now ssrc format.now) }
    {
        let mut depacketizer = CodecDepacketizer::from_codec(alloc, format.spec.codec).unwrap();
        depacketizer.configure_for(&format.spec);
        let max_wait = settings.limits(format).max_wait;
        let feedback = Feedback::begin(alloc, &settings.feedback, ssrc, format, max_wait)?;
        let late = late_for(alloc, settings, format)?;
        let probes = probes_for(alloc, format)?;
        let name_ids = settings.name_ids;
        let descriptor = settings.dependency_descriptor;
        let settings = settings.receiver(alloc, ssrc, format)?;
        let begun = NamedReceiver::begin(alloc, depacketizer, settings)?;
        let receiver = begun.unwrap();
        Ok(StreamState {
            ssrc,
            format: *format,
            receiver,
            edges: StreamEdges::new(alloc),
            descriptor,
            stage: Stage::Probation,
            announced: false,
            taken: 0,
            accepted: 0,
            bytes: 0,
            last: 0,
            feedback,
            probes,
            late,
            sender_clock: None,
            was_reported: false,
            name_ids,
            names: StreamNames::default(),
            quiet_until: 0,
            work: 0,
        })
    }

    /// Returns whether the stream has this SSRC and payload type.
    #[inline(always)]
    pub(crate) fn is_of(&self, ssrc: u32, payload_type: u8) -> bool
        ensures { result ≡ is_of ssrc payload_type self.now }
    {
        self.ssrc == ssrc && self.format.payload_type == payload_type
    }

    /// Returns whether the stream is in probation.
    pub fn is_on_probation(&self) -> bool
        ensures { result ≡ is_probation self.now.stage }
    {
        is_probation(self.stage)
    }

    /// Passes a datagram to the receiver, and records which numbers carry no media. If memory runs out, only the receiver may have
    /// changed.
    #[inline(always)]
    pub fn take(
        &mut self,
        now: Ticks,
        probation: u64,
        datagram: &ParsedDatagram<'_>,
    ) -> Result<Outcome, ReceiveError>
        ensures { Takes now probation datagram.now self.old result self.new }
    {
        self.quiet_until = 0;
        let answer = self.receiver.receive(now, datagram);
        note_probe(&mut self.probes, &self.format, datagram, &answer);
        self.follow_edges(datagram, &answer);
        let accepted = is_accepted(&answer);
        self.hear_if(accepted, now, datagram);
        self.follow_if(answer.is_ok(), now, datagram);
        self.note_answer(&answer, now, probation, datagram);
        answer
    }

    /// Reads the names of an accepted datagram, and measures the round trip by it, if it answers a request.
    #[inline(always)]
    fn hear_if(&mut self, accepted: bool, now: Ticks, datagram: &ParsedDatagram<'_>)
        ensures { self.new ≡ received now.0 datagram.now accepted self.old.receiver self.old }
    {
        if accepted {
            self.quiet_until = 0;
            hear(&mut self.feedback, &self.format, now, datagram);
            self.names.note(&self.name_ids, datagram);
            self.follow_round_trip();
        }
    }

    /// Waits as long as missing packets are late, if waiting follows that, and if the receiver accepted or dropped the datagram.
    #[inline(always)]
    fn follow_if(&mut self, received: bool, now: Ticks, datagram: &ParsedDatagram<'_>)
        ensures { self.new ≡ late_followed received now.0 datagram.now self.old }
    {
        if received {
            self.quiet_until = 0;
            follow(
                &mut self.late,
                &self.format,
                now,
                datagram,
                self.receiver.inner(),
            );
            let limit = limit_by(&self.late);
            self.wait_for(limit);
        }
    }

    /// Counts one more datagram, unless memory ran out for it.
    #[inline(always)]
    fn note_answer(
        &mut self,
        answer: &Result<Outcome, ReceiveError>,
        now: Ticks,
        probation: u64,
        datagram: &ParsedDatagram<'_>,
    )
        ensures { self.new ≡ heard_unless (is_no_memory answer.now) now.0 probation (is_accepted answer.now) (payload_size (rtp_at datagram.now)) self.old }
    {
        if !is_no_memory(answer) {
            self.note(now, probation, is_accepted(answer), size_of(datagram));
        }
    }

    /// Waits for as long as the round trip asks for, if waiting follows it and it is sure.
    #[inline(always)]
    pub(crate) fn follow_round_trip(&mut self)
        ensures { self.new ≡ waiting_for (wait_by self.old.feedback) self.old }
    {
        let wait = wait_by(&self.feedback);
        self.wait_for(wait);
    }

    /// Waits for at most that time. `None`: the wait limits stay.
    #[inline(always)]
    fn wait_for(&mut self, wait: Option<u64>)
        ensures { self.new ≡ waiting_for wait self.old }
    {
        if let Some(wait) = wait {
            self.quiet_until = 0;
            let mut limits = self.receiver.inner().wait_limits();
            limits.max_wait = Some(wait);
            self.receiver.set_wait_limits(limits);
        }
    }

    /// Counts one more datagram, with so many bytes of payload.
    #[inline(always)]
    fn note(&mut self, now: Ticks, probation: u64, accepted: bool, size: u64)
        ensures { self.new ≡ heard now.0 probation accepted size self.old }
    {
        self.quiet_until = 0;
        self.taken = self.taken.wrapping_add(1);
        self.bytes = self.bytes.wrapping_add(size);
        self.last = now.0;
        if accepted {
            self.accepted = self.accepted.saturating_add(1);
        }
        if is_probation(self.stage) && self.accepted >= probation {
            self.stage = Stage::Playing;
        }
    }

    /// Sets the time at which the stream ends. An earlier end stays.
    fn leave(&mut self, why: Ending, at: u64)
        ensures { self.new ≡ left why at self.old }
    {
        self.quiet_until = 0;
        match self.stage {
            Stage::Draining(_) => {}
            Stage::Leaving(first, before) => self.stage = Stage::Leaving(first, before.min(at)),
            _ => self.stage = Stage::Leaving(why, at),
        }
    }

    /// Does the same if `leaves` is true.
    pub fn leave_if(&mut self, leaves: bool, why: Ending, at: u64)
        ensures { self.new ≡ left_when leaves why at self.old }
    {
        if leaves {
            self.leave(why, at);
        }
    }

    /// Returns whether the stream has this SSRC and payload type, and plays.
    pub(crate) fn plays(&self, ssrc: u32, payload_type: u8) -> bool
        ensures { result ≡ plays ssrc payload_type self.now }
    {
        self.is_of(ssrc, payload_type) && is_playing(self.stage)
    }

    /// Returns whether the stream is announced, and has the names of this sender under another SSRC.
    pub fn is_former(&self, ssrc: u32, names: &StreamNames) -> bool
        ensures { result ≡ is_former ssrc names.now self.now }
    {
        self.announced && self.ssrc != ssrc && names.are_of_one(&self.names)
    }

    /// Returns whether the sender left the stream for this format: it took no datagram for `wait` ticks.
    #[inline(always)]
    pub fn is_left_behind(&self, now: u64, wait: u64, ssrc: u32, format: &Format) -> bool
        ensures { result ≡ is_left_behind now wait ssrc format.now self.now }
    {
        self.ssrc == ssrc
            && self.format.payload_type != format.payload_type
            && !takes_turns(self.format.spec.codec)
            && are_alike(self.format.spec.codec, format.spec.codec)
            && is_playing(self.stage)
            && wait <= now.saturating_sub(self.last)
    }

    /// Ends the stream if its sender left it for this format.
    pub(crate) fn leave_behind(&mut self, now: u64, wait: u64, ssrc: u32, format: &Format)
        ensures { self.new ≡ left_behind now wait ssrc format.now self.old }
    {
        let leaves = self.is_left_behind(now, wait, ssrc, format);
        self.leave_if(leaves, Ending::Changed, now);
    }

    /// Replaces the wait limits, if the stream has this SSRC and payload type.
    pub fn wait_if(&mut self, ssrc: u32, payload_type: u8, wait_limits: WaitLimits)
        ensures { self.new ≡ waiting_if ssrc payload_type wait_limits self.old }
    {
        if self.is_of(ssrc, payload_type) {
            self.quiet_until = 0;
            self.receiver.set_wait_limits(wait_limits);
        }
    }

    /// Takes the retransmissions that the stream has by these pairs, if it has this SSRC.
    pub(crate) fn pair_if(&mut self, ssrc: u32, pairs: &[SsrcPair])
        ensures { self.new ≡ paired_if ssrc pairs.now self.old }
    {
        if self.ssrc == ssrc {
            self.quiet_until = 0;
            let retransmission = retransmission_for(pairs, self.ssrc, self.format.retransmission);
            self.receiver.set_retransmission(retransmission);
        }
    }

    /// Asks for a keyframe, unless the stream ends or its sender answers no requests for keyframes.
    pub fn request_keyframe(&mut self) -> KeyframeAnswer
        ensures answer { result ≡ answer_for self.old }
        ensures after { self.new ≡ asked_for self.old }
    {
        if is_ending(self.stage) {
            return KeyframeAnswer::NoStream;
        }
        self.quiet_until = 0;
        ask_keyframe(&mut self.feedback)
    }

    /// Returns why the stream ends now, if it does.
    #[inline(always)]
    fn end_at(&self, now: u64, idle_timeout: u64) -> Option<Ending>
        ensures { result ≡ end_of now idle_timeout self.now }
    {
        match self.stage {
            Stage::Leaving(why, at) if at <= now => Some(why),
            Stage::Playing if idle_timeout <= now.saturating_sub(self.last) => Some(
                Ending::Timeout,
            ),
            _ => None,
        }
    }

    /// Finishes the receiver if the stream ends now, so that pops wait for nothing.
    #[inline(always)]
    fn drain(&mut self, now: u64, idle_timeout: u64)
        ensures { Drains (end_of now idle_timeout self.old) self.old self.new }
    {
        if let Some(why) = self.end_at(now, idle_timeout) {
            self.quiet_until = 0;
            self.receiver.finish();
            self.stage = Stage::Draining(why);
        }
    }

    /// Returns the next event of the stream, and writes its unit to `unit`. A stream that is known to have none is not asked.
    #[inline(always)]
    pub fn step(&mut self, now: Ticks, idle_timeout: u64, unit: &mut PoppedUnit) -> Step<()>
        ensures { Steps now idle_timeout self.old (step_to result unit.new) self.new }
    {
        if self.is_quiet(now, idle_timeout) {
            Step::Nothing
        } else {
            self.ask(now, idle_timeout, unit)
        }
    }

    /// Returns whether the stream is known to have no event at this time.
    #[inline(always)]
    fn is_quiet(&self, now: Ticks, idle_timeout: u64) -> bool
        ensures { result ≡ true → Steps now idle_timeout self.now steps.Nothing self.now }
    {
        now.0 < self.quiet_until && now.0.saturating_sub(self.last) < idle_timeout
    }

    /// Asks the stream for its next event.
    #[inline(always)]
    fn ask(&mut self, now: Ticks, idle_timeout: u64, unit: &mut PoppedUnit) -> Step<()>
        ensures { Steps now idle_timeout self.old (step_to result unit.new) self.new }
    {
        if is_probation(self.stage) {
            return Step::Nothing;
        }
        if !self.announced {
            self.quiet_until = 0;
            self.announced = true;
            return Step::Begun;
        }
        self.drain(now.0, idle_timeout);
        self.pop(now, unit)
    }

    /// Returns the next unit or refused frame of the stream, or what follows without one.
    #[inline(always)]
    fn pop(&mut self, now: Ticks, unit: &mut PoppedUnit) -> Step<()>
        requires announced { self.old.announced ≡ true }
        ensures { Pops now self.old (step_to result unit.new) self.new }
    {
        self.quiet_until = 0;
        let held = self.receiver.inner().held();
        match self.receiver.pop_unit(now, unit) {
            Some(popped) => {
                let keyframe = is_keyframe(&popped, self.receiver.inner());
                answer_if(&mut self.feedback, keyframe);
                let until = until_if(self.is_done());
                self.quiet_until = until;
                self.work = 0;
                step_with(popped)
            }
            None => {
                let (step, calm) = self.rest(now);
                if is_nothing(&step) && self.receiver.inner().held() == held {
                    let work = self.find_work();
                    let until = self.quiet_time(now, work, calm);
                    let kept = or_none(work);
                    self.quiet_until = until;
                    self.work = kept;
                }
                step
            }
        }
    }

    /// Returns whether the stream has no event until a datagram arrives, after a unit: then the next poll need not ask it. `false` says
    /// nothing.
    #[inline(always)]
    fn is_done(&self) -> bool
        ensures { result ≡ is_done self.now }
    {
        is_playing(self.stage)
            && self.receiver.inner().is_idle()
            && are_idle(&self.feedback, self.receiver.inner())
    }

    /// Returns until when the stream has no event, if it had none at `now`, and none of its packets left. 0: it is not known.
    /// `work` is its `work_deadline`, and `calm` says that nothing is to be requested.
    #[inline(always)]
    fn quiet_time(&self, now: Ticks, work: Option<u64>, calm: bool) -> u64
        requires work { work ≡ work_deadline self.now }
        requires calm { calm ≡ true → IsCalm self.now.feedback self.now.receiver }
        ensures { RestsUntil result now.0 self.now }
    {
        if !self.announced || !is_playing(self.stage) {
            return 0;
        }
        let rest = rest_time(&self.feedback, now, self.last, self.receiver.inner(), calm);
        match work {
            Some(at) => rest.min(at),
            None => rest,
        }
    }

    /// Returns the step of a stream without a unit: its end, or what it requests. With `true` beside it nothing is to be requested.
    #[inline(always)]
    fn rest(&mut self, now: Ticks) -> (Step<()>, bool)
        ensures rests { RestsBy self.old.stage now.0 self.old result.0 self.new }
        ensures calm { result.1 ≡ true → IsCalm self.new.feedback self.new.receiver }
    {
        match self.stage {
            Stage::Playing => self.request(now),
            Stage::Draining(why) => (Step::Ended(why), false),
            _ => (Step::Nothing, false),
        }
    }

    /// Returns the requests that are due, by what the receiver misses now. With `true` beside them nothing is to be requested.
    #[inline(always)]
    fn request(&mut self, now: Ticks) -> (Step<()>, bool)
        ensures requests { RequestsBy self.old.feedback now.0 self.old result.0 self.new }
        ensures calm { result.1 ≡ true → IsCalm self.new.feedback self.new.receiver }
    {
        self.quiet_until = 0;
        if let Some(feedback) = &mut self.feedback {
            let (due, calm) = feedback.take_due(now, self.last, &mut self.receiver);
            return (step_of(due), calm);
        }
        (Step::Nothing, true)
    }

    /// Returns when the stream may have a unit, or a request is due.
    fn work_deadline(&self) -> Option<u64>
        ensures { result ≡ work_deadline self.now }
    {
        if self.quiet_until > 0 {
            return time_of(self.work);
        }
        self.find_work()
    }

    /// Finds the same time by the receiver and the requests.
    fn find_work(&self) -> Option<u64>
        ensures { result ≡ work_deadline self.now }
    {
        let unit = match self.receiver.inner().next_deadline() {
            Some(at) => Some(at.0),
            None => None,
        };
        match self.stage {
            Stage::Playing => earlier(unit, requests_due(&self.feedback)),
            _ => unit,
        }
    }

    /// Returns when the stream may have an event without a datagram.
    pub(crate) fn due(&self, idle_timeout: u64) -> Option<u64>
        ensures { result ≡ due_of idle_timeout self.now }
    {
        let end = match self.stage {
            Stage::Probation => return None,
            Stage::Draining(_) => return Some(0),
            Stage::Playing => self.last.checked_add(idle_timeout),
            Stage::Leaving(_, at) => Some(at),
        };
        if !self.announced {
            return Some(0);
        }
        earlier(end, self.work_deadline())
    }

    /// Returns the same time, and 2^64 - 1 without one.
    #[inline(always)]
    pub(crate) fn due_or_max(&self, idle_timeout: u64) -> u64
        ensures { result ≡ or_max (due_of idle_timeout self.now) }
    {
        if self.quiet_until == 0 {
            return or_max(self.due(idle_timeout));
        }
        let end = self.last.saturating_add(idle_timeout);
        if self.work == 0 {
            end
        } else {
            end.min(self.work)
        }
    }

    /// Returns the same time as a number of a list of times: 2^64 - 1 is none, and 2^64 - 2 is one of the two last times.
    #[inline(always)]
    pub(crate) fn due_key(&self, idle_timeout: u64) -> u64
        ensures { result ≡ key_of (due_of idle_timeout self.now) }
    {
        let due = self.due_or_max(idle_timeout);
        if due < LAST_KEY {
            due
        } else {
            key_of(self.due(idle_timeout))
        }
    }

    /// Returns a time before which the stream has neither an event nor a deadline. 0: none is known.
    pub(crate) fn wakes_at(&self, idle_timeout: u64) -> u64
        ensures { WakesAt idle_timeout result self.now }
    {
        if is_probation(self.stage) {
            return u64::MAX;
        }
        if self.quiet_until == 0 || idle_timeout == 0 {
            return 0;
        }
        let idle_at = self.last.saturating_add(idle_timeout);
        self.quiet_until
            .min(idle_at)
            .min(self.due_key(idle_timeout))
    }

    /// Describes the stream, as a caller sees it.
    pub fn info(&self) -> StreamInfo
        ensures { IsInfo self.now result }
    {
        StreamInfo {
            ssrc: self.ssrc,
            payload_type: self.format.payload_type,
            stage: self.stage,
            taken: self.taken,
            bytes: self.bytes,
            held: self.receiver.inner().held(),
            counters: without_probes(&self.probes, self.receiver.inner().counters()),
            probes: probe_count(&self.probes),
            round_trip: round_trip(&self.feedback),
            requests: request_counts(&self.feedback),
            sender_clock: self.sender_clock,
        }
    }
}

/// Returns whether the stage is probation.
#[inline(always)]
fn is_probation(stage: Stage) -> bool
    ensures { result ≡ is_probation stage }
{
    matches!(stage, Stage::Probation)
}

/// Returns whether a stream at this stage plays.
#[inline(always)]
pub fn is_playing(stage: Stage) -> bool
    ensures { result ≡ is_playing stage }
{
    matches!(stage, Stage::Playing)
}

/// Returns whether a stream at this stage leaves or is drained.
#[inline(always)]
fn is_ending(stage: Stage) -> bool
    ensures { result ≡ is_ending stage }
{
    matches!(stage, Stage::Leaving(..) | Stage::Draining(_))
}

/// Returns whether the answer of a pop is a keyframe.
#[inline(always)]
fn is_keyframe(popped: &Result<Popped<()>, AllocError>, receiver: &Receiver) -> bool
    ensures { result ≡ is_keyframe popped.now receiver.now }
{
    matches!(popped, Ok(Popped::Unit(()))) && receiver.unit_is_keyframe()
}

/// Returns whether a step has no event.
#[inline(always)]
pub fn is_nothing(step: &Step<()>) -> bool
    ensures { result ≡ is_nothing step.now }
{
    matches!(step, Step::Nothing)
}

/// Returns until when a stream has no event after a unit: until a datagram arrives, if it is done. 0: it is not known.
#[inline(always)]
fn until_if(is_done: bool) -> u64
    ensures { result ≡ (if is_done then 18446744073709551615 else 0) }
{
    if is_done { u64::MAX } else { 0 }
}

/// Returns the step of a stream with this answer of a pop.
#[inline(always)]
fn step_with(popped: Result<Popped<()>, AllocError>) -> Step<()>
    ensures { result ≡ step_with popped }
{
    match popped {
        Ok(Popped::Unit(unit)) => Step::Unit(Ok(unit)),
        Ok(Popped::TooLarge(unit)) => Step::TooLarge(unit),
        Ok(Popped::Refused(fault)) => Step::Refused(fault),
        Err(e) => Step::Unit(Err(e)),
    }
}

/// Returns the step of a stream with these requests.
#[inline(always)]
fn step_of(packet: Result<Option<Vec<u8>>, AllocError>) -> Step<()>
    ensures { result ≡ step_of packet }
{
    match packet {
        Ok(Some(packet)) => Step::Feedback(Ok(packet)),
        Ok(None) => Step::Nothing,
        Err(e) => Step::Feedback(Err(e)),
    }
}

/// Returns whether memory ran out.
#[inline(always)]
pub fn is_no_memory(answer: &Result<Outcome, ReceiveError>) -> bool
    ensures { result ≡ is_no_memory answer.now }
{
    matches!(answer, Err(ReceiveError::OutOfMemory))
}

/// Returns whether the packet was stored or has no media, so that it counts for the end of probation.
#[inline(always)]
fn is_accepted(answer: &Result<Outcome, ReceiveError>) -> bool
    ensures { result ≡ is_accepted answer.now }
{
    matches!(
        answer,
        Ok(Outcome::Held | Outcome::HeldAndEvicted | Outcome::Restarted(_) | Outcome::NoMedia)
    )
}
