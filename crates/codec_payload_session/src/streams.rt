//! The streams of a session, in the order in which they began.

ghost use Rattle.std.specs.Prelude.{◌≡◌, ◌<◌, IfOk, IfSome, List, OnErr, OnOk, Option, Result, length, slice_get, true, false};
ghost use Rattle.std.specs.List.{position};
ghost use Rattle.std.specs.Option.{is_some};
ghost use Rattle.codec_payload_base.specs.Answers.{Finds};
ghost use Rattle.codec_payload_rtcp.specs.RtcpReading.{compound_at, packets_left};
ghost use Rattle.codec_payload_session_stream.specs.Reports.{noted_where};
ghost use Rattle.codec_payload_session_formats.specs.Sorting.{sorted_packet, sorted_rtcp};
ghost use Rattle.codec_payload_session_stream.specs.Streams.{due_in, is_of, trip_if, trips_where, waiting_if, waiting_where};
ghost use Rattle.codec_payload_session_stream.specs.Turns.{StepsFirst};
ghost use Rattle.codec_payload_session.specs.Turns.{TakesTurn, after_step, told_by};
ghost use Rattle.codec_payload_session.specs.Arrivals.{BeginsIf, BeginsOrFeeds, Feeds, TakesIn, TakesInAs, added, has_place, has_ssrc, includes, leaving, left_if, left_where, names_of_ssrc, on_probation, removed, say_goodbye, TakesMedia};
ghost use Rattle.codec_payload_session_stream.specs.Arrivals.{arrival_of};
ghost use Rattle.codec_payload_session.specs.Ports.{ReportsIf, ReportsOn, everyone, no_port};
ghost use Rattle.codec_payload_session_stream.specs.declared.stream.Ending.TheVariants as endings;
ghost use Rattle.codec_payload_session_stream.specs.Pairs.{paired_where, with_pair};
ghost use Rattle.codec_payload_session_formats.specs.Checks.{can_begin, fault_of};
ghost use Rattle.codec_payload_session_stream.specs.Changes.{any_left_behind, continued, continues};
ghost use Rattle.codec_payload_session_stream.specs.Renegotiation.{StayOrEnd};
ghost use Rattle.codec_payload_session_stream.specs.Units.{event_to, turn_to};
ghost use Rattle.codec_payload_session_stream.specs.declared.stream.StreamState.{StreamState};
ghost use Rattle.codec_payload_session.specs.Waking.{IsOnlyOf, StepsPort};

use crate::compound::take_packets;
use codec_payload_base::wire::{Frequency, Ticks};
use codec_payload_buffer::buffer::PoppedUnit;
use codec_payload_datagrams::parsed::ParsedDatagram;
use codec_payload_feedback_xr::exchange::TimeExchange;
use codec_payload_index::ssrcs::Ssrcs;
use codec_payload_jitter::jitter::WaitLimits;
use codec_payload_rtcp::compound::{CompoundRule, Packets, read_compound};
use codec_payload_rtcp::items::ReportBlock;
use codec_payload_rtp::rtp::PacketHeader;
use codec_payload_session_formats::formats::{Format, SessionSettings, SsrcPair};
use codec_payload_session_formats::names::StreamNames;
use codec_payload_session_formats::sort::{SortedPacket, sort};
use codec_payload_session_stream::arrival::{Arrival, arrival_of, feed_one};
use codec_payload_session_stream::changes::{continues, leave_behind};
use codec_payload_session_stream::dues::due_in;
use codec_payload_session_stream::events::Event;
use codec_payload_session_stream::pairs::{pair, with_pair};
use codec_payload_session_stream::renegotiation::leave_formats;
use codec_payload_session_stream::stream::{
    Ending, Step, StreamInfo, StreamState, Turn, is_no_memory, is_nothing,
};
use codec_payload_session_stream::waking::{Waking, step_due, step_excepted};
use std::alloc::{AllocError, Global};
use std::marker::Model;

/// The streams of a session.
#[derive(Debug, Drop)]
pub(crate) struct Streams {
    pub(crate) alloc: Global,
    pub(crate) list: Vec<StreamState>,
    /// The SSRC of each stream.
    pub(crate) ssrcs: Ssrcs,
    /// Whether new streams are refused.
    pub(crate) finished: bool,
    /// How many datagrams the removed streams took.
    pub(crate) ended: u64,
    /// What was known of the stream that was removed last.
    pub(crate) last: Option<StreamInfo>,
    /// When they may have their next events.
    pub(crate) waking: Waking,
    /// What the session knows by extended reports.
    pub(crate) exchange: TimeExchange,
}

/// The streams to end.
#[derive(Clone, Copy, Debug)]
pub(crate) enum Who {
    All,
    /// The streams of this SSRC.
    Of(u32),
}

impl Model for Streams {
    ghost use Rattle.codec_payload_session.specs.Arrivals.{Port};

    ghost Value = { Port };

    ghost use Rattle.codec_payload_session.specs.Waking.{IsIndexed};

    ghost view = { λ s. record { streams = s.list.items; finished = s.finished; ended = s.ended; last = s.last; exchange = s.exchange } };

    ghost invariant = { λ s. IsIndexed s.waking s.ssrcs s.list.items };
}

impl Streams {
    /// Creates an empty list.
    pub(crate) fn none(alloc: Global) -> Streams
        ensures { result ≡ no_port }
    {
        Streams {
            alloc,
            list: Vec::new(alloc),
            ssrcs: Ssrcs::new(alloc),
            finished: false,
            ended: 0,
            last: None,
            waking: Waking::unknown(alloc),
            exchange: TimeExchange::new(),
        }
    }

    /// Receives a datagram.
    #[inline(always)]
    pub(crate) fn take_in(
        &mut self,
        settings: &SessionSettings,
        now: Ticks,
        datagram: &ParsedDatagram<'_>,
    ) -> Result<Arrival, AllocError>
        requires { fault_of settings.now ≡ Option.None }
        ensures { TakesIn settings.now now datagram.now self.old result self.new }
    {
        if datagram.is_rtcp() {
            return Ok(self.take_rtcp(settings, now, datagram.bytes()));
        }
        match datagram.packet() {
            Ok(packet) => self.take_packet(settings, &packet.header, now, datagram),
            Err(_) => Ok(Arrival::Malformed),
        }
    }

    /// Receives a datagram of RTCP. It is read once.
    #[inline(never)]
    fn take_rtcp(&mut self, settings: &SessionSettings, now: Ticks, datagram: &[u8]) -> Arrival
        ensures { TakesInAs (sorted_rtcp (compound_at false datagram.now)) settings.now now datagram.now self.old (Result.Ok result) self.new }
    {
        match read_compound(CompoundRule::ReducedSize, datagram) {
            Ok(packets) => {
                let at = now.0.saturating_add(settings.bye_wait);
                self.take_packets(now, at, packets);
                self.exchange_by(settings, now, datagram);
                Arrival::Rtcp
            }
            Err(_) => Arrival::Malformed,
        }
    }

    /// Takes the packets of a compound packet: sender reports, and BYEs that end streams at `at`.
    fn take_packets(&mut self, now: Ticks, at: u64, packets: Packets<'_>)
        ensures { self.new ≡ record self.old { streams = left_where (λ ssrc. say_goodbye ssrc (packets_left packets.entry)) endings.Bye at (noted_where now (packets_left packets.entry) self.old.streams) } }
    {
        if take_packets(&mut self.list, &self.ssrcs, now, at, packets) {
            self.waking.forget();
        }
    }

    /// Receives an RTP packet with this header.
    #[inline(always)]
    fn take_packet(
        &mut self,
        settings: &SessionSettings,
        header: &PacketHeader<'_>,
        now: Ticks,
        datagram: &ParsedDatagram<'_>,
    ) -> Result<Arrival, AllocError>
        requires { fault_of settings.now ≡ Option.None }
        ensures { TakesInAs (sorted_packet settings.now header.now.ssrc header.now.payload_type) settings.now now datagram.now self.old result self.new }
    {
        match sort(settings, header.ssrc, header.payload_type) {
            SortedPacket::Unknown => Ok(Arrival::Unknown),
            SortedPacket::Unassociated => Ok(Arrival::Unassociated),
            SortedPacket::Media(ssrc, format) => {
                self.take_media(settings, ssrc, &format, now, datagram)
            }
            SortedPacket::Retransmission(ssrc, payload_type) => {
                match self.place_of(ssrc, payload_type) {
                    Some(place) => self.feed(place, settings.probation, now, datagram),
                    None => Ok(Arrival::Unassociated),
                }
            }
            SortedPacket::NoMedia(ssrc) => match self.place_of_ssrc(ssrc) {
                Some(place) => self.feed(place, settings.probation, now, datagram),
                None => Ok(Arrival::Unknown),
            },
        }
    }

    /// Passes a datagram of media to its stream, or begins one with it. If that stream is announced, the streams that the
    /// sender left for it leave. Most SSRCs have one stream: then the sender left none, and one search does.
    #[inline(always)]
    fn take_media(
        &mut self,
        settings: &SessionSettings,
        ssrc: u32,
        format: &Format,
        now: Ticks,
        datagram: &ParsedDatagram<'_>,
    ) -> Result<Arrival, AllocError>
        requires { can_begin settings.now format.now ≡ true }
        ensures { TakesMedia settings.now ssrc format.now now datagram.now self.old result self.new }
    {
        self.ssrcs.approach(ssrc);
        match self.only_place(ssrc, format.payload_type) {
            Some(place) => self.feed(place, settings.probation, now, datagram),
            None => self.take_other_media(settings, (ssrc, *format), now, datagram),
        }
    }

    /// Returns the place of the stream with this SSRC and payload type, if no other stream has its SSRC.
    #[inline(always)]
    fn only_place(&self, ssrc: u32, payload_type: u8) -> Option<usize>
        ensures { IfSome result (λ place. IsOnlyOf ssrc payload_type place self.now.streams) }
    {
        let Some(place) = self.ssrcs.find_only(ssrc) else {
            return None;
        };
        if self.list[place].format.payload_type == payload_type {
            Some(place)
        } else {
            None
        }
    }

    /// Does what `take_media` does for the first datagram of a stream, or for one of several streams of an SSRC.
    #[inline(never)]
    fn take_other_media(
        &mut self,
        settings: &SessionSettings,
        of: (u32, Format),
        now: Ticks,
        datagram: &ParsedDatagram<'_>,
    ) -> Result<Arrival, AllocError>
        requires { can_begin settings.now of.1 ≡ true }
        ensures { TakesMedia settings.now of.0 of.1 now datagram.now self.old result self.new }
    {
        let answer = self.feed_or_begin(settings, of, now, datagram);
        if answer.is_ok() {
            self.leave_behind(now.0, settings.bye_wait, of.0, &of.1);
        }
        answer
    }

    /// Ends the streams that the sender left for this format, if its stream is announced.
    #[inline(always)]
    fn leave_behind(&mut self, now: u64, wait: u64, ssrc: u32, format: &Format)
        ensures { self.new ≡ record self.old { streams = continued (continues ssrc format.now self.old.streams) now wait ssrc format.now self.old.streams } }
    {
        if !self.has_left_behind(now, wait, ssrc, format) {
            return;
        }
        if continues(&self.list, ssrc, format) {
            self.waking.forget();
            leave_behind(&mut self.list, now, wait, (ssrc, *format));
        }
    }

    /// Returns whether the sender left a stream for this format, if its stream is announced.
    #[inline(always)]
    fn has_left_behind(&self, now: u64, wait: u64, ssrc: u32, format: &Format) -> bool
        ensures { result ≡ any_left_behind now wait ssrc format.now self.now.streams }
    {
        let mut from = 0;
        while let Some(place) = self.ssrcs.find(ssrc, from) {
            if self.list[place].is_left_behind(now, wait, ssrc, format) {
                return true;
            }
            from = place + 1;
        }
        false
    }

    /// Passes a datagram to its stream, or begins a stream with it.
    #[inline(always)]
    fn feed_or_begin(
        &mut self,
        settings: &SessionSettings,
        of: (u32, Format),
        now: Ticks,
        datagram: &ParsedDatagram<'_>,
    ) -> Result<Arrival, AllocError>
        requires { can_begin settings.now of.1 ≡ true }
        ensures { BeginsOrFeeds (position (is_of of.0 of.1.payload_type) self.old.streams) settings.now of.0 of.1 now datagram.now self.old result self.new }
    {
        match self.place_of(of.0, of.1.payload_type) {
            Some(place) => self.feed(place, settings.probation, now, datagram),
            None => self.begin(settings, of, now, datagram),
        }
    }

    /// Returns the place of the stream with this SSRC and payload type.
    #[inline(always)]
    pub(crate) fn place_of(&self, ssrc: u32, payload_type: u8) -> Option<usize>
        ensures value { result ≡ position (is_of ssrc payload_type) self.now.streams }
        ensures within { IfSome result (λ at. at < length self.now.streams) }
    {
        let mut from = 0;
        while let Some(place) = self.ssrcs.find(ssrc, from) {
            if self.list[place].format.payload_type == payload_type {
                return Some(place);
            }
            from = place + 1;
        }
        None
    }

    /// Returns the place of the first stream of this SSRC.
    pub(crate) fn place_of_ssrc(&self, ssrc: u32) -> Option<usize>
        ensures value { result ≡ position (has_ssrc ssrc) self.now.streams }
        ensures within { IfSome result (λ at. at < length self.now.streams) }
    {
        self.ssrcs.find(ssrc, 0)
    }

    /// Returns the names of the first stream of this SSRC.
    fn names_of_ssrc(&self, ssrc: u32) -> StreamNames
        ensures { result ≡ names_of_ssrc ssrc self.now.streams }
    {
        match self.place_of_ssrc(ssrc) {
            Some(place) => self.list[place].names,
            None => StreamNames::default(),
        }
    }

    /// Passes a datagram to the stream at this place.
    #[inline(always)]
    fn feed(
        &mut self,
        place: usize,
        probation: u64,
        now: Ticks,
        datagram: &ParsedDatagram<'_>,
    ) -> Result<Arrival, AllocError>
        requires { place < length self.old.streams }
        ensures { Feeds probation place now datagram.now self.old result self.new }
    {
        self.waking.except(place, &self.list);
        let stream = &mut self.list[place];
        feed_one(stream, probation, now, datagram)
    }

    /// Begins a stream with a datagram, if there is a place for it.
    #[cold]
    #[inline(never)]
    fn begin(
        &mut self,
        settings: &SessionSettings,
        of: (u32, Format),
        now: Ticks,
        datagram: &ParsedDatagram<'_>,
    ) -> Result<Arrival, AllocError>
        requires { can_begin settings.now of.1 ≡ true }
        ensures { BeginsIf (has_place settings.now.max_streams self.old) settings.now of.0 of.1 now datagram.now self.old result self.new }
    {
        if !self.has_place(settings.max_streams) {
            return Ok(Arrival::Refused);
        }
        let (ssrc, format) = of;
        let mut stream = StreamState::begin(self.alloc, settings, ssrc, &format)?;
        stream.tell_round_trip(self.exchange.round_trip);
        stream.tell_names(self.names_of_ssrc(ssrc));
        let answer = stream.take(now, settings.probation, datagram);
        if is_no_memory(&answer) {
            return Err(AllocError);
        }
        self.add(settings.max_streams, stream)?;
        Ok(arrival_of(ssrc, format.payload_type, answer))
    }

    /// Returns whether there is a place for one more stream.
    fn has_place(&self, max_streams: usize) -> bool
        ensures { result ≡ has_place max_streams self.now }
    {
        !self.finished && (self.list.len() < max_streams || on_probation(&self.list).is_some())
    }

    /// Adds a stream. If all places are taken, the first stream in probation is removed.
    fn add(&mut self, max_streams: usize, stream: StreamState) -> Result<(), AllocError>
        ensures ok { OnOk result (self.new ≡ added max_streams stream self.old) }
        ensures err { OnErr result (self.new ≡ self.old) }
    {
        let place = leaving(max_streams, &self.list);
        self.list.reserve(1)?;
        self.ssrcs.push(stream.ssrc)?;
        self.waking.grow(&self.list);
        self.list.push(stream).unwrap();
        if let Some(place) = place {
            self.remove(place);
        }
        Ok(())
    }

    /// Removes the stream at this place.
    fn remove(&mut self, place: usize)
        requires { place < length self.old.streams }
        ensures { self.new ≡ removed place self.old }
    {
        self.waking.forget();
        self.ssrcs.remove(place);
        let gone = self.list.remove(place);
        self.ended = self.ended.wrapping_add(gone.taken);
        self.last = Some(gone.info());
    }

    /// Returns the next event, and writes its unit to `unit`.
    #[inline(always)]
    pub(crate) fn turn(
        &mut self,
        now: Ticks,
        idle_timeout: u64,
        unit: &mut PoppedUnit,
    ) -> Option<Event<()>>
        ensures { TakesTurn now idle_timeout self.old (event_to result unit.new) self.new }
    {
        if self.waking.holds(now, idle_timeout) {
            return self.turn_one(now, idle_timeout, unit);
        }
        let mut event = None;
        self.turn_all_to(now, idle_timeout, unit, &mut event);
        event
    }

    /// Does the same, mostly while the bound holds: then `step` needs no list of all streams, and its answer no memory.
    #[inline(always)]
    fn turn_one(
        &mut self,
        now: Ticks,
        idle_timeout: u64,
        unit: &mut PoppedUnit,
    ) -> Option<Event<()>>
        ensures { TakesTurn now idle_timeout self.old (event_to result unit.new) self.new }
    {
        match self.step(now, idle_timeout, unit) {
            Some(turn) => self.tell(turn),
            None => None,
        }
    }

    /// Does the same by the times of the streams.
    #[inline(always)]
    fn turn_all(
        &mut self,
        now: Ticks,
        idle_timeout: u64,
        unit: &mut PoppedUnit,
    ) -> Option<Event<()>>
        ensures { TakesTurn now idle_timeout self.old (event_to result unit.new) self.new }
    {
        match self.step_all(now, idle_timeout, unit) {
            Some(turn) => self.tell(turn),
            None => None,
        }
    }

    /// Writes the same event to `event`, out of the way of `turn_one`, whose event then needs no memory.
    #[inline(never)]
    fn turn_all_to(
        &mut self,
        now: Ticks,
        idle_timeout: u64,
        unit: &mut PoppedUnit,
        event: &mut Option<Event<()>>,
    )
        ensures { TakesTurn now idle_timeout self.old (event_to event.new unit.new) self.new }
    {
        *event = self.turn_all(now, idle_timeout, unit);
    }

    /// Returns the first step with an event. As long as the bound holds, only the stream that is excepted is asked.
    #[inline(always)]
    fn step(&mut self, now: Ticks, idle_timeout: u64, unit: &mut PoppedUnit) -> Option<Turn<()>>
        ensures { StepsPort now idle_timeout self.old (turn_to result unit.new) self.new }
    {
        if self.waking.holds(now, idle_timeout) {
            step_excepted(&mut self.list, &self.waking, now, idle_timeout, unit)
        } else {
            self.step_all(now, idle_timeout, unit)
        }
    }

    /// Asks the streams whose time has come, in order, until one has an event. If memory runs out for the times, it asks all.
    fn step_all(&mut self, now: Ticks, idle_timeout: u64, unit: &mut PoppedUnit) -> Option<Turn<()>>
        ensures { StepsPort now idle_timeout self.old (turn_to result unit.new) self.new }
    {
        if self.waking.find(self.alloc, &self.list, idle_timeout) {
            step_due(&mut self.waking, &mut self.list, now, idle_timeout, unit)
        } else {
            step_first(&mut self.list, now, idle_timeout, unit)
        }
    }

    /// Returns the event of the stream at a place. A stream that ended is removed.
    #[inline(always)]
    fn tell(&mut self, turn: Turn<()>) -> Option<Event<()>>
        requires { turn.place < length self.old.streams }
        ensures told { result ≡ told_by (slice_get self.old.streams turn.place) turn.step }
        ensures after { self.new ≡ after_step turn.step turn.place self.old }
    {
        let stream = &self.list[turn.place];
        let (ssrc, payload_type) = (stream.ssrc, stream.format.payload_type);
        match turn.step {
            Step::Begun => Some(Event::Begun { ssrc, payload_type }),
            Step::Unit(unit) => {
                let receiver = stream.receiver.inner();
                Some(Event::Unit {
                    ssrc,
                    payload_type,
                    rtp_time: receiver.unit_time(),
                    decodable: receiver.unit_is_decodable(),
                    keyframe: receiver.unit_is_keyframe(),
                    unit,
                })
            }
            Step::TooLarge(unit) => Some(Event::TooLarge {
                ssrc,
                payload_type,
                unit,
            }),
            Step::Refused(fault) => Some(Event::Refused {
                ssrc,
                payload_type,
                fault,
            }),
            Step::Feedback(packet) => Some(Event::Feedback {
                ssrc,
                payload_type,
                packet,
            }),
            Step::Ended(why) => {
                self.remove(turn.place);
                Some(Event::Ended {
                    ssrc,
                    payload_type,
                    why,
                })
            }
            Step::Nothing => None,
        }
    }

    /// Returns when a stream may have an event without a datagram.
    #[inline(always)]
    pub(crate) fn due_in(&self, idle_timeout: u64) -> Option<u64>
        ensures { result ≡ due_in idle_timeout self.now.streams }
    {
        due_in(&self.waking, &self.list, idle_timeout)
    }

    /// Ends these streams at that time.
    pub(crate) fn leave(&mut self, who: Who, why: Ending, at: u64)
        ensures { self.new ≡ record self.old { streams = left_where (includes who) why at self.old.streams } }
    {
        self.waking.forget();
        leave(&mut self.list, who, why, at);
    }

    /// Ends the streams at that time whose formats are not among these.
    pub(crate) fn leave_formats(&mut self, formats: &[Format], at: u64)
        ensures { (streams : List StreamState) × StayOrEnd formats.now at self.old.streams streams × (self.new ≡ record self.old { streams = streams }) }
    {
        self.waking.forget();
        leave_formats(&mut self.list, formats, at);
    }

    /// Replaces the wait limits of the stream with this SSRC and payload type.
    pub(crate) fn set_wait_limits(&mut self, ssrc: u32, payload_type: u8, wait_limits: WaitLimits)
        ensures { self.new ≡ record self.old { streams = waiting_where ssrc payload_type wait_limits self.old.streams } }
    {
        self.waking.forget();
        set_wait_limits(&mut self.list, ssrc, payload_type, wait_limits);
    }

    /// Sets the round trip that reports measured, for the stream with this SSRC and payload type.
    pub(crate) fn set_round_trip(&mut self, ssrc: u32, payload_type: u8, round_trip: Option<u64>)
        ensures { self.new ≡ record self.old { streams = trips_where ssrc payload_type round_trip self.old.streams } }
    {
        self.waking.forget();
        set_round_trip(&mut self.list, ssrc, payload_type, round_trip);
    }

    /// Returns the report block about the sender of the stream with this SSRC and payload type.
    pub(crate) fn report(
        &mut self,
        now: Ticks,
        tick_rate: Frequency,
        of: (u32, u8),
    ) -> Option<ReportBlock>
        ensures reports { ReportsIf (position (is_of of.0 of.1) self.old.streams) tick_rate now.0 self.old result self.new }
        ensures fits { IfSome result (λ block. block.cumulative_lost < 16777216) }
    {
        match self.place_of(of.0, of.1) {
            Some(place) => self.report_at(place, now, tick_rate),
            None => None,
        }
    }

    /// Returns the report block about the sender of the stream at this place.
    fn report_at(&mut self, place: usize, now: Ticks, tick_rate: Frequency) -> Option<ReportBlock>
        requires { place < length self.old.streams }
        ensures reports { ReportsOn place tick_rate now.0 self.old result self.new }
        ensures fits { IfSome result (λ block. block.cumulative_lost < 16777216) }
    {
        self.waking.forget();
        self.list[place].report(now, tick_rate)
    }

    /// Returns the pairs and one more, which replaces those that have one of its SSRCs in the same place.
    pub(crate) fn with_pair(
        &self,
        pairs: &[SsrcPair],
        pair: SsrcPair,
    ) -> Result<Vec<SsrcPair>, AllocError>
        ensures { IfOk result (λ named. named.items ≡ with_pair pair pairs.now) }
    {
        with_pair(self.alloc, pairs, pair)
    }

    /// Gives the streams of this SSRC the retransmissions that they have by these pairs.
    pub(crate) fn pair(&mut self, ssrc: u32, pairs: &[SsrcPair])
        ensures { self.new ≡ record self.old { streams = paired_where ssrc pairs.now self.old.streams } }
    {
        self.waking.forget();
        pair(&mut self.list, ssrc, pairs);
    }

    /// Ends all streams at that time, and refuses new ones from now on.
    pub(crate) fn finish(&mut self, at: u64)
        ensures { self.new ≡ record self.old { streams = left_where everyone endings.ByCall at self.old.streams; finished = true } }
    {
        self.finished = true;
        self.waking.forget();
        leave(&mut self.list, Who::All, Ending::ByCall, at);
    }
}

/// Returns the place of the first stream in probation.
fn on_probation(streams: &[StreamState]) -> Option<usize>
    ensures value { result ≡ position on_probation streams.now }
    ensures within { IfSome result (λ at. at < length streams.now) }
{
    streams.iter().position(|s| s.is_on_probation())
}

/// Returns the place of the stream that is removed for a new one.
fn leaving(max_streams: usize, streams: &[StreamState]) -> Option<usize>
    ensures value { result ≡ leaving max_streams streams.now }
    ensures within { IfSome result (λ at. at < length streams.now) }
{
    if streams.len() < max_streams {
        None
    } else {
        on_probation(streams)
    }
}

/// Asks the streams for an event, in order, until one has an event.
fn step_first(
    streams: &mut [StreamState],
    now: Ticks,
    idle_timeout: u64,
    unit: &mut PoppedUnit,
) -> Option<Turn<()>>
    ensures { StepsFirst now idle_timeout streams.old (turn_to result unit.new) streams.new }
{
    for place in 0..streams.len() {
        let step = streams[place].step(now, idle_timeout, unit);
        if !is_nothing(&step) {
            return Some(Turn { place, step });
        }
    }
    None
}

/// Ends these streams at that time.
fn leave(streams: &mut [StreamState], who: Who, why: Ending, at: u64)
    ensures { streams.new ≡ left_where (includes who) why at streams.old }
{
    for place in 0..streams.len() {
        leave_if(&mut streams[place], who, why, at);
    }
}

/// Ends the stream at that time, if it is one of `who`.
pub(crate) fn leave_if(stream: &mut StreamState, who: Who, why: Ending, at: u64)
    ensures { stream.new ≡ left_if (includes who) why at stream.old }
{
    let leaves = includes(who, stream.ssrc);
    stream.leave_if(leaves, why, at);
}

/// Replaces the wait limits of the stream with this SSRC and payload type.
fn set_wait_limits(
    streams: &mut [StreamState],
    ssrc: u32,
    payload_type: u8,
    wait_limits: WaitLimits,
)
    ensures { streams.new ≡ waiting_where ssrc payload_type wait_limits streams.old }
{
    for place in 0..streams.len() {
        streams[place].wait_if(ssrc, payload_type, wait_limits);
    }
}

/// Sets the round trip of the stream with this SSRC and payload type.
fn set_round_trip(streams: &mut [StreamState], ssrc: u32, payload_type: u8, round_trip: Option<u64>)
    ensures { streams.new ≡ trips_where ssrc payload_type round_trip streams.old }
{
    for place in 0..streams.len() {
        streams[place].set_round_trip_if(ssrc, payload_type, round_trip);
    }
}

/// Returns whether the stream is one of `who`.
fn includes(who: Who, ssrc: u32) -> bool
    ensures { result ≡ includes who ssrc }
{
    match who {
        Who::All => true,
        Who::Of(own) => own == ssrc,
    }
}
