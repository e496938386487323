//! A session: the datagrams of one port.

ghost use Rattle.std.specs.Prelude.{◌≡◌, ◌<◌, ◌≤◌, IfSome, Option, length, slice_get, OnErr, OnOk};
ghost use Rattle.std.specs.List.{position};
ghost use Rattle.std.specs.Option.{option_map};
ghost use Rattle.codec_payload_session.specs.Arrivals.{Port};
ghost use Rattle.codec_payload_session.specs.Accepting.{Accepts, time_for};
ghost use Rattle.codec_payload_session.specs.Associations.{Associates};
ghost use Rattle.codec_payload_session_formats.specs.Checks.{checked, fault_of};
ghost use Rattle.codec_payload_session.specs.Idle.{IsIdle, held_in, next_of};
ghost use Rattle.codec_payload_session.specs.Ports.{IsSum, MatchInfo, ReportsIf, counted, counted_if, counts_with, ends_all, ends_of, former_among, made_of, names_among, no_counts, receiver_among, restarts_transport, taken_in, trips_of, waits_of};
ghost use Rattle.codec_payload_session_stream.specs.Reports.{block_among, clock_among};
ghost use Rattle.codec_payload_session.specs.Polls.{Polls, SendsReport, SendsTransport, TurnsOrReports, TurnsOrSends};
ghost use Rattle.codec_payload_session.specs.Renegotiation.{SetsFormats, with_formats};
ghost use Rattle.codec_payload_session_stream.specs.Streams.{is_of};
ghost use Rattle.codec_payload_session.specs.Pairs.{Pairs};
ghost use Rattle.codec_payload_session_stream.specs.Pairs.{with_pair, without_pair};
ghost use Rattle.codec_payload_session_stream.specs.Units.{HasUnit, event_to};

use crate::association::{add_pair, receive_or_associate};
use crate::former::former;
use crate::reporter::report_deadline;
use crate::streams::{Streams, Who};
use codec_payload_base::wire::Ticks;
use codec_payload_buffer::buffer::PoppedUnit;
use codec_payload_datagrams::parsed::ParsedDatagram;
use codec_payload_feedback::transport::TransportReporter;
use codec_payload_feedback_congestion::arrivals::quarters;
use codec_payload_jitter::jitter::WaitLimits;
use codec_payload_receiver::receiver::Receiver;
use codec_payload_rtcp::items::ReportBlock;
use codec_payload_session_formats::checks::SessionSettingsError;
use codec_payload_session_formats::formats::{Format, SessionSettings, SsrcPair};
use codec_payload_session_formats::names::StreamNames;
use codec_payload_session_requests::transports::{
    note, reporter_for, restart, time_of, transport_deadline,
};
pub use codec_payload_session_stream::arrival::Arrival;
pub use codec_payload_session_stream::events::Event;
use codec_payload_session_stream::events::{report_event, transport_event, with_unit};
use codec_payload_session_stream::pairs::remove_pair;
use codec_payload_session_stream::reports::SenderClock;
use codec_payload_session_stream::stream::{Ending, StreamInfo};
use codec_payload_session_stream::telephone::TelephoneQueue;
use codec_payload_session_stream::times::earlier;
use std::alloc::{AllocError, Global};
use std::marker::Model;
use std::mem;

/// Counts of datagrams by result, each modulo 2^64. `received` is the sum of all others except `telephone_dropped`, and of the
/// datagrams that the existing streams took.
#[derive(Clone, Copy, Debug, PartialEq, Eq)]
pub struct SessionCounts {
    pub received: u64,
    pub rtcp: u64,
    pub malformed: u64,
    pub unknown: u64,
    pub refused: u64,
    pub unassociated: u64,
    /// Datagrams that the removed streams took.
    pub ended: u64,
    /// Packets of telephone events that a stream took and that have no event, since 32 others waited.
    pub telephone_dropped: u64,
}

/// The same counts, without the removed streams and telephone events.
#[derive(Clone, Copy, Debug)]
pub(crate) struct ArrivalCounts {
    received: u64,
    rtcp: u64,
    malformed: u64,
    unknown: u64,
    refused: u64,
    unassociated: u64,
}

/// Receives the datagrams of one port: RTP and RTCP of any number of senders. It opens no socket and reads no clock.
///
/// Each SSRC with each media format is a stream, with its own [`Receiver`]. [`Session::receive`] finds the stream of a
/// datagram, or begins one. [`Session::poll`] reports when streams begin and end, and returns their units.
///
/// [`Receiver`]: codec_payload_receiver::receiver::Receiver
#[derive(Debug, Drop)]
pub struct Session {
    settings: SessionSettings,
    pub(crate) streams: Streams,
    counts: ArrivalCounts,
    telephone: TelephoneQueue,
    /// When the next report is due. `None`: no report is planned.
    report_due: Option<u64>,
    /// What arrived on the transport. `None`: it is not reported.
    transport: Option<TransportReporter>,
}

impl Model for Session {
    ghost use Rattle.codec_payload_session.specs.Ports.{IsSession, Session};

    ghost Value = { Session };

    ghost view = { λ s. record { settings = s.settings; port = s.streams; counts = s.counts; telephone = s.telephone; report_due = s.report_due; transport = s.transport } };

    ghost invariant = { λ s. IsSession (record { settings = s.settings; port = s.streams; counts = s.counts; telephone = s.telephone; report_due = s.report_due; transport = s.transport }) };
}

impl Session {
    /// Returns a session without streams. Does not allocate. Each payload type of the settings has one meaning, and each of their
    /// formats can begin streams.
    ///
    /// # Errors
    ///
    /// The first setting that no session can meet ([`SessionSettings::check`]).
    pub fn new(alloc: Global, settings: SessionSettings) -> Result<Session, SessionSettingsError>
        ensures { result ≡ made_of (fault_of settings) settings }
    {
        match settings.fault() {
            Some(fault) => Err(fault),
            None => Ok(Session {
                transport: reporter_for(alloc, &settings),
                settings,
                streams: Streams::none(alloc),
                counts: ArrivalCounts::none(),
                telephone: TelephoneQueue::none(alloc),
                report_due: None,
            }),
        }
    }

    /// Receives a datagram that arrived at `now`, and returns what was done with it. Any bytes are accepted. The cost is the
    /// cost of [`Receiver::receive`], and one step for each stream.
    ///
    /// The SSRC and the payload type of an RTP packet identify its stream. A packet of media or of RED without a stream begins
    /// one, if there is a place. If all places are taken, the new stream replaces the first stream that is not announced. A
    /// retransmission goes to the stream of its pair, and a packet without media to the first stream of its SSRC. A BYE ends
    /// streams after `bye_wait` of the settings. A sender report replaces the clock of each stream of its SSRC
    /// ([`StreamInfo::sender_clock`]). A compound packet of RTCP with a fault changes no stream. Media of an announced stream ends
    /// the other streams of its SSRC and kind (audio or video) that took no datagram for `bye_wait`: their sender changed the
    /// format ([`Ending::Changed`]). Telephone events and comfort noise neither end nor are ended so.
    ///
    /// A retransmission whose SSRC is in no pair gets one first, as by [`Session::add_pair`], if exactly one stream fits (RFC 4588,
    /// section 5.3). A stream fits if it is announced and does not end, its format has this payload type of retransmissions, it has
    /// requested the original number, its SSRC has no pair, and the RTP time of the packet is at most 10 s from the clock of its
    /// sender. The clock is known by the latest packet of the stream. So this needs `feedback` of the settings and `nack` of the
    /// format. It costs one step for each stream and pair.
    ///
    /// A packet of telephone events beside audio (`telephone_events` of the settings) is one without media, and waits for a poll
    /// once a stream took it ([`Event::Telephone`]). At most 32 of them wait; further ones are dropped and counted.
    ///
    /// With `transport` of the settings the session also records when each RTP packet arrived that has a transport-wide number, whatever
    /// is done with it: media, retransmissions, padding, unknown types, repetitions ([`Event::TransportFeedback`]). The time has the
    /// resolution of your ticks; [`Session::receive_at`] takes a finer one.
    ///
    /// # Errors
    ///
    /// Out of memory: the datagram is not counted; you can pass it again. A pair may have been added, and the arrival may be recorded for
    /// the transport; the first time counts.
    ///
    /// [`Receiver::receive`]: codec_payload_receiver::receiver::Receiver::receive
    /// [`StreamInfo::sender_clock`]: codec_payload_session_stream::stream::StreamInfo::sender_clock
    /// [`Ending::Changed`]: codec_payload_session_stream::stream::Ending::Changed
    pub fn receive(&mut self, now: Ticks, datagram: &[u8]) -> Result<Arrival, AllocError>
        ensures { Accepts (time_for Option.None now self.old) now datagram.now self.old result self.new }
    {
        let time = time_of(&self.transport, now, self.settings.tick_rate);
        self.receive_timed(now, time, datagram)
    }

    /// Does what [`Session::receive`] does for a datagram that arrived at `micros`, in microseconds of any clock: the time stamp of your
    /// socket, say. Feedback about the transport then reports this time instead of `now`. All else goes by `now`. Congestion control
    /// estimates by differences of a millisecond, so a browser sends more if the times are finer than your ticks. Use one of the two
    /// calls for all datagrams.
    ///
    /// # Errors
    ///
    /// Those of [`Session::receive`].
    pub fn receive_at(
        &mut self,
        now: Ticks,
        micros: u64,
        datagram: &[u8],
    ) -> Result<Arrival, AllocError>
        ensures { Accepts (time_for (Option.Some micros) now self.old) now datagram.now self.old result self.new }
    {
        self.receive_timed(now, quarters(micros), datagram)
    }

    /// Receives a datagram that arrived on the transport at `time`, in quarters of a millisecond modulo 2^32.
    #[inline(always)]
    fn receive_timed(
        &mut self,
        now: Ticks,
        time: u32,
        datagram: &[u8],
    ) -> Result<Arrival, AllocError>
        ensures { Accepts time now datagram.now self.old result self.new }
    {
        if let Some(datagram) = ParsedDatagram::parse_plain(datagram) {
            return self.receive_read(now, time, &datagram);
        }
        if let Some(datagram) = ParsedDatagram::parse_extended(datagram) {
            return self.receive_read(now, time, &datagram);
        }
        self.receive_read(now, time, &ParsedDatagram::parse_parts(datagram))
    }

    /// Receives a datagram that was read, at this time on the transport.
    #[inline(never)]
    fn receive_read(
        &mut self,
        now: Ticks,
        time: u32,
        datagram: &ParsedDatagram<'_>,
    ) -> Result<Arrival, AllocError>
        ensures { Accepts time now datagram.now self.old result self.new }
    {
        note(&mut self.transport, time, datagram)?;
        self.receive_parsed(now, datagram)
    }

    /// Receives a datagram that was read. No later step reads it again.
    #[inline(always)]
    fn receive_parsed(
        &mut self,
        now: Ticks,
        datagram: &ParsedDatagram<'_>,
    ) -> Result<Arrival, AllocError>
        ensures { Associates now datagram.now self.old result self.new }
    {
        let noted = self.telephone.note(&self.settings, datagram)?;
        let answer = receive_or_associate(&mut self.settings, &mut self.streams, now, datagram);
        self.telephone.settle(noted, &answer);
        self.counts.count(&answer);
        answer
    }

    /// Returns the next event. Call it until `None` after each datagram and at each deadline.
    ///
    /// Packets of telephone events that wait come first, in the order in which they arrived. Then the streams are asked in the
    /// order in which they began. The events of a stream are `Begun`, then its units in order, then `Ended`. A stream that is not
    /// announced has no events.
    ///
    /// With `feedback` of the settings, a stream whose format has `nack` or `pli` also requests what its receiver misses once
    /// no unit is due (`Feedback`), until it leaves. Each request costs one step for each missing number.
    ///
    /// With `report_interval` of `feedback` the session also sends receiver reports (`Report`). A poll without an event of a
    /// stream returns the report, if one is due and a stream is announced. The first one is due one interval after the poll
    /// that has no more events of the first streams, and each later one an interval after the previous one was sent. Once all
    /// announced streams have ended, it begins so again. A report costs one step for each pair of streams.
    ///
    /// With `transport` of the settings a poll without another event returns the feedback about what arrived, if it is due
    /// (`TransportFeedback`): the first one at once, each later one an interval after the previous one, if something arrived since.
    ///
    /// If a poll returns `None` and no packet left a stream in it, no poll before [`Session::next_deadline`] has an event, until
    /// the next call of another kind. The one exception is a request for which memory runs out. A poll without an event in which
    /// packets left has skipped frames or dropped units: the next poll can have an event at any time.
    pub fn poll(&mut self, now: Ticks) -> Option<Event>
        ensures polls { Polls now self.old result self.new }
        // A unit has packets.
        ensures some { HasUnit result }
        // If no packet left, no poll before the next deadline has an event.
        ensures idle { result ≡ Option.None → held_in self.new.port.streams ≡ held_in self.old.port.streams → IsIdle now.0 self.new }
    {
        let mut unit = PoppedUnit::new(self.streams.alloc);
        match self.poll_into(now, &mut unit) {
            Some(event) => Some(with_unit(event, unit)),
            None => None,
        }
    }

    /// Does the same as [`Session::poll`], and writes the unit of the event to `unit`, in place of what that has. Pass the same
    /// unit to each poll, and its memory is used again: once it has room for the largest unit, a poll with a unit allocates
    /// nothing for it.
    ///
    /// `unit` has the unit of an [`Event::Unit`] without an error, or of an [`Event::TooLarge`]. After any other answer its
    /// contents are unspecified.
    pub fn poll_into(&mut self, now: Ticks, unit: &mut PoppedUnit) -> Option<Event<()>>
        ensures polls { Polls now self.old (event_to result unit.new) self.new }
        // A unit has packets.
        ensures some { HasUnit (event_to result unit.new) }
        // If no packet left, no poll before the next deadline has an event.
        ensures idle { result ≡ Option.None → held_in self.new.port.streams ≡ held_in self.old.port.streams → IsIdle now.0 self.new }
    {
        match self.telephone.take() {
            Some(event) => Some(event),
            None => self.turn_or_feedback(now, unit),
        }
    }

    /// Returns the next event of the streams or the report, or else the feedback about the transport, if it is due.
    #[inline(always)]
    fn turn_or_feedback(&mut self, now: Ticks, unit: &mut PoppedUnit) -> Option<Event<()>>
        ensures { TurnsOrSends now self.old (event_to result unit.new) self.new }
    {
        match self.turn(now, unit) {
            Some(event) => Some(event),
            None => self.send_transport(now),
        }
    }

    /// Returns the feedback about the transport, if it is due.
    #[inline(always)]
    fn send_transport(&mut self, now: Ticks) -> Option<Event<()>>
        ensures { SendsTransport now.0 self.old result self.new }
    {
        let packet = self
            .streams
            .transport_due(&self.settings, now, &mut self.transport);
        transport_event(packet)
    }

    /// Returns the next event of the streams, or else the report about them, if one is due.
    #[inline(always)]
    fn turn(&mut self, now: Ticks, unit: &mut PoppedUnit) -> Option<Event<()>>
        ensures { TurnsOrReports now self.old (event_to result unit.new) self.new }
    {
        match self.streams.turn(now, self.settings.idle_timeout, unit) {
            Some(event) => Some(event),
            None => self.report_streams(now),
        }
    }

    /// Returns the report about the streams, if one is due.
    #[inline(always)]
    fn report_streams(&mut self, now: Ticks) -> Option<Event<()>>
        ensures { SendsReport now.0 self.old result self.new }
    {
        let packet = self
            .streams
            .report_due(&self.settings, now, &mut self.report_due);
        report_event(packet)
    }

    /// Returns when a poll may have an event without a datagram: `Ticks(0)` while telephone events wait, else the time of a
    /// stream, of the next report if a stream is announced, or of the next feedback about the transport. `None`: there is no such time.
    ///
    /// Call it once polls have no event: then its cost does not grow with the streams, unless one of them leaves. Otherwise, and for
    /// up to 16 streams, it is one step for each stream.
    pub fn next_deadline(&self) -> Option<Ticks>
        ensures { option_map (λ at. at.0) result ≡ next_of self.now }
    {
        if !self.telephone.is_empty() {
            return Some(Ticks(0));
        }
        let streams = self.streams.due_in(self.settings.idle_timeout);
        let report = report_deadline(self.streams.is_reporting(), self.report_due);
        match earlier(
            earlier(streams, report),
            transport_deadline(&self.transport),
        ) {
            Some(at) => Some(Ticks(at)),
            None => None,
        }
    }

    /// Forgets which packets of the transport arrived. Call it if another peer takes over the transport, or the peer counts from a new number: without
    /// this call, numbers behind the last 2,048 (`window`) are ignored until they pass the highest one, up to 32,768 packets later.
    /// Without `transport` of the settings nothing changes.
    pub fn restart_transport(&mut self)
        ensures { self.new ≡ restarts_transport self.old }
    {
        restart(&mut self.transport);
    }

    /// Ends the streams of this SSRC: polls return the units that are complete, and then `Ended`.
    pub fn end(&mut self, now: Ticks, ssrc: u32)
        ensures { self.new ≡ ends_of ssrc now.0 self.old }
    {
        self.streams.leave(Who::Of(ssrc), Ending::ByCall, now.0);
    }

    /// Ends all streams, announced or not. From now on no stream begins.
    pub fn finish(&mut self, now: Ticks)
        ensures { self.new ≡ ends_all now.0 self.old }
    {
        self.streams.finish(now.0);
    }

    /// Replaces the formats, as a new session description states them: call it when the description changes while the session
    /// lives. Streams whose format is still there, with all of its fields, go on: they keep their packets, times, counters and
    /// requests. All other streams end at `now`: polls return their complete units, and then `Ended` with [`Ending::Changed`].
    /// Media of a new format begin a stream as usual, also under the SSRC of a stream that ends. Retransmissions and media of a
    /// payload type that is gone are [`Arrival::Unknown`], also for a stream that ends.
    ///
    /// All other settings stay: pairs, payload types without media, telephone events. The cost is one step for each stream and
    /// format, and that of [`SessionSettings::check`]. Allocates nothing.
    ///
    /// # Errors
    ///
    /// The first setting that no session can meet with these formats ([`SessionSettings::check`]): the session is unchanged.
    ///
    /// [`Ending::Changed`]: codec_payload_session_stream::stream::Ending::Changed
    /// [`SessionSettings::check`]: codec_payload_session_formats::formats::SessionSettings::check
    pub fn set_formats(
        &mut self,
        now: Ticks,
        formats: Vec<Format>,
    ) -> Result<(), SessionSettingsError>
        ensures answer { result ≡ checked (fault_of (with_formats formats self.old.settings)) }
        ensures ok { OnOk result (SetsFormats formats now.0 self.old self.new) }
        ensures err { OnErr result (self.new ≡ self.old) }
    {
        let before = mem::replace(&mut self.settings.formats, formats);
        if let Some(fault) = self.settings.fault() {
            self.settings.formats = before;
            return Err(fault);
        }
        self.streams.leave_formats(&self.settings.formats, now.0);
        Ok(())
    }

    /// Changes how long the stream with this SSRC and payload type waits for missing packets. Without such a stream nothing
    /// changes. See [`Receiver::set_wait_limits`]. If waiting follows the round trip ([`FeedbackSettings::longest_wait`]), later
    /// packets replace `max_wait`.
    ///
    /// [`Receiver::set_wait_limits`]: codec_payload_receiver::receiver::Receiver::set_wait_limits
    /// [`FeedbackSettings::longest_wait`]: codec_payload_session_formats::formats::FeedbackSettings::longest_wait
    pub fn set_wait_limits(&mut self, ssrc: u32, payload_type: u8, wait_limits: WaitLimits)
        ensures { self.new ≡ waits_of ssrc payload_type wait_limits self.old }
    {
        self.streams
            .set_wait_limits(ssrc, payload_type, wait_limits);
    }

    /// Sets the round trip of the stream with this SSRC and payload type, in ticks, as reports measured it: extended reports (RFC 3611),
    /// or the checks of ICE (RFC 8445). From now on the times of its requests and its waits follow it, in place of the answers to
    /// requests: call it when the stream begins, and with each report. `None`: the answers count. Without such a stream nothing changes.
    pub fn set_round_trip(&mut self, ssrc: u32, payload_type: u8, round_trip: Option<u64>)
        ensures { self.new ≡ trips_of ssrc payload_type round_trip self.old }
    {
        self.streams.set_round_trip(ssrc, payload_type, round_trip);
    }

    /// Returns the block of a receiver report about the sender of the stream with this SSRC and payload type (RFC 3550, section
    /// 6.4.1). `None`: there is no such stream, or no packet of it counts so far ([`Receiver::report`]). A stream in probation
    /// has a block too. Put at most 31 blocks into one `ReceiverReport` (crate `codec_payload_rtcp`), and send it.
    ///
    /// The next block of the stream starts its fraction here. The last sender report is the one of [`StreamInfo::sender_clock`];
    /// without one both of its fields are 0. The delay since then is in 1/65,536 s, by `tick_rate` of the settings, and at most
    /// 18 hours.
    ///
    /// [`Receiver::report`]: codec_payload_receiver::receiver::Receiver::report
    /// [`StreamInfo::sender_clock`]: codec_payload_session_stream::stream::StreamInfo::sender_clock
    pub fn report(&mut self, now: Ticks, ssrc: u32, payload_type: u8) -> Option<ReportBlock>
        ensures reports { (port : Port) × ReportsIf (position (is_of ssrc payload_type) self.old.port.streams) self.old.settings.tick_rate now.0 self.old.port result port × (self.new ≡ record self.old { port = port }) }
        // So the block can be written.
        ensures fits { IfSome result (λ block. block.cumulative_lost < 16777216) }
    {
        self.streams
            .report(now, self.settings.tick_rate, (ssrc, payload_type))
    }

    /// Returns the block that [`Session::report`] would return now, and changes nothing: the next block starts its fraction where it
    /// would have. For those who look at jitter and losses beside the reports that the session sends
    /// ([`FeedbackSettings::report_interval`]). The round trip is in [`StreamInfo::round_trip`]. Allocates nothing.
    ///
    /// [`FeedbackSettings::report_interval`]: codec_payload_session_formats::formats::FeedbackSettings::report_interval
    /// [`StreamInfo::round_trip`]: codec_payload_session_stream::stream::StreamInfo::round_trip
    pub fn peek_report(&self, now: Ticks, ssrc: u32, payload_type: u8) -> Option<ReportBlock>
        ensures value { result ≡ block_among (position (is_of ssrc payload_type) self.now.port.streams) self.now.settings.tick_rate now.0 self.now.port.streams }
        ensures fits { IfSome result (λ block. block.cumulative_lost < 16777216) }
    {
        match self.streams.place_of(ssrc, payload_type) {
            Some(place) => self.streams.list[place].peek_report(now, self.settings.tick_rate),
            None => None,
        }
    }

    /// Returns what the latest sender report about the stream with this SSRC and payload type says. `None`: there is no such
    /// stream, or no report arrived since it began. See [`SenderClock::ntp_at`].
    ///
    /// [`SenderClock::ntp_at`]: codec_payload_session_stream::reports::SenderClock::ntp_at
    pub fn sender_clock(&self, ssrc: u32, payload_type: u8) -> Option<SenderClock>
        ensures { result ≡ clock_among (position (is_of ssrc payload_type) self.now.port.streams) self.now.port.streams }
    {
        match self.streams.place_of(ssrc, payload_type) {
            Some(place) => {
                let stream = &self.streams.list[place];
                stream.sender_clock
            }
            None => None,
        }
    }

    /// Returns the names of the stream with this SSRC and payload type: MID, RID and repaired RID. `None`: there is no such stream. A
    /// server that receives a simulcast so knows which stream is which before any SSRC was signalled.
    ///
    /// A stream takes names from the packets that it accepts, under [`SessionSettings::name_ids`]: of media, of retransmissions, and
    /// without media. The latest value of each name is kept. A value without a byte, or of more than 32, is ignored. Senders stop
    /// sending names once they know that they arrived. So a stream begins with the names of the first other stream of its SSRC, as one
    /// in another format that its sender left. Allocates nothing.
    ///
    /// [`SessionSettings::name_ids`]: codec_payload_session_formats::formats::SessionSettings::name_ids
    pub fn names_of(&self, ssrc: u32, payload_type: u8) -> Option<StreamNames>
        ensures { result ≡ names_among (position (is_of ssrc payload_type) self.now.port.streams) self.now.port.streams }
    {
        match self.streams.place_of(ssrc, payload_type) {
            Some(place) => {
                let stream = &self.streams.list[place];
                Some(stream.names)
            }
            None => None,
        }
    }

    /// Returns the SSRC of the first other stream that is announced and has the names of the stream with this SSRC and payload type: the
    /// same MID, and the same RID or none. So its sender began again under this SSRC, as browsers do when they replace a track. `None`:
    /// there is no such stream, or its MID is not known.
    ///
    /// Ask when the stream begins, and end the former one if it is not to wait for its timeout ([`Session::end`]). A sender that sends
    /// several streams under one MID without RIDs at once gets the same answer. The cost is one step for each stream. Allocates
    /// nothing.
    pub fn former_ssrc(&self, ssrc: u32, payload_type: u8) -> Option<u32>
        ensures { result ≡ former_among ssrc (names_among (position (is_of ssrc payload_type) self.now.port.streams) self.now.port.streams) self.now.port.streams }
    {
        match self.names_of(ssrc, payload_type) {
            Some(names) => former(&self.streams.list, ssrc, names),
            None => None,
        }
    }

    /// Adds a pair of SSRCs: from now on `retransmission` is the SSRC of the retransmissions of `ssrc`, also for streams that
    /// exist. Call it when the session description names a sender that joins (`a=ssrc-group:FID`, RFC 5576, section 4.2).
    ///
    /// The later pair wins: it replaces an earlier pair with this `ssrc`, and an earlier pair with this `retransmission`. So the
    /// same description may be read again. A session keeps one pair for each SSRC, 8 bytes, until [`Session::remove_pair`]. The
    /// cost is one step for each pair and each stream.
    ///
    /// # Errors
    ///
    /// Out of memory: the session is unchanged.
    pub fn add_pair(&mut self, ssrc: u32, retransmission: u32) -> Result<(), AllocError>
        ensures ok { OnOk result (Pairs ssrc (with_pair (record { ssrc = ssrc; retransmission = retransmission }) self.old.settings.pairs.items) self.old self.new) }
        ensures err { OnErr result (self.new ≡ self.old) }
    {
        let pair = SsrcPair {
            ssrc,
            retransmission,
        };
        add_pair(&mut self.settings, &mut self.streams, pair)
    }

    /// Removes the pairs of this stream's SSRC: later retransmissions of it are unassociated. Without such a pair nothing
    /// changes. Call it when a sender has left for good: the end of a stream keeps its pair, since the sender may come back.
    pub fn remove_pair(&mut self, ssrc: u32)
        ensures { Pairs ssrc (without_pair ssrc self.old.settings.pairs.items) self.old self.new }
    {
        remove_pair(&mut self.settings.pairs, ssrc);
        self.streams.pair(ssrc, &self.settings.pairs);
    }

    /// Returns the number of streams, announced or not: at most `max_streams` of the settings.
    pub fn stream_count(&self) -> usize
        ensures value { result ≡ length self.now.port.streams }
        ensures bounded { result ≤ self.now.settings.max_streams }
    {
        self.streams.list.len()
    }

    /// Describes the stream at a place, in the order in which the streams began.
    pub fn stream_at(&self, place: usize) -> Option<StreamInfo>
        ensures { MatchInfo (slice_get self.now.port.streams place) result }
    {
        match self.streams.list.get(place) {
            Some(stream) => Some(stream.info()),
            None => None,
        }
    }

    /// Describes the stream that the session removed last, as it was then. At [`Event::Ended`] that is the stream of the event: its last
    /// counts. A stream in probation that a new stream replaced is described too, without an event.
    pub fn last_stream(&self) -> Option<StreamInfo>
        ensures { result ≡ self.now.port.last }
    {
        self.streams.last
    }

    /// Lends the receiver of the stream at a place, in the order in which the streams began. It reports what to request
    /// ([`Receiver::missing`], [`Receiver::wants_keyframe`]), and its counters.
    ///
    /// [`Receiver::missing`]: codec_payload_receiver::receiver::Receiver::missing
    /// [`Receiver::wants_keyframe`]: codec_payload_receiver::receiver::Receiver::wants_keyframe
    pub fn receiver_at(&self, place: usize) -> Option<&Receiver>
        ensures { option_map (λ receiver. receiver.now) result ≡ option_map (λ stream. stream.receiver) (slice_get self.now.port.streams place) }
    {
        match self.streams.list.get(place) {
            Some(stream) => Some(stream.receiver.inner()),
            None => None,
        }
    }

    /// Lends the receiver of the stream with this SSRC and payload type. After a poll that gave a unit of the stream it reports
    /// what the unit is ([`Receiver::unit_is_decodable`], [`Receiver::unit_is_keyframe`]).
    ///
    /// [`Receiver::unit_is_decodable`]: codec_payload_receiver::receiver::Receiver::unit_is_decodable
    /// [`Receiver::unit_is_keyframe`]: codec_payload_receiver::receiver::Receiver::unit_is_keyframe
    pub fn receiver_of(&self, ssrc: u32, payload_type: u8) -> Option<&Receiver>
        ensures { option_map (λ receiver. receiver.now) result ≡ receiver_among (position (is_of ssrc payload_type) self.now.port.streams) self.now.port.streams }
    {
        match self.streams.place_of(ssrc, payload_type) {
            Some(place) => self.receiver_at(place),
            None => None,
        }
    }

    /// Returns the counters of datagrams by result.
    pub fn counts(&self) -> SessionCounts
        ensures value { result ≡ counts_with self.now.counts self.now.port.ended self.now.telephone.dropped }
        // Every datagram is accounted for.
        ensures accounted { IsSum result (taken_in self.now.port.streams) }
    {
        let counts = self.counts;
        SessionCounts {
            received: counts.received,
            rtcp: counts.rtcp,
            malformed: counts.malformed,
            unknown: counts.unknown,
            refused: counts.refused,
            unassociated: counts.unassociated,
            ended: self.streams.ended,
            telephone_dropped: self.telephone.dropped(),
        }
    }
}

impl ArrivalCounts {
    /// Returns counters of 0.
    fn none() -> ArrivalCounts
        ensures { result ≡ no_counts }
    {
        ArrivalCounts {
            received: 0,
            rtcp: 0,
            malformed: 0,
            unknown: 0,
            refused: 0,
            unassociated: 0,
        }
    }

    /// Counts a datagram by this answer; if memory ran out, nothing is counted.
    #[inline(always)]
    fn count(&mut self, answer: &Result<Arrival, AllocError>)
        ensures { self.new ≡ counted_if answer.now self.old }
    {
        if let Ok(arrival) = answer {
            self.add(*arrival);
        }
    }

    /// Counts one more datagram with this result.
    #[inline(always)]
    fn add(&mut self, arrival: Arrival)
        ensures { self.new ≡ counted arrival self.old }
    {
        self.received = self.received.wrapping_add(1);
        match arrival {
            Arrival::Rtcp => self.rtcp = self.rtcp.wrapping_add(1),
            Arrival::Malformed => self.malformed = self.malformed.wrapping_add(1),
            Arrival::Unknown => self.unknown = self.unknown.wrapping_add(1),
            Arrival::Refused => self.refused = self.refused.wrapping_add(1),
            Arrival::Unassociated => self.unassociated = self.unassociated.wrapping_add(1),
            Arrival::Stream { .. } | Arrival::Faulty { .. } => {}
        }
    }
}
