//! The receiver of one stream: datagrams in, units out.

ghost use Rattle.std.specs.Prelude.{◌≡◌, ◌≤◌, ◌+◌, ◌%◌, ◌^◌, ℕ, length, slice_get, IfOk, IfSome, OnErr, OnOk, Option, Result, true, false};
ghost use Rattle.std.specs.Option.{option_map};
ghost use Rattle.codec_payload_codec.specs.Depacketizers.{depacketizer_state_of, is_built_in_depacketizer};
ghost use Rattle.codec_payload_jitter.specs.Missing.{missing_numbers};
ghost use Rattle.codec_payload_jitter.specs.OwnReceiving.{OwnStores};
ghost use Rattle.codec_payload_jitter.specs.Receiving.{deadline_of, is_idle, is_pressed};
ghost use Rattle.codec_payload_receiver.specs.Bounds.{counters_with};
ghost use Rattle.codec_payload_datagrams.specs.Kinds.{datagram_at, datagram_of, takes_memory};
ghost use Rattle.codec_payload_numbers.specs.Reports.{report_of, reported};
ghost use Rattle.codec_payload_receiver.specs.Sessions.{Chooses, Finishes, Heard, IsAccountedFor, Keeps, ReceivesBy, ReceivesBytes, SettlesOn, arrived_with, first_waiting, is_open, nothing_arrived, observed_in, session_by, session_with, ssrc_after, turned_away, verdict_in};

mod hearing;
mod leaving;
mod noting;
mod pops;
mod unit_pops;

use crate::answers::is_out_of_memory;
use crate::bound::UnitBound;
use crate::checks::{packets_at_once, red_of, retransmission_fits};
use crate::datagram::StreamKinds;
use crate::gated::gate_for;
use crate::notes::{StreamNotes, notes_for};
use crate::reports::{ReceptionReport, ReceptionStatistics};
use codec_payload_base::error::PacketError;
use codec_payload_base::wire::{Frequency, Ticks};
use codec_payload_buffer::buffer::DepacketizingBuffer;
use codec_payload_codec::codec::{CodecDepacketizer, Depacketizer, NoBox};
use codec_payload_datagrams::choice::{Choice, Origin, Verdict};
pub use codec_payload_datagrams::kinds::Retransmission;
use codec_payload_datagrams::kinds::{Datagram, RedStream};
use codec_payload_datagrams::parsed::ParsedDatagram;
use codec_payload_jitter::jitter::{JitterBuffer, Outcome, PacketCounters, WaitLimits};
use codec_payload_jitter::missing::MissingNumbers;
use codec_payload_keyframes::unit_gate::{FromKeyframe, UnitGate};
use codec_payload_numbers::numbers::{SequenceNumbers, WindowError};
use codec_payload_numbers::seen_times::LazySeenTimes;
use codec_payload_rtp::rtp::RtpError;
use codec_payload_rtp::times::RtpTimes;
use codec_payload_rtp::values::ExtensionIds;
use std::alloc::{AllocError, Global};
use std::marker::Model;
use std::mem;
use thiserror::Error;

/// How a stream uses RED (RFC 2198): each packet repeats some of the earlier payloads.
#[derive(Clone, Copy, Debug, PartialEq, Eq)]
pub struct RedSettings {
    /// The payload type of RED, 0 to 127. It differs from the payload type of the stream, which the blocks have.
    pub payload_type: u8,
    /// The RTP timestamp difference between successive packets, 1 to 16,383: 960 is 20 ms at 48 kHz. A block carries its age as
    /// a time, and no number.
    pub step: u32,
    /// The payload type of retransmitted RED packets, 0 to 127: the one whose `apt` (RFC 4588, section 8.1) is the payload type
    /// of RED. Their SSRC is that of [`Settings::retransmission`], and without such settings there are none. It differs from all
    /// other payload types of the settings. `None`: retransmitted RED is not read.
    pub retransmission: Option<u8>,
}

/// The settings of a receiver.
#[derive(Clone, Debug, Drop)]
pub struct Settings {
    /// The payload type of the stream, 0 to 127.
    pub payload_type: u8,
    /// Payload types that share the SSRC and the numbers of the stream and carry none of its media: telephone events beside
    /// audio, comfort noise, forward error correction.
    pub no_media: Vec<u8>,
    /// The SSRC of the stream. `None`: the first two packets of one SSRC, with these payload types, whose numbers are 1 to 100
    /// apart choose the stream; see [`Receiver::receive`].
    pub ssrc: Option<u32>,
    /// How the stream uses RED. `None`: no RED.
    pub red: Option<RedSettings>,
    /// The SSRC and payload type of retransmissions. `None`: no stream of retransmissions.
    pub retransmission: Option<Retransmission>,
    /// The ids of the header extensions to read.
    pub extension_ids: ExtensionIds,
    /// The rate of the RTP clock.
    pub clock_rate: Frequency,
    /// Ticks per second of your clock: 1,000 for milliseconds, 1,000,000,000 for nanoseconds. The jitter of reports depends on
    /// it, and so do the 2 s after which another stream can be chosen.
    pub tick_rate: Frequency,
    pub wait_limits: WaitLimits,
    /// The largest number of held packets, 1 to 65,536.
    pub limit: usize,
    /// How far ahead of the highest number a packet may be, exclusive: 1 to 32,768 (3,000 by RFC 3550, appendix A.1).
    pub forward: u16,
    /// How far behind the highest number a packet may be, inclusive; less than `forward`. 1,000 is enough for audio with
    /// retransmission.
    pub backward: u16,
    /// What happens to units of video that a decoder cannot show: units after a gap, until a keyframe. All constructors set
    /// [`FromKeyframe::Mark`]. Units of audio are always released.
    pub from_keyframe: FromKeyframe,
    /// The largest number of bytes of a unit. A larger unit has its own answer ([`Popped::TooLarge`]), and counts as a
    /// refused frame. `None`: no bound. All constructors set 1,048,576.
    ///
    /// [`Popped::TooLarge`]: crate::pops::Popped::TooLarge
    pub max_unit: Option<usize>,
    /// The id of the header extension element with the dependency descriptor (AV1 RTP specification, appendix A), for VP8, VP9
    /// and AV1: 1 to 14 in the one-byte form of RFC 8285, 1 to 255 in the two-byte form. No element has id 0. Accept the extension
    /// if the sender offers it: a lost frame to which no other refers then costs no other frame. `None`: the stream has none. All
    /// constructors set `None`.
    pub dependency_descriptor: Option<u8>,
}

/// The setting that is out of range.
#[derive(Clone, Copy, Debug, PartialEq, Eq, Error)]
pub enum SettingsError {
    /// The payload type is above 127.
    #[error("the payload type is above 127")]
    PayloadType,
    /// The limit is 0, or above 65,536.
    #[error("the limit of held packets is not 1 to 65536")]
    Limit,
    /// The payload type of retransmissions is above 127.
    #[error("retransmission payload type exceeds 127")]
    RetransmissionPayloadType,
    /// The payload type of RED is above 127, or equals the payload type of the stream.
    #[error("RED payload type exceeds 127 or equals the media payload type")]
    RedPayloadType,
    /// The step of RED is 0, or above 16,383.
    #[error("RED step must be 1 to 16383")]
    RedStep,
    /// The forward window is 0, or above 32,768.
    #[error("forward window must be 1 to 32768")]
    Forward,
    /// The backward window is not less than the forward window.
    #[error("backward window must be less than the forward window")]
    Backward,
}

/// The reason why a datagram was not received.
#[derive(Clone, Copy, Debug, PartialEq, Eq, Error)]
pub enum ReceiveError {
    /// The datagram is not an RTP packet. It is counted as malformed.
    #[error("not an RTP packet")]
    Rtp(RtpError),
    /// The payload of a RED packet is not valid RED (RFC 2198). The datagram is counted as malformed.
    #[error("invalid RED payload")]
    Red,
    /// The payload of a retransmission ends inside the original sequence number (RFC 4588). The datagram is counted as
    /// malformed.
    #[error("the retransmission has no original sequence number")]
    Retransmission,
    /// Out of memory. This datagram has changed nothing; you can pass it again. See [`Receiver::receive`].
    #[error("out of memory")]
    OutOfMemory,
    /// The RED packet itself was received and is counted, and memory ran out for a redundant block. The packet of that block
    /// and the packets of later blocks stay missing. You can pass the datagram again: it is a duplicate, and its blocks are
    /// stored.
    #[error("out of memory for a block of RED")]
    BlocksOutOfMemory,
}

/// Counts of datagrams by outcome, each modulo 2^64.
#[derive(Clone, Copy, Debug, PartialEq, Eq)]
pub struct Counters {
    /// All datagrams, except datagrams that ran out of memory.
    pub received: u64,
    /// RTCP packets on the same port.
    pub rtcp: u64,
    /// Datagrams that are neither RTP nor RTCP, and packets whose payload is not valid RED or not a valid retransmission.
    pub malformed: u64,
    /// Packets of another SSRC or payload type, and packets that waited for the choice of the stream and belong to another
    /// stream.
    pub other_streams: u64,
    /// Packets that wait for the choice of the stream: at most 4.
    pub undecided: u64,
    /// Outcomes of the stream's packets, and of recovered packets. Units above `max_unit` of the settings are no units here:
    /// their packets count as `left` and as `refused`.
    pub packets: PacketCounters,
    /// Units above `max_unit` of the settings.
    pub too_large: u64,
    /// Units of video that a decoder cannot show. They were released, or dropped if the settings say [`FromKeyframe::Drop`].
    /// Both count as units in `packets`.
    pub undecodable: u64,
}

/// The same counts, without the packets of the stream.
#[derive(Clone, Copy, Debug)]
pub(crate) struct Arrived {
    received: u64,
    rtcp: u64,
    malformed: u64,
    other_streams: u64,
}

/// Receives the datagrams of one stream in any order, and returns units in order.
///
/// It separates RTCP, other streams and packets without media, extends sequence numbers, detects restarts, restores the order
/// of packets, and waits for missing packets by your clock. It reads no clock, and works only inside calls. Every datagram is
/// counted: see [`Receiver::counters`].
#[derive(Debug, Drop)]
pub struct Receiver<B = NoBox> {
    stream: StreamKinds,
    /// The SSRC that the settings name.
    named: Option<u32>,
    ssrc: Option<u32>,
    packets: JitterBuffer<B>,
    arrived: Arrived,
    /// The extended RTP times of units.
    times: RtpTimes,
    pub(crate) statistics: ReceptionStatistics,
    choice: Choice,
    /// The RTP times of the latest packets and blocks, if the stream uses RED.
    seen: LazySeenTimes,
    /// Which units a decoder can show.
    gates: UnitGate,
    /// How many bytes a unit may have.
    bound: UnitBound,
    /// What packets say of the frames that they begin, if units may name those that they refer to.
    notes: Option<StreamNotes>,
}

impl<B> Model for Receiver<B> {
    ghost use Rattle.std.specs.Option.{option_map};
    ghost use Rattle.codec_payload_receiver.specs.Noting.{noting_of};
    ghost use Rattle.codec_payload_numbers.specs.Reports.{report_of, reported};
    ghost use Rattle.codec_payload_receiver.specs.Sessions.{Session, IsSorted};

    ghost Value = { Session };

    ghost view = { λ r. record {
      stream = r.stream;
      named = r.named;
      ssrc = r.ssrc;
      packets = r.packets;
      arrived = r.arrived;
      time = r.times;
      reception = r.statistics;
      choice = r.choice;
      seen = r.seen;
      gates = r.gates;
      bound = r.bound;
      notes = option_map noting_of r.notes;
    } };

    ghost invariant = { λ r. IsSorted r.arrived r.packets.counters };
}

impl<B: Depacketizer> Receiver<B> {
    /// Creates a receiver for this depacketizer. Allocates nothing.
    ///
    /// # Errors
    ///
    /// If several settings are out of range, the first one in the order of [`SettingsError`] is returned.
    pub fn new(
        alloc: Global,
        depacketizer: CodecDepacketizer<B>,
        settings: Settings,
    ) -> Result<Self, SettingsError>
        ensures { result ≡ session_by settings (depacketizer_state_of depacketizer) }
    {
        if settings.payload_type > 127 {
            return Err(SettingsError::PayloadType);
        }
        if settings.limit == 0 || settings.limit > 65_536 {
            return Err(SettingsError::Limit);
        }
        if !retransmission_fits(settings.retransmission) {
            return Err(SettingsError::RetransmissionPayloadType);
        }
        let red = red_of(settings.payload_type, settings.red)?;
        match SequenceNumbers::with_windows(settings.forward, settings.backward) {
            Ok(numbers) => Ok(Receiver::over(alloc, depacketizer, settings, red, numbers)),
            Err(WindowError::Forward) => Err(SettingsError::Forward),
            Err(WindowError::Backward) => Err(SettingsError::Backward),
        }
    }

    /// Creates a receiver for settings in range, with this use of RED and these numbers.
    fn over(
        alloc: Global,
        depacketizer: CodecDepacketizer<B>,
        settings: Settings,
        red: Option<RedStream>,
        numbers: SequenceNumbers,
    ) -> Self
        requires least { 1 ≤ settings.limit }
        requires most { settings.limit ≤ 65536 }
        ensures { result ≡ session_with settings (depacketizer_state_of depacketizer) red numbers }
    {
        let clock_rate = settings.clock_rate;
        let statistics = ReceptionStatistics::over(numbers, settings.tick_rate, clock_rate);
        let choice = Choice::over(alloc, settings.tick_rate);
        let gates = gate_for(&depacketizer, settings.from_keyframe);
        let notes = notes_for(&depacketizer, &settings);
        let wait_limits = settings.wait_limits;
        let buffer = DepacketizingBuffer::with_limit(
            alloc,
            depacketizer,
            wait_limits.most_held_back(),
            settings.limit,
        );
        let packets = JitterBuffer::over(alloc, numbers, buffer, clock_rate, wait_limits);
        let at_once = packets_at_once(&red);
        Receiver {
            stream: StreamKinds {
                alloc,
                payload_type: settings.payload_type,
                no_media: settings.no_media,
                red,
                retransmission: settings.retransmission,
                ids: settings.extension_ids,
            },
            named: settings.ssrc,
            ssrc: settings.ssrc,
            packets: packets.with_room_for(at_once),
            arrived: Arrived::nothing(),
            times: RtpTimes::new(),
            statistics,
            choice,
            seen: LazySeenTimes::none(),
            gates,
            bound: UnitBound::new(settings.max_unit),
            notes,
        }
    }

    /// Receives a datagram at time `now`, and returns its outcome. Any bytes are accepted.
    ///
    /// A packet with media is stored under its number; see [`JitterBuffer::push`]. For a RED packet the outcome describes its
    /// primary block; if the primary block has another payload type, the packet has no media. Redundant blocks are stored if
    /// their packets are missing, and are counted as recovered. No block of a suspect packet is stored. A packet that repeats a
    /// stored block under another number has no media. A retransmission is stored under its original number; see
    /// [`JitterBuffer::push_retransmitted`]. A retransmitted RED packet is read as the RED packet of its original number: its
    /// primary block is stored as a retransmission, and its redundant blocks if their packets are missing. If the primary block
    /// has another payload type, the original number has no media, if it is missing.
    ///
    /// If the settings name no SSRC, the first packet of each SSRC waits ([`Outcome::Undecided`]), at most four packets. The
    /// first two packets of one SSRC whose numbers are 1 to 100 apart, in either order, choose the stream. The packet that
    /// waited is received first, at the time at which it arrived. Other packets that wait belong to other streams. If no packet
    /// of the stream arrived for 2 s (by `tick_rate`), packets of other SSRCs wait again, and two of them choose again, as
    /// after [`Receiver::restart`].
    ///
    /// It allocates for the payload and metadata of the packet, for a datagram that waits, and for redundant blocks. The
    /// payloads of all blocks are copied before anything changes. The first packet with media of a stream with RED also
    /// allocates 324 bytes, for the times of the latest packets and blocks. For VP9, and for VP8 and AV1 with an id of the dependency
    /// descriptor, it allocates for what a packet says of the frame that it begins: at most one such note for each place of the buffer.
    ///
    /// # Errors
    ///
    /// - `OutOfMemory`: nothing has changed; you can pass the datagram again. One exception: it chooses the stream, and memory ran out
    ///   for it alone; the packet that waited was received then, and the stream is chosen. Only a datagram that takes memory has this
    ///   error: not RTCP, and no malformed datagram.
    /// - `BlocksOutOfMemory`: the RED packet itself was received; see [`ReceiveError::BlocksOutOfMemory`].
    /// - `Rtp`, `Red`, `Retransmission`: the datagram is counted as malformed, and the stream continues.
    pub fn receive(&mut self, now: Ticks, bytes: &[u8]) -> Result<Outcome, ReceiveError>
        ensures received { ReceivesBytes now bytes.now self.old result self.new }
        // A custom depacketizer decides whether a packet that is stored begins and ends a unit.
        ensures own { is_built_in_depacketizer self.old.packets.buffer.depacketizer ≡ false → OwnStores B.is_head B.is_tail self.old.packets.buffer self.new.packets.buffer }
    {
        if let Some(datagram) = ParsedDatagram::parse_plain(bytes) {
            return self.receive_read(now, &datagram);
        }
        if let Some(datagram) = ParsedDatagram::parse_extended(bytes) {
            return self.receive_parsed(now, &datagram);
        }
        self.receive_parsed(now, &ParsedDatagram::parse_parts(bytes))
    }

    /// Does the same as [`Receiver::receive`], for a datagram that was read: its header is not read again.
    ///
    /// # Errors
    ///
    /// Those of [`Receiver::receive`].
    pub fn receive_parsed(
        &mut self,
        now: Ticks,
        datagram: &ParsedDatagram<'_>,
    ) -> Result<Outcome, ReceiveError>
        ensures received { ReceivesBytes now datagram.now self.old result self.new }
        // A custom depacketizer decides whether a packet that is stored begins and ends a unit.
        ensures own { is_built_in_depacketizer self.old.packets.buffer.depacketizer ≡ false → OwnStores B.is_head B.is_tail self.old.packets.buffer self.new.packets.buffer }
    {
        self.receive_read(now, datagram)
    }

    /// Does the same, within its caller. Most often the stream is chosen, and no verdict is needed.
    #[inline(always)]
    fn receive_read(
        &mut self,
        now: Ticks,
        datagram: &ParsedDatagram<'_>,
    ) -> Result<Outcome, ReceiveError>
        ensures received { ReceivesBytes now datagram.now self.old result self.new }
        ensures own { is_built_in_depacketizer self.old.packets.buffer.depacketizer ≡ false → OwnStores B.is_head B.is_tail self.old.packets.buffer self.new.packets.buffer }
    {
        if !self.is_open(now) {
            return self.hear(now, datagram);
        }
        self.receive_open(now, datagram)
    }

    /// Does the same while another stream can be chosen.
    #[inline(never)]
    fn receive_open(
        &mut self,
        now: Ticks,
        datagram: &ParsedDatagram<'_>,
    ) -> Result<Outcome, ReceiveError>
        ensures received { ReceivesBytes now datagram.now self.old result self.new }
        ensures own { is_built_in_depacketizer self.old.packets.buffer.depacketizer ≡ false → OwnStores B.is_head B.is_tail self.old.packets.buffer self.new.packets.buffer }
    {
        match self.verdict(now, datagram) {
            Ok(verdict) => self.receive_by(verdict, now, datagram),
            Err(_) => Err(ReceiveError::OutOfMemory),
        }
    }

    /// Handles a datagram by this verdict.
    fn receive_by(
        &mut self,
        verdict: Verdict,
        now: Ticks,
        datagram: &ParsedDatagram<'_>,
    ) -> Result<Outcome, ReceiveError>
        ensures by { ReceivesBy verdict now datagram.now self.old result self.new }
        ensures own { is_built_in_depacketizer self.old.packets.buffer.depacketizer ≡ false → OwnStores B.is_head B.is_tail self.old.packets.buffer self.new.packets.buffer }
    {
        match verdict {
            Verdict::Hear => self.hear(now, datagram),
            Verdict::Keep(origin) => self.keep(now, origin, datagram.bytes()),
            Verdict::Choose(place) => self.choose(place, now, datagram),
        }
    }

    /// Returns what to do with a datagram.
    fn verdict(&self, now: Ticks, datagram: &ParsedDatagram<'_>) -> Result<Verdict, PacketError>
        ensures value { IfOk result (λ verdict. verdict ≡ verdict_in self.now now.0 datagram.now) }
        ensures memory { OnErr result (takes_memory (datagram_at self.now.stream Option.None datagram.now) ≡ true) }
    {
        if !self.is_open(now) {
            return Ok(Verdict::Hear);
        }
        let sorted = self.stream.sort(None, datagram)?;
        Ok(self.choice.verdict(self.ssrc, &sorted))
    }

    /// Returns whether another stream can be chosen.
    #[inline(always)]
    fn is_open(&self, now: Ticks) -> bool
        ensures { result ≡ is_open self.now now.0 }
    {
        self.named.is_none()
            && !self.packets.has_ended()
            && (self.ssrc.is_none() || self.choice.is_silent(now))
    }

    /// Keeps a datagram until the stream is chosen.
    fn keep(&mut self, now: Ticks, origin: Origin, bytes: &[u8]) -> Result<Outcome, ReceiveError>
        ensures { Keeps now origin bytes.now self.old result self.new }
    {
        match self.choice.keep(now, origin, bytes) {
            Ok(left) => {
                if left {
                    self.turn_away(1);
                }
                Ok(Outcome::Undecided)
            }
            Err(_) => Err(ReceiveError::OutOfMemory),
        }
    }

    /// Chooses the stream of the packet that waits at this place, and then receives this datagram.
    fn choose(
        &mut self,
        place: usize,
        now: Ticks,
        datagram: &ParsedDatagram<'_>,
    ) -> Result<Outcome, ReceiveError>
        ensures chosen { Chooses place now datagram.now self.old result self.new }
        ensures own { is_built_in_depacketizer self.old.packets.buffer.depacketizer ≡ false → OwnStores B.is_head B.is_tail self.old.packets.buffer self.new.packets.buffer }
    {
        if !self.settle_anew(place) {
            return Err(ReceiveError::OutOfMemory);
        }
        self.hear_rarely(now, datagram)
    }

    /// Chooses the stream of the first waiting packet, if no SSRC was chosen so far. Returns false if memory runs out.
    fn settle_first(&mut self) -> bool
        ensures settled { SettlesOn (first_waiting self.old) result self.old self.new }
        ensures own { is_built_in_depacketizer self.old.packets.buffer.depacketizer ≡ false → OwnStores B.is_head B.is_tail self.old.packets.buffer self.new.packets.buffer }
    {
        match self.ssrc {
            None => self.settle_on(0),
            Some(_) => true,
        }
    }

    /// Chooses the stream of the packet that waits at this place, if there is one. That packet is received; the other waiting
    /// packets belong to other streams. Returns false if memory runs out; nothing has changed then.
    fn settle_on(&mut self, place: usize) -> bool
        requires { self.old.ssrc ≡ Option.None }
        ensures settled { SettlesOn (slice_get self.old.choice.candidates place) result self.old self.new }
        ensures own { is_built_in_depacketizer self.old.packets.buffer.depacketizer ≡ false → OwnStores B.is_head B.is_tail self.old.packets.buffer self.new.packets.buffer }
    {
        let waiting = mem::replace(&mut self.choice.candidates, Vec::new(self.stream.alloc));
        let Some(first) = waiting.get(place) else {
            self.choice.candidates = waiting;
            return true;
        };
        self.ssrc = Some(first.ssrc);
        if is_out_of_memory(&self.hear_rarely(
            first.received,
            &ParsedDatagram::parse(&first.bytes),
        )) {
            self.ssrc = None;
            self.choice.candidates = waiting;
            return false;
        }
        self.turn_away(waiting.len().saturating_sub(1));
        true
    }

    /// Counts `count` packets that waited as packets of other streams.
    fn turn_away(&mut self, count: usize)
        ensures { self.new ≡ record self.old { arrived = turned_away count self.old.arrived } }
    {
        self.arrived = turned_away(self.arrived, count as u64);
    }

    /// Returns whether a decoder can show the latest popped unit: it is a keyframe, or all units to which it refers were released and
    /// can be shown. What it refers to is said by the dependency descriptors of its frames, if the settings name their id; else by the
    /// P_DIFFs of VP9 in the flexible mode (RFC 9628, section 4.2) or by the layers of VP8 (RFC 7741, section 4.2); without these it is
    /// the unit before, without a gap. The keyframe decides which of them counts until the next keyframe.
    ///
    /// True for audio, and with [`FromKeyframe::Off`]. False for video before the first unit, and after a refused frame or a unit above
    /// `max_unit`.
    pub fn unit_is_decodable(&self) -> bool
        ensures { result ≡ self.now.gates.gate.shows }
    {
        self.gates.is_decodable()
    }

    /// Returns whether the latest popped unit is a keyframe, by its frame header (RFC 6386, section 9.1; VP9 bitstream
    /// specification, section 6.2; AV1 bitstream specification, section 5.9). False for audio, and with [`FromKeyframe::Off`].
    pub fn unit_is_keyframe(&self) -> bool
        ensures { result ≡ self.now.gates.is_keyframe }
    {
        self.gates.is_keyframe()
    }

    /// Returns whether to request a keyframe, by PLI (RFC 4585, section 6.3.1) or FIR (RFC 5104, section 4.3.1). It is true
    /// from one of these events until a pop releases a keyframe, or a unit of the base layer that a decoder can show:
    ///
    /// - A pop found a unit of the base layer that a decoder cannot show. Without layers this is each such unit.
    /// - A pop refused a frame, or its unit was above `max_unit` of the settings.
    /// - A pop returned no unit and discarded packets, for example because the picture ids of the sender jumped back.
    /// - You called [`Receiver::restart`].
    ///
    /// It is false for audio, and with [`FromKeyframe::Off`].
    pub fn wants_keyframe(&self) -> bool
        ensures { result ≡ self.now.gates.gate.wants }
    {
        self.gates.wants_keyframe()
    }

    /// Returns the RTP time of the latest released unit, in ticks of the RTP clock, without wrapping. The first unit has 2^32
    /// plus the 32 bits of its header. Each later unit has the time nearest to the previous unit's. The field `time` of a unit
    /// has 32 bits, as its packets have, since this time identifies the packets of one frame.
    pub fn unit_time(&self) -> Option<u64>
        ensures { result ≡ self.now.time }
    {
        self.times.last()
    }

    /// Returns the time from which a pop waits for nothing, even if no packet arrives. See [`JitterBuffer::next_deadline`].
    pub fn next_deadline(&self) -> Option<Ticks>
        ensures value { option_map (λ at. at.0) result ≡ deadline_of self.now.packets }
        // From that time on a pop waits for nothing.
        ensures pressed { IfSome result (λ at. (now : ℕ) → at.0 ≤ now → is_pressed self.now.packets now ≡ true) }
    {
        self.packets.next_deadline()
    }

    /// Replaces the wait limits of a running stream; held packets stay. See [`JitterBuffer::set_wait_limits`].
    pub fn set_wait_limits(&mut self, wait_limits: WaitLimits)
        ensures { self.new ≡ record self.old { packets = record self.old.packets { wait_limits = wait_limits } } }
    {
        self.packets.set_wait_limits(wait_limits);
    }

    /// Returns how long the receiver waits for missing packets.
    pub fn wait_limits(&self) -> WaitLimits
        ensures { result ≡ self.now.packets.wait_limits }
    {
        self.packets.wait_limits()
    }

    /// Ends the stream: from now on pops wait for nothing and return all complete frames. Packets within the windows are still
    /// stored. No restart is detected until [`Receiver::restart`].
    ///
    /// If no SSRC was chosen so far, the first waiting packet is received and chooses the stream, so a stream of one packet is
    /// not lost. From then on the first packet chooses.
    ///
    /// # Errors
    ///
    /// Out of memory for that packet: nothing has changed, and the stream has not ended. You can call `finish` again. Without a
    /// waiting packet there is no error.
    pub fn finish(&mut self) -> Result<(), AllocError>
        ensures finished { Finishes self.old result self.new }
        // A custom depacketizer decides whether a packet that is stored begins and ends a unit.
        ensures own { is_built_in_depacketizer self.old.packets.buffer.depacketizer ≡ false → OwnStores B.is_head B.is_tail self.old.packets.buffer self.new.packets.buffer }
    {
        if !self.settle_first() {
            return Err(AllocError);
        }
        self.packets.finish();
        Ok(())
    }

    /// Replaces the SSRC and payload type of retransmissions; `None`: no stream of retransmissions. No packet has a payload type
    /// above 127.
    pub fn set_retransmission(&mut self, retransmission: Option<Retransmission>)
        ensures { self.new ≡ record self.old { stream = record self.old.stream { retransmission = retransmission } } }
    {
        self.stream.set_retransmission(retransmission);
    }

    /// Writes the same numbers as [`Receiver::missing`] to `numbers`, in place of what it had, from a list that is kept from call to
    /// call. So it costs little to ask after each datagram. See [`JitterBuffer::missing_into`].
    ///
    /// # Errors
    ///
    /// Out of memory: the receiver is unchanged, and the contents of `numbers` are unspecified.
    pub fn missing_into(&mut self, most: usize, numbers: &mut Vec<u64>) -> Result<(), AllocError>
        ensures numbers { OnOk result (numbers.new.items ≡ missing_numbers self.old.packets most) }
        ensures same { self.new ≡ self.old }
    {
        self.packets.missing_into(most, numbers)
    }

    /// Returns the missing numbers in rising order, at most `most` of them: the numbers to request by NACK. Allocates nothing.
    /// See [`JitterBuffer::missing`].
    pub fn missing(&self, most: usize) -> MissingNumbers<'_, B>
        ensures { result ≡ missing_numbers self.now.packets most }
    {
        self.packets.missing(most)
    }

    /// Returns the fields of a receiver report about the received packets of the stream's SSRC, with and without media.
    /// Recovered, retransmitted and suspect packets do not count. After a restart the report is about the new sender alone, from
    /// the packet on that confirmed it (RFC 3550, appendix A.1). Returns `None` if no packet was received. The next report starts
    /// its fraction here. Allocates nothing.
    pub fn report(&mut self) -> Option<ReceptionReport>
        ensures value { result ≡ report_of self.old.reception }
        ensures after { self.new ≡ record self.old { reception = reported self.old.reception } }
    {
        self.statistics.report()
    }

    /// Returns the SSRC of the stream, if it is known.
    pub fn ssrc(&self) -> Option<u32>
        ensures { result ≡ self.now.ssrc }
    {
        self.ssrc
    }

    /// Returns whether pops change nothing until a packet arrives. `false` says nothing. See [`JitterBuffer::is_idle`].
    #[inline(always)]
    pub fn is_idle(&self) -> bool
        ensures { result ≡ is_idle self.now.packets }
    {
        self.packets.is_idle()
    }

    /// Returns the number of held packets.
    pub fn held(&self) -> usize
        ensures { result ≡ length self.now.packets.buffer.held }
    {
        self.packets.held()
    }

    /// Returns the counters of all datagrams by outcome.
    pub fn counters(&self) -> Counters
        ensures packets { result.packets ≡ counters_with self.now.bound self.now.packets.counters }
        ensures arrived { (result.received ≡ (self.now.arrived.received + length self.now.choice.candidates) % 2 ^ 64) × (result.rtcp ≡ self.now.arrived.rtcp) × (result.malformed ≡ self.now.arrived.malformed) × (result.other_streams ≡ self.now.arrived.other_streams) }
        ensures undecided { result.undecided ≡ length self.now.choice.candidates }
        ensures too_large { result.too_large ≡ self.now.bound.units }
        ensures undecodable { result.undecodable ≡ self.now.gates.undecodable }
        // Every datagram is accounted for.
        ensures accounted { IsAccountedFor result (length self.now.packets.buffer.held) }
    {
        let undecided = self.choice.candidates.len() as u64;
        Counters {
            received: self.arrived.received.wrapping_add(undecided),
            rtcp: self.arrived.rtcp,
            malformed: self.arrived.malformed,
            other_streams: self.arrived.other_streams,
            undecided,
            packets: self.bound.counters_with(self.packets.counters()),
            too_large: self.bound.units(),
            undecodable: self.gates.undecodable(),
        }
    }
}

impl Arrived {
    /// Returns counters of 0.
    fn nothing() -> Arrived
        ensures { result ≡ nothing_arrived }
    {
        Arrived {
            received: 0,
            rtcp: 0,
            malformed: 0,
            other_streams: 0,
        }
    }
}

/// Counts one more datagram.
fn with_datagram(mut arrived: Arrived, datagram: &Datagram<'_>) -> Arrived
    ensures { result ≡ arrived_with arrived (datagram_of datagram.now) }
{
    arrived.received = arrived.received.wrapping_add(1);
    match datagram {
        Datagram::Rtcp => arrived.rtcp = arrived.rtcp.wrapping_add(1),
        Datagram::Malformed(_) => arrived.malformed = arrived.malformed.wrapping_add(1),
        Datagram::OtherStream => arrived.other_streams = arrived.other_streams.wrapping_add(1),
        _ => {}
    }
    arrived
}

/// Counts `count` more datagrams of other streams.
fn turned_away(mut arrived: Arrived, count: u64) -> Arrived
    ensures { result ≡ turned_away count arrived }
{
    arrived.received = arrived.received.wrapping_add(count);
    arrived.other_streams = arrived.other_streams.wrapping_add(count);
    arrived
}
