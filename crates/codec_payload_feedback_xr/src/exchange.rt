//! Extended reports beside the reports of a peer: it sends its reference time, reads the answers, and answers the times of others.

ghost use Rattle.std.specs.Prelude.{◌≡◌, ◌≢◌, ◌≤◌, ◌+◌, ◌||◌, OnErr, OnOk, length};
ghost use Rattle.std.specs.Option.{is_some};
ghost use Rattle.codec_payload_base.specs.Answers.{Finds};
ghost use Rattle.codec_payload_rtcp.specs.RtcpReading.{packets_left};
ghost use Rattle.codec_payload_rtcp.specs.RtcpValues.{packet_of};
ghost use Rattle.codec_payload_feedback_xr.specs.Exchange.{AppendsEach, answer_of, answer_to, any_answer, exchange_packets, exchanged, is_lost, no_exchange, peer_of, reference_time, report_by, report_in, sent, taken, trip_of};
ghost use Rattle.codec_payload_feedback_xr.specs.Xr.{or_else};
ghost use Rattle.codec_payload_feedback_xr.specs.XrReading.{report_of};
ghost use Rattle.codec_payload_feedback_xr.specs.RoundTrip.{middle_bits};

use crate::report::{Dlrr, ExtendedReport, XR};
use crate::times::{middle_bits, ntp_time, round_trip, ticks_of};
use crate::writing::{write_dlrr, write_reference_time};
use codec_payload_base::wire::{Frequency, Ticks};
use codec_payload_rtcp::compound::Packets;
use codec_payload_rtcp::packet::RtcpPacket;
use std::alloc::AllocError;

/// How many reports in a row may have no answer while the round trip counts.
const MOST_UNANSWERED: u8 = 3;

/// What a peer has learned by extended reports (RFC 3611): the round trip, and whose reference time it has to answer. It is for one
/// SSRC of its own, which the calls take.
///
/// With each report call [`TimeExchange::write`], and then [`TimeExchange::sent`]. Pass each compound packet to
/// [`TimeExchange::receive`].
#[derive(Clone, Copy, Debug, PartialEq, Eq)]
pub struct TimeExchange {
    /// The round trip by the latest answer, in ticks. `None`: no answer came, or none came to the latest three reports.
    pub round_trip: Option<u64>,
    /// How many reports were sent since that answer, at most 3. 0 without a round trip.
    pub unanswered: u8,
    /// The latest reference time that came since the latest report. Only this one is answered.
    pub peer: Option<PeerTime>,
}

/// A reference time of another peer.
#[derive(Clone, Copy, Debug, PartialEq, Eq)]
pub struct PeerTime {
    /// The SSRC of that peer.
    pub ssrc: u32,
    /// The middle 32 bits of the time.
    pub last_rr: u32,
    /// When it came: the middle 32 bits of the own NTP time.
    pub arrived: u32,
}

/// Returns the reference time of a moment: its NTP timestamp ([`ntp_time`]), or 1/65,536 s more if the middle 32 bits of that are 0. A
/// DLRR with 0 in place of these bits would say that no reference time came.
pub fn reference_time(now: Ticks, tick_rate: Frequency) -> u64
    ensures value { result ≡ reference_time now.0 tick_rate }
    ensures marked { middle_bits result ≢ 0 }
{
    let time = ntp_time(now, tick_rate);
    if middle_bits(time) == 0 {
        time + 65_536
    } else {
        time
    }
}

/// Returns the round trip that an answer gives at this moment, in ticks. `at` is the middle 32 bits of the own NTP time.
fn trip_of(answer: Option<Dlrr>, at: u32, tick_rate: Frequency) -> Option<u64>
    ensures { result ≡ trip_of tick_rate at answer }
{
    let Some(answer) = answer else {
        return None;
    };
    match round_trip(at, answer.last_rr, answer.delay) {
        Some(trip) => Some(ticks_of(trip, tick_rate)),
        None => None,
    }
}

/// Returns the reference time of the peer with this SSRC, which came at this moment.
fn peer_of(ssrc: u32, at: u32, time: Option<u64>) -> Option<PeerTime>
    ensures { result ≡ peer_of ssrc at time }
{
    match time {
        Some(time) => Some(PeerTime {
            ssrc,
            last_rr: middle_bits(time),
            arrived: at,
        }),
        None => None,
    }
}

/// Returns the extended report that a packet is. `None`: it is another packet, or has a fault.
fn report_in<'a>(packet: &RtcpPacket<'a>) -> Option<ExtendedReport<'a>>
    ensures { Finds report_of result (report_in (packet_of packet.now)) }
{
    match packet {
        RtcpPacket::Other(other) => report_by(other.packet_type, other.body),
        _ => None,
    }
}

/// Returns the extended report that a packet of this type with this body is.
fn report_by(packet_type: u8, body: &[u8]) -> Option<ExtendedReport<'_>>
    ensures { Finds report_of result (report_by packet_type body.now) }
{
    if packet_type != XR {
        return None;
    }
    match ExtendedReport::read(body) {
        Ok(report) => Some(report),
        Err(_) => None,
    }
}

/// Returns the later reference time, or else the earlier one.
fn later(later: Option<PeerTime>, earlier: Option<PeerTime>) -> Option<PeerTime>
    ensures { result ≡ or_else later earlier }
{
    match later {
        Some(time) => Some(time),
        None => earlier,
    }
}

impl TimeExchange {
    /// Returns what a peer knows before anything came. Does not allocate.
    pub fn new() -> TimeExchange
        ensures { result ≡ no_exchange }
    {
        TimeExchange {
            round_trip: None,
            unanswered: 0,
            peer: None,
        }
    }

    /// Takes a compound packet that came now, for the own `ssrc`, and returns whether it has an answer that gives a round trip
    /// ([`round_trip`]). `tick_rate` is the rate of the clock of `now`. The latest answer counts, and the latest reference time. Of an
    /// extended report the first answer counts, and the first reference time. Packets of other types, and extended reports with a fault,
    /// change nothing. Does not allocate.
    pub fn receive(
        &mut self,
        ssrc: u32,
        tick_rate: Frequency,
        now: Ticks,
        mut packets: Packets<'_>,
    ) -> bool
        ensures after { self.new ≡ exchanged ssrc tick_rate now.0 (packets_left packets.entry) self.old }
        ensures answers { result ≡ any_answer ssrc tick_rate now.0 (packets_left packets.entry) }
    {
        let at = middle_bits(ntp_time(now, tick_rate));
        let mut answers = false;
        while let Some(packet) = packets.next() {
            let is_answer = self.take(ssrc, tick_rate, at, &packet);
            answers = either(answers, is_answer);
        }
        answers
    }

    /// Takes a packet, and returns whether it has an answer that gives a round trip.
    fn take(&mut self, ssrc: u32, tick_rate: Frequency, at: u32, packet: &RtcpPacket<'_>) -> bool
        ensures after { self.new ≡ taken ssrc tick_rate at (packet_of packet.now) self.old }
        ensures answers { result ≡ is_some (answer_of ssrc tick_rate at (packet_of packet.now)) }
    {
        let Some(report) = report_in(packet) else {
            return false;
        };
        self.peer = later(peer_of(report.ssrc, at, report.reference_time()), self.peer);
        let trip = trip_of(report.dlrr(ssrc), at, tick_rate);
        if trip.is_some() {
            self.round_trip = trip;
            self.unanswered = 0;
        }
        trip.is_some()
    }

    /// Appends what a report of the own `ssrc` has to say: the reference time, in 20 bytes, and the answer to the latest reference time
    /// that came since the latest report, in 24 bytes, if there is one. Both are whole RTCP packets, for the end of a compound packet.
    /// `time` is the moment of sending as an NTP timestamp ([`reference_time`]).
    ///
    /// # Errors
    ///
    /// Out of memory: `out` is unchanged.
    pub fn write(&self, ssrc: u32, time: u64, out: &mut Vec<u8>) -> Result<(), AllocError>
        ensures packets { OnOk result (AppendsEach (exchange_packets ssrc time self.now) out.old.items out.new.items) }
        ensures length { OnOk result (length out.new.items ≤ length out.old.items + 44) }
        ensures err { OnErr result (out.new.items ≡ out.old.items) }
    {
        let len = out.len();
        write_reference_time(ssrc, time, out)?;
        let Some(peer) = self.peer else {
            return Ok(());
        };
        let answer = write_dlrr(ssrc, answer_to(peer, middle_bits(time)), out);
        if answer.is_err() {
            out.truncate(len);
        }
        answer
    }

    /// Notes that a report was sent, and returns whether the round trip ends with it: it was sent after three others without an answer.
    pub fn sent(&mut self) -> bool
        ensures after { self.new ≡ sent self.old }
        ensures ends { result ≡ is_lost self.old }
    {
        self.peer = None;
        if self.round_trip.is_none() {
            return false;
        }
        if self.unanswered < MOST_UNANSWERED {
            self.unanswered += 1;
            return false;
        }
        self.round_trip = None;
        self.unanswered = 0;
        true
    }
}

/// Returns whether one of them is true.
fn either(one: bool, other: bool) -> bool
    ensures { result ≡ (one || other) }
{
    one || other
}

/// Returns the answer to a reference time that leaves at this moment.
fn answer_to(peer: PeerTime, at: u32) -> Dlrr
    ensures { result ≡ answer_to at peer }
{
    Dlrr {
        ssrc: peer.ssrc,
        last_rr: peer.last_rr,
        delay: at.wrapping_sub(peer.arrived),
    }
}
