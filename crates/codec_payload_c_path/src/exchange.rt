//! Round trips by extended reports (RFC 3611): what a peer has learned, in a struct of C.

ghost use Rattle.std.specs.Prelude.{◌≡◌, [], IfOk};
ghost use Rattle.codec_payload_rtcp.specs.RtcpReading.{packets_left};
ghost use Rattle.codec_payload_feedback_xr.specs.Exchange.{AppendsEach, any_answer, exchange_packets, exchanged, is_lost, reference_time, sent};
ghost use Rattle.codec_payload_c_path.specs.Exchanges.{exchange_given, exchange_told, peer_given, peer_told};

use codec_payload_base::wire::{Frequency, Ticks};
use codec_payload_feedback_xr::exchange::{PeerTime, TimeExchange, reference_time};
use codec_payload_rtcp::compound::Packets;
use std::alloc::{AllocError, Global};

/// What a peer has learned by extended reports. All zeros: nothing came.
#[repr(C)]
#[derive(Clone, Copy)]
pub struct XrExchange {
    /// The round trip by the latest answer, in ticks; 0 without one.
    pub round_trip: u64,
    /// The SSRC of the peer whose reference time waits for an answer; 0 without one.
    pub peer_ssrc: u32,
    /// The middle 32 bits of this time; 0 without one.
    pub peer_last_rr: u32,
    /// When it came: the middle 32 bits of the own NTP time; 0 without one.
    pub peer_arrived: u32,
    /// How many reports were sent since the latest answer.
    pub unanswered: u8,
    /// Whether a round trip is known.
    pub has_round_trip: bool,
    /// Whether a reference time waits for an answer.
    pub has_peer: bool,
}

/// Returns the reference time that waits for an answer.
fn peer_given(exchange: &XrExchange) -> Option<PeerTime>
    ensures { result ≡ peer_given exchange.now }
{
    if exchange.has_peer {
        Some(PeerTime {
            ssrc: exchange.peer_ssrc,
            last_rr: exchange.peer_last_rr,
            arrived: exchange.peer_arrived,
        })
    } else {
        None
    }
}

/// Converts what a peer has learned from C.
fn exchange_given(exchange: &XrExchange) -> TimeExchange
    ensures { result ≡ exchange_given exchange.now }
{
    TimeExchange {
        round_trip: if exchange.has_round_trip {
            Some(exchange.round_trip)
        } else {
            None
        },
        unanswered: exchange.unanswered,
        peer: peer_given(exchange),
    }
}

/// Returns the fields of a reference time; zeros without one.
fn peer_told(peer: Option<PeerTime>) -> PeerTime
    ensures { result ≡ peer_told peer }
{
    match peer {
        Some(peer) => peer,
        None => PeerTime {
            ssrc: 0,
            last_rr: 0,
            arrived: 0,
        },
    }
}

/// Describes what a peer has learned for C.
fn exchange_told(exchange: TimeExchange) -> XrExchange
    ensures { result ≡ exchange_told exchange }
{
    let peer = peer_told(exchange.peer);
    XrExchange {
        round_trip: exchange.round_trip.unwrap_or(0),
        peer_ssrc: peer.ssrc,
        peer_last_rr: peer.last_rr,
        peer_arrived: peer.arrived,
        unanswered: exchange.unanswered,
        has_round_trip: exchange.round_trip.is_some(),
        has_peer: exchange.peer.is_some(),
    }
}

/// Takes a compound packet that came now, and returns whether it has an answer that gives a round trip.
pub fn receive(
    exchange: &mut XrExchange,
    ssrc: u32,
    tick_rate: Frequency,
    now: u64,
    packets: Packets<'_>,
) -> bool
    ensures after { exchange.new ≡ exchange_told (exchanged ssrc tick_rate now (packets_left packets.entry) (exchange_given exchange.old)) }
    ensures answers { result ≡ any_answer ssrc tick_rate now (packets_left packets.entry) }
{
    let mut learned = exchange_given(exchange);
    let answers = learned.receive(ssrc, tick_rate, Ticks(now), packets);
    *exchange = exchange_told(learned);
    answers
}

/// Returns what a report of the own SSRC has to say now: whole RTCP packets.
pub fn report(
    alloc: Global,
    exchange: &XrExchange,
    ssrc: u32,
    tick_rate: Frequency,
    now: u64,
) -> Result<Vec<u8>, AllocError>
    ensures { IfOk result (λ bytes. AppendsEach (exchange_packets ssrc (reference_time now tick_rate) (exchange_given exchange.now)) [] bytes.items) }
{
    let mut bytes = Vec::new(alloc);
    let time = reference_time(Ticks(now), tick_rate);
    exchange_given(exchange).write(ssrc, time, &mut bytes)?;
    Ok(bytes)
}

/// Notes that a report was sent, and returns whether the round trip ends with it.
pub fn note_sent(exchange: &mut XrExchange) -> bool
    ensures after { exchange.new ≡ exchange_told (sent (exchange_given exchange.old)) }
    ensures ends { result ≡ is_lost (exchange_given exchange.old) }
{
    let mut learned = exchange_given(exchange);
    let ends = learned.sent();
    *exchange = exchange_told(learned);
    ends
}
