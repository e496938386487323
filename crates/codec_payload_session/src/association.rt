//! Retransmissions whose SSRC is in no pair (RFC 4588, section 5.3): the session has requested the packet, so it finds the stream.

ghost use Rattle.std.specs.Prelude.{◌≡◌, filter, Option, OnErr, OnOk};
ghost use Rattle.codec_payload_rtp.specs.RtpValues.{packet_of};
ghost use Rattle.codec_payload_session.specs.Arrivals.{TakesIn};
ghost use Rattle.codec_payload_session.specs.Associations.{AddsPair, TakesInBy, has_pair, is_on_time, is_unassociated, may_be_of, owner_of, pair_at, unpaired_at, unpaired_of};
ghost use Rattle.codec_payload_session_formats.specs.Checks.{fault_of};

use crate::streams::Streams;
use codec_payload_base::wire::Ticks;
use codec_payload_datagrams::parsed::ParsedDatagram;
use codec_payload_rtp::rtp::RtpPacket;
use codec_payload_session_formats::formats::{Role, SessionSettings, SsrcPair};
use codec_payload_session_requests::requests::{has_requested, original_number};
use codec_payload_session_stream::arrival::Arrival;
use codec_payload_session_stream::stream::{StreamState, is_playing};
use std::alloc::AllocError;

/// How far the RTP time of a retransmission may be from the clock of its stream's sender, in seconds.
const LARGEST_DISTANCE: u64 = 10;

/// A retransmission whose SSRC is in no pair.
#[derive(Clone, Copy, Debug)]
pub(crate) struct Unpaired {
    ssrc: u32,
    /// The payload type of its stream.
    payload_type: u8,
    /// Its original number.
    number: u16,
    rtp_time: u32,
}

/// Receives a datagram. If it is a retransmission whose SSRC is in no pair and exactly one stream fits, that pair is added first.
pub(crate) fn receive_or_associate(
    settings: &mut SessionSettings,
    streams: &mut Streams,
    now: Ticks,
    datagram: &ParsedDatagram<'_>,
) -> Result<Arrival, AllocError>
    requires { fault_of settings.old ≡ Option.None }
    ensures { TakesInBy (pair_at settings.old now.0 datagram.now streams.old.streams) now datagram.now settings.old streams.old result settings.new streams.new }
{
    let answer = streams.take_in(settings, now, datagram);
    if !is_unassociated(&answer) {
        return answer;
    }
    match pair_at(settings, &streams.list, now, datagram) {
        Some(pair) => {
            add_pair(settings, streams, pair)?;
            let mut again = Ok(Arrival::Unassociated);
            take_in_again(settings, streams, now, datagram, &mut again);
            again
        }
        None => answer,
    }
}

/// Receives a datagram for which a pair was added. It is rare, and writes the answer to `again`, so that `Streams::take_in` is
/// inlined once.
#[inline(never)]
fn take_in_again(
    settings: &SessionSettings,
    streams: &mut Streams,
    now: Ticks,
    datagram: &ParsedDatagram<'_>,
    again: &mut Result<Arrival, AllocError>,
)
    requires { fault_of settings.now ≡ Option.None }
    ensures { TakesIn settings.now now datagram.now streams.old again.new streams.new }
{
    *again = streams.take_in(settings, now, datagram);
}

/// Adds a pair to the settings, and gives the streams of its SSRC their retransmissions. If memory runs out, nothing has changed.
pub(crate) fn add_pair(
    settings: &mut SessionSettings,
    streams: &mut Streams,
    pair: SsrcPair,
) -> Result<(), AllocError>
    ensures ok { OnOk result (AddsPair pair settings.old streams.old settings.new streams.new) }
    ensures settings { OnErr result (settings.new ≡ settings.old) }
    ensures streams { OnErr result (streams.new ≡ streams.old) }
{
    let pairs = streams.with_pair(&settings.pairs, pair)?;
    settings.pairs = pairs;
    streams.pair(pair.ssrc, &settings.pairs);
    Ok(())
}

/// Returns the pair to add for a datagram.
fn pair_at(
    settings: &SessionSettings,
    streams: &[StreamState],
    now: Ticks,
    datagram: &ParsedDatagram<'_>,
) -> Option<SsrcPair>
    ensures { result ≡ pair_at settings.now now.0 datagram.now streams.now }
{
    let packet = unpaired_at(settings, datagram)?;
    let ssrc = owner_of(streams, &settings.pairs, now, packet)?;
    Some(SsrcPair {
        ssrc,
        retransmission: packet.ssrc,
    })
}

/// Returns the retransmission that the datagram is, if its SSRC is in no pair.
fn unpaired_at(settings: &SessionSettings, datagram: &ParsedDatagram<'_>) -> Option<Unpaired>
    ensures { result ≡ unpaired_at settings.now datagram.now }
{
    if datagram.is_rtcp() {
        return None;
    }
    match datagram.packet() {
        Ok(packet) => unpaired_of(settings, packet),
        Err(_) => None,
    }
}

/// Returns the retransmission that the packet is, if its SSRC is in no pair.
fn unpaired_of(settings: &SessionSettings, packet: &RtpPacket<'_>) -> Option<Unpaired>
    ensures { result ≡ unpaired_of settings.now (packet_of packet.now) }
{
    let Role::Retransmission(format) = settings.role(packet.header.payload_type) else {
        return None;
    };
    match (
        settings.stream_of(packet.header.ssrc),
        original_number(packet.payload),
    ) {
        (None, Some(number)) => Some(Unpaired {
            ssrc: packet.header.ssrc,
            payload_type: format.payload_type,
            number,
            rtp_time: packet.header.timestamp,
        }),
        _ => None,
    }
}

/// Returns the SSRC of the stream of a retransmission, if exactly one fits.
fn owner_of(
    streams: &[StreamState],
    pairs: &[SsrcPair],
    now: Ticks,
    packet: Unpaired,
) -> Option<u32>
    ensures { result ≡ owner_of pairs.now now.0 packet streams.now }
{
    let mut owner = None;
    for stream in streams {
        if may_be_of(stream, pairs, now, packet) {
            if owner.is_some() {
                return None;
            }
            owner = Some(stream.ssrc);
        }
    }
    owner
}

/// Returns whether the retransmission may be of this stream.
fn may_be_of(stream: &StreamState, pairs: &[SsrcPair], now: Ticks, packet: Unpaired) -> bool
    ensures { result ≡ may_be_of pairs.now now.0 packet stream.now }
{
    is_playing(stream.stage)
        && stream.format.payload_type == packet.payload_type
        && has_requested(&stream.feedback, packet.number)
        && is_on_time(stream, now, packet.rtp_time)
        && !has_pair(pairs, stream.ssrc)
}

/// Returns whether the RTP time is near the clock of the stream's sender.
fn is_on_time(stream: &StreamState, now: Ticks, rtp_time: u32) -> bool
    ensures { result ≡ is_on_time now.0 rtp_time stream.now }
{
    match stream.receiver.inner().transit_change(now, rtp_time) {
        Some(distance) => {
            u64::from(distance) <= LARGEST_DISTANCE * u64::from(stream.format.spec.clock_rate.get())
        }
        None => false,
    }
}

/// Returns whether a pair names the retransmissions of this SSRC.
fn has_pair(pairs: &[SsrcPair], ssrc: u32) -> bool
    ensures { result ≡ has_pair ssrc pairs.now }
{
    for pair in pairs {
        if pair.ssrc == ssrc {
            return true;
        }
    }
    false
}

/// Returns whether the datagram is a retransmission whose stream is not known.
fn is_unassociated(answer: &Result<Arrival, AllocError>) -> bool
    ensures { result ≡ is_unassociated answer.now }
{
    matches!(answer, Ok(Arrival::Unassociated))
}
