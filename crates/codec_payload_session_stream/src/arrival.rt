//! What a session does with a datagram, and what a stream answers to it.

ghost use Rattle.std.specs.Prelude.{◌≡◌};
ghost use Rattle.codec_payload_rtp.specs.RtpReading.{rtp_at};
ghost use Rattle.codec_payload_session_stream.specs.Arrivals.{arrival_of};
ghost use Rattle.codec_payload_session_stream.specs.Streams.{payload_size};
ghost use Rattle.codec_payload_session_stream.specs.Waking.{FeedsOne};

use crate::stream::{StreamState, is_no_memory};
use codec_payload_base::wire::Ticks;
use codec_payload_datagrams::parsed::ParsedDatagram;
use codec_payload_jitter::outcome::Outcome;
use codec_payload_receiver::receiver::ReceiveError;
use std::alloc::AllocError;

/// What a session did with a datagram.
#[derive(Clone, Copy, Debug, PartialEq, Eq)]
pub enum Arrival {
    /// A compound packet of RTCP. The streams that its BYE names end (RFC 3550, section 6.6), and its sender reports state the
    /// clocks of streams (section 6.4.1).
    Rtcp,
    /// The datagram is not RTP, and not a valid compound packet of RTCP.
    Malformed,
    /// The payload type is not in the settings, or it is one without media and its SSRC has no stream.
    Unknown,
    /// The datagram would begin a stream, but all places are taken or the session is finished.
    Refused,
    /// A retransmission whose stream is not known: no pair names its SSRC, and none or several streams fit
    /// ([`Session::receive`]).
    ///
    /// [`Session::receive`]: codec_payload_session::session::Session::receive
    Unassociated,
    /// The stream of this SSRC and payload type received the datagram. `outcome` is what [`Receiver::receive`] returned: the
    /// packet was stored, or why it was dropped.
    ///
    /// [`Receiver::receive`]: codec_payload_receiver::receiver::Receiver::receive
    Stream {
        ssrc: u32,
        payload_type: u8,
        outcome: Outcome,
    },
    /// The stream of this SSRC and payload type refused the datagram: its payload is not valid RED or not a valid
    /// retransmission, or memory ran out for older blocks of RED. The stream counts it, and continues. Any peer can send such a
    /// datagram, so do not end a program for it. `fault` is the error of [`Receiver::receive`], and never
    /// [`ReceiveError::OutOfMemory`].
    ///
    /// [`Receiver::receive`]: codec_payload_receiver::receiver::Receiver::receive
    Faulty {
        ssrc: u32,
        payload_type: u8,
        fault: ReceiveError,
    },
}

/// Passes a datagram to the stream.
#[inline(always)]
pub fn feed_one(
    stream: &mut StreamState,
    probation: u64,
    now: Ticks,
    datagram: &ParsedDatagram<'_>,
) -> Result<Arrival, AllocError>
    ensures { FeedsOne probation now datagram.now stream.old result stream.new }
{
    let (ssrc, payload_type) = (stream.ssrc, stream.format.payload_type);
    let answer = stream.take(now, probation, datagram);
    if is_no_memory(&answer) {
        return Err(AllocError);
    }
    Ok(arrival_of(ssrc, payload_type, answer))
}

/// Returns what was done with a datagram for which the stream has this answer.
#[inline(always)]
pub fn arrival_of(ssrc: u32, payload_type: u8, answer: Result<Outcome, ReceiveError>) -> Arrival
    ensures { result ≡ arrival_of ssrc payload_type answer }
{
    match answer {
        Ok(outcome) => Arrival::Stream {
            ssrc,
            payload_type,
            outcome,
        },
        Err(fault) => Arrival::Faulty {
            ssrc,
            payload_type,
            fault,
        },
    }
}

/// Returns the number of bytes of payload of an RTP packet, without padding. 0: the datagram is no packet.
#[inline(always)]
pub(crate) fn size_of(datagram: &ParsedDatagram<'_>) -> u64
    ensures { result ≡ payload_size (rtp_at datagram.now) }
{
    match datagram.packet() {
        Ok(packet) => packet.payload.len() as u64,
        Err(_) => 0,
    }
}
