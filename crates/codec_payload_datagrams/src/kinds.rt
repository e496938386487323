//! What a datagram is, as one stream sees it.

ghost use Rattle.std.specs.Prelude.{◌≡◌, IfOk, IfErr, OnErr, is_some, true};
ghost use Rattle.std.specs.Option.{option_map};
ghost use Rattle.codec_payload_base.specs.declared.error.PacketError.TheVariants.{OutOfMemory};
ghost use Rattle.codec_payload_red.specs.RedReading.{red_at};
ghost use Rattle.codec_payload_rtp.specs.RtpValues.{header_of, packet_of};
ghost use Rattle.codec_payload_datagrams.specs.Kinds.{again_kind, carrier_of, carrier_with, datagram_of, is_among, is_other, is_padding_only, is_sent_again, is_the_type, media_kind, red_again_kind, red_again_of, red_kind, repeated_header, ssrc_or, under, takes_memory};

use codec_payload_base::error::PacketError;
use codec_payload_red::red::{RedBlock, RedDecoder, RedReceiver};
use codec_payload_rtp::rtp::{PacketHeader, RtpError, RtpPacket};
use std::alloc::Global;

/// The SSRC and payload type of retransmissions (RFC 4588).
#[derive(Clone, Copy, Debug, PartialEq, Eq)]
pub struct Retransmission {
    pub ssrc: u32,
    /// The payload type of retransmissions, 0 to 127.
    pub payload_type: u8,
}

/// The reason why a datagram is malformed.
#[derive(Clone, Copy, Debug)]
pub enum Malformation {
    /// It is not an RTP packet.
    Rtp(RtpError),
    /// The payload of a RED packet is not valid RED.
    Red,
    /// The payload of a retransmission ends inside the original sequence number.
    Retransmission,
}

/// A RED packet. A retransmitted one has the original sequence number and SSRC in its header.
#[derive(Debug, Drop)]
pub struct RedPacket<'a> {
    pub header: PacketHeader<'a>,
    pub receiver: RedReceiver,
    pub primary: RedBlock<'a>,
    pub older: Vec<RedBlock<'a>>,
}

/// A retransmission (RFC 4588, section 4).
#[derive(Clone, Copy, Debug)]
pub struct SentAgain<'a> {
    /// The header of the retransmission.
    pub header: PacketHeader<'a>,
    /// The original sequence number.
    pub number: u16,
    /// The original SSRC.
    pub ssrc: u32,
    /// The original payload.
    pub payload: &'a [u8],
}

/// What a datagram is, as one stream sees it.
#[derive(Debug, Drop)]
pub enum Datagram<'a> {
    Rtcp,
    Malformed(Malformation),
    OtherStream,
    NoMedia(RtpPacket<'a>),
    Media(RtpPacket<'a>),
    Red(RedPacket<'a>),
    SentAgain(SentAgain<'a>),
    /// A retransmission of a RED packet.
    RedAgain(RedPacket<'a>),
    /// A retransmission without payload.
    Nothing,
}

/// How a stream uses RED.
#[derive(Clone, Copy, Debug)]
pub struct RedStream {
    pub payload_type: u8,
    pub receiver: RedReceiver,
    /// The payload type of retransmitted RED packets.
    pub retransmission: Option<u8>,
}

/// Returns whether the payload type is in the list.
pub fn is_among(payload_type: u8, types: &[u8]) -> bool
    ensures { result ≡ is_among payload_type types.now }
{
    for t in types {
        if *t == payload_type {
            return true;
        }
    }
    false
}

/// Returns whether `ssrc` differs from the known SSRC.
pub fn is_other(known: Option<u32>, ssrc: u32) -> bool
    ensures { result ≡ is_other known ssrc }
{
    match known {
        Some(known) => known != ssrc,
        None => false,
    }
}

/// Returns whether the packet is a retransmission.
pub fn is_sent_again(retransmission: Option<Retransmission>, header: &PacketHeader<'_>) -> bool
    ensures { result ≡ is_sent_again retransmission (header_of header.now) }
{
    match retransmission {
        Some(it) => it.ssrc == header.ssrc && it.payload_type == header.payload_type,
        None => false,
    }
}

/// Returns the retransmission settings with this SSRC, if one is given.
pub fn under(retransmission: Option<Retransmission>, ssrc: Option<u32>) -> Option<Retransmission>
    ensures { result ≡ under retransmission ssrc }
{
    match (retransmission, ssrc) {
        (Some(it), Some(ssrc)) => Some(Retransmission { ssrc, ..it }),
        _ => retransmission,
    }
}

/// Returns whether the packet has padding only.
pub fn is_padding_only(packet: &RtpPacket<'_>) -> bool
    ensures { result ≡ is_padding_only (packet_of packet.now) }
{
    0 < packet.padding && packet.payload.is_empty()
}

/// Sorts a packet with a payload type of the stream.
#[inline(always)]
pub fn media_kind<'a>(packet: RtpPacket<'a>) -> Datagram<'a>
    ensures { datagram_of result ≡ media_kind (packet_of packet.entry) }
{
    if is_padding_only(&packet) {
        Datagram::NoMedia(packet)
    } else {
        Datagram::Media(packet)
    }
}

/// Returns the SSRC of the stream, or the SSRC of the packet if the stream's is unknown.
fn ssrc_or(known: Option<u32>, ssrc: u32) -> u32
    ensures { result ≡ ssrc_or known ssrc }
{
    match known {
        Some(known) => known,
        None => ssrc,
    }
}

/// Sorts a retransmission.
pub fn again_kind<'a>(known: Option<u32>, packet: RtpPacket<'a>) -> Datagram<'a>
    ensures { datagram_of result ≡ again_kind known (packet_of packet.entry) }
{
    match packet.payload {
        [] => Datagram::Nothing,
        [_] => Datagram::Malformed(Malformation::Retransmission),
        [high, low, payload @ ..] => Datagram::SentAgain(SentAgain {
            header: packet.header,
            number: u16::from(*high) * 256 + u16::from(*low),
            ssrc: ssrc_or(known, packet.header.ssrc),
            payload,
        }),
    }
}

/// Sorts a RED packet.
#[tactic(auto, using(crate::proofs::MemoryLemmas::red_takes, crate::proofs::MemoryLemmas::red_again_takes))]
pub fn red_kind<'a>(
    alloc: Global,
    receiver: RedReceiver,
    packet: RtpPacket<'a>,
) -> Result<Datagram<'a>, PacketError>
    ensures ok { IfOk result (λ d. datagram_of d ≡ red_kind receiver (packet_of packet.entry)) }
    ensures fault { IfErr result (λ f. f ≡ OutOfMemory) }
    ensures memory { OnErr result (takes_memory (red_kind receiver (packet_of packet.entry)) ≡ true) }
{
    if is_padding_only(&packet) {
        return Ok(Datagram::NoMedia(packet));
    }
    let Some(red) = read_red(alloc, receiver, packet.header, packet.payload)? else {
        return Ok(Datagram::Malformed(Malformation::Red));
    };
    Ok(Datagram::Red(red))
}

/// Reads the blocks of a RED payload, for a packet with this header. Returns `None` if it is not valid RED.
fn read_red<'a>(
    alloc: Global,
    receiver: RedReceiver,
    header: PacketHeader<'a>,
    payload: &'a [u8],
) -> Result<Option<RedPacket<'a>>, PacketError>
    ensures ok { IfOk result (λ red. option_map carrier_of red ≡ option_map (carrier_with receiver (header_of header.entry)) (red_at payload.now)) }
    ensures fault { IfErr result (λ f. f ≡ OutOfMemory) }
    // Memory runs out for valid RED alone.
    ensures memory { OnErr result (is_some (red_at payload.now) ≡ true) }
{
    let mut blocks = match RedDecoder::decode(alloc, payload) {
        Ok(blocks) => blocks,
        Err(PacketError::OutOfMemory) => return Err(PacketError::OutOfMemory),
        Err(_) => return Ok(None),
    };
    let Some(primary) = blocks.pop() else {
        return Ok(None);
    };
    Ok(Some(RedPacket {
        header,
        receiver,
        primary,
        older: blocks,
    }))
}

/// Returns whether this payload type is given.
fn is_the_type(given: Option<u8>, payload_type: u8) -> bool
    ensures { result ≡ is_the_type given payload_type }
{
    match given {
        Some(own) => own == payload_type,
        None => false,
    }
}

/// Returns the RED receiver for retransmitted RED packets, if the packet is one.
pub fn red_again_of(
    retransmission: Option<Retransmission>,
    red: Option<RedStream>,
    header: &PacketHeader<'_>,
) -> Option<RedReceiver>
    ensures { result ≡ red_again_of retransmission red (header_of header.now) }
{
    match (retransmission, red) {
        (Some(it), Some(red))
            if it.ssrc == header.ssrc && is_the_type(red.retransmission, header.payload_type) => {
            Some(red.receiver)
        }
        _ => None,
    }
}

/// Returns the header of the original packet of a retransmission, which has this number.
fn repeated_header<'a>(
    known: Option<u32>,
    header: PacketHeader<'a>,
    number: u16,
) -> PacketHeader<'a>
    ensures { header_of result ≡ repeated_header known (header_of header.entry) number }
{
    PacketHeader {
        sequence_number: number,
        ssrc: ssrc_or(known, header.ssrc),
        ..header
    }
}

/// Sorts a retransmission of a RED packet: the RED payload comes after the original number.
#[tactic(auto, using(crate::proofs::MemoryLemmas::red_takes, crate::proofs::MemoryLemmas::red_again_takes))]
pub fn red_again_kind<'a>(
    alloc: Global,
    receiver: RedReceiver,
    known: Option<u32>,
    packet: RtpPacket<'a>,
) -> Result<Datagram<'a>, PacketError>
    ensures ok { IfOk result (λ d. datagram_of d ≡ red_again_kind receiver known (packet_of packet.entry)) }
    ensures fault { IfErr result (λ f. f ≡ OutOfMemory) }
    ensures memory { OnErr result (takes_memory (red_again_kind receiver known (packet_of packet.entry)) ≡ true) }
{
    match packet.payload {
        [] => Ok(Datagram::Nothing),
        [_] => Ok(Datagram::Malformed(Malformation::Retransmission)),
        [high, low, payload @ ..] => {
            let number = u16::from(*high) * 256 + u16::from(*low);
            let header = repeated_header(known, packet.header, number);
            match read_red(alloc, receiver, header, payload)? {
                Some(red) => Ok(Datagram::RedAgain(red)),
                None => Ok(Datagram::Malformed(Malformation::Red)),
            }
        }
    }
}
