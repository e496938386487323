//! Which packet of the stream a datagram brings, and what it says of its picture.

ghost use Rattle.std.specs.Prelude.{◌≡◌};
ghost use Rattle.std.specs.Option.{option_map};
ghost use Rattle.codec_payload_rtp.specs.RtpReading.{rtp_at};
ghost use Rattle.codec_payload_rtp.specs.RtpValues.{extension_of, header_of, packet_of};
ghost use Rattle.codec_payload_stream_edges.specs.Brought.{at_edge, brought, brought_at, brought_of, can_say, edge_of, has_type, is_own_type, lone_block, original_payload, own_payload, rules_of, rules_with, type_of_red, type_of_red_again, type_of_retransmission, whole};

use codec_payload_base::wire::Codec;
use codec_payload_datagrams::parsed::ParsedDatagram;
use codec_payload_edges::edge::Edge;
use codec_payload_receiver::receiver::{RedSettings, Retransmission, Settings};
use codec_payload_rtp::rtp::{HeaderExtension, PacketHeader, RtpPacket};
use codec_payload_rtp::values::extension_value;

/// How the packets of a stream say where pictures begin and end.
#[derive(Clone, Copy, Debug, PartialEq, Eq)]
pub struct EdgeRules {
    /// The codec of the stream. VP8 and VP9 have PictureIDs; packets of other codecs say it by the dependency descriptor alone.
    pub codec: Codec,
    /// The id of the header extension element with the dependency descriptor, 1 to 255: `dependency_descriptor` of the receiver's
    /// settings. A packet that has the element says it by its frame_number, and not by a PictureID.
    pub descriptor: Option<u8>,
    /// The payload type of the stream, 0 to 127.
    pub payload_type: u8,
    /// The payload type of RED, 0 to 127, if the stream uses it. Of RED a packet with one block alone is read, as packets are that are
    /// sent beside error correction.
    pub red: Option<u8>,
    /// The payload type of retransmissions, 0 to 127, if there are any.
    pub retransmission: Option<u8>,
    /// The payload type of retransmitted RED packets, 0 to 127, if there are any.
    pub red_again: Option<u8>,
}

/// A packet with media of the stream. A retransmission has its original number and payload.
#[derive(Clone, Copy, Debug)]
pub(crate) struct Brought<'a> {
    pub(crate) number: u16,
    marker: bool,
    extension: Option<HeaderExtension<'a>>,
    payload: &'a [u8],
}

impl EdgeRules {
    /// Returns the rules for a stream with this id of the dependency descriptor, this payload type, this RED, and this payload type of
    /// retransmissions. Does not allocate.
    #[inline(always)]
    pub fn new(
        codec: Codec,
        descriptor: Option<u8>,
        payload_type: u8,
        red: Option<RedSettings>,
        retransmission: Option<u8>,
    ) -> EdgeRules
        ensures { result ≡ rules_with codec descriptor payload_type red retransmission }
    {
        EdgeRules {
            codec,
            descriptor,
            payload_type,
            red: type_of_red(red),
            retransmission,
            red_again: type_of_red_again(red),
        }
    }

    /// Returns the rules for the stream of a receiver with these settings. Does not allocate.
    pub fn of(codec: Codec, settings: &Settings) -> EdgeRules
        ensures { result ≡ rules_of codec settings.now }
    {
        EdgeRules::new(
            codec,
            settings.dependency_descriptor,
            settings.payload_type,
            settings.red,
            type_of_retransmission(settings.retransmission),
        )
    }

    /// Returns whether packets of the stream can say where pictures begin and end.
    #[inline(always)]
    pub(crate) fn can_say(&self) -> bool
        ensures { result ≡ can_say self.now }
    {
        matches!(self.codec, Codec::Vp8 | Codec::Vp9) || self.descriptor.is_some()
    }

    /// Returns whether a packet of the stream's own SSRC has this payload type.
    fn is_own_type(&self, payload_type: u8) -> bool
        ensures { result ≡ is_own_type self.now payload_type }
    {
        payload_type == self.payload_type || has_type(self.red, payload_type)
    }

    /// Returns the payload of the stream in a packet of its own SSRC with this payload type.
    fn own_payload<'a>(&self, payload_type: u8, payload: &'a [u8]) -> Option<&'a [u8]>
        ensures { option_map (λ b. b.now) result ≡ own_payload self.now payload_type payload.now }
    {
        if payload_type == self.payload_type {
            Some(payload)
        } else if has_type(self.red, payload_type) {
            lone_block(self.payload_type, payload)
        } else {
            None
        }
    }

    /// Returns the payload of the stream behind the number of a retransmission with this payload type.
    fn original_payload<'a>(&self, payload_type: u8, payload: &'a [u8]) -> Option<&'a [u8]>
        ensures { option_map (λ b. b.now) result ≡ original_payload self.now payload_type payload.now }
    {
        if has_type(self.retransmission, payload_type) {
            Some(payload)
        } else if has_type(self.red_again, payload_type) {
            lone_block(self.payload_type, payload)
        } else {
            None
        }
    }

    /// Returns the packet with media that a datagram brings to the stream with this SSRC.
    pub(crate) fn brought<'a>(
        &self,
        ssrc: u32,
        datagram: &ParsedDatagram<'a>,
    ) -> Option<Brought<'a>>
        ensures { option_map brought_of result ≡ brought_at self.now ssrc datagram.now }
    {
        match datagram.packet() {
            Ok(packet) => self.brought_in(ssrc, packet),
            Err(_) => None,
        }
    }

    /// Does the same for an RTP packet.
    fn brought_in<'a>(&self, ssrc: u32, packet: &RtpPacket<'a>) -> Option<Brought<'a>>
        ensures { option_map brought_of result ≡ brought self.now ssrc (packet_of packet.now) }
    {
        let header = &packet.header;
        if header.ssrc == ssrc && self.is_own_type(header.payload_type) {
            let payload = self.own_payload(header.payload_type, packet.payload);
            return whole(header, header.sequence_number, payload);
        }
        match packet.payload {
            [high, low, payload @ ..] => whole(
                header,
                u16::from_be_bytes([*high, *low]),
                self.original_payload(header.payload_type, payload),
            ),
            _ => None,
        }
    }

    /// Returns what a packet says of its picture, if it is the first or the last packet of it.
    pub(crate) fn edge(&self, packet: &Brought<'_>) -> Option<Edge>
        ensures { result ≡ at_edge (edge_of self.now (brought_of packet.now)) }
    {
        let edge = self.edge_of(packet)?;
        if edge.begins || edge.ends {
            Some(edge)
        } else {
            None
        }
    }

    /// Returns what a packet says of its picture.
    fn edge_of(&self, packet: &Brought<'_>) -> Option<Edge>
        ensures { result ≡ edge_of self.now (brought_of packet.now) }
    {
        if let Some(id) = self.descriptor
            && let Some(descriptor) = extension_value(id, &packet.extension)
        {
            return Edge::in_descriptor(descriptor);
        }
        match self.codec {
            Codec::Vp8 => Edge::in_vp8(packet.payload, packet.marker),
            Codec::Vp9 => Edge::in_vp9(packet.payload, packet.marker),
            _ => None,
        }
    }
}

/// Returns whether this payload type is given.
fn has_type(given: Option<u8>, payload_type: u8) -> bool
    ensures { result ≡ has_type given payload_type }
{
    match given {
        Some(own) => own == payload_type,
        None => false,
    }
}

/// Returns the payload type of RED.
fn type_of_red(red: Option<RedSettings>) -> Option<u8>
    ensures { result ≡ type_of_red red }
{
    match red {
        Some(red) => Some(red.payload_type),
        None => None,
    }
}

/// Returns the payload type of retransmitted RED packets.
fn type_of_red_again(red: Option<RedSettings>) -> Option<u8>
    ensures { result ≡ type_of_red_again red }
{
    red?.retransmission
}

/// Returns the payload type of retransmissions.
fn type_of_retransmission(retransmission: Option<Retransmission>) -> Option<u8>
    ensures { result ≡ type_of_retransmission retransmission }
{
    match retransmission {
        Some(it) => Some(it.payload_type),
        None => None,
    }
}

/// Returns the only block of a RED payload (RFC 2198, section 3), if it has this payload type: F and type(7), then the block. `None`: F
/// is set, since there are more blocks, or the type is another one.
fn lone_block(payload_type: u8, payload: &[u8]) -> Option<&[u8]>
    ensures { option_map (λ b. b.now) result ≡ lone_block payload_type payload.now }
{
    match payload {
        [first, block @ ..] if *first == payload_type && *first < 128 => Some(block),
        _ => None,
    }
}

/// Returns the packet with this number and payload of the stream, if there is a payload.
fn whole<'a>(
    header: &PacketHeader<'a>,
    number: u16,
    payload: Option<&'a [u8]>,
) -> Option<Brought<'a>>
    ensures { option_map brought_of result ≡ whole (header_of header.now) number (option_map (λ b. b.now) payload.entry) }
{
    Some(Brought {
        number,
        marker: header.marker,
        extension: header.extension,
        payload: payload?,
    })
}
