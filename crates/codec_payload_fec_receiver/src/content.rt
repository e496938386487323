//! What the datagrams of a stream with FEC are.

ghost use Rattle.std.specs.Prelude.{◌≡◌};
ghost use Rattle.codec_payload_rtp.specs.RtpPackets.{FitsHeader};
ghost use Rattle.codec_payload_rtp.specs.RtpReading.{rtp_at};
ghost use Rattle.codec_payload_rtp.specs.RtpValues.{header_of, packet_of};
ghost use Rattle.codec_payload_fec_receiver.specs.Contents.{FitsContent, content_of, content_view, in_red, of_stream};

use crate::late::LateIds;
use codec_payload_rtp::rtp::{PacketHeader, RtpPacket};

/// The settings of a receiver of FEC.
#[derive(Clone, Copy, Debug, PartialEq, Eq)]
pub struct FecSettings {
    /// The SSRC of the media and of its FEC.
    pub ssrc: u32,
    /// The payload type of RED. A number above 127 is none.
    pub red_type: u8,
    /// The payload type of ULPFEC, in a block of RED or of a packet without RED. A number above 127 is none.
    pub fec_type: u8,
    /// Which header extensions the sender fills in late.
    pub late_ids: LateIds,
    /// How many bytes all packets of media that are kept may take. A packet that is larger than the 512th part of it is not kept. Packets of
    /// FEC take at most an eighth of it more.
    pub bytes: usize,
}

/// What a datagram is.
#[derive(Clone, Copy, Debug, PartialEq, Eq)]
pub(crate) enum Content<'a> {
    /// It is not of the stream, or has several blocks of RED.
    Nothing,
    /// A packet of media, as it was before RED.
    Media(RtpPacket<'a>),
    /// The payload of a packet of FEC.
    Fec(&'a [u8]),
}

/// Returns what a packet of RED is.
fn in_red<'a>(settings: &FecSettings, packet: &RtpPacket<'a>) -> Content<'a>
    requires { FitsHeader (header_of packet.now.header) }
    ensures value { content_view result ≡ in_red settings.now (packet_of packet.now) packet.now.payload.now }
    ensures fits { FitsContent (content_view result) }
{
    let Some((kind, contents)) = packet.payload.split_first() else {
        return Content::Nothing;
    };
    if *kind > 127 || *kind == settings.red_type {
        return Content::Nothing;
    }
    if *kind == settings.fec_type {
        return Content::Fec(contents);
    }
    Content::Media(RtpPacket {
        header: PacketHeader {
            payload_type: *kind,
            ..packet.header
        },
        payload: contents,
        padding: 0,
    })
}

/// Returns what a packet of the stream is.
fn of_stream<'a>(settings: &FecSettings, packet: &RtpPacket<'a>) -> Content<'a>
    requires { FitsHeader (header_of packet.now.header) }
    ensures value { content_view result ≡ of_stream settings.now (packet_of packet.now) }
    ensures fits { FitsContent (content_view result) }
{
    let kind = packet.header.payload_type;
    if kind == settings.red_type {
        return in_red(settings, packet);
    }
    if kind == settings.fec_type {
        return Content::Fec(packet.payload);
    }
    Content::Media(*packet)
}

/// Returns what a datagram is. Does not allocate.
pub(crate) fn content_of<'a>(settings: &FecSettings, datagram: &'a [u8]) -> Content<'a>
    ensures value { content_view result ≡ content_of settings.now (rtp_at datagram.now) }
    ensures fits { FitsContent (content_view result) }
{
    match RtpPacket::parse(datagram) {
        Ok(packet) if packet.header.ssrc == settings.ssrc => of_stream(settings, &packet),
        _ => Content::Nothing,
    }
}
