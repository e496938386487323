//! Datagrams that are read once, whoever asks what they carry.

ghost use Rattle.std.specs.Prelude.{◌≡◌, IfSome};
ghost use Rattle.codec_payload_rtp.specs.RtpPackets.{is_rtcp};
ghost use Rattle.codec_payload_rtp.specs.RtpReading.{rtp_at, told};
ghost use Rattle.codec_payload_rtp.specs.RtpValues.{packet_of};

use codec_payload_rtp::rtp::{RtpError, RtpPacket, is_rtcp};
use std::marker::Model;

/// A datagram, and what its bytes say. It borrows the bytes, and allocates nothing.
///
/// Several receivers and your own code can ask it, and the header of the packet is read once.
#[derive(Debug, Drop)]
pub struct ParsedDatagram<'a> {
    bytes: &'a [u8],
    is_rtcp: bool,
    packet: Result<RtpPacket<'a>, RtpError>,
}

impl<'a> Model for ParsedDatagram<'a> {
    ghost use Rattle.std.specs.Prelude.{List, ℕ};
    ghost use Rattle.codec_payload_datagrams.specs.Parsed.{IsRead};

    ghost Value = { List ℕ };

    ghost view = { λ d. d.bytes.now };

    ghost invariant = { λ d. IsRead d.is_rtcp d.packet d.bytes.now };
}

impl<'a> ParsedDatagram<'a> {
    /// Reads a datagram. Any bytes are accepted.
    #[inline(always)]
    pub fn parse(bytes: &'a [u8]) -> ParsedDatagram<'a>
        ensures { result ≡ bytes.now }
    {
        match ParsedDatagram::parse_plain(bytes) {
            Some(datagram) => datagram,
            None => ParsedDatagram::parse_parts(bytes),
        }
    }

    /// Reads a datagram that is a plain RTP packet, as [`RtpPacket::parse_plain`] does. `None`: it is none;
    /// [`ParsedDatagram::parse_parts`] reads it. A caller that passes each answer on by itself saves the copies of a value that comes
    /// from several places.
    #[inline(always)]
    pub fn parse_plain(bytes: &'a [u8]) -> Option<ParsedDatagram<'a>>
        ensures { IfSome result (λ d. d ≡ bytes.now) }
    {
        match RtpPacket::parse_plain(bytes) {
            Some(packet) => Some(ParsedDatagram {
                bytes,
                is_rtcp: is_rtcp(bytes),
                packet: Ok(packet),
            }),
            None => None,
        }
    }

    /// Does the same for an RTP packet with a header extension, as [`RtpPacket::parse_extended`] does.
    #[inline(always)]
    pub fn parse_extended(bytes: &'a [u8]) -> Option<ParsedDatagram<'a>>
        ensures { IfSome result (λ d. d ≡ bytes.now) }
    {
        match RtpPacket::parse_extended(bytes) {
            Some(packet) => Some(ParsedDatagram {
                bytes,
                is_rtcp: is_rtcp(bytes),
                packet: Ok(packet),
            }),
            None => None,
        }
    }

    /// Reads a datagram. For a caller that has tried [`ParsedDatagram::parse_plain`]: a plain packet takes longer here.
    #[inline(always)]
    pub fn parse_parts(bytes: &'a [u8]) -> ParsedDatagram<'a>
        ensures { result ≡ bytes.now }
    {
        ParsedDatagram {
            bytes,
            is_rtcp: is_rtcp(bytes),
            packet: RtpPacket::parse_parts(bytes),
        }
    }

    /// Returns the bytes of the datagram.
    #[inline(always)]
    pub fn bytes(&self) -> &'a [u8]
        ensures { result.now ≡ self.now }
    {
        self.bytes
    }

    /// Returns whether the datagram is of RTCP: its second byte is 192 to 223 (RFC 5761, section 4).
    #[inline(always)]
    pub fn is_rtcp(&self) -> bool
        ensures { result ≡ is_rtcp self.now }
    {
        self.is_rtcp
    }

    /// Returns the RTP packet that the bytes are (RFC 3550, section 5.1), or why they are none. Ask [`ParsedDatagram::is_rtcp`]
    /// first: some bytes of RTCP also read as RTP.
    #[inline(always)]
    pub fn packet(&self) -> &Result<RtpPacket<'a>, RtpError>
        ensures { told packet_of result.now ≡ rtp_at self.now }
    {
        &self.packet
    }
}
