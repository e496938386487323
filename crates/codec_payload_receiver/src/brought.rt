//! A packet that a datagram brings to its stream, whichever way it came.

ghost use Rattle.std.specs.Prelude.{◌≡◌};
ghost use Rattle.codec_payload_rtp.specs.RtpValues.{packet_of};
ghost use Rattle.codec_payload_datagrams.specs.Kinds.{carrier_of, original_of};
ghost use Rattle.codec_payload_receiver.specs.Storing.{brought_of, first_brought, in_carrier, repeated_by};

use crate::datagram::StreamKinds;
use codec_payload_datagrams::kinds::{RedPacket, SentAgain};
use codec_payload_rtp::rtp::{PacketHeader, RtpPacket};

/// A packet that a datagram brings, alone or as the primary block of RED. The header of a retransmission has the original number
/// and SSRC.
#[derive(Clone, Copy, Debug)]
pub(crate) struct Brought<'a> {
    pub(crate) header: PacketHeader<'a>,
    pub(crate) payload: &'a [u8],
    /// Whether it is media of the stream.
    pub(crate) is_media: bool,
    /// Whether it is a retransmission.
    pub(crate) is_again: bool,
}

impl<'a> Brought<'a> {
    /// A packet without RED that is not a retransmission.
    #[inline(always)]
    pub(crate) fn first(packet: &RtpPacket<'a>, is_media: bool) -> Brought<'a>
        ensures { brought_of result ≡ first_brought is_media (packet_of packet.now) }
    {
        Brought {
            header: packet.header,
            payload: packet.payload,
            is_media,
            is_again: false,
        }
    }

    /// A retransmission of media without RED.
    pub(crate) fn again(sent: &SentAgain<'a>) -> Brought<'a>
        ensures { brought_of result ≡ repeated_by (original_of sent.now) }
    {
        Brought {
            header: PacketHeader {
                sequence_number: sent.number,
                ssrc: sent.ssrc,
                ..sent.header
            },
            payload: sent.payload,
            is_media: true,
            is_again: true,
        }
    }

    /// The primary block of a RED packet.
    pub(crate) fn in_red(stream: &StreamKinds, red: &RedPacket<'a>, is_again: bool) -> Brought<'a>
        ensures { brought_of result ≡ in_carrier stream.now (carrier_of red.now) is_again }
    {
        Brought {
            header: red.header,
            payload: red.primary.payload,
            is_media: red.primary.pt == stream.payload_type,
            is_again,
        }
    }
}
