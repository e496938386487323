//! Which stream an RTP packet belongs to.

ghost use Rattle.std.specs.Prelude.{◌≡◌};
ghost use Rattle.codec_payload_session_formats.specs.Sorting.{sorted_of, sorted_packet};

use crate::formats::{Format, Role, SessionSettings};

/// An RTP packet, as a session sees it.
#[derive(Clone, Copy, Debug)]
pub enum SortedPacket {
    /// A packet of a payload type that the settings do not name.
    Unknown,
    /// A retransmission under an unknown SSRC.
    Unassociated,
    /// A packet for the stream with this SSRC and format, which it begins if there is none.
    Media(u32, Format),
    /// A retransmission for the stream with this SSRC and payload type.
    Retransmission(u32, u8),
    /// A packet without media, under this SSRC: telephone events beside audio among them.
    NoMedia(u32),
}

/// Sorts an RTP packet by its SSRC and payload type.
#[inline(always)]
pub fn sort(settings: &SessionSettings, ssrc: u32, payload_type: u8) -> SortedPacket
    ensures { sorted_of result ≡ sorted_packet settings.now ssrc payload_type }
{
    match settings.role(payload_type) {
        Role::Media(format) => SortedPacket::Media(ssrc, format),
        Role::Retransmission(format) => match settings.stream_of(ssrc) {
            Some(ssrc) => SortedPacket::Retransmission(ssrc, format.payload_type),
            None => SortedPacket::Unassociated,
        },
        Role::NoMedia => SortedPacket::NoMedia(ssrc),
        Role::Unknown => SortedPacket::Unknown,
    }
}
