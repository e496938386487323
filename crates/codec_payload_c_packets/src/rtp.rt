//! RTP packets (RFC 3550, section 5.1). No call allocates.

ghost use Rattle.std.specs.Prelude.{◌≡◌, length};
ghost use Rattle.codec_payload_rtp.specs.RtpPackets.{IsRtp};
ghost use Rattle.codec_payload_rtp.specs.RtpValues.{extension_of, packet_of};
ghost use Rattle.codec_payload_c_packets.specs.RtpFields.{TellsRtp, place_of};

use codec_payload_rtp::rtp::{HeaderExtension, RtpPacket};

/// An RTP packet, by places in the bytes of the datagram.
#[repr(C)]
#[derive(Drop)]
pub struct RtpInfo {
    /// The offset of the bytes of the header extension, after its profile and its length.
    pub extension_at: usize,
    /// The number of bytes of the header extension, a multiple of 4.
    pub extension_len: usize,
    /// The offset of the payload.
    pub payload_at: usize,
    /// The number of bytes of the payload, without padding.
    pub payload_len: usize,
    pub timestamp: u32,
    pub ssrc: u32,
    pub sequence_number: u16,
    pub extension_profile: u16,
    /// The payload type, 0 to 127.
    pub payload_type: u8,
    /// The number of CSRCs, 0 to 15. Each has four bytes; the first is at byte 12.
    pub csrc_count: u8,
    /// The number of bytes of padding after the payload.
    pub padding: u8,
    pub marker: bool,
    pub has_extension: bool,
}

/// The place of a header extension in its packet.
#[derive(Clone, Copy)]
pub(crate) struct ExtensionPlace {
    there: bool,
    profile: u16,
    at: usize,
    len: usize,
}

/// Returns the place of an extension after these CSRCs.
fn place_of(csrcs: &[u8], extension: &Option<HeaderExtension<'_>>) -> ExtensionPlace
    ensures { result ≡ place_of (length csrcs.now) (extension_of extension.now) }
{
    match extension {
        None => ExtensionPlace {
            there: false,
            profile: 0,
            at: 0,
            len: 0,
        },
        Some(extension) => ExtensionPlace {
            there: true,
            profile: extension.profile,
            at: 16 + csrcs.len(),
            len: extension.bytes.len(),
        },
    }
}

/// Describes a packet by places in its datagram.
#[tactic(auto, using(crate::proofs::RtpPlaces::payload_found, crate::proofs::RtpPlaces::whole, crate::proofs::RtpPlaces::padding_fits, crate::proofs::RtpPlaces::payload_fits, crate::proofs::RtpPlaces::count_kept))]
pub fn info_of(datagram: &[u8], packet: &RtpPacket<'_>) -> RtpInfo
    requires { IsRtp datagram.now (packet_of packet.now) }
    ensures { TellsRtp datagram.now (packet_of packet.now) result }
{
    let header = packet.header;
    let extension = place_of(header.csrcs, &header.extension);
    RtpInfo {
        extension_at: extension.at,
        extension_len: extension.len,
        payload_at: datagram.len() - usize::from(packet.padding) - packet.payload.len(),
        payload_len: packet.payload.len(),
        timestamp: header.timestamp,
        ssrc: header.ssrc,
        sequence_number: header.sequence_number,
        extension_profile: extension.profile,
        payload_type: header.payload_type,
        csrc_count: header.csrc_count() as u8,
        padding: packet.padding,
        marker: header.marker,
        has_extension: extension.there,
    }
}
