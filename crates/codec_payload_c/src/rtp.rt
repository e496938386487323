//! RTP packets (RFC 3550, section 5.1). No call allocates.

ghost use Rattle.std.specs.Prelude.{◌≡◌};
ghost use Rattle.codec_payload_rtp.specs.RtpPackets.{is_rtcp};
ghost use Rattle.codec_payload_rtp.specs.RtpReading.{rtp_at};
ghost use Rattle.codec_payload_c_packets.specs.RtpFields.{ReadsRtp};

use codec_payload_c_packets::rtp::{RtpInfo, info_of};
use codec_payload_handle::rtp_faults::status_of;
use codec_payload_handle::status;
use codec_payload_rtp::rtp::{RtpPacket, is_rtcp};

/// Returns whether a datagram on a port for RTP and RTCP is RTCP (RFC 5761, section 4).
#[unsafe(no_mangle)]
pub extern "C" fn cpay_is_rtcp(datagram: &[u8]) -> bool
    ensures { result ≡ is_rtcp datagram.now }
{
    is_rtcp(datagram)
}

/// Reads a datagram as an RTP packet.
#[unsafe(no_mangle)]
pub extern "C" fn cpay_rtp_read(datagram: &[u8], packet: &mut RtpInfo) -> u32
    ensures { ReadsRtp datagram.now (rtp_at datagram.now) result packet.old packet.new }
{
    match RtpPacket::parse(datagram) {
        Ok(read) => {
            *packet = info_of(datagram, &read);
            status::OK
        }
        Err(fault) => status_of(fault),
    }
}
