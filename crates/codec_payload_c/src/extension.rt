//! Elements of header extensions by their ids (RFC 8285, section 4), and their values. No call allocates.

ghost use Rattle.codec_payload_rtp.specs.RtpReading.{rtp_at};
ghost use Rattle.codec_payload_c_packets.specs.Extensions.{ReadsElement, ReadsValues};
ghost use Rattle.codec_payload_handle.specs.Ids.{ids_given};

use codec_payload_c_packets::extension::value_in;
use codec_payload_handle::bytes::fill;
use codec_payload_handle::extension_ids::{ExtensionIds, ids_of};
use codec_payload_handle::extension_values::{ExtensionValues, values_of};
use codec_payload_handle::rtp_faults::status_of;
use codec_payload_handle::status;
use codec_payload_rtp::rtp::RtpPacket;

/// Writes the value of the first element with this id in the header extension of a datagram.
#[unsafe(no_mangle)]
pub extern "C" fn cpay_extension(datagram: &[u8], id: u8, bytes: &mut [u8], size: &mut usize) -> u32
    ensures { ReadsElement (rtp_at datagram.now) id result bytes.old bytes.new size.old size.new }
{
    let packet = match RtpPacket::parse(datagram) {
        Ok(packet) => packet,
        Err(fault) => return status_of(fault),
    };
    let Some(value) = value_in(id, &packet.header.extension) else {
        return status::NONE;
    };
    *size = value.len();
    if fill(bytes, value) {
        status::OK
    } else {
        status::TOO_SMALL
    }
}

/// Reads the values that the header extension of a datagram has under these ids.
#[unsafe(no_mangle)]
pub extern "C" fn cpay_extension_values_of(
    datagram: &[u8],
    ids: &ExtensionIds,
    values: &mut ExtensionValues,
) -> u32
    ensures { ReadsValues (rtp_at datagram.now) (ids_given ids.now) result values.old values.new }
{
    match RtpPacket::parse(datagram) {
        Ok(packet) => {
            *values = values_of(&ids_of(*ids).values(&packet.header.extension));
            status::OK
        }
        Err(fault) => status_of(fault),
    }
}
