//! The packet that a retransmission repeats.

ghost use Rattle.std.specs.Prelude.{◌≡◌, ◌≢◌};
ghost use Rattle.codec_payload_c_packets.specs.Originals.{WritesOriginalOf};

use codec_payload_c_packets::congestion::put_packet;
use codec_payload_c_packets::original::original_status;
use codec_payload_sending_history::original::OriginalStream;
use std::alloc::Global;

/// Writes the packet of this stream that a retransmission repeats.
#[unsafe(no_mangle)]
pub extern "C" fn cpay_rtx_original(
    alloc: Global,
    ssrc: u32,
    payload_type: u8,
    datagram: &[u8],
    bytes: &mut [u8],
    size: &mut usize,
) -> u32
    ensures writes { WritesOriginalOf (record { ssrc = ssrc; payload_type = payload_type }) datagram.now result (record { before = bytes.old; bytes = bytes.new; size_before = size.old; size = size.new }) }
    ensures untouched { result ≢ 0 → bytes.new ≡ bytes.old }
    ensures unchanged { result ≢ 0 → result ≢ 33 → size.new ≡ size.old }
{
    let stream = OriginalStream { ssrc, payload_type };
    let mut original = Vec::new(alloc);
    match stream.write(datagram, &mut original) {
        Ok(()) => put_packet(&original, bytes, size),
        Err(error) => original_status(error),
    }
}
