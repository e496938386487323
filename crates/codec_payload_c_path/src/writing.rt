//! A packet in the output buffer.

ghost use Rattle.std.specs.Prelude.{◌≡◌, ◌≢◌};
ghost use Rattle.codec_payload_c_path.specs.Writing.{PutsPacket};

use crate::bytes::fill;
use crate::status;

/// Writes a packet to the output buffer, if there is room for it.
pub fn put_packet(packet: &[u8], bytes: &mut [u8], size: &mut usize) -> u32
    ensures puts { PutsPacket packet.now result (record { before = bytes.old; bytes = bytes.new; size_before = size.old; size = size.new }) }
    ensures untouched { result ≢ 0 → bytes.new ≡ bytes.old }
    ensures unchanged { result ≢ 0 → result ≢ 33 → size.new ≡ size.old }
{
    *size = packet.len();
    if fill(bytes, packet) {
        status::OK
    } else {
        status::TOO_SMALL
    }
}
