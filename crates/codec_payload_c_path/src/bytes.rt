//! Writing to the output buffer.

ghost use Rattle.std.specs.Prelude.{◌≡◌, length, nat_le};
ghost use Rattle.codec_payload_c_path.specs.Bytes.{filled};

/// Copies the given bytes to the front of the output buffer, if it is large enough.
pub fn fill(bytes: &mut [u8], given: &[u8]) -> bool
    ensures enough { result ≡ nat_le (length given.now) (length bytes.old) }
    ensures written { bytes.new ≡ filled given.now bytes.old }
{
    if bytes.len() < given.len() {
        return false;
    }
    bytes[..given.len()].copy_from_slice(given);
    true
}
