//! Bytes as hexadecimal digits.

ghost use Rattle.std.specs.Prelude.{◌≡◌, ◌≢◌, [], codes, Some, None, IfOk, IfSome, MatchOption, string_bytes};
ghost use Rattle.hex.specs.Hex.{decode_of, encode_lower};
ghost use Rattle.payload_lines.specs.HexField.{hex_field_of};

use hex::FromHexError;
use std::alloc::{AllocError, Global};

/// The bytes that a field spells: an even, nonzero number of hexadecimal digits in either case, or `-` for no bytes.
/// `Ok(None)` for any other text.
pub fn hex_field(alloc: Global, text: &str) -> Result<Option<Vec<u8>>, AllocError>
    ensures value { IfOk result (λ found. MatchOption found (hex_field_of text.now ≡ None)
        (λ bytes. hex_field_of text.now ≡ Some bytes.items)) }
    ensures none { text.now ≡ codes "-" → IfOk result (λ found. IfSome found (λ bytes. bytes.items ≡ [])) }
    ensures decoded { text.now ≢ codes "-" → IfOk result (λ found. IfSome found (λ bytes. decode_of text.now ≡ Ok bytes.items)) }
{
    if text == "-" {
        return Ok(Some(Vec::new(alloc)));
    }
    if text.is_empty() {
        return Ok(None);
    }
    match hex::decode(alloc, text) {
        Ok(bytes) => Ok(Some(bytes)),
        Err(FromHexError::OutOfMemory) => Err(AllocError),
        Err(_) => Ok(None),
    }
}

/// The lower-case digits of bytes, two for each, or `-` for no bytes.
pub fn hex_text(alloc: Global, bytes: &[u8]) -> Result<String, AllocError>
    ensures none { bytes.now ≡ [] → IfOk result (λ text. string_bytes text ≡ codes "-") }
    ensures digits { bytes.now ≢ [] → IfOk result (λ text. string_bytes text ≡ encode_lower bytes.now) }
    ensures read_back { IfOk result (λ text. hex_field_of (string_bytes text) ≡ Some bytes.now) }
{
    if bytes.is_empty() {
        Ok(String::from_str(alloc, "-")?)
    } else {
        hex::encode(alloc, bytes)
    }
}
