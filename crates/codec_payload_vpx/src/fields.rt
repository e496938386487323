//! Fields of frames: bytes that end in a field are missing bytes.

ghost use Rattle.std.specs.Prelude.{◌≡◌, ◌≤◌, ◌<◌, ◌^◌, IfOk};
ghost use Rattle.codec_payload_syntax.specs.FieldReaders.{left};
ghost use Rattle.codec_payload_syntax.specs.Syntax.{expects, field, flag, paired, skips};
ghost use Rattle.codec_payload_vpx.specs.Syntax.{read};

use crate::error::MediaError;
use codec_payload_syntax::fields;
use codec_payload_syntax::reader::FieldReader;

/// The fault of bytes that end in a field.
const SHORT: MediaError = MediaError::MissingBytes;

/// A field of at most eight bits.
#[inline(always)]
pub fn read_field(reader: &mut FieldReader<'_>, bits: usize) -> Result<u8, MediaError>
    requires { bits ≤ 8 }
    ensures value { paired result (left reader.new) ≡ read (field bits) (left reader.old) }
    ensures below { IfOk result (λ v. v < 2 ^ bits) }
{
    fields::read_field(reader, bits, SHORT)
}

/// A field of at most sixteen bits.
#[inline(always)]
pub fn read_wide(reader: &mut FieldReader<'_>, bits: usize) -> Result<u16, MediaError>
    requires { bits ≤ 16 }
    ensures { paired result (left reader.new) ≡ read (field bits) (left reader.old) }
{
    fields::read_wide(reader, bits, SHORT)
}

/// A field of one bit.
#[inline(always)]
pub fn read_flag(reader: &mut FieldReader<'_>) -> Result<bool, MediaError>
    ensures { paired result (left reader.new) ≡ read flag (left reader.old) }
{
    fields::read_flag(reader, SHORT)
}

/// A field that has that value, or that fault.
#[inline(always)]
pub fn expect_field(
    reader: &mut FieldReader<'_>,
    bits: usize,
    value: u8,
    fault: MediaError,
) -> Result<u8, MediaError>
    requires { bits ≤ 8 }
    ensures { paired result (left reader.new) ≡ read (expects bits value fault) (left reader.old) }
{
    fields::expect_field(reader, bits, value, fault, SHORT)
}

/// Skips a given number of bits.
#[inline(always)]
pub fn skip_bits(reader: &mut FieldReader<'_>, bits: usize) -> Result<u8, MediaError>
    ensures { paired result (left reader.new) ≡ read (skips bits) (left reader.old) }
{
    reader.skip_bits(bits, SHORT)
}
