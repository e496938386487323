//! Fields of a given number of bits, as in the tables of standards. `short` is the fault of bytes that end in a field.

ghost use Rattle.std.specs.Prelude.{◌≡◌, ◌≤◌, ◌<◌, ◌^◌, IfOk};
ghost use Rattle.codec_payload_syntax.specs.FieldReaders.{left};
ghost use Rattle.codec_payload_syntax.specs.Syntax.{expects, field, flag, paired, read};

use crate::reader::FieldReader;

/// A field of at most eight bits.
#[inline(always)]
#[tactic(auto, using(crate::proofs::ReaderLemmas::in_a_byte))]
pub fn read_field<F: Copy>(reader: &mut FieldReader<'_>, bits: usize, short: F) -> Result<u8, F>
    requires { bits ≤ 8 }
    ensures value { paired result (left reader.new) ≡ read short (field bits) (left reader.old) }
    ensures below { IfOk result (λ v. v < 2 ^ bits) }
{
    let value = reader.take_bits(bits, short)?;
    Ok(value as u8)
}

/// A field of at most sixteen bits.
#[inline(always)]
#[tactic(auto, using(crate::proofs::ReaderLemmas::in_two_bytes))]
pub fn read_wide<F: Copy>(reader: &mut FieldReader<'_>, bits: usize, short: F) -> Result<u16, F>
    requires { bits ≤ 16 }
    ensures value { paired result (left reader.new) ≡ read short (field bits) (left reader.old) }
    ensures below { IfOk result (λ v. v < 2 ^ bits) }
{
    let value = reader.take_bits(bits, short)?;
    Ok(value as u16)
}

/// A field of one bit.
#[inline(always)]
pub fn read_flag<F: Copy>(reader: &mut FieldReader<'_>, short: F) -> Result<bool, F>
    ensures { paired result (left reader.new) ≡ read short flag (left reader.old) }
{
    let bit = read_field(reader, 1, short)?;
    Ok(bit == 1)
}

/// A field that has the wanted value, or that fault.
#[inline(always)]
pub fn expect_field<F: Copy>(
    reader: &mut FieldReader<'_>,
    bits: usize,
    wanted: u8,
    fault: F,
    short: F,
) -> Result<u8, F>
    requires { bits ≤ 8 }
    ensures { paired result (left reader.new) ≡ read short (expects bits wanted fault) (left reader.old) }
{
    let found = read_field(reader, bits, short)?;
    if found == wanted {
        Ok(found)
    } else {
        Err(fault)
    }
}
