//! Fields of a given number of bits, as in the tables of standards.

ghost use Rattle.std.specs.Prelude.{◌≡◌, ◌≤◌, ◌<◌, ◌^◌, length, IfOk};
ghost use Rattle.codec_payload_syntax.specs.FieldReaders.{left};
ghost use Rattle.codec_payload_descriptor.specs.Structures.{below, next_reference, references};
ghost use Rattle.codec_payload_syntax.specs.Syntax.{field, flag, paired, skips, times};
ghost use Rattle.codec_payload_descriptor.specs.Syntax.{read};

use crate::error::DescriptorFault;
use crate::numbers::Numbers;
use codec_payload_syntax::fields;
use codec_payload_syntax::reader::FieldReader;

/// How many references a template or a frame has at most.
pub(crate) const MOST_REFERENCES: usize = 16;

/// The fault of bytes that end in a field.
const SHORT: DescriptorFault = DescriptorFault::Short;

/// Reads a field of at most eight bits.
pub(crate) fn read_field(reader: &mut FieldReader<'_>, bits: usize) -> Result<u8, DescriptorFault>
    requires { bits ≤ 8 }
    ensures value { paired result (left reader.new) ≡ read (field bits) (left reader.old) }
    ensures small { IfOk result (λ v. v < 2 ^ bits) }
{
    fields::read_field(reader, bits, SHORT)
}

/// Reads a field of at most sixteen bits.
pub(crate) fn read_wide(reader: &mut FieldReader<'_>, bits: usize) -> Result<u16, DescriptorFault>
    requires { bits ≤ 16 }
    ensures value { paired result (left reader.new) ≡ read (field bits) (left reader.old) }
    ensures small { IfOk result (λ v. v < 2 ^ bits) }
{
    fields::read_wide(reader, bits, SHORT)
}

/// Reads a field of at most 32 bits.
pub(crate) fn read_mask(reader: &mut FieldReader<'_>, bits: usize) -> Result<u32, DescriptorFault>
    requires { bits ≤ 32 }
    ensures { paired result (left reader.new) ≡ read (field bits) (left reader.old) }
{
    if bits <= 16 {
        let value = read_wide(reader, bits)?;
        return Ok(u32::from(value));
    }
    let high = read_wide(reader, bits - 16)?;
    let low = read_wide(reader, 16)?;
    Ok(u32::from(high) * 65_536 + u32::from(low))
}

/// Reads a field of one bit.
pub(crate) fn read_flag(reader: &mut FieldReader<'_>) -> Result<bool, DescriptorFault>
    ensures { paired result (left reader.new) ≡ read flag (left reader.old) }
{
    fields::read_flag(reader, SHORT)
}

/// Reads a value below `count`: `ns(count)` of the AV1 bitstream specification, section 4.10.7.
pub(crate) fn read_below(reader: &mut FieldReader<'_>, count: u8) -> Result<u8, DescriptorFault>
    requires some { 0 < count }
    requires few { count ≤ 33 }
    ensures value { paired result (left reader.new) ≡ read (below count) (left reader.old) }
    ensures small { IfOk result (λ v. v < count) }
{
    let width = 8 - count.leading_zeros() as usize;
    let shorter = (1u16 << width) - u16::from(count);
    let front = read_field(reader, width - 1)?;
    let value = u16::from(front);
    if value < shorter {
        return Ok(front);
    }
    let last = read_field(reader, 1)?;
    Ok((2 * value - shorter + u16::from(last)) as u8)
}

/// Skips a given number of bits.
pub(crate) fn skip_bits(reader: &mut FieldReader<'_>, bits: usize) -> Result<u8, DescriptorFault>
    ensures { paired result (left reader.new) ≡ read (skips bits) (left reader.old) }
{
    reader.skip_bits(bits, SHORT)
}

/// Reads `count` fields of the same size.
pub(crate) fn read_numbers(
    reader: &mut FieldReader<'_>,
    count: usize,
    bits: usize,
) -> Result<Numbers, DescriptorFault>
    requires few { count ≤ 32 }
    requires narrow { bits ≤ 8 }
    ensures { paired result (left reader.new) ≡ read (times count (field bits)) (left reader.old) }
{
    let mut numbers = Numbers::new();
    while numbers.len() < count {
        let number = read_field(reader, bits)?;
        numbers.push(u16::from(number));
    }
    Ok(numbers)
}

/// Reads `count` values below `limit`.
pub(crate) fn read_numbers_below(
    reader: &mut FieldReader<'_>,
    count: usize,
    limit: u8,
) -> Result<Numbers, DescriptorFault>
    requires few { count ≤ 32 }
    requires some { 0 < limit }
    requires narrow { limit ≤ 33 }
    ensures { paired result (left reader.new) ≡ read (times count (below limit)) (left reader.old) }
{
    let mut numbers = Numbers::new();
    while numbers.len() < count {
        let number = read_below(reader, limit)?;
        numbers.push(u16::from(number));
    }
    Ok(numbers)
}

/// Reads the next reference of a template, or a frame's own next reference; `None` at the end of the list.
pub(crate) fn read_next_reference(
    reader: &mut FieldReader<'_>,
    own: bool,
) -> Result<Option<u16>, DescriptorFault>
    ensures { paired result (left reader.new) ≡ read (next_reference own) (left reader.old) }
{
    let size = if own {
        usize::from(read_field(reader, 2)?)
    } else {
        usize::from(read_field(reader, 1)?)
    };
    if size == 0 {
        return Ok(None);
    }
    let bits = if own { 4 * size } else { 4 };
    let less = read_wide(reader, bits)?;
    Ok(Some(less + 1))
}

/// Reads the references of a template, or a frame's own references.
pub(crate) fn read_references(
    reader: &mut FieldReader<'_>,
    own: bool,
) -> Result<Numbers, DescriptorFault>
    ensures { paired result (left reader.new) ≡ read (references own) (left reader.old) }
{
    let mut numbers = Numbers::new();
    loop {
        let Some(number) = read_next_reference(reader, own)? else {
            return Ok(numbers);
        };
        if numbers.len() == MOST_REFERENCES {
            return Err(DescriptorFault::References);
        }
        numbers.push(number);
    }
}
