//! AV1: the operating points of a sequence header (section 5.5.1; docs/use/FORMATS.md, "What a frame says").

ghost use Rattle.std.specs.Prelude.{◌≡◌, ◌≤◌, Ok, IfOk, Option};
ghost use Rattle.codec_payload_base.specs.Bits.{bits_of};
ghost use Rattle.codec_payload_media.specs.Av1OperatingPoints.{long_point, numbered_point, point_behind, short_point};
ghost use Rattle.codec_payload_syntax.specs.FieldReaders.{left};
ghost use Rattle.codec_payload_syntax.specs.Syntax.{IsSpelled, paired};
ghost use Rattle.codec_payload_vpx.specs.Syntax.{read, value_of};

use crate::av1::sequence_header::{
    Av1OperatingPoint, read_front, read_operating_point, read_reduced_point, read_timing_if,
    skip_operating_points,
};
use codec_payload_syntax::reader::FieldReader;
use codec_payload_vpx::error::MediaError;
use codec_payload_vpx::fields::{read_field, read_flag};

/// The operating point after `index` others.
fn read_point_behind(
    reader: &mut FieldReader<'_>,
    index: u8,
    delay: u8,
    display: bool,
) -> Result<Option<Av1OperatingPoint>, MediaError>
    requires { delay ≤ 32 }
    ensures { paired result (left reader.new) ≡ read (point_behind index delay display) (left reader.old) }
{
    skip_operating_points(reader, index, delay, display)?;
    let point = read_operating_point(reader, delay, display)?;
    Ok(Some(point))
}

/// The operating point of an index, of a header of the long form.
fn read_long_point(
    reader: &mut FieldReader<'_>,
    index: u8,
) -> Result<Option<Av1OperatingPoint>, MediaError>
    ensures { paired result (left reader.new) ≡ read (long_point index) (left reader.old) }
{
    let there = read_flag(reader)?;
    let delay = read_timing_if(reader, there)?;
    let display = read_flag(reader)?;
    let others = read_field(reader, 5)?;
    if others < index {
        return Ok(None);
    }
    read_point_behind(reader, index, delay, display)
}

/// The operating point of an index, of a header of the short form.
fn read_short_point(
    reader: &mut FieldReader<'_>,
    index: u8,
) -> Result<Option<Av1OperatingPoint>, MediaError>
    ensures { paired result (left reader.new) ≡ read (short_point index) (left reader.old) }
{
    let (point, _) = read_reduced_point(reader)?;
    Ok(if index == 0 { Some(point) } else { None })
}

/// The operating point of an index.
#[tactic(auto, unfolding(crate::specs::Av1OperatingPoints::numbered_point))]
fn read_numbered_point(
    reader: &mut FieldReader<'_>,
    index: u8,
) -> Result<Option<Av1OperatingPoint>, MediaError>
    ensures { paired result (left reader.new) ≡ read (numbered_point index) (left reader.old) }
{
    let front = read_front(reader)?;
    if front.reduced {
        read_short_point(reader, index)
    } else {
        read_long_point(reader, index)
    }
}

/// Reads the operating point of an index.
fn read_payload(payload: &[u8], index: u8) -> Result<Option<Av1OperatingPoint>, MediaError>
    ensures { result ≡ value_of (numbered_point index) (bits_of payload.now) }
{
    let mut reader = FieldReader::new(payload);
    read_numbered_point(&mut reader, index)
}

/// Operating point `index`, from 0, in the payload of a sequence header OBU; `None` after the last. Later bytes are ignored. Does
/// not allocate; takes time in proportion to the index, which is at most 31.
///
/// The errors are those of [`Av1SequenceHeader::parse`] up to this point.
///
/// [`Av1SequenceHeader::parse`]: crate::av1::sequence_header::Av1SequenceHeader::parse
pub fn operating_point(payload: &[u8], index: u8) -> Result<Option<Av1OperatingPoint>, MediaError>
    // A value that was read has this spelling.
    ensures spelled { IfOk result (λ point. IsSpelled (numbered_point index) (bits_of payload.now) point) }
    // Everything with this spelling is read.
    ensures accepted { (point : Option Av1OperatingPoint) → IsSpelled (numbered_point index) (bits_of payload.now) point → result ≡ Ok point }
    // Which fault comes first.
    ensures exact { result ≡ value_of (numbered_point index) (bits_of payload.now) }
{
    read_payload(payload, index)
}
