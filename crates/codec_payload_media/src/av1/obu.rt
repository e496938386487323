//! AV1: the OBUs of a temporal unit (sections 5.2 to 5.4; docs/use/FORMATS.md, "What a frame says").

ghost use Rattle.std.specs.Prelude.{◌≡◌};
ghost use Rattle.codec_payload_base.specs.Leb.{leb_low};
ghost use Rattle.codec_payload_base.specs.Answers.{Finds};
ghost use Rattle.codec_payload_media.specs.Av1Units.{extension_at, obu_at, obu_of, obus_left, sized, told_obu};
ghost use Rattle.codec_payload_vpx.specs.Reading.{told};

use codec_payload_vpx::error::MediaError;
use std::marker::Model;

/// The type of a sequence header.
pub const OBU_SEQUENCE_HEADER: u8 = 1;

/// Which layers an OBU belongs to.
#[derive(Clone, Copy, Debug, PartialEq, Eq)]
pub struct Av1Extension {
    /// The temporal layer, 0 to 7.
    pub temporal_id: u8,
    /// The spatial layer, 0 to 3.
    pub spatial_id: u8,
}

/// An OBU.
#[derive(Clone, Copy, Debug, PartialEq, Eq)]
pub struct Av1Obu<'a> {
    /// The type, 0 to 15: 1 a sequence header, 2 a temporal delimiter, 3 a frame header, 4 a tile group, 5 metadata, 6 a frame,
    /// 7 a redundant frame header, 8 a tile list, 15 padding; the others are reserved.
    pub obu_type: u8,
    /// The layers, if the OBU has an extension.
    pub extension: Option<Av1Extension>,
    /// The bytes after the header and the size.
    pub payload: &'a [u8],
}

/// A LEB128 number of at most `more` + 1 bytes at the front, and the bytes after it.
fn number_front(more: u32, bytes: &[u8]) -> Option<(u64, &[u8])>
    ensures { Finds (λ x. (x.0, x.1.now)) result (leb_low more bytes.now) }
{
    let (first, rest) = bytes.split_first()?;
    if *first < 128 {
        return Some((u64::from(*first), rest));
    }
    if more == 0 {
        return None;
    }
    let (high, rest) = number_front(more - 1, rest)?;
    let low = u64::from(*first % 128);
    Some((low + high.wrapping_mul(128), rest))
}

/// The extension byte, if present, and the bytes after it.
fn read_extension(there: bool, bytes: &[u8]) -> Result<(Option<Av1Extension>, &[u8]), MediaError>
    ensures { told (λ x. (x.0, x.1.now)) result ≡ extension_at there bytes.now }
{
    if !there {
        return Ok((None, bytes));
    }
    let [byte, rest @ ..] = bytes else {
        return Err(MediaError::MissingBytes);
    };
    let extension = Av1Extension {
        temporal_id: byte / 32,
        spatial_id: byte / 8 % 4,
    };
    Ok((Some(extension), rest))
}

/// The OBU of this type and extension, whose size is at the front, and the bytes after it.
fn read_sized(
    obu_type: u8,
    extension: Option<Av1Extension>,
    bytes: &[u8],
) -> Result<(Av1Obu<'_>, &[u8]), MediaError>
    ensures { told (λ x. (obu_of x.0, x.1.now)) result ≡ sized obu_type extension (leb_low 7 bytes.now) }
{
    let Some((size, rest)) = number_front(7, bytes) else {
        return Err(MediaError::MissingBytes);
    };
    if (rest.len() as u64) < size {
        return Err(MediaError::SizesDoNotFit);
    }
    let (payload, rest) = rest.split_at(size as usize);
    let obu = Av1Obu {
        obu_type,
        extension,
        payload,
    };
    Ok((obu, rest))
}

/// The OBU at the front, and the bytes after it. The errors are those of [`Av1Obus`]; `MissingBytes` for an empty slice. Does not
/// allocate.
pub fn front_obu(bytes: &[u8]) -> Result<(Av1Obu<'_>, &[u8]), MediaError>
    ensures { told (λ x. (obu_of x.0, x.1.now)) result ≡ obu_at bytes.now }
{
    let [header, rest @ ..] = bytes else {
        return Err(MediaError::MissingBytes);
    };
    if header / 128 == 1 || header / 2 % 2 == 0 {
        return Err(MediaError::ReservedValue);
    }
    let (extension, rest) = read_extension(header / 4 % 2 == 1, rest)?;
    read_sized(header / 8 % 16, extension, rest)
}

/// The OBUs of a temporal unit, in order, up to the first malformed one, whose fault is returned. No step allocates.
///
/// Each OBU must have a size field, as in units that were reassembled from packets. `ReservedValue`: the forbidden bit is set, or
/// the size field is missing. `MissingBytes`: the header is cut off, or no byte below 0x80 ends the size within eight.
/// `SizesDoNotFit`: the payload is cut off.
#[derive(Debug, Drop)]
pub struct Av1Obus<'a> {
    bytes: &'a [u8],
}

impl<'a> Model for Av1Obus<'a> {
    ghost use Rattle.codec_payload_media.specs.Av1Units.{Left};

    ghost Value = { Left };

    ghost view = { λ s. record { bytes = s.bytes.now } };
}

impl<'a> Av1Obus<'a> {
    /// The OBUs in these bytes.
    pub fn new(unit: &'a [u8]) -> Av1Obus<'a>
        ensures { result ≡ record { bytes = unit.now } }
    {
        Av1Obus { bytes: unit }
    }
}

impl<'a> Iterator for Av1Obus<'a> {
    ghost use Rattle.std.specs.Iterator.{YieldsFirstBy, item_count};

    type Item = Result<Av1Obu<'a>, MediaError>;

    ghost next_gives = { YieldsFirstBy told_obu obus_left };

    ghost remaining = { item_count obus_left };

    fn next(&mut self) -> Option<Result<Av1Obu<'a>, MediaError>> {
        if self.bytes.is_empty() {
            return None;
        }
        match front_obu(self.bytes) {
            Ok((obu, rest)) => {
                self.bytes = rest;
                Some(Ok(obu))
            }
            Err(fault) => {
                self.bytes = &[];
                Some(Err(fault))
            }
        }
    }
}
