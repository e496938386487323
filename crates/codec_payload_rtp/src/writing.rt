//! Values of header extensions written as elements.

ghost use Rattle.std.specs.Prelude.{◌≡◌, ◌≤◌, ◌<◌, ◌+◌, ◌++◌, ◌&&◌, [], None, Some, IfOk, IfSome, IsTrue, OnOk, ◌%◌, length, map, take};
ghost use Rattle.std.specs.Option.{option_map};
ghost use Rattle.codec_payload_rtp.specs.Elements.{element_of, all_fit};
ghost use Rattle.codec_payload_rtp.specs.ExtensionFormats.{elements_of, timing_bytes};
ghost use Rattle.codec_payload_rtp.specs.ExtensionWriting.{capture_bytes, one_byte, audio_byte, row_elements, rows_elements, elements_for, extension_for, id_fits, is_id, is_apart, is_apart_from, are_ids, ids_fit};
ghost use Rattle.codec_payload_rtp.specs.ExtensionRows.{in_use, row_of};
ghost use Rattle.codec_payload_rtp.specs.declared.elements.ElementForm.TheVariants.{TwoByte};

use crate::elements::{Element, write_elements};
pub use crate::theorems::values_come_back;
use crate::values::{ExtensionIds, audio_level_byte, video_timing_bytes};
use codec_payload_base::wire::{AbsCaptureTime, ExtensionValues, VideoTiming};
use std::alloc::AllocError;

/// How many header extensions have values here.
const KINDS: usize = 6;

/// The bytes of a value, if present, and the id of its extension, if it has one.
#[derive(Clone, Copy, Debug)]
pub(crate) struct Row<'a> {
    pub(crate) id: Option<u8>,
    pub(crate) bytes: Option<&'a [u8]>,
}

/// The value of abs-capture-time: the first 8 of the bytes, or all 16 with the offset of the clock.
#[derive(Clone, Copy, Debug)]
pub(crate) struct CaptureBytes {
    bytes: [u8; 16],
    len: usize,
}

/// The value of abs-capture-time.
fn capture_time_bytes(time: AbsCaptureTime) -> CaptureBytes
    ensures bytes { in_use result ≡ capture_bytes time }
    ensures few { result.len ≤ 16 }
{
    let mut bytes = [0; 16];
    bytes[..8].copy_from_slice(&time.capture_time.to_be_bytes());
    let Some(offset) = time.clock_offset else {
        return CaptureBytes { bytes, len: 8 };
    };
    bytes[8..].copy_from_slice(&offset.cast_unsigned().to_be_bytes());
    CaptureBytes { bytes, len: 16 }
}

/// The bytes of abs-capture-time, if present.
fn capture_array(time: Option<AbsCaptureTime>) -> Option<CaptureBytes>
    ensures bytes { option_map in_use result ≡ option_map capture_bytes time }
    ensures few { IfSome result (λ x. x.len ≤ 16) }
{
    match time {
        Some(time) => Some(capture_time_bytes(time)),
        None => None,
    }
}

/// Lends the bytes that are in use.
fn lent_part(bytes: &Option<CaptureBytes>) -> Option<&[u8]>
    requires { IfSome bytes.now (λ x. x.len ≤ 16) }
    ensures { option_map (λ b. b.now) result ≡ option_map in_use bytes.now }
{
    match bytes {
        Some(capture) => Some(&capture.bytes[..capture.len]),
        None => None,
    }
}

/// The byte of a value, if present.
fn byte_array(byte: Option<u8>) -> Option<[u8; 1]>
    ensures { result ≡ option_map one_byte byte }
{
    match byte {
        Some(byte) => Some([byte]),
        None => None,
    }
}

/// The bytes of video-timing, if present.
fn timing_array(timing: Option<VideoTiming>) -> Option<[u8; 13]>
    ensures { result ≡ option_map timing_bytes timing }
{
    match timing {
        Some(timing) => Some(video_timing_bytes(timing)),
        None => None,
    }
}

/// Lends bytes, if they are there.
fn lent<const N: usize>(bytes: &Option<[u8; N]>) -> Option<&[u8]>
    ensures { option_map (λ b. b.now) result ≡ bytes.now }
{
    match bytes {
        Some(bytes) => Some(bytes),
        None => None,
    }
}

/// The bytes of the layers that are sent, if they are there.
fn layers_of(values: &ExtensionValues) -> Option<&[u8]>
    ensures value { option_map (λ b. b.now) result ≡ values.now.layers_allocation }
    ensures few { IfSome result (λ b. length b.now ≤ 255) }
{
    match &values.layers_allocation {
        Some(allocation) => Some(allocation.bytes()),
        None => None,
    }
}

/// The byte with the audio level and speech, if a level is given and has a byte.
fn audio_byte_of(values: &ExtensionValues) -> Option<u8>
    ensures { result ≡ audio_byte values.now }
{
    let voice = values.voice_activity == Some(true);
    match values.audio_level {
        Some(level) => audio_level_byte(level, voice),
        None => None,
    }
}

/// Puts the element of a row, if it has one, after the first `count`, and returns the new count.
fn put<'a>(elements: &mut [Element<'a>; KINDS], count: usize, row: Row<'a>) -> usize
    requires { count < 6 }
    ensures few { result ≤ count + 1 }
    ensures put { map element_of (take result elements.new) ≡ map element_of (take count elements.old) ++ row_elements (row_of row.entry) }
{
    let (Some(id), Some(bytes)) = (row.id, row.bytes) else {
        return count;
    };
    elements[count] = Element { id, bytes };
    count + 1
}

/// The elements of these rows, and their number.
fn gather<'a>(rows: &[Row<'a>; KINDS]) -> ([Element<'a>; KINDS], usize)
    ensures few { result.1 ≤ 6 }
    ensures elements { map element_of (take result.1 result.0) ≡ rows_elements (map row_of rows.now) }
{
    let mut elements = [Element { id: 0, bytes: &[] }; KINDS];
    let mut count = 0;
    for row in rows {
        count = put(&mut elements, count, *row);
    }
    (elements, count)
}

/// Replaces the contents of `out` with the elements, and returns the profile of their extension, if there are any.
fn write_extension(elements: &[Element<'_>], out: &mut Vec<u8>) -> Result<Option<u16>, AllocError>
    requires { IsTrue (all_fit TwoByte (map element_of elements.now)) }
    ensures none { IfOk result (λ profile. profile ≡ None → out.new.items ≡ []) }
    ensures written { IfOk result (λ profile. option_map (λ p. record { profile = p; bytes = out.new.items }) profile ≡ extension_for (map element_of elements.now)) }
{
    out.clear();
    if elements.is_empty() {
        return Ok(None);
    }
    let form = write_elements(elements, out)?;
    Ok(Some(form.profile()))
}

/// Whether the id is that one.
fn is_id(id: u8, other: Option<u8>) -> bool
    ensures { result ≡ is_id id other }
{
    match other {
        Some(other) => id == other,
        None => false,
    }
}

/// Whether the id differs from all others.
fn is_apart(id: u8, others: &[Option<u8>]) -> bool
    ensures { result ≡ is_apart id others.now }
{
    for other in others {
        if is_id(id, *other) {
            return false;
        }
    }
    true
}

/// Whether the id, if there is one, is 1 or more and none of the others.
fn is_apart_from(id: Option<u8>, others: &[Option<u8>]) -> bool
    ensures { result ≡ (id_fits id && is_apart_from id others.now) }
{
    match id {
        Some(id) => 1 <= id && is_apart(id, others),
        None => true,
    }
}

/// Whether each is 1 or more, and no two are the same.
fn are_ids(ids: &[Option<u8>]) -> bool
    ensures { result ≡ are_ids ids.now }
{
    let mut rest = ids;
    while let [id, others @ ..] = rest {
        if !is_apart_from(*id, others) {
            return false;
        }
        rest = others;
    }
    true
}

impl ExtensionIds {
    /// Whether each id can be written, and no two are the same: each is 1 or more.
    pub fn fit(&self) -> bool
        ensures { result ≡ ids_fit self.now }
    {
        are_ids(&[
            self.abs_capture_time,
            self.video_orientation,
            self.video_content_type,
            self.video_timing,
            self.layers_allocation,
            self.audio_level,
        ])
    }

    /// Replaces the contents of `out` with the bytes of a header extension for the values that have an id, and returns its profile:
    /// the one-byte form if it has room for each value, else the two-byte form (RFC 8285). If no value has an id, returns `None`
    /// and empties `out`. An audio level above 0 or below -127 dBov is not written, and speech without a level is not written
    /// either. If an allocation fails, `out` holds a beginning of the bytes.
    pub fn write(
        &self,
        values: &ExtensionValues,
        out: &mut Vec<u8>,
    ) -> Result<Option<u16>, AllocError>
        requires { IsTrue (ids_fit self.now) }
        ensures written { IfOk result (λ profile. option_map (λ p. record { profile = p; bytes = out.new.items }) profile ≡ extension_for (elements_for self.now values.now)) }
        // Without an extension nothing is left in `out`.
        ensures none { IfOk result (λ profile. profile ≡ None → out.new.items ≡ []) }
        // They are whole words, which an extension asks for.
        ensures words { OnOk result (IfSome (extension_for (elements_for self.now values.now)) (λ e. (length e.bytes % 4 ≡ 0) × (length e.bytes ≤ 300))) }
        // The written bytes are read back.
        ensures comes_back { OnOk result (elements_of (extension_for (elements_for self.now values.now)) ≡ elements_for self.now values.now) }
    {
        let capture = capture_array(values.abs_capture_time);
        let orientation = byte_array(values.video_orientation);
        let content_type = byte_array(values.video_content_type);
        let timing = timing_array(values.video_timing);
        let level = byte_array(audio_byte_of(values));
        let rows = [
            Row {
                id: self.abs_capture_time,
                bytes: lent_part(&capture),
            },
            Row {
                id: self.video_orientation,
                bytes: lent(&orientation),
            },
            Row {
                id: self.video_content_type,
                bytes: lent(&content_type),
            },
            Row {
                id: self.video_timing,
                bytes: lent(&timing),
            },
            Row {
                id: self.layers_allocation,
                bytes: layers_of(values),
            },
            Row {
                id: self.audio_level,
                bytes: lent(&level),
            },
        ];
        let (elements, count) = gather(&rows);
        write_extension(&elements[..count], out)
    }
}
