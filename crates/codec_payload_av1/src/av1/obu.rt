//! AV1: OBUs (AV1 bitstream specification, section 5.3; docs/use/FORMATS.md, "AV1").

ghost use Rattle.std.specs.Prelude.{◌≡◌, ◌∷◌, ◌++◌, OnOk, length, take, bit_or};
ghost use Rattle.std.specs.Option.{option_map};
ghost use Rattle.codec_payload_av1.specs.Av1Obu.{obu_at, extension_at, sized_at, canonical, has_size, is_kept_type, is_one, view};
ghost use Rattle.codec_payload_base.specs.Answers.{Finds};
ghost use Rattle.codec_payload_base.specs.Leb.{leb};

use crate::av1::leb::{joined_number, number_at, put_number};
use std::alloc::AllocError;

/// An OBU in memory: the first byte of its header, the extension byte if there is one, and its payload.
#[derive(Clone, Copy)]
pub struct ObuSlices<'a> {
    pub header: u8,
    pub extension: &'a [u8],
    pub payload: &'a [u8],
}

/// Whether the payload has a size field before it.
pub fn has_size_bit(header: u8) -> bool
    ensures { result ≡ has_size header }
{
    header & 2 != 0
}

/// Whether the type is one that payloads carry: a sequence header, a frame header, a tile group, metadata, a frame or a
/// redundant frame header.
pub fn is_kept(header: u8) -> bool
    ensures { result ≡ is_kept_type header }
{
    matches!(header & 0x78, 0x08 | 0x18 | 0x20 | 0x28 | 0x30 | 0x38)
}

/// The extension byte, if the header announces one, and the bytes after it.
fn extension_of(bytes: &[u8], has_one: bool) -> Option<(&[u8], &[u8])>
    ensures { Finds (λ x. (x.0.now, x.1.now)) result (extension_at has_one bytes.now) }
{
    if !has_one {
        return Some((&[], bytes));
    }
    if bytes.is_empty() {
        return None;
    }
    Some(bytes.split_at(1))
}

/// The OBU whose size and payload are at the front, and the bytes after it.
fn sized_of<'a>(
    header: u8,
    extension: &'a [u8],
    bytes: &'a [u8],
) -> Option<(ObuSlices<'a>, &'a [u8])>
    ensures { Finds (λ x. (view x.0, x.1.now)) result (sized_at header extension.now bytes.now) }
{
    let (size, bytes) = number_at(bytes)?;
    if (bytes.len() as u64) < size {
        return None;
    }
    let (payload, rest) = bytes.split_at(size as usize);
    Some((
        ObuSlices {
            header,
            extension,
            payload,
        },
        rest,
    ))
}

/// The OBU at the front, and the bytes after it; `None` if a byte of it is missing.
#[tactic(auto, unfolding(crate::specs::Av1Obu::obu_at))]
pub fn obu_of(bytes: &[u8]) -> Option<(ObuSlices<'_>, &[u8])>
    ensures { Finds (λ x. (view x.0, x.1.now)) result (obu_at bytes.now) }
{
    let (first, rest) = bytes.split_first()?;
    let header = *first;
    let (extension, rest) = extension_of(rest, header & 4 != 0)?;
    if has_size_bit(header) {
        sized_of(header, extension, rest)
    } else {
        Some((
            ObuSlices {
                header,
                extension,
                payload: rest,
            },
            &[],
        ))
    }
}

/// The bytes after the extension byte of a header, in two adjacent slices.
fn behind_extension<'a>(
    has_one: bool,
    front: &'a [u8],
    back: &'a [u8],
) -> Option<(&'a [u8], &'a [u8])>
    ensures { option_map (λ x. x.0.now ++ x.1.now) result ≡ option_map (λ x. x.1) (extension_at has_one (front.now ++ back.now)) }
{
    if !has_one {
        return Some((front, back));
    }
    match (front, back) {
        ([_, rest @ ..], _) => Some((rest, back)),
        ([], [_, rest @ ..]) => Some((front, rest)),
        ([], []) => None,
    }
}

/// Whether two adjacent slices are exactly one OBU. Does not allocate.
pub fn is_one_obu(front: &[u8], back: &[u8]) -> bool
    ensures { result ≡ is_one (front.now ++ back.now) }
{
    let (header, front, back) = match (front, back) {
        ([header, rest @ ..], _) => (*header, rest, back),
        ([], [header, rest @ ..]) => (*header, front, rest),
        ([], []) => return false,
    };
    let Some((front, back)) = behind_extension(header & 4 != 0, front, back) else {
        return false;
    };
    if !has_size_bit(header) {
        return true;
    }
    match joined_number(front, back) {
        Some((size, left)) => size == left as u64,
        None => false,
    }
}

/// Appends bytes; usually there are none.
#[tactic(auto, using(crate::proofs::Av1FrontKept::kept_more, crate::proofs::Av1FrontKept::kept_same))]
pub fn put_if_any(out: &mut Vec<u8>, bytes: &[u8]) -> Result<(), AllocError>
    ensures written { OnOk result (out.new.items ≡ out.old.items ++ bytes.now) }
    ensures kept { take (length out.old.items) out.new.items ≡ out.old.items }
{
    if !bytes.is_empty() {
        out.extend_from_slice(bytes)?;
    }
    Ok(())
}

/// Appends the part before the payload in the canonical form of an OBU: the header with the size bit set, the extension byte if
/// there is one, and the size in as few bytes as possible.
#[inline(always)]
#[tactic(auto, using(crate::proofs::Av1FrontKept::kept_more, crate::proofs::Av1FrontKept::kept_same, crate::proofs::Av1FrontKept::kept_trans))]
pub fn put_front(
    out: &mut Vec<u8>,
    header: u8,
    extension: &[u8],
    size: u64,
) -> Result<(), AllocError>
    ensures written { OnOk result (out.new.items ≡ out.old.items ++ (bit_or header 2 ∷ (extension.now ++ leb size))) }
    ensures kept { take (length out.old.items) out.new.items ≡ out.old.items }
{
    out.push(header | 2)?;
    put_if_any(out, extension)?;
    put_number(out, size)?;
    Ok(())
}

/// Writes the canonical form of an OBU at the end.
#[inline(always)]
#[tactic(auto, using(crate::proofs::Av1FrontKept::kept_more, crate::proofs::Av1FrontKept::kept_trans), unfolding(crate::specs::Av1Obu::canonical))]
pub fn put_canonical(out: &mut Vec<u8>, obu: &ObuSlices<'_>) -> Result<(), AllocError>
    ensures written { OnOk result (out.new.items ≡ out.old.items ++ canonical (view obu.now)) }
    ensures kept { take (length out.old.items) out.new.items ≡ out.old.items }
{
    put_front(out, obu.header, obu.extension, obu.payload.len() as u64)?;
    out.extend_from_slice(obu.payload)?;
    Ok(())
}
