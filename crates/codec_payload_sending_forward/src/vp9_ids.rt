//! The ids in the payload descriptors of VP9 (RFC 9628, section 4.2).

ghost use Rattle.std.specs.Prelude.{◌≡◌, ◌++◌, IfSome, OnOk, option_map};
ghost use Rattle.codec_payload_base.specs.PictureIds.{FitsWidth, byte_if, id_if};
ghost use Rattle.codec_payload_sending_forward.specs.Vp9Numbers.{front_ids, front_of, fronted, spelled_front, taken_byte, taken_id, vp9_ids, vp9_payload_as, with_ids};

use crate::ids::{IdOffsets, PayloadIds};
use codec_payload_base::picture_id::{PictureId, long_bytes};
use std::alloc::AllocError;

/// I of the first byte: PictureID is present.
const PICTURE_ID_PRESENT: u8 = 0x80;

/// L of the first byte: the layers are present.
const LAYERS_PRESENT: u8 = 0x20;

/// F of the first byte: the mode is the flexible one, without TL0PICIDX.
const FLEXIBLE_MODE: u8 = 0x10;

/// A payload: the first bytes of its descriptor, up to TL0PICIDX, and the bytes after them.
#[derive(Clone, Copy, Debug)]
struct Front<'a> {
    /// I P L F B E V Z.
    flags: u8,
    picture_id: Option<PictureId>,
    /// TID(3) U SID(3) D.
    layers: Option<u8>,
    tl0_pic_idx: Option<u8>,
    rest: &'a [u8],
}

/// Takes a PictureID off the front, if it is present. `None`: a byte is missing.
fn take_id(is_present: bool, bytes: &[u8]) -> Option<(Option<PictureId>, &[u8])>
    ensures { option_map (λ x. (x.0, x.1.now)) result ≡ taken_id is_present bytes.now }
{
    if !is_present {
        return Some((None, bytes));
    }
    let (id, rest) = PictureId::take(bytes)?;
    Some((Some(id), rest))
}

/// Takes a byte off the front, if it is present. `None`: it is missing.
fn take_byte(is_present: bool, bytes: &[u8]) -> Option<(Option<u8>, &[u8])>
    ensures { option_map (λ x. (x.0, x.1.now)) result ≡ taken_byte is_present bytes.now }
{
    if !is_present {
        return Some((None, bytes));
    }
    let (&byte, rest) = bytes.split_first()?;
    Some((Some(byte), rest))
}

/// Writes a byte, if there is one.
fn write_byte(byte: Option<u8>, out: &mut Vec<u8>) -> Result<(), AllocError>
    ensures { OnOk result (out.new.items ≡ out.old.items ++ byte_if byte) }
{
    if let Some(byte) = byte {
        out.push(byte)?;
    }
    Ok(())
}

/// Writes a PictureID, if there is one.
fn write_id(id: Option<PictureId>, out: &mut Vec<u8>) -> Result<(), AllocError>
    requires { IfSome id FitsWidth }
    ensures { OnOk result (out.new.items ≡ out.old.items ++ id_if id) }
{
    match id {
        None => Ok(()),
        Some(PictureId::Short(id)) => {
            out.push(id)?;
            Ok(())
        }
        Some(PictureId::Long(id)) => out.extend_from_slice(&long_bytes(id)),
    }
}

impl<'a> Front<'a> {
    /// Returns the parts of a payload. `None`: a byte up to TL0PICIDX is missing.
    fn read(payload: &'a [u8]) -> Option<Front<'a>>
        ensures { option_map fronted result ≡ front_of payload.now }
    {
        let (&flags, bytes) = payload.split_first()?;
        let has_layers = flags & LAYERS_PRESENT != 0;
        let has_tl0 = has_layers && flags & FLEXIBLE_MODE == 0;
        let (picture_id, bytes) = take_id(flags & PICTURE_ID_PRESENT != 0, bytes)?;
        let (layers, bytes) = take_byte(has_layers, bytes)?;
        let (tl0_pic_idx, rest) = take_byte(has_tl0, bytes)?;
        Some(Front {
            flags,
            picture_id,
            layers,
            tl0_pic_idx,
            rest,
        })
    }

    /// Returns the ids.
    fn ids(&self) -> PayloadIds
        ensures { result ≡ front_ids (fronted self.now) }
    {
        PayloadIds {
            picture_id: self.picture_id,
            tl0_pic_idx: self.tl0_pic_idx,
        }
    }

    /// Appends the payload with these ids, which have the widths of its own.
    fn write(&self, ids: PayloadIds, out: &mut Vec<u8>) -> Result<(), AllocError>
        requires { IfSome ids.picture_id FitsWidth }
        ensures { OnOk result (out.new.items ≡ out.old.items ++ spelled_front (with_ids (fronted self.now) ids)) }
    {
        out.push(self.flags)?;
        write_id(ids.picture_id, out)?;
        write_byte(self.layers, out)?;
        write_byte(ids.tl0_pic_idx, out)?;
        out.extend_from_slice(self.rest)
    }
}

impl PayloadIds {
    /// Returns the ids in a payload of VP9. `None`: a byte of its descriptor up to TL0PICIDX is missing. TL0PICIDX is present in the
    /// non-flexible mode, if L is set (RFC 9628, section 4.2). Does not allocate.
    pub fn in_vp9(payload: &[u8]) -> Option<PayloadIds>
        ensures { result ≡ vp9_ids payload.now }
    {
        match Front::read(payload) {
            None => None,
            Some(front) => Some(front.ids()),
        }
    }
}

impl IdOffsets {
    /// Writes a payload of VP9 with the ids of the viewer's stream, and replaces what `out` has. A payload whose descriptor is cut off
    /// before the end of TL0PICIDX stays as it is.
    pub(crate) fn rewrite_vp9(self, payload: &[u8], out: &mut Vec<u8>) -> Result<(), AllocError>
        ensures { OnOk result (out.new.items ≡ vp9_payload_as self payload.now) }
    {
        out.clear();
        out.reserve(payload.len())?;
        match Front::read(payload) {
            None => out.extend_from_slice(payload),
            Some(front) => front.write(front.ids().moved(self), out),
        }
    }
}
