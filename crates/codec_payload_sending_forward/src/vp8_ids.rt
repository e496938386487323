//! The ids in the payload descriptors of VP8 (RFC 7741, section 4.2).

ghost use Rattle.std.specs.Prelude.{◌≡◌, IfSome, List, None, Ok, OnOk, length, ℕ};
ghost use Rattle.codec_payload_base.specs.PictureIds.{FitsWidth};
ghost use Rattle.codec_payload_vp8.specs.Vp8Descriptor.{IsDescribed};
ghost use Rattle.codec_payload_vp8.specs.Vp8Patch.{Reaches, patched};
ghost use Rattle.codec_payload_sending_forward.specs.Vp8Numbers.{ids_of, patch_by, patch_in, payload_as, vp8_ids};

use crate::ids::{IdOffsets, PayloadIds};
use codec_payload_base::picture_id::PictureId;
use codec_payload_vp8::vp8::{Vp8Descriptor, Vp8Patch, Vp8PatchBuilder};
use std::alloc::AllocError;

/// The most bytes of a descriptor (RFC 7741, section 4.2).
const MAX_DESCRIPTOR: usize = 6;

/// Asks for a PictureID, if there is one.
fn with_id(builder: Vp8PatchBuilder, id: Option<u16>) -> Vp8PatchBuilder
    requires { builder.picture_id ≡ None }
    ensures { result ≡ record builder { picture_id = id } }
{
    match id {
        None => builder,
        Some(id) => builder.picture_id(id),
    }
}

/// Asks for a TL0PICIDX, if there is one.
fn with_tl0(builder: Vp8PatchBuilder, tl0: Option<u8>) -> Vp8PatchBuilder
    requires { builder.tl0_pic_idx ≡ None }
    ensures { result ≡ record builder { tl0_pic_idx = tl0 } }
{
    match tl0 {
        None => builder,
        Some(tl0) => builder.tl0_pic_idx(tl0),
    }
}

/// Returns the ids of a descriptor.
fn ids_of(descriptor: &Vp8Descriptor) -> PayloadIds
    requires { IfSome descriptor.now.picture_id FitsWidth }
    ensures { result ≡ ids_of descriptor.now }
{
    let picture_id = match (descriptor.picture_id(), descriptor.picture_id_bits()) {
        (Some(id), Some(7)) => Some(PictureId::Short(id as u8)),
        (Some(id), _) => Some(PictureId::Long(id)),
        (None, _) => None,
    };
    PayloadIds {
        picture_id,
        tl0_pic_idx: descriptor.tl0_pic_idx(),
    }
}

/// Writes the bytes of a patch over a copy of the payload. Only the descriptor is copied once more.
#[inline]
fn patch_front(patch: Vp8Patch, payload: &[u8], copy: &mut [u8])
    requires same { copy.old ≡ payload.now }
    requires reaches { Reaches patch (length payload.now) }
    ensures { copy.new ≡ patched patch payload.now }
{
    let front = payload.len().min(MAX_DESCRIPTOR);
    if patch.reaches(front) {
        patch.copy_to(&payload[..front], &mut copy[..front]);
    } else {
        patch.copy_to(payload, copy);
    }
}

impl PayloadIds {
    /// Returns the ids in a payload of VP8. `None`: the payload has no descriptor. Does not allocate.
    pub fn in_vp8(payload: &[u8]) -> Option<PayloadIds>
        ensures { result ≡ vp8_ids payload.now }
    {
        match Vp8Descriptor::parse(payload) {
            Ok(descriptor) => Some(ids_of(&descriptor)),
            Err(_) => None,
        }
    }
}

impl IdOffsets {
    /// Returns the patch that gives a payload of VP8 the ids of the viewer's stream. `None`: the payload has no descriptor.
    pub fn patch(self, payload: &[u8]) -> Option<Vp8Patch>
        ensures value { result ≡ patch_in self payload.now }
        ensures reaches { IfSome result (λ p. Reaches p (length payload.now)) }
    {
        match Vp8Descriptor::parse(payload) {
            Ok(descriptor) => self.patch_of(&descriptor, ids_of(&descriptor)),
            Err(_) => None,
        }
    }

    /// Returns the patch for a payload with this descriptor, which has these ids.
    #[inline]
    fn patch_of(self, descriptor: &Vp8Descriptor, ids: PayloadIds) -> Option<Vp8Patch>
        requires { ids ≡ ids_of descriptor.now }
        ensures value { result ≡ patch_by self (Ok descriptor.now) }
        ensures reaches { IfSome result (λ p. (payload rest : List ℕ) → IsDescribed payload descriptor.now rest → Reaches p (length payload)) }
    {
        let ids = ids.moved(self);
        let builder = with_id(descriptor.patch(), ids.picture());
        match with_tl0(builder, ids.tl0_pic_idx).build() {
            Ok(patch) => Some(patch),
            Err(_) => None,
        }
    }

    /// Writes the ids of the viewer's stream over those in `copy`, which has the bytes of this payload of VP8, and returns those of the
    /// payload. `None`: it has no descriptor, and stays as it is.
    pub(crate) fn write_vp8(self, payload: &[u8], copy: &mut [u8]) -> Option<PayloadIds>
        requires { copy.old ≡ payload.now }
        ensures bytes { copy.new ≡ payload_as self payload.now }
        ensures ids { result ≡ vp8_ids payload.now }
    {
        let Ok(descriptor) = Vp8Descriptor::parse(payload) else {
            return None;
        };
        let ids = ids_of(&descriptor);
        if let Some(patch) = self.patch_of(&descriptor, ids) {
            patch_front(patch, payload, copy);
        }
        Some(ids)
    }

    /// Writes a payload of VP8 with the ids of the viewer's stream, and replaces what `out` has. A payload without a descriptor stays
    /// as it is.
    pub(crate) fn rewrite_vp8(self, payload: &[u8], out: &mut Vec<u8>) -> Result<(), AllocError>
        ensures { OnOk result (out.new.items ≡ payload_as self payload.now) }
    {
        out.clear();
        out.extend_from_slice(payload)?;
        if let Some(patch) = self.patch(payload) {
            patch.copy_to(payload, out);
        }
        Ok(())
    }
}
