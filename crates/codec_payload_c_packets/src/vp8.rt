//! Descriptors of VP8 payloads, read and patched in place (RFC 7741, section 4.2).

ghost use Rattle.std.specs.Prelude.{◌≡◌, IfOk, length};
ghost use Rattle.codec_payload_core.specs.Vp8Descriptor.{parsed};
ghost use Rattle.codec_payload_core.specs.Vp8Patch.{Patches, Reaches, patch_for, patched};
ghost use Rattle.codec_payload_c_packets.specs.Vp8.{PatchesTo, builder_of, descriptor_status, patch_status};

use codec_payload_core::vp8::{
    Vp8Descriptor, Vp8DescriptorError, Vp8Patch, Vp8PatchBuilder, Vp8PatchError,
};
use codec_payload_handle::status;

/// The number of this error.
const SHORT_PACKET: u32 = 1;

/// The number of this error.
const VP8_CORRUPTED: u32 = 11;

/// The length of the longest descriptor, in bytes.
const LONGEST: usize = 6;

/// Fields of a descriptor: the fields that are present, or the fields to set.
#[repr(C)]
#[derive(Clone, Copy)]
pub struct Vp8FieldsInfo {
    pub picture_id: u16,
    pub tl0_pic_idx: u8,
    pub key_idx: u8,
    pub has_picture_id: bool,
    pub has_tl0_pic_idx: bool,
    pub has_key_idx: bool,
    /// The number of bits of the picture id: 7 or 15, or 0 without a picture id. A patch ignores it.
    pub picture_id_bits: u8,
}

/// Returns the status for a payload without a descriptor.
pub fn status_of_descriptor(error: Vp8DescriptorError) -> u32
    ensures { result ≡ descriptor_status error }
{
    match error {
        Vp8DescriptorError::ShortPayload => SHORT_PACKET,
        Vp8DescriptorError::MalformedDescriptor => VP8_CORRUPTED,
    }
}

/// Returns the status for values that a descriptor cannot have.
fn status_of_patch(error: Vp8PatchError) -> u32
    ensures { result ≡ patch_status error }
{
    match error {
        Vp8PatchError::PictureIdMissing
        | Vp8PatchError::Tl0PicIdxMissing
        | Vp8PatchError::KeyIdxMissing => status::NONE,
        Vp8PatchError::PictureIdTooLarge | Vp8PatchError::KeyIdxTooLarge => status::INVALID,
    }
}

/// Returns the patch request for these values.
fn builder(descriptor: &Vp8Descriptor, values: &Vp8FieldsInfo) -> Vp8PatchBuilder
    ensures { result ≡ builder_of descriptor.now values.now }
{
    let mut builder = descriptor.patch();
    if values.has_picture_id {
        builder = builder.picture_id(values.picture_id);
    }
    if values.has_tl0_pic_idx {
        builder = builder.tl0_pic_idx(values.tl0_pic_idx);
    }
    if values.has_key_idx {
        builder = builder.key_idx(values.key_idx);
    }
    builder
}

/// Returns the patch for these values.
#[tactic(auto, using(crate::proofs::PatchFront::reaches_front))]
fn patch_to(descriptor: &Vp8Descriptor, values: &Vp8FieldsInfo) -> Result<Vp8Patch, Vp8PatchError>
    ensures value { result ≡ patch_for (builder_of descriptor.now values.now) }
    ensures patches { IfOk result (Patches (builder_of descriptor.now values.now)) }
    ensures front { IfOk result (λ p. Reaches p 6) }
{
    builder(descriptor, values).build()
}

/// Writes a patch over the payload. A patch only changes the front.
fn patch_front(patch: &Vp8Patch, payload: &mut [u8])
    requires front { Reaches patch.now 6 }
    requires reach { Reaches patch.now (length payload.old) }
    ensures { payload.new ≡ patched patch.now payload.old }
{
    let mut old = [0u8; LONGEST];
    let front = payload.len().min(LONGEST);
    old[..front].copy_from_slice(&payload[..front]);
    patch.copy_to(&old[..front], &mut payload[..front]);
}

/// Sets fields of a payload's descriptor in place.
#[tactic(auto, using(crate::proofs::PatchFront::reaches_payload, crate::proofs::PatchFront::is_patched))]
pub fn set_fields(payload: &mut [u8], values: &Vp8FieldsInfo) -> u32
    ensures { PatchesTo (parsed payload.old) values.now result payload.old payload.new }
{
    let descriptor = match Vp8Descriptor::parse(payload) {
        Ok(descriptor) => descriptor,
        Err(error) => return status_of_descriptor(error),
    };
    match patch_to(&descriptor, values) {
        Ok(patch) => {
            patch_front(&patch, payload);
            status::OK
        }
        Err(error) => status_of_patch(error),
    }
}
