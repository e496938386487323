//! Descriptors of VP8 payloads, read and patched in place (RFC 7741, section 4.2).

ghost use Rattle.std.specs.Prelude.{◌≡◌, ◌≢◌};
ghost use Rattle.codec_payload_core.specs.Vp8Descriptor.{parsed};
ghost use Rattle.codec_payload_c_packets.specs.Vp8.{PatchesTo, ReadsTo};

use codec_payload_c_packets::vp8::{Vp8FieldsInfo, set_fields, status_of_descriptor};
use codec_payload_core::vp8::Vp8Descriptor;
use codec_payload_handle::status;

/// Reads the fields of a payload's descriptor, and whether a keyframe starts in the payload.
#[unsafe(no_mangle)]
pub extern "C" fn cpay_vp8_fields(
    payload: &[u8],
    fields: &mut Vp8FieldsInfo,
    starts_keyframe: &mut bool,
) -> u32
    ensures reads { ReadsTo (parsed payload.now) payload.now result fields.new starts_keyframe.new }
    ensures unchanged { result ≢ 0 → fields.new ≡ fields.old }
    ensures unlooked { result ≢ 0 → starts_keyframe.new ≡ starts_keyframe.old }
{
    let descriptor = match Vp8Descriptor::parse(payload) {
        Ok(descriptor) => descriptor,
        Err(error) => return status_of_descriptor(error),
    };
    *fields = Vp8FieldsInfo {
        picture_id: descriptor.picture_id().unwrap_or(0),
        tl0_pic_idx: descriptor.tl0_pic_idx().unwrap_or(0),
        key_idx: descriptor.key_idx().unwrap_or(0),
        has_picture_id: descriptor.picture_id().is_some(),
        has_tl0_pic_idx: descriptor.tl0_pic_idx().is_some(),
        has_key_idx: descriptor.key_idx().is_some(),
        picture_id_bits: descriptor.picture_id_bits().unwrap_or(0),
    };
    *starts_keyframe = descriptor.starts_keyframe(payload);
    status::OK
}

/// Sets fields of a payload's descriptor in place.
#[unsafe(no_mangle)]
pub extern "C" fn cpay_vp8_patch(payload: &mut [u8], values: &Vp8FieldsInfo) -> u32
    ensures { PatchesTo (parsed payload.old) values.now result payload.old payload.new }
{
    set_fields(payload, values)
}
