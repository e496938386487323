//! What differs between the payloads of codecs with ids.

ghost use Rattle.std.specs.Prelude.{◌≡◌, OnOk};
ghost use Rattle.codec_payload_sending_forward.specs.Forwarding.{closing_id, ids_in, payload_for};

use crate::ids::{IdOffsets, PayloadIds};
use codec_payload_base::wire::Codec;
use std::alloc::AllocError;

/// Returns the ids in a payload. `None`: the codec has no ids, or the payload no descriptor.
pub(crate) fn ids_in(codec: Codec, payload: &[u8]) -> Option<PayloadIds>
    ensures { result ≡ ids_in codec payload.now }
{
    match codec {
        Codec::Vp8 => PayloadIds::in_vp8(payload),
        Codec::Vp9 => PayloadIds::in_vp9(payload),
        _ => None,
    }
}

/// Returns the PictureID of a picture behind which the ids close up if it is left out.
pub(crate) fn closing_id(codec: Codec, payload: &[u8]) -> Option<u16>
    ensures { result ≡ closing_id codec payload.now }
{
    match codec {
        Codec::Vp8 => PayloadIds::in_vp8(payload)?.picture(),
        _ => None,
    }
}

/// Writes a payload with the ids of the viewer's stream, and replaces what `out` has.
pub(crate) fn rewrite(
    codec: Codec,
    offsets: IdOffsets,
    payload: &[u8],
    out: &mut Vec<u8>,
) -> Result<(), AllocError>
    ensures { OnOk result (out.new.items ≡ payload_for codec offsets payload.now) }
{
    match codec {
        Codec::Vp8 => offsets.rewrite_vp8(payload, out),
        Codec::Vp9 => offsets.rewrite_vp9(payload, out),
        _ => {
            out.clear();
            out.extend_from_slice(payload)
        }
    }
}
