//! Whether a keyframe begins in a payload, and its temporal layer.

ghost use Rattle.std.specs.Prelude.{◌≡◌};
ghost use Rattle.codec_payload_base.specs.Flags.{has_bit};
ghost use Rattle.codec_payload_layers.specs.Layers.{begins_av1, begins_keyframe, begins_vp9, behind_id, behind_tl0, front_of, is_lowest_layer, temporal_layer, vp8_layer, vp8_layer_in, vp9_layer, vp9_layer_in};

use codec_payload_base::wire::Codec;
use codec_payload_vp8::vp8::detect_vp8_keyframe;
use codec_payload_vp9::vp9::detect_vp9_keyframe;

/// The temporal layer of a packet of VP8 or VP9.
#[derive(Clone, Copy, Debug, PartialEq, Eq)]
pub struct TemporalLayer {
    /// TID. 0 is the base layer.
    pub id: u8,
    /// VP8: Y, the frame refers to frames of the base layer alone. VP9: U, from this frame on a decoder can have a higher layer.
    pub sync: bool,
}

/// Returns whether a payload is the first packet of a keyframe, so that a viewer can begin with it. The codecs differ:
///
/// - VP8: the first packet of a keyframe (RFC 7741, section 4.2);
/// - VP9: the first packet of the lowest spatial layer of a picture that refers to no other: P is clear, B is set, and L is clear or
///   SID is 0 (RFC 9628, section 4.2);
/// - AV1: the first packet of a coded video sequence: N is set, and Z is clear;
/// - other codecs: any packet.
///
/// A forwarder begins with the same packets.
pub fn begins_keyframe(codec: Codec, payload: &[u8]) -> bool
    ensures { result ≡ begins_keyframe codec payload.now }
{
    match codec {
        Codec::Vp8 => detect_vp8_keyframe(payload),
        Codec::Vp9 => begins_vp9(payload),
        Codec::Av1 => begins_av1(payload),
        _ => true,
    }
}

/// Returns the temporal layer of a packet of VP8 (RFC 7741, section 4.2) or VP9 (RFC 9628, section 4.2), if its payload names one. A
/// server leaves packets out by it. AV1 has its layers in the dependency
/// descriptor.
pub fn temporal_layer(codec: Codec, payload: &[u8]) -> Option<TemporalLayer>
    ensures { result ≡ temporal_layer codec payload.now }
{
    match codec {
        Codec::Vp8 => vp8_layer_in(payload),
        Codec::Vp9 => vp9_layer_in(payload),
        _ => None,
    }
}

/// Returns whether a payload of VP9 begins the lowest spatial layer of a picture that refers to no other.
fn begins_vp9(payload: &[u8]) -> bool
    ensures { result ≡ begins_vp9 payload.now }
{
    let Some((&flags, behind)) = payload.split_first() else {
        return false;
    };
    detect_vp9_keyframe(payload) && flags & 0x08 != 0 && is_lowest_layer(flags, behind)
}

/// Returns whether a descriptor of VP9 names no layers, or the lowest spatial one.
fn is_lowest_layer(flags: u8, behind: &[u8]) -> bool
    ensures { result ≡ is_lowest_layer (has_bit flags 5) (behind_id (has_bit flags 7) behind.now) }
{
    if flags & 0x20 == 0 {
        return true;
    }
    match behind_id(flags, behind).first() {
        Some(layers) => layers / 2 % 8 == 0,
        None => false,
    }
}

/// Returns the bytes behind the PictureID of one or two bytes, if the bit I (0x80) of `flags` is set.
pub fn behind_id(flags: u8, bytes: &[u8]) -> &[u8]
    ensures { result.now ≡ behind_id (has_bit flags 7) bytes.now }
{
    if flags & 0x80 == 0 {
        return bytes;
    }
    let Some((id, rest)) = bytes.split_first() else {
        return bytes;
    };
    match rest.split_first() {
        Some((_, behind)) if id & 0x80 != 0 => behind,
        _ => rest,
    }
}

/// Returns whether a payload of AV1 begins a coded video sequence.
fn begins_av1(payload: &[u8]) -> bool
    ensures { result ≡ begins_av1 payload.now }
{
    match payload.first() {
        Some(header) => header & 0x08 != 0 && header & 0x80 == 0,
        None => false,
    }
}

/// Returns the first byte.
fn front_of(bytes: &[u8]) -> Option<u8>
    ensures { result ≡ front_of bytes.now }
{
    match bytes.first() {
        Some(byte) => Some(*byte),
        None => None,
    }
}

/// Returns the bytes behind TL0PICIDX, if it is there.
fn behind_tl0(flags: u8, bytes: &[u8]) -> &[u8]
    ensures { result.now ≡ behind_tl0 (has_bit flags 6) bytes.now }
{
    if flags & 0x40 == 0 {
        return bytes;
    }
    match bytes.split_first() {
        Some((_, rest)) => rest,
        None => bytes,
    }
}

/// Returns the layer that the octet with TID and Y of VP8 names.
fn vp8_layer(octet: Option<u8>) -> Option<TemporalLayer>
    ensures { result ≡ vp8_layer octet }
{
    match octet {
        Some(octet) => Some(TemporalLayer {
            id: octet / 64,
            sync: octet & 0x20 != 0,
        }),
        None => None,
    }
}

/// Returns the temporal layer of a payload of VP8.
fn vp8_layer_in(payload: &[u8]) -> Option<TemporalLayer>
    ensures { result ≡ vp8_layer_in payload.now }
{
    let (&first, behind) = payload.split_first()?;
    if first & 0x80 == 0 {
        return None;
    }
    let (&flags, behind) = behind.split_first()?;
    if flags & 0x20 == 0 {
        return None;
    }
    vp8_layer(front_of(behind_tl0(flags, behind_id(flags, behind))))
}

/// Returns the layer that the octet of layers of VP9 names.
fn vp9_layer(octet: Option<u8>) -> Option<TemporalLayer>
    ensures { result ≡ vp9_layer octet }
{
    match octet {
        Some(octet) => Some(TemporalLayer {
            id: octet / 32,
            sync: octet & 0x10 != 0,
        }),
        None => None,
    }
}

/// Returns the temporal layer of a payload of VP9.
fn vp9_layer_in(payload: &[u8]) -> Option<TemporalLayer>
    ensures { result ≡ vp9_layer_in payload.now }
{
    let (&flags, behind) = payload.split_first()?;
    if flags & 0x20 == 0 {
        return None;
    }
    vp9_layer(front_of(behind_id(flags, behind)))
}
