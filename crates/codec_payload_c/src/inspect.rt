//! Inspection of one payload or frame. No call allocates.

ghost use Rattle.std.specs.Prelude.{◌≡◌};
ghost use Rattle.codec_payload_core.specs.Av1Steps.{is_keyframe as is_av1_keyframe};
ghost use Rattle.codec_payload_core.specs.Depacketizers.{depacketizer_state_for, head_of, tail_of};
ghost use Rattle.codec_payload_core.specs.Extended.{extended};
ghost use Rattle.codec_payload_core.specs.Vp8Keyframe.{is_keyframe as is_vp8_keyframe};
ghost use Rattle.codec_payload_core.specs.Vp9Keyframe.{is_key_frame, is_key_payload};
ghost use Rattle.codec_payload_c.specs.Inspect.{Inspect};
ghost use Rattle.codec_payload_handle.specs.Numbers.{given_if};
ghost use Rattle.codec_payload_handle.specs.Settings.{codec_numbered};

use codec_payload_core::av1::detect_av1_keyframe;
use codec_payload_core::codec::{CodecDepacketizer, Depacketizer};
use codec_payload_core::vp8::detect_vp8_keyframe;
use codec_payload_core::vp9::{detect_vp9_keyframe, detect_vp9_keyframe_bitstream};
use codec_payload_handle::settings::codec_of;
use codec_payload_handle::status;
use std::alloc::Global;

/// Returns whether a keyframe of VP8 starts in the payload.
#[unsafe(no_mangle)]
pub extern "C" fn cpay_vp8_is_keyframe(payload: &[u8]) -> bool
    ensures { result ≡ is_vp8_keyframe payload.now }
{
    detect_vp8_keyframe(payload)
}

/// Returns whether the payload of VP9 says that its frame depends on no other frame.
#[unsafe(no_mangle)]
pub extern "C" fn cpay_vp9_is_keyframe(payload: &[u8]) -> bool
    ensures { result ≡ is_key_payload payload.now }
{
    detect_vp9_keyframe(payload)
}

/// Returns whether the frame of VP9, without a descriptor, is a keyframe.
#[unsafe(no_mangle)]
pub extern "C" fn cpay_vp9_frame_is_keyframe(frame: &[u8]) -> bool
    ensures { result ≡ is_key_frame frame.now }
{
    detect_vp9_keyframe_bitstream(frame)
}

/// Returns whether a new coded video sequence of AV1 starts in the payload.
#[unsafe(no_mangle)]
pub extern "C" fn cpay_av1_is_keyframe(payload: &[u8]) -> bool
    ensures { result ≡ is_av1_keyframe payload.now }
{
    detect_av1_keyframe(payload)
}

/// Reports whether the payload begins a unit.
#[unsafe(no_mangle)]
pub extern "C" fn cpay_is_head(alloc: Global, codec: u32, payload: &[u8], is_head: &mut bool) -> u32
    ensures { Inspect (depacketizer_state_for (codec_numbered codec)) (λ d. head_of d payload.now) result is_head.old is_head.new }
{
    let Some(depacketizer) = CodecDepacketizer::from_codec(alloc, codec_of(codec)) else {
        return status::INVALID;
    };
    *is_head = depacketizer.is_partition_head(payload);
    status::OK
}

/// Reports whether the payload, with this marker in its RTP header, ends a unit.
#[unsafe(no_mangle)]
pub extern "C" fn cpay_is_tail(
    alloc: Global,
    codec: u32,
    marker: bool,
    payload: &[u8],
    is_tail: &mut bool,
) -> u32
    ensures { Inspect (depacketizer_state_for (codec_numbered codec)) (λ d. tail_of d marker payload.now) result is_tail.old is_tail.new }
{
    let Some(depacketizer) = CodecDepacketizer::from_codec(alloc, codec_of(codec)) else {
        return status::INVALID;
    };
    *is_tail = depacketizer.is_partition_tail(marker, payload);
    status::OK
}

/// Returns the number with these low 16 bits that is nearest to the previous number; half the range goes forward. The first
/// number is the 16 bits themselves.
#[unsafe(no_mangle)]
pub extern "C" fn cpay_extend_number(previous: u64, has_previous: bool, number: u16) -> u64
    ensures { result ≡ extended 65536 (given_if has_previous previous) number }
{
    let number = u64::from(number);
    if !has_previous {
        return number;
    }
    let ahead = (number + 65_536 - previous % 65_536) % 65_536;
    if ahead <= 32_768 {
        previous.wrapping_add(ahead)
    } else {
        previous.wrapping_sub(65_536 - ahead)
    }
}
