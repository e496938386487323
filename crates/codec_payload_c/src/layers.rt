//! What a payload says to a server that passes it on.

ghost use Rattle.std.specs.Prelude.{◌≡◌, ◌≢◌};
ghost use Rattle.codec_payload_core.specs.Depacketizers.{depacketizer_state_for};
ghost use Rattle.codec_payload_c.specs.Inspect.{Inspect};
ghost use Rattle.codec_payload_c.specs.Layers.{TellsLayerOf};
ghost use Rattle.codec_payload_handle.specs.Settings.{codec_numbered};
ghost use Rattle.codec_payload_layers.specs.Layers.{begins_keyframe, temporal_layer};

use codec_payload_core::codec::CodecDepacketizer;
use codec_payload_handle::settings::codec_of;
use codec_payload_handle::status;
use codec_payload_layers::layers::{begins_keyframe, temporal_layer};
use std::alloc::Global;

/// The temporal layer of a packet.
#[repr(C)]
#[derive(Drop)]
pub struct TemporalLayerInfo {
    /// TID. 0 is the base layer.
    pub id: u8,
    /// Y of VP8, U of VP9.
    pub sync: bool,
}

/// Reports whether a keyframe begins in a payload, so that a viewer can begin with its packet.
#[unsafe(no_mangle)]
pub extern "C" fn cpay_begins_keyframe(
    alloc: Global,
    codec: u32,
    payload: &[u8],
    begins: &mut bool,
) -> u32
    ensures { Inspect (depacketizer_state_for (codec_numbered codec)) (λ d. begins_keyframe (codec_numbered codec) payload.now) result begins.old begins.new }
{
    let codec = codec_of(codec);
    let Some(_depacketizer) = CodecDepacketizer::from_codec(alloc, codec) else {
        return status::INVALID;
    };
    *begins = begins_keyframe(codec, payload);
    status::OK
}

/// Reports the temporal layer that a payload of VP8 or VP9 names.
#[unsafe(no_mangle)]
pub extern "C" fn cpay_temporal_layer(
    codec: u32,
    payload: &[u8],
    layer: &mut TemporalLayerInfo,
) -> u32
    ensures tells { TellsLayerOf (temporal_layer (codec_numbered codec) payload.now) result layer.old layer.new }
    ensures unchanged { result ≢ 0 → layer.new ≡ layer.old }
{
    match temporal_layer(codec_of(codec), payload) {
        Some(told) => {
            *layer = TemporalLayerInfo {
                id: told.id,
                sync: told.sync,
            };
            status::OK
        }
        None => status::NONE,
    }
}
