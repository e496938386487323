//! The codec-specific data of a unit.

ghost use Rattle.std.specs.Prelude.{◌≡◌};
ghost use Rattle.codec_payload_core.specs.declared.interface.CodecExtra.TheVariants as extras;
ghost use Rattle.codec_payload_handle.specs.Extras.{event_told, extra_told, layer_told, layers_told, nothing_told};

use codec_payload_core::codec::{CodecExtra, TelephoneEvent, Vp8CodecExtra, Vp9CodecExtra};

/// A report on a telephone event.
#[repr(C)]
#[derive(Clone, Copy)]
pub struct TeleEvent {
    /// The duration of the event so far, in nanoseconds.
    pub duration: u64,
    pub event: u8,
    /// The power of the tone, 0 to 63 for 0 to -63 dBm0.
    pub volume: u8,
    pub end: bool,
}

/// A spatial layer of VP9.
#[repr(C)]
#[derive(Clone, Copy)]
pub struct Vp9Layer {
    /// The end of its bytes in the bytes of the unit.
    pub end: usize,
    pub width: u16,
    pub height: u16,
    /// Whether the unit has this layer.
    pub has_end: bool,
    pub has_width: bool,
    pub has_height: bool,
}

/// The codec-specific data. Fields that `kind` does not have are 0.
#[repr(C)]
#[derive(Clone, Copy)]
pub struct Extra {
    /// For VP8 and VP9: the picture id, extended beyond the bits that were sent.
    pub picture_id: u64,
    /// For VP8 and VP9: the picture id of the base layer, extended in the same way.
    pub tl0_picture_id: u64,
    /// 0: no data; 1: VP8; 2: VP9; 3: AV1; 4: a telephone event.
    pub kind: u32,
    pub has_picture_id: bool,
    pub has_tl0_picture_id: bool,
    /// Whether there is a temporal layer; always true for VP8.
    pub has_temporal_layer: bool,
    /// For VP8 and VP9: the temporal layer.
    pub temporal_layer: u8,
    /// For VP8, VP9 and AV1: whether the frame can be decoded without any other frame.
    pub is_keyframe: bool,
    /// For VP8: whether no other frame depends on this one.
    pub discardable: bool,
    /// For VP8: whether this frame depends only on frames of the base layer.
    pub sync: bool,
    pub event: TeleEvent,
    pub layers: [Vp9Layer; 3],
}

/// Converts a report for C.
pub fn event_of(report: TelephoneEvent) -> TeleEvent
    ensures { result ≡ event_told report }
{
    TeleEvent {
        duration: report.duration,
        event: report.event,
        volume: report.volume,
        end: report.end,
    }
}

/// Converts a layer for C.
fn layer_of(end: Option<usize>, width: Option<u16>, height: Option<u16>) -> Vp9Layer
    ensures { result ≡ layer_told end width height }
{
    Vp9Layer {
        end: end.unwrap_or(0),
        width: width.unwrap_or(0),
        height: height.unwrap_or(0),
        has_end: end.is_some(),
        has_width: width.is_some(),
        has_height: height.is_some(),
    }
}

/// Converts the layers for C.
fn layers_of(extra: &Vp9CodecExtra) -> [Vp9Layer; 3]
    ensures { result ≡ layers_told extra.now.layers_scheme extra.now.layers_widths extra.now.layers_heights }
{
    let [end_0, end_1, end_2] = extra.layers_scheme;
    let [width_0, width_1, width_2] = extra.layers_widths;
    let [height_0, height_1, height_2] = extra.layers_heights;
    [
        layer_of(end_0, width_0, height_0),
        layer_of(end_1, width_1, height_1),
        layer_of(end_2, width_2, height_2),
    ]
}

/// Returns data without any values.
pub fn nothing() -> Extra
    ensures { result ≡ extra_told extras.None }
{
    let layer = layer_of(None, None, None);
    Extra {
        picture_id: 0,
        tl0_picture_id: 0,
        kind: 0,
        has_picture_id: false,
        has_tl0_picture_id: false,
        has_temporal_layer: false,
        temporal_layer: 0,
        is_keyframe: false,
        discardable: false,
        sync: false,
        event: TeleEvent {
            duration: 0,
            event: 0,
            volume: 0,
            end: false,
        },
        layers: [layer, layer, layer],
    }
}

/// Describes the data of VP8, in fields that are all 0.
fn tell_vp8(extra: &mut Extra, told: &Vp8CodecExtra)
    requires { extra.old ≡ nothing_told }
    ensures { extra.new ≡ extra_told (extras.Vp8 told.now) }
{
    extra.picture_id = told.picture_id.unwrap_or(0);
    extra.tl0_picture_id = told.tl0_picture_id.unwrap_or(0);
    extra.kind = 1;
    extra.has_picture_id = told.picture_id.is_some();
    extra.has_tl0_picture_id = told.tl0_picture_id.is_some();
    extra.has_temporal_layer = true;
    extra.temporal_layer = told.layer_index;
    extra.is_keyframe = told.is_keyframe;
    extra.discardable = told.discardable;
    extra.sync = told.sync;
}

/// Describes the data of VP9, in fields that are all 0.
fn tell_vp9(extra: &mut Extra, told: &Vp9CodecExtra)
    requires { extra.old ≡ nothing_told }
    ensures { extra.new ≡ extra_told (extras.Vp9 told.now) }
{
    extra.picture_id = told.picture_id.unwrap_or(0);
    extra.tl0_picture_id = told.tl0_picture_id.unwrap_or(0);
    extra.kind = 2;
    extra.has_picture_id = told.picture_id.is_some();
    extra.has_tl0_picture_id = told.tl0_picture_id.is_some();
    extra.has_temporal_layer = told.tid.is_some();
    extra.temporal_layer = told.tid.unwrap_or(0);
    extra.is_keyframe = told.is_keyframe;
    extra.layers = layers_of(told);
}

/// Describes the codec-specific data of a unit for C, in place of what `extra` has. Units of audio mostly have none.
#[inline(always)]
pub fn tell_extra(extra: &mut Extra, told: &CodecExtra)
    ensures { extra.new ≡ extra_told told.now }
{
    *extra = nothing();
    match told {
        CodecExtra::None => {}
        _ => tell_some(extra, told),
    }
}

/// Describes the codec-specific data, in fields that are all 0.
#[inline(never)]
fn tell_some(extra: &mut Extra, told: &CodecExtra)
    requires { extra.old ≡ nothing_told }
    ensures { extra.new ≡ extra_told told.now }
{
    match told {
        CodecExtra::None => {}
        CodecExtra::Vp8(told) => tell_vp8(extra, told),
        CodecExtra::Vp9(told) => tell_vp9(extra, told),
        CodecExtra::Av1(told) => {
            extra.kind = 3;
            extra.is_keyframe = told.is_keyframe;
        }
        CodecExtra::Tele(report) => {
            extra.kind = 4;
            extra.event = event_of(*report);
        }
    }
}
