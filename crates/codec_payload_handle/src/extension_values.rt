//! Values of header extensions, for C.

ghost use Rattle.std.specs.Prelude.{◌≡◌};
ghost use Rattle.std.specs.Option.{option_or};
ghost use Rattle.codec_payload_core.specs.Release.{merged};
ghost use Rattle.codec_payload_handle.specs.HeaderValues.{capture_told, given, layers_len, layers_told, offset_of, timing_given, timing_told, values_given, values_told};

use codec_payload_core::wire::{
    AbsCaptureTime, ExtensionValues as Values, VideoLayersAllocation, VideoTiming as Timing,
};

/// The largest number of bytes of a layers allocation.
const MOST_LAYERS: usize = 255;

/// When a frame passed the stages of its sender, in milliseconds after its capture.
#[repr(C)]
#[derive(Clone, Copy)]
pub struct VideoTiming {
    pub encode_start: u16,
    pub encode_finish: u16,
    pub packetize_complete: u16,
    pub last_left_pacer: u16,
    pub network_1: u16,
    pub network_2: u16,
    /// The reason for the times: 1 for a timer, 2 for a frame of unusual size.
    pub flags: u8,
}

/// The values of header extensions of a frame. Each value has a flag that says whether it is set. In output, values that are
/// not set are 0. In input, they are ignored.
#[repr(C)]
#[derive(Clone, Copy)]
pub struct ExtensionValues {
    /// The capture time of the frame: seconds since 1900 in the high 32 bits, their fraction in the low 32 bits.
    pub abs_capture_time: u64,
    /// The offset to add to the capture time to get the sender's clock, in the same unit.
    pub clock_offset: i64,
    pub video_timing: VideoTiming,
    pub video_orientation: u8,
    pub video_content_type: u8,
    /// The audio level in dBov, 0 to -127.
    pub audio_level: i8,
    /// The number of bytes of the layers allocation in `layers_allocation`.
    pub layers_allocation_len: u8,
    pub layers_allocation: [u8; 255],
    pub has_abs_capture_time: bool,
    /// Whether `clock_offset` is set; it goes with `abs_capture_time`.
    pub has_clock_offset: bool,
    pub has_video_timing: bool,
    pub has_video_orientation: bool,
    pub has_video_content_type: bool,
    pub has_audio_level: bool,
    pub has_layers_allocation: bool,
    pub has_voice_activity: bool,
    /// Whether there is voice activity.
    pub voice_activity: bool,
}

/// Returns the value, if its flag is set.
fn given<T: Drop>(is_given: bool, value: T) -> Option<T>
    ensures { result ≡ given is_given value }
{
    if is_given { Some(value) } else { None }
}

/// Converts the times of stages from C.
fn timing_from(timing: VideoTiming) -> Timing
    ensures { result ≡ timing_given timing }
{
    Timing {
        flags: timing.flags,
        encode_start: timing.encode_start,
        encode_finish: timing.encode_finish,
        packetize_complete: timing.packetize_complete,
        last_left_pacer: timing.last_left_pacer,
        network_1: timing.network_1,
        network_2: timing.network_2,
    }
}

/// Converts the values from C.
pub fn values_from(values: &ExtensionValues) -> Values
    ensures { result ≡ values_given values.now }
{
    let len = usize::from(values.layers_allocation_len);
    let layers = VideoLayersAllocation::new(&values.layers_allocation[..len]);
    Values {
        abs_capture_time: given(
            values.has_abs_capture_time,
            AbsCaptureTime {
                capture_time: values.abs_capture_time,
                clock_offset: given(values.has_clock_offset, values.clock_offset),
            },
        ),
        video_orientation: given(values.has_video_orientation, values.video_orientation),
        video_content_type: given(values.has_video_content_type, values.video_content_type),
        video_timing: given(values.has_video_timing, timing_from(values.video_timing)),
        layers_allocation: if values.has_layers_allocation {
            layers
        } else {
            None
        },
        audio_level: given(values.has_audio_level, values.audio_level),
        voice_activity: given(values.has_voice_activity, values.voice_activity),
    }
}

/// Converts the times of stages for C; 0 if there are none.
fn timing_of(timing: Option<Timing>) -> VideoTiming
    ensures { result ≡ timing_told timing }
{
    match timing {
        Some(timing) => VideoTiming {
            encode_start: timing.encode_start,
            encode_finish: timing.encode_finish,
            packetize_complete: timing.packetize_complete,
            last_left_pacer: timing.last_left_pacer,
            network_1: timing.network_1,
            network_2: timing.network_2,
            flags: timing.flags,
        },
        None => VideoTiming {
            encode_start: 0,
            encode_finish: 0,
            packetize_complete: 0,
            last_left_pacer: 0,
            network_1: 0,
            network_2: 0,
            flags: 0,
        },
    }
}

/// Returns the number of bytes of a layers allocation, and the bytes with zeros after them.
fn layers_of(layers: &Option<VideoLayersAllocation>) -> (u8, [u8; 255])
    ensures len { result.0 ≡ layers_len layers.now }
    ensures bytes { result.1 ≡ layers_told layers.now }
{
    let mut padded = [0; MOST_LAYERS];
    let Some(layers) = layers else {
        return (0, padded);
    };
    let bytes = layers.bytes();
    padded[..bytes.len()].copy_from_slice(bytes);
    (bytes.len() as u8, padded)
}

/// Converts the capture time for C; 0 if there is none.
fn capture_of(time: Option<AbsCaptureTime>) -> u64
    ensures { result ≡ capture_told time }
{
    match time {
        Some(time) => time.capture_time,
        None => 0,
    }
}

/// Returns the offset of the clock, if there is one.
fn offset_of(time: Option<AbsCaptureTime>) -> Option<i64>
    ensures { result ≡ offset_of time }
{
    match time {
        Some(time) => time.clock_offset,
        None => None,
    }
}

/// Converts the values for C, with this capture time and this layers allocation in place of those of the values.
fn values_with(
    time: Option<AbsCaptureTime>,
    layers: &Option<VideoLayersAllocation>,
    values: &Values,
) -> ExtensionValues
    ensures { result ≡ values_told (record values.now { abs_capture_time = time; layers_allocation = layers.now }) }
{
    let offset = offset_of(time);
    let (layers_allocation_len, layers_allocation) = layers_of(layers);
    ExtensionValues {
        abs_capture_time: capture_of(time),
        clock_offset: offset.unwrap_or(0),
        video_timing: timing_of(values.video_timing),
        video_orientation: values.video_orientation.unwrap_or(0),
        video_content_type: values.video_content_type.unwrap_or(0),
        audio_level: values.audio_level.unwrap_or(0),
        layers_allocation_len,
        layers_allocation,
        has_abs_capture_time: time.is_some(),
        has_clock_offset: offset.is_some(),
        has_video_timing: values.video_timing.is_some(),
        has_video_orientation: values.video_orientation.is_some(),
        has_video_content_type: values.video_content_type.is_some(),
        has_audio_level: values.audio_level.is_some(),
        has_layers_allocation: layers.is_some(),
        has_voice_activity: values.voice_activity.is_some(),
        voice_activity: values.voice_activity.unwrap_or(false),
    }
}

/// Converts the values for C.
pub fn values_of(values: &Values) -> ExtensionValues
    ensures told { result ≡ values_told values.now }
    // Converted back, the values are the same.
    ensures comes_back { values_given result ≡ values.now }
{
    values_with(values.abs_capture_time, &values.layers_allocation, values)
}

/// Returns the first value, or the second one if the first is missing.
fn either<'a>(
    first: &'a Option<VideoLayersAllocation>,
    last: &'a Option<VideoLayersAllocation>,
) -> &'a Option<VideoLayersAllocation>
    ensures { result.now ≡ option_or first.now last.now }
{
    match first {
        Some(_) => first,
        None => last,
    }
}

/// Converts the values of a unit for C, from the values of its first and last packet, without a copy of them.
pub fn values_between(first: &Values, last: &Values) -> ExtensionValues
    ensures { result ≡ values_told (merged first.now last.now) }
{
    let time = first.abs_capture_time.or(last.abs_capture_time);
    let layers = either(&first.layers_allocation, &last.layers_allocation);
    values_with(time, layers, last)
}
