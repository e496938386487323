//! Values of RTP header extensions (RFC 8285). They are carried and never interpreted.

ghost use Rattle.std.specs.Prelude.{◌≡◌, ◌≤◌, ◌<◌, ◌↔◌, IsNone, IfSome, length};
ghost use Rattle.codec_payload_base.specs.Extensions.{no_values};
ghost use Rattle.codec_payload_base.specs.StrippedValues.{kept_if, stripped};

use std::fmt;
use std::marker::Model;

/// The values of the header extensions of a packet, or of all packets of a sample. `None`: the extension is absent.
#[derive(Clone, Copy, Debug, Default, PartialEq, Eq)]
pub struct ExtensionValues {
    /// When the frame was captured (abs-capture-time).
    pub abs_capture_time: Option<AbsCaptureTime>,
    /// The byte of the coordination of video orientation: camera, flip and rotation (3GPP TS 26.114, section 7.4.5).
    pub video_orientation: Option<u8>,
    /// The byte of video-content-type: 0 for a camera, 1 for a screen.
    pub video_content_type: Option<u8>,
    /// When the frame passed the stages of its sender (video-timing).
    pub video_timing: Option<VideoTiming>,
    /// The layers that are sent (video-layers-allocation).
    pub layers_allocation: Option<VideoLayersAllocation>,
    /// The level of the audio in dBov, 0 and below (RFC 6464).
    pub audio_level: Option<i8>,
    /// Whether the audio holds speech (RFC 6464).
    pub voice_activity: Option<bool>,
}

/// The value, if it goes along.
fn only_if<T: Drop>(goes: bool, value: Option<T>) -> Option<T>
    ensures { result ≡ kept_if goes value }
{
    if goes { value } else { None }
}

impl ExtensionValues {
    /// The values of a sample for packet `place` of `count`: capture time and layers allocation only on the first packet;
    /// orientation, content type and timing only on the last; all others on each.
    pub fn for_packet(&self, place: usize, count: usize) -> ExtensionValues
        requires { place < count }
        ensures { result ≡ stripped self.now place count }
    {
        let first = place == 0;
        let last = place + 1 == count;
        ExtensionValues {
            abs_capture_time: only_if(first, self.abs_capture_time),
            video_orientation: only_if(last, self.video_orientation),
            video_content_type: only_if(last, self.video_content_type),
            video_timing: only_if(last, self.video_timing),
            layers_allocation: only_if(first, self.layers_allocation),
            ..*self
        }
    }
}

/// No values at all, which is the default.
pub fn default_of_extension_values() -> ExtensionValues
    ensures { result ≡ no_values }
{
    ExtensionValues::default()
}

/// When a frame was captured, by the clock of the system that captured it.
#[derive(Clone, Copy, Debug, PartialEq, Eq)]
pub struct AbsCaptureTime {
    /// Seconds since 1900 in the high 32 bits, their fraction in the low 32.
    pub capture_time: u64,
    /// The offset to add to get the sender's clock, in the same unit; `None` if unknown.
    pub clock_offset: Option<i64>,
}

/// When a frame passed the stages of its sender, in milliseconds since it was captured.
#[derive(Clone, Copy, Debug, PartialEq, Eq)]
pub struct VideoTiming {
    /// Why the values are there: 1 for a timer, 2 for a frame of unusual size.
    pub flags: u8,
    /// When its encoding began.
    pub encode_start: u16,
    /// When its encoding ended.
    pub encode_finish: u16,
    /// When its last packet was made.
    pub packetize_complete: u16,
    /// When its last packet left the pacer.
    pub last_left_pacer: u16,
    /// When it passed a first point in the network.
    pub network_1: u16,
    /// When it passed a second point in the network.
    pub network_2: u16,
}

/// The bytes of a layers allocation, as in the header extension: at most 255, the limit of the two-byte header (RFC 8285, section
/// 4.3).
#[derive(Clone, Copy)]
pub struct VideoLayersAllocation {
    len: u8,
    /// The bytes, padded with zeros, so that equal bytes mean equal values.
    padded: [u8; 255],
}

impl Model for VideoLayersAllocation {
    ghost use Rattle.std.specs.Prelude.{◌≡◌, ℕ, ◌-◌, List, ◌++◌, length, take, replicate};

    ghost Value = { List ℕ };

    ghost view = { λ a. take a.len a.padded };

    ghost inverse = { λ bytes. record { len = length bytes; padded = bytes ++ replicate (255 - length bytes) 0 } };

    ghost invariant = { λ a. let bytes = take a.len a.padded in (length bytes ≡ a.len) × (bytes ++ replicate (255 - length bytes) 0 ≡ a.padded) };

    ghost inverse_ok = { λ a h i. record { len = h.0 i; padded = h.1 i } };
}

impl PartialEq for VideoLayersAllocation {
    ghost use Rattle.std.specs.Prelude.{nat_eq};
    ghost use Rattle.std.specs.Cmp.{partial_equiv_from_equiv};
    ghost use Rattle.std.specs.Cmp.Lexicographic.{nat_list_eq_equiv, pointwise};

    ghost eq = { pointwise nat_eq };

    ghost laws = { partial_equiv_from_equiv nat_list_eq_equiv };

    fn eq(&self, other: &Self) -> bool {
        self.bytes() == other.bytes()
    }
}

impl Eq for VideoLayersAllocation {
    ghost use Rattle.std.specs.Cmp.Lexicographic.{nat_list_eq_equiv};

    ghost laws = { nat_list_eq_equiv };
}

impl VideoLayersAllocation {
    /// The allocation that these bytes are, or `None` for more than 255 of them.
    pub fn new(bytes: &[u8]) -> Option<Self>
        ensures none { IsNone result ↔ (255 < length bytes.now) }
        ensures value { IfSome result (λ allocation. allocation ≡ bytes.now) }
    {
        let len = u8::try_from(bytes.len()).ok()?;
        let mut padded = [0; 255];
        padded[..bytes.len()].copy_from_slice(bytes);
        Some(VideoLayersAllocation { len, padded })
    }

    /// The bytes that it was made of.
    pub fn bytes(&self) -> &[u8]
        ensures value { result.now ≡ self.now }
        ensures few { length result.now ≤ 255 }
    {
        &self.padded[..usize::from(self.len)]
    }
}

/// Writes the bytes that it was made of.
impl fmt::Debug for VideoLayersAllocation {
    fn fmt<W: fmt::Write>(&self, f: &mut fmt::Formatter<W>) -> fmt::Result {
        f.debug_tuple("VideoLayersAllocation")
            .field(&self.bytes())
            .finish()
    }
}
