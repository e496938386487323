//! The windows of a receiver, by how many packets arrive each second.

ghost use Rattle.std.specs.Prelude.{◌≡◌, ◌+◌, ◌*◌, ◌<◌, ◌≤◌};
ghost use Rattle.codec_payload_numbers.specs.Windows.{windows_for};

/// The windows contain the packets of 5 s behind, and of 12 s ahead.
const SECONDS_BEHIND: u16 = 5;

const SECONDS_AHEAD: u16 = 12;
/// At 200 packets per second or fewer: the windows of audio.
const LEAST_BEHIND: u16 = 1_000;

const LEAST_AHEAD: u16 = 3_000;
/// At this rate the forward window is 32,760; a receiver accepts at most 32,768.
const GREATEST_RATE: u32 = 2_730;

/// How far ahead of the highest number a packet may be, and how far behind it: `forward` and `backward` of a receiver's
/// settings.
#[derive(Clone, Copy, Debug, PartialEq, Eq)]
pub struct Windows {
    pub forward: u16,
    pub backward: u16,
}

impl Windows {
    /// Returns the windows for a stream of at most `packets_per_second`: 5 s of packets behind and 12 s ahead. They are at
    /// least 1,000 behind and 3,000 ahead, and at most 13,650 and 32,760 (2,730 packets per second). 1,000 packets per second
    /// give the windows of video.
    ///
    /// A burst of packets that is late by more than the backward window is reported as a restart. So use the highest rate of
    /// the stream, not its average. A receiver accepts all windows that this call returns. A restart more than 5,120 numbers
    /// behind is found later, when the new numbers are less far behind.
    pub fn for_rate(packets_per_second: u32) -> Windows
        ensures value { result ≡ windows_for packets_per_second }
        // A receiver accepts them, and the forward window is more than twice the backward window.
        ensures accepted { (2 * result.backward < result.forward) × (result.forward ≤ 32768) }
    {
        let rate = packets_per_second.min(GREATEST_RATE) as u16;
        Windows {
            forward: (SECONDS_AHEAD * rate).max(LEAST_AHEAD),
            backward: (SECONDS_BEHIND * rate).max(LEAST_BEHIND),
        }
    }
}
