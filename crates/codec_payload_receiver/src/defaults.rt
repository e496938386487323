//! Settings by purpose.

ghost use Rattle.std.specs.Prelude.{◌≡◌};
ghost use Rattle.codec_payload_jitter.specs.Waiting.{waits_by_number, waits_for};
ghost use Rattle.codec_payload_receiver.specs.Defaults.{HasDefaults, audio_windows, video_windows, windows_of};

use crate::receiver::Settings;
use codec_payload_base::wire::{Codec, Frequency};
use codec_payload_jitter::jitter::WaitLimits;
use codec_payload_keyframes::gate::is_video;
use codec_payload_keyframes::unit_gate::FromKeyframe;
use codec_payload_numbers::windows::Windows;
use codec_payload_rtp::values::ExtensionIds;
use std::alloc::Global;

/// The largest number of packets that a receiver with default settings holds.
const LIMIT: usize = 4_096;

/// The largest number of bytes of a unit that a receiver with default settings releases: 1 MiB.
const MAX_UNIT: usize = 1_048_576;

/// Windows for packets of 20 ms or more: the backward window holds at least 5 s, the forward window more than twice as many
/// packets.
const AUDIO: Windows = Windows {
    forward: 3_000,
    backward: 1_000,
};

/// The same for 1,000 packets per second.
const VIDEO: Windows = Windows {
    forward: 12_000,
    backward: 5_000,
};

impl Settings {
    /// Returns settings for a live stream of this codec without retransmission: for VP8, VP9 and AV1 those of
    /// [`Settings::live_video`], and else those of [`Settings::live_audio`]. `payload_type` is 0 to 127, and `clock_rate` is the
    /// rate of the RTP clock. Allocates nothing.
    pub fn for_stream(
        alloc: Global,
        payload_type: u8,
        codec: Codec,
        clock_rate: Frequency,
    ) -> Settings
        ensures { HasDefaults payload_type clock_rate (waits_for 1 100) (windows_of codec) result }
    {
        if is_video(codec) {
            Settings::live_video(alloc, payload_type, clock_rate)
        } else {
            Settings::live_audio(alloc, payload_type, clock_rate)
        }
    }

    /// Returns settings for live audio without retransmission. `payload_type` is 0 to 127, and `clock_rate` is the rate of the
    /// RTP clock.
    ///
    /// A lost packet delays frames by at most 100 ms. The windows are 3,000 packets ahead and 1,000 behind. For more than 200
    /// packets per second set the windows of [`Windows::for_rate`].
    ///
    /// All constructors set these defaults; all fields are public, so change what differs:
    ///
    /// - `ssrc` is `None`: two packets choose the stream.
    /// - There is no RED, no retransmission, no payload type without media, and no id of a header extension.
    /// - `limit` is 4,096 packets, and `max_unit` 1,048,576 bytes.
    /// - Your clock has ticks of milliseconds.
    /// - Units of video are marked as decodable or not.
    ///
    /// Allocates nothing.
    ///
    /// [`Windows::for_rate`]: codec_payload_numbers::windows::Windows::for_rate
    pub fn live_audio(alloc: Global, payload_type: u8, clock_rate: Frequency) -> Settings
        ensures { HasDefaults payload_type clock_rate (waits_for 1 100) audio_windows result }
    {
        Settings::with_defaults(alloc, payload_type, clock_rate, WaitLimits::live(), AUDIO)
    }

    /// Returns settings for live audio with NACK (RFC 4585): a lost packet delays frames by at most 200 ms. The rest is as in
    /// [`Settings::live_audio`].
    pub fn live_audio_with_nack(alloc: Global, payload_type: u8, clock_rate: Frequency) -> Settings
        ensures { HasDefaults payload_type clock_rate (waits_for 1 200) audio_windows result }
    {
        Settings::with_defaults(
            alloc,
            payload_type,
            clock_rate,
            WaitLimits::live_with_nack(),
            AUDIO,
        )
    }

    /// Returns settings for live video without retransmission: a lost packet delays frames by at most 100 ms. The windows are
    /// 12,000 packets ahead and 5,000 behind. For more than 1,000 packets per second set the windows of [`Windows::for_rate`].
    /// The rest is as in [`Settings::live_audio`].
    ///
    /// [`Windows::for_rate`]: codec_payload_numbers::windows::Windows::for_rate
    pub fn live_video(alloc: Global, payload_type: u8, clock_rate: Frequency) -> Settings
        ensures { HasDefaults payload_type clock_rate (waits_for 1 100) video_windows result }
    {
        Settings::with_defaults(alloc, payload_type, clock_rate, WaitLimits::live(), VIDEO)
    }

    /// Returns settings for live video with NACK: a lost packet delays frames by at most 200 ms. The first frame waits for two
    /// more frames, or 200 ms. The rest is as in [`Settings::live_video`].
    pub fn live_video_with_nack(alloc: Global, payload_type: u8, clock_rate: Frequency) -> Settings
        ensures { HasDefaults payload_type clock_rate (waits_for 2 200) video_windows result }
    {
        Settings::with_defaults(
            alloc,
            payload_type,
            clock_rate,
            WaitLimits::live_video_with_nack(),
            VIDEO,
        )
    }

    /// Returns settings for packets from a file, audio or video: a frame behind a gap waits for the missing packets, without a
    /// time limit, until [`Receiver::finish`]. The windows are the same as for video. The rest is as in
    /// [`Settings::live_audio`].
    ///
    /// [`Receiver::finish`]: crate::receiver::Receiver::finish
    pub fn file(alloc: Global, payload_type: u8, clock_rate: Frequency) -> Settings
        ensures { HasDefaults payload_type clock_rate waits_by_number video_windows result }
    {
        Settings::with_defaults(alloc, payload_type, clock_rate, WaitLimits::file(), VIDEO)
    }

    /// Returns settings with these wait limits and windows, and defaults for the rest.
    fn with_defaults(
        alloc: Global,
        payload_type: u8,
        clock_rate: Frequency,
        wait_limits: WaitLimits,
        windows: Windows,
    ) -> Settings
        ensures { HasDefaults payload_type clock_rate wait_limits windows result }
    {
        Settings {
            payload_type,
            no_media: Vec::new(alloc),
            ssrc: None,
            red: None,
            retransmission: None,
            extension_ids: ExtensionIds::default(),
            clock_rate,
            tick_rate: milliseconds(),
            wait_limits,
            limit: LIMIT,
            forward: windows.forward,
            backward: windows.backward,
            from_keyframe: FromKeyframe::Mark,
            max_unit: Some(MAX_UNIT),
            dependency_descriptor: None,
        }
    }
}

/// Returns the rate of a clock with ticks of milliseconds.
fn milliseconds() -> Frequency
    ensures { result ≡ 1000 }
{
    Frequency::make(1_000).unwrap()
}
