//! Settings to begin with, by purpose. 1: live media whose lost packets are retransmitted; 2: packets from a file; any other
//! number: live media without retransmission.

ghost use Rattle.std.specs.Prelude.{◌≡◌, ◌≤◌, length, take};
ghost use Rattle.codec_payload_c_receiving.specs.Beginnings.{IsFeedback, Named, at_most, audio_limits, by_number, has_wide_windows, is_video, limits_by, live_adaptive_wait, name_fits, no_ids, receiver_that_waits, session_video_limits, video_limits};

use crate::adaptive_wait::AdaptiveWaitSettings;
use crate::receiver::{ReceiverSettings, WaitLimits};
use crate::session_settings::{SessionFeedback, SessionSettings};
use codec_payload_handle::extension_ids::ExtensionIds;
use codec_payload_handle::settings::Spec;

/// The purpose of live media whose lost packets are retransmitted.
const WITH_NACK: u32 = 1;

/// The purpose of packets from a file.
const FILE: u32 = 2;

/// The default for the largest number of packets that a stream holds.
pub const LIMIT: usize = 4_096;

/// The default for the largest number of bytes of a unit: 1 MiB.
pub const MAX_UNIT: usize = 1_048_576;

/// Ticks of milliseconds, in a second.
pub const MILLISECONDS: u32 = 1_000;

/// Units that a decoder cannot show are marked.
pub const MARK: u8 = 1;

/// Returns that no header extension has an id.
pub fn no_ids() -> ExtensionIds
    ensures { result ≡ no_ids }
{
    ExtensionIds {
        abs_capture_time: 0,
        video_orientation: 0,
        video_content_type: 0,
        video_timing: 0,
        layers_allocation: 0,
        audio_level: 0,
    }
}

/// Returns limits of frames that wait for at most that time.
fn at_most(start: usize, max_wait: u64) -> WaitLimits
    ensures { result ≡ at_most start max_wait }
{
    WaitLimits {
        max_wait,
        hold_back: usize::MAX,
        start,
        has_max_wait: true,
    }
}

/// Returns limits of frames that wait by number alone.
fn by_number() -> WaitLimits
    ensures { result ≡ by_number }
{
    WaitLimits {
        max_wait: 0,
        hold_back: usize::MAX,
        start: 0,
        has_max_wait: false,
    }
}

/// Returns how long frames of audio wait.
pub fn audio_limits(purpose: u32) -> WaitLimits
    ensures { result ≡ audio_limits purpose }
{
    if purpose == WITH_NACK {
        at_most(1, 200)
    } else if purpose == FILE {
        by_number()
    } else {
        at_most(1, 100)
    }
}

/// Returns how long frames of video wait.
fn video_limits(purpose: u32) -> WaitLimits
    ensures { result ≡ video_limits purpose }
{
    if purpose == WITH_NACK {
        at_most(2, 200)
    } else if purpose == FILE {
        by_number()
    } else {
        at_most(1, 100)
    }
}

/// Returns how long frames of video in a session wait.
pub fn session_video_limits(purpose: u32) -> WaitLimits
    ensures { result ≡ session_video_limits purpose }
{
    if purpose == FILE {
        by_number()
    } else {
        at_most(2, 200)
    }
}

/// Returns whether the codec with this number is one of video.
pub fn is_video(codec: u32) -> bool
    ensures { result ≡ is_video codec }
{
    codec == 9 || codec == 10 || codec == 11
}

/// Returns how long frames of video or audio wait.
pub fn limits_by(video: bool, purpose: u32) -> WaitLimits
    ensures { result ≡ limits_by video purpose }
{
    if video {
        video_limits(purpose)
    } else {
        audio_limits(purpose)
    }
}

/// Returns whether the windows are those of video.
pub fn has_wide_windows(codec: u32, purpose: u32) -> bool
    ensures { result ≡ has_wide_windows codec purpose }
{
    is_video(codec) || purpose == FILE
}

/// Returns settings of a receiver with these wait limits, and with the windows of video or audio.
pub fn receiver_that_waits(
    limits: WaitLimits,
    wide: bool,
    codec: u32,
    rate: u32,
    payload_type: u8,
) -> ReceiverSettings
    ensures { result ≡ receiver_that_waits limits wide codec rate payload_type }
{
    ReceiverSettings {
        spec: Spec {
            codec,
            rate,
            first_id: 0,
            octet_align: false,
            vp8_ids: false,
            vp9_flexible: false,
        },
        hold_back: limits.hold_back,
        start: limits.start,
        limit: LIMIT,
        max_unit: MAX_UNIT,
        max_wait: limits.max_wait,
        ssrc: 0,
        tick_rate: MILLISECONDS,
        red_step: 0,
        rtx_ssrc: 0,
        forward: if wide { 12_000 } else { 3_000 },
        backward: if wide { 5_000 } else { 1_000 },
        payload_type,
        red_payload_type: 0,
        rtx_payload_type: 0,
        red_rtx_payload_type: 0,
        from_keyframe: MARK,
        has_max_wait: limits.has_max_wait,
        has_ssrc: false,
        has_red: false,
        has_rtx: false,
        has_red_rtx: false,
        extension_ids: no_ids(),
        dependency_descriptor: 0,
    }
}

/// Returns the settings of requests for live media, without a name.
pub fn unnamed_feedback() -> SessionFeedback
    ensures { IsFeedback result }
{
    SessionFeedback {
        keyframe_interval: 100,
        silence: 2_000,
        first_wait: 10,
        retry: 100,
        shortest_retry: 20,
        longest_retry: 400,
        longest_wait: 1_500,
        report_interval: 1_000,
        max_report: 1_200,
        capacity: 1_024,
        tries: 6,
        ssrc: 0,
        cname: [0; 255],
        cname_len: 0,
        has_report: false,
        has_longest_wait: true,
        has_report_interval: true,
        extended: true,
    }
}

/// Returns whether the name has 1 to 255 bytes.
pub fn name_fits(cname: &[u8]) -> bool
    ensures { result ≡ name_fits cname.now }
{
    cname.len() >= 1 && cname.len() <= 255
}

/// Copies the name to the front of these bytes.
fn put_name(to: &mut [u8; 255], name: &[u8])
    requires { length name.now ≤ 255 }
    ensures { take (length name.now) to.new ≡ name.now }
{
    to[..name.len()].copy_from_slice(name);
}

/// Sets that the session sends feedback, with this SSRC and this name.
pub fn set_name(settings: &mut SessionSettings, ssrc: u32, cname: &[u8])
    requires { length cname.now ≤ 255 }
    ensures { Named ssrc cname.now settings.old settings.new }
{
    settings.has_feedback = true;
    settings.feedback.ssrc = ssrc;
    settings.feedback.cname_len = cname.len() as u8;
    put_name(&mut settings.feedback.cname, cname);
}

/// Returns how an adaptive wait begins.
pub fn live_adaptive_wait() -> AdaptiveWaitSettings
    ensures { result ≡ live_adaptive_wait }
{
    AdaptiveWaitSettings {
        shortest: 20,
        longest: 400,
        first: 200,
        lost_after: 1_000,
    }
}
