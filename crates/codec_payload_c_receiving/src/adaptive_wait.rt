//! Limits of waiting that follow how late missing packets arrive.

ghost use Rattle.std.specs.Prelude.{◌≡◌};
ghost use Rattle.codec_payload_c_receiving.specs.AdaptiveWaits.{after_all_missing, settings_given};

use codec_payload_core::wire::Ticks;
use codec_payload_feedback_wait::adaptive_wait::{AdaptiveWait, AdaptiveWaitSettings as Settings};

/// Within which bounds a limit moves, in ticks of your clock. Any values may be given.
#[repr(C)]
#[derive(Clone, Copy)]
pub struct AdaptiveWaitSettings {
    /// The lowest limit.
    pub shortest: u64,
    /// The highest limit. If it is below `shortest` or `first`, it wins.
    pub longest: u64,
    /// The lowest limit while fewer than 8 missing packets arrived or were lost.
    pub first: u64,
    /// A packet that is missing for this number of ticks is lost.
    pub lost_after: u64,
}

/// Converts the settings of C.
pub fn bounds_of(settings: &AdaptiveWaitSettings) -> Settings
    ensures { result ≡ settings_given settings.now }
{
    Settings {
        shortest: settings.shortest,
        longest: settings.longest,
        first: settings.first,
        lost_after: settings.lost_after,
    }
}

/// Records that the packets with these extended numbers are missing, one after another.
pub fn note_missing(wait: &mut AdaptiveWait, now: u64, numbers: &[u64])
    ensures { wait.new ≡ after_all_missing now numbers.now wait.old }
{
    for number in numbers {
        wait.missing(Ticks(now), *number);
    }
}
