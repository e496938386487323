//! Settings of a path and of a limit of retransmissions, from C.

ghost use Rattle.std.specs.Prelude.{◌≡◌};
ghost use Rattle.codec_payload_c_path.specs.Settings.{limit_defaults, limit_set, path_defaults, path_set};

use codec_payload_bandwidth_layers::chooser::LayerSettings;
use codec_payload_bandwidth_pacer::pacer::PacerSettings;
use codec_payload_bandwidth_pacer::resends::ResendSettings;
use codec_payload_bandwidth_path::path::PathSettings as Settings;

/// How the path to a viewer is used. Rates are in bits per second, times in microseconds.
#[repr(C)]
#[derive(Clone, Copy)]
pub struct PathSettings {
    /// The estimate of the path at the beginning.
    pub start: u64,
    /// No estimate is below this rate.
    pub least: u64,
    /// No estimate is above this rate.
    pub most: u64,
    /// The index of the choice of layers at the beginning.
    pub choice: usize,
    /// The most bytes that wait.
    pub bound: u64,
    /// How long the choice of layers does not rise after a fall.
    pub pause: u64,
    /// Half of the time whose sent bytes count for retransmissions.
    pub half_window: u64,
    /// In thousandths: the most bytes that are retransmitted, of those that are sent.
    pub share: u32,
    /// The bytes that may leave at once, before one packet more.
    pub burst: u32,
}

/// How much may be retransmitted to a viewer.
#[repr(C)]
#[derive(Clone, Copy)]
pub struct ResendLimitSettings {
    /// Half of the time whose sent bytes count, in ticks of the clock. 0 counts as 1.
    pub half_window: u64,
    /// In thousandths: the most bytes that are retransmitted, of those that are sent.
    pub share: u32,
}

/// Returns the defaults of a path.
pub fn path_defaults() -> PathSettings
    ensures { result ≡ path_defaults }
{
    let path = Settings::live();
    let pacer = PacerSettings::live();
    let resends = ResendSettings::live();
    let layers = LayerSettings::live();
    PathSettings {
        start: path.start,
        least: path.least,
        most: path.most,
        choice: path.choice,
        bound: pacer.bound,
        pause: layers.pause,
        half_window: resends.half_window,
        share: resends.share,
        burst: pacer.burst,
    }
}

/// Converts the settings of a path from C.
pub fn path_set(settings: &PathSettings) -> Settings
    ensures { result ≡ path_set settings.now }
{
    Settings {
        start: settings.start,
        least: settings.least,
        most: settings.most,
        choice: settings.choice,
        pacer: PacerSettings {
            burst: settings.burst,
            bound: settings.bound,
        },
        resends: ResendSettings {
            share: settings.share,
            half_window: settings.half_window,
        },
        layers: LayerSettings {
            pause: settings.pause,
        },
    }
}

/// Returns the defaults of a limit of retransmissions.
pub fn limit_defaults() -> ResendLimitSettings
    ensures { result ≡ limit_defaults }
{
    let resends = ResendSettings::live();
    ResendLimitSettings {
        half_window: resends.half_window,
        share: resends.share,
    }
}

/// Converts the settings of a limit of retransmissions from C.
pub fn limit_set(settings: &ResendLimitSettings) -> ResendSettings
    ensures { result ≡ limit_set settings.now }
{
    ResendSettings {
        share: settings.share,
        half_window: settings.half_window,
    }
}
