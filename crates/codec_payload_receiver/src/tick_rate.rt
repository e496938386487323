//! Settings for a clock with another number of ticks per second.

ghost use Rattle.std.specs.Prelude.{◌≡◌};
ghost use Rattle.std.specs.Option.{option_map};
ghost use Rattle.codec_payload_receiver.specs.TickRates.{limits_at, receiver_at, ticks_at};

use crate::receiver::Settings;
use codec_payload_base::wire::Frequency;
use codec_payload_jitter::jitter::WaitLimits;

/// Returns a time of so many ticks of a clock with `before` ticks per second, by a clock with `after` ticks per second: rounded up to
/// whole ticks, and at most 2^64 - 1.
pub fn ticks_at(before: Frequency, after: Frequency, ticks: u64) -> u64
    ensures { result ≡ ticks_at before after ticks }
{
    let before = u128::from(before.get());
    let exact = (u128::from(ticks) * u128::from(after.get()) + (before - 1)) / before;
    exact.min(u128::from(u64::MAX)) as u64
}

/// Returns the same time, if there is one.
pub fn ticks_at_if(before: Frequency, after: Frequency, ticks: Option<u64>) -> Option<u64>
    ensures { result ≡ option_map (ticks_at before after) ticks }
{
    match ticks {
        Some(ticks) => Some(ticks_at(before, after, ticks)),
        None => None,
    }
}

/// Returns the same limits by the other clock.
pub fn limits_at(before: Frequency, after: Frequency, limits: WaitLimits) -> WaitLimits
    ensures { result ≡ limits_at before after limits }
{
    WaitLimits {
        max_wait: ticks_at_if(before, after, limits.max_wait),
        ..limits
    }
}

impl Settings {
    /// Sets the number of ticks per second of your clock. The time for which a frame waits stays the same: `max_wait` gets that many ticks of
    /// the new clock, rounded up, and at most 2^64 - 1. So settings by purpose, which are for a clock of milliseconds, serve each clock.
    pub fn set_tick_rate(&mut self, tick_rate: Frequency)
        ensures { self.new ≡ receiver_at tick_rate self.old }
    {
        self.wait_limits = limits_at(self.tick_rate, tick_rate, self.wait_limits);
        self.tick_rate = tick_rate;
    }
}
