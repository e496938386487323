//! The rate that a path is taken to carry, and a trial of a higher one.

ghost use Rattle.std.specs.Prelude.{◌≡◌, ◌≤◌, ◌*◌, ◌/◌};
ghost use Rattle.codec_payload_bandwidth_estimate.specs.Rates.{fallen, halved, new_rate, raised, settled, trial_rate_at};

use codec_payload_base::wire::Ticks;
use std::marker::Model;

/// How long a trial goes up, in microseconds.
const RAMP: u64 = 500_000;

/// The rate that a path is taken to carry, in bits per second. It always lies within its bounds, whatever feedback says.
///
/// It rises by [`PathRate::raise`], after a trial that ended well, and falls to what a full link carries. No call allocates.
#[derive(Clone, Copy, Debug)]
pub struct PathRate {
    least: u64,
    most: u64,
    estimate: u64,
}

impl Model for PathRate {
    ghost use Rattle.std.specs.Prelude.{◌≤◌};
    ghost use Rattle.codec_payload_bandwidth_estimate.specs.Rates.{Rate};

    ghost Value = { Rate };

    ghost view = { λ r. record { least = r.least; most = r.most; estimate = r.estimate } };

    ghost inverse = { λ r. record { least = r.least; most = r.most; estimate = r.estimate } };

    ghost invariant = { λ r. (r.least ≤ r.estimate) × (r.estimate ≤ r.most) };
}

impl PathRate {
    /// Begins with `start`, within `least` and `most`. If `most` is below `least`, `least` is the most too.
    pub fn new(start: u64, least: u64, most: u64) -> PathRate
        ensures { result ≡ new_rate start least most }
    {
        let most = most.max(least);
        PathRate {
            least,
            most,
            estimate: start.max(least).min(most),
        }
    }

    /// Returns the rate.
    pub fn estimate(&self) -> u64
        ensures value { result ≡ self.now.estimate }
        ensures least { self.now.least ≤ result }
        ensures most { result ≤ self.now.most }
    {
        self.estimate
    }

    /// A trial of this rate ended well: the rate is at least this one, up to the most.
    pub fn raise(&mut self, to: u64)
        ensures { self.new ≡ raised to self.old }
    {
        self.estimate = self.estimate.max(to).min(self.most);
    }

    /// Packets wait in a queue, and `found` is what the link carries: the rate falls to it, at most to a quarter, and never rises.
    pub fn fall(&mut self, found: u64)
        ensures { self.new ≡ fallen found self.old }
    {
        let lower = found.max(self.estimate / 4).min(self.estimate);
        self.estimate = lower.max(self.least);
    }

    /// Packets wait in a queue in a trial of the rate `to`, and `found` is what the link carries: what was shown before stays, and the rate
    /// rises to what the link carries beyond, at most to that of the trial.
    pub fn settle(&mut self, found: u64, to: u64)
        ensures { self.new ≡ settled found to self.old }
    {
        let higher = found.min(to).max(self.estimate);
        self.estimate = higher.min(self.most);
    }

    /// No feedback comes: the rate falls to half, down to the least.
    pub fn halve(&mut self)
        ensures { self.new ≡ halved self.old }
    {
        self.estimate = (self.estimate / 2).max(self.least);
    }
}

/// A trial: padding fills what is sent up to a rate that rises from `from` to `to` in 500 ms, and stays there. Rates are in bits per
/// second.
#[derive(Clone, Copy, Debug, PartialEq, Eq)]
pub struct Trial {
    /// When it began, in microseconds.
    pub begun: Ticks,
    pub from: u64,
    pub to: u64,
}

impl Trial {
    /// Returns the rate of the trial at a time. If `to` is below `from`, it is `from`.
    pub fn rate(&self, now: Ticks) -> u64
        ensures value { result ≡ trial_rate_at now.0 self.now.begun.0 self.now.from self.now.to }
        ensures least { self.now.from ≤ result }
        ensures most { self.now.from ≤ self.now.to → result ≤ self.now.to }
    {
        let passed = now.0.saturating_sub(self.begun.0).min(RAMP);
        self.from + risen(self.to.saturating_sub(self.from), passed)
    }
}

/// Returns the part of a rise that a part of the ramp makes.
fn risen(rise: u64, passed: u64) -> u64
    requires { passed ≤ 500000 }
    ensures value { result ≡ rise * passed / 500000 }
    ensures most { result ≤ rise }
{
    (u128::from(rise) * u128::from(passed) / u128::from(RAMP)) as u64
}
