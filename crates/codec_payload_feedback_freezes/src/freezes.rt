//! Freezes of a video as its viewer sees it, by the rule of the W3C.

ghost use Rattle.std.specs.Prelude.{◌≡◌, ◌∷◌, ◌*◌, ◌^◌, ◌≤◌, ℕ, List, [], take};
ghost use Rattle.codec_payload_feedback_freezes.specs.Freezes.{after_duration, after_frame, ends_freeze, is_frozen, noted, watched};
ghost use Rattle.codec_payload_feedback_freezes.specs.Rule.{FitsTheTime, total};

use codec_payload_base::wire::{Frequency, Ticks};
use std::marker::Model;

/// How many durations are averaged.
const AVERAGED: usize = 30;

/// What a [`Freezes`] counted. Each is modulo 2^64.
#[derive(Clone, Copy, Debug, PartialEq, Eq)]
pub struct FreezeCounts {
    /// How many frames were frozen: `freezeCount` of the W3C.
    pub freezes: u64,
    /// How long these frames were shown, in ticks: `totalFreezesDuration` of the W3C, which has it in seconds.
    pub frozen: u64,
}

/// Counts the freezes of a video (W3C, Identifiers for WebRTC's Statistics API, `freezeCount` and `totalFreezesDuration`).
///
/// The duration of a frame is the time until the next one is shown. It is a freeze if it is at least three times the average, and at
/// least 150 ms above the average. The average is over the durations of the last 30 frames, with the one that is judged; of the
/// first frames, over those that there are.
///
/// Call [`Freezes::shown`] for each frame when it is shown, or when your receiver releases it. Any times may be given: after a time
/// below the one before, the duration is 0. It takes about 300 bytes. No call allocates.
#[derive(Clone, Copy, Debug)]
pub struct Freezes {
    /// The ticks per second of the caller's clock.
    tick_rate: Frequency,
    /// When the latest frame was shown.
    last: Option<u64>,
    /// The durations, the latest first. 0 where there was none.
    latest: [u64; AVERAGED],
    /// How many of them there are.
    known: usize,
    counts: FreezeCounts,
}

impl Model for Freezes {
    ghost use Rattle.std.specs.Prelude.{◌≡◌, ◌≤◌, length};
    ghost use Rattle.codec_payload_feedback_freezes.specs.Freezes.{Watched};

    ghost Value = { Watched };

    ghost view = { λ f. record { tick_rate = f.tick_rate; last = f.last; latest = f.latest; known = f.known; counts = f.counts } };

    ghost inverse = { λ f. record { tick_rate = f.tick_rate; last = f.last; latest = f.latest; known = f.known; counts = f.counts } };

    ghost invariant = { λ f. (length f.latest ≡ 30) × (f.known ≤ 30) };
}

impl Freezes {
    /// Returns the state before the first frame. `tick_rate` is the number of ticks per second of your clock.
    pub fn new(tick_rate: Frequency) -> Freezes
        ensures { result ≡ watched tick_rate [] }
    {
        Freezes {
            tick_rate,
            last: None,
            latest: [0; AVERAGED],
            known: 0,
            counts: FreezeCounts {
                freezes: 0,
                frozen: 0,
            },
        }
    }

    /// Records that a frame is shown at this time. Returns whether the frame before was frozen until now.
    pub fn shown(&mut self, at: Ticks) -> bool
        ensures state { self.new ≡ after_frame at.0 self.old }
        ensures answer { result ≡ ends_freeze at.0 self.old }
        // After frames at any times, one more leaves what the rule says of all times.
        ensures follows { (rate : ℕ) (times : List ℕ) → self.old ≡ watched rate times → self.new ≡ watched rate (at.0 ∷ times) }
    {
        let before = self.last;
        self.last = Some(at.0);
        match before {
            Some(before) => self.count(at.0.saturating_sub(before)),
            None => false,
        }
    }

    /// Returns the counts.
    pub fn counts(&self) -> FreezeCounts
        ensures { result ≡ self.now.counts }
    {
        self.counts
    }

    /// Counts a frame that was shown for this long. Returns whether it was frozen.
    fn count(&mut self, duration: u64) -> bool
        ensures state { self.new ≡ after_duration duration self.old }
        ensures answer { result ≡ is_frozen (noted duration self.old) duration }
    {
        self.note(duration);
        let frozen = self.is_frozen(duration);
        if frozen {
            self.counts = FreezeCounts {
                freezes: self.counts.freezes.wrapping_add(1),
                frozen: self.counts.frozen.wrapping_add(duration),
            };
        }
        frozen
    }

    /// Notes a duration, in place of the oldest.
    fn note(&mut self, duration: u64)
        ensures { self.new ≡ noted duration self.old }
    {
        self.latest.copy_within(0..AVERAGED - 1, 1);
        self.latest[0] = duration;
        self.known = (self.known + 1).min(AVERAGED);
    }

    /// Returns whether a duration is a freeze, by the average of the durations.
    fn is_frozen(&self, duration: u64) -> bool
        ensures { result ≡ is_frozen self.now duration }
    {
        let total = total(&self.latest);
        let count = self.known as u128;
        let rate = u128::from(self.tick_rate.get());
        let duration = u128::from(duration);
        3 * total <= count * duration && 20 * total + 3 * rate * count <= 20 * count * duration
    }
}

/// Returns the sum of the durations.
fn total(durations: &[u64; AVERAGED]) -> u128
    ensures value { result ≡ total durations.now }
    ensures few { result ≤ 30 * 2 ^ 64 }
{
    let mut total = 0;
    for duration in durations {
        total += u128::from(*duration);
    }
    total
}

/// Proves that the duration of all freezes is exact while the clock does not go back. This function does nothing else.
pub fn freezes_fit_the_time()
    ensures fits { FitsTheTime }
{}
