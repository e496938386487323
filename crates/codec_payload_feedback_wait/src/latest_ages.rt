//! The ages at which the latest missing packets arrived.

ghost use Rattle.std.specs.Prelude.{◌≡◌};
ghost use Rattle.codec_payload_feedback_wait.specs.Ages.{ages_after_losses, ages_with, are_enough, greatest_of, no_ages};

use std::marker::Model;

/// How many ages are kept.
const MOST: usize = 32;

/// How many ages are known before the limit relies on them alone.
pub(crate) const ENOUGH: usize = 8;

/// The latest 32 ages, in ticks.
#[derive(Clone, Copy, Debug)]
pub(crate) struct LatestAges {
    /// A new age replaces the oldest. 0 until then.
    places: [u64; MOST],
    /// The index of the next one.
    next: usize,
    /// How many were noted; 8 also if more were.
    known: usize,
}

impl Model for LatestAges {
    ghost use Rattle.std.specs.Prelude.{◌≡◌, ◌<◌, ◌≤◌, length};
    ghost use Rattle.codec_payload_feedback_wait.specs.Ages.{Ages};

    ghost Value = { Ages };

    ghost view = { λ a. record { places = a.places; next = a.next; known = a.known } };

    ghost inverse = { λ a. record { places = a.places; next = a.next; known = a.known } };

    ghost invariant = { λ a. (length a.places ≡ 32) × (a.next < 32) × (a.known ≤ 8) };
}

impl LatestAges {
    /// Returns the state before the first age.
    pub(crate) fn none() -> LatestAges
        ensures { result ≡ no_ages }
    {
        LatestAges {
            places: [0; MOST],
            next: 0,
            known: 0,
        }
    }

    /// Notes an age in place of the oldest.
    pub(crate) fn note(&mut self, age: u64)
        ensures { self.new ≡ ages_with age self.old }
    {
        self.places[self.next] = age;
        self.next = (self.next + 1) % MOST;
        self.known = (self.known + 1).min(ENOUGH);
    }

    /// Notes an age of 0 for each lost packet.
    pub(crate) fn note_losses(&mut self, count: usize)
        ensures { self.new ≡ ages_after_losses count self.old }
    {
        for _ in 0..count {
            self.note(0);
        }
    }

    /// Returns the greatest age.
    pub(crate) fn greatest(&self) -> u64
        ensures { result ≡ greatest_of self.now.places }
    {
        let mut greatest = 0;
        for age in &self.places {
            greatest = greatest.max(*age);
        }
        greatest
    }

    /// Returns whether at least 8 ages were noted.
    pub(crate) fn are_enough(&self) -> bool
        ensures { result ≡ are_enough self.now }
    {
        self.known >= ENOUGH
    }
}
