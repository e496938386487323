//! Which layers a viewer gets: down at once, up by a margin, and not soon after a fall.

ghost use Rattle.std.specs.Prelude.{◌≡◌, ◌<◌, ◌≤◌, length};
ghost use Rattle.codec_payload_bandwidth_layers.specs.Choices.{after_choice, choice_of, held_of, is_carried, needs, new_chooser, trial_rate, wanted_of};

use codec_payload_base::wire::Ticks;
use std::marker::Model;

/// One choice of what a viewer gets: for example a size of simulcast, how many temporal layers of it, and whether audio comes with RED.
#[derive(Clone, Copy, Debug, PartialEq, Eq)]
pub struct LayerChoice {
    /// The rate of all that is sent with it, in bits per second, as you measure it.
    pub rate: u64,
    /// The least rate to begin it, in bits per second: where it begins with a keyframe, the rate that carries the keyframe soon enough,
    /// for example in 200 ms. 0 if it begins without one.
    pub begin: u64,
}

/// How a [`LayerChooser`] chooses.
#[derive(Clone, Copy, Debug, PartialEq, Eq)]
pub struct LayerSettings {
    /// How many ticks have to pass after a fall before the choice rises. 2,000,000 by default: two seconds, in microseconds.
    pub pause: u64,
}

impl LayerSettings {
    /// Returns the defaults, for a clock in microseconds.
    pub fn live() -> LayerSettings
        ensures { result ≡ record { pause = 2000000 } }
    {
        LayerSettings { pause: 2_000_000 }
    }
}

/// Returns what has to be carried to take a choice: its rate and a margin of 5 percent, and what it needs to begin.
fn needs(choice: &LayerChoice) -> u128
    ensures { result ≡ needs choice.now }
{
    (u128::from(choice.rate) * 105 / 100).max(u128::from(choice.begin))
}

/// Returns what a trial is to reach for a choice, in bits per second: 8 percent above its rate, or 3 percent above what it needs to begin.
pub fn trial_rate(choice: &LayerChoice) -> u64
    ensures { result ≡ trial_rate choice.now }
{
    let rate = (u128::from(choice.rate) * 108 / 100).max(u128::from(choice.begin) * 108 / 105);
    rate.min(u128::from(u64::MAX)) as u64
}

/// Returns whether a path that carries this rate carries a choice: one up to the current choice by its rate alone.
fn is_carried(current: usize, carries: u64, index: usize, choice: &LayerChoice) -> bool
    ensures { result ≡ is_carried current carries index choice.now }
{
    (index <= current && choice.rate <= carries) || needs(choice) <= u128::from(carries)
}

/// Returns the index of the choice that a viewer gets, if its path carries `carries` bits per second and the current choice has the index
/// `current`: the highest one that is carried, or 0. A choice up to the current one is carried if its rate is at most `carries`, and a
/// higher one if its rate and 5 percent are, and if it can begin. Does not allocate.
pub fn choose(current: usize, carries: u64, choices: &[LayerChoice]) -> usize
    ensures value { result ≡ choice_of current carries choices.now }
    ensures within { 0 < length choices.now → result < length choices.now }
{
    let mut best = 0;
    for (index, choice) in choices.iter().enumerate() {
        if is_carried(current, carries, index, choice) {
            best = index;
        }
    }
    best
}

/// The choice of a viewer, which falls at once, and does not rise soon after a fall.
///
/// List the choices from the lowest to the highest. Hand [`LayerChooser::choose`] what your estimate of the path leaves for first
/// transmissions. Does not allocate.
#[derive(Clone, Copy, Debug, PartialEq, Eq)]
pub struct LayerChooser {
    pause: u64,
    current: usize,
    /// The choice does not rise before that time.
    rises_from: u64,
}

impl LayerChooser {
    /// Returns a chooser that begins with this choice.
    pub fn new(settings: LayerSettings, current: usize) -> LayerChooser
        ensures { result ≡ new_chooser settings.pause current }
    {
        LayerChooser {
            pause: settings.pause,
            current,
            rises_from: 0,
        }
    }

    /// Returns the index of the current choice.
    pub fn current(&self) -> usize
        ensures { result ≡ self.now.current }
    {
        self.current
    }

    /// Chooses by [`choose`], and among the choices up to the current one while the pause after a fall lasts. Returns the index of the
    /// choice.
    pub fn choose(&mut self, now: Ticks, carries: u64, choices: &[LayerChoice]) -> usize
        ensures after { self.new ≡ after_choice now.0 carries choices.now self.old }
        ensures value { result ≡ self.new.current }
        ensures within { 0 < length choices.now → result < length choices.now }
    {
        let next = if now.0 < self.rises_from {
            held(self.current, carries, choices)
        } else {
            choose(self.current, carries, choices)
        };
        if next < self.current {
            self.rises_from = self.rises_from.max(now.0.saturating_add(self.pause));
        }
        self.current = next;
        next
    }

    /// Returns what a trial is to reach to go `steps` choices higher, or to the highest one. 0: the current choice is the highest.
    pub fn wanted(&self, steps: usize, choices: &[LayerChoice]) -> u64
        ensures { result ≡ wanted_of steps choices.now self.now }
    {
        if self.current >= choices.len() || self.current + 1 == choices.len() {
            return 0;
        }
        let index = self.current.saturating_add(steps).min(choices.len() - 1);
        trial_rate(&choices[index])
    }
}

/// Chooses among the choices up to the current one.
fn held(current: usize, carries: u64, choices: &[LayerChoice]) -> usize
    ensures value { result ≡ held_of current carries choices.now }
    ensures within { 0 < length choices.now → result < length choices.now }
{
    if current >= choices.len() {
        return choose(current, carries, choices);
    }
    choose(current, carries, &choices[..=current])
}
