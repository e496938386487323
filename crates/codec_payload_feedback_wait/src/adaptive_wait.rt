//! A limit of waiting that follows how late missing packets arrive.

ghost use Rattle.std.specs.Prelude.{◌≡◌, ◌≤◌, min};
ghost use Rattle.codec_payload_feedback_wait.specs.Waits.{after_arrival, after_missing, after_time, Covers, is_new, limit_of, new_wait};

use crate::gaps::{Gap, Gaps};
use crate::latest_ages::LatestAges;
use codec_payload_base::wire::Ticks;
use std::marker::Model;

/// Within which bounds an [`AdaptiveWait`] moves. Times are in ticks of your clock; the defaults are for milliseconds. Any values
/// may be given.
#[derive(Clone, Copy, Debug, PartialEq, Eq)]
pub struct AdaptiveWaitSettings {
    /// The lowest limit. 20 by default.
    pub shortest: u64,
    /// The highest limit. 400 by default. If it is below `shortest` or `first`, it wins.
    pub longest: u64,
    /// The lowest limit while fewer than 8 missing packets arrived or were lost. 200 by default.
    pub first: u64,
    /// A packet that is missing for this number of ticks is lost. 1,000 by default. It then counts as a packet that arrived at
    /// once, since waiting longer would not have helped.
    pub lost_after: u64,
}

impl AdaptiveWaitSettings {
    /// Returns the defaults, for a clock in milliseconds.
    pub fn live() -> AdaptiveWaitSettings
        ensures { result ≡ record { shortest = 20; longest = 400; first = 200; lost_after = 1000 } }
    {
        AdaptiveWaitSettings {
            shortest: 20,
            longest: 400,
            first: 200,
            lost_after: 1_000,
        }
    }
}

/// A limit of waiting that follows how late the missing packets of one stream arrive: 5/4 of the greatest of the latest 32 ages.
/// The age of a missing packet is the time from the first report that it is missing until its arrival.
///
/// Where missing packets never arrive, the limit falls to `shortest`, since waiting costs delay and saves nothing. Where
/// retransmissions arrive, it covers them.
///
/// Around each datagram of the stream, call [`AdaptiveWait::arrived`] with its sequence number (of a retransmission: the original
/// number), `Receiver::receive`, [`AdaptiveWait::missing`] with each number that `Receiver::missing` reports, and hand
/// [`AdaptiveWait::limit`] to `Receiver::set_wait_limits` as `max_wait`. It follows the latest 64 missing packets. One takes about
/// 1.9 kB. No call allocates.
#[derive(Clone, Copy, Debug)]
pub struct AdaptiveWait {
    settings: AdaptiveWaitSettings,
    gaps: Gaps,
    ages: LatestAges,
    /// The highest number that was reported missing.
    highest: Option<u64>,
}

impl Model for AdaptiveWait {
    ghost use Rattle.codec_payload_feedback_wait.specs.Waits.{Wait};

    ghost Value = { Wait };

    ghost view = { λ w. record { settings = w.settings; gaps = w.gaps; ages = w.ages; highest = w.highest } };

    ghost inverse = { λ w. record { settings = w.settings; gaps = w.gaps; ages = w.ages; highest = w.highest } };
}

impl AdaptiveWait {
    /// Returns the limit of a new stream: no packet is missing.
    pub fn new(settings: AdaptiveWaitSettings) -> AdaptiveWait
        ensures { result ≡ new_wait settings }
    {
        AdaptiveWait {
            settings,
            gaps: Gaps::none(),
            ages: LatestAges::none(),
            highest: None,
        }
    }

    /// Records that a packet is missing, by its extended number. A number that is not above all numbers before it changes nothing,
    /// so all missing numbers may be reported again and again.
    pub fn missing(&mut self, now: Ticks, number: u64)
        ensures { self.new ≡ after_missing now.0 number self.old }
    {
        if is_new(self.highest, number) {
            self.remove_lost(now);
            self.gaps.follow(Gap {
                number,
                since: now.0,
            });
            self.highest = Some(number);
        }
    }

    /// Records that a packet with these 16 bits of its number arrived. If it was missing, its age is noted.
    pub fn arrived(&mut self, now: Ticks, number: u16)
        ensures { self.new ≡ after_arrival now.0 number self.old }
    {
        self.remove_lost(now);
        if let Some(since) = self.gaps.remove(number) {
            self.ages.note(now.0.saturating_sub(since));
        }
    }

    /// Returns the limit in ticks: 5/4 of the greatest of the latest 32 ages, within the bounds of the settings.
    pub fn limit(&self) -> u64
        ensures value { result ≡ limit_of self.now }
        ensures most { result ≤ self.now.settings.longest }
        ensures least { min self.now.settings.shortest self.now.settings.longest ≤ result }
    {
        let settings = self.settings;
        let least = if self.ages.are_enough() {
            settings.shortest
        } else {
            settings.shortest.max(settings.first)
        };
        let greatest = self.ages.greatest();
        greatest
            .saturating_add(greatest / 4)
            .max(least)
            .min(settings.longest)
    }

    /// Notes an age of 0 for each packet that is missing for too long.
    fn remove_lost(&mut self, now: Ticks)
        ensures { self.new ≡ after_time now.0 self.old }
    {
        let lost = self.gaps.remove_lost(now.0, self.settings.lost_after);
        self.ages.note_losses(lost);
    }
}

/// Returns whether a number is above the highest one.
fn is_new(highest: Option<u64>, number: u64) -> bool
    ensures { result ≡ is_new highest number }
{
    match highest {
        Some(highest) => highest < number,
        None => true,
    }
}

/// Proves that the limit covers what came: a packet as late as one of the latest 32 would still be awaited, unless the highest
/// limit is shorter. This function does nothing else.
pub fn limits_cover_what_came()
    ensures covers { Covers }
{}
