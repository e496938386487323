//! The rate that is offered to a publisher, by how its packets arrive.

ghost use Rattle.std.specs.Prelude.{◌≡◌, ◌≤◌, IfSome};
ghost use Rattle.codec_payload_bandwidth_offer.specs.Offers.{after_arrival, after_due, after_lost, clock_at, clock_with, judged_at, micros_of, new_offer, offered, rate_due, higher, is_due, trial_if};
ghost use Rattle.codec_payload_bandwidth_estimator.specs.Estimates.{after_noted};

use codec_payload_bandwidth_estimator::estimator::{BandwidthEstimator, PacketFate, PacketOutcome};
use codec_payload_base::wire::{Ticks, extend_u32};
use std::marker::Model;

/// Where the publisher's clock begins, in units of 2^-26 seconds: so late that no time of it is below 0.
const CLOCK: u64 = 17_179_869_184;

/// The path is judged once in this time, in microseconds.
const INTERVAL: u64 = 50_000;

/// The rate is offered once in this time, if it stays the same, in microseconds.
const LONGEST: u64 = 1_000_000;

/// How a rate is offered to a publisher. Rates are in bits per second.
#[derive(Clone, Copy, Debug, PartialEq, Eq)]
pub struct OfferSettings {
    /// The estimate of the publisher's path at the beginning. 300,000 by default.
    pub start: u64,
    /// No estimate is below this rate. 50,000 by default.
    pub least: u64,
    /// No estimate is above this rate. 10,000,000 by default.
    pub most: u64,
    /// What you want from the publisher: no offer is above it. 2,500,000 by default.
    pub wants: u64,
}

impl OfferSettings {
    /// Returns the defaults.
    pub fn live() -> OfferSettings
        ensures { result ≡ record { start = 300000; least = 50000; most = 10000000; wants = 2500000 } }
    {
        OfferSettings {
            start: 300_000,
            least: 50_000,
            most: 10_000_000,
            wants: 2_500_000,
        }
    }
}

/// The rate that is offered to a publisher, for a session with REMB in place of transport-wide feedback: what its path carries, and at most
/// what you want.
///
/// Note each packet that arrives, with the time at which the publisher sent it. The estimate falls to what the path carries while
/// packets wait in a queue. While none waits, the publisher is offered a fifth more for 0.8 s; if it sends at least 84 percent of its rate
/// then, the estimate rises by that fifth. Times are in microseconds. It takes about 8 kB. No call allocates.
#[derive(Clone, Copy, Debug)]
pub struct RateOffer {
    /// It lives in the time of the publisher's clock.
    estimator: BandwidthEstimator,
    wants: u64,
    /// The latest time of the publisher's clock, in units of 2^-26 seconds.
    clock: u64,
    /// When the latest packet was sent by the publisher's clock, and when it arrived.
    sent: u64,
    arrived: u64,
    /// No judgement before.
    next: u64,
    /// The latest offer to the publisher, and its time.
    told: u64,
    told_at: u64,
}

impl Model for RateOffer {
    ghost use Rattle.codec_payload_bandwidth_offer.specs.Offers.{Offer};

    ghost Value = { Offer };

    ghost view = { λ o. record { estimator = o.estimator; wants = o.wants; clock = o.clock; sent = o.sent; arrived = o.arrived; next = o.next; told = o.told; told_at = o.told_at } };

    ghost inverse = { λ o. record { estimator = o.estimator; wants = o.wants; clock = o.clock; sent = o.sent; arrived = o.arrived; next = o.next; told = o.told; told_at = o.told_at } };
}

impl RateOffer {
    /// Begins before the first packet.
    pub fn new(settings: OfferSettings) -> RateOffer
        ensures { result ≡ new_offer settings }
    {
        RateOffer {
            estimator: BandwidthEstimator::new(
                Ticks(0),
                settings.start,
                settings.least,
                settings.most,
            ),
            wants: settings.wants,
            clock: CLOCK,
            sent: 0,
            arrived: 0,
            next: 0,
            told: 0,
            told_at: 0,
        }
    }

    /// Sets what you want from the publisher: no later offer is above it.
    pub fn set_wants(&mut self, wants: u64)
        ensures { self.new ≡ record self.old { wants = wants } }
    {
        self.wants = wants;
    }

    /// Notes a packet of `size` bytes that arrives now, with the 24 bits of its abs-send-time.
    pub fn arrived(&mut self, now: Ticks, abs_send_time: u32, size: u32)
        ensures { self.new ≡ after_arrival now.0 (micros_of (clock_with abs_send_time self.old.clock)) size (record self.old { clock = clock_with abs_send_time self.old.clock }) }
    {
        let low = (abs_send_time % 16_777_216) * 256;
        self.clock = extend_u32(Some(self.clock), low);
        self.arrived_by(now, micros_of(self.clock), size);
    }

    /// Notes a packet of `size` bytes that arrives now, and was sent at this time in microseconds of the publisher's clock: for example its
    /// RTP time as 64 bits, times 1,000,000, by the clock rate. Use one kind of time for all packets.
    pub fn arrived_by(&mut self, now: Ticks, sent: u64, size: u32)
        ensures { self.new ≡ after_arrival now.0 sent size self.old }
    {
        self.estimator.note(&PacketFate {
            sent,
            size,
            outcome: PacketOutcome::Arrived(now.0),
        });
        if sent >= self.sent {
            self.sent = sent;
            self.arrived = now.0;
        }
    }

    /// Notes that a packet is lost.
    pub fn lost(&mut self)
        ensures { self.new ≡ after_lost self.old }
    {
        self.estimator.note(&PacketFate {
            sent: self.sent,
            size: 0,
            outcome: PacketOutcome::Lost,
        });
    }

    /// Returns the estimate of what the publisher's path carries.
    pub fn estimate(&self) -> u64
        ensures { result ≡ self.now.estimator.rate.estimate }
    {
        self.estimator.estimate()
    }

    /// Returns the rate that the publisher may send now, at most what you want.
    pub fn rate(&self, now: Ticks) -> u64
        ensures value { result ≡ offered now.0 self.now }
        ensures most { result ≤ self.now.wants }
    {
        self.estimator.pace(self.time(now)).min(self.wants)
    }

    /// Judges the path, each 50 ms at most. Returns the rate to offer to the publisher if one is due: each second, and at once if it
    /// changed by a thirty-second.
    pub fn take_due(&mut self, now: Ticks, round_trip: u64) -> Option<u64>
        ensures due { result ≡ rate_due now.0 round_trip self.old }
        ensures most { IfSome result (λ rate. rate ≤ self.old.wants) }
        ensures after { self.new ≡ after_due now.0 round_trip self.old }
    {
        if now.0 < self.next {
            return None;
        }
        self.judge(now, round_trip);
        let rate = self.rate(now);
        if !is_due(now.0, rate, self.told, self.told_at) {
            return None;
        }
        self.told = rate;
        self.told_at = now.0;
        Some(rate)
    }

    /// Judges the path, and begins a trial if one is due.
    fn judge(&mut self, now: Ticks, round_trip: u64)
        ensures { self.new ≡ judged_at now.0 round_trip self.old }
    {
        let time = self.time(now);
        self.next = now.0.saturating_add(INTERVAL);
        judge_by(&mut self.estimator, time, round_trip, self.wants);
    }

    /// Returns the time by the publisher's clock: that of its latest packet, and what passed since.
    fn time(&self, now: Ticks) -> Ticks
        ensures { result.0 ≡ clock_at now.0 self.now }
    {
        let passed = now.0.saturating_sub(self.arrived);
        Ticks(self.sent.saturating_add(passed))
    }
}

/// Judges the path by an estimator, and begins a trial of at most this rate if one is due.
fn judge_by(estimator: &mut BandwidthEstimator, time: Ticks, round_trip: u64, wants: u64)
    ensures { estimator.new ≡ trial_if time.0 wants (after_noted time.0 round_trip estimator.old) }
{
    estimator.judge(time, round_trip);
    begin_trial(estimator, time, wants);
}

/// Begins a trial of a fifth more, at most of this rate, if one is due.
fn begin_trial(estimator: &mut BandwidthEstimator, time: Ticks, wants: u64)
    ensures { estimator.new ≡ trial_if time.0 wants estimator.old }
{
    let estimate = estimator.estimate();
    estimator.tick(time, estimate, higher(estimate).min(wants));
}

/// Returns a time of 2^-26 seconds in microseconds.
fn micros_of(clock: u64) -> u64
    ensures { result ≡ micros_of clock }
{
    (u128::from(clock) * 15_625 / 1_048_576) as u64
}

/// Returns a rate and a fifth.
fn higher(rate: u64) -> u64
    ensures { result ≡ higher rate }
{
    rate.saturating_add(rate / 5)
}

/// Returns whether an offer is due: the rate changed by a thirty-second, or the latest offer was made a second ago.
fn is_due(now: u64, rate: u64, told: u64, told_at: u64) -> bool
    ensures { result ≡ is_due now rate told told_at }
{
    rate.abs_diff(told) > told / 32 || now.saturating_sub(told_at) >= LONGEST
}
