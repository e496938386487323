//! A limit of retransmissions: each number at most once in a round trip, and all together at most a share of what is sent.

ghost use Rattle.std.specs.Prelude.{◌≡◌, ◌<◌, ◌≤◌, ◌+◌, ◌*◌, IfSome, length};
ghost use Rattle.std.specs.List.{position};
ghost use Rattle.codec_payload_bandwidth_pacer.specs.Resending.{after_resend, after_sent, answer_to, bounded_credit, free_place, holds, new_limit, passed};

use codec_payload_base::wire::Ticks;
use std::marker::Model;
use thiserror::Error;

/// How many retransmissions are remembered.
const MOST: usize = 128;

/// How much may be retransmitted to a viewer.
#[derive(Clone, Copy, Debug, PartialEq, Eq)]
pub struct ResendSettings {
    /// In thousandths: the most bytes that are retransmitted, of those that are sent. 250 by default.
    pub share: u32,
    /// Half of the time whose sent bytes count, in ticks of your clock: sent bytes count for at least this time, and for less than twice
    /// this time. 500,000 by default: of one second, in microseconds. 0 counts as 1.
    pub half_window: u64,
}

impl ResendSettings {
    /// Returns the defaults, for a clock in microseconds.
    pub fn live() -> ResendSettings
        ensures { result ≡ record { share = 250; half_window = 500000 } }
    {
        ResendSettings {
            share: 250,
            half_window: 500_000,
        }
    }
}

/// Why a packet is not retransmitted.
#[derive(Clone, Copy, Debug, PartialEq, Eq, Error)]
pub enum ResendRefused {
    /// The packet was retransmitted less than a round trip ago: the viewer could not have seen it when it requested this.
    #[error("retransmitted less than a round trip ago")]
    TooSoon,
    /// The share of what was sent is used up.
    #[error("share of retransmissions is used up")]
    Share,
    /// 128 packets were retransmitted less than a round trip ago.
    #[error("too many retransmissions in a round trip")]
    TooMany,
}

/// A retransmission that is remembered.
#[derive(Clone, Copy, Debug, PartialEq, Eq)]
pub(crate) struct Held {
    pub(crate) number: u16,
    /// Before that time the number is not retransmitted again.
    pub(crate) until: u64,
}

/// Limits what is retransmitted to one viewer, so that requests cannot flood the path: a number is retransmitted at most once in a round
/// trip, and the bytes that are retransmitted are at most a share of those that were sent in the last second.
///
/// Call [`ResendLimit::sent`] for each packet that is sent for the first time, and ask [`ResendLimit::resend`] before each packet that
/// is to be retransmitted. Times are in ticks of your clock. If a time is below one before, no time has passed. It takes about 2 kB. No
/// call allocates.
#[derive(Clone, Copy, Debug)]
pub struct ResendLimit {
    settings: ResendSettings,
    /// The highest time of a call.
    at: u64,
    /// When the current half window began.
    began: u64,
    /// The bytes that were sent in the half window before.
    sent_before: u64,
    /// Those of the current one.
    sent_now: u64,
    /// What may be retransmitted, in thousandths of a byte.
    credit: u128,
    /// The latest retransmissions.
    held: [Held; MOST],
}

impl Model for ResendLimit {
    ghost use Rattle.std.specs.Prelude.{◌≡◌, ◌≤◌, ◌+◌, ◌*◌, length};
    ghost use Rattle.codec_payload_bandwidth_pacer.specs.Resending.{Limit};

    ghost Value = { Limit };

    ghost view = { λ l. record { settings = l.settings; at = l.at; began = l.began; sent_before = l.sent_before; sent_now = l.sent_now; credit = l.credit; held = l.held } };

    ghost inverse = { λ l. record { settings = l.settings; at = l.at; began = l.began; sent_before = l.sent_before; sent_now = l.sent_now; credit = l.credit; held = l.held } };

    ghost invariant = { λ l. (length l.held ≡ 128) × (l.began ≤ l.at) × (l.credit ≤ l.settings.share * (l.sent_before + l.sent_now)) };
}

impl ResendLimit {
    /// Returns the limit of a viewer to whom nothing was sent.
    pub fn new(settings: ResendSettings) -> ResendLimit
        ensures { result ≡ new_limit settings }
    {
        ResendLimit {
            settings,
            at: 0,
            began: 0,
            sent_before: 0,
            sent_now: 0,
            credit: 0,
            held: [Held {
                number: 0,
                until: 0,
            }; MOST],
        }
    }

    /// Counts a packet that is sent for the first time. `size` is in bytes.
    pub fn sent(&mut self, now: Ticks, size: u32)
        ensures { self.new ≡ after_sent now.0 size self.old }
    {
        self.pass(now);
        self.sent_now = self.sent_now.saturating_add(u64::from(size));
        let credit = self.credit + u128::from(self.settings.share) * u128::from(size);
        self.credit = bounded_credit(self.settings.share, self.sent_before, self.sent_now, credit);
    }

    /// Asks whether the packet with this number may be retransmitted now. `Ok`: it may, and it counts as retransmitted. `size` is its
    /// bytes, `round_trip` the round trip of this viewer in ticks.
    ///
    /// # Errors
    ///
    /// The packet is not to be retransmitted. Nothing is counted. If several reasons apply, it is the first in the order of
    /// [`ResendRefused`].
    pub fn resend(
        &mut self,
        now: Ticks,
        number: u16,
        size: u32,
        round_trip: u64,
    ) -> Result<(), ResendRefused>
        ensures answer { result ≡ answer_to now.0 number size self.old }
        ensures after { self.new ≡ after_resend now.0 number size round_trip self.old }
    {
        self.pass(now);
        if place_of(&self.held, self.at, number).is_some() {
            return Err(ResendRefused::TooSoon);
        }
        let cost = u128::from(size) * 1_000;
        if self.credit < cost {
            return Err(ResendRefused::Share);
        }
        let Some(place) = free_place(&self.held, self.at) else {
            return Err(ResendRefused::TooMany);
        };
        self.credit -= cost;
        self.held[place] = Held {
            number,
            until: self.at.saturating_add(round_trip),
        };
        Ok(())
    }

    /// Lets time pass.
    fn pass(&mut self, now: Ticks)
        ensures after { self.new ≡ passed now.0 self.old }
        ensures room { length self.new.held ≡ 128 }
        ensures bound { self.new.credit ≤ self.new.settings.share * (self.new.sent_before + self.new.sent_now) }
    {
        self.at = self.at.max(now.0);
        let half = self.settings.half_window.max(1);
        let elapsed = self.at - self.began;
        if elapsed < half {
            return;
        }
        if elapsed - half < half {
            self.began += half;
            self.sent_before = self.sent_now;
        } else {
            self.began = self.at;
            self.sent_before = 0;
        }
        self.sent_now = 0;
        self.credit = bounded_credit(self.settings.share, self.sent_before, 0, self.credit);
    }
}

/// Returns a credit, as far as it is within the share of what was sent.
fn bounded_credit(share: u32, before: u64, now: u64, credit: u128) -> u128
    ensures value { result ≡ bounded_credit share (before + now) credit }
    ensures bound { result ≤ share * (before + now) }
{
    let most = u128::from(share) * (u128::from(before) + u128::from(now));
    credit.min(most)
}

/// Returns whether this is a retransmission of the number, less than a round trip ago.
fn holds(one: &Held, now: u64, number: u16) -> bool
    ensures { result ≡ holds now number one.now }
{
    one.number == number && one.until > now
}

/// Returns the place of a retransmission of the number, less than a round trip ago.
fn place_of(held: &[Held], now: u64, number: u16) -> Option<usize>
    ensures { result ≡ position (holds now number) held.now }
{
    held.iter().position(|one| holds(one, now, number))
}

/// Returns the place of a retransmission that is at least a round trip ago.
fn free_place(held: &[Held], now: u64) -> Option<usize>
    ensures value { result ≡ free_place now held.now }
    ensures within { IfSome result (λ place. place < length held.now) }
{
    held.iter().position(|one| one.until <= now)
}
