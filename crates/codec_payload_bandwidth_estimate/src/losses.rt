//! The share of packets that are lost whatever the rate is, and whether far more are lost.

ghost use Rattle.std.specs.Prelude.{◌≡◌, ◌≤◌};
ghost use Rattle.codec_payload_bandwidth_estimate.specs.Losses.{after_fate, after_period, are_many, no_losses, share_of, usual_of};

use std::marker::Model;

/// The fewest packets of a period.
const FEWEST: u32 = 50;

/// The shortest period, in microseconds.
const PERIOD: u64 = 500_000;

/// The usual losses of a path, and whether too many are lost.
///
/// A period has at least 500 ms and 50 packets. At its end too many were lost if the share of lost ones is more than twice the usual
/// share, and 15 percent. The usual share is an average over periods: each new one counts an eighth. So losses of the path itself do not
/// count as too many for long. No call allocates.
#[derive(Clone, Copy, Debug, PartialEq, Eq)]
pub struct Losses {
    lost: u32,
    counted: u32,
    since: u64,
    /// In 16,000ths, so that rounding does not hold it.
    usual: u64,
}

impl Model for Losses {
    ghost use Rattle.std.specs.Prelude.{◌≤◌};
    ghost use Rattle.codec_payload_bandwidth_estimate.specs.Losses.{Counted};

    ghost Value = { Counted };

    ghost view = { λ l. record { lost = l.lost; counted = l.counted; since = l.since; usual = l.usual } };

    ghost inverse = { λ l. record { lost = l.lost; counted = l.counted; since = l.since; usual = l.usual } };

    ghost invariant = { λ l. (l.lost ≤ l.counted) × (l.usual ≤ 16000) };
}

impl Losses {
    /// Returns the state before the first packet.
    pub fn new() -> Losses
        ensures { result ≡ no_losses }
    {
        Losses {
            lost: 0,
            counted: 0,
            since: 0,
            usual: 0,
        }
    }

    /// Counts a packet for which feedback says whether it was lost. In a period of 2^32 - 1 packets nothing more is counted.
    pub fn note(&mut self, lost: bool)
        ensures { self.new ≡ after_fate lost self.old }
    {
        if self.counted == u32::MAX {
            return;
        }
        self.counted += 1;
        if lost {
            self.lost += 1;
        }
    }

    /// Returns the usual share of losses, in thousandths.
    pub fn usual(&self) -> u64
        ensures value { result ≡ usual_of self.now }
        ensures most { result ≤ 1000 }
    {
        self.usual / 16
    }

    /// Ends a period, if it is long enough. Returns whether too many were lost in it.
    pub fn judge(&mut self, now: u64) -> bool
        ensures answer { result ≡ are_many now self.old }
        ensures after { self.new ≡ after_period now self.old }
    {
        if self.counted < FEWEST || now.saturating_sub(self.since) < PERIOD {
            return false;
        }
        let share = share(self.lost, self.counted);
        let are_many = share > 2 * self.usual() + 150;
        self.lost = 0;
        self.counted = 0;
        self.since = now;
        self.usual = (self.usual * 7 + share * 16) / 8;
        are_many
    }
}

/// Returns the share of lost packets, in thousandths.
fn share(lost: u32, counted: u32) -> u64
    requires some { 1 ≤ counted }
    requires within { lost ≤ counted }
    ensures value { result ≡ share_of lost counted }
    ensures most { result ≤ 1000 }
{
    u64::from(lost) * 1000 / u64::from(counted)
}
