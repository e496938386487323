//! The log of arrivals.

ghost use Rattle.std.specs.Prelude.{◌≡◌, ℕ, ◌+◌, ◌-◌, ◌*◌, ◌/◌, ◌%◌, ◌<◌, ◌≤◌, ◌↔◌, length, slice_get, OnOk, OnErr, IsTrue};
ghost use Rattle.codec_payload_feedback_congestion.specs.Arrivals.{AreTimes, added, after_reported, arrived, begun, filled_if, first_unreported, log_by, new_log, unreported, windowed};

use crate::slots::{Slots, ahead_of};
use std::alloc::{AllocError, Global};
use std::marker::Model;
use thiserror::Error;

/// The largest window of a log: half of the numbers of 16 bits.
pub const MAX_WINDOW: usize = 32_768;

/// The setting of a log that is out of range.
#[derive(Clone, Copy, Debug, PartialEq, Eq, Error)]
pub enum ArrivalLogError {
    /// The window is 0, or above [`MAX_WINDOW`].
    #[error("window of the log of arrivals must be 1 to 32768")]
    Window,
}

/// The numbers of the packets that arrived on a transport, each with its time, and how many of them were reported.
///
/// A number has 16 bits and counts all packets of a transport (`transport-wide-cc-extensions`: media, retransmissions, padding).
/// A time is in quarters of a millisecond, modulo 2^32 ([`quarters`]). The log keeps the last `window` numbers, 8 bytes each, and as many
/// that it removed; in [`ArrivalLog::arrived`] it may allocate four times `window`.
#[derive(Debug, Drop)]
pub struct ArrivalLog {
    window: usize,
    start: u16,
    slots: Slots,
    reported: usize,
}

impl Model for ArrivalLog {
    ghost use Rattle.codec_payload_feedback_congestion.specs.Arrivals.{IsLog, Log};

    ghost Value = { Log };

    ghost view = { λ s. record { window = s.window; start = s.start; slots = s.slots; reported = s.reported } };

    ghost invariant = { λ s. IsLog (record { window = s.window; start = s.start; slots = s.slots; reported = s.reported }) };
}

/// Returns a time in microseconds as quarters of a millisecond, rounded down, modulo 2^32.
pub fn quarters(micros: u64) -> u32
    ensures { result ≡ (micros / 250) % 4294967296 }
{
    (micros / 250 % 4_294_967_296) as u32
}

impl ArrivalLog {
    /// Returns an empty log of the last `window` numbers, 1 to [`MAX_WINDOW`]. A window of 500 ms of packets suits: 150 numbers at
    /// 2.5 Mbit/s, 3,000 at 50 Mbit/s. Does not allocate.
    ///
    /// # Errors
    ///
    /// The window is out of range.
    pub fn new(alloc: Global, window: usize) -> Result<ArrivalLog, ArrivalLogError>
        ensures { result ≡ log_by window }
    {
        if window == 0 || window > MAX_WINDOW {
            return Err(ArrivalLogError::Window);
        }
        Ok(ArrivalLog {
            window,
            start: 0,
            slots: Slots::new(alloc),
            reported: 0,
        })
    }

    /// Begins with a number.
    fn begin(&mut self, number: u16, time: u32) -> Result<(), AllocError>
        ensures ok { OnOk result (self.new ≡ begun number time self.old) }
        ensures err { OnErr result (self.new ≡ self.old) }
    {
        self.slots.begin(time)?;
        self.start = number;
        self.reported = 0;
        Ok(())
    }

    /// Appends the slot of a number, and removes those before the window.
    fn add(&mut self, gap: usize, time: u32) -> Result<(), AllocError>
        requires { gap < self.old.window }
        ensures ok { OnOk result (self.new ≡ windowed (added gap time self.old)) }
        ensures err { OnErr result (self.new ≡ self.old) }
    {
        self.slots.append(gap, time)?;
        let excess = self.slots.len().saturating_sub(self.window);
        self.slots.drop_front(excess);
        self.start = self.start.wrapping_add(excess as u16);
        self.reported = self.reported.saturating_sub(excess);
        Ok(())
    }

    /// Fills the slot of a number that did not arrive so far.
    fn fill(&mut self, index: usize, time: u32)
        requires { index < length self.old.slots }
        ensures { self.new ≡ filled_if (slice_get self.old.slots index) index time self.old }
    {
        if self.slots.at(index).is_none() {
            self.slots.set(index, time);
            self.reported = self.reported.min(index);
        }
    }

    /// Records that the packet with this number (16 bits) arrived at that time, in quarters of a millisecond modulo 2^32
    /// ([`quarters`]). Numbers may come in any order, repeatedly, and with gaps. The first time of a number counts. A number that was
    /// reported as missing is reported again, with all numbers after it. A number before the window is refused.
    ///
    /// # Errors
    ///
    /// Out of memory: nothing changed.
    pub fn arrived(&mut self, number: u16, time: u32) -> Result<(), AllocError>
        ensures ok { OnOk result (self.new ≡ arrived number time self.old) }
        ensures err { OnErr result (self.new ≡ self.old) }
    {
        let len = self.slots.len();
        if len == 0 {
            return self.begin(number, time);
        }
        let ahead = usize::from(ahead_of(self.start, len, number));
        if ahead < 32_768 {
            if ahead < self.window {
                return self.add(ahead, time);
            }
            return self.begin(number, time);
        }
        let back = 65_536 - ahead;
        if back <= len {
            self.fill(len - back, time);
        }
        Ok(())
    }

    /// Returns whether there are numbers that were not reported.
    pub fn has_unreported(&self) -> bool
        ensures { IsTrue result ↔ (self.now.reported < length self.now.slots) }
    {
        self.reported < self.slots.len()
    }

    /// Returns the first number that was not reported.
    pub fn first_unreported(&self) -> u16
        ensures { result ≡ first_unreported self.now }
    {
        self.start.wrapping_add(self.reported as u16)
    }

    /// Returns the arrivals that were not reported: for each number from [`ArrivalLog::first_unreported`] on the time at which it
    /// arrived, or `None` if it is missing. The last number arrived.
    pub fn unreported(&self) -> &[Option<u32>]
        ensures is { result.now ≡ unreported self.now }
        ensures times { AreTimes result.now }
        ensures few { length result.now ≤ 32768 }
        ensures reported { self.now.reported ≤ length self.now.slots }
    {
        self.slots.from(self.reported)
    }

    /// Forgets all numbers. Keeps the memory.
    pub fn clear(&mut self)
        ensures { self.new ≡ new_log self.old.window }
    {
        self.slots.clear();
        self.start = 0;
        self.reported = 0;
    }

    /// Counts the first `count` numbers that were not reported as reported. [`append_report`](crate::report::append_report) returns the
    /// count.
    pub fn mark_reported(&mut self, count: usize)
        requires { self.old.reported + count ≤ length self.old.slots }
        ensures { self.new ≡ after_reported count self.old }
    {
        self.reported += count;
    }
}
