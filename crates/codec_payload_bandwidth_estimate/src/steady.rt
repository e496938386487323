//! Whether the queueing delay stays the same while less is sent.

ghost use Rattle.std.specs.Prelude.{◌≡◌};
ghost use Rattle.codec_payload_bandwidth_estimate.specs.Steadiness.{begun_at, closed, is_steady, noted_at};

/// How long a window is, in microseconds.
const WINDOW: u64 = 300_000;

/// The leasts of windows differ by at most this time, in microseconds.
const SAME: u64 = 6_000;

/// The least queueing delay.
const LEAST: u64 = 15_000;

/// How many windows are compared.
const WINDOWS: u32 = 3;

/// Whether the queueing delay stays the same while less is sent: then it is not a queue of what you send, but a longer way.
///
/// In each window of 300 ms the least counts. It is steady if the leasts of three successive windows differ by at most 6 ms, and more than
/// 15 ms of queueing delay are in each. A queue of your packets that is emptied becomes shorter by more: by 84 ms in a window at 72 percent
/// of the link's rate. Times are in microseconds. No call allocates.
#[derive(Clone, Copy, Debug, PartialEq, Eq)]
pub struct Steady {
    /// When this window begins.
    since: u64,
    /// The least queueing delay in it.
    least: u64,
    /// The least of the windows before.
    low: u64,
    /// The greatest least of the windows before.
    high: u64,
    /// How many windows are the same.
    windows: u32,
}

impl Steady {
    /// Begins the first window at this time.
    pub fn begin(since: u64) -> Steady
        ensures { result ≡ begun_at since }
    {
        Steady {
            since,
            least: u64::MAX,
            low: u64::MAX,
            high: 0,
            windows: 0,
        }
    }

    /// Notes the queueing delay at this time. Before the first window nothing changes.
    pub fn note(&mut self, now: u64, standing: u64)
        ensures { self.new ≡ noted_at now standing self.old }
    {
        if now < self.since {
            return;
        }
        self.least = self.least.min(standing);
        if now - self.since >= WINDOW {
            self.close(now);
        }
    }

    /// Returns whether the latest three windows are the same, and the queueing delay is above 15 ms in each.
    pub fn is_steady(&self) -> bool
        ensures { result ≡ is_steady self.now }
    {
        self.windows >= WINDOWS && self.low > LEAST
    }

    /// Closes a window, and begins the next one.
    fn close(&mut self, now: u64)
        ensures { self.new ≡ closed now self.old }
    {
        let (low, high) = (self.low.min(self.least), self.high.max(self.least));
        *self = if high.saturating_sub(low) <= SAME {
            Steady {
                since: now,
                least: u64::MAX,
                low,
                high,
                windows: self.windows.min(WINDOWS - 1) + 1,
            }
        } else {
            Steady {
                since: now,
                least: u64::MAX,
                low: self.least,
                high: self.least,
                windows: 1,
            }
        };
    }
}
