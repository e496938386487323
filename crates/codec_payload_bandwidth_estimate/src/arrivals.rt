//! The rate at which packets arrive, and what a link carries while packets wait in a queue.

ghost use Rattle.std.specs.Prelude.{◌≡◌, ◌≤◌, ◌∷◌, length, take};
ghost use Rattle.codec_payload_bandwidth_estimate.specs.Arrivals.{after_arrival, link_rate_of, measure_of, newest_at, no_arrivals, rate_by, rate_of};

use std::marker::Model;

/// How many arrivals are kept.
const KEPT: usize = 256;

/// The arrivals of this time before the latest count, in microseconds.
const WINDOW: u64 = 250_000;

/// The shortest time that gives a rate, in microseconds.
const SHORTEST: u64 = 50_000;

/// A packet that arrived.
#[derive(Clone, Copy, Debug, PartialEq, Eq)]
pub(crate) struct Arrival {
    pub(crate) at: u64,
    pub(crate) size: u32,
    /// It waited in a queue.
    pub(crate) waited: bool,
}

/// The bytes that arrived in a time. The packet that begins the time is not counted.
#[derive(Clone, Copy, Debug, PartialEq, Eq)]
pub(crate) struct Span {
    pub(crate) bytes: u64,
    pub(crate) time: u64,
}

/// The rate at which packets arrive, over the last 250 ms, or over less if more than 256 packets arrived in that time.
///
/// The packet that begins the time is not counted. So a link that never idles in that time gives its own rate. Times are in microseconds
/// of the receiver's clock. Takes about 6 kB. No call allocates.
#[derive(Clone, Copy, Debug)]
pub struct Arrivals {
    /// The latest first. Their times do not ascend.
    latest: [Option<Arrival>; KEPT],
}

impl Model for Arrivals {
    ghost use Rattle.std.specs.Prelude.{◌≡◌, List, Option, length};
    ghost use Rattle.codec_payload_bandwidth_estimate.specs.declared.arrivals.Arrival.{Arrival};

    ghost Value = { List (Option Arrival) };

    ghost view = { λ a. a.latest };

    ghost inverse = { λ a. record { latest = a } };

    ghost invariant = { λ a. length a.latest ≡ 256 };
}

impl Arrivals {
    /// Returns the state before the first arrival.
    pub fn new() -> Arrivals
        ensures { result ≡ no_arrivals }
    {
        Arrivals {
            latest: [None; KEPT],
        }
    }

    /// Notes an arrival of `size` bytes; `waited`: it waited in a queue. If `at` is before the latest arrival, it counts with the latest.
    pub fn note(&mut self, at: u64, size: u32, waited: bool)
        ensures { self.new ≡ after_arrival at size waited self.old }
    {
        let newest = newest(&self.latest);
        push(
            Arrival {
                at: newest.max(at),
                size,
                waited,
            },
            &mut self.latest,
        );
    }

    /// Returns the rate in bits per second. `None`: the arrivals span less than 50 ms.
    pub fn rate(&self) -> Option<u128>
        ensures { result ≡ rate_of self.now }
    {
        rate_by(measure(&self.latest, false))
    }

    /// Returns the rate since the first of the latest packets that waited in a queue: what the link carries, in bits per second. If that is
    /// less than 50 ms ago: the rate of all.
    pub fn link_rate(&self) -> Option<u128>
        ensures { result ≡ link_rate_of self.now }
    {
        match rate_by(measure(&self.latest, true)) {
            Some(rate) => Some(rate),
            None => self.rate(),
        }
    }
}

/// Puts an arrival in front, in place of the last one.
fn push(arrival: Arrival, latest: &mut [Option<Arrival>])
    requires { length latest.old ≡ 256 }
    ensures { latest.new ≡ Some arrival ∷ take 255 latest.old }
{
    latest.copy_within(0..KEPT - 1, 1);
    latest[0] = Some(arrival);
}

/// Returns the time of the latest arrival.
fn newest(latest: &[Option<Arrival>]) -> u64
    ensures { result ≡ newest_at latest.now }
{
    match latest.first() {
        Some(Some(first)) => first.at,
        _ => 0,
    }
}

/// Returns the rate of a span.
fn rate_by(span: Span) -> Option<u128>
    ensures { result ≡ rate_by span }
{
    if span.time < SHORTEST {
        return None;
    }
    Some(u128::from(span.bytes) * 8_000_000 / u128::from(span.time))
}

/// Returns the longest span within the window. `busy`: it begins after the latest packet that did not wait, so that a pause before a
/// queue does not count.
fn measure(latest: &[Option<Arrival>], busy: bool) -> Span
    requires { length latest.now ≤ 256 }
    ensures { result ≡ measure_of busy latest.now }
{
    let newest = newest(latest);
    let mut span = Span { bytes: 0, time: 0 };
    let mut bytes = 0;
    for one in latest {
        let Some(one) = one else {
            return span;
        };
        if newest.saturating_sub(one.at) > WINDOW {
            return span;
        }
        if busy && !one.waited {
            return span;
        }
        span = Span {
            bytes,
            time: newest.saturating_sub(one.at),
        };
        bytes += u64::from(one.size);
    }
    span
}
