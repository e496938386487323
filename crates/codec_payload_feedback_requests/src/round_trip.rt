//! The round-trip time between a receiver and its sender.

ghost use Rattle.std.specs.Prelude.{◌≡◌, ◌≤◌, length};
ghost use Rattle.codec_payload_feedback_requests.specs.RoundTrips.{at_most, is_most, is_sure, known_trip, median, no_trip, noted, reported_as, sure_trip};

use crate::nack::earlier;
use std::marker::Model;

/// How many answers the round trip is the median of.
const KEPT: usize = 5;

/// How many answers make the round trip sure.
const SURE: usize = 2;

/// The round-trip time, in ticks: what reports say, or else the median of the latest five answers to requests.
///
/// A sample is the time from the first request of a number to its first arrival. A packet that comes by itself just after a request,
/// as a probe of the network does, makes one sample too short, and a second request that alone is answered makes one too long. Neither
/// moves the median of five by much. Does not allocate.
#[derive(Debug, Drop)]
pub struct RoundTrip {
    /// The samples, the latest first. 0 where there was none.
    latest: [u64; KEPT],
    /// How many of them there are.
    known: usize,
    /// Their median.
    middle: Option<u64>,
    /// What reports say.
    reported: Option<u64>,
}

impl Model for RoundTrip {
    ghost use Rattle.std.specs.Prelude.{◌≡◌, ◌≤◌, length, take};
    ghost use Rattle.codec_payload_feedback_requests.specs.RoundTrips.{Trip, median};

    ghost Value = { Trip };

    ghost view = { λ t. record { samples = take t.known t.latest; reported = t.reported } };

    ghost invariant = { λ t. (length t.latest ≡ 5) × (t.known ≤ 5) × (t.middle ≡ median (take t.known t.latest)) };
}

impl RoundTrip {
    /// Returns the state before the first answer.
    pub fn new() -> RoundTrip
        ensures { result ≡ no_trip }
    {
        RoundTrip {
            latest: [0; KEPT],
            known: 0,
            middle: None,
            reported: None,
        }
    }

    /// Notes a sample in place of the oldest.
    pub fn note(&mut self, sample: u64)
        ensures { self.new ≡ noted sample self.old }
    {
        self.latest.copy_within(0..KEPT - 1, 1);
        self.latest[0] = sample;
        self.known = (self.known + 1).min(KEPT);
        self.middle = median(&self.latest[..self.known]);
    }

    /// Sets what reports say. `None`: nothing, so that the answers count.
    pub fn set_reported(&mut self, reported: Option<u64>)
        ensures { self.new ≡ reported_as reported self.old }
    {
        self.reported = reported;
    }

    /// Returns the round trip. `None`: there was no answer, and reports say nothing.
    pub fn value(&self) -> Option<u64>
        ensures { result ≡ known_trip self.now }
    {
        match self.reported {
            Some(reported) => Some(reported),
            None => self.middle,
        }
    }

    /// Returns whether the round trip is sure: reports say it, or two answers came.
    pub fn is_sure(&self) -> bool
        ensures { result ≡ is_sure self.now }
    {
        self.reported.is_some() || self.known >= SURE
    }

    /// Returns the round trip once it is sure.
    pub fn sure_value(&self) -> Option<u64>
        ensures { result ≡ sure_trip self.now }
    {
        if self.is_sure() { self.value() } else { None }
    }
}

/// Returns the median: the least sample that more than half of the samples do not exceed.
fn median(samples: &[u64]) -> Option<u64>
    ensures { result ≡ median samples.now }
{
    let mut least = None;
    for sample in samples {
        if is_most(*sample, samples) {
            least = earlier(least, Some(*sample));
        }
    }
    least
}

/// Returns whether more than half of the samples are at most this one.
fn is_most(sample: u64, samples: &[u64]) -> bool
    ensures { result ≡ is_most sample samples.now }
{
    let above = samples.len() - at_most(sample, samples);
    above < at_most(sample, samples)
}

/// Returns how many of the samples are at most this one.
fn at_most(sample: u64, samples: &[u64]) -> usize
    ensures count { result ≡ at_most sample samples.now }
    ensures few { result ≤ length samples.now }
{
    let mut count = 0;
    for other in samples {
        if *other <= sample {
            count += 1;
        }
    }
    count
}
