//! How long packets wait in the queue of a path.

ghost use Rattle.std.specs.Prelude.{◌≡◌, ◌∷◌, length, take};
ghost use Rattle.codec_payload_bandwidth_estimate.specs.Delays.{above_of, after_packet, base_of, counts, delay_of, followed, least_of, lesser, no_delays, standing_of, with_epoch};

use std::marker::Model;

/// How many packets are kept.
const KEPT: usize = 32;

/// The delays of this time count, in microseconds: a least delay of several packets leaves out jitter.
const RECENT: u64 = 25_000;

/// As many packets count at least.
const FEWEST: usize = 4;

/// How long an epoch is, in microseconds.
const EPOCH: u64 = 10_000_000;

/// A packet that arrived.
#[derive(Clone, Copy, Debug, PartialEq, Eq)]
pub(crate) struct Seen {
    pub(crate) sent: u64,
    pub(crate) delay: u128,
}

/// How long packets wait in the queue of a path: the least delay of the latest packets, above the least delay of this epoch of 10 s and the
/// one before.
///
/// Times are in microseconds. The delay of a packet is a difference of two clocks, so it has no meaning alone. A difference of
/// two delays has: the clock of the receiver may be any. Takes about 1.6 kB. No call allocates.
#[derive(Clone, Copy, Debug)]
pub struct Delays {
    /// The latest packets that arrived, the latest first.
    latest: [Option<Seen>; KEPT],
    /// When the first packet of this epoch was sent.
    epoch: u64,
    /// The least delay of this epoch.
    current: Option<u128>,
    /// That of the epoch before.
    before: Option<u128>,
}

impl Model for Delays {
    ghost use Rattle.std.specs.Prelude.{◌≡◌, length};
    ghost use Rattle.codec_payload_bandwidth_estimate.specs.Delays.{Measured};

    ghost Value = { Measured };

    ghost view = { λ d. record { latest = d.latest; epoch = d.epoch; current = d.current; before = d.before } };

    ghost inverse = { λ d. record { latest = d.latest; epoch = d.epoch; current = d.current; before = d.before } };

    ghost invariant = { λ d. length d.latest ≡ 32 };
}

impl Delays {
    /// Returns the state before the first packet.
    pub fn new() -> Delays
        ensures { result ≡ no_delays }
    {
        Delays {
            latest: [None; KEPT],
            epoch: 0,
            current: None,
            before: None,
        }
    }

    /// Notes a packet that arrived: when it was sent, and when it arrived by the receiver's clock. Note packets in the order of sending.
    pub fn note(&mut self, sent: u64, arrived: u64)
        ensures { self.new ≡ after_packet sent arrived self.old }
    {
        self.begin_epoch(sent);
        let delay = delay(sent, arrived);
        self.current = lesser(self.current, Some(delay));
        push(Seen { sent, delay }, &mut self.latest);
    }

    /// Begins an epoch, if the one before is over.
    fn begin_epoch(&mut self, sent: u64)
        ensures { self.new ≡ with_epoch sent self.old }
    {
        if sent.saturating_sub(self.epoch) >= EPOCH {
            self.before = self.current;
            self.current = None;
            self.epoch = sent;
        }
    }

    /// Takes the least delay of the latest packets for that of an empty queue: the way has become longer. Then the queue counts as empty,
    /// until a packet takes longer. A shorter delay counts again at once.
    pub fn follow(&mut self)
        ensures { self.new ≡ followed self.old }
    {
        self.current = least(&self.latest);
        self.before = None;
    }

    /// Returns how long the latest packets waited in the queue, in microseconds. 0 before the first packet.
    pub fn standing(&self) -> u128
        ensures { result ≡ standing_of self.now }
    {
        match (least(&self.latest), self.base()) {
            (Some(least), Some(base)) => least.saturating_sub(base),
            _ => 0,
        }
    }

    /// Returns how long this packet waited in the queue, in microseconds. 0 before the first packet.
    pub fn above(&self, sent: u64, arrived: u64) -> u128
        ensures { result ≡ above_of sent arrived self.now }
    {
        match self.base() {
            Some(base) => delay(sent, arrived).saturating_sub(base),
            None => 0,
        }
    }

    /// The least delay of the last two epochs.
    fn base(&self) -> Option<u128>
        ensures { result ≡ base_of self.now }
    {
        lesser(self.before, self.current)
    }
}

/// Puts a packet in front, in place of the last one.
fn push(seen: Seen, latest: &mut [Option<Seen>])
    requires { length latest.old ≡ 32 }
    ensures { latest.new ≡ Some seen ∷ take 31 latest.old }
{
    latest.copy_within(0..KEPT - 1, 1);
    latest[0] = Some(seen);
}

/// Returns the delay of a packet, and 2^64 more, so that it is not below 0.
fn delay(sent: u64, arrived: u64) -> u128
    ensures value { result ≡ delay_of sent arrived }
{
    u128::from(arrived) + (18_446_744_073_709_551_616 - u128::from(sent))
}

/// Returns the lesser of two, or the one that there is.
fn lesser(one: Option<u128>, other: Option<u128>) -> Option<u128>
    ensures { result ≡ lesser one other }
{
    match (one, other) {
        (Some(one), Some(other)) => Some(one.min(other)),
        (Some(one), None) => Some(one),
        (None, other) => other,
    }
}

/// Returns the delay of a packet that counts: one of the first four, or one that was sent 25 ms before the newest, or later.
fn counts(index: usize, newest: u64, one: &Option<Seen>) -> Option<u128>
    ensures { result ≡ counts index newest one.now }
{
    match one {
        Some(one) if index < FEWEST || newest.saturating_sub(one.sent) <= RECENT => Some(one.delay),
        _ => None,
    }
}

/// Returns the least delay of the packets that count.
fn least(latest: &[Option<Seen>]) -> Option<u128>
    ensures { result ≡ least_of latest.now }
{
    let newest = match latest.first() {
        Some(Some(first)) => first.sent,
        _ => 0,
    };
    let mut least = None;
    for (index, one) in latest.iter().enumerate() {
        least = lesser(least, counts(index, newest, one));
    }
    least
}
