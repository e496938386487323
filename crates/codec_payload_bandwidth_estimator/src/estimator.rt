//! The rate that a path carries: up by trials that ended well, down to what a full link carries.

ghost use Rattle.std.specs.Prelude.{◌≡◌, ◌≤◌};
ghost use Rattle.codec_payload_bandwidth_estimator.specs.Estimates.{after_fall, after_fates, after_feedback, after_noted, after_rest, after_return, after_sent, after_silence, after_tick, after_trial, after_way, average, begins_trial, carried, ended_well, fall_watch, falls_noted, found_of, is_longer, is_over, is_silent, less_lost, longer, new_estimate, noted, pace_of, rest_watch, row_of, silent_watch, standing_in, watched, way_watch};
ghost use Rattle.codec_payload_bandwidth_estimate.specs.Losses.{usual_of};

use codec_payload_bandwidth_estimate::arrivals::Arrivals;
use codec_payload_bandwidth_estimate::delays::Delays;
use codec_payload_bandwidth_estimate::losses::Losses;
use codec_payload_bandwidth_estimate::rate::{PathRate, Trial};
use codec_payload_bandwidth_estimate::steady::Steady;
use codec_payload_base::wire::Ticks;
use std::marker::Model;

/// The queue that is tolerated, in microseconds.
const TOLERATED: u64 = 30_000;

/// The queue that ends a trial.
const TOLERATED_IN_TRIAL: u64 = 20_000;

/// The queue that no packet counts as having waited in, and that may remain at the end of a trial that ended well.
const CLEAR: u64 = 12_000;

/// The queue at which the path counts as empty again.
const CALM: u64 = 15_000;

/// After this time of a trial the queueing delay counts for its end.
const SETTLED: u64 = 700_000;

/// How long a trial takes.
const WHOLE_TRIAL: u64 = 800_000;

/// The time between a trial that ended well and the next one.
const SHORTEST_WAIT: u64 = 500_000;

/// The longest time between two trials.
const LONGEST_WAIT: u64 = 6_000_000;

/// If a packet left and no feedback came for so long, the rate is halved.
const SILENCE: u64 = 700_000;

/// The usual losses may rise by so much while a longer way is looked for, in thousandths: a full queue loses more.
const MORE_LOST: u64 = 20;

/// The time between two longer ways.
const WAY_RESTS: u64 = 10_000_000;

/// What feedback says of a sent packet.
#[derive(Clone, Copy, Debug, PartialEq, Eq)]
pub enum PacketOutcome {
    /// It arrived, at this time of the receiver's clock in microseconds.
    Arrived(u64),
    /// It did not arrive.
    Lost,
    /// The feedback that would say so was lost.
    Unknown,
}

/// A sent packet and what feedback says of it.
#[derive(Clone, Copy, Debug, PartialEq, Eq)]
pub struct PacketFate {
    /// When it was sent, in microseconds.
    pub sent: u64,
    /// Its bytes.
    pub size: u32,
    pub outcome: PacketOutcome,
}

/// The times of an estimator, in microseconds, and what it remembers beside them.
#[derive(Clone, Copy, Debug, PartialEq, Eq)]
pub(crate) struct Watch {
    /// When the newest packet was sent that feedback reported.
    pub(crate) newest: u64,
    /// When the first packet left since feedback came, or since the rate was halved.
    pub(crate) waits: Option<u64>,
    /// No other fall before.
    pub(crate) hold: u64,
    /// No trial before.
    pub(crate) next: u64,
    /// How long the wait for a trial is, if one fails.
    pub(crate) wait: u64,
    /// The least queueing delay at the end of this trial.
    pub(crate) least: u64,
    /// The usual queueing delay, where no packet waits in a queue.
    pub(crate) usual: u64,
    /// The queue is being emptied.
    pub(crate) draining: bool,
    /// The rate from before a silence, in bits per second. 0: no silence.
    pub(crate) held: u64,
    /// How many choices higher the next trial aims.
    pub(crate) steps: u8,
    /// No longer way before.
    pub(crate) follows: u64,
}

/// A series of falls: from the first one until the path is at rest.
#[derive(Clone, Copy, Debug, PartialEq, Eq)]
pub(crate) struct Falls {
    /// The rate before the first of them, in bits per second.
    pub(crate) rate: u64,
    /// The usual losses then, in thousandths.
    pub(crate) lost: u64,
    /// Whether the queueing delay stays the same meanwhile.
    pub(crate) steady: Steady,
}

/// The rate that the path to a viewer carries, by what its feedback says.
///
/// It rises only by a trial that ended well, and falls to what the link carries while packets wait in a queue, or if far more packets are
/// lost than usually. It lies within its bounds whatever feedback says. Times are in microseconds, rates in bits per second. It takes about
/// 8 kB. No call allocates.
#[derive(Clone, Copy, Debug)]
pub struct BandwidthEstimator {
    delays: Delays,
    arrivals: Arrivals,
    losses: Losses,
    rate: PathRate,
    trial: Option<Trial>,
    falls: Option<Falls>,
    watch: Watch,
}

impl Model for BandwidthEstimator {
    ghost use Rattle.codec_payload_bandwidth_estimator.specs.Estimates.{Estimate};

    ghost Value = { Estimate };

    ghost view = { λ e. record { delays = e.delays; arrivals = e.arrivals; losses = e.losses; rate = e.rate; trial = e.trial; falls = e.falls; watch = e.watch } };

    ghost inverse = { λ e. record { delays = e.delays; arrivals = e.arrivals; losses = e.losses; rate = e.rate; trial = e.trial; falls = e.falls; watch = e.watch } };
}

impl BandwidthEstimator {
    /// Begins at this time with `start`, within `least` and `most`.
    pub fn new(now: Ticks, start: u64, least: u64, most: u64) -> BandwidthEstimator
        ensures { result ≡ new_estimate now.0 start least most }
    {
        BandwidthEstimator {
            delays: Delays::new(),
            arrivals: Arrivals::new(),
            losses: Losses::new(),
            rate: PathRate::new(start, least, most),
            trial: None,
            falls: None,
            watch: Watch {
                newest: 0,
                waits: None,
                hold: 0,
                next: now.0,
                wait: 2_000_000,
                least: u64::MAX,
                usual: 0,
                draining: false,
                held: 0,
                steps: 2,
                follows: 0,
            },
        }
    }

    /// Returns the rate.
    pub fn estimate(&self) -> u64
        ensures value { result ≡ self.now.rate.estimate }
        ensures least { self.now.rate.least ≤ result }
        ensures most { result ≤ self.now.rate.most }
    {
        self.rate.estimate()
    }

    /// Returns what is left of it for first transmissions, since lost packets are sent again.
    pub fn carries(&self) -> u64
        ensures { result ≡ carried self.now }
    {
        less_lost(self.rate.estimate(), self.losses.usual())
    }

    /// Returns the rate at which packets are to leave: less while a queue is emptied, and that of a trial.
    pub fn pace(&self, now: Ticks) -> u64
        ensures { result ≡ pace_of now.0 self.now }
    {
        let estimate = self.rate.estimate();
        match &self.trial {
            Some(trial) => estimate.max(trial.rate(now)),
            None if self.watch.draining => estimate - estimate / 4,
            None => estimate,
        }
    }

    /// Returns the trial that is under way.
    pub fn trial(&self) -> Option<Trial>
        ensures { result ≡ self.now.trial }
    {
        self.trial
    }

    /// Returns whether a queue is being emptied.
    pub fn is_draining(&self) -> bool
        ensures { result ≡ self.now.watch.draining }
    {
        self.watch.draining
    }

    /// Returns how long packets wait in the queue, in microseconds.
    pub fn standing(&self) -> u64
        ensures { result ≡ standing_in self.now.delays }
    {
        standing(&self.delays)
    }

    /// Returns the usual losses, in thousandths.
    pub fn usual_losses(&self) -> u64
        ensures value { result ≡ usual_of self.now.losses }
        ensures most { result ≤ 1000 }
    {
        self.losses.usual()
    }

    /// Returns how many choices higher the next trial is to aim: 2 at the beginning and after a trial that ended well, or else 1.
    pub fn steps(&self) -> usize
        ensures { result ≡ self.now.watch.steps }
    {
        usize::from(self.watch.steps)
    }

    /// Notes that a packet left. Call it for each: silence counts from the first packet that left since the last feedback.
    pub fn sent(&mut self, now: Ticks)
        ensures { self.new ≡ after_sent now.0 self.old }
    {
        if self.watch.waits.is_none() {
            self.watch.waits = Some(now.0);
        }
    }

    /// Notes what one feedback says of packets, in the order of their sending, and judges the path: [`BandwidthEstimator::note`] for each,
    /// and [`BandwidthEstimator::judge`].
    pub fn feedback(&mut self, now: Ticks, round_trip: u64, fates: &[PacketFate])
        ensures { self.new ≡ after_feedback now.0 round_trip fates.now self.old }
    {
        self.note_all(fates);
        self.judge(now, round_trip);
    }

    /// Judges the path by the packets that were noted: see [`BandwidthEstimator::note`].
    pub fn judge(&mut self, now: Ticks, round_trip: u64)
        ensures { self.new ≡ after_noted now.0 round_trip self.old }
    {
        let standing = standing(&self.delays);
        self.watch = watched(standing, self.trial, self.watch);
        let too_many = self.losses.judge(now.0);
        if too_many || is_over(standing, self.trial.is_some(), self.watch.usual) {
            if now.0 >= self.watch.hold {
                self.fall(now, round_trip, standing);
            }
        } else {
            self.rest(now, standing);
            self.return_from_silence(now);
        }
        self.watch_way(now, standing);
    }

    /// Lets time pass: if packets leave and no feedback comes, the rate is halved, and a trial of `wanted` begins if one is due.
    /// `sending` is the rate at which you send now. A `wanted` of 0 begins none.
    pub fn tick(&mut self, now: Ticks, sending: u64, wanted: u64)
        ensures { self.new ≡ after_tick now.0 sending wanted self.old }
    {
        self.listen(now);
        if self.begins_trial(now, wanted) {
            let to = wanted.min(self.rate.estimate().saturating_mul(2));
            self.watch.least = u64::MAX;
            self.trial = Some(Trial {
                begun: now,
                from: sending.min(to),
                to,
            });
        }
    }

    /// Halves the rate if packets left and no feedback came for long.
    fn listen(&mut self, now: Ticks)
        ensures { self.new ≡ after_silence now.0 self.old }
    {
        if is_silent(now.0, self.watch.waits) {
            self.watch = silent_watch(now.0, self.rate.estimate(), self.watch);
            self.rate.halve();
            self.trial = None;
        }
    }

    /// Feedback came after a silence, and no packet waits in a queue: the rate is at least half of the one from before, and a trial is due.
    fn return_from_silence(&mut self, now: Ticks)
        ensures { self.new ≡ after_return now.0 self.old }
    {
        if self.watch.held > 0 {
            self.rate.raise(self.watch.held / 2);
            self.watch.held = 0;
            self.watch.next = now.0;
        }
    }

    /// Notes the queueing delay in a series of falls. If it stays the same, the way is longer: the rate is at least half of the one from
    /// before, and a trial is due.
    fn watch_way(&mut self, now: Ticks, standing: u64)
        ensures { self.new ≡ after_way now.0 standing self.old }
    {
        let Some(falls) = self.falls else {
            return;
        };
        let falls = noted_falls(now.0, standing, falls);
        if is_longer(now.0, self.losses.usual(), self.watch.follows, falls) {
            self.delays.follow();
            self.rate.raise(falls.rate / 2);
            self.watch = way_watch(now.0, self.watch);
            self.falls = None;
        } else {
            self.falls = Some(falls);
        }
    }

    /// Returns whether a trial of this rate begins.
    fn begins_trial(&self, now: Ticks, wanted: u64) -> bool
        ensures { result ≡ begins_trial now.0 wanted self.now }
    {
        self.trial.is_none()
            && !self.watch.draining
            && now.0 >= self.watch.next
            && wanted > self.rate.estimate()
    }

    /// Notes packets.
    fn note_all(&mut self, fates: &[PacketFate])
        ensures { self.new ≡ after_fates fates.now self.old }
    {
        for fate in fates {
            self.note(fate);
        }
    }

    /// Notes what is known of a packet. Note packets in the order of their sending.
    pub fn note(&mut self, fate: &PacketFate)
        ensures { self.new ≡ noted fate.now self.old }
    {
        self.watch.newest = self.watch.newest.max(fate.sent);
        match fate.outcome {
            PacketOutcome::Arrived(at) => {
                self.losses.note(false);
                self.delays.note(fate.sent, at);
                let waited = self.delays.above(fate.sent, at) > u128::from(CLEAR);
                self.arrivals.note(at, fate.size, waited);
            }
            PacketOutcome::Lost => self.losses.note(true),
            PacketOutcome::Unknown => self.arrivals.note(0, fate.size, true),
        }
    }

    /// The rate falls to what the link carries, and a trial ends.
    fn fall(&mut self, now: Ticks, round_trip: u64, standing: u64)
        ensures { self.new ≡ after_fall now.0 round_trip standing self.old }
    {
        let found = found(&self.arrivals, self.rate.estimate());
        self.falls = Some(row(
            now.0,
            round_trip,
            self.rate.estimate(),
            self.losses.usual(),
            self.falls,
        ));
        match &self.trial {
            Some(trial) => self.rate.settle(found, trial.to),
            None => self.rate.fall(found),
        }
        self.watch = fall_watch(
            now.0,
            round_trip,
            standing,
            self.trial.is_some(),
            self.watch,
        );
        self.trial = None;
    }

    /// No packet waits in a queue: the usual queueing delay is noted, and a trial ends after its time.
    fn rest(&mut self, now: Ticks, standing: u64)
        ensures { self.new ≡ after_rest now.0 standing self.old }
    {
        self.watch = rest_watch(standing, self.trial.is_some(), self.watch);
        if !self.watch.draining {
            self.falls = None;
        }
        if let Some(trial) = self.trial {
            if self.watch.newest.saturating_sub(trial.begun.0) >= WHOLE_TRIAL {
                self.end_trial(now, trial.to);
            }
        }
    }

    /// A trial of this rate ends after its time.
    fn end_trial(&mut self, now: Ticks, to: u64)
        ensures { self.new ≡ after_trial now.0 to self.old }
    {
        self.trial = None;
        if ended_well(&self.arrivals, to, self.watch) {
            self.rate.raise(to);
            self.watch.next = now.0.saturating_add(SHORTEST_WAIT);
            self.watch.steps = 2;
        } else {
            self.watch.steps = 1;
            self.watch.wait = longer(self.watch.wait);
            self.watch.next = now.0.saturating_add(self.watch.wait);
        }
    }
}

/// Returns how long packets wait in the queue.
fn standing(delays: &Delays) -> u64
    ensures { result ≡ standing_in delays.now }
{
    delays.standing().min(u128::from(u64::MAX)) as u64
}

/// Returns what feedback changes at once: nothing is waited for, and the least queueing delay at the end of a trial.
fn watched(standing: u64, trial: Option<Trial>, watch: Watch) -> Watch
    ensures { result ≡ watched standing trial watch }
{
    let least = match trial {
        Some(trial) if watch.newest.saturating_sub(trial.begun.0) >= SETTLED => watch
            .least
            .min(standing),
        _ => watch.least,
    };
    Watch {
        waits: None,
        least,
        ..watch
    }
}

/// Returns whether a queue is longer than is tolerated.
fn is_over(standing: u64, in_trial: bool, usual: u64) -> bool
    ensures { result ≡ is_over standing in_trial usual }
{
    let tolerated = if in_trial {
        TOLERATED_IN_TRIAL
    } else {
        TOLERATED
    };
    standing > usual.saturating_add(tolerated)
}

/// Returns whether a packet left long ago, and no feedback came since.
fn is_silent(now: u64, waits: Option<u64>) -> bool
    ensures { result ≡ is_silent now waits }
{
    match waits {
        Some(since) => now.saturating_sub(since) > SILENCE,
        None => false,
    }
}

/// Returns the times after a silence in which the rate is halved from this one.
fn silent_watch(now: u64, rate: u64, watch: Watch) -> Watch
    ensures { result ≡ silent_watch now rate watch }
{
    Watch {
        waits: None,
        next: now.saturating_add(1_000_000),
        held: watch.held.max(rate),
        ..watch
    }
}

/// Returns the series that a fall belongs to: the one under way, or a new one, which begins with this rate and these usual losses.
fn row(now: u64, round_trip: u64, rate: u64, lost: u64, falls: Option<Falls>) -> Falls
    ensures { result ≡ row_of now round_trip rate lost falls }
{
    match falls {
        Some(falls) => falls,
        None => Falls {
            rate,
            lost,
            steady: Steady::begin(now.saturating_add(round_trip)),
        },
    }
}

/// Returns a series after the queueing delay at this time.
fn noted_falls(now: u64, standing: u64, falls: Falls) -> Falls
    ensures { result ≡ falls_noted now standing falls }
{
    let mut steady = falls.steady;
    steady.note(now, standing);
    Falls { steady, ..falls }
}

/// Returns whether a series of falls shows a longer way: the queueing delay is steady, and few more packets are lost than before.
fn is_longer(now: u64, lost: u64, follows: u64, falls: Falls) -> bool
    ensures { result ≡ is_longer now lost follows falls }
{
    now >= follows && falls.steady.is_steady() && lost <= falls.lost.saturating_add(MORE_LOST)
}

/// Returns the times after a longer way was found.
fn way_watch(now: u64, watch: Watch) -> Watch
    ensures { result ≡ way_watch now watch }
{
    Watch {
        next: now,
        draining: false,
        follows: now.saturating_add(WAY_RESTS),
        ..watch
    }
}

/// Returns 95 percent of what the link carries. If that is unknown: of half of the estimate.
fn found(arrivals: &Arrivals, estimate: u64) -> u64
    ensures { result ≡ found_of arrivals.now estimate }
{
    let link = match arrivals.link_rate() {
        Some(rate) => rate.min(u128::from(u64::MAX)) as u64,
        None => estimate / 2,
    };
    link - link / 20
}

/// Returns a rate less the usual losses in thousandths, of which at most half count.
fn less_lost(rate: u64, lost: u64) -> u64
    ensures { result ≡ less_lost rate lost }
{
    (u128::from(rate) * u128::from(1_000 - lost.min(500)) / 1_000) as u64
}

/// Returns a wait that is twice as long, up to the longest.
fn longer(wait: u64) -> u64
    ensures { result ≡ longer wait }
{
    wait.saturating_mul(2).min(LONGEST_WAIT)
}

/// Returns the times after a fall.
fn fall_watch(now: u64, round_trip: u64, standing: u64, in_trial: bool, watch: Watch) -> Watch
    ensures { result ≡ fall_watch now round_trip standing in_trial watch }
{
    let wait = if in_trial {
        longer(watch.wait)
    } else {
        watch.wait
    };
    Watch {
        hold: now.saturating_add(round_trip).saturating_add(200_000),
        next: now.saturating_add(wait),
        wait,
        draining: standing > CLEAR,
        held: 0,
        steps: 1,
        ..watch
    }
}

/// Returns the times while no packet waits in a queue.
fn rest_watch(standing: u64, in_trial: bool, watch: Watch) -> Watch
    ensures { result ≡ rest_watch standing in_trial watch }
{
    let usual = if in_trial || watch.draining {
        watch.usual
    } else {
        average(watch.usual, standing)
    };
    Watch {
        usual,
        draining: watch.draining && standing > CALM,
        ..watch
    }
}

/// Returns the average, of which the new value is an eighth, up to 15 ms.
fn average(usual: u64, standing: u64) -> u64
    ensures { result ≡ average usual standing }
{
    ((u128::from(usual) * 7 + u128::from(standing)) / 8).min(u128::from(CALM)) as u64
}

/// Returns whether a trial of this rate ended well: 70 percent of it arrived, and the queueing delay is at most the usual one and 12 ms.
fn ended_well(arrivals: &Arrivals, to: u64, watch: Watch) -> bool
    ensures { result ≡ ended_well arrivals.now to watch }
{
    let arrived = match arrivals.rate() {
        Some(rate) => rate >= u128::from(to) * 7 / 10,
        None => false,
    };
    arrived && watch.least <= watch.usual.saturating_add(CLEAR)
}
