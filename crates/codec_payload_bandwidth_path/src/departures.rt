//! The packets that left on a path, and what transport-wide feedback says of them.

ghost use Rattle.std.specs.Prelude.{◌≡◌, ◌++◌, ◌≤◌, ◌<◌, ◌+◌, ◌-◌, ◌%◌, ◌^◌, IfOk, IfSome, OnOk, drop, length, slice_index_or, take};
ghost use Rattle.codec_payload_bandwidth_path.specs.Departures.{departed_in, fate_by, fates_of, first_index, heard, index_near, is_latest, last_time, lost_from, lost_of, no_departure, no_departures, open_index, outcome_by, reported_fates, taken_back, unknown_fate, unknown_fates, with_departure};

use codec_payload_bandwidth_estimator::estimator::{PacketFate, PacketOutcome};
use codec_payload_base::wire::{Ticks, extend_u32};
use codec_payload_feedback_congestion::transport::TransportFeedback;
use std::alloc::{AllocError, Global};
use std::collections::VecDeque;
use std::marker::Model;

/// The most packets that are remembered: those of 4 s at 5 Mbit/s.
pub const REMEMBERED: usize = 2_048;

/// Where a receiver's clock begins, in quarters of a millisecond: 2^34, so that no time of it is below 0.
const CLOCK: u64 = 17_179_869_184;

/// A packet that left.
#[derive(Clone, Copy, Debug, PartialEq, Eq)]
pub(crate) struct Departure {
    /// When it left, in microseconds.
    pub(crate) at: u64,
    /// Its bytes.
    pub(crate) size: u32,
}

/// The transport-wide counter of a path, the latest packets that left on it, and of which of them feedback was heard.
#[derive(Debug, Drop)]
pub(crate) struct Departures {
    /// How many packets left. The next one gets this number, modulo 65,536.
    count: u64,
    /// The latest packets, at most `REMEMBERED`, the latest one last.
    latest: VecDeque<Departure>,
    /// Feedback of the packets with lower indices counted, and none counts again.
    counted: u64,
    /// The latest time of the receiver's clock that a feedback had, in quarters of a millisecond.
    clock: u64,
}

impl Model for Departures {
    ghost use Rattle.std.specs.Prelude.{◌≤◌, length};
    ghost use Rattle.std.specs.VecDeque.{deque_capacity};
    ghost use Rattle.codec_payload_bandwidth_path.specs.Departures.{Departed};

    ghost Value = { Departed };

    ghost view = { λ d. record { count = d.count; latest = d.latest.items; counted = d.counted; clock = d.clock } };

    ghost invariant = { λ d. (length d.latest.items ≤ 2048) × (2048 ≤ deque_capacity d.latest) × (length d.latest.items ≤ d.count) × (d.counted ≤ d.count) };
}

impl Departures {
    /// Returns the counter of a path on which nothing left. Allocates room for the packets that are remembered: 32 kB.
    ///
    /// # Errors
    ///
    /// Out of memory.
    pub(crate) fn new(alloc: Global) -> Result<Departures, AllocError>
        ensures { IfOk result (λ made. made ≡ no_departures) }
    {
        let mut latest = VecDeque::new(alloc);
        latest.reserve(REMEMBERED)?;
        Ok(Departures {
            count: 0,
            latest,
            counted: 0,
            clock: CLOCK,
        })
    }

    /// Notes a packet that leaves now, and returns its transport-wide number. If all numbers of 64 bits were used, nothing changes.
    pub(crate) fn note(&mut self, now: Ticks, size: u32) -> u16
        ensures number { result ≡ self.old.count % 65536 }
        ensures after { self.new ≡ with_departure now.0 size self.old }
    {
        let number = (self.count % 65_536) as u16;
        if self.count == u64::MAX {
            return number;
        }
        if self.latest.len() >= REMEMBERED {
            self.latest.pop_front();
        }
        self.latest
            .push_back_reserved(Departure { at: now.0, size });
        self.count += 1;
        number
    }

    /// Returns the index of the first packet that is remembered.
    fn first(&self) -> u64
        ensures value { result ≡ first_index self.now }
        ensures within { result ≤ self.now.count }
    {
        self.count - self.latest.len() as u64
    }

    /// Returns the index of the packet with this number, if it left: of the latest one.
    fn index_of(&self, base: u16) -> Option<u64>
        ensures value { result ≡ index_near base self.now.count }
        ensures within { IfSome result (λ index. index < self.now.count) }
    {
        let back = (self.count % 65_536 + 65_535 - u64::from(base)) % 65_536;
        if back < self.count {
            Some(self.count - 1 - back)
        } else {
            None
        }
    }

    /// Returns the lowest index of a packet of which feedback may still say something.
    fn open(&self) -> u64
        ensures value { result ≡ open_index self.now }
        ensures above { first_index self.now ≤ result }
        ensures within { result ≤ self.now.count }
    {
        self.counted.max(self.first())
    }

    /// Returns the packet with this index, if it is remembered.
    fn at(&self, index: u64) -> Departure
        requires above { first_index self.now ≤ index }
        requires within { index < self.now.count }
        ensures { result ≡ slice_index_or self.now.latest (index - first_index self.now) no_departure }
    {
        self.latest[(index - self.first()) as usize]
    }

    /// Appends what feedback says of the packets from `from` up to `to`, whose feedback was lost.
    fn append_unknown(
        &self,
        from: u64,
        to: u64,
        fates: &mut Vec<PacketFate>,
    ) -> Result<(), AllocError>
        requires above { first_index self.now ≤ from }
        requires within { to ≤ self.now.count }
        ensures { OnOk result (fates.new.items ≡ fates.old.items ++ unknown_fates (departed_in from to self.now)) }
    {
        for index in from..to {
            fates.push(unknown_fate(self.at(index)))?;
        }
        Ok(())
    }

    /// Appends what these statuses say of the packets from `from` on.
    #[tactic(auto, using(crate::proofs::DepartureLemmas::departed_after, crate::proofs::DepartureLemmas::reported_nothing))]
    fn append_reported(
        &self,
        from: u64,
        statuses: &[Option<u32>],
        fates: &mut Vec<PacketFate>,
    ) -> Result<(), AllocError>
        requires above { first_index self.now ≤ from }
        requires within { from + length statuses.now ≤ self.now.count }
        ensures { OnOk result (fates.new.items ≡ fates.old.items ++ reported_fates self.now.clock (departed_in from self.now.count self.now) statuses.now) }
    {
        let first = (from - self.first()) as usize;
        for (place, status) in statuses.iter().enumerate() {
            fates.push(fate_by(self.clock, self.latest[first + place], *status))?;
        }
        Ok(())
    }

    /// Appends what a feedback says of packets that left, in the order of leaving: of each packet once. Packets between what the feedback
    /// before said and this one are unknown. Nothing changes here until [`Departures::hear`].
    ///
    /// # Errors
    ///
    /// Out of memory: `fates` has some of them.
    pub(crate) fn append_fates(
        &self,
        feedback: &TransportFeedback,
        fates: &mut Vec<PacketFate>,
    ) -> Result<(), AllocError>
        ensures { OnOk result (fates.new.items ≡ fates.old.items ++ fates_of feedback.now.base feedback.now.statuses.items self.now) }
    {
        let Some(base) = self.index_of(feedback.base) else {
            return Ok(());
        };
        let counted = up_to(&feedback.statuses, self.count - base);
        let open = self.open();
        let begin = base.max(open);
        self.append_unknown(open, begin, fates)?;
        self.append_reported(begin, from_place(counted, begin - base), fates)
    }

    /// Appends the numbers of the packets that a feedback reports lost, in the order of leaving: of those packets that
    /// [`Departures::append_fates`] reports.
    ///
    /// # Errors
    ///
    /// Out of memory: `lost` has some of them.
    pub(crate) fn append_lost(
        &self,
        feedback: &TransportFeedback,
        lost: &mut Vec<u16>,
    ) -> Result<(), AllocError>
        ensures { OnOk result (lost.new.items ≡ lost.old.items ++ lost_of feedback.now.base feedback.now.statuses.items self.now) }
    {
        let Some(base) = self.index_of(feedback.base) else {
            return Ok(());
        };
        let counted = up_to(&feedback.statuses, self.count - base);
        let begin = base.max(self.open());
        append_lost_from(begin, from_place(counted, begin - base), lost)
    }

    /// Returns whether the latest packet that left has this number, and no feedback counted of it.
    fn is_latest(&self, number: u16) -> bool
        ensures { result ≡ is_latest number self.now }
    {
        self.counted < self.count && (self.count - 1) % 65_536 == u64::from(number)
    }

    /// Takes back the latest packet that left, if it has this number and no feedback counted of it: the next packet gets its number.
    /// Returns whether that is so. Otherwise nothing changes.
    pub(crate) fn take_back(&mut self, number: u16) -> bool
        ensures answer { result ≡ is_latest number self.old }
        ensures after { self.new ≡ taken_back number self.old }
    {
        if !self.is_latest(number) {
            return false;
        }
        self.latest.pop_back();
        self.count -= 1;
        true
    }

    /// Notes that a feedback was heard.
    pub(crate) fn hear(&mut self, feedback: &TransportFeedback)
        ensures { self.new ≡ heard feedback.now.base feedback.now.statuses.items self.old }
    {
        let Some(base) = self.index_of(feedback.base) else {
            return;
        };
        let counted = up_to(&feedback.statuses, self.count - base);
        self.counted = self.counted.max(base + counted.len() as u64);
        if let Some(low) = last_time(counted) {
            self.clock = extend_u32(Some(self.clock), low);
        }
    }
}

/// Returns the first statuses, at most `most` of them.
fn up_to(statuses: &[Option<u32>], most: u64) -> &[Option<u32>]
    ensures value { result.now ≡ take most statuses.now }
    ensures within { length result.now ≤ most }
{
    if most >= statuses.len() as u64 {
        return statuses;
    }
    &statuses[..most as usize]
}

/// Returns the statuses from this place on.
fn from_place(statuses: &[Option<u32>], place: u64) -> &[Option<u32>]
    ensures value { result.now ≡ drop place statuses.now }
    ensures within { length result.now ≡ length statuses.now - place }
{
    if place >= statuses.len() as u64 {
        return &[];
    }
    &statuses[place as usize..]
}

/// Appends the numbers of the packets from `from` on that these statuses report lost.
fn append_lost_from(
    from: u64,
    statuses: &[Option<u32>],
    lost: &mut Vec<u16>,
) -> Result<(), AllocError>
    requires { from + length statuses.now < 2 ^ 64 }
    ensures { OnOk result (lost.new.items ≡ lost.old.items ++ lost_from from statuses.now) }
{
    for (place, status) in statuses.iter().enumerate() {
        if status.is_none() {
            lost.push(((from + place as u64) % 65_536) as u16)?;
        }
    }
    Ok(())
}

/// Returns the time of the last packet that arrived.
#[tactic(auto, using(crate::proofs::DepartureLemmas::time_or_more))]
fn last_time(statuses: &[Option<u32>]) -> Option<u32>
    ensures { result ≡ last_time statuses.now }
{
    let mut last = None;
    for status in statuses {
        if status.is_some() {
            last = *status;
        }
    }
    last
}

/// Returns what a status says, in microseconds of the receiver's clock.
fn outcome_by(clock: u64, status: Option<u32>) -> PacketOutcome
    ensures { result ≡ outcome_by clock status }
{
    match status {
        Some(low) => PacketOutcome::Arrived(extend_u32(Some(clock), low).saturating_mul(250)),
        None => PacketOutcome::Lost,
    }
}

/// Returns what a status says of a packet.
fn fate_by(clock: u64, departure: Departure, status: Option<u32>) -> PacketFate
    ensures { result ≡ fate_by clock departure status }
{
    PacketFate {
        sent: departure.at,
        size: departure.size,
        outcome: outcome_by(clock, status),
    }
}

/// Returns that feedback of a packet was lost.
fn unknown_fate(departure: Departure) -> PacketFate
    ensures { result ≡ unknown_fate departure }
{
    PacketFate {
        sent: departure.at,
        size: departure.size,
        outcome: PacketOutcome::Unknown,
    }
}
