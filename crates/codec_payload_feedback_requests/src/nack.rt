//! When to request missing packets (generic NACK: RFC 4585, section 6.2.1).

ghost use Rattle.std.specs.Prelude.{◌≡◌, ◌==◌, ◌++◌, [], IsTrue, length, map, OnErr, OnOk, take};
ghost use Rattle.std.specs.Option.{option_map};
ghost use Rattle.codec_payload_feedback_requests.specs.NackRuns.{Apart, Bounded, Exact, FollowsMost, Missing, OnTime, Reported};
ghost use Rattle.codec_payload_feedback_requests.specs.NackSchedule.{answer_time, after_answer, after_due, answer_of, are_rising, due_in, due_numbers, earliest_of, followed, is_past, kept_if_first, low_bits, new_request, new_schedule, numbers_of, refreshed, refreshed_with, reported_as, requested_by, retry_for, retry_time, skipped_below, slowest_of, sure_answer_time, tried_if_due, tried_in};
ghost use Rattle.codec_payload_feedback_requests.specs.Requests.{earlier, has_come};
ghost use Rattle.codec_payload_feedback_requests.specs.RoundTrips.{known_trip};

use crate::round_trip::RoundTrip;
use codec_payload_base::wire::Ticks;
use std::alloc::{AllocError, Global};
use std::marker::Model;
use std::mem::swap;

/// When missing packets are requested. Times are in ticks of your clock; the defaults are for milliseconds. Any values may
/// be given.
#[derive(Clone, Copy, Debug, PartialEq, Eq)]
pub struct NackSettings {
    /// Ticks from the moment that a number is first reported missing until its first request. 10 by default: packets that are only
    /// reordered arrive in that time. With 0 each gap is requested at once.
    pub first_wait: u64,
    /// Ticks between two requests of a number while the round-trip time is unknown. 100 by default.
    pub retry: u64,
    /// The least number of ticks between two requests of a number once the round-trip time is known. 20 by default.
    pub shortest_retry: u64,
    /// The largest number of ticks between two requests of a number once the round-trip time is known. 400 by default. If it is
    /// below `shortest_retry`, it wins.
    pub longest_retry: u64,
    /// How often a number is requested at most. 6 by default. With 0 nothing is requested.
    pub tries: u32,
    /// How many missing numbers are followed at most: the lowest. 1,024 by default. One takes 48 bytes, twice.
    pub capacity: usize,
}

impl NackSettings {
    /// Returns the defaults, for a clock in milliseconds.
    pub fn live() -> NackSettings
        ensures { result ≡ record { first_wait = 10; retry = 100; shortest_retry = 20; longest_retry = 400; tries = 6; capacity = 1024 } }
    {
        NackSettings {
            first_wait: 10,
            retry: 100,
            shortest_retry: 20,
            longest_retry: 400,
            tries: 6,
            capacity: 1_024,
        }
    }

    /// Returns the number of ticks between two requests of a number at this round trip: 9/8 of it and half of `first_wait`, so that an
    /// answer that is a little late comes before the next request, within `shortest_retry` and `longest_retry`.
    pub fn retry_for(&self, round_trip: u64) -> u64
        ensures { result ≡ retry_for self.now round_trip }
    {
        round_trip
            .saturating_add(round_trip / 8)
            .saturating_add(self.first_wait / 2)
            .max(self.shortest_retry)
            .min(self.longest_retry)
    }

    /// Returns the number of ticks from the moment that a number is first reported missing until its last request is answered, if two
    /// requests are `retry` ticks apart: `first_wait`, and `tries` times `retry`. 2^64 - 1 if it is longer.
    pub fn answer_time(&self, retry: u64) -> u64
        ensures { result ≡ answer_time self.now retry }
    {
        retry
            .saturating_mul(u64::from(self.tries))
            .saturating_add(self.first_wait)
    }
}

/// A missing number, and when it is requested.
#[derive(Clone, Copy, Debug, PartialEq, Eq)]
pub(crate) struct PendingRequest {
    number: u64,
    /// When it is requested next. `None`: it is not requested again.
    due: Option<u64>,
    /// When it was requested first; 0 if it was not.
    first: u64,
    /// How often it was requested.
    tries: u32,
    /// The longest time between two of its requests, or from the last one on; 0 if it was not requested.
    gap: u64,
}

/// The missing numbers of one stream, and when each is requested.
///
/// Hand it the numbers that `Receiver::missing` reports by [`NackSchedule::refresh`], and send a NACK for the numbers that
/// [`NackSchedule::take_due`] appends. Call both after each datagram and at [`NackSchedule::next_deadline`].
#[derive(Debug, Drop)]
pub struct NackSchedule {
    settings: NackSettings,
    pending: Vec<PendingRequest>,
    /// Memory for the next table.
    spare: Vec<PendingRequest>,
    /// The round-trip time, by the answers and by reports.
    trip: RoundTrip,
    /// The earliest moment at which a number is due.
    earliest: Option<u64>,
    /// The longest time between two requests of a number.
    slowest: u64,
}

impl Model for NackSchedule {
    ghost use Rattle.codec_payload_feedback_requests.specs.NackSchedule.{IsOrdered, Schedule};

    ghost Value = { Schedule };

    ghost view = { λ s. record { settings = s.settings; pending = s.pending.items; trip = s.trip } };

    ghost invariant = { λ s. IsOrdered s.pending.items s.earliest s.slowest };
}

impl NackSchedule {
    /// Returns a schedule without missing numbers. Does not allocate.
    pub fn new(alloc: Global, settings: NackSettings) -> NackSchedule
        ensures { result ≡ new_schedule settings }
    {
        NackSchedule {
            settings,
            pending: Vec::new(alloc),
            spare: Vec::new(alloc),
            trip: RoundTrip::new(),
            earliest: None,
            slowest: 0,
        }
    }

    /// Replaces the missing numbers, which rise; a number that is not above all numbers before it is ignored. A number that was
    /// missing before keeps its times and its tries. A new number is first due after `first_wait`. Numbers that are no longer
    /// missing are not requested again. Cost: one step for each old and each new number; if the numbers are those of the last
    /// call, one comparison for each.
    ///
    /// # Errors
    ///
    /// Out of memory: the schedule is unchanged.
    pub fn refresh(&mut self, now: Ticks, missing: &[u64]) -> Result<(), AllocError>
        ensures ok { OnOk result (self.new ≡ refreshed now.0 missing.now self.old) }
        ensures err { OnErr result (self.new ≡ self.old) }
    {
        if missing.len() <= self.settings.capacity && are_numbers_of(missing, &self.pending) {
            return Ok(());
        }
        self.spare.clear();
        merge(
            &self.settings,
            now.0,
            missing,
            &self.pending,
            &mut self.spare,
        )?;
        swap(&mut self.pending, &mut self.spare);
        self.earliest = earliest_of(&self.pending);
        self.slowest = slowest_of(&self.pending);
        Ok(())
    }

    /// Appends the sequence numbers (16 bits) that are to be requested now, lowest first, and counts them as requested. Each is due
    /// again after the retry time, until it was requested `tries` times.
    ///
    /// # Errors
    ///
    /// Out of memory: the schedule and `numbers` are unchanged.
    pub fn take_due(&mut self, now: Ticks, numbers: &mut Vec<u16>) -> Result<(), AllocError>
        ensures ok { OnOk result (self.new ≡ after_due now.0 self.old) }
        ensures numbers { OnOk result (numbers.new.items ≡ numbers.old.items ++ map low_bits (due_numbers now.0 self.old)) }
        ensures err { OnErr result (self.new ≡ self.old) }
        ensures unchanged { OnErr result (numbers.new.items ≡ numbers.old.items) }
    {
        self.append_due(now, numbers)?;
        self.count_due(now);
        Ok(())
    }

    /// Appends the same numbers as [`NackSchedule::take_due`], and does not count them as requested: call
    /// [`NackSchedule::count_due`] once the NACK is written.
    ///
    /// # Errors
    ///
    /// Out of memory: `numbers` is unchanged.
    pub fn append_due(&self, now: Ticks, numbers: &mut Vec<u16>) -> Result<(), AllocError>
        ensures ok { OnOk result (numbers.new.items ≡ numbers.old.items ++ map low_bits (due_numbers now.0 self.now)) }
        ensures err { OnErr result (numbers.new.items ≡ numbers.old.items) }
    {
        if !has_come(self.earliest, now.0) {
            return Ok(());
        }
        append_due(&self.pending, now.0, numbers)
    }

    /// Counts the numbers that are due now as requested. Each is due again after the retry time, until it was requested `tries` times.
    pub fn count_due(&mut self, now: Ticks)
        ensures { self.new ≡ after_due now.0 self.old }
    {
        if !has_come(self.earliest, now.0) {
            return;
        }
        let settings = self.settings;
        let retry = retry_time(&settings, &self.trip);
        try_due(settings.tries, retry, now.0, &mut self.pending);
        self.earliest = earliest_of(&self.pending);
        self.slowest = slowest_of(&self.pending);
    }

    /// Returns whether no number is missing, by the latest `refresh`.
    pub fn is_empty(&self) -> bool
        ensures { result ≡ (length self.now.pending == 0) }
    {
        self.pending.is_empty()
    }

    /// Returns when the next number is due. `None`: no number is due without a `refresh`. At that moment and later `take_due`
    /// appends at least one number, before it none.
    pub fn next_deadline(&self) -> Option<Ticks>
        ensures { option_map (λ at. at.0) result ≡ earliest_of self.now.pending }
    {
        match self.earliest {
            Some(at) => Some(Ticks(at)),
            None => None,
        }
    }

    /// Records that a retransmission of this sequence number (16 bits) arrived. Call it before the `refresh` after that datagram. The
    /// time since the first request of the number is a sample of the round trip. A number that was not requested changes nothing.
    pub fn answered(&mut self, now: Ticks, number: u16)
        ensures { self.new ≡ after_answer now.0 number self.old }
    {
        if let Some(request) = requested(&self.pending, number) {
            self.trip.note(now.0.saturating_sub(request.first));
        }
    }

    /// Sets the round trip that reports measured, in ticks: extended reports (RFC 3611), for example. It then counts in place of the
    /// answers. `None`: the answers count.
    pub fn set_reported(&mut self, round_trip: Option<u64>)
        ensures { self.new ≡ reported_as round_trip self.old }
    {
        self.trip.set_reported(round_trip);
    }

    /// Returns whether a missing number with these 16 bits was requested.
    pub fn has_requested(&self, number: u16) -> bool
        ensures { result ≡ requested_by number self.now }
    {
        requested(&self.pending, number).is_some()
    }

    /// Returns the round-trip time in ticks: what reports say, or else the median of the latest five answers. `None`: no request was
    /// answered.
    pub fn round_trip(&self) -> Option<u64>
        ensures { result ≡ known_trip self.now.trip }
    {
        self.trip.value()
    }

    /// Returns how long a packet that is missing is worth waiting for, in ticks: [`NackSettings::answer_time`] of the time between two
    /// requests, now or of a number that is missing. `None`: the round trip is not sure, since reports do not say it, and fewer than two
    /// requests were answered. The first answer alone may be a packet that came by itself.
    pub fn answer_time(&self) -> Option<u64>
        ensures { result ≡ sure_answer_time self.now }
    {
        match self.trip.sure_value() {
            Some(round_trip) => {
                let retry = self.settings.retry_for(round_trip).max(self.slowest);
                Some(self.settings.answer_time(retry))
            }
            None => None,
        }
    }

    /// Returns the number of ticks between two requests of a number: `retry`, or once the round-trip time is known that of
    /// [`NackSettings::retry_for`]; by one answer alone at least `retry`.
    pub fn retry_time(&self) -> u64
        ensures { result ≡ retry_time self.now.settings self.now.trip }
    {
        retry_time(&self.settings, &self.trip)
    }
}

/// Ticks between two requests of a number.
fn retry_time(settings: &NackSettings, trip: &RoundTrip) -> u64
    ensures { result ≡ retry_time settings.now trip.now }
{
    match trip.value() {
        None => settings.retry,
        Some(round_trip) => {
            let retry = settings.retry_for(round_trip);
            if trip.is_sure() {
                retry
            } else {
                retry.max(settings.retry)
            }
        }
    }
}

/// A number that is missing from now on.
fn new_request(settings: &NackSettings, now: u64, number: u64) -> PendingRequest
    ensures { result ≡ new_request settings.now now number }
{
    let due = if settings.tries > 0 {
        now.checked_add(settings.first_wait)
    } else {
        None
    };
    PendingRequest {
        number,
        due,
        first: 0,
        tries: 0,
        gap: 0,
    }
}

/// Whether the number is above the last one.
fn is_past(last: Option<u64>, number: u64) -> bool
    ensures { result ≡ is_past last number }
{
    match last {
        Some(last) => last < number,
        None => true,
    }
}

/// Returns the requests from the number on.
fn skip_below(number: u64, pending: &[PendingRequest]) -> &[PendingRequest]
    ensures { result.now ≡ skipped_below number pending.now }
{
    let mut rest = pending;
    while let [request, others @ ..] = rest {
        if number <= request.number {
            return rest;
        }
        rest = others;
    }
    rest
}

/// Returns the first request, if it is for the number, else a new request.
fn kept_if_first(
    settings: &NackSettings,
    now: u64,
    number: u64,
    rest: &[PendingRequest],
) -> PendingRequest
    ensures { result ≡ kept_if_first settings.now now number rest.now }
{
    match rest {
        [request, ..] if request.number == number => *request,
        _ => new_request(settings, now, number),
    }
}

/// Returns whether these are the numbers of the requests, one after another.
fn are_numbers_of(missing: &[u64], pending: &[PendingRequest]) -> bool
    ensures { IsTrue result → numbers_of pending.now ≡ missing.now }
{
    let mut rest = pending;
    for number in missing {
        match rest {
            [request, others @ ..] if request.number == *number => rest = others,
            _ => return false,
        }
    }
    rest.is_empty()
}

/// Appends a request for each missing number to `out`, which is empty, up to the capacity. `pending` has the numbers that were
/// missing before.
fn merge(
    settings: &NackSettings,
    now: u64,
    missing: &[u64],
    pending: &[PendingRequest],
    out: &mut Vec<PendingRequest>,
) -> Result<(), AllocError>
    requires empty { out.old.items ≡ [] }
    requires rising { IsTrue (are_rising (numbers_of pending.now)) }
    ensures { OnOk result (out.new.items ≡ refreshed_with settings.now now (followed settings.now missing.now) pending.now) }
{
    let mut rest = pending;
    let mut last = None;
    for number in missing {
        if out.len() >= settings.capacity {
            return Ok(());
        }
        if is_past(last, *number) {
            rest = skip_below(*number, rest);
            out.push(kept_if_first(settings, now, *number, rest))?;
            last = Some(*number);
        }
    }
    Ok(())
}

/// Appends the 16 bits of each number that is due. If memory runs out, some of them.
fn append_each_due(
    pending: &[PendingRequest],
    now: u64,
    numbers: &mut Vec<u16>,
) -> Result<(), AllocError>
    ensures ok { OnOk result (numbers.new.items ≡ numbers.old.items ++ map low_bits (due_in now pending.now)) }
    ensures kept { take (length numbers.old.items) numbers.new.items ≡ numbers.old.items }
{
    for request in pending {
        if has_come(request.due, now) {
            numbers.push((request.number % 65_536) as u16)?;
        }
    }
    Ok(())
}

/// Appends the 16 bits of each number that is due. If memory runs out, none.
fn append_due(
    pending: &[PendingRequest],
    now: u64,
    numbers: &mut Vec<u16>,
) -> Result<(), AllocError>
    ensures ok { OnOk result (numbers.new.items ≡ numbers.old.items ++ map low_bits (due_in now pending.now)) }
    ensures err { OnErr result (numbers.new.items ≡ numbers.old.items) }
{
    let len = numbers.len();
    let answer = append_each_due(pending, now, numbers);
    if answer.is_err() {
        numbers.truncate(len);
    }
    answer
}

/// Whether the moment has come.
fn has_come(at: Option<u64>, now: u64) -> bool
    ensures { result ≡ has_come at now }
{
    match at {
        Some(at) => at <= now,
        None => false,
    }
}

/// The request of a number after it was sent, if it is due.
fn tried_if_due(tries: u32, retry: u64, now: u64, request: PendingRequest) -> PendingRequest
    ensures { result ≡ tried_if_due tries retry now request }
{
    if !has_come(request.due, now) {
        return request;
    }
    let sent = request.tries.saturating_add(1);
    PendingRequest {
        number: request.number,
        due: if sent < tries {
            now.checked_add(retry)
        } else {
            None
        },
        first: if request.tries == 0 {
            now
        } else {
            request.first
        },
        tries: sent,
        gap: request.gap.max(retry),
    }
}

/// Counts each number that is due as requested.
fn try_due(tries: u32, retry: u64, now: u64, pending: &mut [PendingRequest])
    ensures { pending.new ≡ tried_in tries retry now pending.old }
{
    for request in pending.iter_mut() {
        *request = tried_if_due(tries, retry, now, *request);
    }
}

/// The earlier of two moments.
pub(crate) fn earlier(one: Option<u64>, other: Option<u64>) -> Option<u64>
    ensures { result ≡ earlier one other }
{
    match (one, other) {
        (Some(one), Some(other)) => Some(one.min(other)),
        (Some(one), None) => Some(one),
        (None, other) => other,
    }
}

/// The earliest moment at which one is due.
fn earliest_of(pending: &[PendingRequest]) -> Option<u64>
    ensures { result ≡ earliest_of pending.now }
{
    let mut earliest = None;
    for request in pending {
        earliest = earlier(earliest, request.due);
    }
    earliest
}

/// The longest time between two requests of a number.
fn slowest_of(pending: &[PendingRequest]) -> u64
    ensures { result ≡ slowest_of pending.now }
{
    let mut slowest = 0;
    for request in pending {
        slowest = slowest.max(request.gap);
    }
    slowest
}

/// The lowest number with these 16 bits that was requested.
fn requested(pending: &[PendingRequest], number: u16) -> Option<PendingRequest>
    ensures { result ≡ answer_of number pending.now }
{
    for request in pending {
        if request.tries > 0 && request.number % 65_536 == u64::from(number) {
            return Some(*request);
        }
    }
    None
}

/// Proves theorems for each sequence of calls. A number is requested only while it is missing, at most `tries` times, and not
/// within the retry time after its last request. A number is due exactly if it has waited. At the deadline and later a number is
/// due, before it none. While reports say no round trip, it is within any range in which more than half of the latest five samples are;
/// while they say one, it is that one. This function does nothing else.
pub fn nack_schedules_keep_their_settings()
    ensures exact { Exact }
    ensures missing { Missing }
    ensures bounded { Bounded }
    ensures apart { Apart }
    ensures on_time { OnTime }
    ensures follows_most { FollowsMost }
    ensures reported { Reported }
{}
