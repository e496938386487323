//! When the streams of a session may have their next events, so that a poll asks only the streams whose time has come.

ghost use Rattle.std.specs.Prelude.{◌≡◌, ◌<◌, ◌≤◌, IfOk, Option, length, false, true};
ghost use Rattle.codec_payload_session_stream.specs.Turns.{StepsFirst};
ghost use Rattle.codec_payload_session_stream.specs.Units.{turn_to};
ghost use Rattle.codec_payload_session_stream.specs.Waking.{AllTimed, AllWake, Grows, Holds, IsBound, IsNext, IsTimed, SaysNothing};

use crate::stream::{StreamState, Turn, is_nothing};
use codec_payload_base::wire::Ticks;
use codec_payload_buffer::buffer::PoppedUnit;
use codec_payload_index::times::Times;
use std::alloc::{AllocError, Global};

/// A time for each stream of a list, before which it has neither an event nor a deadline; except for the stream that got the
/// latest datagram. A time may be earlier than the event, and never later.
#[derive(Debug, Drop)]
pub struct Waking {
    /// The time of each stream. What stands at the place of the one that is excepted, and behind the last stream, counts for no
    /// stream.
    pub times: Times,
    /// At most the least of these times.
    pub until: u64,
    /// The place of the stream that is excepted.
    pub fed: usize,
    /// The idle timeout with which the times were found.
    pub idle_timeout: u64,
    /// Whether the times are those of the streams. If not, `until` is 0.
    pub known: bool,
}

impl Waking {
    /// Returns times that are not known. Does not allocate.
    pub fn unknown(alloc: Global) -> Waking
        ensures { SaysNothing result }
    {
        Waking {
            times: Times::new(alloc),
            until: 0,
            fed: 0,
            idle_timeout: 0,
            known: false,
        }
    }

    /// Forgets the times, since streams have changed. Their memory stays.
    #[inline(always)]
    pub fn forget(&mut self)
        ensures { SaysNothing self.new }
    {
        self.until = 0;
        self.known = false;
    }

    /// Returns whether no stream has an event at this time, except the one that is excepted.
    #[inline(always)]
    pub fn holds(&self, now: Ticks, idle_timeout: u64) -> bool
        ensures { result ≡ true → Holds self.now now idle_timeout }
    {
        now.0 < self.until && self.idle_timeout == idle_timeout
    }

    /// Excepts the stream at this place, which gets a datagram.
    #[inline(always)]
    pub fn except(&mut self, place: usize, streams: &[StreamState])
        requires bound { IsBound self.old streams.now }
        requires within { place < length streams.now }
        ensures bound { IsBound self.new streams.now }
        ensures place { self.new.known ≡ true → self.new.fed ≡ place }
    {
        if self.known && self.fed != place {
            self.note(streams);
            self.leave_out(place, streams);
        }
    }

    /// Notes the time of the stream that was excepted.
    #[inline(always)]
    fn note(&mut self, streams: &[StreamState])
        requires { IsTimed self.old streams.now }
        ensures { AllTimed self.old.idle_timeout self.new streams.now }
    {
        let time = streams[self.fed].wakes_at(self.idle_timeout);
        self.times.set(self.fed, time);
    }

    /// Excepts the stream at this place.
    #[inline(always)]
    fn leave_out(&mut self, place: usize, streams: &[StreamState])
        requires timed { AllTimed self.old.idle_timeout self.old streams.now }
        requires within { place < length streams.now }
        ensures bound { IsBound self.new streams.now }
        ensures place { self.new.fed ≡ place }
    {
        self.times.set(place, u64::MAX);
        self.until = self.times.least();
        self.fed = place;
        self.known = true;
    }

    /// Keeps the times, and has the next poll ask by them.
    fn ask_again(&mut self, streams: &[StreamState])
        requires { AllTimed self.old.idle_timeout self.old streams.now }
        ensures { IsBound self.new streams.now }
    {
        self.until = 0;
        self.known = true;
    }

    /// Has the next poll ask the stream that is added behind the others, if the times have room for it.
    pub fn grow(&mut self, streams: &[StreamState])
        requires { IsBound self.old streams.now }
        ensures { Grows self.new streams.now }
    {
        if self.known && streams.len() < self.times.len() {
            self.times.set(streams.len(), 0);
            self.until = 0;
        } else {
            self.forget();
        }
    }

    /// Notes or finds the time of each stream. Without a stream, or if memory runs out, it returns `false`.
    #[inline(always)]
    pub fn find(&mut self, alloc: Global, streams: &[StreamState], idle_timeout: u64) -> bool
        requires { IsBound self.old streams.now }
        ensures found { result ≡ true → AllTimed idle_timeout self.new streams.now }
        ensures lost { result ≡ false → SaysNothing self.new }
    {
        if self.known && self.idle_timeout == idle_timeout {
            self.note(streams);
            return true;
        }
        self.forget();
        if streams.len() == 0 {
            return false;
        }
        self.fed = 0;
        self.idle_timeout = idle_timeout;
        find_times(&mut self.times, alloc, streams, idle_timeout)
    }
}

/// Replaces the times by those of these streams. If memory runs out, it returns `false`.
fn find_times(times: &mut Times, alloc: Global, streams: &[StreamState], idle_timeout: u64) -> bool
    ensures { result ≡ true → AllWake idle_timeout times.new streams.now }
{
    if times.len() < streams.len() {
        return match times_of(alloc, streams, idle_timeout) {
            Ok(found) => {
                *times = found;
                true
            }
            Err(_) => false,
        };
    }
    for place in streams.len()..times.len() {
        times.set(place, u64::MAX);
    }
    set_times(times, streams, idle_timeout);
    true
}

/// Replaces the first times by those of these streams.
fn set_times(times: &mut Times, streams: &[StreamState], idle_timeout: u64)
    requires { length streams.now ≤ length times.old }
    ensures { AllWake idle_timeout times.new streams.now }
{
    for place in 0..streams.len() {
        times.set(place, streams[place].wakes_at(idle_timeout));
    }
}

/// Returns the times of these streams, with room for about as many more.
fn times_of(alloc: Global, streams: &[StreamState], idle_timeout: u64) -> Result<Times, AllocError>
    ensures { IfOk result (λ times. AllWake idle_timeout times streams.now) }
{
    let mut times = Vec::new(alloc);
    for stream in streams {
        times.push(stream.wakes_at(idle_timeout))?;
    }
    for _ in 1..streams.len() {
        times.push(u64::MAX)?;
    }
    Times::of(alloc, times)
}

/// Asks the stream that is excepted for an event. The others have none.
#[inline(always)]
pub fn step_excepted(
    streams: &mut [StreamState],
    waking: &Waking,
    now: Ticks,
    idle_timeout: u64,
    unit: &mut PoppedUnit,
) -> Option<Turn<()>>
    requires bound { IsBound waking.now streams.old }
    requires holds { Holds waking.now now idle_timeout }
    ensures first { StepsFirst now idle_timeout streams.old (turn_to result unit.new) streams.new }
    ensures bound { IsBound waking.now streams.new }
{
    let place = waking.fed;
    if place >= streams.len() {
        return None;
    }
    let step = streams[place].step(now, idle_timeout, unit);
    if is_nothing(&step) {
        None
    } else {
        Some(Turn { place, step })
    }
}

/// Asks the streams whose time has come, in order, until one has an event.
pub fn step_due(
    waking: &mut Waking,
    streams: &mut [StreamState],
    now: Ticks,
    idle_timeout: u64,
    unit: &mut PoppedUnit,
) -> Option<Turn<()>>
    requires { AllTimed idle_timeout waking.old streams.old }
    ensures first { StepsFirst now idle_timeout streams.old (turn_to result unit.new) streams.new }
    ensures bound { IsBound waking.new streams.new }
{
    let turn = ask_due(&mut waking.times, streams, now, idle_timeout, unit);
    if turn.is_none() {
        waking.leave_out(waking.fed, streams);
    } else {
        waking.ask_again(streams);
    }
    turn
}

/// Does the same with the times alone, and notes the time of each stream that it asked.
fn ask_due(
    times: &mut Times,
    streams: &mut [StreamState],
    now: Ticks,
    idle_timeout: u64,
    unit: &mut PoppedUnit,
) -> Option<Turn<()>>
    requires { AllWake idle_timeout times.old streams.old }
    ensures first { StepsFirst now idle_timeout streams.old (turn_to result unit.new) streams.new }
    ensures timed { AllWake idle_timeout times.new streams.new }
{
    let mut from = 0;
    while let Some(place) = next_due(&*times, from, now, streams.len()) {
        let step = streams[place].step(now, idle_timeout, unit);
        times.set(place, streams[place].wakes_at(idle_timeout));
        if !is_nothing(&step) {
            return Some(Turn { place, step });
        }
        from = place + 1;
    }
    None
}

/// Returns the first of `count` places from `from` on whose time has come.
#[inline(always)]
fn next_due(times: &Times, from: usize, now: Ticks, count: usize) -> Option<usize>
    requires { count ≤ length times.now }
    ensures { IsNext from now count times.now result }
{
    let Some(place) = times.first_from(from, now.0) else {
        return None;
    };
    if place < count { Some(place) } else { None }
}
