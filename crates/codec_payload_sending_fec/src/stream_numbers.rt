//! The numbers of a stream in which packets of FEC follow the frames.

ghost use Rattle.std.specs.Prelude.{◌≡◌, ◌<◌, ◌+◌, ◌-◌, ◌%◌, length, slice_index_or, OnErr, OnOk};
ghost use Rattle.std.specs.VecDeque.{deque_len, deque_capacity};
ghost use Rattle.codec_payload_base.specs.Extended.{nearest};
ghost use Rattle.codec_payload_sending_fec.specs.StreamNumbers.{counted, floor_after, followed, is_highest, is_late, is_too_old, latest, next_number, none_so_far, noted, sent_as, without_later};
ghost use Rattle.codec_payload_sending_fec.specs.Steps.{steps_of};

use std::alloc::{AllocError, Global};
use std::collections::VecDeque;
use std::marker::Model;

/// How many times FEC is remembered.
const STEPS: usize = 64;

/// Packets of FEC that were written.
#[derive(Clone, Copy, Debug)]
pub(crate) struct FecStep {
    /// The number of the media that they follow.
    behind: u64,
    /// How many they are.
    count: u16,
}

/// The map from the numbers of the media to those of the stream: each is higher by the packets of FEC below it. So packets keep their
/// order, and a gap stays a gap of the same size.
#[derive(Debug, Drop)]
pub(crate) struct StreamNumbers {
    first: u16,
    highest: Option<u64>,
    shift: u16,
    floor: u64,
    steps: VecDeque<FecStep>,
}

impl Model for StreamNumbers {
    ghost use Rattle.codec_payload_sending_fec.specs.StreamNumbers.{Numbers};
    ghost use Rattle.codec_payload_sending_fec.specs.Steps.{steps_of};

    ghost Value = { Numbers };

    ghost view = { λ m. record { first = m.first; highest = m.highest; shift = m.shift; floor = m.floor; steps = steps_of m.steps.items } };
}

/// Returns the number nearest to `highest` with these low 16 bits.
fn nearest(highest: u64, number: u16) -> u64
    ensures { result ≡ nearest 65536 highest number }
{
    let ahead = (u64::from(number) + 65_536 - highest % 65_536) % 65_536;
    if ahead <= 32_768 {
        highest.wrapping_add(ahead)
    } else {
        highest.wrapping_sub(65_536 - ahead)
    }
}

/// Returns the step at a place.
fn step_at(steps: &VecDeque<FecStep>, place: usize) -> FecStep
    requires { place < length steps.now.items }
    ensures { result ≡ slice_index_or steps.now.items place result }
{
    steps[place]
}

/// Returns a number that is lower by `count`.
fn lower(number: u16, count: u16) -> u16
    ensures { result ≡ (number + 65536 - count) % 65536 }
{
    number.wrapping_sub(count)
}

/// Returns a number without the FEC that follows it.
fn without_later(number: u64, sent: u16, steps: &VecDeque<FecStep>) -> u16
    ensures { result ≡ without_later number sent (steps_of steps.now.items) }
{
    let mut answer = sent;
    for place in 0..steps.len() {
        let step = step_at(steps, place);
        if number > step.behind {
            return answer;
        }
        let lower = lower(answer, step.count);
        answer = lower;
    }
    answer
}

/// Forgets the oldest of 64 steps. Returns the number up to which packets are too old.
fn forget(floor: u64, steps: &mut VecDeque<FecStep>) -> u64
    requires { deque_len steps.old < deque_capacity steps.old }
    ensures floor { result ≡ floor_after floor (steps_of steps.old.items) }
    ensures steps { steps_of steps.new.items ≡ latest (steps_of steps.old.items) }
    ensures room { deque_len steps.new < deque_capacity steps.new }
{
    if steps.len() < STEPS {
        return floor;
    }
    let last = steps[STEPS - 1].behind;
    steps.truncate(STEPS - 1);
    last
}

impl StreamNumbers {
    /// Returns the map before any packet. Does not allocate.
    pub(crate) fn new(alloc: Global, first: u16) -> StreamNumbers
        ensures { result ≡ none_so_far first }
    {
        StreamNumbers {
            first,
            highest: None,
            shift: 0,
            floor: 0,
            steps: VecDeque::new(alloc),
        }
    }

    /// Returns a number of the media, counted without wrap.
    pub(crate) fn counted(&self, number: u16) -> u64
        ensures { result ≡ counted self.now.highest number }
    {
        match self.highest {
            None => 65_536 + u64::from(number),
            Some(highest) => nearest(highest, number),
        }
    }

    /// Returns the number under which a packet of the media is sent.
    pub(crate) fn sent_as(&self, number: u64) -> u16
        ensures { result ≡ sent_as self.now number }
    {
        match self.highest {
            None => self.first,
            Some(_) => {
                let sent = ((number % 65_536) as u16).wrapping_add(self.shift);
                without_later(number, sent, &self.steps)
            }
        }
    }

    /// Returns whether FEC follows a number.
    pub(crate) fn is_late(&self, number: u64) -> bool
        ensures { result ≡ is_late self.now number }
    {
        match self.steps.front() {
            None => false,
            Some(step) => number <= step.behind,
        }
    }

    /// Returns whether the FEC behind a number is not remembered any more.
    pub(crate) fn is_too_old(&self, number: u64) -> bool
        ensures { result ≡ is_too_old self.now number }
    {
        number <= self.floor
    }

    /// Returns whether a number is above all others.
    pub(crate) fn is_highest(&self, number: u64) -> bool
        ensures { result ≡ is_highest self.now.highest number }
    {
        match self.highest {
            None => true,
            Some(highest) => highest < number,
        }
    }

    /// Returns the number after the highest one.
    pub(crate) fn next_number(&self) -> u16
        ensures { result ≡ next_number self.now }
    {
        match self.highest {
            None => self.first,
            Some(highest) => ((highest % 65_536) as u16)
                .wrapping_add(1)
                .wrapping_add(self.shift),
        }
    }

    /// Notes a packet of the media.
    pub(crate) fn note(&mut self, number: u64)
        ensures { self.new ≡ noted number self.old }
    {
        match self.highest {
            None => {
                self.highest = Some(number);
                self.shift = self.first.wrapping_sub((number % 65_536) as u16);
            }
            Some(highest) => {
                if highest < number {
                    self.highest = Some(number);
                }
            }
        }
    }

    /// Notes packets of FEC behind the highest number.
    ///
    /// # Errors
    ///
    /// Out of memory: nothing changes.
    pub(crate) fn follow(&mut self, count: u16) -> Result<(), AllocError>
        ensures ok { OnOk result (self.new ≡ followed count self.old) }
        ensures err { OnErr result (self.new ≡ self.old) }
    {
        let Some(behind) = self.highest else {
            return Ok(());
        };
        self.steps.reserve(1)?;
        self.floor = forget(self.floor, &mut self.steps);
        self.steps.push_front_reserved(FecStep { behind, count });
        self.shift = self.shift.wrapping_add(count);
        Ok(())
    }
}
