//! Numbers that carry no media: packets with padding only, and telephone events beside audio.

ghost use Rattle.std.specs.Prelude.{◌≡◌, ◌<◌, ◌==◌, ◌++◌, [], length, IfOk, OnErr, OnOk};
ghost use Rattle.std.specs.Vec.{vec_len, vec_capacity};
ghost use Rattle.std.specs.Option.{option_map};
ghost use Rattle.codec_payload_buffer.specs.Blanks.{is_right_after};
ghost use Rattle.codec_payload_buffer.specs.Steps.{is_at_most};
ghost use Rattle.codec_payload_jitter.specs.NoMediaNumbers.{below, no_media_in, kept_few, noted_no_media, is_done, passed_no_media, no_media_left, is_in, Rises};
ghost use Rattle.codec_payload_jitter.specs.NotedRanges.{latest_few, lowest_if_crowded, more_between, no_media_between, noted_between, numbers_below, numbers_from_on};
ghost use Rattle.codec_payload_jitter.specs.Missing.{numbers_between};
ghost use Rattle.codec_payload_jitter.specs.Staying.{lowest_if_full};

pub use crate::theorems::passes_no_media_alone;
use codec_payload_base::wire::SeqNo;
use codec_payload_buffer::buffer::DepacketizingBuffer;
use codec_payload_codec::codec::Depacketizer;
use std::alloc::{AllocError, Global};
use std::marker::Model;

/// The largest number of numbers that are remembered.
const MOST: usize = 1_024;

/// Numbers without media, in rising order, at most 1,024.
#[derive(Debug, Drop)]
pub(crate) struct NoMediaNumbers {
    numbers: Vec<u64>,
}

impl Model for NoMediaNumbers {
    ghost use Rattle.std.specs.Prelude.{◌-◌};
    ghost use Rattle.std.specs.Vec.{vec_len, vec_capacity};
    ghost use Rattle.codec_payload_jitter.specs.NoMediaNumbers.{Rises, Remembered};

    ghost Value = { Remembered };

    ghost view = { λ n. record { items = n.numbers.items; room = vec_capacity n.numbers - vec_len n.numbers } };

    ghost invariant = { λ n. Rises n.numbers.items };
}

impl NoMediaNumbers {
    /// Returns an empty list. Allocates nothing.
    pub(crate) fn new(alloc: Global) -> Self
        ensures { result.items ≡ [] }
    {
        NoMediaNumbers {
            numbers: Vec::new(alloc),
        }
    }

    /// Returns whether no number is remembered.
    #[inline(always)]
    pub(crate) fn is_empty(&self) -> bool
        ensures { result ≡ (length self.now.items == 0) }
    {
        self.numbers.is_empty()
    }

    /// Makes room for one more number.
    pub(crate) fn make_room(&mut self) -> Result<(), AllocError>
        ensures same { self.new.items ≡ self.old.items }
        ensures room { OnOk result (0 < self.new.room) }
    {
        self.numbers.reserve(1)
    }

    /// Notes a number for which there is room.
    pub(crate) fn note(&mut self, number: u64)
        requires { 0 < self.old.room }
        ensures { self.new.items ≡ noted_no_media number self.old.items }
    {
        note_in_room(&mut self.numbers, number);
    }

    /// Notes the numbers from `first` up to `end`, exclusive, in one pass. If there are then too many, the lowest are forgotten. Returns how
    /// many of the range were not noted before. If memory runs out, nothing changes.
    pub(crate) fn note_range(&mut self, first: u64, end: u64) -> Result<usize, AllocError>
        requires { first < end }
        ensures items { OnOk result (self.new.items ≡ noted_between first end self.old.items) }
        ensures count { IfOk result (λ count. count ≡ more_between first end self.old.items) }
        ensures err { OnErr result (self.new.items ≡ self.old.items) }
        ensures rises { Rises self.old.items }
    {
        let all = with_range(&self.numbers, first, end)?;
        let more = all.len().saturating_sub(self.numbers.len());
        self.numbers = latest_of(all)?;
        Ok(more)
    }

    /// Returns the lowest number, if `count` further numbers may not be noted without forgetting some.
    pub(crate) fn lowest_if_crowded(&self, count: u64) -> Option<u64>
        ensures { result ≡ lowest_if_crowded count self.now.items }
    {
        match self.numbers.first() {
            Some(lowest) if count.saturating_add(self.numbers.len() as u64) > MOST as u64 => {
                Some(*lowest)
            }
            _ => None,
        }
    }

    /// Returns the lowest number, if no further number can be noted without forgetting it.
    pub(crate) fn lowest_if_full(&self) -> Option<u64>
        ensures { result ≡ lowest_if_full self.now.items }
    {
        match self.numbers.first() {
            Some(lowest) if self.numbers.len() >= MOST => Some(*lowest),
            _ => None,
        }
    }

    /// Returns whether the number is remembered, by a search.
    pub(crate) fn contains(&self, number: u64) -> bool
        ensures { result ≡ is_in number self.now.items }
    {
        match self.numbers.binary_search(&number) {
            Ok(_) => true,
            Err(_) => false,
        }
    }

    /// Moves the cutoff of the buffer past the numbers without media that come right after it, and forgets these numbers.
    #[inline(always)]
    pub(crate) fn pass<B: Depacketizer>(&mut self, buffer: &mut DepacketizingBuffer<B>)
        ensures buffer { buffer.new ≡ passed_no_media buffer.old self.old.items }
        ensures numbers { self.new.items ≡ no_media_left buffer.old self.old.items }
    {
        pass_no_media_numbers(buffer, &mut self.numbers);
    }
}

/// Notes a number for which there is room.
fn note_in_room(no_media_numbers: &mut Vec<u64>, number: u64)
    requires { vec_len no_media_numbers.old < vec_capacity no_media_numbers.old }
    ensures { no_media_numbers.new.items ≡ noted_no_media number no_media_numbers.old.items }
{
    put_in(no_media_numbers, number);
    keep_few(no_media_numbers);
}

/// Forgets the lowest number if there are too many.
fn keep_few(no_media_numbers: &mut Vec<u64>)
    ensures { no_media_numbers.new.items ≡ kept_few no_media_numbers.old.items }
{
    if no_media_numbers.len() > MOST {
        no_media_numbers.remove(0);
    }
}

/// Inserts a number in its place, if it is not present.
fn put_in(no_media_numbers: &mut Vec<u64>, number: u64)
    requires { vec_len no_media_numbers.old < vec_capacity no_media_numbers.old }
    ensures { no_media_numbers.new.items ≡ no_media_in number no_media_numbers.old.items }
{
    let place = place_in(no_media_numbers, number);
    if place < no_media_numbers.len() && no_media_numbers[place] == number {
        return;
    }
    no_media_numbers.insert(place, number).unwrap();
}

/// Returns how many of the remembered numbers are below `number`.
fn place_in(no_media_numbers: &[u64], number: u64) -> usize
    ensures { result ≡ below number no_media_numbers.now }
{
    for (i, no_media_number) in no_media_numbers.iter().enumerate() {
        if *no_media_number >= number {
            return i;
        }
    }
    no_media_numbers.len()
}

/// Returns the numbers below `first`, those from `first` up to `end`, exclusive, and the numbers from `end` on.
fn with_range(numbers: &Vec<u64>, first: u64, end: u64) -> Result<Vec<u64>, AllocError>
    ensures { IfOk result (λ all. all.items ≡ no_media_between first end numbers.now.items) }
{
    let mut all = Vec::new(*numbers.allocator());
    append_below(numbers, first, &mut all)?;
    append_range(first, end, &mut all)?;
    append_from(numbers, end, &mut all)?;
    Ok(all)
}

/// Appends the numbers below `first`.
fn append_below(numbers: &[u64], first: u64, out: &mut Vec<u64>) -> Result<(), AllocError>
    ensures { OnOk result (out.new.items ≡ out.old.items ++ numbers_below first numbers.now) }
{
    for number in numbers {
        if *number < first {
            out.push(*number)?;
        }
    }
    Ok(())
}

/// Appends all numbers from `first` up to `end`, exclusive.
#[tactic(auto, using(crate::proofs::RangeLemmas::between_next, crate::proofs::RangeLemmas::between_none))]
fn append_range(first: u64, end: u64, out: &mut Vec<u64>) -> Result<(), AllocError>
    ensures { OnOk result (out.new.items ≡ out.old.items ++ numbers_between first end) }
{
    for number in first..end {
        out.push(number)?;
    }
    Ok(())
}

/// Appends the numbers from `end` on.
fn append_from(numbers: &[u64], end: u64, out: &mut Vec<u64>) -> Result<(), AllocError>
    ensures { OnOk result (out.new.items ≡ out.old.items ++ numbers_from_on end numbers.now) }
{
    for number in numbers {
        if *number >= end {
            out.push(*number)?;
        }
    }
    Ok(())
}

/// Returns the highest numbers, as many as are remembered.
fn latest_of(numbers: Vec<u64>) -> Result<Vec<u64>, AllocError>
    ensures { IfOk result (λ kept. kept.items ≡ latest_few numbers.items) }
{
    if numbers.len() <= MOST {
        return Ok(numbers);
    }
    let above = numbers.len() - MOST;
    Vec::from_slice(*numbers.allocator(), &numbers[above..])
}

/// Moves the cutoff of the buffer past the numbers without media that come right after it, and forgets these numbers.
#[inline(always)]
fn pass_no_media_numbers<B: Depacketizer>(
    buffer: &mut DepacketizingBuffer<B>,
    no_media_numbers: &mut Vec<u64>,
)
    ensures buffer { buffer.new ≡ passed_no_media buffer.old no_media_numbers.old.items }
    ensures no_media_numbers { no_media_numbers.new.items ≡ no_media_left buffer.old no_media_numbers.old.items }
{
    while !no_media_numbers.is_empty() {
        let number = SeqNo(no_media_numbers[0]);
        if !is_done(buffer, number) {
            return;
        }
        buffer.skip_number(number);
        no_media_numbers.remove(0);
    }
}

/// Returns whether the number is at or below the cutoff, or right after it and not held.
fn is_done<B: Depacketizer>(buffer: &DepacketizingBuffer<B>, number: SeqNo) -> bool
    ensures { result ≡ is_done buffer.now number.0 }
{
    let cutoff = buffer.cutoff();
    is_late(cutoff, number) || is_next(cutoff, number) && !buffer.holds(number)
}

/// Returns whether the number is at or below the cutoff.
pub(crate) fn is_late(cutoff: Option<SeqNo>, number: SeqNo) -> bool
    ensures { result ≡ is_at_most (option_map (λ c. c.0) cutoff) number.0 }
{
    match cutoff {
        Some(cutoff) => number.0 <= cutoff.0,
        None => false,
    }
}

/// Returns whether the number comes right after the cutoff.
fn is_next(cutoff: Option<SeqNo>, number: SeqNo) -> bool
    ensures { result ≡ is_right_after (option_map (λ c. c.0) cutoff) number.0 }
{
    match cutoff {
        Some(cutoff) => cutoff.0 < number.0 && number.0 - cutoff.0 == 1,
        None => false,
    }
}
