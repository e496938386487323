//! A kept list of the missing numbers of a jitter buffer, so that those that did not change are not searched again.

ghost use Rattle.std.specs.Prelude.{◌≡◌, ◌≤◌, ◌++◌, OnOk, IfOk, false, length, take};
ghost use Rattle.codec_payload_buffer.specs.Steps.{IsSound, is_at_most};
ghost use Rattle.codec_payload_jitter.specs.KeptMissing.{Keeps, nothing_kept, touched, touched_from, touched_if, touched_range, within};
ghost use Rattle.codec_payload_jitter.specs.KeptRenewing.{Extends, IsExact, changed_from, raised};
ghost use Rattle.codec_payload_jitter.specs.Missing.{absent_between};

use crate::jitter::JitterBuffer;
use crate::missing::first_absent;
use codec_payload_buffer::buffer::DepacketizingBuffer;
use codec_payload_codec::codec::Depacketizer;
use std::alloc::{AllocError, Global};
use std::marker::Model;
use std::mem::swap;

/// All missing numbers from `low` up to `high`, exclusive, as they were when they were asked for. Only numbers from `from` up to
/// `to`, exclusive, may have changed since.
#[derive(Debug, Drop)]
pub(crate) struct KeptMissing {
    numbers: Vec<u64>,
    /// Memory for the next list.
    spare: Vec<u64>,
    low: u64,
    high: u64,
    from: u64,
    to: u64,
}

impl Model for KeptMissing {
    ghost use Rattle.codec_payload_jitter.specs.KeptMissing.{Kept};

    ghost Value = { Kept };

    ghost view = { λ k. record { numbers = k.numbers.items; low = k.low; high = k.high; from = k.from; to = k.to } };
}

impl KeptMissing {
    /// Returns a list of no numbers. Allocates nothing.
    pub(crate) fn new(alloc: Global) -> KeptMissing
        ensures { result ≡ nothing_kept }
    {
        KeptMissing {
            numbers: Vec::new(alloc),
            spare: Vec::new(alloc),
            low: 0,
            high: 0,
            from: u64::MAX,
            to: 0,
        }
    }

    /// Returns the allocator.
    pub(crate) fn alloc(&self) -> Global {
        *self.numbers.allocator()
    }

    /// Returns the kept numbers, at most `most` of them.
    pub(crate) fn first(&self, most: usize) -> &[u64]
        ensures { result.now ≡ take most self.now.numbers }
    {
        &self.numbers[..most.min(self.numbers.len())]
    }

    /// Records that this number may have changed: it was stored, noted or forgotten.
    #[inline(always)]
    pub(crate) fn touch(&mut self, number: u64)
        ensures { self.new ≡ touched number self.old }
    {
        if number < self.high {
            self.from = self.from.min(number);
            self.to = self.to.max(number + 1);
        }
    }

    /// Records that this number may have changed, if there is one.
    #[inline(always)]
    pub(crate) fn touch_if(&mut self, number: Option<u64>)
        ensures { self.new ≡ touched_if number self.old }
    {
        if let Some(number) = number {
            self.touch(number);
        }
    }

    /// Records that the numbers from `first` up to `end`, exclusive, may have changed. A call for the first and one for the last of them
    /// would not do: a number from `high` on is left out.
    pub(crate) fn touch_range(&mut self, first: u64, end: u64)
        ensures { self.new ≡ touched_range first end self.old }
    {
        if first < self.high {
            self.from = self.from.min(first);
            self.to = self.to.max(end);
        }
    }

    /// Records that all numbers from this one on may have changed, if there is one.
    pub(crate) fn touch_from(&mut self, first: Option<u64>)
        ensures { self.new ≡ touched_from first self.old }
    {
        if let Some(first) = first {
            self.touch_range(first, self.high);
        }
    }

    /// Makes the kept numbers exact again, from `next` on, until there are `most` of them or `end` is reached.
    pub(crate) fn renew<B: Depacketizer>(
        &mut self,
        packets: &JitterBuffer<B>,
        next: u64,
        end: u64,
        most: usize,
    ) -> Result<(), AllocError>
        requires order { next ≤ end }
        requires over { is_at_most packets.now.buffer.cutoff next ≡ false }
        requires keeps { Keeps self.old packets.now.buffer packets.now.no_media_numbers }
        ensures keeps { Keeps self.new packets.now.buffer packets.now.no_media_numbers }
        ensures ok { OnOk result (take most self.new.numbers ≡ take most (absent_between packets.now next end)) }
    {
        self.raise(next);
        if self.low != next || self.from < self.high || end < self.high {
            self.renew_changed(packets, next, end)?;
        }
        self.extend(packets, next, end, most)
    }

    /// Moves the start up to `next`, if no number is kept.
    #[inline(always)]
    fn raise(&mut self, next: u64)
        ensures { self.new ≡ raised next self.old }
    {
        if self.numbers.is_empty() {
            self.low = self.low.max(next);
        }
    }

    /// Returns the first number from `next` on that may have changed, at most `high`.
    fn changed_from(&self, next: u64, high: u64) -> u64
        ensures { result ≡ changed_from next high self.now }
    {
        if next < self.low {
            next
        } else {
            self.from.max(next).min(high)
        }
    }

    /// Searches the numbers that may have changed, and keeps all others from `next` up to `end`.
    #[inline(never)]
    fn renew_changed<B: Depacketizer>(
        &mut self,
        packets: &JitterBuffer<B>,
        next: u64,
        end: u64,
    ) -> Result<(), AllocError>
        requires order { next ≤ end }
        requires over { is_at_most packets.now.buffer.cutoff next ≡ false }
        requires keeps { Keeps self.old packets.now.buffer packets.now.no_media_numbers }
        ensures keeps { Keeps self.new packets.now.buffer packets.now.no_media_numbers }
        ensures ok { OnOk result (IsExact packets.now next end self.new) }
    {
        let high = self.high.max(next).min(end);
        let from = self.changed_from(next, high);
        let to = self.to.max(self.low).max(from).min(high);
        self.spare.clear();
        copy_within(&self.numbers, next, from, &mut self.spare)?;
        search(packets, from, to, &mut self.spare)?;
        copy_within(&self.numbers, to, high, &mut self.spare)?;
        swap(&mut self.numbers, &mut self.spare);
        self.low = next;
        self.high = high;
        self.from = u64::MAX;
        self.to = 0;
        Ok(())
    }

    /// Searches the numbers behind the exact ones, up to `end`, until there are `most`.
    fn extend<B: Depacketizer>(
        &mut self,
        packets: &JitterBuffer<B>,
        next: u64,
        end: u64,
        most: usize,
    ) -> Result<(), AllocError>
        requires order { next ≤ end }
        requires exact { IsExact packets.now next end self.old }
        ensures keeps { Keeps self.new packets.now.buffer packets.now.no_media_numbers }
        ensures ok { OnOk result (take most self.new.numbers ≡ take most (absent_between packets.now next end)) }
    {
        let from = self.high.max(next);
        let len = self.numbers.len();
        match append_absent(packets, from, end, most, &mut self.numbers) {
            Ok(high) => {
                self.high = high;
                Ok(())
            }
            Err(error) => {
                self.numbers.truncate(len);
                Err(error)
            }
        }
    }
}

/// Appends the numbers from `low` up to `high`, exclusive.
fn copy_within(numbers: &[u64], low: u64, high: u64, out: &mut Vec<u64>) -> Result<(), AllocError>
    ensures { OnOk result (out.new.items ≡ out.old.items ++ within low high numbers.now) }
{
    for number in numbers {
        if low <= *number && *number < high {
            out.push(*number)?;
        }
    }
    Ok(())
}

/// Appends the missing numbers from `from` up to `to`, exclusive.
fn search<B: Depacketizer>(
    packets: &JitterBuffer<B>,
    from: u64,
    to: u64,
    out: &mut Vec<u64>,
) -> Result<(), AllocError>
    ensures { OnOk result (out.new.items ≡ out.old.items ++ absent_between packets.now from to) }
{
    let mut next = from;
    let mut place = 0;
    while let Some(number) = first_absent(packets, &mut place, next, to) {
        out.push(number)?;
        next = number + 1;
    }
    Ok(())
}

/// Appends the missing numbers from `from` on, until `out` has `most` numbers or `to` is reached. Returns the number up to which it
/// searched.
fn append_absent<B: Depacketizer>(
    packets: &JitterBuffer<B>,
    from: u64,
    to: u64,
    most: usize,
    out: &mut Vec<u64>,
) -> Result<u64, AllocError>
    requires { from ≤ to }
    ensures ok { IfOk result (λ high. Extends packets.now from to most out.old.items high out.new.items) }
    ensures kept { take (length out.old.items) out.new.items ≡ out.old.items }
{
    let mut next = from;
    // If no number is missing, this is the place of the first one.
    let mut place = packets
        .held()
        .saturating_sub((to - from).saturating_add(1) as usize);
    while out.len() < most {
        let Some(number) = first_absent(packets, &mut place, next, to) else {
            return Ok(to);
        };
        out.push(number)?;
        next = number + 1;
    }
    Ok(next)
}

/// Proves that the held packets rise, and are above the cutoff. Does nothing else.
#[inline(always)]
pub(crate) fn is_sound<B: Depacketizer>(buffer: &DepacketizingBuffer<B>)
    ensures { IsSound buffer.now }
{
    buffer.held();
}
