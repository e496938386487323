//! The bound of units: how many bytes a unit may have, and what was above that.

ghost use Rattle.std.specs.Prelude.{◌≡◌, ◌+◌, ◌%◌, ◌^◌, if◌then◌else◌};
ghost use Rattle.codec_payload_buffer.specs.Steps.{popped_to};
ghost use Rattle.codec_payload_receiver.specs.Bounds.{counters_with, is_over, new_bound, with_over};
ghost use Rattle.codec_payload_receiver.specs.Pops.{bound_if, is_large};

use codec_payload_base::error::PacketError;
use codec_payload_buffer::buffer::{Depacketized, PoppedUnit};
use codec_payload_jitter::outcome::PacketCounters;

/// How many bytes a unit may have, and what was above that.
#[derive(Clone, Copy, Debug)]
pub(crate) struct UnitBound {
    /// The largest number of bytes. `None`: no bound.
    most: Option<usize>,
    /// How many units had more, modulo 2^64.
    units: u64,
    /// How many packets these units had, modulo 2^64.
    packets: u64,
}

impl UnitBound {
    /// Returns this bound, before any unit.
    pub(crate) fn new(most: Option<usize>) -> UnitBound
        ensures { result ≡ new_bound most }
    {
        UnitBound {
            most,
            units: 0,
            packets: 0,
        }
    }

    /// Returns whether a unit with these bytes is above the bound.
    #[inline(always)]
    pub(crate) fn is_over(&self, bytes: &[u8]) -> bool
        ensures { result ≡ is_over self.now.most bytes.now }
    {
        match self.most {
            Some(most) => bytes.len() > most,
            None => false,
        }
    }

    /// Returns whether this answer of a pop is a unit above the bound.
    #[inline(always)]
    pub(crate) fn is_large(&self, answer: &Option<Result<Depacketized, PacketError>>) -> bool
        ensures { result ≡ is_large self.now.most answer.now }
    {
        match answer {
            Some(Ok(unit)) => self.is_over(&unit.bytes),
            _ => false,
        }
    }

    /// Returns the same for an answer whose unit is in memory that is used again.
    #[inline(always)]
    pub(crate) fn is_large_in(
        &self,
        answer: &Option<Result<(), PacketError>>,
        unit: &PoppedUnit,
    ) -> bool
        ensures { result ≡ is_large self.now.most (popped_to answer.now unit.now) }
    {
        match answer {
            Some(Ok(())) => self.is_over(unit.bytes.as_slice()),
            _ => false,
        }
    }

    /// Counts the unit of this answer if it is above the bound. Returns whether it is.
    #[inline(always)]
    pub(crate) fn note(&mut self, answer: &Option<Result<Depacketized, PacketError>>) -> bool
        ensures large { result ≡ is_large self.old.most answer.now }
        ensures after { self.new ≡ bound_if (is_large self.old.most answer.now) self.old answer.now }
    {
        match answer {
            Some(Ok(unit)) => self.note_unit(&unit.bytes, unit.meta().len()),
            _ => false,
        }
    }

    /// Does the same for an answer whose unit is in memory that is used again.
    #[inline(always)]
    pub(crate) fn note_in(
        &mut self,
        answer: &Option<Result<(), PacketError>>,
        unit: &PoppedUnit,
    ) -> bool
        ensures large { result ≡ is_large self.old.most (popped_to answer.now unit.now) }
        ensures after { self.new ≡ bound_if (is_large self.old.most (popped_to answer.now unit.now)) self.old (popped_to answer.now unit.now) }
    {
        match answer {
            Some(Ok(())) => self.note_unit(unit.bytes.as_slice(), unit.packets()),
            _ => false,
        }
    }

    /// Counts a unit with these bytes and this number of packets if it is above the bound. Returns whether it is.
    #[inline(always)]
    fn note_unit(&mut self, bytes: &[u8], packets: usize) -> bool
        ensures large { result ≡ is_over self.old.most bytes.now }
        ensures after { self.new ≡ if is_over self.old.most bytes.now then with_over packets self.old else self.old }
    {
        if !self.is_over(bytes) {
            return false;
        }
        self.units = self.units.wrapping_add(1);
        self.packets = self.packets.wrapping_add(packets as u64);
        true
    }

    /// Returns how many units were above the bound.
    pub(crate) fn units(&self) -> u64
        ensures { result ≡ self.now.units }
    {
        self.units
    }

    /// Returns these counters with the units above the bound among the refused frames.
    pub(crate) fn counters_with(&self, mut counters: PacketCounters) -> PacketCounters
        ensures counters { result ≡ counters_with self.now counters }
        // A packet is released or discarded.
        ensures sum { (result.released + result.left) % 2 ^ 64 ≡ (counters.released + counters.left) % 2 ^ 64 }
    {
        counters.released = counters.released.wrapping_sub(self.packets);
        counters.left = counters.left.wrapping_add(self.packets);
        counters.refused = counters.refused.wrapping_add(self.packets);
        counters.units = counters.units.wrapping_sub(self.units);
        counters
    }
}
