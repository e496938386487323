//! A popped unit in memory that the next pop uses again.

ghost use Rattle.std.specs.Prelude.{◌≡◌, ◌<◌, IsSome, None, Some, is_some, length, option_map};
ghost use Rattle.codec_payload_core.specs.Steps.{Pops};
ghost use Rattle.codec_payload_receiver.specs.Pops.{NamesFault, PopsGated, is_large};
ghost use Rattle.codec_payload_handle.specs.Slots.{IsLent, IsWritten, PopsFrom, PopsTo, TellsValuesOf};

use crate::bytes::fill;
use crate::extension_values::{ExtensionValues, values_of};
use crate::unit::{Unit, describe_popped};
use codec_payload_core::buffer::{DepacketizingBuffer, PoppedPackets, PoppedUnit};
use codec_payload_core::error::PacketError;
use codec_payload_core::wire::Ticks;
use codec_payload_receiver::pops::Popped;
use codec_payload_receiver::receiver::Receiver;
use std::alloc::{AllocError, Global};
use std::marker::Model;
use std::mem;

/// The largest number of bytes that an empty slot keeps for the next unit.
pub(crate) const MOST_BYTES: usize = 8_192;

/// The largest number of packets for which an empty slot keeps memory.
pub(crate) const MOST_PACKETS: usize = 8;

/// A popped unit, or none. A slot without a unit keeps memory for the next one: at most 8,192 bytes, and 8 packets. What is in
/// that memory is unspecified.
#[derive(Drop)]
pub struct UnitSlot {
    is_some: bool,
    unit: PoppedUnit,
}

impl Model for UnitSlot {
    ghost use Rattle.std.specs.Prelude.{◌≡◌, ◌<◌, None, Option, Some, if◌then◌else◌, length, true};
    ghost use Rattle.codec_payload_core.specs.Release.{Release};

    ghost Value = { Option Release };

    ghost view = { λ s. if s.is_some then Some s.unit else None };

    ghost invariant = { λ s. s.is_some ≡ true → 0 < length s.unit.metas };
}

impl UnitSlot {
    /// Returns a slot without a unit. Allocates nothing.
    pub fn new(alloc: Global) -> Self
        ensures { result ≡ None }
    {
        UnitSlot {
            is_some: false,
            unit: PoppedUnit::new(alloc),
        }
    }

    /// Returns whether there is a unit.
    #[inline(always)]
    pub fn is_some(&self) -> bool
        ensures { result ≡ is_some self.now }
    {
        self.is_some
    }

    /// Pops the next unit of a buffer into the slot, which had none.
    #[inline(always)]
    pub fn pop_buffer(
        &mut self,
        buffer: &mut DepacketizingBuffer,
    ) -> Option<Result<(), PacketError>>
        ensures { PopsTo (λ answer. Pops buffer.old answer buffer.new) result self.new }
    {
        match buffer.pop_unit(&mut self.unit) {
            Some(Ok(())) => {
                self.is_some = true;
                Some(Ok(()))
            }
            Some(Err(fault)) => {
                self.is_some = false;
                Some(Err(fault))
            }
            None => {
                self.is_some = false;
                None
            }
        }
    }

    /// Pops the next unit of a receiver of datagrams into the slot, which had none. A refused frame or a unit that is too large
    /// leaves it without one.
    #[inline(always)]
    pub fn pop_receiver(
        &mut self,
        receiver: &mut Receiver,
        now: Ticks,
    ) -> Option<Result<Popped<()>, AllocError>>
        ensures pops { PopsFrom (λ large answer. PopsGated now.0 receiver.old answer receiver.new × (large ≡ is_large receiver.old.bound.most answer)) result self.new }
        ensures refused { NamesFault result }
    {
        match receiver.pop_unit(now, &mut self.unit) {
            Some(Ok(Popped::Unit(()))) => {
                self.is_some = true;
                Some(Ok(Popped::Unit(())))
            }
            Some(Ok(Popped::TooLarge(()))) => {
                self.is_some = false;
                Some(Ok(Popped::TooLarge(())))
            }
            Some(Ok(Popped::Refused(fault))) => {
                self.is_some = false;
                Some(Ok(Popped::Refused(fault)))
            }
            Some(Err(e)) => {
                self.is_some = false;
                Some(Err(e))
            }
            None => {
                self.is_some = false;
                None
            }
        }
    }

    /// Describes the unit, and copies its bytes to the front of the output buffer, if that is large enough. Returns whether it
    /// is.
    #[inline(always)]
    pub fn write(&self, unit: &mut Unit, bytes: &mut [u8]) -> bool
        requires { IsSome self.now }
        ensures { IsWritten self.now result unit.new bytes.old bytes.new }
    {
        describe_popped(unit, &self.unit);
        fill(bytes, &self.unit.bytes)
    }

    /// Drops the unit, if there is one, and keeps its memory for the next unit.
    #[inline(always)]
    pub fn clear(&mut self, alloc: Global)
        ensures { self.new ≡ None }
    {
        self.is_some = false;
        self.unit.free_above(alloc, MOST_BYTES, MOST_PACKETS);
    }

    /// Moves the packets of the unit, if there is one, to `taken`, whose packets are dropped. The slot then has no unit.
    #[inline(always)]
    pub fn move_to(&mut self, taken: &mut TakenPackets, alloc: Global)
        ensures moved { taken.new ≡ option_map (λ u. u.metas) self.old }
        ensures empty { self.new ≡ None }
    {
        taken.is_some = self.is_some;
        self.is_some = false;
        self.unit.move_packets(&mut taken.packets);
        self.clear(alloc);
    }

    /// Describes the unit, and moves its bytes to `lent` and its packets to `taken`, in place of those that were there. The slot
    /// then has no unit, and keeps the memory that `lent` had for the next one.
    #[inline(always)]
    pub fn lend_to(
        &mut self,
        alloc: Global,
        unit: &mut Unit,
        lent: &mut Vec<u8>,
        taken: &mut TakenPackets,
    )
        requires { IsSome self.old }
        ensures { IsLent self.old unit.new lent.new.items taken.new self.new }
    {
        describe_popped(unit, &self.unit);
        swap_bytes(lent, &mut self.unit);
        self.move_to(taken, alloc);
    }
}

/// Swaps the bytes of a unit with these.
#[inline(always)]
pub(crate) fn swap_bytes(bytes: &mut Vec<u8>, unit: &mut PoppedUnit)
    ensures bytes { bytes.new.items ≡ unit.old.bytes }
    ensures rest { unit.new ≡ record unit.old { bytes = bytes.old.items } }
{
    mem::swap(bytes, &mut unit.bytes);
}

/// The packets of the unit that the caller got last, or none.
#[derive(Drop)]
pub struct TakenPackets {
    is_some: bool,
    packets: PoppedPackets,
}

impl Model for TakenPackets {
    ghost use Rattle.std.specs.Prelude.{◌≡◌, ◌<◌, List, None, Option, Some, if◌then◌else◌, length, true};
    ghost use Rattle.codec_payload_core.specs.declared.buffer.RtpMeta.{RtpMeta};

    ghost Value = { Option (List RtpMeta) };

    ghost view = { λ t. if t.is_some then Some t.packets else None };

    ghost invariant = { λ t. t.is_some ≡ true → 0 < length t.packets };
}

impl TakenPackets {
    /// Returns no packets. Allocates nothing.
    pub fn new(alloc: Global) -> Self
        ensures { result ≡ None }
    {
        TakenPackets {
            is_some: false,
            packets: PoppedPackets::new(alloc),
        }
    }

    /// Moves the packets of a unit here, and drops those that were here. What packets the unit has then is unspecified.
    pub fn take_from(&mut self, unit: &mut PoppedUnit)
        requires { 0 < length unit.old.metas }
        ensures { self.new ≡ Some unit.old.metas }
    {
        self.is_some = true;
        unit.move_packets(&mut self.packets);
    }

    /// Returns the values of header extensions of the unit, if there was one.
    pub fn values(&self) -> Option<ExtensionValues>
        ensures { TellsValuesOf self.now result }
    {
        if self.is_some {
            Some(values_of(&self.packets.ext_vals()))
        } else {
            None
        }
    }
}
