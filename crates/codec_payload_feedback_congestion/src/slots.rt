//! Slots of numbers that follow one another.

ghost use Rattle.std.specs.Prelude.{◌≡◌, ℕ, ◌+◌, ◌-◌, ◌*◌, ◌/◌, ◌%◌, ◌<◌, ◌≤◌, ◌∷◌, [], ◌++◌, length, drop, replicate, slice_index_or, slice_set, OnOk, OnErr, Some, None};
ghost use Rattle.codec_payload_feedback_congestion.specs.Arrivals.{ahead_of};

use std::alloc::{AllocError, Global};
use std::marker::Model;

/// Slots of numbers that follow one another. Slots that are removed in front keep their memory until they are more than the others,
/// so that the others are seldom moved.
#[derive(Debug, Drop)]
pub(crate) struct Slots {
    items: Vec<Option<u32>>,
    /// How many slots in front were removed.
    removed: usize,
}

impl Model for Slots {
    ghost use Rattle.std.specs.Prelude.{◌≤◌, ◌+◌, drop, length, List, Option, ℕ};

    ghost Value = { List (Option ℕ) };

    ghost view = { λ s. drop s.removed s.items.items };

    ghost invariant = { λ s. s.removed + s.removed ≤ length s.items.items };
}

impl Slots {
    /// Returns no slots. Does not allocate.
    pub(crate) fn new(alloc: Global) -> Slots
        ensures { result ≡ [] }
    {
        Slots {
            items: Vec::new(alloc),
            removed: 0,
        }
    }

    /// Returns the number of slots.
    pub(crate) fn len(&self) -> usize
        ensures { result ≡ length self.now }
    {
        self.items.len() - self.removed
    }

    /// Returns the slots from a place on.
    pub(crate) fn from(&self, place: usize) -> &[Option<u32>]
        requires { place ≤ length self.now }
        ensures { result.now ≡ drop place self.now }
    {
        let (_, slots) = self.items.split_at(self.removed + place);
        slots
    }

    /// Returns the slot at a place.
    pub(crate) fn at(&self, place: usize) -> Option<u32>
        requires { place < length self.now }
        ensures { result ≡ slice_index_or self.now place result }
    {
        self.from(0)[place]
    }

    /// Fills the slot at a place.
    pub(crate) fn set(&mut self, place: usize, time: u32)
        requires { place < length self.old }
        ensures { self.new ≡ slice_set self.old place (Some time) }
    {
        self.items[self.removed + place] = Some(time);
    }

    /// Makes the slots one slot, of a number that arrived.
    pub(crate) fn begin(&mut self, time: u32) -> Result<(), AllocError>
        ensures ok { OnOk result (self.new ≡ Some time ∷ []) }
        ensures err { OnErr result (self.new ≡ self.old) }
    {
        begin(&mut self.items, time)?;
        self.removed = 0;
        Ok(())
    }

    /// Appends the slot of a number that arrived, behind `gap` that did not.
    pub(crate) fn append(&mut self, gap: usize, time: u32) -> Result<(), AllocError>
        requires few { length self.old ≤ 32768 }
        requires near { gap < 32768 }
        ensures ok { OnOk result (self.new ≡ self.old ++ (replicate gap None ++ Some time ∷ [])) }
        ensures err { OnErr result (self.new ≡ self.old) }
    {
        append(&mut self.items, gap, time)
    }

    /// Removes the first `count` slots.
    pub(crate) fn drop_front(&mut self, count: usize)
        requires { count ≤ length self.old }
        ensures { self.new ≡ drop count self.old }
    {
        let removed = self.removed + count;
        if removed <= self.items.len() - removed {
            self.removed = removed;
        } else {
            drop_front(&mut self.items, removed);
            self.removed = 0;
        }
    }

    /// Removes all slots. Keeps the memory.
    pub(crate) fn clear(&mut self)
        ensures { self.new ≡ [] }
    {
        self.items.clear();
        self.removed = 0;
    }
}

/// How many numbers are between the last slot and this number, modulo 2^16.
pub(crate) fn ahead_of(start: u16, len: usize, number: u16) -> u16
    requires { len ≤ 32768 }
    ensures { result ≡ ahead_of start len number }
{
    let end = start.wrapping_add(len as u16);
    number.wrapping_sub(end)
}

/// Makes the slots one slot, of a number that arrived.
fn begin(slots: &mut Vec<Option<u32>>, time: u32) -> Result<(), AllocError>
    ensures ok { OnOk result (slots.new.items ≡ Some time ∷ []) }
    ensures err { OnErr result (slots.new.items ≡ slots.old.items) }
{
    slots.resize(1, None)?;
    slots[0] = Some(time);
    Ok(())
}

/// Appends the slot of a number that arrived, behind `gap` that did not.
fn append(slots: &mut Vec<Option<u32>>, gap: usize, time: u32) -> Result<(), AllocError>
    requires { length slots.old.items + gap < 131072 }
    ensures ok { OnOk result (slots.new.items ≡ slots.old.items ++ (replicate gap None ++ Some time ∷ [])) }
    ensures err { OnErr result (slots.new.items ≡ slots.old.items) }
{
    let last = slots.len() + gap;
    slots.resize(last + 1, None)?;
    slots[last] = Some(time);
    Ok(())
}

/// Removes the first `count` slots.
fn drop_front(slots: &mut Vec<Option<u32>>, count: usize)
    requires { count ≤ length slots.old.items }
    ensures { slots.new.items ≡ drop count slots.old.items }
{
    let left = slots.len() - count;
    slots.copy_within(count.., 0);
    slots.truncate(left);
}
