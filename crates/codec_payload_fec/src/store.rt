//! The latest packets of a stream.

ghost use Rattle.std.specs.Prelude.{◌≡◌, ◌%◌, ◌==◌, IfOk, None, OnErr, OnOk, length, replicate, slice_index_or, ◌<◌};
ghost use Rattle.std.specs.Option.{option_map};
ghost use Rattle.codec_payload_fec.specs.Rebuilding.{found_in, matching};
ghost use Rattle.codec_payload_fec.specs.Stores.{kept, no_packets, no_slots, slots_of};
ghost use Rattle.codec_payload_fec.specs.Strings.{number_of};

use std::alloc::{AllocError, Global};
use std::marker::Model;

/// How many packets are kept.
const KEPT: usize = 512;

/// A packet at its place.
#[derive(Drop)]
struct Slot {
    /// How often the store had been cleared before the packet came.
    clears: u64,
    packet: Vec<u8>,
}

/// The latest packets of a stream, each at its number modulo 512. A packet replaces the one at its place.
#[derive(Drop)]
pub struct PacketStore {
    alloc: Global,
    slots: Vec<Option<Slot>>,
    /// How often the store was cleared. A packet from before the latest time is no longer kept; its memory is freed with its place.
    clears: u64,
    /// The largest packet that is kept, in bytes.
    largest: usize,
}

impl Model for PacketStore {
    ghost use Rattle.codec_payload_fec.specs.Stores.{IsStored, Store, slots_of};

    ghost Value = { Store };

    ghost view = { λ s. record { slots = slots_of s.clears s.slots.items; largest = s.largest } };

    ghost invariant = { λ s. IsStored s.clears s.slots.items };
}

/// Returns the sequence number of a packet; 0 for fewer than 4 bytes.
#[tactic(auto, unfolding(crate::specs::Strings::number_of))]
pub(crate) fn number_of(packet: &[u8]) -> u16
    ensures { result ≡ number_of packet.now }
{
    let [_b0, _b1, n1, n0, ..] = packet else {
        return 0;
    };
    u16::from_be_bytes([*n1, *n0])
}

/// Returns the packet at a place, if it came after the store was cleared for the latest time.
fn slot_at(slots: &[Option<Slot>], clears: u64, place: usize) -> Option<&[u8]>
    requires { place < length slots.now }
    ensures { option_map (λ p. p.now) result ≡ slice_index_or (slots_of clears slots.now) place None }
{
    match &slots[place] {
        Some(slot) if slot.clears == clears => Some(slot.packet.as_slice()),
        _ => None,
    }
}

/// Returns a packet, if it has that number.
fn matching(number: u16, packet: Option<&[u8]>) -> Option<&[u8]>
    ensures { option_map (λ p. p.now) result ≡ matching number (option_map (λ p. p.now) packet.entry) }
{
    match packet {
        Some(packet) if number_of(packet) == number => Some(packet),
        _ => None,
    }
}

/// Returns 512 empty places.
fn empty_slots(alloc: Global) -> Result<Vec<Option<Slot>>, AllocError>
    ensures { IfOk result (λ v. v.items ≡ replicate 512 None) }
{
    let mut slots = Vec::with_capacity(alloc, KEPT)?;
    for _place in 0..KEPT {
        slots.push(None)?;
    }
    Ok(slots)
}

/// Empties each place.
fn empty(slots: &mut [Option<Slot>])
    ensures { slots.new ≡ replicate (length slots.old) None }
{
    for slot in slots.iter_mut() {
        *slot = None;
    }
}

impl PacketStore {
    /// Returns a store without packets. `bytes`: how much memory the packets may take in all. A packet that is larger than the 512th part
    /// of it is not kept.
    ///
    /// # Errors
    ///
    /// Out of memory: the places alone take 16 kB.
    pub fn new(alloc: Global, bytes: usize) -> Result<PacketStore, AllocError>
        ensures { IfOk result (λ s. s ≡ no_packets bytes) }
    {
        Ok(PacketStore {
            alloc,
            slots: empty_slots(alloc)?,
            clears: 0,
            largest: bytes / KEPT,
        })
    }

    /// Returns the packet with this number, if it is kept.
    pub fn find(&self, number: u16) -> Option<&[u8]>
        ensures { option_map (λ p. p.now) result ≡ found_in self.now.slots number }
    {
        matching(
            number,
            slot_at(
                self.slots.as_slice(),
                self.clears,
                usize::from(number) % KEPT,
            ),
        )
    }

    /// Keeps a copy of a packet, and drops the one at its place. A packet that is too large is not kept.
    ///
    /// # Errors
    ///
    /// Out of memory: nothing changes.
    pub fn keep(&mut self, packet: &[u8]) -> Result<(), AllocError>
        ensures ok { OnOk result (self.new ≡ kept packet.now self.old) }
        ensures err { OnErr result (self.new ≡ self.old) }
    {
        if packet.len() > self.largest {
            return Ok(());
        }
        let copy = Vec::from_slice(self.alloc, packet)?;
        let place = usize::from(number_of(packet)) % KEPT;
        self.slots[place] = Some(Slot {
            clears: self.clears,
            packet: copy,
        });
        Ok(())
    }

    /// Keeps a packet as [`PacketStore::keep`] does, without a copy. Does not allocate.
    pub fn put(&mut self, packet: Vec<u8>)
        ensures { self.new ≡ kept packet.items self.old }
    {
        let bytes = packet.as_slice();
        if bytes.len() > self.largest {
            return;
        }
        let place = usize::from(number_of(bytes)) % KEPT;
        self.slots[place] = Some(Slot {
            clears: self.clears,
            packet,
        });
    }

    /// Returns the largest packet that is kept, in bytes.
    pub fn largest(&self) -> usize
        ensures { result ≡ self.now.largest }
    {
        self.largest
    }

    /// Drops all packets. Does not allocate. The memory of a packet is given back when another one comes to its place.
    pub fn clear(&mut self)
        ensures { self.new ≡ record self.old { slots = no_slots } }
    {
        match self.clears.checked_add(1) {
            Some(clears) => self.clears = clears,
            None => {
                empty(self.slots.as_mut_slice());
                self.clears = 0;
            }
        }
    }
}
