//! Two packets are stored at once: all memory is found before either is stored.

ghost use Rattle.std.specs.Prelude.{◌≡◌, ◌≤◌, ◌<◌, ◌+◌, ◌||◌, IfOk, OnErr, IfErr, OnOk, false, length, map};
ghost use Rattle.codec_payload_base.specs.declared.error.PacketError.TheVariants.{OutOfMemory};
ghost use Rattle.codec_payload_codec.specs.Depacketizers.{depacketizer_state_of, is_built_in_depacketizer};
ghost use Rattle.codec_payload_codec.specs.declared.codec.depacketizer.CodecDepacketizer.TheVariants.{Boxed};
ghost use Rattle.codec_payload_buffer.specs.Held.{held_of, Rises, number_of};
ghost use Rattle.codec_payload_buffer.specs.Frames.{frames};
ghost use Rattle.codec_payload_buffer.specs.Rows.{rows};
ghost use Rattle.codec_payload_buffer.specs.Ends.{mark_of, AreTold};
ghost use Rattle.codec_payload_buffer.specs.Steps.{State, IsArrived, arrived_by, placed_at, pushed};
ghost use Rattle.codec_payload_buffer.specs.Pairs.{StoresTwo, stored, IsAt, is_there};

use super::DepacketizingBuffer;
use super::ends::{evict, place_at, row_with};
use super::frames::{CompleteFrame, frame_of, mend_first, note};
use super::held_packet::{HeldPacket, Packet};
use super::packets::{find_place, hold, is_at, is_too_late};
use super::placed::{Placed, placed_among};
use super::rows::row_of_packet;
use codec_payload_base::error::PacketError;
use codec_payload_codec::codec::{CodecDepacketizer, Depacketizer};
use codec_payload_metadata::known::PackedMeta;
use codec_payload_metadata::meta::RtpMeta;
use codec_payload_queue::tiers::TieredQueue;
use std::alloc::Global;

/// The metadata of a packet, and its payload.
#[derive(Debug, Drop)]
pub struct Incoming {
    pub meta: RtpMeta,
    pub payload: Vec<u8>,
}

/// The number up to which packets are late, and the largest number of held packets.
#[derive(Clone, Copy, Debug)]
struct Bounds {
    cutoff: Option<u64>,
    limit: usize,
}

impl<B: Depacketizer> DepacketizingBuffer<B> {
    /// Stores two packets, one after the other, as [`DepacketizingBuffer::store`] does, and returns the result for each.
    /// Allocates for both, also for one that is dropped.
    ///
    /// # Errors
    ///
    /// Out of memory: neither packet is stored.
    pub fn store_two(
        &mut self,
        first: Incoming,
        second: Incoming,
    ) -> Result<(Placed, Placed), PacketError>
        ensures ok { IfOk result (λ both. StoresTwo self.old first second both self.new) }
        ensures err { OnErr result (self.new ≡ self.old) }
        ensures fault { IfErr result (λ f. f ≡ OutOfMemory) }
        ensures limit { self.new.limit ≡ self.old.limit }
        // A custom depacketizer decides whether the packets begin and end a unit.
        ensures own { is_built_in_depacketizer self.old.depacketizer ≡ false → OnOk result ((b : B) × (self.new ≡ pushed (pushed self.old (arrived_by (B.is_head b) (B.is_tail b) first.meta first.payload.items)) (arrived_by (B.is_head b) (B.is_tail b) second.meta second.payload.items))) }
    {
        self.packets.reserve(2)?;
        self.complete.reserve(2)?;
        let alloc = self.packets.alloc();
        let first = entry_of(alloc, &mut self.spare, &self.depacketizer, first)?;
        let second = entry_of(alloc, &mut self.spare, &self.depacketizer, second)?;
        let (one, gone) = store_entry(
            &mut self.packets,
            &mut self.complete,
            &mut self.spare,
            Bounds {
                cutoff: self.cutoff,
                limit: self.limit as usize,
            },
            first,
        );
        self.cutoff = gone.or(self.cutoff);
        self.evicted = is_marked(gone, self.evicted);
        let (two, gone) = store_entry(
            &mut self.packets,
            &mut self.complete,
            &mut self.spare,
            Bounds {
                cutoff: self.cutoff,
                limit: self.limit as usize,
            },
            second,
        );
        self.cutoff = gone.or(self.cutoff);
        self.evicted = is_marked(gone, self.evicted);
        Ok((one, two))
    }
}

/// Returns whether a packet was evicted now or before.
fn is_marked(gone: Option<u64>, before: bool) -> bool
    ensures { result ≡ (is_there gone || before) }
{
    gone.is_some() || before
}

/// Returns a packet as it is held. Allocates.
fn entry_of<B: Depacketizer>(
    alloc: Global,
    spare: &mut Vec<Box<Packet>>,
    depacketizer: &CodecDepacketizer<B>,
    packet: Incoming,
) -> Result<HeldPacket, PacketError>
    ensures arrived { IfOk result (λ entry. IsArrived (depacketizer_state_of depacketizer.now) packet.meta packet.payload.items (held_of entry)) }
    ensures own { IfOk result (λ entry. (b : B) → depacketizer.now ≡ Boxed b → held_of entry ≡ arrived_by (B.is_head b) (B.is_tail b) packet.meta packet.payload.items) }
    ensures fault { IfErr result (λ f. f ≡ OutOfMemory) }
{
    let head = depacketizer.is_partition_head(&packet.payload);
    let marker = packet.meta.header.marker;
    let tail = depacketizer.is_partition_tail(marker, &packet.payload);
    let known = PackedMeta::of(alloc, &packet.meta)?;
    Ok(hold(spare, Packet::of(known, packet.payload, head, tail))?)
}

/// Stores a packet for which there is memory. Returns the result, and the number of the packet that was evicted.
fn store_entry(
    packets: &mut TieredQueue<HeldPacket>,
    complete: &mut TieredQueue<CompleteFrame>,
    spare: &mut Vec<Box<Packet>>,
    bounds: Bounds,
    entry: HeldPacket,
) -> (Placed, Option<u64>)
    requires rises { Rises (map held_of packets.old.items) }
    requires told { AreTold (rows (map held_of packets.old.items)) (map mark_of packets.old.items) }
    requires complete { complete.old.items ≡ frames (map held_of packets.old.items) }
    requires few { length packets.old.items ≤ bounds.limit }
    requires most { bounds.limit ≤ 65536 }
    requires packet_room { 0 < packets.old.room }
    requires frame_room { 0 < complete.old.room }
    ensures placed { (s : State) → IsAt s (map held_of packets.old.items) bounds.cutoff bounds.limit → result.0 ≡ placed_at s (number_of (held_of entry)) }
    ensures pushes { (s : State) → IsAt s (map held_of packets.old.items) bounds.cutoff bounds.limit → stored s (map held_of packets.new.items) result.1 ≡ pushed s (held_of entry) }
    ensures rises { Rises (map held_of packets.new.items) }
    ensures told { AreTold (rows (map held_of packets.new.items)) (map mark_of packets.new.items) }
    ensures complete { complete.new.items ≡ frames (map held_of packets.new.items) }
    ensures few { length packets.new.items ≤ bounds.limit }
    ensures packet_room { packets.old.room ≤ packets.new.room + 1 }
    ensures frame_room { complete.old.room ≤ complete.new.room + 1 }
{
    let number = entry.number;
    if is_too_late(bounds.cutoff, number) {
        return (Placed::Late, None);
    }
    let place = find_place(packets, number);
    if is_at(packets, place, number) {
        return (Placed::Duplicate, None);
    }
    let placed = placed_among(packets, bounds.limit);
    let row = row_with(packets, complete, place, row_of_packet(&entry));
    place_at(packets, place, entry, row);
    note(complete, place, frame_of(&row));
    if packets.len() <= bounds.limit {
        return (placed, None);
    }
    let (number, before, after) = evict(packets, spare);
    mend_first(complete, before, after);
    (placed, Some(number))
}
