//! The rows of held packets, as noted at their ends: the first and the last packet of a row each hold the number of the other.
//!
//! So the buffer keeps no list of rows. A push, an eviction and a pop write only to the ends of the rows that they change.

ghost use Rattle.std.specs.Prelude.{if◌then◌else◌, ◌≡◌, ◌≢◌, ◌≤◌, ◌<◌, ◌+◌, ◌==◌, true, false, not, ℕ, IfSome, Option, length, map, slice_index_or, slice_set};
ghost use Rattle.codec_payload_buffer.specs.Held.{held_of, Rises, TakesLowest, has_number, placed};
ghost use Rattle.codec_payload_buffer.specs.Frames.{frames};
ghost use Rattle.codec_payload_buffer.specs.Scan.{place_of};
ghost use Rattle.codec_payload_buffer.specs.Rows.{row_of, rows, merged, first_mended};
ghost use Rattle.codec_payload_buffer.specs.Ends.{mark_of, mark_at, no_mark, IsTold, AreTold, next_of, previous_of, ahead, behind, row_ending, marked, IsLowestRow, IsBeyond};
ghost use Rattle.codec_payload_buffer.specs.declared.buffer.held_packet.HeldPacket.{HeldPacket as Entry};

use super::frames::{CompleteFrame, frame_of, is_frame_before};
use super::held_packet::{HeldPacket, Packet};
use super::packets::take_lowest;
use super::rows::{Row, frame_of_left, is_next, join, meets, shorten};
use codec_payload_queue::tiers::{Noted, TieredQueue};

/// Returns the row from `first` to the packet at `place`, which is its last.
#[inline(always)]
fn row_to(packets: &TieredQueue<HeldPacket>, first: u64, place: usize) -> Row
    requires { place < length packets.now.items }
    ensures { (x : Entry) × (x ≡ slice_index_or packets.now.items place x) × (result ≡ row_ending first x) }
{
    let last = packets.at(place);
    Row {
        first,
        last: last.number,
        time: last.packet.known.time(),
        head: last.packet.row_head,
        tail: last.packet.tail,
    }
}

/// Joins a row with the row that begins at `place`, if they meet.
#[inline(always)]
fn join_next(packets: &TieredQueue<HeldPacket>, place: usize, row: Row) -> Row
    requires rises { Rises (map held_of packets.now.items) }
    requires told { AreTold (rows (map held_of packets.now.items)) (map mark_of packets.now.items) }
    requires place { place ≡ place_of row.last (map held_of packets.now.items) }
    requires fresh { has_number row.last (map held_of packets.now.items) ≡ false }
    ensures { result ≡ ahead row (next_of row.last (rows (map held_of packets.now.items))) }
{
    if row.tail {
        return row;
    }
    if place == packets.len() {
        return row;
    }
    let entry = packets.at(place);
    if !is_next(row.last, entry.number) {
        return row;
    }
    let after = (entry.packet.other_end - entry.number) as usize;
    let next = row_to(packets, entry.number, place + after);
    if meets(&row, &next) {
        join(row, next)
    } else {
        row
    }
}

/// Joins a row with the row that ends in front of `place`, if they meet.
#[inline(always)]
fn join_previous(packets: &TieredQueue<HeldPacket>, place: usize, row: Row) -> Row
    requires rises { Rises (map held_of packets.now.items) }
    requires told { AreTold (rows (map held_of packets.now.items)) (map mark_of packets.now.items) }
    requires place { place ≡ place_of row.first (map held_of packets.now.items) }
    requires fresh { has_number row.first (map held_of packets.now.items) ≡ false }
    ensures { result ≡ behind row (previous_of row.first (rows (map held_of packets.now.items))) }
{
    if place == 0 {
        return row;
    }
    let entry = packets.at(place - 1);
    if !is_next(entry.number, row.first) {
        return row;
    }
    if entry.packet.tail {
        return row;
    }
    let previous = row_to(packets, entry.packet.other_end, place - 1);
    if meets(&previous, &row) {
        join(previous, row)
    } else {
        row
    }
}

/// Returns the row of a new packet once it is at its place: `row` is the packet alone.
///
/// If each packet below is a frame by itself, the list of frames shows that the row does not join the previous one. Then the
/// previous packet is not read, which most likely is in no cache of the processor.
#[inline(always)]
pub(super) fn row_with(
    packets: &TieredQueue<HeldPacket>,
    complete: &TieredQueue<CompleteFrame>,
    place: usize,
    row: Row,
) -> Row
    requires complete { complete.now.items ≡ frames (map held_of packets.now.items) }
    requires rises { Rises (map held_of packets.now.items) }
    requires told { AreTold (rows (map held_of packets.now.items)) (map mark_of packets.now.items) }
    requires one { row.first ≡ row.last }
    requires place { place ≡ place_of row.last (map held_of packets.now.items) }
    requires fresh { has_number row.last (map held_of packets.now.items) ≡ false }
    ensures { result ≡ merged row (rows (map held_of packets.now.items)) }
{
    let first = row.first;
    let row = join_next(packets, place, row);
    if place < packets.len() && is_frame_before(complete, place, first) {
        return row;
    }
    join_previous(packets, place, row)
}

/// What the first and the last packet of a row note about it.
#[derive(Clone, Copy, Debug)]
pub(super) struct RowNote {
    other_end: u64,
    row_head: Option<u64>,
}

impl Noted<RowNote> for HeldPacket {
    ghost is_noted = { λ before note after. (held_of after ≡ held_of before) × (mark_of after ≡ marked (mark_of before) note.other_end note.row_head) };

    #[inline(always)]
    fn note(&mut self, note: RowNote) {
        self.packet.other_end = note.other_end;
        self.packet.row_head = note.row_head;
    }
}

/// Notes the other end of a row, and its head, in the packet at `place`.
#[inline(never)]
fn set_mark(
    packets: &mut TieredQueue<HeldPacket>,
    place: usize,
    other_end: u64,
    row_head: Option<u64>,
)
    requires { place < length packets.old.items }
    ensures held { map held_of packets.new.items ≡ map held_of packets.old.items }
    ensures marks { map mark_of packets.new.items ≡ slice_set (map mark_of packets.old.items) place (marked (slice_index_or (map mark_of packets.old.items) place no_mark) other_end row_head) }
    ensures room { packets.old.room ≤ packets.new.room }
{
    packets.note(
        place,
        RowNote {
            other_end,
            row_head,
        },
    );
}

/// Notes a row at both of its ends, the packets at `from` and `to`.
#[inline(always)]
fn set_ends(packets: &mut TieredQueue<HeldPacket>, from: usize, to: usize, row: Row)
    requires rises { Rises (map held_of packets.old.items) }
    requires from { from ≡ place_of row.first (map held_of packets.old.items) }
    requires to { to ≡ place_of row.last (map held_of packets.old.items) }
    requires first { has_number row.first (map held_of packets.old.items) ≡ true }
    requires last { has_number row.last (map held_of packets.old.items) ≡ true }
    ensures held { map held_of packets.new.items ≡ map held_of packets.old.items }
    ensures told { IsTold row (map mark_of packets.new.items) }
    ensures others { (k : ℕ) → k ≢ row.first → k ≢ row.last → mark_at k (map mark_of packets.new.items) ≡ mark_at k (map mark_of packets.old.items) }
    ensures room { packets.old.room ≤ packets.new.room }
{
    set_mark(packets, from, row.last, None);
    set_mark(packets, to, row.first, row.head);
}

/// Notes its row in a packet that is not held yet, if it is the first or the last packet of the row.
#[inline(always)]
fn noted(packet: HeldPacket, row: Row) -> HeldPacket
    ensures held { held_of result ≡ held_of packet }
    ensures mark { mark_of result ≡ (if packet.number == row.last then marked (mark_of packet) row.first row.head else marked (mark_of packet) row.last Option.None) }
{
    let number = packet.number;
    let mut packet = packet;
    if number == row.last {
        packet.note(RowNote {
            other_end: row.first,
            row_head: row.head,
        });
    } else {
        packet.note(RowNote {
            other_end: row.last,
            row_head: None,
        });
    }
    packet
}

/// Inserts a packet at its place; `row` is its row after that. The caller has reserved the room.
#[inline(always)]
pub(super) fn place_at(
    packets: &mut TieredQueue<HeldPacket>,
    place: usize,
    packet: HeldPacket,
    row: Row,
)
    requires rises { Rises (map held_of packets.old.items) }
    requires told { AreTold (rows (map held_of packets.old.items)) (map mark_of packets.old.items) }
    requires place { place ≡ place_of packet.number (map held_of packets.old.items) }
    requires fresh { has_number packet.number (map held_of packets.old.items) ≡ false }
    requires room { 0 < packets.old.room }
    requires row { row ≡ merged (row_of (held_of packet)) (rows (map held_of packets.old.items)) }
    requires few { length packets.old.items < usize.MAX }
    ensures held { map held_of packets.new.items ≡ placed (held_of packet) (map held_of packets.old.items) }
    ensures told { AreTold (rows (map held_of packets.new.items)) (map mark_of packets.new.items) }
    ensures room { packets.old.room ≤ packets.new.room + 1 }
{
    let first = row.first;
    let last = row.last;
    let head = row.head;
    let number = packet.number;
    let before = (number - first) as usize;
    let after = (last - number) as usize;
    let packet = noted(packet, row);
    packets.insert(place, packet);
    if before > 0 {
        set_mark(packets, place - before, last, None);
    }
    if after > 0 {
        set_mark(packets, place + after, first, head);
    }
}

/// Returns the lowest row.
fn lowest_row(packets: &TieredQueue<HeldPacket>) -> Row
    requires rises { Rises (map held_of packets.now.items) }
    requires told { AreTold (rows (map held_of packets.now.items)) (map mark_of packets.now.items) }
    requires some { 0 < length packets.now.items }
    ensures { IsLowestRow (rows (map held_of packets.now.items)) result }
{
    let entry = packets.at(0);
    let after = (entry.packet.other_end - entry.number) as usize;
    row_to(packets, entry.number, after)
}

/// Notes the rest of the lowest row at both of its ends.
fn set_lowest_ends(packets: &mut TieredQueue<HeldPacket>, rest: &Option<Row>)
    requires rises { Rises (map held_of packets.old.items) }
    requires lowest { IfSome rest.now (λ row. IsLowestRow (rows (map held_of packets.old.items)) row) }
    ensures held { map held_of packets.new.items ≡ map held_of packets.old.items }
    ensures told { IfSome rest.now (λ row. IsTold row (map mark_of packets.new.items)) }
    ensures others { (k : ℕ) → IsBeyond rest.now k → mark_at k (map mark_of packets.new.items) ≡ mark_at k (map mark_of packets.old.items) }
    ensures room { packets.old.room ≤ packets.new.room }
{
    match rest {
        Some(row) => set_ends(packets, 0, (row.last - row.first) as usize, *row),
        None => {}
    }
}

/// Removes the lowest packet. Returns its number, the frame of its row before that, and the frame of the row after that.
pub(super) fn evict(
    packets: &mut TieredQueue<HeldPacket>,
    spare: &mut Vec<Box<Packet>>,
) -> (u64, Option<CompleteFrame>, Option<CompleteFrame>)
    requires rises { Rises (map held_of packets.old.items) }
    requires told { AreTold (rows (map held_of packets.old.items)) (map mark_of packets.old.items) }
    requires some { 0 < length packets.old.items }
    ensures lowest { TakesLowest (map held_of packets.old.items) result.0 (map held_of packets.new.items) }
    ensures frames { first_mended result.1 result.2 (frames (map held_of packets.old.items)) ≡ frames (map held_of packets.new.items) }
    ensures some { IfSome result.1 (λ _. 0 < length (frames (map held_of packets.old.items))) }
    ensures told { AreTold (rows (map held_of packets.new.items)) (map mark_of packets.new.items) }
    ensures room { packets.old.room ≤ packets.new.room }
{
    let row = lowest_row(packets);
    let number = take_lowest(packets, spare);
    let rest = shorten(&row, packets);
    set_lowest_ends(packets, &rest);
    (number, frame_of(&row), frame_of_left(&rest))
}
