//! Rows: ranges of consecutive held packets in which a frame can be complete.

ghost use Rattle.std.specs.Prelude.{◌≡◌, ◌≤◌, ◌+◌, ◌==◌, map};
ghost use Rattle.codec_payload_buffer.specs.Held.{held_of};
ghost use Rattle.codec_payload_buffer.specs.Rows.{row_of, meet, joined, next_head, shortened, frame_of_rest, IsHeadKept};

use super::frames::{CompleteFrame, frame_of};
use super::held_packet::HeldPacket;
use codec_payload_base::wire::MediaTime;
use codec_payload_queue::tiers::TieredQueue;

/// A row: the longest range of held packets with consecutive numbers and one time, in which only the last packet can end a
/// unit.
#[derive(Clone, Copy, Debug)]
pub(super) struct Row {
    pub(super) first: u64,
    pub(super) last: u64,
    pub(super) time: MediaTime,
    /// The lowest number in the row of a packet that begins a unit.
    pub(super) head: Option<u64>,
    /// Whether the last packet ends a unit.
    pub(super) tail: bool,
}

/// Returns a packet as a row.
pub(super) fn row_of_packet(packet: &HeldPacket) -> Row
    ensures { result ≡ row_of (held_of packet.now) }
{
    let number = packet.number;
    Row {
        first: number,
        last: number,
        time: packet.packet.known.time(),
        head: if packet.packet.head {
            Some(number)
        } else {
            None
        },
        tail: packet.packet.tail,
    }
}

/// Returns whether the later row continues the earlier one: the next number, the same time, and no end of a unit between them.
pub(super) fn meets(earlier: &Row, later: &Row) -> bool
    ensures { result ≡ meet earlier.now later.now }
{
    earlier.last < later.first
        && later.first - earlier.last == 1
        && earlier.time == later.time
        && !earlier.tail
}

/// Returns whether `later` is the next number after `earlier`.
pub(super) fn is_next(earlier: u64, later: u64) -> bool
    ensures { result ≡ (earlier + 1 == later) }
{
    earlier < later && later - earlier == 1
}

/// Joins two rows that meet.
pub(super) fn join(earlier: Row, later: Row) -> Row
    ensures { result ≡ joined earlier later }
{
    Row {
        first: earlier.first,
        last: later.last,
        time: later.time,
        head: earlier.head.or(later.head),
        tail: later.tail,
    }
}

/// Returns the lowest number, up to `last`, of a packet that begins a unit.
fn find_head(packets: &TieredQueue<HeldPacket>, last: u64) -> Option<u64>
    ensures { result ≡ next_head last (map held_of packets.now.items) }
{
    for place in 0..packets.len() {
        let packet = packets.at(place);
        if packet.number > last {
            return None;
        }
        if packet.packet.head {
            return Some(packet.number);
        }
    }
    None
}

/// Returns the rest of a row after its first packet has left; `packets` are the remaining packets. It searches for the next
/// packet that begins a unit only if the first packet began one.
pub(super) fn shorten(row: &Row, packets: &TieredQueue<HeldPacket>) -> Option<Row>
    requires ends { row.now.first ≤ row.now.last }
    requires head { IsHeadKept row.now (map held_of packets.now.items) }
    ensures { result ≡ shortened row.now (map held_of packets.now.items) }
{
    if row.first == row.last {
        return None;
    }
    let head = if row.head == Some(row.first) {
        find_head(packets, row.last)
    } else {
        row.head
    };
    Some(Row {
        first: row.first + 1,
        last: row.last,
        time: row.time,
        head,
        tail: row.tail,
    })
}

/// Returns the frame of the rest of a row.
pub(super) fn frame_of_left(rest: &Option<Row>) -> Option<CompleteFrame>
    ensures { result ≡ frame_of_rest rest.now }
{
    match rest {
        Some(row) => frame_of(row),
        None => None,
    }
}
