//! Packetizing a frame straight into the output buffer, all packets in one call.

ghost use Rattle.std.specs.Prelude.{◌≡◌, ◌≢◌, ◌≤◌, ◌<◌, ◌+◌, ◌++◌, ◌==◌, ◌&&◌, ◌||◌, true, ℕ, Option, length, take, drop, slice_get};
ghost use Rattle.codec_payload_core.specs.Packetizers.{is_built_in, packetizer_state_of, marker_of, talk_spurt_of};
ghost use Rattle.codec_payload_c_packets.specs.Frames.{LaysFrame, LaysPackets, capped, laid, placed_at, rooms_in, size_with};

use crate::whole_frames::{hand_over_whole, is_sent_whole};
use codec_payload_core::codec::{CodecPacketizer, Packetizer};
use codec_payload_core::payloads::Payloads;
use codec_payload_handle::object::FrameSender;
use codec_payload_handle::settings::packetizer_as;
use codec_payload_handle::status;

/// How a frame is packetized, and how much room each packet gets.
#[repr(C)]
#[derive(Drop)]
pub struct FrameCut {
    /// The largest number of bytes of a payload.
    pub mtu: usize,
    /// How many bytes stay free in front of each payload.
    pub headroom: usize,
    /// How many bytes stay free after each payload.
    pub tailroom: usize,
    /// Whether the frame starts a talk spurt.
    pub starts_talk_spurt: bool,
}

/// A packet in the output buffer.
#[repr(C)]
#[derive(Clone, Copy)]
pub struct PlacedPacket {
    /// The offset of its payload.
    pub offset: usize,
    /// The number of bytes of its payload.
    pub bytes: usize,
    /// Whether the packet gets the marker of the RTP header.
    pub marker: bool,
    /// Whether a receiver may request the packet again.
    pub nackable: bool,
}

/// The output that the packets of a frame need.
#[repr(C)]
#[derive(Drop)]
pub struct FrameRoom {
    /// The number of bytes, with the room in front of and after each payload; at most `usize::MAX`.
    pub bytes: usize,
    /// The number of packets.
    pub count: usize,
}

/// Returns how many bytes the payloads need with their room, at most `usize::MAX`.
fn size_of(frame: &Payloads, cut: &FrameCut) -> usize
    ensures { result ≡ capped (size_with (rooms_in cut.now) frame.now.payloads) }
{
    let rooms = cut.headroom.saturating_add(cut.tailroom);
    let mut size: usize = 0;
    for place in 0..frame.len() {
        size = size
            .saturating_add(rooms)
            .saturating_add(frame.get(place).len());
    }
    size
}

/// Overwrites the bytes at a place.
pub(crate) fn put_at(bytes: &mut [u8], at: usize, given: &[u8])
    requires { at + length given.now ≤ length bytes.old }
    ensures { bytes.new ≡ take at bytes.old ++ (given.now ++ drop (at + length given.now) bytes.old) }
{
    let end = at + given.len();
    bytes[at..end].copy_from_slice(given);
}

/// Writes the payloads, and leaves the room between them unchanged.
fn lay(frame: &Payloads, cut: &FrameCut, bytes: &mut [u8])
    requires { size_with (rooms_in cut.now) frame.now.payloads ≤ length bytes.old }
    ensures { bytes.new ≡ laid cut.now.headroom cut.now.tailroom frame.now.payloads bytes.old }
{
    let mut at = 0;
    for place in 0..frame.len() {
        let payload = frame.get(place);
        put_at(bytes, at + cut.headroom, payload);
        at += cut.headroom + payload.len() + cut.tailroom;
    }
}

/// Returns whether the packet at a place gets the marker.
fn is_marked(packetizer: &mut CodecPacketizer, frame: &Payloads, place: usize, starts: bool) -> bool
    requires { place < length frame.now.payloads }
    ensures marker { is_built_in (packetizer_state_of packetizer.old) ≡ true → result ≡ (marker_of (packetizer_state_of packetizer.old) (place + 1 == length frame.now.payloads) || (starts && talk_spurt_of (packetizer_state_of packetizer.old))) }
    ensures same { packetizer_state_of packetizer.new ≡ packetizer_state_of packetizer.old }
{
    let last = frame.len() - place == 1;
    let previous = match place.checked_sub(1) {
        Some(before) => Some(frame.get(before)),
        None => None,
    };
    let marked = starts && packetizer.marks_talkspurt();
    packetizer.is_marker(frame.get(place), previous, last) || marked
}

/// Describes each packet: its place, and the values for its header.
fn report_packets(
    packetizer: &mut CodecPacketizer,
    frame: &Payloads,
    cut: &FrameCut,
    packets: &mut [PlacedPacket],
)
    requires built_in { is_built_in (packetizer_state_of packetizer.old) ≡ true }
    requires room { length frame.now.payloads ≤ length packets.old }
    requires size { size_with (rooms_in cut.now) frame.now.payloads ≤ 18446744073709551615 }
    ensures told { (place : ℕ) → place < length frame.now.payloads → slice_get packets.new place ≡ Option.Some (placed_at (packetizer_state_of packetizer.old) cut.now frame.now.payloads place) }
    ensures behind { drop (length frame.now.payloads) packets.new ≡ drop (length frame.now.payloads) packets.old }
    ensures same { packetizer_state_of packetizer.new ≡ packetizer_state_of packetizer.old }
{
    let mut at = 0;
    for place in 0..frame.len() {
        let bytes = frame.get(place).len();
        packets[place] = PlacedPacket {
            offset: at + cut.headroom,
            bytes,
            marker: is_marked(packetizer, frame, place, cut.starts_talk_spurt),
            nackable: packetizer.nackable(),
        };
        at += cut.headroom + bytes + cut.tailroom;
    }
}

/// Writes the packets of the sender's frame to the output, if there is room for them.
fn hand_over(
    sender: &mut FrameSender,
    cut: &FrameCut,
    bytes: &mut [u8],
    packets: &mut [PlacedPacket],
    room: &mut FrameRoom,
) -> u32
    requires { is_built_in (packetizer_state_of sender.old.packetizer) ≡ true }
    ensures lays { LaysPackets sender.old.frame.payloads (packetizer_state_of sender.old.packetizer) cut.now result (record { before = bytes.old; bytes = bytes.new; told_before = packets.old; told = packets.new; room = room.new }) }
    ensures packetizer { packetizer_state_of sender.new.packetizer ≡ packetizer_state_of sender.old.packetizer }
    ensures stays { (sender.new.packets ≡ sender.old.packets) × (sender.new.taken ≡ sender.old.taken) × (sender.new.marked ≡ sender.old.marked) }
{
    *room = FrameRoom {
        bytes: size_of(&sender.frame, cut),
        count: sender.frame.len(),
    };
    if bytes.len() < room.bytes || packets.len() < room.count {
        return status::TOO_SMALL;
    }
    lay(&sender.frame, cut, bytes);
    report_packets(&mut sender.packetizer, &sender.frame, cut, packets);
    status::OK
}

/// A frame to packetize into the output.
#[derive(Drop)]
pub struct WholeFrame<'a> {
    pub bytes: &'a [u8],
    pub cut: &'a FrameCut,
}

/// Packetizes a frame and writes its packets to the output. If that fails, the packetizer is unchanged. A frame that is one packet as
/// it is goes straight there.
#[tactic(auto, using(crate::proofs::FrameLemmas::built_in_after))]
pub fn packetize_into(
    sender: &mut FrameSender,
    frame: &WholeFrame<'_>,
    bytes: &mut [u8],
    packets: &mut [PlacedPacket],
    room: &mut FrameRoom,
) -> u32
    ensures lays { LaysFrame sender.old frame.now.cut.now frame.now.bytes.now result (record { before = bytes.old; bytes = bytes.new; told_before = packets.old; told = packets.new; room = room.new }) sender.new }
    ensures untouched { result ≢ 0 → (bytes.new ≡ bytes.old) × (packets.new ≡ packets.old) }
    ensures unchanged { result ≢ 0 → result ≢ 33 → room.new ≡ room.old }
{
    if is_sent_whole(&sender.packetizer, frame.cut.mtu, frame.bytes) {
        return hand_over_whole(&mut sender.packetizer, frame, bytes, packets, room);
    }
    let Some(before) = packetizer_as(&sender.packetizer) else {
        return status::INVALID;
    };
    let alloc = *sender.packets.allocator();
    let cutting = sender
        .packetizer
        .packetize_into(alloc, frame.cut.mtu, frame.bytes, &mut sender.frame);
    if let Err(fault) = cutting {
        sender.packetizer = before;
        return u32::from(fault.number());
    }
    let answer = hand_over(sender, frame.cut, bytes, packets, room);
    if answer != status::OK {
        sender.packetizer = before;
    }
    answer
}
