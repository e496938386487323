//! A frame that is one packet as it is, written straight to the output buffer.

ghost use Rattle.std.specs.Prelude.{◌≡◌, ◌+◌, ◌∷◌, [], ◌&&◌, ◌||◌, true, Result, length};
ghost use Rattle.codec_payload_core.specs.Packetizers.{PacketizerStep, is_built_in, marker_of, packetizer_state_of, talk_spurt_of};
ghost use Rattle.codec_payload_c_packets.specs.Frames.{LaysPackets, capped, rooms_in, sends_pieces};

use crate::frames::{FrameCut, FrameRoom, PlacedPacket, WholeFrame, put_at};
use codec_payload_core::codec::{CodecPacketizer, Packetizer};
use codec_payload_handle::status;

/// Returns whether the packetizer sends pieces of frames without headers.
fn sends_pieces(packetizer: &CodecPacketizer) -> bool
    ensures { result ≡ sends_pieces (packetizer_state_of packetizer.now) }
{
    matches!(
        packetizer,
        CodecPacketizer::Opus(_) | CodecPacketizer::G711(_) | CodecPacketizer::G722(_)
    )
}

/// Returns whether the frame is sent as it is, in one packet. That leaves the packetizer unchanged.
pub(crate) fn is_sent_whole(packetizer: &CodecPacketizer, mtu: usize, frame: &[u8]) -> bool
    ensures step { result ≡ true → PacketizerStep (packetizer_state_of packetizer.now) mtu frame.now (Result.Ok (frame.now ∷ [])) (packetizer_state_of packetizer.now) }
    ensures built_in { result ≡ true → is_built_in (packetizer_state_of packetizer.now) ≡ true }
{
    if frame.is_empty() || frame.len() > mtu {
        return false;
    }
    sends_pieces(packetizer)
}

/// Returns how many bytes a payload needs with its room, at most `usize::MAX`.
fn size_of_one(payload: &[u8], cut: &FrameCut) -> usize
    ensures { result ≡ capped (rooms_in cut.now + length payload.now) }
{
    cut.headroom
        .saturating_add(cut.tailroom)
        .saturating_add(payload.len())
}

/// Returns whether the only packet of a frame gets the marker.
fn is_one_marked(packetizer: &mut CodecPacketizer, payload: &[u8], starts: bool) -> bool
    ensures marker { is_built_in (packetizer_state_of packetizer.old) ≡ true → result ≡ (marker_of (packetizer_state_of packetizer.old) true || (starts && talk_spurt_of (packetizer_state_of packetizer.old))) }
    ensures same { packetizer_state_of packetizer.new ≡ packetizer_state_of packetizer.old }
{
    let marked = starts && packetizer.marks_talkspurt();
    packetizer.is_marker(payload, None, true) || marked
}

/// Writes a frame that is one packet as it is to the output, if there is room for it.
pub(crate) fn hand_over_whole(
    packetizer: &mut CodecPacketizer,
    frame: &WholeFrame<'_>,
    bytes: &mut [u8],
    packets: &mut [PlacedPacket],
    room: &mut FrameRoom,
) -> u32
    requires { is_built_in (packetizer_state_of packetizer.old) ≡ true }
    ensures lays { LaysPackets (frame.now.bytes.now ∷ []) (packetizer_state_of packetizer.old) frame.now.cut.now result (record { before = bytes.old; bytes = bytes.new; told_before = packets.old; told = packets.new; room = room.new }) }
    ensures same { packetizer_state_of packetizer.new ≡ packetizer_state_of packetizer.old }
{
    let cut = frame.cut;
    *room = FrameRoom {
        bytes: size_of_one(frame.bytes, cut),
        count: 1,
    };
    if bytes.len() < room.bytes || packets.is_empty() {
        return status::TOO_SMALL;
    }
    put_at(bytes, cut.headroom, frame.bytes);
    packets[0] = PlacedPacket {
        offset: cut.headroom,
        bytes: frame.bytes.len(),
        marker: is_one_marked(packetizer, frame.bytes, cut.starts_talk_spurt),
        nackable: packetizer.nackable(),
    };
    status::OK
}
