//! Packetizing a frame straight into the output buffer, all packets in one call.

ghost use Rattle.std.specs.Prelude.{◌≡◌, ◌≢◌};
ghost use Rattle.codec_payload_handle.specs.Kinds.{OnFrameSender, Refuses, is_frame_sender};
ghost use Rattle.codec_payload_c_packets.specs.Frames.{LaysFrame};

use codec_payload_c_packets::frames::{
    FrameCut, FrameRoom, PlacedPacket, WholeFrame, packetize_into,
};
use codec_payload_handle::handle::Handle;
use codec_payload_handle::object::{FrameSender, Object};
use codec_payload_handle::status;
use std::alloc::Global;

/// Packetizes a frame and writes all its packets to the output buffer.
#[unsafe(no_mangle)]
pub extern "C" fn cpay_packetize_into(
    alloc: Global,
    handle: &mut Handle,
    cut: &FrameCut,
    frame: &[u8],
    bytes: &mut [u8],
    packets: &mut [PlacedPacket],
    room: &mut FrameRoom,
) -> u32
    ensures lays { OnFrameSender handle.old.place.value (λ r s. LaysFrame r cut.now frame.now result (record { before = bytes.old; bytes = bytes.new; told_before = packets.old; told = packets.new; room = room.new }) s) handle.new.place.value }
    ensures refused { Refuses is_frame_sender handle.old.place.value result handle.new.place.value }
    ensures untouched { result ≢ 0 → (bytes.new ≡ bytes.old) × (packets.new ≡ packets.old) }
    ensures unchanged { result ≢ 0 → result ≢ 33 → room.new ≡ room.old }
{
    let Some(mut object) = handle.take(alloc) else {
        return status::EMPTY;
    };
    let frame = WholeFrame { bytes: frame, cut };
    let answer = match &mut *object {
        Object::FrameSender(sender) => packetize_into(sender, &frame, bytes, packets, room),
        _ => status::OTHER_KIND,
    };
    handle.put(object);
    answer
}
