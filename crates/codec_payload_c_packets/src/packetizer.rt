//! Packetizers, which cut frames into packets.

ghost use Rattle.std.specs.Prelude.{◌≡◌, ◌≢◌};
ghost use Rattle.codec_payload_c_packets.specs.Senders.{CutsFrame, GivesPacket};

use codec_payload_core::codec::Packetizer;
use codec_payload_handle::bytes::fill;
use codec_payload_handle::object::FrameSender;
use codec_payload_handle::status;

/// The metadata of a packet.
#[repr(C)]
#[derive(Drop)]
pub struct PacketInfo {
    /// The number of bytes of the packet.
    pub bytes: usize,
    /// Whether the packet gets the marker of the RTP header.
    pub marker: bool,
    /// Whether a receiver may request the packet again.
    pub nackable: bool,
}

/// Packetizes a frame. Packets of the previous frame that were not fetched are discarded.
pub fn packetize(
    sender: &mut FrameSender,
    mtu: usize,
    starts_talk_spurt: bool,
    frame: &[u8],
    count: &mut usize,
) -> u32
    ensures cuts { CutsFrame sender.old mtu starts_talk_spurt frame.now result count.new sender.new }
    ensures unchanged { result ≢ 0 → count.new ≡ count.old }
{
    let alloc = *sender.packets.allocator();
    match sender.packetizer.packetize(alloc, mtu, frame) {
        Ok(packets) => {
            *count = packets.len();
            sender.packets = packets;
            sender.taken = 0;
            sender.marked = starts_talk_spurt && sender.packetizer.marks_talkspurt();
            status::OK
        }
        Err(fault) => u32::from(fault.number()),
    }
}

/// Writes the next packet to the output buffer.
pub fn packet(sender: &mut FrameSender, info: &mut PacketInfo, bytes: &mut [u8]) -> u32
    ensures gives { GivesPacket sender.old result info.new bytes.old bytes.new sender.new }
    ensures unchanged { result ≢ 0 → result ≢ 33 → info.new ≡ info.old }
{
    let Some(payload) = sender.packets.get(sender.taken) else {
        return status::NONE;
    };
    let last = sender.packets.len() - sender.taken == 1;
    let previous = match sender.taken.checked_sub(1) {
        Some(before) => Some(sender.packets[before].as_slice()),
        None => None,
    };
    info.bytes = payload.len();
    info.marker = sender.packetizer.is_marker(payload, previous, last) || sender.marked;
    info.nackable = sender.packetizer.nackable();
    if !fill(bytes, payload) {
        return status::TOO_SMALL;
    }
    sender.taken += 1;
    status::OK
}
