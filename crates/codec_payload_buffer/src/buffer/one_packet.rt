//! Frames of one packet, such as most frames of audio: their payloads are reached by their place, without a walk of the queue.

ghost use Rattle.std.specs.Prelude.{◌≡◌, ◌≤◌, [], length, map, slice_range};
ghost use Rattle.codec_payload_codec.specs.Depacketizers.{depacketizer_state_of, kind_of_depacketizer};
ghost use Rattle.codec_payload_codec.specs.declared.codec.depacketizer.CodecDepacketizer.TheVariants.{Boxed};
ghost use Rattle.codec_payload_buffer.specs.Held.{held_of};
ghost use Rattle.codec_payload_buffer.specs.Steps.{OwnUnpacks, Unpacks, answer_of};

use super::held_packet::HeldPacket;
use super::packets::{make_room, unpack};
use codec_payload_base::error::PacketError;
use codec_payload_base::interface::CodecExtra;
use codec_payload_codec::codec::{CodecDepacketizer, Depacketizer};
use codec_payload_queue::tiers::TieredQueue;
use std::alloc::AllocError;

/// Starts an empty unit for a frame, as [`make_room`] does.
#[inline(always)]
pub(super) fn make_room_for<B: Depacketizer>(
    bytes: &mut Vec<u8>,
    depacketizer: &CodecDepacketizer<B>,
    packets: &TieredQueue<HeldPacket>,
    from: usize,
    to: usize,
) -> Result<(), AllocError>
    requires order { from ≤ to }
    requires within { to ≤ length packets.now.items }
    ensures empty { bytes.new.items ≡ [] }
{
    if to - from != 1 {
        return make_room(bytes, depacketizer, packets, from, to);
    }
    bytes.clear();
    match depacketizer.out_size_hint(packets.at(from).packet.bytes.len()) {
        Some(size) => bytes.reserve_exact(size),
        None => Ok(()),
    }
}

/// Passes the payloads of a frame to the depacketizer, as [`unpack`] does.
#[inline(always)]
pub(super) fn unpack_frame<B: Depacketizer>(
    depacketizer: &mut CodecDepacketizer<B>,
    packets: &TieredQueue<HeldPacket>,
    from: usize,
    to: usize,
    bytes: &mut Vec<u8>,
    codec_extra: &mut CodecExtra,
) -> Result<(), PacketError>
    requires order { from ≤ to }
    requires within { to ≤ length packets.now.items }
    ensures unpacks { Unpacks (depacketizer_state_of depacketizer.old) (map held_of (slice_range packets.now.items from to))
        (record { bytes = bytes.old.items; extra = codec_extra.old })
        (answer_of result (record { bytes = bytes.new.items; extra = codec_extra.new })) (depacketizer_state_of depacketizer.new) }
    ensures kind { kind_of_depacketizer (depacketizer_state_of depacketizer.new) ≡ kind_of_depacketizer (depacketizer_state_of depacketizer.old) }
    ensures own { (before : B) → depacketizer.old ≡ Boxed before → (after : B) × (depacketizer.new ≡ Boxed after)
        × OwnUnpacks B.state B.depacketize_step before (map held_of (slice_range packets.now.items from to))
        (record { bytes = bytes.old.items; extra = codec_extra.old })
        (answer_of result (record { bytes = bytes.new.items; extra = codec_extra.new })) after }
{
    if to - from != 1 {
        return unpack(depacketizer, packets, from, to, bytes, codec_extra);
    }
    depacketizer.depacketize(&packets.at(from).packet.bytes, bytes, codec_extra)
}
