//! The earlier packets that a RED packet repeats in its redundant blocks.

ghost use Rattle.std.specs.Prelude.{◌≡◌, IfOk, map, false};
ghost use Rattle.std.specs.Option.{option_map};
ghost use Rattle.codec_payload_red.specs.RedBlocks.{block_of, blocks_of};
ghost use Rattle.codec_payload_red.specs.RedRecovery.{packet_of as recovered_of};
ghost use Rattle.std.specs.List.{filter_map};
ghost use Rattle.codec_payload_codec.specs.Depacketizers.{is_built_in_depacketizer};
ghost use Rattle.codec_payload_jitter.specs.OwnReceiving.{OwnStores};
ghost use Rattle.codec_payload_datagrams.specs.Kinds.{block_header, carrier_of};
ghost use Rattle.codec_payload_receiver.specs.Sessions.{RecoversAll, all_carried, block_seen, carried, copied};

use crate::datagram::StreamKinds;
use codec_payload_base::wire::{ExtensionValues, Pt, RtpHeader, SeqNo, Ticks};
use codec_payload_codec::codec::Depacketizer;
use codec_payload_datagrams::kinds::RedPacket;
use codec_payload_jitter::jitter::JitterBuffer;
use codec_payload_numbers::seen_times::{SeenTime, SeenTimes};
use codec_payload_red::red::{Recovered, RedBlock};
use std::alloc::AllocError;
use std::collections::VecDeque;

/// A packet from a redundant block, with its payload copied.
#[derive(Debug, Drop)]
pub(crate) struct BlockCopy {
    header: RtpHeader,
    payload: Vec<u8>,
}

/// The packets of the redundant blocks, in the order of the block headers.
pub(crate) fn copy_blocks(
    stream: &StreamKinds,
    red: &RedPacket<'_>,
) -> Result<VecDeque<BlockCopy>, AllocError>
    ensures { IfOk result (λ copies. (now : Ticks) → map (copied now) copies.items ≡ all_carried stream.now now (carrier_of red.now)) }
{
    copy_each(stream, red, &red.older)
}

/// Copies the packets of the redundant blocks, in order.
fn copy_each(
    stream: &StreamKinds,
    red: &RedPacket<'_>,
    blocks: &[RedBlock<'_>],
) -> Result<VecDeque<BlockCopy>, AllocError>
    ensures { IfOk result (λ copies. (now : Ticks) → map (copied now) copies.items ≡ filter_map (carried stream.now now (carrier_of red.now)) (blocks_of blocks.now)) }
{
    let mut copies = VecDeque::new(stream.alloc);
    for block in blocks {
        match copy_block(stream, red, block)? {
            Some(copy) => {
                copies.push_back(copy)?;
            }
            None => {}
        }
    }
    Ok(copies)
}

/// Returns the packet of a redundant block, if the block carries one.
fn copy_block(
    stream: &StreamKinds,
    red: &RedPacket<'_>,
    block: &RedBlock<'_>,
) -> Result<Option<BlockCopy>, AllocError>
    ensures { IfOk result (λ copy. (now : Ticks) → option_map (copied now) copy ≡ carried stream.now now (carrier_of red.now) (block_of block.now)) }
{
    let header = &red.header;
    let number = SeqNo(65_536 + u64::from(header.sequence_number));
    match red.receiver.recover_block(number, header.timestamp, block) {
        Some(recovered) => {
            let payload = Vec::from_slice(stream.alloc, recovered.payload)?;
            let header = block_header(stream, header.ssrc, &recovered);
            Ok(Some(BlockCopy { header, payload }))
        }
        None => Ok(None),
    }
}

/// Returns the header of a packet from a redundant block.
fn block_header(stream: &StreamKinds, ssrc: u32, recovered: &Recovered<'_>) -> RtpHeader
    ensures { result ≡ block_header stream.now ssrc (recovered_of recovered.now) }
{
    RtpHeader {
        payload_type: Pt::new_with_value(stream.payload_type),
        sequence_number: (recovered.seq_no.0 % 65_536) as u16,
        timestamp: recovered.rtp_time,
        ssrc,
        marker: false,
        ext_vals: ExtensionValues::default(),
    }
}

/// Stores each of these packets that is missing, in order, except packets whose RTP time was received. Returns false if memory
/// runs out for a packet: that packet and all later ones are not stored.
pub(crate) fn recover_all<B: Depacketizer>(
    packets: &mut JitterBuffer<B>,
    seen: &mut SeenTimes,
    now: Ticks,
    mut copies: VecDeque<BlockCopy>,
) -> bool
    ensures all { RecoversAll result (map (copied now) copies.items) (record { packets = packets.old; seen = seen.old }) (record { packets = packets.new; seen = seen.new }) }
    ensures own { is_built_in_depacketizer packets.old.buffer.depacketizer ≡ false → OwnStores B.is_head B.is_tail packets.old.buffer packets.new.buffer }
{
    while let Some(copy) = copies.pop_front() {
        let time = copy.header.timestamp;
        if seen.is_seen(time) {
            continue;
        }
        match packets.push_recovered(now, copy.header, copy.payload) {
            Ok(went_in) => note_block(seen, went_in, time),
            Err(_) => return false,
        }
    }
    true
}

/// Notes the time of a block that was stored.
fn note_block(seen: &mut SeenTimes, went_in: bool, time: u32)
    ensures { seen.new ≡ block_seen went_in time seen.old }
{
    if went_in {
        seen.note(SeenTime {
            time,
            is_block: true,
        });
    }
}
