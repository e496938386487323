//! RED: the receiver, which finds lost media in the payloads of later packets (RFC 2198, section 3; docs/use/FORMATS.md, "RED").

ghost use Rattle.std.specs.Prelude.{◌≡◌, ◌%◌, ◌<◌, ◌≤◌, ◌↔◌, IsSome, IfSome, IfOk, MatchResult, map};
ghost use Rattle.std.specs.List.{filter_map};
ghost use Rattle.codec_payload_base.specs.Answers.{Finds};
ghost use Rattle.codec_payload_red.specs.RedReading.{red_at};
ghost use Rattle.codec_payload_red.specs.RedBlocks.{Fails, block_of, blocks_of};
ghost use Rattle.codec_payload_red.specs.RedRecovery.{recovered_from, packet_of, Recovers};

use crate::red::blocks::{MAX_OFFSET, RedBlock, RedDecoder};
use crate::red::sender::MAX_RED_RECOVERY_DEPTH;
use codec_payload_base::error::PacketError;
use codec_payload_base::wire::SeqNo;
use std::alloc::{AllocError, Global};
use std::marker::Model;

/// A packet found in a payload: the packet that carried the payload, or an earlier one. It borrows its bytes from the payload.
#[derive(Clone, Debug, PartialEq, Eq, Drop)]
pub struct Recovered<'a> {
    /// The number of the packet.
    pub seq_no: SeqNo,
    /// The RTP time of the packet, in ticks of the RTP clock, modulo 2^32.
    pub rtp_time: u32,
    /// The media before it was wrapped in RED: at most 1,023 bytes for an earlier packet, any number for the packet itself.
    pub payload: &'a [u8],
    /// Whether this is the packet itself whose payload was read.
    pub is_primary: bool,
}

/// Finds the packets that a RED payload holds, of a stream whose packets are a fixed step of RTP time apart.
///
/// A redundant block says how many ticks of the RTP clock older it is, but not its sequence number (RFC 2198, section 3). The step
/// gives the number: a receiver with another step than the sender's reports wrong numbers, or none. With 48 kHz and packets of 20
/// ms the step is 960.
#[derive(Clone, Copy, Debug, PartialEq, Eq)]
pub struct RedReceiver {
    primary_pt: u8,
    step: u32,
}

impl Model for RedReceiver {
    ghost use Rattle.std.specs.Prelude.{◌<◌, ◌≤◌};
    ghost use Rattle.codec_payload_red.specs.RedRecovery.{Receiver};

    ghost Value = { Receiver };

    ghost view = { λ r. record { primary_pt = r.primary_pt; step = r.step } };

    ghost inverse = { λ r. record { primary_pt = r.primary_pt; step = r.step } };

    ghost invariant = { λ r. (0 < r.step) × (r.step ≤ 16383) × (r.primary_pt < 128) };
}

impl RedReceiver {
    /// A receiver of blocks of the payload type `primary_pt` (low 7 bits), for packets that are `step` ticks of the RTP clock
    /// apart. `None` if `step` is 0 or above 16,383, the greatest offset of a block. Does not allocate.
    pub fn new(primary_pt: u8, step: u32) -> Option<Self>
        ensures some { IsSome result ↔ ((0 < step) × (step ≤ 16383)) }
        ensures value { IfSome result (λ r. r ≡ record { primary_pt = primary_pt % 128; step = step }) }
    {
        if step == 0 || step > MAX_OFFSET {
            return None;
        }
        Some(RedReceiver {
            primary_pt: primary_pt % 128,
            step,
        })
    }

    /// The payload type of the blocks that count, from 0 to 127.
    pub fn primary_pt(&self) -> u8
        ensures { result ≡ self.now.primary_pt }
    {
        self.primary_pt
    }

    /// The packet in one block of a payload, if there is one, by the rules of [`RedReceiver::recover`]. Does not allocate.
    pub fn recover_block<'a>(
        &self,
        seq_no: SeqNo,
        rtp_time: u32,
        block: &RedBlock<'a>,
    ) -> Option<Recovered<'a>>
        ensures { Finds packet_of result (recovered_from self.now seq_no.0 rtp_time (block_of block.now)) }
    {
        if block.pt != self.primary_pt {
            return None;
        }
        if block.is_primary {
            return Some(Recovered {
                seq_no,
                rtp_time,
                payload: block.payload,
                is_primary: true,
            });
        }
        let offset = block.timestamp_offset;
        let back = u64::from(offset / self.step);
        if offset == 0 || offset % self.step != 0 || back > MAX_RED_RECOVERY_DEPTH {
            return None;
        }
        Some(Recovered {
            seq_no: SeqNo(seq_no.0.checked_sub(back)?),
            rtp_time: rtp_time.wrapping_sub(offset),
            payload: block.payload,
            is_primary: false,
        })
    }

    /// The packets that the blocks are, in order.
    fn recover_blocks<'a>(
        &self,
        alloc: Global,
        seq_no: SeqNo,
        rtp_time: u32,
        blocks: &[RedBlock<'a>],
    ) -> Result<Vec<Recovered<'a>>, AllocError>
        ensures { IfOk result (λ v. map packet_of v.items ≡ filter_map (recovered_from self.now seq_no.0 rtp_time) (blocks_of blocks.now)) }
    {
        let mut found = Vec::new(alloc);
        for block in blocks {
            if let Some(packet) = self.recover_block(seq_no, rtp_time, block) {
                found.push(packet)?;
            }
        }
        Ok(found)
    }

    /// The packets that the payload of the packet with that number and RTP time holds, in payload order, so that packet
    /// itself is last. Each borrows its bytes from the payload; nothing is copied, and the receiver remembers nothing: a
    /// packet that came already, or was recovered before, is answered again (RFC 2198, section 3).
    ///
    /// A redundant block of the receiver's payload type is the packet `offset / step` numbers back, with an RTP time less by the
    /// offset, modulo 2^32. It is skipped if the offset is 0 or not a multiple of the step, if it goes back more than
    /// [`MAX_RED_RECOVERY_DEPTH`] steps, or if the number would be below 0. The primary block is the packet itself, if it has the
    /// type. So the result has at most 33 packets, and may be empty.
    ///
    /// `ErrRedCorruptedPacket` (14): the payload is not a RED payload, exactly as for [`RedDecoder::decode`]; nothing is allocated
    /// then. `OutOfMemory` (17): the allocation of the list of blocks or of packets fails.
    pub fn recover<'a>(
        &self,
        alloc: Global,
        seq_no: SeqNo,
        rtp_time: u32,
        payload: &'a [u8],
    ) -> Result<Vec<Recovered<'a>>, PacketError>
        ensures { MatchResult result (λ v. Recovers self.now seq_no.0 rtp_time (red_at payload.now) (map packet_of v.items)) (λ e. Fails e (red_at payload.now)) }
    {
        let blocks = RedDecoder::decode(alloc, payload)?;
        Ok(self.recover_blocks(alloc, seq_no, rtp_time, &blocks)?)
    }
}
