//! RED payloads written and read, and lost packets recovered from them (RFC 2198).

ghost use Rattle.std.specs.Prelude.{◌≡◌, ◌≢◌, ◌⊎◌, All, IfErr, IfOk, IfSome, IsNone, map, slice_get};
ghost use Rattle.codec_payload_core.specs.RedBlocks.{blocks_of, redundant_of};
ghost use Rattle.codec_payload_c_packets.specs.RedCoding.{GivesBlock, IsWithin, cut_from};

use codec_payload_core::red::{RedBlock, RedundantBlock};
use codec_payload_handle::bytes::fill;
use codec_payload_handle::status;
use std::alloc::Global;

/// A redundant block to write. Its bytes are in the caller's media.
#[repr(C)]
#[derive(Drop)]
pub struct RedOlder {
    /// The offset of its bytes.
    pub start: usize,
    /// The number of bytes of the block.
    pub bytes: usize,
    /// The age of the block relative to the primary block, in ticks of the RTP clock.
    pub offset: u32,
    /// Its low 7 bits are written.
    pub payload_type: u8,
}

/// The metadata of a block.
#[repr(C)]
#[derive(Drop)]
pub struct RedBlockInfo {
    /// The number of bytes of the block.
    pub bytes: usize,
    /// The age of the block relative to the primary block, in ticks of the RTP clock; 0 for the primary block.
    pub offset: u32,
    pub payload_type: u8,
    /// Whether this is the primary block.
    pub is_primary: bool,
}

/// The metadata of a packet that a payload contains.
#[repr(C)]
#[derive(Drop)]
pub struct RecoveredInfo {
    /// The sequence number of the packet.
    pub number: u64,
    /// The number of bytes of the packet's payload.
    pub bytes: usize,
    /// The RTP time of the packet, in ticks of the RTP clock, modulo 2^32.
    pub rtp_time: u32,
    /// Whether this is the RED packet itself.
    pub is_primary: bool,
}

/// Returns the bytes of a block, if they are within the media.
fn bytes_of<'a>(media: &'a [u8], older: &RedOlder) -> Option<&'a [u8]>
    ensures some { IfSome result (λ bytes. IsWithin media.now older.now × (bytes.now ≡ (cut_from media.now older.now).bytes)) }
    ensures none { IsNone result → ¬ IsWithin media.now older.now }
{
    media.get(older.start..)?.get(..older.bytes)
}

/// Returns the blocks with their bytes, or the status that refuses them.
pub fn blocks_from(
    alloc: Global,
    media: &[u8],
    older: &[RedOlder],
) -> Result<Vec<RedundantBlock>, u32>
    ensures ok { IfOk result (λ v. (map redundant_of v.items ≡ map (cut_from media.now) older.now) × All (IsWithin media.now) older.now) }
    ensures err { IfErr result (λ s. (s ≡ 17) ⊎ ((s ≡ 37) × (¬ All (IsWithin media.now) older.now))) }
{
    let mut blocks = Vec::new(alloc);
    for one in older {
        let Some(bytes) = bytes_of(media, one) else {
            return Err(status::INVALID);
        };
        let Ok(payload) = Vec::from_slice(alloc, bytes) else {
            return Err(status::OUT_OF_MEMORY);
        };
        let block = RedundantBlock {
            pt: one.payload_type,
            timestamp_offset: one.offset,
            payload,
        };
        let Ok(()) = blocks.push(block) else {
            return Err(status::OUT_OF_MEMORY);
        };
    }
    Ok(blocks)
}

/// Returns the block with this index, if there is one.
pub fn give_block(
    blocks: &[RedBlock],
    index: usize,
    info: &mut RedBlockInfo,
    bytes: &mut [u8],
) -> u32
    ensures gives { GivesBlock (slice_get (blocks_of blocks.now) index) result info.new bytes.old bytes.new }
    ensures unchanged { result ≢ 0 → result ≢ 33 → info.new ≡ info.old }
{
    let Some(block) = blocks.get(index) else {
        return status::NONE;
    };
    *info = RedBlockInfo {
        bytes: block.payload.len(),
        offset: block.timestamp_offset,
        payload_type: block.pt,
        is_primary: block.is_primary,
    };
    if fill(bytes, block.payload) {
        status::OK
    } else {
        status::TOO_SMALL
    }
}
