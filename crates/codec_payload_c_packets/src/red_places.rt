//! The places of all blocks of a RED payload, found in one call (RFC 2198, section 3).

ghost use Rattle.std.specs.Prelude.{◌≡◌, ◌≤◌, ◌<◌, ◌+◌, ℕ, Option, length, drop, slice_get};
ghost use Rattle.codec_payload_core.specs.RedBlocks.{blocks_of};
ghost use Rattle.codec_payload_c_packets.specs.RedPlaces.{block_place, bytes_in};

use codec_payload_core::red::RedBlock;

/// A block, by its place in the payload.
#[repr(C)]
#[derive(Clone, Copy)]
pub struct RedBlockPlace {
    /// The offset of its bytes in the payload.
    pub start: usize,
    /// The number of bytes of the block.
    pub bytes: usize,
    /// The age of the block relative to the primary block, in ticks of the RTP clock; 0 for the primary block.
    pub offset: u32,
    pub payload_type: u8,
    /// Whether this is the primary block.
    pub is_primary: bool,
}

/// Describes each block: its place, and the fields of its header. The first block begins at `front`.
pub fn place_blocks(blocks: &[RedBlock<'_>], front: usize, places: &mut [RedBlockPlace])
    requires room { length blocks.now ≤ length places.old }
    requires within { front + bytes_in (blocks_of blocks.now) ≤ 18446744073709551615 }
    ensures told { (place : ℕ) → place < length blocks.now → slice_get places.new place ≡ Option.Some (block_place front (blocks_of blocks.now) place) }
    ensures behind { drop (length blocks.now) places.new ≡ drop (length blocks.now) places.old }
{
    let mut start = front;
    for place in 0..blocks.len() {
        let block = &blocks[place];
        places[place] = RedBlockPlace {
            start,
            bytes: block.payload.len(),
            offset: block.timestamp_offset,
            payload_type: block.pt,
            is_primary: block.is_primary,
        };
        start += block.payload.len();
    }
}
