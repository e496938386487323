//! The places of all blocks of a RED payload, found in one call (RFC 2198, section 3).

ghost use Rattle.std.specs.Prelude.{◌≡◌, ◌≢◌};
ghost use Rattle.codec_payload_c_packets.specs.RedPlaces.{PlacesBlocks};

use codec_payload_c_packets::red_places::{RedBlockPlace, place_blocks};
use codec_payload_core::red::RedDecoder;
use codec_payload_handle::status;
use std::alloc::Global;

/// Reports the places of all blocks of a RED payload, in their order. The primary block is the last one.
#[unsafe(no_mangle)]
pub extern "C" fn cpay_red_blocks(
    alloc: Global,
    payload: &[u8],
    blocks: &mut [RedBlockPlace],
    count: &mut usize,
) -> u32
    ensures places { PlacesBlocks payload.now result blocks.old blocks.new count.new }
    ensures untouched { result ≢ 0 → blocks.new ≡ blocks.old }
    ensures unchanged { result ≢ 0 → result ≢ 33 → count.new ≡ count.old }
{
    let found = match RedDecoder::decode(alloc, payload) {
        Ok(found) => found,
        Err(fault) => return u32::from(fault.number()),
    };
    *count = found.len();
    if blocks.len() < found.len() {
        return status::TOO_SMALL;
    }
    // The headers: four bytes for each redundant block, and one byte for the primary block.
    let front = 4 * found.len() - 3;
    place_blocks(&found, front, blocks);
    status::OK
}
