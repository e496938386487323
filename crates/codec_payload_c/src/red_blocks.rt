//! RED payloads written and read, and lost packets recovered from them (RFC 2198).

ghost use Rattle.std.specs.Prelude.{◌≡◌, ◌≢◌};
ghost use Rattle.codec_payload_c_packets.specs.RedCoding.{ReadsBlock, Recovers, WritesBlocks};

use codec_payload_c_packets::red_blocks::{
    RecoveredInfo, RedBlockInfo, RedOlder, blocks_from, give_block,
};
use codec_payload_core::red::{RedDecoder, RedEncoder, RedReceiver};
use codec_payload_core::wire::SeqNo;
use codec_payload_handle::bytes::fill;
use codec_payload_handle::status;
use std::alloc::Global;

/// Writes a RED payload of the first 32 blocks that fit, and of the primary block.
#[unsafe(no_mangle)]
pub extern "C" fn cpay_red_encode(
    alloc: Global,
    primary_pt: u8,
    primary: &[u8],
    older: &[RedOlder],
    media: &[u8],
    bytes: &mut [u8],
    size: &mut usize,
) -> u32
    ensures writes { WritesBlocks primary_pt primary.now older.now media.now result bytes.old bytes.new size.new }
    ensures untouched { result ≢ 0 → bytes.new ≡ bytes.old }
    ensures same_size { result ≢ 0 → result ≢ 33 → size.new ≡ size.old }
{
    let blocks = match blocks_from(alloc, media, older) {
        Ok(blocks) => blocks,
        Err(answer) => return answer,
    };
    let Ok(payload) = RedEncoder::encode(alloc, primary_pt, primary, &blocks) else {
        return status::OUT_OF_MEMORY;
    };
    *size = payload.len();
    if fill(bytes, &payload) {
        status::OK
    } else {
        status::TOO_SMALL
    }
}

/// Reads the block with this index, from 0, of a RED payload. The primary block is the last one.
#[unsafe(no_mangle)]
pub extern "C" fn cpay_red_block(
    alloc: Global,
    payload: &[u8],
    index: usize,
    info: &mut RedBlockInfo,
    bytes: &mut [u8],
) -> u32
    ensures reads { ReadsBlock payload.now index result info.new bytes.old bytes.new }
    ensures untouched { result ≢ 0 → bytes.new ≡ bytes.old }
    ensures unchanged { result ≢ 0 → result ≢ 33 → info.new ≡ info.old }
{
    match RedDecoder::decode(alloc, payload) {
        Ok(blocks) => give_block(&blocks, index, info, bytes),
        Err(fault) => u32::from(fault.number()),
    }
}

/// Reads the packet with this index, from 0, that the payload of a RED packet contains. The RED packet itself is the last one.
#[unsafe(no_mangle)]
pub extern "C" fn cpay_red_recover(
    alloc: Global,
    primary_pt: u8,
    step: u32,
    number: u64,
    rtp_time: u32,
    payload: &[u8],
    index: usize,
    info: &mut RecoveredInfo,
    bytes: &mut [u8],
) -> u32
    ensures recovers { Recovers primary_pt step number rtp_time payload.now index result info.new bytes.old bytes.new }
    ensures untouched { result ≢ 0 → bytes.new ≡ bytes.old }
    ensures unchanged { result ≢ 0 → result ≢ 33 → info.new ≡ info.old }
{
    let Some(receiver) = RedReceiver::new(primary_pt, step) else {
        return status::INVALID;
    };
    let packets = match receiver.recover(alloc, SeqNo(number), rtp_time, payload) {
        Ok(packets) => packets,
        Err(fault) => return u32::from(fault.number()),
    };
    let Some(packet) = packets.get(index) else {
        return status::NONE;
    };
    *info = RecoveredInfo {
        number: packet.seq_no.0,
        bytes: packet.payload.len(),
        rtp_time: packet.rtp_time,
        is_primary: packet.is_primary,
    };
    if fill(bytes, packet.payload) {
        status::OK
    } else {
        status::TOO_SMALL
    }
}
