//! RED: payloads, written and read (RFC 2198, section 3; docs/use/FORMATS.md, "RED").

ghost use Rattle.std.specs.Prelude.{◌≡◌, ◌≤◌, ◌<◌, ◌*◌, ◌++◌, ◌%◌, false, nat_le, ◌&&◌, Some, IfErr, IfOk, IfSome, OnOk, IsErrOf, IsTrue, is_some, map, length, take, filter, MatchResult};
ghost use Rattle.std.specs.Iterator.{YieldsFirstRef, item_count};
ghost use Rattle.std.specs.List.{flat_map};
ghost use Rattle.codec_payload_base.specs.declared.error.PacketError.TheVariants.{ErrRedCorruptedPacket, OutOfMemory};
ghost use Rattle.codec_payload_red.specs.RedPayload.{Red, IsRed, header_of, masked, fits, encoded, kept_of};
ghost use Rattle.codec_payload_red.specs.RedReading.{count_at, block_at, blocks_at, red_at};
ghost use Rattle.codec_payload_base.specs.Answers.{Finds};
ghost use Rattle.codec_payload_red.specs.RedBlocks.{blocks_of, blocks_in, older_of, redundant_of, Fails, Decodes, part_of, same_pt};

use codec_payload_base::error::PacketError;
use std::alloc::{AllocError, Global};
use std::marker::Model;

/// The greatest timestamp offset that 14 bits hold, in ticks of the RTP clock.
pub(crate) const MAX_OFFSET: u32 = 16_383;

/// The greatest block length that 10 bits hold, in bytes.
const MAX_BLOCK_LEN: usize = 1_023;

/// The bit F, the highest of a header: set for a redundant block, clear for the primary block.
const F_BIT: u8 = 0x80;

/// How many redundant blocks a payload has at most. RFC 2198 names no limit.
const MAX_REDUNDANT: u32 = 32;

/// The length of the header of a redundant block, in bytes.
pub(crate) const REDUNDANT_HEADER_LEN: usize = 4;

/// A block of older media, to be written before the primary one.
#[derive(Debug, Drop)]
pub struct RedundantBlock {
    /// The payload type. Its low 7 bits are written.
    pub pt: u8,
    /// How much older than the primary block the media is, in ticks of the RTP clock.
    pub timestamp_offset: u32,
    /// The media.
    pub payload: Vec<u8>,
}

/// Whether an offset has at most 14 bits and a length at most 10.
pub(crate) fn fits_fields(offset: u32, len: usize) -> bool
    ensures { result ≡ (nat_le offset 16383 && nat_le len 1023) }
{
    offset <= MAX_OFFSET && len <= MAX_BLOCK_LEN
}

impl RedundantBlock {
    /// Whether the header has room for the block: the timestamp offset is at most 16,383 ticks and the payload has at
    /// most 1,023 bytes (RFC 2198, section 3).
    pub fn fits(&self) -> bool
        ensures { result ≡ fits (redundant_of self.now) }
    {
        fits_fields(self.timestamp_offset, self.payload.len())
    }
}

/// A block of a payload that was read. It borrows its bytes from the payload.
#[derive(Clone, Debug, PartialEq, Eq, Drop)]
pub struct RedBlock<'a> {
    /// The payload type, from 0 to 127.
    pub pt: u8,
    /// How much older than the primary block the media is, in ticks of the RTP clock: at most 16,383, and 0 for the
    /// primary block itself.
    pub timestamp_offset: u32,
    /// The media: at most 1,023 bytes in a redundant block, any number in the primary one.
    pub payload: &'a [u8],
    /// Whether this is the packet's own media.
    pub is_primary: bool,
}

/// The number of redundant headers before the primary one; `None` if the bytes end inside the headers or there are more than
/// `most`.
#[tactic(auto, unfolding(crate::specs::RedReading::count_at))]
fn count_of(most: u32, bytes: &[u8]) -> Option<usize>
    ensures found { result ≡ count_at most bytes.now }
    ensures most { IfSome result (λ n. n ≤ most) }
    ensures there { IfSome result (λ n. 4 * n < length bytes.now) }
{
    let first = bytes.first()?;
    if *first < F_BIT {
        return Some(0);
    }
    if most == 0 || bytes.len() < REDUNDANT_HEADER_LEN {
        return None;
    }
    let (_, rest) = bytes.split_at(REDUNDANT_HEADER_LEN);
    let count = count_of(most - 1, rest)?;
    Some(count + 1)
}

/// The block whose header is first in `headers`, taken from the front of `bodies`, and the bytes after it.
#[tactic(auto, unfolding(crate::specs::RedReading::block_at))]
fn block_of_header<'a>(headers: &[u8], bodies: &'a [u8]) -> Option<(RedBlock<'a>, &'a [u8])>
    requires { 4 ≤ length headers.now }
    ensures found { Finds (λ x. (older_of x.0, x.1.now)) result (block_at headers.now bodies.now) }
    ensures older { IfSome result (λ x. x.0.is_primary ≡ false) }
{
    let len = usize::from(headers[2] % 4) * 256 + usize::from(headers[3]);
    if bodies.len() < len {
        return None;
    }
    let (payload, behind) = bodies.split_at(len);
    let block = RedBlock {
        pt: headers[0] % 128,
        timestamp_offset: u32::from(headers[1]) * 64 + u32::from(headers[2] / 4),
        payload,
        is_primary: false,
    };
    Some((block, behind))
}

/// Whether `bodies` has all bytes of the `count` blocks whose headers stand first.
fn blocks_are_whole(count: usize, headers: &[u8], bodies: &[u8]) -> bool
    requires { 4 * count < length headers.now }
    ensures { result ≡ is_some (blocks_at count headers.now bodies.now) }
{
    let mut heads = headers;
    let mut rest = bodies;
    for _ in 0..count {
        let Some((_, behind)) = block_of_header(heads, rest) else {
            return false;
        };
        let (_, others) = heads.split_at(REDUNDANT_HEADER_LEN);
        heads = others;
        rest = behind;
    }
    true
}

/// The `count` blocks whose headers stand first, and the primary one.
fn blocks_from<'a>(
    alloc: Global,
    count: usize,
    headers: &[u8],
    bodies: &'a [u8],
) -> Result<Vec<RedBlock<'a>>, AllocError>
    requires there { 4 * count < length headers.now }
    requires few { count ≤ 32 }
    requires whole { IsTrue (is_some (blocks_at count headers.now bodies.now)) }
    ensures { IfOk result (λ v. Decodes (blocks_at count headers.now bodies.now) (blocks_of v.items)) }
{
    let mut found = Vec::with_capacity(alloc, count + 1)?;
    let mut heads = headers;
    let mut rest = bodies;
    for _ in 0..count {
        let Some((block, behind)) = block_of_header(heads, rest) else {
            unreachable!()
        };
        found.push(block)?;
        let (_, others) = heads.split_at(REDUNDANT_HEADER_LEN);
        heads = others;
        rest = behind;
    }
    found.push(RedBlock {
        pt: heads[0],
        timestamp_offset: 0,
        payload: rest,
        is_primary: true,
    })?;
    Ok(found)
}

/// The parts of a block that are written: a payload has the headers of all blocks before the bytes of all.
#[derive(Clone, Copy, Debug)]
pub(crate) enum BlockPart {
    Header,
    Bytes,
}

/// Writes the header of a redundant block: a set bit, 7 bits of type, 14 of offset and 10 of length.
fn put_header(out: &mut Vec<u8>, pt: u8, offset: u32, len: usize) -> Result<(), AllocError>
    requires low { offset ≤ 16383 }
    requires short { len ≤ 1023 }
    ensures written { OnOk result (out.new.items ≡ out.old.items ++ header_of (pt % 128) offset len) }
{
    out.extend_from_slice(&[
        F_BIT + pt % 128,
        (offset / 64) as u8,
        (offset % 64 * 4) as u8 + (len / 256) as u8,
        (len % 256) as u8,
    ])
}

/// Writes one part of a redundant block.
pub(crate) fn put_part(
    out: &mut Vec<u8>,
    part: BlockPart,
    pt: u8,
    offset: u32,
    bytes: &[u8],
) -> Result<(), AllocError>
    requires low { offset ≤ 16383 }
    requires short { length bytes.now ≤ 1023 }
    ensures { OnOk result (out.new.items ≡ out.old.items ++ part_of part (record { pt = pt % 128; offset = offset; bytes = bytes.now })) }
{
    match part {
        BlockPart::Header => put_header(out, pt, offset, bytes.len()),
        BlockPart::Bytes => out.extend_from_slice(bytes),
    }
}

/// Writes one part of each of the first 32 blocks that fit.
fn put_parts(
    out: &mut Vec<u8>,
    part: BlockPart,
    redundant: &[RedundantBlock],
) -> Result<(), AllocError>
    ensures { OnOk result (out.new.items ≡ out.old.items ++ flat_map (part_of part) (map masked (take 32 (filter fits (map redundant_of redundant.now))))) }
{
    let mut left = MAX_REDUNDANT;
    for block in redundant {
        if left > 0 && block.fits() {
            put_part(out, part, block.pt, block.timestamp_offset, &block.payload)?;
            left -= 1;
        }
    }
    Ok(())
}

/// The payload of the first 32 redundant blocks that fit, and the primary one.
fn encoded_bytes(
    alloc: Global,
    primary_pt: u8,
    primary: &[u8],
    redundant: &[RedundantBlock],
) -> Result<Vec<u8>, AllocError>
    ensures { IfOk result (λ v. v.items ≡ encoded primary_pt primary.now (map redundant_of redundant.now)) }
{
    let mut out = Vec::new(alloc);
    put_parts(&mut out, BlockPart::Header, redundant)?;
    out.push(primary_pt % 128)?;
    put_parts(&mut out, BlockPart::Bytes, redundant)?;
    out.extend_from_slice(primary)?;
    Ok(out)
}

/// Writes RED payloads.
pub struct RedEncoder;

impl RedEncoder {
    /// A payload of the first 32 redundant blocks that fit (see [`RedundantBlock::fits`]), in order, and of the primary block,
    /// which may have any length, including 0 (RFC 2198, section 3). Other blocks are left out: those that do not fit, and those
    /// after the 32nd that does. Payload types are written in 7 bits; the eighth bit is dropped.
    ///
    /// The only fault is 17, `OutOfMemory`.
    pub fn encode(
        alloc: Global,
        primary_pt: u8,
        primary: &[u8],
        redundant: &[RedundantBlock],
    ) -> Result<Vec<u8>, PacketError>
        ensures written { IfOk result (λ v. v.items ≡ encoded primary_pt primary.now (map redundant_of redundant.now)) }
        ensures payload { IfOk result (λ v. IsRed v.items (kept_of primary_pt primary.now (map redundant_of redundant.now))) }

        // `decode` of the bytes returns the kept blocks.
        ensures comes_back { IfOk result (λ v. red_at v.items ≡ Some (kept_of primary_pt primary.now (map redundant_of redundant.now))) }
        ensures fault { IfErr result (λ e. e ≡ OutOfMemory) }
    {
        Ok(encoded_bytes(alloc, primary_pt, primary, redundant)?)
    }
}

/// The blocks that reading finds.
#[tactic(auto, unfolding(crate::specs::RedReading::red_at))]
fn decoded<'a>(alloc: Global, payload: &'a [u8]) -> Result<Vec<RedBlock<'a>>, PacketError>
    ensures { MatchResult result (λ v. Decodes (red_at payload.now) (blocks_of v.items)) (λ e. Fails e (red_at payload.now)) }
{
    let Some(count) = count_of(MAX_REDUNDANT, payload) else {
        return Err(PacketError::ErrRedCorruptedPacket);
    };
    let (_, bodies) = payload.split_at(REDUNDANT_HEADER_LEN * count + 1);
    if !blocks_are_whole(count, payload, bodies) {
        return Err(PacketError::ErrRedCorruptedPacket);
    }
    Ok(blocks_from(alloc, count, payload, bodies)?)
}

/// Reads RED payloads.
pub struct RedDecoder;

impl RedDecoder {
    /// The blocks of a payload in the order of their headers, so the primary one is last. Each borrows its bytes from
    /// the payload; nothing is copied (RFC 2198, section 3).
    ///
    /// `ErrRedCorruptedPacket` (14): the bytes are not a RED payload. They end inside the headers, announce more than 32 redundant
    /// blocks, or a redundant block extends beyond the end; nothing is allocated then. Any other bytes are accepted as a RED
    /// payload, even if the sender meant something else. `OutOfMemory` (17): the allocation of the list of blocks fails.
    pub fn decode<'a>(alloc: Global, payload: &'a [u8]) -> Result<Vec<RedBlock<'a>>, PacketError>
        // The blocks are those of the payload; encoding them gives its bytes.
        ensures payload { IfOk result (λ v. (r : Red) × IsRed payload.now r × (blocks_of v.items ≡ blocks_in r) × (encoded r.pt r.primary r.redundant ≡ payload.now)) }
        ensures refused { IsErrOf result ErrRedCorruptedPacket → (r : Red) → ¬ IsRed payload.now r }
        ensures exact { MatchResult result (λ v. Decodes (red_at payload.now) (blocks_of v.items)) (λ e. Fails e (red_at payload.now)) }
    {
        decoded(alloc, payload)
    }
}

/// The redundant blocks of one payload type. See [`red_same_pt_blocks`].
#[derive(Debug, Drop)]
pub struct SamePtBlocks<'a> {
    blocks: &'a [RedBlock<'a>],
    pt: u8,
    at: usize,
}

impl<'a> Model for SamePtBlocks<'a> {
    ghost use Rattle.std.specs.Prelude.{List, drop};
    ghost use Rattle.codec_payload_red.specs.declared.red.blocks.RedBlock.{RedBlock as Block};
    ghost use Rattle.codec_payload_red.specs.RedBlocks.{same_pt};

    ghost Value = { List Block };

    ghost view = { λ s. same_pt s.pt (drop s.at s.blocks.now) };
}

/// The blocks of this payload type with a timestamp offset above 0, in order. Does not allocate.
pub fn red_same_pt_blocks<'a>(blocks: &'a [RedBlock<'a>], pt: u8) -> SamePtBlocks<'a>
    ensures { result ≡ same_pt pt blocks.now }
{
    SamePtBlocks { blocks, pt, at: 0 }
}

impl<'a> Iterator for SamePtBlocks<'a> {
    type Item = &'a RedBlock<'a>;

    ghost next_gives = { YieldsFirstRef (λ blocks. blocks) };

    ghost remaining = { item_count (λ blocks. blocks) };

    fn next(&mut self) -> Option<&'a RedBlock<'a>> {
        while self.at < self.blocks.len() {
            let block = &self.blocks[self.at];
            self.at += 1;
            if block.pt == self.pt && block.timestamp_offset > 0 {
                return Some(block);
            }
        }
        None
    }
}
