//! Extended reports that are read, from the left.

ghost use Rattle.std.specs.Prelude.{◌≡◌};
ghost use Rattle.codec_payload_base.specs.Answers.{Finds, seen};
ghost use Rattle.codec_payload_feedback_xr.specs.Xr.{dlrr_in, dlrr_of, first_for, reference_time_in, reference_time_of, sub_block_at, sub_blocks_in};
ghost use Rattle.codec_payload_feedback_xr.specs.XrReading.{after_head, block_at, block_of, blocks_in, body_at, fault_in, report_of};

use crate::report::{Dlrr, ExtendedReport, XrBlock, XrFault};

/// Cuts the contents of a block off.
fn read_contents(
    block_type: u8,
    type_specific: u8,
    size: usize,
    bytes: &[u8],
) -> Result<(XrBlock<'_>, &[u8]), XrFault>
    ensures { seen (λ x. (block_of x.0, x.1.now)) result ≡ after_head block_type type_specific size bytes.now }
{
    if bytes.len() < size {
        return Err(XrFault::ContentsTooShort);
    }
    let (contents, rest) = bytes.split_at(size);
    let block = XrBlock {
        block_type,
        type_specific,
        contents,
    };
    Ok((block, rest))
}

/// Reads a block, and returns the bytes after it.
#[tactic(auto, unfolding(crate::specs::XrReading::block_at))]
pub(crate) fn read_block(bytes: &[u8]) -> Result<(XrBlock<'_>, &[u8]), XrFault>
    ensures { seen (λ x. (block_of x.0, x.1.now)) result ≡ block_at bytes.now }
{
    let [block_type, type_specific, l1, l0, rest @ ..] = bytes else {
        return Err(XrFault::BlockTooShort);
    };
    let words = usize::from(u16::from_be_bytes([*l1, *l0]));
    read_contents(*block_type, *type_specific, 4 * words, rest)
}

/// Reads each block up to the end.
fn check_blocks(bytes: &[u8]) -> Result<(), XrFault>
    ensures { result ≡ fault_in bytes.now }
{
    let mut rest = bytes;
    while !rest.is_empty() {
        match read_block(rest) {
            Ok((_, others)) => rest = others,
            Err(fault) => return Err(fault),
        }
    }
    Ok(())
}

/// Reads the SSRC of the sender, and checks the blocks after it.
#[tactic(auto, unfolding(crate::specs::XrReading::body_at))]
pub(crate) fn read_body(body: &[u8]) -> Result<ExtendedReport<'_>, XrFault>
    ensures { seen report_of result ≡ body_at body.now }
{
    let [s3, s2, s1, s0, blocks @ ..] = body else {
        return Err(XrFault::TooShort);
    };
    match check_blocks(blocks) {
        Ok(()) => Ok(ExtendedReport {
            ssrc: u32::from_be_bytes([*s3, *s2, *s1, *s0]),
            blocks,
        }),
        Err(fault) => Err(fault),
    }
}

/// Returns the reference time of a block of that type and length.
fn reference_time_of(block: &XrBlock<'_>) -> Option<u64>
    ensures { result ≡ reference_time_of (block_of block.now) }
{
    if block.block_type != 4 {
        return None;
    }
    let [t7, t6, t5, t4, t3, t2, t1, t0] = block.contents else {
        return None;
    };
    Some(u64::from_be_bytes([*t7, *t6, *t5, *t4, *t3, *t2, *t1, *t0]))
}

/// Returns the reference time of the first block that has one.
pub(crate) fn reference_time_in(bytes: &[u8]) -> Option<u64>
    ensures { result ≡ reference_time_in (blocks_in bytes.now) }
{
    let mut rest = bytes;
    while let Ok((block, others)) = read_block(rest) {
        let time = reference_time_of(&block);
        if time.is_some() {
            return time;
        }
        rest = others;
    }
    None
}

/// Reads a sub-block, and returns the bytes after it.
#[tactic(auto, unfolding(crate::specs::Xr::sub_block_at))]
fn read_sub_block(bytes: &[u8]) -> Option<(Dlrr, &[u8])>
    ensures { Finds (λ x. (x.0, x.1.now)) result (sub_block_at bytes.now) }
{
    let [s3, s2, s1, s0, l3, l2, l1, l0, d3, d2, d1, d0, rest @ ..] = bytes else {
        return None;
    };
    let answer = Dlrr {
        ssrc: u32::from_be_bytes([*s3, *s2, *s1, *s0]),
        last_rr: u32::from_be_bytes([*l3, *l2, *l1, *l0]),
        delay: u32::from_be_bytes([*d3, *d2, *d1, *d0]),
    };
    Some((answer, rest))
}

/// Returns the first sub-block of that receiver.
fn first_for(ssrc: u32, contents: &[u8]) -> Option<Dlrr>
    ensures { result ≡ first_for ssrc (sub_blocks_in contents.now) }
{
    let mut rest = contents;
    while let Some((answer, others)) = read_sub_block(rest) {
        if answer.ssrc == ssrc {
            return Some(answer);
        }
        rest = others;
    }
    None
}

/// Returns the first sub-block of that receiver in a block of that type with whole sub-blocks.
fn dlrr_of(ssrc: u32, block: &XrBlock<'_>) -> Option<Dlrr>
    ensures { result ≡ dlrr_of ssrc (block_of block.now) }
{
    if block.block_type != 5 || block.contents.len() % 12 != 0 {
        return None;
    }
    first_for(ssrc, block.contents)
}

/// Returns the first sub-block of that receiver in any block.
pub(crate) fn dlrr_in(ssrc: u32, bytes: &[u8]) -> Option<Dlrr>
    ensures { result ≡ dlrr_in ssrc (blocks_in bytes.now) }
{
    let mut rest = bytes;
    while let Ok((block, others)) = read_block(rest) {
        let answer = dlrr_of(ssrc, &block);
        if answer.is_some() {
            return answer;
        }
        rest = others;
    }
    None
}
