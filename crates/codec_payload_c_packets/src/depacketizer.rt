//! Depacketizers for callers that restore the order of packets themselves.

ghost use Rattle.codec_payload_c_packets.specs.Assemblers.{LentBy, StartsAnew, Takes, Unpacks};

use codec_payload_core::codec::{CodecExtra, Depacketizer};
use codec_payload_handle::bytes::fill;
use codec_payload_handle::extra::{Extra, tell_extra};
use codec_payload_handle::object::Assembler;
use codec_payload_handle::status;

/// A unit in the memory of a depacketizer.
#[repr(C)]
#[derive(Drop)]
pub struct LentUnit {
    /// Where its bytes begin.
    pub at: *const u8,
    /// The number of its bytes.
    pub bytes: usize,
    /// The codec-specific data of its payloads.
    pub extra: Extra,
}

/// Reads a payload, and appends its bytes to the unit so far.
pub fn depacketize(assembler: &mut Assembler, payload: &[u8]) -> u32
    ensures { Unpacks assembler.old payload.now result assembler.new }
{
    match assembler
        .depacketizer
        .depacketize(payload, &mut assembler.bytes, &mut assembler.extra)
    {
        Ok(()) => status::OK,
        Err(fault) => u32::from(fault.number()),
    }
}

/// Sets where the unit so far is.
pub fn lend(assembler: &Assembler, unit: &mut LentUnit)
    ensures { LentBy assembler.now unit.new }
{
    unit.at = assembler.bytes.as_ptr();
    unit.bytes = assembler.bytes.len();
    tell_extra(&mut unit.extra, &assembler.extra);
}

/// Starts the next unit in the same memory.
pub fn start_anew(assembler: &mut Assembler)
    ensures { StartsAnew assembler.old assembler.new }
{
    assembler.bytes.clear();
    assembler.extra = CodecExtra::None;
}

/// Writes the unit so far to the output buffer, and starts the next one.
pub fn take(assembler: &mut Assembler, size: &mut usize, extra: &mut Extra, bytes: &mut [u8]) -> u32
    ensures { Takes assembler.old result size.new extra.new bytes.old bytes.new assembler.new }
{
    *size = assembler.bytes.len();
    tell_extra(extra, &assembler.extra);
    if !fill(bytes, &assembler.bytes) {
        return status::TOO_SMALL;
    }
    start_anew(assembler);
    status::OK
}
