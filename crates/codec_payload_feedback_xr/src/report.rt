//! Extended reports (RFC 3611, section 2): an RTCP packet of type 207, XR.

ghost use Rattle.std.specs.Prelude.{◌≡◌};
ghost use Rattle.codec_payload_base.specs.Answers.{seen};
ghost use Rattle.codec_payload_feedback_xr.specs.Xr.{dlrr_in, reference_time_in};
ghost use Rattle.codec_payload_feedback_xr.specs.XrReading.{block_at, block_of, body_at, report_of};

use crate::reading::{dlrr_in, read_block, read_body, reference_time_in};
use thiserror::Error;

/// The packet type of extended reports.
pub const XR: u8 = 207;

/// A sub-block of a DLRR block (RFC 3611, section 4.5): what a sender answers to the reference time of one receiver.
#[derive(Clone, Copy, Debug, PartialEq, Eq)]
pub struct Dlrr {
    /// The SSRC of the receiver that it answers.
    pub ssrc: u32,
    /// LRR: the middle 32 bits of the latest reference time of that receiver, or 0 if none came.
    pub last_rr: u32,
    /// DLRR: how long before the packet left that reference time came, in units of 1/65,536 seconds, or 0 if none came.
    pub delay: u32,
}

/// An extended report that was read. It borrows the bytes of the packet; reading does not allocate.
#[derive(Clone, Copy, Debug, PartialEq, Eq)]
pub struct ExtendedReport<'a> {
    /// The source that sends the report.
    pub ssrc: u32,
    /// The report blocks, as they are in the packet. See [`XrBlock::read`].
    pub blocks: &'a [u8],
}

/// A report block of any type (RFC 3611, section 3).
#[derive(Clone, Copy, Debug, PartialEq, Eq)]
pub struct XrBlock<'a> {
    /// BT: what the contents are.
    pub block_type: u8,
    /// Bits whose meaning the type defines.
    pub type_specific: u8,
    /// What is after the length: whole words of four bytes.
    pub contents: &'a [u8],
}

/// Why bytes are not an extended report: the first fault in reading order.
#[derive(Clone, Copy, Debug, PartialEq, Eq, Error)]
pub enum XrFault {
    /// There are fewer than 4 bytes: no room for the SSRC of the sender.
    #[error("extended report is shorter than its SSRC")]
    TooShort,
    /// The bytes end inside the 4 bytes of type and length of a report block.
    #[error("extended report ends inside the head of a block")]
    BlockTooShort,
    /// The bytes end inside the contents of a report block: its length passes the end.
    #[error("extended report ends inside a block")]
    ContentsTooShort,
}

impl<'a> XrBlock<'a> {
    /// Reads the block at the front, and returns the bytes after it.
    ///
    /// # Errors
    ///
    /// The bytes end inside the block, or there are none.
    pub fn read(bytes: &'a [u8]) -> Result<(XrBlock<'a>, &'a [u8]), XrFault>
        ensures { seen (λ x. (block_of x.0, x.1.now)) result ≡ block_at bytes.now }
    {
        read_block(bytes)
    }
}

impl<'a> ExtendedReport<'a> {
    /// Reads the bytes after the header of an RTCP packet of type [`XR`]: the `body` of an `OtherPacket`. Blocks of any type, with any
    /// contents, are accepted; the bits that the RFC reserves are ignored.
    ///
    /// # Errors
    ///
    /// The first fault in reading order.
    pub fn read(body: &'a [u8]) -> Result<ExtendedReport<'a>, XrFault>
        ensures { seen report_of result ≡ body_at body.now }
    {
        read_body(body)
    }

    /// Returns the reference time of the first Receiver Reference Time Report Block: an NTP timestamp, in units of 1/2^32 seconds. That
    /// is a block of type 4 and two words; blocks of other lengths are skipped.
    ///
    /// Walks over the blocks, up to the first one that the bytes end in.
    pub fn reference_time(&self) -> Option<u64>
        ensures { result ≡ reference_time_in (report_of self.now).blocks }
    {
        reference_time_in(self.blocks)
    }

    /// Returns the first answer to the receiver with this SSRC: a sub-block of a DLRR Report Block. That is a block of type 5 whose
    /// contents are whole sub-blocks of 12 bytes; blocks of other lengths are skipped.
    ///
    /// Walks over the blocks, up to the first one that the bytes end in.
    pub fn dlrr(&self, ssrc: u32) -> Option<Dlrr>
        ensures { result ≡ dlrr_in ssrc (report_of self.now).blocks }
    {
        dlrr_in(ssrc, self.blocks)
    }
}
