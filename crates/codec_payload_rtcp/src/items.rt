//! Report blocks and entries of full intra requests, by their index.

ghost use Rattle.std.specs.Prelude.{◌≡◌, ℕ, ◌≤◌, ◌<◌, ◌+◌, ◌*◌, ◌/◌, ◌++◌, length, nat_lt, SomeIff, OnOk};
ghost use Rattle.codec_payload_rtcp.specs.RtcpItems.{FitsBlock, FitsEntry, word_in, block_at, entry_at, block_bytes, entry_bytes};

use crate::packet::{FullIntraRequest, Goodbye, ReceiverReport, SenderReport};
use std::alloc::AllocError;

/// A report block (RFC 3550, section 6.4.1).
#[derive(Clone, Copy, Debug, PartialEq, Eq)]
pub struct ReportBlock {
    /// The source that the block reports on.
    pub ssrc: u32,
    /// The fraction of packets lost since the last report, in 256ths.
    pub fraction_lost: u8,
    /// The cumulative number of packets lost, 24 bits in two's complement: 0 to 16,777,215.
    pub cumulative_lost: u32,
    /// The extended highest sequence number received.
    pub highest_sequence_number: u32,
    /// The interarrival jitter, in units of the RTP time.
    pub jitter: u32,
    /// LSR: the middle 32 bits of the NTP timestamp of the last sender report, or 0.
    pub last_sender_report: u32,
    /// DLSR: the delay since that report, in units of 1/65,536 seconds.
    pub delay_since_sender_report: u32,
}

/// An entry of a full intra request (RFC 5104, section 4.3.1.1).
#[derive(Clone, Copy, Debug, PartialEq, Eq)]
pub struct FullIntraEntry {
    /// The source that is asked for a full picture.
    pub ssrc: u32,
    /// The number of the command, which counts up modulo 256.
    pub sequence_number: u8,
}

impl ReportBlock {
    /// What the types of the fields say.
    fn known(self)
        requires { self.cumulative_lost < 16777216 }
        ensures { FitsBlock self }
    {}

    /// Whether the block can be written: the cumulative number of packets lost has 24 bits.
    pub fn fits(&self) -> bool
        ensures { result ≡ nat_lt self.now.cumulative_lost 16777216 }
    {
        self.cumulative_lost < 16_777_216
    }

    /// Appends the 24 bytes of the report block.
    fn put(&self, blocks: &mut Vec<u8>) -> Result<(), AllocError>
        requires { self.now.cumulative_lost < 16777216 }
        ensures { OnOk result (blocks.new.items ≡ blocks.old.items ++ block_bytes self.now) }
    {
        let lost = u32::from(self.fraction_lost) * 16_777_216 + self.cumulative_lost;
        let [a3, a2, a1, a0] = self.ssrc.to_be_bytes();
        let [b3, b2, b1, b0] = lost.to_be_bytes();
        let [c3, c2, c1, c0] = self.highest_sequence_number.to_be_bytes();
        let [d3, d2, d1, d0] = self.jitter.to_be_bytes();
        let [e3, e2, e1, e0] = self.last_sender_report.to_be_bytes();
        let [f3, f2, f1, f0] = self.delay_since_sender_report.to_be_bytes();
        blocks.extend_from_slice(&[
            a3, a2, a1, a0, b3, b2, b1, b0, c3, c2, c1, c0, d3, d2, d1, d0, e3, e2, e1, e0, f3, f2,
            f1, f0,
        ])
    }

    /// Appends the report block to those that `blocks` has. Its cumulative number of packets lost is below 16,777,216.
    pub fn write(&self, blocks: &mut Vec<u8>) -> Result<(), AllocError>
        requires { self.now.cumulative_lost < 16777216 }
        ensures written { OnOk result (blocks.new.items ≡ blocks.old.items ++ block_bytes self.now) }
        // It is then the last block that is read.
        ensures comes_back { OnOk result ((i : ℕ) → length blocks.old.items ≡ 24 * i → block_at i blocks.new.items ≡ self.now) }
    {
        self.known();
        self.put(blocks)
    }
}

impl FullIntraEntry {
    /// What the types of the fields say.
    fn known(self)
        ensures { FitsEntry self }
    {}

    /// Appends the 8 bytes of the entry.
    fn put(&self, entries: &mut Vec<u8>) -> Result<(), AllocError>
        ensures { OnOk result (entries.new.items ≡ entries.old.items ++ entry_bytes self.now) }
    {
        let [a3, a2, a1, a0] = self.ssrc.to_be_bytes();
        entries.extend_from_slice(&[a3, a2, a1, a0, self.sequence_number, 0, 0, 0])
    }

    /// Appends the entry to those that `entries` has, with its reserved bytes 0.
    pub fn write(&self, entries: &mut Vec<u8>) -> Result<(), AllocError>
        ensures written { OnOk result (entries.new.items ≡ entries.old.items ++ entry_bytes self.now) }
        // It is then the last entry that is read.
        ensures comes_back { OnOk result ((i : ℕ) → length entries.old.items ≡ 8 * i → entry_at i entries.new.items ≡ self.now) }
    {
        self.known();
        self.put(entries)
    }
}

/// The number of 32 bits at that place.
fn word_in(place: usize, bytes: &[u8]) -> u32
    requires { place + 4 ≤ length bytes.now }
    ensures { result ≡ word_in place bytes.now }
{
    let (_, rest) = bytes.split_at(place);
    let (word, _) = rest.split_at(4);
    u32::from_be_bytes([word[0], word[1], word[2], word[3]])
}

/// Returns the report block of that index, of report blocks as they are in a packet.
pub fn report_block(blocks: &[u8], index: usize) -> Option<ReportBlock>
    ensures { SomeIff result (index < length blocks.now / 24) (block_at index blocks.now) }
{
    if index >= blocks.len() / 24 {
        return None;
    }
    let place = 24 * index;
    let lost = word_in(place + 4, blocks);
    Some(ReportBlock {
        ssrc: word_in(place, blocks),
        fraction_lost: (lost / 16_777_216) as u8,
        cumulative_lost: lost % 16_777_216,
        highest_sequence_number: word_in(place + 8, blocks),
        jitter: word_in(place + 12, blocks),
        last_sender_report: word_in(place + 16, blocks),
        delay_since_sender_report: word_in(place + 20, blocks),
    })
}

impl<'a> SenderReport<'a> {
    /// Returns the report block of that index.
    pub fn block(&self, index: usize) -> Option<ReportBlock>
        ensures { SomeIff result (index < length self.now.blocks.now / 24) (block_at index self.now.blocks.now) }
    {
        report_block(self.blocks, index)
    }
}

impl<'a> ReceiverReport<'a> {
    /// Returns the report block of that index.
    pub fn block(&self, index: usize) -> Option<ReportBlock>
        ensures { SomeIff result (index < length self.now.blocks.now / 24) (block_at index self.now.blocks.now) }
    {
        report_block(self.blocks, index)
    }
}

impl<'a> Goodbye<'a> {
    /// Returns how many sources leave.
    pub fn count(&self) -> usize
        ensures { result ≡ length self.now.ssrcs.now / 4 }
    {
        self.ssrcs.len() / 4
    }

    /// Returns the source of that index.
    pub fn ssrc(&self, index: usize) -> Option<u32>
        ensures { SomeIff result (index < length self.now.ssrcs.now / 4) (word_in (4 * index) self.now.ssrcs.now) }
    {
        if index >= self.count() {
            return None;
        }
        Some(word_in(4 * index, self.ssrcs))
    }
}

impl<'a> FullIntraRequest<'a> {
    /// Returns the entry of that index.
    pub fn entry(&self, index: usize) -> Option<FullIntraEntry>
        ensures { SomeIff result (index < length self.now.entries.now / 8) (entry_at index self.now.entries.now) }
    {
        if index >= self.entries.len() / 8 {
            return None;
        }
        let place = 8 * index;
        Some(FullIntraEntry {
            ssrc: word_in(place, self.entries),
            sequence_number: (word_in(place + 4, self.entries) / 16_777_216) as u8,
        })
    }
}
