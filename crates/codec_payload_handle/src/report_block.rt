//! A block of a receiver report, for C.

ghost use Rattle.std.specs.Prelude.{◌≡◌};
ghost use Rattle.codec_payload_handle.specs.ReportBlocks.{block_info};

use codec_payload_rtcp::items::ReportBlock;

/// A block of a receiver report (RFC 3550, section 6.4.1).
#[repr(C)]
#[derive(Clone, Copy)]
pub struct ReportBlockInfo {
    pub ssrc: u32,
    /// 24 bits in two's complement.
    pub cumulative_lost: u32,
    pub highest: u32,
    /// In ticks of the RTP clock.
    pub jitter: u32,
    /// LSR: the middle 32 bits of the NTP time of the last sender report, or 0.
    pub last_sender_report: u32,
    /// DLSR: the delay since that report, in units of 1/65,536 seconds.
    pub delay_since_sender_report: u32,
    /// In 256ths.
    pub fraction_lost: u8,
}

/// Returns the fields of a block.
pub fn block_info(block: ReportBlock) -> ReportBlockInfo
    ensures { result ≡ block_info block }
{
    ReportBlockInfo {
        ssrc: block.ssrc,
        cumulative_lost: block.cumulative_lost,
        highest: block.highest_sequence_number,
        jitter: block.jitter,
        last_sender_report: block.last_sender_report,
        delay_since_sender_report: block.delay_since_sender_report,
        fraction_lost: block.fraction_lost,
    }
}
