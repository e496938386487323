//! Congestion control feedback (RFC 8888, section 3.1): an RTCP packet of type 205, RTPFB, and format 11.

ghost use Rattle.std.specs.Prelude.{◌≡◌, ◌≤◌, IsTrue, OnErr, OnOk, map};
ghost use Rattle.codec_payload_rtcp.specs.RtcpWriting.{Appends};
ghost use Rattle.codec_payload_feedback_ccfb.specs.Ccfb.{block_size, ccfb_packet, congestion_fits, congestion_of, metrics_fit, report_fits, report_of, reports_fit};
ghost use Rattle.codec_payload_feedback_ccfb.specs.CcfbReading.{Gives, body_at};

use crate::reading::read_body;
use crate::writing::write_packet;
use std::alloc::{AllocError, Global};
use thiserror::Error;

/// The arrival time offset of a packet that arrived more than 8,189/1,024 seconds before the report.
pub const OVER_RANGE: u16 = 0x1FFE;

/// The arrival time offset of a packet whose time of arrival is unknown, or after the time of the report.
pub const UNAVAILABLE: u16 = 0x1FFF;

/// The largest number of packets that one block reports on: a quarter of the sequence numbers.
pub const MAX_METRICS: usize = 16_384;

/// What is reported about a packet that arrived.
#[derive(Clone, Copy, Debug, PartialEq, Eq)]
pub struct PacketMetric {
    /// The two ECN bits of the packet (RFC 3168), 0 to 3. 0: not ECN-capable, or unknown.
    pub ecn: u8,
    /// How long before the time of the report the packet arrived, in units of 1/1,024 seconds: 0 to 8,189, [`OVER_RANGE`] or
    /// [`UNAVAILABLE`].
    pub offset: u16,
}

/// What is reported about a stream: consecutive sequence numbers.
#[derive(Debug, Drop)]
pub struct StreamReport {
    /// The SSRC of the stream.
    pub ssrc: u32,
    /// The first sequence number.
    pub first: u16,
    /// Of each number from the first one on: what is reported, or `None` if the packet did not arrive. At most [`MAX_METRICS`].
    pub metrics: Vec<Option<PacketMetric>>,
}

/// Congestion control feedback.
#[derive(Debug, Drop)]
pub struct CongestionFeedback {
    /// The source that sends the feedback.
    pub sender_ssrc: u32,
    /// What is reported about each stream.
    pub reports: Vec<StreamReport>,
    /// The time of the report: the middle 32 bits of an NTP timestamp, in units of 1/65,536 seconds.
    pub timestamp: u32,
}

/// Why bytes are not congestion control feedback: the first fault in reading order.
#[derive(Clone, Copy, Debug, PartialEq, Eq, Error)]
pub enum CcfbFault {
    /// There are fewer than 8 bytes: no room for the SSRC of the sender and the time of the report.
    #[error("congestion control feedback is shorter than its SSRC and its timestamp")]
    TooShort,
    /// The bytes before the time of the report end inside the first 8 bytes of a block.
    #[error("congestion control feedback ends inside the head of a block")]
    BlockTooShort,
    /// A block reports on more than 16,384 packets.
    #[error("congestion control feedback has a block of more than 16384 packets")]
    TooMany,
    /// The bytes before the time of the report end inside the packets of a block.
    #[error("congestion control feedback ends inside the packets of a block")]
    MetricsTooShort,
}

/// Why congestion control feedback was not read.
#[derive(Clone, Copy, Debug, PartialEq, Eq, Error)]
pub enum CcfbError {
    #[error("out of memory")]
    OutOfMemory,
    /// The bytes are not congestion control feedback.
    #[error("{0}")]
    Fault(CcfbFault),
}

/// Returns whether each metric has a spelling: ECN bits up to 3, and offsets below 8,192.
fn metrics_fit(metrics: &[Option<PacketMetric>]) -> bool
    ensures { result ≡ metrics_fit metrics.now }
{
    for metric in metrics {
        if let Some(metric) = metric
            && (metric.ecn > 3 || metric.offset > 8_191)
        {
            return false;
        }
    }
    true
}

/// Returns how many bytes a block of that many packets has.
pub(crate) fn block_size(count: usize) -> usize
    requires { count ≤ 65535 }
    ensures { result ≡ block_size count }
{
    8 + 2 * (count + count % 2)
}

impl StreamReport {
    /// Returns whether the block can be written: at most [`MAX_METRICS`] packets, with ECN bits up to 3 and offsets below 8,192.
    pub fn fits(&self) -> bool
        ensures { result ≡ report_fits (report_of self.now) }
    {
        self.metrics.len() <= MAX_METRICS && metrics_fit(&self.metrics)
    }
}

/// Returns whether blocks can be written in the given number of bytes.
fn reports_fit(room: usize, reports: &[StreamReport]) -> bool
    ensures { result ≡ reports_fit room (map report_of reports.now) }
{
    let mut left = room;
    for report in reports {
        if !report.fits() || block_size(report.metrics.len()) > left {
            return false;
        }
        left -= block_size(report.metrics.len());
    }
    true
}

impl CongestionFeedback {
    /// Returns whether the feedback can be written: each block fits, and the packet has at most 65,536 words of four bytes.
    pub fn fits(&self) -> bool
        ensures { result ≡ congestion_fits (congestion_of self.now) }
    {
        reports_fit(262_132, &self.reports)
    }

    /// Appends the RTCP packet, without padding, so that it may stand anywhere in a compound packet. The feedback must fit
    /// ([`CongestionFeedback::fits`]). Allocates for the packet, and copies it once.
    ///
    /// # Errors
    ///
    /// Out of memory: `out` is unchanged.
    pub fn write(&self, alloc: Global, out: &mut Vec<u8>) -> Result<(), AllocError>
        requires { IsTrue (congestion_fits (congestion_of self.now)) }
        ensures ok { OnOk result (Appends out.old.items out.new.items (ccfb_packet (congestion_of self.now))) }
        ensures err { OnErr result (out.new.items ≡ out.old.items) }
    {
        write_packet(alloc, self.sender_ssrc, &self.reports, self.timestamp, out)
    }

    /// Reads the bytes after the header of an RTCP packet of type 205 and format 11: the `body` of an `OtherPacket`. The bits of a packet
    /// that did not arrive are ignored, and so is what fills a block up to whole words. Allocates about 3 bytes for each byte.
    ///
    /// # Errors
    ///
    /// The first fault in reading order, or out of memory.
    pub fn read(alloc: Global, body: &[u8]) -> Result<CongestionFeedback, CcfbError>
        ensures { Gives congestion_of result (body_at body.now) }
    {
        read_body(alloc, body)
    }
}
