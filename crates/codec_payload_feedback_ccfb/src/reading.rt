//! Congestion control feedback that is read, from the left.

ghost use Rattle.std.specs.Prelude.{◌≡◌, ◌≤◌, ◌++◌, ◌∷◌, [], map, OnOk};
ghost use Rattle.std.specs.Int.{w16, from_be_bytes};
ghost use Rattle.codec_payload_feedback_ccfb.specs.Ccfb.{congestion_of, report_of};
ghost use Rattle.codec_payload_feedback_ccfb.specs.CcfbReading.{Gives, after_block, block_at, body_at, metric_at, metrics_in, reports_at, rest_at};

use crate::feedback::{
    CcfbError, CcfbFault, CongestionFeedback, MAX_METRICS, PacketMetric, StreamReport,
};
use std::alloc::{AllocError, Global};

/// Reads 16 bits about a packet.
fn read_metric(high: u8, low: u8) -> Option<PacketMetric>
    ensures { result ≡ metric_at (from_be_bytes w16 (high ∷ low ∷ [])) }
{
    let word = u16::from_be_bytes([high, low]);
    if word < 32_768 {
        return None;
    }
    Some(PacketMetric {
        ecn: (word / 8_192 % 4) as u8,
        offset: word % 8_192,
    })
}

/// Appends what each two bytes say about a packet.
#[tactic(auto, unfolding(crate::specs::CcfbReading::metrics_in))]
fn read_metrics(bytes: &[u8], metrics: &mut Vec<Option<PacketMetric>>) -> Result<(), AllocError>
    ensures { OnOk result (metrics.new.items ≡ metrics.old.items ++ metrics_in bytes.now) }
{
    let mut rest = bytes;
    while let [high, low, others @ ..] = rest {
        metrics.push(read_metric(*high, *low))?;
        rest = others;
    }
    Ok(())
}

/// Reads the packets of a block, and returns the bytes after them.
fn read_packets(
    alloc: Global,
    ssrc: u32,
    first: u16,
    count: usize,
    bytes: &[u8],
) -> Result<(StreamReport, &[u8]), CcfbError>
    requires { count ≤ 65535 }
    ensures { Gives (λ x. (report_of x.0, x.1.now)) result (after_block ssrc first count bytes.now) }
{
    if count > MAX_METRICS {
        return Err(CcfbError::Fault(CcfbFault::TooMany));
    }
    let size = 2 * (count + count % 2);
    if bytes.len() < size {
        return Err(CcfbError::Fault(CcfbFault::MetricsTooShort));
    }
    let (front, _) = bytes.split_at(2 * count);
    let (_, rest) = bytes.split_at(size);
    let mut metrics = Vec::new(alloc);
    let Ok(()) = read_metrics(front, &mut metrics) else {
        return Err(CcfbError::OutOfMemory);
    };
    let report = StreamReport {
        ssrc,
        first,
        metrics,
    };
    Ok((report, rest))
}

/// Reads a block, and returns the bytes after it.
#[tactic(auto, unfolding(crate::specs::CcfbReading::block_at))]
fn read_block(alloc: Global, bytes: &[u8]) -> Result<(StreamReport, &[u8]), CcfbError>
    ensures { Gives (λ x. (report_of x.0, x.1.now)) result (block_at bytes.now) }
{
    let [s3, s2, s1, s0, b1, b0, n1, n0, rest @ ..] = bytes else {
        return Err(CcfbError::Fault(CcfbFault::BlockTooShort));
    };
    read_packets(
        alloc,
        u32::from_be_bytes([*s3, *s2, *s1, *s0]),
        u16::from_be_bytes([*b1, *b0]),
        usize::from(u16::from_be_bytes([*n1, *n0])),
        rest,
    )
}

/// Reads blocks up to the end of the bytes.
fn read_blocks(alloc: Global, bytes: &[u8]) -> Result<Vec<StreamReport>, CcfbError>
    ensures { Gives (λ v. map report_of v.items) result (reports_at bytes.now) }
{
    let mut reports = Vec::new(alloc);
    let mut rest = bytes;
    while !rest.is_empty() {
        let (report, others) = match read_block(alloc, rest) {
            Ok(block) => block,
            Err(error) => return Err(error),
        };
        let Ok(()) = reports.push(report) else {
            return Err(CcfbError::OutOfMemory);
        };
        rest = others;
    }
    Ok(reports)
}

/// Reads the blocks, and the time of the report in the last four bytes.
fn read_rest(alloc: Global, sender_ssrc: u32, rest: &[u8]) -> Result<CongestionFeedback, CcfbError>
    ensures { Gives congestion_of result (rest_at sender_ssrc rest.now) }
{
    if rest.len() < 4 {
        return Err(CcfbError::Fault(CcfbFault::TooShort));
    }
    let (blocks, time) = rest.split_at(rest.len() - 4);
    let reports = match read_blocks(alloc, blocks) {
        Ok(reports) => reports,
        Err(error) => return Err(error),
    };
    Ok(CongestionFeedback {
        sender_ssrc,
        reports,
        timestamp: u32::from_be_bytes([time[0], time[1], time[2], time[3]]),
    })
}

/// Reads the SSRC of the sender, and what is after it.
#[tactic(auto, unfolding(crate::specs::CcfbReading::body_at))]
pub(crate) fn read_body(alloc: Global, body: &[u8]) -> Result<CongestionFeedback, CcfbError>
    ensures { Gives congestion_of result (body_at body.now) }
{
    let [s3, s2, s1, s0, rest @ ..] = body else {
        return Err(CcfbError::Fault(CcfbFault::TooShort));
    };
    read_rest(alloc, u32::from_be_bytes([*s3, *s2, *s1, *s0]), rest)
}
