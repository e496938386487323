//! What a log of arrivals reports.

ghost use Rattle.std.specs.Prelude.{◌≡◌, ◌++◌, IfOk, OnOk};
ghost use Rattle.codec_payload_feedback_ccfb.specs.Ccfb.{report_of};
ghost use Rattle.codec_payload_feedback_ccfb.specs.CcfbLog.{metric_for, metrics_for, offset_for, report_from};

use crate::feedback::{MAX_METRICS, OVER_RANGE, PacketMetric, StreamReport, UNAVAILABLE};
use codec_payload_feedback_congestion::arrivals::ArrivalLog;
use std::alloc::{AllocError, Global};

/// Returns the arrival time offset of a packet that arrived at `time`, for a report at `now`, both in quarters of a millisecond modulo
/// 2^32: units of 1/1,024 seconds, rounded down. [`OVER_RANGE`] if it is more than 8,189 units; [`UNAVAILABLE`] if the packet arrived
/// after the report, that is, if it is 2^31 quarters or more.
pub fn offset_for(now: u32, time: u32) -> u16
    ensures { result ≡ offset_for now time }
{
    let age = now.wrapping_sub(time);
    if age >= 2_147_483_648 {
        return UNAVAILABLE;
    }
    let units = u64::from(age) * 32 / 125;
    if units > 8_189 {
        return OVER_RANGE;
    }
    units as u16
}

/// Returns what is reported about a packet with this time of arrival.
fn metric_for(now: u32, time: Option<u32>) -> Option<PacketMetric>
    ensures { result ≡ metric_for now time }
{
    match time {
        Some(time) => Some(PacketMetric {
            ecn: 0,
            offset: offset_for(now, time),
        }),
        None => None,
    }
}

/// Appends what is reported about packets with these times of arrival.
fn push_metrics(
    now: u32,
    times: &[Option<u32>],
    metrics: &mut Vec<Option<PacketMetric>>,
) -> Result<(), AllocError>
    ensures { OnOk result (metrics.new.items ≡ metrics.old.items ++ metrics_for now times.now) }
{
    for time in times {
        metrics.push(metric_for(now, *time))?;
    }
    Ok(())
}

/// Returns the block about the numbers of a log that were not reported, with ECN bits of 0: at most `most` numbers, and at most
/// [`MAX_METRICS`]. The log has the sequence numbers of one stream, and `now` is the time of the report in quarters of a millisecond
/// modulo 2^32. Pass the number of metrics to [`ArrivalLog::mark_reported`] once the feedback is sent.
///
/// # Errors
///
/// Out of memory.
pub fn stream_report(
    alloc: Global,
    ssrc: u32,
    log: &ArrivalLog,
    now: u32,
    most: usize,
) -> Result<StreamReport, AllocError>
    ensures { IfOk result (λ report. report_of report ≡ report_from ssrc now most log.now) }
{
    let unreported = log.unreported();
    let count = unreported.len().min(most).min(MAX_METRICS);
    let (times, _) = unreported.split_at(count);
    let mut metrics = Vec::new(alloc);
    push_metrics(now, times, &mut metrics)?;
    Ok(StreamReport {
        ssrc,
        first: log.first_unreported(),
        metrics,
    })
}
