//! Congestion control feedback that is written.

ghost use Rattle.std.specs.Prelude.{◌≡◌, ◌++◌, ◌%◌, ◌≤◌, [], IsTrue, OnErr, OnOk, length, map};
ghost use Rattle.codec_payload_rtcp.specs.RtcpWriting.{Appends};
ghost use Rattle.codec_payload_feedback_ccfb.specs.Ccfb.{body_bytes, ccfb_packet, fill_of, metric_fits, metric_word, metrics_bytes, metrics_fit, report_bytes, report_fits, report_of, reports_bytes, reports_fit};
ghost use Rattle.codec_payload_feedback_ccfb.specs.CcfbWriting.{AppendsBody, packet_head};

use crate::feedback::{PacketMetric, StreamReport};
use std::alloc::{AllocError, Global};

/// Returns the 16 bits about a packet.
fn metric_word(metric: Option<PacketMetric>) -> u16
    requires { IsTrue (metric_fits metric) }
    ensures { result ≡ metric_word metric }
{
    match metric {
        None => 0,
        Some(metric) => 32_768 + u16::from(metric.ecn) * 8_192 + metric.offset,
    }
}

/// Appends 16 bits about each packet.
fn write_metrics(metrics: &[Option<PacketMetric>], out: &mut Vec<u8>) -> Result<(), AllocError>
    requires { IsTrue (metrics_fit metrics.now) }
    ensures { OnOk result (out.new.items ≡ out.old.items ++ metrics_bytes metrics.now) }
{
    let mut rest = metrics;
    while let [metric, others @ ..] = rest {
        out.extend_from_slice(&metric_word(*metric).to_be_bytes())?;
        rest = others;
    }
    Ok(())
}

/// Appends two bytes of zeros after an odd number of packets.
fn write_fill(count: usize, out: &mut Vec<u8>) -> Result<(), AllocError>
    ensures { OnOk result (out.new.items ≡ out.old.items ++ fill_of count) }
{
    if count % 2 == 0 {
        return Ok(());
    }
    out.extend_from_slice(&[0, 0])
}

/// Appends a block.
fn write_report(report: &StreamReport, out: &mut Vec<u8>) -> Result<(), AllocError>
    requires { IsTrue (report_fits (report_of report.now)) }
    ensures { OnOk result (out.new.items ≡ out.old.items ++ report_bytes (report_of report.now)) }
{
    out.extend_from_slice(&report.ssrc.to_be_bytes())?;
    out.extend_from_slice(&report.first.to_be_bytes())?;
    out.extend_from_slice(&(report.metrics.len() as u16).to_be_bytes())?;
    write_metrics(&report.metrics, out)?;
    write_fill(report.metrics.len(), out)
}

/// Appends blocks that have room.
fn write_reports(room: usize, reports: &[StreamReport], out: &mut Vec<u8>) -> Result<(), AllocError>
    requires { IsTrue (reports_fit room (map report_of reports.now)) }
    ensures { OnOk result (out.new.items ≡ out.old.items ++ reports_bytes (map report_of reports.now)) }
{
    for report in reports {
        write_report(report, out)?;
    }
    Ok(())
}

/// Writes what is after the header to `body`, which is empty.
fn write_body(
    sender_ssrc: u32,
    reports: &[StreamReport],
    timestamp: u32,
    body: &mut Vec<u8>,
) -> Result<(), AllocError>
    requires fit { IsTrue (reports_fit 262132 (map report_of reports.now)) }
    requires empty { body.old.items ≡ [] }
    ensures { OnOk result (body.new.items ≡ body_bytes (record { sender = sender_ssrc; reports = map report_of reports.now; timestamp = timestamp })) }
{
    body.extend_from_slice(&sender_ssrc.to_be_bytes())?;
    write_reports(262_132, reports, body)?;
    body.extend_from_slice(&timestamp.to_be_bytes())
}

/// Returns the header without padding.
fn packet_head(words: u16) -> [u8; 4]
    ensures { result ≡ packet_head words }
{
    let [l1, l0] = words.to_be_bytes();
    [139, 205, l1, l0]
}

/// Appends the packet with this body, in one step.
fn put_packet(alloc: Global, body: &[u8], out: &mut Vec<u8>) -> Result<(), AllocError>
    requires whole { length body.now % 4 ≡ 0 }
    requires short { length body.now ≤ 262140 }
    ensures ok { OnOk result (AppendsBody body.now out.old.items out.new.items) }
    ensures err { OnErr result (out.new.items ≡ out.old.items) }
{
    let mut packet = Vec::new(alloc);
    packet.extend_from_slice(&packet_head((body.len() / 4) as u16))?;
    packet.extend_from_slice(body)?;
    out.extend_from_slice(&packet)
}

/// Appends the packet.
pub(crate) fn write_packet(
    alloc: Global,
    sender_ssrc: u32,
    reports: &[StreamReport],
    timestamp: u32,
    out: &mut Vec<u8>,
) -> Result<(), AllocError>
    requires { IsTrue (reports_fit 262132 (map report_of reports.now)) }
    ensures ok { OnOk result (Appends out.old.items out.new.items (ccfb_packet (record { sender = sender_ssrc; reports = map report_of reports.now; timestamp = timestamp }))) }
    ensures err { OnErr result (out.new.items ≡ out.old.items) }
{
    let mut body = Vec::new(alloc);
    write_body(sender_ssrc, reports, timestamp, &mut body)?;
    put_packet(alloc, &body, out)
}
