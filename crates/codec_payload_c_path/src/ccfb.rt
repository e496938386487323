//! Congestion control feedback of RFC 8888: what it says about the packets of one stream, read and written.

ghost use Rattle.std.specs.Prelude.{◌≡◌, ◌≢◌, ◌≤◌, ◌++◌, drop, length, map, slice_get, IfOk};
ghost use Rattle.codec_payload_base.specs.Answers.{Finds};
ghost use Rattle.codec_payload_rtcp.specs.RtcpReading.{packets_left};
ghost use Rattle.codec_payload_rtcp.specs.RtcpValues.{packet_of};
ghost use Rattle.codec_payload_feedback_ccfb.specs.Ccfb.{congestion_of, report_of};
ghost use Rattle.codec_payload_feedback_ccfb.specs.CcfbLog.{offset_for};
ghost use Rattle.codec_payload_c_path.specs.Ccfb.{PutsStream, ReadsStream, WritesStream, bodies_in, body_of, fault_status, feedback_given, in_quarters, info_of, metric_given, metric_told};

use crate::status;
use crate::writing::put_packet;
use codec_payload_feedback_ccfb::feedback::{
    CcfbError, CcfbFault, CongestionFeedback, PacketMetric, StreamReport,
};
use codec_payload_feedback_ccfb::log::offset_for;
use codec_payload_feedback_congestion::arrivals::quarters;
use codec_payload_rtcp::compound::Packets;
use codec_payload_rtcp::packet::RtcpPacket;
use std::alloc::{AllocError, Global};

/// What congestion control feedback reports on.
#[repr(C)]
#[derive(Clone, Copy)]
pub struct CcfbInfo {
    /// How many packets of the stream it reports on, one after another.
    pub count: usize,
    /// The SSRC of the sender of the feedback.
    pub sender_ssrc: u32,
    /// The SSRC of the stream.
    pub ssrc: u32,
    /// The time of the report: the middle 32 bits of an NTP timestamp.
    pub timestamp: u32,
    /// The first sequence number.
    pub first: u16,
}

/// What is reported about a packet.
#[repr(C)]
#[derive(Clone, Copy)]
pub struct CcfbPacket {
    /// How long before the time of the report it arrived, in units of 1/1,024 seconds; 0 if it did not arrive.
    pub offset: u16,
    /// Its ECN bits; 0 if it did not arrive.
    pub ecn: u8,
    /// Whether it arrived.
    pub arrived: bool,
}

/// Returns the body of a packet of congestion control feedback.
fn body_of<'a>(packet: &RtcpPacket<'a>) -> Option<&'a [u8]>
    ensures { Finds (λ b. b.now) result (body_of (packet_of packet.now)) }
{
    match packet {
        RtcpPacket::Other(other) if other.packet_type == 205 && other.count == 11 => {
            Some(other.body)
        }
        _ => None,
    }
}

/// Returns the body of the congestion control feedback with this index, from 0.
pub fn nth_body<'a>(packets: Packets<'a>, index: usize) -> Option<&'a [u8]>
    ensures { Finds (λ b. b.now) result (slice_get (bodies_in (packets_left packets.entry)) index) }
{
    let mut left = index;
    for packet in packets {
        if let Some(body) = body_of(&packet) {
            if left == 0 {
                return Some(body);
            }
            left -= 1;
        }
    }
    None
}

/// Returns the status for bytes that are not congestion control feedback.
fn fault_status(fault: CcfbFault) -> u32
    ensures { result ≡ fault_status fault }
{
    match fault {
        CcfbFault::TooShort => status::CCFB_TOO_SHORT,
        CcfbFault::BlockTooShort => status::CCFB_BLOCK_TOO_SHORT,
        CcfbFault::TooMany => status::CCFB_TOO_MANY,
        CcfbFault::MetricsTooShort => status::CCFB_METRICS_TOO_SHORT,
    }
}

/// Describes what is reported about a packet.
fn metric_told(metric: Option<PacketMetric>) -> CcfbPacket
    ensures { result ≡ metric_told metric }
{
    match metric {
        Some(metric) => CcfbPacket {
            offset: metric.offset,
            ecn: metric.ecn,
            arrived: true,
        },
        None => CcfbPacket {
            offset: 0,
            ecn: 0,
            arrived: false,
        },
    }
}

/// Writes what is reported about each packet.
fn put_metrics(metrics: &[Option<PacketMetric>], packets: &mut [CcfbPacket])
    requires { length metrics.now ≤ length packets.old }
    ensures { packets.new ≡ map metric_told metrics.now ++ drop (length metrics.now) packets.old }
{
    let mut place = 0;
    for metric in metrics {
        packets[place] = metric_told(*metric);
        place += 1;
    }
}

/// Describes the report about a stream.
fn info_of(feedback: &CongestionFeedback, report: &StreamReport) -> CcfbInfo
    ensures { result ≡ info_of (congestion_of feedback.now) (report_of report.now) }
{
    CcfbInfo {
        count: report.metrics.len(),
        sender_ssrc: feedback.sender_ssrc,
        ssrc: report.ssrc,
        timestamp: feedback.timestamp,
        first: report.first,
    }
}

/// Writes the report about a stream, if there is room for it.
fn put_stream(
    feedback: &CongestionFeedback,
    report: &StreamReport,
    info: &mut CcfbInfo,
    packets: &mut [CcfbPacket],
) -> u32
    ensures { PutsStream (congestion_of feedback.now) (report_of report.now) result info.new packets.old packets.new }
{
    *info = info_of(feedback, report);
    if packets.len() < report.metrics.len() {
        return status::TOO_SMALL;
    }
    put_metrics(&report.metrics, packets);
    status::OK
}

/// Reads the report about the stream with this index, from 0, in the body of congestion control feedback.
pub fn read(
    alloc: Global,
    body: &[u8],
    stream: usize,
    info: &mut CcfbInfo,
    packets: &mut [CcfbPacket],
) -> u32
    ensures reads { ReadsStream body.now stream result (record { info_before = info.old; info = info.new; before = packets.old; packets = packets.new }) }
    ensures untouched { result ≢ 0 → packets.new ≡ packets.old }
    ensures unchanged { result ≢ 0 → result ≢ 33 → info.new ≡ info.old }
{
    match CongestionFeedback::read(alloc, body) {
        Ok(feedback) => match feedback.reports.get(stream) {
            Some(report) => put_stream(&feedback, report, info, packets),
            None => status::NONE,
        },
        Err(CcfbError::Fault(fault)) => fault_status(fault),
        Err(CcfbError::OutOfMemory) => status::OUT_OF_MEMORY,
    }
}

/// Converts what is reported about a packet from C.
fn metric_given(packet: &CcfbPacket) -> Option<PacketMetric>
    ensures { result ≡ metric_given packet.now }
{
    if packet.arrived {
        Some(PacketMetric {
            ecn: packet.ecn,
            offset: packet.offset,
        })
    } else {
        None
    }
}

/// Converts what is reported about each packet from C.
fn metrics_given(
    alloc: Global,
    packets: &[CcfbPacket],
) -> Result<Vec<Option<PacketMetric>>, AllocError>
    ensures { IfOk result (λ metrics. metrics.items ≡ map metric_given packets.now) }
{
    let mut metrics = Vec::new(alloc);
    for packet in packets {
        metrics.push(metric_given(packet))?;
    }
    Ok(metrics)
}

/// Converts feedback about one stream from C.
fn feedback_given(
    alloc: Global,
    info: &CcfbInfo,
    packets: &[CcfbPacket],
) -> Result<CongestionFeedback, AllocError>
    ensures { IfOk result (λ feedback. congestion_of feedback ≡ feedback_given info.now packets.now) }
{
    let report = StreamReport {
        ssrc: info.ssrc,
        first: info.first,
        metrics: metrics_given(alloc, packets)?,
    };
    let mut reports = Vec::new(alloc);
    reports.push(report)?;
    Ok(CongestionFeedback {
        sender_ssrc: info.sender_ssrc,
        reports,
        timestamp: info.timestamp,
    })
}

/// Writes feedback about one stream to the output buffer: a whole RTCP packet.
pub fn write(
    alloc: Global,
    info: &CcfbInfo,
    packets: &[CcfbPacket],
    bytes: &mut [u8],
    size: &mut usize,
) -> u32
    ensures writes { WritesStream info.now packets.now result (record { before = bytes.old; bytes = bytes.new; size_before = size.old; size = size.new }) }
    ensures untouched { result ≢ 0 → bytes.new ≡ bytes.old }
    ensures unchanged { result ≢ 0 → result ≢ 33 → size.new ≡ size.old }
{
    let Ok(feedback) = feedback_given(alloc, info, packets) else {
        return status::OUT_OF_MEMORY;
    };
    if !feedback.fits() {
        return status::INVALID;
    }
    let mut packet = Vec::new(alloc);
    match feedback.write(alloc, &mut packet) {
        Ok(()) => put_packet(&packet, bytes, size),
        Err(_) => status::OUT_OF_MEMORY,
    }
}

/// Returns the offset of a packet that arrived at a time, for a report at `now`, both in microseconds.
pub fn offset(now: u64, time: u64) -> u16
    ensures { result ≡ offset_for (in_quarters now) (in_quarters time) }
{
    offset_for(quarters(now), quarters(time))
}
