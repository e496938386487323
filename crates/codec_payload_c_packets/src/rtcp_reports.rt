//! Sender reports, receiver reports and their blocks, read from a compound RTCP packet.

ghost use Rattle.std.specs.Prelude.{◌≡◌, slice_get};
ghost use Rattle.codec_payload_base.specs.Answers.{Finds, seen};
ghost use Rattle.codec_payload_rtcp.specs.RtcpReading.{packets_left};
ghost use Rattle.codec_payload_rtcp.specs.RtcpValues.{packet_of};
ghost use Rattle.codec_payload_c_packets.specs.RtcpReports.{ReadsBlock, report_in, report_with, reports_in};

use crate::history::{rtcp_status, rule_of};
use codec_payload_handle::report_block::{ReportBlockInfo, block_info};
use codec_payload_handle::status;
use codec_payload_rtcp::compound::{Packets, read_compound};
use codec_payload_rtcp::items::report_block;
use codec_payload_rtcp::packet::RtcpPacket;

/// A sender report or a receiver report (RFC 3550, sections 6.4.1 and 6.4.2).
#[repr(C)]
#[derive(Clone, Copy)]
pub struct RtcpReportInfo {
    /// Seconds since 1900 in the upper 32 bits, and fractions of a second in the lower 32 bits.
    pub ntp_time: u64,
    /// The number of report blocks.
    pub blocks: usize,
    /// The source that sends the report.
    pub ssrc: u32,
    /// The RTP time of that NTP time.
    pub rtp_time: u32,
    /// How many packets were sent.
    pub packets: u32,
    /// How many bytes of payload.
    pub octets: u32,
    /// Whether it is a sender report. If not, it has neither times nor counts.
    pub is_sender: bool,
}

/// Returns the fields and the blocks of a packet, if it is a report.
fn report_in<'a>(packet: &RtcpPacket<'a>) -> Option<(RtcpReportInfo, &'a [u8])>
    ensures { Finds (λ x. (x.0, x.1.now)) result (report_in (packet_of packet.now)) }
{
    match packet {
        RtcpPacket::SenderReport(report) => {
            let info = RtcpReportInfo {
                ntp_time: u64::from(report.ntp_seconds) * 4_294_967_296
                    + u64::from(report.ntp_fraction),
                blocks: report.blocks.len() / 24,
                ssrc: report.ssrc,
                rtp_time: report.rtp_time,
                packets: report.packet_count,
                octets: report.octet_count,
                is_sender: true,
            };
            Some((info, report.blocks))
        }
        RtcpPacket::ReceiverReport(report) => {
            let info = RtcpReportInfo {
                ntp_time: 0,
                blocks: report.blocks.len() / 24,
                ssrc: report.ssrc,
                rtp_time: 0,
                packets: 0,
                octets: 0,
                is_sender: false,
            };
            Some((info, report.blocks))
        }
        _ => None,
    }
}

/// Returns the report with this index, from 0.
fn nth_report(packets: Packets<'_>, index: usize) -> Option<(RtcpReportInfo, &[u8])>
    ensures { Finds (λ x. (x.0, x.1.now)) result (slice_get (reports_in (packets_left packets.entry)) index) }
{
    let mut left = index;
    for packet in packets {
        if let Some(report) = report_in(&packet) {
            if left == 0 {
                return Some(report);
            }
            left -= 1;
        }
    }
    None
}

/// Returns the report with this index in a compound packet, or the status that refuses it.
pub fn report_with(rtcp: &[u8], full: bool, index: usize) -> Result<(RtcpReportInfo, &[u8]), u32>
    ensures { seen (λ x. (x.0, x.1.now)) result ≡ report_with full index rtcp.now }
{
    match read_compound(rule_of(full), rtcp) {
        Ok(packets) => match nth_report(packets, index) {
            Some(report) => Ok(report),
            None => Err(status::NONE),
        },
        Err(fault) => Err(rtcp_status(fault)),
    }
}

/// Writes the report block with this index.
pub fn put_block(blocks: &[u8], place: usize, block: &mut ReportBlockInfo) -> u32
    ensures { ReadsBlock blocks.now place result block.old block.new }
{
    match report_block(blocks, place) {
        Some(told) => {
            *block = block_info(told);
            status::OK
        }
        None => status::NONE,
    }
}
