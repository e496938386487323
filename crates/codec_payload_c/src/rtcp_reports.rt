//! Sender reports, receiver reports, their blocks, and names of sources, read from a compound RTCP packet.

ghost use Rattle.std.specs.Prelude.{◌≡◌, ◌≢◌};
ghost use Rattle.codec_payload_c_packets.specs.RtcpReports.{ReadsBlockOf, ReadsReport, report_with};
ghost use Rattle.codec_payload_c_packets.specs.SourceNames.{ReadsName, name_with};

use codec_payload_c_packets::congestion::put_packet;
use codec_payload_c_packets::rtcp_reports::{RtcpReportInfo, put_block, report_with};
use codec_payload_c_packets::source_names::name_with;
use codec_payload_handle::report_block::ReportBlockInfo;
use codec_payload_handle::status;

/// Reads the sender report or receiver report with this index in a compound RTCP packet, from 0.
#[unsafe(no_mangle)]
pub extern "C" fn cpay_read_report(
    rtcp: &[u8],
    full: bool,
    index: usize,
    report: &mut RtcpReportInfo,
) -> u32
    ensures reads { ReadsReport (report_with full index rtcp.now) result report.old report.new }
    ensures unchanged { result ≢ 0 → report.new ≡ report.old }
{
    match report_with(rtcp, full, index) {
        Ok((told, _)) => {
            *report = told;
            status::OK
        }
        Err(status) => status,
    }
}

/// Reads a report block of the report with this index in a compound RTCP packet. Both count from 0.
#[unsafe(no_mangle)]
pub extern "C" fn cpay_read_report_block(
    rtcp: &[u8],
    full: bool,
    index: usize,
    place: usize,
    block: &mut ReportBlockInfo,
) -> u32
    ensures { ReadsBlockOf (report_with full index rtcp.now) place result block.old block.new }
{
    match report_with(rtcp, full, index) {
        Ok((_, blocks)) => put_block(blocks, place, block),
        Err(status) => status,
    }
}

/// Reads the canonical name of a source in a compound RTCP packet.
#[unsafe(no_mangle)]
pub extern "C" fn cpay_read_cname(
    rtcp: &[u8],
    full: bool,
    ssrc: u32,
    bytes: &mut [u8],
    size: &mut usize,
) -> u32
    ensures reads { ReadsName (name_with full ssrc rtcp.now) result (record { before = bytes.old; bytes = bytes.new; size_before = size.old; size = size.new }) }
    ensures untouched { result ≢ 0 → bytes.new ≡ bytes.old }
    ensures unchanged { result ≢ 0 → result ≢ 33 → size.new ≡ size.old }
{
    match name_with(rtcp, full, ssrc) {
        Ok(name) => put_packet(name, bytes, size),
        Err(status) => status,
    }
}
