//! RTCP packets that are written: reports with their blocks, a canonical name, requests for keyframes, and a BYE.

ghost use Rattle.std.specs.Prelude.{◌≡◌, ◌*◌, ◌≤◌, ◌<◌, ◌+◌, ◌++◌, [], length, IfOk, IsTrue, OnOk};
ghost use Rattle.codec_payload_rtcp.specs.RtcpItems.{entry_bytes};
ghost use Rattle.codec_payload_rtcp.specs.RtcpPackets.{full_intra, receiver_report, sender_report};
ghost use Rattle.codec_payload_rtcp.specs.RtcpWriting.{Appends};
ghost use Rattle.codec_payload_c_packets.specs.RtcpWriting.{block_given, block_list, blocks_fit, bye_packet, entry_given, fits_24_bits, given_bytes, intra_of, name_packet, receiver_given, sender_given};

use crate::sender::SenderReportInfo;
use codec_payload_handle::report_block::ReportBlockInfo;
use codec_payload_rtcp::items::{FullIntraEntry, ReportBlock};
use codec_payload_rtcp::packet::{FullIntraRequest, Goodbye, ReceiverReport, SenderReport};
use codec_payload_rtcp::writing::write_cname;
use std::alloc::{AllocError, Global};

/// The most report blocks of a report.
const MOST_BLOCKS: usize = 31;

/// Converts a report block of C.
fn block_given(block: &ReportBlockInfo) -> ReportBlock
    ensures { result ≡ block_given block.now }
{
    ReportBlock {
        ssrc: block.ssrc,
        fraction_lost: block.fraction_lost,
        cumulative_lost: block.cumulative_lost,
        highest_sequence_number: block.highest,
        jitter: block.jitter,
        last_sender_report: block.last_sender_report,
        delay_since_sender_report: block.delay_since_sender_report,
    }
}

/// Returns whether the lost packets of each block have 24 bits.
fn fit_24_bits(blocks: &[ReportBlockInfo]) -> bool
    ensures { result ≡ fits_24_bits blocks.now }
{
    for block in blocks {
        if block.cumulative_lost >= 16_777_216 {
            return false;
        }
    }
    true
}

/// Returns whether a report can have these blocks.
pub fn blocks_fit(blocks: &[ReportBlockInfo]) -> bool
    ensures { result ≡ blocks_fit blocks.now }
{
    blocks.len() <= MOST_BLOCKS && fit_24_bits(blocks)
}

/// Appends the 24 bytes of a report block.
fn append_block(block: &ReportBlockInfo, list: &mut Vec<u8>) -> Result<(), AllocError>
    requires { block.now.cumulative_lost < 16777216 }
    ensures bytes { OnOk result (list.new.items ≡ list.old.items ++ given_bytes block.now) }
    ensures len { OnOk result (length list.new.items ≡ length list.old.items + 24) }
{
    block_given(block).write(list)
}

/// Returns the bytes of report blocks.
fn block_list(alloc: Global, blocks: &[ReportBlockInfo]) -> Result<Vec<u8>, AllocError>
    requires { IsTrue (fits_24_bits blocks.now) }
    ensures bytes { IfOk result (λ list. list.items ≡ block_list blocks.now) }
    ensures len { IfOk result (λ list. length list.items ≡ 24 * length blocks.now) }
{
    let mut list = Vec::new(alloc);
    for block in blocks {
        append_block(block, &mut list)?;
    }
    Ok(list)
}

/// Returns a sender report.
pub fn sender_packet(
    alloc: Global,
    ntp_time: u64,
    report: &SenderReportInfo,
    blocks: &[ReportBlockInfo],
) -> Result<Vec<u8>, AllocError>
    requires { IsTrue (blocks_fit blocks.now) }
    ensures { IfOk result (λ packet. Appends [] packet.items (sender_report (sender_given ntp_time report.now blocks.now))) }
{
    let list = block_list(alloc, blocks)?;
    let mut packet = Vec::new(alloc);
    let report = SenderReport {
        ssrc: report.ssrc,
        ntp_seconds: (ntp_time / 4_294_967_296) as u32,
        ntp_fraction: (ntp_time % 4_294_967_296) as u32,
        rtp_time: report.rtp_time,
        packet_count: report.packets,
        octet_count: report.octets,
        blocks: &list,
        extension: &[],
    };
    report.write(&mut packet)?;
    Ok(packet)
}

/// Returns a receiver report.
pub fn receiver_packet(
    alloc: Global,
    ssrc: u32,
    blocks: &[ReportBlockInfo],
) -> Result<Vec<u8>, AllocError>
    requires { IsTrue (blocks_fit blocks.now) }
    ensures { IfOk result (λ packet. Appends [] packet.items (receiver_report (receiver_given ssrc blocks.now))) }
{
    let list = block_list(alloc, blocks)?;
    let mut packet = Vec::new(alloc);
    let report = ReceiverReport {
        ssrc,
        blocks: &list,
        extension: &[],
    };
    report.write(&mut packet)?;
    Ok(packet)
}

/// Returns a source description of one source with its canonical name.
pub fn name_packet(alloc: Global, ssrc: u32, cname: &[u8]) -> Result<Vec<u8>, AllocError>
    requires { length cname.now ≤ 255 }
    ensures { IfOk result (λ packet. packet.items ≡ name_packet ssrc cname.now) }
{
    let mut packet = Vec::new(alloc);
    write_cname(ssrc, cname, &mut packet)?;
    Ok(packet)
}

/// Returns the entry of a full intra request for this stream.
fn entry_list(alloc: Global, media_ssrc: u32, command: u8) -> Result<Vec<u8>, AllocError>
    ensures bytes { IfOk result (λ list. list.items ≡ entry_bytes (entry_given media_ssrc command)) }
    ensures len { IfOk result (λ list. length list.items ≡ 8) }
{
    let mut list = Vec::new(alloc);
    let entry = FullIntraEntry {
        ssrc: media_ssrc,
        sequence_number: command,
    };
    entry.write(&mut list)?;
    Ok(list)
}

/// Returns a full intra request for one stream.
pub fn intra_packet(
    alloc: Global,
    sender_ssrc: u32,
    media_ssrc: u32,
    command: u8,
) -> Result<Vec<u8>, AllocError>
    ensures { IfOk result (λ packet. Appends [] packet.items (full_intra (intra_of sender_ssrc media_ssrc command))) }
{
    let entries = entry_list(alloc, media_ssrc, command)?;
    let mut packet = Vec::new(alloc);
    let request = FullIntraRequest {
        sender_ssrc,
        media_ssrc: 0,
        entries: &entries,
    };
    request.write(&mut packet)?;
    Ok(packet)
}

/// Returns a BYE of one source, with this reason if it has bytes.
pub fn bye_packet(alloc: Global, ssrc: u32, reason: &[u8]) -> Result<Vec<u8>, AllocError>
    requires { length reason.now ≤ 255 }
    ensures { IfOk result (λ packet. packet.items ≡ bye_packet ssrc reason.now) }
{
    let ssrcs = ssrc.to_be_bytes();
    let mut packet = Vec::new(alloc);
    let leaving = Goodbye {
        ssrcs: &ssrcs,
        reason: if reason.is_empty() {
            None
        } else {
            Some(reason)
        },
    };
    leaving.write(&mut packet)?;
    Ok(packet)
}
