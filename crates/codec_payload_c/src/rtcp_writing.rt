//! RTCP packets that are written: reports with their blocks, a canonical name, requests for keyframes, and a BYE.

ghost use Rattle.std.specs.Prelude.{◌≡◌, ◌≢◌};
ghost use Rattle.codec_payload_rtcp.specs.RtcpPackets.{full_intra, picture_loss};
ghost use Rattle.codec_payload_c_packets.specs.RtcpWriting.{WritesBye, WritesName, WritesPacket, WritesReceiver, WritesSender, intra_of, loss_of};

use codec_payload_c_packets::congestion::put_packet;
use codec_payload_c_packets::rtcp_writing::{
    blocks_fit, bye_packet, intra_packet, name_packet, receiver_packet, sender_packet,
};
use codec_payload_c_packets::sender::SenderReportInfo;
use codec_payload_handle::report_block::ReportBlockInfo;
use codec_payload_handle::status;
use codec_payload_rtcp::packet::PictureLoss;
use std::alloc::Global;

/// Writes a PLI: the sender of the stream is asked for a keyframe.
#[unsafe(no_mangle)]
pub extern "C" fn cpay_write_pli(
    alloc: Global,
    sender_ssrc: u32,
    media_ssrc: u32,
    bytes: &mut [u8],
    size: &mut usize,
) -> u32
    ensures writes { WritesPacket (picture_loss (loss_of sender_ssrc media_ssrc)) result (record { before = bytes.old; bytes = bytes.new; size_before = size.old; size = size.new }) }
    ensures untouched { result ≢ 0 → bytes.new ≡ bytes.old }
    ensures unchanged { result ≢ 0 → result ≢ 33 → size.new ≡ size.old }
{
    let loss = PictureLoss {
        sender_ssrc,
        media_ssrc,
    };
    let mut packet = Vec::new(alloc);
    match loss.write(&mut packet) {
        Ok(()) => put_packet(&packet, bytes, size),
        Err(_) => status::OUT_OF_MEMORY,
    }
}

/// Writes a FIR: the sender of the stream is asked for a keyframe.
#[unsafe(no_mangle)]
pub extern "C" fn cpay_write_fir(
    alloc: Global,
    sender_ssrc: u32,
    media_ssrc: u32,
    command: u8,
    bytes: &mut [u8],
    size: &mut usize,
) -> u32
    ensures writes { WritesPacket (full_intra (intra_of sender_ssrc media_ssrc command)) result (record { before = bytes.old; bytes = bytes.new; size_before = size.old; size = size.new }) }
    ensures untouched { result ≢ 0 → bytes.new ≡ bytes.old }
    ensures unchanged { result ≢ 0 → result ≢ 33 → size.new ≡ size.old }
{
    match intra_packet(alloc, sender_ssrc, media_ssrc, command) {
        Ok(packet) => put_packet(&packet, bytes, size),
        Err(_) => status::OUT_OF_MEMORY,
    }
}

/// Writes a BYE: a source leaves, for this reason if it has bytes.
#[unsafe(no_mangle)]
pub extern "C" fn cpay_write_bye(
    alloc: Global,
    ssrc: u32,
    reason: &[u8],
    bytes: &mut [u8],
    size: &mut usize,
) -> u32
    ensures writes { WritesBye ssrc reason.now result (record { before = bytes.old; bytes = bytes.new; size_before = size.old; size = size.new }) }
    ensures untouched { result ≢ 0 → bytes.new ≡ bytes.old }
    ensures unchanged { result ≢ 0 → result ≢ 33 → size.new ≡ size.old }
{
    if reason.len() > 255 {
        return status::INVALID;
    }
    match bye_packet(alloc, ssrc, reason) {
        Ok(packet) => put_packet(&packet, bytes, size),
        Err(_) => status::OUT_OF_MEMORY,
    }
}

/// Writes a source description: the canonical name of a source.
#[unsafe(no_mangle)]
pub extern "C" fn cpay_write_cname(
    alloc: Global,
    ssrc: u32,
    cname: &[u8],
    bytes: &mut [u8],
    size: &mut usize,
) -> u32
    ensures writes { WritesName ssrc cname.now result (record { before = bytes.old; bytes = bytes.new; size_before = size.old; size = size.new }) }
    ensures untouched { result ≢ 0 → bytes.new ≡ bytes.old }
    ensures unchanged { result ≢ 0 → result ≢ 33 → size.new ≡ size.old }
{
    if cname.len() > 255 {
        return status::INVALID;
    }
    match name_packet(alloc, ssrc, cname) {
        Ok(packet) => put_packet(&packet, bytes, size),
        Err(_) => status::OUT_OF_MEMORY,
    }
}

/// Writes a sender report with these report blocks.
#[unsafe(no_mangle)]
pub extern "C" fn cpay_write_sender_report(
    alloc: Global,
    ntp_time: u64,
    report: &SenderReportInfo,
    blocks: &[ReportBlockInfo],
    bytes: &mut [u8],
    size: &mut usize,
) -> u32
    ensures writes { WritesSender ntp_time report.now blocks.now result (record { before = bytes.old; bytes = bytes.new; size_before = size.old; size = size.new }) }
    ensures untouched { result ≢ 0 → bytes.new ≡ bytes.old }
    ensures unchanged { result ≢ 0 → result ≢ 33 → size.new ≡ size.old }
{
    if !blocks_fit(blocks) {
        return status::INVALID;
    }
    match sender_packet(alloc, ntp_time, report, blocks) {
        Ok(packet) => put_packet(&packet, bytes, size),
        Err(_) => status::OUT_OF_MEMORY,
    }
}

/// Writes a receiver report with these report blocks.
#[unsafe(no_mangle)]
pub extern "C" fn cpay_write_receiver_report(
    alloc: Global,
    ssrc: u32,
    blocks: &[ReportBlockInfo],
    bytes: &mut [u8],
    size: &mut usize,
) -> u32
    ensures writes { WritesReceiver ssrc blocks.now result (record { before = bytes.old; bytes = bytes.new; size_before = size.old; size = size.new }) }
    ensures untouched { result ≢ 0 → bytes.new ≡ bytes.old }
    ensures unchanged { result ≢ 0 → result ≢ 33 → size.new ≡ size.old }
{
    if !blocks_fit(blocks) {
        return status::INVALID;
    }
    match receiver_packet(alloc, ssrc, blocks) {
        Ok(packet) => put_packet(&packet, bytes, size),
        Err(_) => status::OUT_OF_MEMORY,
    }
}
