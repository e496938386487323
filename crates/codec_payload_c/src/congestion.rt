//! Feedback for congestion control, read and written without a handle: transport-wide feedback and REMB.

ghost use Rattle.std.specs.Prelude.{◌≡◌, ◌≢◌};
ghost use Rattle.codec_payload_c_packets.specs.Congestion.{ReadsRemb, ReadsTransport, WritesNumbered, WritesRemb, message_with};

use codec_payload_c_packets::congestion::{
    PacketArrival, TransportFeedbackInfo, message_with, numbering_status, put_packet,
    read_arrivals, read_estimate, remb_packet,
};
use codec_payload_feedback_transport::messages::MessageKind;
use codec_payload_feedback_transport::numbering::write_numbered;
use codec_payload_handle::status;
use std::alloc::Global;

/// Writes a packet of REMB: the largest bitrate that these SSRCs are to send, in bits per second.
#[unsafe(no_mangle)]
pub extern "C" fn cpay_write_remb(
    alloc: Global,
    sender_ssrc: u32,
    bitrate: u64,
    ssrcs: &[u32],
    bytes: &mut [u8],
    size: &mut usize,
) -> u32
    ensures writes { WritesRemb sender_ssrc bitrate ssrcs.now result (record { before = bytes.old; bytes = bytes.new; size_before = size.old; size = size.new }) }
    ensures untouched { result ≢ 0 → bytes.new ≡ bytes.old }
    ensures unchanged { result ≢ 0 → result ≢ 33 → size.new ≡ size.old }
{
    if ssrcs.len() > 255 {
        return status::INVALID;
    }
    match remb_packet(alloc, sender_ssrc, bitrate, ssrcs) {
        Ok(packet) => put_packet(&packet, bytes, size),
        Err(_) => status::OUT_OF_MEMORY,
    }
}

/// Writes a copy of a datagram with this transport-wide number in its header extension.
#[unsafe(no_mangle)]
pub extern "C" fn cpay_number_datagram(
    alloc: Global,
    extension_id: u8,
    number: u16,
    datagram: &[u8],
    bytes: &mut [u8],
    size: &mut usize,
) -> u32
    ensures writes { WritesNumbered extension_id number datagram.now result (record { before = bytes.old; bytes = bytes.new; size_before = size.old; size = size.new }) }
    ensures untouched { result ≢ 0 → bytes.new ≡ bytes.old }
    ensures unchanged { result ≢ 0 → result ≢ 33 → size.new ≡ size.old }
{
    let mut numbered = Vec::new(alloc);
    match write_numbered(alloc, extension_id, number, datagram, &mut numbered) {
        Ok(()) => put_packet(&numbered, bytes, size),
        Err(error) => numbering_status(error),
    }
}

/// Reads the application layer feedback with this index in a compound RTCP packet, from 0, as REMB.
#[unsafe(no_mangle)]
pub extern "C" fn cpay_read_remb(
    rtcp: &[u8],
    full: bool,
    index: usize,
    bitrate: &mut u64,
    ssrcs: &mut [u32],
    count: &mut usize,
) -> u32
    ensures { ReadsRemb (message_with full 206 index rtcp.now) result (record { bitrate_before = bitrate.old; bitrate = bitrate.new; before = ssrcs.old; ssrcs = ssrcs.new; count_before = count.old; count = count.new }) }
{
    match message_with(rtcp, full, MessageKind::Application, index) {
        Ok(message) => read_estimate(message.control, bitrate, ssrcs, count),
        Err(status) => status,
    }
}

/// Reads the transport-wide feedback with this index in a compound RTCP packet, from 0: what it says about each packet.
#[unsafe(no_mangle)]
pub extern "C" fn cpay_read_transport_feedback(
    alloc: Global,
    rtcp: &[u8],
    full: bool,
    index: usize,
    info: &mut TransportFeedbackInfo,
    packets: &mut [PacketArrival],
) -> u32
    ensures reads { ReadsTransport (message_with full 205 index rtcp.now) result (record { info_before = info.old; info = info.new; before = packets.old; packets = packets.new }) }
    ensures untouched { result ≢ 0 → packets.new ≡ packets.old }
    ensures unchanged { result ≢ 0 → result ≢ 33 → info.new ≡ info.old }
{
    match message_with(rtcp, full, MessageKind::Transport, index) {
        Ok(message) => read_arrivals(alloc, &message, info, packets),
        Err(status) => status,
    }
}
