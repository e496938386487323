//! Feedback for congestion control, read and written without a handle: transport-wide feedback and REMB.

ghost use Rattle.std.specs.Prelude.{◌≡◌, ◌≢◌, ◌*◌, ◌≤◌, ◌++◌, [], drop, length, set, slice_get, IfOk};
ghost use Rattle.codec_payload_base.specs.Answers.{Finds, seen};
ghost use Rattle.codec_payload_feedback_congestion.specs.Feedback.{reported_of};
ghost use Rattle.codec_payload_feedback_congestion.specs.Packet.{AppendsRembPacket};
ghost use Rattle.codec_payload_feedback_congestion.specs.Remb.{remb_at};
ghost use Rattle.codec_payload_feedback_transport.specs.Messages.{feedback_of, messages_left, type_of_kind};
ghost use Rattle.codec_payload_c_packets.specs.Histories.{put_first};
ghost use Rattle.codec_payload_c_packets.specs.Congestion.{PutsArrivals, PutsPacket, ReadsArrivals, ReadsEstimate, arrival_of, arrivals_from, info_of, message_with, numbering_status, remb_status, ssrc_bytes, ssrcs_in, transport_status};

use crate::history::{rtcp_status, rule_of};
use codec_payload_feedback_congestion::packet::write_remb_packet;
use codec_payload_feedback_congestion::remb::{RembFault, read_remb};
use codec_payload_feedback_congestion::transport::{
    TransportError, TransportFault, TransportFeedback, read_transport_feedback,
};
use codec_payload_feedback_transport::messages::{Message, MessageKind, Messages, read_messages};
use codec_payload_feedback_transport::numbering::NumberingError;
use codec_payload_handle::bytes::fill;
use codec_payload_handle::rtp_faults::status_of;
use codec_payload_handle::status;
use std::alloc::{AllocError, Global};

/// What a transport-wide feedback reports on.
#[repr(C)]
#[derive(Clone, Copy)]
pub struct TransportFeedbackInfo {
    /// How many numbers it reports on.
    pub count: usize,
    /// The SSRC of the sender of the feedback.
    pub sender_ssrc: u32,
    /// The SSRC of a stream of the transport.
    pub media_ssrc: u32,
    /// The first number.
    pub base: u16,
    /// The number of the feedback, modulo 256.
    pub counter: u8,
}

/// What a transport-wide feedback says about a packet.
#[repr(C)]
#[derive(Clone, Copy)]
pub struct PacketArrival {
    /// When the packet arrived, in quarters of a millisecond of the receiver's clock, modulo 2^32. 0 if it did not arrive.
    pub time: u32,
    /// The transport-wide number of the packet.
    pub number: u16,
    /// Whether the packet arrived.
    pub arrived: bool,
}

/// Returns the bytes of these SSRCs, in network order.
fn ssrc_bytes(alloc: Global, ssrcs: &[u32]) -> Result<Vec<u8>, AllocError>
    ensures bytes { IfOk result (λ bytes. bytes.items ≡ ssrc_bytes ssrcs.now) }
    ensures len { IfOk result (λ bytes. length bytes.items ≡ 4 * length ssrcs.now) }
{
    let mut bytes = Vec::new(alloc);
    for ssrc in ssrcs {
        bytes.extend_from_slice(&ssrc.to_be_bytes())?;
    }
    Ok(bytes)
}

/// Returns a packet of REMB about these SSRCs.
pub fn remb_packet(
    alloc: Global,
    sender_ssrc: u32,
    bitrate: u64,
    ssrcs: &[u32],
) -> Result<Vec<u8>, AllocError>
    requires { length ssrcs.now ≤ 255 }
    ensures { IfOk result (λ packet. AppendsRembPacket [] packet.items sender_ssrc bitrate (ssrc_bytes ssrcs.now)) }
{
    let sources = ssrc_bytes(alloc, ssrcs)?;
    let mut packet = Vec::new(alloc);
    write_remb_packet(alloc, sender_ssrc, bitrate, &sources, &mut packet)?;
    Ok(packet)
}

/// Writes a packet to the output buffer, if there is room for it.
pub fn put_packet(packet: &[u8], bytes: &mut [u8], size: &mut usize) -> u32
    ensures puts { PutsPacket packet.now result (record { before = bytes.old; bytes = bytes.new; size_before = size.old; size = size.new }) }
    ensures untouched { result ≢ 0 → bytes.new ≡ bytes.old }
    ensures unchanged { result ≢ 0 → result ≢ 33 → size.new ≡ size.old }
{
    *size = packet.len();
    if fill(bytes, packet) {
        status::OK
    } else {
        status::TOO_SMALL
    }
}

/// Returns the message with this index, from 0.
fn nth<'a>(messages: Messages<'a>, index: usize) -> Option<Message<'a>>
    ensures { Finds feedback_of result (slice_get (messages_left messages.entry) index) }
{
    let mut left = index;
    for message in messages {
        if left == 0 {
            return Some(message);
        }
        left -= 1;
    }
    None
}

/// Returns the message with this index in a compound packet, or the status that refuses it.
pub fn message_with(
    rtcp: &[u8],
    full: bool,
    kind: MessageKind,
    index: usize,
) -> Result<Message<'_>, u32>
    ensures { seen feedback_of result ≡ message_with full (type_of_kind kind) index rtcp.now }
{
    match read_messages(rule_of(full), kind, rtcp) {
        Ok(messages) => match nth(messages, index) {
            Some(message) => Ok(message),
            None => Err(status::NONE),
        },
        Err(fault) => Err(rtcp_status(fault)),
    }
}

/// Returns the status for control information that is not REMB.
fn remb_status(fault: RembFault) -> u32
    ensures { result ≡ remb_status fault }
{
    match fault {
        RembFault::TooShort => status::REMB_TOO_SHORT,
        RembFault::NotRemb => status::REMB_OTHER,
        RembFault::TooLarge => status::REMB_TOO_LARGE,
        RembFault::SourcesTooShort => status::REMB_SOURCES_TOO_SHORT,
    }
}

/// Writes an SSRC at a place, if there is room for it.
fn put_ssrc(ssrcs: &mut [u32], place: usize, ssrc: u32)
    ensures { ssrcs.new ≡ set ssrcs.old place ssrc }
{
    if place < ssrcs.len() {
        ssrcs[place] = ssrc;
    }
}

/// Writes SSRCs of four bytes each, as many as there is room for. Returns how many there are.
#[tactic(auto, unfolding(crate::specs::Congestion::ssrcs_in))]
fn put_ssrcs(bytes: &[u8], ssrcs: &mut [u32]) -> usize
    ensures ssrcs { ssrcs.new ≡ put_first (ssrcs_in bytes.now) ssrcs.old }
    ensures count { result ≡ length (ssrcs_in bytes.now) }
{
    let mut count = 0;
    let mut rest = bytes;
    while let [s3, s2, s1, s0, others @ ..] = rest {
        put_ssrc(ssrcs, count, u32::from_be_bytes([*s3, *s2, *s1, *s0]));
        count += 1;
        rest = others;
    }
    count
}

/// Reads an estimate.
pub fn read_estimate(control: &[u8], bitrate: &mut u64, ssrcs: &mut [u32], count: &mut usize) -> u32
    ensures { ReadsEstimate (remb_at control.now) result (record { bitrate_before = bitrate.old; bitrate = bitrate.new; before = ssrcs.old; ssrcs = ssrcs.new; count_before = count.old; count = count.new }) }
{
    match read_remb(control) {
        Ok(remb) => {
            *bitrate = remb.bitrate;
            *count = put_ssrcs(remb.ssrcs, ssrcs);
            status::OK
        }
        Err(fault) => remb_status(fault),
    }
}

/// Returns the status for control information that is not transport-wide feedback.
fn transport_status(error: TransportError) -> u32
    ensures { result ≡ transport_status error }
{
    match error {
        TransportError::OutOfMemory => status::OUT_OF_MEMORY,
        TransportError::Fault(TransportFault::HeaderTooShort) => status::TRANSPORT_HEADER_TOO_SHORT,
        TransportError::Fault(TransportFault::ChunksTooShort) => status::TRANSPORT_CHUNKS_TOO_SHORT,
        TransportError::Fault(TransportFault::ReservedStatus) => status::TRANSPORT_RESERVED,
        TransportError::Fault(TransportFault::DeltasTooShort) => status::TRANSPORT_DELTAS_TOO_SHORT,
    }
}

/// Describes a feedback.
fn info_of(message: &Message<'_>, feedback: &TransportFeedback) -> TransportFeedbackInfo
    ensures { result ≡ info_of (feedback_of message.now) (reported_of feedback.now) }
{
    TransportFeedbackInfo {
        count: feedback.statuses.len(),
        sender_ssrc: message.sender_ssrc,
        media_ssrc: message.media_ssrc,
        base: feedback.base,
        counter: feedback.counter,
    }
}

/// Returns what a status says about the packet with this number.
fn arrival_of(number: u16, status: Option<u32>) -> PacketArrival
    ensures { result ≡ arrival_of number status }
{
    match status {
        Some(time) => PacketArrival {
            time,
            number,
            arrived: true,
        },
        None => PacketArrival {
            time: 0,
            number,
            arrived: false,
        },
    }
}

/// Writes what each status says about its packet.
fn put_arrivals(base: u16, statuses: &[Option<u32>], packets: &mut [PacketArrival])
    requires { length statuses.now ≤ length packets.old }
    ensures { packets.new ≡ arrivals_from base statuses.now ++ drop (length statuses.now) packets.old }
{
    let mut number = base;
    let mut place = 0;
    for status in statuses {
        packets[place] = arrival_of(number, *status);
        number = number.wrapping_add(1);
        place += 1;
    }
}

/// Writes what a feedback says, if there is room for it.
fn put_feedback(
    message: &Message<'_>,
    feedback: &TransportFeedback,
    info: &mut TransportFeedbackInfo,
    packets: &mut [PacketArrival],
) -> u32
    ensures { PutsArrivals (feedback_of message.now) (reported_of feedback.now) result info.new packets.old packets.new }
{
    *info = info_of(message, feedback);
    if packets.len() < feedback.statuses.len() {
        return status::TOO_SMALL;
    }
    put_arrivals(feedback.base, &feedback.statuses, packets);
    status::OK
}

/// Reads the transport-wide feedback of a message.
pub fn read_arrivals(
    alloc: Global,
    message: &Message<'_>,
    info: &mut TransportFeedbackInfo,
    packets: &mut [PacketArrival],
) -> u32
    ensures reads { ReadsArrivals (feedback_of message.now) result (record { info_before = info.old; info = info.new; before = packets.old; packets = packets.new }) }
    ensures untouched { result ≢ 0 → packets.new ≡ packets.old }
    ensures unchanged { result ≢ 0 → result ≢ 33 → info.new ≡ info.old }
{
    match read_transport_feedback(alloc, message.control) {
        Ok(feedback) => put_feedback(message, &feedback, info, packets),
        Err(error) => transport_status(error),
    }
}

/// Returns the status for a datagram that gets no number.
pub fn numbering_status(error: NumberingError) -> u32
    ensures { result ≡ numbering_status error }
{
    match error {
        NumberingError::Rtp(fault) => status_of(fault),
        NumberingError::OtherProfile => status::EXTENSION_PROFILE,
        NumberingError::NoRoom => status::EXTENSION_ROOM,
        NumberingError::OutOfMemory => status::OUT_OF_MEMORY,
    }
}
