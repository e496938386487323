//! The buffer for C: it restores the order of received packets and reassembles units.

ghost use Rattle.codec_payload_c_packets.specs.Buffers.{AnswersPush, Counts, IsToldBy, PopsUnit};

use codec_payload_core::buffer::RtpMeta;
use codec_payload_core::wire::{
    ExtensionValues, Frequency, MediaTime, Pt, RtpHeader, SeqNo, Ticks,
};
use codec_payload_handle::object::FrameReceiver;
use codec_payload_handle::status;
use codec_payload_handle::unit::Unit;
use std::alloc::Global;

/// The metadata of a received packet.
#[repr(C)]
#[derive(Drop)]
pub struct Received {
    /// The sequence number without wrapping; its low 16 bits are in the RTP header.
    pub number: u64,
    /// When the packet arrived, by the caller's clock.
    pub received: u64,
    /// The RTP time, in ticks of the RTP clock; its low 32 bits are in the RTP header.
    pub rtp_time: u64,
    pub marker: bool,
}

/// The contents of a buffer, in numbers.
#[repr(C)]
#[derive(Drop)]
pub struct BufferCountsInfo {
    /// The number of held packets.
    pub held: usize,
    /// The number of complete frames.
    pub ready: usize,
    /// The largest number of held packets.
    pub limit: usize,
    /// Whether a unit waits for a larger output buffer.
    pub waiting: bool,
}

/// Returns the metadata of a packet, as the buffer has it.
fn meta_of(packet: &Received, rate: Frequency) -> RtpMeta
    ensures { IsToldBy packet.now rate result }
{
    RtpMeta {
        received: Ticks(packet.received),
        time: MediaTime::new(packet.rtp_time, rate),
        seq_no: SeqNo(packet.number),
        header: RtpHeader {
            payload_type: Pt::new_with_value(0),
            sequence_number: (packet.number % 65_536) as u16,
            timestamp: (packet.rtp_time % (1 << 32)) as u32,
            ssrc: 0,
            marker: packet.marker,
            ext_vals: ExtensionValues::default(),
        },
        last_sender_info: None,
    }
}

/// Stores a packet. Its payload is copied into the memory of one that left, if there is some.
pub fn push(receiver: &mut FrameReceiver, packet: &Received, payload: &[u8]) -> u32
    ensures { AnswersPush receiver.old packet.now payload.now result receiver.new }
{
    let meta = meta_of(packet, receiver.rate);
    let Ok(data) = receiver.buffer.copy_of(payload) else {
        return status::OUT_OF_MEMORY;
    };
    match receiver.buffer.push(meta, data) {
        Ok(()) => status::OK,
        Err(fault) => u32::from(fault.number()),
    }
}

/// Writes the next unit to the output buffer: the unit that waits for a larger output buffer, or the next one from the buffer.
pub fn pop(receiver: &mut FrameReceiver, alloc: Global, unit: &mut Unit, bytes: &mut [u8]) -> u32
    ensures { PopsUnit receiver.old result unit.old unit.new bytes.old bytes.new receiver.new }
{
    if !receiver.waiting.is_some() {
        match receiver.waiting.pop_buffer(&mut receiver.buffer) {
            None => return status::NONE,
            Some(Err(fault)) => return u32::from(fault.number()),
            Some(Ok(())) => {}
        }
    }
    if !receiver.waiting.write(unit, bytes) {
        return status::TOO_SMALL;
    }
    receiver.waiting.clear(alloc);
    status::OK
}

/// Returns the contents of a buffer, in numbers.
pub fn counts_of(receiver: &FrameReceiver) -> BufferCountsInfo
    ensures { Counts receiver.now result }
{
    BufferCountsInfo {
        held: receiver.buffer.held(),
        ready: receiver.buffer.ready(),
        limit: receiver.buffer.limit(),
        waiting: receiver.waiting.is_some(),
    }
}
