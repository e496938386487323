//! The buffer for C: it restores the order of received packets and reassembles units.

ghost use Rattle.std.specs.Prelude.{◌≡◌, ◌≢◌, ◌&&◌, is_some, nat_le};
ghost use Rattle.codec_payload_core.specs.Blanks.{passed_number};
ghost use Rattle.codec_payload_c_packets.specs.Buffers.{AnswersPush, Counts, IsFrameReceiverOf, PopsUnit};
ghost use Rattle.codec_payload_handle.specs.Kinds.{Makes, OnFrameReceiver, Refuses, is_frame_receiver};
ghost use Rattle.codec_payload_handle.specs.Settings.{depacketizer_set};

use codec_payload_c_packets::buffer::{BufferCountsInfo, Received, counts_of, pop, push};
use codec_payload_core::buffer::DepacketizingBuffer;
use codec_payload_core::wire::{Frequency, SeqNo};
use codec_payload_handle::handle::Handle;
use codec_payload_handle::object::{FrameReceiver, Object};
use codec_payload_handle::settings::{Spec, depacketizer_of};
use codec_payload_handle::slot::UnitSlot;
use codec_payload_handle::status;
use codec_payload_handle::unit::Unit;
use std::alloc::Global;

/// The largest number of packets that a buffer can hold.
const MAX_LIMIT: usize = 65_536;

/// Creates a buffer with these settings in an empty handle.
#[unsafe(no_mangle)]
pub extern "C" fn cpay_buffer_new(
    alloc: Global,
    handle: &mut Handle,
    spec: &Spec,
    hold_back: usize,
    limit: usize,
) -> u32
    ensures { Makes (IsFrameReceiverOf spec.now (depacketizer_set spec.now) hold_back limit)
        (is_some (depacketizer_set spec.now) && nat_le 1 limit && nat_le limit 65536) handle.old.place.value result handle.new.place.value }
{
    if let Some(object) = handle.take(alloc) {
        handle.put(object);
        return status::FULL;
    }
    let (Some(depacketizer), Some(rate)) = (
        depacketizer_of(alloc, spec),
        Frequency::make(spec.rate),
    ) else {
        return status::INVALID;
    };
    if limit == 0 || limit > MAX_LIMIT {
        return status::INVALID;
    }
    let receiver = FrameReceiver {
        buffer: DepacketizingBuffer::with_limit(alloc, depacketizer, hold_back, limit),
        waiting: UnitSlot::new(alloc),
        rate,
    };
    let Ok(receiver) = Box::new(alloc, receiver) else {
        return status::OUT_OF_MEMORY;
    };
    match Box::new(alloc, Object::FrameReceiver(receiver)) {
        Ok(object) => {
            handle.put(object);
            status::OK
        }
        Err(_) => status::OUT_OF_MEMORY,
    }
}

/// Stores a received packet. The payload is copied.
#[unsafe(no_mangle)]
pub extern "C" fn cpay_buffer_push(
    alloc: Global,
    handle: &mut Handle,
    packet: &Received,
    payload: &[u8],
) -> u32
    ensures pushes { OnFrameReceiver handle.old.place.value (λ r s. AnswersPush r packet.now payload.now result s) handle.new.place.value }
    ensures refused { Refuses is_frame_receiver handle.old.place.value result handle.new.place.value }
{
    let Some(mut object) = handle.take(alloc) else {
        return status::EMPTY;
    };
    let answer = match &mut *object {
        Object::FrameReceiver(receiver) => push(receiver, packet, payload),
        _ => status::OTHER_KIND,
    };
    handle.put(object);
    answer
}

/// Writes the next unit to the output buffer, if one is due.
#[unsafe(no_mangle)]
pub extern "C" fn cpay_buffer_pop(
    alloc: Global,
    handle: &mut Handle,
    unit: &mut Unit,
    bytes: &mut [u8],
) -> u32
    ensures pops { OnFrameReceiver handle.old.place.value (λ r s. PopsUnit r result unit.old unit.new bytes.old bytes.new s) handle.new.place.value }
    ensures refused { Refuses is_frame_receiver handle.old.place.value result handle.new.place.value }
    ensures untouched { result ≢ 0 → bytes.new ≡ bytes.old }
    ensures unchanged { result ≢ 0 → result ≢ 33 → unit.new ≡ unit.old }
{
    let Some(mut object) = handle.take(alloc) else {
        return status::EMPTY;
    };
    let answer = match &mut *object {
        Object::FrameReceiver(receiver) => pop(receiver, alloc, unit, bytes),
        _ => status::OTHER_KIND,
    };
    handle.put(object);
    answer
}

/// Changes `hold_back`: a frame behind a gap waits until more than this many complete frames are held. Held packets stay.
#[unsafe(no_mangle)]
pub extern "C" fn cpay_buffer_set_hold_back(
    alloc: Global,
    handle: &mut Handle,
    hold_back: usize,
) -> u32
    ensures sets { OnFrameReceiver handle.old.place.value (λ r s. (result ≡ 0) × (s ≡ record r { buffer = record r.buffer { hold_back = hold_back } })) handle.new.place.value }
    ensures refused { Refuses is_frame_receiver handle.old.place.value result handle.new.place.value }
{
    let Some(mut object) = handle.take(alloc) else {
        return status::EMPTY;
    };
    let answer = match &mut *object {
        Object::FrameReceiver(receiver) => {
            receiver.buffer.set_hold_back(hold_back);
            status::OK
        }
        _ => status::OTHER_KIND,
    };
    handle.put(object);
    answer
}

/// Skips a number without media: once all packets below it have left, no frame waits for it.
#[unsafe(no_mangle)]
pub extern "C" fn cpay_buffer_skip_number(alloc: Global, handle: &mut Handle, number: u64) -> u32
    ensures passes { OnFrameReceiver handle.old.place.value (λ r s. (result ≡ 0) × (s ≡ record r { buffer = passed_number r.buffer number })) handle.new.place.value }
    ensures refused { Refuses is_frame_receiver handle.old.place.value result handle.new.place.value }
{
    let Some(mut object) = handle.take(alloc) else {
        return status::EMPTY;
    };
    let answer = match &mut *object {
        Object::FrameReceiver(receiver) => {
            receiver.buffer.skip_number(SeqNo(number));
            status::OK
        }
        _ => status::OTHER_KIND,
    };
    handle.put(object);
    answer
}

/// Reports the contents of a buffer.
#[unsafe(no_mangle)]
pub extern "C" fn cpay_buffer_counts(
    alloc: Global,
    handle: &mut Handle,
    counts: &mut BufferCountsInfo,
) -> u32
    ensures counts { OnFrameReceiver handle.old.place.value (λ r s. (result ≡ 0) × (s ≡ r) × Counts r counts.new) handle.new.place.value }
    ensures refused { Refuses is_frame_receiver handle.old.place.value result handle.new.place.value }
    ensures unchanged { result ≢ 0 → counts.new ≡ counts.old }
{
    let Some(mut object) = handle.take(alloc) else {
        return status::EMPTY;
    };
    let answer = match &mut *object {
        Object::FrameReceiver(receiver) => {
            *counts = counts_of(receiver);
            status::OK
        }
        _ => status::OTHER_KIND,
    };
    handle.put(object);
    answer
}
