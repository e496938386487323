//! Senders of FEC: media in RED, and FEC behind each frame.

ghost use Rattle.std.specs.Prelude.{◌≡◌, ◌≢◌};
ghost use Rattle.codec_payload_c_path.specs.Kinds.{Refuses};
ghost use Rattle.codec_payload_c_fec.specs.Kinds.{MakesOr, OnFecSender, is_fec_sender};
ghost use Rattle.codec_payload_c_fec.specs.SenderSettings.{IsRefused, IsSenderOf};
ghost use Rattle.codec_payload_c_fec.specs.Senders.{FinishesFrame, PutsFec, SendsPacket, protected};

use codec_payload_c_fec::lending::LentPacket;
use codec_payload_c_fec::sender::{finish_frame, push, put_fec, set_protection};
use codec_payload_c_fec::sender_settings::{FecSenderSettings, sender_by};
use codec_payload_c_path::handle::PathHandle;
use codec_payload_c_path::object::PathObject;
use codec_payload_handle::status;
use std::alloc::Global;

/// Creates a sender that has written nothing in an empty handle.
#[unsafe(no_mangle)]
pub extern "C" fn cpay_fec_sender_new(
    alloc: Global,
    handle: &mut PathHandle,
    settings: &FecSenderSettings,
) -> u32
    ensures { MakesOr (IsSenderOf settings.now) (IsRefused settings.now) handle.old.place.value result handle.new.place.value }
{
    if let Some(object) = handle.take(alloc) {
        handle.put(object);
        return status::FULL;
    }
    let sender = match sender_by(alloc, settings) {
        Ok(sender) => sender,
        Err(why) => return why,
    };
    let Ok(sender) = Box::new(alloc, sender) else {
        return status::OUT_OF_MEMORY;
    };
    match Box::new(alloc, PathObject::FecSender(sender)) {
        Ok(object) => {
            handle.put(object);
            status::OK
        }
        Err(_) => status::OUT_OF_MEMORY,
    }
}

/// Puts a packet of the media in RED, and lends it.
#[unsafe(no_mangle)]
pub extern "C" fn cpay_fec_sender_push(
    alloc: Global,
    handle: &mut PathHandle,
    datagram: &[u8],
    packet: &mut LentPacket,
    ends: &mut bool,
) -> u32
    ensures sends { OnFecSender handle.old.place.value (λ r s. SendsPacket datagram.now r result (record { before = packet.old; packet = packet.new; ends_before = ends.old; ends = ends.new }) s) handle.new.place.value }
    ensures refused { Refuses is_fec_sender handle.old.place.value result handle.new.place.value }
    ensures unchanged { result ≢ 0 → (packet.new ≡ packet.old) × (ends.new ≡ ends.old) }
{
    let Some(mut object) = handle.take(alloc) else {
        return status::EMPTY;
    };
    let answer = match &mut *object {
        PathObject::FecSender(sender) => push(sender, datagram, packet, ends),
        _ => status::OTHER_KIND,
    };
    handle.put(object);
    answer
}

/// Makes the FEC of the frame, and writes how many packets it is.
#[unsafe(no_mangle)]
pub extern "C" fn cpay_fec_sender_finish_frame(
    alloc: Global,
    handle: &mut PathHandle,
    keyframe: bool,
    count: &mut usize,
) -> u32
    ensures finishes { OnFecSender handle.old.place.value (λ r s. FinishesFrame keyframe r result count.old count.new s) handle.new.place.value }
    ensures refused { Refuses is_fec_sender handle.old.place.value result handle.new.place.value }
    ensures unchanged { result ≢ 0 → count.new ≡ count.old }
{
    let Some(mut object) = handle.take(alloc) else {
        return status::EMPTY;
    };
    let answer = match &mut *object {
        PathObject::FecSender(sender) => finish_frame(sender, keyframe, count),
        _ => status::OTHER_KIND,
    };
    handle.put(object);
    answer
}

/// Writes a packet of the FEC of the latest frame to the output buffer.
#[unsafe(no_mangle)]
pub extern "C" fn cpay_fec_sender_packet(
    alloc: Global,
    handle: &mut PathHandle,
    place: usize,
    bytes: &mut [u8],
    size: &mut usize,
) -> u32
    ensures puts { OnFecSender handle.old.place.value (λ r s. PutsFec place r result (record { before = bytes.old; bytes = bytes.new; size_before = size.old; size = size.new }) × (s ≡ r)) handle.new.place.value }
    ensures refused { Refuses is_fec_sender handle.old.place.value result handle.new.place.value }
    ensures untouched { result ≢ 0 → bytes.new ≡ bytes.old }
    ensures unchanged { result ≢ 0 → result ≢ 33 → size.new ≡ size.old }
{
    let Some(mut object) = handle.take(alloc) else {
        return status::EMPTY;
    };
    let answer = match &mut *object {
        PathObject::FecSender(sender) => put_fec(sender, place, bytes, size),
        _ => status::OTHER_KIND,
    };
    handle.put(object);
    answer
}

/// Changes the share of protection, from the next FEC on.
#[unsafe(no_mangle)]
pub extern "C" fn cpay_fec_sender_protect(
    alloc: Global,
    handle: &mut PathHandle,
    protection: u8,
    keyframe_protection: u8,
) -> u32
    ensures protects { OnFecSender handle.old.place.value (λ r s. (result ≡ 0) × (s ≡ protected protection keyframe_protection r)) handle.new.place.value }
    ensures refused { Refuses is_fec_sender handle.old.place.value result handle.new.place.value }
{
    let Some(mut object) = handle.take(alloc) else {
        return status::EMPTY;
    };
    let answer = match &mut *object {
        PathObject::FecSender(sender) => {
            set_protection(sender, protection, keyframe_protection);
            status::OK
        }
        _ => status::OTHER_KIND,
    };
    handle.put(object);
    answer
}
