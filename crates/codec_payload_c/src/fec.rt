//! Packets of FEC that came (RFC 5109), and the packets that they rebuild.

ghost use Rattle.std.specs.Prelude.{◌≡◌, ◌≢◌, true};
ghost use Rattle.codec_payload_fec.specs.FecReading.{fec_at};
ghost use Rattle.codec_payload_c_path.specs.Fec.{IsStoreOf, KeepsPacket, ReadsFec, RebuildsPacket};
ghost use Rattle.codec_payload_c_path.specs.FecReceivers.{FetchesPacket, IsFecReceiverOf, TakesDatagram, restarted};
ghost use Rattle.codec_payload_c_path.specs.Kinds.{Makes, OnFec, OnStore, Refuses, is_fec_receiver, is_store};

use codec_payload_c_path::fec::{FecInfo, keep, read, rebuild};
use codec_payload_c_path::fec_receiver::{FecReceiverSettings, new_receiver, next, restart, take};
use codec_payload_c_path::handle::PathHandle;
use codec_payload_c_path::object::PathObject;
use codec_payload_fec::store::PacketStore;
use codec_payload_handle::status;
use std::alloc::Global;

/// Reads a packet of FEC: which packets it protects.
#[unsafe(no_mangle)]
pub extern "C" fn cpay_fec_read(fec: &[u8], info: &mut FecInfo) -> u32
    ensures reads { ReadsFec (fec_at fec.now) result info.old info.new }
    ensures unchanged { result ≢ 0 → info.new ≡ info.old }
{
    read(fec, info)
}

/// Creates a store without packets in an empty handle.
#[unsafe(no_mangle)]
pub extern "C" fn cpay_packet_store_new(alloc: Global, handle: &mut PathHandle, bytes: usize) -> u32
    ensures { Makes (IsStoreOf bytes) true handle.old.place.value result handle.new.place.value }
{
    if let Some(object) = handle.take(alloc) {
        handle.put(object);
        return status::FULL;
    }
    let Ok(store) = PacketStore::new(alloc, bytes) else {
        return status::OUT_OF_MEMORY;
    };
    let Ok(store) = Box::new(alloc, store) else {
        return status::OUT_OF_MEMORY;
    };
    match Box::new(alloc, PathObject::PacketStore(store)) {
        Ok(object) => {
            handle.put(object);
            status::OK
        }
        Err(_) => status::OUT_OF_MEMORY,
    }
}

/// Keeps a copy of a packet that came.
#[unsafe(no_mangle)]
pub extern "C" fn cpay_packet_store_keep(
    alloc: Global,
    handle: &mut PathHandle,
    packet: &[u8],
) -> u32
    ensures keeps { OnStore handle.old.place.value (λ r s. KeepsPacket packet.now r result s) handle.new.place.value }
    ensures refused { Refuses is_store handle.old.place.value result handle.new.place.value }
{
    let Some(mut object) = handle.take(alloc) else {
        return status::EMPTY;
    };
    let answer = match &mut *object {
        PathObject::PacketStore(store) => keep(store, packet),
        _ => status::OTHER_KIND,
    };
    handle.put(object);
    answer
}

/// Writes the only missing one of the packets that a packet of FEC protects to the output buffer.
#[unsafe(no_mangle)]
pub extern "C" fn cpay_packet_store_rebuild(
    alloc: Global,
    handle: &mut PathHandle,
    ssrc: u32,
    fec: &[u8],
    bytes: &mut [u8],
    size: &mut usize,
) -> u32
    ensures rebuilds { OnStore handle.old.place.value (λ r s. RebuildsPacket (fec_at fec.now) ssrc r result (record { before = bytes.old; bytes = bytes.new; size_before = size.old; size = size.new }) × (s ≡ r)) handle.new.place.value }
    ensures refused { Refuses is_store handle.old.place.value result handle.new.place.value }
    ensures untouched { result ≢ 0 → bytes.new ≡ bytes.old }
    ensures unchanged { result ≢ 0 → result ≢ 33 → size.new ≡ size.old }
{
    let Some(mut object) = handle.take(alloc) else {
        return status::EMPTY;
    };
    let answer = match &mut *object {
        PathObject::PacketStore(store) => rebuild(alloc, store, (ssrc, fec), bytes, size),
        _ => status::OTHER_KIND,
    };
    handle.put(object);
    answer
}

/// Creates a receiver of FEC that holds nothing in an empty handle.
#[unsafe(no_mangle)]
pub extern "C" fn cpay_fec_receiver_new(
    alloc: Global,
    handle: &mut PathHandle,
    settings: &FecReceiverSettings,
) -> u32
    ensures { Makes (IsFecReceiverOf settings.now) true handle.old.place.value result handle.new.place.value }
{
    if let Some(object) = handle.take(alloc) {
        handle.put(object);
        return status::FULL;
    }
    let Ok(receiver) = new_receiver(alloc, settings) else {
        return status::OUT_OF_MEMORY;
    };
    let Ok(receiver) = Box::new(alloc, receiver) else {
        return status::OUT_OF_MEMORY;
    };
    match Box::new(alloc, PathObject::FecReceiver(receiver)) {
        Ok(object) => {
            handle.put(object);
            status::OK
        }
        Err(_) => status::OUT_OF_MEMORY,
    }
}

/// Takes a datagram of the stream.
#[unsafe(no_mangle)]
pub extern "C" fn cpay_fec_receiver_receive(
    alloc: Global,
    handle: &mut PathHandle,
    datagram: &[u8],
) -> u32
    ensures takes { OnFec handle.old.place.value (λ r s. TakesDatagram datagram.now r result s) handle.new.place.value }
    ensures refused { Refuses is_fec_receiver handle.old.place.value result handle.new.place.value }
{
    let Some(mut object) = handle.take(alloc) else {
        return status::EMPTY;
    };
    let answer = match &mut *object {
        PathObject::FecReceiver(receiver) => take(receiver, datagram),
        _ => status::OTHER_KIND,
    };
    handle.put(object);
    answer
}

/// Writes the next packet that was rebuilt to the output buffer.
#[unsafe(no_mangle)]
pub extern "C" fn cpay_fec_receiver_next(
    alloc: Global,
    handle: &mut PathHandle,
    bytes: &mut [u8],
    size: &mut usize,
) -> u32
    ensures fetches { OnFec handle.old.place.value (λ r s. FetchesPacket r result (record { before = bytes.old; bytes = bytes.new; size_before = size.old; size = size.new }) s) handle.new.place.value }
    ensures refused { Refuses is_fec_receiver handle.old.place.value result handle.new.place.value }
    ensures untouched { result ≢ 0 → bytes.new ≡ bytes.old }
    ensures unchanged { result ≢ 0 → result ≢ 33 → size.new ≡ size.old }
{
    let Some(mut object) = handle.take(alloc) else {
        return status::EMPTY;
    };
    let answer = match &mut *object {
        PathObject::FecReceiver(receiver) => next(receiver, bytes, size),
        _ => status::OTHER_KIND,
    };
    handle.put(object);
    answer
}

/// Drops all packets: another sender begins.
#[unsafe(no_mangle)]
pub extern "C" fn cpay_fec_receiver_restart(alloc: Global, handle: &mut PathHandle) -> u32
    ensures restarts { OnFec handle.old.place.value (λ r s. (result ≡ 0) × (s ≡ restarted r)) handle.new.place.value }
    ensures refused { Refuses is_fec_receiver handle.old.place.value result handle.new.place.value }
{
    let Some(mut object) = handle.take(alloc) else {
        return status::EMPTY;
    };
    let answer = match &mut *object {
        PathObject::FecReceiver(receiver) => {
            restart(receiver);
            status::OK
        }
        _ => status::OTHER_KIND,
    };
    handle.put(object);
    answer
}
