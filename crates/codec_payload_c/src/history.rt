//! Histories: sent packets are kept, and resent when RTCP feedback requests them.

ghost use Rattle.std.specs.Prelude.{◌≡◌, ◌≢◌};
ghost use Rattle.codec_payload_sending_history.specs.Requests.{requests_at};
ghost use Rattle.codec_payload_c_packets.specs.Histories.{IsPacketHistoryOf, KeepsDatagram, KeepsDatagramOnce, ReadsRequests, ResendsPacket, is_in_range};
ghost use Rattle.codec_payload_handle.specs.Kinds.{Makes, OnPacketHistory, Refuses, is_packet_history};

use codec_payload_c_packets::history::{
    HistorySettings, collect, history_by, keep, keep_once, put, resend, rtcp_status, rule_of,
};
use codec_payload_handle::handle::Handle;
use codec_payload_handle::object::{Object, PacketHistory};
use codec_payload_handle::status;
use codec_payload_sending_history::feedback::read_requests;
use std::alloc::Global;

/// Creates a history in an empty handle.
#[unsafe(no_mangle)]
pub extern "C" fn cpay_history_new(
    alloc: Global,
    handle: &mut Handle,
    settings: &HistorySettings,
) -> u32
    ensures { Makes (IsPacketHistoryOf settings.now) (is_in_range settings.now) handle.old.place.value result handle.new.place.value }
{
    if let Some(object) = handle.take(alloc) {
        handle.put(object);
        return status::FULL;
    }
    let Some(kept) = history_by(alloc, settings) else {
        return status::INVALID;
    };
    let Ok(kept) = Box::new(alloc, kept) else {
        return status::OUT_OF_MEMORY;
    };
    match Box::new(alloc, Object::PacketHistory(kept)) {
        Ok(object) => {
            handle.put(object);
            status::OK
        }
        Err(_) => status::OUT_OF_MEMORY,
    }
}

/// Keeps a copy of a datagram at its number, and writes what the history did with it.
#[unsafe(no_mangle)]
pub extern "C" fn cpay_history_keep(
    alloc: Global,
    handle: &mut Handle,
    datagram: &[u8],
    kept: &mut u32,
) -> u32
    ensures keeps { OnPacketHistory handle.old.place.value (λ r s. KeepsDatagram r datagram.now result kept.old kept.new s) handle.new.place.value }
    ensures refused { Refuses is_packet_history handle.old.place.value result handle.new.place.value }
    ensures unchanged { result ≢ 0 → kept.new ≡ kept.old }
{
    let Some(mut object) = handle.take(alloc) else {
        return status::EMPTY;
    };
    let status = match &mut *object {
        Object::PacketHistory(history) => keep(history, datagram, kept),
        _ => status::OTHER_KIND,
    };
    handle.put(object);
    status
}

/// Keeps a copy of a datagram at its number, unless the history has a packet with this number, and writes what it did.
#[unsafe(no_mangle)]
pub extern "C" fn cpay_history_keep_once(
    alloc: Global,
    handle: &mut Handle,
    datagram: &[u8],
    kept: &mut u32,
) -> u32
    ensures keeps { OnPacketHistory handle.old.place.value (λ r s. KeepsDatagramOnce r datagram.now result kept.old kept.new s) handle.new.place.value }
    ensures refused { Refuses is_packet_history handle.old.place.value result handle.new.place.value }
    ensures unchanged { result ≢ 0 → kept.new ≡ kept.old }
{
    let Some(mut object) = handle.take(alloc) else {
        return status::EMPTY;
    };
    let status = match &mut *object {
        Object::PacketHistory(history) => keep_once(history, datagram, kept),
        _ => status::OTHER_KIND,
    };
    handle.put(object);
    status
}

/// Resends the packet with that number: writes it again to the output buffer. If that is too small, nothing changes.
#[unsafe(no_mangle)]
pub extern "C" fn cpay_history_resend(
    alloc: Global,
    handle: &mut Handle,
    now: u64,
    number: u16,
    bytes: &mut [u8],
    size: &mut usize,
    resent: &mut u32,
) -> u32
    ensures resends { OnPacketHistory handle.old.place.value (λ r s. ResendsPacket now number r result (record { before = bytes.old; bytes = bytes.new; size_before = size.old; size = size.new; resent_before = resent.old; resent = resent.new }) s) handle.new.place.value }
    ensures refused { Refuses is_packet_history handle.old.place.value result handle.new.place.value }
    ensures untouched { result ≢ 0 → bytes.new ≡ bytes.old }
    ensures unchanged { result ≢ 0 → resent.new ≡ resent.old }
    ensures size { result ≢ 0 → result ≢ 33 → size.new ≡ size.old }
{
    let Some(mut object) = handle.take(alloc) else {
        return status::EMPTY;
    };
    let answer = match &mut *object {
        Object::PacketHistory(kept) => resend(kept, (now, number), bytes, size, resent),
        _ => status::OTHER_KIND,
    };
    handle.put(object);
    answer
}

/// Reads what a compound RTCP packet requests of the stream with this SSRC: packets by their numbers, and keyframes.
#[unsafe(no_mangle)]
pub extern "C" fn cpay_read_requests(
    rtcp: &[u8],
    ssrc: u32,
    full: bool,
    numbers: &mut [u16],
    count: &mut usize,
    wants_keyframe: &mut bool,
) -> u32
    ensures { ReadsRequests (requests_at full ssrc rtcp.now) result (record { before = numbers.old; numbers = numbers.new; count_before = count.old; count = count.new; wants_before = wants_keyframe.old; wants = wants_keyframe.new }) }
{
    match read_requests(rule_of(full), ssrc, rtcp) {
        Ok(requests) => {
            let (asked, wants) = collect(requests, numbers);
            *count = asked;
            *wants_keyframe = wants;
            status::OK
        }
        Err(fault) => rtcp_status(fault),
    }
}
