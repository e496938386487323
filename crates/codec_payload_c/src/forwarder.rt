//! Forwarders: packets of one source after another in, the packets of one stream of a viewer out.

ghost use Rattle.std.specs.Prelude.{◌≡◌, ◌≢◌, None, Some};
ghost use Rattle.codec_payload_handle.specs.Kinds.{Makes, OnPacketForwarder, Refuses, is_packet_forwarder};
ghost use Rattle.codec_payload_c_packets.specs.Forwarders.{IsPacketForwarderOf, LeavesDatagram, RefusesStore, ResendsIn, TellsReport, WritesDatagram, begins_with, counts_told, is_in_range, reported};
ghost use Rattle.codec_payload_handle.specs.Numbers.{TellsNumber};

use codec_payload_c_packets::forwarder::{
    ForwarderCountsInfo, ForwarderSettings, counts_of, forwarder_by, leave_out, report_of,
    resend_from, write, write_number,
};
use codec_payload_c_packets::sender::SenderReportInfo;
use codec_payload_handle::handle::Handle;
use codec_payload_handle::object::{Object, PacketForwarder};
use codec_payload_handle::status;
use std::alloc::Global;

/// Sets how a viewer's stream begins.
#[unsafe(no_mangle)]
pub extern "C" fn cpay_forwarder_settings_init(
    settings: &mut ForwarderSettings,
    codec: u32,
    ssrc: u32,
    payload_type: u8,
)
    ensures { settings.new ≡ begins_with codec ssrc payload_type }
{
    *settings = ForwarderSettings {
        codec,
        ssrc,
        first_time: 0,
        rtx_ssrc: 0,
        first_number: 0,
        rtx_first_number: 0,
        payload_type,
        rtx_payload_type: 0,
        has_rtx: false,
    };
}

/// Creates a forwarder that wants no source yet in an empty handle.
#[unsafe(no_mangle)]
pub extern "C" fn cpay_forwarder_new(
    alloc: Global,
    handle: &mut Handle,
    settings: &ForwarderSettings,
) -> u32
    ensures { Makes (IsPacketForwarderOf settings.now) (is_in_range settings.now) handle.old.place.value result handle.new.place.value }
{
    if let Some(object) = handle.take(alloc) {
        handle.put(object);
        return status::FULL;
    }
    let Some(viewer) = forwarder_by(alloc, settings) else {
        return status::INVALID;
    };
    let Ok(viewer) = Box::new(alloc, viewer) else {
        return status::OUT_OF_MEMORY;
    };
    match Box::new(alloc, Object::PacketForwarder(viewer)) {
        Ok(object) => {
            handle.put(object);
            status::OK
        }
        Err(_) => status::OUT_OF_MEMORY,
    }
}

/// Wants the source with this SSRC.
#[unsafe(no_mangle)]
pub extern "C" fn cpay_forwarder_want(alloc: Global, handle: &mut Handle, ssrc: u32) -> u32
    ensures wants { OnPacketForwarder handle.old.place.value (λ r s. (result ≡ 0) × (s ≡ record r { forwarder = record r.forwarder { wanted = Some ssrc } })) handle.new.place.value }
    ensures refused { Refuses is_packet_forwarder handle.old.place.value result handle.new.place.value }
{
    let Some(mut object) = handle.take(alloc) else {
        return status::EMPTY;
    };
    let answer = match &mut *object {
        Object::PacketForwarder(viewer) => {
            viewer.forwarder.want(ssrc);
            status::OK
        }
        _ => status::OTHER_KIND,
    };
    handle.put(object);
    answer
}

/// Forwards nothing until the next `cpay_forwarder_want`.
#[unsafe(no_mangle)]
pub extern "C" fn cpay_forwarder_mute(alloc: Global, handle: &mut Handle) -> u32
    ensures mutes { OnPacketForwarder handle.old.place.value (λ r s. (result ≡ 0) × (s ≡ record r { forwarder = record r.forwarder { source = None; wanted = None } })) handle.new.place.value }
    ensures refused { Refuses is_packet_forwarder handle.old.place.value result handle.new.place.value }
{
    let Some(mut object) = handle.take(alloc) else {
        return status::EMPTY;
    };
    let answer = match &mut *object {
        Object::PacketForwarder(viewer) => {
            viewer.forwarder.mute();
            status::OK
        }
        _ => status::OTHER_KIND,
    };
    handle.put(object);
    answer
}

/// Reports the SSRC of the source that is forwarded.
#[unsafe(no_mangle)]
pub extern "C" fn cpay_forwarder_source(alloc: Global, handle: &mut Handle, ssrc: &mut u32) -> u32
    ensures tells { OnPacketForwarder handle.old.place.value (λ r s. (s ≡ r) × TellsNumber r.forwarder.source result ssrc.old ssrc.new) handle.new.place.value }
    ensures refused { Refuses is_packet_forwarder handle.old.place.value result handle.new.place.value }
    ensures unchanged { result ≢ 0 → ssrc.new ≡ ssrc.old }
{
    let Some(mut object) = handle.take(alloc) else {
        return status::EMPTY;
    };
    let answer = match &mut *object {
        Object::PacketForwarder(viewer) => write_number(viewer.forwarder.source(), ssrc),
        _ => status::OTHER_KIND,
    };
    handle.put(object);
    answer
}

/// Reports the SSRC of the source to forward.
#[unsafe(no_mangle)]
pub extern "C" fn cpay_forwarder_wanted(alloc: Global, handle: &mut Handle, ssrc: &mut u32) -> u32
    ensures tells { OnPacketForwarder handle.old.place.value (λ r s. (s ≡ r) × TellsNumber r.forwarder.wanted result ssrc.old ssrc.new) handle.new.place.value }
    ensures refused { Refuses is_packet_forwarder handle.old.place.value result handle.new.place.value }
    ensures unchanged { result ≢ 0 → ssrc.new ≡ ssrc.old }
{
    let Some(mut object) = handle.take(alloc) else {
        return status::EMPTY;
    };
    let answer = match &mut *object {
        Object::PacketForwarder(viewer) => write_number(viewer.forwarder.wanted(), ssrc),
        _ => status::OTHER_KIND,
    };
    handle.put(object);
    answer
}

/// Writes a packet that arrived for the viewer to the output buffer, or says why not.
#[unsafe(no_mangle)]
pub extern "C" fn cpay_forwarder_write(
    alloc: Global,
    handle: &mut Handle,
    now: u64,
    datagram: &[u8],
    bytes: &mut [u8],
    size: &mut usize,
    forwarded: &mut u32,
) -> u32
    ensures writes { OnPacketForwarder handle.old.place.value (λ r s. WritesDatagram now datagram.now r result (record { before = bytes.old; bytes = bytes.new; size_before = size.old; size = size.new; answer_before = forwarded.old; answer = forwarded.new }) s) handle.new.place.value }
    ensures refused { Refuses is_packet_forwarder handle.old.place.value result handle.new.place.value }
    ensures untouched { result ≢ 0 → bytes.new ≡ bytes.old }
    ensures unchanged { result ≢ 0 → forwarded.new ≡ forwarded.old }
    ensures size { result ≢ 0 → result ≢ 33 → size.new ≡ size.old }
{
    let Some(mut object) = handle.take(alloc) else {
        return status::EMPTY;
    };
    let answer = match &mut *object {
        Object::PacketForwarder(viewer) => write(viewer, now, datagram, bytes, size, forwarded),
        _ => status::OTHER_KIND,
    };
    handle.put(object);
    answer
}

/// Leaves a packet out that the viewer is not to get. For one that comes late a packet of padding is written to the output buffer.
#[unsafe(no_mangle)]
pub extern "C" fn cpay_forwarder_leave_out(
    alloc: Global,
    handle: &mut Handle,
    datagram: &[u8],
    bytes: &mut [u8],
    size: &mut usize,
    forwarded: &mut u32,
) -> u32
    ensures leaves { OnPacketForwarder handle.old.place.value (λ r s. LeavesDatagram datagram.now r result (record { before = bytes.old; bytes = bytes.new; size_before = size.old; size = size.new; answer_before = forwarded.old; answer = forwarded.new }) s) handle.new.place.value }
    ensures refused { Refuses is_packet_forwarder handle.old.place.value result handle.new.place.value }
    ensures untouched { result ≢ 0 → bytes.new ≡ bytes.old }
    ensures unchanged { result ≢ 0 → forwarded.new ≡ forwarded.old }
    ensures size { result ≢ 0 → result ≢ 33 → size.new ≡ size.old }
{
    let Some(mut object) = handle.take(alloc) else {
        return status::EMPTY;
    };
    let answer = match &mut *object {
        Object::PacketForwarder(viewer) => leave_out(viewer, datagram, bytes, size, forwarded),
        _ => status::OTHER_KIND,
    };
    handle.put(object);
    answer
}

/// Answers the viewer's request for a number from a history: writes the packet to the output buffer, if the history has it.
#[unsafe(no_mangle)]
pub extern "C" fn cpay_forwarder_resend(
    alloc: Global,
    handle: &mut Handle,
    history: &mut Handle,
    number: u16,
    bytes: &mut [u8],
    size: &mut usize,
    resent: &mut u32,
) -> u32
    ensures resends { OnPacketForwarder handle.old.place.value (λ r s. ResendsIn history.old.place.value number r result (record { before = bytes.old; bytes = bytes.new; size_before = size.old; size = size.new; answer_before = resent.old; answer = resent.new }) s) handle.new.place.value }
    ensures refused { Refuses is_packet_forwarder handle.old.place.value result handle.new.place.value }
    ensures without { OnPacketForwarder handle.old.place.value (λ r s. RefusesStore history.old.place.value result r s) handle.new.place.value }
    ensures store { history.new.place.value ≡ history.old.place.value }
    ensures untouched { result ≢ 0 → bytes.new ≡ bytes.old }
    ensures unchanged { result ≢ 0 → resent.new ≡ resent.old }
    ensures size { result ≢ 0 → result ≢ 33 → size.new ≡ size.old }
{
    let Some(mut object) = handle.take(alloc) else {
        return status::EMPTY;
    };
    let answer = match &mut *object {
        Object::PacketForwarder(viewer) => {
            resend_from(alloc, viewer, history, number, bytes, size, resent)
        }
        _ => status::OTHER_KIND,
    };
    handle.put(object);
    answer
}

/// Reports the counts.
#[unsafe(no_mangle)]
pub extern "C" fn cpay_forwarder_counts(
    alloc: Global,
    handle: &mut Handle,
    counts: &mut ForwarderCountsInfo,
) -> u32
    ensures tells { OnPacketForwarder handle.old.place.value (λ r s. (result ≡ 0) × (s ≡ r) × (counts.new ≡ counts_told r.counts)) handle.new.place.value }
    ensures refused { Refuses is_packet_forwarder handle.old.place.value result handle.new.place.value }
    ensures unchanged { result ≢ 0 → counts.new ≡ counts.old }
{
    let Some(mut object) = handle.take(alloc) else {
        return status::EMPTY;
    };
    let answer = match &mut *object {
        Object::PacketForwarder(viewer) => {
            *counts = counts_of(&viewer.counts);
            status::OK
        }
        _ => status::OTHER_KIND,
    };
    handle.put(object);
    answer
}

/// Reports the fields of a sender report for the viewer's stream, for a time of a source.
#[unsafe(no_mangle)]
pub extern "C" fn cpay_forwarder_report(
    alloc: Global,
    handle: &mut Handle,
    ssrc: u32,
    rtp_time: u32,
    report: &mut SenderReportInfo,
) -> u32
    ensures tells { OnPacketForwarder handle.old.place.value (λ r s. (s ≡ r) × TellsReport (reported r ssrc rtp_time) result report.old report.new) handle.new.place.value }
    ensures refused { Refuses is_packet_forwarder handle.old.place.value result handle.new.place.value }
    ensures unchanged { result ≢ 0 → report.new ≡ report.old }
{
    let Some(mut object) = handle.take(alloc) else {
        return status::EMPTY;
    };
    let answer = match &mut *object {
        Object::PacketForwarder(viewer) => match report_of(viewer, ssrc, rtp_time) {
            Some(found) => {
                *report = found;
                status::OK
            }
            None => status::NONE,
        },
        _ => status::OTHER_KIND,
    };
    handle.put(object);
    answer
}
