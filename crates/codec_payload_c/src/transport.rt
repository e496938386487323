//! A reporter of the arrivals of a transport, for the congestion control of its sender.

ghost use Rattle.std.specs.Prelude.{◌≡◌, ◌≢◌};
ghost use Rattle.codec_payload_feedback.specs.Transport.{due_at};
ghost use Rattle.codec_payload_handle.specs.Kinds.{Makes, OnPeerReporter, Refuses, is_peer_reporter};
ghost use Rattle.codec_payload_handle.specs.Numbers.{TellsNumber, at_once_if};
ghost use Rattle.codec_payload_c_packets.specs.TransportReporters.{IsPeerReporterOf, NotesDatagram, PollsPacket, Restarts, begins_with, is_in_range};

use codec_payload_c_packets::transport::{
    TransportReporterSettings, next_poll, poll, receive, reporter_by,
};
use codec_payload_handle::handle::Handle;
use codec_payload_handle::object::{Object, PeerReporter};
use codec_payload_handle::status;
use std::alloc::Global;

/// Sets how a reporter begins, for a clock of milliseconds.
#[unsafe(no_mangle)]
pub extern "C" fn cpay_transport_reporter_settings_init(
    settings: &mut TransportReporterSettings,
    extension_id: u8,
    ssrc: u32,
)
    ensures { settings.new ≡ begins_with extension_id ssrc }
{
    *settings = TransportReporterSettings {
        interval: 100,
        size: 1_100,
        window: 2_048,
        tick_rate: 1_000,
        ssrc,
        extension_id,
        has_report: false,
    };
}

/// Creates a reporter with this canonical name in an empty handle.
#[unsafe(no_mangle)]
pub extern "C" fn cpay_transport_reporter_new(
    alloc: Global,
    handle: &mut Handle,
    settings: &TransportReporterSettings,
    cname: &[u8],
) -> u32
    ensures { Makes (IsPeerReporterOf settings.now cname.now) (is_in_range settings.now cname.now) handle.old.place.value result handle.new.place.value }
{
    if let Some(object) = handle.take(alloc) {
        handle.put(object);
        return status::FULL;
    }
    let reporter = match reporter_by(alloc, settings, cname) {
        Ok(reporter) => reporter,
        Err(status) => return status,
    };
    let Ok(reporter) = Box::new(alloc, reporter) else {
        return status::OUT_OF_MEMORY;
    };
    match Box::new(alloc, Object::PeerReporter(reporter)) {
        Ok(object) => {
            handle.put(object);
            status::OK
        }
        Err(_) => status::OUT_OF_MEMORY,
    }
}

/// Records the arrival of a datagram at that time.
#[unsafe(no_mangle)]
pub extern "C" fn cpay_transport_reporter_receive(
    alloc: Global,
    handle: &mut Handle,
    now: u64,
    datagram: &[u8],
) -> u32
    ensures notes { OnPeerReporter handle.old.place.value (λ r s. NotesDatagram now datagram.now r result s) handle.new.place.value }
    ensures refused { Refuses is_peer_reporter handle.old.place.value result handle.new.place.value }
{
    let Some(mut object) = handle.take(alloc) else {
        return status::EMPTY;
    };
    let answer = match &mut *object {
        Object::PeerReporter(peer) => receive(peer, now, datagram),
        _ => status::OTHER_KIND,
    };
    handle.put(object);
    answer
}

/// Writes the packet that is due at that time to the output buffer.
#[unsafe(no_mangle)]
pub extern "C" fn cpay_transport_reporter_poll(
    alloc: Global,
    handle: &mut Handle,
    now: u64,
    bytes: &mut [u8],
    size: &mut usize,
) -> u32
    ensures polls { OnPeerReporter handle.old.place.value (λ r s. PollsPacket now r result (record { before = bytes.old; bytes = bytes.new; size_before = size.old; size = size.new }) s) handle.new.place.value }
    ensures refused { Refuses is_peer_reporter handle.old.place.value result handle.new.place.value }
    ensures untouched { result ≢ 0 → bytes.new ≡ bytes.old }
    ensures unchanged { result ≢ 0 → result ≢ 33 → size.new ≡ size.old }
{
    let Some(mut object) = handle.take(alloc) else {
        return status::EMPTY;
    };
    let answer = match &mut *object {
        Object::PeerReporter(peer) => poll(peer, now, bytes, size),
        _ => status::OTHER_KIND,
    };
    handle.put(object);
    answer
}

/// Reports when the next packet is due.
#[unsafe(no_mangle)]
pub extern "C" fn cpay_transport_reporter_next_deadline(
    alloc: Global,
    handle: &mut Handle,
    at: &mut u64,
) -> u32
    ensures tells { OnPeerReporter handle.old.place.value (λ r s. (s ≡ r) × TellsNumber (at_once_if r.waiting (due_at r.reporter)) result at.old at.new) handle.new.place.value }
    ensures refused { Refuses is_peer_reporter handle.old.place.value result handle.new.place.value }
    ensures unchanged { result ≢ 0 → at.new ≡ at.old }
{
    let Some(mut object) = handle.take(alloc) else {
        return status::EMPTY;
    };
    let answer = match &mut *object {
        Object::PeerReporter(peer) => match next_poll(peer) {
            Some(deadline) => {
                *at = deadline;
                status::OK
            }
            None => status::NONE,
        },
        _ => status::OTHER_KIND,
    };
    handle.put(object);
    answer
}

/// Forgets all numbers, and the packet that waits: the peer begins again.
#[unsafe(no_mangle)]
pub extern "C" fn cpay_transport_reporter_restart(alloc: Global, handle: &mut Handle) -> u32
    ensures restarts { OnPeerReporter handle.old.place.value (λ r s. Restarts r result s) handle.new.place.value }
    ensures refused { Refuses is_peer_reporter handle.old.place.value result handle.new.place.value }
{
    let Some(mut object) = handle.take(alloc) else {
        return status::EMPTY;
    };
    let answer = match &mut *object {
        Object::PeerReporter(peer) => {
            peer.reporter.restart();
            peer.waiting = None;
            status::OK
        }
        _ => status::OTHER_KIND,
    };
    handle.put(object);
    answer
}
