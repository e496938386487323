//! Ports with FEC: error correction for all streams of a port, in front of a session.

ghost use Rattle.std.specs.Prelude.{◌≡◌, ◌≢◌};
ghost use Rattle.codec_payload_fec_port.specs.Ports.{counts_of, port_ended, port_restarted};
ghost use Rattle.codec_payload_c_path.specs.Kinds.{Refuses};
ghost use Rattle.codec_payload_c_fec.specs.Kinds.{MakesOr, OnFecPort, is_fec_port};
ghost use Rattle.codec_payload_c_fec.specs.PortSettings.{IsPortOf, IsRefused, port_defaults};
ghost use Rattle.codec_payload_c_fec.specs.Ports.{HandsOutPacket, TakesDatagram, TellsCounts, counts_told};

use codec_payload_c_fec::lending::LentPacket;
use codec_payload_c_fec::port::{
    FecCountsInfo, counts_of_all, end, next, receive, restart, stream_counts,
};
use codec_payload_c_fec::port_settings::{
    FecPortSettings, RetransmissionType, port_by, port_defaults,
};
use codec_payload_c_path::handle::PathHandle;
use codec_payload_c_path::object::PathObject;
use codec_payload_handle::status;
use std::alloc::Global;

/// Writes the defaults.
#[unsafe(no_mangle)]
pub extern "C" fn cpay_fec_port_settings_init(settings: &mut FecPortSettings)
    ensures { settings.new ≡ port_defaults }
{
    *settings = port_defaults();
}

/// Creates a port without streams in an empty handle.
#[unsafe(no_mangle)]
pub extern "C" fn cpay_fec_port_new(
    alloc: Global,
    handle: &mut PathHandle,
    settings: &FecPortSettings,
    retransmissions: &[RetransmissionType],
) -> u32
    ensures { MakesOr (IsPortOf settings.now retransmissions.now) (IsRefused settings.now retransmissions.now) handle.old.place.value result handle.new.place.value }
{
    if let Some(object) = handle.take(alloc) {
        handle.put(object);
        return status::FULL;
    }
    let port = match port_by(alloc, settings, retransmissions) {
        Ok(port) => port,
        Err(why) => return why,
    };
    let Ok(port) = Box::new(alloc, port) else {
        return status::OUT_OF_MEMORY;
    };
    match Box::new(alloc, PathObject::FecPort(port)) {
        Ok(object) => {
            handle.put(object);
            status::OK
        }
        Err(_) => status::OUT_OF_MEMORY,
    }
}

/// Takes a datagram, and lends the packet that passes in its place.
#[unsafe(no_mangle)]
pub extern "C" fn cpay_fec_port_receive(
    alloc: Global,
    handle: &mut PathHandle,
    datagram: &[u8],
    passed: &mut LentPacket,
) -> u32
    ensures takes { OnFecPort handle.old.place.value (λ r s. TakesDatagram datagram.now r result passed.old passed.new s) handle.new.place.value }
    ensures refused { Refuses is_fec_port handle.old.place.value result handle.new.place.value }
    ensures unchanged { result ≢ 0 → passed.new ≡ passed.old }
{
    let Some(mut object) = handle.take(alloc) else {
        return status::EMPTY;
    };
    let answer = match &mut *object {
        PathObject::FecPort(port) => receive(port, datagram, passed),
        _ => status::OTHER_KIND,
    };
    handle.put(object);
    answer
}

/// Lends the next packet that was rebuilt.
#[unsafe(no_mangle)]
pub extern "C" fn cpay_fec_port_next(
    alloc: Global,
    handle: &mut PathHandle,
    packet: &mut LentPacket,
) -> u32
    ensures hands_out { OnFecPort handle.old.place.value (λ r s. HandsOutPacket r result packet.old packet.new s) handle.new.place.value }
    ensures refused { Refuses is_fec_port handle.old.place.value result handle.new.place.value }
    ensures unchanged { result ≢ 0 → packet.new ≡ packet.old }
{
    let Some(mut object) = handle.take(alloc) else {
        return status::EMPTY;
    };
    let answer = match &mut *object {
        PathObject::FecPort(port) => next(port, packet),
        _ => status::OTHER_KIND,
    };
    handle.put(object);
    answer
}

/// Drops all packets of a stream: another sender begins.
#[unsafe(no_mangle)]
pub extern "C" fn cpay_fec_port_restart(alloc: Global, handle: &mut PathHandle, ssrc: u32) -> u32
    ensures restarts { OnFecPort handle.old.place.value (λ r s. (result ≡ 0) × (s ≡ record r { port = port_restarted ssrc r.port })) handle.new.place.value }
    ensures refused { Refuses is_fec_port handle.old.place.value result handle.new.place.value }
{
    let Some(mut object) = handle.take(alloc) else {
        return status::EMPTY;
    };
    let answer = match &mut *object {
        PathObject::FecPort(port) => {
            restart(port, ssrc);
            status::OK
        }
        _ => status::OTHER_KIND,
    };
    handle.put(object);
    answer
}

/// Ends a stream.
#[unsafe(no_mangle)]
pub extern "C" fn cpay_fec_port_end(alloc: Global, handle: &mut PathHandle, ssrc: u32) -> u32
    ensures ends { OnFecPort handle.old.place.value (λ r s. (result ≡ 0) × (s ≡ record r { port = port_ended ssrc r.port })) handle.new.place.value }
    ensures refused { Refuses is_fec_port handle.old.place.value result handle.new.place.value }
{
    let Some(mut object) = handle.take(alloc) else {
        return status::EMPTY;
    };
    let answer = match &mut *object {
        PathObject::FecPort(port) => {
            end(port, ssrc);
            status::OK
        }
        _ => status::OTHER_KIND,
    };
    handle.put(object);
    answer
}

/// Writes the counts of all streams.
#[unsafe(no_mangle)]
pub extern "C" fn cpay_fec_port_counts(
    alloc: Global,
    handle: &mut PathHandle,
    counts: &mut FecCountsInfo,
) -> u32
    ensures tells { OnFecPort handle.old.place.value (λ r s. (result ≡ 0) × (counts.new ≡ counts_told r.port.counts) × (s ≡ r)) handle.new.place.value }
    ensures refused { Refuses is_fec_port handle.old.place.value result handle.new.place.value }
    ensures unchanged { result ≢ 0 → counts.new ≡ counts.old }
{
    let Some(mut object) = handle.take(alloc) else {
        return status::EMPTY;
    };
    let answer = match &mut *object {
        PathObject::FecPort(port) => {
            *counts = counts_of_all(port);
            status::OK
        }
        _ => status::OTHER_KIND,
    };
    handle.put(object);
    answer
}

/// Writes the counts of a stream.
#[unsafe(no_mangle)]
pub extern "C" fn cpay_fec_port_stream_counts(
    alloc: Global,
    handle: &mut PathHandle,
    ssrc: u32,
    counts: &mut FecCountsInfo,
) -> u32
    ensures tells { OnFecPort handle.old.place.value (λ r s. TellsCounts (counts_of ssrc r.port.streams) result counts.old counts.new × (s ≡ r)) handle.new.place.value }
    ensures refused { Refuses is_fec_port handle.old.place.value result handle.new.place.value }
    ensures unchanged { result ≢ 0 → counts.new ≡ counts.old }
{
    let Some(mut object) = handle.take(alloc) else {
        return status::EMPTY;
    };
    let answer = match &mut *object {
        PathObject::FecPort(port) => stream_counts(port, ssrc, counts),
        _ => status::OTHER_KIND,
    };
    handle.put(object);
    answer
}
