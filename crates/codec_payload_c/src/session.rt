//! Sessions: the datagrams of a port in, the events of its streams out.

ghost use Rattle.std.specs.Prelude.{◌≡◌, ◌≢◌, Option};
ghost use Rattle.codec_payload_session.specs.Idle.{next_of};
ghost use Rattle.codec_payload_session.specs.Ports.{ends_all, ends_of, restarts_transport};
ghost use Rattle.codec_payload_c_receiving.specs.SessionFormats.{IsPortSessionOf, MakesSession, is_in_range};
ghost use Rattle.codec_payload_c_receiving.specs.Sessions.{PollsEvent, ReceivesDatagram, TellsTaken};
ghost use Rattle.codec_payload_handle.specs.Numbers.{TellsNumber};
ghost use Rattle.codec_payload_handle.specs.Kinds.{OnPortSession, Refuses, is_port_session};

use codec_payload_c_receiving::session::{Arrival, Event, poll, receive};
use codec_payload_c_receiving::session_settings::{
    SessionFormat, SessionSettings, SsrcPair, session_by,
};
use codec_payload_core::wire::Ticks;
use codec_payload_handle::extension_values::ExtensionValues;
use codec_payload_handle::handle::Handle;
use codec_payload_handle::object::{Object, PortSession};
use codec_payload_handle::status;
use std::alloc::Global;

/// Creates a session with these settings, formats, payload types without media and pairs of SSRCs, in an empty handle. A payload
/// type without media plus 128 is one of telephone events.
#[unsafe(no_mangle)]
pub extern "C" fn cpay_session_new(
    alloc: Global,
    handle: &mut Handle,
    settings: &SessionSettings,
    formats: &[SessionFormat],
    no_media: &[u8],
    pairs: &[SsrcPair],
) -> u32
    ensures { MakesSession (IsPortSessionOf settings.now formats.now no_media.now pairs.now) (is_in_range settings.now formats.now no_media.now) handle.old.place.value result handle.new.place.value }
{
    if let Some(object) = handle.take(alloc) {
        handle.put(object);
        return status::FULL;
    }
    let session = match session_by(alloc, settings, formats, no_media, pairs) {
        Ok(session) => session,
        Err(status) => return status,
    };
    let Ok(session) = Box::new(alloc, session) else {
        return status::OUT_OF_MEMORY;
    };
    match Box::new(alloc, Object::PortSession(session)) {
        Ok(object) => {
            handle.put(object);
            status::OK
        }
        Err(_) => status::OUT_OF_MEMORY,
    }
}

/// Receives a datagram at that time, and reports what was done with it.
#[unsafe(no_mangle)]
pub extern "C" fn cpay_session_receive(
    alloc: Global,
    handle: &mut Handle,
    now: u64,
    datagram: &[u8],
    arrival: &mut Arrival,
) -> u32
    ensures receives { OnPortSession handle.old.place.value (λ r s. ReceivesDatagram Option.None r now datagram.now result arrival.old arrival.new s) handle.new.place.value }
    ensures refused { Refuses is_port_session handle.old.place.value result handle.new.place.value }
    ensures unchanged { result ≢ 0 → arrival.new ≡ arrival.old }
{
    let Some(mut object) = handle.take(alloc) else {
        return status::EMPTY;
    };
    let answer = match &mut *object {
        Object::PortSession(port) => receive(port, None, now, datagram, arrival),
        _ => status::OTHER_KIND,
    };
    handle.put(object);
    answer
}

/// Receives a datagram that arrived at `micros` for the transport, in microseconds of any clock.
#[unsafe(no_mangle)]
pub extern "C" fn cpay_session_receive_at(
    alloc: Global,
    handle: &mut Handle,
    now: u64,
    micros: u64,
    datagram: &[u8],
    arrival: &mut Arrival,
) -> u32
    ensures receives { OnPortSession handle.old.place.value (λ r s. ReceivesDatagram (Option.Some micros) r now datagram.now result arrival.old arrival.new s) handle.new.place.value }
    ensures refused { Refuses is_port_session handle.old.place.value result handle.new.place.value }
    ensures unchanged { result ≢ 0 → arrival.new ≡ arrival.old }
{
    let Some(mut object) = handle.take(alloc) else {
        return status::EMPTY;
    };
    let answer = match &mut *object {
        Object::PortSession(port) => receive(port, Some(micros), now, datagram, arrival),
        _ => status::OTHER_KIND,
    };
    handle.put(object);
    answer
}

/// Forgets which packets of the transport arrived.
#[unsafe(no_mangle)]
pub extern "C" fn cpay_session_restart_transport(alloc: Global, handle: &mut Handle) -> u32
    ensures restarts { OnPortSession handle.old.place.value (λ r s. (result ≡ 0) × (s ≡ record r { session = restarts_transport r.session })) handle.new.place.value }
    ensures refused { Refuses is_port_session handle.old.place.value result handle.new.place.value }
{
    let Some(mut object) = handle.take(alloc) else {
        return status::EMPTY;
    };
    let answer = match &mut *object {
        Object::PortSession(port) => {
            port.session.restart_transport();
            status::OK
        }
        _ => status::OTHER_KIND,
    };
    handle.put(object);
    answer
}

/// Reports the next event at that time, and where its bytes are: in the session's memory, until the next poll.
#[unsafe(no_mangle)]
pub extern "C" fn cpay_session_poll(
    alloc: Global,
    handle: &mut Handle,
    now: u64,
    event: &mut Event,
) -> u32
    ensures polls { OnPortSession handle.old.place.value (λ r s. PollsEvent now r result event.old event.new s) handle.new.place.value }
    ensures refused { Refuses is_port_session handle.old.place.value result handle.new.place.value }
    ensures unchanged { result ≢ 0 → event.new ≡ event.old }
{
    let Some(mut object) = handle.take(alloc) else {
        return status::EMPTY;
    };
    let answer = match &mut *object {
        Object::PortSession(port) => poll(port, alloc, now, event),
        _ => status::OTHER_KIND,
    };
    handle.put(object);
    answer
}

/// Reads the values of header extensions of the latest unit.
#[unsafe(no_mangle)]
pub extern "C" fn cpay_session_values(
    alloc: Global,
    handle: &mut Handle,
    values: &mut ExtensionValues,
) -> u32
    ensures tells { OnPortSession handle.old.place.value (λ r s. (s ≡ r) × TellsTaken r.taken result values.old values.new) handle.new.place.value }
    ensures refused { Refuses is_port_session handle.old.place.value result handle.new.place.value }
    ensures unchanged { result ≢ 0 → values.new ≡ values.old }
{
    let Some(mut object) = handle.take(alloc) else {
        return status::EMPTY;
    };
    let answer = match &mut *object {
        Object::PortSession(port) => match port.taken.values() {
            Some(told) => {
                *values = told;
                status::OK
            }
            None => status::NONE,
        },
        _ => status::OTHER_KIND,
    };
    handle.put(object);
    answer
}

/// Reports when a poll may have an event even if no datagram arrives.
#[unsafe(no_mangle)]
pub extern "C" fn cpay_session_next_deadline(
    alloc: Global,
    handle: &mut Handle,
    at: &mut u64,
) -> u32
    ensures tells { OnPortSession handle.old.place.value (λ r s. (s ≡ r) × TellsNumber (next_of r.session) result at.old at.new) handle.new.place.value }
    ensures refused { Refuses is_port_session handle.old.place.value result handle.new.place.value }
    ensures unchanged { result ≢ 0 → at.new ≡ at.old }
{
    let Some(mut object) = handle.take(alloc) else {
        return status::EMPTY;
    };
    let answer = match &mut *object {
        Object::PortSession(port) => match port.session.next_deadline() {
            Some(deadline) => {
                *at = deadline.0;
                status::OK
            }
            None => status::NONE,
        },
        _ => status::OTHER_KIND,
    };
    handle.put(object);
    answer
}

/// Ends the streams of an SSRC: polls report the complete units, and then the end.
#[unsafe(no_mangle)]
pub extern "C" fn cpay_session_end(alloc: Global, handle: &mut Handle, now: u64, ssrc: u32) -> u32
    ensures ends { OnPortSession handle.old.place.value (λ r s. (result ≡ 0) × (s ≡ record r { session = ends_of ssrc now r.session })) handle.new.place.value }
    ensures refused { Refuses is_port_session handle.old.place.value result handle.new.place.value }
{
    let Some(mut object) = handle.take(alloc) else {
        return status::EMPTY;
    };
    let answer = match &mut *object {
        Object::PortSession(port) => {
            port.session.end(Ticks(now), ssrc);
            status::OK
        }
        _ => status::OTHER_KIND,
    };
    handle.put(object);
    answer
}

/// Ends all streams. From now on no stream begins.
#[unsafe(no_mangle)]
pub extern "C" fn cpay_session_finish(alloc: Global, handle: &mut Handle, now: u64) -> u32
    ensures ends { OnPortSession handle.old.place.value (λ r s. (result ≡ 0) × (s ≡ record r { session = ends_all now r.session })) handle.new.place.value }
    ensures refused { Refuses is_port_session handle.old.place.value result handle.new.place.value }
{
    let Some(mut object) = handle.take(alloc) else {
        return status::EMPTY;
    };
    let answer = match &mut *object {
        Object::PortSession(port) => {
            port.session.finish(Ticks(now));
            status::OK
        }
        _ => status::OTHER_KIND,
    };
    handle.put(object);
    answer
}
