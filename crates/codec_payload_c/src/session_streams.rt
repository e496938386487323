//! The streams of a session: counters, what to request, and how long to wait.

ghost use Rattle.std.specs.Prelude.{◌≡◌, ◌≢◌, slice_get};
ghost use Rattle.codec_payload_c_receiving.specs.SessionStreams.{SetsRoundTrip, SetsWaitLimits, TellsLast, TellsMissingOf, TellsSessionCounts, TellsStreamAt, TellsWants, receiver_in};
ghost use Rattle.codec_payload_handle.specs.Kinds.{OnPortSession, Refuses, is_port_session};
ghost use Rattle.codec_payload_c_receiving.specs.StreamReceivers.{wait_limits_given};

use codec_payload_c_receiving::receiver::WaitLimits;
use codec_payload_c_receiving::session_streams::{
    SessionCountsInfo, SessionStream, counts_of, last_stream, missing, set_round_trip,
    set_wait_limits, stream_at, wants_keyframe,
};
use codec_payload_handle::handle::Handle;
use codec_payload_handle::object::{Object, PortSession};
use codec_payload_handle::status;
use std::alloc::Global;

/// Reports the counters of a session.
#[unsafe(no_mangle)]
pub extern "C" fn cpay_session_counts(
    alloc: Global,
    handle: &mut Handle,
    counts: &mut SessionCountsInfo,
) -> u32
    ensures tells { OnPortSession handle.old.place.value (λ r s. (result ≡ 0) × (s ≡ r) × TellsSessionCounts r counts.new) handle.new.place.value }
    ensures refused { Refuses is_port_session handle.old.place.value result handle.new.place.value }
    ensures unchanged { result ≢ 0 → counts.new ≡ counts.old }
{
    let Some(mut object) = handle.take(alloc) else {
        return status::EMPTY;
    };
    let answer = match &mut *object {
        Object::PortSession(port) => {
            *counts = counts_of(port);
            status::OK
        }
        _ => status::OTHER_KIND,
    };
    handle.put(object);
    answer
}

/// Describes the stream at a place, in the order in which the streams began.
#[unsafe(no_mangle)]
pub extern "C" fn cpay_session_stream_at(
    alloc: Global,
    handle: &mut Handle,
    place: usize,
    stream: &mut SessionStream,
) -> u32
    ensures tells { OnPortSession handle.old.place.value (λ r s. (s ≡ r) × TellsStreamAt (slice_get r.session.port.streams place) result stream.old stream.new) handle.new.place.value }
    ensures refused { Refuses is_port_session handle.old.place.value result handle.new.place.value }
    ensures unchanged { result ≢ 0 → stream.new ≡ stream.old }
{
    let Some(mut object) = handle.take(alloc) else {
        return status::EMPTY;
    };
    let answer = match &mut *object {
        Object::PortSession(port) => stream_at(port, place, stream),
        _ => status::OTHER_KIND,
    };
    handle.put(object);
    answer
}

/// Describes the stream that the session removed last, as it was then.
#[unsafe(no_mangle)]
pub extern "C" fn cpay_session_last_stream(
    alloc: Global,
    handle: &mut Handle,
    stream: &mut SessionStream,
) -> u32
    ensures tells { OnPortSession handle.old.place.value (λ r s. (s ≡ r) × TellsLast r.session.port.last result stream.old stream.new) handle.new.place.value }
    ensures refused { Refuses is_port_session handle.old.place.value result handle.new.place.value }
    ensures unchanged { result ≢ 0 → stream.new ≡ stream.old }
{
    let Some(mut object) = handle.take(alloc) else {
        return status::EMPTY;
    };
    let answer = match &mut *object {
        Object::PortSession(port) => last_stream(port, stream),
        _ => status::OTHER_KIND,
    };
    handle.put(object);
    answer
}

/// Writes the missing numbers of a stream in rising order, as many as there is room for.
#[unsafe(no_mangle)]
pub extern "C" fn cpay_session_missing(
    alloc: Global,
    handle: &mut Handle,
    ssrc: u32,
    payload_type: u8,
    numbers: &mut [u64],
    count: &mut usize,
) -> u32
    ensures tells { OnPortSession handle.old.place.value (λ r s. (s ≡ r) × TellsMissingOf (receiver_in ssrc payload_type r) result (record { before = numbers.old; numbers = numbers.new; count_before = count.old; count = count.new })) handle.new.place.value }
    ensures refused { Refuses is_port_session handle.old.place.value result handle.new.place.value }
    ensures unchanged { result ≢ 0 → (count.new ≡ count.old) × (numbers.new ≡ numbers.old) }
{
    let Some(mut object) = handle.take(alloc) else {
        return status::EMPTY;
    };
    let answer = match &mut *object {
        Object::PortSession(port) => missing(port, (ssrc, payload_type), numbers, count),
        _ => status::OTHER_KIND,
    };
    handle.put(object);
    answer
}

/// Reports whether to request a keyframe of a stream.
#[unsafe(no_mangle)]
pub extern "C" fn cpay_session_wants_keyframe(
    alloc: Global,
    handle: &mut Handle,
    ssrc: u32,
    payload_type: u8,
    wants: &mut bool,
) -> u32
    ensures tells { OnPortSession handle.old.place.value (λ r s. (s ≡ r) × TellsWants (receiver_in ssrc payload_type r) result wants.old wants.new) handle.new.place.value }
    ensures refused { Refuses is_port_session handle.old.place.value result handle.new.place.value }
    ensures unchanged { result ≢ 0 → wants.new ≡ wants.old }
{
    let Some(mut object) = handle.take(alloc) else {
        return status::EMPTY;
    };
    let answer = match &mut *object {
        Object::PortSession(port) => wants_keyframe(port, ssrc, payload_type, wants),
        _ => status::OTHER_KIND,
    };
    handle.put(object);
    answer
}

/// Replaces the wait limits of a stream.
#[unsafe(no_mangle)]
pub extern "C" fn cpay_session_set_wait_limits(
    alloc: Global,
    handle: &mut Handle,
    ssrc: u32,
    payload_type: u8,
    wait_limits: &WaitLimits,
) -> u32
    ensures sets { OnPortSession handle.old.place.value (λ r s. SetsWaitLimits (receiver_in ssrc payload_type r) ssrc payload_type (wait_limits_given wait_limits.now) r result s) handle.new.place.value }
    ensures refused { Refuses is_port_session handle.old.place.value result handle.new.place.value }
{
    let Some(mut object) = handle.take(alloc) else {
        return status::EMPTY;
    };
    let answer = match &mut *object {
        Object::PortSession(port) => set_wait_limits(port, ssrc, payload_type, wait_limits),
        _ => status::OTHER_KIND,
    };
    handle.put(object);
    answer
}

/// Sets the round trip of a stream.
#[unsafe(no_mangle)]
pub extern "C" fn cpay_session_set_round_trip(
    alloc: Global,
    handle: &mut Handle,
    ssrc: u32,
    payload_type: u8,
    round_trip: u64,
) -> u32
    ensures sets { OnPortSession handle.old.place.value (λ r s. SetsRoundTrip (receiver_in ssrc payload_type r) ssrc payload_type round_trip r result s) handle.new.place.value }
    ensures refused { Refuses is_port_session handle.old.place.value result handle.new.place.value }
{
    let Some(mut object) = handle.take(alloc) else {
        return status::EMPTY;
    };
    let answer = match &mut *object {
        Object::PortSession(port) => set_round_trip(port, ssrc, payload_type, round_trip),
        _ => status::OTHER_KIND,
    };
    handle.put(object);
    answer
}
