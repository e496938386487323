//! The path to a viewer: what leaves now, what may be retransmitted, what feedback says, and which layers fit.

ghost use Rattle.std.specs.Prelude.{◌≡◌, ◌≢◌, true, None};
ghost use Rattle.codec_payload_bandwidth_pacer.specs.Pacing.{deadline_of};
ghost use Rattle.codec_payload_c_packets.specs.Congestion.{message_with};
ghost use Rattle.codec_payload_c_path.specs.Kinds.{Makes, OnPath, Refuses, is_path};
ghost use Rattle.codec_payload_c_path.specs.Paths.{AsksResend, ChoosesLayers, IsPathOf, PopsPacket, PushesPacket, RemovesPacket, TellsState};
ghost use Rattle.codec_payload_c_path.specs.Settings.{path_defaults};
ghost use Rattle.codec_payload_handle.specs.Numbers.{TellsNumber};
ghost use Rattle.codec_payload_c.specs.Paths.{HearsMessage};

use codec_payload_c_packets::congestion::message_with;
use codec_payload_c_path::handle::PathHandle;
use codec_payload_c_path::object::PathObject;
use codec_payload_c_path::path::{
    PathChoice, PathLeaving, PathOrderInfo, PathPacket, PathStateInfo, choose, hear, path_by, pop,
    push, remove, resend, state_told,
};
use codec_payload_c_path::path_settings::{PathSettings, path_defaults};
use codec_payload_feedback_transport::messages::MessageKind;
use codec_payload_handle::status;
use std::alloc::Global;

/// Releases the contents of a handle of a path or of a limit of retransmissions, if it has any.
#[unsafe(no_mangle)]
pub extern "C" fn cpay_path_object_free(alloc: Global, handle: &mut PathHandle)
    ensures { handle.new.place.value ≡ None }
{
    drop(handle.take(alloc));
}

/// Writes the defaults.
#[unsafe(no_mangle)]
pub extern "C" fn cpay_path_settings_init(settings: &mut PathSettings)
    ensures { settings.new ≡ path_defaults }
{
    *settings = path_defaults();
}

/// Creates a path on which nothing left in an empty handle.
#[unsafe(no_mangle)]
pub extern "C" fn cpay_path_new(
    alloc: Global,
    handle: &mut PathHandle,
    now: u64,
    settings: &PathSettings,
) -> u32
    ensures { Makes (IsPathOf now settings.now) true handle.old.place.value result handle.new.place.value }
{
    if let Some(object) = handle.take(alloc) {
        handle.put(object);
        return status::FULL;
    }
    let Ok(path) = path_by(alloc, now, settings) else {
        return status::OUT_OF_MEMORY;
    };
    let Ok(path) = Box::new(alloc, path) else {
        return status::OUT_OF_MEMORY;
    };
    match Box::new(alloc, PathObject::Path(path)) {
        Ok(object) => {
            handle.put(object);
            status::OK
        }
        Err(_) => status::OUT_OF_MEMORY,
    }
}

/// Stores a packet after those of its kind.
#[unsafe(no_mangle)]
pub extern "C" fn cpay_path_push(alloc: Global, handle: &mut PathHandle, packet: &PathPacket) -> u32
    ensures pushes { OnPath handle.old.place.value (λ r s. PushesPacket packet.now r result s) handle.new.place.value }
    ensures refused { Refuses is_path handle.old.place.value result handle.new.place.value }
{
    let Some(mut object) = handle.take(alloc) else {
        return status::EMPTY;
    };
    let answer = match &mut *object {
        PathObject::Path(path) => push(path, packet),
        _ => status::OTHER_KIND,
    };
    handle.put(object);
    answer
}

/// Removes the packet that leaves now, and writes it with its transport-wide number.
#[unsafe(no_mangle)]
pub extern "C" fn cpay_path_pop(
    alloc: Global,
    handle: &mut PathHandle,
    now: u64,
    leaving: &mut PathLeaving,
) -> u32
    ensures pops { OnPath handle.old.place.value (λ r s. PopsPacket now r result leaving.old leaving.new s) handle.new.place.value }
    ensures refused { Refuses is_path handle.old.place.value result handle.new.place.value }
    ensures unchanged { result ≢ 0 → leaving.new ≡ leaving.old }
{
    let Some(mut object) = handle.take(alloc) else {
        return status::EMPTY;
    };
    let answer = match &mut *object {
        PathObject::Path(path) => pop(path, now, leaving),
        _ => status::OTHER_KIND,
    };
    handle.put(object);
    answer
}

/// Removes the first packet of a kind that waits, and writes it.
#[unsafe(no_mangle)]
pub extern "C" fn cpay_path_remove(
    alloc: Global,
    handle: &mut PathHandle,
    kind: u32,
    packet: &mut PathPacket,
) -> u32
    ensures removes { OnPath handle.old.place.value (λ r s. RemovesPacket kind r result packet.old packet.new s) handle.new.place.value }
    ensures refused { Refuses is_path handle.old.place.value result handle.new.place.value }
    ensures unchanged { result ≢ 0 → packet.new ≡ packet.old }
{
    let Some(mut object) = handle.take(alloc) else {
        return status::EMPTY;
    };
    let answer = match &mut *object {
        PathObject::Path(path) => remove(path, kind, packet),
        _ => status::OTHER_KIND,
    };
    handle.put(object);
    answer
}

/// Writes the time from which on a packet leaves.
#[unsafe(no_mangle)]
pub extern "C" fn cpay_path_next_deadline(
    alloc: Global,
    handle: &mut PathHandle,
    deadline: &mut u64,
) -> u32
    ensures tells { OnPath handle.old.place.value (λ r s. (s ≡ r) × TellsNumber (deadline_of r.pacer) result deadline.old deadline.new) handle.new.place.value }
    ensures refused { Refuses is_path handle.old.place.value result handle.new.place.value }
    ensures unchanged { result ≢ 0 → deadline.new ≡ deadline.old }
{
    let Some(mut object) = handle.take(alloc) else {
        return status::EMPTY;
    };
    let answer = match &mut *object {
        PathObject::Path(path) => match path.path.next_deadline() {
            Some(time) => {
                *deadline = time.0;
                status::OK
            }
            None => status::NONE,
        },
        _ => status::OTHER_KIND,
    };
    handle.put(object);
    answer
}

/// Asks whether the packet with this number may be retransmitted now.
#[unsafe(no_mangle)]
pub extern "C" fn cpay_path_resend(
    alloc: Global,
    handle: &mut PathHandle,
    now: u64,
    number: u16,
    size: u32,
    round_trip: u64,
    answer: &mut u32,
) -> u32
    ensures asks { OnPath handle.old.place.value (λ r s. AsksResend now number size round_trip r result answer.new s) handle.new.place.value }
    ensures refused { Refuses is_path handle.old.place.value result handle.new.place.value }
    ensures unchanged { result ≢ 0 → answer.new ≡ answer.old }
{
    let Some(mut object) = handle.take(alloc) else {
        return status::EMPTY;
    };
    let done = match &mut *object {
        PathObject::Path(path) => resend(path, now, (number, size), round_trip, answer),
        _ => status::OTHER_KIND,
    };
    handle.put(object);
    done
}

/// Hands in the transport-wide feedback with this index in a compound RTCP packet of the viewer, from 0.
#[unsafe(no_mangle)]
pub extern "C" fn cpay_path_feedback(
    alloc: Global,
    handle: &mut PathHandle,
    now: u64,
    round_trip: u64,
    rtcp: &[u8],
    full: bool,
    index: usize,
) -> u32
    ensures hears { OnPath handle.old.place.value (λ r s. HearsMessage (message_with full 205 index rtcp.now) now round_trip r result s) handle.new.place.value }
    ensures refused { Refuses is_path handle.old.place.value result handle.new.place.value }
{
    let Some(mut object) = handle.take(alloc) else {
        return status::EMPTY;
    };
    let answer = match &mut *object {
        PathObject::Path(path) => match message_with(rtcp, full, MessageKind::Transport, index) {
            Ok(message) => hear(alloc, path, now, round_trip, message.control),
            Err(status) => status,
        },
        _ => status::OTHER_KIND,
    };
    handle.put(object);
    answer
}

/// Chooses layers, and writes what the choice says.
#[unsafe(no_mangle)]
pub extern "C" fn cpay_path_choose(
    alloc: Global,
    handle: &mut PathHandle,
    now: u64,
    choices: &[PathChoice],
    order: &mut PathOrderInfo,
) -> u32
    ensures chooses { OnPath handle.old.place.value (λ r s. ChoosesLayers now choices.now r result order.old order.new s) handle.new.place.value }
    ensures refused { Refuses is_path handle.old.place.value result handle.new.place.value }
    ensures unchanged { result ≢ 0 → order.new ≡ order.old }
{
    let Some(mut object) = handle.take(alloc) else {
        return status::EMPTY;
    };
    let answer = match &mut *object {
        PathObject::Path(path) => choose(path, now, choices, order),
        _ => status::OTHER_KIND,
    };
    handle.put(object);
    answer
}

/// Reports the state.
#[unsafe(no_mangle)]
pub extern "C" fn cpay_path_state(
    alloc: Global,
    handle: &mut PathHandle,
    state: &mut PathStateInfo,
) -> u32
    ensures tells { OnPath handle.old.place.value (λ r s. TellsState r result state.new s) handle.new.place.value }
    ensures refused { Refuses is_path handle.old.place.value result handle.new.place.value }
    ensures unchanged { result ≢ 0 → state.new ≡ state.old }
{
    let Some(mut object) = handle.take(alloc) else {
        return status::EMPTY;
    };
    let answer = match &mut *object {
        PathObject::Path(path) => {
            *state = state_told(&path.path);
            status::OK
        }
        _ => status::OTHER_KIND,
    };
    handle.put(object);
    answer
}
