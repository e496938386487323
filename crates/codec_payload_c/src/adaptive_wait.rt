//! Limits of waiting that follow how late missing packets arrive.

ghost use Rattle.std.specs.Prelude.{◌≡◌, ◌≢◌, Bool};
ghost use Rattle.codec_payload_handle.specs.Kinds.{Makes, OnAdaptiveWait, Refuses, is_adaptive_wait};
ghost use Rattle.codec_payload_c_receiving.specs.AdaptiveWaits.{IsAdaptiveWaitOf, NotesArrival, NotesMissing, TellsLimit};

use codec_payload_c_receiving::adaptive_wait::{AdaptiveWaitSettings, bounds_of, note_missing};
use codec_payload_core::wire::Ticks;
use codec_payload_feedback_wait::adaptive_wait::AdaptiveWait;
use codec_payload_handle::handle::Handle;
use codec_payload_handle::object::Object;
use codec_payload_handle::status;
use std::alloc::Global;

/// Creates the limit of a new stream in an empty handle.
#[unsafe(no_mangle)]
pub extern "C" fn cpay_adaptive_wait_new(
    alloc: Global,
    handle: &mut Handle,
    settings: &AdaptiveWaitSettings,
) -> u32
    ensures { Makes (IsAdaptiveWaitOf settings.now) Bool.true handle.old.place.value result handle.new.place.value }
{
    if let Some(object) = handle.take(alloc) {
        handle.put(object);
        return status::FULL;
    }
    let Ok(wait) = Box::new(alloc, AdaptiveWait::new(bounds_of(settings))) else {
        return status::OUT_OF_MEMORY;
    };
    match Box::new(alloc, Object::AdaptiveWait(wait)) {
        Ok(object) => {
            handle.put(object);
            status::OK
        }
        Err(_) => status::OUT_OF_MEMORY,
    }
}

/// Records that a packet with these 16 bits of its number arrived.
#[unsafe(no_mangle)]
pub extern "C" fn cpay_adaptive_wait_arrived(
    alloc: Global,
    handle: &mut Handle,
    now: u64,
    number: u16,
) -> u32
    ensures notes { OnAdaptiveWait handle.old.place.value (λ r s. NotesArrival now number r result s) handle.new.place.value }
    ensures refused { Refuses is_adaptive_wait handle.old.place.value result handle.new.place.value }
{
    let Some(mut object) = handle.take(alloc) else {
        return status::EMPTY;
    };
    let answer = match &mut *object {
        Object::AdaptiveWait(wait) => {
            wait.arrived(Ticks(now), number);
            status::OK
        }
        _ => status::OTHER_KIND,
    };
    handle.put(object);
    answer
}

/// Records that the packets with these extended numbers are missing.
#[unsafe(no_mangle)]
pub extern "C" fn cpay_adaptive_wait_missing(
    alloc: Global,
    handle: &mut Handle,
    now: u64,
    numbers: &[u64],
) -> u32
    ensures notes { OnAdaptiveWait handle.old.place.value (λ r s. NotesMissing now numbers.now r result s) handle.new.place.value }
    ensures refused { Refuses is_adaptive_wait handle.old.place.value result handle.new.place.value }
{
    let Some(mut object) = handle.take(alloc) else {
        return status::EMPTY;
    };
    let answer = match &mut *object {
        Object::AdaptiveWait(wait) => {
            note_missing(wait, now, numbers);
            status::OK
        }
        _ => status::OTHER_KIND,
    };
    handle.put(object);
    answer
}

/// Reports the limit in ticks.
#[unsafe(no_mangle)]
pub extern "C" fn cpay_adaptive_wait_limit(
    alloc: Global,
    handle: &mut Handle,
    limit: &mut u64,
) -> u32
    ensures tells { OnAdaptiveWait handle.old.place.value (λ r s. TellsLimit r result limit.new s) handle.new.place.value }
    ensures refused { Refuses is_adaptive_wait handle.old.place.value result handle.new.place.value }
    ensures unchanged { result ≢ 0 → limit.new ≡ limit.old }
{
    let Some(mut object) = handle.take(alloc) else {
        return status::EMPTY;
    };
    let answer = match &mut *object {
        Object::AdaptiveWait(wait) => {
            *limit = wait.limit();
            status::OK
        }
        _ => status::OTHER_KIND,
    };
    handle.put(object);
    answer
}
