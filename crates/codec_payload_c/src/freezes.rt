//! Freezes of a video, by the rule of the W3C.

ghost use Rattle.std.specs.Prelude.{◌≡◌, ◌≢◌, nat_le};
ghost use Rattle.codec_payload_handle.specs.Kinds.{Makes, OnFreezes, Refuses, is_freezes};
ghost use Rattle.codec_payload_c_packets.specs.Freezes.{IsFreezesOf, NotesFrame, TellsFreezes};

use codec_payload_c_packets::freezes::{FreezeCountsInfo, freezes_told};
use codec_payload_core::wire::{Frequency, Ticks};
use codec_payload_feedback_freezes::freezes::Freezes;
use codec_payload_handle::handle::Handle;
use codec_payload_handle::object::Object;
use codec_payload_handle::status;
use std::alloc::Global;

/// Creates a counter of freezes in an empty handle, for a clock with this number of ticks per second.
#[unsafe(no_mangle)]
pub extern "C" fn cpay_freezes_new(alloc: Global, handle: &mut Handle, tick_rate: u32) -> u32
    ensures { Makes (IsFreezesOf tick_rate) (nat_le 1 tick_rate) handle.old.place.value result handle.new.place.value }
{
    if let Some(object) = handle.take(alloc) {
        handle.put(object);
        return status::FULL;
    }
    let Some(tick_rate) = Frequency::make(tick_rate) else {
        return status::INVALID;
    };
    let Ok(freezes) = Box::new(alloc, Freezes::new(tick_rate)) else {
        return status::OUT_OF_MEMORY;
    };
    match Box::new(alloc, Object::Freezes(freezes)) {
        Ok(object) => {
            handle.put(object);
            status::OK
        }
        Err(_) => status::OUT_OF_MEMORY,
    }
}

/// Records that a frame is shown at this time.
#[unsafe(no_mangle)]
pub extern "C" fn cpay_freezes_shown(alloc: Global, handle: &mut Handle, at: u64) -> u32
    ensures notes { OnFreezes handle.old.place.value (λ r s. NotesFrame at r result s) handle.new.place.value }
    ensures refused { Refuses is_freezes handle.old.place.value result handle.new.place.value }
{
    let Some(mut object) = handle.take(alloc) else {
        return status::EMPTY;
    };
    let answer = match &mut *object {
        Object::Freezes(freezes) => {
            let _ended = freezes.shown(Ticks(at));
            status::OK
        }
        _ => status::OTHER_KIND,
    };
    handle.put(object);
    answer
}

/// Reports the counts.
#[unsafe(no_mangle)]
pub extern "C" fn cpay_freezes_counts(
    alloc: Global,
    handle: &mut Handle,
    counts: &mut FreezeCountsInfo,
) -> u32
    ensures tells { OnFreezes handle.old.place.value (λ r s. TellsFreezes r result counts.new s) handle.new.place.value }
    ensures refused { Refuses is_freezes handle.old.place.value result handle.new.place.value }
    ensures unchanged { result ≢ 0 → counts.new ≡ counts.old }
{
    let Some(mut object) = handle.take(alloc) else {
        return status::EMPTY;
    };
    let answer = match &mut *object {
        Object::Freezes(freezes) => {
            *counts = freezes_told(freezes.counts());
            status::OK
        }
        _ => status::OTHER_KIND,
    };
    handle.put(object);
    answer
}
