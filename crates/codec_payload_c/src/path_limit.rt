//! The limit of retransmissions to a viewer.

ghost use Rattle.std.specs.Prelude.{◌≡◌, ◌≢◌, true};
ghost use Rattle.codec_payload_c_path.specs.Kinds.{Makes, OnLimit, Refuses, is_limit};
ghost use Rattle.codec_payload_c_path.specs.Limits.{AsksLimit, CountsSent, IsLimitOf};
ghost use Rattle.codec_payload_c_path.specs.Settings.{limit_defaults};

use codec_payload_c_path::handle::PathHandle;
use codec_payload_c_path::limit::{ask, count_sent, limit_by};
use codec_payload_c_path::object::PathObject;
use codec_payload_c_path::path_settings::{ResendLimitSettings, limit_defaults};
use codec_payload_handle::status;
use std::alloc::Global;

/// Writes the defaults.
#[unsafe(no_mangle)]
pub extern "C" fn cpay_resend_limit_settings_init(settings: &mut ResendLimitSettings)
    ensures { settings.new ≡ limit_defaults }
{
    *settings = limit_defaults();
}

/// Creates the limit of a viewer to whom nothing was sent in an empty handle.
#[unsafe(no_mangle)]
pub extern "C" fn cpay_resend_limit_new(
    alloc: Global,
    handle: &mut PathHandle,
    settings: &ResendLimitSettings,
) -> u32
    ensures { Makes (IsLimitOf settings.now) true handle.old.place.value result handle.new.place.value }
{
    if let Some(object) = handle.take(alloc) {
        handle.put(object);
        return status::FULL;
    }
    let Ok(limit) = Box::new(alloc, limit_by(settings)) else {
        return status::OUT_OF_MEMORY;
    };
    match Box::new(alloc, PathObject::ResendLimit(limit)) {
        Ok(object) => {
            handle.put(object);
            status::OK
        }
        Err(_) => status::OUT_OF_MEMORY,
    }
}

/// Counts a packet that is sent for the first time.
#[unsafe(no_mangle)]
pub extern "C" fn cpay_resend_limit_sent(
    alloc: Global,
    handle: &mut PathHandle,
    now: u64,
    size: u32,
) -> u32
    ensures counts { OnLimit handle.old.place.value (λ r s. CountsSent now size r result s) handle.new.place.value }
    ensures refused { Refuses is_limit handle.old.place.value result handle.new.place.value }
{
    let Some(mut object) = handle.take(alloc) else {
        return status::EMPTY;
    };
    let answer = match &mut *object {
        PathObject::ResendLimit(limit) => {
            count_sent(limit, now, size);
            status::OK
        }
        _ => status::OTHER_KIND,
    };
    handle.put(object);
    answer
}

/// Asks whether the packet with this number may be retransmitted now.
#[unsafe(no_mangle)]
pub extern "C" fn cpay_resend_limit_ask(
    alloc: Global,
    handle: &mut PathHandle,
    now: u64,
    number: u16,
    size: u32,
    round_trip: u64,
    answer: &mut u32,
) -> u32
    ensures asks { OnLimit handle.old.place.value (λ r s. AsksLimit now number size round_trip r result answer.new s) handle.new.place.value }
    ensures refused { Refuses is_limit handle.old.place.value result handle.new.place.value }
    ensures unchanged { result ≢ 0 → answer.new ≡ answer.old }
{
    let Some(mut object) = handle.take(alloc) else {
        return status::EMPTY;
    };
    let done = match &mut *object {
        PathObject::ResendLimit(limit) => {
            *answer = ask(limit, now, number, size, round_trip);
            status::OK
        }
        _ => status::OTHER_KIND,
    };
    handle.put(object);
    done
}
