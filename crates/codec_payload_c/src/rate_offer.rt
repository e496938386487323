//! The rate that is offered to a publisher.

ghost use Rattle.std.specs.Prelude.{◌≡◌, ◌≢◌, true};
ghost use Rattle.codec_payload_c_path.specs.Kinds.{Makes, OnOffer, Refuses, is_offer};
ghost use Rattle.codec_payload_c_path.specs.RateOffers.{Arrives, ArrivesBy, IsOfferOf, LosesPacket, TakesRate, WantsRate, offer_defaults};

use codec_payload_c_path::handle::PathHandle;
use codec_payload_c_path::object::PathObject;
use codec_payload_c_path::rate_offer::{
    RateOfferSettings, note_arrival, note_arrival_by, offer_by, offer_defaults, take_rate,
};
use codec_payload_handle::status;
use std::alloc::Global;

/// Writes the defaults.
#[unsafe(no_mangle)]
pub extern "C" fn cpay_rate_offer_settings_init(settings: &mut RateOfferSettings)
    ensures { settings.new ≡ offer_defaults }
{
    *settings = offer_defaults();
}

/// Creates an offer before the first packet in an empty handle.
#[unsafe(no_mangle)]
pub extern "C" fn cpay_rate_offer_new(
    alloc: Global,
    handle: &mut PathHandle,
    settings: &RateOfferSettings,
) -> u32
    ensures { Makes (IsOfferOf settings.now) true handle.old.place.value result handle.new.place.value }
{
    if let Some(object) = handle.take(alloc) {
        handle.put(object);
        return status::FULL;
    }
    let Ok(offer) = Box::new(alloc, offer_by(settings)) else {
        return status::OUT_OF_MEMORY;
    };
    match Box::new(alloc, PathObject::RateOffer(offer)) {
        Ok(object) => {
            handle.put(object);
            status::OK
        }
        Err(_) => status::OUT_OF_MEMORY,
    }
}

/// Notes a packet that arrives now, with the 24 bits of its abs-send-time.
#[unsafe(no_mangle)]
pub extern "C" fn cpay_rate_offer_arrived(
    alloc: Global,
    handle: &mut PathHandle,
    now: u64,
    abs_send_time: u32,
    size: u32,
) -> u32
    ensures notes { OnOffer handle.old.place.value (λ r s. Arrives now abs_send_time size r result s) handle.new.place.value }
    ensures refused { Refuses is_offer handle.old.place.value result handle.new.place.value }
{
    let Some(mut object) = handle.take(alloc) else {
        return status::EMPTY;
    };
    let answer = match &mut *object {
        PathObject::RateOffer(offer) => {
            note_arrival(offer, now, abs_send_time, size);
            status::OK
        }
        _ => status::OTHER_KIND,
    };
    handle.put(object);
    answer
}

/// Notes a packet that arrives now, and was sent at this time of the publisher's clock.
#[unsafe(no_mangle)]
pub extern "C" fn cpay_rate_offer_arrived_by(
    alloc: Global,
    handle: &mut PathHandle,
    now: u64,
    sent: u64,
    size: u32,
) -> u32
    ensures notes { OnOffer handle.old.place.value (λ r s. ArrivesBy now sent size r result s) handle.new.place.value }
    ensures refused { Refuses is_offer handle.old.place.value result handle.new.place.value }
{
    let Some(mut object) = handle.take(alloc) else {
        return status::EMPTY;
    };
    let answer = match &mut *object {
        PathObject::RateOffer(offer) => {
            note_arrival_by(offer, now, sent, size);
            status::OK
        }
        _ => status::OTHER_KIND,
    };
    handle.put(object);
    answer
}

/// Notes that a packet is lost.
#[unsafe(no_mangle)]
pub extern "C" fn cpay_rate_offer_lost(alloc: Global, handle: &mut PathHandle) -> u32
    ensures notes { OnOffer handle.old.place.value (λ r s. LosesPacket r result s) handle.new.place.value }
    ensures refused { Refuses is_offer handle.old.place.value result handle.new.place.value }
{
    let Some(mut object) = handle.take(alloc) else {
        return status::EMPTY;
    };
    let answer = match &mut *object {
        PathObject::RateOffer(offer) => {
            offer.lost();
            status::OK
        }
        _ => status::OTHER_KIND,
    };
    handle.put(object);
    answer
}

/// Sets the rate that the caller wants from the publisher.
#[unsafe(no_mangle)]
pub extern "C" fn cpay_rate_offer_set_wants(
    alloc: Global,
    handle: &mut PathHandle,
    wants: u64,
) -> u32
    ensures sets { OnOffer handle.old.place.value (λ r s. WantsRate wants r result s) handle.new.place.value }
    ensures refused { Refuses is_offer handle.old.place.value result handle.new.place.value }
{
    let Some(mut object) = handle.take(alloc) else {
        return status::EMPTY;
    };
    let answer = match &mut *object {
        PathObject::RateOffer(offer) => {
            offer.set_wants(wants);
            status::OK
        }
        _ => status::OTHER_KIND,
    };
    handle.put(object);
    answer
}

/// Judges the publisher's path, and writes the rate to offer to the publisher, if one is due.
#[unsafe(no_mangle)]
pub extern "C" fn cpay_rate_offer_take_due(
    alloc: Global,
    handle: &mut PathHandle,
    now: u64,
    round_trip: u64,
    rate: &mut u64,
) -> u32
    ensures takes { OnOffer handle.old.place.value (λ r s. TakesRate now round_trip r result rate.old rate.new s) handle.new.place.value }
    ensures refused { Refuses is_offer handle.old.place.value result handle.new.place.value }
    ensures unchanged { result ≢ 0 → rate.new ≡ rate.old }
{
    let Some(mut object) = handle.take(alloc) else {
        return status::EMPTY;
    };
    let answer = match &mut *object {
        PathObject::RateOffer(offer) => take_rate(offer, now, round_trip, rate),
        _ => status::OTHER_KIND,
    };
    handle.put(object);
    answer
}
