//! The rate that is offered to a publisher.

ghost use Rattle.std.specs.Prelude.{◌≡◌, ◌≢◌};
ghost use Rattle.codec_payload_bandwidth_offer.specs.Offers.{after_arrival, clock_with, micros_of, new_offer};
ghost use Rattle.codec_payload_c_path.specs.RateOffers.{TakesRate, offer_defaults, offer_set};

use crate::status;
use codec_payload_bandwidth_offer::offer::{OfferSettings, RateOffer};
use codec_payload_base::wire::Ticks;

/// How a rate is offered to a publisher.
#[repr(C)]
#[derive(Clone, Copy)]
pub struct RateOfferSettings {
    /// The estimate of the publisher's path at the beginning, in bits per second.
    pub start: u64,
    /// No estimate is below this rate.
    pub least: u64,
    /// No estimate is above this rate.
    pub most: u64,
    /// The rate that the caller wants: no offer is above it.
    pub wants: u64,
}

/// Returns the defaults.
pub fn offer_defaults() -> RateOfferSettings
    ensures { result ≡ offer_defaults }
{
    let settings = OfferSettings::live();
    RateOfferSettings {
        start: settings.start,
        least: settings.least,
        most: settings.most,
        wants: settings.wants,
    }
}

/// Converts settings from C.
fn offer_set(settings: &RateOfferSettings) -> OfferSettings
    ensures { result ≡ offer_set settings.now }
{
    OfferSettings {
        start: settings.start,
        least: settings.least,
        most: settings.most,
        wants: settings.wants,
    }
}

/// Returns an offer before the first packet.
pub fn offer_by(settings: &RateOfferSettings) -> RateOffer
    ensures { result ≡ new_offer (offer_set settings.now) }
{
    RateOffer::new(offer_set(settings))
}

/// Notes a packet that arrives now, with the 24 bits of its abs-send-time.
pub fn note_arrival(offer: &mut RateOffer, now: u64, abs_send_time: u32, size: u32)
    ensures { offer.new ≡ after_arrival now (micros_of (clock_with abs_send_time offer.old.clock)) size (record offer.old { clock = clock_with abs_send_time offer.old.clock }) }
{
    offer.arrived(Ticks(now), abs_send_time, size);
}

/// Notes a packet that arrives now, and was sent at this time of the publisher's clock.
pub fn note_arrival_by(offer: &mut RateOffer, now: u64, sent: u64, size: u32)
    ensures { offer.new ≡ after_arrival now sent size offer.old }
{
    offer.arrived_by(Ticks(now), sent, size);
}

/// Writes the rate to offer to the publisher, if one is due.
pub fn take_rate(offer: &mut RateOffer, now: u64, round_trip: u64, rate: &mut u64) -> u32
    ensures takes { TakesRate now round_trip offer.old result rate.old rate.new offer.new }
    ensures unchanged { result ≢ 0 → rate.new ≡ rate.old }
{
    match offer.take_due(Ticks(now), round_trip) {
        Some(due) => {
            *rate = due;
            status::OK
        }
        None => status::NONE,
    }
}
