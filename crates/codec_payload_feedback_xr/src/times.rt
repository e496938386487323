//! Times of extended reports, and the round trip that an answer gives.

ghost use Rattle.std.specs.Prelude.{◌≡◌};
ghost use Rattle.codec_payload_feedback_xr.specs.RoundTrip.{middle_bits, ntp_time, round_trip, ticks_of};

use codec_payload_base::wire::{Frequency, Ticks};

/// Returns the NTP timestamp of a moment, in units of 1/2^32 seconds since the zero of its clock, rounded down; of a number of more than
/// 64 bits, the low 64. `tick_rate` is the rate of the clock.
pub fn ntp_time(now: Ticks, tick_rate: Frequency) -> u64
    ensures { result ≡ ntp_time now.0 tick_rate }
{
    let rate = u64::from(tick_rate.get());
    let seconds = now.0 / rate % 4_294_967_296;
    let fraction = now.0 % rate * 4_294_967_296 / rate;
    seconds * 4_294_967_296 + fraction
}

/// Returns the middle 32 bits of an NTP timestamp, in units of 1/65,536 seconds.
pub fn middle_bits(ntp_time: u64) -> u32
    ensures { result ≡ middle_bits ntp_time }
{
    (ntp_time / 65_536 % 4_294_967_296) as u32
}

/// Returns the round trip that an answer gives, in units of 1/65,536 seconds: now - LRR - DLRR, modulo 2^32. `now` is the middle 32 bits
/// of the NTP timestamp of the moment when the answer came, by the clock of the reference time.
///
/// `None` if `last_rr` is 0, since the sender had no reference time; and if the result is above 60 seconds. Down to 100 ms below 0 it is
/// 0, as the clocks have a grain; further below it is `None`.
pub fn round_trip(now: u32, last_rr: u32, delay: u32) -> Option<u32>
    ensures { result ≡ round_trip now last_rr delay }
{
    if last_rr == 0 {
        return None;
    }
    let trip = now.wrapping_sub(last_rr).wrapping_sub(delay);
    if trip <= 3_932_160 {
        return Some(trip);
    }
    if trip >= 4_294_960_743 {
        return Some(0);
    }
    None
}

/// Returns a round trip of so many units of 1/65,536 seconds in ticks, rounded to the nearest. `tick_rate` is the rate of the clock.
pub fn ticks_of(round_trip: u32, tick_rate: Frequency) -> u64
    ensures { result ≡ ticks_of round_trip tick_rate }
{
    (u64::from(round_trip) * u64::from(tick_rate.get()) + 32_768) / 65_536
}
