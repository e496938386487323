//! Reports on telephone events as bytes (RFC 4733, section 2.3).

ghost use Rattle.std.specs.Prelude.{◌≡◌, ◌<◌, SomeIff, IfSome, IsNone, ◌↔◌, Some, false};
ghost use Rattle.codec_payload_base.specs.TelephoneReport.{nanoseconds_of, units_of, report_of, bytes_of_report, reports_of, are_reports, without_reserved};

use crate::interface::TelephoneEvent;
use crate::wire::Frequency;
use std::marker::Model;

/// The length of a report in bytes (RFC 4733, section 2.3).
pub const REPORT_SIZE: usize = 4;

/// The duration of `units` ticks of a clock of this rate, in nanoseconds, rounded to the nearest.
pub fn duration_from_units(units: u16, rate: Frequency) -> u64
    ensures value { result ≡ nanoseconds_of units rate }
    ensures rated { 0 < rate }
{
    let rate = u64::from(rate.get());
    (u64::from(units) * 1_000_000_000 + rate / 2) / rate
}

/// The number of clock ticks in `nanoseconds`, rounded to the nearest; `None` if it does not fit 16 bits.
fn units_from_duration(nanoseconds: u64, rate: Frequency) -> Option<u16>
    ensures { SomeIff result (units_of nanoseconds rate < 65536) (units_of nanoseconds rate) }
{
    let scaled = u128::from(nanoseconds) * u128::from(rate.get());
    u16::try_from((scaled + 500_000_000) / 1_000_000_000).ok()
}

impl TelephoneEvent {
    /// The report in the first four bytes; `None` if there are fewer. Later bytes are ignored. The reserved bit may have any value.
    ///
    /// Written again at the same rate, a report gives its bytes back with the reserved bit clear, if the rate is below
    /// 1,000,000,000 Hz.
    pub fn parse(buf: &[u8], rate: Frequency) -> Option<Self>
        ensures value { result ≡ report_of buf.now rate }
        ensures written { rate < 1000000000 → IfSome result (λ e. bytes_of_report e rate ≡ Some (without_reserved buf.now)) }
    {
        let [event, flags, high, low, ..] = *buf else {
            return None;
        };
        Some(TelephoneEvent {
            event,
            end: flags & 0x80 != 0,
            volume: flags & 0x3f,
            duration: duration_from_units(u16::from_be_bytes([high, low]), rate),
        })
    }

    /// The reports of a payload, in order; `None` unless it consists of one or more whole reports. A sender may put several into
    /// one packet (RFC 4733, section 2.5.1.5). A depacketizer reports only the first; call this for the others.
    pub fn parse_all<'a>(buf: &'a [u8], rate: Frequency) -> Option<TelephoneEvents<'a>>
        ensures none { IsNone result ↔ (are_reports buf.now ≡ false) }
        ensures all { IfSome result (λ events. events ≡ reports_of buf.now rate) }
    {
        if buf.is_empty() || buf.len() % REPORT_SIZE != 0 {
            return None;
        }
        Some(TelephoneEvents { bytes: buf, rate })
    }

    /// The four bytes of the report; `None` if its duration exceeds 65,535 units of the clock. The reserved bit is clear, and the
    /// low six bits of the volume are written.
    pub fn to_bytes(&self, rate: Frequency) -> Option<[u8; 4]>
        ensures { result ≡ bytes_of_report self.now rate }
    {
        let [high, low] = units_from_duration(self.duration, rate)?.to_be_bytes();
        let end = if self.end { 0x80 } else { 0 };
        Some([self.event, end | (self.volume & 0x3f), high, low])
    }
}

/// The reports of a payload, in order. No step allocates.
#[derive(Debug, Drop)]
pub struct TelephoneEvents<'a> {
    bytes: &'a [u8],
    rate: Frequency,
}

impl<'a> Model for TelephoneEvents<'a> {
    ghost use Rattle.std.specs.Prelude.{List};
    ghost use Rattle.codec_payload_base.specs.TelephoneReport.{reports_of};
    ghost use Rattle.codec_payload_base.specs.declared.interface.TelephoneEvent.{TelephoneEvent as Event};

    ghost Value = { List Event };

    ghost view = { λ s. reports_of s.bytes.now s.rate };
}

impl<'a> Iterator for TelephoneEvents<'a> {
    ghost use Rattle.std.specs.Iterator.{YieldsFirst, item_count};

    type Item = TelephoneEvent;

    ghost next_gives = { YieldsFirst (λ events. events) };

    ghost remaining = { item_count (λ events. events) };

    fn next(&mut self) -> Option<TelephoneEvent> {
        let event = TelephoneEvent::parse(self.bytes, self.rate)?;
        self.bytes = &self.bytes[REPORT_SIZE..];
        Some(event)
    }
}
