//! The fields of a receiver report about the packets of one sender (RFC 3550, sections 6.4.1, A.3 and A.8).

ghost use Rattle.std.specs.Prelude.{◌≡◌, ◌≤◌, ◌^◌};
ghost use Rattle.codec_payload_numbers.specs.Reports.{arrival_of, begun, distance, expected_of, fraction_of, gone_on, highest_of, jitter_after, lost_of, no_reception, observed, reception_anew, reception_since, report_of, reported, transit_change};

use crate::numbers::{Extended, SequenceNumbers};
use codec_payload_base::wire::{Frequency, MediaTime, Ticks};
use std::marker::Model;

/// The fields of a report block about the packets of one sender.
#[derive(Clone, Copy, Debug, PartialEq, Eq)]
pub struct ReceptionReport {
    /// Lost packets since the previous report, in 1/256 of the packets that were expected since then, rounded down. 0 if as
    /// many arrived, or more, since repeated packets count.
    pub fraction_lost: u8,
    /// Lost packets in total: -8,388,608 to 8,388,607, a signed 24-bit value. Negative if packets arrived more than once.
    pub cumulative_lost: i32,
    /// The highest sequence number in the low 16 bits, and above it the number of wraps since the first packet.
    pub highest: u32,
    /// The interarrival jitter, in ticks of the RTP clock.
    pub jitter: u32,
}

/// Counts the packets of one sender as they arrive, for receiver reports. Allocates nothing.
///
/// A packet whose number is suspect is not counted, until a restart is detected. Then everything except the jitter starts
/// again, with the packet that confirms the restart (RFC 3550, section A.1).
#[derive(Clone, Copy, Debug)]
pub struct ReceptionStatistics {
    numbers: SequenceNumbers,
    /// Ticks per second of your clock.
    tick_rate: Frequency,
    clock_rate: Frequency,
    /// The number of the first packet since the latest restart.
    first: u64,
    /// How many packets arrived since then.
    received: u64,
    /// How many packets were expected, and how many had arrived, at the previous report.
    expected_before: u64,
    received_before: u64,
    /// The transit time of the latest packet: its arrival minus its RTP time, in ticks of the RTP clock, modulo 2^32.
    transit: Option<u32>,
    /// Sixteen times the jitter.
    jitter: u64,
}

impl Model for ReceptionStatistics {
    ghost use Rattle.std.specs.Prelude.{◌≤◌, ◌^◌};
    ghost use Rattle.codec_payload_numbers.specs.Reports.{Reception};

    ghost Value = { Reception };

    ghost view = { λ r. record {
      numbering = r.numbers;
      tick_rate = r.tick_rate;
      rate = r.clock_rate;
      first = r.first;
      received = r.received;
      expected_before = r.expected_before;
      received_before = r.received_before;
      transit = r.transit;
      jitter = r.jitter;
    } };

    ghost inverse = { λ r. record {
      numbers = r.numbering;
      tick_rate = r.tick_rate;
      clock_rate = r.rate;
      first = r.first;
      received = r.received;
      expected_before = r.expected_before;
      received_before = r.received_before;
      transit = r.transit;
      jitter = r.jitter;
    } };

    ghost invariant = { λ r. r.jitter ≤ 2 ^ 35 };
}

impl ReceptionStatistics {
    /// Creates the statistics before the first packet. `tick_rate` is in ticks of your clock per second, `clock_rate` in ticks
    /// of the RTP clock per second.
    pub fn over(
        numbers: SequenceNumbers,
        tick_rate: Frequency,
        clock_rate: Frequency,
    ) -> ReceptionStatistics
        ensures { result ≡ no_reception numbers tick_rate clock_rate }
    {
        ReceptionStatistics {
            numbers,
            tick_rate,
            clock_rate,
            first: 0,
            received: 0,
            expected_before: 0,
            received_before: 0,
            transit: None,
            jitter: 0,
        }
    }

    /// Returns the statistics for the same clocks and windows, before the first packet.
    pub fn anew(&self) -> ReceptionStatistics
        ensures { result ≡ reception_anew self.now }
    {
        ReceptionStatistics::over(self.numbers.anew(), self.tick_rate, self.clock_rate)
    }

    /// Begins again if the sender has restarted. The next packet is the first one then.
    #[inline(always)]
    pub fn begin_if(&mut self, has_restarted: bool)
        ensures { self.new ≡ reception_since has_restarted self.old }
    {
        if has_restarted {
            *self = self.anew();
        }
    }

    /// Counts a packet with this number and RTP time that arrived at `now`.
    #[inline(always)]
    pub fn observe(&mut self, now: Ticks, number: u16, timestamp: u32)
        ensures { self.new ≡ observed self.old now.0 number timestamp }
    {
        let is_first = self.numbers.greatest().is_none();
        let answer = self.numbers.number(number);
        let transit = self.arrival_of(now).wrapping_sub(timestamp);
        match answer {
            Extended::Number(number) if is_first => self.begin(number, transit),
            Extended::Number(_) => self.go_on(transit),
            Extended::Restarted(number) => self.begin(number, transit),
            Extended::Suspect | Extended::Spent => {}
        }
    }

    /// Returns the fields of a report now, or `None` if no packet arrived. The next report starts its fraction here.
    pub fn report(&mut self) -> Option<ReceptionReport>
        ensures value { result ≡ report_of self.old }
        ensures after { self.new ≡ reported self.old }
    {
        let greatest = self.numbers.greatest()?;
        let expected = expected_of(greatest, self.first);
        let expected_since = expected.saturating_sub(self.expected_before);
        let received_since = self.received.saturating_sub(self.received_before);
        let report = ReceptionReport {
            fraction_lost: fraction_of(expected_since, received_since),
            cumulative_lost: lost_of(expected, self.received),
            highest: highest_of(greatest, self.first),
            jitter: (self.jitter / 16) as u32,
        };
        self.expected_before = expected;
        self.received_before = self.received;
        Some(report)
    }

    /// Returns how much the transit time of a packet differs from the transit time of the latest packet.
    pub fn transit_change(&self, now: Ticks, rtp_time: u32) -> Option<u32>
        ensures { result ≡ transit_change self.now now.0 rtp_time }
    {
        let transit = self.arrival_of(now).wrapping_sub(rtp_time);
        match self.transit {
            Some(latest) => Some(distance(latest, transit)),
            None => None,
        }
    }

    /// Converts a time of your clock to the RTP clock, modulo 2^32.
    #[inline(always)]
    fn arrival_of(&self, now: Ticks) -> u32
        ensures { result ≡ arrival_of self.now now.0 }
    {
        let time = MediaTime::new(now.0, self.tick_rate).rebase(self.clock_rate);
        (time.numer() % (1 << 32)) as u32
    }

    /// Starts again with this number.
    fn begin(&mut self, number: u64, transit: u32)
        ensures { self.new ≡ begun self.old number transit }
    {
        self.first = number;
        self.received = 1;
        self.expected_before = 0;
        self.received_before = 0;
        self.transit = Some(transit);
    }

    /// Counts one more packet.
    #[inline(always)]
    fn go_on(&mut self, transit: u32)
        ensures { self.new ≡ gone_on self.old transit }
    {
        self.jitter = jitter_after(self.jitter, self.transit, transit);
        self.received = self.received.wrapping_add(1);
        self.transit = Some(transit);
    }
}

/// Returns the distance between two 32-bit times, the shorter way round.
#[inline(always)]
fn distance(before: u32, after: u32) -> u32
    ensures value { result ≡ distance before after }
    ensures short { result ≤ 2 ^ 31 }
{
    after.wrapping_sub(before).min(before.wrapping_sub(after))
}

/// Returns sixteen times the jitter after a packet with this difference of transit times. A sixteenth of the change is added,
/// rounded as in RFC 3550.
#[inline(always)]
fn jitter_after(jitter: u64, before: Option<u32>, transit: u32) -> u64
    requires { jitter ≤ 2 ^ 35 }
    ensures value { result ≡ jitter_after jitter before transit }
    ensures small { result ≤ 2 ^ 35 }
{
    match before {
        Some(before) => jitter + u64::from(distance(before, transit)) - (jitter + 8) / 16,
        None => jitter,
    }
}

/// Returns the number of expected packets, from the first number to the highest, modulo 2^64.
fn expected_of(greatest: u64, first: u64) -> u64
    ensures { result ≡ expected_of greatest first }
{
    greatest.saturating_sub(first).wrapping_add(1)
}

/// Returns the lost packets in 1/256 of the expected packets.
fn fraction_of(expected: u64, received: u64) -> u8
    ensures { result ≡ fraction_of expected received }
{
    let lost = expected.saturating_sub(received);
    if expected == 0 {
        return 0;
    }
    (u128::from(lost) * 256 / u128::from(expected)).min(255) as u8
}

/// Returns the number of lost packets, limited to 24 bits.
fn lost_of(expected: u64, received: u64) -> i32
    ensures { result ≡ lost_of expected received }
{
    if received <= expected {
        (expected - received).min(8_388_607) as i32
    } else {
        -((received - expected).min(8_388_608) as i32)
    }
}

/// Returns the highest number, and the number of wraps since the first packet.
fn highest_of(greatest: u64, first: u64) -> u32
    ensures { result ≡ highest_of greatest first }
{
    (greatest.saturating_sub(first - first % 65_536) % (1 << 32)) as u32
}
