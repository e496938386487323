//! Reports of RTCP (RFC 3550, section 6.4): what the sender reports say about the clock of a stream, and the blocks that
//! receiver reports have about its packets.

ghost use Rattle.std.specs.Prelude.{◌≡◌, ◌∷◌, ◌<◌, IfSome, []};
ghost use Rattle.codec_payload_rtcp.specs.RtcpValues.{packet_of, sender_of};
ghost use Rattle.codec_payload_session_stream.specs.Reports.{block_about, block_of, clock_of, clocked_if, clocked_where, delay_since, last_report, noted_where, ntp_at, ntp_ticks, reported_by, reported_if};
ghost use Rattle.codec_payload_session_stream.specs.Waking.{ssrcs_of};

use crate::stream::StreamState;
use codec_payload_base::wire::{Frequency, Ticks};
use codec_payload_index::ssrcs::Ssrcs;
use codec_payload_receiver::reports::ReceptionReport;
use codec_payload_rtcp::items::ReportBlock;
use codec_payload_rtcp::packet::{RtcpPacket, SenderReport};

/// The clock of a stream's sender, as its latest sender report states it (RFC 3550, section 6.4.1): one moment by the sender's
/// wall clock and as an RTP time.
#[derive(Clone, Copy, Debug, PartialEq, Eq)]
pub struct SenderClock {
    /// The NTP timestamp: seconds since 1900 in the upper 32 bits, modulo 2^32, and fractions of a second in the lower 32 bits.
    /// A sender without a wall clock may count from any other moment, or send 0.
    pub ntp_time: u64,
    /// The same moment as an RTP time of the stream.
    pub rtp_time: u32,
    /// When the report arrived, by your clock.
    pub arrived: Ticks,
}

impl SenderClock {
    /// Returns the NTP time of an RTP time of the stream, for example of [`Event::Unit`]: when the sender captured the unit.
    /// Units of several streams with one NTP time belong together (lip sync). Only the low 32 bits of `rtp_time` count: the
    /// time is the nearest one to the report, 6.6 hours at most before or after it at 90 kHz. `clock_rate` is the rate of the
    /// stream's format.
    ///
    /// [`Event::Unit`]: crate::events::Event::Unit
    pub fn ntp_at(self, rtp_time: u64, clock_rate: Frequency) -> u64
        ensures { result ≡ ntp_at self rtp_time clock_rate }
    {
        let time = (rtp_time % (1 << 32)) as u32;
        let after = time.wrapping_sub(self.rtp_time);
        if after < 1 << 31 {
            return self.ntp_time.wrapping_add(ntp_ticks(after, clock_rate));
        }
        let before = self.rtp_time.wrapping_sub(time);
        self.ntp_time.wrapping_sub(ntp_ticks(before, clock_rate))
    }
}

impl StreamState {
    /// Returns the report block about the stream's sender, as of `now`. `None`: no packet arrived. The next report starts its
    /// fraction here.
    pub fn report(&mut self, now: Ticks, tick_rate: Frequency) -> Option<ReportBlock>
        ensures value { result ≡ block_of tick_rate now.0 self.old }
        ensures after { self.new ≡ reported_by self.old }
        ensures fits { IfSome result (λ block. block.cumulative_lost < 16777216) }
    {
        match self.receiver.report() {
            Some(report) => Some(block_about(self.ssrc, self.sender_clock, report, now, tick_rate)),
            None => None,
        }
    }

    /// Returns the block that a report about the stream's sender has now, and changes nothing.
    pub fn peek_report(&self, now: Ticks, tick_rate: Frequency) -> Option<ReportBlock>
        ensures value { result ≡ block_of tick_rate now.0 self.now }
        ensures fits { IfSome result (λ block. block.cumulative_lost < 16777216) }
    {
        match self.receiver.inner().peek_report() {
            Some(report) => Some(block_about(self.ssrc, self.sender_clock, report, now, tick_rate)),
            None => None,
        }
    }

    /// Starts the fraction of the next report here, if the stream is reported now. In a new round no other stream was reported.
    pub fn start_fraction(&mut self, is_reported: bool, is_new: bool)
        ensures { self.new ≡ reported_if is_reported is_new self.old }
    {
        if is_reported {
            self.receiver.report();
            self.was_reported = true;
        } else {
            self.was_reported = !is_new && self.was_reported;
        }
    }

    /// Replaces the clock of the sender, if it has this SSRC.
    fn set_clock_if(&mut self, ssrc: u32, clock: SenderClock)
        ensures { self.new ≡ clocked_if ssrc clock self.old }
    {
        if self.ssrc == ssrc {
            self.sender_clock = Some(clock);
        }
    }
}

/// Notes the packet if it is a sender report: it states the clock of the streams of its SSRC. It arrived at `now`.
#[inline(always)]
pub fn note_packet(streams: &mut [StreamState], ssrcs: &Ssrcs, now: Ticks, packet: &RtcpPacket<'_>)
    requires { ssrcs.now ≡ ssrcs_of streams.old }
    ensures { streams.new ≡ noted_where now (packet_of packet.now ∷ []) streams.old }
{
    if let RtcpPacket::SenderReport(report) = packet {
        set_clocks(streams, ssrcs, report.ssrc, clock_of(now, report));
    }
}

/// Replaces the clock of all streams of this SSRC, by the list of the SSRCs of the streams.
fn set_clocks(streams: &mut [StreamState], ssrcs: &Ssrcs, ssrc: u32, clock: SenderClock)
    requires { ssrcs.now ≡ ssrcs_of streams.old }
    ensures { streams.new ≡ clocked_where ssrc clock streams.old }
{
    let mut from = 0;
    while let Some(place) = ssrcs.find(ssrc, from) {
        streams[place].set_clock_if(ssrc, clock);
        from = place + 1;
    }
}

/// Returns the clock that the sender report states, which arrived at `now`.
fn clock_of(now: Ticks, report: &SenderReport<'_>) -> SenderClock
    ensures { result ≡ clock_of now (sender_of report.now) }
{
    SenderClock {
        ntp_time: u64::from(report.ntp_seconds) * 4_294_967_296 + u64::from(report.ntp_fraction),
        rtp_time: report.rtp_time,
        arrived: now,
    }
}

/// Returns the report block about the sender of this SSRC with this clock.
pub(crate) fn block_about(
    ssrc: u32,
    clock: Option<SenderClock>,
    report: ReceptionReport,
    now: Ticks,
    tick_rate: Frequency,
) -> ReportBlock
    ensures value { result ≡ block_about ssrc clock tick_rate now.0 report }
    ensures fits { result.cumulative_lost < 16777216 }
{
    ReportBlock {
        ssrc,
        fraction_lost: report.fraction_lost,
        // 24 bits in two's complement.
        cumulative_lost: report.cumulative_lost.cast_unsigned() % 16_777_216,
        highest_sequence_number: report.highest,
        jitter: report.jitter,
        last_sender_report: last_report(clock),
        delay_since_sender_report: delay_since(clock, now, tick_rate),
    }
}

/// Returns the middle 32 bits of the NTP time of the latest sender report, or 0 without one.
fn last_report(clock: Option<SenderClock>) -> u32
    ensures { result ≡ last_report clock }
{
    match clock {
        Some(clock) => (clock.ntp_time / 65_536 % (1 << 32)) as u32,
        None => 0,
    }
}

/// Returns the delay since the latest sender report in 1/65,536 s, or 0 without one. A longer delay than 32 bits hold (18
/// hours) is given as their largest.
fn delay_since(clock: Option<SenderClock>, now: Ticks, tick_rate: Frequency) -> u32
    ensures { result ≡ delay_since clock tick_rate now.0 }
{
    let Some(clock) = clock else {
        return 0;
    };
    let ticks = u128::from(now.0.saturating_sub(clock.arrived.0));
    let delay = ticks * 65_536 / u128::from(tick_rate.get());
    delay.min(4_294_967_295) as u32
}

/// Converts ticks of an RTP clock to NTP time, in 2^-32 s, rounded down.
fn ntp_ticks(ticks: u32, clock_rate: Frequency) -> u64
    ensures { result ≡ ntp_ticks ticks clock_rate }
{
    u64::from(ticks) * 4_294_967_296 / u64::from(clock_rate.get())
}
