//! Feedback about the arrival of each packet of a transport, for the congestion control of its sender.

ghost use Rattle.std.specs.Prelude.{◌≡◌, ◌+◌, ◌<◌, ◌≤◌, max, min, IfOk, OnErr, OnOk};
ghost use Rattle.std.specs.Option.{option_map};
ghost use Rattle.codec_payload_feedback_requests.specs.Requests.{has_come};
ghost use Rattle.codec_payload_rtp.specs.ExtensionFormats.{elements_of};
ghost use Rattle.codec_payload_rtp.specs.RtpValues.{extension_of, packet_of};
ghost use Rattle.codec_payload_feedback.specs.Transport.{IsTransportFeedback, due_at, live_transport, most_of, noted, noted_packet, number_in, quarters_at, reporter_by, restarted};

use crate::requests::FeedbackSource;
use codec_payload_base::wire::{Frequency, Ticks};
use codec_payload_feedback_congestion::arrivals::{ArrivalLog, ArrivalLogError};
use codec_payload_feedback_congestion::report::{append_report, most_reported};
use codec_payload_rtp::rtp::{HeaderExtension, RtpPacket};
use codec_payload_rtp::values::extension_value;
use std::alloc::{AllocError, Global};
use std::marker::Model;

/// How the arrivals of a transport are reported.
#[derive(Clone, Copy, Debug, PartialEq, Eq)]
pub struct TransportSettings {
    /// The id of the header extension that has the transport-wide number (`a=extmap` with
    /// `http://www.ietf.org/id/draft-holmer-rmcat-transport-wide-cc-extensions-01`): 1 to 255.
    pub extension_id: u8,
    /// The number of ticks between two feedbacks: 50 to 250 ms suit video. 0 counts as 1.
    pub interval: u64,
    /// The largest number of bytes of the control information of a feedback: 1,100 fit in a datagram with all else.
    pub size: usize,
    /// How many numbers are remembered, 1 to 32,768: 8 bytes each. A late packet is reported, and all numbers after it again, if its
    /// number is among them. 500 ms of packets suit: 2,048 are 16 kB.
    pub window: usize,
}

/// Reports when each packet of a transport arrived, as congestion control needs it (transport-wide-cc,
/// draft-holmer-rmcat-transport-wide-cc-extensions-01). It is for one transport, that is one peer: the numbers count all packets that
/// this peer sends.
///
/// Hand it each datagram by [`TransportReporter::receive`], whatever it carries: media, retransmissions, padding. Send what
/// [`TransportReporter::take_due`] returns; call it until `None` after each datagram and at [`TransportReporter::next_deadline`].
#[derive(Debug, Drop)]
pub struct TransportReporter {
    alloc: Global,
    settings: TransportSettings,
    log: ArrivalLog,
    /// The number of the next feedback, modulo 256.
    counter: u8,
    /// The SSRC of the last packet with a number.
    media_ssrc: u32,
    /// When the last feedback was sent that left nothing unreported.
    sent: Option<u64>,
}

impl Model for TransportReporter {
    ghost use Rattle.codec_payload_feedback.specs.Transport.{Reporter};

    ghost Value = { Reporter };

    ghost view = { λ r. record { settings = r.settings; log = r.log; counter = r.counter; media_ssrc = r.media_ssrc; sent = r.sent } };
}

/// Returns the transport-wide number in the extension of a packet: the value of the first element with this id, if it has 2 bytes.
fn number_in(id: u8, extension: &Option<HeaderExtension<'_>>) -> Option<u16>
    ensures { result ≡ number_in id (elements_of (extension_of extension.now)) }
{
    match extension_value(id, extension) {
        Some([high, low]) => Some(u16::from_be_bytes([*high, *low])),
        _ => None,
    }
}

/// Returns whether the moment has come.
fn has_come(at: Option<Ticks>, now: Ticks) -> bool
    ensures { result ≡ has_come (option_map (λ at. at.0) at) now.0 }
{
    match at {
        Some(at) => at.0 <= now.0,
        None => false,
    }
}

/// Returns how many numbers one feedback reports at most: at least one, whatever its size.
fn most_of(size: usize) -> usize
    ensures { result ≡ most_of size }
{
    most_reported(size).max(1)
}

/// Returns a time of your clock in quarters of a millisecond, rounded down, modulo 2^32.
pub fn quarters_at(now: Ticks, tick_rate: Frequency) -> u32
    ensures { result ≡ quarters_at now.0 tick_rate }
{
    match now.0.checked_mul(4_000) {
        Some(thousandths) => (thousandths / u64::from(tick_rate.get()) % 4_294_967_296) as u32,
        None => { (u128::from(now.0) * 4_000 / u128::from(tick_rate.get()) % 4_294_967_296) as u32 }
    }
}

impl TransportSettings {
    /// Returns settings for a clock in milliseconds: a feedback each 100 ms with at most 1,100 bytes of control information, and
    /// 2,048 numbers. `extension_id` is the id of the header extension with the transport-wide number, 1 to 255.
    pub fn live(extension_id: u8) -> TransportSettings
        ensures { result ≡ live_transport extension_id }
    {
        TransportSettings {
            extension_id,
            interval: 100,
            size: 1_100,
            window: 2_048,
        }
    }
}

impl TransportReporter {
    /// Returns a reporter to which nothing arrived. Does not allocate.
    ///
    /// # Errors
    ///
    /// The window is out of range.
    pub fn new(
        alloc: Global,
        settings: TransportSettings,
    ) -> Result<TransportReporter, ArrivalLogError>
        ensures { result ≡ reporter_by settings }
    {
        let log = ArrivalLog::new(alloc, settings.window)?;
        Ok(TransportReporter {
            alloc,
            settings,
            log,
            counter: 0,
            media_ssrc: 0,
            sent: None,
        })
    }

    /// Records the arrival of a datagram at `time`, in quarters of a millisecond modulo 2^32
    /// ([`quarters`](codec_payload_feedback_congestion::arrivals::quarters)). A datagram that is no RTP packet, or that has no number, changes
    /// nothing. The first time of a number counts, and a number before the window is ignored
    /// ([`ArrivalLog::arrived`](codec_payload_feedback_congestion::arrivals::ArrivalLog::arrived)).
    ///
    /// # Errors
    ///
    /// Out of memory: nothing changed.
    pub fn receive(&mut self, time: u32, datagram: &[u8]) -> Result<(), AllocError>
        ensures ok { OnOk result (self.new ≡ noted time datagram.now self.old) }
        ensures err { OnErr result (self.new ≡ self.old) }
    {
        match RtpPacket::parse(datagram) {
            Ok(packet) => self.receive_packet(time, &packet),
            Err(_) => Ok(()),
        }
    }

    /// Does the same for an RTP packet that was read.
    ///
    /// # Errors
    ///
    /// Out of memory: nothing changed.
    pub fn receive_packet(&mut self, time: u32, packet: &RtpPacket<'_>) -> Result<(), AllocError>
        ensures ok { OnOk result (self.new ≡ noted_packet time (packet_of packet.now) self.old) }
        ensures err { OnErr result (self.new ≡ self.old) }
    {
        let Some(number) = number_in(self.settings.extension_id, &packet.header.extension) else {
            return Ok(());
        };
        self.log.arrived(number, time)?;
        self.media_ssrc = packet.header.ssrc;
        Ok(())
    }

    /// Returns when the next feedback is due: `interval` after the last one, or at once if there was none or if it left something
    /// unreported. `None`: everything is reported.
    pub fn next_deadline(&self) -> Option<Ticks>
        ensures { option_map (λ at. at.0) result ≡ due_at self.now }
    {
        if !self.log.has_unreported() {
            return None;
        }
        match self.sent {
            None => Some(Ticks(0)),
            Some(at) => Some(Ticks(at.saturating_add(self.settings.interval.max(1)))),
        }
    }

    /// Returns a packet with the feedback that is due, and counts it as sent. If `source` sends compound packets, its report and its
    /// name come before the feedback. The media SSRC is that of the last packet with a number. `None`: nothing is due.
    ///
    /// # Errors
    ///
    /// Out of memory: nothing changed, and the feedback stays due.
    pub fn take_due(
        &mut self,
        now: Ticks,
        source: &FeedbackSource,
    ) -> Result<Option<Vec<u8>>, AllocError>
        ensures ok { IfOk result (λ packet. IsTransportFeedback source.now now.0 self.old (option_map (λ bytes. bytes.items) packet) self.new) }
        ensures err { OnErr result (self.new ≡ self.old) }
    {
        if !has_come(self.next_deadline(), now) {
            return Ok(None);
        }
        let most = most_of(self.settings.size);
        let mut control = Vec::new(self.alloc);
        let count = append_report(self.alloc, &self.log, self.counter, most, &mut control)?;
        let packet = source.transport_packet(self.media_ssrc, &control)?;
        self.log.mark_reported(count);
        self.counter = self.counter.wrapping_add(1);
        if !self.log.has_unreported() {
            self.sent = Some(now.0);
        }
        Ok(Some(packet))
    }

    /// Forgets all numbers: the peer begins again. Without this call, numbers behind the window are ignored until they pass the highest
    /// one.
    pub fn restart(&mut self)
        ensures { self.new ≡ restarted self.old }
    {
        self.log.clear();
        self.sent = None;
    }
}
