//! A reporter of the arrivals of a transport, for the congestion control of its sender.

ghost use Rattle.std.specs.Prelude.{◌≡◌, ◌≢◌, Bool, IfErr, IfOk};
ghost use Rattle.codec_payload_feedback.specs.Transport.{due_at};
ghost use Rattle.codec_payload_handle.specs.Refusals.{RefusesSettings};
ghost use Rattle.codec_payload_handle.specs.Numbers.{at_once_if};
ghost use Rattle.codec_payload_c_packets.specs.TransportReporters.{Finds, HandsOver, IsNewReporter, NotesDatagram, PollsPacket, is_in_range, quarters_at, settings_given};

use codec_payload_base::wire::{Frequency, Ticks};
use codec_payload_feedback::requests::FeedbackSource;
use codec_payload_feedback::transport::{TransportReporter, TransportSettings};
use codec_payload_handle::bytes::fill;
use codec_payload_handle::object::PeerReporter;
use codec_payload_handle::status;
use std::alloc::{AllocError, Global};

/// How the arrivals of a transport are reported.
#[repr(C)]
#[derive(Clone, Copy)]
pub struct TransportReporterSettings {
    /// The number of ticks between two feedbacks; 0 counts as 1.
    pub interval: u64,
    /// The largest number of bytes of the control information of a feedback.
    pub size: usize,
    /// How many numbers are remembered, 1 to 32,768.
    pub window: usize,
    /// Ticks per second of your clock, above 0.
    pub tick_rate: u32,
    /// The SSRC of the reporter as a sender of RTCP.
    pub ssrc: u32,
    /// The id of the header extension with the transport-wide number, 1 to 255.
    pub extension_id: u8,
    /// Whether each packet begins with an empty receiver report and the name.
    pub has_report: bool,
}

/// Converts the settings of C.
fn settings_of(settings: &TransportReporterSettings) -> TransportSettings
    ensures { result ≡ settings_given settings.now }
{
    TransportSettings {
        extension_id: settings.extension_id,
        interval: settings.interval,
        size: settings.size,
        window: settings.window,
    }
}

/// Returns whether the settings and the name are in range.
fn is_in_range(settings: &TransportReporterSettings, cname: &[u8]) -> bool
    ensures { result ≡ is_in_range settings.now cname.now }
{
    settings.tick_rate > 0
        && settings.extension_id > 0
        && settings.window > 0
        && settings.window <= 32_768
        && cname.len() <= 255
}

/// Creates a reporter with these settings and this name, if they are in range.
pub fn reporter_by(
    alloc: Global,
    settings: &TransportReporterSettings,
    cname: &[u8],
) -> Result<PeerReporter, u32>
    ensures ok { IfOk result (λ r. IsNewReporter settings.now cname.now r × (is_in_range settings.now cname.now ≡ Bool.true)) }
    ensures err { IfErr result (λ status. RefusesSettings (is_in_range settings.now cname.now) status) }
{
    if !is_in_range(settings, cname) {
        return Err(status::INVALID);
    }
    let Some(tick_rate) = Frequency::make(settings.tick_rate) else {
        return Err(status::INVALID);
    };
    let Ok(reporter) = TransportReporter::new(alloc, settings_of(settings)) else {
        return Err(status::INVALID);
    };
    let Ok(name) = Vec::from_slice(alloc, cname) else {
        return Err(status::OUT_OF_MEMORY);
    };
    match FeedbackSource::new(alloc, settings.ssrc, name, settings.has_report) {
        Some(source) => Ok(PeerReporter {
            reporter,
            source,
            tick_rate,
            waiting: None,
        }),
        None => Err(status::INVALID),
    }
}

/// Converts a time of the caller's clock to quarters of a millisecond, modulo 2^32.
fn quarters_at(now: u64, tick_rate: Frequency) -> u32
    ensures { result ≡ quarters_at now tick_rate }
{
    (u128::from(now) * 4_000 / u128::from(tick_rate.get()) % 4_294_967_296) as u32
}

/// Records the arrival of a datagram.
pub fn receive(peer: &mut PeerReporter, now: u64, datagram: &[u8]) -> u32
    ensures { NotesDatagram now datagram.now peer.old result peer.new }
{
    let time = quarters_at(now, peer.tick_rate);
    match peer.reporter.receive(time, datagram) {
        Ok(()) => status::OK,
        Err(_) => status::OUT_OF_MEMORY,
    }
}

/// Returns the packet that waits for a larger output buffer, or else the packet that is due.
fn next_packet(peer: &mut PeerReporter, now: u64) -> Result<Option<Vec<u8>>, AllocError>
    ensures { Finds now peer.old result peer.new }
{
    match peer.waiting.take() {
        Some(packet) => Ok(Some(packet)),
        None => peer.reporter.take_due(Ticks(now), &peer.source),
    }
}

/// Writes a packet to the output buffer. If that is too small, the packet waits.
fn hand_over(peer: &mut PeerReporter, packet: Vec<u8>, bytes: &mut [u8], size: &mut usize) -> u32
    ensures { HandsOver packet result (record { before = bytes.old; bytes = bytes.new; size_before = size.old; size = size.new }) peer.old peer.new }
{
    *size = packet.len();
    if !fill(bytes, &packet) {
        peer.waiting = Some(packet);
        return status::TOO_SMALL;
    }
    status::OK
}

/// Writes the packet that is due to the output buffer.
pub fn poll(peer: &mut PeerReporter, now: u64, bytes: &mut [u8], size: &mut usize) -> u32
    ensures polls { PollsPacket now peer.old result (record { before = bytes.old; bytes = bytes.new; size_before = size.old; size = size.new }) peer.new }
    ensures untouched { result ≢ 0 → bytes.new ≡ bytes.old }
    ensures unchanged { result ≢ 0 → result ≢ 33 → size.new ≡ size.old }
{
    match next_packet(peer, now) {
        Ok(Some(packet)) => hand_over(peer, packet, bytes, size),
        Ok(None) => status::NONE,
        Err(_) => status::OUT_OF_MEMORY,
    }
}

/// Returns when the next packet is due: at once if one waits for a larger output buffer.
pub fn next_poll(peer: &PeerReporter) -> Option<u64>
    ensures { result ≡ at_once_if peer.now.waiting (due_at peer.now.reporter) }
{
    if peer.waiting.is_some() {
        return Some(0);
    }
    match peer.reporter.next_deadline() {
        Some(at) => Some(at.0),
        None => None,
    }
}
