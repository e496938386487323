//! Senders: frames in, the datagrams of one stream out.

ghost use Rattle.std.specs.Prelude.{◌≡◌, slice_get, Bool, IfErr, IfOk};
ghost use Rattle.codec_payload_core.specs.Packetizers.{packetizer_state_of};
ghost use Rattle.codec_payload_core.specs.Extensions.{no_values};
ghost use Rattle.codec_payload_sending.specs.Datagrams.{sample_of};
ghost use Rattle.codec_payload_sending.specs.Senders.{sender_by};
ghost use Rattle.codec_payload_handle.specs.Refusals.{RefusesSettings};
ghost use Rattle.codec_payload_c_packets.specs.StreamSenders.{GivesDatagram, GivesWithTail, SendsFrame, SetsFormat, TellsCounts, is_in_range, refusal_status, reported_at, sample_with, settings_for};
ghost use Rattle.codec_payload_handle.specs.Settings.{packetizer_set};

use codec_payload_core::codec::CodecPacketizer;
use codec_payload_core::wire::{ExtensionValues as Values, Frequency, MediaTime};
use codec_payload_handle::bytes::fill;
use codec_payload_handle::extension_ids::{ExtensionIds, ids_of};
use codec_payload_handle::extension_values::ExtensionValues;
use codec_payload_handle::object::StreamSender;
use codec_payload_handle::settings::{Spec, packetizer_of};
use codec_payload_handle::status;
use codec_payload_sending::sender::{
    Sample as TimedFrame, Sender, SenderError, SenderSettings as Settings,
};
use std::alloc::Global;

/// The settings of a sender.
#[repr(C)]
#[derive(Drop)]
pub struct SenderSettings {
    pub spec: Spec,
    /// The largest number of bytes of a payload. The header is added to it: 12 bytes, and at most 304 bytes of an extension.
    pub mtu: usize,
    pub ssrc: u32,
    /// The sequence number of the first packet.
    pub first_number: u16,
    /// The payload type, 0 to 127.
    pub payload_type: u8,
    /// The ids of header extensions. Values without an id are not sent. All ids must differ.
    pub extension_ids: ExtensionIds,
}

/// The values that are sent with a frame.
#[repr(C)]
#[derive(Drop)]
pub struct Sample {
    /// The RTP time, in ticks of the RTP clock.
    pub rtp_time: u64,
    /// Whether the frame is the first after a silence.
    pub starts_talk_spurt: bool,
    pub values: ExtensionValues,
}

/// The fields of sender reports (RFC 3550, section 6.4.1).
#[repr(C)]
#[derive(Drop)]
pub struct SenderCountsInfo {
    /// Sent packets, modulo 2^32.
    pub packets: u32,
    /// Sent bytes of payload, modulo 2^32.
    pub octets: u32,
    /// The RTP time of the latest sent frame.
    pub rtp_time: u32,
    /// The sequence number of the next packet.
    pub next_number: u16,
    /// Whether a frame was sent.
    pub has_rtp_time: bool,
}

/// The fields of a sender report (RFC 3550, section 6.4.1), except its NTP time.
#[repr(C)]
#[derive(Drop)]
pub struct SenderReportInfo {
    pub ssrc: u32,
    /// The RTP time of the moment that was given.
    pub rtp_time: u32,
    /// How many packets were sent, modulo 2^32.
    pub packets: u32,
    /// How many bytes of payload, modulo 2^32.
    pub octets: u32,
}

/// Converts the settings of C.
fn settings_of(settings: &SenderSettings, clock_rate: Frequency) -> Settings
    requires { clock_rate ≡ settings.now.spec.rate }
    ensures { result ≡ settings_for settings.now }
{
    Settings {
        ssrc: settings.ssrc,
        payload_type: settings.payload_type,
        first_number: settings.first_number,
        clock_rate,
        mtu: settings.mtu,
        tailroom: 0,
        extension_ids: ids_of(settings.extension_ids),
    }
}

/// Makes a frame with its time, and values of header extensions.
pub fn timed<'a>(
    stream: &StreamSender,
    rtp_time: u64,
    starts_talk_spurt: bool,
    values: Values,
    frame: &'a [u8],
) -> TimedFrame<'a>
    ensures { sample_of result ≡ sample_with stream.now rtp_time starts_talk_spurt values frame.now }
{
    TimedFrame {
        rtp_time: MediaTime::new(rtp_time, stream.rate),
        bytes: frame,
        start_of_talk_spurt: starts_talk_spurt,
        ext_vals: values,
    }
}

/// Makes a frame with its time, without values of header extensions.
pub fn timed_alone<'a>(
    stream: &StreamSender,
    rtp_time: u64,
    starts_talk_spurt: bool,
    frame: &'a [u8],
) -> TimedFrame<'a>
    ensures { sample_of result ≡ sample_with stream.now rtp_time starts_talk_spurt no_values frame.now }
{
    let values = Values::default();
    timed(stream, rtp_time, starts_talk_spurt, values, frame)
}

/// Packetizes a frame.
pub fn send(stream: &mut StreamSender, sample: &TimedFrame<'_>, count: &mut usize) -> u32
    ensures { SendsFrame stream.old (sample_of sample.now) result count.old count.new stream.new }
{
    match stream.sender.send(sample) {
        Ok(()) => {
            *count = stream.sender.len();
            status::OK
        }
        Err(fault) => u32::from(fault.number()),
    }
}

/// Writes the datagram at a place to the output buffer.
pub fn datagram(stream: &StreamSender, place: usize, bytes: &mut [u8], size: &mut usize) -> u32
    ensures { GivesDatagram (slice_get stream.now.sender.datagrams place) result bytes.old bytes.new size.old size.new }
{
    if place >= stream.sender.len() {
        return status::NONE;
    }
    let datagram = stream.sender.datagram(place);
    *size = datagram.len();
    if fill(bytes, datagram) {
        status::OK
    } else {
        status::TOO_SMALL
    }
}

/// The datagram at a place, into the caller's bytes, if these also have room for `tail` bytes after the datagram.
pub fn datagram_with_tail(
    stream: &StreamSender,
    place: usize,
    tail: usize,
    bytes: &mut [u8],
    size: &mut usize,
) -> u32
    ensures { GivesWithTail tail (slice_get stream.now.sender.datagrams place) result bytes.old bytes.new size.old size.new }
{
    if place >= stream.sender.len() {
        return status::NONE;
    }
    let packet = stream.sender.datagram(place);
    let room = packet.len().saturating_add(tail);
    if bytes.len() < room {
        *size = room;
        return status::TOO_SMALL;
    }
    *size = packet.len();
    fill(bytes, packet);
    status::OK
}

/// The stream goes on in another format, if there is a packetizer for it.
pub fn set_format(stream: &mut StreamSender, spec: &Spec, payload_type: u8) -> u32
    ensures { SetsFormat (packetizer_set spec.now) spec.now payload_type stream.old result stream.new }
{
    let (Some(packetizer), Some(rate)) = (packetizer_of(spec), Frequency::make(spec.rate)) else {
        return status::INVALID;
    };
    match stream.sender.set_format(packetizer, payload_type, rate) {
        Ok(()) => {
            stream.rate = rate;
            status::OK
        }
        Err(_) => status::INVALID,
    }
}

/// The fields of a sender report for the moment `now`, in ticks of the RTP clock.
pub fn report_of(stream: &StreamSender, now: u64) -> SenderReportInfo
    ensures { result ≡ reported_at stream.now now }
{
    let report = stream.sender.report(MediaTime::new(now, stream.rate));
    SenderReportInfo {
        ssrc: report.ssrc,
        rtp_time: report.rtp_time,
        packets: report.packets,
        octets: report.octets,
    }
}

/// Returns the fields of sender reports.
pub fn counts_of(stream: &StreamSender) -> SenderCountsInfo
    ensures { TellsCounts stream.now result }
{
    let counts = stream.sender.counts();
    SenderCountsInfo {
        packets: counts.packets,
        octets: counts.octets,
        rtp_time: counts.rtp_time.unwrap_or(0),
        next_number: stream.sender.next_number(),
        has_rtp_time: counts.rtp_time.is_some(),
    }
}

/// The status for a sender that was not made.
fn status_for(error: SenderError) -> u32
    ensures { result ≡ refusal_status error }
{
    match error {
        SenderError::OutOfMemory => status::OUT_OF_MEMORY,
        _ => status::INVALID,
    }
}

/// A sender by these settings.
pub fn stream_by(
    alloc: Global,
    settings: &SenderSettings,
    packetizer: CodecPacketizer,
    rate: Frequency,
) -> Result<StreamSender, u32>
    requires { rate ≡ settings.now.spec.rate }
    ensures ok { IfOk result (λ r. (r.sender ≡ sender_by (settings_for settings.now) (packetizer_state_of packetizer)) × (r.rate ≡ rate) × (is_in_range settings.now ≡ Bool.true)) }
    ensures err { IfErr result (λ status. RefusesSettings (is_in_range settings.now) status) }
{
    match Sender::new(alloc, packetizer, settings_of(settings, rate)) {
        Ok(sender) => Ok(StreamSender { sender, rate }),
        Err(error) => Err(status_for(error)),
    }
}
