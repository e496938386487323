//! Forwarders: packets of one source after another in, the packets of one stream of a viewer out.

ghost use Rattle.std.specs.Prelude.{◌≡◌, ◌≢◌, Bool, IfNone, IfSome};
ghost use Rattle.codec_payload_c_packets.specs.Forwarders.{IsNewForwarder, LeavesDatagram, RefusesStore, ResendsFrom, ResendsIn, WritesDatagram, counts_told, forwarded_number, is_in_range, is_supported, reported, settings_set};
ghost use Rattle.codec_payload_handle.specs.Numbers.{TellsNumber};

use crate::sender::SenderReportInfo;
use codec_payload_core::wire::Codec;
use codec_payload_handle::bytes::fill;
use codec_payload_handle::handle::Handle;
use codec_payload_handle::object::{Object, PacketForwarder};
use codec_payload_handle::rtp_faults::status_of;
use codec_payload_handle::settings::codec_of;
use codec_payload_handle::status;
use codec_payload_rtp::rtp::RtpPacket;
use codec_payload_sending_forward::counts::ForwardCounts;
use codec_payload_sending_forward::forwarder::{
    ForwardSettings, Forwarded, Forwarder, forwarded_size,
};
use codec_payload_sending_history::retransmission::{History, RetransmissionStream};
use std::alloc::Global;

/// How a viewer's stream is sent.
#[repr(C)]
#[derive(Clone, Copy)]
pub struct ForwarderSettings {
    /// The number of the codec of all sources.
    pub codec: u32,
    /// The SSRC of the viewer's stream.
    pub ssrc: u32,
    /// The RTP time of its first packet.
    pub first_time: u32,
    /// With `has_rtx`: the SSRC of retransmissions.
    pub rtx_ssrc: u32,
    /// The sequence number of the first packet.
    pub first_number: u16,
    /// With `has_rtx`: the sequence number of the first retransmission.
    pub rtx_first_number: u16,
    /// The payload type of the viewer's stream, 0 to 127.
    pub payload_type: u8,
    /// With `has_rtx`: the payload type of retransmissions, 0 to 127.
    pub rtx_payload_type: u8,
    /// Whether retransmissions are a separate stream (RFC 4588). If not, a packet is resent as it was sent.
    pub has_rtx: bool,
}

/// What a forwarder wrote, and what it did not, each modulo 2^64.
#[repr(C)]
#[derive(Clone, Copy)]
pub struct ForwarderCountsInfo {
    /// Packets under the viewer's SSRC.
    pub packets: u64,
    /// The bytes of payload in these packets.
    pub octets: u64,
    /// Sources that began.
    pub switches: u64,
    /// Packets of padding.
    pub filled: u64,
    /// Packets that were left out.
    pub left_out: u64,
    /// Packets that were not written for another reason.
    pub refused: u64,
    /// Packets that were resent, under either SSRC.
    pub resent: u64,
}

/// Converts the settings of C.
fn settings_of(settings: &ForwarderSettings) -> ForwardSettings
    ensures { result ≡ settings_set settings.now }
{
    let stream = RetransmissionStream {
        ssrc: settings.rtx_ssrc,
        payload_type: settings.rtx_payload_type,
        first_number: settings.rtx_first_number,
    };
    ForwardSettings {
        codec: codec_of(settings.codec),
        ssrc: settings.ssrc,
        payload_type: settings.payload_type,
        first_number: settings.first_number,
        first_time: settings.first_time,
        retransmissions: if settings.has_rtx { Some(stream) } else { None },
    }
}

/// Returns whether the library has this codec.
fn is_supported(codec: Codec) -> bool
    ensures { result ≡ is_supported codec }
{
    !matches!(codec, Codec::Unknown)
}

/// Creates a forwarder with these settings, if they are in range. It does not allocate.
pub fn forwarder_by(alloc: Global, settings: &ForwarderSettings) -> Option<PacketForwarder>
    ensures made { IfSome result (λ r. IsNewForwarder settings.now r × (is_in_range settings.now ≡ Bool.true)) }
    ensures refused { IfNone result (is_in_range settings.now ≡ Bool.false) }
{
    let settings = settings_of(settings);
    if !is_supported(settings.codec) {
        return None;
    }
    let forwarder = Forwarder::new(alloc, settings).ok()?;
    Some(PacketForwarder {
        forwarder,
        counts: ForwardCounts::default(),
        datagram: Vec::new(alloc),
    })
}

/// Returns the number of an answer.
fn number_of(answer: Forwarded) -> u32
    ensures { result ≡ forwarded_number answer }
{
    match answer {
        Forwarded::Began => 0,
        Forwarded::Written => 1,
        Forwarded::NoKeyframe => 2,
        Forwarded::OtherSource => 3,
        Forwarded::TooOld => 4,
        Forwarded::LeftOut => 5,
        Forwarded::Filled => 6,
    }
}

/// Writes a packet that arrived at that time for the viewer.
pub fn write(
    viewer: &mut PacketForwarder,
    now: u64,
    datagram: &[u8],
    bytes: &mut [u8],
    size: &mut usize,
    forwarded: &mut u32,
) -> u32
    ensures writes { WritesDatagram now datagram.now viewer.old result (record { before = bytes.old; bytes = bytes.new; size_before = size.old; size = size.new; answer_before = forwarded.old; answer = forwarded.new }) viewer.new }
    ensures untouched { result ≢ 0 → bytes.new ≡ bytes.old }
    ensures unchanged { result ≢ 0 → forwarded.new ≡ forwarded.old }
    ensures size { result ≢ 0 → result ≢ 33 → size.new ≡ size.old }
{
    let packet = match RtpPacket::parse(datagram) {
        Ok(packet) => packet,
        Err(fault) => return status_of(fault),
    };
    let needed = forwarded_size(&packet);
    if bytes.len() < needed {
        *size = needed;
        return status::TOO_SMALL;
    }
    let Ok(answer) = viewer.forwarder.write(now, &packet, &mut viewer.datagram) else {
        return status::OUT_OF_MEMORY;
    };
    viewer.counts.count(answer, packet.payload.len());
    *size = viewer.datagram.len();
    let _ = fill(bytes, &viewer.datagram);
    *forwarded = number_of(answer);
    status::OK
}

/// Leaves a packet out that the viewer is not to get.
pub fn leave_out(
    viewer: &mut PacketForwarder,
    datagram: &[u8],
    bytes: &mut [u8],
    size: &mut usize,
    forwarded: &mut u32,
) -> u32
    ensures leaves { LeavesDatagram datagram.now viewer.old result (record { before = bytes.old; bytes = bytes.new; size_before = size.old; size = size.new; answer_before = forwarded.old; answer = forwarded.new }) viewer.new }
    ensures untouched { result ≢ 0 → bytes.new ≡ bytes.old }
    ensures unchanged { result ≢ 0 → forwarded.new ≡ forwarded.old }
    ensures size { result ≢ 0 → result ≢ 33 → size.new ≡ size.old }
{
    let packet = match RtpPacket::parse(datagram) {
        Ok(packet) => packet,
        Err(fault) => return status_of(fault),
    };
    if bytes.len() < 13 {
        *size = 13;
        return status::TOO_SMALL;
    }
    let Ok(answer) = viewer.forwarder.leave_out(&packet, &mut viewer.datagram) else {
        return status::OUT_OF_MEMORY;
    };
    viewer.counts.count(answer, packet.payload.len());
    *size = viewer.datagram.len();
    let _ = fill(bytes, &viewer.datagram);
    *forwarded = number_of(answer);
    status::OK
}

/// Writes the packet of a store that the viewer requests by this number, if the store has it.
fn resend(
    viewer: &mut PacketForwarder,
    store: &History,
    number: u16,
    bytes: &mut [u8],
    size: &mut usize,
    resent: &mut u32,
) -> u32
    ensures resends { ResendsFrom store.now number viewer.old result (record { before = bytes.old; bytes = bytes.new; size_before = size.old; size = size.new; answer_before = resent.old; answer = resent.new }) viewer.new }
    ensures untouched { result ≢ 0 → bytes.new ≡ bytes.old }
    ensures unchanged { result ≢ 0 → resent.new ≡ resent.old }
    ensures size { result ≢ 0 → result ≢ 33 → size.new ≡ size.old }
{
    let Some(packet) = viewer.forwarder.requested(number, store) else {
        *size = 0;
        *resent = 1;
        return status::OK;
    };
    let needed = viewer.forwarder.size_again(&packet);
    if bytes.len() < needed {
        *size = needed;
        return status::TOO_SMALL;
    }
    match viewer.forwarder.write_again(&packet, &mut viewer.datagram) {
        Err(_) => status::OUT_OF_MEMORY,
        Ok(false) => {
            *size = 0;
            *resent = 1;
            status::OK
        }
        Ok(true) => {
            let wrapped = viewer.forwarder.settings().retransmissions.is_some();
            viewer.counts.count_resent(wrapped, packet.payload.len());
            *size = viewer.datagram.len();
            let _ = fill(bytes, &viewer.datagram);
            *resent = 0;
            status::OK
        }
    }
}

/// Resends a packet from a store in a handle.
pub fn resend_from(
    alloc: Global,
    viewer: &mut PacketForwarder,
    history: &mut Handle,
    number: u16,
    bytes: &mut [u8],
    size: &mut usize,
    resent: &mut u32,
) -> u32
    ensures resends { ResendsIn history.old.place.value number viewer.old result (record { before = bytes.old; bytes = bytes.new; size_before = size.old; size = size.new; answer_before = resent.old; answer = resent.new }) viewer.new }
    ensures refused { RefusesStore history.old.place.value result viewer.old viewer.new }
    ensures store { history.new.place.value ≡ history.old.place.value }
    ensures untouched { result ≢ 0 → bytes.new ≡ bytes.old }
    ensures unchanged { result ≢ 0 → resent.new ≡ resent.old }
    ensures size { result ≢ 0 → result ≢ 33 → size.new ≡ size.old }
{
    let Some(object) = history.take(alloc) else {
        return status::EMPTY;
    };
    let answer = match &*object {
        Object::PacketHistory(kept) => {
            resend(viewer, &kept.history, number, bytes, size, resent)
        }
        _ => status::OTHER_KIND,
    };
    history.put(object);
    answer
}

/// Returns the counts for C.
pub fn counts_of(counts: &ForwardCounts) -> ForwarderCountsInfo
    ensures { result ≡ counts_told counts.now }
{
    ForwarderCountsInfo {
        packets: counts.packets,
        octets: counts.octets,
        switches: counts.switches,
        filled: counts.filled,
        left_out: counts.left_out,
        refused: counts.refused,
        resent: counts.resent,
    }
}

/// Returns the fields of a sender report for the viewer's stream, for a time of a source.
pub fn report_of(viewer: &PacketForwarder, ssrc: u32, rtp_time: u32) -> Option<SenderReportInfo>
    ensures { result ≡ reported viewer.now ssrc rtp_time }
{
    let rtp_time = viewer.forwarder.time_for(ssrc, rtp_time)?;
    Some(SenderReportInfo {
        ssrc: viewer.forwarder.settings().ssrc,
        rtp_time,
        packets: (viewer.counts.packets % 4_294_967_296) as u32,
        octets: (viewer.counts.octets % 4_294_967_296) as u32,
    })
}

/// Writes a number, if there is one.
pub fn write_number(found: Option<u32>, number: &mut u32) -> u32
    ensures tells { TellsNumber found result number.old number.new }
    ensures unchanged { result ≢ 0 → number.new ≡ number.old }
{
    match found {
        Some(found) => {
            *number = found;
            status::OK
        }
        None => status::NONE,
    }
}
