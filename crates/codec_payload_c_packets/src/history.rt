//! Histories: sent packets are kept, and resent when RTCP feedback requests them.

ghost use Rattle.std.specs.Prelude.{◌≡◌, ◌≢◌, ◌+◌, ◌-◌, ◌^◌, ◌≤◌, length, min, set, Bool, IfNone, IfSome, Ok};
ghost use Rattle.codec_payload_sending_history.specs.Histories.{history_by};
ghost use Rattle.codec_payload_sending_history.specs.Requests.{requests_left};
ghost use Rattle.codec_payload_rtcp.specs.Compound.{is_full};
ghost use Rattle.codec_payload_c_packets.specs.Histories.{KeepsDatagram, KeepsDatagramOnce, ResendsPacket, asks_keyframe, is_in_range, numbers_asked, put_first, rtcp_status, settings_set};

use codec_payload_core::wire::Ticks;
use codec_payload_handle::bytes::fill;
use codec_payload_handle::object::PacketHistory;
use codec_payload_handle::rtp_faults::status_of;
use codec_payload_handle::status;
use codec_payload_rtcp::compound::CompoundRule;
use codec_payload_rtcp::packet::RtcpError;
use codec_payload_sending_history::feedback::{Request, Requests};
use codec_payload_sending_history::retransmission::{
    History, HistorySettings as Settings, KeepError, Kept, KeptOnce, Resent, RetransmissionStream,
};
use std::alloc::Global;

/// What a history keeps, and how it resends.
#[repr(C)]
#[derive(Clone, Copy)]
pub struct HistorySettings {
    /// How many packets are kept, 1 to 32,768: the last ones.
    pub limit: usize,
    /// How many ticks have to pass before the same packet is resent again; 0: none.
    pub interval: u64,
    /// With `has_rtx`: the SSRC of retransmissions.
    pub rtx_ssrc: u32,
    /// With `has_rtx`: the sequence number of the first retransmission.
    pub rtx_first_number: u16,
    /// With `has_rtx`: the payload type of retransmissions, 0 to 127.
    pub rtx_payload_type: u8,
    /// Whether retransmissions are a separate stream (RFC 4588). If not, a packet is resent as it was.
    pub has_rtx: bool,
}

/// Converts the settings of C.
fn settings_of(settings: &HistorySettings) -> Settings
    ensures { result ≡ settings_set settings.now }
{
    let stream = RetransmissionStream {
        ssrc: settings.rtx_ssrc,
        payload_type: settings.rtx_payload_type,
        first_number: settings.rtx_first_number,
    };
    Settings {
        limit: settings.limit,
        interval: settings.interval,
        stream: if settings.has_rtx { Some(stream) } else { None },
    }
}

/// Creates a history with these settings, if they are in range. It does not allocate.
pub fn history_by(alloc: Global, settings: &HistorySettings) -> Option<PacketHistory>
    ensures made { IfSome result (λ r. (history_by (settings_set settings.now) ≡ Ok r.history) × (is_in_range settings.now ≡ Bool.true)) }
    ensures refused { IfNone result (is_in_range settings.now ≡ Bool.false) }
{
    let history = History::new(alloc, settings_of(settings)).ok()?;
    Some(PacketHistory {
        history,
        datagram: Vec::new(alloc),
    })
}

/// Keeps a copy of a datagram, and writes what the history did with it.
pub fn keep(history: &mut PacketHistory, datagram: &[u8], kept: &mut u32) -> u32
    ensures keeps { KeepsDatagram history.old datagram.now result kept.old kept.new history.new }
    ensures unchanged { result ≢ 0 → kept.new ≡ kept.old }
{
    match history.history.keep(datagram) {
        Ok(Kept::Stored) => {
            *kept = 0;
            status::OK
        }
        Ok(Kept::TooOld) => {
            *kept = 1;
            status::OK
        }
        Err(KeepError::Rtp(fault)) => status_of(fault),
        Err(KeepError::OutOfMemory) => status::OUT_OF_MEMORY,
    }
}

/// Keeps a copy of a datagram whose number is not kept yet, and writes what the history did with it.
pub fn keep_once(history: &mut PacketHistory, datagram: &[u8], kept: &mut u32) -> u32
    ensures keeps { KeepsDatagramOnce history.old datagram.now result kept.old kept.new history.new }
    ensures unchanged { result ≢ 0 → kept.new ≡ kept.old }
{
    match history.history.keep_once(datagram) {
        Ok(KeptOnce::New) => {
            *kept = 0;
            status::OK
        }
        Ok(KeptOnce::Known) => {
            *kept = 1;
            status::OK
        }
        Ok(KeptOnce::TooOld) => {
            *kept = 2;
            status::OK
        }
        Err(KeepError::Rtp(fault)) => status_of(fault),
        Err(KeepError::OutOfMemory) => status::OUT_OF_MEMORY,
    }
}

/// Resends the packet of a request, its time and its number, if the datagram fits in the output buffer.
pub fn resend(
    kept: &mut PacketHistory,
    request: (u64, u16),
    bytes: &mut [u8],
    size: &mut usize,
    resent: &mut u32,
) -> u32
    ensures resends { ResendsPacket request.0 request.1 kept.old result (record { before = bytes.old; bytes = bytes.new; size_before = size.old; size = size.new; resent_before = resent.old; resent = resent.new }) kept.new }
    ensures untouched { result ≢ 0 → bytes.new ≡ bytes.old }
    ensures unchanged { result ≢ 0 → resent.new ≡ resent.old }
    ensures size { result ≢ 0 → result ≢ 33 → size.new ≡ size.old }
{
    let (now, number) = request;
    let most = bytes.len();
    match kept
        .history
        .resend_within(Ticks(now), number, most, &mut kept.datagram)
    {
        Err(_) => status::OUT_OF_MEMORY,
        Ok(Resent::Written) => {
            *size = kept.datagram.len();
            let _ = fill(bytes, &kept.datagram);
            *resent = 0;
            status::OK
        }
        Ok(Resent::TooLarge) => {
            *size = kept.datagram.len();
            status::TOO_SMALL
        }
        Ok(Resent::NotKept) => {
            *size = 0;
            *resent = 1;
            status::OK
        }
        Ok(Resent::TooSoon) => {
            *size = 0;
            *resent = 2;
            status::OK
        }
    }
}

/// Returns the status for bytes that are not a compound RTCP packet.
pub fn rtcp_status(fault: RtcpError) -> u32
    ensures { result ≡ rtcp_status fault }
{
    match fault {
        RtcpError::HeaderTooShort => status::RTCP_HEADER_TOO_SHORT,
        RtcpError::WrongVersion => status::RTCP_VERSION,
        RtcpError::FirstNotReport => status::RTCP_FIRST_NOT_REPORT,
        RtcpError::PacketTooShort => status::RTCP_PACKET_TOO_SHORT,
        RtcpError::PaddingNotLast => status::RTCP_PADDING_NOT_LAST,
        RtcpError::PaddingOfZero => status::RTCP_PADDING_OF_ZERO,
        RtcpError::PaddingTooLong => status::RTCP_PADDING_TOO_LONG,
        RtcpError::ReportTooShort => status::RTCP_REPORT_TOO_SHORT,
        RtcpError::ChunkTooShort => status::RTCP_CHUNK_TOO_SHORT,
        RtcpError::ItemsTooShort => status::RTCP_ITEMS_TOO_SHORT,
        RtcpError::GoodbyeTooShort => status::RTCP_BYE_TOO_SHORT,
        RtcpError::ReasonTooShort => status::RTCP_REASON_TOO_SHORT,
        RtcpError::FeedbackTooShort => status::RTCP_FEEDBACK_TOO_SHORT,
        RtcpError::NackWrongLength => status::RTCP_NACK_LENGTH,
        RtcpError::PictureLossWrongLength => status::RTCP_PLI_LENGTH,
        RtcpError::FullIntraWrongLength => status::RTCP_FIR_LENGTH,
    }
}

/// Returns the rule for the first packet.
pub fn rule_of(full: bool) -> CompoundRule
    ensures { is_full result ≡ full }
{
    if full {
        CompoundRule::Full
    } else {
        CompoundRule::ReducedSize
    }
}

/// Writes a number at a place, if there is room for it, and returns the next place.
pub fn put(numbers: &mut [u16], place: usize, number: u16) -> usize
    ensures number { numbers.new ≡ set numbers.old place number }
    ensures room { length numbers.old ≤ 2 ^ 64 - 1 }
    ensures next { result ≡ min (place + 1) (2 ^ 64 - 1) }
{
    if place < numbers.len() {
        numbers[place] = number;
    }
    place.saturating_add(1)
}

/// Writes the requested numbers, as many as there is room for. Returns how many there are, and whether a keyframe is requested.
pub fn collect(requests: Requests<'_>, numbers: &mut [u16]) -> (usize, bool)
    ensures numbers { numbers.new ≡ put_first (numbers_asked (requests_left requests.entry)) numbers.old }
    ensures count { result.0 ≡ min (length (numbers_asked (requests_left requests.entry))) (2 ^ 64 - 1) }
    ensures keyframe { result.1 ≡ asks_keyframe (requests_left requests.entry) }
{
    let mut count = 0;
    let mut wants_keyframe = false;
    for request in requests {
        match request {
            Request::Packet(number) => count = put(numbers, count, number),
            Request::Keyframe => wants_keyframe = true,
        }
    }
    (count, wants_keyframe)
}
