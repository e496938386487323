//! Reports on telephone events (RFC 4733, section 2.3).

ghost use Rattle.std.specs.Prelude.{◌≡◌, ◌≢◌};
ghost use Rattle.codec_payload_c_packets.specs.Tele.{ReadsReport, WritesReport};

use codec_payload_c_packets::tele::report_at;
use codec_payload_core::tele::TelephoneEvent;
use codec_payload_core::wire::Frequency;
use codec_payload_handle::bytes::fill;
use codec_payload_handle::extra::{TeleEvent, event_of};
use codec_payload_handle::status;

/// The number of the error for a payload that is not one or more whole reports.
const NO_REPORTS: u32 = 15;

/// Reads the report with this index, from 0, in a payload of reports.
#[unsafe(no_mangle)]
pub extern "C" fn cpay_tele_read(
    payload: &[u8],
    rate: u32,
    index: usize,
    event: &mut TeleEvent,
) -> u32
    ensures { ReadsReport payload.now rate index result event.old event.new }
{
    let Some(rate) = Frequency::make(rate) else {
        return status::INVALID;
    };
    let Some(mut reports) = TelephoneEvent::parse_all(payload, rate) else {
        return NO_REPORTS;
    };
    let Some(report) = report_at(&mut reports, index) else {
        return status::NONE;
    };
    *event = event_of(report);
    status::OK
}

/// Writes the four bytes of a report.
#[unsafe(no_mangle)]
pub extern "C" fn cpay_tele_write(event: &TeleEvent, rate: u32, bytes: &mut [u8]) -> u32
    ensures writes { WritesReport event.now rate result bytes.old bytes.new }
    ensures untouched { result ≢ 0 → bytes.new ≡ bytes.old }
{
    let Some(rate) = Frequency::make(rate) else {
        return status::INVALID;
    };
    let report = TelephoneEvent {
        event: event.event,
        end: event.end,
        volume: event.volume,
        duration: event.duration,
    };
    let Some(written) = report.to_bytes(rate) else {
        return status::INVALID;
    };
    if fill(bytes, &written) {
        status::OK
    } else {
        status::TOO_SMALL
    }
}
