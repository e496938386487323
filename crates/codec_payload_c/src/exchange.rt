//! Round trips by extended reports (RFC 3611).

ghost use Rattle.std.specs.Prelude.{◌≡◌, ◌≢◌};
ghost use Rattle.codec_payload_rtcp.specs.RtcpReading.{compound_at};
ghost use Rattle.codec_payload_feedback_xr.specs.Exchange.{is_lost, sent};
ghost use Rattle.codec_payload_c_path.specs.Exchanges.{exchange_given, exchange_told};
ghost use Rattle.codec_payload_c.specs.Exchanges.{TakesReports, WritesReports};

use codec_payload_c_packets::congestion::put_packet;
use codec_payload_c_packets::history::{rtcp_status, rule_of};
use codec_payload_c_path::exchange::{XrExchange, note_sent, receive, report};
use codec_payload_core::wire::Frequency;
use codec_payload_handle::status;
use codec_payload_rtcp::compound::read_compound;
use std::alloc::Global;

/// Takes a compound RTCP packet that came at that time.
#[unsafe(no_mangle)]
pub extern "C" fn cpay_xr_receive(
    exchange: &mut XrExchange,
    ssrc: u32,
    tick_rate: u32,
    now: u64,
    rtcp: &[u8],
    full: bool,
    answered: &mut bool,
) -> u32
    ensures { TakesReports ssrc tick_rate now (compound_at full rtcp.now) result (record { before = exchange.old; after = exchange.new; answered_before = answered.old; answered = answered.new }) }
{
    let Some(tick_rate) = Frequency::make(tick_rate) else {
        return status::INVALID;
    };
    match read_compound(rule_of(full), rtcp) {
        Ok(packets) => {
            *answered = receive(exchange, ssrc, tick_rate, now, packets);
            status::OK
        }
        Err(fault) => rtcp_status(fault),
    }
}

/// Writes what a report that leaves at that time has to say: whole RTCP packets.
#[unsafe(no_mangle)]
pub extern "C" fn cpay_xr_write(
    alloc: Global,
    exchange: &XrExchange,
    ssrc: u32,
    tick_rate: u32,
    now: u64,
    bytes: &mut [u8],
    size: &mut usize,
) -> u32
    ensures writes { WritesReports ssrc tick_rate now exchange.now result (record { before = bytes.old; bytes = bytes.new; size_before = size.old; size = size.new }) }
    ensures untouched { result ≢ 0 → bytes.new ≡ bytes.old }
    ensures unchanged { result ≢ 0 → result ≢ 33 → size.new ≡ size.old }
{
    let Some(tick_rate) = Frequency::make(tick_rate) else {
        return status::INVALID;
    };
    match report(alloc, exchange, ssrc, tick_rate, now) {
        Ok(packets) => put_packet(&packets, bytes, size),
        Err(_) => status::OUT_OF_MEMORY,
    }
}

/// Notes that a report was sent, and returns whether the round trip ends with it.
#[unsafe(no_mangle)]
pub extern "C" fn cpay_xr_sent(exchange: &mut XrExchange) -> bool
    ensures after { exchange.new ≡ exchange_told (sent (exchange_given exchange.old)) }
    ensures ends { result ≡ is_lost (exchange_given exchange.old) }
{
    note_sent(exchange)
}
