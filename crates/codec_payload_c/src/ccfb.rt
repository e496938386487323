//! Congestion control feedback of RFC 8888.

ghost use Rattle.std.specs.Prelude.{◌≡◌, ◌≢◌};
ghost use Rattle.codec_payload_feedback_ccfb.specs.CcfbLog.{offset_for};
ghost use Rattle.codec_payload_rtcp.specs.RtcpReading.{compound_at};
ghost use Rattle.codec_payload_c_path.specs.Ccfb.{WritesStream, in_quarters};
ghost use Rattle.codec_payload_c.specs.Ccfb.{ReadsMessage};

use codec_payload_c_packets::history::{rtcp_status, rule_of};
use codec_payload_c_path::ccfb::{CcfbInfo, CcfbPacket, nth_body, offset, read, write};
use codec_payload_handle::status;
use codec_payload_rtcp::compound::read_compound;
use std::alloc::Global;

/// Reads what the congestion control feedback with this index in a compound RTCP packet says about one of its streams.
#[unsafe(no_mangle)]
pub extern "C" fn cpay_ccfb_read(
    alloc: Global,
    rtcp: &[u8],
    full: bool,
    index: usize,
    stream: usize,
    info: &mut CcfbInfo,
    packets: &mut [CcfbPacket],
) -> u32
    ensures reads { ReadsMessage (compound_at full rtcp.now) index stream result (record { info_before = info.old; info = info.new; before = packets.old; packets = packets.new }) }
    ensures untouched { result ≢ 0 → packets.new ≡ packets.old }
    ensures unchanged { result ≢ 0 → result ≢ 33 → info.new ≡ info.old }
{
    match read_compound(rule_of(full), rtcp) {
        Ok(messages) => match nth_body(messages, index) {
            Some(body) => read(alloc, body, stream, info, packets),
            None => status::NONE,
        },
        Err(fault) => rtcp_status(fault),
    }
}

/// Writes feedback about one stream to the output buffer: a whole RTCP packet.
#[unsafe(no_mangle)]
pub extern "C" fn cpay_ccfb_write(
    alloc: Global,
    info: &CcfbInfo,
    packets: &[CcfbPacket],
    bytes: &mut [u8],
    size: &mut usize,
) -> u32
    ensures writes { WritesStream info.now packets.now result (record { before = bytes.old; bytes = bytes.new; size_before = size.old; size = size.new }) }
    ensures untouched { result ≢ 0 → bytes.new ≡ bytes.old }
    ensures unchanged { result ≢ 0 → result ≢ 33 → size.new ≡ size.old }
{
    write(alloc, info, packets, bytes, size)
}

/// Returns the offset of a packet that arrived at a time, for a report at `now`.
#[unsafe(no_mangle)]
pub extern "C" fn cpay_ccfb_offset(now: u64, time: u64) -> u16
    ensures { result ≡ offset_for (in_quarters now) (in_quarters time) }
{
    offset(now, time)
}
