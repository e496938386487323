//! Reports about the streams of a session: blocks of receiver reports, and what sender reports say.

ghost use Rattle.std.specs.Prelude.{◌≡◌, ◌≢◌};
ghost use Rattle.codec_payload_handle.specs.ReportBlocks.{TellsBlock};
ghost use Rattle.codec_payload_c_receiving.specs.SessionReports.{TellsBlockOf, TellsClock, block_told_by, clock_told_by};

use codec_payload_base::wire::Ticks;
use codec_payload_handle::object::PortSession;
use codec_payload_handle::report_block::{ReportBlockInfo, block_info};
use codec_payload_handle::status;

/// What the latest sender report about a stream says.
#[repr(C)]
#[derive(Clone, Copy)]
pub struct SenderClockInfo {
    /// Seconds since 1900 in the upper 32 bits, and fractions of a second in the lower 32 bits.
    pub ntp_time: u64,
    /// When the report arrived.
    pub arrived: u64,
    /// The RTP time of that NTP time.
    pub rtp_time: u32,
}

/// Writes the block about a stream.
pub fn report(port: &mut PortSession, now: u64, of: (u32, u8), block: &mut ReportBlockInfo) -> u32
    ensures tells { TellsBlockOf of.0 of.1 now port.old result block.old block.new port.new }
    ensures unchanged { result ≢ 0 → block.new ≡ block.old }
{
    match port.session.report(Ticks(now), of.0, of.1) {
        Some(told) => {
            *block = block_info(told);
            status::OK
        }
        None => status::NONE,
    }
}

/// Writes the block about a stream, and changes nothing else.
pub fn peek_report(port: &PortSession, now: u64, of: (u32, u8), block: &mut ReportBlockInfo) -> u32
    ensures tells { TellsBlock (block_told_by of.0 of.1 now port.now) result block.old block.new }
    ensures unchanged { result ≢ 0 → block.new ≡ block.old }
{
    match port.session.peek_report(Ticks(now), of.0, of.1) {
        Some(told) => {
            *block = block_info(told);
            status::OK
        }
        None => status::NONE,
    }
}

/// Writes what the latest sender report about a stream says.
pub fn sender_clock(
    port: &PortSession,
    ssrc: u32,
    payload_type: u8,
    clock: &mut SenderClockInfo,
) -> u32
    ensures tells { TellsClock (clock_told_by ssrc payload_type port.now) result clock.old clock.new }
    ensures unchanged { result ≢ 0 → clock.new ≡ clock.old }
{
    match port.session.sender_clock(ssrc, payload_type) {
        Some(told) => {
            *clock = SenderClockInfo {
                ntp_time: told.ntp_time,
                arrived: told.arrived.0,
                rtp_time: told.rtp_time,
            };
            status::OK
        }
        None => status::NONE,
    }
}
