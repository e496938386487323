//! Reports about the streams of a session: blocks of receiver reports, and what sender reports say.

ghost use Rattle.std.specs.Prelude.{◌≡◌, ◌≢◌};
ghost use Rattle.codec_payload_handle.specs.Kinds.{OnPortSession, Refuses, is_port_session};
ghost use Rattle.codec_payload_handle.specs.ReportBlocks.{TellsBlock};
ghost use Rattle.codec_payload_c_receiving.specs.SessionReports.{TellsBlockOf, TellsClock, block_told_by, clock_told_by};

use codec_payload_c_receiving::session_reports::{
    SenderClockInfo, peek_report, report, sender_clock,
};
use codec_payload_handle::handle::Handle;
use codec_payload_handle::object::{Object, PortSession};
use codec_payload_handle::report_block::ReportBlockInfo;
use codec_payload_handle::status;
use std::alloc::Global;

/// Returns the block of a receiver report about a stream. The next block of the stream starts its fraction here.
#[unsafe(no_mangle)]
pub extern "C" fn cpay_session_report(
    alloc: Global,
    handle: &mut Handle,
    now: u64,
    ssrc: u32,
    payload_type: u8,
    block: &mut ReportBlockInfo,
) -> u32
    ensures tells { OnPortSession handle.old.place.value (λ r s. TellsBlockOf ssrc payload_type now r result block.old block.new s) handle.new.place.value }
    ensures refused { Refuses is_port_session handle.old.place.value result handle.new.place.value }
    ensures unchanged { result ≢ 0 → block.new ≡ block.old }
{
    let Some(mut object) = handle.take(alloc) else {
        return status::EMPTY;
    };
    let answer = match &mut *object {
        Object::PortSession(port) => report(port, now, (ssrc, payload_type), block),
        _ => status::OTHER_KIND,
    };
    handle.put(object);
    answer
}

/// Returns the block that `cpay_session_report` would return, and changes nothing in the session.
#[unsafe(no_mangle)]
pub extern "C" fn cpay_session_peek_report(
    alloc: Global,
    handle: &mut Handle,
    now: u64,
    ssrc: u32,
    payload_type: u8,
    block: &mut ReportBlockInfo,
) -> u32
    ensures tells { OnPortSession handle.old.place.value (λ r s. (s ≡ r) × TellsBlock (block_told_by ssrc payload_type now r) result block.old block.new) handle.new.place.value }
    ensures refused { Refuses is_port_session handle.old.place.value result handle.new.place.value }
    ensures unchanged { result ≢ 0 → block.new ≡ block.old }
{
    let Some(mut object) = handle.take(alloc) else {
        return status::EMPTY;
    };
    let answer = match &mut *object {
        Object::PortSession(port) => peek_report(port, now, (ssrc, payload_type), block),
        _ => status::OTHER_KIND,
    };
    handle.put(object);
    answer
}

/// Reports what the latest sender report about a stream says.
#[unsafe(no_mangle)]
pub extern "C" fn cpay_session_sender_clock(
    alloc: Global,
    handle: &mut Handle,
    ssrc: u32,
    payload_type: u8,
    clock: &mut SenderClockInfo,
) -> u32
    ensures tells { OnPortSession handle.old.place.value (λ r s. (s ≡ r) × TellsClock (clock_told_by ssrc payload_type r) result clock.old clock.new) handle.new.place.value }
    ensures refused { Refuses is_port_session handle.old.place.value result handle.new.place.value }
    ensures unchanged { result ≢ 0 → clock.new ≡ clock.old }
{
    let Some(mut object) = handle.take(alloc) else {
        return status::EMPTY;
    };
    let answer = match &mut *object {
        Object::PortSession(port) => sender_clock(port, ssrc, payload_type, clock),
        _ => status::OTHER_KIND,
    };
    handle.put(object);
    answer
}
