//! Formats that change while a session lives.

ghost use Rattle.codec_payload_c_receiving.specs.SessionChanges.{SetsFormats};

use crate::session_settings::{SessionFormat, are_in_range, formats_of};
use codec_payload_core::wire::Ticks;
use codec_payload_handle::object::PortSession;
use codec_payload_handle::status;
use std::alloc::Global;

/// Replaces the formats of a session.
pub fn set_formats(
    alloc: Global,
    port: &mut PortSession,
    now: u64,
    formats: &[SessionFormat],
) -> u32
    ensures { SetsFormats now formats.now port.old result port.new }
{
    if !are_in_range(formats) {
        return status::INVALID;
    }
    let Ok(formats) = formats_of(alloc, formats) else {
        return status::OUT_OF_MEMORY;
    };
    match port.session.set_formats(Ticks(now), formats) {
        Ok(()) => status::OK,
        Err(_) => status::INVALID,
    }
}
