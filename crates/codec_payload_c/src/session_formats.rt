//! Formats that change while a session lives.

ghost use Rattle.codec_payload_c_receiving.specs.SessionChanges.{SetsFormats};
ghost use Rattle.codec_payload_handle.specs.Kinds.{OnPortSession, Refuses, is_port_session};

use codec_payload_c_receiving::session_formats::set_formats;
use codec_payload_c_receiving::session_settings::SessionFormat;
use codec_payload_handle::handle::Handle;
use codec_payload_handle::object::{Object, PortSession};
use codec_payload_handle::status;
use std::alloc::Global;

/// Replaces the formats: streams of formats that are gone end.
#[unsafe(no_mangle)]
pub extern "C" fn cpay_session_set_formats(
    alloc: Global,
    handle: &mut Handle,
    now: u64,
    formats: &[SessionFormat],
) -> u32
    ensures sets { OnPortSession handle.old.place.value (λ r s. SetsFormats now formats.now r result s) handle.new.place.value }
    ensures refused { Refuses is_port_session handle.old.place.value result handle.new.place.value }
{
    let Some(mut object) = handle.take(alloc) else {
        return status::EMPTY;
    };
    let answer = match &mut *object {
        Object::PortSession(port) => set_formats(alloc, port, now, formats),
        _ => status::OTHER_KIND,
    };
    handle.put(object);
    answer
}
