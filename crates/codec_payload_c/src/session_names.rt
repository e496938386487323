//! The names of the streams of a session: MID, RID and repaired RID.

ghost use Rattle.std.specs.Prelude.{◌≡◌, ◌≢◌};
ghost use Rattle.codec_payload_handle.specs.Kinds.{OnPortSession, Refuses, is_port_session};
ghost use Rattle.codec_payload_c_receiving.specs.SessionNames.{TellsNames, names_told_by};

use codec_payload_c_receiving::session_names::{StreamNames, names_of};
use codec_payload_handle::handle::Handle;
use codec_payload_handle::object::{Object, PortSession};
use codec_payload_handle::status;
use std::alloc::Global;

/// Reports the names of a stream.
#[unsafe(no_mangle)]
pub extern "C" fn cpay_session_names(
    alloc: Global,
    handle: &mut Handle,
    ssrc: u32,
    payload_type: u8,
    names: &mut StreamNames,
) -> u32
    ensures tells { OnPortSession handle.old.place.value (λ r s. (s ≡ r) × TellsNames (names_told_by ssrc payload_type r) result names.old names.new) handle.new.place.value }
    ensures refused { Refuses is_port_session handle.old.place.value result handle.new.place.value }
    ensures unchanged { result ≢ 0 → names.new ≡ names.old }
{
    let Some(mut object) = handle.take(alloc) else {
        return status::EMPTY;
    };
    let answer = match &mut *object {
        Object::PortSession(port) => names_of(port, ssrc, payload_type, names),
        _ => status::OTHER_KIND,
    };
    handle.put(object);
    answer
}
