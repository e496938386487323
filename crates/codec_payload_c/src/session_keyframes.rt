//! Keyframes that the caller of a session asks for.

ghost use Rattle.std.specs.Prelude.{◌≡◌, ◌≢◌};
ghost use Rattle.codec_payload_c_receiving.specs.SessionKeyframes.{RequestsKeyframe};
ghost use Rattle.codec_payload_handle.specs.Kinds.{OnPortSession, Refuses, is_port_session};

use codec_payload_c_receiving::session_keyframes::request_keyframe;
use codec_payload_handle::handle::Handle;
use codec_payload_handle::object::{Object, PortSession};
use codec_payload_handle::status;
use std::alloc::Global;

/// Asks the sender of the stream with this SSRC for a keyframe.
#[unsafe(no_mangle)]
pub extern "C" fn cpay_session_request_keyframe(
    alloc: Global,
    handle: &mut Handle,
    ssrc: u32,
    answer: &mut u32,
) -> u32
    ensures requests { OnPortSession handle.old.place.value (λ r s. RequestsKeyframe ssrc r result answer.new s) handle.new.place.value }
    ensures refused { Refuses is_port_session handle.old.place.value result handle.new.place.value }
    ensures unchanged { result ≢ 0 → answer.new ≡ answer.old }
{
    let Some(mut object) = handle.take(alloc) else {
        return status::EMPTY;
    };
    let status = match &mut *object {
        Object::PortSession(port) => request_keyframe(port, ssrc, answer),
        _ => status::OTHER_KIND,
    };
    handle.put(object);
    status
}
