//! Pairs of SSRCs that become known while a session runs.

ghost use Rattle.codec_payload_c_receiving.specs.SessionPairs.{AddsPair, RemovesPair};
ghost use Rattle.codec_payload_handle.specs.Kinds.{OnPortSession, Refuses, is_port_session};

use codec_payload_c_receiving::session_pairs::{add_pair, remove_pair};
use codec_payload_handle::handle::Handle;
use codec_payload_handle::object::{Object, PortSession};
use codec_payload_handle::status;
use std::alloc::Global;

/// Names the SSRC of the retransmissions of an SSRC, from now on.
#[unsafe(no_mangle)]
pub extern "C" fn cpay_session_add_pair(
    alloc: Global,
    handle: &mut Handle,
    ssrc: u32,
    retransmission: u32,
) -> u32
    ensures adds { OnPortSession handle.old.place.value (λ r s. AddsPair ssrc retransmission r result s) handle.new.place.value }
    ensures refused { Refuses is_port_session handle.old.place.value result handle.new.place.value }
{
    let Some(mut object) = handle.take(alloc) else {
        return status::EMPTY;
    };
    let answer = match &mut *object {
        Object::PortSession(port) => add_pair(port, ssrc, retransmission),
        _ => status::OTHER_KIND,
    };
    handle.put(object);
    answer
}

/// Forgets the SSRC of the retransmissions of an SSRC.
#[unsafe(no_mangle)]
pub extern "C" fn cpay_session_remove_pair(alloc: Global, handle: &mut Handle, ssrc: u32) -> u32
    ensures removes { OnPortSession handle.old.place.value (λ r s. RemovesPair ssrc r result s) handle.new.place.value }
    ensures refused { Refuses is_port_session handle.old.place.value result handle.new.place.value }
{
    let Some(mut object) = handle.take(alloc) else {
        return status::EMPTY;
    };
    let answer = match &mut *object {
        Object::PortSession(port) => remove_pair(port, ssrc),
        _ => status::OTHER_KIND,
    };
    handle.put(object);
    answer
}
