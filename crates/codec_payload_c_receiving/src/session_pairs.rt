//! Pairs of SSRCs that become known while a session runs.

ghost use Rattle.codec_payload_c_receiving.specs.SessionPairs.{AddsPair, RemovesPair};

use codec_payload_handle::object::PortSession;
use codec_payload_handle::status;

/// Adds a pair of SSRCs.
pub fn add_pair(port: &mut PortSession, ssrc: u32, retransmission: u32) -> u32
    ensures { AddsPair ssrc retransmission port.old result port.new }
{
    match port.session.add_pair(ssrc, retransmission) {
        Ok(()) => status::OK,
        Err(_) => status::OUT_OF_MEMORY,
    }
}

/// Removes the pairs of the SSRC of a stream.
pub fn remove_pair(port: &mut PortSession, ssrc: u32) -> u32
    ensures { RemovesPair ssrc port.old result port.new }
{
    port.session.remove_pair(ssrc);
    status::OK
}
