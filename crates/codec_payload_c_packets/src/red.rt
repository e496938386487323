//! RED senders, which repeat earlier payloads (RFC 2198).

ghost use Rattle.std.specs.Prelude.{◌≡◌, ◌≢◌};
ghost use Rattle.codec_payload_c_packets.specs.Reds.{Syncs, Wraps};

use codec_payload_core::red::RedSender;
use codec_payload_core::wire::Pt;
use codec_payload_handle::bytes::fill;
use codec_payload_handle::status;
use std::alloc::Global;

/// Sets payload types and distances, if they are accepted.
pub fn sync(sender: &mut RedSender, red_pt: u8, primary_pt: u8, distances: &[u32]) -> u32
    ensures { Syncs sender.old red_pt primary_pt distances.now result sender.new }
{
    if !RedSender::accepts(distances) {
        return status::INVALID;
    }
    sender.sync(
        Pt::new_with_value(red_pt),
        Pt::new_with_value(primary_pt),
        distances,
    );
    status::OK
}

/// A payload to put in RED.
#[derive(Drop)]
pub struct Media<'a> {
    pub rtp_time: u32,
    /// The most bytes that the RED payload may have.
    pub budget: usize,
    pub payload: &'a [u8],
}

/// Writes the RED payload of a payload to the output buffer, which must be large enough for any answer.
pub fn wrap(
    sender: &mut RedSender,
    alloc: Global,
    media: &Media<'_>,
    bytes: &mut [u8],
    size: &mut usize,
) -> u32
    ensures wraps { Wraps sender.old media.now.rtp_time media.now.budget media.now.payload.now result bytes.old bytes.new size.new sender.new }
    ensures same_size { result ≢ 0 → result ≢ 33 → size.new ≡ size.old }
{
    let room = media.budget.max(media.payload.len());
    if bytes.len() < room {
        *size = room;
        return status::TOO_SMALL;
    }
    let Ok(payload) = Vec::from_slice(alloc, media.payload) else {
        return status::OUT_OF_MEMORY;
    };
    match sender.wrap(payload, media.rtp_time, media.budget) {
        Ok(wrapped) => {
            *size = wrapped.len();
            fill(bytes, &wrapped);
            status::OK
        }
        Err(_) => status::OUT_OF_MEMORY,
    }
}
