//! The packet that a retransmission repeats.

ghost use Rattle.std.specs.Prelude.{◌≡◌};
ghost use Rattle.codec_payload_c_packets.specs.Originals.{original_status};

use codec_payload_handle::rtp_faults::status_of;
use codec_payload_handle::status;
use codec_payload_sending_history::original::OriginalError;

/// Returns the status for a datagram that repeats no packet.
pub fn original_status(error: OriginalError) -> u32
    ensures { result ≡ original_status error }
{
    match error {
        OriginalError::PayloadType => status::INVALID,
        OriginalError::Rtp(fault) => status_of(fault),
        OriginalError::TooShort => status::RTX_TOO_SHORT,
        OriginalError::OutOfMemory => status::OUT_OF_MEMORY,
    }
}
