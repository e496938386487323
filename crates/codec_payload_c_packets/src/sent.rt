//! The packets that were sent on a transport: their numbers and times.

ghost use Rattle.std.specs.Prelude.{◌≡◌, ◌≢◌};
ghost use Rattle.codec_payload_c_packets.specs.SentTransports.{AssignsNumber};

use codec_payload_base::wire::Ticks;
use codec_payload_feedback_transport::sent::SentPackets;
use codec_payload_handle::status;

/// Counts the next packet, and writes its number.
pub fn assign(sent: &mut SentPackets, now: u64, number: &mut u16) -> u32
    ensures assigns { AssignsNumber now sent.old result number.old number.new sent.new }
    ensures unchanged { result ≢ 0 → number.new ≡ number.old }
{
    match sent.assign(Ticks(now)) {
        Ok(assigned) => {
            *number = assigned;
            status::OK
        }
        Err(_) => status::OUT_OF_MEMORY,
    }
}
