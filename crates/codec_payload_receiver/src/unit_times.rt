//! The RTP times of released units.

ghost use Rattle.std.specs.Prelude.{◌≡◌};
ghost use Rattle.codec_payload_buffer.specs.Steps.{popped_to};
ghost use Rattle.codec_payload_receiver.specs.Sessions.{time_with};

use codec_payload_base::error::PacketError;
use codec_payload_buffer::buffer::{Depacketized, PoppedUnit};
use codec_payload_rtp::times::RtpTimes;

/// Extends the RTP time of a released unit.
pub(crate) fn extend_with(times: &mut RtpTimes, answer: &Option<Result<Depacketized, PacketError>>)
    ensures { times.new ≡ time_with times.old answer.now }
{
    if let Some(Ok(unit)) = answer {
        times.extend((unit.time.numer() % (1 << 32)) as u32);
    }
}

/// Does the same for a unit that was released into memory that is used again.
#[inline(always)]
pub(crate) fn extend_to(
    times: &mut RtpTimes,
    answer: &Option<Result<(), PacketError>>,
    unit: &PoppedUnit,
)
    ensures { times.new ≡ time_with times.old (popped_to answer.now unit.now) }
{
    if let Some(Ok(())) = answer {
        times.extend((unit.time.numer() % (1 << 32)) as u32);
    }
}
