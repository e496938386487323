//! The limit of retransmissions to a viewer.

ghost use Rattle.std.specs.Prelude.{◌≡◌};
ghost use Rattle.codec_payload_bandwidth_pacer.specs.Resending.{after_resend, after_sent, answer_to, new_limit};
ghost use Rattle.codec_payload_c_path.specs.Limits.{answer_number};
ghost use Rattle.codec_payload_c_path.specs.Settings.{limit_set};

use crate::path_settings::{ResendLimitSettings, limit_set};
use codec_payload_bandwidth_pacer::resends::{ResendLimit, ResendRefused};
use codec_payload_base::wire::Ticks;

/// Returns the number of what a limit answers to a request: 0 if the packet may be retransmitted.
pub fn answer_number(answer: Result<(), ResendRefused>) -> u32
    ensures { result ≡ answer_number answer }
{
    match answer {
        Ok(()) => 0,
        Err(ResendRefused::TooSoon) => 1,
        Err(ResendRefused::Share) => 2,
        Err(ResendRefused::TooMany) => 3,
    }
}

/// Returns the limit of a viewer to whom nothing was sent.
pub fn limit_by(settings: &ResendLimitSettings) -> ResendLimit
    ensures { result ≡ new_limit (limit_set settings.now) }
{
    ResendLimit::new(limit_set(settings))
}

/// Counts a packet that is sent for the first time.
pub fn count_sent(limit: &mut ResendLimit, now: u64, size: u32)
    ensures { limit.new ≡ after_sent now size limit.old }
{
    limit.sent(Ticks(now), size);
}

/// Asks whether the packet with this number may be retransmitted now, and returns the number of the answer.
pub fn ask(limit: &mut ResendLimit, now: u64, number: u16, size: u32, round_trip: u64) -> u32
    ensures answer { result ≡ answer_number (answer_to now number size limit.old) }
    ensures after { limit.new ≡ after_resend now number size round_trip limit.old }
{
    answer_number(limit.resend(Ticks(now), number, size, round_trip))
}
