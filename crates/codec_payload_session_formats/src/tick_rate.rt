//! The settings of a session for a clock with another number of ticks per second.

ghost use Rattle.std.specs.Prelude.{◌≡◌};
ghost use Rattle.codec_payload_session_formats.specs.TickRates.{feedback_at, late_at, nack_at, session_at, transport_at};

use crate::formats::{FeedbackSettings, SessionSettings};
use codec_payload_base::wire::Frequency;
use codec_payload_feedback::transport::TransportSettings;
use codec_payload_feedback_requests::nack::NackSettings;
use codec_payload_feedback_wait::adaptive_wait::AdaptiveWaitSettings;
use codec_payload_receiver::tick_rate::{limits_at, ticks_at, ticks_at_if};

/// Returns the same times between requests of missing packets.
fn nack_at(before: Frequency, after: Frequency, nack: NackSettings) -> NackSettings
    ensures { result ≡ nack_at before after nack }
{
    NackSettings {
        first_wait: ticks_at(before, after, nack.first_wait),
        retry: ticks_at(before, after, nack.retry),
        shortest_retry: ticks_at(before, after, nack.shortest_retry),
        longest_retry: ticks_at(before, after, nack.longest_retry),
        ..nack
    }
}

/// Returns the same bounds of a wait that follows how late packets arrive.
fn late_at(before: Frequency, after: Frequency, late: AdaptiveWaitSettings) -> AdaptiveWaitSettings
    ensures { result ≡ late_at before after late }
{
    AdaptiveWaitSettings {
        shortest: ticks_at(before, after, late.shortest),
        longest: ticks_at(before, after, late.longest),
        first: ticks_at(before, after, late.first),
        lost_after: ticks_at(before, after, late.lost_after),
    }
}

/// Returns the same time between feedbacks on a transport.
fn transport_at(
    before: Frequency,
    after: Frequency,
    transport: TransportSettings,
) -> TransportSettings
    ensures { result ≡ transport_at before after transport }
{
    TransportSettings {
        interval: ticks_at(before, after, transport.interval),
        ..transport
    }
}

impl FeedbackSettings {
    /// Changes all times to ticks of a clock with `after` ticks per second, if they were of one with `before`.
    fn change_ticks(&mut self, before: Frequency, after: Frequency)
        ensures { self.new ≡ feedback_at before after self.old }
    {
        self.nack = nack_at(before, after, self.nack);
        self.keyframe_interval = ticks_at(before, after, self.keyframe_interval);
        self.silence = ticks_at(before, after, self.silence);
        self.longest_wait = ticks_at_if(before, after, self.longest_wait);
        self.report_interval = ticks_at_if(before, after, self.report_interval);
    }
}

impl SessionSettings {
    /// Sets the number of ticks per second of your clock. All times of these settings stay the same, those of `feedback` and `transport`
    /// among them: each gets its number of ticks of the new clock, rounded up, and at most 2^64 - 1. So settings by purpose, which are for a
    /// clock of milliseconds, serve each clock. Call it once all times are set.
    pub fn set_tick_rate(&mut self, tick_rate: Frequency)
        ensures { self.new ≡ session_at tick_rate self.old }
    {
        let before = self.tick_rate;
        self.audio = limits_at(before, tick_rate, self.audio);
        self.video = limits_at(before, tick_rate, self.video);
        self.late = late_at(before, tick_rate, self.late);
        self.idle_timeout = ticks_at(before, tick_rate, self.idle_timeout);
        self.bye_wait = ticks_at(before, tick_rate, self.bye_wait);
        if let Some(feedback) = &mut self.feedback {
            feedback.change_ticks(before, tick_rate);
        }
        if let Some(transport) = self.transport {
            self.transport = Some(transport_at(before, tick_rate, transport));
        }
        self.tick_rate = tick_rate;
    }
}
