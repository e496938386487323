//! Extended reports of a session (RFC 3611): it measures the round trip to its peer, and answers the reference times of others.

ghost use Rattle.std.specs.Prelude.{◌≡◌, false};
ghost use Rattle.codec_payload_rtcp.specs.RtcpReading.{compound_at};
ghost use Rattle.codec_payload_session.specs.Arrivals.{exchanged_by, exchanged_in, with_trip};
ghost use Rattle.codec_payload_session.specs.Reporting.{is_reporting, noted_sent};

use crate::reporter::any_announced;
use crate::streams::Streams;
use codec_payload_base::wire::{Frequency, Ticks};
use codec_payload_rtcp::compound::{CompoundRule, read_compound};
use codec_payload_session_formats::formats::SessionSettings;
use codec_payload_session_stream::trips::tell_all;

impl Streams {
    /// Takes the extended reports of a datagram of RTCP, if the session has them.
    pub(crate) fn exchange_by(&mut self, settings: &SessionSettings, now: Ticks, datagram: &[u8])
        ensures { self.new ≡ exchanged_by settings.now.feedback settings.now.tick_rate now.0 datagram.now self.old }
    {
        if let Some(feedback) = &settings.feedback {
            if feedback.extended {
                self.exchange_at(feedback.ssrc, settings.tick_rate, now, datagram);
            }
        }
    }

    /// Takes the extended reports of a datagram of RTCP for this SSRC. If it has an answer, all streams follow its round trip.
    #[inline(never)]
    fn exchange_at(&mut self, ssrc: u32, tick_rate: Frequency, now: Ticks, datagram: &[u8])
        ensures { self.new ≡ exchanged_in ssrc tick_rate now.0 (compound_at false datagram.now) self.old }
    {
        let Ok(packets) = read_compound(CompoundRule::ReducedSize, datagram) else {
            return;
        };
        if self.exchange.receive(ssrc, tick_rate, now, packets) {
            self.tell_trip();
        }
    }

    /// Passes the round trip of extended reports to all streams.
    fn tell_trip(&mut self)
        ensures { self.new ≡ with_trip self.old }
    {
        self.waking.forget();
        tell_all(&mut self.list, self.exchange.round_trip);
    }

    /// Notes that a report was sent. If too many had no answer, the answers to requests count again.
    pub(crate) fn note_sent(&mut self)
        ensures { self.new ≡ noted_sent self.old }
    {
        if self.exchange.sent() {
            self.tell_trip();
        }
    }

    /// Returns whether a report is to be sent: a stream is announced, or a reference time waits for its answer.
    pub(crate) fn is_reporting(&self) -> bool
        ensures { result ≡ is_reporting self.now }
    {
        any_announced(&self.list) || self.exchange.peer.is_some()
    }
}
