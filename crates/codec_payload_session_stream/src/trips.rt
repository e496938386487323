//! The round trip that reports measured for all streams of a session.

ghost use Rattle.std.specs.Prelude.{◌≡◌};
ghost use Rattle.codec_payload_session_stream.specs.Streams.{trip_if};
ghost use Rattle.codec_payload_session_stream.specs.Trips.{ReportedTripsCount, with_round_trip, with_round_trips};

use crate::stream::StreamState;
use codec_payload_session_requests::requests::set_reported;

/// Proves that the round trip that reports measured counts for each stream that requests, whatever answers to requests came. Does
/// nothing.
pub fn reported_trips_count()
    ensures { ReportedTripsCount }
{}

impl StreamState {
    /// Sets the round trip that reports measured, in ticks. `None`: the answers to requests count. Waits follow it once a packet is
    /// accepted.
    pub fn tell_round_trip(&mut self, round_trip: Option<u64>)
        ensures { self.new ≡ with_round_trip round_trip self.old }
    {
        self.quiet_until = 0;
        set_reported(&mut self.feedback, round_trip);
    }

    /// Sets the round trip that reports measured, in ticks, and waits by it, if the stream has this SSRC and payload type. `None`: the
    /// answers to requests count.
    pub fn set_round_trip_if(&mut self, ssrc: u32, payload_type: u8, round_trip: Option<u64>)
        ensures { self.new ≡ trip_if ssrc payload_type round_trip self.old }
    {
        if self.is_of(ssrc, payload_type) {
            self.quiet_until = 0;
            set_reported(&mut self.feedback, round_trip);
            self.follow_round_trip();
        }
    }
}

/// Sets the round trip that reports measured for each stream.
pub fn tell_all(streams: &mut [StreamState], round_trip: Option<u64>)
    ensures { streams.new ≡ with_round_trips round_trip streams.old }
{
    for place in 0..streams.len() {
        streams[place].tell_round_trip(round_trip);
    }
}
