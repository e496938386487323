//! Keyframes that the caller of a session asks for.

ghost use Rattle.std.specs.Prelude.{◌≡◌, ◌<◌, Option, length};
ghost use Rattle.std.specs.List.{position};
ghost use Rattle.codec_payload_session.specs.Arrivals.{has_ssrc};
ghost use Rattle.codec_payload_session.specs.Keyframes.{KeyframeLeaves, answer_among, asked_among, asks_keyframe};
ghost use Rattle.codec_payload_session_requests.specs.declared.requests.KeyframeAnswer.TheVariants as answers;

use crate::session::Session;
use crate::streams::Streams;
pub use codec_payload_session_requests::requests::KeyframeAnswer;

impl Session {
    /// Asks the sender of the stream with this SSRC for a keyframe, by a PLI (RFC 4585, section 6.3.1): for another receiver that
    /// needs one, as a viewer that joins or that sent a PLI. The PLI is in the stream's next packet of requests
    /// ([`Event::Feedback`]), beside what the session requests itself. So all requests for keyframes share the session's limit:
    ///
    /// - Two PLIs of a stream are at least [`FeedbackSettings::keyframe_interval`] apart, whoever asked for them. Within the interval a
    ///   request waits. [`Session::next_deadline`] is at most the time at which it can leave.
    /// - One PLI answers all requests before it. A keyframe that a poll returns does so too: then no PLI is sent for them.
    /// - A PLI can be lost. Call it again as long as you need a keyframe, as often as you like: a request that waits stays one request.
    /// - A stream in probation sends its PLI once it is announced, and a stream whose sender is silent
    ///   ([`FeedbackSettings::silence`]) once a datagram arrives.
    ///
    /// With two streams of the SSRC, as after a change of format, the first one asks. At the end of a stream its request is
    /// dropped. The cost is a search for the SSRC. Allocates nothing.
    ///
    /// [`Event::Feedback`]: crate::session::Event::Feedback
    /// [`FeedbackSettings::keyframe_interval`]: codec_payload_session_formats::formats::FeedbackSettings::keyframe_interval
    /// [`FeedbackSettings::silence`]: codec_payload_session_formats::formats::FeedbackSettings::silence
    pub fn request_keyframe(&mut self, ssrc: u32) -> KeyframeAnswer
        ensures answer { result ≡ answer_among (position (has_ssrc ssrc) self.old.port.streams) self.old.port.streams }
        // Nothing else changes.
        ensures after { self.new ≡ asks_keyframe ssrc self.old }
        // When the PLI leaves.
        ensures leaves { result ≡ answers.Requested → KeyframeLeaves ssrc self.new }
    {
        self.streams.request_keyframe(ssrc)
    }
}

impl Streams {
    /// Asks for a keyframe of the first stream with this SSRC.
    pub(crate) fn request_keyframe(&mut self, ssrc: u32) -> KeyframeAnswer
        ensures answer { result ≡ answer_among (position (has_ssrc ssrc) self.old.streams) self.old.streams }
        ensures after { self.new ≡ asked_among (position (has_ssrc ssrc) self.old.streams) self.old }
    {
        match self.place_of_ssrc(ssrc) {
            Some(place) => self.request_keyframe_at(place),
            None => KeyframeAnswer::NoStream,
        }
    }

    /// Asks for a keyframe of the stream at this place.
    fn request_keyframe_at(&mut self, place: usize) -> KeyframeAnswer
        requires { place < length self.old.streams }
        ensures answer { result ≡ answer_among (Option.Some place) self.old.streams }
        ensures after { self.new ≡ asked_among (Option.Some place) self.old }
    {
        self.waking.forget();
        self.list[place].request_keyframe()
    }
}
