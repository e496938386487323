//! Keyframes that the caller of a session asks for.

ghost use Rattle.std.specs.Prelude.{◌≡◌, ◌≢◌};
ghost use Rattle.codec_payload_c_receiving.specs.SessionKeyframes.{RequestsKeyframe, answer_number};

use codec_payload_handle::object::PortSession;
use codec_payload_handle::status;
use codec_payload_session::keyframe::KeyframeAnswer;

/// Returns the number of an answer.
fn number_of(answer: KeyframeAnswer) -> u32
    ensures { result ≡ answer_number answer }
{
    match answer {
        KeyframeAnswer::Requested => 0,
        KeyframeAnswer::NoStream => 1,
        KeyframeAnswer::NotNegotiated => 2,
    }
}

/// Asks the sender of a stream for a keyframe, and writes what the session does with the request.
pub fn request_keyframe(port: &mut PortSession, ssrc: u32, answer: &mut u32) -> u32
    ensures requests { RequestsKeyframe ssrc port.old result answer.new port.new }
    ensures unchanged { result ≢ 0 → answer.new ≡ answer.old }
{
    *answer = number_of(port.session.request_keyframe(ssrc));
    status::OK
}
