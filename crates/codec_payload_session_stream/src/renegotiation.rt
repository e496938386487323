//! Formats that change while a session lives: the streams of formats that are gone end.

ghost use Rattle.std.specs.Prelude.{◌≡◌, IsFalse, IsTrue};
ghost use Rattle.codec_payload_session_stream.specs.Renegotiation.{IsAmong, IsGone, StayOrEnd};

use crate::stream::{Ending, StreamState};
use codec_payload_base::wire::CodecSpec;
use codec_payload_receiver::receiver::RedSettings;
use codec_payload_session_formats::formats::Format;

/// Returns whether both formats are the same, with all of their fields.
fn is_same(one: &Format, other: &Format) -> bool
    ensures same { IsTrue result → one.now ≡ other.now }
    ensures different { IsFalse result → one.now ≡ other.now → IsTrue result }
{
    is_same_spec(&one.spec, &other.spec)
        && is_same_red(&one.red, &other.red)
        && is_same_beside(one, other)
}

/// Returns whether both media are the same.
fn is_same_spec(one: &CodecSpec, other: &CodecSpec) -> bool
    ensures same { IsTrue result → one.now ≡ other.now }
    ensures different { IsFalse result → one.now ≡ other.now → IsTrue result }
{
    *one == *other
}

/// Returns whether RED is the same.
fn is_same_red(one: &Option<RedSettings>, other: &Option<RedSettings>) -> bool
    ensures same { IsTrue result → one.now ≡ other.now }
    ensures different { IsFalse result → one.now ≡ other.now → IsTrue result }
{
    *one == *other
}

/// Returns whether all other fields are the same.
fn is_same_beside(one: &Format, other: &Format) -> bool
    ensures same { IsTrue result → one.now ≡ record other.now { spec = one.now.spec; red = one.now.red } }
    ensures different { IsFalse result → one.now ≡ other.now → IsTrue result }
{
    one.payload_type == other.payload_type
        && one.retransmission == other.retransmission
        && one.nack == other.nack
        && one.pli == other.pli
        && one.wait == other.wait
}

/// Returns whether one of the formats is this one.
fn has_format(formats: &[Format], format: &Format) -> bool
    ensures there { IsTrue result → IsAmong format.now formats.now }
    ensures gone { IsFalse result → IsGone format.now formats.now }
{
    for other in formats {
        if is_same(other, format) {
            return true;
        }
    }
    false
}

/// Ends the streams at that time whose formats are not among these.
pub fn leave_formats(streams: &mut [StreamState], formats: &[Format], at: u64)
    ensures { StayOrEnd formats.now at streams.old streams.new }
{
    for place in 0..streams.len() {
        let stream = &mut streams[place];
        let is_gone = !has_format(formats, &stream.format);
        stream.leave_if(is_gone, Ending::Changed, at);
    }
}
