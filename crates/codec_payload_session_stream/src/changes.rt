//! A sender that continues in another format: its earlier stream leaves, and the new one has the names of the SSRC.

ghost use Rattle.std.specs.Prelude.{◌≡◌, true};
ghost use Rattle.std.specs.List.{position};
ghost use Rattle.codec_payload_session_stream.specs.Changes.{are_alike, continued, continues, plays, takes_turns};
ghost use Rattle.codec_payload_session_formats.specs.Formats.{is_video};

use crate::stream::StreamState;
use codec_payload_base::wire::Codec;
use codec_payload_session_formats::formats::{Format, is_video};
use codec_payload_session_formats::names::StreamNames;

/// Returns whether this codec is sent in turn with audio that goes on.
#[inline(always)]
pub(crate) fn takes_turns(codec: Codec) -> bool
    ensures { result ≡ takes_turns codec }
{
    matches!(codec, Codec::CN | Codec::Tele)
}

/// Returns whether both codecs are of audio, or both of video.
#[inline(always)]
pub(crate) fn are_alike(one: Codec, other: Codec) -> bool
    ensures { result ≡ are_alike (is_video one) (is_video other) }
{
    is_video(one) == is_video(other)
}

impl StreamState {
    /// Gives a new stream the names that another stream of its SSRC has.
    pub fn tell_names(&mut self, names: StreamNames)
        ensures { self.new ≡ record self.old { names = names } }
    {
        self.quiet_until = 0;
        self.names = names;
    }
}

/// Returns whether the sender continues in this format: its stream is announced.
#[inline(never)]
pub fn continues(streams: &[StreamState], ssrc: u32, format: &Format) -> bool
    ensures { result ≡ continues ssrc format.now streams.now }
{
    !takes_turns(format.spec.codec) && playing(streams, ssrc, format.payload_type).is_some()
}

/// Returns the place of the stream with this SSRC and payload type, if it plays.
fn playing(streams: &[StreamState], ssrc: u32, payload_type: u8) -> Option<usize>
    ensures { result ≡ position (plays ssrc payload_type) streams.now }
{
    streams.iter().position(|s| s.plays(ssrc, payload_type))
}

/// Ends the streams that the sender left for this format.
#[cold]
#[inline(never)]
pub fn leave_behind(streams: &mut [StreamState], now: u64, wait: u64, of: (u32, Format))
    ensures { streams.new ≡ continued true now wait of.0 of.1 streams.old }
{
    for place in 0..streams.len() {
        streams[place].leave_behind(now, wait, of.0, &of.1);
    }
}
