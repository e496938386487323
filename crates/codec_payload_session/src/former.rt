//! Senders that continue under another SSRC.

ghost use Rattle.std.specs.Prelude.{◌≡◌, ◌<◌, IfSome, length};
ghost use Rattle.std.specs.List.{position};
ghost use Rattle.codec_payload_session.specs.Ports.{ssrc_among};
ghost use Rattle.codec_payload_session_stream.specs.Streams.{is_former};

use codec_payload_session_formats::names::StreamNames;
use codec_payload_session_stream::stream::StreamState;

/// Returns the SSRC of the first other stream that is announced and has these names.
pub(crate) fn former(streams: &[StreamState], ssrc: u32, names: StreamNames) -> Option<u32>
    ensures { result ≡ ssrc_among (position (is_former ssrc names) streams.now) streams.now }
{
    match place_of(streams, ssrc, names) {
        Some(place) => {
            let stream = &streams[place];
            Some(stream.ssrc)
        }
        None => None,
    }
}

/// Returns its place.
fn place_of(streams: &[StreamState], ssrc: u32, names: StreamNames) -> Option<usize>
    ensures value { result ≡ position (is_former ssrc names) streams.now }
    ensures within { IfSome result (λ at. at < length streams.now) }
{
    streams.iter().position(|s| s.is_former(ssrc, &names))
}
