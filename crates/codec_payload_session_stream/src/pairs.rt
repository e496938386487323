//! Pairs of SSRCs that become known while a session runs.

ghost use Rattle.std.specs.Prelude.{◌≡◌, IfOk};
ghost use Rattle.codec_payload_session_formats.specs.Formats.{stream_of};
ghost use Rattle.codec_payload_session_stream.specs.Pairs.{is_apart, paired_where, with_pair, without_pair};

use crate::stream::StreamState;
use codec_payload_session_formats::formats::SsrcPair;
use std::alloc::{AllocError, Global};

/// Returns the pairs and one more, which replaces those that have one of its SSRCs in the same place.
pub fn with_pair(
    alloc: Global,
    pairs: &[SsrcPair],
    pair: SsrcPair,
) -> Result<Vec<SsrcPair>, AllocError>
    ensures { IfOk result (λ named. named.items ≡ with_pair pair pairs.now) }
{
    let mut named = Vec::from_slice(alloc, pairs)?;
    named.retain(|other| is_apart(pair, *other));
    named.push(pair)?;
    Ok(named)
}

/// Returns whether the other pair has both another stream and other retransmissions.
fn is_apart(pair: SsrcPair, other: SsrcPair) -> bool
    ensures { result ≡ is_apart pair other }
{
    other.ssrc != pair.ssrc && other.retransmission != pair.retransmission
}

/// Removes the pairs of this stream's SSRC.
pub fn remove_pair(pairs: &mut Vec<SsrcPair>, ssrc: u32)
    ensures { pairs.new.items ≡ without_pair ssrc pairs.old.items }
{
    pairs.retain(|pair| pair.ssrc != ssrc);
}

/// Gives the streams of this SSRC the retransmissions that they have by these pairs.
pub fn pair(streams: &mut [StreamState], ssrc: u32, pairs: &[SsrcPair])
    ensures { streams.new ≡ paired_where ssrc pairs.now streams.old }
{
    for place in 0..streams.len() {
        streams[place].pair_if(ssrc, pairs);
    }
}
