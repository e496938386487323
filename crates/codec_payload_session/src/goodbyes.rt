//! BYEs of RTCP (RFC 3550, section 6.6): the streams that they name leave.

ghost use Rattle.std.specs.Prelude.{◌≡◌, false};
ghost use Rattle.codec_payload_base.specs.Answers.{Finds};
ghost use Rattle.codec_payload_rtcp.specs.RtcpValues.{packet_of};
ghost use Rattle.codec_payload_session.specs.Arrivals.{includes, left_where, named_in, says_goodbye, source_at_front};
ghost use Rattle.codec_payload_session_stream.specs.Waking.{ssrcs_of};
ghost use Rattle.codec_payload_session_stream.specs.declared.stream.Ending.TheVariants as endings;
ghost use Rattle.codec_payload_session.specs.declared.streams.Who.TheVariants as whos;

use crate::streams::{Who, leave_if};
use codec_payload_index::ssrcs::Ssrcs;
use codec_payload_rtcp::packet::RtcpPacket;
use codec_payload_session_stream::stream::{Ending, StreamState};

/// Ends the streams that the packet names, if it is a BYE. Without such a stream it returns `false`.
#[inline(always)]
pub(crate) fn leave_by_packet(
    streams: &mut [StreamState],
    ssrcs: &Ssrcs,
    packet: &RtcpPacket<'_>,
    at: u64,
) -> bool
    requires { ssrcs.now ≡ ssrcs_of streams.old }
    ensures left { streams.new ≡ left_where (λ ssrc. says_goodbye ssrc (packet_of packet.now)) endings.Bye at streams.old }
    ensures stays { result ≡ false → streams.new ≡ streams.old }
{
    match packet {
        RtcpPacket::Goodbye(goodbye) => leave_each(streams, ssrcs, goodbye.ssrcs, at),
        _ => false,
    }
}

/// Ends the streams of the SSRCs that a BYE names. Without such a stream it returns `false`.
fn leave_each(streams: &mut [StreamState], ssrcs: &Ssrcs, named: &[u8], at: u64) -> bool
    requires { ssrcs.now ≡ ssrcs_of streams.old }
    ensures left { streams.new ≡ left_where (named_in named.now) endings.Bye at streams.old }
    ensures stays { result ≡ false → streams.new ≡ streams.old }
{
    let mut rest = named;
    let mut ends = false;
    while let Some((ssrc, others)) = front_source(rest) {
        let left = leave_of(streams, ssrcs, ssrc, at);
        ends = either(ends, left);
        rest = others;
    }
    ends
}

/// Ends the streams of this SSRC, by the list of the SSRCs of the streams. Without one it returns `false`.
fn leave_of(streams: &mut [StreamState], ssrcs: &Ssrcs, ssrc: u32, at: u64) -> bool
    requires { ssrcs.now ≡ ssrcs_of streams.old }
    ensures left { streams.new ≡ left_where (includes (whos.Of ssrc)) endings.Bye at streams.old }
    ensures stays { result ≡ false → streams.new ≡ streams.old }
{
    let mut from = 0;
    while let Some(place) = ssrcs.find(ssrc, from) {
        leave_if(&mut streams[place], Who::Of(ssrc), Ending::Bye, at);
        from = place + 1;
    }
    from > 0
}

/// Returns the SSRC at the front, and the SSRCs after it.
#[tactic(auto, unfolding(crate::specs::Arrivals::source_at_front))]
fn front_source(ssrcs: &[u8]) -> Option<(u32, &[u8])>
    ensures { Finds (λ x. (x.0, x.1.now)) result (source_at_front ssrcs.now) }
{
    let [s3, s2, s1, s0, rest @ ..] = ssrcs else {
        return None;
    };
    Some((u32::from_be_bytes([*s3, *s2, *s1, *s0]), rest))
}

/// Returns whether one of them is true.
#[inline(always)]
pub(crate) fn either(one: bool, other: bool) -> bool
    ensures { result ≡ false → (one ≡ false) × (other ≡ false) }
{
    one || other
}
