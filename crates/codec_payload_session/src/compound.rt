//! Compound packets of RTCP (RFC 3550, section 6.1): the sender reports and BYEs that they have.

ghost use Rattle.std.specs.Prelude.{◌≡◌, false};
ghost use Rattle.codec_payload_rtcp.specs.RtcpReading.{packets_left};
ghost use Rattle.codec_payload_session.specs.Arrivals.{left_where, say_goodbye};
ghost use Rattle.codec_payload_session_stream.specs.Reports.{noted_where};
ghost use Rattle.codec_payload_session_stream.specs.Waking.{ssrcs_of};
ghost use Rattle.codec_payload_session_stream.specs.declared.stream.Ending.TheVariants as endings;

use crate::goodbyes::{either, leave_by_packet};
use codec_payload_base::wire::Ticks;
use codec_payload_index::ssrcs::Ssrcs;
use codec_payload_rtcp::compound::Packets;
use codec_payload_session_stream::reports::note_packet;
use codec_payload_session_stream::stream::StreamState;

/// Takes the packets of a compound packet that arrived at `now`, each once. A sender report states the clock of the streams of its
/// SSRC. The streams that a BYE names end at `at`. If no stream ends, it returns `false`.
pub(crate) fn take_packets(
    streams: &mut [StreamState],
    ssrcs: &Ssrcs,
    now: Ticks,
    at: u64,
    mut packets: Packets<'_>,
) -> bool
    requires { ssrcs.now ≡ ssrcs_of streams.old }
    ensures taken { streams.new ≡ left_where (λ ssrc. say_goodbye ssrc (packets_left packets.entry)) endings.Bye at (noted_where now (packets_left packets.entry) streams.old) }
    ensures stays { result ≡ false → streams.new ≡ noted_where now (packets_left packets.entry) streams.old }
{
    let mut ends = false;
    while let Some(packet) = packets.next() {
        note_packet(streams, ssrcs, now, &packet);
        let named = leave_by_packet(streams, ssrcs, &packet, at);
        ends = either(ends, named);
    }
    ends
}
