//! The edges of a stream's pictures: they show which of its missing numbers carry no media.

ghost use Rattle.std.specs.Prelude.{◌≡◌};
ghost use Rattle.codec_payload_session_stream.specs.Streams.{FollowsDatagram, edge_rules_of};

use crate::stream::StreamState;
use codec_payload_datagrams::parsed::ParsedDatagram;
use codec_payload_jitter::outcome::Outcome;
use codec_payload_receiver::receiver::ReceiveError;
use codec_payload_stream_edges::rules::EdgeRules;

impl StreamState {
    /// Returns how packets of the stream say where pictures begin and end.
    #[inline(always)]
    fn edge_rules(&self) -> EdgeRules
        ensures { result ≡ edge_rules_of self.now }
    {
        EdgeRules::new(
            self.format.spec.codec,
            self.descriptor,
            self.format.payload_type,
            self.format.red,
            self.format.retransmission,
        )
    }

    /// Records which numbers carry no media, by the edges of the stream's pictures. `answer` is what the receiver returned for the
    /// datagram.
    #[inline(always)]
    pub(crate) fn follow_edges(
        &mut self,
        datagram: &ParsedDatagram<'_>,
        answer: &Result<Outcome, ReceiveError>,
    )
        ensures { FollowsDatagram datagram.now answer.now self.old self.new }
    {
        self.quiet_until = 0;
        let rules = self.edge_rules();
        self.receiver
            .follow(&mut self.edges, &rules, datagram, answer);
    }
}
