//! Theorems on runs of a media server. These functions exist for their proofs and do nothing.

ghost use Rattle.codec_payload_server_runs.specs.ServeLeaveRunExample.{ServingLeavingOutCanBeMet};
ghost use Rattle.codec_payload_server_runs.specs.ServeRunExample.{ServingCanBeMet};
ghost use Rattle.codec_payload_server_runs.specs.ServeStoreRunExample.{ServingWithStoreCanBeMet};

/// The premises of a run of a media server can be met: two datagrams of Opus come to a new session. The second one was lost on the
/// first hop, and comes as a retransmission. The viewer gets both, in another order, before the stream ends.
pub fn serving_premises_can_be_met()
    ensures { ServingCanBeMet }
{}

/// The premises of a run of a media server with a store can be met: of three datagrams of Opus the second one was lost on the first hop,
/// and comes as a retransmission. It is lost on the second hop too, and the viewer gets it from the store, before the stream ends.
pub fn serving_with_store_premises_can_be_met()
    ensures { ServingWithStoreCanBeMet }
{}

/// The premises of a run of a media server that leaves a frame out can be met: of three frames the second is left out, which was lost on
/// the first hop, and comes as a retransmission. The other two come to the viewer in another order. The frames are of Opus, and of VP8
/// with picture ids.
pub fn serving_leaving_out_premises_can_be_met()
    ensures { ServingLeavingOutCanBeMet }
{}
