//! Theorems on the units of a session's streams. These functions exist for their proofs and do nothing.

ghost use Rattle.codec_payload_session_units.specs.Example.{StreamsCanBeMet};
ghost use Rattle.codec_payload_session_units.specs.OneRedSender.{RedStreamsReleaseUnits};
ghost use Rattle.codec_payload_session_units.specs.RedExample.{RedStreamCanBeMet};
ghost use Rattle.codec_payload_session_units.specs.RedStreamLogs.{RedStreamsKeepPromises};
ghost use Rattle.codec_payload_session_units.specs.StreamUnits.{AllStreamsReleaseUnits, EndedStreamsReleaseUnits, StreamsReleaseUnits};

use codec_payload_edges::theorems::{between_pictures_is_no_media, packetizers_send_in_order};

/// The units of a stream of a session are the units of its sender's samples, if each datagram that the stream took is one of that
/// sender's, or a retransmission of one, within the windows. The events have the units in order, each at most once and complete. None
/// is lost silently: see [`run_new_session`] for runs, and `docs/proof/STREAM_UNITS.md` for the premises.
///
/// [`run_new_session`]: codec_payload_session_runs::run::run_new_session
pub fn streams_release_units()
    ensures units { StreamsReleaseUnits }
    // So each stream that a session has has its sender's units.
    ensures each { AllStreamsReleaseUnits }
    // And each stream that ended with an event.
    ensures ended { EndedStreamsReleaseUnits }
{
    between_pictures_is_no_media();
    packetizers_send_in_order();
}

/// The same for a stream in RED (RFC 2198) without retransmissions: the events have the units of its sender's samples, in order, each
/// at most once and complete. A packet may come as a block of a later datagram.
pub fn red_streams_release_units()
    ensures units { RedStreamsReleaseUnits }
    // Pop by pop: what each datagram brings, and that no unit is lost silently.
    ensures promises { RedStreamsKeepPromises }
{}

/// The premises can be met by two streams of one run: of three datagrams of each sender the second is lost, and one stream gets its
/// retransmission.
pub fn premises_can_be_met()
    ensures { StreamsCanBeMet }
{}

/// The premises in RED can be met: of three datagrams the second is lost, and the third repeats its payload.
pub fn red_premises_can_be_met()
    ensures { RedStreamCanBeMet }
{}
