//! What is proved of the packets that are followed, and of the numbers that are noted. These functions exist for what they prove; they do
//! nothing.

ghost use Rattle.codec_payload_stream_edges.specs.Agreement.{FollowsWhatIsStored, RulesFit};
ghost use Rattle.codec_payload_stream_edges.specs.OwnRuns.{NoteNoneOfVp8, NoteNoneOfVp9};
ghost use Rattle.codec_payload_stream_edges.specs.Runs.{NoteBetweenPictures, NoteNoMedia};

use codec_payload_edges::theorems::{between_pictures_is_no_media, packetizers_send_in_order};

/// Proves for each run of calls of [`StreamEdges::follow`] and [`StreamEdges::forget`], whatever the receiver does between them: a number
/// that is noted lies between two packets that were stored, one of which ends a picture, while the other begins the next one. No packet
/// with the number is held, and none was released. If the sender sends its pictures in order, and gives them ids that rise, the number was
/// not sent as media, whatever is lost, late or repeated.
///
/// [`StreamEdges::follow`]: crate::following::StreamEdges::follow
/// [`StreamEdges::forget`]: crate::following::StreamEdges::forget
pub fn noted_numbers_carry_no_media()
    ensures between { NoteBetweenPictures }
    ensures no_media { NoteNoMedia }
{
    between_pictures_is_no_media();
}

/// Proves that the packet that is followed is the one that the receiver stores: it has the same number, header extension and payload, for
/// any bytes. The rules have the payload types of the receiver, and the types of retransmissions differ from the others. Those of
/// [`EdgeRules::of`] have the types of each receiver with the same settings.
///
/// [`EdgeRules::of`]: crate::rules::EdgeRules::of
pub fn followed_packets_are_the_stored_ones()
    ensures same { FollowsWhatIsStored }
    ensures fit { RulesFit }
{}

/// Proves the same for the library's own packetizers of VP8 and VP9 with picture ids, for any frames, MTUs and faults: no number of one of
/// their payloads is noted, if the packets that were stored are such payloads, under consecutive numbers, and the last payload of each
/// frame has the marker.
pub fn media_of_packetizers_is_not_noted()
    ensures vp8 { NoteNoneOfVp8 }
    ensures vp9 { NoteNoneOfVp9 }
{
    between_pictures_is_no_media();
    packetizers_send_in_order();
}
