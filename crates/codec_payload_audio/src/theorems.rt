//! Theorems on AMR-WB payloads and on pieces. These functions exist for their proofs and do nothing.

ghost use Rattle.codec_payload_audio.specs.AmrWbPayload.{ReceivedIsSpelled, SentIsSpelled, SpelledIsReceived};
ghost use Rattle.codec_payload_base.specs.Pieces.{IsOneList};

/// A payload that is spelled from a mode request, a table of contents and the speech of its entries, with any value in the unused
/// bits, is received as those frames, each in canonical form. Every received payload has such a spelling (RFC 4867, sections 4.3
/// and 4.4). The payload sent for a frame is spelled so too.
pub fn payloads_follow_the_grammar()
    ensures received { SpelledIsReceived }
    ensures spelled { ReceivedIsSpelled }
    ensures sent { SentIsSpelled }
{}

/// The pieces of a frame are one list: whatever has their sizes and joins to the frame is that list.
pub fn pieces_are_one()
    ensures { IsOneList }
{}
