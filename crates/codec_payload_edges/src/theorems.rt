//! What is proved of the numbers between pictures. These functions exist for what they prove; they do nothing.

ghost use Rattle.codec_payload_edges.specs.OwnSenders.{Vp8SendsInOrder, Vp9SendsInOrder};
ghost use Rattle.codec_payload_edges.specs.Senders.{AreBetweenPictures, CarryNoMedia, FindsNothing};

/// Proves for each sender that sends its pictures in order, and gives them ids that rise: a number that [`PictureEdges::hear`] returns was
/// never sent as media. Whatever packets are lost, late or repeated, in any order. Of a sender that sends media alone no number is found.
///
/// [`PictureEdges::hear`]: crate::pictures::PictureEdges::hear
pub fn between_pictures_is_no_media()
    ensures found { AreBetweenPictures }
    ensures no_media { CarryNoMedia }
    ensures nothing { FindsNothing }
{}

/// Proves that the library's own packetizers of VP8 and VP9 with picture ids are such senders, if their payloads get consecutive numbers
/// and the last payload of each frame the marker: for any frames, MTUs and faults.
pub fn packetizers_send_in_order()
    ensures vp8 { Vp8SendsInOrder }
    ensures vp9 { Vp9SendsInOrder }
{}
