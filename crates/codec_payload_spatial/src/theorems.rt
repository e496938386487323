//! What is proved of the layers that are kept. These functions exist for what they prove; they do nothing.

ghost use Rattle.codec_payload_spatial.specs.Spatial.{KeptLayersAreWhole, OneMarkerEnds};

/// Proves for any calls of a filter: since the latest intra picture that began, no picture was left out of the layers that are kept. So
/// each frame has the frames that it refers to, if those are of the same picture, or of its layer or a lower one since then.
pub fn kept_layers_are_whole()
    ensures { KeptLayersAreWhole }
{}

/// Proves of a picture whose layers come in order, and of any highest layer that is kept: of the packets that are kept, the last one has
/// the marker, and no other.
pub fn one_marker_ends_a_picture()
    ensures { OneMarkerEnds }
{}
