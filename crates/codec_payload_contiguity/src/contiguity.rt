//! VP8 and VP9: whether picture ids allow a frame to be released, and whether it follows the previous frame (docs/use/FORMATS.md,
//! "Contiguity").

ghost use Rattle.std.specs.Prelude.{◌≡◌};
ghost use Rattle.codec_payload_contiguity.specs.ContiguityTable.{no_ids, verdict, vp8_verdict, vp9_verdict, checked, contiguity_for, Advances};
ghost use Rattle.codec_payload_codec.specs.Depacketizers.{depacketizer_state_of, kind_of_depacketizer};

use codec_payload_codec::codec::{CodecDepacketizer, CodecExtra, Vp8CodecExtra, Vp9CodecExtra};
use std::marker::Model;

/// The picture ids of released frames that a buffer remembers, by the codec of its depacketizer.
#[derive(Debug, Drop)]
pub enum Contiguity {
    Vp8(Vp8Contiguity),
    Vp9(Vp9Contiguity),
    /// The codec has no picture ids: only sequence numbers count.
    None,
}

impl Contiguity {
    /// Creates the state for this depacketizer, before the first released frame.
    pub fn of<B>(depacketizer: &CodecDepacketizer<B>) -> Self
        ensures { result ≡ contiguity_for (kind_of_depacketizer (depacketizer_state_of depacketizer.now)) }
    {
        match depacketizer {
            CodecDepacketizer::Vp8(_) => Contiguity::Vp8(Vp8Contiguity::new()),
            CodecDepacketizer::Vp9(_) => Contiguity::Vp9(Vp9Contiguity::new()),
            _ => Contiguity::None,
        }
    }

    /// Returns whether a frame can be released, and whether it follows the previous one. `contiguous_seq` says whether its
    /// sequence numbers follow; this is the answer if the codec-specific data is of another codec.
    #[inline(always)]
    pub fn check(&mut self, next: &CodecExtra, contiguous_seq: bool) -> (bool, bool)
        ensures { checked self.old next.now contiguous_seq ≡ (result.0, result.1, self.new) }
    {
        match (self, next) {
            (Contiguity::Vp8(contiguity), CodecExtra::Vp8(next)) => {
                contiguity.check(next, contiguous_seq)
            }
            (Contiguity::Vp9(contiguity), CodecExtra::Vp9(next)) => {
                contiguity.check(next, contiguous_seq)
            }
            _ => (true, contiguous_seq),
        }
    }
}

/// The picture ids of the latest released VP8 frame with both ids.
#[derive(Debug, Drop)]
pub struct Vp8Contiguity {
    ids: FrameContiguityState,
}

impl Model for Vp8Contiguity {
    ghost use Rattle.codec_payload_contiguity.specs.declared.contiguity.FrameContiguityState.{FrameContiguityState as Ids};

    ghost Value = { Ids };

    ghost view = { λ c. c.ids };
}

impl Vp8Contiguity {
    /// No frame was released.
    pub fn new() -> Self
        ensures { result ≡ no_ids }
    {
        Vp8Contiguity {
            ids: FrameContiguityState {
                last_picture_id: None,
                last_tl0_picture_id: None,
            },
        }
    }

    /// Returns whether the frame can be released, and whether it follows the previous one.
    pub fn check(&mut self, next: &Vp8CodecExtra, contiguous_seq: bool) -> (bool, bool)
        ensures { vp8_verdict self.old next.now contiguous_seq ≡ (result.0, result.1, self.new) }
    {
        self.ids.next_frame(
            next.picture_id,
            next.tl0_picture_id,
            Some(u64::from(next.layer_index)),
            next.is_keyframe,
            contiguous_seq,
        )
    }
}

impl Default for Vp8Contiguity {
    fn default() -> Self
        ensures { result ≡ no_ids }
    {
        Vp8Contiguity::new()
    }
}

/// The picture ids of the latest released VP9 frame with both ids.
#[derive(Debug, Drop)]
pub struct Vp9Contiguity {
    ids: FrameContiguityState,
}

impl Model for Vp9Contiguity {
    ghost use Rattle.codec_payload_contiguity.specs.declared.contiguity.FrameContiguityState.{FrameContiguityState as Ids};

    ghost Value = { Ids };

    ghost view = { λ c. c.ids };
}

impl Vp9Contiguity {
    /// No frame was released.
    pub fn new() -> Self
        ensures { result ≡ no_ids }
    {
        Vp9Contiguity {
            ids: FrameContiguityState {
                last_picture_id: None,
                last_tl0_picture_id: None,
            },
        }
    }

    /// Returns whether the frame can be released, and whether it follows the previous one.
    pub fn check(&mut self, next: &Vp9CodecExtra, contiguous_seq: bool) -> (bool, bool)
        ensures { vp9_verdict self.old next.now contiguous_seq ≡ (result.0, result.1, self.new) }
    {
        let layer = match next.tid {
            Some(tid) => Some(u64::from(tid)),
            None => None,
        };
        self.ids.next_frame(
            next.picture_id,
            next.tl0_picture_id,
            layer,
            next.is_keyframe,
            contiguous_seq,
        )
    }
}

impl Default for Vp9Contiguity {
    fn default() -> Self
        ensures { result ≡ no_ids }
    {
        Vp9Contiguity::new()
    }
}

/// The ids of the latest released frame with both ids, as both codecs use them.
#[derive(Debug, Drop)]
pub struct FrameContiguityState {
    pub last_picture_id: Option<u64>,
    pub last_tl0_picture_id: Option<u64>,
}

impl FrameContiguityState {
    /// Returns whether a frame can be released, and whether it follows the previous one:
    ///
    /// - A frame that lacks an id can be released, and follows if its sequence numbers do.
    /// - The first frame with both ids can be released, and follows.
    /// - An older frame cannot be released, unless it is a keyframe, which starts again and does not follow.
    /// - A frame of the base layer can be released, and follows if its base is the next one.
    /// - A frame of another layer can be released only if it is the very next picture on the same base; then it follows.
    pub fn next_frame(
        &mut self,
        picture_id: Option<u64>,
        tl0_picture_id: Option<u64>,
        layer_index: Option<u64>,
        is_keyframe: bool,
        contiguous_seq: bool,
    ) -> (bool, bool)
        ensures table { verdict self.old picture_id tl0_picture_id layer_index is_keyframe contiguous_seq ≡ (result.0, result.1, self.new) }
        ensures advances { Advances self.old picture_id tl0_picture_id is_keyframe result.0 }
    {
        let (Some(picture_id), Some(tl0_picture_id)) = (picture_id, tl0_picture_id) else {
            return (true, contiguous_seq);
        };
        let (Some(last_picture_id), Some(last_tl0_picture_id)) = (
            self.last_picture_id,
            self.last_tl0_picture_id,
        ) else {
            self.last_picture_id = Some(picture_id);
            self.last_tl0_picture_id = Some(tl0_picture_id);
            return (true, true);
        };
        if is_keyframe && picture_id <= last_picture_id {
            self.last_picture_id = Some(picture_id);
            self.last_tl0_picture_id = Some(tl0_picture_id);
            return (true, false);
        }
        if picture_id <= last_picture_id {
            return (false, true);
        }
        if layer_index == Some(0) {
            self.last_picture_id = Some(picture_id);
            self.last_tl0_picture_id = Some(tl0_picture_id);
            return (true, tl0_picture_id == last_tl0_picture_id.wrapping_add(1));
        }
        if tl0_picture_id == last_tl0_picture_id && picture_id == last_picture_id.wrapping_add(1) {
            self.last_picture_id = Some(picture_id);
            return (true, true);
        }
        (false, true)
    }
}

impl From<&mut Vp8Contiguity> for FrameContiguityState {
    fn from(value: &mut Vp8Contiguity) -> Self
        ensures same { result ≡ value.old }
        ensures stays { value.new ≡ value.old }
    {
        FrameContiguityState {
            last_picture_id: value.ids.last_picture_id,
            last_tl0_picture_id: value.ids.last_tl0_picture_id,
        }
    }
}

impl From<&mut Vp9Contiguity> for FrameContiguityState {
    fn from(value: &mut Vp9Contiguity) -> Self
        ensures same { result ≡ value.old }
        ensures stays { value.new ≡ value.old }
    {
        FrameContiguityState {
            last_picture_id: value.ids.last_picture_id,
            last_tl0_picture_id: value.ids.last_tl0_picture_id,
        }
    }
}

impl From<FrameContiguityState> for Vp8Contiguity {
    fn from(value: FrameContiguityState) -> Self
        ensures { result ≡ value }
    {
        Vp8Contiguity { ids: value }
    }
}

impl From<FrameContiguityState> for Vp9Contiguity {
    fn from(value: FrameContiguityState) -> Self
        ensures { result ≡ value }
    {
        Vp9Contiguity { ids: value }
    }
}
