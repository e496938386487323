//! Which pictures of VP8 a decoder can show, by the ids and layers of their payload descriptors (RFC 7741, section 4.2).

ghost use Rattle.std.specs.Prelude.{◌≡◌, ◌≤◌, IfSome};
ghost use Rattle.codec_payload_keyframes.specs.Vp8Layers.{after_keyframe, after_picture, has_base, has_layers, layer_after, new_layer, picture_of, shows_picture};

use codec_payload_base::interface::CodecExtra;

/// The ids and the layer of a picture of VP8, and what they say of the pictures that it refers to.
#[derive(Clone, Copy, Debug, PartialEq, Eq)]
pub struct Vp8Picture {
    /// PictureID, extended beyond the bits that were sent.
    pub id: u64,
    /// TL0PICIDX, extended in the same way. A picture of the base layer depends on the one whose value is less by one, any other
    /// picture on the one with the same value.
    pub base: u64,
    /// The temporal layer (TID), 0 to 3. Layer 0 is the base layer.
    pub layer: u8,
    /// Whether the picture refers to pictures of the base layer alone (Y).
    pub sync: bool,
    /// Whether no picture refers to this one (N).
    pub discardable: bool,
}

impl Vp8Picture {
    /// Returns the picture of a unit of VP8 whose descriptors have PictureID and TL0PICIDX. `None`: they do not, the layer is above
    /// 3, or the unit is of another codec.
    pub fn of(extra: &CodecExtra) -> Option<Vp8Picture>
        ensures picture { result ≡ picture_of extra.now }
        ensures layer { IfSome result (λ p. p.layer ≤ 3) }
    {
        let CodecExtra::Vp8(vp8) = extra else {
            return None;
        };
        match (vp8.picture_id, vp8.tl0_picture_id) {
            (Some(id), Some(base)) if vp8.layer_index <= 3 => Some(Vp8Picture {
                id,
                base,
                layer: vp8.layer_index,
                sync: vp8.sync,
                discardable: vp8.discardable,
            }),
            _ => None,
        }
    }
}

/// What is known of a temporal layer above the base layer. A layer is whole if each number was released, and each of its own pictures
/// can be shown or is discardable.
#[derive(Clone, Copy, Debug, PartialEq, Eq)]
pub(crate) struct Layer {
    /// Whether it is whole from the first picture on to which a picture of the layer may refer.
    is_whole: bool,
    /// Whether it is whole since the latest picture of the base layer.
    is_whole_since_base: bool,
}

impl Layer {
    /// A layer after a keyframe.
    fn new() -> Layer
        ensures { result ≡ new_layer }
    {
        Layer {
            is_whole: true,
            is_whole_since_base: true,
        }
    }

    /// The layer with this number after a picture. `follows`: its id is the next one. `shown`: a decoder can show it.
    fn after(self, number: u8, picture: Vp8Picture, follows: bool, shown: bool) -> Layer
        ensures { result ≡ layer_after number picture follows shown self }
    {
        let is_own = picture.layer == number;
        let is_kept = follows && (!is_own || shown || picture.discardable);
        let was_whole = if is_own && picture.sync {
            self.is_whole_since_base
        } else {
            self.is_whole
        };
        Layer {
            is_whole: was_whole && is_kept,
            is_whole_since_base: picture.layer == 0 || (self.is_whole_since_base && is_kept),
        }
    }
}

/// What was released since a keyframe whose descriptors have both ids.
#[derive(Clone, Copy, Debug, PartialEq, Eq)]
pub struct Vp8Layers {
    /// The id of the latest picture.
    last: u64,
    /// TL0PICIDX of the latest picture of the base layer.
    base: u64,
    /// Whether that picture can be shown, and the ids rise so far.
    is_base_shown: bool,
    first: Layer,
    second: Layer,
    third: Layer,
}

impl Vp8Layers {
    /// The layers after this keyframe.
    pub(crate) fn after_keyframe(key: Vp8Picture) -> Vp8Layers
        ensures { result ≡ after_keyframe key }
    {
        Vp8Layers {
            last: key.id,
            base: key.base,
            is_base_shown: true,
            first: Layer::new(),
            second: Layer::new(),
            third: Layer::new(),
        }
    }

    /// Whether the picture of the base layer on which this picture depends can be shown.
    pub(crate) fn has_base(self, picture: Vp8Picture) -> bool
        ensures { result ≡ has_base self picture }
    {
        picture.id > self.last
            && self.is_base_shown
            && picture.base >= self.base
            && picture.base - self.base == u64::from(picture.layer == 0)
    }

    /// Whether a decoder can show this picture.
    pub(crate) fn shows(self, picture: Vp8Picture) -> bool
        ensures { result ≡ shows_picture self picture }
    {
        self.has_base(picture) && (picture.layer == 0 || picture.sync || self.has_layers(picture))
    }

    /// Whether all layers are whole to which this picture may refer, and no picture is missing before it.
    fn has_layers(self, picture: Vp8Picture) -> bool
        requires { self.last ≤ picture.id }
        ensures { result ≡ has_layers self picture }
    {
        picture.id - self.last == 1
            && self.first.is_whole
            && (picture.layer < 2 || self.second.is_whole)
            && (picture.layer < 3 || self.third.is_whole)
    }

    /// The layers after this picture.
    pub(crate) fn after(self, picture: Vp8Picture) -> Vp8Layers
        ensures { result ≡ after_picture self picture }
    {
        let is_new = picture.id > self.last;
        let follows = is_new && picture.id - self.last == 1;
        let shown = self.shows(picture);
        let is_base = picture.layer == 0;
        Vp8Layers {
            last: picture.id,
            base: if is_base { picture.base } else { self.base },
            is_base_shown: if is_base {
                shown
            } else {
                is_new && self.is_base_shown
            },
            first: self.first.after(1, picture, follows, shown),
            second: self.second.after(2, picture, follows, shown),
            third: self.third.after(3, picture, follows, shown),
        }
    }
}
