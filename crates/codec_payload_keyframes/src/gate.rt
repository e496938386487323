//! Follows the units that a receiver releases, and reports which of them a decoder can show.

ghost use Rattle.std.specs.Prelude.{◌≡◌};
ghost use Rattle.codec_payload_keyframes.specs.Keyframes.{GatesAgree, PlainStreams, UnitsFollowKeyframes, after_delta, after_described, after_differing, after_layered, after_loss, after_plain, after_skip, after_unit, broken_off, followed_by, followed_past, held_back, is_key_unit, is_keyframe, is_video, new_gate, said_of, shows_unit, wants_after};
ghost use Rattle.codec_payload_keyframes.specs.References.{picture_by_differences};
ghost use Rattle.codec_payload_keyframes.specs.Vp8Layers.{picture_of};

use crate::references::{References, Referring, UnitReferences};
use crate::vp8_layers::{Vp8Layers, Vp8Picture};
use codec_payload_base::interface::CodecExtra;
use codec_payload_base::wire::Codec;
use codec_payload_media::frame_info::{FrameInfo, frame_info};

/// Whether a codec has keyframes: VP8, VP9 and AV1.
pub fn is_video(codec: Codec) -> bool
    ensures { result ≡ is_video codec }
{
    matches!(codec, Codec::Vp8 | Codec::Vp9 | Codec::Av1)
}

/// Whether a unit is a keyframe by its own bits: the frame header of VP8 (RFC 6386, section 9.1) or VP9 (VP9 bitstream
/// specification, section 6.2), or the first frame header of an AV1 temporal unit. A malformed unit is not a keyframe. Does not
/// allocate.
pub fn is_keyframe(codec: Codec, unit: &[u8]) -> bool
    ensures { result ≡ is_keyframe codec unit.now }
{
    match frame_info(codec, unit) {
        Ok(
            FrameInfo {
                keyframe: Some(keyframe),
                ..
            },
        ) => keyframe,
        _ => false,
    }
}

/// How units are followed since the latest keyframe. What the packets of the keyframe say decides.
#[derive(Clone, Copy, Debug, PartialEq, Eq)]
pub(crate) enum Followed {
    /// Each by the unit before it.
    Chain,
    /// By the layers of VP8. The descriptors of all pictures have both ids.
    Layers(Vp8Layers),
    /// By the frame numbers of their dependency descriptors.
    Frames(References),
    /// By the picture ids and P_DIFFs of VP9 in the flexible mode.
    Pictures(References),
}

/// Reports which released units a decoder can show, and whether the receiver has to request a keyframe (by PLI or FIR: RFC 4585,
/// section 6.3.1; RFC 5104, section 4.3.1).
///
/// Call it for each result of a pop, in order: [`KeyframeGate::release`] for a unit, [`KeyframeGate::lose`] for an error, and
/// [`KeyframeGate::skip`] if the buffer discarded complete units because of their picture ids. For audio each unit can be shown.
/// Does not allocate.
#[derive(Clone, Copy, Debug, PartialEq, Eq)]
pub struct KeyframeGate {
    codec: Codec,
    shows: bool,
    wants: bool,
    followed: Followed,
}

impl KeyframeGate {
    /// A gate for a new stream of this codec: no unit was released, and no keyframe is needed yet.
    pub fn new(codec: Codec) -> KeyframeGate
        ensures { result ≡ new_gate codec }
    {
        KeyframeGate {
            codec,
            shows: !is_video(codec),
            wants: false,
            followed: Followed::Chain,
        }
    }

    /// Records a released unit with its flag `contiguous`, its codec-specific data, and what its packets say of its references:
    /// [`UnitReferences::none`] if nobody read that. Returns whether a decoder can show it. A keyframe can be shown, and it decides how
    /// the units after it are followed:
    ///
    /// - If it has a dependency descriptor, a unit can be shown if its number is above those before it, and each frame to which it refers
    ///   was released in a unit that can be shown. A unit without a descriptor cannot be shown.
    /// - If it has a picture id of VP9 in the flexible mode, the P_DIFFs name the pictures to which a unit refers. If P is clear in all
    ///   layer frames of a unit, it refers to the unit before, and can be shown if it is contiguous too. After a unit without them none
    ///   can be shown.
    /// - If it has PictureID and TL0PICIDX of VP8, a unit can be shown if each unit can to which it may refer (RFC 7741, section 4.2).
    ///   After a unit without both ids none can be shown.
    /// - Else a unit can be shown if it is contiguous and the previous unit can be shown.
    pub fn release(
        &mut self,
        unit: &[u8],
        contiguous: bool,
        extra: &CodecExtra,
        references: &UnitReferences,
    ) -> bool
        ensures shows { result ≡ shows_unit self.old (is_keyframe self.old.codec unit.now) contiguous (picture_of extra.now) (said_of extra.now references.now) }
        ensures after { self.new ≡ after_unit self.old (is_keyframe self.old.codec unit.now) contiguous (picture_of extra.now) (said_of extra.now references.now) }
    {
        if !is_video(self.codec) {
            return true;
        }
        let keyframe = is_keyframe(self.codec, unit);
        self.release_as(keyframe, contiguous, extra, references)
    }

    /// Records a released unit that is a keyframe or not. Returns whether a decoder can show it.
    pub(crate) fn release_as(
        &mut self,
        keyframe: bool,
        contiguous: bool,
        extra: &CodecExtra,
        references: &UnitReferences,
    ) -> bool
        ensures shows { result ≡ shows_unit self.old keyframe contiguous (picture_of extra.now) (said_of extra.now references.now) }
        ensures after { self.new ≡ after_unit self.old keyframe contiguous (picture_of extra.now) (said_of extra.now references.now) }
    {
        if !is_video(self.codec) {
            return true;
        }
        if keyframe {
            self.shows = true;
            self.wants = false;
            self.followed = followed_by(extra, references);
        } else {
            self.release_delta(contiguous, extra, references);
        }
        self.shows
    }

    /// Records a released unit of video that is not a keyframe.
    fn release_delta(&mut self, contiguous: bool, extra: &CodecExtra, references: &UnitReferences)
        ensures { self.new ≡ after_delta self.old self.old.followed contiguous (picture_of extra.now) (said_of extra.now references.now) }
    {
        match self.followed {
            Followed::Chain => self.release_plain(contiguous, Vp8Picture::of(extra)),
            Followed::Layers(layers) => self.release_layered(layers, Vp8Picture::of(extra)),
            Followed::Frames(frames) => self.release_described(frames, references.descriptor),
            Followed::Pictures(pictures) => {
                let follows = contiguous && self.shows;
                let picture = Referring::of_picture(extra, references.differences);
                self.release_differing(pictures, follows, picture);
            }
        }
    }

    /// Records a unit that is followed by the unit before it.
    fn release_plain(&mut self, contiguous: bool, picture: Option<Vp8Picture>)
        ensures { self.new ≡ after_plain self.old contiguous picture }
    {
        match picture {
            Some(_) => self.break_off(),
            None => {
                self.shows = contiguous && self.shows;
                self.wants = self.wants || !self.shows;
            }
        }
    }

    /// Records a unit that is followed by the layers of VP8.
    fn release_layered(&mut self, layers: Vp8Layers, picture: Option<Vp8Picture>)
        ensures { self.new ≡ after_layered self.old layers picture }
    {
        match picture {
            Some(picture) => {
                self.shows = layers.shows(picture);
                self.wants = !layers.has_base(picture) || (self.wants && picture.layer != 0);
                self.followed = Followed::Layers(layers.after(picture));
            }
            None => self.break_off(),
        }
    }

    /// Records a unit that is followed by its dependency descriptors.
    fn release_described(&mut self, frames: References, unit: Option<Referring>)
        ensures { self.new ≡ after_described self.old frames unit }
    {
        match unit {
            Some(unit) => {
                let shown = frames.shows(unit);
                self.decide(unit, shown);
                self.followed = Followed::Frames(frames.after(unit, shown));
            }
            None => self.hold_back(self.followed),
        }
    }

    /// Records a unit that is followed by its P_DIFFs. `follows`: it is contiguous, and the unit before it can be shown.
    fn release_differing(&mut self, pictures: References, follows: bool, unit: Option<Referring>)
        ensures { self.new ≡ after_differing self.old pictures follows unit }
    {
        match unit {
            Some(unit) => {
                let shown = pictures.shows(unit) && (unit.distances != 0 || follows);
                self.decide(unit, shown);
                self.followed = Followed::Pictures(pictures.after(unit, shown));
            }
            None => self.break_off(),
        }
    }

    /// Records whether a unit can be shown that names its references. A unit of the base decides whether a keyframe is needed.
    fn decide(&mut self, unit: Referring, shown: bool)
        ensures { self.new ≡ record self.old { shows = shown; wants = wants_after self.old.wants unit shown } }
    {
        self.shows = shown;
        if unit.is_base {
            self.wants = !shown;
        }
    }

    /// Records that nothing can be shown until a keyframe.
    fn break_off(&mut self)
        ensures { self.new ≡ broken_off self.old }
    {
        self.hold_back(Followed::Chain);
    }

    /// Records that nothing is shown, and how the units after it are followed.
    fn hold_back(&mut self, followed: Followed)
        ensures { self.new ≡ held_back self.old followed }
    {
        self.shows = false;
        self.wants = true;
        self.followed = followed;
    }

    /// Returns whether it follows a stream of video.
    pub(crate) fn is_of_video(&self) -> bool
        ensures { result ≡ is_video self.now.codec }
    {
        is_video(self.codec)
    }

    /// Returns whether a unit of the stream is a keyframe. A unit of audio is not, and is not inspected.
    pub(crate) fn is_key(&self, unit: &[u8]) -> bool
        ensures { result ≡ is_key_unit self.now unit.now }
    {
        is_video(self.codec) && is_keyframe(self.codec, unit)
    }

    /// Records that a unit was lost although its packets came: the depacketizer refused them. If units name their references, those
    /// that refer to it cannot be shown. Otherwise none after it can be until a keyframe.
    pub fn lose(&mut self)
        ensures { self.new ≡ after_loss self.old }
    {
        if is_video(self.codec) {
            self.hold_back(self.followed.past_loss());
        }
    }

    /// Records that complete units were discarded because of their picture ids. This happens after the sender's ids jump back. A
    /// keyframe is then needed, since delta frames may stay below the last id for long.
    pub fn skip(&mut self)
        ensures { self.new ≡ after_skip self.old }
    {
        if is_video(self.codec) {
            self.wants = true;
        }
    }

    /// Whether a keyframe is needed: from the first event that needs one until a keyframe is released, or a unit of the base layer
    /// that can be shown. A unit above the base layer that cannot be shown needs none, if its unit of the base layer can, or if it names
    /// its references.
    pub fn wants_keyframe(&self) -> bool
        ensures { result ≡ self.now.wants }
    {
        self.wants
    }

    /// Whether a decoder can show the unit that was released last.
    pub fn shows_last(&self) -> bool
        ensures { result ≡ self.now.shows }
    {
        self.shows
    }
}

impl Followed {
    /// How units are followed after one was lost.
    fn past_loss(self) -> Followed
        ensures { result ≡ followed_past self }
    {
        match self {
            Followed::Chain | Followed::Layers(_) => Followed::Chain,
            Followed::Frames(_) | Followed::Pictures(_) => self,
        }
    }
}

/// Returns how units are followed after a keyframe of which its packets say this.
fn followed_by(extra: &CodecExtra, references: &UnitReferences) -> Followed
    ensures { result ≡ followed_by references.now.descriptor (picture_by_differences extra.now references.now.differences) (picture_of extra.now) }
{
    if let Some(key) = references.descriptor {
        return Followed::Frames(References::after_keyframe(key));
    }
    if let Some(key) = Referring::of_picture(extra, references.differences) {
        return Followed::Pictures(References::after_keyframe(key));
    }
    match Vp8Picture::of(extra) {
        Some(key) => Followed::Layers(Vp8Layers::after_keyframe(key)),
        None => Followed::Chain,
    }
}

/// For each sequence of events of a video stream, starting with a new gate: the gate says that the last released unit can be shown
/// exactly if it is a keyframe, or each unit can be shown to which it refers or may refer. It asks for a keyframe exactly if an event
/// since the last keyframe needs one. If no keyframe says what it refers to, units are followed by their ids of VP8 or as a chain alone.
/// This function exists for its proof and does nothing.
pub fn gates_follow_keyframes()
    ensures agrees { GatesAgree }
    ensures follows { UnitsFollowKeyframes }
    ensures plain { PlainStreams }
{}
