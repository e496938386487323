//! Which units a decoder can show, if each names the frames to which it refers: by the P_DIFFs of VP9 in the flexible mode (RFC 9628,
//! section 4.2), or by the frame differences of the dependency descriptor (AV1 RTP specification, appendix A).

ghost use Rattle.std.specs.Prelude.{◌≡◌, ◌<◌};
ghost use Rattle.codec_payload_keyframes.specs.References.{FollowsReferences, after_key_frames, lower_numbers, moved_on, no_references, picture_by_differences, shows_referring, with_frames};

use codec_payload_base::interface::CodecExtra;

/// A unit among the numbered frames of its stream, and the frames that it refers to.
#[derive(Clone, Copy, Debug, PartialEq, Eq)]
pub struct Referring {
    /// The number of its last frame, extended beyond the bits that were sent.
    pub number: u64,
    /// Bit d, 0 to 127: it has the frame whose number is less by d. Bit 0 is set.
    pub frames: u128,
    /// Bit d, 1 to 127: it refers to the frame whose number is less by d, which is not one of its own. Bit 0: it refers to a frame
    /// that is further back or not known, so it cannot be shown.
    pub distances: u128,
    /// Whether all its frames are of temporal layer 0.
    pub is_base: bool,
}

/// What the packets of a unit say of the frames that it refers to.
#[derive(Clone, Copy, Debug, PartialEq, Eq)]
pub struct UnitReferences {
    /// By the dependency descriptors of its frames. `None`: it has none, or one of them cannot be read.
    pub descriptor: Option<Referring>,
    /// By the payload descriptors of VP9 in the flexible mode: bit d, 1 to 127, for each P_DIFF d of its layer frames. Bit 0: its first layer
    /// frame needs a lower spatial layer of the same picture, which is missing (SID above 0, and D). 0: P is clear in all of them.
    /// `None`: its payload descriptors are not in the flexible mode, or it is not VP9.
    pub differences: Option<u128>,
}

impl Referring {
    /// Returns the picture of a unit of VP9 with a picture id, whose payload descriptors are in the flexible mode and have these P_DIFFs:
    /// see [`UnitReferences::differences`]. `None`: it has no picture id, it is not in the flexible mode, or not of VP9.
    pub fn of_picture(extra: &CodecExtra, differences: Option<u128>) -> Option<Referring>
        ensures { result ≡ picture_by_differences extra.now differences }
    {
        let CodecExtra::Vp9(vp9) = extra else {
            return None;
        };
        match (vp9.picture_id, differences) {
            (Some(number), Some(distances)) => Some(Referring {
                number,
                frames: 1,
                distances,
                is_base: matches!(vp9.tid, None | Some(0)),
            }),
            _ => None,
        }
    }
}

impl UnitReferences {
    /// What a unit says without a dependency descriptor and without P_DIFFs.
    pub fn none() -> UnitReferences
        ensures { result ≡ no_references }
    {
        UnitReferences {
            descriptor: None,
            differences: None,
        }
    }
}

/// Which of the latest 128 numbers since a keyframe are frames of units that can be shown, if each unit names the frames to which it
/// refers. Does not allocate.
///
/// A gate follows these itself. Without a gate, begin with [`References::after_keyframe`] at each keyframe, and pass each other unit to
/// [`References::release`].
#[derive(Clone, Copy, Debug, PartialEq, Eq)]
pub struct References {
    /// The number of the latest unit.
    last: u64,
    /// Bit d: the frame whose number is less than `last` by d was released in a unit that can be shown.
    shown: u128,
    /// Whether the numbers rise so far.
    rises: bool,
}

impl References {
    /// The frames after this keyframe, which can be shown whatever it refers to. A keyframe replaces everything that a frame could refer
    /// to, so a later frame that names one from before it refers to the keyframe: numbers below its frames count as its own.
    pub fn after_keyframe(key: Referring) -> References
        ensures { result ≡ after_key_frames key }
    {
        References {
            last: key.number,
            shown: key.frames | lower_numbers(key.frames),
            rises: true,
        }
    }

    /// Records a unit that is not a keyframe. Returns whether a decoder can show it: its number is above all before it, and each
    /// frame to which it refers was released in a unit that can be shown. If a number does not rise, no unit can be shown until the
    /// next keyframe.
    pub fn release(&mut self, unit: Referring) -> bool
        ensures shows { result ≡ shows_referring self.old unit }
        ensures after { self.new ≡ with_frames self.old unit (shows_referring self.old unit) }
    {
        let shown = self.shows(unit);
        *self = self.after(unit, shown);
        shown
    }

    /// Bit d: the frame whose number is less than this one by d can be shown. `gap` is how far this number is above the last one.
    fn moved_on(self, gap: u64) -> u128
        ensures { result ≡ moved_on self.shown gap }
    {
        if gap < 128 { self.shown << gap } else { 0 }
    }

    /// Whether a decoder can show this unit.
    pub(crate) fn shows(self, unit: Referring) -> bool
        ensures { result ≡ shows_referring self unit }
    {
        self.rises
            && unit.number > self.last
            && unit.distances & !self.moved_on(unit.number - self.last) == 0
    }

    /// The frames after this unit, which can be shown or not.
    pub(crate) fn after(self, unit: Referring, shown: bool) -> References
        ensures { result ≡ with_frames self unit shown }
    {
        let is_new = unit.number > self.last;
        let before = if is_new {
            self.moved_on(unit.number - self.last)
        } else {
            0
        };
        References {
            last: unit.number,
            shown: if shown { before | unit.frames } else { before },
            rises: self.rises && is_new,
        }
    }
}

/// Bit d, 0 to 127: all of these frames have numbers that are less by fewer than d.
fn lower_numbers(frames: u128) -> u128
    ensures { result ≡ lower_numbers frames }
{
    let zeros = frames.leading_zeros();
    if zeros == 0 {
        return 0;
    }
    (1u128 << (128 - zeros)).wrapping_neg()
}

/// After a keyframe, a unit is reported as one that can be shown exactly if its numbers rise, and each frame to which it refers was
/// released in a unit that can be, among the latest 127 numbers. This function exists for its proof and does nothing.
pub fn follow_references()
    ensures { FollowsReferences }
{}
