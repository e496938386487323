//! Decides which released units to pass on: all of them, or those that a decoder can show.

ghost use Rattle.std.specs.Prelude.{◌≡◌};
ghost use Rattle.codec_payload_keyframes.specs.UnitGates.{drops_units, followed_codec, is_passed, new_gating, undecodable_with, with_loss, with_skip, with_unit};

use crate::gate::KeyframeGate;
use crate::references::UnitReferences;
use codec_payload_base::interface::CodecExtra;
use codec_payload_base::wire::Codec;
use std::marker::Model;

/// What a receiver of video does with units that a decoder cannot show: those after a gap, until a keyframe.
#[derive(Clone, Copy, Debug, PartialEq, Eq)]
pub enum FromKeyframe {
    /// Frames are not inspected. Each unit counts as decodable, none as a keyframe, and no keyframe is needed.
    Off,
    /// Each unit is released and marked as decodable or not. The default of all constructors.
    Mark,
    /// A unit that a decoder cannot show is counted and dropped. The first released unit is a keyframe.
    Drop,
}

/// Follows the units that a receiver releases, and decides which of them are passed on. Units of audio are all passed on, without
/// being inspected. Does not allocate.
#[derive(Clone, Copy, Debug)]
pub struct UnitGate {
    gate: KeyframeGate,
    drops: bool,
    is_keyframe: bool,
    undecodable: u64,
}

impl Model for UnitGate {
    ghost use Rattle.codec_payload_keyframes.specs.UnitGates.{Gating};

    ghost Value = { Gating };

    ghost view = { λ g. record { gate = g.gate; drops = g.drops; is_keyframe = g.is_keyframe; undecodable = g.undecodable } };

    ghost inverse = { λ v. record { gate = v.gate; drops = v.drops; is_keyframe = v.is_keyframe; undecodable = v.undecodable } };
}

impl UnitGate {
    /// A gate for a new stream of this codec.
    pub fn new(codec: Codec, from_keyframe: FromKeyframe) -> UnitGate
        ensures { result ≡ new_gating codec from_keyframe }
    {
        UnitGate {
            gate: KeyframeGate::new(followed_codec(from_keyframe, codec)),
            drops: drops_units(from_keyframe),
            is_keyframe: false,
            undecodable: 0,
        }
    }

    /// Records a released unit with its flag `contiguous`, its codec-specific data, and what its packets say of its references. Returns
    /// whether to pass it on. See [`KeyframeGate::release`].
    #[inline(always)]
    pub fn release(
        &mut self,
        unit: &[u8],
        contiguous: bool,
        extra: &CodecExtra,
        references: &UnitReferences,
    ) -> bool
        ensures passed { result ≡ is_passed self.old unit.now contiguous extra.now references.now }
        ensures after { self.new ≡ with_unit self.old unit.now contiguous extra.now references.now }
    {
        if self.gate.is_of_video() {
            return self.release_video(unit, contiguous, extra, references);
        }
        self.is_keyframe = false;
        true
    }

    /// Does the same, out of the way of units of audio.
    #[inline(never)]
    fn release_video(
        &mut self,
        unit: &[u8],
        contiguous: bool,
        extra: &CodecExtra,
        references: &UnitReferences,
    ) -> bool
        ensures passed { result ≡ is_passed self.old unit.now contiguous extra.now references.now }
        ensures after { self.new ≡ with_unit self.old unit.now contiguous extra.now references.now }
    {
        self.is_keyframe = self.gate.is_key(unit);
        let is_shown = self
            .gate
            .release_as(self.is_keyframe, contiguous, extra, references);
        self.undecodable = undecodable_with(is_shown, self.undecodable);
        !self.drops || is_shown
    }

    /// Records that a unit was lost although its packets came. See [`KeyframeGate::lose`].
    pub fn lose(&mut self)
        ensures { self.new ≡ with_loss self.old }
    {
        self.gate.lose();
    }

    /// Records that a keyframe is needed for another reason: complete units were discarded because of their picture ids, or the
    /// sender has restarted. See [`KeyframeGate::skip`].
    pub fn skip(&mut self)
        ensures { self.new ≡ with_skip self.old }
    {
        self.gate.skip();
    }

    /// Returns whether a keyframe is needed. See [`KeyframeGate::wants_keyframe`].
    pub fn wants_keyframe(&self) -> bool
        ensures { result ≡ self.now.gate.wants }
    {
        self.gate.wants_keyframe()
    }

    /// Returns whether a decoder can show the unit that was recorded last.
    pub fn is_decodable(&self) -> bool
        ensures { result ≡ self.now.gate.shows }
    {
        self.gate.shows_last()
    }

    /// Returns whether the unit that was recorded last is a keyframe.
    pub fn is_keyframe(&self) -> bool
        ensures { result ≡ self.now.is_keyframe }
    {
        self.is_keyframe
    }

    /// Returns how many units a decoder could not show, modulo 2^64.
    pub fn undecodable(&self) -> u64
        ensures { result ≡ self.now.undecodable }
    {
        self.undecodable
    }
}

/// Returns the codec by which units are followed.
fn followed_codec(from_keyframe: FromKeyframe, codec: Codec) -> Codec
    ensures { result ≡ followed_codec from_keyframe codec }
{
    match from_keyframe {
        FromKeyframe::Off => Codec::Null,
        FromKeyframe::Mark | FromKeyframe::Drop => codec,
    }
}

/// Counts a unit, if a decoder cannot show it.
fn undecodable_with(is_shown: bool, count: u64) -> u64
    ensures { result ≡ undecodable_with is_shown count }
{
    if is_shown {
        count
    } else {
        count.wrapping_add(1)
    }
}

/// Returns whether units that a decoder cannot show are dropped.
fn drops_units(from_keyframe: FromKeyframe) -> bool
    ensures { result ≡ drops_units from_keyframe }
{
    matches!(from_keyframe, FromKeyframe::Drop)
}
