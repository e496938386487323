//! What the keyframe gate of a receiver learns from each pop.

ghost use Rattle.std.specs.Prelude.{◌≡◌};
ghost use Rattle.codec_payload_buffer.specs.Steps.{popped_to};
ghost use Rattle.codec_payload_codec.specs.Depacketizers.{depacketizer_state_of, kind_of_depacketizer};
ghost use Rattle.codec_payload_keyframes.specs.UnitGates.{new_gating};
ghost use Rattle.codec_payload_receiver.specs.Pops.{gates_after, is_passed_on, without_unit};
ghost use Rattle.codec_payload_receiver.specs.Sessions.{video_codec};

use codec_payload_base::error::PacketError;
use codec_payload_base::wire::Codec;
use codec_payload_buffer::buffer::{Depacketized, PoppedUnit};
use codec_payload_codec::codec::CodecDepacketizer;
use codec_payload_keyframes::references::UnitReferences;
use codec_payload_keyframes::unit_gate::{FromKeyframe, UnitGate};

/// Returns the gate of a receiver with this depacketizer. Units of audio and of a custom codec are not inspected.
pub(crate) fn gate_for<B>(
    depacketizer: &CodecDepacketizer<B>,
    from_keyframe: FromKeyframe,
) -> UnitGate
    ensures { result ≡ new_gating (video_codec (kind_of_depacketizer (depacketizer_state_of depacketizer.now))) from_keyframe }
{
    UnitGate::new(video_codec_of(depacketizer), from_keyframe)
}

/// Returns the codec of a depacketizer, if it is one of video; else `Null`.
pub(crate) fn video_codec_of<B>(depacketizer: &CodecDepacketizer<B>) -> Codec
    ensures { result ≡ video_codec (kind_of_depacketizer (depacketizer_state_of depacketizer.now)) }
{
    match depacketizer {
        CodecDepacketizer::Vp8(_) => Codec::Vp8,
        CodecDepacketizer::Vp9(_) => Codec::Vp9,
        CodecDepacketizer::Av1(_) => Codec::Av1,
        _ => Codec::Null,
    }
}

/// Updates the gate after a pop. `has_left`: the pop discarded packets. `references`: what the packets of a unit say of those that it
/// refers to. Returns whether the answer is passed on.
pub(crate) fn follow(
    gates: &mut UnitGate,
    answer: &Option<Result<Depacketized, PacketError>>,
    references: &UnitReferences,
    has_left: bool,
) -> bool
    ensures after { gates.new ≡ gates_after gates.old has_left answer.now references.now }
    ensures passed { result ≡ is_passed_on gates.old answer.now references.now }
{
    match answer {
        Some(Ok(unit)) => return gates.release(
            &unit.bytes,
            unit.contiguous,
            &unit.codec_extra,
            references,
        ),
        Some(Err(PacketError::OutOfMemory)) | None => follow_none(gates, has_left),
        Some(Err(_)) => gates.lose(),
    }
    true
}

/// The same for a pop whose unit is in memory that is used again.
#[inline(always)]
pub(crate) fn follow_to(
    gates: &mut UnitGate,
    answer: &Option<Result<(), PacketError>>,
    unit: &PoppedUnit,
    references: &UnitReferences,
    has_left: bool,
) -> bool
    ensures after { gates.new ≡ gates_after gates.old has_left (popped_to answer.now unit.now) references.now }
    ensures passed { result ≡ is_passed_on gates.old (popped_to answer.now unit.now) references.now }
{
    match answer {
        Some(Ok(())) => return gates.release(
            unit.bytes.as_slice(),
            unit.contiguous,
            &unit.codec_extra,
            references,
        ),
        Some(Err(PacketError::OutOfMemory)) | None => follow_none(gates, has_left),
        Some(Err(_)) => gates.lose(),
    }
    true
}

/// Updates the gate after a pop that returned no unit.
fn follow_none(gates: &mut UnitGate, has_left: bool)
    ensures { gates.new ≡ without_unit gates.old has_left }
{
    if has_left {
        gates.skip();
    }
}
