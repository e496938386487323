//! The frames of a stream, as their dependency descriptors describe them, and the frames to which a unit of them refers.

ghost use Rattle.std.specs.Prelude.{◌≡◌, ◌<◌, ◌^◌, None};
ghost use Rattle.codec_payload_base.specs.Extended.{Follows, nearest};
ghost use Rattle.codec_payload_references.specs.Frames.{Following, IsRead, bit_for, first_frame, further_on, mask_of, moved_on, with_frame, with_next};

use codec_payload_descriptor::dependency::{DependencyDescriptor, DescriptorReader};
use codec_payload_keyframes::references::Referring;
use std::alloc::Global;
use std::marker::Model;

/// The frame number that is the latest one of a new stream: numbers that go up or down from it stay away from 0 and 2^64.
const BEGINNING: u64 = 1 << 63;

/// How many frame numbers there are.
const FRAME_NUMBERS: u64 = 1 << 16;

/// The number nearest to `previous` whose low 16 bits are `number`, of two equally near ones the greater; modulo 2^64.
fn extend_number(previous: u64, number: u16) -> u64
    ensures { result ≡ nearest 65536 previous number }
{
    let ahead = (u64::from(number) + FRAME_NUMBERS - previous % FRAME_NUMBERS) % FRAME_NUMBERS;
    if ahead <= FRAME_NUMBERS / 2 {
        previous.wrapping_add(ahead)
    } else {
        previous.wrapping_sub(FRAME_NUMBERS - ahead)
    }
}

/// Reads the descriptors of the frames of a stream, and extends their numbers.
#[derive(Debug, Drop)]
pub(crate) struct FrameReader {
    descriptors: DescriptorReader,
    /// The number of the latest frame whose descriptor was read.
    latest: u64,
}

impl Model for FrameReader {
    ghost use Rattle.codec_payload_references.specs.Frames.{Following};

    ghost Value = { Following };

    ghost view = { λ s. record { stream = s.descriptors; latest = s.latest } };
}

impl FrameReader {
    /// Returns a reader for a new stream. Does not allocate.
    pub(crate) fn new(alloc: Global) -> FrameReader
        ensures structure { result.stream.structure ≡ None }
        ensures active { result.stream.active ≡ 0 }
        ensures latest { result.latest ≡ 2 ^ 63 }
    {
        FrameReader {
            descriptors: DescriptorReader::new(alloc),
            latest: BEGINNING,
        }
    }

    /// The number of the latest frame whose descriptor was read.
    pub(crate) fn latest(&self) -> u64
        ensures { result ≡ self.now.latest }
    {
        self.latest
    }

    /// Reads the descriptor of the next frame. `None`: it cannot be read, or memory ran out for its structure; nothing changes.
    pub(crate) fn read(&mut self, bytes: &[u8]) -> Option<DependencyDescriptor>
        ensures { IsRead self.old bytes.now result self.new }
    {
        match self.descriptors.read(bytes) {
            Ok(descriptor) => {
                self.latest = extend_number(self.latest, descriptor.frame_number);
                Some(descriptor)
            }
            Err(_) => None,
        }
    }
}

/// Bit d for a distance d of 1 to 127, and bit 0 for any other.
fn bit_for(distance: u16) -> u128
    ensures { result ≡ bit_for distance }
{
    if distance < 128 { 1 << distance } else { 1 }
}

/// One bit for each distance.
fn mask_of(distances: &[u16]) -> u128
    ensures { result ≡ mask_of 0 distances.now }
{
    let mut mask = 0;
    for &distance in distances {
        mask |= bit_for(distance);
    }
    mask
}

/// The bits of frames, from a frame whose number is higher by `gap`.
fn moved_on(frames: u128, gap: u64) -> u128
    ensures { result ≡ moved_on frames gap }
{
    if gap < 128 { frames << gap } else { 0 }
}

/// The bits of distances, from a frame whose number is higher by `gap`. Bit 0 stays, and stands for distances that become too large.
fn further_on(distances: u128, gap: u64) -> u128
    ensures { result ≡ further_on distances gap }
{
    let known = distances & !1;
    let moved = moved_on(known, gap);
    let is_within = if gap < 128 {
        moved >> gap == known
    } else {
        known == 0
    };
    moved | (distances & 1) | u128::from(!is_within)
}

/// A unit of one frame with this number.
fn first_frame(number: u64, frame: &DependencyDescriptor) -> Referring
    ensures { result ≡ first_frame number frame.now }
{
    Referring {
        number,
        frames: 1,
        distances: mask_of(frame.references.as_slice()),
        is_base: frame.layer.temporal_id == 0,
    }
}

/// A unit with one more frame, which has this number. If the number is not above that of the frame before, the frames to which the
/// unit refers are not known.
fn with_next(unit: Referring, number: u64, frame: &DependencyDescriptor) -> Referring
    ensures { result ≡ with_next unit number frame.now }
{
    let is_base = unit.is_base && frame.layer.temporal_id == 0;
    if number <= unit.number {
        return Referring {
            distances: unit.distances | 1,
            is_base,
            ..unit
        };
    }
    let gap = number - unit.number;
    let own = moved_on(unit.frames, gap);
    let others = mask_of(frame.references.as_slice()) & !own;
    Referring {
        number,
        frames: own | 1,
        distances: further_on(unit.distances, gap) | others,
        is_base,
    }
}

/// A unit with one more frame, or of one frame.
pub(crate) fn with_frame(
    unit: Option<Referring>,
    number: u64,
    frame: &DependencyDescriptor,
) -> Referring
    ensures { result ≡ with_frame unit number frame.now }
{
    match unit {
        Some(unit) => with_next(unit, number, frame),
        None => first_frame(number, frame),
    }
}
