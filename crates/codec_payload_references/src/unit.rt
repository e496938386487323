//! What the notes of a unit say, one after the other.

ghost use Rattle.std.specs.Prelude.{◌≡◌, false, None};
ghost use Rattle.codec_payload_references.specs.Units.{IsReading, references_so_far, with_layer_frame, with_layer_frame_if, with_reading};

use crate::frames::{FrameReader, with_frame};
use crate::layer_frame::LayerFrame;
use crate::note::FrameNote;
use codec_payload_descriptor::dependency::DependencyDescriptor;
use codec_payload_keyframes::references::{Referring, UnitReferences};

/// What reading the descriptor of a note gave.
#[derive(Debug, Drop)]
pub(crate) enum Reading {
    /// The note has no descriptor.
    Absent,
    /// The descriptor cannot be read, or memory ran out for its structure.
    Unread,
    /// The number of the frame, and its descriptor.
    Frame(u64, DependencyDescriptor),
}

/// Reads the descriptor of a note, if it has one.
pub(crate) fn read_note(reader: &mut FrameReader, note: &FrameNote) -> Reading
    ensures { IsReading reader.old note.now.descriptor result reader.new }
{
    let Some(bytes) = note.descriptor() else {
        return Reading::Absent;
    };
    match reader.read(bytes) {
        Some(descriptor) => Reading::Frame(reader.latest(), descriptor),
        None => Reading::Unread,
    }
}

/// What the notes of a unit have said so far.
#[derive(Clone, Copy)]
pub(crate) struct UnitSoFar {
    /// The frames whose descriptors were read.
    frames: Option<Referring>,
    /// Whether a descriptor was not read.
    is_unread: bool,
    /// The P_DIFFs of the layer frames of VP9.
    differences: Option<u128>,
}

/// The P_DIFFs with those of one more layer frame. The first one counts as a frame that refers to a missing one, if it refers to a
/// lower layer.
fn with_layer_frame(differences: Option<u128>, frame: LayerFrame) -> u128
    ensures { result ≡ with_layer_frame differences frame }
{
    match differences {
        Some(differences) => differences | frame.differences,
        None => frame.differences | u128::from(frame.needs_lower_layer),
    }
}

/// The P_DIFFs with those of one more layer frame, if there is one.
fn with_layer_frame_if(differences: Option<u128>, frame: Option<LayerFrame>) -> Option<u128>
    ensures { result ≡ with_layer_frame_if differences frame }
{
    match frame {
        Some(frame) => Some(with_layer_frame(differences, frame)),
        None => differences,
    }
}

impl UnitSoFar {
    /// No note was read.
    pub(crate) fn new() -> UnitSoFar
        ensures frames { result.frames ≡ None }
        ensures read { result.is_unread ≡ false }
        ensures differences { result.differences ≡ None }
    {
        UnitSoFar {
            frames: None,
            is_unread: false,
            differences: None,
        }
    }

    /// With one more note.
    pub(crate) fn with(self, frame: Option<LayerFrame>, reading: &Reading) -> UnitSoFar
        ensures { result ≡ with_reading self frame reading.now }
    {
        let differences = with_layer_frame_if(self.differences, frame);
        match reading {
            Reading::Absent => UnitSoFar {
                differences,
                ..self
            },
            Reading::Unread => UnitSoFar {
                is_unread: true,
                differences,
                ..self
            },
            Reading::Frame(number, descriptor) => UnitSoFar {
                frames: Some(with_frame(self.frames, *number, descriptor)),
                differences,
                ..self
            },
        }
    }

    /// What the notes say of the frames that the unit refers to.
    pub(crate) fn references(self) -> UnitReferences
        ensures { result ≡ references_so_far self }
    {
        UnitReferences {
            descriptor: if self.is_unread { None } else { self.frames },
            differences: self.differences,
        }
    }
}
