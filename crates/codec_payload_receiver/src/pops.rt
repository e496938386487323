//! The answer of a pop.

ghost use Rattle.std.specs.Prelude.{◌≡◌, ◌&&◌};
ghost use Rattle.codec_payload_receiver.specs.Pops.{NamesFault, answer_of, is_too_large, is_unit};

use codec_payload_base::error::PacketError;
use codec_payload_buffer::buffer::Depacketized;
use std::alloc::AllocError;

/// What a pop took out of a receiver. A pop returns `Err` only if it ran out of memory.
#[derive(Debug, Drop)]
pub enum Popped<U = Depacketized> {
    /// The next unit.
    Unit(U),
    /// The next unit, which has more bytes than `max_unit` of the settings. It counts as a refused frame: its packets count as
    /// `left`, and for video the units after it follow a loss. The stream continues: the next pop returns what follows. Any
    /// peer can send such a unit, so do not end a program for it.
    TooLarge(U),
    /// The depacketizer refused a frame, since its payloads are malformed. The frame was dropped, and its packets count as
    /// `left`. The stream continues: the next pop returns what follows. Any peer can send such a frame, so do not end a program
    /// for it. The fault is never [`PacketError::OutOfMemory`].
    Refused(PacketError),
}

/// Returns the answer of a pop with out of memory apart from the faults of frames. `large`: its unit is above the bound.
#[inline(always)]
pub(crate) fn sorted<U>(
    answer: Option<Result<U, PacketError>>,
    large: bool,
) -> Option<Result<Popped<U>, AllocError>>
    ensures same { answer_of result ≡ answer }
    ensures refused { NamesFault result }
    ensures large { is_too_large result ≡ (large && is_unit answer) }
{
    match answer {
        Some(Ok(unit)) => Some(Ok(if large {
            Popped::TooLarge(unit)
        } else {
            Popped::Unit(unit)
        })),
        Some(Err(PacketError::OutOfMemory)) => Some(Err(AllocError)),
        Some(Err(fault)) => Some(Ok(Popped::Refused(fault))),
        None => None,
    }
}
