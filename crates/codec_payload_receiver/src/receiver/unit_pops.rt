//! Pops that write a unit to memory that can be used again.

ghost use Rattle.std.specs.Prelude.{◌≡◌, ◌≤◌, false, length, true, Option};
ghost use Rattle.codec_payload_buffer.specs.Frames.{frames};
ghost use Rattle.codec_payload_buffer.specs.Steps.{HasPacketsIn, HasTaken, popped_to};
ghost use Rattle.codec_payload_codec.specs.Depacketizers.{is_built_in_depacketizer};
ghost use Rattle.codec_payload_jitter.specs.Receiving.{is_pressed, settled};
ghost use Rattle.codec_payload_receiver.specs.OwnSessions.{OwnPopsGated, OwnPopsOnce};
ghost use Rattle.codec_payload_receiver.specs.Pops.{NamesFault, PassesOnce, PopsGated, answer_of, is_large, is_too_large};

use super::Receiver;
use crate::gated::follow_to;
use crate::notes::take_notes_in;
use crate::pops::{Popped, sorted};
use crate::unit_times::extend_to;
use codec_payload_base::error::PacketError;
use codec_payload_base::wire::Ticks;
use codec_payload_buffer::buffer::PoppedUnit;
use codec_payload_codec::codec::Depacketizer;
use codec_payload_keyframes::references::UnitReferences;
use std::alloc::AllocError;

impl<B: Depacketizer> Receiver<B> {
    /// Does the same as [`Receiver::pop`], and writes the unit to memory that can be used again, also a unit that is too large.
    /// See [`codec_payload_jitter::jitter::JitterBuffer::pop_unit`].
    #[inline(always)]
    pub fn pop_unit(
        &mut self,
        now: Ticks,
        unit: &mut PoppedUnit,
    ) -> Option<Result<Popped<()>, AllocError>>
        ensures pops { PopsGated now.0 self.old (popped_to (answer_of result) unit.new) self.new }
        // A refused frame has another fault: out of memory is an error.
        ensures refused { NamesFault result }
        // A unit is too large exactly if it has more bytes than the settings allow.
        ensures large { is_too_large result ≡ is_large self.old.bound.most (popped_to (answer_of result) unit.new) }
        // A unit has packets.
        ensures some { HasPacketsIn (answer_of result) unit.new }
        // Each answer except `None` and out of memory leaves fewer packets, so a loop of pops ends.
        ensures fewer { HasTaken (popped_to (answer_of result) unit.new) self.old.packets.buffer self.new.packets.buffer }
        // If the stream has ended or the first complete frame is overdue, `None` says that no frame is complete.
        ensures drained { self.old.gates.drops ≡ false → is_pressed (settled self.old.packets) now.0 ≡ true → result ≡ Option.None → length (frames self.new.packets.buffer.held) ≤ 0 }
        // A custom depacketizer is asked once for each payload of the unit.
        ensures own { is_built_in_depacketizer self.old.packets.buffer.depacketizer ≡ false → OwnPopsGated B.state B.depacketize_step now.0 self.old (popped_to (answer_of result) unit.new) }
    {
        let answer = self.pop_unit_gated(now, unit);
        let large = self.bound.is_large_in(&answer, unit);
        sorted(answer, large)
    }

    /// Does the same, with out of memory as one of the faults, and a unit above the bound as a unit.
    #[inline(always)]
    fn pop_unit_gated(
        &mut self,
        now: Ticks,
        unit: &mut PoppedUnit,
    ) -> Option<Result<(), PacketError>>
        ensures pops { PopsGated now.0 self.old (popped_to result unit.new) self.new }
        ensures most { self.new.bound.most ≡ self.old.bound.most }
        // A unit has packets.
        ensures some { HasPacketsIn result unit.new }
        // Each answer except `None` and out of memory leaves fewer packets, so a loop of pops ends.
        ensures fewer { HasTaken (popped_to result unit.new) self.old.packets.buffer self.new.packets.buffer }
        // If the stream has ended or the first complete frame is overdue, `None` says that no frame is complete.
        ensures drained { self.old.gates.drops ≡ false → is_pressed (settled self.old.packets) now.0 ≡ true → result ≡ Option.None → length (frames self.new.packets.buffer.held) ≤ 0 }
        // A custom depacketizer is asked once for each payload of the unit.
        ensures own { is_built_in_depacketizer self.old.packets.buffer.depacketizer ≡ false → OwnPopsGated B.state B.depacketize_step now.0 self.old (popped_to result unit.new) }
    {
        let (answer, is_passed) = self.pop_unit_once(now, unit);
        if is_passed {
            return answer;
        }
        loop {
            let (answer, is_passed) = self.pop_unit_again(now, unit);
            if is_passed {
                return answer;
            }
        }
    }

    /// Does the same as [`Receiver::pop_unit_once`], after a unit that was dropped.
    #[cold]
    #[inline(never)]
    fn pop_unit_again(
        &mut self,
        now: Ticks,
        unit: &mut PoppedUnit,
    ) -> (Option<Result<(), PacketError>>, bool)
        ensures pops { PassesOnce now.0 self.old (popped_to result.0 unit.new) result.1 self.new }
        ensures some { HasPacketsIn result.0 unit.new }
        ensures drained { is_pressed (settled self.old.packets) now.0 ≡ true → result.0 ≡ Option.None → length (frames self.new.packets.buffer.held) ≤ 0 }
        ensures fewer { HasTaken (popped_to result.0 unit.new) self.old.packets.buffer self.new.packets.buffer }
        ensures own { is_built_in_depacketizer self.old.packets.buffer.depacketizer ≡ false → OwnPopsOnce B.state B.depacketize_step now.0 self.old (popped_to result.0 unit.new) }
    {
        self.pop_unit_once(now, unit)
    }

    /// Pops the jitter buffer once into this unit, and returns whether the answer is passed on.
    #[inline(always)]
    fn pop_unit_once(
        &mut self,
        now: Ticks,
        unit: &mut PoppedUnit,
    ) -> (Option<Result<(), PacketError>>, bool)
        ensures pops { PassesOnce now.0 self.old (popped_to result.0 unit.new) result.1 self.new }
        ensures some { HasPacketsIn result.0 unit.new }
        ensures drained { is_pressed (settled self.old.packets) now.0 ≡ true → result.0 ≡ Option.None → length (frames self.new.packets.buffer.held) ≤ 0 }
        ensures fewer { HasTaken (popped_to result.0 unit.new) self.old.packets.buffer self.new.packets.buffer }
        ensures own { is_built_in_depacketizer self.old.packets.buffer.depacketizer ≡ false → OwnPopsOnce B.state B.depacketize_step now.0 self.old (popped_to result.0 unit.new) }
    {
        // At the front, the compiler writes it once.
        let mut references = UnitReferences::none();
        let left = self.packets.counters().left;
        let answer = self.packets.pop_unit(now, unit);
        take_notes_in(&mut self.notes, &answer, unit, &mut references);
        if self.bound.note_in(&answer, unit) {
            self.gates.lose();
            return (answer, true);
        }
        extend_to(&mut self.times, &answer, unit);
        let has_left = self.packets.counters().left != left;
        let is_passed = follow_to(&mut self.gates, &answer, unit, &references, has_left);
        (answer, is_passed)
    }
}
