//! Pops of a receiver.

ghost use Rattle.std.specs.Prelude.{◌≡◌, ◌≤◌, false, length, true, Option};
ghost use Rattle.codec_payload_buffer.specs.Frames.{frames};
ghost use Rattle.codec_payload_buffer.specs.Steps.{HasTaken};
ghost use Rattle.codec_payload_codec.specs.Depacketizers.{is_built_in_depacketizer};
ghost use Rattle.codec_payload_jitter.specs.Receiving.{is_pressed, settled};
ghost use Rattle.codec_payload_receiver.specs.OwnSessions.{OwnPopsGated, OwnPopsOnce};
ghost use Rattle.codec_payload_receiver.specs.Pops.{NamesFault, PassesOnce, PopsGated, answer_of, is_large, is_too_large};

use super::Receiver;
use crate::gated::follow;
use crate::notes::take_notes;
use crate::pops::{Popped, sorted};
use crate::unit_times::extend_with;
use codec_payload_base::error::PacketError;
use codec_payload_base::wire::Ticks;
use codec_payload_buffer::buffer::Depacketized;
use codec_payload_codec::codec::Depacketizer;
use std::alloc::AllocError;

impl<B: Depacketizer> Receiver<B> {
    /// Returns what comes next, if it is due at time `now`: a unit, a unit above `max_unit` of the settings, or the fault of a
    /// frame that the depacketizer refused. See [`codec_payload_jitter::jitter::JitterBuffer::pop`].
    ///
    /// For video, [`Receiver::unit_is_decodable`] then says whether a decoder can show the unit. With [`FromKeyframe::Drop`]
    /// the pop drops units that a decoder cannot show, and continues with the next unit.
    ///
    /// [`FromKeyframe::Drop`]: codec_payload_keyframes::unit_gate::FromKeyframe::Drop
    ///
    /// # Errors
    ///
    /// Out of memory: the frame stays, and the next pop tries it again.
    pub fn pop(&mut self, now: Ticks) -> Option<Result<Popped, AllocError>>
        ensures pops { PopsGated now.0 self.old (answer_of result) self.new }
        // A refused frame has another fault: out of memory is an error.
        ensures refused { NamesFault result }
        // A unit is too large exactly if it has more bytes than the settings allow.
        ensures large { is_too_large result ≡ is_large self.old.bound.most (answer_of result) }
        // Each answer except `None` and out of memory leaves fewer packets, so a loop of pops ends.
        ensures fewer { HasTaken (answer_of result) self.old.packets.buffer self.new.packets.buffer }
        // If the stream has ended or the first complete frame is overdue, `None` says that no frame is complete.
        ensures drained { self.old.gates.drops ≡ false → is_pressed (settled self.old.packets) now.0 ≡ true → result ≡ Option.None → length (frames self.new.packets.buffer.held) ≤ 0 }
        // A custom depacketizer is asked once for each payload of the unit.
        ensures own { is_built_in_depacketizer self.old.packets.buffer.depacketizer ≡ false → OwnPopsGated B.state B.depacketize_step now.0 self.old (answer_of result) }
    {
        let answer = self.pop_gated(now);
        let large = self.bound.is_large(&answer);
        sorted(answer, large)
    }

    /// Returns the same, with out of memory as one of the faults, and a unit above the bound as a unit.
    fn pop_gated(&mut self, now: Ticks) -> Option<Result<Depacketized, PacketError>>
        ensures pops { PopsGated now.0 self.old result self.new }
        ensures most { self.new.bound.most ≡ self.old.bound.most }
        // Each answer except `None` and out of memory leaves fewer packets, so a loop of pops ends.
        ensures fewer { HasTaken result self.old.packets.buffer self.new.packets.buffer }
        // If the stream has ended or the first complete frame is overdue, `None` says that no frame is complete.
        ensures drained { self.old.gates.drops ≡ false → is_pressed (settled self.old.packets) now.0 ≡ true → result ≡ Option.None → length (frames self.new.packets.buffer.held) ≤ 0 }
        // A custom depacketizer is asked once for each payload of the unit.
        ensures own { is_built_in_depacketizer self.old.packets.buffer.depacketizer ≡ false → OwnPopsGated B.state B.depacketize_step now.0 self.old result }
    {
        loop {
            let (answer, is_passed) = self.pop_once(now);
            if is_passed {
                return answer;
            }
        }
    }

    /// Pops the jitter buffer once, and returns whether the answer is passed on.
    fn pop_once(&mut self, now: Ticks) -> (Option<Result<Depacketized, PacketError>>, bool)
        ensures pops { PassesOnce now.0 self.old result.0 result.1 self.new }
        ensures drained { is_pressed (settled self.old.packets) now.0 ≡ true → result.0 ≡ Option.None → length (frames self.new.packets.buffer.held) ≤ 0 }
        ensures fewer { HasTaken result.0 self.old.packets.buffer self.new.packets.buffer }
        ensures own { is_built_in_depacketizer self.old.packets.buffer.depacketizer ≡ false → OwnPopsOnce B.state B.depacketize_step now.0 self.old result.0 }
    {
        let left = self.packets.counters().left;
        let answer = self.packets.pop(now);
        let references = take_notes(&mut self.notes, &answer);
        if self.bound.note(&answer) {
            self.gates.lose();
            return (answer, true);
        }
        extend_with(&mut self.times, &answer);
        let has_left = self.packets.counters().left != left;
        let is_passed = follow(&mut self.gates, &answer, &references, has_left);
        (answer, is_passed)
    }
}
