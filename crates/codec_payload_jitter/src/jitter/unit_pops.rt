//! Pops that write a unit to memory that can be used again.

ghost use Rattle.std.specs.Prelude.{◌≡◌, ◌≤◌, [], false, length, true, Option};
ghost use Rattle.codec_payload_buffer.specs.Frames.{frames};
ghost use Rattle.codec_payload_buffer.specs.Steps.{HasPacketsIn, HasTaken, popped_to};
ghost use Rattle.codec_payload_codec.specs.Depacketizers.{is_built_in_depacketizer};
ghost use Rattle.codec_payload_jitter.specs.OwnReceiving.{OwnPopsWith};
ghost use Rattle.codec_payload_jitter.specs.Receiving.{PopsWith, has_little_room, is_pressed, settled, waiting_at};

use super::JitterBuffer;
use crate::kept_missing::is_sound;
use crate::outcome::{packets_to, units_to, with_pop};
use codec_payload_base::error::PacketError;
use codec_payload_base::wire::Ticks;
use codec_payload_buffer::buffer::{PoppedUnit, pops_leave_few};
use codec_payload_codec::codec::Depacketizer;

impl<B: Depacketizer> JitterBuffer<B> {
    /// Does the same as [`JitterBuffer::pop`], and writes the unit to memory that can be used again. If it returns
    /// `Some(Ok(()))`, `unit` holds the unit; earlier contents are replaced. In every other case the contents are unspecified.
    /// See [`codec_payload_buffer::buffer::DepacketizingBuffer::pop_unit`].
    #[inline(always)]
    pub fn pop_unit(&mut self, now: Ticks, unit: &mut PoppedUnit) -> Option<Result<(), PacketError>>
        ensures pops { PopsWith (waiting_at (settled self.old) now.0) (settled self.old) (popped_to result unit.new) self.new }
        // A unit has packets.
        ensures some { HasPacketsIn result unit.new }
        // Each answer except `None` and out of memory leaves fewer packets, so a loop of pops ends.
        ensures fewer { HasTaken (popped_to result unit.new) self.old.buffer self.new.buffer }
        // If the stream has ended, the first complete frame is overdue, or little room is left, `None` says that no frame is
        // complete.
        ensures drained { is_pressed (settled self.old) now.0 ≡ true → result ≡ Option.None → length (frames self.new.buffer.held) ≤ 0 }
        // While little room is left, a pop never answers `None` as long as a frame is complete.
        ensures crowded { has_little_room self.old ≡ true → result ≡ Option.None → frames self.new.buffer.held ≡ [] }
        // A custom depacketizer is asked once for each payload of the unit.
        ensures own { is_built_in_depacketizer self.old.buffer.depacketizer ≡ false → OwnPopsWith B.state B.depacketize_step (waiting_at (settled self.old) now.0) (settled self.old) (popped_to result unit.new) }
    {
        pops_leave_few();
        self.settle();
        let Some(hold_back) = self.waiting(now) else {
            return None;
        };
        self.buffer.set_hold_back(hold_back);
        is_sound(&self.buffer);
        let (answer, left) = self.buffer.pop_unit_counted(unit);
        let units = units_to(&answer);
        let released = packets_to(&answer, unit);
        self.counters = with_pop(self.counters, units, released, left);
        answer
    }
}
