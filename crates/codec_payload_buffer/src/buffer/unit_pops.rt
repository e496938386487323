//! Pops that write a unit to memory that can be used again, and move the metadata of its packets.

ghost use Rattle.std.specs.Prelude.{◌≡◌, ◌≢◌, ◌≤◌, ◌<◌, ◌+◌, [], false, length, slice_range, vec_capacity, OnOk, Option, Result};
ghost use Rattle.codec_payload_base.specs.declared.error.PacketError.TheVariants.{OutOfMemory};
ghost use Rattle.codec_payload_buffer.specs.Held.{above};
ghost use Rattle.codec_payload_buffer.specs.Leaving.{IsWhole, PopsLeaving};
ghost use Rattle.codec_payload_buffer.specs.Scan.{end_of};
ghost use Rattle.codec_payload_buffer.specs.Steps.{HasPacketsIn, HasTaken, OwnPops, OwnTakes, TriesFrame, due_of, metas_of, packets_of_frame, popped_to, taken_to};
ghost use Rattle.codec_payload_codec.specs.Depacketizers.{is_built_in_depacketizer};

use super::frames::{CompleteFrame, drop_first};
use super::leaving::{Left, left_by, refused_by};
use super::one_packet::{make_room_for, unpack_frame};
use super::packets::{frame_range, move_frame, starts_next};
use super::popped::PoppedUnit;
use super::{DepacketizingBuffer, is_out_of_memory};
use codec_payload_base::error::PacketError;
use codec_payload_base::interface::CodecExtra;
use codec_payload_codec::codec::Depacketizer;
use codec_payload_metadata::known::PackedMeta;

/// The result for the frame that is due, if the depacketizer accepts its payloads.
#[derive(Clone, Copy, Debug, PartialEq, Eq)]
pub(super) enum Taken {
    /// It was released.
    Released,
    /// It was skipped, since its picture ids were too old.
    Skipped,
}

impl<B: Depacketizer> DepacketizingBuffer<B> {
    /// Does the same as [`DepacketizingBuffer::pop_unit`], and returns how many packets left the buffer without being
    /// released. Packets that were evicted by a push are not among them.
    #[inline(always)]
    pub fn pop_unit_counted(
        &mut self,
        unit: &mut PoppedUnit,
    ) -> (Option<Result<(), PacketError>>, Left)
        ensures pops { PopsLeaving self.old (popped_to result.0 unit.new) result.1 self.new }
        ensures some { HasPacketsIn result.0 unit.new }
        // Each packet is accounted for.
        ensures whole { IsWhole self.old (popped_to result.0 unit.new) result.1 self.new }
        ensures waits { due_of self.old ≡ Option.None → result.0 ≡ Option.None }
        ensures fewer { HasTaken (popped_to result.0 unit.new) self.old self.new }
        ensures limit { self.new.limit ≡ self.old.limit }
        // A custom depacketizer is called once for each payload of the unit.
        ensures own { is_built_in_depacketizer self.old.depacketizer ≡ false → OwnPops B.state B.depacketize_step self.old (popped_to result.0 unit.new) }
    {
        match self.due() {
            Some(frame) => self.pop_due_unit(frame, unit),
            None => (None, left_by(0, 0, 0, 0)),
        }
    }

    /// Pops a unit, as [`DepacketizingBuffer::pop_unit_counted`] does. `frame` is due.
    #[inline(never)]
    fn pop_due_unit(
        &mut self,
        frame: CompleteFrame,
        unit: &mut PoppedUnit,
    ) -> (Option<Result<(), PacketError>>, Left)
        requires { due_of self.old ≡ Option.Some frame }
        ensures pops { PopsLeaving self.old (popped_to result.0 unit.new) result.1 self.new }
        ensures some { HasPacketsIn result.0 unit.new }
        ensures whole { IsWhole self.old (popped_to result.0 unit.new) result.1 self.new }
        ensures fewer { HasTaken (popped_to result.0 unit.new) self.old self.new }
        ensures limit { self.new.limit ≡ self.old.limit }
        ensures own { is_built_in_depacketizer self.old.depacketizer ≡ false → OwnPops B.state B.depacketize_step self.old (popped_to result.0 unit.new) }
    {
        let before = self.held();
        let mut skipped = 0usize;
        let mut due = Some(frame);
        while let Some(frame) = due {
            match self.take_unit(frame, unit) {
                Ok(Taken::Skipped) => {
                    skipped += unit.packets();
                    due = self.due();
                }
                Ok(Taken::Released) => {
                    let left = left_by(before - self.held(), unit.packets(), skipped, 0);
                    return (Some(Ok(())), left);
                }
                Err(fault) => {
                    let refused = refused_by(&fault, unit.packets());
                    let left = left_by(before - self.held(), 0, skipped, refused);
                    return (Some(Err(fault)), left);
                }
            }
        }
        (None, left_by(before - self.held(), 0, skipped, 0))
    }

    /// Takes the frame that is due, as `take_frame` does. It allocates all memory before it changes anything except the
    /// depacketizer. Unless memory ran out, `unit` then has the packets of the frame.
    #[inline(always)]
    fn take_unit(
        &mut self,
        frame: CompleteFrame,
        unit: &mut PoppedUnit,
    ) -> Result<Taken, PacketError>
        requires { due_of self.old ≡ Option.Some frame }
        ensures takes { TriesFrame self.old (taken_to result unit.new) self.new }
        ensures some { OnOk result (0 < length unit.new.metas) }
        ensures size { result ≢ Result.Err OutOfMemory → length unit.new.metas ≡ length (packets_of_frame self.old frame) }
        ensures limit { self.new.limit ≡ self.old.limit }
        ensures own { is_built_in_depacketizer self.old.depacketizer ≡ false → (before : B) × (after : B) × OwnTakes B.state B.depacketize_step self.old frame before (taken_to result unit.new) after }
    {
        let (from, to) = frame_range(&self.packets, frame);
        unit.metas.clear();
        unit.metas.reserve_exact(to - from)?;
        make_room_for(&mut unit.bytes, &self.depacketizer, &self.packets, from, to)?;
        unit.codec_extra = CodecExtra::None;
        let unpacked = unpack_frame(
            &mut self.depacketizer,
            &self.packets,
            from,
            to,
            &mut unit.bytes,
            &mut unit.codec_extra,
        );
        if is_out_of_memory(&unpacked) {
            return Err(PacketError::OutOfMemory);
        }
        let follows = starts_next(self.cutoff, frame.first) && !self.evicted;
        self.leave_to(frame, from, to, &mut unit.metas);
        unpacked?;
        let (may_go, contiguous) = self.contiguity.check(&unit.codec_extra, follows);
        if !may_go {
            return Ok(Taken::Skipped);
        }
        self.evicted = false;
        unit.contiguous = contiguous;
        unit.time = unit.metas[0].time();
        Ok(Taken::Released)
    }

    /// Removes the frame that is due and all packets below it. The metadata of its packets, from `from` to `to`, move to `metas`,
    /// which is empty and has room for them.
    #[inline(always)]
    fn leave_to(
        &mut self,
        frame: CompleteFrame,
        from: usize,
        to: usize,
        metas: &mut Vec<PackedMeta>,
    )
        requires due { due_of self.old ≡ Option.Some frame }
        requires order { from ≤ to }
        requires end { to ≡ end_of frame.last self.old.held }
        requires empty { metas.old.items ≡ [] }
        requires room { to ≤ from + vec_capacity metas.old }
        ensures left { self.new ≡ record self.old { held = above frame.last self.old.held; cutoff = Option.Some frame.last } }
        ensures metas { metas.new.items ≡ metas_of (slice_range self.old.held from to) }
    {
        move_frame(&mut self.packets, &mut self.spare, metas, from, to);
        self.packets.give_back();
        drop_first(&mut self.complete);
        self.cutoff = Some(frame.last);
    }
}
