//! Pops that count the packets that leave the buffer without being released, by the reason.

ghost use Rattle.std.specs.Prelude.{◌≡◌, ◌≢◌, ◌≤◌, ◌+◌, ◌-◌, false, Option};
ghost use Rattle.codec_payload_base.specs.declared.error.PacketError.TheVariants.{OutOfMemory};
ghost use Rattle.codec_payload_codec.specs.Depacketizers.{is_built_in_depacketizer};
ghost use Rattle.codec_payload_buffer.specs.Leaving.{IsWhole, PopsLeaving};
ghost use Rattle.codec_payload_buffer.specs.Steps.{HasPackets, HasTaken, OwnPops, due_of, popped_into};

use super::unit::{Depacketized, UnitInfo};
use super::{DepacketizingBuffer, unit_of};
use codec_payload_base::error::PacketError;
use codec_payload_codec::codec::Depacketizer;
use codec_payload_metadata::meta::RtpMeta;

/// How many packets left the buffer in a pop without being released in a unit, by the reason.
#[derive(Clone, Copy, Debug, PartialEq, Eq)]
pub struct Left {
    /// Packets in no complete frame, whose numbers are below the numbers of a frame that left.
    pub incomplete: usize,
    /// Packets of complete frames that were skipped, since their picture ids were too old.
    pub skipped: usize,
    /// Packets of the complete frame that the depacketizer refused.
    pub refused: usize,
}

impl<B: Depacketizer> DepacketizingBuffer<B> {
    /// Does the same as [`DepacketizingBuffer::pop`], and returns how many packets left the buffer without being released.
    /// Packets that were evicted by a push are not among them.
    pub fn pop_counted(&mut self) -> (Option<Result<Depacketized, PacketError>>, Left)
        ensures pops { PopsLeaving self.old result.0 result.1 self.new }
        // Each packet is accounted for.
        ensures whole { IsWhole self.old result.0 result.1 self.new }
        ensures waits { due_of self.old ≡ Option.None → result.0 ≡ Option.None }
        ensures fewer { HasTaken result.0 self.old self.new }
        ensures limit { self.new.limit ≡ self.old.limit }
        // A custom depacketizer is called once for each payload of the unit.
        ensures own { is_built_in_depacketizer self.old.depacketizer ≡ false → OwnPops B.state B.depacketize_step self.old result.0 }
    {
        let alloc = self.packets.alloc();
        let mut bytes = Vec::new(alloc);
        let mut metas = Vec::new(alloc);
        let (answer, left) = self.pop_counted_into(&mut bytes, &mut metas);
        match answer {
            Some(Ok(info)) => (Some(Ok(unit_of(info, bytes, metas))), left),
            Some(Err(fault)) => (Some(Err(fault)), left),
            None => (None, left),
        }
    }

    /// Does the same as [`DepacketizingBuffer::pop_counted`], and writes to the caller's memory, which can be reused. If it
    /// returns a unit, `bytes` holds the bytes of the unit and `metas` the metadata of its packets in order of their numbers;
    /// earlier contents are replaced. In every other case the contents of both are unspecified. Allocates only if the capacity
    /// of `bytes` or `metas` is too small.
    fn pop_counted_into(
        &mut self,
        bytes: &mut Vec<u8>,
        metas: &mut Vec<RtpMeta>,
    ) -> (Option<Result<UnitInfo, PacketError>>, Left)
        ensures pops { PopsLeaving self.old (popped_into result.0 bytes.new.items metas.new.items) result.1 self.new }
        ensures some { HasPackets result.0 metas.new.items }
        // Each packet is accounted for.
        ensures whole { IsWhole self.old (popped_into result.0 bytes.new.items metas.new.items) result.1 self.new }
        ensures waits { due_of self.old ≡ Option.None → result.0 ≡ Option.None }
        ensures fewer { HasTaken (popped_into result.0 bytes.new.items metas.new.items) self.old self.new }
        ensures limit { self.new.limit ≡ self.old.limit }
        // A custom depacketizer is called once for each payload of the unit.
        ensures own { is_built_in_depacketizer self.old.depacketizer ≡ false → OwnPops B.state B.depacketize_step self.old (popped_into result.0 bytes.new.items metas.new.items) }
    {
        let before = self.held();
        let mut skipped = 0usize;
        while let Some(frame) = self.due() {
            match self.take_frame(frame, bytes, metas) {
                Ok(None) => skipped += metas.len(),
                Ok(Some(info)) => {
                    let left = left_by(before - self.held(), metas.len(), skipped, 0);
                    return (Some(Ok(info)), left);
                }
                Err(fault) => {
                    let refused = refused_by(&fault, metas.len());
                    let left = left_by(before - self.held(), 0, skipped, refused);
                    return (Some(Err(fault)), left);
                }
            }
        }
        (None, left_by(before - self.held(), 0, skipped, 0))
    }
}

/// Returns the number of packets that left because the depacketizer refused a frame of `packets` packets: 0 if memory ran out,
/// since the frame stays then.
pub(super) fn refused_by(fault: &PacketError, packets: usize) -> usize
    ensures stays { fault.now ≡ OutOfMemory → result ≡ 0 }
    ensures leaves { fault.now ≢ OutOfMemory → result ≡ packets }
{
    match fault {
        PacketError::OutOfMemory => 0,
        _ => packets,
    }
}

/// Returns the counts of a pop in which `gone` packets left in total.
pub(super) fn left_by(gone: usize, released: usize, skipped: usize, refused: usize) -> Left
    requires { released + skipped + refused ≤ gone }
    ensures incomplete { result.incomplete + released + skipped + refused ≡ gone }
    ensures skipped { result.skipped ≡ skipped }
    ensures refused { result.refused ≡ refused }
{
    Left {
        incomplete: gone - released - skipped - refused,
        skipped,
        refused,
    }
}
