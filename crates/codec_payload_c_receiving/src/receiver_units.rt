//! The units of a receiver of datagrams.

ghost use Rattle.std.specs.Prelude.{◌≡◌, IfSome, IsSome};
ghost use Rattle.codec_payload_c_receiving.specs.StreamReceivers.{HandsOver, PopsUnit, judged_by};

use codec_payload_core::wire::Ticks;
use codec_payload_handle::object::StreamReceiver;
use codec_payload_handle::status;
use codec_payload_handle::unit::{Unit, refused_unit, too_large_unit};
use codec_payload_receiver::pops::Popped;
use codec_payload_receiver::receiver::Receiver;
use std::alloc::Global;

/// Adds what a receiver knows of the unit that it released to the description: its extended RTP time, and whether it is
/// decodable.
pub(crate) fn judge(unit: &mut Unit, receiver: &Receiver)
    ensures { unit.new ≡ judged_by receiver.now unit.old }
{
    if let Some(time) = receiver.unit_time() {
        unit.rtp_time = time;
    }
    unit.decodable = receiver.unit_is_decodable();
    unit.keyframe = receiver.unit_is_keyframe();
}

/// Describes the unit that waits, and writes it to the output buffer. If that is too small, the unit still waits.
#[inline(always)]
fn hand_over(stream: &mut StreamReceiver, alloc: Global, unit: &mut Unit, bytes: &mut [u8]) -> u32
    requires { IsSome stream.old.waiting }
    ensures { IfSome stream.old.waiting (λ u. HandsOver u result unit.new bytes.old bytes.new stream.old stream.new) }
{
    let has_room = stream.waiting.write(unit, bytes);
    judge(unit, &stream.receiver);
    if !has_room {
        return status::TOO_SMALL;
    }
    stream.waiting.move_to(&mut stream.taken, alloc);
    status::OK
}

/// Writes the next unit to the output buffer: the unit that waits for a larger output buffer, or the next one from the
/// receiver. A refused frame is described by its fault, and so is a unit that is too large. What was lent is lent no longer.
#[tactic(auto, using(crate::proofs::RefusalLemmas::some_number, crate::proofs::RefusalLemmas::other_number, crate::proofs::RefusalLemmas::no_size))]
pub fn pop(
    stream: &mut StreamReceiver,
    alloc: Global,
    now: u64,
    unit: &mut Unit,
    bytes: &mut [u8],
) -> u32
    ensures { PopsUnit stream.old now result unit.old unit.new bytes.old bytes.new stream.new }
{
    stream.end_loan(alloc);
    if stream.waiting.is_some() {
        return hand_over(stream, alloc, unit, bytes);
    }
    match stream
        .waiting
        .pop_receiver(&mut stream.receiver, Ticks(now))
    {
        None => status::NONE,
        Some(Err(_)) => status::OUT_OF_MEMORY,
        Some(Ok(Popped::Refused(fault))) => {
            *unit = refused_unit(&fault);
            status::OK
        }
        Some(Ok(Popped::TooLarge(()))) => {
            stream.waiting.clear(alloc);
            *unit = too_large_unit();
            status::OK
        }
        Some(Ok(Popped::Unit(()))) => hand_over(stream, alloc, unit, bytes),
    }
}
