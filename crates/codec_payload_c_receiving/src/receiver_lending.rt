//! The units of a receiver of datagrams, lent to the caller.

ghost use Rattle.std.specs.Prelude.{◌≡◌, IfSome, IsSome};
ghost use Rattle.codec_payload_c_receiving.specs.StreamReceivers.{LendsUnit, LendsWaiting};

use crate::receiver_units::judge;
use codec_payload_core::wire::Ticks;
use codec_payload_handle::object::StreamReceiver;
use codec_payload_handle::status;
use codec_payload_handle::unit::{Unit, refused_unit, too_large_unit};
use codec_payload_receiver::pops::Popped;
use std::alloc::Global;

/// Describes the unit that waits, and lends its bytes: sets where they are. It waits no longer.
#[inline(always)]
fn lend_waiting(stream: &mut StreamReceiver, alloc: Global, unit: &mut Unit, at: &mut *const u8)
    requires { IsSome stream.old.waiting }
    ensures { IfSome stream.old.waiting (λ u. LendsWaiting u unit.new at.new stream.old stream.new) }
{
    stream.lend_waiting(alloc, unit);
    judge(unit, &stream.receiver);
    *at = stream.lent.as_ptr();
}

/// Lends the next unit, and sets where its bytes are: the unit that waits for a larger output buffer, or the next one from the
/// receiver. A refused frame is described by its fault, and so is a unit that is too large. What was lent is lent no longer.
#[tactic(auto, using(crate::proofs::RefusalLemmas::some_number, crate::proofs::RefusalLemmas::other_number, crate::proofs::RefusalLemmas::no_size))]
pub fn lend(
    stream: &mut StreamReceiver,
    alloc: Global,
    now: u64,
    unit: &mut Unit,
    at: &mut *const u8,
) -> u32
    ensures { LendsUnit stream.old now result unit.old unit.new at.old at.new stream.new }
{
    stream.end_loan(alloc);
    if stream.waiting.is_some() {
        lend_waiting(stream, alloc, unit, at);
        return status::OK;
    }
    match stream
        .waiting
        .pop_receiver(&mut stream.receiver, Ticks(now))
    {
        None => status::NONE,
        Some(Err(_)) => status::OUT_OF_MEMORY,
        Some(Ok(Popped::Refused(fault))) => {
            *unit = refused_unit(&fault);
            status::OK
        }
        Some(Ok(Popped::TooLarge(()))) => {
            stream.waiting.clear(alloc);
            *unit = too_large_unit();
            status::OK
        }
        Some(Ok(Popped::Unit(()))) => {
            lend_waiting(stream, alloc, unit, at);
            status::OK
        }
    }
}
