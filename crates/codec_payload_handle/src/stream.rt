//! The units of a receiver of datagrams, whose bytes are lent to C until the next call.

ghost use Rattle.std.specs.Prelude.{◌≡◌, IsSome};
ghost use Rattle.codec_payload_handle.specs.Slots.{IsLent};

use crate::object::StreamReceiver;
use crate::slot::MOST_BYTES;
use crate::unit::Unit;
use std::alloc::Global;

impl StreamReceiver {
    /// Ends a loan: the bytes that were lent are lent no longer, and at most 8,192 bytes of their memory are kept.
    #[inline(always)]
    pub fn end_loan(&mut self, alloc: Global)
        ensures { self.new ≡ record self.old { lent = self.new.lent } }
    {
        if self.lent.capacity() > MOST_BYTES {
            self.lent = Vec::new(alloc);
        }
    }

    /// Describes the unit that waits, lends its bytes, and keeps its packets in place of those of the latest unit. It waits no
    /// longer.
    #[inline(always)]
    pub fn lend_waiting(&mut self, alloc: Global, unit: &mut Unit)
        requires { IsSome self.old.waiting }
        ensures lends { IsLent self.old.waiting unit.new self.new.lent.items self.new.taken self.new.waiting }
        ensures receiver { self.new.receiver ≡ self.old.receiver }
    {
        self.waiting
            .lend_to(alloc, unit, &mut self.lent, &mut self.taken);
    }
}
