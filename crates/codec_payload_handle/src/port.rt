//! The events of a session, whose bytes are lent to C until the next poll.

ghost use Rattle.std.specs.Prelude.{◌≡◌, ◌<◌, [], None, Some, length};
ghost use Rattle.codec_payload_session.specs.Polls.{Polls};
ghost use Rattle.codec_payload_session_stream.specs.Units.{HasUnit, event_to};

use crate::object::PortSession;
use crate::slot::{MOST_BYTES, MOST_PACKETS, TakenPackets, swap_bytes};
use codec_payload_core::buffer::PoppedUnit;
use codec_payload_core::wire::Ticks;
use codec_payload_session::session::{Event, Session};
use std::alloc::Global;

impl PortSession {
    /// Returns a session that lends no bytes, and of which no unit was taken. Allocates nothing.
    pub fn new(alloc: Global, session: Session) -> Self
        ensures session { result.session ≡ session }
        ensures lent { result.lent.items ≡ [] }
        ensures taken { result.taken ≡ None }
    {
        PortSession {
            session,
            unit: PoppedUnit::new(alloc),
            lent: Vec::new(alloc),
            taken: TakenPackets::new(alloc),
        }
    }

    /// Polls the session. The unit of the answer, if it has one, is in `unit`. The bytes that were lent are lent no longer, and of
    /// their memory and of the memory for the next unit at most 8,192 bytes and 8 packets are kept.
    #[inline(always)]
    pub fn poll(&mut self, alloc: Global, now: Ticks) -> Option<Event<()>>
        ensures polls { Polls now self.old.session (event_to result self.new.unit) self.new.session }
        // A unit has packets.
        ensures some { HasUnit (event_to result self.new.unit) }
        ensures taken { self.new.taken ≡ self.old.taken }
    {
        if self.lent.capacity() > MOST_BYTES {
            self.lent = Vec::new(alloc);
        }
        self.unit.free_above(alloc, MOST_BYTES, MOST_PACKETS);
        self.session.poll_into(now, &mut self.unit)
    }

    /// Lends the bytes of the unit, and keeps its packets in place of those of the latest unit. What `unit` has then is
    /// unspecified.
    #[inline(always)]
    pub fn lend_unit(&mut self)
        requires { 0 < length self.old.unit.metas }
        ensures lent { self.new.lent.items ≡ self.old.unit.bytes }
        ensures taken { self.new.taken ≡ Some self.old.unit.metas }
        ensures session { self.new.session ≡ self.old.session }
    {
        swap_bytes(&mut self.lent, &mut self.unit);
        self.taken.take_from(&mut self.unit);
    }

    /// Lends these bytes, which are of no unit.
    pub fn lend(&mut self, bytes: Vec<u8>)
        ensures { self.new ≡ record self.old { lent = bytes } }
    {
        self.lent = bytes;
    }

    /// Lends no bytes: the place of the bytes that were lent is that of none.
    pub fn lend_nothing(&mut self)
        ensures lent { self.new.lent.items ≡ [] }
        ensures rest { self.new ≡ record self.old { lent = self.new.lent } }
    {
        self.lent.clear();
    }
}
