//! Which frames are due at a time.

ghost use Rattle.std.specs.Prelude.{◌≡◌};
ghost use Rattle.codec_payload_jitter.specs.Receiving.{has_little_room, is_idle, is_pressed, settled, waiting_at};

use super::JitterBuffer;
use crate::waiting::overdue;
use codec_payload_base::wire::Ticks;
use codec_payload_codec::codec::Depacketizer;

impl<B: Depacketizer> JitterBuffer<B> {
    /// Moves the cutoff past the numbers without media that come right after it.
    pub(super) fn settle(&mut self)
        ensures { self.new ≡ settled self.old }
    {
        self.no_media_numbers.pass(&mut self.buffer);
    }

    /// Returns whether pops wait for nothing at that time.
    fn is_pressed(&self, now: Ticks) -> bool
        ensures { result ≡ is_pressed self.now now.0 }
    {
        self.ended
            || overdue(self.wait_limits.max_wait, now, self.buffer.ready_since())
            || self.has_little_room()
    }

    /// Returns whether fewer places are free than `room`.
    fn has_little_room(&self) -> bool
        ensures { result ≡ has_little_room self.now }
    {
        self.buffer.limit().saturating_sub(self.buffer.held()) < self.room
    }

    /// Returns whether no frame is complete, and pops go on to wait for as many frames as the latest one did. Then no pop changes
    /// anything until a packet arrives, or the wait limits change. `false` says nothing.
    #[inline(always)]
    pub fn is_idle(&self) -> bool
        ensures { result ≡ is_idle self.now }
    {
        self.buffer.ready() == 0
            && self.no_media_numbers.is_empty()
            && !self.ended
            && self.buffer.cutoff().is_some()
            && self.buffer.hold_back() == self.wait_limits.most_held_back()
            && !self.has_little_room()
    }

    /// Returns how many complete frames wait behind a gap at that time. `None`: the stream is starting, and no frame is
    /// released.
    #[inline(always)]
    pub(super) fn waiting(&self, now: Ticks) -> Option<usize>
        ensures { result ≡ waiting_at self.now now.0 }
    {
        if self.is_pressed(now) {
            Some(0)
        } else if self.buffer.cutoff().is_none() && self.buffer.ready() <= self.wait_limits.start {
            None
        } else {
            Some(self.wait_limits.most_held_back())
        }
    }
}
