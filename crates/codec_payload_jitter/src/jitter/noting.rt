//! Numbers without media of which no packet arrived.

ghost use Rattle.std.specs.Prelude.{◌≡◌, IfOk, OnErr};
ghost use Rattle.codec_payload_jitter.specs.NotedRanges.{NotesRange, is_any_held, start_of};

use super::JitterBuffer;
use codec_payload_base::wire::SeqNo;
use codec_payload_codec::codec::Depacketizer;
use std::alloc::AllocError;

/// The largest number of numbers that one call notes: as many as are remembered.
const AT_MOST: u64 = 1_024;

impl<B: Depacketizer> JitterBuffer<B> {
    /// Records that the extended numbers from `first` up to `end`, exclusive, carry no media, though none of their packets arrived. They
    /// are then not missing, and no frame waits for them, as after [`JitterBuffer::push_no_media`]. Numbers that are released or late are
    /// left out. Of more than 1,024 numbers the last 1,024 are recorded. A packet that arrives under such a number later is stored as if
    /// the number had not been recorded.
    ///
    /// Returns how many of these numbers were not known to carry no media. `None`: a packet with one of these numbers is held, and nothing has
    /// changed. Counters stay as they are, since no packet arrived. At most 1,024 numbers are remembered; beyond that the lowest are
    /// forgotten.
    ///
    /// # Errors
    ///
    /// Out of memory: nothing has changed.
    pub fn note_no_media(&mut self, first: u64, end: u64) -> Result<Option<usize>, AllocError>
        ensures ok { IfOk result (λ noted. NotesRange first end self.old noted self.new) }
        ensures beside { self.new ≡ record self.old { no_media_numbers = self.new.no_media_numbers } }
        ensures err { OnErr result (self.new ≡ self.old) }
    {
        let first = self.start_of(first, end);
        if first >= end {
            return Ok(Some(0));
        }
        if self.holds_any(first, end) {
            return Ok(None);
        }
        let lowest = self.no_media_numbers.lowest_if_crowded(end - first);
        let noted = self.no_media_numbers.note_range(first, end)?;
        self.kept_missing.touch_range(first, end);
        self.kept_missing.touch_from(lowest);
        Ok(Some(noted))
    }

    /// Returns the first of these numbers that is recorded: one that is above the cutoff, and among the last 1,024.
    fn start_of(&self, first: u64, end: u64) -> u64
        ensures { result ≡ start_of self.now.buffer.cutoff first end }
    {
        let above = match self.buffer.cutoff() {
            Some(cutoff) if first <= cutoff.0 => cutoff.0.saturating_add(1),
            _ => first,
        };
        above.max(end.saturating_sub(AT_MOST))
    }

    /// Returns whether a packet with one of these numbers is held.
    #[tactic(auto, using(crate::proofs::RangeLemmas::held_next, crate::proofs::RangeLemmas::held_none))]
    fn holds_any(&self, first: u64, end: u64) -> bool
        ensures { result ≡ is_any_held first end self.now.buffer.held }
    {
        for number in first..end {
            if self.buffer.holds(SeqNo(number)) {
                return true;
            }
        }
        false
    }
}
