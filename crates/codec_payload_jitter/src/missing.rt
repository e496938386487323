//! The missing numbers of a jitter buffer.

ghost use Rattle.std.specs.Prelude.{◌≡◌, ◌∷◌, ◌+◌, ◌<◌, ◌≤◌, [], IfSome, MatchOption};
ghost use Rattle.codec_payload_jitter.specs.Missing.{absent_between, missing_numbers};

use crate::jitter::JitterBuffer;
pub use crate::theorems::few_numbers_change;
use codec_payload_codec::codec::{Depacketizer, NoBox};
use std::marker::Model;

/// An iterator over the missing numbers, in rising order. No step allocates. A step passes each row of held numbers between the
/// previous answer and this one at once, however long the row is. See [`JitterBuffer::missing`].
#[derive(Debug, Drop)]
pub struct MissingNumbers<'a, B = NoBox> {
    packets: &'a JitterBuffer<B>,
    /// The lowest number that was not inspected so far.
    next: u64,
    /// The highest extended number so far.
    end: u64,
    /// The largest number of answers that are left.
    left: usize,
    /// Where the next search for a held number begins.
    place: usize,
}

impl<'a, B> Model for MissingNumbers<'a, B> {
    ghost use Rattle.std.specs.Prelude.{List, ℕ, take};
    ghost use Rattle.codec_payload_jitter.specs.Missing.{absent_between};

    ghost Value = { List ℕ };

    ghost view = { λ s. take s.left (absent_between s.packets.now s.next s.end) };
}

impl<'a, B: Depacketizer> MissingNumbers<'a, B> {
    /// Returns the missing numbers of this jitter buffer, at most `most` of them.
    pub(crate) fn of(packets: &'a JitterBuffer<B>, most: usize) -> Self
        ensures { result ≡ missing_numbers packets.now most }
    {
        let (next, end) = packets.missing_range();
        MissingNumbers {
            packets,
            next,
            end,
            left: most,
            place: 0,
        }
    }
}

/// Returns the first missing number from `from` up to `to`, exclusive. A row of held numbers is one step. `place` is where the search
/// for a held number begins, and is moved on.
#[tactic(auto, using(crate::proofs::MissingLemmas::absent_past, crate::proofs::MissingLemmas::absent_free, crate::proofs::MissingLemmas::absent_over, crate::proofs::MissingLemmas::absent_none))]
pub(crate) fn first_absent<B: Depacketizer>(
    packets: &JitterBuffer<B>,
    place: &mut usize,
    from: u64,
    to: u64,
) -> Option<u64>
    ensures first { MatchOption result (absent_between packets.now from to ≡ []) (λ n. absent_between packets.now from to ≡ n ∷ absent_between packets.now (n + 1) to) }
    ensures within { IfSome result (λ n. n < to) }
{
    let mut number = from;
    while number < to {
        let free = number.saturating_add(packets.held_in_a_row_near(place, number) as u64);
        if free >= to {
            return None;
        }
        if !packets.has_no_media(free) {
            return Some(free);
        }
        number = free + 1;
    }
    None
}

impl<'a, B: Depacketizer> Iterator for MissingNumbers<'a, B> {
    ghost use Rattle.std.specs.Iterator.{YieldsFirst, item_count};

    type Item = u64;

    ghost next_gives = { YieldsFirst (λ numbers. numbers) };

    ghost remaining = { item_count (λ numbers. numbers) };

    fn next(&mut self) -> Option<u64> {
        if self.left == 0 {
            return None;
        }
        let Some(number) = first_absent(self.packets, &mut self.place, self.next, self.end) else {
            self.left = 0;
            return None;
        };
        self.left -= 1;
        self.next = number + 1;
        Some(number)
    }
}
