//! Missing numbers from a list that is kept.

ghost use Rattle.std.specs.Prelude.{◌≡◌, ◌<◌, OnOk, false};
ghost use Rattle.codec_payload_buffer.specs.Steps.{is_at_most};
ghost use Rattle.codec_payload_jitter.specs.Missing.{absent_between, missing_numbers, missing_of};

use super::JitterBuffer;
use crate::kept_missing::KeptMissing;
use codec_payload_codec::codec::Depacketizer;
use std::alloc::AllocError;
use std::mem::replace;

impl<B: Depacketizer> JitterBuffer<B> {
    /// Writes the same numbers as [`JitterBuffer::missing`] to `numbers`, in place of what it had. They come from a list that is
    /// kept from call to call: only numbers that may have changed since the last call are searched, and the others are copied.
    /// The list takes 16 bytes for each number.
    ///
    /// # Errors
    ///
    /// Out of memory: the jitter buffer is unchanged, and the contents of `numbers` are unspecified.
    pub fn missing_into(&mut self, most: usize, numbers: &mut Vec<u64>) -> Result<(), AllocError>
        ensures numbers { OnOk result (numbers.new.items ≡ missing_numbers self.old most) }
        ensures same { self.new ≡ self.old }
    {
        numbers.clear();
        let (next, end) = self.missing_range();
        if next >= end {
            return Ok(());
        }
        let alloc = self.kept_missing.alloc();
        let mut kept = replace(&mut self.kept_missing, KeptMissing::new(alloc));
        let answer = kept.renew(self, next, end, most);
        self.kept_missing = kept;
        answer?;
        numbers.extend_from_slice(self.kept_missing.first(most))
    }

    /// Returns the number from which on numbers can be missing, and the number up to which they can.
    pub(crate) fn missing_range(&self) -> (u64, u64)
        ensures missing { missing_of self.now ≡ absent_between self.now result.0 result.1 }
        ensures over { result.0 < result.1 → is_at_most self.now.buffer.cutoff result.0 ≡ false }
    {
        match (self.floor(), self.greatest()) {
            (Some(floor), Some(greatest)) => (floor.saturating_add(1), greatest),
            _ => (0, 0),
        }
    }
}
