//! AMR-WB: entries of the table of contents (docs/use/FORMATS.md, "AMR-WB").

ghost use Rattle.std.specs.Prelude.{◌≡◌, ◌+◌, ◌*◌, ◌/◌, ◌%◌, ◌<◌};
ghost use Rattle.codec_payload_audio.specs.AmrWb.{bit_of};

/// An entry of the table of contents (RFC 4867, section 4.3.2).
#[derive(Clone, Copy, Debug)]
pub(crate) struct TocEntry {
    /// Whether another entry follows.
    pub(crate) follows: bool,
    /// From 0 to 15.
    pub(crate) frame_type: u8,
    /// Clear if the frame is severely damaged.
    pub(crate) quality: bool,
    ghost four_bits: { frame_type < 16 },
}

impl TocEntry {
    /// The entry of six bits: whether another follows, four of the frame type, and the quality.
    #[tactic(auto, using(crate::proofs::AmrWbEntryLemmas::bit_of_high, crate::proofs::AmrWbEntryLemmas::bit_of_low))]
    pub(crate) fn from_bits(bits: u8) -> TocEntry
        requires { bits < 64 }
        ensures follows { bit_of result.follows ≡ bits / 32 }
        ensures frame_type { result.frame_type ≡ bits / 2 % 16 }
        ensures quality { bit_of result.quality ≡ bits % 2 }
    {
        TocEntry {
            follows: bits >= 32,
            frame_type: bits / 2 % 16,
            quality: bits % 2 == 1,
        }
    }

    /// The first byte of the frame's storage form (RFC 4867, section 5.3).
    pub(crate) fn storage_header(self) -> u8
        ensures { result ≡ 8 * self.frame_type + 4 * bit_of self.quality }
    {
        let quality = if self.quality { 4 } else { 0 };
        8 * self.frame_type + quality
    }
}
