//! RTP times of 32 bits, extended to numbers of 64 bits that do not wrap.

ghost use Rattle.std.specs.Prelude.{◌≡◌, ◌%◌, ◌^◌, None, Some, IfSome};
ghost use Rattle.codec_payload_base.specs.Extended.{Follows};
ghost use Rattle.codec_payload_rtp.specs.ExtendedTimes.{extended_time};

use codec_payload_base::wire::extend_u32;
use std::marker::Model;

/// Extends the RTP times of one stream, in order of the calls: each becomes the time nearest to the last one that has its 32 bits;
/// half the range counts as forward. The first gets 2^32 added, so that earlier ones have times above 0. Does not allocate.
#[derive(Clone, Copy, Debug, Default)]
pub struct RtpTimes {
    last: Option<u64>,
}

impl Model for RtpTimes {
    ghost use Rattle.std.specs.Prelude.{ℕ, Option};

    ghost Value = { Option ℕ };

    ghost view = { λ t. t.last };

    ghost inverse = { λ last. record { last = last } };
}

impl RtpTimes {
    /// No time so far.
    pub fn new() -> RtpTimes
        ensures { result ≡ None }
    {
        RtpTimes { last: None }
    }

    /// The last time, extended.
    pub fn last(&self) -> Option<u64>
        ensures { result ≡ self.now }
    {
        self.last
    }

    /// The time of a packet or a unit, in ticks of the RTP clock, modulo 2^64.
    #[tactic(auto, using(crate::proofs::TimeLemmas::low_bits))]
    pub fn extend(&mut self, timestamp: u32) -> u64
        ensures value { result ≡ extended_time self.old timestamp }
        ensures after { self.new ≡ Some result }
        // It has the 32 bits of the given time.
        ensures low { result % 2 ^ 32 ≡ timestamp }
        // If the clock moved by less than half of 2^32 since the last time, forward or back, the extended time moves by the same
        // amount.
        ensures follows { IfSome self.old (λ last. Follows (2 ^ 32) (Some last) timestamp result) }
    {
        let time = match self.last {
            Some(_) => extend_u32(self.last, timestamp),
            None => (1 << 32) + u64::from(timestamp),
        };
        self.last = Some(time);
        time
    }
}
