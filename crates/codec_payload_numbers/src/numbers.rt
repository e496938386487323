//! 16-bit sequence numbers, extended to 64-bit numbers that do not wrap.

ghost use Rattle.std.specs.Prelude.{◌≡◌, ◌≤◌, ◌<◌, ◌+◌, ◌%◌, None, Some, IfSome};
ghost use Rattle.codec_payload_numbers.specs.Numbers.{no_numbers, numbering_within, number_in, answer_for, answer_anew, without_restart, number_within, lowest_with, numbering_with, numbering_after, ahead, behind, follows_suspect, greater};
ghost use Rattle.codec_payload_numbers.specs.Numbers.{kept_number};
ghost use Rattle.codec_payload_numbers.specs.declared.numbers.Extended.TheVariants as extended;

pub use crate::theorems::numbers_are_true;
use std::marker::Model;
use thiserror::Error;

/// How far ahead of the highest number a packet may be, exclusive: MAX_DROPOUT of RFC 3550, appendix A.1.
const FORWARD: u16 = 3_000;

/// How far behind the highest number a packet may be, inclusive. MAX_MISORDER of RFC 3550, appendix A.1, is 100;
/// retransmissions arrive later than that.
const BACKWARD: u16 = 1_000;

/// The extended number of a packet, or the reason why it has none.
#[derive(Clone, Copy, Debug, PartialEq, Eq)]
pub enum Extended {
    /// The packet is the first, or its number is within the windows; this is its extended number.
    Number(u64),
    /// The sender has restarted: the packet follows a suspect packet. This is its extended number, above all earlier numbers.
    Restarted(u64),
    /// The packet is outside the windows, and gets no number. If the next suspect packet is its successor, the sender has
    /// restarted.
    Suspect,
    /// The packet gets no number, and nothing has changed: the extended number would need more than 64 bits. Inside a jitter
    /// buffer it is also the answer for a packet of a former sender.
    Spent,
}

impl Extended {
    /// Returns the extended number, if the packet got one.
    #[inline(always)]
    pub fn number(self) -> Option<u64>
        ensures { result ≡ number_in self }
    {
        match self {
            Extended::Number(number) | Extended::Restarted(number) => Some(number),
            Extended::Suspect | Extended::Spent => None,
        }
    }
}

/// The window that is out of range.
#[derive(Clone, Copy, Debug, PartialEq, Eq, Error)]
pub enum WindowError {
    /// The forward window is 0, or above 32,768.
    #[error("forward window must be 1 to 32768")]
    Forward,
    /// The backward window is not less than the forward window.
    #[error("backward window must be less than the forward window")]
    Backward,
}

/// Extends the sequence numbers of one sender's packets. Allocates nothing.
///
/// Let d be the distance from the highest number so far to the nearest number with the packet's low bits:
///
/// - If `-backward <= d < forward`, the packet gets the number at that distance.
/// - The first packet gets 65,536 plus its low bits, so that packets sent before it have numbers too.
/// - All other packets are suspect. If a packet follows the latest suspect packet, the sender has restarted.
///
/// After a restart the numbers continue at the second multiple of 65,536 above the highest number, above all earlier numbers.
/// This also applies to packets that the sender sent before the first one that arrives. Packets within the windows that arrive
/// between the two suspect packets change nothing (RFC 3550, appendix A.1).
#[derive(Clone, Copy, Debug)]
pub struct SequenceNumbers {
    /// The highest extended number so far.
    greatest: Option<u64>,
    /// The low bits of the latest suspect packet, if no restart came since.
    suspect: Option<u16>,
    forward: u16,
    backward: u16,
}

impl Model for SequenceNumbers {
    ghost use Rattle.codec_payload_numbers.specs.Numbers.{Numbering, IsNumbering};

    ghost Value = { Numbering };

    ghost view = { λ s. record {
      greatest = s.greatest;
      suspect = s.suspect;
      forward = s.forward;
      backward = s.backward;
    } };

    ghost inverse = { λ n. record { greatest = n.greatest; suspect = n.suspect; forward = n.forward; backward = n.backward } };

    ghost invariant = { λ s. IsNumbering (record { greatest = s.greatest; suspect = s.suspect; forward = s.forward; backward = s.backward }) };
}

impl SequenceNumbers {
    /// Creates a numbering with windows of 3,000 numbers ahead and 1,000 behind.
    pub fn new() -> Self
        ensures { result ≡ no_numbers 3000 1000 }
    {
        SequenceNumbers {
            greatest: None,
            suspect: None,
            forward: FORWARD,
            backward: BACKWARD,
        }
    }

    /// Creates a numbering with your own windows. `forward` is exclusive, `backward` inclusive. `backward` must be less than
    /// `forward`, so that numbers after a restart never reach numbers before it.
    ///
    /// # Errors
    ///
    /// - `WindowError::Forward`: `forward` is outside 1 to 32,768.
    /// - `WindowError::Backward`: `backward` is not less than `forward`.
    pub fn with_windows(forward: u16, backward: u16) -> Result<Self, WindowError>
        ensures { result ≡ numbering_within forward backward }
    {
        if forward == 0 || forward > 32_768 {
            return Err(WindowError::Forward);
        }
        if backward >= forward {
            return Err(WindowError::Backward);
        }
        Ok(SequenceNumbers {
            greatest: None,
            suspect: None,
            forward,
            backward,
        })
    }

    /// Returns a numbering with the same windows, before its first packet.
    pub fn anew(&self) -> Self
        ensures { result ≡ no_numbers self.now.forward self.now.backward }
    {
        SequenceNumbers {
            greatest: None,
            suspect: None,
            ..*self
        }
    }

    /// Extends the sequence number `low` of the next packet.
    #[inline(always)]
    pub fn number(&mut self, low: u16) -> Extended
        ensures value { result ≡ answer_for self.old low }
        ensures after { self.new ≡ numbering_after self.old low }
        ensures low { IfSome (number_in result) (λ x. x % 65536 ≡ low) }
    {
        let answer = self.answer_for(low);
        self.take(answer, low);
        answer
    }

    /// Extends the sequence number of the first packet after a restart that the caller knows of. Its number is above all
    /// earlier numbers, by more than the backward window.
    pub fn restart_number(&mut self, low: u16) -> Extended
        ensures value { result ≡ answer_anew self.old low }
        ensures after { self.new ≡ numbering_with self.old result low }
        ensures low { IfSome (number_in result) (λ x. x % 65536 ≡ low) }
        ensures above { IfSome self.old.greatest (λ g. IfSome (number_in result) (λ x. g < x)) }
    {
        let answer = self.answer_anew(low);
        self.take(answer, low);
        answer
    }

    /// Records the answer for a packet with the low bits `low`.
    #[inline(always)]
    pub fn take(&mut self, answer: Extended, low: u16)
        requires far { IfSome (number_in answer) (λ x. self.old.greatest ≡ None → 65536 ≤ x) }
        ensures { self.new ≡ numbering_with self.old answer low }
    {
        match answer {
            Extended::Number(number) => self.raise_to(number),
            Extended::Restarted(number) => {
                self.raise_to(number);
                self.suspect = None;
            }
            Extended::Suspect => self.suspect = Some(low),
            Extended::Spent => {}
        }
    }

    /// Raises the highest number to `number`, if it is lower.
    #[inline(always)]
    fn raise_to(&mut self, number: u64)
        requires far { self.old.greatest ≡ None → 65536 ≤ number }
        ensures { self.new ≡ record self.old { greatest = Some (greater self.old.greatest number) } }
    {
        self.greatest = Some(match self.greatest {
            Some(greatest) => greatest.max(number),
            None => number,
        });
    }

    /// Returns how far behind the highest number a packet may be.
    pub fn backward(&self) -> u16
        ensures { result ≡ self.now.backward }
    {
        self.backward
    }

    /// Returns the highest extended number so far.
    pub fn greatest(&self) -> Option<u64>
        ensures { result ≡ self.now.greatest }
    {
        self.greatest
    }

    /// Returns the answer for the first packet after a restart.
    pub fn answer_anew(&self, low: u16) -> Extended
        ensures value { result ≡ answer_anew self.now low }
        ensures far { IfSome (number_in result) (λ x. self.now.greatest ≡ None → 65536 ≤ x) }
        ensures low { IfSome (number_in result) (λ x. x % 65536 ≡ low) }
        ensures above { IfSome self.now.greatest (λ g. IfSome (number_in result) (λ x. g < x)) }
    {
        let low_bits = u64::from(low);
        let Some(greatest) = self.greatest else {
            return Extended::Number(65_536 + low_bits);
        };
        match (greatest - greatest % 65_536).checked_add(131_072 + low_bits) {
            Some(number) => Extended::Restarted(number),
            None => Extended::Spent,
        }
    }

    /// Returns the answer for the next packet.
    #[inline(always)]
    pub fn answer_for(&self, low: u16) -> Extended
        ensures value { result ≡ answer_for self.now low }
        ensures far { IfSome (number_in result) (λ x. self.now.greatest ≡ None → 65536 ≤ x) }
        ensures low { IfSome (number_in result) (λ x. x % 65536 ≡ low) }
    {
        let low_bits = u64::from(low);
        let Some(greatest) = self.greatest else {
            return self.answer_anew(low);
        };
        let ahead = (low_bits + 65_536 - greatest % 65_536) % 65_536;
        let behind = (greatest % 65_536 + 65_536 - low_bits) % 65_536;
        if ahead < u64::from(self.forward) {
            match greatest.checked_add(ahead) {
                Some(number) => Extended::Number(number),
                None => Extended::Spent,
            }
        } else if behind <= u64::from(self.backward) {
            Extended::Number(greatest - behind)
        } else if follows(self.suspect, low) {
            self.answer_anew(low)
        } else {
            Extended::Suspect
        }
    }
}

/// Turns a restart into a suspect packet, while no restart is detected.
pub fn without_restart(answer: Extended) -> Extended
    ensures { result ≡ without_restart answer }
{
    match answer {
        Extended::Restarted(_) => Extended::Suspect,
        _ => answer,
    }
}

/// Returns the number, if it is within the windows.
pub fn number_within(answer: Extended) -> Option<u64>
    ensures { result ≡ number_within answer }
{
    match answer {
        Extended::Number(number) => Some(number),
        _ => None,
    }
}

/// Returns the lowest number since the latest restart, with this packet.
#[inline(always)]
pub fn lowest_with(lowest: Option<u64>, answer: Extended) -> Option<u64>
    ensures { result ≡ lowest_with lowest answer }
{
    match answer {
        Extended::Number(number) => Some(match lowest {
            Some(lowest) => lowest.min(number),
            None => number,
        }),
        Extended::Restarted(number) => Some(number),
        Extended::Suspect | Extended::Spent => lowest,
    }
}

/// Returns whether `low` comes right after the suspect number.
fn follows(suspect: Option<u16>, low: u16) -> bool
    ensures { result ≡ follows_suspect suspect low }
{
    match suspect {
        Some(suspect) => (u32::from(suspect) + 1) % 65_536 == u32::from(low),
        None => false,
    }
}

/// Returns the extended number of the suspect packet with the low bits `low`: the highest such number below `number`, at which
/// the sender restarted.
pub fn kept_number(number: u64, low: u16) -> u64
    ensures { result ≡ kept_number number low }
{
    number.saturating_sub((number % 65_536 + 65_536 - u64::from(low)) % 65_536)
}
