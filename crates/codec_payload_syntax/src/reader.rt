//! A reader of bit fields, the highest bit of each byte first.

ghost use Rattle.std.specs.Prelude.{◌≡◌, ◌*◌, ◌<◌, ◌≤◌, ◌^◌, ◌++◌, [], length, take, drop, true, false, IfOk};
ghost use Rattle.codec_payload_base.specs.Bits.{bits, bits_of};
ghost use Rattle.codec_payload_syntax.specs.FieldReaders.{be_number, left, skipped};
ghost use Rattle.codec_payload_syntax.specs.Syntax.{field, paired, read, skips};

use std::marker::Model;

/// A number of at most four bytes, high byte first.
#[inline(always)]
fn be_number(bytes: &[u8]) -> u32
    requires { length bytes.now ≤ 4 }
    ensures { result ≡ be_number bytes.now }
{
    match bytes {
        [] => 0,
        [b0] => u32::from(*b0),
        [b0, b1] => u32::from_be_bytes([0, 0, *b0, *b1]),
        [b0, b1, b2] => u32::from_be_bytes([0, *b0, *b1, *b2]),
        [b0, b1, b2, b3, ..] => u32::from_be_bytes([*b0, *b1, *b2, *b3]),
    }
}

/// The big-endian number of at most four bytes.
#[inline(always)]
fn front_number(bytes: &[u8]) -> u32
    requires { length bytes.now ≤ 4 }
    ensures says { bits (8 * length bytes.now) result ≡ bits_of bytes.now }
    ensures small { result < 2 ^ (8 * length bytes.now) }
{
    be_number(bytes)
}

/// Four bytes from the front, or all if there are fewer, and the bytes after them.
#[inline(always)]
fn cut_four(bytes: &[u8]) -> (&[u8], &[u8])
    ensures front { result.0.now ≡ take 4 bytes.now }
    ensures rest { result.1.now ≡ drop 4 bytes.now }
{
    if bytes.len() <= 4 {
        return (bytes, &[]);
    }
    bytes.split_at(4)
}

/// Reads fields from borrowed bytes. Does not allocate.
#[derive(Debug, Drop)]
pub struct FieldReader<'a> {
    /// The bits that were taken out of the bytes and are not read, lowest in a number.
    window: u64,
    /// How many these are.
    held: usize,
    /// The bytes after them.
    behind: &'a [u8],
}

impl<'a> Model for FieldReader<'a> {
    ghost use Rattle.std.specs.Prelude.{◌≤◌};
    ghost use Rattle.codec_payload_base.specs.Bits.{bits};
    ghost use Rattle.codec_payload_syntax.specs.FieldReaders.{Unread};

    ghost Value = { Unread };

    ghost view = { λ r. record { held = bits r.held r.window; behind = r.behind.now } };

    ghost invariant = { λ r. r.held ≤ 48 };
}

impl<'a> FieldReader<'a> {
    /// A reader at the first bit of `bytes`.
    #[inline(always)]
    #[tactic(auto, using(crate::proofs::ReaderLemmas::none_held))]
    pub fn new(bytes: &'a [u8]) -> FieldReader<'a>
        ensures { left result ≡ bits_of bytes.now }
    {
        FieldReader {
            window: 0,
            held: 0,
            behind: bytes,
        }
    }

    /// Takes bits out of four more bytes, or of all if there are fewer.
    #[inline(always)]
    fn fill(&mut self)
        requires { length self.old.held ≤ 16 }
        ensures same { left self.new ≡ left self.old }
        ensures many { length self.new.held < 32 → self.new.behind ≡ [] }
    {
        let (front, rest) = cut_four(self.behind);
        let more = 8 * front.len();
        let before = self.window % (1 << self.held);
        self.window = (before << more) + u64::from(front_number(front));
        self.held += more;
        self.behind = rest;
    }

    /// Makes the requested bits available; an error if there are fewer.
    #[inline(always)]
    fn hold(&mut self, count: usize) -> bool
        requires { count ≤ 16 }
        ensures same { left self.new ≡ left self.old }
        ensures enough { result ≡ true → count ≤ length self.new.held }
        ensures few { result ≡ false → length (left self.new) < count }
    {
        if count <= self.held {
            return true;
        }
        self.fill();
        count <= self.held
    }

    /// The next bits, which are held, as a number.
    #[inline(always)]
    fn split(&mut self, count: usize) -> u64
        requires { count ≤ length self.old.held }
        ensures value { self.old.held ≡ bits count result ++ self.new.held }
        ensures below { result < 2 ^ count }
        ensures behind { self.new.behind ≡ self.old.behind }
    {
        self.held -= count;
        (self.window >> self.held) % (1 << count)
    }

    /// The next bits as a number. `short` is the fault if there are fewer.
    #[inline(always)]
    pub fn take_bits<F: Copy>(&mut self, count: usize, short: F) -> Result<u64, F>
        requires { count ≤ 16 }
        ensures value { paired result (left self.new) ≡ read short (field count) (left self.old) }
        ensures below { IfOk result (λ v. v < 2 ^ count) }
    {
        if self.hold(count) {
            Ok(self.split(count))
        } else {
            Err(short)
        }
    }

    /// Skips a given number of bits. `short` is the fault if there are fewer.
    #[inline(always)]
    pub fn skip_bits<F: Copy>(&mut self, count: usize, short: F) -> Result<u8, F>
        ensures { paired result (left self.new) ≡ read short (skips count) (left self.old) }
    {
        if count <= self.held {
            self.split(count);
            return Ok(0);
        }
        match behind_bits(count - self.held, self.behind, short) {
            Ok(reader) => {
                *self = reader;
                Ok(0)
            }
            Err(fault) => Err(fault),
        }
    }
}

/// A reader after `count` bits.
fn behind_bits<F: Copy>(count: usize, bytes: &[u8], short: F) -> Result<FieldReader<'_>, F>
    ensures { skipped result ≡ read short (skips count) (bits_of bytes.now) }
{
    if bytes.len() < count / 8 {
        return Err(short);
    }
    let (_, rest) = bytes.split_at(count / 8);
    let mut reader = FieldReader::new(rest);
    match reader.take_bits(count % 8, short) {
        Ok(_) => Ok(reader),
        Err(fault) => Err(fault),
    }
}
