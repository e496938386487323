//! A reader of bits, the highest of each byte first, and of LEB128 numbers.

ghost use Rattle.std.specs.Prelude.{◌≡◌, ◌+◌, ◌*◌, ◌/◌, ◌%◌, ◌<◌, ◌≤◌, length, min, None, true, false};
ghost use Rattle.std.specs.Option.{option_map};
ghost use Rattle.codec_payload_base.specs.Bits.{Reader, ReadsBits, ReadsLeb128, LendsBytes, Skips, left, here, moved, at_end};

pub use crate::theorems::leb128_says_numbers;
use std::marker::Model;

/// Reads the bits of a payload in order, the highest bit of each byte first. Lent bytes live as long as the payload, so reading can
/// continue while they are held. `None` leaves the place unchanged, except from [`BitRead::get_leb128`].
pub trait BitRead<'a> {
    /// The payload, and the place among its bits.
    ghost reader: { Self → Reader };

    /// The number of remaining bits; `usize::MAX` if there are more.
    fn remaining_bits(&self) -> usize
        ensures { result ≡ min (length (left (reader self.now))) usize.MAX };

    /// How many whole bytes are left.
    fn remaining_bytes(&self) -> usize
        ensures { result ≡ length (left (reader self.now)) / 8 };

    /// How many bytes lie wholly before the place.
    fn byte_offset(&self) -> usize
        ensures { result ≡ (reader self.now).place / 8 };

    /// The next eight bits.
    fn get_u8(&mut self) -> Option<u8>
        ensures { ReadsBits 8 (reader self.old) (reader self.new) result };

    /// The next sixteen bits, the high byte first.
    fn get_u16(&mut self) -> Option<u16>
        ensures { ReadsBits 16 (reader self.old) (reader self.new) result };

    /// The next `count` bits as a number; `None` if `count` is above 8 or fewer bits remain. For 0 bits the number is 0.
    fn get_bits(&mut self, count: usize) -> Option<u8>
        ensures few { count ≤ 8 → ReadsBits count (reader self.old) (reader self.new) result }
        ensures many { 8 < count → (result ≡ None) × (reader self.new ≡ reader self.old) };

    /// All bytes from that one on in which the place stands. The place is then the end.
    fn get_remaining(&mut self) -> &'a [u8]
        ensures lent { result.now ≡ here (reader self.old) }
        ensures after { reader self.new ≡ at_end (reader self.old) };

    /// `count` bytes from the current byte on, if eight times as many bits remain. The place moves on by as many bytes.
    fn get_bytes(&mut self, count: usize) -> Option<&'a [u8]>
        ensures { LendsBytes count (reader self.old) (reader self.new) (option_map (λ s. s.now) result) };

    /// A LEB128 number of at most ten bytes, low groups first, modulo 2^64. `None` if the tenth byte has the continuation bit too,
    /// or the bytes end before the last; the place is then after the bytes that were read.
    fn get_leb128(&mut self) -> Option<u64>
        ensures { ReadsLeb128 (reader self.old) (reader self.new) result };

    /// Moves the place on by `count` bytes; unchanged if fewer bits remain.
    fn skip_bytes(&mut self, count: usize)
        ensures { Skips count (reader self.old) (reader self.new) };
}

/// Reads the bits of a borrowed byte string. Does not allocate.
#[derive(Debug, Drop)]
pub struct BitReader<'a> {
    source: &'a [u8],
    byte: usize,
    bit: usize,
}

impl<'a> Model for BitReader<'a> {
    ghost Value = { Reader };

    ghost view = { λ r. record { bytes = r.source.now; place = 8 * r.byte + r.bit } };

    ghost invariant = { λ r. (r.bit < 8) × (8 * r.byte + r.bit ≤ 8 * length r.source.now) };
}

impl<'a> BitReader<'a> {
    /// A reader at the first bit of `data`.
    pub fn new(data: &'a [u8]) -> Self
        ensures { result ≡ record { bytes = «data».now; place = 0 } }
    {
        BitReader {
            source: data,
            byte: 0,
            bit: 0,
        }
    }

    /// A reader at that bit of `data`, counted from 0. A place past the end counts as the end.
    pub fn at(data: &'a [u8], place_in_bits: usize) -> Self
        ensures { result ≡ record { bytes = «data».now; place = min place_in_bits (8 * length «data».now) } }
    {
        if place_in_bits / 8 >= data.len() {
            BitReader {
                source: data,
                byte: data.len(),
                bit: 0,
            }
        } else {
            BitReader {
                source: data,
                byte: place_in_bits / 8,
                bit: place_in_bits % 8,
            }
        }
    }

    /// Another reader at the same place; each moves on its own.
    pub fn fork(&self) -> Self
        ensures { result ≡ self.now }
    {
        BitReader {
            source: self.source,
            byte: self.byte,
            bit: self.bit,
        }
    }

    /// All bytes from that one on in which the place stands. The place stays.
    pub fn ahead(&self) -> &'a [u8]
        ensures { result.now ≡ here self.now }
    {
        &self.source[self.byte..]
    }

    /// Moves the place on by `count` bits if that many remain, and returns whether they did. Otherwise the place is unchanged.
    #[tactic(auto, using(crate::proofs::BitLemmas::length_left))]
    pub fn skip_bits(&mut self, count: usize) -> bool
        ensures skipped { result ≡ true → (count ≤ length (left self.old)) × (self.new ≡ moved self.old count) }
        ensures stayed { result ≡ false → (length (left self.old) < count) × (self.new ≡ self.old) }
    {
        let place = self.bit + count % 8;
        let there = count / 8 + place.div_ceil(8) <= self.source.len() - self.byte;
        if there {
            self.byte += count / 8 + place / 8;
            self.bit = place % 8;
        }
        there
    }

    /// The number of bits between the start of the current byte and the place, 0 to 7.
    pub fn bits_behind_byte(&self) -> usize
        ensures { result ≡ self.now.place % 8 }
    {
        self.bit
    }
}

#[tactic(auto, using(crate::proofs::BitLemmas::length_left))]
impl<'a> BitRead<'a> for BitReader<'a> {
    ghost reader = { λ r. r };

    fn remaining_bits(&self) -> usize {
        let part = if self.bit == 0 { 0 } else { 8 - self.bit };
        self.remaining_bytes()
            .saturating_mul(8)
            .saturating_add(part)
    }

    fn remaining_bytes(&self) -> usize {
        let bytes = self.source.len() - self.byte;
        if self.bit == 0 { bytes } else { bytes - 1 }
    }

    fn byte_offset(&self) -> usize {
        self.byte
    }

    fn get_u8(&mut self) -> Option<u8> {
        self.get_bits(8)
    }

    fn get_u16(&mut self) -> Option<u16> {
        if self.remaining_bits() < 16 {
            return None;
        }
        let high = self.get_u8()?;
        let low = self.get_u8()?;
        Some(u16::from_be_bytes([high, low]))
    }

    fn get_bits(&mut self, count: usize) -> Option<u8> {
        let bytes = self.source.len() - self.byte;
        // Two bytes hold the requested bits, at any place within the first byte.
        if count > 8 || (bytes < 2 && self.bit + count > 8 * bytes) {
            return None;
        }
        if count == 0 {
            return Some(0);
        }
        let high = self.source[self.byte];
        let low = if bytes < 2 {
            0
        } else {
            self.source[self.byte + 1]
        };
        let word = (u16::from(high) << 8) | u16::from(low);
        let value = (word >> (16 - self.bit - count)) & ((1 << count) - 1);
        let place = self.bit + count;
        self.byte += place / 8;
        self.bit = place % 8;
        Some(value as u8)
    }

    fn get_remaining(&mut self) -> &'a [u8] {
        let lent = &self.source[self.byte..];
        self.byte = self.source.len();
        self.bit = 0;
        lent
    }

    fn get_bytes(&mut self, count: usize) -> Option<&'a [u8]> {
        if count > self.remaining_bytes() {
            return None;
        }
        let start = self.byte;
        self.byte += count;
        Some(&self.source[start..start + count])
    }

    fn get_leb128(&mut self) -> Option<u64> {
        let mut value = 0u64;
        for place in 0..10u32 {
            let byte = self.get_u8()?;
            value |= u64::from(byte & 0x7f) << (7 * place);
            if byte < 0x80 {
                return Some(value);
            }
        }
        None
    }

    fn skip_bytes(&mut self, count: usize) {
        if count <= self.remaining_bytes() {
            self.byte += count;
        }
    }
}
