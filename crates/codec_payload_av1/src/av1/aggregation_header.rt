//! AV1: the aggregation header of a payload (RTP Payload Format for AV1, section 4.4; docs/use/FORMATS.md, "AV1").

ghost use Rattle.std.specs.Prelude.{◌≡◌, ◌/◌, ◌==◌, ◌&&◌, bit_and, not};
ghost use Rattle.codec_payload_av1.specs.Av1Obu.{has_bit};
ghost use Rattle.codec_payload_av1.specs.Av1Payload.{count_of, header_byte};

/// The bit Z: the first element goes on from the payload before.
const CONTINUES: u8 = 0x80;

/// The bit Y: the last element goes on in the next payload.
const GOES_ON: u8 = 0x40;

/// The two bits of W.
const COUNT: u8 = 0x30;

/// The value of a W of one.
const ONE: u8 = 0x10;

/// The bit N: a coded video sequence starts.
const STARTS: u8 = 0x08;

/// The first byte of a payload: Z, Y, W in two bits, N, and three reserved bits, which are written as zeros and not read.
#[derive(Clone, Copy)]
pub struct AggregationHeader {
    pub byte: u8,
}

impl AggregationHeader {
    /// The header of a payload with this number of elements. W is the number up to three, and 0 above.
    pub fn new(continues: bool, goes_on: bool, elements: usize, starts: bool) -> Self
        ensures { result.byte ≡ header_byte continues goes_on (count_of elements) starts }
    {
        let count = if elements > 3 { 0 } else { elements as u8 };
        let z = if continues { CONTINUES } else { 0 };
        let y = if goes_on { GOES_ON } else { 0 };
        let n = if starts { STARTS } else { 0 };
        AggregationHeader {
            byte: z + y + ONE * count + n,
        }
    }

    /// The header of a payload inside an OBU: one element that goes on from the payload before and in the next.
    pub fn inside() -> Self
        ensures { result.byte ≡ 0xd0 }
    {
        AggregationHeader {
            byte: CONTINUES + GOES_ON + ONE,
        }
    }

    /// Whether it is the one of [`inside`](Self::inside), with no reserved bit set.
    pub fn is_inside(self) -> bool
        ensures { result ≡ (self.byte == 0xd0) }
    {
        self.byte == CONTINUES + GOES_ON + ONE
    }

    /// Z: whether the first element goes on from the payload before.
    pub fn continues(self) -> bool
        ensures { result ≡ has_bit 128 self.byte }
    {
        self.byte & CONTINUES != 0
    }

    /// Y: whether the last element continues in the next payload. Ignored if W announces more elements than the payload has.
    pub fn goes_on(self) -> bool
        ensures { result ≡ has_bit 64 self.byte }
    {
        self.byte & GOES_ON != 0
    }

    /// W, 0 to 3: the number of elements, the last without a length before it; 0 if each has a length.
    pub fn count(self) -> u8
        ensures { result ≡ bit_and self.byte 0x30 / 16 }
    {
        (self.byte & COUNT) / ONE
    }

    /// N: whether a coded video sequence starts.
    pub fn starts(self) -> bool
        ensures { result ≡ has_bit 8 self.byte }
    {
        self.byte & STARTS != 0
    }

    /// Whether the pending OBU continues in the payload: Z is set, and N is clear.
    pub fn continues_pending(self) -> bool
        ensures { result ≡ (has_bit 128 self.byte && not (has_bit 8 self.byte)) }
    {
        self.continues() && !self.starts()
    }
}
