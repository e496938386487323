//! VP9: superframes, units of several frames, of which only the last is shown (Annex B; docs/use/FORMATS.md, "What a frame says").

ghost use Rattle.std.specs.Prelude.{◌≡◌, ◌<◌, ◌≤◌, ◌∷◌, [], length, option_map, take, drop};
ghost use Rattle.codec_payload_vpx.specs.Reading.{told};
ghost use Rattle.codec_payload_vpx.specs.Vp9Superframes.{frame_count, frames_in, frames_left, has_index, indexed, index_length, is_marker, last_byte, le_number, next_size, placed_in, size_sum, size_width, unit_frames};

use crate::error::MediaError;
use std::marker::Model;

/// A number of one to four bytes, low byte first.
fn le_number(bytes: &[u8]) -> u32
    requires { length bytes.now ≤ 4 }
    ensures { result ≡ le_number bytes.now }
{
    match bytes {
        [] => 0,
        [b0] => u32::from(*b0),
        [b0, b1] => u32::from_le_bytes([*b0, *b1, 0, 0]),
        [b0, b1, b2] => u32::from_le_bytes([*b0, *b1, *b2, 0]),
        [b0, b1, b2, b3, ..] => u32::from_le_bytes([*b0, *b1, *b2, *b3]),
    }
}

/// How many frames an index announces, by the byte at its ends.
fn frame_count(byte: u8) -> usize
    ensures value { result ≡ frame_count byte }
    ensures most { result ≤ 8 }
{
    usize::from(byte % 8) + 1
}

/// How many bytes each size in an index has, by the byte at its ends.
fn size_width(byte: u8) -> usize
    ensures value { result ≡ size_width byte }
    ensures most { result ≤ 4 }
{
    usize::from(byte / 8 % 4) + 1
}

/// How many bytes an index has, by the byte at its ends.
fn index_length(byte: u8) -> usize
    ensures { result ≡ index_length byte }
{
    2 + frame_count(byte) * size_width(byte)
}

/// Whether a unit ends in an index.
fn has_index(unit: &[u8]) -> bool
    requires { 1 ≤ length unit.now }
    ensures { result ≡ has_index unit.now }
{
    let byte = unit[unit.len() - 1];
    let length = index_length(byte);
    byte / 32 == 6 && length <= unit.len() && unit[unit.len() - length] == byte
}

/// `count` bytes from the front, or all if there are fewer, and the bytes after them.
fn cut_front(count: usize, bytes: &[u8]) -> (&[u8], &[u8])
    ensures front { result.0.now ≡ take count bytes.now }
    ensures rest { result.1.now ≡ drop count bytes.now }
{
    if bytes.len() <= count {
        return (bytes, &[]);
    }
    bytes.split_at(count)
}

/// The size at the front of an index, and the bytes after it.
fn front_size(width: usize, sizes: &[u8]) -> (u32, &[u8])
    requires { width ≤ 4 }
    ensures size { result.0 ≡ next_size width sizes.now }
    ensures small { result.0 < 4294967296 }
    ensures rest { result.1.now ≡ drop width sizes.now }
{
    let (size, rest) = cut_front(width, sizes);
    (le_number(size), rest)
}

/// The sum of the sizes of `count` frames.
fn size_sum(count: usize, width: usize, sizes: &[u8]) -> u64
    requires count { count ≤ 8 }
    requires width { width ≤ 4 }
    ensures { result ≡ size_sum count width sizes.now }
{
    let mut sum = 0;
    let mut rest = sizes;
    for _ in 0..count {
        let (size, others) = front_size(width, rest);
        sum += u64::from(size);
        rest = others;
    }
    sum
}

/// A frame of a unit, and its place.
#[derive(Clone, Copy, Debug, PartialEq, Eq)]
pub struct Vp9FrameAt<'a> {
    /// The number of bytes of the unit before this frame.
    pub start: usize,
    pub frame: &'a [u8],
}

/// The frames of a unit, in order: for a superframe the frames of its index, hidden ones included; otherwise the unit itself. No
/// step allocates.
#[derive(Debug, Drop)]
pub struct Vp9Frames<'a> {
    /// A frame without an index.
    alone: Option<&'a [u8]>,
    count: usize,
    width: usize,
    sizes: &'a [u8],
    bytes: &'a [u8],
}

impl<'a> Model for Vp9Frames<'a> {
    ghost use Rattle.std.specs.Prelude.{◌≡◌, ◌≤◌, IfSome, option_map};
    ghost use Rattle.codec_payload_vpx.specs.Vp9Superframes.{Left};

    ghost Value = { Left };

    ghost view = { λ s. record { alone = option_map (λ f. f.now) s.alone; count = s.count; width = s.width; sizes = s.sizes.now; bytes = s.bytes.now } };

    ghost invariant = { λ s. (s.width ≤ 4) × (s.count ≤ 8) × IfSome s.alone (λ _. s.count ≡ 0) };
}

impl<'a> Vp9Frames<'a> {
    /// A unit that is one frame.
    #[tactic(auto, unfolding(crate::specs::Vp9Superframes::frames_in))]
    fn alone(unit: &'a [u8]) -> Vp9Frames<'a>
        ensures { frames_left result ≡ unit.now ∷ [] }
    {
        Vp9Frames {
            alone: Some(unit),
            count: 0,
            width: 0,
            sizes: &[],
            bytes: &[],
        }
    }

    /// The frames that an index announces, by the byte at its ends.
    fn indexed(byte: u8, unit: &'a [u8]) -> Result<Vp9Frames<'a>, MediaError>
        requires { index_length byte ≤ length unit.now }
        ensures { told frames_left result ≡ indexed byte unit.now }
    {
        let count = frame_count(byte);
        let width = size_width(byte);
        let front = unit.len() - index_length(byte);
        let (bytes, index) = unit.split_at(front);
        let (_, sizes) = index.split_at(1);
        if (front as u64) < size_sum(count, width, sizes) {
            return Err(MediaError::SizesDoNotFit);
        }
        Ok(Vp9Frames {
            alone: None,
            count,
            width,
            sizes,
            bytes,
        })
    }

    /// The frames of a unit. Reads the index at the end, if there is one, and does not allocate.
    ///
    /// The unit has an index if its last byte has `110` in the high bits and the same byte is at the front of the index. Between
    /// the frames and the index there may be bytes of no frame. `MissingBytes`: the unit is empty. `SizesDoNotFit`: the frames
    /// together are longer than the bytes before the index.
    pub fn parse(unit: &'a [u8]) -> Result<Vp9Frames<'a>, MediaError>
        ensures { told frames_left result ≡ unit_frames unit.now }
    {
        if unit.is_empty() {
            return Err(MediaError::MissingBytes);
        }
        if has_index(unit) {
            return Vp9Frames::indexed(unit[unit.len() - 1], unit);
        }
        Ok(Vp9Frames::alone(unit))
    }

    /// Frame `number` among the remaining frames, after the bytes of the frames before it.
    fn placed(&self, number: usize) -> Option<Vp9FrameAt<'a>>
        ensures { option_map (λ f. (f.start, f.frame.now)) result ≡ placed_in number (frames_left self.now) }
    {
        if let Some(frame) = self.alone {
            let alone = Vp9FrameAt { start: 0, frame };
            return if number == 0 { Some(alone) } else { None };
        }
        if self.count <= number {
            return None;
        }
        let before = size_sum(number, self.width, self.sizes);
        let (front, bytes) = cut_front(before as usize, self.bytes);
        let (_, sizes) = cut_front(number * self.width, self.sizes);
        let (size, _) = front_size(self.width, sizes);
        let (frame, _) = cut_front(size as usize, bytes);
        Some(Vp9FrameAt {
            start: front.len(),
            frame,
        })
    }
}

/// Frame `number`, from 0, of a unit, with the frames of [`Vp9Frames`]; `None` if there are fewer. Reads the index at the end, if
/// there is one, and does not allocate. The errors are those of [`Vp9Frames::parse`].
pub fn frame_at(unit: &[u8], number: usize) -> Result<Option<Vp9FrameAt<'_>>, MediaError>
    ensures { told (option_map (λ f. (f.start, f.frame.now))) result ≡ told (placed_in number) (unit_frames unit.now) }
{
    let frames = Vp9Frames::parse(unit)?;
    Ok(frames.placed(number))
}

impl<'a> Iterator for Vp9Frames<'a> {
    ghost use Rattle.std.specs.Iterator.{YieldsFirstBy, item_count};

    type Item = &'a [u8];

    ghost next_gives = { YieldsFirstBy (λ f. f.now) frames_left };

    ghost remaining = { item_count frames_left };

    #[tactic(auto, unfolding(crate::specs::Vp9Superframes::frames_in))]
    fn next(&mut self) -> Option<&'a [u8]> {
        if let Some(frame) = self.alone {
            self.alone = None;
            return Some(frame);
        }
        if self.count == 0 {
            return None;
        }
        let (size, sizes) = front_size(self.width, self.sizes);
        let (frame, bytes) = cut_front(size as usize, self.bytes);
        self.count -= 1;
        self.sizes = sizes;
        self.bytes = bytes;
        Some(frame)
    }
}
