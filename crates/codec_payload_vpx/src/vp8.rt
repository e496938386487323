//! VP8: frames (RFC 6386, section 9.1; docs/use/FORMATS.md, "What a frame says").

ghost use Rattle.std.specs.Prelude.{◌≡◌, Ok, IfOk};
ghost use Rattle.codec_payload_vpx.specs.Vp8Frames.{IsVp8Frame, vp8_frame_at, keyframe_at, behind_tag};
ghost use Rattle.codec_payload_vpx.specs.Reading.{told};

use crate::error::MediaError;

/// What the header of a keyframe says beside.
#[derive(Clone, Copy, Debug, PartialEq, Eq)]
pub struct Vp8Keyframe {
    /// The width in pixels, 0 to 16,383.
    pub width: u16,
    /// How far the picture is to be scaled in width, 0 to 3: not at all, by 5/4, by 5/3, by 2. It does not change `width`.
    pub horizontal_scale: u8,
    /// The height in pixels, 0 to 16,383.
    pub height: u16,
    /// How the picture is to be scaled in height, with the same values.
    pub vertical_scale: u8,
}

/// The header of a frame, before its partitions.
#[derive(Clone, Copy, Debug, PartialEq, Eq)]
pub struct Vp8FrameHeader {
    /// Which filters the decoder uses, 0 to 7; 4 to 7 are reserved.
    pub version: u8,
    /// Whether the frame is shown.
    pub shown: bool,
    /// The size of the first partition in bytes, at most 524,287.
    pub first_partition_size: u32,
    /// The fields of a keyframe; `None` for a frame that depends on earlier ones.
    pub keyframe: Option<Vp8Keyframe>,
}

/// The fields after the tag of a keyframe, and the bytes after them.
#[tactic(auto, unfolding(crate::specs::Vp8Frames::keyframe_at))]
fn read_keyframe(bytes: &[u8]) -> Result<(Vp8Keyframe, &[u8]), MediaError>
    ensures { told (λ x. (x.0, x.1.now)) result ≡ keyframe_at bytes.now }
{
    let [s0, s1, s2, w0, w1, h0, h1, rest @ ..] = bytes else {
        return Err(MediaError::MissingBytes);
    };
    if *s0 != 0x9d || *s1 != 0x01 || *s2 != 0x2a {
        return Err(MediaError::WrongMarker);
    }
    let horizontal = u16::from_le_bytes([*w0, *w1]);
    let vertical = u16::from_le_bytes([*h0, *h1]);
    let keyframe = Vp8Keyframe {
        width: horizontal % 16_384,
        horizontal_scale: (horizontal / 16_384) as u8,
        height: vertical % 16_384,
        vertical_scale: (vertical / 16_384) as u8,
    };
    Ok((keyframe, rest))
}

/// The fields after the tag of any frame, and the bytes after them.
fn read_behind_tag(
    is_keyframe: bool,
    bytes: &[u8],
) -> Result<(Option<Vp8Keyframe>, &[u8]), MediaError>
    ensures { told (λ x. (x.0, x.1.now)) result ≡ behind_tag is_keyframe bytes.now }
{
    if !is_keyframe {
        return Ok((None, bytes));
    }
    let (keyframe, rest) = read_keyframe(bytes)?;
    Ok((Some(keyframe), rest))
}

impl Vp8FrameHeader {
    /// Reads a header, from left to right.
    #[tactic(auto, unfolding(crate::specs::Vp8Frames::vp8_frame_at))]
    fn read(frame: &[u8]) -> Result<Vp8FrameHeader, MediaError>
        ensures { result ≡ vp8_frame_at frame.now }
    {
        let [t0, t1, t2, rest @ ..] = frame else {
            return Err(MediaError::MissingBytes);
        };
        let tag = u32::from_le_bytes([*t0, *t1, *t2, 0]);
        let (keyframe, rest) = read_behind_tag(tag % 2 == 0, rest)?;
        let first_partition_size = tag / 32;
        if rest.len() < first_partition_size as usize {
            return Err(MediaError::SizesDoNotFit);
        }
        Ok(Vp8FrameHeader {
            version: (tag / 2 % 8) as u8,
            shown: tag / 16 % 2 == 1,
            first_partition_size,
            keyframe,
        })
    }

    /// Reads the header of a whole frame: 3 bytes, or 10 for a keyframe. Does not allocate.
    ///
    /// The first fault from left to right. `MissingBytes`: the header is cut off. `WrongMarker`: the start code of a keyframe is
    /// not `9d 01 2a`. `SizesDoNotFit`: the first partition is longer than the bytes after the header.
    pub fn parse(frame: &[u8]) -> Result<Vp8FrameHeader, MediaError>
        // A value that was read has this spelling.
        ensures spelled { IfOk result (λ h. IsVp8Frame frame.now h) }
        // Everything with this spelling is read.
        ensures accepted { (h : Vp8FrameHeader) → IsVp8Frame frame.now h → result ≡ Ok h }
        // Which fault comes first.
        ensures exact { result ≡ vp8_frame_at frame.now }
    {
        Vp8FrameHeader::read(frame)
    }
}
