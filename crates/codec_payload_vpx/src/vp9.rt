//! VP9: frames (VP9 bitstream and decoding process specification, sections 6.2 and 7.2; docs/use/FORMATS.md, "What a frame
//! says").

ghost use Rattle.std.specs.Prelude.{◌≡◌, Ok, IfOk};
ghost use Rattle.codec_payload_base.specs.Bits.{bits_of};
ghost use Rattle.codec_payload_syntax.specs.FieldReaders.{left};
ghost use Rattle.codec_payload_syntax.specs.Syntax.{IsSpelled, paired};
ghost use Rattle.codec_payload_vpx.specs.Syntax.{read, value_of};
ghost use Rattle.codec_payload_vpx.specs.Vp9Frames.{bit_depth, coded_frame, color_config, frame_header, inter_frame, is_odd, intra_color, intra_flag, intra_picture, key_frame, keyframe_picture, picture, picture_if, profile_at, render_size, reset_if, rgb_color, shown_again, side, sync_code, with_subsampling, yuv_color};

mod superframe;

use crate::error::MediaError;
use crate::fields::{expect_field, read_field, read_flag, read_wide};
use codec_payload_syntax::reader::FieldReader;
pub use superframe::{Vp9FrameAt, Vp9Frames, frame_at};

/// The color format of a picture.
#[derive(Clone, Copy, Debug, PartialEq, Eq)]
pub struct Vp9Color {
    /// 8, 10 or 12 bits.
    pub bit_depth: u8,
    /// 0 unknown, 1 BT.601, 2 BT.709, 3 SMPTE-170, 4 SMPTE-240, 5 BT.2020, 6 reserved, 7 RGB.
    pub color_space: u8,
    /// Whether values take the full range, and not the studio's.
    pub full_range: bool,
    /// Whether there is one color value for two pixels in width.
    pub subsampling_x: bool,
    /// Whether there is one color value for two pixels in height.
    pub subsampling_y: bool,
}

/// The picture fields of a keyframe or an intra-only frame.
#[derive(Clone, Copy, Debug, PartialEq, Eq)]
pub struct Vp9Picture {
    pub color: Vp9Color,
    /// The coded width in pixels, 1 to 65,536.
    pub width: u32,
    /// The coded height in pixels, 1 to 65,536.
    pub height: u32,
    /// The width at which it is to be shown, 1 to 65,536.
    pub render_width: u32,
    /// The height at which it is to be shown, 1 to 65,536.
    pub render_height: u32,
}

/// The front of the uncompressed header of a frame.
#[derive(Clone, Copy, Debug, PartialEq, Eq)]
pub struct Vp9FrameHeader {
    /// 0 to 3.
    pub profile: u8,
    /// The decoded frame, 0 to 7, that the header shows again; `None` for a header with a frame. A frame shown again counts as
    /// shown, and not as a keyframe.
    pub existing: Option<u8>,
    pub keyframe: bool,
    pub shown: bool,
    pub error_resilient: bool,
    /// Whether a frame other than a keyframe needs no earlier frame.
    pub intra_only: bool,
    /// The picture, of keyframes and intra-only frames.
    pub picture: Option<Vp9Picture>,
}

/// The code before colors and sizes, `49 83 42`.
#[inline(always)]
fn read_sync_code(reader: &mut FieldReader<'_>) -> Result<u8, MediaError>
    ensures { paired result (left reader.new) ≡ read sync_code (left reader.old) }
{
    expect_field(reader, 8, 0x49, MediaError::WrongMarker)?;
    expect_field(reader, 8, 0x83, MediaError::WrongMarker)?;
    expect_field(reader, 8, 0x42, MediaError::WrongMarker)
}

/// How many bits a color value has.
#[inline(always)]
fn read_bit_depth(reader: &mut FieldReader<'_>, profile: u8) -> Result<u8, MediaError>
    ensures { paired result (left reader.new) ≡ read (bit_depth profile) (left reader.old) }
{
    if profile < 2 {
        return Ok(8);
    }
    let twelve = read_flag(reader)?;
    Ok(if twelve { 12 } else { 10 })
}

/// Whether a profile has other subsampling than 4:2:0.
#[inline(always)]
fn is_odd(profile: u8) -> bool
    ensures { result ≡ is_odd profile }
{
    profile == 1 || profile == 3
}

/// The color of RGB.
#[inline(always)]
fn read_rgb(
    reader: &mut FieldReader<'_>,
    profile: u8,
    bit_depth: u8,
) -> Result<Vp9Color, MediaError>
    ensures { paired result (left reader.new) ≡ read (rgb_color profile bit_depth) (left reader.old) }
{
    if !is_odd(profile) {
        return Err(MediaError::ReservedValue);
    }
    expect_field(reader, 1, 0, MediaError::ReservedValue)?;
    Ok(Vp9Color {
        bit_depth,
        color_space: 7,
        full_range: true,
        subsampling_x: false,
        subsampling_y: false,
    })
}

/// The color in a profile that has a subsampling field.
#[inline(always)]
fn read_subsampling(
    reader: &mut FieldReader<'_>,
    bit_depth: u8,
    color_space: u8,
    full_range: bool,
) -> Result<Vp9Color, MediaError>
    ensures { paired result (left reader.new) ≡ read (with_subsampling bit_depth color_space full_range) (left reader.old) }
{
    let subsampling_x = read_flag(reader)?;
    let subsampling_y = read_flag(reader)?;
    expect_field(reader, 1, 0, MediaError::ReservedValue)?;
    if subsampling_x && subsampling_y {
        return Err(MediaError::ReservedValue);
    }
    Ok(Vp9Color {
        bit_depth,
        color_space,
        full_range,
        subsampling_x,
        subsampling_y,
    })
}

/// The color of another space than RGB.
#[inline(always)]
fn read_yuv(
    reader: &mut FieldReader<'_>,
    profile: u8,
    bit_depth: u8,
    color_space: u8,
) -> Result<Vp9Color, MediaError>
    ensures { paired result (left reader.new) ≡ read (yuv_color profile bit_depth color_space) (left reader.old) }
{
    let full_range = read_flag(reader)?;
    if is_odd(profile) {
        return read_subsampling(reader, bit_depth, color_space, full_range);
    }
    Ok(Vp9Color {
        bit_depth,
        color_space,
        full_range,
        subsampling_x: true,
        subsampling_y: true,
    })
}

/// The color.
#[inline(always)]
fn read_color(reader: &mut FieldReader<'_>, profile: u8) -> Result<Vp9Color, MediaError>
    ensures { paired result (left reader.new) ≡ read (color_config profile) (left reader.old) }
{
    let bit_depth = read_bit_depth(reader, profile)?;
    let color_space = read_field(reader, 3)?;
    if color_space == 7 {
        read_rgb(reader, profile, bit_depth)
    } else {
        read_yuv(reader, profile, bit_depth, color_space)
    }
}

/// A width or a height.
#[inline(always)]
fn read_side(reader: &mut FieldReader<'_>) -> Result<u32, MediaError>
    ensures { paired result (left reader.new) ≡ read side (left reader.old) }
{
    let less = read_wide(reader, 16)?;
    Ok(u32::from(less) + 1)
}

/// The display size for a picture of this size.
#[inline(always)]
fn read_render_size(
    reader: &mut FieldReader<'_>,
    width: u32,
    height: u32,
) -> Result<(u32, u32), MediaError>
    ensures { paired result (left reader.new) ≡ read (render_size width height) (left reader.old) }
{
    if !read_flag(reader)? {
        return Ok((width, height));
    }
    let width = read_side(reader)?;
    let height = read_side(reader)?;
    Ok((width, height))
}

/// The picture with this color.
#[inline(always)]
fn read_picture(reader: &mut FieldReader<'_>, color: Vp9Color) -> Result<Vp9Picture, MediaError>
    ensures { paired result (left reader.new) ≡ read (picture color) (left reader.old) }
{
    let width = read_side(reader)?;
    let height = read_side(reader)?;
    let (render_width, render_height) = read_render_size(reader, width, height)?;
    Ok(Vp9Picture {
        color,
        width,
        height,
        render_width,
        render_height,
    })
}

/// The picture of a keyframe.
#[inline(always)]
fn read_keyframe_picture(
    reader: &mut FieldReader<'_>,
    profile: u8,
) -> Result<Vp9Picture, MediaError>
    ensures { paired result (left reader.new) ≡ read (keyframe_picture profile) (left reader.old) }
{
    read_sync_code(reader)?;
    let color = read_color(reader, profile)?;
    read_picture(reader, color)
}

/// The color of an intra-only frame.
#[inline(always)]
fn read_intra_color(reader: &mut FieldReader<'_>, profile: u8) -> Result<Vp9Color, MediaError>
    ensures { paired result (left reader.new) ≡ read (intra_color profile) (left reader.old) }
{
    if profile != 0 {
        return read_color(reader, profile);
    }
    Ok(Vp9Color {
        bit_depth: 8,
        color_space: 1,
        full_range: false,
        subsampling_x: true,
        subsampling_y: true,
    })
}

/// The picture of an intra-only frame.
#[inline(always)]
fn read_intra_picture(reader: &mut FieldReader<'_>, profile: u8) -> Result<Vp9Picture, MediaError>
    ensures { paired result (left reader.new) ≡ read (intra_picture profile) (left reader.old) }
{
    read_sync_code(reader)?;
    let color = read_intra_color(reader, profile)?;
    read_field(reader, 8)?;
    read_picture(reader, color)
}

/// The picture, if the frame is intra-only.
#[inline(always)]
fn read_picture_if(
    reader: &mut FieldReader<'_>,
    intra_only: bool,
    profile: u8,
) -> Result<Option<Vp9Picture>, MediaError>
    ensures { paired result (left reader.new) ≡ read (picture_if intra_only profile) (left reader.old) }
{
    if !intra_only {
        return Ok(None);
    }
    let picture = read_intra_picture(reader, profile)?;
    Ok(Some(picture))
}

/// Whether a frame other than a keyframe is intra-only.
#[inline(always)]
fn read_intra_flag(reader: &mut FieldReader<'_>, shown: bool) -> Result<bool, MediaError>
    ensures { paired result (left reader.new) ≡ read (intra_flag shown) (left reader.old) }
{
    if shown {
        return Ok(false);
    }
    read_flag(reader)
}

/// Which contexts are reset, if the field is present.
#[inline(always)]
fn read_reset_if(reader: &mut FieldReader<'_>, there: bool) -> Result<u8, MediaError>
    ensures { paired result (left reader.new) ≡ read (reset_if there) (left reader.old) }
{
    if there { read_field(reader, 2) } else { Ok(0) }
}

impl Vp9FrameHeader {
    /// A frame other than a keyframe.
    #[inline(always)]
    fn read_inter(
        reader: &mut FieldReader<'_>,
        profile: u8,
        shown: bool,
        error_resilient: bool,
    ) -> Result<Vp9FrameHeader, MediaError>
        ensures { paired result (left reader.new) ≡ read (inter_frame profile shown error_resilient) (left reader.old) }
    {
        let intra_only = read_intra_flag(reader, shown)?;
        read_reset_if(reader, !error_resilient)?;
        let picture = read_picture_if(reader, intra_only, profile)?;
        Ok(Vp9FrameHeader {
            profile,
            existing: None,
            keyframe: false,
            shown,
            error_resilient,
            intra_only,
            picture,
        })
    }

    /// A keyframe.
    #[inline(always)]
    fn read_key(
        reader: &mut FieldReader<'_>,
        profile: u8,
        shown: bool,
        error_resilient: bool,
    ) -> Result<Vp9FrameHeader, MediaError>
        ensures { paired result (left reader.new) ≡ read (key_frame profile shown error_resilient) (left reader.old) }
    {
        let picture = read_keyframe_picture(reader, profile)?;
        Ok(Vp9FrameHeader {
            profile,
            existing: None,
            keyframe: true,
            shown,
            error_resilient,
            intra_only: false,
            picture: Some(picture),
        })
    }

    /// A frame that is coded.
    #[inline(always)]
    fn read_coded(reader: &mut FieldReader<'_>, profile: u8) -> Result<Vp9FrameHeader, MediaError>
        ensures { paired result (left reader.new) ≡ read (coded_frame profile) (left reader.old) }
    {
        let inter = read_flag(reader)?;
        let shown = read_flag(reader)?;
        let error_resilient = read_flag(reader)?;
        if inter {
            Vp9FrameHeader::read_inter(reader, profile, shown, error_resilient)
        } else {
            Vp9FrameHeader::read_key(reader, profile, shown, error_resilient)
        }
    }

    /// A frame that is shown again.
    #[inline(always)]
    fn read_existing(
        reader: &mut FieldReader<'_>,
        profile: u8,
    ) -> Result<Vp9FrameHeader, MediaError>
        ensures { paired result (left reader.new) ≡ read (shown_again profile) (left reader.old) }
    {
        let index = read_field(reader, 3)?;
        // A frame that is shown again does not count as a keyframe.
        Ok(Vp9FrameHeader {
            profile,
            existing: Some(index),
            keyframe: false,
            shown: true,
            error_resilient: false,
            intra_only: false,
            picture: None,
        })
    }

    /// The profile, with the reserved bit after profile 3.
    #[inline(always)]
    fn read_profile(reader: &mut FieldReader<'_>) -> Result<u8, MediaError>
        ensures { paired result (left reader.new) ≡ read profile_at (left reader.old) }
    {
        let low = read_field(reader, 1)?;
        let high = read_field(reader, 1)?;
        if high == 1 && low == 1 {
            expect_field(reader, 1, 0, MediaError::ReservedValue)?;
            return Ok(3);
        }
        Ok(2 * high + low)
    }

    /// The front of the header.
    #[tactic(auto, unfolding(crate::specs::Vp9Frames::frame_header))]
    #[inline(always)]
    fn read_fields(reader: &mut FieldReader<'_>) -> Result<Vp9FrameHeader, MediaError>
        ensures { paired result (left reader.new) ≡ read frame_header (left reader.old) }
    {
        expect_field(reader, 2, 2, MediaError::WrongMarker)?;
        let profile = Vp9FrameHeader::read_profile(reader)?;
        if read_flag(reader)? {
            Vp9FrameHeader::read_existing(reader, profile)
        } else {
            Vp9FrameHeader::read_coded(reader, profile)
        }
    }

    /// Reads the front of a header.
    fn read(frame: &[u8]) -> Result<Vp9FrameHeader, MediaError>
        ensures { result ≡ value_of frame_header (bits_of frame.now) }
    {
        let mut reader = FieldReader::new(frame);
        Vp9FrameHeader::read_fields(&mut reader)
    }

    /// Reads the front of the uncompressed header of a frame, at most 17 bytes. Does not allocate.
    ///
    /// `frame` is one frame; a superframe begins with its first. The first fault from left to right. `MissingBytes`: the header is
    /// cut off. `WrongMarker`: it does not begin with the bits 10, or the sync code is not `49 83 42`. `ReservedValue`: a reserved
    /// bit is set, or the profile does not have the color.
    pub fn parse(frame: &[u8]) -> Result<Vp9FrameHeader, MediaError>
        // A value that was read has this spelling.
        ensures spelled { IfOk result (λ h. IsSpelled frame_header (bits_of frame.now) h) }
        // Everything with this spelling is read.
        ensures accepted { (h : Vp9FrameHeader) → IsSpelled frame_header (bits_of frame.now) h → result ≡ Ok h }
        // Which fault comes first.
        ensures exact { result ≡ value_of frame_header (bits_of frame.now) }
    {
        Vp9FrameHeader::read(frame)
    }
}
