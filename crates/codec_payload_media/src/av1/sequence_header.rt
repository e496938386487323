//! AV1: the sequence header (section 5.5; docs/use/FORMATS.md, "What a frame says").

ghost use Rattle.std.specs.Prelude.{◌≡◌, ◌≤◌, ◌+◌, ◌==◌, true, false, Ok, IfOk};
ghost use Rattle.codec_payload_base.specs.Bits.{bits_of};
ghost use Rattle.codec_payload_media.specs.Av1SequenceHeaders.{all_points, behind_points, bit_depth, color_config, color_description, decoder_model, decoder_model_if, description, display_delay, front, frame_ids, integer_vectors, is_srgb, largest_size, monochrome, operating_point, other_points, parameters, parameters_if, reduced_point, screen_tools, sequence_header, srgb, subsampling, timing, timing_if, told_subsampling, tools, uvlc_from, with_chroma};
ghost use Rattle.codec_payload_syntax.specs.FieldReaders.{left};
ghost use Rattle.codec_payload_syntax.specs.Syntax.{IsSpelled, branch, field, flag, paired, skips, value};
ghost use Rattle.codec_payload_vpx.specs.Syntax.{read, value_of};

use codec_payload_syntax::reader::FieldReader;
use codec_payload_vpx::error::MediaError;
use codec_payload_vpx::fields::{read_field, read_flag, read_wide, skip_bits};

/// An operating point: which layers are decoded, and what a decoder has to be capable of for them.
#[derive(Clone, Copy, Debug, PartialEq, Eq)]
pub struct Av1OperatingPoint {
    /// A bit for each temporal layer in the low eight, and one for each spatial layer in the four above; 0 without layers.
    pub idc: u16,
    /// The level, 0 to 31; 31 means no limits.
    pub level: u8,
    /// Whether the tier is High, and not Main.
    pub high_tier: bool,
}

/// Color description, by the numbers of ISO/IEC 23091-2; each is 2 if unspecified.
#[derive(Clone, Copy, Debug, PartialEq, Eq)]
pub struct Av1ColorDescription {
    /// The color primaries.
    pub primaries: u8,
    /// The transfer characteristics.
    pub transfer: u8,
    /// The matrix coefficients.
    pub matrix: u8,
}

/// The color format of pictures.
#[derive(Clone, Copy, Debug, PartialEq, Eq)]
pub struct Av1Color {
    /// 8, 10 or 12 bits.
    pub bit_depth: u8,
    /// Whether the picture has luma only.
    pub monochrome: bool,
    pub description: Av1ColorDescription,
    /// Whether values take the full range, and not the studio's.
    pub full_range: bool,
    /// Whether there is one color value for two pixels in width.
    pub subsampling_x: bool,
    /// Whether there is one color value for two pixels in height.
    pub subsampling_y: bool,
    /// The place of chroma samples in 4:2:0: 0 unknown, 1 vertical, 2 colocated, 3 reserved.
    pub chroma_sample_position: u8,
}

/// The fields of a sequence header.
#[derive(Clone, Copy, Debug, PartialEq, Eq)]
pub struct Av1SequenceHeader {
    /// 0 Main, 1 High, 2 Professional.
    pub profile: u8,
    /// Whether there is but one picture.
    pub still_picture: bool,
    /// Whether the header is of the short form for one picture.
    pub reduced: bool,
    /// The first operating point, which a decoder uses by default.
    pub operating_point: Av1OperatingPoint,
    /// How many operating points there are, 1 to 32.
    pub operating_points: u8,
    /// The largest width of a frame in pixels, 1 to 65,536.
    pub max_width: u32,
    /// The largest height of a frame in pixels, 1 to 65,536.
    pub max_height: u32,
    pub color: Av1Color,
    /// Whether frames may have film grain.
    pub film_grain: bool,
}

/// A number of variable length after `zeros` zeros.
fn skip_uvlc(reader: &mut FieldReader<'_>, most: u8, zeros: usize) -> Result<u8, MediaError>
    requires { most + zeros ≤ 32 }
    ensures { paired result (left reader.new) ≡ read (uvlc_from most zeros) (left reader.old) }
{
    if most == 0 {
        return Err(MediaError::ReservedValue);
    }
    if read_flag(reader)? {
        return skip_bits(reader, zeros);
    }
    skip_uvlc(reader, most - 1, zeros + 1)
}

/// Skips bits, if they are present.
fn skip_if(reader: &mut FieldReader<'_>, there: bool, bits: usize) -> Result<u8, MediaError>
    ensures { paired result (left reader.new) ≡ read (branch there (skips bits) (value 0)) (left reader.old) }
{
    if there {
        skip_bits(reader, bits)
    } else {
        Ok(0)
    }
}

/// A bit, if present.
fn read_flag_if(reader: &mut FieldReader<'_>, there: bool) -> Result<bool, MediaError>
    ensures { paired result (left reader.new) ≡ read (branch there flag (value false)) (left reader.old) }
{
    if there { read_flag(reader) } else { Ok(false) }
}

/// The decoder model; returns the length of delays in bits.
fn read_decoder_model(reader: &mut FieldReader<'_>) -> Result<u8, MediaError>
    ensures value { paired result (left reader.new) ≡ read decoder_model (left reader.old) }
    ensures most { IfOk result (λ n. n ≤ 32) }
{
    let less = read_field(reader, 5)?;
    skip_bits(reader, 42)?;
    Ok(less + 1)
}

/// The length of delays in bits, or 0 without a decoder model.
fn read_decoder_model_if(reader: &mut FieldReader<'_>, there: bool) -> Result<u8, MediaError>
    ensures value { paired result (left reader.new) ≡ read (decoder_model_if there) (left reader.old) }
    ensures most { IfOk result (λ n. n ≤ 32) }
{
    if there {
        read_decoder_model(reader)
    } else {
        Ok(0)
    }
}

/// A number of variable length, if present.
fn skip_uvlc_if(reader: &mut FieldReader<'_>, there: bool) -> Result<u8, MediaError>
    ensures { paired result (left reader.new) ≡ read (branch there (uvlc_from 32 0) (value 0)) (left reader.old) }
{
    if there {
        skip_uvlc(reader, 32, 0)
    } else {
        Ok(0)
    }
}

/// Timing and the decoder model: the length of its delays.
fn read_timing(reader: &mut FieldReader<'_>) -> Result<u8, MediaError>
    ensures value { paired result (left reader.new) ≡ read timing (left reader.old) }
    ensures most { IfOk result (λ n. n ≤ 32) }
{
    skip_bits(reader, 64)?;
    let equal = read_flag(reader)?;
    skip_uvlc_if(reader, equal)?;
    let model = read_flag(reader)?;
    read_decoder_model_if(reader, model)
}

/// The length of delays in bits, or 0 without timing information.
pub(crate) fn read_timing_if(reader: &mut FieldReader<'_>, there: bool) -> Result<u8, MediaError>
    ensures value { paired result (left reader.new) ≡ read (timing_if there) (left reader.old) }
    ensures most { IfOk result (λ n. n ≤ 32) }
{
    if there { read_timing(reader) } else { Ok(0) }
}

/// The parameters of an operating point, if there is a decoder model.
fn skip_parameters_if(reader: &mut FieldReader<'_>, delay: u8) -> Result<u8, MediaError>
    requires { delay ≤ 32 }
    ensures { paired result (left reader.new) ≡ read (branch (delay == 0) (value 0) (parameters delay)) (left reader.old) }
{
    if delay == 0 {
        return Ok(0);
    }
    let there = read_flag(reader)?;
    skip_if(reader, there, 2 * usize::from(delay) + 1)
}

/// The delay of an operating point, if delays are present.
fn skip_display_delay_if(reader: &mut FieldReader<'_>, told: bool) -> Result<u8, MediaError>
    ensures { paired result (left reader.new) ≡ read (branch told display_delay (value 0)) (left reader.old) }
{
    if !told {
        return Ok(0);
    }
    let there = read_flag(reader)?;
    skip_if(reader, there, 4)
}

/// An operating point.
#[tactic(auto, unfolding(crate::specs::Av1SequenceHeaders::operating_point))]
pub(crate) fn read_operating_point(
    reader: &mut FieldReader<'_>,
    delay: u8,
    display: bool,
) -> Result<Av1OperatingPoint, MediaError>
    requires { delay ≤ 32 }
    ensures { paired result (left reader.new) ≡ read (operating_point delay display) (left reader.old) }
{
    let idc = read_wide(reader, 12)?;
    let level = read_field(reader, 5)?;
    let high_tier = read_flag_if(reader, 7 < level)?;
    skip_parameters_if(reader, delay)?;
    skip_display_delay_if(reader, display)?;
    Ok(Av1OperatingPoint {
        idc,
        level,
        high_tier,
    })
}

/// Skips `count` operating points.
pub(crate) fn skip_operating_points(
    reader: &mut FieldReader<'_>,
    count: u8,
    delay: u8,
    display: bool,
) -> Result<u8, MediaError>
    requires { delay ≤ 32 }
    ensures { paired result (left reader.new) ≡ read (other_points count delay display) (left reader.old) }
{
    if count == 0 {
        return Ok(0);
    }
    read_operating_point(reader, delay, display)?;
    skip_operating_points(reader, count - 1, delay, display)
}

/// The first operating point, and how many there are.
fn read_operating_points(
    reader: &mut FieldReader<'_>,
) -> Result<(Av1OperatingPoint, u8), MediaError>
    ensures { paired result (left reader.new) ≡ read all_points (left reader.old) }
{
    let there = read_flag(reader)?;
    let delay = read_timing_if(reader, there)?;
    let display = read_flag(reader)?;
    let others = read_field(reader, 5)?;
    let first = read_operating_point(reader, delay, display)?;
    skip_operating_points(reader, others, delay, display)?;
    Ok((first, others + 1))
}

/// The one operating point of a short header.
pub(crate) fn read_reduced_point(
    reader: &mut FieldReader<'_>,
) -> Result<(Av1OperatingPoint, u8), MediaError>
    ensures { paired result (left reader.new) ≡ read reduced_point (left reader.old) }
{
    let level = read_field(reader, 5)?;
    let point = Av1OperatingPoint {
        idc: 0,
        level,
        high_tier: false,
    };
    Ok((point, 1))
}

/// The largest width and height.
fn read_largest_size(reader: &mut FieldReader<'_>) -> Result<(u32, u32), MediaError>
    ensures { paired result (left reader.new) ≡ read largest_size (left reader.old) }
{
    let across = read_field(reader, 4)?;
    let down = read_field(reader, 4)?;
    let width = read_wide(reader, usize::from(across) + 1)?;
    let height = read_wide(reader, usize::from(down) + 1)?;
    Ok((u32::from(width) + 1, u32::from(height) + 1))
}

/// The lengths of frame ids, if the header is of the long form.
fn skip_frame_ids(reader: &mut FieldReader<'_>, reduced: bool) -> Result<u8, MediaError>
    ensures { paired result (left reader.new) ≡ read (branch reduced (value 0) frame_ids) (left reader.old) }
{
    if reduced {
        return Ok(0);
    }
    let there = read_flag(reader)?;
    skip_if(reader, there, 7)
}

/// Whether motion vectors are whole numbers, if the field is present.
fn skip_integer_vectors_if(reader: &mut FieldReader<'_>, there: bool) -> Result<u8, MediaError>
    ensures { paired result (left reader.new) ≡ read (branch there integer_vectors (value 0)) (left reader.old) }
{
    if !there {
        return Ok(0);
    }
    let choose = read_flag(reader)?;
    skip_if(reader, !choose, 1)
}

/// Whether there may be tools for screens.
fn read_screen_tools(reader: &mut FieldReader<'_>) -> Result<bool, MediaError>
    ensures { paired result (left reader.new) ≡ read screen_tools (left reader.old) }
{
    if read_flag(reader)? {
        return Ok(true);
    }
    read_flag(reader)
}

/// Tools, if the header is of the long form.
#[tactic(auto, unfolding(crate::specs::Av1SequenceHeaders::tools))]
fn skip_tools(reader: &mut FieldReader<'_>, reduced: bool) -> Result<u8, MediaError>
    ensures { paired result (left reader.new) ≡ read (branch reduced (value 0) tools) (left reader.old) }
{
    if reduced {
        return Ok(0);
    }
    skip_bits(reader, 4)?;
    let order = read_flag(reader)?;
    skip_if(reader, order, 2)?;
    let screen = read_screen_tools(reader)?;
    skip_integer_vectors_if(reader, screen)?;
    skip_if(reader, order, 3)
}

/// How many bits a color value has.
fn read_bit_depth(reader: &mut FieldReader<'_>, profile: u8) -> Result<u8, MediaError>
    ensures { paired result (left reader.new) ≡ read (bit_depth profile) (left reader.old) }
{
    let high = read_flag(reader)?;
    let twelve = read_flag_if(reader, profile == 2 && high)?;
    if twelve {
        return Ok(12);
    }
    Ok(if high { 10 } else { 8 })
}

/// The color description.
fn read_description(reader: &mut FieldReader<'_>) -> Result<Av1ColorDescription, MediaError>
    ensures { paired result (left reader.new) ≡ read color_description (left reader.old) }
{
    if !read_flag(reader)? {
        return Ok(Av1ColorDescription {
            primaries: 2,
            transfer: 2,
            matrix: 2,
        });
    }
    let primaries = read_field(reader, 8)?;
    let transfer = read_field(reader, 8)?;
    let matrix = read_field(reader, 8)?;
    Ok(Av1ColorDescription {
        primaries,
        transfer,
        matrix,
    })
}

/// The subsampling in both directions.
fn read_subsampling(
    reader: &mut FieldReader<'_>,
    profile: u8,
    bit_depth: u8,
) -> Result<(bool, bool), MediaError>
    ensures { paired result (left reader.new) ≡ read (subsampling profile bit_depth) (left reader.old) }
{
    if profile == 0 {
        return Ok((true, true));
    }
    if profile == 1 {
        return Ok((false, false));
    }
    if bit_depth != 12 {
        return Ok((true, false));
    }
    let x = read_flag(reader)?;
    let y = read_flag_if(reader, x)?;
    Ok((x, y))
}

/// A field of two bits, if present.
fn read_position_if(reader: &mut FieldReader<'_>, there: bool) -> Result<u8, MediaError>
    ensures { paired result (left reader.new) ≡ read (branch there (field 2) (value 0)) (left reader.old) }
{
    if there { read_field(reader, 2) } else { Ok(0) }
}

/// The color of gray pictures.
fn read_monochrome(
    reader: &mut FieldReader<'_>,
    bit_depth: u8,
    description: Av1ColorDescription,
) -> Result<Av1Color, MediaError>
    ensures { paired result (left reader.new) ≡ read (monochrome bit_depth description) (left reader.old) }
{
    let full_range = read_flag(reader)?;
    Ok(Av1Color {
        bit_depth,
        monochrome: true,
        description,
        full_range,
        subsampling_x: true,
        subsampling_y: true,
        chroma_sample_position: 0,
    })
}

/// The color of sRGB.
fn read_srgb(
    reader: &mut FieldReader<'_>,
    bit_depth: u8,
    description: Av1ColorDescription,
) -> Result<Av1Color, MediaError>
    ensures { paired result (left reader.new) ≡ read (srgb bit_depth description) (left reader.old) }
{
    skip_bits(reader, 1)?;
    Ok(Av1Color {
        bit_depth,
        monochrome: false,
        description,
        full_range: true,
        subsampling_x: false,
        subsampling_y: false,
        chroma_sample_position: 0,
    })
}

/// The color of other pictures.
fn read_chroma(
    reader: &mut FieldReader<'_>,
    profile: u8,
    bit_depth: u8,
    description: Av1ColorDescription,
) -> Result<Av1Color, MediaError>
    ensures { paired result (left reader.new) ≡ read (with_chroma profile bit_depth description) (left reader.old) }
{
    let full_range = read_flag(reader)?;
    let (subsampling_x, subsampling_y) = read_subsampling(reader, profile, bit_depth)?;
    let chroma_sample_position = read_position_if(reader, subsampling_x && subsampling_y)?;
    skip_bits(reader, 1)?;
    Ok(Av1Color {
        bit_depth,
        monochrome: false,
        description,
        full_range,
        subsampling_x,
        subsampling_y,
        chroma_sample_position,
    })
}

/// Whether a description is sRGB.
fn is_srgb(description: Av1ColorDescription) -> bool
    ensures { result ≡ is_srgb description }
{
    description.primaries == 1 && description.transfer == 13 && description.matrix == 0
}

/// The color.
#[tactic(auto, unfolding(crate::specs::Av1SequenceHeaders::color_config))]
fn read_color(reader: &mut FieldReader<'_>, profile: u8) -> Result<Av1Color, MediaError>
    ensures { paired result (left reader.new) ≡ read (color_config profile) (left reader.old) }
{
    let bit_depth = read_bit_depth(reader, profile)?;
    let monochrome = read_flag_if(reader, profile != 1)?;
    let description = read_description(reader)?;
    if monochrome {
        read_monochrome(reader, bit_depth, description)
    } else if is_srgb(description) {
        read_srgb(reader, bit_depth, description)
    } else {
        read_chroma(reader, profile, bit_depth, description)
    }
}

/// The fields at the front of a header.
#[derive(Clone, Copy)]
pub(crate) struct Front {
    pub(crate) profile: u8,
    pub(crate) still_picture: bool,
    pub(crate) reduced: bool,
}

/// The front of a header.
pub(crate) fn read_front(reader: &mut FieldReader<'_>) -> Result<Front, MediaError>
    ensures { paired result (left reader.new) ≡ read front (left reader.old) }
{
    let profile = read_field(reader, 3)?;
    if 2 < profile {
        return Err(MediaError::ReservedValue);
    }
    let still_picture = read_flag(reader)?;
    let reduced = read_flag(reader)?;
    Ok(Front {
        profile,
        still_picture,
        reduced,
    })
}

/// The operating points of a header with this front.
fn read_points(
    reader: &mut FieldReader<'_>,
    reduced: bool,
) -> Result<(Av1OperatingPoint, u8), MediaError>
    ensures { paired result (left reader.new) ≡ read (branch reduced reduced_point all_points) (left reader.old) }
{
    if reduced {
        read_reduced_point(reader)
    } else {
        read_operating_points(reader)
    }
}

impl Av1SequenceHeader {
    /// The fields after the operating points.
    fn read_behind(
        reader: &mut FieldReader<'_>,
        fields: Front,
        points: (Av1OperatingPoint, u8),
    ) -> Result<Av1SequenceHeader, MediaError>
        ensures { paired result (left reader.new) ≡ read (behind_points fields points) (left reader.old) }
    {
        let (max_width, max_height) = read_largest_size(reader)?;
        skip_frame_ids(reader, fields.reduced)?;
        skip_bits(reader, 3)?;
        skip_tools(reader, fields.reduced)?;
        skip_bits(reader, 3)?;
        let color = read_color(reader, fields.profile)?;
        let film_grain = read_flag(reader)?;
        Ok(Av1SequenceHeader {
            profile: fields.profile,
            still_picture: fields.still_picture,
            reduced: fields.reduced,
            operating_point: points.0,
            operating_points: points.1,
            max_width,
            max_height,
            color,
            film_grain,
        })
    }

    /// The fields of a header.
    #[tactic(auto, unfolding(crate::specs::Av1SequenceHeaders::sequence_header))]
    fn read_fields(reader: &mut FieldReader<'_>) -> Result<Av1SequenceHeader, MediaError>
        ensures { paired result (left reader.new) ≡ read sequence_header (left reader.old) }
    {
        let front = read_front(reader)?;
        let points = read_points(reader, front.reduced)?;
        Av1SequenceHeader::read_behind(reader, front, points)
    }

    /// Reads a header.
    fn read(payload: &[u8]) -> Result<Av1SequenceHeader, MediaError>
        ensures { result ≡ value_of sequence_header (bits_of payload.now) }
    {
        let mut reader = FieldReader::new(payload);
        Av1SequenceHeader::read_fields(&mut reader)
    }

    /// Reads the payload of a sequence header OBU. Later bytes are ignored. Does not allocate.
    ///
    /// The first fault from left to right. `MissingBytes`: the header is cut off. `ReservedValue`: the profile is above 2, or the
    /// number of ticks per picture begins with 32 zeros.
    pub fn parse(payload: &[u8]) -> Result<Av1SequenceHeader, MediaError>
        // A value that was read has this spelling.
        ensures spelled { IfOk result (λ h. IsSpelled sequence_header (bits_of payload.now) h) }
        // Everything with this spelling is read.
        ensures accepted { (h : Av1SequenceHeader) → IsSpelled sequence_header (bits_of payload.now) h → result ≡ Ok h }
        // Which fault comes first.
        ensures exact { result ≡ value_of sequence_header (bits_of payload.now) }
    {
        Av1SequenceHeader::read(payload)
    }
}
