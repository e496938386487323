//! Properties of frames, read from their bytes. No call allocates.

ghost use Rattle.std.specs.Prelude.{◌≡◌, nat_le, length};
ghost use Rattle.codec_payload_media.specs.Av1Records.{av1c_bytes};
ghost use Rattle.codec_payload_handle.specs.Bytes.{filled};
ghost use Rattle.codec_payload_c_packets.specs.Media.{facts_of, header_in, media_status};

use codec_payload_handle::status;
use codec_payload_media::av1::av1c::{AV1C_FRONT_LEN, av1c_front};
use codec_payload_media::av1::obu::{OBU_SEQUENCE_HEADER, front_obu};
use codec_payload_media::av1::sequence_header::Av1SequenceHeader;
use codec_payload_media::error::MediaError;
use codec_payload_media::frame_info::FrameInfo;

/// Properties of a frame.
#[repr(C)]
#[derive(Clone, Copy)]
pub struct FrameFacts {
    /// The duration of audio, in ticks of the RTP clock.
    pub duration: u64,
    /// The width in pixels.
    pub width: u32,
    /// The height in pixels.
    pub height: u32,
    /// Whether `keyframe` is set.
    pub has_keyframe: bool,
    pub keyframe: bool,
    /// Whether `width` and `height` are set.
    pub has_size: bool,
    /// Whether `duration` is set.
    pub has_duration: bool,
}

/// An OBU of a temporal unit.
#[repr(C)]
#[derive(Clone, Copy)]
pub struct ObuInfo {
    /// The offset of its payload in the unit. The next OBU begins at the end of the payload.
    pub start: usize,
    /// The number of bytes of its payload.
    pub bytes: usize,
    pub obu_type: u8,
    pub temporal_id: u8,
    pub spatial_id: u8,
    /// Whether its layers are set.
    pub has_extension: bool,
}

/// A frame of an AMR-WB unit.
#[repr(C)]
#[derive(Clone, Copy)]
pub struct AmrWbFrameInfo {
    /// The offset of its speech in the unit. The next frame begins at the end of the speech.
    pub start: usize,
    /// The number of bytes of speech.
    pub bytes: usize,
    pub frame_type: u8,
    /// Whether the frame is undamaged.
    pub quality: bool,
}

/// A frame of a VP9 unit.
#[repr(C)]
#[derive(Clone, Copy)]
pub struct Vp9FrameInfo {
    /// The offset of the frame in the unit. The next frame begins at its end.
    pub start: usize,
    /// The number of bytes of the frame.
    pub bytes: usize,
}

/// Returns the status for a malformed frame.
pub fn status_of(error: MediaError) -> u32
    ensures { result ≡ media_status error }
{
    match error {
        MediaError::MissingBytes => status::FRAME_TOO_SHORT,
        MediaError::WrongMarker => status::FRAME_MARKER,
        MediaError::ReservedValue => status::FRAME_RESERVED,
        MediaError::SizesDoNotFit => status::FRAME_SIZES,
    }
}

/// Converts the properties for C.
pub fn facts_of(info: &FrameInfo) -> FrameFacts
    ensures { result ≡ facts_of info.now }
{
    let (width, height) = match info.size {
        Some(size) => (size.width, size.height),
        None => (0, 0),
    };
    FrameFacts {
        duration: info.duration.unwrap_or(0),
        width,
        height,
        has_keyframe: info.keyframe.is_some(),
        keyframe: info.keyframe.unwrap_or(false),
        has_size: info.size.is_some(),
        has_duration: info.duration.is_some(),
    }
}

/// Returns the sequence header of an OBU that has no bytes after it, or the status that refuses the OBU.
pub fn header_in(obu: &[u8]) -> Result<Av1SequenceHeader, u32>
    ensures { result ≡ header_in obu.now }
{
    let (found, behind) = match front_obu(obu) {
        Ok(found) => found,
        Err(error) => return Err(status_of(error)),
    };
    if found.obu_type != OBU_SEQUENCE_HEADER || !behind.is_empty() {
        return Err(status::INVALID);
    }
    match Av1SequenceHeader::parse(found.payload) {
        Ok(header) => Ok(header),
        Err(error) => Err(status_of(error)),
    }
}

/// Writes the record of a header and its OBU to the front of the output buffer, if the buffer is large enough.
pub fn fill_record(header: &Av1SequenceHeader, obu: &[u8], bytes: &mut [u8]) -> bool
    ensures enough { result ≡ nat_le (length (av1c_bytes header.now obu.now)) (length bytes.old) }
    ensures written { bytes.new ≡ filled (av1c_bytes header.now obu.now) bytes.old }
{
    if bytes.len() < AV1C_FRONT_LEN + obu.len() {
        return false;
    }
    let (front, rest) = bytes.split_at_mut(AV1C_FRONT_LEN);
    front.copy_from_slice(&av1c_front(header));
    rest[..obu.len()].copy_from_slice(obu);
    true
}
