//! One call for the frames of all formats.

ghost use Rattle.std.specs.Prelude.{◌≡◌};
ghost use Rattle.codec_payload_media.specs.FrameInfo.{av1_info, info_of, lasts, nothing, vp8_info, vp9_info};

use crate::amr_wb::amr_wb_ticks;
use crate::av1::temporal_unit::Av1TemporalUnit;
use crate::opus::OpusPacket;
use codec_payload_base::wire::Codec;
use codec_payload_vpx::error::MediaError;
use codec_payload_vpx::vp8::Vp8FrameHeader;
use codec_payload_vpx::vp9::Vp9FrameHeader;

/// The size of a picture in pixels, as it is coded.
#[derive(Clone, Copy, Debug, PartialEq, Eq)]
pub struct PictureSize {
    pub width: u32,
    pub height: u32,
}

/// What a frame says about itself; `None` for a fact that its bytes do not contain.
#[derive(Clone, Copy, Debug, PartialEq, Eq)]
pub struct FrameInfo {
    /// Whether it is a keyframe, of video.
    pub keyframe: Option<bool>,
    /// The size of the picture, if the video frame has one; for AV1 the largest size in the sequence header.
    pub size: Option<PictureSize>,
    /// How long it lasts, of audio, in ticks of the RTP clock.
    pub duration: Option<u64>,
}

impl FrameInfo {
    /// For a frame without such facts.
    fn nothing() -> FrameInfo
        ensures { result ≡ nothing }
    {
        FrameInfo {
            keyframe: None,
            size: None,
            duration: None,
        }
    }

    /// For a frame with a duration of `ticks`.
    fn lasting(ticks: u64) -> FrameInfo
        ensures { result ≡ lasts ticks }
    {
        FrameInfo {
            keyframe: None,
            size: None,
            duration: Some(ticks),
        }
    }

    /// For a VP8 frame.
    fn of_vp8(header: &Vp8FrameHeader) -> FrameInfo
        ensures { result ≡ vp8_info header.now }
    {
        FrameInfo {
            keyframe: Some(header.keyframe.is_some()),
            size: match header.keyframe {
                None => None,
                Some(keyframe) => Some(PictureSize {
                    width: u32::from(keyframe.width),
                    height: u32::from(keyframe.height),
                }),
            },
            duration: None,
        }
    }

    /// For a VP9 frame.
    fn of_vp9(header: &Vp9FrameHeader) -> FrameInfo
        ensures { result ≡ vp9_info header.now }
    {
        FrameInfo {
            keyframe: Some(header.keyframe),
            size: match header.picture {
                None => None,
                Some(picture) => Some(PictureSize {
                    width: picture.width,
                    height: picture.height,
                }),
            },
            duration: None,
        }
    }

    /// For an AV1 temporal unit.
    fn of_av1(unit: &Av1TemporalUnit) -> FrameInfo
        ensures { result ≡ av1_info unit.now }
    {
        FrameInfo {
            keyframe: match unit.frame {
                None => None,
                Some(frame) => Some(frame.is_shown_keyframe()),
            },
            size: match unit.sequence_header {
                None => None,
                Some(header) => Some(PictureSize {
                    width: header.max_width,
                    height: header.max_height,
                }),
            },
            duration: None,
        }
    }
}

/// Reads facts from the bytes of a frame. For VP8, VP9 and AV1: whether it is a keyframe, and the size if present. A VP9 superframe
/// is described by its first frame, an AV1 temporal unit by its bytes up to the first frame header. For Opus, AMR-WB (storage
/// form), G.711 and G.722: the duration in RTP ticks. For other formats all fields are `None`.
///
/// G.711 and G.722 have one byte for each tick of their RTP clock of 8 kHz, so they are never malformed. The errors are those of
/// [`Vp8FrameHeader::parse`], [`Vp9FrameHeader::parse`], [`Av1TemporalUnit::parse`], [`OpusPacket::parse`] and [`amr_wb_ticks`].
/// Does not allocate.
pub fn frame_info(codec: Codec, bytes: &[u8]) -> Result<FrameInfo, MediaError>
    ensures { result ≡ info_of codec bytes.now }
{
    let info = match codec {
        Codec::Vp8 => FrameInfo::of_vp8(&Vp8FrameHeader::parse(bytes)?),
        Codec::Vp9 => FrameInfo::of_vp9(&Vp9FrameHeader::parse(bytes)?),
        Codec::Av1 => FrameInfo::of_av1(&Av1TemporalUnit::parse(bytes)?),
        Codec::Opus => FrameInfo::lasting(u64::from(OpusPacket::parse(bytes)?.ticks())),
        Codec::AmrWb => FrameInfo::lasting(amr_wb_ticks(bytes)?),
        Codec::PCMU | Codec::PCMA | Codec::G722 => FrameInfo::lasting(bytes.len() as u64),
        _ => FrameInfo::nothing(),
    };
    Ok(info)
}
