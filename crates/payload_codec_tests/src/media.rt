//! Headers of frames. Test vectors are in `rust/tests/codecs/media` and `rust/tests/codecs/vpx`.

use crate::asserts::assert_same;
use codec_payload_base::wire::Codec;
use codec_payload_media::error::MediaError;
use codec_payload_media::frame_info::{FrameInfo, PictureSize, frame_info};
use codec_payload_media::vp8::Vp8FrameHeader;
use codec_payload_media::vp9::{Vp9FrameHeader, Vp9Frames};
use std::test::Fail;

/// A keyframe of VP9 of 64 by 48 pixels.
const VP9: [u8; 9] = [0x82, 0x49, 0x83, 0x42, 0x00, 0x03, 0xf0, 0x02, 0xf6];

#[test]
fn video_frames(rt: HostRuntime) -> Result<(), Fail> {
    let header = Vp9FrameHeader::parse(&VP9).ok().ok_or("a header")?;
    let info = FrameInfo {
        keyframe: Some(header.keyframe),
        size: Some(PictureSize {
            width: 64,
            height: 48,
        }),
        duration: None,
    };
    assert_same(&rt, "info-vp9", &frame_info(Codec::Vp9, &VP9), &Ok(info));
    assert!(rt; Vp9Frames::parse(&VP9).is_ok());
    let cut = Vp8FrameHeader::parse(&[0x91, 0x05, 0x00]);
    assert_same(
        &rt,
        "vp8-partition-passes-end-fault",
        &cut,
        &Err(MediaError::SizesDoNotFit),
    );
    Ok(())
}
