//! Values of header extensions, by their ids.

use codec_payload_rtp::rtp::HeaderExtension;
use codec_payload_rtp::values::ExtensionIds;
use std::process::Abort;

const IDS: ExtensionIds = ExtensionIds {
    abs_capture_time: Some(1),
    video_orientation: Some(2),
    video_content_type: Some(3),
    video_timing: Some(4),
    layers_allocation: Some(5),
    audio_level: Some(6),
};

/// For each extension an element: the capture time of 8 bytes, orientation 2, content type 1, the times 1 to 6, an allocation of
/// two bytes, and speech at -10 dBov.
const EACH: [u8; 36] = [
    0x17, 0, 0, 0, 1, 0x80, 0, 0, 0, 0x20, 2, 0x30, 1, 0x4c, 1, 0, 1, 0, 2, 0, 3, 0, 4, 0, 5, 0, 6,
    0x51, 9, 8, 0x60, 0x8a, 0, 0, 0, 0,
];

#[test]
fn each_value(rt: HostRuntime) {
    let extension = HeaderExtension {
        profile: 0xbede,
        bytes: &EACH,
    };
    let values = IDS.values(&Some(extension));
    assert_eq!(rt;
        values
            .abs_capture_time
            .map(|t| (t.capture_time, t.clock_offset)),
        Some((0x1_8000_0000, None))
    );
    assert_eq!(rt; values.video_orientation, Some(2));
    assert_eq!(rt; values.video_content_type, Some(1));
    assert_eq!(rt;
        values
            .video_timing
            .map(|t| (t.flags, t.encode_start, t.network_2)),
        Some((1, 1, 6))
    );
    assert_eq!(rt; values.layers_allocation.map(|a| a.bytes().len()), Some(2));
    assert_eq!(rt; values.audio_level, Some(-10));
    assert_eq!(rt; values.voice_activity, Some(true));
}
