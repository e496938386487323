//! The worked examples of the audio formats.

use crate::asserts::{Frame, assert_frames, assert_received, assert_sent};
use codec_payload_audio::amr_wb::{AmrWbDepacketizer, AmrWbPacketizer};
use codec_payload_audio::plain::{
    ComfortNoiseDepacketizer, ComfortNoisePacketizer, G7xxPacketizer, G711Depacketizer,
    NullDepacketizer, NullPacketizer, OpusDepacketizer, OpusPacketizer,
};
use codec_payload_audio::tele::TelephoneEventPacketizer;
use codec_payload_base::error::PacketError;
use codec_payload_base::interface::Packetizer;
use std::test::Fail;

/// The frame of type 8 of 477 speech bits: 59 bytes `a5` and the bits 10100.
const FRAME_OF_TYPE_8: [u8; 61] = [
    0x44, 0xa5, 0xa5, 0xa5, 0xa5, 0xa5, 0xa5, 0xa5, 0xa5, 0xa5, 0xa5, 0xa5, 0xa5, 0xa5, 0xa5, 0xa5,
    0xa5, 0xa5, 0xa5, 0xa5, 0xa5, 0xa5, 0xa5, 0xa5, 0xa5, 0xa5, 0xa5, 0xa5, 0xa5, 0xa5, 0xa5, 0xa5,
    0xa5, 0xa5, 0xa5, 0xa5, 0xa5, 0xa5, 0xa5, 0xa5, 0xa5, 0xa5, 0xa5, 0xa5, 0xa5, 0xa5, 0xa5, 0xa5,
    0xa5, 0xa5, 0xa5, 0xa5, 0xa5, 0xa5, 0xa5, 0xa5, 0xa5, 0xa5, 0xa5, 0xa5, 0xa0,
];

/// Its octet-aligned payload.
const TYPE_8_OCTET_ALIGNED: [u8; 62] = [
    0xf0, 0x44, 0xa5, 0xa5, 0xa5, 0xa5, 0xa5, 0xa5, 0xa5, 0xa5, 0xa5, 0xa5, 0xa5, 0xa5, 0xa5, 0xa5,
    0xa5, 0xa5, 0xa5, 0xa5, 0xa5, 0xa5, 0xa5, 0xa5, 0xa5, 0xa5, 0xa5, 0xa5, 0xa5, 0xa5, 0xa5, 0xa5,
    0xa5, 0xa5, 0xa5, 0xa5, 0xa5, 0xa5, 0xa5, 0xa5, 0xa5, 0xa5, 0xa5, 0xa5, 0xa5, 0xa5, 0xa5, 0xa5,
    0xa5, 0xa5, 0xa5, 0xa5, 0xa5, 0xa5, 0xa5, 0xa5, 0xa5, 0xa5, 0xa5, 0xa5, 0xa5, 0xa0,
];

/// Its bandwidth-efficient payload.
const TYPE_8_BANDWIDTH_EFFICIENT: [u8; 61] = [
    0xf4, 0x69, 0x69, 0x69, 0x69, 0x69, 0x69, 0x69, 0x69, 0x69, 0x69, 0x69, 0x69, 0x69, 0x69, 0x69,
    0x69, 0x69, 0x69, 0x69, 0x69, 0x69, 0x69, 0x69, 0x69, 0x69, 0x69, 0x69, 0x69, 0x69, 0x69, 0x69,
    0x69, 0x69, 0x69, 0x69, 0x69, 0x69, 0x69, 0x69, 0x69, 0x69, 0x69, 0x69, 0x69, 0x69, 0x69, 0x69,
    0x69, 0x69, 0x69, 0x69, 0x69, 0x69, 0x69, 0x69, 0x69, 0x69, 0x69, 0x69, 0x68,
];

/// A frame is its header, F FT Q and two zeros, and its speech bits. A payload (RFC 4867, sections 4.3 and 4.4) begins with CMR 15.
/// In the octet-aligned layout: the byte f0, the header, and the speech unchanged. In the bandwidth-efficient layout: 1111 and then
/// all bits without padding. Each test vector says whether the layout is octet-aligned.
static SPEECH: [(&str, bool, Frame); 8] = [
    (
        "amr-wb-type-14-sent, octet-aligned",
        true,
        Frame {
            mtu: 1_200,
            bytes: &[0x74],
            packets: Ok(&[&[0xf0, 0x74]]),
        },
    ),
    (
        "amr-wb-type-14-sent, bandwidth-efficient",
        false,
        Frame {
            mtu: 1_200,
            bytes: &[0x74],
            packets: Ok(&[&[0xf7, 0x40]]),
        },
    ),
    (
        "amr-wb-type-8-octet-aligned",
        true,
        Frame {
            mtu: 62,
            bytes: &FRAME_OF_TYPE_8,
            packets: Ok(&[&TYPE_8_OCTET_ALIGNED]),
        },
    ),
    (
        "amr-wb-type-8-bandwidth-efficient",
        false,
        Frame {
            mtu: 61,
            bytes: &FRAME_OF_TYPE_8,
            packets: Ok(&[&TYPE_8_BANDWIDTH_EFFICIENT]),
        },
    ),
    (
        "amr-wb-type-8-mtu-61-fault",
        true,
        Frame {
            mtu: 61,
            bytes: &FRAME_OF_TYPE_8,
            packets: Err(PacketError::ErrPayloadTooLarge),
        },
    ),
    (
        "amr-wb-reserved-frame-fault",
        false,
        Frame {
            mtu: 1_200,
            bytes: &[0x50],
            packets: Err(PacketError::ErrAmrWbCorruptedPacket),
        },
    ),
    (
        "amr-wb-no-data-skipped",
        false,
        Frame {
            mtu: 1_200,
            bytes: &[0x7c],
            packets: Ok(&[]),
        },
    ),
    (
        "amr-wb-no-data-two-bytes-fault",
        false,
        Frame {
            mtu: 1_200,
            bytes: &[0x7c, 0x00],
            packets: Err(PacketError::ErrAmrWbCorruptedPacket),
        },
    ),
];

/// A comfort noise payload.
const NOISE: [u8; 3] = [0x2a, 0x80, 0x40];

/// The test vectors `cn-one-packet-no-marker` and `cn-mtu-2-fault`.
static OF_NOISE: [Frame; 2] = [
    Frame {
        mtu: 1_200,
        bytes: &NOISE,
        packets: Ok(&[&NOISE]),
    },
    Frame {
        mtu: 2,
        bytes: &NOISE,
        packets: Err(PacketError::ErrPayloadTooLarge),
    },
];

/// The test vectors `opus-two-pieces` and `opus-mtu-zero`, which G.711 shares.
static IN_PIECES: [Frame; 2] = [
    Frame {
        mtu: 2,
        bytes: &[0x90, 0x90, 0x90],
        packets: Ok(&[&[0x90, 0x90], &[0x90]]),
    },
    Frame {
        mtu: 0,
        bytes: &[0x90, 0x90, 0x90],
        packets: Ok(&[]),
    },
];

/// Null sends a frame whole, whatever the MTU.
static WHOLE: [Frame; 1] = [Frame {
    mtu: 1,
    bytes: &[1, 2],
    packets: Ok(&[&[1, 2]]),
}];

/// Two reports on telephone events (RFC 4733, section 2.3).
const TWO_REPORTS: [u8; 8] = [0x05, 0x8a, 0x03, 0x20, 0x06, 0x0a, 0x01, 0x40];

static OF_REPORTS: [Frame; 1] = [Frame {
    mtu: 8,
    bytes: &TWO_REPORTS,
    packets: Ok(&[&TWO_REPORTS]),
}];

#[test]
fn frames_are_sent(rt: HostRuntime) {
    let alloc = rt.alloc();
    for (name, octet_align, frame) in &SPEECH {
        let mut speech = AmrWbPacketizer {
            octet_align: *octet_align,
        };
        let answer = speech.packetize(alloc, frame.mtu, frame.bytes);
        assert_sent(&rt, name, &answer, &frame.packets);
    }
    assert_frames(&rt, alloc, "cn", &mut ComfortNoisePacketizer {}, &OF_NOISE);
    assert_frames(&rt, alloc, "opus", &mut OpusPacketizer {}, &IN_PIECES);
    assert_frames(
        &rt,
        alloc,
        "g7xx",
        &mut G7xxPacketizer::default(),
        &IN_PIECES,
    );
    assert_frames(&rt, alloc, "null", &mut NullPacketizer {}, &WHOLE);
    assert_frames(
        &rt,
        alloc,
        "tele",
        &mut TelephoneEventPacketizer {},
        &OF_REPORTS,
    );
}

#[test]
fn payloads_are_received(rt: HostRuntime) -> Result<(), Fail> {
    let alloc = rt.alloc();
    let short = Err(PacketError::ErrShortPacket);
    let mut noise = ComfortNoiseDepacketizer {};
    assert_received(&rt, alloc, "cn-empty-fault", &mut noise, &[], &short)?;
    let bytes = Ok([7, 1, 2].as_slice());
    let mut speech = AmrWbDepacketizer { octet_align: true };
    let type_14 = Ok([7, 0x74].as_slice());
    assert_received(&rt, alloc, "amr-wb", &mut speech, &[0xf0, 0x74], &type_14)?;
    let mut opus = OpusDepacketizer::default();
    assert_received(&rt, alloc, "opus", &mut opus, &[1, 2], &bytes)?;
    let mut g711 = G711Depacketizer::default();
    assert_received(&rt, alloc, "g711", &mut g711, &[1, 2], &bytes)?;
    assert_received(
        &rt,
        alloc,
        "null",
        &mut NullDepacketizer {},
        &[1, 2],
        &bytes,
    )?;
    Ok(())
}
