//! The worked examples of AV1.

use crate::asserts::{Frame, assert_same, assert_sent, put_together};
use codec_payload_av1::av1::{Av1CodecExtra, Av1Depacketizer, Av1Packetizer, detect_av1_keyframe};
use codec_payload_base::error::PacketError;
use codec_payload_base::interface::{CodecExtra, Packetizer};
use std::test::Fail;

/// A temporal delimiter, a sequence header and a frame.
const TWO_OBUS: [u8; 9] = [0x12, 0x00, 0x0a, 0x01, 0xaa, 0x32, 0x02, 0xbb, 0xcc];

/// The same without the temporal delimiter.
const TWO_OBUS_UNIT: [u8; 7] = [0x0a, 0x01, 0xaa, 0x32, 0x02, 0xbb, 0xcc];

/// The two in packets of two bytes.
const PACKETS_OF_TWO: [&[u8]; 5] = [
    &[0x58, 0x08],
    &[0x90, 0xaa],
    &[0x50, 0x30],
    &[0xd0, 0xbb],
    &[0x90, 0xcc],
];

/// Four metadata OBUs.
const FOUR_OBUS: [u8; 12] = [
    0x2a, 0x01, 0x11, 0x2a, 0x01, 0x22, 0x2a, 0x01, 0x33, 0x2a, 0x01, 0x44,
];

/// The four in one packet.
const FOUR_OBUS_PACKET: [u8; 13] = [
    0x00, 0x02, 0x28, 0x11, 0x02, 0x28, 0x22, 0x02, 0x28, 0x33, 0x02, 0x28, 0x44,
];

/// A frame that a new packetizer is given.
struct SentRow {
    name: &'static str,
    frame: Frame,
}

/// A frame is OBUs with their sizes. A packet is the byte Z Y W W N (version 1.0.0 of AV1's RTP format, section 4.4) and elements:
/// OBUs without sizes, or pieces of them. Each has its length in front, except the last if W counts the elements.
static SENT: [SentRow; 9] = [
    SentRow {
        name: "av1-two-obus-mtu-1200",
        frame: Frame {
            mtu: 1_200,
            bytes: &TWO_OBUS,
            packets: Ok(&[&[0x28, 0x02, 0x08, 0xaa, 0x30, 0xbb, 0xcc]]),
        },
    },
    SentRow {
        name: "av1-two-obus-mtu-3",
        frame: Frame {
            mtu: 3,
            bytes: &TWO_OBUS,
            packets: Ok(&[&[0x18, 0x08, 0xaa], &[0x50, 0x30, 0xbb], &[0x90, 0xcc]]),
        },
    },
    SentRow {
        name: "av1-four-obus-mtu-1200",
        frame: Frame {
            mtu: 1_200,
            bytes: &FOUR_OBUS,
            packets: Ok(&[&FOUR_OBUS_PACKET]),
        },
    },
    SentRow {
        name: "av1-four-obus-mtu-9",
        frame: Frame {
            mtu: 9,
            bytes: &FOUR_OBUS,
            packets: Ok(&[
                &[0x30, 0x02, 0x28, 0x11, 0x02, 0x28, 0x22, 0x28, 0x33],
                &[0x10, 0x28, 0x44],
            ]),
        },
    },
    SentRow {
        name: "av1-four-obus-mtu-12",
        frame: Frame {
            mtu: 12,
            bytes: &FOUR_OBUS,
            packets: Ok(&[
                &[
                    0x40, 0x02, 0x28, 0x11, 0x02, 0x28, 0x22, 0x02, 0x28, 0x33, 0x01, 0x28,
                ],
                &[0x90, 0x44],
            ]),
        },
    },
    SentRow {
        name: "av1-shortest-size",
        frame: Frame {
            mtu: 1_200,
            bytes: &[0x0a, 0x81, 0x00, 0xaa],
            packets: Ok(&[&[0x18, 0x08, 0xaa]]),
        },
    },
    SentRow {
        name: "av1-frame-size-past-end-fault",
        frame: Frame {
            mtu: 1_200,
            bytes: &[0x0a, 0x05, 0xaa],
            packets: Err(PacketError::ErrAv1CorruptedPacket),
        },
    },
    SentRow {
        name: "av1-mtu-looked-at-first",
        frame: Frame {
            mtu: 1,
            bytes: &[0x12, 0x00, 0x0a, 0x05],
            packets: Ok(&[]),
        },
    },
    SentRow {
        name: "av1-mtu-2-five-packets",
        frame: Frame {
            mtu: 2,
            bytes: &TWO_OBUS_UNIT,
            packets: Ok(&PACKETS_OF_TWO),
        },
    },
];

#[test]
fn frames_are_sent(rt: HostRuntime) {
    for row in &SENT {
        let mut packetizer = Av1Packetizer::default();
        let answer = packetizer.packetize(rt.alloc(), row.frame.mtu, row.frame.bytes);
        assert_sent(&rt, row.name, &answer, &row.frame.packets);
    }
}

/// Packets that a new depacketizer is given, the unit that it puts together, and whether the N bit was set.
struct UnitRow {
    name: &'static str,
    packets: &'static [&'static [u8]],
    unit: &'static [u8],
    is_keyframe: bool,
}

/// Packets as `packetizer` has them; a unit is OBUs with their sizes, without a temporal delimiter.
const UNITS: [UnitRow; 5] = [
    UnitRow {
        name: "av1-two-obus-mtu-1200",
        packets: &[&[0x28, 0x02, 0x08, 0xaa, 0x30, 0xbb, 0xcc]],
        unit: &TWO_OBUS_UNIT,
        is_keyframe: true,
    },
    UnitRow {
        name: "av1-leading-obu-lost",
        packets: &[&[0x50, 0x30, 0xbb], &[0x90, 0xcc]],
        unit: &[0x32, 0x02, 0xbb, 0xcc],
        is_keyframe: false,
    },
    UnitRow {
        name: "av1-shortest-size",
        packets: &[&[0x18, 0x08, 0xaa]],
        unit: &[0x0a, 0x01, 0xaa],
        is_keyframe: true,
    },
    UnitRow {
        name: "av1-mtu-2-five-packets",
        packets: &PACKETS_OF_TWO,
        unit: &TWO_OBUS_UNIT,
        is_keyframe: true,
    },
    UnitRow {
        name: "av1-mtu-2-first-lost",
        packets: &[&[0x90, 0xaa], &[0x50, 0x30], &[0xd0, 0xbb], &[0x90, 0xcc]],
        unit: &[0x32, 0x02, 0xbb, 0xcc],
        is_keyframe: false,
    },
];

#[test]
fn units_are_put_together(rt: HostRuntime) -> Result<(), Fail> {
    for row in &UNITS {
        let mut depacketizer = Av1Depacketizer::new(rt.alloc());
        let (unit, extra) = put_together(rt.alloc(), &mut depacketizer, row.packets)?;
        assert_eq!(rt; unit.as_slice(), row.unit, "in {}", row.name);
        let is_keyframe = row.is_keyframe;
        let told = CodecExtra::Av1(Av1CodecExtra { is_keyframe });
        assert_same(&rt, row.name, &extra, &told);
    }
    assert!(rt; detect_av1_keyframe(&[0x18, 0x08, 0xaa]));
    Ok(())
}
