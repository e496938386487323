//! The worked examples of VP8.

use crate::asserts::{Frame, assert_frames, assert_received, assert_same};
use codec_payload_base::interface::Packetizer;
use codec_payload_vp8::vp8::{Vp8Depacketizer, Vp8Descriptor, Vp8Packetizer};
use std::test::Fail;

/// Frames that one packetizer is given one after another.
struct SentRow {
    name: &'static str,
    /// The first picture id, if ids are sent.
    first_id: Option<u16>,
    frames: &'static [Frame],
}

/// A frame that begins with 0x90 is a keyframe, one with 0x91 an interframe. A packet is a descriptor (RFC 7741, section 4.2) and
/// then bytes of its frame. The descriptor is the byte X R N S R PID. If ids are sent, X is set, and I L T K follow, only I set,
/// and then the id in one byte, or in two with the highest bit set.
static SENT: [SentRow; 8] = [
    SentRow {
        name: "vp8-no-ids-three-packets",
        first_id: None,
        frames: &[
            Frame {
                mtu: 2,
                bytes: &[0x90, 0x90, 0x90],
                packets: Ok(&[&[0x10, 0x90], &[0x00, 0x90], &[0x00, 0x90]]),
            },
            Frame {
                mtu: 2,
                bytes: &[0x91, 0x91],
                packets: Ok(&[&[0x10, 0x91], &[0x00, 0x91]]),
            },
        ],
    },
    SentRow {
        name: "vp8-mtu-max",
        first_id: None,
        frames: &[Frame {
            mtu: usize::MAX,
            bytes: &[0x90, 0x90, 0x90],
            packets: Ok(&[&[0x10, 0x90, 0x90, 0x90]]),
        }],
    },
    SentRow {
        name: "vp8-mtu-max, with ids",
        first_id: Some(0x7fff),
        frames: &[Frame {
            mtu: usize::MAX,
            bytes: &[0x90, 0x90, 0x90],
            packets: Ok(&[&[0x90, 0x80, 0xff, 0xff, 0x90, 0x90, 0x90]]),
        }],
    },
    SentRow {
        name: "vp8-id-two-frames",
        first_id: Some(0x20),
        frames: &[
            Frame {
                mtu: 5,
                bytes: &[0x90, 0x90, 0x90],
                packets: Ok(&[&[0x90, 0x80, 0x20, 0x90, 0x90], &[0x80, 0x80, 0x20, 0x90]]),
            },
            Frame {
                mtu: 5,
                bytes: &[0x91, 0x91],
                packets: Ok(&[&[0x90, 0x80, 0x21, 0x91, 0x91]]),
            },
        ],
    },
    SentRow {
        name: "vp8-id-mtu-3-skips",
        first_id: Some(0x20),
        frames: &[
            Frame {
                mtu: 3,
                bytes: &[0x90, 0x90, 0x90],
                packets: Ok(&[]),
            },
            Frame {
                mtu: 5,
                bytes: &[0x91, 0x91],
                packets: Ok(&[&[0x90, 0x80, 0x20, 0x91, 0x91]]),
            },
        ],
    },
    SentRow {
        name: "vp8-id-widens-at-128",
        first_id: Some(0x7f),
        frames: &[
            Frame {
                mtu: 5,
                bytes: &[0x90, 0x90],
                packets: Ok(&[&[0x90, 0x80, 0x7f, 0x90, 0x90]]),
            },
            Frame {
                mtu: 5,
                bytes: &[0x91],
                packets: Ok(&[&[0x90, 0x80, 0x80, 0x80, 0x91]]),
            },
        ],
    },
    SentRow {
        name: "vp8-id-wrap-15",
        first_id: Some(0x7fff),
        frames: &[
            Frame {
                mtu: 5,
                bytes: &[0x90],
                packets: Ok(&[&[0x90, 0x80, 0xff, 0xff, 0x90]]),
            },
            Frame {
                mtu: 5,
                bytes: &[0x90],
                packets: Ok(&[&[0x90, 0x80, 0x00, 0x90]]),
            },
        ],
    },
    SentRow {
        name: "vp8-id-two-bytes",
        first_id: Some(0x120),
        frames: &[Frame {
            mtu: 6,
            bytes: &[0x90, 0x90, 0x90],
            packets: Ok(&[
                &[0x90, 0x80, 0x81, 0x20, 0x90, 0x90],
                &[0x80, 0x80, 0x81, 0x20, 0x90],
            ]),
        }],
    },
];

#[test]
fn frames_are_sent(rt: HostRuntime) -> Result<(), Fail> {
    for row in &SENT {
        let mut packetizer = match row.first_id {
            Some(id) if id < 0x8000 => Vp8Packetizer::with_picture_id(id),
            _ => Vp8Packetizer::default(),
        };
        assert_frames(&rt, rt.alloc(), row.name, &mut packetizer, row.frames);
        let mut copy = packetizer.clone()?;
        let again = copy.packetize(rt.alloc(), 1_200, &[0x90]);
        let next = packetizer.packetize(rt.alloc(), 1_200, &[0x90]);
        assert_same(&rt, row.name, &again, &next);
    }
    Ok(())
}

/// A payload of a descriptor with the ids 0x1234 and 0x55 and the key index 7, and the first byte of a keyframe.
const READ: [u8; 7] = [0x90, 0xf0, 0x92, 0x34, 0x55, 0xa7, 0x00];

#[test]
fn vp8_descriptor_read(rt: HostRuntime) -> Result<(), Fail> {
    let name = "vp8-descriptor-read";
    let descriptor = Vp8Descriptor::parse(&READ).ok().ok_or(name)?;
    let ids = (
        descriptor.picture_id(),
        descriptor.tl0_pic_idx(),
        descriptor.key_idx(),
    );
    assert_same(&rt, name, &ids, &(Some(0x1234), Some(0x55), Some(7)));
    assert!(rt; descriptor.starts_keyframe(&READ));
    let mut depacketizer = Vp8Depacketizer::default();
    let wanted = Ok([7, 0x00].as_slice());
    assert_received(&rt, rt.alloc(), name, &mut depacketizer, &READ, &wanted)?;
    assert_same(&rt, name, &depacketizer.clone()?, &depacketizer);
    Ok(())
}
