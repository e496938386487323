//! The worked examples of VP9.

use crate::asserts::{Frame, assert_frames, assert_received, assert_same};
use codec_payload_base::error::PacketError;
use codec_payload_base::interface::{CodecExtra, Packetizer};
use codec_payload_vp9::vp9::{Vp9Depacketizer, Vp9Packetizer, Vp9PacketizerMode};
use std::test::Fail;

/// Frames that one packetizer is given one after another.
struct SentRow {
    name: &'static str,
    mode: Vp9PacketizerMode,
    first_id: u16,
    frames: &'static [Frame],
}

/// A frame that begins with 0x82 is a keyframe of profile 0, one with 0x86 an interframe. A packet is a descriptor (RFC 9628,
/// section 4.2) and then bytes of its frame. The descriptor is the byte I P L F B E V Z and the id in two bytes. The non-flexible
/// mode adds TID U SID D with only U set, TL0PICIDX, and, in the first packet of a keyframe, a structure of one layer without sizes
/// and groups.
static SENT: [SentRow; 3] = [
    SentRow {
        name: "vp9-nonflex-two-packets",
        mode: Vp9PacketizerMode::NonFlexible,
        first_id: 0x1234,
        frames: &[Frame {
            mtu: 10,
            bytes: &[0x82, 0x49, 0x83],
            packets: Ok(&[
                &[0xaa, 0x92, 0x34, 0x10, 0x01, 0x00, 0x82, 0x49],
                &[0xa4, 0x92, 0x34, 0x10, 0x01, 0x83],
            ]),
        }],
    },
    SentRow {
        name: "vp9-nonflex-mtu-8-skips",
        mode: Vp9PacketizerMode::NonFlexible,
        first_id: 0x1234,
        frames: &[
            Frame {
                mtu: 8,
                bytes: &[0x82, 0x49, 0x83],
                packets: Ok(&[]),
            },
            Frame {
                mtu: 10,
                bytes: &[0x82, 0x49, 0x83],
                packets: Ok(&[
                    &[0xaa, 0x92, 0x34, 0x10, 0x02, 0x00, 0x82, 0x49],
                    &[0xa4, 0x92, 0x34, 0x10, 0x02, 0x83],
                ]),
            },
        ],
    },
    SentRow {
        name: "vp9-flex-two-packets",
        mode: Vp9PacketizerMode::Flexible,
        first_id: 0x1234,
        frames: &[Frame {
            mtu: 5,
            bytes: &[0x82, 0x49, 0x83],
            packets: Ok(&[&[0x98, 0x92, 0x34, 0x82, 0x49], &[0x94, 0x92, 0x34, 0x83]]),
        }],
    },
];

#[test]
fn frames_are_sent(rt: HostRuntime) -> Result<(), Fail> {
    for row in &SENT {
        assert!(rt; row.first_id < 0x8000);
        let mut packetizer = Vp9Packetizer::with_mode(row.mode, row.first_id);
        assert_frames(&rt, rt.alloc(), row.name, &mut packetizer, row.frames);
        let mut copy = packetizer.clone()?;
        let again = copy.packetize(rt.alloc(), 1_200, &[0x82]);
        let next = packetizer.packetize(rt.alloc(), 1_200, &[0x82]);
        assert_same(&rt, row.name, &again, &next);
    }
    Ok(())
}

#[test]
fn vp9_structure_read_anew(rt: HostRuntime) -> Result<(), Fail> {
    let alloc = rt.alloc();
    let name = "vp9-structure-read-anew";
    let mut depacketizer = Vp9Depacketizer::new(alloc);
    let short = Err(PacketError::ErrShortPacket);
    assert_received(
        &rt,
        alloc,
        name,
        &mut depacketizer,
        &[0x02, 0x08, 0xff],
        &short,
    )?;
    assert_same(&rt, name, &depacketizer.ng, &255);
    assert!(rt; depacketizer.pgtid.is_empty());
    let read = Ok([7, 0xaa].as_slice());
    let extra = assert_received(
        &rt,
        alloc,
        name,
        &mut depacketizer,
        &[0x02, 0x00, 0xaa],
        &read,
    )?;
    assert_same(&rt, name, &depacketizer.ng, &0);
    assert!(rt; matches!(extra, CodecExtra::Vp9(told) if !told.is_keyframe));
    assert!(rt; depacketizer != Vp9Depacketizer::new(alloc));
    Ok(())
}
