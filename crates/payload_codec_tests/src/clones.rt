//! Copies of values that derive `Clone`. The copies of VP8 are in `vp8`.

use crate::asserts::{assert_same, assert_sent};
use codec_payload_audio::plain::{G722Packetizer, OpusPacketizer};
use codec_payload_av1::av1::Av1Packetizer;
use codec_payload_base::error::PacketError;
use codec_payload_base::interface::Packetizer;
use codec_payload_base::wire::SeqNo;
use codec_payload_red::red::{Recovered, RedBlock};
use codec_payload_vp8::vp8::{Vp8DescriptorError, Vp8PatchError};
use codec_payload_vp9::vp9::{Vp9Packetizer, Vp9PacketizerMode};
use std::alloc::{AllocError, Global};
use std::fmt::Debug;
use std::process::Abort;
use std::test::Fail;

/// Asserts that a packetizer that has sent one frame and its copy send the same packets of the next frame.
fn assert_copied<P: Packetizer + Clone>(
    rt: &impl Abort,
    alloc: Global,
    name: &str,
    packetizer: &mut P,
    frame: &[u8],
    wanted: &[&[u8]],
) -> Result<(), PacketError> {
    packetizer.packetize(alloc, 1_200, frame)?;
    let mut copy = packetizer.clone()?;
    let answer = packetizer.packetize(alloc, 1_200, frame);
    assert_sent(rt, name, &answer, &Ok(wanted));
    let again = copy.packetize(alloc, 1_200, frame);
    assert_sent(rt, name, &again, &Ok(wanted));
    Ok(())
}

#[test]
fn copies_of_packetizers(rt: HostRuntime) -> Result<(), Fail> {
    let alloc = rt.alloc();
    let whole: &[&[u8]] = &[&[1, 2, 3]];
    let mut opus = OpusPacketizer {};
    assert_copied(&rt, alloc, "Opus", &mut opus, &[1, 2, 3], whole)?;
    let mut g722 = G722Packetizer {};
    assert_copied(&rt, alloc, "G.722", &mut g722, &[1, 2, 3], whole)?;

    // The second keyframe has the next picture id and the next TL0PICIDX (RFC 9628, section 4.2).
    let mut vp9 = Vp9Packetizer::with_mode(Vp9PacketizerMode::NonFlexible, 0);
    let keyframe: &[&[u8]] = &[&[0xae, 0x80, 0x01, 0x10, 0x02, 0x00, 0x82, 0x49, 0x83]];
    assert_copied(&rt, alloc, "VP9", &mut vp9, &[0x82, 0x49, 0x83], keyframe)?;

    // A temporal delimiter is dropped, and OBUs lose their sizes.
    let mut av1 = Av1Packetizer::default();
    let unit = [0x12, 0x00, 0x0a, 0x01, 0xaa, 0x32, 0x02, 0xbb, 0xcc];
    let payload: &[&[u8]] = &[&[0x28, 0x02, 0x08, 0xaa, 0x30, 0xbb, 0xcc]];
    assert_copied(&rt, alloc, "AV1", &mut av1, &unit, payload)?;
    Ok(())
}

/// Asserts that a copy equals its value, and another value does not.
fn assert_equal<T: Clone + Debug + PartialEq + Drop>(
    rt: &impl Abort,
    name: &str,
    value: &T,
    other: &T,
) -> Result<(), AllocError> {
    let copy = value.clone()?;
    assert_same(rt, name, &copy, value);
    assert!(rt; copy != *other, "in {name}");
    Ok(())
}

const BLOCK: RedBlock<'static> = RedBlock {
    pt: 96,
    timestamp_offset: 960,
    payload: &[1, 2],
    is_primary: false,
};

const RECOVERED: Recovered<'static> = Recovered {
    seq_no: SeqNo(11),
    rtp_time: 1_920,
    payload: &[3, 4],
    is_primary: false,
};

#[test]
fn copies_of_values(rt: HostRuntime) -> Result<(), Fail> {
    let other = RedBlock {
        payload: &[1],
        ..BLOCK
    };
    assert_equal(&rt, "a block", &BLOCK, &other)?;
    let other = Recovered {
        is_primary: true,
        ..RECOVERED
    };
    assert_equal(&rt, "a packet", &RECOVERED, &other)?;
    let (short, bad) = (
        Vp8DescriptorError::ShortPayload,
        Vp8DescriptorError::MalformedDescriptor,
    );
    assert_equal(&rt, "an error of VP8", &short, &bad)?;
    let (missing, large) = (Vp8PatchError::KeyIdxMissing, Vp8PatchError::KeyIdxTooLarge);
    assert_equal(&rt, "an error of a patch", &missing, &large)?;
    Ok(())
}
