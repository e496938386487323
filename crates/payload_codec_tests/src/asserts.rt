//! Assertions, each proved once for all tests. Each names the example that it fails in.

use codec_payload_base::error::PacketError;
use codec_payload_base::interface::{CodecExtra, Depacketizer, Packetizer};
use std::alloc::{AllocError, Global};
use std::fmt::Debug;
use std::process::Abort;

/// Asserts that the found value equals the expected one, in the example with that name.
pub fn assert_same<T: Debug + PartialEq>(rt: &impl Abort, name: &str, found: &T, wanted: &T) {
    assert_eq!(rt; *found, *wanted, "in {name}");
}

/// A frame that a packetizer is given.
pub struct Frame {
    pub mtu: usize,
    pub bytes: &'static [u8],
    /// Its packets, or the fault.
    pub packets: Result<&'static [&'static [u8]], PacketError>,
}

/// The packets of a frame, each of them whole, or its fault.
pub fn assert_sent(
    rt: &impl Abort,
    name: &str,
    answer: &Result<Vec<Vec<u8>>, PacketError>,
    wanted: &Result<&[&[u8]], PacketError>,
) {
    match (answer, wanted) {
        (Ok(packets), Ok(payloads)) => {
            assert_eq!(rt; packets.len(), payloads.len(), "packets of {name}");
            for (packet, payload) in packets.iter().zip(*payloads) {
                assert_eq!(rt; packet.as_slice(), *payload, "in {name}");
            }
        }
        (Err(fault), Err(named)) => assert_same(rt, name, fault, named),
        _ => panic!(rt; "{name} gives {answer:?} in place of {wanted:?}"),
    }
}

/// Frames that one packetizer is given one after another.
pub fn assert_frames<P: Packetizer>(
    rt: &impl Abort,
    alloc: Global,
    name: &str,
    packetizer: &mut P,
    frames: &[Frame],
) {
    for frame in frames {
        let answer = packetizer.packetize(alloc, frame.mtu, frame.bytes);
        assert_sent(rt, name, &answer, &frame.packets);
    }
}

/// Asserts the bytes that a payload appends to the one byte 7, or its fault, which leaves that byte and the codec-specific data
/// unchanged. Returns the codec-specific data.
pub fn assert_received<D: Depacketizer>(
    rt: &impl Abort,
    alloc: Global,
    name: &str,
    depacketizer: &mut D,
    payload: &[u8],
    wanted: &Result<&[u8], PacketError>,
) -> Result<CodecExtra, AllocError> {
    let mut out = Vec::from_slice(alloc, &[7])?;
    let mut extra = CodecExtra::None;
    match (
        depacketizer.depacketize(payload, &mut out, &mut extra),
        wanted,
    ) {
        (Ok(()), Ok(bytes)) => assert_eq!(rt; out.as_slice(), *bytes, "in {name}"),
        (Err(fault), Err(named)) => {
            assert_same(rt, name, &fault, named);
            assert_eq!(rt; out.as_slice(), [7].as_slice(), "in {name}");
            assert_same(rt, name, &extra, &CodecExtra::None);
        }
        (answer, _) => panic!(rt; "{name} gives {answer:?} in place of {wanted:?}"),
    }
    Ok(extra)
}

/// What one depacketizer makes of payloads.
pub fn put_together<D: Depacketizer>(
    alloc: Global,
    depacketizer: &mut D,
    payloads: &[&[u8]],
) -> Result<(Vec<u8>, CodecExtra), PacketError> {
    let mut out = Vec::new(alloc);
    let mut extra = CodecExtra::None;
    for payload in payloads {
        depacketizer.depacketize(payload, &mut out, &mut extra)?;
    }
    Ok((out, extra))
}
