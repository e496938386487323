//! The texts of faults, which no clause states.

use codec_payload_base::error::PacketError;
use codec_payload_vp8::vp8::{Vp8DescriptorError, Vp8PatchError};
use std::alloc::{AllocError, Global};
use std::fmt::Display;
use std::process::Abort;
use std::test::Fail;

/// All faults in the order of their numbers, each with its text.
static FAULTS: [(PacketError, &str); 17] = [
    (PacketError::ErrShortPacket, "Packet is too short"),
    (PacketError::ErrPayloadTooLarge, "Payload exceeds the MTU"),
    (
        PacketError::ErrTooManySpatialLayers,
        "Too many spatial layers",
    ),
    (PacketError::ErrTooManyPDiff, "Too many P-Diff"),
    (PacketError::ErrH265CorruptedPacket, "H265 corrupted packet"),
    (PacketError::ErrH266CorruptedPacket, "H266 corrupted packet"),
    (
        PacketError::ErrInvalidH265PacketType,
        "H265 invalid packet type",
    ),
    (
        PacketError::ErrH265PACIPHESTooLong,
        "H265 PACI PHES field exceeds maximum size of 31 bytes",
    ),
    (
        PacketError::StapASizeLargerThanBuffer(5, 4),
        "H264 StapA size larger than buffer: 5 > 4",
    ),
    (
        PacketError::NaluTypeIsNotHandled(25),
        "H264 NALU type is not handled: 25",
    ),
    (PacketError::ErrVP8CorruptedPacket, "VP8 corrupted packet"),
    (PacketError::ErrVP9CorruptedPacket, "VP9 corrupted packet"),
    (PacketError::ErrAv1CorruptedPacket, "AV1 corrupted packet"),
    (PacketError::ErrRedCorruptedPacket, "RED corrupted packet"),
    (
        PacketError::InvalidTelephoneEvent("why"),
        "Invalid telephone event: why",
    ),
    (
        PacketError::ErrAmrWbCorruptedPacket,
        "AMR-WB corrupted packet",
    ),
    (PacketError::OutOfMemory, "Out of memory"),
];

static DESCRIPTOR_ERRORS: [(Vp8DescriptorError, &str); 2] = [
    (Vp8DescriptorError::ShortPayload, "VP8 payload is too short"),
    (
        Vp8DescriptorError::MalformedDescriptor,
        "VP8 payload descriptor is malformed",
    ),
];

static PATCH_ERRORS: [(Vp8PatchError, &str); 5] = [
    (
        Vp8PatchError::PictureIdMissing,
        "VP8 payload descriptor has no PictureID",
    ),
    (
        Vp8PatchError::PictureIdTooLarge,
        "VP8 PictureID does not fit descriptor width",
    ),
    (
        Vp8PatchError::Tl0PicIdxMissing,
        "VP8 payload descriptor has no TL0PICIDX",
    ),
    (
        Vp8PatchError::KeyIdxMissing,
        "VP8 payload descriptor has no KEYIDX",
    ),
    (
        Vp8PatchError::KeyIdxTooLarge,
        "VP8 KEYIDX must fit in 5 bits",
    ),
];

/// Asserts that each fault is printed as its text.
fn assert_texts<T: Display>(
    rt: &impl Abort,
    alloc: Global,
    faults: &[(T, &str)],
) -> Result<(), AllocError> {
    for (fault, text) in faults {
        let printed = format!(in alloc; "{fault}")?;
        assert_eq!(rt; printed.as_str(), *text);
    }
    Ok(())
}

#[test]
fn texts_of_faults(rt: HostRuntime) -> Result<(), Fail> {
    assert_texts(&rt, rt.alloc(), &FAULTS)?;
    assert_texts(&rt, rt.alloc(), &DESCRIPTOR_ERRORS)?;
    assert_texts(&rt, rt.alloc(), &PATCH_ERRORS)?;
    Ok(())
}
