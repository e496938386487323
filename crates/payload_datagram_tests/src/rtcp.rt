//! RTCP packets that are read and written, by the figures of the RFCs; one is of a captured call of Chromium.

use codec_payload_rtcp::compound::{CompoundRule, read_compound};
use codec_payload_rtcp::packet::{
    FullIntraRequest, Goodbye, Nack, OtherPacket, PictureLoss, RtcpPacket,
};
use codec_payload_rtcp::writing::write_cname;
use std::process::Abort;
use std::test::Fail;

/// Feedback of transport-wide congestion control with three bytes of padding, alone in its datagram, of a call.
const CONGESTION: [u8; 28] = [
    0xaf, 0xcd, 0x00, 0x06, 0x00, 0x00, 0x00, 0x01, 0x79, 0x68, 0xd6, 0x08, 0x00, 0x01, 0x00, 0x03,
    0x01, 0x55, 0x7e, 0x00, 0x20, 0x03, 0x2d, 0x08, 0x26, 0x00, 0x00, 0x03,
];

/// A generic NACK of the packets 65534, 65535, 0 and 14, and of 100 and 116 (RFC 4585, section 6.2.1).
const NACK: [u8; 20] = [
    0x81, 205, 0, 4, 0, 0, 0, 1, 0, 0, 0, 2, 0xff, 0xfe, 0x80, 0x03, 0, 100, 0x80, 0,
];

/// A packet, and its parts: a NACK, feedback of an unknown format, a PLI, a FIR with one entry, and a BYE of two sources with a
/// reason of two bytes and four bytes of padding.
static READ: [(&[u8], RtcpPacket<'static>); 5] = [
    (
        &NACK,
        RtcpPacket::Nack(Nack {
            sender_ssrc: 1,
            media_ssrc: 2,
            pairs: &[0xff, 0xfe, 0x80, 0x03, 0, 100, 0x80, 0],
        }),
    ),
    (
        &CONGESTION,
        RtcpPacket::Other(OtherPacket {
            packet_type: 205,
            count: 15,
            body: &[
                0x00, 0x00, 0x00, 0x01, 0x79, 0x68, 0xd6, 0x08, 0x00, 0x01, 0x00, 0x03, 0x01, 0x55,
                0x7e, 0x00, 0x20, 0x03, 0x2d, 0x08, 0x26,
            ],
        }),
    ),
    (
        &[0x81, 206, 0, 2, 0, 0, 0, 1, 0, 0, 0, 2],
        RtcpPacket::PictureLoss(PictureLoss {
            sender_ssrc: 1,
            media_ssrc: 2,
        }),
    ),
    (
        &[
            0x84, 206, 0, 4, 0, 0, 0, 1, 0, 0, 0, 0, 0, 0, 0, 9, 5, 0, 0, 0,
        ],
        RtcpPacket::FullIntra(FullIntraRequest {
            sender_ssrc: 1,
            media_ssrc: 0,
            entries: &[0, 0, 0, 9, 5, 0, 0, 0],
        }),
    ),
    (
        &[
            0xa2, 203, 0, 4, 0, 0, 0, 3, 0, 0, 0, 4, 2, b'o', b'k', 0, 0, 0, 0, 4,
        ],
        RtcpPacket::Goodbye(Goodbye {
            ssrcs: &[0, 0, 0, 3, 0, 0, 0, 4],
            reason: Some(b"ok"),
        }),
    ),
];

#[test]
fn packets_are_read(rt: HostRuntime) {
    for (bytes, packet) in &READ {
        match read_compound(CompoundRule::ReducedSize, bytes) {
            Ok(mut packets) => assert_eq!(rt; packets.next().as_ref(), Some(packet)),
            Err(fault) => panic!(rt; "{fault}"),
        }
    }
}

#[test]
fn packets_are_written(rt: HostRuntime) -> Result<(), Fail> {
    let mut out = Vec::new(rt.alloc());
    write_cname(1, b"me", &mut out)?;
    let loss = PictureLoss {
        sender_ssrc: 1,
        media_ssrc: 2,
    };
    loss.write(&mut out)?;
    let bye = Goodbye {
        ssrcs: &[0, 0, 0, 3],
        reason: Some(b"ok"),
    };
    bye.write(&mut out)?;
    let wanted: [u8; 40] = [
        0x81, 202, 0, 3, 0, 0, 0, 1, 1, 2, b'm', b'e', 0, 0, 0, 0, 0x81, 206, 0, 2, 0, 0, 0, 1, 0,
        0, 0, 2, 0x81, 203, 0, 2, 0, 0, 0, 3, 2, b'o', b'k', 0,
    ];
    assert_eq!(rt; out.as_slice(), wanted.as_slice());
    Ok(())
}
