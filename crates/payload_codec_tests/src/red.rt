//! The worked examples of RED's sender.

ghost use Rattle.std.specs.Prelude.{IsTrue};
ghost use Rattle.codec_payload_red.specs.RedLevels.{is_accepted};

use codec_payload_base::error::PacketError;
use codec_payload_base::wire::Pt;
use codec_payload_red::red::RedSender;
use std::alloc::Global;
use std::process::Abort;
use std::test::Fail;

/// A sender of RED under type 63 whose blocks have type 111.
fn sender_of(alloc: Global, distances: &[u32]) -> RedSender
    requires { IsTrue (is_accepted distances.now) }
{
    RedSender::new(
        alloc,
        Pt::new_with_value(63),
        Pt::new_with_value(111),
        distances,
    )
}

/// What a sender makes of a payload at an RTP time, at a budget of 1,200 bytes.
fn wrapped(
    alloc: Global,
    sender: &mut RedSender,
    payload: &[u8],
    rtp_time: u32,
) -> Result<Vec<u8>, PacketError> {
    sender.wrap(Vec::from_slice(alloc, payload)?, rtp_time, 1_200)
}

/// A payload that is as long as the budget.
const SEVENS: [u8; 1_200] = [7; 1_200];

/// A payload at an RTP time, and the sender's output for it at a budget of 1,200 bytes, if it is checked.
struct Payload {
    payload: &'static [u8],
    rtp_time: u32,
    wanted: Option<&'static [u8]>,
}

/// The output of a new sender with these distances for payloads, one after another.
struct SentRow {
    name: &'static str,
    distances: &'static [u32],
    payloads: &'static [Payload],
}

/// The output has for each block a byte of F and the type, 14 bits of offset and 10 of length (not for the primary block, which is
/// the last; RFC 2198, section 3); then the bytes of all blocks.
const SENT: [SentRow; 3] = [
    SentRow {
        name: "red-unwrapped-is-recorded",
        distances: &[1],
        payloads: &[
            Payload {
                payload: &[1, 2, 3],
                rtp_time: 1_000,
                wanted: Some(&[0x6f, 1, 2, 3]),
            },
            Payload {
                payload: &[4, 5],
                rtp_time: 1_960,
                wanted: Some(&[0xef, 0x0f, 0x00, 0x03, 0x6f, 1, 2, 3, 4, 5]),
            },
            Payload {
                payload: &SEVENS,
                rtp_time: 2_920,
                wanted: Some(&SEVENS),
            },
            Payload {
                payload: &[6],
                rtp_time: 3_880,
                wanted: Some(&[0x6f, 6]),
            },
        ],
    },
    SentRow {
        name: "red-two-distances",
        distances: &[1, 3],
        payloads: &[
            Payload {
                payload: &[0],
                rtp_time: 0,
                wanted: None,
            },
            Payload {
                payload: &[1],
                rtp_time: 960,
                wanted: None,
            },
            Payload {
                payload: &[2],
                rtp_time: 1_920,
                wanted: None,
            },
            Payload {
                payload: &[3],
                rtp_time: 2_880,
                wanted: None,
            },
            Payload {
                payload: &[0x2a],
                rtp_time: 3_840,
                wanted: Some(&[
                    0xef, 0x2d, 0x00, 0x01, 0xef, 0x0f, 0x00, 0x01, 0x6f, 0x01, 0x03, 0x2a,
                ]),
            },
        ],
    },
    SentRow {
        name: "red-offset-16384-left-out",
        distances: &[1],
        payloads: &[
            Payload {
                payload: &[1],
                rtp_time: 0,
                wanted: None,
            },
            Payload {
                payload: &[2],
                rtp_time: 16_384,
                wanted: Some(&[0x6f, 2]),
            },
        ],
    },
];

/// Asserts the output of a new sender for the payloads of a test vector.
fn assert_row(rt: &impl Abort, alloc: Global, row: &SentRow) -> Result<(), PacketError> {
    assert!(rt; RedSender::accepts(row.distances), "in {}", row.name);
    let mut sender = sender_of(alloc, row.distances);
    for sent in row.payloads {
        let bytes = wrapped(alloc, &mut sender, sent.payload, sent.rtp_time)?;
        let wanted = sent.wanted.unwrap_or(&bytes);
        assert_eq!(rt; bytes.as_slice(), wanted, "in {}", row.name);
    }
    Ok(())
}

#[test]
fn payloads_are_wrapped(rt: HostRuntime) -> Result<(), Fail> {
    for row in &SENT {
        assert_row(&rt, rt.alloc(), row)?;
    }
    Ok(())
}
