//! The worked examples of recovery from RED.

use crate::asserts::assert_same;
use codec_payload_base::error::PacketError;
use codec_payload_base::wire::SeqNo;
use codec_payload_red::red::{Recovered, RedReceiver};
use std::test::Fail;

/// A block of type 96 with the bytes `0304`, 960 ticks older than the primary one, which has the byte `05`.
const BLOCK_AND_PRIMARY: [u8; 8] = [0xe0, 0x0f, 0x00, 0x02, 0x60, 0x03, 0x04, 0x05];

/// A block of type 96 with the byte `01`, 900 ticks older than the primary one, which has the byte `aa`.
const NINE_HUNDRED_BACK: [u8; 7] = [0xe0, 0x0e, 0x10, 0x01, 0x60, 0x01, 0xaa];

/// What a receiver finds in the payload of a packet.
struct RecoveredRow {
    name: &'static str,
    primary_pt: u8,
    step: u32,
    seq_no: u64,
    rtp_time: u32,
    payload: &'static [u8],
    wanted: Result<&'static [Recovered<'static>], PacketError>,
}

static RECOVERED: [RecoveredRow; 6] = [
    RecoveredRow {
        name: "recover-block-and-primary",
        primary_pt: 96,
        step: 960,
        seq_no: 12,
        rtp_time: 2_880,
        payload: &BLOCK_AND_PRIMARY,
        wanted: Ok(&[
            Recovered {
                seq_no: SeqNo(11),
                rtp_time: 1_920,
                payload: &[3, 4],
                is_primary: false,
            },
            Recovered {
                seq_no: SeqNo(12),
                rtp_time: 2_880,
                payload: &[5],
                is_primary: true,
            },
        ]),
    },
    RecoveredRow {
        name: "recover-other-step",
        primary_pt: 96,
        step: 961,
        seq_no: 12,
        rtp_time: 2_880,
        payload: &BLOCK_AND_PRIMARY,
        wanted: Ok(&[Recovered {
            seq_no: SeqNo(12),
            rtp_time: 2_880,
            payload: &[5],
            is_primary: true,
        }]),
    },
    RecoveredRow {
        name: "recover-number-zero",
        primary_pt: 96,
        step: 960,
        seq_no: 0,
        rtp_time: 2_880,
        payload: &BLOCK_AND_PRIMARY,
        wanted: Ok(&[Recovered {
            seq_no: SeqNo(0),
            rtp_time: 2_880,
            payload: &[5],
            is_primary: true,
        }]),
    },
    RecoveredRow {
        name: "recover-other-type",
        primary_pt: 97,
        step: 960,
        seq_no: 12,
        rtp_time: 2_880,
        payload: &BLOCK_AND_PRIMARY,
        wanted: Ok(&[]),
    },
    RecoveredRow {
        name: "recover-nine-steps-back",
        primary_pt: 96,
        step: 100,
        seq_no: 20,
        rtp_time: 5_000,
        payload: &NINE_HUNDRED_BACK,
        wanted: Ok(&[Recovered {
            seq_no: SeqNo(20),
            rtp_time: 5_000,
            payload: &[0xaa],
            is_primary: true,
        }]),
    },
    RecoveredRow {
        name: "recover-block-past-end-fault",
        primary_pt: 96,
        step: 960,
        seq_no: 12,
        rtp_time: 2_880,
        payload: &[0xe0, 0x0f, 0x00, 0xff, 0x60],
        wanted: Err(PacketError::ErrRedCorruptedPacket),
    },
];

#[test]
fn packets_are_recovered(rt: HostRuntime) -> Result<(), Fail> {
    for row in &RECOVERED {
        let receiver = RedReceiver::new(row.primary_pt, row.step).ok_or(row.name)?;
        let answer = receiver.recover(rt.alloc(), SeqNo(row.seq_no), row.rtp_time, row.payload);
        match (&answer, &row.wanted) {
            (Ok(packets), Ok(wanted)) => {
                assert_same(&rt, row.name, &packets.as_slice(), wanted);
            }
            (Err(fault), Err(wanted)) => assert_same(&rt, row.name, fault, wanted),
            _ => panic!(rt; "{} gives {answer:?}", row.name),
        }
    }
    Ok(())
}
