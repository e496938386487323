//! Extended reports that are written: whole RTCP packets without padding, so that each may stand anywhere in a compound packet.

ghost use Rattle.std.specs.Prelude.{◌≡◌, ◌∷◌, [], OnErr, OnOk};
ghost use Rattle.codec_payload_rtcp.specs.RtcpWriting.{Appends};
ghost use Rattle.codec_payload_feedback_xr.specs.Xr.{dlrr_block, reference_time_block, xr_packet};
ghost use Rattle.codec_payload_feedback_xr.specs.XrWriting.{dlrr_bytes, reference_time_bytes};

use crate::report::Dlrr;
use std::alloc::AllocError;

/// The packet with a reference time.
fn reference_time_bytes(ssrc: u32, ntp_time: u64) -> [u8; 20]
    ensures { result ≡ reference_time_bytes ssrc ntp_time }
{
    let [s3, s2, s1, s0] = ssrc.to_be_bytes();
    let [t7, t6, t5, t4, t3, t2, t1, t0] = ntp_time.to_be_bytes();
    [
        128, 207, 0, 4, s3, s2, s1, s0, 4, 0, 0, 2, t7, t6, t5, t4, t3, t2, t1, t0,
    ]
}

/// The packet with an answer.
fn dlrr_bytes(ssrc: u32, answer: Dlrr) -> [u8; 24]
    ensures { result ≡ dlrr_bytes ssrc answer }
{
    let [s3, s2, s1, s0] = ssrc.to_be_bytes();
    let [r3, r2, r1, r0] = answer.ssrc.to_be_bytes();
    let [l3, l2, l1, l0] = answer.last_rr.to_be_bytes();
    let [d3, d2, d1, d0] = answer.delay.to_be_bytes();
    [
        128, 207, 0, 5, s3, s2, s1, s0, 5, 0, 0, 3, r3, r2, r1, r0, l3, l2, l1, l0, d3, d2, d1, d0,
    ]
}

/// Appends an extended report of the receiver with this SSRC: 20 bytes with one Receiver Reference Time Report Block (RFC 3611, section
/// 4.4). `ntp_time` is an NTP timestamp of the moment of sending, in units of 1/2^32 seconds.
///
/// # Errors
///
/// Out of memory: `out` is unchanged.
pub fn write_reference_time(ssrc: u32, ntp_time: u64, out: &mut Vec<u8>) -> Result<(), AllocError>
    ensures ok { OnOk result (Appends out.old.items out.new.items (xr_packet (record { ssrc = ssrc; blocks = reference_time_block ntp_time ∷ [] }))) }
    ensures err { OnErr result (out.new.items ≡ out.old.items) }
{
    out.extend_from_slice(&reference_time_bytes(ssrc, ntp_time))
}

/// Appends an extended report of the sender with this SSRC that answers one receiver: 24 bytes with one DLRR Report Block of one sub-block
/// (RFC 3611, section 4.5).
///
/// # Errors
///
/// Out of memory: `out` is unchanged.
pub fn write_dlrr(ssrc: u32, answer: Dlrr, out: &mut Vec<u8>) -> Result<(), AllocError>
    ensures ok { OnOk result (Appends out.old.items out.new.items (xr_packet (record { ssrc = ssrc; blocks = dlrr_block (answer ∷ []) ∷ [] }))) }
    ensures err { OnErr result (out.new.items ≡ out.old.items) }
{
    out.extend_from_slice(&dlrr_bytes(ssrc, answer))
}
