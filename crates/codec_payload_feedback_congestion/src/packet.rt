//! Feedback for congestion control as packets of RTCP, without padding, so that they may stand anywhere in a compound packet.

ghost use Rattle.std.specs.Prelude.{◌≡◌, ◌⊎◌, ◌%◌, ◌≤◌, length, OnOk};
ghost use Rattle.codec_payload_rtcp.specs.RtcpWriting.{Appends, feedback_head};
ghost use Rattle.codec_payload_feedback_congestion.specs.Packet.{AppendsRembPacket, feedback_of, transport_feedback};

use crate::remb::write_remb;
use std::alloc::{AllocError, Global};

/// The header without padding, and the two sources.
fn packet_head(packet_type: u8, words: u16, sender_ssrc: u32, media_ssrc: u32) -> [u8; 12]
    ensures { result ≡ feedback_head 15 packet_type words sender_ssrc media_ssrc }
{
    let [l1, l0] = words.to_be_bytes();
    let [s3, s2, s1, s0] = sender_ssrc.to_be_bytes();
    let [m3, m2, m1, m0] = media_ssrc.to_be_bytes();
    [143, packet_type, l1, l0, s3, s2, s1, s0, m3, m2, m1, m0]
}

/// Appends a packet of this type and format 15 with this feedback control information.
fn write_packet(
    packet_type: u8,
    sender_ssrc: u32,
    media_ssrc: u32,
    fci: &[u8],
    out: &mut Vec<u8>,
) -> Result<(), AllocError>
    requires kind { (packet_type ≡ 205) ⊎ (packet_type ≡ 206) }
    requires whole { length fci.now % 4 ≡ 0 }
    requires short { length fci.now ≤ 262132 }
    ensures { OnOk result (Appends out.old.items out.new.items (feedback_of packet_type sender_ssrc media_ssrc fci.now)) }
{
    let words = (2 + fci.len() / 4) as u16;
    out.extend_from_slice(&packet_head(packet_type, words, sender_ssrc, media_ssrc))?;
    out.extend_from_slice(fci)?;
    Ok(())
}

/// Appends a packet of transport-wide feedback (type 205, RTPFB; RFC 4585, section 6.2) with this feedback control information, which
/// [`take_report`](crate::report::take_report) writes: whole words, at most 262,132 bytes. `media_ssrc` is the SSRC of any stream of
/// the transport. Copies the bytes once.
///
/// # Errors
///
/// Out of memory: `out` may end with a part of the packet.
pub fn write_transport_packet(
    sender_ssrc: u32,
    media_ssrc: u32,
    fci: &[u8],
    out: &mut Vec<u8>,
) -> Result<(), AllocError>
    requires whole { length fci.now % 4 ≡ 0 }
    requires short { length fci.now ≤ 262132 }
    ensures { OnOk result (Appends out.old.items out.new.items (transport_feedback sender_ssrc media_ssrc fci.now)) }
{
    write_packet(205, sender_ssrc, media_ssrc, fci, out)
}

/// Appends a packet of REMB (type 206, PSFB; RFC 4585, section 6.3): the bitrate in bits per second, rounded down to 18 binary digits,
/// for the streams with these SSRCs, 4 bytes each, at most 255. Its media SSRC is 0, as the draft says. Allocates for the control
/// information, and copies it once.
///
/// # Errors
///
/// Out of memory: `out` may end with a part of the packet.
pub fn write_remb_packet(
    alloc: Global,
    sender_ssrc: u32,
    bitrate: u64,
    ssrcs: &[u8],
    out: &mut Vec<u8>,
) -> Result<(), AllocError>
    requires whole { length ssrcs.now % 4 ≡ 0 }
    requires few { length ssrcs.now ≤ 1020 }
    ensures { OnOk result (AppendsRembPacket out.old.items out.new.items sender_ssrc bitrate ssrcs.now) }
{
    let mut fci = Vec::new(alloc);
    write_remb(bitrate, ssrcs, &mut fci)?;
    write_packet(206, sender_ssrc, 0, &fci, out)
}
