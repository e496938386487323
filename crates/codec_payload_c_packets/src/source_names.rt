//! Canonical names of sources, read from a compound RTCP packet.

ghost use Rattle.std.specs.Prelude.{◌≡◌};
ghost use Rattle.codec_payload_base.specs.Answers.{Finds, seen};
ghost use Rattle.codec_payload_rtcp.specs.RtcpReading.{packets_left};
ghost use Rattle.codec_payload_rtcp.specs.RtcpValues.{packet_of};
ghost use Rattle.codec_payload_rtcp.specs.SdesReading.{chunks_left};
ghost use Rattle.codec_payload_rtcp.specs.SdesValues.{chunk_of};
ghost use Rattle.codec_payload_c_packets.specs.SourceNames.{first_name, name_among, name_in, name_of, name_with};

use crate::history::{rtcp_status, rule_of};
use codec_payload_handle::status;
use codec_payload_rtcp::compound::{Packets, read_compound};
use codec_payload_rtcp::packet::RtcpPacket;
use codec_payload_rtcp::sdes::{SdesChunk, SdesChunks};

/// Returns the name that a chunk gives this source.
fn name_of<'a>(chunk: &SdesChunk<'a>, ssrc: u32) -> Option<&'a [u8]>
    ensures { Finds (λ t. t.now) result (name_of ssrc (chunk_of chunk.now)) }
{
    if chunk.ssrc == ssrc {
        chunk.cname()
    } else {
        None
    }
}

/// Returns the first name that chunks give this source.
fn name_among<'a>(chunks: SdesChunks<'a>, ssrc: u32) -> Option<&'a [u8]>
    ensures { Finds (λ t. t.now) result (name_among ssrc (chunks_left chunks.entry)) }
{
    for chunk in chunks {
        if let Some(name) = name_of(&chunk, ssrc) {
            return Some(name);
        }
    }
    None
}

/// Returns the first name that a packet gives this source.
fn name_in<'a>(packet: &RtcpPacket<'a>, ssrc: u32) -> Option<&'a [u8]>
    ensures { Finds (λ t. t.now) result (name_in ssrc (packet_of packet.now)) }
{
    match packet {
        RtcpPacket::SourceDescription(description) => name_among(description.chunks(), ssrc),
        _ => None,
    }
}

/// Returns the first name that packets give this source.
fn first_name<'a>(packets: Packets<'a>, ssrc: u32) -> Option<&'a [u8]>
    ensures { Finds (λ t. t.now) result (first_name ssrc (packets_left packets.entry)) }
{
    for packet in packets {
        if let Some(name) = name_in(&packet, ssrc) {
            return Some(name);
        }
    }
    None
}

/// Returns the name of this source in a compound packet, or the status that refuses it.
pub fn name_with(rtcp: &[u8], full: bool, ssrc: u32) -> Result<&[u8], u32>
    ensures { seen (λ t. t.now) result ≡ name_with full ssrc rtcp.now }
{
    match read_compound(rule_of(full), rtcp) {
        Ok(packets) => match first_name(packets, ssrc) {
            Some(name) => Ok(name),
            None => Err(status::NONE),
        },
        Err(fault) => Err(rtcp_status(fault)),
    }
}
