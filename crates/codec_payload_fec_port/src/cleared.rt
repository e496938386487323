//! Rebuilt packets for a session: without the elements of header extensions that a sender fills in late.

ghost use Rattle.std.specs.Prelude.{◌≡◌, ◌++◌, ◌+◌, length, IfOk, OnOk, Option};
ghost use Rattle.codec_payload_rtp.specs.RtpPackets.{FitsHeader, packet_bytes};
ghost use Rattle.codec_payload_rtp.specs.RtpReading.{rtp_at};
ghost use Rattle.codec_payload_rtp.specs.RtpValues.{extension_of, header_of, packet_of};
ghost use Rattle.codec_payload_fec_port.specs.Cleared.{cleared, cleared_at, cleared_element, cleared_extension, cleared_packet, front_of, is_late};

use codec_payload_fec_receiver::late::{LateIds, is_id, written};
use codec_payload_rtp::elements::{ElementForm, front_element};
use codec_payload_rtp::rtp::{HeaderExtension, RtpPacket};
use std::alloc::{AllocError, Global};

/// Returns whether the element with this id is filled in late.
fn is_late(late: &LateIds, id: u8) -> bool
    ensures { result ≡ is_late late.now id }
{
    is_id(late.transport_number, id)
        || is_id(late.abs_send_time, id)
        || is_id(late.transmission_offset, id)
        || is_id(late.video_timing, id)
}

/// Appends an element with its head, or as many bytes of padding.
fn put_element(is_late: bool, bytes: &[u8], out: &mut Vec<u8>) -> Result<(), AllocError>
    ensures { OnOk result (out.new.items ≡ out.old.items ++ cleared_element is_late bytes.now) }
{
    if is_late {
        return out.resize(out.len() + bytes.len(), 0);
    }
    out.extend_from_slice(bytes)
}

/// Appends what is at the front: a byte of padding, or an element, as padding if it is filled in late. If there is neither, appends all.
/// Returns the bytes after it.
#[tactic(auto, unfolding(crate::specs::Cleared::front_of))]
fn put_front<'a>(
    late: &LateIds,
    form: ElementForm,
    bytes: &'a [u8],
    out: &mut Vec<u8>,
) -> Result<&'a [u8], AllocError>
    ensures written { OnOk result (out.new.items ≡ out.old.items ++ (front_of late.now form bytes.now).written) }
    ensures rest { IfOk result (λ rest. rest.now ≡ (front_of late.now form bytes.now).rest) }
{
    if let [0, rest @ ..] = bytes {
        out.push(0)?;
        return Ok(rest);
    }
    let Some((element, rest)) = front_element(form, bytes) else {
        out.extend_from_slice(bytes)?;
        return Ok(&[]);
    };
    let size = bytes.len() - rest.len();
    put_element(is_late(late, element.id), &bytes[..size], out)?;
    Ok(rest)
}

/// Appends the bytes of an extension, with padding in the place of the elements that are filled in late.
fn put_cleared(
    late: &LateIds,
    form: ElementForm,
    bytes: &[u8],
    out: &mut Vec<u8>,
) -> Result<(), AllocError>
    ensures { OnOk result (out.new.items ≡ out.old.items ++ cleared late.now form bytes.now) }
{
    let mut rest = bytes;
    let mut left = bytes.len();
    while left > 0 {
        left -= 1;
        if rest.is_empty() {
            return Ok(());
        }
        rest = put_front(late, form, rest, out)?;
    }
    out.extend_from_slice(rest)
}

/// Returns the bytes of an extension, with padding in the place of the elements that are filled in late.
#[tactic(auto, using(crate::proofs::ClearedLemmas::cleared_size))]
fn cleared_words(
    alloc: Global,
    late: &LateIds,
    extension: &HeaderExtension<'_>,
) -> Result<Vec<u8>, AllocError>
    ensures size { IfOk result (λ words. length words.items ≡ length extension.now.bytes.now) }
    ensures value { IfOk result (λ words. cleared_extension late.now (extension_of (Option.Some extension.now)) ≡ Option.Some (record { profile = extension.now.profile; bytes = words.items })) }
{
    let Some(form) = ElementForm::of_profile(extension.profile) else {
        return Vec::from_slice(alloc, extension.bytes);
    };
    let mut words = Vec::with_capacity(alloc, extension.bytes.len())?;
    put_cleared(late, form, extension.bytes, &mut words)?;
    Ok(words)
}

/// Returns a packet with padding in the place of the elements that are filled in late.
fn cleared_packet(
    alloc: Global,
    late: &LateIds,
    packet: &RtpPacket<'_>,
) -> Result<Vec<u8>, AllocError>
    requires { FitsHeader (header_of packet.now.header) }
    ensures { IfOk result (λ bytes. bytes.items ≡ packet_bytes (cleared_packet late.now (packet_of packet.now))) }
{
    match packet.header.extension {
        None => written(alloc, packet, None),
        Some(extension) => {
            let words = cleared_words(alloc, late, &extension)?;
            let cleared = HeaderExtension {
                profile: extension.profile,
                bytes: words.as_slice(),
            };
            written(alloc, packet, Some(cleared))
        }
    }
}

/// Returns a rebuilt packet with padding in the place of the elements that are filled in late. Bytes that are not an RTP packet stay.
///
/// # Errors
///
/// Out of memory.
pub(crate) fn cleared_at(alloc: Global, late: &LateIds, bytes: &[u8]) -> Result<Vec<u8>, AllocError>
    ensures { IfOk result (λ made. made.items ≡ cleared_at late.now bytes.now (rtp_at bytes.now)) }
{
    match RtpPacket::parse(bytes) {
        Ok(packet) => cleared_packet(alloc, late, &packet),
        Err(_) => Vec::from_slice(alloc, bytes),
    }
}
