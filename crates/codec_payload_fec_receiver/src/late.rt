//! Elements of header extensions that a sender fills in late.

ghost use Rattle.std.specs.Prelude.{◌≡◌, ◌++◌, ◌+◌, length, IfOk, IsTrue, OnOk, Option};
ghost use Rattle.codec_payload_rtp.specs.RtpPackets.{FitsHeader, header_fits, packet_bytes};
ghost use Rattle.codec_payload_rtp.specs.RtpValues.{extension_of, header_of, packet_of};
ghost use Rattle.codec_payload_fec_receiver.specs.Late.{is_id, front_of, plain_bytes, zeroed, zeroed_extension, zeroed_value, zeros_from};

use codec_payload_rtp::elements::{ElementForm, front_element};
use codec_payload_rtp::rtp::{HeaderExtension, PacketHeader, RtpPacket};
use std::alloc::{AllocError, Global};

/// The ids of header extensions (RFC 8285) that a sender fills in after it has made the FEC, as signalling gave them. FEC protects zeros
/// there. `None`: not agreed on.
#[derive(Clone, Copy, Debug, Default, PartialEq, Eq)]
pub struct LateIds {
    /// The transport-wide sequence number.
    pub transport_number: Option<u8>,
    /// abs-send-time.
    pub abs_send_time: Option<u8>,
    /// toffset: the transmission time offset (RFC 5450).
    pub transmission_offset: Option<u8>,
    /// video-timing. Its bytes from the eighth on are filled in late.
    pub video_timing: Option<u8>,
}

/// Returns whether this is the known id.
pub fn is_id(known: Option<u8>, id: u8) -> bool
    ensures { result ≡ is_id known id }
{
    match known {
        Some(known) => known == id,
        None => false,
    }
}

impl LateIds {
    /// Returns from which byte on the element with this id is filled in late. `None`: it is not.
    pub(crate) fn zeros_from(&self, id: u8) -> Option<usize>
        ensures { result ≡ zeros_from self.now id }
    {
        if is_id(self.transport_number, id)
            || is_id(self.abs_send_time, id)
            || is_id(self.transmission_offset, id)
        {
            return Some(0);
        }
        if is_id(self.video_timing, id) {
            return Some(7);
        }
        None
    }
}

/// Appends a value, with zeros from a byte on.
fn put_value(from: Option<usize>, value: &[u8], out: &mut Vec<u8>) -> Result<(), AllocError>
    ensures { OnOk result (out.new.items ≡ out.old.items ++ zeroed_value from value.now) }
{
    let Some(from) = from else {
        return out.extend_from_slice(value);
    };
    let kept = from.min(value.len());
    out.extend_from_slice(&value[..kept])?;
    out.resize(out.len() + (value.len() - kept), 0)
}

/// Appends what is at the front: a byte of padding, or an element, with zeros if it is filled in late. If there is neither, appends all.
/// Returns the bytes after it.
#[tactic(auto, unfolding(crate::specs::Late::front_of))]
fn put_front<'a>(
    late: &LateIds,
    form: ElementForm,
    bytes: &'a [u8],
    out: &mut Vec<u8>,
) -> Result<&'a [u8], AllocError>
    ensures written { OnOk result (out.new.items ≡ out.old.items ++ (front_of late.now form bytes.now).written) }
    ensures rest { IfOk result (λ rest. rest.now ≡ (front_of late.now form bytes.now).rest) }
{
    if let [0, rest @ ..] = bytes {
        out.push(0)?;
        return Ok(rest);
    }
    let Some((element, rest)) = front_element(form, bytes) else {
        out.extend_from_slice(bytes)?;
        return Ok(&[]);
    };
    let head = bytes.len() - rest.len() - element.bytes.len();
    out.extend_from_slice(&bytes[..head])?;
    put_value(late.zeros_from(element.id), element.bytes, out)?;
    Ok(rest)
}

/// Appends the bytes of an extension, with zeros in the elements that are filled in late.
fn put_zeroed(
    late: &LateIds,
    form: ElementForm,
    bytes: &[u8],
    out: &mut Vec<u8>,
) -> Result<(), AllocError>
    ensures { OnOk result (out.new.items ≡ out.old.items ++ zeroed late.now form bytes.now) }
{
    let mut rest = bytes;
    let mut left = bytes.len();
    while left > 0 {
        left -= 1;
        if rest.is_empty() {
            return Ok(());
        }
        rest = put_front(late, form, rest, out)?;
    }
    out.extend_from_slice(rest)
}

/// Returns the bytes of an extension, with zeros in the elements that are filled in late.
#[tactic(auto, using(crate::proofs::LateLemmas::zeroed_size))]
fn zeroed_words(
    alloc: Global,
    late: &LateIds,
    extension: &HeaderExtension<'_>,
) -> Result<Vec<u8>, AllocError>
    ensures size { IfOk result (λ words. length words.items ≡ length extension.now.bytes.now) }
    ensures value { IfOk result (λ words. zeroed_extension late.now (extension_of (Option.Some extension.now)) ≡ Option.Some (record { profile = extension.now.profile; bytes = words.items })) }
{
    let Some(form) = ElementForm::of_profile(extension.profile) else {
        return Vec::from_slice(alloc, extension.bytes);
    };
    let mut words = Vec::with_capacity(alloc, extension.bytes.len())?;
    put_zeroed(late, form, extension.bytes, &mut words)?;
    Ok(words)
}

/// Returns a packet with this extension.
///
/// # Errors
///
/// Out of memory.
pub fn written(
    alloc: Global,
    packet: &RtpPacket<'_>,
    extension: Option<HeaderExtension<'_>>,
) -> Result<Vec<u8>, AllocError>
    requires { IsTrue (header_fits (record (header_of packet.now.header) { extension = extension_of extension })) }
    ensures { IfOk result (λ bytes. bytes.items ≡ packet_bytes (record (packet_of packet.now) { header = record (header_of packet.now.header) { extension = extension_of extension.entry } })) }
{
    let packet = RtpPacket {
        header: PacketHeader {
            extension,
            ..packet.header
        },
        payload: packet.payload,
        padding: packet.padding,
    };
    let mut out = Vec::new(alloc);
    packet.write(&mut out)?;
    Ok(out)
}

/// Returns the bytes of a packet as FEC protects it: with zeros in the elements that are filled in late. Padding is zeros, and its length.
///
/// # Errors
///
/// Out of memory.
pub fn plain_bytes(
    alloc: Global,
    late: &LateIds,
    packet: &RtpPacket<'_>,
) -> Result<Vec<u8>, AllocError>
    requires { FitsHeader (header_of packet.now.header) }
    ensures { IfOk result (λ bytes. bytes.items ≡ plain_bytes late.now (packet_of packet.now)) }
{
    match packet.header.extension {
        None => written(alloc, packet, None),
        Some(extension) => {
            let words = zeroed_words(alloc, late, &extension)?;
            let zeroed = HeaderExtension {
                profile: extension.profile,
                bytes: words.as_slice(),
            };
            written(alloc, packet, Some(zeroed))
        }
    }
}
