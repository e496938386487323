//! Transport-wide numbers in the header extensions of datagrams.

ghost use Rattle.std.specs.Prelude.{◌≡◌, ◌++◌, [], map, IfErr, IfOk, OnErr, OnOk, Some};
ghost use Rattle.codec_payload_rtp.specs.Elements.{element_of, elements_left};
ghost use Rattle.codec_payload_rtp.specs.ExtensionFormats.{elements_of};
ghost use Rattle.codec_payload_rtp.specs.RtpValues.{extension_of, header_of, packet_of};
ghost use Rattle.codec_payload_feedback_transport.specs.Numbering.{AppendsNumbered, AppendsPacket, HasNoElements, HasNoRoom, IsExtension, IsTooLong, IsUnnumbered, with_extension, with_last, without};

use codec_payload_rtp::elements::{Element, ElementForm, Elements, all_fit, write_elements};
use codec_payload_rtp::rtp::{HeaderExtension, PacketHeader, RtpError, RtpPacket};
use std::alloc::{AllocError, Global};
use thiserror::Error;

/// Why a datagram got no number.
#[derive(Clone, Copy, Debug, PartialEq, Eq, Error)]
pub enum NumberingError {
    /// It is not an RTP packet.
    #[error("{0}")]
    Rtp(RtpError),
    /// Its header extension has another profile than those of RFC 8285, and so no elements.
    #[error("header extension has no elements")]
    OtherProfile,
    /// Its header extension has no room for the number.
    #[error("header extension has no room for the number")]
    NoRoom,
    /// Memory ran out.
    #[error("out of memory")]
    OutOfMemory,
}

/// Appends the elements with other ids.
fn push_others<'a>(
    id: u8,
    elements: Elements<'a>,
    others: &mut Vec<Element<'a>>,
) -> Result<(), AllocError>
    ensures { OnOk result (map element_of others.new.items ≡ map element_of others.old.items ++ without id (elements_left elements.entry)) }
{
    for element in elements {
        if element.id != id {
            others.push(element)?;
        }
    }
    Ok(())
}

/// Returns the elements of an extension with other ids.
fn other_elements<'a>(
    alloc: Global,
    id: u8,
    extension: &Option<HeaderExtension<'a>>,
) -> Result<Vec<Element<'a>>, NumberingError>
    ensures ok { IfOk result (λ others. map element_of others.items ≡ without id (elements_of (extension_of extension.now))) }
    ensures err { IfErr result (HasNoElements (extension_of extension.now)) }
{
    let mut others = Vec::new(alloc);
    let Some(extension) = extension else {
        return Ok(others);
    };
    let Some(elements) = extension.elements() else {
        return Err(NumberingError::OtherProfile);
    };
    match push_others(id, elements, &mut others) {
        Ok(()) => Ok(others),
        Err(_) => Err(NumberingError::OutOfMemory),
    }
}

/// Writes the elements of an extension with other ids, and then this element, into `bytes`, which is empty. Returns the profile.
fn write_extension<'a>(
    alloc: Global,
    last: Element<'a>,
    extension: &Option<HeaderExtension<'a>>,
    bytes: &mut Vec<u8>,
) -> Result<u16, NumberingError>
    requires { bytes.old.items ≡ [] }
    ensures ok { IfOk result (λ profile. IsExtension (record { profile = profile; bytes = bytes.new.items }) (with_last (element_of last.entry) (elements_of (extension_of extension.now)))) }
    ensures err { IfErr result (HasNoRoom (element_of last.entry) (extension_of extension.now)) }
{
    let mut elements = other_elements(alloc, last.id, extension)?;
    let Ok(()) = elements.push(last) else {
        return Err(NumberingError::OutOfMemory);
    };
    if !all_fit(ElementForm::TwoByte, &elements) {
        return Err(NumberingError::NoRoom);
    }
    match write_elements(&elements, bytes) {
        Ok(form) => Ok(form.profile()),
        Err(_) => Err(NumberingError::OutOfMemory),
    }
}

/// Appends a packet with another extension.
fn write_packet(
    packet: &RtpPacket<'_>,
    extension: HeaderExtension<'_>,
    out: &mut Vec<u8>,
) -> Result<(), NumberingError>
    ensures ok { OnOk result (AppendsPacket (with_extension (extension_of (Some extension.entry)) (packet_of packet.now)) out.old.items out.new.items) }
    ensures err { OnErr result (out.new.items ≡ out.old.items) }
    ensures fault { IfErr result (IsTooLong (extension_of (Some extension.entry)) (header_of packet.now.header)) }
{
    let header = PacketHeader {
        marker: packet.header.marker,
        payload_type: packet.header.payload_type,
        sequence_number: packet.header.sequence_number,
        timestamp: packet.header.timestamp,
        ssrc: packet.header.ssrc,
        csrcs: packet.header.csrcs,
        extension: Some(extension),
    };
    if !header.fits() {
        return Err(NumberingError::NoRoom);
    }
    let numbered = RtpPacket {
        header,
        payload: packet.payload,
        padding: packet.padding,
    };
    match numbered.write(out) {
        Ok(()) => Ok(()),
        Err(_) => Err(NumberingError::OutOfMemory),
    }
}

/// Appends a datagram with this transport-wide number in its header extension, under this id, 1 to 255. Elements with other ids stay, in
/// their order, and the number is the last one; an element with the same id is replaced. The one-byte form is used if it has room for
/// all elements (RFC 8285). All else of the packet stays; the padding becomes zeros. Copies the datagram once, and allocates for the
/// elements.
///
/// # Errors
///
/// `Rtp`: not an RTP packet. `OtherProfile`: its extension has no elements. `NoRoom`: its extension would be longer than 65,535 words of
/// four bytes, or the id is 0. `OutOfMemory`. In each case `out` is unchanged.
pub fn write_numbered(
    alloc: Global,
    id: u8,
    number: u16,
    datagram: &[u8],
    out: &mut Vec<u8>,
) -> Result<(), NumberingError>
    ensures ok { OnOk result (AppendsNumbered id number datagram.now out.old.items out.new.items) }
    ensures err { OnErr result (out.new.items ≡ out.old.items) }
    ensures fault { IfErr result (IsUnnumbered id number datagram.now) }
{
    let value = number.to_be_bytes();
    let packet = match RtpPacket::parse(datagram) {
        Ok(packet) => packet,
        Err(fault) => return Err(NumberingError::Rtp(fault)),
    };
    let mut bytes = Vec::new(alloc);
    let last = Element { id, bytes: &value };
    let profile = write_extension(alloc, last, &packet.header.extension, &mut bytes)?;
    let extension = HeaderExtension {
        profile,
        bytes: &bytes,
    };
    write_packet(&packet, extension, out)
}
