//! What passes in the place of a datagram.

ghost use Rattle.std.specs.Prelude.{◌≡◌, ◌≤◌, ◌++◌, [], IfOk, IfSome, IsTrue, OnErr, OnOk, option_map};
ghost use Rattle.codec_payload_base.specs.Answers.{Finds};
ghost use Rattle.codec_payload_rtp.specs.RtpPackets.{FitsHeader, header_fits, packet_bytes};
ghost use Rattle.codec_payload_rtp.specs.RtpValues.{header_of, packet_of};
ghost use Rattle.codec_payload_fec_port.specs.Plain.{FitsPlain, IsPassed, Passes, again_with, block_of, kind_in, kind_of, number_and_rest, of_again, of_block, of_fec, of_red, packet_at, plain_in, plain_view, retyped, without_media};

use crate::port_settings::{FecPortSettings, again_type};
use codec_payload_rtp::rtp::{PacketHeader, RtpPacket, is_rtcp};
use std::alloc::AllocError;

/// What to pass in the place of a datagram.
#[derive(Clone, Copy, Debug, PartialEq, Eq)]
pub enum Passed {
    /// The datagram itself.
    AsItIs,
    /// The packet that was written.
    Instead,
}

impl Passed {
    /// Returns the bytes to pass: the datagram, or the packet that was written.
    pub fn bytes<'a>(self, datagram: &'a [u8], written: &'a [u8]) -> &'a [u8]
        ensures { IsPassed datagram.now written.now self result.now }
    {
        match self {
            Passed::AsItIs => datagram,
            Passed::Instead => written,
        }
    }
}

/// What a packet is for the receiver of its stream.
#[derive(Clone, Copy, Debug, PartialEq, Eq)]
pub(crate) enum Kind {
    /// Neither: a packet of RED with several blocks, or without one.
    Neither,
    Media,
    Fec,
}

/// A packet in the place of another one.
#[derive(Clone, Copy, Debug, PartialEq, Eq)]
pub(crate) enum Plain<'a> {
    /// The packet stays.
    Same,
    /// Another packet.
    Packet(RtpPacket<'a>),
    /// A retransmission: its header, the original number, and the original payload.
    Again(PacketHeader<'a>, &'a [u8], &'a [u8]),
}

/// Returns the packet of RTP that a datagram is. RTCP is none.
pub(crate) fn packet_at(datagram: &[u8]) -> Option<RtpPacket<'_>>
    ensures value { option_map packet_of result ≡ packet_at datagram.now }
    ensures fits { IfSome result (λ p. FitsHeader (header_of p.header)) }
{
    if is_rtcp(datagram) {
        return None;
    }
    match RtpPacket::parse(datagram) {
        Ok(packet) => Some(packet),
        Err(_) => None,
    }
}

/// Returns the payload type of the only block of RED, and its contents. `None`: there are several blocks, or it is in RED itself.
fn block_of<'a>(settings: &FecPortSettings, payload: &'a [u8]) -> Option<(u8, &'a [u8])>
    ensures value { Finds (λ x. (x.0, x.1.now)) result (block_of settings.now payload.now) }
    ensures low { IfSome result (λ x. x.0 ≤ 127) }
{
    let Some((kind, contents)) = payload.split_first() else {
        return None;
    };
    if *kind > 127 || *kind == settings.red_type {
        return None;
    }
    Some((*kind, contents))
}

/// Returns the header with another payload type.
fn retyped<'a>(payload_type: u8, header: PacketHeader<'a>) -> PacketHeader<'a>
    requires low { payload_type ≤ 127 }
    requires fits { IsTrue (header_fits (header_of header)) }
    ensures value { header_of result ≡ retyped payload_type (header_of header.entry) }
    ensures fits { IsTrue (header_fits (header_of result)) }
{
    PacketHeader {
        payload_type,
        ..header
    }
}

/// Returns a packet of padding alone with this header, and with the payload type of FEC.
fn without_media<'a>(settings: &FecPortSettings, header: PacketHeader<'a>) -> RtpPacket<'a>
    requires low { settings.now.fec_type ≤ 127 }
    requires fits { IsTrue (header_fits (header_of header)) }
    ensures value { packet_of result ≡ without_media settings.now (header_of header.entry) }
    ensures fits { IsTrue (header_fits (header_of result.header)) }
{
    RtpPacket {
        header: retyped(settings.fec_type, header),
        payload: &[],
        padding: 1,
    }
}

/// Returns the packet that a block of RED carries.
fn of_block<'a>(
    settings: &FecPortSettings,
    header: PacketHeader<'a>,
    kind: u8,
    contents: &'a [u8],
) -> RtpPacket<'a>
    requires low { kind ≤ 127 }
    requires fits { IsTrue (header_fits (header_of header)) }
    ensures value { packet_of result ≡ of_block settings.now (header_of header.entry) (kind, contents.now) }
    ensures fits { IsTrue (header_fits (header_of result.header)) }
{
    if kind == settings.fec_type {
        return without_media(settings, header);
    }
    RtpPacket {
        header: retyped(kind, header),
        payload: contents,
        padding: 0,
    }
}

/// Returns what passes in the place of a packet of RED.
fn of_red<'a>(settings: &FecPortSettings, packet: RtpPacket<'a>) -> Plain<'a>
    requires { IsTrue (header_fits (header_of packet.header)) }
    ensures value { plain_view result ≡ of_red settings.now (packet_of packet.entry) }
    ensures fits { FitsPlain result }
{
    match block_of(settings, packet.payload) {
        None => Plain::Same,
        Some((kind, contents)) => {
            Plain::Packet(of_block(settings, packet.header, kind, contents))
        }
    }
}

/// Returns what passes in the place of a packet of FEC without RED.
fn of_fec<'a>(settings: &FecPortSettings, packet: RtpPacket<'a>) -> Plain<'a>
    requires low { settings.now.fec_type ≤ 127 }
    requires fits { IsTrue (header_fits (header_of packet.header)) }
    ensures value { plain_view result ≡ of_fec settings.now (packet_of packet.entry) }
    ensures fits { FitsPlain result }
{
    if packet.payload.is_empty() {
        return Plain::Same;
    }
    Plain::Packet(without_media(settings, packet.header))
}

/// Returns the number in front of the payload of a retransmission, and the rest.
fn number_and_rest(payload: &[u8]) -> Option<(&[u8], &[u8])>
    ensures { Finds (λ x. (x.0.now, x.1.now)) result (number_and_rest payload.now) }
{
    if payload.len() < 2 {
        return None;
    }
    Some(payload.split_at(2))
}

/// Returns what passes in the place of a retransmission of a packet of RED.
fn of_again<'a>(settings: &FecPortSettings, packet: RtpPacket<'a>) -> Plain<'a>
    requires { IsTrue (header_fits (header_of packet.header)) }
    ensures value { plain_view result ≡ of_again settings.now (packet_of packet.entry) }
    ensures fits { FitsPlain result }
{
    let Some((number, rest)) = number_and_rest(packet.payload) else {
        return Plain::Same;
    };
    let Some((kind, contents)) = block_of(settings, rest) else {
        return Plain::Same;
    };
    match again_type(&settings.retransmissions, kind) {
        Some(payload_type) if payload_type < 128 => {
            Plain::Again(retyped(payload_type, packet.header), number, contents)
        }
        _ => Plain::Same,
    }
}

/// Returns what passes in the place of a packet. Does not allocate.
pub(crate) fn plain_in<'a>(settings: &FecPortSettings, packet: RtpPacket<'a>) -> Plain<'a>
    requires { FitsHeader (header_of packet.header) }
    ensures value { plain_view result ≡ plain_in settings.now (packet_of packet.entry) }
    ensures fits { FitsPlain result }
{
    let payload_type = packet.header.payload_type;
    if payload_type == settings.red_type {
        return of_red(settings, packet);
    }
    if payload_type == settings.fec_type {
        return of_fec(settings, packet);
    }
    if settings.is_red_again(payload_type) {
        return of_again(settings, packet);
    }
    Plain::Same
}

/// Returns what a packet of RED is for the receiver of its stream.
fn kind_in(settings: &FecPortSettings, payload: &[u8]) -> Kind
    ensures { result ≡ kind_in settings.now payload.now }
{
    match block_of(settings, payload) {
        None => Kind::Neither,
        Some((kind, _)) if kind == settings.fec_type => Kind::Fec,
        Some(_) => Kind::Media,
    }
}

/// Returns what a packet is for the receiver of its stream.
pub(crate) fn kind_of(settings: &FecPortSettings, packet: &RtpPacket<'_>) -> Kind
    ensures { result ≡ kind_of settings.now (packet_of packet.now) }
{
    let payload_type = packet.header.payload_type;
    if payload_type == settings.red_type {
        return kind_in(settings, packet.payload);
    }
    if payload_type == settings.fec_type {
        return Kind::Fec;
    }
    Kind::Media
}

/// Appends the original number and the original payload.
fn append_both(number: &[u8], payload: &[u8], out: &mut Vec<u8>) -> Result<(), AllocError>
    ensures { OnOk result (out.new.items ≡ out.old.items ++ (number.now ++ payload.now)) }
{
    out.extend_from_slice(number)?;
    out.extend_from_slice(payload)
}

/// Appends a retransmission.
fn append_again(
    header: &PacketHeader<'_>,
    number: &[u8],
    payload: &[u8],
    out: &mut Vec<u8>,
) -> Result<(), AllocError>
    requires { IsTrue (header_fits (header_of header.now)) }
    ensures { OnOk result (out.new.items ≡ out.old.items ++ packet_bytes (again_with (header_of header.now) number.now payload.now)) }
{
    header.write(out)?;
    append_both(number, payload, out)?;
    Ok(())
}

/// Writes a retransmission, and replaces what `out` has.
fn write_again(
    header: &PacketHeader<'_>,
    number: &[u8],
    payload: &[u8],
    out: &mut Vec<u8>,
) -> Result<(), AllocError>
    requires { IsTrue (header_fits (header_of header.now)) }
    ensures ok { OnOk result (out.new.items ≡ packet_bytes (again_with (header_of header.now) number.now payload.now)) }
    ensures err { OnErr result (out.new.items ≡ []) }
{
    out.clear();
    let answer = append_again(header, number, payload, out);
    if answer.is_err() {
        out.clear();
    }
    answer
}

/// Writes a packet, and replaces what `out` has.
fn write_packet(packet: &RtpPacket<'_>, out: &mut Vec<u8>) -> Result<(), AllocError>
    requires { IsTrue (header_fits (header_of packet.now.header)) }
    ensures ok { OnOk result (out.new.items ≡ packet_bytes (packet_of packet.now)) }
    ensures err { OnErr result (out.new.items ≡ []) }
{
    out.clear();
    packet.write(out)
}

/// Writes what passes in the place of a packet, and replaces what `out` has. `AsItIs`: the packet passes as it is, and `out` is empty.
pub(crate) fn write_plain(
    settings: &FecPortSettings,
    packet: RtpPacket<'_>,
    out: &mut Vec<u8>,
) -> Result<Passed, AllocError>
    requires { FitsHeader (header_of packet.header) }
    ensures ok { IfOk result (λ p. Passes (plain_in settings.now (packet_of packet.entry)) p out.new.items) }
    ensures err { OnErr result (out.new.items ≡ []) }
{
    match plain_in(settings, packet) {
        Plain::Same => {
            out.clear();
            Ok(Passed::AsItIs)
        }
        Plain::Packet(packet) => {
            write_packet(&packet, out)?;
            Ok(Passed::Instead)
        }
        Plain::Again(header, number, payload) => {
            write_again(&header, number, payload, out)?;
            Ok(Passed::Instead)
        }
    }
}
