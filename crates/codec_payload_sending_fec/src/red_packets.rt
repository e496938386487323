//! Packets of a stream with FEC, as they are written.

ghost use Rattle.std.specs.Prelude.{◌≡◌, ◌<◌, ◌++◌, ◌∷◌, IsTrue, OnErr, OnOk, length, take};
ghost use Rattle.codec_payload_rtp.specs.RtpPackets.{FitsHeader, header_fits, packet_bytes};
ghost use Rattle.codec_payload_rtp.specs.RtpValues.{header_of, packet_of};
ghost use Rattle.codec_payload_sending_fec.specs.Senders.{in_red, sent_packet};

use codec_payload_rtp::rtp::{PacketHeader, RtpPacket};
use std::alloc::AllocError;

/// Appends a packet of RED with one block.
pub(crate) fn write_red(
    header: &PacketHeader<'_>,
    kind: u8,
    contents: &[u8],
    out: &mut Vec<u8>,
) -> Result<(), AllocError>
    requires { IsTrue (header_fits (header_of header.now)) }
    ensures { OnOk result (out.new.items ≡ out.old.items ++ packet_bytes (record { header = header_of header.now; payload = kind ∷ contents.now; padding = 0 })) }
{
    header.write(out)?;
    out.push(kind)?;
    out.extend_from_slice(contents)
}

/// Writes a packet of the media: in RED, or, if it has no payload, as it is.
pub(crate) fn write_media(
    red_type: u8,
    packet: &RtpPacket<'_>,
    out: &mut Vec<u8>,
) -> Result<(), AllocError>
    requires red { red_type < 128 }
    requires fits { FitsHeader (header_of packet.now.header) }
    ensures { OnOk result (out.new.items ≡ out.old.items ++ packet_bytes (sent_packet red_type (packet_of packet.now))) }
{
    if packet.payload.is_empty() {
        return packet.write(out);
    }
    let header = PacketHeader {
        payload_type: red_type,
        ..packet.header
    };
    write_red(&header, packet.header.payload_type, packet.payload, out)
}
