//! The packet that a retransmission repeats (RFC 4588, section 4).

ghost use Rattle.std.specs.Prelude.{◌≡◌, [], IfErr, OnOk};
ghost use Rattle.codec_payload_base.specs.Answers.{Finds};
ghost use Rattle.codec_payload_sending_history.specs.Originals.{IsRefused, WritesOriginal, numbered, original_header};
ghost use Rattle.codec_payload_rtp.specs.RtpValues.{header_of};

use codec_payload_rtp::rtp::{PacketHeader, RtpError, RtpPacket};
use thiserror::Error;

/// The stream whose packets are retransmitted.
#[derive(Clone, Copy, Debug, PartialEq, Eq)]
pub struct OriginalStream {
    /// Its SSRC.
    pub ssrc: u32,
    /// Its payload type, 0 to 127.
    pub payload_type: u8,
}

/// Why the packet that a retransmission repeats was not written.
#[derive(Clone, Copy, Debug, PartialEq, Eq, Error)]
pub enum OriginalError {
    /// The payload type of the stream is above 127.
    #[error("payload type of the stream exceeds 127")]
    PayloadType,
    /// The datagram is not an RTP packet.
    #[error("not an RTP packet")]
    Rtp(RtpError),
    /// The payload has fewer than 2 bytes, as that of a packet of padding that probes the bandwidth.
    #[error("retransmission without an original sequence number")]
    TooShort,
    /// Out of memory.
    #[error("out of memory")]
    OutOfMemory,
}

/// Returns the number in front of the payload of a retransmission, and the payload of the packet that it repeats.
#[tactic(auto, unfolding(crate::specs::Originals::numbered))]
fn numbered(payload: &[u8]) -> Option<(u16, &[u8])>
    ensures { Finds (λ x. (x.0, x.1.now)) result (numbered payload.now) }
{
    let [high, low, rest @ ..] = payload else {
        return None;
    };
    Some((u16::from_be_bytes([*high, *low]), rest))
}

impl OriginalStream {
    /// Returns the header of the packet of this stream that a retransmission with that header repeats.
    fn header<'a>(&self, header: PacketHeader<'a>, number: u16) -> PacketHeader<'a>
        ensures { header_of result ≡ original_header self.now number (header_of header.entry) }
    {
        PacketHeader {
            payload_type: self.payload_type,
            sequence_number: number,
            ssrc: self.ssrc,
            ..header
        }
    }

    /// Writes the packet that a retransmission repeats, and replaces what `out` has. It has the SSRC and the payload type of this
    /// stream, the number in front of the payload of the retransmission, and the rest of that payload, without padding. All other
    /// fields are those of the retransmission.
    ///
    /// # Errors
    ///
    /// `out` is empty. If several errors apply, it is the first in the order of [`OriginalError`].
    pub fn write(&self, retransmission: &[u8], out: &mut Vec<u8>) -> Result<(), OriginalError>
        ensures ok { OnOk result (WritesOriginal self.now retransmission.now out.new.items) }
        ensures err { IfErr result (λ fault. IsRefused self.now retransmission.now fault × (out.new.items ≡ [])) }
    {
        out.clear();
        if self.payload_type > 127 {
            return Err(OriginalError::PayloadType);
        }
        let packet = match RtpPacket::parse(retransmission) {
            Ok(packet) => packet,
            Err(fault) => return Err(OriginalError::Rtp(fault)),
        };
        let Some((number, payload)) = numbered(packet.payload) else {
            return Err(OriginalError::TooShort);
        };
        let original = RtpPacket {
            header: self.header(packet.header, number),
            payload,
            padding: 0,
        };
        match original.write(out) {
            Ok(()) => Ok(()),
            Err(_) => Err(OriginalError::OutOfMemory),
        }
    }
}
