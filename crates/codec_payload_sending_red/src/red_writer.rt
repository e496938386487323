//! Puts the datagrams of one stream in RED.

ghost use Rattle.std.specs.Prelude.{◌≡◌, ◌<◌, ◌==◌, ◌⊎◌, [], Option, IfOk, IfErr, IfSome, IfNone, OnOk, OnErr, Ok, Err};
ghost use Rattle.codec_payload_rtp.specs.RtpPackets.{FitsHeader};
ghost use Rattle.codec_payload_rtp.specs.RtpValues.{header_of, packet_of};
ghost use Rattle.codec_payload_sending_red.specs.Writers.{IsFault, IsInRed, Writes, WritesPacket, refusal_of, remembering, writer_by};

use codec_payload_base::error::PacketError;
use codec_payload_base::wire::Pt;
use codec_payload_red::red::RedSender;
use codec_payload_rtp::rtp::{PacketHeader, RtpError, RtpPacket};
use std::alloc::Global;
use std::marker::Model;
use thiserror::Error;

/// Which setting of a writer is out of range.
#[derive(Clone, Copy, Debug, PartialEq, Eq, Error)]
pub enum RedWriterError {
    /// The payload type of the media is above 127.
    #[error("media payload type exceeds 127")]
    MediaType,
    /// The payload type of RED is above 127, or equals the payload type of the media.
    #[error("RED payload type exceeds 127 or equals the media payload type")]
    RedType,
    /// The distances do not rise strictly, or one is not 1 to 8.
    #[error("RED distances must rise strictly from 1 to 8")]
    Distances,
}

/// Why a datagram was not written.
#[derive(Clone, Copy, Debug, PartialEq, Eq, Error)]
pub enum RedWriteError {
    /// It is not an RTP packet.
    #[error("not an RTP packet")]
    Rtp(RtpError),
    /// There was not enough memory.
    #[error("out of memory")]
    OutOfMemory,
}

/// Puts the datagrams of one stream in RED (RFC 2198), between a `Sender` and the socket: the payload of each packet becomes the
/// primary block, after payloads of earlier packets.
///
/// Once the memory has grown to the largest packets, no call allocates.
#[derive(Debug, Drop)]
pub struct RedWriter {
    red_type: u8,
    media_type: u8,
    budget: usize,
    red: RedSender,
    payload: Vec<u8>,
}

impl Model for RedWriter {
    ghost use Rattle.std.specs.Prelude.{◌<◌};
    ghost use Rattle.codec_payload_sending_red.specs.Writers.{Writer};

    ghost Value = { Writer };

    ghost view = { λ w. record { red_type = w.red_type; media_type = w.media_type; budget = w.budget; red = w.red } };

    ghost invariant = { λ w. (w.red_type < 128) × (w.media_type < 128) };
}

impl RedWriter {
    /// Returns a writer that has written nothing. Does not allocate.
    ///
    /// `red_type` and `media_type` are the payload types of RED and of the media, 0 to 127 each, and differ. `distances` says which
    /// earlier payloads a packet repeats: 1 is the payload right before; at most 8, strictly rising. `budget` is the most bytes of a
    /// payload in RED, so packetize with an MTU of `budget - 1`.
    ///
    /// # Errors
    ///
    /// The first setting that is out of range, in the order of [`RedWriterError`].
    pub fn new(
        alloc: Global,
        red_type: u8,
        media_type: u8,
        distances: &[u32],
        budget: usize,
    ) -> Result<Self, RedWriterError>
        ensures ok { IfOk result (λ w. w ≡ writer_by red_type media_type distances.now budget) }
        ensures refused { IfSome (refusal_of red_type media_type distances.now) (λ e. result ≡ Err e) }
        ensures made { IfErr result (λ e. refusal_of red_type media_type distances.now ≡ Option.Some e) }
    {
        if media_type > 127 {
            return Err(RedWriterError::MediaType);
        }
        if red_type > 127 || red_type == media_type {
            return Err(RedWriterError::RedType);
        }
        if !RedSender::accepts(distances) {
            return Err(RedWriterError::Distances);
        }
        let red = RedSender::new(
            alloc,
            Pt::new_with_value(red_type),
            Pt::new_with_value(media_type),
            distances,
        );
        Ok(RedWriter {
            red_type,
            media_type,
            budget,
            red,
            payload: Vec::new(alloc),
        })
    }

    /// Writes a datagram of the stream in RED to `out`, whose contents it replaces.
    ///
    /// The written packet has the header of the datagram with the payload type of RED. Its payload has blocks of the payloads that
    /// were written `distances` packets before, as many as fit the budget, shallowest first, and the payload of the datagram as the
    /// primary block (RFC 2198, section 3). A block has at most 1,023 bytes and an offset of at most 16,383 ticks. Padding is not
    /// written.
    ///
    /// A payload of `budget` bytes or more is written unchanged, under the payload type of the media, and later packets may repeat
    /// it. A packet of another payload type than that of the media is written as it is.
    ///
    /// # Errors
    ///
    /// `out` is then empty. `Rtp`: the datagram is not an RTP packet; the writer is unchanged. `OutOfMemory`: later packets may
    /// repeat the payload as if it had been written.
    pub fn write(&mut self, datagram: &[u8], out: &mut Vec<u8>) -> Result<(), RedWriteError>
        ensures ok { OnOk result (Writes self.old datagram.now out.new.items self.new) }
        ensures err { OnErr result (out.new.items ≡ []) }
        ensures fault { IfErr result (λ fault. IsFault self.old datagram.now fault self.new) }
    {
        out.clear();
        let packet = match RtpPacket::parse(datagram) {
            Err(fault) => return Err(RedWriteError::Rtp(fault)),
            Ok(packet) => packet,
        };
        if self.put(&packet, datagram, out).is_err() {
            out.clear();
            return Err(RedWriteError::OutOfMemory);
        }
        Ok(())
    }

    /// Appends a packet that was read from a datagram: in RED, if it is of the media.
    fn put(
        &mut self,
        packet: &RtpPacket<'_>,
        datagram: &[u8],
        out: &mut Vec<u8>,
    ) -> Result<(), PacketError>
        requires fits { FitsHeader (header_of packet.now.header) }
        requires empty { out.old.items ≡ [] }
        ensures ok { OnOk result (WritesPacket (packet.now.header.payload_type == self.old.media_type) self.old (packet_of packet.now) datagram.now out.new.items self.new) }
        ensures err { OnErr result ((self.new ≡ self.old) ⊎ (self.new ≡ remembering self.old (packet_of packet.now))) }
    {
        if packet.header.payload_type != self.media_type {
            out.extend_from_slice(datagram)?;
            return Ok(());
        }
        self.put_in_red(packet, out)
    }

    /// Appends a packet of the media in RED.
    fn put_in_red(&mut self, packet: &RtpPacket<'_>, out: &mut Vec<u8>) -> Result<(), PacketError>
        requires fits { FitsHeader (header_of packet.now.header) }
        requires empty { out.old.items ≡ [] }
        ensures ok { OnOk result (IsInRed self.old (packet_of packet.now) out.new.items self.new) }
        ensures err { OnErr result ((self.new ≡ self.old) ⊎ (self.new ≡ remembering self.old (packet_of packet.now))) }
    {
        let time = packet.header.timestamp;
        self.red
            .wrap_into(packet.payload, time, self.budget, &mut self.payload)?;
        let payload_type = if packet.payload.len() < self.budget {
            self.red_type
        } else {
            self.media_type
        };
        let wrapped = RtpPacket {
            header: PacketHeader {
                payload_type,
                ..packet.header
            },
            payload: &self.payload,
            padding: 0,
        };
        wrapped.write(out)?;
        Ok(())
    }
}
