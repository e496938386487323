//! A sink that puts packets in RED (RFC 2198) and forwards them to another sink.

ghost use Rattle.std.specs.Prelude.{◌≡◌, ◌∷◌, ◌++◌, ◌+◌, ◌%◌, ◌^◌, ◌<◌, ◌⊎◌, [], length, OnOk, IfErr, refl};
ghost use Rattle.std.proofs.Common.{◌∙◌};
ghost use Rattle.codec_payload_payloader.specs.Packets.{Packet, packet_of};
ghost use Rattle.codec_payload_payloader.specs.RedPackets.{stream_of, sender_of, budget_of, handed_on, SameLoans, Remembers, FindsNoMemory, HasPrimary};

use crate::sink::{OutgoingPacket, PacketSink};
use codec_payload_base::error::PacketError;
use codec_payload_base::wire::SeqNo;
use codec_payload_red::red::RedSender;

/// Forwards packets to another sink in RED. The RED sender wraps each payload, and the packet gets the payload type of the RED
/// sender. All other fields of the packet are unchanged.
///
/// **If a payload has `budget` bytes or more, the sink forwards the payload unchanged, but under the payload type of RED.** A
/// receiver may read such a payload as RED. So packetize with an MTU of `budget - 1`, the `mtu` of
/// [`Payloader::push_sample`](crate::payloader::Payloader::push_sample). Then each payload fits after its RED header of one byte.
/// See [`RedSender::wrap`].
///
/// If the RED sender runs out of memory, both sinks and the RED sender are unchanged. If the other sink refuses the packet, the
/// RED sender has already stored the payload as if the packet had been sent.
#[derive(Drop)]
pub struct RedSink<'a, S> {
    stream: &'a mut S,
    red: &'a mut RedSender,
    budget: usize,
}

impl<'a, S: PacketSink> RedSink<'a, S> {
    /// Returns a sink that wraps payloads by `red`, with a budget in bytes, and forwards packets to `stream`.
    pub fn new(stream: &'a mut S, red: &'a mut RedSender, budget: usize) -> Self
        ensures stream { stream_of result ≡ stream.old }
        ensures red { sender_of result ≡ red.old }
        ensures budget { budget_of result ≡ budget }

        // The sink borrows the RED sender and the other sink.
        ensures stream_loan { result.stream.ghost_name ≡ stream.entry.ghost_name }
        ensures red_loan { result.red.ghost_name ≡ red.entry.ghost_name }
    {
        RedSink {
            stream,
            red,
            budget,
        }
    }
}

impl<'a, S: PacketSink> PacketSink for RedSink<'a, S> {
    ghost sent = { λ sink. S.sent (stream_of sink) };

    ghost next = { λ sink. S.next (stream_of sink) };

    ghost accepts = { λ before packet image after. S.accepts (stream_of before) (handed_on before packet) image (stream_of after) × Remembers before packet after };

    ghost refuses = { λ before packet fault after. FindsNoMemory before fault after
        ⊎ (S.refuses (stream_of before) (handed_on before packet) fault (stream_of after) × Remembers before packet after) };

    ghost keeps = { λ before after. SameLoans before after × S.keeps (stream_of before) (stream_of after) };

    ghost keeps_same = { λ x. ((refl, refl, refl), S.keeps_same (stream_of x)) };

    ghost keeps_on = { λ x y z p q. ((q.0.0 ∙ p.0.0, q.0.1 ∙ p.0.1, q.0.2 ∙ p.0.2), S.keeps_on (stream_of x) (stream_of y) (stream_of z) p.1 q.1) };

    fn next_seq_no(&mut self) -> SeqNo {
        self.stream.next_seq_no()
    }

    fn last_packet(&self) -> Option<&[u8]> {
        self.stream.last_packet()
    }

    /// Wraps the payload and forwards the packet. The payload is copied once.
    fn send(&mut self, packet: OutgoingPacket) -> Result<(), PacketError>
        ensures ok { let sink = ⟦<RedSink<'a, S> as PacketSink>⟧ in
            OnOk result ((image : Packet) × sink.accepts self.old (packet_of packet) image self.new
            × (sink.sent self.new ≡ sink.sent self.old ++ image ∷ []) × (sink.next self.new ≡ (sink.next self.old + 1) % 2 ^ 64)) }
        ensures err { let sink = ⟦<RedSink<'a, S> as PacketSink>⟧ in
            IfErr result (λ fault. sink.refuses self.old (packet_of packet) fault self.new
            × (sink.sent self.new ≡ sink.sent self.old) × (sink.next self.new ≡ sink.next self.old)) }
        ensures kept { ⟦<RedSink<'a, S> as PacketSink>⟧.keeps self.old self.new }
        // The payload is the primary block of the forwarded payload.
        ensures primary { OnOk result (length packet.payload.items < budget_of self.old
            → HasPrimary (handed_on self.old (packet_of packet)).payload packet.payload.items) }
    {
        let payload = self.red.wrap(packet.payload, packet.rtp_time, self.budget)?;
        self.stream.send(OutgoingPacket {
            pt: self.red.red_pt(),
            payload,
            ..packet
        })
    }
}
