//! How a receiver takes the datagrams of its stream.

ghost use Rattle.std.specs.Prelude.{◌≡◌, ◌==◌, not, false};
ghost use Rattle.codec_payload_codec.specs.Depacketizers.{is_built_in_depacketizer};
ghost use Rattle.codec_payload_jitter.specs.OwnReceiving.{OwnStores};
ghost use Rattle.codec_payload_rtp.specs.RtpValues.{packet_of};
ghost use Rattle.codec_payload_datagrams.specs.Kinds.{Malformed, RtcpPacket, WithMedia, datagram_at, datagram_of, kind_for};
ghost use Rattle.codec_payload_receiver.specs.Noting.{restart_if};
ghost use Rattle.codec_payload_receiver.specs.Sessions.{Heard, is_suspect};
ghost use Rattle.codec_payload_datagrams.specs.declared.kinds.Malformation.TheVariants as malformations;

use super::{ReceiveError, Receiver, with_datagram};
use crate::answers::answer_for;
use crate::datagram::{Found, observe, observe_media, ssrc_after};
use crate::notes::{prepare_note, settle_note};
use codec_payload_base::wire::Ticks;
use codec_payload_codec::codec::Depacketizer;
use codec_payload_datagrams::kinds::{Datagram, Malformation};
use codec_payload_datagrams::parsed::ParsedDatagram;
use codec_payload_jitter::jitter::Outcome;
use codec_payload_rtp::rtp::{RtpError, RtpPacket};

impl<B: Depacketizer> Receiver<B> {
    /// Does the same as [`Receiver::hear`] for callers that are rare.
    #[inline(never)]
    pub(super) fn hear_rarely(
        &mut self,
        now: Ticks,
        datagram: &ParsedDatagram<'_>,
    ) -> Result<Outcome, ReceiveError>
        ensures heard { Heard now (datagram_at self.old.stream self.old.ssrc datagram.now) self.old result self.new }
        ensures own { is_built_in_depacketizer self.old.packets.buffer.depacketizer ≡ false → OwnStores B.is_head B.is_tail self.old.packets.buffer self.new.packets.buffer }
    {
        self.hear(now, datagram)
    }

    /// Receives a datagram, by the SSRC of the stream. A packet with media is stored without a [`Datagram`], which is large.
    #[inline(always)]
    pub(super) fn hear(
        &mut self,
        now: Ticks,
        datagram: &ParsedDatagram<'_>,
    ) -> Result<Outcome, ReceiveError>
        ensures heard { Heard now (datagram_at self.old.stream self.old.ssrc datagram.now) self.old result self.new }
        ensures own { is_built_in_depacketizer self.old.packets.buffer.depacketizer ≡ false → OwnStores B.is_head B.is_tail self.old.packets.buffer self.new.packets.buffer }
    {
        if datagram.is_rtcp() {
            return self.hear_rtcp(now);
        }
        match datagram.packet() {
            Ok(packet) => {
                if self.stream.is_media(self.ssrc, packet) {
                    self.hear_media(now, packet)
                } else {
                    self.hear_packet(now, packet)
                }
            }
            Err(fault) => self.hear_malformed(now, *fault),
        }
    }

    /// Receives an RTCP packet.
    #[inline(never)]
    fn hear_rtcp(&mut self, now: Ticks) -> Result<Outcome, ReceiveError>
        ensures heard { Heard now RtcpPacket self.old result self.new }
        ensures own { is_built_in_depacketizer self.old.packets.buffer.depacketizer ≡ false → OwnStores B.is_head B.is_tail self.old.packets.buffer self.new.packets.buffer }
    {
        self.hear_datagram(now, &Datagram::Rtcp)
    }

    /// Receives a datagram that is no RTP packet.
    #[inline(never)]
    fn hear_malformed(&mut self, now: Ticks, fault: RtpError) -> Result<Outcome, ReceiveError>
        ensures heard { Heard now (Malformed (malformations.Rtp fault)) self.old result self.new }
        ensures own { is_built_in_depacketizer self.old.packets.buffer.depacketizer ≡ false → OwnStores B.is_head B.is_tail self.old.packets.buffer self.new.packets.buffer }
    {
        self.hear_datagram(now, &Datagram::Malformed(Malformation::Rtp(fault)))
    }

    /// Receives an RTP packet with media of the stream. Where units may name those that they refer to, it goes the way of the other
    /// datagrams.
    #[inline(always)]
    fn hear_media(&mut self, now: Ticks, packet: &RtpPacket<'_>) -> Result<Outcome, ReceiveError>
        ensures heard { Heard now (WithMedia (packet_of packet.now)) self.old result self.new }
        ensures own { is_built_in_depacketizer self.old.packets.buffer.depacketizer ≡ false → OwnStores B.is_head B.is_tail self.old.packets.buffer self.new.packets.buffer }
    {
        if self.notes.is_some() {
            return self.hear_noted(now, packet);
        }
        let restarts = self.packets.counters().restarts;
        let Ok(outcome) = self
            .stream
            .take_media(&mut self.packets, &mut self.seen, now, packet)
        else {
            return Err(ReceiveError::OutOfMemory);
        };
        self.ssrc = Some(packet.header.ssrc);
        self.arrived.received = self.arrived.received.wrapping_add(1);
        let found = found_by(outcome, restarts, self.packets.counters().restarts);
        observe_media(&mut self.statistics, now, packet, found);
        self.choice.note_at(now);
        Ok(outcome)
    }

    /// Receives an RTP packet with media of the stream, as one of the datagrams. The large value is made out of the way of others.
    #[inline(never)]
    fn hear_noted(&mut self, now: Ticks, packet: &RtpPacket<'_>) -> Result<Outcome, ReceiveError>
        ensures heard { Heard now (WithMedia (packet_of packet.now)) self.old result self.new }
        ensures own { is_built_in_depacketizer self.old.packets.buffer.depacketizer ≡ false → OwnStores B.is_head B.is_tail self.old.packets.buffer self.new.packets.buffer }
    {
        self.hear_datagram(now, &Datagram::Media(*packet))
    }

    /// Receives an RTP packet of any kind.
    #[inline(never)]
    fn hear_packet(&mut self, now: Ticks, packet: &RtpPacket<'_>) -> Result<Outcome, ReceiveError>
        ensures heard { Heard now (kind_for self.old.stream self.old.ssrc (packet_of packet.now)) self.old result self.new }
        ensures own { is_built_in_depacketizer self.old.packets.buffer.depacketizer ≡ false → OwnStores B.is_head B.is_tail self.old.packets.buffer self.new.packets.buffer }
    {
        match self.stream.kind_of(self.ssrc, *packet) {
            Ok(datagram) => self.hear_datagram(now, &datagram),
            Err(_) => Err(ReceiveError::OutOfMemory),
        }
    }

    /// Receives a datagram that was sorted.
    #[inline(never)]
    fn hear_datagram(
        &mut self,
        now: Ticks,
        datagram: &Datagram<'_>,
    ) -> Result<Outcome, ReceiveError>
        ensures heard { Heard now (datagram_of datagram.now) self.old result self.new }
        ensures own { is_built_in_depacketizer self.old.packets.buffer.depacketizer ≡ false → OwnStores B.is_head B.is_tail self.old.packets.buffer self.new.packets.buffer }
    {
        let Ok(note) = prepare_note(&mut self.notes, &self.stream, datagram) else {
            return Err(ReceiveError::OutOfMemory);
        };
        let restarts = self.packets.counters().restarts;
        let has_kept = self.packets.has_suspect();
        let Ok(taken) = self
            .stream
            .take(&mut self.packets, &mut self.seen, now, datagram)
        else {
            return Err(ReceiveError::OutOfMemory);
        };
        let found = found_by(taken.outcome, restarts, self.packets.counters().restarts);
        let restart = restart_by(found, has_kept);
        settle_note(&mut self.notes, note, taken.outcome, restart, &self.packets);
        self.ssrc = ssrc_after(self.ssrc, datagram);
        self.arrived = with_datagram(self.arrived, datagram);
        observe(&mut self.statistics, now, datagram, found);
        self.choice.note(now, datagram);
        answer_for(datagram, taken)
    }
}

/// Returns what the jitter buffer found for a datagram with this outcome. `before` and `after` count the restarts.
#[inline(always)]
fn found_by(outcome: Outcome, before: u64, after: u64) -> Found
    ensures suspect { result.is_suspect ≡ is_suspect outcome }
    ensures restarted { result.has_restarted ≡ not (after == before) }
{
    Found {
        has_restarted: after != before,
        is_suspect: matches!(outcome, Outcome::Suspect),
    }
}

/// Returns whether a suspect packet was stored with a restart, if one was confirmed. `has_kept`: one was kept before.
fn restart_by(found: Found, has_kept: bool) -> Option<bool>
    ensures { result ≡ restart_if found.has_restarted has_kept }
{
    if found.has_restarted {
        Some(has_kept)
    } else {
        None
    }
}
