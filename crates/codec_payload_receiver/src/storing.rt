//! How the datagrams of a stream reach its jitter buffer.

ghost use Rattle.std.specs.Prelude.{◌≡◌, ◌||◌, not, map, is_none, IfOk, IfSome, OnErr, false, true};
ghost use Rattle.codec_payload_rtp.specs.RtpValues.{header_of, packet_of};
ghost use Rattle.codec_payload_codec.specs.Depacketizers.{is_built_in_depacketizer};
ghost use Rattle.codec_payload_jitter.specs.OwnReceiving.{OwnStores};
ghost use Rattle.codec_payload_jitter.specs.Receiving.{Receives, ReceivesAgain, would_store};
ghost use Rattle.codec_payload_datagrams.specs.Kinds.{WithMedia, datagram_of, header_for, takes_memory};
ghost use Rattle.codec_payload_receiver.specs.Sessions.{NotesAgain, TakesDatagram, copied, primary_seen};
ghost use Rattle.codec_payload_receiver.specs.Storing.{ReceivesEither, Stores, TakesAlone, TakesBrought, brought_of};

use crate::blocks::{BlockCopy, copy_blocks, recover_all};
use crate::brought::Brought;
use crate::datagram::StreamKinds;
use codec_payload_base::wire::{Pt, RtpHeader, Ticks};
use codec_payload_buffer::buffer::PackedHeader;
use codec_payload_codec::codec::Depacketizer;
use codec_payload_datagrams::kinds::Datagram;
use codec_payload_jitter::jitter::{JitterBuffer, Outcome};
use codec_payload_numbers::seen_times::{LazySeenTimes, SeenTime, SeenTimes};
use codec_payload_rtp::rtp::{PacketHeader, RtpPacket};
use std::alloc::AllocError;
use std::collections::VecDeque;

/// The result of receiving a datagram.
#[derive(Clone, Copy, Debug)]
pub(crate) struct Taken {
    pub(crate) outcome: Outcome,
    /// False if memory ran out for a redundant block.
    pub(crate) whole: bool,
}

impl StreamKinds {
    /// Returns the header of a packet, with the fields that payloads of the stream have.
    #[inline(always)]
    fn header_for(&self, header: &PacketHeader<'_>) -> RtpHeader
        ensures { result ≡ header_for self.now (header_of header.now) }
    {
        RtpHeader {
            payload_type: Pt::new_with_value(self.payload_type),
            sequence_number: header.sequence_number,
            timestamp: header.timestamp,
            ssrc: header.ssrc,
            marker: header.marker,
            ext_vals: self.ids.values(&header.extension),
        }
    }

    /// Returns the same header of a packet without a header extension, packed.
    #[inline(always)]
    fn plain_header_for(&self, header: &PacketHeader<'_>) -> PackedHeader
        requires { is_none header.now.extension ≡ true }
        ensures { result ≡ header_for self.now (header_of header.now) }
    {
        PackedHeader::plain(
            Pt::new_with_value(self.payload_type),
            header.sequence_number,
            header.timestamp,
            header.ssrc,
            header.marker,
        )
    }

    /// Returns the same header, packed. `None`: the packet has other values than small ones. Most packets have none.
    #[inline(always)]
    fn small_header_for(&self, header: &PacketHeader<'_>) -> Option<PackedHeader>
        ensures { IfSome result (λ packed. packed ≡ header_for self.now (header_of header.now)) }
    {
        match self.ids.small_values(&header.extension) {
            Some(values) => Some(PackedHeader::plain(
                Pt::new_with_value(self.payload_type),
                header.sequence_number,
                header.timestamp,
                header.ssrc,
                header.marker,
            )
            .with_small_values(
                values.video_orientation,
                values.video_content_type,
                values.audio_level,
                values.voice_activity,
            )),
            None => None,
        }
    }

    /// Stores a packet with media in the jitter buffer. The header of a retransmission has the original number and SSRC. Packets with
    /// and without a header extension are stored in two places: a header that comes from both would be copied field by field.
    #[inline(always)]
    fn push<B: Depacketizer>(
        &self,
        packets: &mut JitterBuffer<B>,
        now: Ticks,
        header: &PacketHeader<'_>,
        payload: &[u8],
        is_again: bool,
    ) -> Result<Outcome, AllocError>
        ensures ok { IfOk result (λ outcome. ReceivesEither is_again (record { now = now; header = header_for self.now (header_of header.now); bytes = payload.now }) packets.old outcome packets.new) }
        ensures err { OnErr result (packets.new ≡ packets.old) }
        ensures own { is_built_in_depacketizer packets.old.buffer.depacketizer ≡ false → OwnStores B.is_head B.is_tail packets.old.buffer packets.new.buffer }
    {
        if is_again {
            return self.push_again(packets, now, header, payload);
        }
        if header.extension.is_none() {
            return push_packed(packets, now, self.plain_header_for(header), payload);
        }
        self.push_with_values(packets, now, header, payload)
    }

    /// Stores the packet of a retransmission.
    #[inline(never)]
    fn push_again<B: Depacketizer>(
        &self,
        packets: &mut JitterBuffer<B>,
        now: Ticks,
        header: &PacketHeader<'_>,
        payload: &[u8],
    ) -> Result<Outcome, AllocError>
        ensures ok { IfOk result (λ outcome. ReceivesAgain (record { now = now; header = header_for self.now (header_of header.now); bytes = payload.now }) packets.old outcome packets.new) }
        ensures err { OnErr result (packets.new ≡ packets.old) }
        ensures own { is_built_in_depacketizer packets.old.buffer.depacketizer ≡ false → OwnStores B.is_head B.is_tail packets.old.buffer packets.new.buffer }
    {
        let payload = packets.copy_of(payload)?;
        match packets.push_retransmitted(now, self.header_for(header), payload) {
            Ok(outcome) => Ok(outcome),
            Err(_) => Err(AllocError),
        }
    }

    /// Stores a packet with a header extension.
    #[inline(never)]
    fn push_with_values<B: Depacketizer>(
        &self,
        packets: &mut JitterBuffer<B>,
        now: Ticks,
        header: &PacketHeader<'_>,
        payload: &[u8],
    ) -> Result<Outcome, AllocError>
        ensures ok { IfOk result (λ outcome. Receives (record { now = now; header = header_for self.now (header_of header.now); bytes = payload.now }) packets.old outcome packets.new) }
        ensures err { OnErr result (packets.new ≡ packets.old) }
        ensures own { is_built_in_depacketizer packets.old.buffer.depacketizer ≡ false → OwnStores B.is_head B.is_tail packets.old.buffer packets.new.buffer }
    {
        match self.small_header_for(header) {
            Some(packed) => push_packed(packets, now, packed, payload),
            None => self.push_with_rare_values(packets, now, header, payload),
        }
    }

    /// Stores a packet with other values than small ones in its header extension.
    #[cold]
    #[inline(never)]
    fn push_with_rare_values<B: Depacketizer>(
        &self,
        packets: &mut JitterBuffer<B>,
        now: Ticks,
        header: &PacketHeader<'_>,
        payload: &[u8],
    ) -> Result<Outcome, AllocError>
        ensures ok { IfOk result (λ outcome. Receives (record { now = now; header = header_for self.now (header_of header.now); bytes = payload.now }) packets.old outcome packets.new) }
        ensures err { OnErr result (packets.new ≡ packets.old) }
        ensures own { is_built_in_depacketizer packets.old.buffer.depacketizer ≡ false → OwnStores B.is_head B.is_tail packets.old.buffer packets.new.buffer }
    {
        let payload = packets.copy_of(payload)?;
        match packets.push(now, self.header_for(header), payload) {
            Ok(outcome) => Ok(outcome),
            Err(_) => Err(AllocError),
        }
    }

    /// Stores the packet that a datagram brings, if it is media of the stream and repeats no block: no block with its time was
    /// stored under another number. Otherwise its number has no media; that of a retransmission only if it is missing.
    fn store_packet<B: Depacketizer>(
        &self,
        packets: &mut JitterBuffer<B>,
        seen: &SeenTimes,
        now: Ticks,
        brought: &Brought<'_>,
    ) -> Result<Outcome, AllocError>
        ensures ok { IfOk result (λ outcome. Stores self.now now (brought_of brought.now) seen.now packets.old outcome packets.new) }
        ensures err { OnErr result (packets.new ≡ packets.old) }
        ensures own { is_built_in_depacketizer packets.old.buffer.depacketizer ≡ false → OwnStores B.is_head B.is_tail packets.old.buffer packets.new.buffer }
    {
        let header = &brought.header;
        let (time, number) = (header.timestamp, header.sequence_number);
        if !brought.is_media {
            return note_number(packets, number, brought.is_again);
        }
        if self.red.is_some() && seen.has_block(time) && packets.would_store(number) {
            return note_number(packets, number, false);
        }
        self.push(packets, now, header, brought.payload, brought.is_again)
    }

    /// Stores what a datagram brings to a stream with RED: its packet, then the missing packets of its blocks, unless the packet
    /// is suspect. Notes the times of all that is media.
    #[inline(never)]
    fn store<B: Depacketizer>(
        &self,
        packets: &mut JitterBuffer<B>,
        seen: &mut LazySeenTimes,
        now: Ticks,
        brought: Brought<'_>,
        copies: VecDeque<BlockCopy>,
    ) -> Result<Taken, AllocError>
        ensures ok { IfOk result (λ taken. TakesBrought self.now now (brought_of brought.entry) (map (copied now) copies.items) (record { packets = packets.old; seen = seen.old }) taken.outcome taken.whole (record { packets = packets.new; seen = seen.new })) }
        ensures err { OnErr result ((packets.new ≡ packets.old) × (seen.new ≡ seen.old)) }
        ensures own { is_built_in_depacketizer packets.old.buffer.depacketizer ≡ false → OwnStores B.is_head B.is_tail packets.old.buffer packets.new.buffer }
    {
        let mut times = seen.take(self.alloc)?;
        let restarts = packets.counters().restarts;
        let Ok(outcome) = self.store_packet(packets, &times, now, &brought) else {
            seen.put(times);
            return Err(AllocError);
        };
        note_time(
            &mut times,
            brought.is_media,
            outcome,
            brought.header.timestamp,
            packets.counters().restarts != restarts,
        );
        if !brought.is_again && outcome == Outcome::Suspect {
            seen.put(times);
            return Ok(Taken {
                outcome,
                whole: true,
            });
        }
        let whole = recover_all(packets, &mut times, now, copies);
        seen.put(times);
        Ok(Taken { outcome, whole })
    }

    /// Stores a packet that a datagram brings without blocks. A stream without RED notes no times, and a restart forgets them.
    #[inline(never)]
    fn store_alone<B: Depacketizer>(
        &self,
        packets: &mut JitterBuffer<B>,
        seen: &mut LazySeenTimes,
        now: Ticks,
        brought: &Brought<'_>,
    ) -> Result<Taken, AllocError>
        ensures ok { IfOk result (λ taken. TakesAlone self.now now (brought_of brought.now) (record { packets = packets.old; seen = seen.old }) taken.outcome (record { packets = packets.new; seen = seen.new })) }
        ensures err { OnErr result ((packets.new ≡ packets.old) × (seen.new ≡ seen.old)) }
        ensures own { is_built_in_depacketizer packets.old.buffer.depacketizer ≡ false → OwnStores B.is_head B.is_tail packets.old.buffer packets.new.buffer }
    {
        if brought.is_media && self.red.is_some() {
            return self.store(packets, seen, now, *brought, VecDeque::new(self.alloc));
        }
        if brought.is_media {
            let (header, payload) = (&brought.header, brought.payload);
            let outcome = self.push(packets, now, header, payload, brought.is_again)?;
            return Ok(Taken {
                outcome,
                whole: true,
            });
        }
        let restarts = packets.counters().restarts;
        let outcome = note_number(packets, brought.header.sequence_number, brought.is_again)?;
        seen.forget_if(packets.counters().restarts != restarts);
        Ok(Taken {
            outcome,
            whole: true,
        })
    }

    /// Stores a packet with media that is not a retransmission. Without RED it is stored without a [`Brought`], which is large.
    #[inline(always)]
    pub(crate) fn take_media<B: Depacketizer>(
        &self,
        packets: &mut JitterBuffer<B>,
        seen: &mut LazySeenTimes,
        now: Ticks,
        packet: &RtpPacket<'_>,
    ) -> Result<Outcome, AllocError>
        ensures ok { IfOk result (λ outcome. TakesDatagram self.now now (WithMedia (packet_of packet.now)) (record { packets = packets.old; seen = seen.old }) outcome true (record { packets = packets.new; seen = seen.new })) }
        ensures err { OnErr result ((packets.new ≡ packets.old) × (seen.new ≡ seen.old)) }
        ensures own { is_built_in_depacketizer packets.old.buffer.depacketizer ≡ false → OwnStores B.is_head B.is_tail packets.old.buffer packets.new.buffer }
    {
        if self.red.is_none() {
            return self.push(packets, now, &packet.header, packet.payload, false);
        }
        self.take_with_red(packets, seen, now, packet)
    }

    /// Does the same for a stream with RED. The large value is made out of the way of others.
    #[inline(never)]
    fn take_with_red<B: Depacketizer>(
        &self,
        packets: &mut JitterBuffer<B>,
        seen: &mut LazySeenTimes,
        now: Ticks,
        packet: &RtpPacket<'_>,
    ) -> Result<Outcome, AllocError>
        ensures ok { IfOk result (λ outcome. TakesDatagram self.now now (WithMedia (packet_of packet.now)) (record { packets = packets.old; seen = seen.old }) outcome true (record { packets = packets.new; seen = seen.new })) }
        ensures err { OnErr result ((packets.new ≡ packets.old) × (seen.new ≡ seen.old)) }
        ensures own { is_built_in_depacketizer packets.old.buffer.depacketizer ≡ false → OwnStores B.is_head B.is_tail packets.old.buffer packets.new.buffer }
    {
        let taken = self.store_alone(packets, seen, now, &Brought::first(packet, true))?;
        Ok(taken.outcome)
    }

    /// Stores a datagram of the stream in the jitter buffer, or counts it there.
    #[inline(always)]
    pub(crate) fn take<B: Depacketizer>(
        &self,
        packets: &mut JitterBuffer<B>,
        seen: &mut LazySeenTimes,
        now: Ticks,
        datagram: &Datagram<'_>,
    ) -> Result<Taken, AllocError>
        ensures ok { IfOk result (λ taken. TakesDatagram self.now now (datagram_of datagram.now) (record { packets = packets.old; seen = seen.old }) taken.outcome taken.whole (record { packets = packets.new; seen = seen.new })) }
        ensures err { OnErr result ((packets.new ≡ packets.old) × (seen.new ≡ seen.old)) }
        ensures memory { OnErr result (takes_memory (datagram_of datagram.now) ≡ true) }
        ensures own { is_built_in_depacketizer packets.old.buffer.depacketizer ≡ false → OwnStores B.is_head B.is_tail packets.old.buffer packets.new.buffer }
    {
        let outcome = match datagram {
            Datagram::Rtcp | Datagram::Malformed(_) => Outcome::Rtcp,
            Datagram::OtherStream => Outcome::OtherStream,
            Datagram::Nothing => {
                packets.push_nothing();
                Outcome::NoMedia
            }
            Datagram::NoMedia(packet) => {
                return self.store_alone(packets, seen, now, &Brought::first(packet, false));
            }
            Datagram::Media(packet) => {
                return self.store_alone(packets, seen, now, &Brought::first(packet, true));
            }
            Datagram::SentAgain(sent) => {
                return self.store_alone(packets, seen, now, &Brought::again(sent));
            }
            Datagram::Red(red) => {
                let copies = copy_blocks(self, red)?;
                let brought = Brought::in_red(self, red, false);
                return self.store(packets, seen, now, brought, copies);
            }
            Datagram::RedAgain(red) => {
                let copies = copy_blocks(self, red)?;
                let brought = Brought::in_red(self, red, true);
                return self.store(packets, seen, now, brought, copies);
            }
        };
        Ok(Taken {
            outcome,
            whole: true,
        })
    }
}

/// Records that this number has no media, or counts a packet without a number: if `is_again`, and no packet with the number would
/// be stored.
fn note_number<B: Depacketizer>(
    packets: &mut JitterBuffer<B>,
    number: u16,
    is_again: bool,
) -> Result<Outcome, AllocError>
    ensures ok { IfOk result (λ outcome. NotesAgain (not is_again || would_store packets.old number) number packets.old outcome packets.new) }
    ensures err { OnErr result (packets.new ≡ packets.old) }
    ensures own { is_built_in_depacketizer packets.old.buffer.depacketizer ≡ false → OwnStores B.is_head B.is_tail packets.old.buffer packets.new.buffer }
{
    if !is_again || packets.would_store(number) {
        return match packets.push_no_media(number) {
            Ok(()) => Ok(Outcome::NoMedia),
            Err(_) => Err(AllocError),
        };
    }
    packets.push_nothing();
    Ok(Outcome::NoMedia)
}

/// Notes the time of a packet with media. A restart forgets all earlier times, also if a packet without media confirms it.
fn note_time(seen: &mut SeenTimes, is_media: bool, outcome: Outcome, time: u32, has_restarted: bool)
    ensures { seen.new ≡ primary_seen is_media outcome time has_restarted seen.old }
{
    if is_media {
        if matches!(outcome, Outcome::Restarted(_)) {
            *seen = SeenTimes::none();
        }
        seen.note(SeenTime {
            time,
            is_block: false,
        });
    } else if has_restarted {
        *seen = SeenTimes::none();
    }
}

/// Stores a packet with this header and payload.
#[inline(always)]
fn push_packed<B: Depacketizer>(
    packets: &mut JitterBuffer<B>,
    now: Ticks,
    header: PackedHeader,
    payload: &[u8],
) -> Result<Outcome, AllocError>
    ensures ok { IfOk result (λ outcome. Receives (record { now = now; header = header; bytes = payload.now }) packets.old outcome packets.new) }
    ensures err { OnErr result (packets.new ≡ packets.old) }
    ensures own { is_built_in_depacketizer packets.old.buffer.depacketizer ≡ false → OwnStores B.is_head B.is_tail packets.old.buffer packets.new.buffer }
{
    let payload = packets.copy_of(payload)?;
    match packets.push_packed(now, header, payload) {
        Ok(outcome) => Ok(outcome),
        Err(_) => Err(AllocError),
    }
}
