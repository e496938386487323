//! The first packets after a restart: the suspect packet is stored with the packet that confirms the restart. If memory runs out
//! for one of them, nothing changes.

ghost use Rattle.std.specs.Prelude.{◌≡◌, IfOk, OnOk, OnErr, IfErr, Option, false};
ghost use Rattle.std.specs.Option.{option_map};
ghost use Rattle.codec_payload_base.specs.declared.error.PacketError.TheVariants.{OutOfMemory};
ghost use Rattle.codec_payload_jitter.specs.Receiving.{Confirms, GoesInAgain, GoesOn, NotesRestart, Restarts, TakesInBoth, arrival_of, counted, first_past, first_with, meta_for, restarted, RestartsWith};
ghost use Rattle.codec_payload_numbers.specs.Numbers.{kept_number};
ghost use Rattle.codec_payload_buffer.specs.Steps.{IsSound};
ghost use Rattle.codec_payload_codec.specs.Depacketizers.{is_built_in_depacketizer};
ghost use Rattle.codec_payload_jitter.specs.NoMediaNumbers.{noted_no_media};
ghost use Rattle.codec_payload_jitter.specs.OwnReceiving.{OwnStores};
ghost use Rattle.codec_payload_jitter.specs.declared.outcome.Outcome.TheVariants as outcomes;

use super::{JitterBuffer, KeptPacket, meta_for, store};
use crate::kept_missing::is_sound;
use crate::outcome::{Outcome, outcome_of, with_kept, with_outcome, with_restart};
use codec_payload_base::error::PacketError;
use codec_payload_base::wire::Frequency;
use codec_payload_buffer::buffer::{DepacketizingBuffer, Incoming, PackedHeader};
use codec_payload_codec::codec::Depacketizer;
use codec_payload_numbers::noted_times::NotedTime;
use codec_payload_numbers::numbers::{Extended, kept_number};
use std::alloc::AllocError;

impl<B: Depacketizer> JitterBuffer<B> {
    /// Stores the packet that confirms a restart, and the suspect packet before it, if one was kept: both, or neither.
    #[inline(never)]
    pub(super) fn restart_with(
        &mut self,
        number: u64,
        packet: KeptPacket,
    ) -> Result<Outcome, PacketError>
        ensures ok { IfOk result (λ outcome. Restarts number (arrival_of packet) self.old outcome self.new) }
        ensures err { OnErr result (self.new ≡ self.old) }
        ensures fault { IfErr result (λ f. f ≡ OutOfMemory) }
        ensures own { is_built_in_depacketizer self.old.buffer.depacketizer ≡ false → OwnStores B.is_head B.is_tail self.old.buffer self.new.buffer }
    {
        match self.copy_of_kept()? {
            Some(kept) => {
                self.store_both(number, packet, kept)?;
                Ok(Outcome::Restarted(true))
            }
            None => {
                self.store_and_note(number, packet)?;
                self.count_restart();
                Ok(Outcome::Restarted(false))
            }
        }
    }

    /// Notes a number without media that confirms a restart, and stores the suspect packet before it, if one was kept.
    pub(super) fn restart_without_media(&mut self, number: u64) -> Result<(), PacketError>
        ensures ok { OnOk result (NotesRestart number self.old self.new) }
        ensures err { OnErr result (self.new ≡ self.old) }
        ensures fault { IfErr result (λ f. f ≡ OutOfMemory) }
        ensures own { is_built_in_depacketizer self.old.buffer.depacketizer ≡ false → OwnStores B.is_head B.is_tail self.old.buffer self.new.buffer }
    {
        match self.copy_of_kept()? {
            Some(kept) => self.note_and_store(number, kept),
            None => {
                self.note(number)?;
                self.count_restart();
                Ok(())
            }
        }
    }

    /// Returns a copy of the suspect packet, if one was kept.
    fn copy_of_kept(&self) -> Result<Option<KeptPacket>, AllocError>
        ensures { IfOk result (λ kept. option_map arrival_of kept ≡ self.now.kept) }
    {
        match &self.kept {
            Some(packet) => Ok(Some(copy_of(packet)?)),
            None => Ok(None),
        }
    }

    /// Stores the packet that confirms a restart, and the suspect packet before it.
    fn store_both(
        &mut self,
        number: u64,
        packet: KeptPacket,
        kept: KeptPacket,
    ) -> Result<(), PacketError>
        ensures ok { OnOk result (RestartsWith number (arrival_of packet) (arrival_of kept) self.old self.new) }
        ensures err { OnErr result (self.new ≡ self.old) }
        ensures fault { IfErr result (λ f. f ≡ OutOfMemory) }
        ensures own { is_built_in_depacketizer self.old.buffer.depacketizer ≡ false → OwnStores B.is_head B.is_tail self.old.buffer self.new.buffer }
    {
        let noted = NotedTime {
            number,
            time: packet.header.timestamp(),
        };
        self.noted_times.make_room(noted)?;
        let before = kept_number(number, kept.header.sequence_number());
        let outcomes = store_two(
            &mut self.buffer,
            self.clock_rate,
            (packet, number),
            (kept, before),
        )?;
        self.kept_missing.touch(number);
        self.kept_missing.touch(before);
        self.noted_times.note(noted);
        let counters = with_restart(with_outcome(self.counters, outcomes.0));
        self.counters = with_kept(counters, outcomes.1);
        self.kept = None;
        Ok(())
    }

    /// Notes a number without media that confirms a restart, and stores the suspect packet before it.
    fn note_and_store(&mut self, number: u64, kept: KeptPacket) -> Result<(), PacketError>
        ensures ok { OnOk result (GoesInAgain (arrival_of kept) (kept_number number kept.header.sequence_number) (restarted (record self.old { no_media_numbers = noted_no_media number self.old.no_media_numbers; counters = counted self.old.counters outcomes.NoMedia })) self.new) }
        ensures err { OnErr result (self.new ≡ self.old) }
        ensures fault { IfErr result (λ f. f ≡ OutOfMemory) }
        ensures own { is_built_in_depacketizer self.old.buffer.depacketizer ≡ false → OwnStores B.is_head B.is_tail self.old.buffer self.new.buffer }
    {
        self.no_media_numbers.make_room()?;
        let before = kept_number(number, kept.header.sequence_number());
        let outcome = store(&mut self.buffer, self.clock_rate, kept, before)?;
        let lowest = self.no_media_numbers.lowest_if_full();
        self.no_media_numbers.note(number);
        self.kept_missing.touch(before);
        self.kept_missing.touch(number);
        self.kept_missing.touch_if(lowest);
        let counters = with_restart(with_outcome(self.counters, Outcome::NoMedia));
        self.counters = with_kept(counters, outcome);
        self.kept = None;
        Ok(())
    }

    /// Remembers a packet with media, if it is the first one since the start or since the latest restart.
    #[inline(always)]
    pub(super) fn note_first(&mut self, answer: Extended, time: u32)
        ensures { self.new ≡ record self.old { first = first_with self.old.first answer time } }
    {
        match answer {
            Extended::Number(number) => {
                if self.first.is_none() {
                    self.first = Some(NotedTime { number, time });
                }
            }
            Extended::Restarted(number) => self.first = Some(NotedTime { number, time }),
            Extended::Suspect | Extended::Spent => {}
        }
    }

    /// Forgets the first packet, if a number without media has confirmed a restart.
    pub(super) fn forget_first(&mut self, answer: Extended)
        ensures { self.new ≡ record self.old { first = first_past self.old.first answer } }
    {
        if let Extended::Restarted(_) = answer {
            self.first = None;
        }
    }

    /// Counts a restart. No packet is suspect any more.
    fn count_restart(&mut self)
        ensures { self.new ≡ restarted self.old }
    {
        self.counters = with_restart(self.counters);
        self.kept = None;
    }
}

/// Copies a packet. Allocates for its payload.
fn copy_of(packet: &KeptPacket) -> Result<KeptPacket, AllocError>
    ensures { IfOk result (λ copy. arrival_of copy ≡ arrival_of packet.now) }
{
    Ok(KeptPacket {
        received: packet.received,
        header: PackedHeader::new(*packet.payload.allocator(), &packet.header.header())?,
        payload: Vec::from_slice(*packet.payload.allocator(), &packet.payload)?,
    })
}

/// Stores two packets in the buffer, each under its number, or neither.
fn store_two<B: Depacketizer>(
    buffer: &mut DepacketizingBuffer<B>,
    clock_rate: Frequency,
    first: (KeptPacket, u64),
    second: (KeptPacket, u64),
) -> Result<(Outcome, Outcome), PacketError>
    ensures takes { IfOk result (λ both. TakesInBoth clock_rate (arrival_of first.0) first.1 (arrival_of second.0) second.1 buffer.old both buffer.new) }
    ensures err { OnErr result (buffer.new ≡ buffer.old) }
    ensures fault { IfErr result (λ f. f ≡ OutOfMemory) }
    ensures sound { IsSound buffer.old }
    ensures own { is_built_in_depacketizer buffer.old.depacketizer ≡ false → OwnStores B.is_head B.is_tail buffer.old buffer.new }
{
    is_sound(buffer);
    let places = buffer.store_two(
        incoming(clock_rate, first.0, first.1),
        incoming(clock_rate, second.0, second.1),
    )?;
    Ok((outcome_of(places.0), outcome_of(places.1)))
}

/// Returns a packet with this number, as the buffer takes it.
fn incoming(clock_rate: Frequency, packet: KeptPacket, number: u64) -> Incoming
    ensures meta { result.meta ≡ meta_for packet.received clock_rate packet.header number }
    ensures payload { result.payload.items ≡ packet.payload.items }
{
    Incoming {
        meta: meta_for(clock_rate, packet.received, packet.header, number).meta(),
        payload: packet.payload,
    }
}
