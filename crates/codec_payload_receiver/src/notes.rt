//! What the packets of a stream of video say of the frames that they begin, until these frames are released.

ghost use Rattle.std.specs.Prelude.{◌≡◌, ◌≤◌, ◌+◌, IfOk, OnOk, OnErr, true};
ghost use Rattle.std.specs.Option.{is_some, option_map};
ghost use Rattle.codec_payload_base.specs.Extended.{extended};
ghost use Rattle.codec_payload_buffer.specs.Steps.{HasPacketsIn, popped_to};
ghost use Rattle.codec_payload_codec.specs.Depacketizers.{depacketizer_state_of, kind_of_depacketizer};
ghost use Rattle.codec_payload_datagrams.specs.Kinds.{carrier_of, datagram_of, takes_memory};
ghost use Rattle.codec_payload_keyframes.specs.References.{no_references};
ghost use Rattle.codec_payload_receiver.specs.Noting.{HasRoomFor, HasRoomIf, HasRoomIn, TakesNotes, TakesRange, forgetting, forgotten, kept_noted, media_in, media_of, new_noting, noted, noted_if, noted_with, noting_of, pending_by, pending_in, primary_media, room_of, settled_by, suspect_note, with_note, with_suspect_note};
ghost use Rattle.codec_payload_receiver.specs.Sessions.{video_codec};
ghost use Rattle.codec_payload_references.specs.Notes.{inserted};

use crate::datagram::StreamKinds;
use crate::gated::video_codec_of;
use crate::receiver::Settings;
use codec_payload_base::error::PacketError;
use codec_payload_base::wire::Codec;
use codec_payload_buffer::buffer::{Depacketized, PoppedUnit};
use codec_payload_codec::codec::{CodecDepacketizer, Depacketizer};
use codec_payload_datagrams::kinds::{Datagram, RedPacket};
use codec_payload_jitter::jitter::{JitterBuffer, Outcome};
use codec_payload_keyframes::references::UnitReferences;
use codec_payload_keyframes::unit_gate::FromKeyframe;
use codec_payload_references::note::FrameNote;
use codec_payload_references::notes::FrameNotes;
use codec_payload_rtp::rtp::HeaderExtension;
use codec_payload_rtp::values::extension_value;
use std::alloc::{AllocError, Global};

/// The notes of a stream whose frames may name the frames that they refer to.
#[derive(Debug, Drop)]
pub(crate) struct StreamNotes {
    /// The notes, in memory that the first note allocates.
    notes: Option<Box<FrameNotes>>,
    /// The note of the suspect packet that the jitter buffer keeps, with its number.
    suspect: Option<(u16, FrameNote)>,
    /// The largest number of notes.
    most: usize,
    /// The id of the header extension element with the dependency descriptor.
    descriptor: Option<u8>,
    /// Whether payload descriptors of VP9 are noted.
    is_vp9: bool,
}

/// A packet with media of the stream. A retransmission has its original number.
#[derive(Clone, Copy, Debug)]
struct Media<'a> {
    number: u16,
    time: u32,
    extension: Option<HeaderExtension<'a>>,
    payload: &'a [u8],
}

/// The note of a packet that is not stored yet, if it begins a frame.
#[derive(Debug, Drop)]
pub(crate) struct PendingNote {
    number: u16,
    time: u32,
    note: Option<FrameNote>,
}

/// Returns the notes of a new stream, if it needs any: it is VP9, or it is video with dependency descriptors, and its units are
/// inspected. Allocates nothing.
pub(crate) fn notes_for<B>(
    depacketizer: &CodecDepacketizer<B>,
    settings: &Settings,
) -> Option<StreamNotes>
    ensures { option_map noting_of result ≡ new_noting settings.now.from_keyframe (video_codec (kind_of_depacketizer (depacketizer_state_of depacketizer.now))) settings.now.dependency_descriptor settings.now.limit }
{
    if matches!(settings.from_keyframe, FromKeyframe::Off) {
        return None;
    }
    let (is_vp9, is_described) = match video_codec_of(depacketizer) {
        Codec::Vp9 => (true, true),
        Codec::Vp8 | Codec::Av1 => (false, settings.dependency_descriptor.is_some()),
        _ => (false, false),
    };
    if !is_described {
        return None;
    }
    Some(StreamNotes {
        notes: None,
        suspect: None,
        most: settings.limit,
        descriptor: settings.dependency_descriptor,
        is_vp9,
    })
}

/// Returns the packet with media of the stream that a datagram brings. Redundant blocks of RED have no header extension, and are
/// left out.
fn media_in<'a>(stream: &StreamKinds, datagram: &Datagram<'a>) -> Option<Media<'a>>
    ensures { option_map media_of result ≡ media_in stream.now (datagram_of datagram.now) }
{
    match datagram {
        Datagram::Media(packet) => Some(Media {
            number: packet.header.sequence_number,
            time: packet.header.timestamp,
            extension: packet.header.extension,
            payload: packet.payload,
        }),
        Datagram::SentAgain(sent) => Some(Media {
            number: sent.number,
            time: sent.header.timestamp,
            extension: sent.header.extension,
            payload: sent.payload,
        }),
        Datagram::Red(red) | Datagram::RedAgain(red) => primary_media(stream, red),
        _ => None,
    }
}

/// Returns the packet of a primary block, if it has media of the stream.
fn primary_media<'a>(stream: &StreamKinds, red: &RedPacket<'a>) -> Option<Media<'a>>
    ensures { option_map media_of result ≡ primary_media stream.now (carrier_of red.now) }
{
    if red.primary.pt != stream.payload_type {
        return None;
    }
    Some(Media {
        number: red.header.sequence_number,
        time: red.header.timestamp,
        extension: red.header.extension,
        payload: red.primary.payload,
    })
}

impl StreamNotes {
    /// Returns what a packet says of the frame that it begins, and makes room for its note and for the note of a suspect packet. The
    /// notes stay as they are, also if memory runs out.
    fn prepare(&mut self, alloc: Global, media: &Media<'_>) -> Result<PendingNote, AllocError>
        ensures same { noting_of self.new ≡ noting_of self.old }
        ensures note { IfOk result (λ pending. pending ≡ pending_by (noting_of self.old) (media_of media.now)) }
        ensures room { IfOk result (λ pending. HasRoomFor (is_some pending.note) self.new) }
    {
        let descriptor = match self.descriptor {
            Some(id) => extension_value(id, &media.extension),
            None => None,
        };
        let note = FrameNote::of(alloc, self.is_vp9, media.payload, descriptor)?;
        self.make_room(alloc, note.is_some())?;
        Ok(PendingNote {
            number: media.number,
            time: media.time,
            note,
        })
    }

    /// Makes room for two notes. Before the first note it allocates only if there is one, of this packet or of a suspect packet.
    fn make_room(&mut self, alloc: Global, has_note: bool) -> Result<(), AllocError>
        ensures same { noting_of self.new ≡ noting_of self.old }
        ensures room { OnOk result (HasRoomFor has_note self.new) }
    {
        if let Some(notes) = &mut self.notes {
            return notes.reserve();
        }
        if has_note || self.suspect.is_some() {
            let mut notes = FrameNotes::new(alloc, self.most);
            notes.reserve()?;
            self.notes = Some(Box::new(alloc, notes)?);
        }
        Ok(())
    }

    /// Stores the notes that a datagram brings. `restart`: it confirmed a restart; whether a suspect packet was stored with it.
    fn settle<B: Depacketizer>(
        &mut self,
        pending: Option<PendingNote>,
        outcome: Outcome,
        restart: Option<bool>,
        packets: &JitterBuffer<B>,
    )
        requires { HasRoomIf (is_some restart) pending self.old }
        ensures { noting_of self.new ≡ settled_by pending outcome restart packets.now (noting_of self.old) }
    {
        let highest = packets.greatest();
        if let Some(is_stored) = restart {
            self.settle_suspect(is_stored, highest);
        }
        if let Some(pending) = pending {
            let is_kept = packets.keeps_suspect(pending.number, pending.time);
            self.settle_own(pending, outcome, is_kept, highest);
        }
    }

    /// Takes the note of the suspect packet at a restart, and inserts it if that packet was stored.
    fn settle_suspect(&mut self, is_stored: bool, highest: Option<u64>)
        requires { is_some self.old.suspect ≡ true → 2 ≤ room_of self.old }
        ensures notes { noting_of self.new ≡ kept_noted is_stored highest (noting_of self.old) }
        ensures room { room_of self.old ≤ room_of self.new + 1 }
    {
        let Some((number, note)) = self.suspect.take() else {
            return;
        };
        if !is_stored {
            return;
        }
        if let Some(notes) = &mut self.notes {
            insert(notes, highest, number, note);
        }
    }

    /// Stores the note of a packet with this outcome. `is_kept`: the jitter buffer keeps it as suspect.
    fn settle_own(
        &mut self,
        pending: PendingNote,
        outcome: Outcome,
        is_kept: bool,
        highest: Option<u64>,
    )
        requires { is_some pending.note ≡ true → 1 ≤ room_of self.old }
        ensures { noting_of self.new ≡ noted pending outcome is_kept highest (noting_of self.old) }
    {
        let PendingNote { number, note, .. } = pending;
        match outcome {
            Outcome::Held | Outcome::HeldAndEvicted | Outcome::Restarted(_) => {
                self.insert_note(number, note, highest);
            }
            Outcome::Suspect if is_kept => self.suspect = with_number(number, note),
            _ => {}
        }
    }

    /// Inserts the note of a packet, if it has one.
    fn insert_note(&mut self, number: u16, note: Option<FrameNote>, highest: Option<u64>)
        requires { is_some note ≡ true → 1 ≤ room_of self.old }
        ensures { noting_of self.new ≡ with_note highest number note (noting_of self.old) }
    {
        let Some(note) = note else {
            return;
        };
        if let Some(notes) = &mut self.notes {
            insert(notes, highest, number, note);
        }
    }

    /// Removes and returns the note of the suspect packet.
    fn take_suspect(&mut self) -> Option<(u16, FrameNote)>
        ensures result { result ≡ (noting_of self.old).notes.suspect }
        ensures notes { noting_of self.new ≡ forgetting (noting_of self.old) }
    {
        self.suspect.take()
    }

    /// Takes the notes with numbers up to `last`, and returns what those from `first` on say of their unit.
    fn take(&mut self, first: u64, last: u64) -> UnitReferences
        ensures { TakesRange first last (noting_of self.old) result (noting_of self.new) }
    {
        match &mut self.notes {
            Some(notes) => notes.take(first, last),
            None => UnitReferences::none(),
        }
    }
}

/// Inserts a note under the number nearest to the highest one.
fn insert(notes: &mut FrameNotes, highest: Option<u64>, number: u16, note: FrameNote)
    requires { 1 ≤ notes.old.room }
    ensures notes { notes.new ≡ record notes.old { held = inserted notes.old.most (record { number = extended 65536 highest number; note = note }) notes.old.held; room = notes.new.room } }
    ensures room { notes.old.room ≤ notes.new.room + 1 }
{
    notes.insert(near(highest, number), note);
}

/// Returns a note with the number of its packet.
fn with_number(number: u16, note: Option<FrameNote>) -> Option<(u16, FrameNote)>
    ensures { result ≡ option_map (λ n. (number, n)) note }
{
    match note {
        Some(note) => Some((number, note)),
        None => None,
    }
}

/// Returns the number nearest to `highest` with these low 16 bits, half of the range ahead.
pub(crate) fn near(highest: Option<u64>, low: u16) -> u64
    ensures { result ≡ extended 65536 highest low }
{
    let Some(highest) = highest else {
        return u64::from(low);
    };
    let ahead = (u64::from(low) + 65_536 - highest % 65_536) % 65_536;
    if ahead <= 32_768 {
        highest.wrapping_add(ahead)
    } else {
        highest.wrapping_sub(65_536 - ahead)
    }
}

/// Returns whether a datagram is of a kind for which memory is taken.
fn takes_memory(datagram: &Datagram<'_>) -> bool
    ensures { result ≡ takes_memory (datagram_of datagram.now) }
{
    !matches!(
        datagram,
        Datagram::Rtcp | Datagram::Malformed(_) | Datagram::OtherStream | Datagram::Nothing
    )
}

/// Returns the note of the packet that a datagram brings, and makes room for it and for the note of a suspect packet, if the stream
/// needs notes. The notes stay as they are, also if memory runs out.
#[inline(always)]
pub(crate) fn prepare_note(
    notes: &mut Option<StreamNotes>,
    stream: &StreamKinds,
    datagram: &Datagram<'_>,
) -> Result<Option<PendingNote>, AllocError>
    ensures same { option_map noting_of notes.new ≡ option_map noting_of notes.old }
    ensures note { IfOk result (λ pending. pending ≡ pending_in (option_map noting_of notes.old) stream.now (datagram_of datagram.now)) }
    ensures room { IfOk result (λ pending. HasRoomIn (takes_memory (datagram_of datagram.now)) pending notes.new) }
    ensures memory { OnErr result (takes_memory (datagram_of datagram.now) ≡ true) }
{
    let Some(notes) = notes else {
        return Ok(None);
    };
    if let Some(media) = media_in(stream, datagram) {
        let pending = notes.prepare(stream.alloc, &media)?;
        return Ok(Some(pending));
    }
    if takes_memory(datagram) {
        notes.make_room(stream.alloc, false)?;
    }
    Ok(None)
}

/// Stores the notes that a datagram brings. `restart`: it confirmed a restart; whether a suspect packet was stored with it.
#[inline(always)]
pub(crate) fn settle_note<B: Depacketizer>(
    notes: &mut Option<StreamNotes>,
    pending: Option<PendingNote>,
    outcome: Outcome,
    restart: Option<bool>,
    packets: &JitterBuffer<B>,
)
    requires { HasRoomIn (is_some restart) pending notes.old }
    ensures { option_map noting_of notes.new ≡ noted_with (option_map noting_of notes.old) pending outcome restart packets.now }
{
    if let Some(notes) = notes {
        notes.settle(pending, outcome, restart, packets);
    }
}

/// Removes and returns the note of the suspect packet.
pub(crate) fn take_suspect(notes: &mut Option<StreamNotes>) -> Option<(u16, FrameNote)>
    ensures result { result ≡ suspect_note (option_map noting_of notes.old) }
    ensures notes { option_map noting_of notes.new ≡ forgotten (option_map noting_of notes.old) }
{
    match notes {
        Some(notes) => notes.take_suspect(),
        None => None,
    }
}

/// Puts back the note of the suspect packet.
pub(crate) fn put_suspect(notes: &mut Option<StreamNotes>, suspect: Option<(u16, FrameNote)>)
    ensures { option_map noting_of notes.new ≡ option_map (with_suspect_note suspect) (option_map noting_of notes.old) }
{
    if let Some(notes) = notes {
        notes.suspect = suspect;
    }
}

/// Takes the notes of the unit of an answer, and returns what it refers to. Any other answer leaves the notes to the next unit.
#[inline(always)]
pub(crate) fn take_notes(
    notes: &mut Option<StreamNotes>,
    answer: &Option<Result<Depacketized, PacketError>>,
) -> UnitReferences
    ensures { TakesNotes answer.now (option_map noting_of notes.old) result (option_map noting_of notes.new) }
{
    let Some(notes) = notes else {
        return UnitReferences::none();
    };
    match answer {
        Some(Ok(unit)) => {
            let range = unit.seq_range();
            notes.take(range.start().0, range.end().0)
        }
        _ => UnitReferences::none(),
    }
}

/// Does the same for an answer whose unit is in memory that is used again, and writes what it refers to.
#[inline(always)]
pub(crate) fn take_notes_in(
    notes: &mut Option<StreamNotes>,
    answer: &Option<Result<(), PacketError>>,
    unit: &PoppedUnit,
    references: &mut UnitReferences,
)
    requires packets { HasPacketsIn answer.now unit.now }
    requires none { references.old ≡ no_references }
    ensures { TakesNotes (popped_to answer.now unit.now) (option_map noting_of notes.old) references.new (option_map noting_of notes.new) }
{
    let Some(notes) = notes else {
        return;
    };
    match answer {
        Some(Ok(())) => {
            let range = unit.seq_range();
            *references = notes.take(range.start().0, range.end().0);
        }
        _ => {}
    }
}
