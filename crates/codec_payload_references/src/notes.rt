//! The notes of the packets that a receiver holds, in rising order of their sequence numbers.

ghost use Rattle.std.specs.Prelude.{◌≡◌, ◌≤◌, ◌<◌, ◌+◌, ◌^◌, [], ◌∷◌, ◌↔◌, length, false, IfSome, IsNone, IsTrue, None, OnOk, option_map};
ghost use Rattle.codec_payload_references.specs.Notes.{HeldRises, IsTaken, above, below, from, has_number, highest, inserted, place_of, placed, up_to};
ghost use Rattle.codec_payload_references.specs.Sets.{UnitsAreSets};
ghost use Rattle.codec_payload_references.specs.Units.{Collects, Skips};

use crate::frames::FrameReader;
use crate::note::FrameNote;
use crate::unit::{UnitSoFar, read_note};
use codec_payload_keyframes::references::UnitReferences;
use codec_payload_queue::search::Numbered;
use codec_payload_queue::tiers::TieredQueue;
use std::alloc::{AllocError, Global};
use std::marker::Model;

/// For how many packets a push needs room: a restart stores two.
const PUSHED: usize = 2;

/// The note of a packet with its sequence number, extended beyond 16 bits.
#[derive(Debug, Drop)]
pub struct HeldNote {
    pub number: u64,
    pub note: FrameNote,
}

impl Numbered for HeldNote {
    ghost number_of = { λ held. held.number };

    fn number(&self) -> u64 {
        self.number
    }
}

/// The notes of the packets that a receiver holds, one for each number, in rising order, and what is known of their stream: the
/// latest structure of its dependency descriptors, and its latest frame number. Also the note of a suspect packet, which is stored
/// only if the next packet continues it.
#[derive(Debug, Drop)]
pub struct FrameNotes {
    held: TieredQueue<HeldNote>,
    /// The largest number of notes.
    most: usize,
    reader: FrameReader,
    suspect: Option<(u16, FrameNote)>,
}

impl Model for FrameNotes {
    ghost use Rattle.std.specs.Prelude.{◌≤◌, length};
    ghost use Rattle.codec_payload_references.specs.Notes.{HeldRises, Notes};

    ghost Value = { Notes };

    ghost view = { λ s. record { held = s.held.items; room = s.held.room; most = s.most; following = s.reader; suspect = s.suspect } };

    ghost invariant = { λ s. HeldRises s.held.items × (length s.held.items ≤ s.most) };
}

/// Returns how many notes have a lower number.
fn find_place(held: &TieredQueue<HeldNote>, number: u64) -> usize
    requires { HeldRises held.now.items }
    ensures { result ≡ place_of number held.now.items }
{
    held.place_of(number)
}

/// Returns whether the note at `place` has this number.
fn is_at(held: &TieredQueue<HeldNote>, place: usize, number: u64) -> bool
    requires rises { HeldRises held.now.items }
    requires place { place ≡ place_of number held.now.items }
    ensures { result ≡ has_number number held.now.items }
{
    place < held.len() && held.at(place).number == number
}

/// Inserts a note at its place. If there are then more than `most`, the lowest one is removed.
fn put(held: &mut TieredQueue<HeldNote>, most: usize, place: usize, note: HeldNote)
    requires place { place ≡ place_of note.number held.old.items }
    requires few { length held.old.items ≤ most }
    requires room { 0 < held.old.room }
    ensures items { held.new.items ≡ highest most (placed note held.old.items) }
    ensures room { held.old.room ≤ held.new.room + 1 }
{
    if held.len() < most {
        held.insert(place, note);
    } else if place > 0 {
        let _ = held.pop_front();
        held.insert(place - 1, note);
    }
}

/// Removes the lowest note, if its number is not above `last`.
fn pop_to(held: &mut TieredQueue<HeldNote>, last: u64) -> Option<HeldNote>
    ensures some { IfSome result (λ h. (held.old.items ≡ h ∷ held.new.items) × (h.number ≤ last)) }
    ensures none { IsNone result → (held.new.items ≡ held.old.items) × (up_to last held.old.items ≡ []) × (above last held.old.items ≡ held.old.items) }
    ensures room { held.old.room ≤ held.new.room }
{
    match held.front() {
        Some(lowest) if lowest.number <= last => held.pop_front(),
        _ => None,
    }
}

/// Removes the notes with numbers up to `last`, reads their descriptors in this order, and returns what they say.
fn collect(held: &mut TieredQueue<HeldNote>, reader: &mut FrameReader, last: u64) -> UnitSoFar
    ensures collects { Collects (record { frames = None; is_unread = false; differences = None }) reader.old (up_to last held.old.items) result reader.new }
    ensures rest { held.new.items ≡ above last held.old.items }
    ensures room { held.old.room ≤ held.new.room }
{
    let mut unit = UnitSoFar::new();
    while let Some(lowest) = pop_to(held, last) {
        let reading = read_note(reader, &lowest.note);
        unit = unit.with(lowest.note.layer_frame(), &reading);
    }
    unit
}

/// Removes the notes with numbers up to `last` and below `first`, and reads their descriptors in this order.
fn skip(held: &mut TieredQueue<HeldNote>, reader: &mut FrameReader, first: u64, last: u64)
    ensures skips { Skips reader.old (below first (up_to last held.old.items)) reader.new }
    ensures unit { up_to last held.new.items ≡ from first (up_to last held.old.items) }
    ensures rest { above last held.new.items ≡ above last held.old.items }
    ensures room { held.old.room ≤ held.new.room }
{
    if first > 0 {
        let _ = collect(held, reader, last.min(first - 1));
    }
}

impl FrameNotes {
    /// Returns the notes of a new stream: none. `most` is the largest number of notes that are held. Does not allocate.
    pub fn new(alloc: Global, most: usize) -> FrameNotes
        ensures held { result.held ≡ [] }
        ensures most { result.most ≡ most }
        ensures structure { result.following.stream.structure ≡ None }
        ensures active { result.following.stream.active ≡ 0 }
        ensures latest { result.following.latest ≡ 2 ^ 63 }
        ensures suspect { result.suspect ≡ None }
    {
        FrameNotes {
            held: TieredQueue::new(alloc),
            most,
            reader: FrameReader::new(alloc),
            suspect: None,
        }
    }

    /// Returns the number of notes.
    pub fn len(&self) -> usize
        ensures value { result ≡ length self.now.held }
        ensures few { result ≤ self.now.most }
        // Each number is above the one in front of it.
        ensures rises { HeldRises self.now.held }
    {
        self.held.len()
    }

    /// Whether there are no notes.
    pub fn is_empty(&self) -> bool
        ensures { IsTrue result ↔ (self.now.held ≡ []) }
    {
        self.held.len() == 0
    }

    /// Finds memory for two more notes, since a restart stores two packets.
    ///
    /// # Errors
    ///
    /// `AllocError`: out of memory. Nothing changes.
    pub fn reserve(&mut self) -> Result<(), AllocError>
        ensures room { OnOk result (2 ≤ self.new.room) }
        ensures held { self.new.held ≡ self.old.held }
        ensures most { self.new.most ≡ self.old.most }
        ensures following { self.new.following ≡ self.old.following }
        ensures suspect { self.new.suspect ≡ self.old.suspect }
    {
        self.held.reserve(PUSHED)
    }

    /// Keeps the note of the packet with this number, unless a note of this number is held. If there are then more notes than the
    /// largest number of them, the lowest one is discarded. Memory was found by [`FrameNotes::reserve`]. The time grows with the
    /// logarithm of the number of notes; in front of the last ones, up to 512 of them move.
    pub fn insert(&mut self, number: u64, note: FrameNote)
        requires room { 0 < self.old.room }
        ensures held { self.new.held ≡ inserted self.old.most (record { number = number; note = note }) self.old.held }
        ensures room { self.old.room ≤ self.new.room + 1 }
        ensures most { self.new.most ≡ self.old.most }
        ensures following { self.new.following ≡ self.old.following }
        ensures suspect { self.new.suspect ≡ self.old.suspect }
    {
        let place = find_place(&self.held, number);
        if !is_at(&self.held, place, number) {
            put(&mut self.held, self.most, place, HeldNote { number, note });
        }
    }

    /// Keeps the note of the latest suspect packet, which has this sequence number, in place of the one that is kept. `None`: it has
    /// none.
    pub fn keep_suspect(&mut self, low: u16, note: Option<FrameNote>)
        ensures suspect { self.new.suspect ≡ option_map (λ n. (low, n)) note }
        ensures held { self.new.held ≡ self.old.held }
        ensures room { self.new.room ≡ self.old.room }
        ensures most { self.new.most ≡ self.old.most }
        ensures following { self.new.following ≡ self.old.following }
    {
        self.suspect = match note {
            Some(note) => Some((low, note)),
            None => None,
        };
    }

    /// Removes and returns the note of the latest suspect packet, with its sequence number.
    pub fn take_suspect(&mut self) -> Option<(u16, FrameNote)>
        ensures result { result ≡ self.old.suspect }
        ensures suspect { self.new.suspect ≡ None }
        ensures held { self.new.held ≡ self.old.held }
        ensures room { self.new.room ≡ self.old.room }
        ensures most { self.new.most ≡ self.old.most }
        ensures following { self.new.following ≡ self.old.following }
    {
        self.suspect.take()
    }

    /// Removes the notes with numbers up to `last`, and returns what those from `first` on say of the frames that their unit refers
    /// to. Descriptors are read in the order of the numbers, also those below `first`: a structure counts for all later frames, also
    /// if its own frame is not released. If memory runs out for a structure, its descriptor counts as one that cannot be read. The
    /// time grows with the number of notes that leave.
    pub fn take(&mut self, first: u64, last: u64) -> UnitReferences
        ensures { IsTaken self.old first last result self.new }
    {
        skip(&mut self.held, &mut self.reader, first, last);
        collect(&mut self.held, &mut self.reader, last).references()
    }
}

/// The frames of a unit whose numbers rise, and the frames that it refers to, are what the unit says of them. This function exists
/// for its proof and does nothing.
pub fn units_are_sets()
    ensures { UnitsAreSets }
{}
