//! The edges of the latest pictures of a stream.

ghost use Rattle.std.specs.Prelude.{◌≡◌, ◌%◌, None, slice_index_or};
ghost use Rattle.codec_payload_edges.specs.Pictures.{begin_of, between_of, checked, distrusted, end_of, found_at, gaps_at, has_noted, heard, heard_in, is_in_order, is_kept, is_known, is_same, is_sound, latest_of, new_picture, no_edges, no_gaps, or_zero, picture_for, with_edge, with_noted};

use crate::edge::{Edge, IdWidth};
use std::marker::Model;

/// How many pictures are remembered. It divides the number of ids of each width.
const PICTURES: usize = 32;

/// The largest difference of two numbers between which numbers are noted. So at most 127 packets are between them: fewer than there are
/// PictureIDs of 7 bits, and an id cannot come round between them.
const MOST_APART: u64 = 128;

/// How many noted ranges are remembered.
const RANGES: usize = 8;

/// The numbers between two numbers, both exclusive. No packet between them carries media.
#[derive(Clone, Copy, Debug, PartialEq, Eq)]
pub struct Between {
    /// The number of the last packet of a picture.
    pub after: u64,
    /// The number of the first packet of the next picture.
    pub before: u64,
}

/// The numbers without media beside a packet.
#[derive(Clone, Copy, Debug, PartialEq, Eq)]
pub struct Gaps {
    /// Those between the picture before it and this packet, if this packet begins a picture.
    pub before: Option<Between>,
    /// Those between this packet and the picture after it, if this packet ends a picture.
    pub after: Option<Between>,
}

/// The first and the last packet of a picture, as far as they came.
#[derive(Clone, Copy, Debug)]
pub(crate) struct Picture {
    pub(crate) id: u16,
    pub(crate) width: IdWidth,
    pub(crate) begin: Option<u64>,
    pub(crate) end: Option<u64>,
}

/// The edges of the latest 32 pictures of a stream: they show which numbers carry no media.
///
/// If one packet ends a picture, another one begins the next picture, and their numbers differ by 2 to 128, then the numbers between
/// them carry no media: padding, or packets of error correction. Proved for each sender that sends its pictures in order, whose ids rise
/// by 1 for each picture, and whatever packets are lost, late or repeated (`between_pictures_is_no_media`).
///
/// It does not allocate, and takes 1.6 kB: keep it in a `Box`.
#[derive(Clone, Copy, Debug)]
pub struct PictureEdges {
    /// Each picture at its id modulo 32.
    places: [Option<Picture>; PICTURES],
    /// The latest ranges whose numbers were noted.
    noted: [Option<Between>; RANGES],
    /// The index of the next range.
    next: usize,
    /// Whether the sender has kept the rule so far.
    is_trusted: bool,
}

impl Model for PictureEdges {
    ghost use Rattle.std.specs.Prelude.{◌≡◌, ◌<◌, length};
    ghost use Rattle.codec_payload_edges.specs.Pictures.{Pictures};

    ghost Value = { Pictures };

    ghost view = { λ s. record { places = s.places; noted = s.noted; next = s.next; is_trusted = s.is_trusted } };

    ghost inverse = { λ s. record { places = s.places; noted = s.noted; next = s.next; is_trusted = s.is_trusted } };

    ghost invariant = { λ s. (length s.places ≡ 32) × (length s.noted ≡ 8) × (s.next < 8) };
}

/// Returns the number, or 0.
fn or_zero(number: Option<u64>) -> u64
    ensures { result ≡ or_zero number }
{
    match number {
        Some(number) => number,
        None => 0,
    }
}

/// Returns whether the number of an edge is the known one, if there are both.
fn is_kept(is_edge: bool, number: u64, known: Option<u64>) -> bool
    ensures { result ≡ is_kept is_edge number known }
{
    match known {
        Some(known) if is_edge => known == number,
        _ => true,
    }
}

/// Returns whether a picture does not end before it begins.
fn is_in_order(begin: Option<u64>, end: Option<u64>) -> bool
    ensures { result ≡ is_in_order begin end }
{
    match (begin, end) {
        (Some(begin), Some(end)) => begin <= end,
        _ => true,
    }
}

/// Returns the range between the end of a picture and the begin of the next one, if there are numbers between them, and few enough.
fn between_of(end: Option<u64>, begin: Option<u64>) -> Option<Between>
    ensures { result ≡ between_of end begin }
{
    let after = end?;
    let before = begin?;
    if after < before && before - after >= 2 && before - after <= MOST_APART {
        Some(Between { after, before })
    } else {
        None
    }
}

impl Picture {
    /// Returns the picture of an edge, before its packets.
    fn new(edge: Edge) -> Picture
        ensures { result ≡ new_picture edge }
    {
        Picture {
            id: edge.id,
            width: edge.width,
            begin: None,
            end: None,
        }
    }

    /// Returns whether the edge has the id of this picture.
    fn is_same(self, edge: Edge) -> bool
        ensures { result ≡ is_same edge self }
    {
        is_known(self, edge.id, edge.width)
    }

    /// Returns the highest number that is known.
    fn latest(self) -> u64
        ensures { result ≡ latest_of self }
    {
        or_zero(self.begin).max(or_zero(self.end))
    }

    /// Returns whether a packet with this number and edge fits to what is known.
    fn is_sound(self, number: u64, edge: Edge) -> bool
        ensures { result ≡ is_sound number edge self }
    {
        let new = self.with_edge(number, edge);
        is_kept(edge.begins, number, self.begin)
            && is_kept(edge.ends, number, self.end)
            && is_in_order(new.begin, new.end)
    }

    /// Returns the picture with one more packet.
    fn with_edge(self, number: u64, edge: Edge) -> Picture
        ensures { result ≡ with_edge number edge self }
    {
        Picture {
            begin: if edge.begins {
                Some(number)
            } else {
                self.begin
            },
            end: if edge.ends { Some(number) } else { self.end },
            ..self
        }
    }
}

/// Returns whether a picture has this id.
fn is_known(picture: Picture, id: u16, width: IdWidth) -> bool
    ensures { result ≡ is_known id width picture }
{
    picture.id == id && picture.width.ids() == width.ids()
}

/// Returns the picture at a place, if it has this id.
fn found_at(place: Option<Picture>, id: u16, width: IdWidth) -> Option<Picture>
    ensures { result ≡ found_at id width place }
{
    match place {
        Some(picture) if is_known(picture, id, width) => Some(picture),
        _ => None,
    }
}

/// Returns the first packet of a picture, if there is one.
fn begin_of(picture: Option<Picture>) -> Option<u64>
    ensures { result ≡ begin_of picture }
{
    picture?.begin
}

/// Returns the last packet of a picture, if there is one.
fn end_of(picture: Option<Picture>) -> Option<u64>
    ensures { result ≡ end_of picture }
{
    picture?.end
}

/// Returns the picture to which a packet with this number and edge belongs: the one at the place, or a new one that replaces it. An id
/// comes round after all the others, and so never within as many numbers. `None`: the picture at the place is a later one.
fn picture_for(number: u64, edge: Edge, place: Option<Picture>) -> Option<Picture>
    ensures { result ≡ picture_for number edge place }
{
    let Some(old) = place else {
        return Some(Picture::new(edge));
    };
    let latest = old.latest();
    let apart = number.max(latest) - number.min(latest);
    if old.is_same(edge) && apart < edge.width.ids() {
        Some(old)
    } else if latest < number {
        Some(Picture::new(edge))
    } else {
        None
    }
}

/// Returns whether a number is in one of these ranges.
fn has_noted(ranges: &[Option<Between>], number: u64) -> bool
    ensures { result ≡ has_noted number ranges.now }
{
    for range in ranges {
        if let Some(range) = range
            && range.after < number
            && number < range.before
        {
            return true;
        }
    }
    false
}

impl Gaps {
    /// Returns none.
    fn none() -> Gaps
        ensures { result ≡ no_gaps }
    {
        Gaps {
            before: None,
            after: None,
        }
    }
}

impl PictureEdges {
    /// Returns the state before the first packet. Does not allocate.
    pub fn none() -> PictureEdges
        ensures { result ≡ no_edges }
    {
        PictureEdges {
            places: [None; PICTURES],
            noted: [None; RANGES],
            next: 0,
            is_trusted: true,
        }
    }

    /// Forgets everything, since another sender begins: after a restart ids and numbers are other ones.
    pub fn forget(&mut self)
        ensures { self.new ≡ no_edges }
    {
        *self = PictureEdges::none();
    }

    /// Records that the sender does not keep the rule. Until [`PictureEdges::forget`] no numbers are found.
    pub fn distrust(&mut self)
        ensures { self.new ≡ distrusted self.old }
    {
        self.is_trusted = false;
    }

    /// Returns whether the sender has kept the rule so far.
    pub fn is_trusted(&self) -> bool
        ensures { result ≡ self.now.is_trusted }
    {
        self.is_trusted
    }

    /// Records that the numbers of a range were noted as numbers without media. The latest 8 ranges are remembered.
    pub fn note(&mut self, between: Between)
        ensures { self.new ≡ with_noted between self.old }
    {
        self.noted[self.next] = Some(between);
        self.next = (self.next + 1) % RANGES;
    }

    /// Records that media arrived under this number, for the first time. If the number was noted as one without media, the sender does
    /// not keep the rule.
    pub fn check(&mut self, number: u64)
        ensures { self.new ≡ checked number self.old }
    {
        if has_noted(&self.noted, number) {
            self.is_trusted = false;
        }
    }

    /// Records that a packet with this number and this edge was stored, and returns the numbers beside it that carry no media. If it
    /// contradicts what was known, the sender does not keep the rule, and none are returned.
    pub fn hear(&mut self, number: u64, edge: Edge) -> Gaps
        ensures state { self.new ≡ (heard number edge self.old).0 }
        ensures gaps { result ≡ (heard number edge self.old).1 }
    {
        if !self.is_trusted || !(edge.begins || edge.ends) {
            return Gaps::none();
        }
        match picture_for(number, edge, self.place(edge.id)) {
            Some(picture) => self.hear_in(picture, number, edge),
            None => Gaps::none(),
        }
    }

    /// Records the same of a packet of this picture.
    fn hear_in(&mut self, picture: Picture, number: u64, edge: Edge) -> Gaps
        ensures state { self.new ≡ (heard_in number edge self.old picture).0 }
        ensures gaps { result ≡ (heard_in number edge self.old picture).1 }
    {
        if !picture.is_sound(number, edge) {
            self.is_trusted = false;
            return Gaps::none();
        }
        self.places[usize::from(edge.id) % PICTURES] = Some(picture.with_edge(number, edge));
        self.gaps_at(number, edge)
    }

    /// Returns the picture at the place of an id.
    fn place(&self, id: u16) -> Option<Picture>
        ensures { result ≡ slice_index_or self.now.places (id % 32) None }
    {
        self.places[usize::from(id) % PICTURES]
    }

    /// Returns the picture with this id.
    fn find(&self, id: u16, width: IdWidth) -> Option<Picture>
        ensures { result ≡ found_at id width (slice_index_or self.now.places (id % 32) None) }
    {
        found_at(self.place(id), id, width)
    }

    /// Returns the numbers without media beside a packet.
    fn gaps_at(&self, number: u64, edge: Edge) -> Gaps
        ensures { result ≡ gaps_at number edge self.now.places }
    {
        let before = if edge.begins {
            let prior = self.find(edge.width.prior(edge.id), edge.width);
            between_of(end_of(prior), Some(number))
        } else {
            None
        };
        let after = if edge.ends {
            let next = self.find(edge.width.next(edge.id), edge.width);
            between_of(Some(number), begin_of(next))
        } else {
            None
        };
        Gaps { before, after }
    }
}
