//! The missing packets of a stream, and since when each is missing.

ghost use Rattle.std.specs.Prelude.{◌≡◌, ◌<◌, IfSome, length};
ghost use Rattle.std.specs.List.{position};
ghost use Rattle.codec_payload_feedback_wait.specs.Gaps.{gap_with, is_at, is_lost, is_lost_at, lost_in, no_gaps, since_at, since_of, unless_lost, without_lost, without_place};

use std::marker::Model;

/// How many missing packets are followed.
const MOST: usize = 64;

/// A missing packet.
#[derive(Clone, Copy, Debug, PartialEq, Eq)]
pub(crate) struct Gap {
    pub(crate) number: u64,
    /// When it was first reported missing.
    pub(crate) since: u64,
}

/// The latest 64 missing packets.
#[derive(Clone, Copy, Debug)]
pub(crate) struct Gaps {
    /// A new one replaces the oldest.
    places: [Option<Gap>; MOST],
    /// The index of the next one.
    next: usize,
}

impl Model for Gaps {
    ghost use Rattle.std.specs.Prelude.{◌≡◌, ◌<◌, length};
    ghost use Rattle.codec_payload_feedback_wait.specs.Gaps.{Followed};

    ghost Value = { Followed };

    ghost view = { λ g. record { places = g.places; next = g.next } };

    ghost inverse = { λ g. record { places = g.places; next = g.next } };

    ghost invariant = { λ g. (length g.places ≡ 64) × (g.next < 64) };
}

impl Gaps {
    /// Returns the state without a missing packet.
    pub(crate) fn none() -> Gaps
        ensures { result ≡ no_gaps }
    {
        Gaps {
            places: [None; MOST],
            next: 0,
        }
    }

    /// Follows one more missing packet, in place of the oldest.
    pub(crate) fn follow(&mut self, gap: Gap)
        ensures { self.new ≡ gap_with gap self.old }
    {
        self.places[self.next] = Some(gap);
        self.next = (self.next + 1) % MOST;
    }

    /// Removes the packets that are missing for `lost_after` ticks or longer, and returns how many they are.
    pub(crate) fn remove_lost(&mut self, now: u64, lost_after: u64) -> usize
        ensures count { result ≡ lost_in now lost_after self.old.places }
        ensures left { self.new ≡ record self.old { places = without_lost now lost_after self.old.places } }
    {
        let lost = count_lost(&self.places, now, lost_after);
        clear_lost(&mut self.places, now, lost_after);
        lost
    }

    /// Removes the first followed packet with these 16 bits, and returns since when it was missing.
    pub(crate) fn remove(&mut self, number: u16) -> Option<u64>
        ensures since { result ≡ since_of number self.old.places }
        ensures left { self.new ≡ record self.old { places = without_place number self.old.places } }
    {
        let index = place_of(&self.places, number)?;
        let since = since_at(&self.places[index]);
        self.places[index] = None;
        since
    }
}

/// Returns whether a packet is missing for `lost_after` ticks or longer.
fn is_lost(gap: Gap, now: u64, lost_after: u64) -> bool
    ensures { result ≡ is_lost now lost_after gap }
{
    now.saturating_sub(gap.since) >= lost_after
}

/// Returns since when the packet at a place is missing.
fn since_at(place: &Option<Gap>) -> Option<u64>
    ensures { result ≡ since_at place.now }
{
    match place {
        Some(gap) => Some(gap.since),
        None => None,
    }
}

/// Returns whether the packet at a place is missing for `lost_after` ticks or longer.
fn is_lost_at(place: &Option<Gap>, now: u64, lost_after: u64) -> bool
    ensures { result ≡ is_lost_at now lost_after place.now }
{
    match place {
        Some(gap) => is_lost(*gap, now, lost_after),
        None => false,
    }
}

/// Returns how many packets are missing for `lost_after` ticks or longer.
fn count_lost(places: &[Option<Gap>], now: u64, lost_after: u64) -> usize
    ensures { result ≡ lost_in now lost_after places.now }
{
    let mut lost = 0;
    for place in places {
        if is_lost_at(place, now, lost_after) {
            lost += 1;
        }
    }
    lost
}

/// Returns what is left of a place once lost packets are removed.
fn unless_lost(place: Option<Gap>, now: u64, lost_after: u64) -> Option<Gap>
    ensures { result ≡ unless_lost now lost_after place }
{
    if is_lost_at(&place, now, lost_after) {
        None
    } else {
        place
    }
}

/// Empties the places of the packets that are missing for `lost_after` ticks or longer.
fn clear_lost(places: &mut [Option<Gap>], now: u64, lost_after: u64)
    ensures { places.new ≡ without_lost now lost_after places.old }
{
    for place in places.iter_mut() {
        *place = unless_lost(*place, now, lost_after);
    }
}

/// Returns whether a place holds a packet with these 16 bits.
fn is_at(place: &Option<Gap>, number: u16) -> bool
    ensures { result ≡ is_at number place.now }
{
    match place {
        Some(gap) => gap.number % 65_536 == u64::from(number),
        None => false,
    }
}

/// Returns the first place of a packet with these 16 bits.
fn place_of(places: &[Option<Gap>], number: u16) -> Option<usize>
    ensures value { result ≡ position (is_at number) places.now }
    ensures within { IfSome result (λ index. index < length places.now) }
{
    places.iter().position(|place| is_at(place, number))
}
