//! A list of SSRCs, which finds the places of an SSRC by a search.

ghost use Rattle.std.specs.Prelude.{◌≡◌, ◌<◌, ◌≤◌, IfOk, OnErr, OnOk, ℕ, List, [], ◌∷◌, ◌++◌, length, map, nat_lt, true};
ghost use Rattle.std.specs.List.{AllWithin, remove};
ghost use Rattle.std.specs.List.Sorted.{IsPartitionPoint};
ghost use Rattle.codec_payload_index.specs.Ssrcs.{IsFirstFrom, IsOnly, Rises, key, key_of, lowered};

use std::alloc::{AllocError, Global};
use std::marker::Model;

/// Up to how many SSRCs a walk is faster than a search.
const FEW: usize = 16;
/// How many places the first hints have.
const FIRST_HINTS: usize = 64;

/// A list of SSRCs. It may have an SSRC at several places.
#[derive(Debug, Drop)]
pub struct Ssrcs {
    list: Vec<u32>,
    /// An entry for each place, in rising order of SSRCs, and of places if the SSRC is the same.
    entries: Vec<Entry>,
    /// The entry that searches inspect first.
    near: usize,
    /// Where [`Ssrcs::approach`] last found the entries of an SSRC, at the place of its low bits: a power of two, or none. A hint
    /// counts only if the entries there are those of the SSRC, so any number may stand here.
    hints: Vec<u32>,
}

/// An SSRC, and a place of the list that has it.
#[derive(Clone, Copy, Debug)]
struct Entry {
    ssrc: u32,
    place: usize,
}

impl Model for Ssrcs {
    ghost use Rattle.std.specs.Prelude.{ℕ, List};
    ghost use Rattle.codec_payload_index.specs.Ssrcs.{AreEntries};

    ghost Value = { List ℕ };

    ghost view = { λ s. s.list.items };

    ghost invariant = { λ s. AreEntries s.list.items s.entries.items };
}

impl Ssrcs {
    /// Creates an empty list. Does not allocate.
    pub fn new(alloc: Global) -> Ssrcs
        ensures { result ≡ [] }
    {
        Ssrcs {
            list: Vec::new(alloc),
            entries: Vec::new(alloc),
            near: 0,
            hints: Vec::new(alloc),
        }
    }

    /// Returns the first place from `from` on that has this SSRC.
    #[inline(always)]
    pub fn find(&self, ssrc: u32, from: usize) -> Option<usize>
        ensures { IsFirstFrom from ssrc self.now result }
    {
        if self.list.len() <= FEW {
            walk(&self.list, ssrc, from)
        } else {
            self.look_up(ssrc, from)
        }
    }

    /// Returns the place that has this SSRC, if one place alone has it. `None`: no place has it, or several have it.
    #[inline(always)]
    pub fn find_only(&self, ssrc: u32) -> Option<usize>
        ensures { IsOnly ssrc self.now result }
    {
        if self.list.len() <= FEW {
            walk_only(&self.list, ssrc)
        } else {
            self.look_up_only(ssrc)
        }
    }

    /// Remembers where the entries of this SSRC are. Until the next call, [`Ssrcs::find`] needs no search for it. Where the latest call
    /// for the SSRC found them is inspected first.
    #[inline(always)]
    pub fn approach(&mut self, ssrc: u32)
        ensures { self.new ≡ self.old }
    {
        if self.list.len() > FEW {
            self.near = seek(&self.entries, &mut self.hints, ssrc);
        }
    }

    /// Finds the same place by a search. The entry that is near, and the one behind it, are inspected first.
    fn look_up(&self, ssrc: u32, from: usize) -> Option<usize>
        ensures { IsFirstFrom from ssrc self.now result }
    {
        let at = search_near(&self.entries, self.near, ssrc, from);
        if at >= self.entries.len() {
            return None;
        }
        let entry = self.entries[at];
        if entry.ssrc == ssrc {
            Some(entry.place)
        } else {
            None
        }
    }

    /// Finds the same place as [`Ssrcs::find_only`] by a search.
    fn look_up_only(&self, ssrc: u32) -> Option<usize>
        ensures { IsOnly ssrc self.now result }
    {
        let at = search_near(&self.entries, self.near, ssrc, 0);
        if at >= self.entries.len() {
            return None;
        }
        let entry = self.entries[at];
        if entry.ssrc != ssrc {
            return None;
        }
        let next = at + 1;
        if next >= self.entries.len() {
            return Some(entry.place);
        }
        if self.entries[next].ssrc == ssrc {
            return None;
        }
        Some(entry.place)
    }

    /// Adds an SSRC at the end.
    pub fn push(&mut self, ssrc: u32) -> Result<(), AllocError>
        ensures ok { OnOk result (self.new ≡ self.old ++ ssrc ∷ []) }
        ensures err { OnErr result (self.new ≡ self.old) }
    {
        self.list.reserve(1)?;
        self.entries.reserve(1)?;
        let place = self.list.len();
        widen(&mut self.hints, place);
        let at = search(&self.entries, ssrc, place);
        self.entries.insert(at, Entry { ssrc, place }).unwrap();
        self.list.push(ssrc).unwrap();
        Ok(())
    }

    /// Removes the SSRC at this place. Those behind it move one place to the front.
    pub fn remove(&mut self, place: usize)
        requires { place < length self.old }
        ensures { self.new ≡ remove self.old place }
    {
        let ssrc = self.list.remove(place);
        let at = search(&self.entries, ssrc, place);
        self.entries.remove(at);
        lower(&mut self.entries, place);
    }
}

/// Finds the first place from `from` on by a step for each place.
#[inline(always)]
fn walk(ssrcs: &[u32], ssrc: u32, from: usize) -> Option<usize>
    ensures { IsFirstFrom from ssrc ssrcs.now result }
{
    let mut place = from;
    while place < ssrcs.len() {
        if ssrcs[place] == ssrc {
            return Some(place);
        }
        place += 1;
    }
    None
}

/// Finds the place that alone has the SSRC by a step for each place.
#[inline(always)]
fn walk_only(ssrcs: &[u32], ssrc: u32) -> Option<usize>
    ensures { IsOnly ssrc ssrcs.now result }
{
    let Some(place) = walk(ssrcs, ssrc, 0) else {
        return None;
    };
    match walk(ssrcs, ssrc, place + 1) {
        None => Some(place),
        Some(_) => None,
    }
}

/// Returns how many entries come before this SSRC, or a number that does not matter if none has it. A hint that is wrong is replaced.
#[inline(always)]
fn seek(entries: &[Entry], hints: &mut Vec<u32>, ssrc: u32) -> usize
    requires { Rises entries.now }
{
    let slot = ssrc as usize & hints.len().wrapping_sub(1);
    if let Some(hint) = hints.get(slot) {
        let near = *hint as usize;
        if parts(entries, near, ssrc, 0) {
            return near;
        }
    }
    seek_anew(entries, hints, slot, ssrc)
}

/// Returns how many entries come before this SSRC, by a search, and keeps the number as the hint of this place.
#[inline(never)]
fn seek_anew(entries: &[Entry], hints: &mut Vec<u32>, slot: usize, ssrc: u32) -> usize
    requires { Rises entries.now }
{
    let near = search(entries, ssrc, 0);
    if let Some(hint) = hints.get_mut(slot) {
        *hint = (near % 4_294_967_296) as u32;
    }
    near
}

/// Makes room for at least twice as many hints as there are SSRCs, if a walk would not do. If memory runs out, the hints stay as they
/// are.
fn widen(hints: &mut Vec<u32>, count: usize) {
    let len = hints.len();
    if count < FEW || count < len / 2 {
        return;
    }
    let more = len.max(FIRST_HINTS);
    if hints.reserve(more).is_ok() {
        for _ in 0..more {
            if hints.push(0).is_err() {
                return;
            }
        }
    }
}

/// Returns how many entries come before this SSRC and place.
fn search(entries: &[Entry], ssrc: u32, from: usize) -> usize
    requires { Rises entries.now }
    ensures bound { result ≤ length entries.now }
    ensures point { IsPartitionPoint (λ e. key_of e < key ssrc from) (λ e. key ssrc from ≤ key_of e) entries.now result }
{
    entries.partition_point(|entry| comes_before(*entry, ssrc, from))
}

/// Returns the same. `near` and the number above it are tried first.
#[inline(always)]
fn search_near(entries: &[Entry], near: usize, ssrc: u32, from: usize) -> usize
    requires { Rises entries.now }
    ensures bound { result ≤ length entries.now }
    ensures point { IsPartitionPoint (λ e. key_of e < key ssrc from) (λ e. key ssrc from ≤ key_of e) entries.now result }
{
    if parts(entries, near, ssrc, from) {
        return near;
    }
    if near < entries.len() && parts(entries, near + 1, ssrc, from) {
        return near + 1;
    }
    search(entries, ssrc, from)
}

/// Returns whether exactly the first `at` entries come before this SSRC and place.
#[inline(always)]
fn parts(entries: &[Entry], at: usize, ssrc: u32, from: usize) -> bool
    requires { Rises entries.now }
    ensures bound { result ≡ true → at ≤ length entries.now }
    ensures point { result ≡ true → IsPartitionPoint (λ e. key_of e < key ssrc from) (λ e. key ssrc from ≤ key_of e) entries.now at }
{
    at <= entries.len() && are_before(entries, at, ssrc, from) && are_from(entries, at, ssrc, from)
}

/// Returns whether the first `at` entries come before this SSRC and place.
#[inline(always)]
fn are_before(entries: &[Entry], at: usize, ssrc: u32, from: usize) -> bool
    requires rises { Rises entries.now }
    requires within { at ≤ length entries.now }
    ensures { result ≡ true → AllWithin (λ e. key_of e < key ssrc from) entries.now 0 at }
{
    at == 0 || comes_before(entries[at - 1], ssrc, from)
}

/// Returns whether no entry behind the first `at` ones comes before this SSRC and place.
#[inline(always)]
fn are_from(entries: &[Entry], at: usize, ssrc: u32, from: usize) -> bool
    requires rises { Rises entries.now }
    requires within { at ≤ length entries.now }
    ensures { result ≡ true → AllWithin (λ e. key ssrc from ≤ key_of e) entries.now at (length entries.now) }
{
    at == entries.len() || !comes_before(entries[at], ssrc, from)
}

/// Returns whether the entry comes before this SSRC and place.
#[inline(always)]
fn comes_before(entry: Entry, ssrc: u32, from: usize) -> bool
    ensures { result ≡ nat_lt (key_of entry) (key ssrc from) }
{
    entry.ssrc < ssrc || (entry.ssrc == ssrc && entry.place < from)
}

/// Moves the entries of all places behind this one to the front by one place.
fn lower(entries: &mut Vec<Entry>, place: usize)
    ensures { entries.new.items ≡ map (lowered place) entries.old.items }
{
    for at in 0..entries.len() {
        entries[at] = lowered(entries[at], place);
    }
}

/// Returns the entry once a place is removed.
fn lowered(entry: Entry, place: usize) -> Entry
    ensures { result ≡ lowered place entry }
{
    if place < entry.place {
        Entry {
            ssrc: entry.ssrc,
            place: entry.place - 1,
        }
    } else {
        entry
    }
}
