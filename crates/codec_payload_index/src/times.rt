//! A list of times, which knows the least one and finds the first one that has come. It has levels: each level above the first has
//! the lesser of each two times of the level below it.

ghost use Rattle.std.specs.Prelude.{◌≡◌, ◌<◌, ◌≤◌, IfOk, ℕ, List, [], ◌+◌, ◌*◌, ◌/◌, Option, length, nat_le, slice_get, slice_index, slice_set};
ghost use Rattle.codec_payload_index.specs.Times.{AreLevels, bottom, chosen, first_come, first_come_from, halved, has_come, least_of};

use std::alloc::{AllocError, Global};
use std::marker::Model;

/// A list of times. 2^64 - 1 is none.
#[derive(Debug, Drop)]
pub struct Times {
    levels: Vec<Vec<u64>>,
}

impl Model for Times {
    ghost Value = { List ℕ };

    ghost view = { λ t. bottom t.levels.items };

    ghost invariant = { λ t. AreLevels t.levels.items };
}

impl Times {
    /// Returns an empty list. Does not allocate.
    pub fn new(alloc: Global) -> Times
        ensures { result ≡ [] }
    {
        Times {
            levels: Vec::new(alloc),
        }
    }

    /// Returns a list with these times.
    pub fn of(alloc: Global, times: Vec<u64>) -> Result<Times, AllocError>
        ensures { IfOk result (λ made. made ≡ times.items) }
    {
        let levels = levels_of(alloc, times)?;
        Ok(Times { levels })
    }

    /// Returns the number of times.
    pub fn len(&self) -> usize
        ensures { result ≡ length self.now }
    {
        first_level(&self.levels).len()
    }

    /// Returns the least time, or 2^64 - 1 without one.
    pub fn least(&self) -> u64
        ensures { result ≡ least_of self.now }
    {
        least(&self.levels)
    }

    /// Replaces the time at a place.
    pub fn set(&mut self, place: usize, time: u64)
        requires { place < length self.old }
        ensures { self.new ≡ slice_set self.old place time }
    {
        set(&mut self.levels, place, time);
    }

    /// Returns the first place whose time has come.
    pub fn first(&self, now: u64) -> Option<usize>
        ensures { result ≡ first_come now self.now }
    {
        first(&self.levels, now)
    }

    /// Returns the first place from `from` on whose time has come.
    pub fn first_from(&self, from: usize, now: u64) -> Option<usize>
        ensures { result ≡ first_come_from from now self.now }
    {
        if from == 0 {
            return self.first(now);
        }
        first_from(&self.levels, from, now)
    }
}

/// Returns the first level.
fn first_level(levels: &[Vec<u64>]) -> &[u64]
    ensures { result.now ≡ bottom levels.now }
{
    match levels {
        [level, ..] => level,
        [] => &[],
    }
}

/// Returns the level above this one.
fn above(alloc: Global, level: &[u64]) -> Result<Vec<u64>, AllocError>
    ensures { IfOk result (λ higher. higher.items ≡ halved level.now) }
{
    let count = level.len() / 2 + level.len() % 2;
    let mut higher = Vec::new(alloc);
    for pair in 0..count {
        higher.push(lesser(level, pair))?;
    }
    Ok(higher)
}

/// Returns the levels over these times.
fn levels_of(alloc: Global, times: Vec<u64>) -> Result<Vec<Vec<u64>>, AllocError>
    ensures levels { IfOk result (λ levels. AreLevels levels.items) }
    ensures times { IfOk result (λ levels. bottom levels.items ≡ times.items) }
{
    let mut levels = Vec::new(alloc);
    let mut last = times;
    while last.len() > 1 {
        let next = above(alloc, &last)?;
        levels.push(last)?;
        last = next;
    }
    levels.push(last)?;
    Ok(levels)
}

/// Returns the lesser of the two times at the places `2 * pair` and `2 * pair + 1`, or the only one.
fn lesser(level: &[u64], pair: usize) -> u64
    requires { 2 * pair < length level.now }
    ensures { result ≡ slice_index (halved level.now) pair }
{
    let place = 2 * pair;
    let first = level[place];
    if place + 1 < level.len() {
        first.min(level[place + 1])
    } else {
        first
    }
}

/// Replaces the time at a place of a level, and returns what the level above has of it from then on.
fn set_at(level: &mut Vec<u64>, place: usize, time: u64) -> u64
    requires { place < length level.old.items }
    ensures level { level.new.items ≡ slice_set level.old.items place time }
    // The level above is right again once this is its time at half the place.
    ensures above { slice_set (halved level.old.items) (place / 2) result ≡ halved level.new.items }
    ensures within { place / 2 < length (halved level.new.items) }
{
    level[place] = time;
    lesser(&*level, place / 2)
}

/// Returns the first place of a pair, if its time has come, and else the second one.
fn place_in(level: &[u64], pair: usize, now: u64) -> usize
    requires { 2 * pair < length level.now }
    ensures { Option.Some result ≡ chosen (nat_le (slice_index level.now (2 * pair)) now) (2 * pair) }
{
    let place = 2 * pair;
    if level[place] <= now {
        place
    } else {
        place + 1
    }
}

/// Returns the first place of a level whose time has come. `pair` is the first such place of the level above.
fn first_below(level: &[u64], pair: Option<usize>, now: u64) -> Option<usize>
    requires { pair ≡ first_come now (halved level.now) }
    ensures { result ≡ first_come now level.now }
{
    match pair {
        Some(pair) => Some(place_in(level, pair, now)),
        None => None,
    }
}

/// Replaces the time at a place, in the levels in which it changes a time.
fn set(levels: &mut Vec<Vec<u64>>, place: usize, time: u64)
    requires levels { AreLevels levels.old.items }
    requires place { place < length (bottom levels.old.items) }
    ensures levels { AreLevels levels.new.items }
    ensures times { bottom levels.new.items ≡ slice_set (bottom levels.old.items) place time }
{
    let mut place_there = place;
    let mut time_there = time;
    let mut level = 0;
    while level < levels.len() {
        if levels[level][place_there] == time_there {
            return;
        }
        time_there = set_at(&mut levels[level], place_there, time_there);
        place_there = place_there / 2;
        level += 1;
    }
}

/// Returns the time of the last level.
fn least_at_top(top: &[u64]) -> u64
    requires { length top.now ≤ 1 }
    ensures { result ≡ least_of top.now }
{
    match top {
        [time, ..] => *time,
        [] => u64::MAX,
    }
}

/// Returns the least time.
fn least(levels: &Vec<Vec<u64>>) -> u64
    requires { AreLevels levels.now.items }
    ensures { result ≡ least_of (bottom levels.now.items) }
{
    if levels.len() == 0 {
        return u64::MAX;
    }
    least_at_top(&levels[levels.len() - 1])
}

/// Returns the first place of the last level whose time has come.
fn first_at_top(top: &[u64], now: u64) -> Option<usize>
    requires { length top.now ≤ 1 }
    ensures { result ≡ first_come now top.now }
{
    match top {
        [time, ..] if *time <= now => Some(0),
        _ => None,
    }
}

/// Returns the first place whose time has come.
fn first(levels: &Vec<Vec<u64>>, now: u64) -> Option<usize>
    requires { AreLevels levels.now.items }
    ensures { result ≡ first_come now (bottom levels.now.items) }
{
    let mut level = levels.len();
    if level == 0 {
        return None;
    }
    level -= 1;
    let mut place = first_at_top(&levels[level], now);
    while level > 0 {
        level -= 1;
        place = first_below(&levels[level], place, now);
    }
    place
}

/// Returns whether there is a time at this place, and has come.
fn has_come(level: &[u64], place: usize, now: u64) -> bool
    ensures { result ≡ has_come (slice_get level.now place) now }
{
    match level.get(place) {
        Some(time) => *time <= now,
        None => false,
    }
}

/// Returns the first place from `from` on in the first of these levels whose time has come. It climbs only as far as no time has
/// come, at most to the last level.
fn first_from(levels: &[Vec<u64>], from: usize, now: u64) -> Option<usize>
    requires { AreLevels levels.now }
    ensures { result ≡ first_come_from from now (bottom levels.now) }
{
    let [level, above @ ..] = levels else {
        return None;
    };
    if has_come(level, from, now) {
        return Some(from);
    }
    if above.len() == 0 {
        return None;
    }
    match first_from(above, from / 2 + from % 2, now) {
        Some(pair) => Some(place_in(level, pair, now)),
        None => None,
    }
}
