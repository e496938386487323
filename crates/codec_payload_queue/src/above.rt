//! The tiers above the first one.

ghost use Rattle.std.specs.Prelude.{◌≡◌, ◌<◌, ◌≤◌, ◌+◌, ◌-◌, ◌*◌, ◌++◌, ◌∷◌, ◌↔◌, [], length, IfSome, IsSome, OnErr, OnOk, Option, option_map, slice_index_or};
ghost use Rattle.std.specs.List.{insert};
ghost use Rattle.std.specs.List.Sorted.{IsNonDecreasingBy, IsPartitionPoint};
ghost use Rattle.std.specs.Vec.{vec_len, vec_capacity};
ghost use Rattle.std.specs.VecDeque.{deque_len, deque_capacity};
ghost use Rattle.codec_payload_queue.specs.Tiers.{AreTiers, IsNext, IsTiered, room_of, IsNotedAt, IsSpare, count_of, in_tiers, room_above, spare_of, spare_room, tiers_of, with_carried};

use crate::search::{Numbered, put_at, search_in};
use crate::tiers::Noted;
use std::alloc::{AllocError, Global};
use std::collections::VecDeque;
use std::mem;

/// The largest number of items in a tier.
pub(super) const TIER: usize = 1_024;

/// The tiers above the first one. All are full, except the last one.
#[derive(Debug, Drop)]
pub(super) struct Above<T> {
    pub(super) tiers: Vec<VecDeque<T>>,
    /// An empty tier, for the next one that is needed.
    pub(super) spare: Option<VecDeque<T>>,
    /// The number of items in the tiers.
    pub(super) count: usize,
}

/// Returns the last item of these tiers.
#[cold]
#[inline(never)]
pub(super) fn last_of<T>(tiers: &Vec<VecDeque<T>>) -> Option<&T>
    requires some { 0 < length tiers.now.items }
    requires tiers { AreTiers 1 tiers.now.items }
    ensures variant { IsSome result ↔ (0 < length (in_tiers tiers.now.items)) }
    ensures value { IfSome result (λ x. x.now ≡ slice_index_or (in_tiers tiers.now.items) (length (in_tiers tiers.now.items) - 1) x.now) }
{
    tiers[tiers.len() - 1].back()
}

/// Returns the item at a place in these tiers.
#[cold]
#[inline(never)]
pub(super) fn item_of<T>(tiers: &Vec<VecDeque<T>>, place: usize) -> &T
    requires tiers { AreTiers 1 tiers.now.items }
    requires place { place < length (in_tiers tiers.now.items) }
    ensures { result.now ≡ slice_index_or (in_tiers tiers.now.items) place result.now }
{
    &tiers[place / TIER][place % TIER]
}

/// Writes a note into the item at a place in these tiers.
#[cold]
#[inline(never)]
pub(super) fn note_in<N: Drop, T: Noted<N>>(tiers: &mut Vec<VecDeque<T>>, place: usize, note: N)
    requires tiers { AreTiers 1 tiers.old.items }
    requires place { place < length (in_tiers tiers.old.items) }
    ensures tiers { AreTiers 1 tiers.new.items }
    ensures items { IsNotedAt T.is_noted place note (in_tiers tiers.old.items) (in_tiers tiers.new.items) }
    ensures len { vec_len tiers.new ≡ vec_len tiers.old }
    ensures capacity { vec_capacity tiers.new ≡ vec_capacity tiers.old }
{
    tiers[place / TIER][place % TIER].note(note);
}

/// Inserts an item into a full tier, and returns its last item.
fn put_in<T>(tier: &mut VecDeque<T>, place: usize, item: T) -> T
    requires place { place < deque_len tier.old }
    ensures items { tier.new.items ++ result ∷ [] ≡ insert tier.old.items place item }
    ensures len { deque_len tier.new ≡ deque_len tier.old }
    ensures capacity { deque_capacity tier.old ≤ deque_capacity tier.new }
{
    let last = tier.pop_back().unwrap();
    put_at(tier, place, item);
    last
}

/// Puts an item in front of a full tier, and returns its last item.
fn shift<T>(tier: &mut VecDeque<T>, item: T) -> T
    requires { 0 < deque_len tier.old }
    ensures items { tier.new.items ++ result ∷ [] ≡ item ∷ tier.old.items }
    ensures len { deque_len tier.new ≡ deque_len tier.old }
    ensures capacity { deque_capacity tier.old ≤ deque_capacity tier.new }
{
    let last = tier.pop_back().unwrap();
    tier.push_front(item).unwrap();
    last
}

/// Puts an item in front of tier `from`, moves the last item of that tier in front of the next tier, and so on. The last tier has
/// room.
fn carry<T>(tiers: &mut Vec<VecDeque<T>>, from: usize, item: T)
    requires tiers { AreTiers 0 tiers.old.items }
    requires from { from < length tiers.old.items }
    requires room { length (in_tiers tiers.old.items) < 1024 * length tiers.old.items }
    ensures tiers { AreTiers 1 tiers.new.items }
    ensures items { in_tiers tiers.new.items ≡ with_carried from item tiers.old.items }
    ensures len { vec_len tiers.new ≡ vec_len tiers.old }
    ensures capacity { vec_capacity tiers.new ≡ vec_capacity tiers.old }
{
    let last = tiers.len() - 1;
    let mut carried = item;
    let mut tier = from;
    while tier < last {
        carried = shift(&mut tiers[tier], carried);
        tier += 1;
    }
    tiers[tier].push_front(carried).unwrap();
}

/// Inserts an item at a place in these tiers. The last tier has room.
fn put_above<T>(tiers: &mut Vec<VecDeque<T>>, place: usize, item: T)
    requires tiers { AreTiers 0 tiers.old.items }
    requires place { place ≤ length (in_tiers tiers.old.items) }
    requires room { length (in_tiers tiers.old.items) < 1024 * length tiers.old.items }
    ensures tiers { AreTiers 1 tiers.new.items }
    ensures items { in_tiers tiers.new.items ≡ insert (in_tiers tiers.old.items) place item }
    ensures len { vec_len tiers.new ≡ vec_len tiers.old }
    ensures capacity { vec_capacity tiers.new ≡ vec_capacity tiers.old }
{
    let tier = place / TIER;
    let slot = place % TIER;
    if tier + 1 == tiers.len() {
        put_at(&mut tiers[tier], slot, item);
    } else {
        let carried = put_in(&mut tiers[tier], slot, item);
        carry(tiers, tier + 1, carried);
    }
}

/// Inserts an item at a place in the first tier, which is full, or in the tiers above it. The last tier has room. One item of
/// each tier above the place moves to the next tier.
#[inline(never)]
pub(super) fn put_far<T>(
    first: &mut VecDeque<T>,
    tiers: &mut Vec<VecDeque<T>>,
    place: usize,
    item: T,
)
    requires tiers { AreTiers 0 tiers.old.items }
    requires place { place ≤ length (first.old.items ++ in_tiers tiers.old.items) }
    requires room { length (in_tiers tiers.old.items) < 1024 * length tiers.old.items }
    ensures items { first.new.items ++ in_tiers tiers.new.items ≡ insert (first.old.items ++ in_tiers tiers.old.items) place item }
    ensures first_len { deque_len first.new ≡ deque_len first.old }
    ensures first_capacity { deque_capacity first.old ≤ deque_capacity first.new }
    ensures tiers { AreTiers 1 tiers.new.items }
    ensures len { vec_len tiers.new ≡ vec_len tiers.old }
    ensures capacity { vec_capacity tiers.new ≡ vec_capacity tiers.old }
{
    let len = first.len();
    if place < len {
        let carried = put_in(first, place, item);
        carry(tiers, 0, carried);
    } else {
        put_above(tiers, place - len, item);
    }
}

/// Sees to it that the last tier has room: if it is full, or there is none, the spare tier becomes the last one.
#[inline(never)]
pub(super) fn open_tier<T: Drop>(
    tiers: &mut Vec<VecDeque<T>>,
    spare: &mut Option<VecDeque<T>>,
    above: usize,
)
    requires tiers { AreTiers 1 tiers.old.items }
    requires counted { above ≡ length (in_tiers tiers.old.items) }
    requires spare { IsSpare tiers.old spare.old }
    requires room { 0 < room_above tiers.old.items + spare_room spare.old }
    ensures tiers { AreTiers 0 tiers.new.items }
    ensures items { in_tiers tiers.new.items ≡ in_tiers tiers.old.items }
    ensures place { above < 1024 * length tiers.new.items }
    ensures room { room_above tiers.new.items + spare_room spare.new ≡ room_above tiers.old.items + spare_room spare.old }
    ensures spare { IsSpare tiers.new spare.new }
    ensures less { spare_room spare.new ≤ spare_room spare.old }
    ensures more { length tiers.old.items ≤ length tiers.new.items }
    ensures wide { length tiers.old.items < length tiers.new.items → 0 < spare_room spare.old }
{
    if above % TIER != 0 {
        return;
    }
    if let Some(tier) = spare.take() {
        tiers.push_reserved(tier);
    }
}

/// Makes the next tier the first one, which has no items left. The old one becomes the spare tier, if there is none.
#[cold]
#[inline(never)]
pub(super) fn refill<T: Drop>(
    first: &mut VecDeque<T>,
    tiers: &mut Vec<VecDeque<T>>,
    spare: &mut Option<VecDeque<T>>,
)
    requires empty { deque_len first.old ≡ 0 }
    requires wide { 1024 ≤ deque_capacity first.old }
    requires some { 0 < length tiers.old.items }
    requires tiers { AreTiers 1 tiers.old.items }
    requires spare { IsSpare tiers.old spare.old }
    ensures items { first.new.items ++ in_tiers tiers.new.items ≡ in_tiers tiers.old.items }
    ensures some { 0 < deque_len first.new }
    ensures few { deque_len first.new ≤ 1024 }
    ensures wide { 1024 ≤ deque_capacity first.new }
    ensures tiers { AreTiers 1 tiers.new.items }
    ensures len { length tiers.new.items + 1 ≡ length tiers.old.items }
    ensures full { 0 < length tiers.new.items → deque_len first.new ≡ 1024 }
    ensures spare { IsSpare tiers.new spare.new }
    ensures kept { spare_room spare.new ≡ 1024 }
    ensures more { spare_room spare.old ≤ spare_room spare.new }
{
    let next = tiers.remove(0);
    let old = mem::replace(first, next);
    if spare.is_none() {
        *spare = Some(old);
    }
}

/// Returns how many items in these tiers have a lower number. It compares the last items of tiers, and then searches in one tier.
pub(super) fn search_tiers<T: Numbered>(tiers: &Vec<VecDeque<T>>, number: u64) -> usize
    requires some { 0 < length tiers.now.items }
    requires tiers { AreTiers 1 tiers.now.items }
    requires rises { IsNonDecreasingBy T.number_of (in_tiers tiers.now.items) }
    requires limit { length (in_tiers tiers.now.items) ≤ usize.MAX }
    ensures bound { result ≤ length (in_tiers tiers.now.items) }
    ensures point { IsPartitionPoint (λ x. T.number_of x < number) (λ x. number ≤ T.number_of x) (in_tiers tiers.now.items) result }
{
    let mut low = 0;
    let mut high = tiers.len() - 1;
    while low < high {
        let middle = low + (high - low) / 2;
        if tiers[middle][TIER - 1].number() < number {
            low = middle + 1;
        } else {
            high = middle;
        }
    }
    low * TIER + search_in(&tiers[low], number)
}

/// Returns the last item of the tiers above the first one.
#[cold]
#[inline(never)]
pub(super) fn last_above<T>(above: &Option<Box<Above<T>>>) -> Option<&T>
    requires tiers { AreTiers 1 (tiers_of (option_map (λ b. b.value) above.now)) }
    ensures variant { IsSome result ↔ (0 < length (in_tiers (tiers_of (option_map (λ b. b.value) above.now)))) }
    ensures value { IfSome result (λ x. x.now ≡ slice_index_or (in_tiers (tiers_of (option_map (λ b. b.value) above.now))) (length (in_tiers (tiers_of (option_map (λ b. b.value) above.now))) - 1) x.now) }
{
    match above {
        Some(above) if above.tiers.len() > 0 => last_of(&above.tiers),
        _ => None,
    }
}

/// Returns the item at a place in the tiers above the first one.
#[cold]
#[inline(never)]
pub(super) fn item_above<T>(above: &Option<Box<Above<T>>>, place: usize) -> &T
    requires tiers { AreTiers 1 (tiers_of (option_map (λ b. b.value) above.now)) }
    requires place { place < length (in_tiers (tiers_of (option_map (λ b. b.value) above.now))) }
    ensures { result.now ≡ slice_index_or (in_tiers (tiers_of (option_map (λ b. b.value) above.now))) place result.now }
{
    match above {
        Some(above) => item_of(&above.tiers, place),
        None => unreachable!(),
    }
}

/// Writes a note into the item at a place in the tiers above the first one.
#[cold]
#[inline(never)]
pub(super) fn note_above<N: Drop, T: Noted<N>>(
    above: &mut Option<Box<Above<T>>>,
    place: usize,
    note: N,
)
    requires tiers { AreTiers 1 (tiers_of (option_map (λ b. b.value) above.old)) }
    requires place { place < length (in_tiers (tiers_of (option_map (λ b. b.value) above.old))) }
    ensures tiers { AreTiers 1 (tiers_of (option_map (λ b. b.value) above.new)) }
    ensures items { IsNotedAt T.is_noted place note (in_tiers (tiers_of (option_map (λ b. b.value) above.old))) (in_tiers (tiers_of (option_map (λ b. b.value) above.new))) }
    ensures len { length (tiers_of (option_map (λ b. b.value) above.new)) ≡ length (tiers_of (option_map (λ b. b.value) above.old)) }
    ensures spare { spare_of (option_map (λ b. b.value) above.new) ≡ spare_of (option_map (λ b. b.value) above.old) }
    ensures next { IsNext (option_map (λ b. b.value) above.old) → IsNext (option_map (λ b. b.value) above.new) }
    ensures count { count_of (option_map (λ b. b.value) above.new) ≡ count_of (option_map (λ b. b.value) above.old) }
{
    match above {
        Some(above) => note_in(&mut above.tiers, place, note),
        None => unreachable!(),
    }
}

/// Inserts an item at a place in the first tier, which is full, or above it.
fn insert_into<T: Drop>(first: &mut VecDeque<T>, above: &mut Above<T>, place: usize, item: T)
    requires tiered { IsTiered first.old (Option.Some above.old) }
    requires place { place ≤ length (first.old.items ++ in_tiers above.old.tiers.items) }
    requires far { deque_len first.old < 1024 → deque_len first.old < place }
    requires room { 0 < room_of first.old (Option.Some above.old) }
    requires few { length (first.old.items ++ in_tiers above.old.tiers.items) < usize.MAX }
    ensures tiered { IsTiered first.new (Option.Some above.new) }
    ensures items { first.new.items ++ in_tiers above.new.tiers.items ≡ insert (first.old.items ++ in_tiers above.old.tiers.items) place item }
    ensures room { room_of first.old (Option.Some above.old) ≤ room_of first.new (Option.Some above.new) + 1 }
{
    let count = above.count;
    above.count += 1;
    open_tier(&mut above.tiers, &mut above.spare, count);
    put_far(first, &mut above.tiers, place, item);
}

/// Inserts an item at a place in the first tier, which is full, or above it.
#[inline(never)]
pub(super) fn insert_above<T: Drop>(
    first: &mut VecDeque<T>,
    above: &mut Option<Box<Above<T>>>,
    place: usize,
    item: T,
)
    requires tiered { IsTiered first.old (option_map (λ b. b.value) above.old) }
    requires place { place ≤ length (first.old.items ++ in_tiers (tiers_of (option_map (λ b. b.value) above.old))) }
    requires far { deque_len first.old < 1024 → deque_len first.old < place }
    requires room { 0 < room_of first.old (option_map (λ b. b.value) above.old) }
    requires few { length (first.old.items ++ in_tiers (tiers_of (option_map (λ b. b.value) above.old))) < usize.MAX }
    ensures tiered { IsTiered first.new (option_map (λ b. b.value) above.new) }
    ensures items { first.new.items ++ in_tiers (tiers_of (option_map (λ b. b.value) above.new)) ≡ insert (first.old.items ++ in_tiers (tiers_of (option_map (λ b. b.value) above.old))) place item }
    ensures room { room_of first.old (option_map (λ b. b.value) above.old) ≤ room_of first.new (option_map (λ b. b.value) above.new) + 1 }
{
    match above {
        Some(above) => insert_into(first, above, place, item),
        None => unreachable!(),
    }
}

/// Makes the next tier the first one, which has no items left, if there is another tier.
fn refill_from<T: Drop>(first: &mut VecDeque<T>, above: &mut Above<T>)
    requires empty { deque_len first.old ≡ 0 }
    requires wide { 0 < length above.old.tiers.items → 1024 ≤ deque_capacity first.old }
    requires ready { 0 < spare_room above.old.spare → 1024 ≤ deque_capacity first.old }
    requires counted { above.old.count ≡ length (in_tiers above.old.tiers.items) }
    requires tiers { AreTiers 1 above.old.tiers.items }
    requires next { IsSpare above.old.tiers above.old.spare }
    requires fits { length (in_tiers above.old.tiers.items) < 18446744073709551616 }
    ensures tiered { IsTiered first.new (Option.Some above.new) }
    ensures items { first.new.items ++ in_tiers above.new.tiers.items ≡ in_tiers above.old.tiers.items }
    ensures room { room_of first.old (Option.Some above.old) ≤ room_of first.new (Option.Some above.new) }
{
    if above.tiers.len() > 0 {
        refill(first, &mut above.tiers, &mut above.spare);
        above.count -= first.len();
    }
}

/// Does the same if there are tiers above the first one.
#[cold]
#[inline(never)]
pub(super) fn refill_above<T: Drop>(first: &mut VecDeque<T>, above: &mut Option<Box<Above<T>>>)
    requires empty { deque_len first.old ≡ 0 }
    requires wide { 0 < length (tiers_of (option_map (λ b. b.value) above.old)) → 1024 ≤ deque_capacity first.old }
    requires ready { 0 < spare_room (spare_of (option_map (λ b. b.value) above.old)) → 1024 ≤ deque_capacity first.old }
    requires counted { count_of (option_map (λ b. b.value) above.old) ≡ length (in_tiers (tiers_of (option_map (λ b. b.value) above.old))) }
    requires tiers { AreTiers 1 (tiers_of (option_map (λ b. b.value) above.old)) }
    requires next { IsNext (option_map (λ b. b.value) above.old) }
    requires fits { length (in_tiers (tiers_of (option_map (λ b. b.value) above.old))) < 18446744073709551616 }
    ensures tiered { IsTiered first.new (option_map (λ b. b.value) above.new) }
    ensures items { first.new.items ++ in_tiers (tiers_of (option_map (λ b. b.value) above.new)) ≡ in_tiers (tiers_of (option_map (λ b. b.value) above.old)) }
    ensures room { room_of first.old (option_map (λ b. b.value) above.old) ≤ room_of first.new (option_map (λ b. b.value) above.new) }
{
    if let Some(above) = above {
        refill_from(first, above);
    }
}

/// Finds memory for a spare tier, if there is none.
fn find_tier<T: Drop>(alloc: Global, above: &mut Above<T>) -> Result<(), AllocError>
    requires { IsSpare above.old.tiers above.old.spare }
    ensures tiers { above.new.tiers.items ≡ above.old.tiers.items }
    ensures count { above.new.count ≡ above.old.count }
    ensures next { IsSpare above.new.tiers above.new.spare }
    ensures more { spare_room above.old.spare ≤ spare_room above.new.spare }
    ensures room { OnOk result (spare_room above.new.spare ≡ 1024) }
    ensures same { OnErr result (spare_room above.new.spare ≡ spare_room above.old.spare) }
{
    if above.spare.is_some() {
        return Ok(());
    }
    above.tiers.reserve(1)?;
    let mut tier = VecDeque::new(alloc);
    tier.reserve_exact(TIER)?;
    above.spare = Some(tier);
    Ok(())
}

/// Finds memory for a full first tier, and for a spare tier.
#[inline(never)]
pub(super) fn find_spare<T: Drop>(
    alloc: Global,
    first: &mut VecDeque<T>,
    above: &mut Option<Box<Above<T>>>,
) -> Result<(), AllocError>
    requires tiered { IsTiered first.old (option_map (λ b. b.value) above.old) }
    ensures tiered { IsTiered first.new (option_map (λ b. b.value) above.new) }
    ensures first { first.new.items ≡ first.old.items }
    ensures items { in_tiers (tiers_of (option_map (λ b. b.value) above.new)) ≡ in_tiers (tiers_of (option_map (λ b. b.value) above.old)) }
    ensures room { OnOk result (1024 ≤ room_of first.new (option_map (λ b. b.value) above.new)) }
{
    first.reserve_exact(TIER - first.len())?;
    match above {
        Some(above) => find_tier(alloc, above),
        None => {
            let mut made = Above {
                tiers: Vec::new(alloc),
                spare: None,
                count: 0,
            };
            find_tier(alloc, &mut made)?;
            *above = Some(Box::new(alloc, made)?);
            Ok(())
        }
    }
}

/// Returns how many items in the tiers above the first one have a lower number.
pub(super) fn search_above<T: Numbered>(above: &Option<Box<Above<T>>>, number: u64) -> usize
    requires some { 0 < length (tiers_of (option_map (λ b. b.value) above.now)) }
    requires tiers { AreTiers 1 (tiers_of (option_map (λ b. b.value) above.now)) }
    requires rises { IsNonDecreasingBy T.number_of (in_tiers (tiers_of (option_map (λ b. b.value) above.now))) }
    requires limit { length (in_tiers (tiers_of (option_map (λ b. b.value) above.now))) ≤ usize.MAX }
    ensures bound { result ≤ length (in_tiers (tiers_of (option_map (λ b. b.value) above.now))) }
    ensures point { IsPartitionPoint (λ x. T.number_of x < number) (λ x. number ≤ T.number_of x) (in_tiers (tiers_of (option_map (λ b. b.value) above.now))) result }
{
    match above {
        Some(above) => search_tiers(&above.tiers, number),
        None => unreachable!(),
    }
}
