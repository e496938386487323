//! Searches in queues that are ordered by a number.

ghost use Rattle.std.specs.Prelude.{◌≡◌, ◌+◌, ◌<◌, ◌≤◌, length, ℕ};
ghost use Rattle.std.specs.List.{AllWithin, insert};
ghost use Rattle.std.specs.List.Sorted.{IsNonDecreasingBy, IsPartitionPoint};
ghost use Rattle.std.specs.VecDeque.{deque_capacity, deque_len};

use std::collections::VecDeque;

/// An item of a queue in rising order of a number.
pub trait Numbered {
    ghost number_of: { Self → ℕ };

    fn number(&self) -> u64
        ensures { result ≡ number_of self.now };
}

/// Returns how many items have a lower number, by a search. Each step inspects three items and leaves a quarter of the items, without a branch that the
/// processor could mispredict.
#[inline(never)]
pub(crate) fn search_in<T: Numbered>(items: &VecDeque<T>, number: u64) -> usize
    requires { IsNonDecreasingBy T.number_of items.now.items }
    ensures bound { result ≤ deque_len items.now }
    ensures point { IsPartitionPoint (λ x. T.number_of x < number) (λ x. number ≤ T.number_of x) items.now.items result }
{
    // All items in front of `low` are lower. All items from `low + size` on are not.
    let mut low = 0;
    let mut size = items.len();
    while size >= 4 {
        let quarter = size / 4;
        let first = items[low + quarter].number() < number;
        let second = items[low + 2 * quarter].number() < number;
        let third = items[low + 3 * quarter].number() < number;
        low += quarter * (usize::from(first) + usize::from(second) + usize::from(third));
        size -= 3 * quarter;
    }
    while size > 0 && items[low].number() < number {
        low += 1;
        size -= 1;
    }
    low
}

/// Inserts an item at this place. The caller has reserved the room. At the end of the queue nothing moves.
#[inline(always)]
pub fn put_at<T>(items: &mut VecDeque<T>, place: usize, item: T)
    requires place { place ≤ deque_len items.old }
    requires room { deque_len items.old < deque_capacity items.old }
    ensures items { items.new.items ≡ insert items.old.items place item }
    ensures len { deque_len items.new ≡ deque_len items.old + 1 }
    ensures capacity { deque_capacity items.old ≤ deque_capacity items.new }
{
    if place == items.len() {
        items.push_back(item).unwrap();
    } else {
        items.insert(place, item).unwrap();
    }
}
