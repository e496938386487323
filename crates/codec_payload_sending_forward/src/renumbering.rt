//! The sequence numbers of a viewer's stream, which is made of packets of one source after another.

ghost use Rattle.std.specs.Prelude.{◌≡◌, ◌+◌, ◌<◌, ◌≤◌, ◌∷◌, ℕ, length, take, get_or, IfSome, IfNone, IfOk, IsOk, OnOk, OnErr, IsTrue, false, true};
ghost use Rattle.codec_payload_sending_forward.specs.Numbers.{AllBelow, Falls, HasNumber, above, after_packet, begun, closed, is_in, is_too_old, next_number, placed, sent_as, source_at, without_lowest};

use std::alloc::{AllocError, Global};
use std::collections::VecDeque;
use std::marker::Model;

/// How many of the latest packets that were left out a [`Renumbering`] remembers.
pub const MAX_LEFT_OUT: usize = 4_096;

/// How far a number may be below the highest one, in numbers: half of the sequence numbers.
const HALF: u64 = 32_768;

/// What [`Renumbering::place`] answers.
#[derive(Clone, Copy, Debug, PartialEq, Eq)]
pub enum Placed {
    /// The packet is sent under this number.
    Sent(u16),
    /// The packet is left out and takes no number: the numbers after it close up.
    LeftOut,
    /// The packet is left out, but a packet with a higher number came before it. So this number stays unused. Send a packet of
    /// padding under it, so that the viewer does not request it.
    Unused(u16),
    /// The packet came too late and has no number: it is below the number with which the source began, 32,768 or more below the
    /// highest number, or below the lowest left-out packet that is remembered.
    TooOld,
}

/// The map from the sequence numbers of a source to those of a viewer's stream.
///
/// The number sent is the number received plus an offset, less the packets left out before it. So a loss stays a gap of the same
/// size, and no two packets share a number. At a switch to another source the numbers go on by one ([`Renumbering::switch`]).
///
/// Numbers of the source are extended: they do not wrap. A packet that is left out takes 8 bytes; the latest [`MAX_LEFT_OUT`] are
/// remembered. If no packet is left out, no call allocates.
#[derive(Debug, Drop)]
pub struct Renumbering {
    /// What is added to a number, modulo 2^16.
    offset: u16,
    /// The lowest number that has a place.
    first: u64,
    /// The highest number so far.
    highest: u64,
    /// The numbers of the packets that were left out, the highest first.
    left_out: VecDeque<u64>,
}

impl Model for Renumbering {
    ghost use Rattle.std.specs.Prelude.{◌≤◌, suc, length};
    ghost use Rattle.codec_payload_sending_forward.specs.Numbers.{AllBelow, Falls, Numbers};

    ghost Value = { Numbers };

    ghost view = { λ r. record { offset = r.offset; first = r.first; highest = r.highest; left_out = r.left_out.items } };

    ghost invariant = { λ r. (r.first ≤ r.highest) × Falls r.left_out.items × AllBelow (suc r.highest) r.left_out.items × (length r.left_out.items ≤ 4096) × (length r.left_out.items ≤ r.highest) };
}

/// Returns whether none of the numbers is above that one.
#[inline]
fn is_above_all(numbers: &VecDeque<u64>, number: u64) -> bool
    requires { Falls numbers.now.items }
    ensures { IsTrue result → above number numbers.now.items ≡ 0 }
{
    match numbers.front() {
        None => true,
        Some(highest) => {
            if *highest > number {
                return false;
            }
            true
        }
    }
}

/// Returns how many of the numbers are above that one. It is also the place of that one, if it is among them.
pub(crate) fn count_above(numbers: &VecDeque<u64>, number: u64) -> usize
    requires { Falls numbers.now.items }
    ensures value { result ≡ above number numbers.now.items }
    ensures few { result ≤ length numbers.now.items }
{
    // Packets in order are above all numbers.
    if is_above_all(numbers, number) {
        return 0;
    }
    let mut low = 0;
    let mut high = numbers.len();
    while low < high {
        let middle = low + (high - low) / 2;
        if numbers[middle] > number {
            low = middle + 1;
        } else {
            high = middle;
        }
    }
    low
}

/// Returns whether that number is one of these, of which `count` are above it.
fn contains(numbers: &VecDeque<u64>, number: u64, count: usize) -> bool
    requires falls { Falls numbers.now.items }
    requires count { count ≡ above number numbers.now.items }
    ensures { result ≡ is_in number numbers.now.items }
{
    count < numbers.len() && numbers[count] == number
}

/// Returns the number of the source that has this place among those that are not left out.
fn source_at(left_out: &VecDeque<u64>, place: u64) -> u64
    requires fits { place + length left_out.now.items < 18446744073709551616 }
    requires falls { Falls left_out.now.items }
    ensures { result ≡ source_at place left_out.now.items }
{
    let mut low = 0;
    let mut high = left_out.len();
    while low < high {
        let middle = low + (high - low) / 2;
        if left_out[middle] < place + (left_out.len() - middle) as u64 {
            high = middle;
        } else {
            low = middle + 1;
        }
    }
    place + (left_out.len() - low) as u64
}

/// Puts a number in front of the others, and returns the last one, which leaves.
pub(crate) fn replace_last(numbers: &mut VecDeque<u64>, number: u64) -> u64
    requires full { length numbers.old.items ≡ 4096 }
    requires falls { AllBelow number numbers.old.items }
    ensures last { result ≡ get_or numbers.old.items 4095 0 }
    ensures low { result < number }
    ensures items { numbers.new.items ≡ number ∷ take 4095 numbers.old.items }
{
    let last = numbers.pop_back().unwrap();
    numbers.push_front_reserved(number);
    last
}

impl Renumbering {
    /// Returns the map with which the source's packet `number` is sent under the number `sent`. Does not allocate.
    pub fn new(alloc: Global, number: u64, sent: u16) -> Renumbering
        ensures { result ≡ begun number sent }
    {
        Renumbering {
            offset: sent.wrapping_sub((number % 65_536) as u16),
            first: number,
            highest: number,
            left_out: VecDeque::new(alloc),
        }
    }

    /// Returns the number after the highest one that was given or kept free: a packet after all others is sent under it.
    pub fn next_number(&self) -> u16
        ensures { result ≡ next_number self.now }
    {
        self.offset
            .wrapping_add((self.highest % 65_536) as u16)
            .wrapping_add(1)
            .wrapping_sub(self.left_out.len() as u16)
    }

    /// Goes over to another source, whose packet `number` is sent under [`Renumbering::next_number`]. Packets of this source with
    /// lower numbers have no place.
    pub fn switch(&mut self, number: u64)
        ensures { self.new ≡ begun number (next_number self.old) }
    {
        let sent = self.next_number();
        self.offset = sent.wrapping_sub((number % 65_536) as u16);
        self.first = number;
        self.highest = number;
        self.left_out.clear();
    }

    /// Returns whether a packet with that number comes too late to have a place.
    fn is_too_old(&self, number: u64) -> bool
        ensures { result ≡ is_too_old self.now number }
    {
        number < self.first || self.highest.saturating_sub(number) >= HALF
    }

    /// Returns the number under which the packet is sent, if it is not left out.
    fn sent_as(&self, number: u64) -> u16
        ensures { is_in number self.now.left_out ≡ false → result ≡ sent_as self.now number }
    {
        self.sent_below(number, count_above(&self.left_out, number))
    }

    /// Does the same if `count` of the packets that were left out are above the number.
    fn sent_below(&self, number: u64, count: usize) -> u16
        requires { count ≡ above number self.now.left_out }
        ensures { is_in number self.now.left_out ≡ false → result ≡ sent_as self.now number }
    {
        let lower = self.left_out.len() - count;
        self.offset
            .wrapping_add((number % 65_536) as u16)
            .wrapping_sub(lower as u16)
    }

    /// Returns the highest number of the source so far.
    pub fn highest(&self) -> u64
        ensures { result ≡ self.now.highest }
    {
        self.highest
    }

    /// Returns what [`Renumbering::place`] answers for a packet that is wanted. The map stays as it is.
    pub fn placed(&self, number: u64) -> Placed
        ensures { result ≡ placed self.now number true }
    {
        if self.is_too_old(number) {
            return Placed::TooOld;
        }
        if number <= self.highest {
            return self.place_within(number, true);
        }
        Placed::Sent(self.sent_as(number))
    }

    /// Records a packet that is wanted, as [`Renumbering::place`] does. Does not allocate.
    pub fn record(&mut self, number: u64)
        ensures { self.new ≡ after_packet number true self.old }
    {
        if self.is_too_old(number) || number <= self.highest {
            return;
        }
        self.highest = number;
    }

    /// Returns the number of the viewer's stream for a packet, which is wanted or is to be left out.
    ///
    /// A number keeps its place: the answer for a packet that comes again, or late, is that of the first time. A packet that is
    /// left out and is ahead of all before takes no number. If it comes again, it stays left out, even if it is wanted then.
    ///
    /// A packet that comes late costs a search by halves among the remembered numbers, at most [`MAX_LEFT_OUT`]. It allocates only
    /// for a packet that is left out.
    ///
    /// # Errors
    ///
    /// Memory ran out for a packet that is left out: the map is unchanged.
    pub fn place(&mut self, number: u64, wanted: bool) -> Result<Placed, AllocError>
        ensures answer { IfOk result (λ answer. answer ≡ placed self.old number wanted) }
        ensures after { OnOk result (self.new ≡ after_packet number wanted self.old) }
        ensures err { OnErr result (self.new ≡ self.old) }
        ensures wanted { IsTrue wanted → IsOk result }
    {
        if self.is_too_old(number) {
            return Ok(Placed::TooOld);
        }
        if number <= self.highest {
            return Ok(self.place_within(number, wanted));
        }
        if !wanted {
            self.leave_out(number)?;
            return Ok(Placed::LeftOut);
        }
        let sent = self.placed(number);
        self.highest = number;
        Ok(sent)
    }

    /// Returns the number for a packet that is not above all others.
    fn place_within(&self, number: u64, wanted: bool) -> Placed
        requires old { is_too_old self.now number ≡ false }
        requires within { number ≤ self.now.highest }
        ensures { result ≡ placed self.now number wanted }
    {
        let count = count_above(&self.left_out, number);
        if contains(&self.left_out, number, count) {
            return Placed::LeftOut;
        }
        let sent = self.sent_below(number, count);
        if wanted {
            Placed::Sent(sent)
        } else {
            Placed::Unused(sent)
        }
    }

    /// Leaves out a packet that is above all others.
    fn leave_out(&mut self, number: u64) -> Result<(), AllocError>
        requires { self.old.highest < number }
        ensures ok { OnOk result (self.new ≡ closed number self.old) }
        ensures err { OnErr result (self.new ≡ self.old) }
    {
        if self.left_out.len() < MAX_LEFT_OUT {
            return self.add_left_out(number);
        }
        self.replace_lowest(number);
        Ok(())
    }

    /// Leaves out a packet that is above all others, if there is room for it.
    fn add_left_out(&mut self, number: u64) -> Result<(), AllocError>
        requires higher { self.old.highest < number }
        requires room { length self.old.left_out < 4096 }
        ensures ok { OnOk result (self.new ≡ record self.old { highest = number; left_out = number ∷ self.old.left_out }) }
        ensures err { OnErr result (self.new ≡ self.old) }
    {
        self.left_out.push_front(number)?;
        self.highest = number;
        Ok(())
    }

    /// Leaves out a packet that is above all others, and forgets the lowest one.
    fn replace_lowest(&mut self, number: u64)
        requires higher { self.old.highest < number }
        requires full { length self.old.left_out ≡ 4096 }
        ensures { self.new ≡ without_lowest number self.old }
    {
        let lowest = replace_last(&mut self.left_out, number);
        self.first = lowest + 1;
        self.offset = self.offset.wrapping_sub(1);
        self.highest = number;
    }

    /// Returns the number of the source's packet that is sent under this number: not above the highest number so far, not left
    /// out, and not too old. `None`: there is no such packet. It costs a search by halves among the remembered numbers.
    pub fn source_of(&self, sent: u16) -> Option<u64>
        ensures some { IfSome result (λ number. HasNumber self.now sent number) }
        ensures none { IfNone result ((number : ℕ) → HasNumber self.now sent number → ⊥) }
    {
        let behind = u64::from(self.next_number().wrapping_sub(sent));
        let given = self.highest - self.left_out.len() as u64;
        if behind == 0 || given < behind - 1 {
            return None;
        }
        let number = source_at(&self.left_out, given - (behind - 1));
        if self.is_too_old(number) {
            return None;
        }
        Some(number)
    }
}
