//! The RTP times of the latest numbers. If a number arrives again with another time, the sender has restarted.

ghost use Rattle.std.specs.Prelude.{◌≡◌, ◌≤◌, ◌<◌, ◌+◌, ◌-◌, OnOk, length, min, None, Some};
ghost use Rattle.std.specs.Option.{is_some};
ghost use Rattle.std.specs.VecDeque.{deque_len, deque_capacity};
ghost use Rattle.codec_payload_numbers.specs.NotedTimes.{contradicts, goes_with, gone_on, has_gone_on, index_of, is_at_or_below, is_noted, is_of_former, is_soon_after, is_untimely, latest_noted, none_noted, sender_of, noted_with, places_for, pushed_time, appended_to, room_for, room_for_time, spacing_of};

use codec_payload_base::wire::Frequency;
use codec_payload_metadata::packed_header::PackedHeader;
use std::alloc::{AllocError, Global};
use std::collections::VecDeque;
use std::marker::Model;

/// The largest backward window for which every fourth number is noted.
const NARROW: u16 = 1_000;

/// The number of times for which the first noted number allocates.
const FIRST_ROOM: usize = 16;

/// A number, and the RTP time of its packet.
#[derive(Clone, Copy, Debug)]
pub struct NotedTime {
    pub number: u64,
    pub time: u32,
}

/// The sender before a restart: the low bits of its highest number, and its latest noted number and time.
#[derive(Clone, Copy, Debug)]
pub struct FormerSender {
    pub highest: u16,
    pub number: u16,
    pub time: u32,
}

/// The RTP times of the latest numbers: of every fourth number, for the last 1,024 numbers; with a backward window above 1,000,
/// of every eighth number, for the last 5,120. A number takes 8 bytes. The memory grows with the noted numbers from 128 bytes
/// to 2 kB, or 5 kB for a wider window.
#[derive(Debug, Drop)]
pub struct NotedTimes {
    /// The backward window of the numbers.
    backward: u16,
    /// The index of the first place: its number, divided by the spacing.
    first: u64,
    /// The time at this index and at each index after it; `None`: no packet with its number arrived.
    times: VecDeque<Option<u32>>,
    /// The sender before the latest restart, if the jitter buffer found that restart.
    former: Option<FormerSender>,
}

impl Model for NotedTimes {
    ghost use Rattle.std.specs.VecDeque.{deque_capacity};
    ghost use Rattle.codec_payload_numbers.specs.NotedTimes.{Noting};

    ghost Value = { Noting };

    ghost view = { λ n. record { noted = record { backward = n.backward; first = n.first; times = n.times.items; former = n.former }; room = deque_capacity n.times } };
}

impl NotedTimes {
    /// Creates an empty list, for numbers with this backward window.
    pub fn new(alloc: Global, backward: u16) -> Self
        ensures { result.noted ≡ none_noted backward }
    {
        NotedTimes {
            backward,
            first: 0,
            times: VecDeque::new(alloc),
            former: None,
        }
    }

    /// Returns whether the number is noted with another time.
    #[inline(always)]
    pub fn contradicts(&self, packet: NotedTime) -> bool
        ensures { result ≡ contradicts self.now.noted packet }
    {
        if !is_noted(self.backward, packet.number) {
            return false;
        }
        let index = index_of(self.backward, packet.number);
        if index < self.first || index - self.first >= self.times.len() as u64 {
            return false;
        }
        match self.times[(index - self.first) as usize] {
            Some(time) => time != packet.time,
            None => false,
        }
    }

    /// Returns the latest number that is noted, with its time.
    pub(crate) fn latest(&self) -> Option<NotedTime>
        ensures { result ≡ latest_noted self.now.noted }
    {
        let held = self.times.len();
        if held == 0 {
            return None;
        }
        match self.times[held - 1] {
            Some(time) => {
                let index = self.first.wrapping_add(held as u64 - 1);
                Some(NotedTime {
                    number: index.wrapping_mul(spacing_of(self.backward)),
                    time,
                })
            }
            None => None,
        }
    }

    /// Returns the sender up to now, whose highest number is `highest`. Returns `None` if no time is noted.
    pub fn sender(&self, highest: u64) -> Option<FormerSender>
        ensures { result ≡ sender_of self.now.noted highest }
    {
        match self.latest() {
            Some(latest) => Some(FormerSender {
                highest: (highest % 65_536) as u16,
                number: (latest.number % 65_536) as u16,
                time: latest.time,
            }),
            None => None,
        }
    }

    /// Remembers the former sender, or none.
    pub fn set_former(&mut self, former: Option<FormerSender>)
        ensures noted { self.new.noted ≡ record self.old.noted { former = former } }
        ensures room { self.new.room ≡ self.old.room }
    {
        self.former = former;
    }

    /// Returns whether a former sender is known.
    #[inline(always)]
    pub fn has_former(&self) -> bool
        ensures { result ≡ is_some self.now.noted.former }
    {
        self.former.is_some()
    }

    /// Returns whether a packet is of the former sender, by its number and its time. `begins` is the first packet since the
    /// restart.
    pub fn is_of_former(
        &self,
        clock_rate: Frequency,
        begins: Option<NotedTime>,
        low: u16,
        time: u32,
    ) -> bool
        ensures { result ≡ is_of_former clock_rate self.now.noted begins low time }
    {
        let (Some(former), Some(begins)) = (self.former, begins) else {
            return false;
        };
        let ticks = former.time.wrapping_sub(begins.time);
        u64::from(ticks) > 20 * u64::from(clock_rate.get())
            && !has_gone_on(clock_rate, begins, self.latest())
            && goes_with(clock_rate, former, begins.time, low, time)
    }

    /// Makes room for the time of this packet. Allocates if more places than before are needed.
    #[inline(always)]
    pub fn make_room(&mut self, packet: NotedTime) -> Result<(), AllocError>
        ensures same { self.new.noted ≡ self.old.noted }
        ensures room { OnOk result (room_for_time self.new.noted packet ≤ self.new.room) }
    {
        if !is_noted(self.backward, packet.number) {
            return Ok(());
        }
        let index = index_of(self.backward, packet.number);
        if index < self.first {
            return Ok(());
        }
        let needed = self.room_for(index, places_for(self.backward));
        if needed <= self.times.capacity() {
            return Ok(());
        }
        self.grow(needed, places_for(self.backward))
    }

    /// Returns how many times are held at most until the time of this index is appended.
    #[inline(always)]
    fn room_for(&self, index: u64, most: usize) -> usize
        requires after { self.now.noted.first ≤ index }
        requires some { 1 ≤ most }
        ensures value { result ≡ room_for index most self.now.noted }
        ensures within { result ≤ most }
    {
        let place = index - self.first;
        let held = self.times.len() as u64;
        if place >= held && place - held >= most as u64 {
            return 1;
        }
        place.min(most as u64 - 1) as usize + 1
    }

    /// Makes room for `needed` times, and for some more, at most `most`.
    fn grow(&mut self, needed: usize, most: usize) -> Result<(), AllocError>
        requires { needed ≤ most }
        ensures same { self.new.noted ≡ self.old.noted }
        ensures room { OnOk result (needed ≤ self.new.room) }
    {
        let room = needed.max(2 * self.times.len()).max(FIRST_ROOM).min(most);
        self.times
            .reserve_exact(room.saturating_sub(self.times.len()))
    }

    /// Notes the time of a packet, if its number is a multiple of the spacing. A call of [`NotedTimes::make_room`] made room for
    /// it.
    #[inline(always)]
    pub fn note(&mut self, packet: NotedTime)
        requires { room_for_time self.old.noted packet ≤ self.old.room }
        ensures { self.new.noted ≡ noted_with self.old.noted packet }
    {
        if !is_noted(self.backward, packet.number) {
            return;
        }
        let index = index_of(self.backward, packet.number);
        if index < self.first {
            return;
        }
        let held = self.times.len() as u64;
        if index - self.first < held {
            self.times[(index - self.first) as usize] = Some(packet.time);
        } else {
            self.append(index, packet.time, places_for(self.backward));
        }
    }

    /// Appends the time of this index, which comes after all others. The indices between get no time.
    fn append(&mut self, index: u64, time: u32, most: usize)
        requires after { self.old.noted.first + length self.old.noted.times ≤ index }
        requires room { room_for index most self.old.noted ≤ self.old.room }
        requires some { 1 ≤ most }
        ensures { self.new.noted ≡ appended_to most index time self.old.noted }
    {
        let gap = index - self.first - self.times.len() as u64;
        skip(&mut self.times, gap, most);
        push(&mut self.times, Some(time), most);
        self.first = index - (self.times.len() as u64 - 1);
    }
}

/// Appends `gap` indices without a time. With `most` of them no earlier time is left, and none is appended.
fn skip(times: &mut VecDeque<Option<u32>>, gap: u64, most: usize)
    requires room { gap < most → min (length times.old.items + gap) most ≤ deque_capacity times.old }
    requires some { 1 ≤ most }
    ensures items { times.new.items ≡ gone_on most gap times.old.items }
    ensures capacity { deque_capacity times.old ≤ deque_capacity times.new }
{
    if gap >= most as u64 {
        times.clear();
        return;
    }
    for _ in 0..gap {
        push(times, None, most);
    }
}

/// Appends a time. If there are `most` times, the first one leaves.
fn push(times: &mut VecDeque<Option<u32>>, time: Option<u32>, most: usize)
    requires room { min (length times.old.items + 1) most ≤ deque_capacity times.old }
    requires some { 1 ≤ most }
    ensures items { times.new.items ≡ pushed_time most time times.old.items }
    ensures capacity { deque_capacity times.old ≤ deque_capacity times.new }
{
    if times.len() >= most {
        times.pop_front();
    }
    times.push_back(time).unwrap();
}

/// Returns the distance between two noted numbers.
fn spacing_of(backward: u16) -> u64
    ensures { result ≡ spacing_of backward }
{
    if backward <= NARROW { 4 } else { 8 }
}

/// Returns how many times are noted.
fn places_for(backward: u16) -> usize
    ensures { result ≡ places_for backward }
{
    if backward <= NARROW { 256 } else { 640 }
}

/// Returns whether the time of this number is noted.
fn is_noted(backward: u16, number: u64) -> bool
    ensures { result ≡ is_noted backward number }
{
    number % 4 == 0 && (backward <= NARROW || number % 8 == 0)
}

/// Returns the index of a number.
fn index_of(backward: u16, number: u64) -> u64
    ensures { result ≡ index_of backward number }
{
    number / spacing_of(backward)
}

/// Returns whether `later` comes 1 to 16 numbers after `earlier`, and at most 2 seconds of RTP time after it.
pub fn is_soon_after(clock_rate: Frequency, earlier: &PackedHeader, later: &PackedHeader) -> bool
    ensures { result ≡ is_soon_after clock_rate earlier.now later.now }
{
    let numbers = later
        .sequence_number()
        .wrapping_sub(earlier.sequence_number());
    let ticks = later.timestamp().wrapping_sub(earlier.timestamp());
    let most = 2 * u64::from(clock_rate.get());
    1 <= numbers && numbers <= 16 && u64::from(ticks) <= most
}

/// Returns whether the number is below the first one, and the RTP time is not from 5 seconds before the first one's up to that
/// time, modulo 2^32.
#[inline(always)]
pub fn is_untimely(clock_rate: Frequency, first: Option<NotedTime>, packet: NotedTime) -> bool
    ensures { result ≡ is_untimely clock_rate first packet }
{
    let Some(first) = first else {
        return false;
    };
    let ticks = first.time.wrapping_sub(packet.time);
    packet.number < first.number && u64::from(ticks) > 5 * u64::from(clock_rate.get())
}

/// Returns whether the latest noted time of a sender is more than 3 seconds after that of its first packet.
fn has_gone_on(clock_rate: Frequency, begins: NotedTime, latest: Option<NotedTime>) -> bool
    ensures { result ≡ has_gone_on clock_rate begins latest }
{
    let Some(latest) = latest else {
        return false;
    };
    let ticks = u64::from(latest.time.wrapping_sub(begins.time));
    begins.number <= latest.number && ticks > 3 * u64::from(clock_rate.get()) && ticks < 1 << 31
}

/// Returns whether a packet goes with the former sender, by its number and its time. `begins` is the first time of the new sender.
fn goes_with(clock_rate: Frequency, former: FormerSender, begins: u32, low: u16, time: u32) -> bool
    ensures { result ≡ goes_with clock_rate former begins low time }
{
    let rate = u64::from(clock_rate.get());
    if is_at_or_below(low, former.number) {
        return u64::from(former.time.wrapping_sub(time)) <= 10 * rate;
    }
    let after = time.wrapping_sub(former.time);
    let most = if is_at_or_below(low, former.highest) {
        10 * rate
    } else {
        rate / 2
    };
    u64::from(after) <= most && after < begins.wrapping_sub(former.time)
}

/// Returns whether a number is at or below another one, by their low bits.
fn is_at_or_below(low: u16, other: u16) -> bool
    ensures { result ≡ is_at_or_below low other }
{
    other.wrapping_sub(low) < 32_768
}
