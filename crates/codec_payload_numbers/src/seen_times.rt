//! The RTP times of the latest packets and blocks of a stream with RED (RFC 2198).

ghost use Rattle.std.specs.Prelude.{◌≡◌, ◌<◌, IfOk, None, OnErr, Some, length, slice_index_or};
ghost use Rattle.codec_payload_numbers.specs.SeenTimes.{has_block, is_seen, none_seen, seen_at, seen_with};
ghost use Rattle.codec_payload_numbers.specs.SeenTimes.{seen_past};

use std::alloc::{AllocError, Global};
use std::marker::Model;

/// The number of times that are remembered.
const MOST: usize = 64;

/// The RTP time of a packet that arrived, or of a block that was stored.
#[derive(Clone, Copy, Debug)]
pub struct SeenTime {
    pub time: u32,
    pub is_block: bool,
}

/// What is remembered at a place.
#[derive(Clone, Copy, Debug)]
pub(crate) enum Kind {
    Nothing,
    Packet,
    Block,
}

/// The latest 64 times. It does not allocate.
#[derive(Debug, Drop)]
pub struct SeenTimes {
    /// A new time replaces the oldest.
    times: [u32; MOST],
    /// What arrived with each of the times.
    kinds: [Kind; MOST],
    /// The index of the next time.
    next: u8,
}

impl Model for SeenTimes {
    ghost use Rattle.std.specs.Prelude.{◌≡◌, ◌<◌, length, map};
    ghost use Rattle.std.specs.List.{zip};
    ghost use Rattle.codec_payload_numbers.specs.SeenTimes.{Seen, seen_at};

    ghost Value = { Seen };

    ghost view = { λ s. record { places = map seen_at (zip s.times s.kinds); next = s.next } };

    ghost invariant = { λ s. (length s.times ≡ 64) × (length s.kinds ≡ 64) × (s.next < 64) };
}

impl SeenTimes {
    /// Returns the state before the first packet.
    pub fn none() -> SeenTimes
        ensures { result ≡ none_seen }
    {
        SeenTimes {
            times: [0; MOST],
            kinds: [Kind::Nothing; MOST],
            next: 0,
        }
    }

    /// Returns the number of places.
    #[inline(always)]
    fn len(&self) -> usize
        ensures value { result ≡ 64 }
        ensures all { result ≡ length self.now.places }
    {
        self.times.as_slice().len()
    }

    /// Returns the time at a place.
    #[inline(always)]
    fn at(&self, place: usize) -> Option<SeenTime>
        requires { place < 64 }
        ensures { result ≡ slice_index_or self.now.places place None }
    {
        seen_at(self.times[place], self.kinds[place])
    }

    /// Returns whether a packet with this time arrived, or a block with this time was stored.
    pub fn is_seen(&self, time: u32) -> bool
        ensures { result ≡ is_seen time self.now.places }
    {
        for place in 0..self.len() {
            if let Some(seen) = self.at(place)
                && seen.time == time
            {
                return true;
            }
        }
        false
    }

    /// Returns whether a block with this time was stored.
    pub fn has_block(&self, time: u32) -> bool
        ensures { result ≡ has_block time self.now.places }
    {
        for place in 0..self.len() {
            if let Some(seen) = self.at(place)
                && seen.is_block
                && seen.time == time
            {
                return true;
            }
        }
        false
    }

    /// Notes one more time.
    pub fn note(&mut self, seen: SeenTime)
        ensures { self.new ≡ seen_with seen self.old }
    {
        let place = usize::from(self.next);
        self.times[place] = seen.time;
        self.kinds[place] = kind_of(seen);
        self.next = (self.next + 1) % MOST as u8;
    }
}

/// The same times, in memory that the first packet with media of a stream with RED allocates.
#[derive(Debug, Drop)]
pub struct LazySeenTimes {
    times: Option<Box<SeenTimes>>,
}

impl Model for LazySeenTimes {
    ghost use Rattle.std.specs.Prelude.{option_map};
    ghost use Rattle.codec_payload_numbers.specs.SeenTimes.{Seen, seen_in};

    ghost Value = { Seen };

    ghost view = { λ s. seen_in (option_map (λ b. b.value) s.times) };
}

impl LazySeenTimes {
    /// Returns the state before the first packet. Allocates nothing.
    pub fn none() -> LazySeenTimes
        ensures { result ≡ none_seen }
    {
        LazySeenTimes { times: None }
    }

    /// Takes the times out, until [`LazySeenTimes::put`] puts them back. Allocates memory for them if they have none.
    pub fn take(&mut self, alloc: Global) -> Result<Box<SeenTimes>, AllocError>
        ensures ok { IfOk result (λ times. times.value ≡ self.old) }
        ensures err { OnErr result (self.new ≡ self.old) }
    {
        match self.times.take() {
            Some(times) => Ok(times),
            None => Ok(Box::new(alloc, SeenTimes::none())?),
        }
    }

    /// Forgets all times, if the sender has restarted. Allocates nothing.
    pub fn forget_if(&mut self, has_restarted: bool)
        ensures { self.new ≡ seen_past has_restarted self.old }
    {
        if has_restarted {
            *self = LazySeenTimes::none();
        }
    }

    /// Puts the times back.
    pub fn put(&mut self, times: Box<SeenTimes>)
        ensures { self.new ≡ times.value }
    {
        self.times = Some(times);
    }
}

/// Returns the time of a place, if there is one.
#[inline(always)]
fn seen_at(time: u32, kind: Kind) -> Option<SeenTime>
    ensures { result ≡ seen_at (time, kind) }
{
    match kind {
        Kind::Nothing => None,
        Kind::Packet => Some(SeenTime {
            time,
            is_block: false,
        }),
        Kind::Block => Some(SeenTime {
            time,
            is_block: true,
        }),
    }
}

/// Returns what arrived with this time.
fn kind_of(seen: SeenTime) -> Kind
    ensures { seen_at (seen.time, result) ≡ Some seen }
{
    if seen.is_block {
        Kind::Block
    } else {
        Kind::Packet
    }
}
