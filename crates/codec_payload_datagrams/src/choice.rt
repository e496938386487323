//! The choice of the stream, if the settings name no SSRC: the first two packets of one SSRC with near numbers choose it.

ghost use Rattle.std.specs.Prelude.{◌≡◌, ◌*◌, [], IfOk, OnErr, Option};
ghost use Rattle.std.specs.Option.{is_some};
ghost use Rattle.codec_payload_datagrams.specs.Choice.{Choosing, IsCandidate, are_near, first_of_four, is_silent, is_the, latest_after, leaving, near_place, no_choice, origin_of, same_place, verdict_of, waiting_with};
ghost use Rattle.codec_payload_datagrams.specs.Kinds.{datagram_of};
ghost use Rattle.codec_payload_datagrams.specs.declared.choice.Candidate.{Candidate as Waiting};

use crate::kinds::Datagram;
use codec_payload_base::wire::{Frequency, Ticks};
use std::alloc::{AllocError, Global};
use std::marker::Model;

/// The largest number of packets that wait, each of another SSRC.
const MOST: usize = 4;

/// The largest distance between the numbers of two packets that choose a stream.
const NEAR: u32 = 100;

/// A packet that waits for the stream to be chosen.
#[derive(Debug, Drop)]
pub struct Candidate {
    pub received: Ticks,
    pub ssrc: u32,
    pub number: u16,
    pub bytes: Vec<u8>,
}

/// The state of the choice.
#[derive(Debug, Drop)]
pub struct Choice {
    alloc: Global,
    /// Packets that wait, in order of arrival.
    pub candidates: Vec<Candidate>,
    /// The time at which the latest packet of the stream arrived.
    latest: Option<u64>,
    /// How many ticks the stream must be silent before another one can be chosen.
    silence: u64,
}

/// The SSRC of a packet, and its number.
#[derive(Clone, Copy, Debug)]
pub struct Origin {
    pub ssrc: u32,
    pub number: u16,
}

/// What to do with a datagram.
#[derive(Clone, Copy, Debug)]
pub enum Verdict {
    /// Receive it, by the SSRC of the stream.
    Hear,
    /// Keep it: no packet near it waits so far.
    Keep(Origin),
    /// Choose its SSRC: the candidate at this place has the same SSRC and a near number.
    Choose(usize),
}

impl Model for Choice {
    ghost use Rattle.codec_payload_datagrams.specs.Choice.{Choosing};

    ghost Value = { Choosing };

    ghost view = { λ c. record {
      candidates = c.candidates.items;
      latest = c.latest;
      silence = c.silence;
    } };
}

impl Choice {
    /// Creates the state before the first packet. Another stream can be chosen after 2 s of silence.
    pub fn over(alloc: Global, tick_rate: Frequency) -> Choice
        ensures { result ≡ no_choice (2 * tick_rate) }
    {
        Choice {
            alloc,
            candidates: Vec::new(alloc),
            latest: None,
            silence: 2 * u64::from(tick_rate.get()),
        }
    }

    /// Returns whether the stream was silent long enough for another one to be chosen.
    pub fn is_silent(&self, now: Ticks) -> bool
        ensures { result ≡ is_silent self.now now.0 }
    {
        match self.latest {
            Some(latest) => self.silence <= now.0.saturating_sub(latest),
            None => false,
        }
    }

    /// Returns what to do with a datagram, for a stream with this SSRC, if it is known.
    pub fn verdict(&self, known: Option<u32>, datagram: &Datagram<'_>) -> Verdict
        ensures { result ≡ verdict_of self.now.candidates known (origin_of (datagram_of datagram.now)) }
    {
        let Some(origin) = origin_of(datagram) else {
            return Verdict::Hear;
        };
        if is_the(known, origin.ssrc) {
            return Verdict::Hear;
        }
        match near_place(&self.candidates, origin) {
            Some(place) => Verdict::Choose(place),
            None => Verdict::Keep(origin),
        }
    }

    /// Notes the time of a datagram, if it belongs to the stream.
    #[inline(always)]
    pub fn note(&mut self, now: Ticks, datagram: &Datagram<'_>)
        ensures { self.new ≡ record self.old { latest = latest_after self.old.latest now.0 (origin_of (datagram_of datagram.now)) } }
    {
        if origin_of(datagram).is_some() {
            self.latest = Some(now.0);
        }
    }

    /// Notes the time of a packet of the stream.
    #[inline(always)]
    pub fn note_at(&mut self, now: Ticks)
        ensures { self.new ≡ record self.old { latest = Option.Some now.0 } }
    {
        self.latest = Some(now.0);
    }

    /// Resets the state: no packet waits, and no packet arrived.
    pub fn forget(&mut self)
        ensures { self.new ≡ record self.old { candidates = []; latest = Option.None } }
    {
        self.candidates.clear();
        self.latest = None;
    }

    /// Keeps a datagram until the stream is chosen. Returns whether another waiting datagram was replaced.
    ///
    /// # Errors
    ///
    /// `AllocError`: nothing has changed.
    pub fn keep(&mut self, now: Ticks, origin: Origin, bytes: &[u8]) -> Result<bool, AllocError>
        ensures ok { IfOk result (λ left. (left ≡ is_some (leaving origin.ssrc self.old.candidates))
            × ((c : Waiting) × IsCandidate now origin bytes.now c × (self.new ≡ record self.old { candidates = waiting_with c self.old.candidates }))) }
        ensures err { OnErr result (self.new ≡ self.old) }
    {
        let leaves = leaving(&self.candidates, origin.ssrc);
        let bytes = Vec::from_slice(self.alloc, bytes)?;
        let candidate = Candidate {
            received: now,
            ssrc: origin.ssrc,
            number: origin.number,
            bytes,
        };
        self.candidates.push(candidate)?;
        match leaves {
            Some(place) => {
                self.candidates.remove(place);
                Ok(true)
            }
            None => Ok(false),
        }
    }
}

/// Returns the SSRC and the number of a packet with a payload type of the stream. Retransmissions have none.
fn origin_of(datagram: &Datagram<'_>) -> Option<Origin>
    ensures { result ≡ origin_of (datagram_of datagram.now) }
{
    let header = match datagram {
        Datagram::NoMedia(packet) | Datagram::Media(packet) => packet.header,
        Datagram::Red(red) => red.header,
        _ => return None,
    };
    Some(Origin {
        ssrc: header.ssrc,
        number: header.sequence_number,
    })
}

/// Returns whether `ssrc` is the known SSRC.
fn is_the(known: Option<u32>, ssrc: u32) -> bool
    ensures { result ≡ is_the known ssrc }
{
    match known {
        Some(known) => known == ssrc,
        None => false,
    }
}

/// Returns whether two numbers are 1 to 100 apart, in either order.
fn are_near(m: u16, n: u16) -> bool
    ensures { result ≡ are_near m n }
{
    let apart = (u32::from(n) + 65_536 - u32::from(m)) % 65_536;
    0 < apart && (apart <= NEAR || 65_536 - NEAR <= apart)
}

/// Returns the place at which a packet of this SSRC with a near number waits, if there is one.
fn near_place(candidates: &[Candidate], origin: Origin) -> Option<usize>
    ensures { result ≡ near_place origin candidates.now }
{
    candidates.iter().position(|c| c.ssrc == origin.ssrc && are_near(c.number, origin.number))
}

/// Returns the place of the packet that a packet of this SSRC replaces: a packet of the same SSRC, or the first of four
/// packets.
fn leaving(candidates: &[Candidate], ssrc: u32) -> Option<usize>
    ensures { result ≡ leaving ssrc candidates.now }
{
    first_of_four(same_place(candidates, ssrc), candidates.len())
}

/// Returns the place at which a packet of this SSRC waits, if there is one.
fn same_place(candidates: &[Candidate], ssrc: u32) -> Option<usize>
    ensures { result ≡ same_place ssrc candidates.now }
{
    candidates.iter().position(|c| c.ssrc == ssrc)
}

/// Returns this place, or without one the first place if four packets wait.
fn first_of_four(place: Option<usize>, count: usize) -> Option<usize>
    ensures { result ≡ first_of_four place count }
{
    match place {
        Some(place) => Some(place),
        None if count >= MOST => Some(0),
        None => None,
    }
}
