//! Retransmissions of packets that came before. A sender sends such ones to find out what the network carries.

ghost use Rattle.std.specs.Prelude.{◌≡◌, ◌/◌, ◌+◌, IfOk, replicate};
ghost use Rattle.codec_payload_session_requests.specs.Late.{number_at};
ghost use Rattle.codec_payload_session_requests.specs.Probes.{after_answer, counters_without, duplicates_of, has_come, in_box, is_again, late_of, no_probes, noted, noted_number, noted_outcome, probes_for, probes_of, with_duplicate, with_late, with_number};

use crate::late::number_of;
use codec_payload_datagrams::parsed::ParsedDatagram;
use codec_payload_jitter::outcome::Outcome;
use codec_payload_receiver::receiver::{Counters, ReceiveError};
use codec_payload_session_formats::formats::Format;
use std::alloc::{AllocError, Global};
use std::marker::Model;

/// How many numbers are remembered at most: the latest one with each remainder.
const PLACES: usize = 2_048;

/// Which numbers of a stream came, and how many retransmissions of such numbers.
#[derive(Debug, Drop)]
pub struct Probes {
    /// The latest number with each remainder by [`PLACES`]: its quotient and 1. 0: none came.
    came: Vec<u8>,
    /// How many of them the receiver dropped as late, and how many as duplicates.
    late: u64,
    duplicates: u64,
}

impl Model for Probes {
    ghost use Rattle.codec_payload_session_requests.specs.Probes.{Probes};

    ghost Value = { Probes };

    ghost view = { λ p. record { came = p.came.items; late = p.late; duplicates = p.duplicates } };
}

impl Probes {
    /// Returns the probes of a stream of which no packet came.
    fn begin(alloc: Global) -> Result<Probes, AllocError>
        ensures { IfOk result (λ probes. probes ≡ no_probes) }
    {
        Ok(Probes {
            came: no_numbers(alloc)?,
            late: 0,
            duplicates: 0,
        })
    }

    fn late(&self) -> u64
        ensures { result ≡ self.now.late }
    {
        self.late
    }

    fn duplicates(&self) -> u64
        ensures { result ≡ self.now.duplicates }
    {
        self.duplicates
    }

    /// Records a datagram for which the receiver has this answer.
    #[inline(never)]
    fn note(
        &mut self,
        format: &Format,
        datagram: &ParsedDatagram<'_>,
        answer: &Result<Outcome, ReceiveError>,
    )
        ensures { self.new ≡ after_answer (number_at format.now datagram.now) (is_again format.now datagram.now) answer.now self.old }
    {
        match answer {
            Ok(outcome) => self.note_outcome(
                number_of(format, datagram),
                is_again(format, datagram),
                *outcome,
            ),
            Err(_) => {}
        }
    }

    /// Records a packet with this outcome, by its number, if it has one.
    fn note_outcome(&mut self, number: Option<u16>, is_again: bool, outcome: Outcome)
        ensures { self.new ≡ noted_outcome number is_again outcome self.old }
    {
        match number {
            Some(number) => self.note_number(number, is_again, outcome),
            None => {}
        }
    }

    /// Records a packet with this number and outcome.
    fn note_number(&mut self, number: u16, is_again: bool, outcome: Outcome)
        ensures { self.new ≡ noted_number number is_again outcome self.old }
    {
        let is_probe = is_again && self.has_come(number);
        match outcome {
            Outcome::Held | Outcome::HeldAndEvicted | Outcome::Restarted(_) | Outcome::NoMedia =>
                self.put(number),
            Outcome::Late => {
                self.count_late(is_probe);
                self.put(number);
            }
            Outcome::Duplicate => {
                self.count_duplicate(is_probe);
                self.put(number);
            }
            Outcome::Suspect | Outcome::OtherStream | Outcome::Undecided | Outcome::Rtcp => {}
        }
    }

    /// Counts one more probe that the receiver dropped as late, if it is one.
    fn count_late(&mut self, is_probe: bool)
        ensures { self.new ≡ with_late is_probe self.old }
    {
        if is_probe {
            self.late = self.late.wrapping_add(1);
        }
    }

    /// Counts one more probe that the receiver dropped as a duplicate, if it is one.
    fn count_duplicate(&mut self, is_probe: bool)
        ensures { self.new ≡ with_duplicate is_probe self.old }
    {
        if is_probe {
            self.duplicates = self.duplicates.wrapping_add(1);
        }
    }

    /// Returns whether a packet with this number came, and since then none with another number of the same remainder.
    fn has_come(&self, number: u16) -> bool
        ensures { result ≡ has_come number self.now.came }
    {
        match self.came.get(usize::from(number) % PLACES) {
            Some(round) => *round == round_of(number),
            None => false,
        }
    }

    /// Records that a packet with this number came.
    fn put(&mut self, number: u16)
        ensures { self.new ≡ with_number number self.old }
    {
        let place = usize::from(number) % PLACES;
        if place < self.came.len() {
            self.came[place] = round_of(number);
        }
    }
}

/// Returns the probes of a new stream of the format. `None`: it has no retransmissions.
pub fn probes_for(alloc: Global, format: &Format) -> Result<Option<Box<Probes>>, AllocError>
    ensures { IfOk result (λ probes. in_box probes ≡ probes_for format.now) }
{
    match format.retransmission {
        Some(_) => Ok(Some(Box::new(alloc, Probes::begin(alloc)?)?)),
        None => Ok(None),
    }
}

/// Records the number of a datagram for which the receiver has this answer, and counts it if it is a retransmission that the receiver
/// dropped, and its number came before.
#[inline(always)]
pub fn note_probe(
    probes: &mut Option<Box<Probes>>,
    format: &Format,
    datagram: &ParsedDatagram<'_>,
    answer: &Result<Outcome, ReceiveError>,
)
    ensures { in_box probes.new ≡ noted format.now datagram.now answer.now (in_box probes.old) }
{
    if let Some(probes) = probes {
        probes.note(format, datagram, answer);
    }
}

/// Returns how many probes the receiver dropped as late.
fn late_of(probes: &Option<Box<Probes>>) -> u64
    ensures { result ≡ late_of (in_box probes.now) }
{
    match probes {
        Some(probes) => probes.late(),
        None => 0,
    }
}

/// Returns how many probes the receiver dropped as duplicates.
fn duplicates_of(probes: &Option<Box<Probes>>) -> u64
    ensures { result ≡ duplicates_of (in_box probes.now) }
{
    match probes {
        Some(probes) => probes.duplicates(),
        None => 0,
    }
}

/// Returns the number of probes.
pub fn probe_count(probes: &Option<Box<Probes>>) -> u64
    ensures { result ≡ probes_of (in_box probes.now) }
{
    late_of(probes).wrapping_add(duplicates_of(probes))
}

/// Returns the counters of a receiver without the probes.
pub fn without_probes(probes: &Option<Box<Probes>>, mut counters: Counters) -> Counters
    ensures { result ≡ counters_without (in_box probes.now) counters }
{
    counters.packets.late = counters.packets.late.wrapping_sub(late_of(probes));
    counters.packets.duplicates = counters
        .packets
        .duplicates
        .wrapping_sub(duplicates_of(probes));
    counters
}

/// Returns places at which no number came.
fn no_numbers(alloc: Global) -> Result<Vec<u8>, AllocError>
    ensures { IfOk result (λ came. came.items ≡ replicate 2048 0) }
{
    let mut came = Vec::new(alloc);
    came.resize(PLACES, 0)?;
    Ok(came)
}

/// Returns what is remembered of a number at its place.
fn round_of(number: u16) -> u8
    ensures { result ≡ number / 2048 + 1 }
{
    (number / 2_048) as u8 + 1
}

/// Returns whether a datagram is a retransmission.
fn is_again(format: &Format, datagram: &ParsedDatagram<'_>) -> bool
    ensures { result ≡ is_again format.now datagram.now }
{
    match datagram.packet() {
        Ok(packet) => format.resends(packet.header.payload_type),
        Err(_) => false,
    }
}
