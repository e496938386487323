//! A receiver of FEC.

ghost use Rattle.std.specs.Prelude.{◌≡◌, ◌+◌, ◌%◌, ◌<◌, if◌then◌else◌, vec_capacity, vec_len, ◌++◌, ◌∷◌, [], IfOk, IfSome, OnErr, OnOk, Option, length, map, slice_index_or, true};
ghost use Rattle.std.specs.Option.{option_map};
ghost use Rattle.std.specs.List.{position};
ghost use Rattle.codec_payload_rtp.specs.RtpPackets.{FitsHeader};
ghost use Rattle.codec_payload_rtp.specs.RtpReading.{rtp_at};
ghost use Rattle.codec_payload_rtp.specs.RtpValues.{header_of, packet_of};
ghost use Rattle.codec_payload_fec.specs.FecReading.{fec_at};
ghost use Rattle.codec_payload_fec.specs.Rebuilding.{found_in};
ghost use Rattle.codec_payload_fec.specs.Stores.{no_slots};
ghost use Rattle.codec_payload_fec.specs.Strings.{number_of};
ghost use Rattle.codec_payload_fec_receiver.specs.Contents.{Media};
ghost use Rattle.codec_payload_fec_receiver.specs.States.{after_tries, entered, fec_at_place, first_due, forgotten, handed_at, is_place, is_within, kept_as, latest, marked, new_state, next_of, held_fec, protects, rebuilt_by, received, stale, took, took_fec, tried, verdict_on, with_fec, with_packet, without, waiting};

use crate::content::{Content, FecSettings, content_of};
use crate::late::plain_bytes;
use codec_payload_fec::packet::FecPacket;
use codec_payload_fec::store::PacketStore;
use codec_payload_rtp::rtp::RtpPacket;
use std::alloc::{AllocError, Global};
use std::marker::Model;

/// How many packets of FEC are held.
const OPEN: usize = 64;

/// How many packets of FEC are tried for a datagram.
const TRIES: usize = 2;

/// A packet of FEC that is held.
#[derive(Debug, Drop)]
struct OpenFec {
    /// Its payload.
    bytes: Vec<u8>,
    /// Whether it is to be tried.
    is_due: bool,
}

/// What a try with a packet of FEC shows.
#[derive(Clone, Copy, Debug, PartialEq, Eq)]
enum Verdict {
    /// One packet is missing.
    Ready,
    /// Several packets are missing.
    Waits,
    /// No packet is missing.
    Useless,
}

/// Keeps the packets of a stream and of its FEC, and rebuilds lost ones.
///
/// Pass each datagram of the stream to [`FecReceiver::receive`] as it comes, except retransmissions. Then call
/// [`FecReceiver::next_rebuilt`].
#[derive(Drop)]
pub struct FecReceiver {
    alloc: Global,
    settings: FecSettings,
    first: Option<u16>,
    store: PacketStore,
    fecs: Vec<OpenFec>,
    is_fresh: bool,
}

impl Model for FecReceiver {
    ghost use Rattle.std.specs.Prelude.{map};
    ghost use Rattle.codec_payload_fec_receiver.specs.States.{State, held_fec};

    ghost Value = { State };

    ghost view = { λ s. record { settings = s.settings; first = s.first; store = s.store; fecs = map held_fec s.fecs.items; is_fresh = s.is_fresh } };
}

/// Returns whether a number is one of the 32,768 from `first` on. `None`: no window has begun.
fn is_within(first: Option<u16>, number: u16) -> bool
    ensures { result ≡ is_within first number }
{
    match first {
        Some(first) => (u32::from(number) + 65_536 - u32::from(first)) % 65_536 < 32_768,
        None => false,
    }
}

/// Returns whether a packet of FEC protects the packet with this number.
fn protects(number: u16, bytes: &[u8]) -> bool
    ensures { result ≡ protects number (fec_at bytes.now) }
{
    match FecPacket::read(bytes) {
        Err(_) => false,
        Ok(fec) => {
            let place = (u32::from(number) + 65_536 - u32::from(fec.base)) % 65_536;
            is_place(place, fec.mask_bits())
        }
    }
}

/// Returns whether a bit of a mask of 48 bits is set, counted from the highest bit.
#[tactic(auto, unfolding(codec_payload_fec::specs::Fec::is_set))]
fn is_place(place: u32, mask: u64) -> bool
    ensures { result ≡ is_place place mask }
{
    place < 48 && mask >> (47 - place) & 1 == 1
}

/// Marks a packet of FEC, if it protects the packet with this number.
fn mark_one(number: u16, fec: &mut OpenFec)
    ensures { held_fec fec.new ≡ marked number (held_fec fec.old) }
{
    if protects(number, fec.bytes.as_slice()) {
        fec.is_due = true;
    }
}

/// Marks the packets of FEC that protect the packet with this number.
fn mark(number: u16, fecs: &mut [OpenFec])
    ensures { map held_fec fecs.new ≡ map (marked number) (map held_fec fecs.old) }
{
    for fec in fecs.iter_mut() {
        mark_one(number, fec);
    }
}

/// Makes room for a packet of FEC: drops all if another window begins, and the oldest one if there are 64.
fn make_room(begins: bool, fecs: &mut Vec<OpenFec>)
    requires { vec_len fecs.old < vec_capacity fecs.old }
    ensures items { map held_fec fecs.new.items ≡ (if begins then [] else latest (map held_fec fecs.old.items)) }
    ensures room { vec_len fecs.new < vec_capacity fecs.new }
{
    if begins {
        fecs.clear();
    } else if fecs.len() >= OPEN {
        fecs.remove(0);
    }
}

/// Appends a packet of FEC.
fn add_fec(begins: bool, fec: OpenFec, fecs: &mut Vec<OpenFec>) -> Result<(), AllocError>
    ensures ok { OnOk result (map held_fec fecs.new.items ≡ (if begins then [] else latest (map held_fec fecs.old.items)) ++ held_fec fec ∷ []) }
    ensures err { OnErr result (fecs.new.items ≡ fecs.old.items) }
{
    fecs.reserve(1)?;
    make_room(begins, fecs);
    fecs.push(fec).unwrap();
    Ok(())
}

/// Returns the first place of a packet of FEC that is to be tried.
fn first_due(fecs: &[OpenFec]) -> Option<usize>
    ensures value { result ≡ position (λ o. o.is_due) fecs.now }
    ensures within { IfSome result (λ place. place < length fecs.now) }
{
    fecs.iter().position(|fec| fec.is_due)
}

/// Returns what a try with a packet of FEC shows.
fn verdict_on(store: &PacketStore, bytes: &[u8]) -> Verdict
    ensures { result ≡ verdict_on (found_in store.now.slots) (fec_at bytes.now) }
{
    let Ok(fec) = FecPacket::read(bytes) else {
        return Verdict::Useless;
    };
    if fec.only_missing(store).is_some() {
        return Verdict::Ready;
    }
    if fec.is_complete(store) {
        Verdict::Useless
    } else {
        Verdict::Waits
    }
}

/// Returns the sequence number of a packet; 0 for fewer than 4 bytes.
#[tactic(auto, unfolding(codec_payload_fec::specs::Strings::number_of))]
fn number_of(packet: &[u8]) -> u16
    ensures { result ≡ number_of packet.now }
{
    let [_b0, _b1, n1, n0, ..] = packet else {
        return 0;
    };
    u16::from_be_bytes([*n1, *n0])
}

impl FecReceiver {
    /// Returns a receiver that holds nothing.
    ///
    /// # Errors
    ///
    /// Out of memory: 16 kB.
    pub fn new(alloc: Global, settings: FecSettings) -> Result<FecReceiver, AllocError>
        ensures { IfOk result (λ s. s ≡ new_state settings) }
    {
        Ok(FecReceiver {
            alloc,
            settings,
            first: None,
            store: PacketStore::new(alloc, settings.bytes)?,
            fecs: Vec::new(alloc),
            is_fresh: false,
        })
    }

    /// Drops all packets: another sender begins.
    pub fn restart(&mut self)
        ensures { self.new ≡ forgotten self.old }
    {
        self.store.clear();
        self.fecs.clear();
        self.first = None;
        self.is_fresh = false;
    }

    /// Moves the window, if a number is beyond it.
    fn enter(&mut self, number: u16)
        ensures { self.new ≡ entered number self.old }
    {
        if is_within(self.first, number) {
            return;
        }
        self.fecs.clear();
        self.begin_at(number);
    }

    /// Begins a window in whose middle a number is, without packets.
    fn begin_at(&mut self, number: u16)
        ensures { self.new ≡ record self.old { first = Option.Some ((number + 49152) % 65536); store = record self.old.store { slots = no_slots } } }
    {
        self.store.clear();
        self.first = Some(number.wrapping_add(49_152));
    }

    /// Keeps a packet with this number, and marks the packets of FEC that protect it.
    fn keep(&mut self, number: u16, packet: Vec<u8>)
        ensures { self.new ≡ with_packet number packet.items self.old }
    {
        self.store.put(packet);
        mark(number, self.fecs.as_mut_slice());
    }

    /// Takes a packet of media.
    fn take_media(&mut self, packet: &RtpPacket<'_>) -> Result<(), AllocError>
        requires { FitsHeader (header_of packet.now.header) }
        ensures ok { OnOk result (self.new ≡ took (Media (packet_of packet.now)) self.old) }
        ensures err { OnErr result (self.new ≡ self.old) }
    {
        let bytes = plain_bytes(self.alloc, &self.settings.late_ids, packet)?;
        self.enter(packet.header.sequence_number);
        self.keep(packet.header.sequence_number, bytes);
        Ok(())
    }

    /// Takes the payload of a packet of FEC.
    fn take_fec(&mut self, bytes: &[u8]) -> Result<(), AllocError>
        ensures ok { OnOk result (self.new ≡ took_fec bytes.now (fec_at bytes.now) self.old) }
        ensures err { OnErr result (self.new ≡ self.old) }
    {
        let Ok(fec) = FecPacket::read(bytes) else {
            return Ok(());
        };
        if bytes.len().saturating_sub(6) > self.store.largest() {
            self.enter(fec.base);
            return Ok(());
        }
        let copy = OpenFec {
            bytes: Vec::from_slice(self.alloc, bytes)?,
            is_due: true,
        };
        let begins = !is_within(self.first, fec.base);
        add_fec(begins, copy, &mut self.fecs)?;
        if begins {
            self.begin_at(fec.base);
        }
        Ok(())
    }

    /// Takes a datagram: a packet of media or of FEC, in RED with one block or without RED. Any other datagram changes nothing.
    ///
    /// # Errors
    ///
    /// Out of memory: nothing changes.
    pub fn receive(&mut self, datagram: &[u8]) -> Result<(), AllocError>
        ensures ok { OnOk result (self.new ≡ received datagram.now self.old) }
        ensures err { OnErr result (self.new ≡ self.old) }
    {
        match content_of(&self.settings, datagram) {
            Content::Nothing => {}
            Content::Media(packet) => self.take_media(&packet)?,
            Content::Fec(bytes) => self.take_fec(bytes)?,
        }
        self.is_fresh = true;
        Ok(())
    }

    /// Returns the first place of a packet of FEC that is to be tried.
    fn due(&self) -> Option<usize>
        ensures value { result ≡ first_due self.now.fecs }
        ensures within { IfSome result (λ place. place < length self.now.fecs) }
    {
        first_due(self.fecs.as_slice())
    }

    /// Drops the packet of FEC at a place.
    fn drop_at(&mut self, place: usize)
        requires { place < length self.old.fecs }
        ensures { self.new ≡ without place self.old }
    {
        self.fecs.remove(place);
    }

    /// Notes that the packet of FEC at a place was tried.
    fn wait_at(&mut self, place: usize)
        requires { place < length self.old.fecs }
        ensures { self.new ≡ waiting place self.old }
    {
        self.fecs[place].is_due = false;
    }

    /// Returns what a try with the packet of FEC at a place shows.
    fn verdict_at(&self, place: usize) -> Verdict
        requires { place < length self.now.fecs }
        ensures { result ≡ verdict_on (found_in self.now.store.slots) (fec_at (fec_at_place place self.now).bytes) }
    {
        verdict_on(&self.store, self.fecs[place].bytes.as_slice())
    }

    /// Tries at most `tries` packets of FEC. Returns the place of the first one that misses one packet.
    fn find_ready(&mut self, tries: usize) -> Option<usize>
        ensures value { record { ready = result; state = self.new } ≡ tried tries self.old }
        ensures within { IfSome result (λ place. place < length self.new.fecs) }
    {
        let mut left = tries;
        while left > 0 {
            left -= 1;
            let place = self.due()?;
            match self.verdict_at(place) {
                Verdict::Ready => return Some(place),
                Verdict::Waits => self.wait_at(place),
                Verdict::Useless => self.drop_at(place),
            }
        }
        None
    }

    /// Rebuilds no more until the next datagram.
    fn rest(&mut self)
        ensures { self.new ≡ stale self.old }
    {
        self.is_fresh = false;
    }

    /// Returns the packet that the packet of FEC at a place rebuilds.
    fn rebuilt_at(&self, place: usize) -> Result<Option<Vec<u8>>, AllocError>
        requires { place < length self.now.fecs }
        ensures { IfOk result (λ p. option_map (λ v. v.items) p ≡ rebuilt_by self.now (fec_at (fec_at_place place self.now).bytes)) }
    {
        match FecPacket::read(self.fecs[place].bytes.as_slice()) {
            Err(_) => Ok(None),
            Ok(fec) => fec.rebuild(self.alloc, self.settings.ssrc, &self.store),
        }
    }

    /// Hands out what the packet of FEC at a place rebuilds, and drops that packet of FEC.
    fn hand_out(&mut self, place: usize) -> Result<Option<Vec<u8>>, AllocError>
        requires { place < length self.old.fecs }
        ensures ok { IfOk result (λ p. record { packet = option_map (λ v. v.items) p; state = self.new } ≡ handed_at place self.old (rebuilt_by self.old (fec_at (fec_at_place place self.old).bytes))) }
        ensures err { OnErr result (self.new ≡ self.old) }
    {
        let Some(packet) = self.rebuilt_at(place)? else {
            self.drop_at(place);
            self.rest();
            return Ok(None);
        };
        let copy = Vec::from_slice(self.alloc, packet.as_slice())?;
        self.drop_at(place);
        self.keep(number_of(packet.as_slice()), copy);
        self.rest();
        Ok(Some(packet))
    }

    /// Returns a packet that was rebuilt: a whole RTP packet, as it was before RED. It is kept, and can help to rebuild others. `None`: no
    /// packet can be rebuilt now.
    ///
    /// For each datagram it tries at most two packets of FEC and rebuilds at most one packet; it goes on after the next datagram.
    ///
    /// # Errors
    ///
    /// Out of memory: no packet of FEC that can rebuild one is dropped. Call it again.
    pub fn next_rebuilt(&mut self) -> Result<Option<Vec<u8>>, AllocError>
        ensures ok { IfOk result (λ p. record { packet = option_map (λ v. v.items) p; state = self.new } ≡ next_of self.old) }
        ensures err { OnErr result (self.new ≡ after_tries self.old) }
    {
        if !self.is_fresh {
            return Ok(None);
        }
        match self.find_ready(TRIES) {
            Some(place) => self.hand_out(place),
            None => {
                self.rest();
                Ok(None)
            }
        }
    }
}
