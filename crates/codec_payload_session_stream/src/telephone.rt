//! Packets of telephone events beside audio (RFC 4733), which wait until polls return them.

ghost use Rattle.std.specs.Prelude.{◌≡◌, IfOk, OnErr};
ghost use Rattle.std.specs.Option.{option_map};
ghost use Rattle.codec_payload_rtp.specs.RtpValues.{packet_of};
ghost use Rattle.codec_payload_session_stream.specs.Telephone.{Gives, IsCopy, MayLackMemory, Notes, empty_queue, event_of, is_quiet, is_without_media, settled, telephone_at, telephone_if};

use crate::arrival::Arrival;
use crate::events::Event;
use codec_payload_datagrams::parsed::ParsedDatagram;
use codec_payload_jitter::outcome::Outcome;
use codec_payload_rtp::rtp::RtpPacket;
use codec_payload_session_formats::formats::SessionSettings;
use std::alloc::{AllocError, Global};
use std::marker::Model;

/// The largest number of packets that wait.
const MOST_WAITING: usize = 32;

/// A packet of telephone events.
#[derive(Debug, Drop)]
pub struct TelephonePacket {
    ssrc: u32,
    payload_type: u8,
    rtp_time: u32,
    marker: bool,
    payload: Vec<u8>,
}

/// The packets of telephone events that wait for polls, in the order in which they arrived.
#[derive(Debug, Drop)]
pub struct TelephoneQueue {
    alloc: Global,
    waiting: Vec<TelephonePacket>,
    /// How many packets arrived while [`MOST_WAITING`] others waited, modulo 2^64.
    dropped: u64,
}

/// What a datagram is for the queue.
#[derive(Clone, Copy, Debug)]
pub enum Noted {
    /// No packet of telephone events.
    Nothing,
    /// A packet that waits from now on.
    Waits,
    /// A packet without a place.
    NoPlace,
}

impl Model for TelephoneQueue {
    ghost use Rattle.codec_payload_session_stream.specs.Telephone.{Queue};

    ghost Value = { Queue };

    ghost view = { λ q. record { waiting = q.waiting.items; dropped = q.dropped } };
}

impl TelephonePacket {
    /// Copies a packet.
    fn copy_of(alloc: Global, packet: &RtpPacket<'_>) -> Result<TelephonePacket, AllocError>
        ensures { IfOk result (IsCopy (packet_of packet.now)) }
    {
        let payload = Vec::from_slice(alloc, packet.payload)?;
        Ok(TelephonePacket {
            ssrc: packet.header.ssrc,
            payload_type: packet.header.payload_type,
            rtp_time: packet.header.timestamp,
            marker: packet.header.marker,
            payload,
        })
    }

    /// Returns the event of this packet.
    fn into_event(self) -> Event<()>
        ensures { result ≡ event_of self }
    {
        Event::Telephone {
            ssrc: self.ssrc,
            payload_type: self.payload_type,
            rtp_time: self.rtp_time,
            marker: self.marker,
            payload: self.payload,
        }
    }
}

impl TelephoneQueue {
    /// Creates a queue in which nothing waits.
    pub fn none(alloc: Global) -> TelephoneQueue
        ensures { result ≡ empty_queue }
    {
        TelephoneQueue {
            alloc,
            waiting: Vec::new(alloc),
            dropped: 0,
        }
    }

    /// Puts the datagram into the queue, if it is a packet of telephone events and there is a place. Call `settle` once it is
    /// known whether a stream took it.
    #[inline(always)]
    pub fn note(
        &mut self,
        settings: &SessionSettings,
        datagram: &ParsedDatagram<'_>,
    ) -> Result<Noted, AllocError>
        ensures ok { IfOk result (λ noted. Notes (telephone_at settings.now datagram.now) self.old noted self.new) }
        ensures unchanged { OnErr result (self.new ≡ self.old) }
        ensures lacks { OnErr result (MayLackMemory (telephone_at settings.now datagram.now)) }
    {
        let Some(packet) = packet_in(settings, datagram) else {
            return Ok(Noted::Nothing);
        };
        if self.waiting.len() >= MOST_WAITING {
            return Ok(Noted::NoPlace);
        }
        let packet = TelephonePacket::copy_of(self.alloc, &packet)?;
        self.waiting.push(packet)?;
        Ok(Noted::Waits)
    }

    /// Takes the noted packet out again, if no stream took it without media. Counts a packet that a stream took and that has
    /// no place.
    #[inline(always)]
    pub fn settle(&mut self, noted: Noted, answer: &Result<Arrival, AllocError>)
        ensures { self.new ≡ settled noted (is_without_media answer.now) self.old }
    {
        match (noted, is_without_media(answer)) {
            (Noted::Waits, false) => {
                self.waiting.pop();
            }
            (Noted::NoPlace, true) => self.dropped = self.dropped.wrapping_add(1),
            _ => {}
        }
    }

    /// Returns the event of the packet that has waited longest, which waits no more.
    #[inline(always)]
    pub fn take(&mut self) -> Option<Event<()>>
        ensures { Gives self.old result self.new }
    {
        if self.waiting.is_empty() {
            return None;
        }
        Some(self.waiting.remove(0).into_event())
    }

    /// Returns whether no packet waits.
    pub fn is_empty(&self) -> bool
        ensures { result ≡ is_quiet self.now }
    {
        self.waiting.is_empty()
    }

    /// Returns how many packets had no place.
    pub fn dropped(&self) -> u64
        ensures { result ≡ self.now.dropped }
    {
        self.dropped
    }
}

/// Returns the packet of telephone events that the datagram is, if it is one.
#[inline(always)]
fn packet_in<'a>(settings: &SessionSettings, datagram: &ParsedDatagram<'a>) -> Option<RtpPacket<'a>>
    ensures { option_map (λ packet. packet_of packet) result ≡ telephone_at settings.now datagram.now }
{
    if datagram.is_rtcp() {
        return None;
    }
    match datagram.packet() {
        Ok(packet) => if_telephone(settings, *packet),
        Err(_) => None,
    }
}

/// Returns the packet, if its payload type is one of telephone events.
#[inline(always)]
fn if_telephone<'a>(settings: &SessionSettings, packet: RtpPacket<'a>) -> Option<RtpPacket<'a>>
    ensures { option_map (λ packet. packet_of packet) result ≡ telephone_if settings.now (packet_of packet.entry) }
{
    if settings.is_telephone(packet.header.payload_type) {
        Some(packet)
    } else {
        None
    }
}

/// Returns whether a stream took the datagram as one without media.
#[inline(always)]
fn is_without_media(answer: &Result<Arrival, AllocError>) -> bool
    ensures { result ≡ is_without_media answer.now }
{
    matches!(
        answer,
        Ok(Arrival::Stream {
            outcome: Outcome::NoMedia,
            ..
        })
    )
}
