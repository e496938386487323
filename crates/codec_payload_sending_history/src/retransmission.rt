//! The last packets of a stream, kept for retransmission.

ghost use Rattle.std.specs.Prelude.{◌≡◌, ◌+◌, ◌-◌, ◌%◌, ◌<◌, ◌≤◌, ◌∷◌, ◌++◌, [], ℕ, suc, length, max, min, take, slice_get, slice_set, IfOk, IfErr, IfSome, IfNone, OnOk, OnErr, IsFalse, IsTrue, List, Some, None};
ghost use Rattle.std.specs.VecDeque.{deque_len, deque_capacity};
ghost use Rattle.codec_payload_rtp.specs.RtpValues.{header_of};
ghost use Rattle.codec_payload_sending_history.specs.Histories.{HasNot, IsAt, IsFault, IsKept, IsRetransmission, Keeps, KeepsOnce, Repeats, Resends, ResendsWithin, follows, history_by, is_too_soon, kept_at, kept_by, lowered, next_after, place_for, raised, resent_at, with_bytes};
ghost use Rattle.codec_payload_sending_history.specs.declared.retransmission.Place.TheVariants as places;
ghost use Rattle.codec_payload_sending_history.specs.Packets.{Sent, no_packet, number_in, packets_of, sent_of, stream_fits};

use codec_payload_base::wire::Ticks;
use codec_payload_rtp::rtp::{PacketHeader, RtpError, RtpPacket};
use std::alloc::{AllocError, Global};
use std::collections::VecDeque;
use std::marker::Model;
use std::mem;
use thiserror::Error;

/// The largest number of packets that a history keeps: half of the sequence numbers.
pub const MAX_HISTORY: usize = 32_768;

/// The stream of retransmissions (RFC 4588): packets are resent under its SSRC, its payload type and its own sequence numbers.
#[derive(Clone, Copy, Debug, PartialEq, Eq)]
pub struct RetransmissionStream {
    /// The SSRC of the retransmissions.
    pub ssrc: u32,
    /// Their payload type, 0 to 127.
    pub payload_type: u8,
    /// The sequence number of the first retransmission.
    pub first_number: u16,
}

/// What a history keeps, and how it resends.
#[derive(Clone, Copy, Debug, PartialEq, Eq)]
pub struct HistorySettings {
    /// How many numbers the history covers, 1 to [`MAX_HISTORY`]: the highest number that was kept, and those below it.
    pub limit: usize,
    /// How many ticks have to pass before the same packet is resent again; 0: none. About a round-trip time is useful: a
    /// receiver that requests the packet again before that has not yet seen the answer.
    pub interval: u64,
    /// The stream of retransmissions. `None`: a packet is resent as it was.
    pub stream: Option<RetransmissionStream>,
}

/// Which setting is out of range.
#[derive(Clone, Copy, Debug, PartialEq, Eq, Error)]
pub enum HistoryError {
    /// The limit is 0, or above [`MAX_HISTORY`].
    #[error("history limit must be 1 to 32768")]
    Limit,
    /// The payload type of retransmissions is above 127.
    #[error("retransmission payload type exceeds 127")]
    PayloadType,
}

/// Why a datagram was not kept.
#[derive(Clone, Copy, Debug, PartialEq, Eq, Error)]
pub enum KeepError {
    /// It is not an RTP packet.
    #[error("not an RTP packet")]
    Rtp(RtpError),
    /// Out of memory.
    #[error("out of memory")]
    OutOfMemory,
}

/// What a history did with a datagram.
#[derive(Clone, Copy, Debug, PartialEq, Eq)]
pub enum Kept {
    /// The history keeps it at its number.
    Stored,
    /// Its number is `limit` or more below the highest one. The history does not keep it, and keeps all that it had.
    TooOld,
}

/// What [`History::keep_once`] did with a datagram.
#[derive(Clone, Copy, Debug, PartialEq, Eq)]
pub enum KeptOnce {
    /// No packet had its number. The history keeps it.
    New,
    /// The history has a packet with its number, and keeps that one.
    Known,
    /// Its number is `limit` or more below the highest one. The history does not keep it, and keeps all that it had.
    TooOld,
}

/// The result of a request for a packet.
#[derive(Clone, Copy, Debug, PartialEq, Eq)]
pub enum Resent {
    /// The packet was written, and counts as resent.
    Written,
    /// It is not in the history: it was never kept, or its number is too old.
    NotKept,
    /// It was resent less than the interval ago.
    TooSoon,
    /// The datagram has more bytes than [`History::resend_within`] was given. It was written, and nothing is spent.
    TooLarge,
}

/// A packet that was sent.
#[derive(Debug, Drop)]
struct SentPacket {
    bytes: Vec<u8>,
    /// When it was resent last.
    resent: Option<Ticks>,
}

/// Where a history keeps a packet.
#[derive(Clone, Copy, Debug, PartialEq, Eq)]
pub(crate) enum Place {
    /// All others leave.
    Anew,
    /// So many numbers above the highest one, at least 1.
    Above(usize),
    /// So many numbers below the highest one.
    Below(usize),
    /// Nowhere.
    TooOld,
}

/// The last packets of one stream, which [`History::resend`] writes again.
///
/// Pass each datagram to [`History::keep`] when you send it or, in a forwarder, when you receive it, before SRTP encrypts it. The
/// history has a place for each of the last `limit` numbers, so packets may come in any order, and numbers may be missing. Once it
/// has all places and their memory has grown to the largest packets, no call allocates.
#[derive(Debug, Drop)]
pub struct History {
    limit: usize,
    interval: u64,
    stream: Option<RetransmissionStream>,
    /// The number of the next retransmission.
    next: u16,
    /// The highest number.
    newest: u16,
    /// The number that was refused last, if no packet was kept since.
    refused: Option<u16>,
    /// A place for each number, from the highest down. A place without a packet has no bytes.
    packets: VecDeque<SentPacket>,
    /// Memory for the next packet.
    spare: Vec<u8>,
}

impl Model for History {
    ghost use Rattle.std.specs.Prelude.{◌≤◌, length, IsTrue};
    ghost use Rattle.codec_payload_sending_history.specs.Packets.{AreNumbered, Past, packets_of, stream_fits};

    ghost Value = { Past };

    ghost view = { λ h. record {
      limit = h.limit;
      interval = h.interval;
      stream = h.stream;
      next = h.next;
      newest = h.newest;
      refused = h.refused;
      packets = packets_of h.packets.items;
    } };

    ghost invariant = { λ h. (1 ≤ h.limit) × (h.limit ≤ 32768) × IsTrue (stream_fits h.stream) × (length h.packets.items ≤ h.limit) × AreNumbered h.newest (packets_of h.packets.items) };
}

/// Returns whether the payload type of retransmissions is in range.
fn stream_fits(stream: Option<RetransmissionStream>) -> bool
    ensures { result ≡ stream_fits stream }
{
    match stream {
        None => true,
        Some(stream) => stream.payload_type < 128,
    }
}

impl RetransmissionStream {
    /// Returns the header of a retransmission of a packet with that header, under that number.
    fn header<'a>(&self, header: PacketHeader<'a>, number: u16) -> PacketHeader<'a>
        ensures { header_of result ≡ record (header_of header.entry) { payload_type = self.now.payload_type; sequence_number = number; ssrc = self.now.ssrc } }
    {
        PacketHeader {
            payload_type: self.payload_type,
            sequence_number: number,
            ssrc: self.ssrc,
            ..header
        }
    }

    /// Appends the retransmission of a packet, under that number.
    fn write(&self, number: u16, bytes: &[u8], out: &mut Vec<u8>) -> Result<(), AllocError>
        requires payload_type { self.now.payload_type < 128 }
        requires packet { (original : ℕ) × (number_in bytes.now ≡ Some original) }
        requires empty { out.old.items ≡ [] }
        ensures { OnOk result (IsRetransmission self.now number bytes.now out.new.items) }
    {
        let Ok(packet) = RtpPacket::parse(bytes) else {
            unreachable!()
        };
        let original = packet.header.sequence_number;
        self.header(packet.header, number).write(out)?;
        out.extend_from_slice(&original.to_be_bytes())?;
        out.extend_from_slice(packet.payload)
    }
}

impl SentPacket {
    /// Returns whether it was resent less than `interval` ticks before `now`.
    fn is_too_soon(&self, now: Ticks, interval: u64) -> bool
        ensures { result ≡ is_too_soon interval now self.now.resent }
    {
        match self.resent {
            None => false,
            Some(last) => now.0.saturating_sub(last.0) < interval,
        }
    }
}

impl History {
    /// Returns an empty history. It does not allocate. If several settings are out of range, the error is the first in the order of
    /// [`HistoryError`].
    pub fn new(alloc: Global, settings: HistorySettings) -> Result<History, HistoryError>
        ensures { result ≡ history_by settings }
    {
        if settings.limit == 0 || settings.limit > MAX_HISTORY {
            return Err(HistoryError::Limit);
        }
        if !stream_fits(settings.stream) {
            return Err(HistoryError::PayloadType);
        }
        let next = match settings.stream {
            None => 0,
            Some(stream) => stream.first_number,
        };
        Ok(History {
            limit: settings.limit,
            interval: settings.interval,
            stream: settings.stream,
            next,
            newest: 0,
            refused: None,
            packets: VecDeque::new(alloc),
            spare: Vec::new(alloc),
        })
    }

    /// Returns how many numbers the history has places for: from the highest number that was kept down to the lowest, each with a
    /// packet or without one. So 0 means that it is empty.
    pub fn len(&self) -> usize
        ensures count { result ≡ length self.now.packets }
        ensures few { result ≤ self.now.limit }
    {
        self.packets.len()
    }

    /// Keeps a copy of a datagram, at the place of its number. Numbers may come in any order, and may be missing.
    ///
    /// - Above the highest number: it becomes the highest one, and packets `limit` or more numbers below it leave.
    /// - Less than `limit` below the highest number: it takes its place. It replaces a packet with the same number; the time at
    ///   which that packet was resent last stays.
    /// - Further below: it is not kept ([`Kept::TooOld`]). If the next call has the packet with the number after it, the sender
    ///   has restarted: all others leave, and the history begins with that packet.
    ///
    /// It copies the datagram once. A number ahead of the highest one costs a step for each number in between, at most `limit`.
    /// Once the history is full and its memory has grown to the largest packets, it does not allocate.
    ///
    /// # Errors
    ///
    /// The history is unchanged: the datagram is not an RTP packet, or memory ran out.
    pub fn keep(&mut self, datagram: &[u8]) -> Result<Kept, KeepError>
        ensures ok { IfOk result (λ kept. Keeps self.old datagram.now kept self.new) }
        ensures err { OnErr result (self.new ≡ self.old) }
        ensures fault { IfErr result (λ fault. IsFault datagram.now fault) }
    {
        match RtpPacket::parse(datagram) {
            Err(fault) => Err(KeepError::Rtp(fault)),
            Ok(packet) => {
                let number = packet.header.sequence_number;
                match self.store(self.place_for(number), number, datagram) {
                    Ok(kept) => Ok(kept),
                    Err(_) => Err(KeepError::OutOfMemory),
                }
            }
        }
    }

    /// Keeps a copy of a datagram as [`History::keep`] does, unless the history has a packet with its number. It is the call of a
    /// server, which keeps what arrived once for all viewers of a stream: only a datagram that is [`KeptOnce::New`] is to be
    /// forwarded. The packet that was forwarded is then the one that is resent.
    ///
    /// A sender that restarts within the last `limit` numbers sends numbers that are known. If you know of the restart, begin with a
    /// new history.
    ///
    /// # Errors
    ///
    /// The history is unchanged: the datagram is not an RTP packet, or memory ran out.
    pub fn keep_once(&mut self, datagram: &[u8]) -> Result<KeptOnce, KeepError>
        ensures ok { IfOk result (λ kept. KeepsOnce self.old datagram.now kept self.new) }
        ensures err { OnErr result (self.new ≡ self.old) }
        ensures fault { IfErr result (λ fault. IsFault datagram.now fault) }
    {
        match RtpPacket::parse(datagram) {
            Err(fault) => Err(KeepError::Rtp(fault)),
            Ok(packet) => {
                let number = packet.header.sequence_number;
                if self.has(number) {
                    self.refused = None;
                    return Ok(KeptOnce::Known);
                }
                match self.store(self.place_for(number), number, datagram) {
                    Ok(Kept::Stored) => Ok(KeptOnce::New),
                    Ok(Kept::TooOld) => Ok(KeptOnce::TooOld),
                    Err(_) => Err(KeepError::OutOfMemory),
                }
            }
        }
    }

    /// Returns where a packet with that number is kept.
    fn place_for(&self, number: u16) -> Place
        ensures value { result ≡ place_for self.now number }
        ensures above { (count : ℕ) → result ≡ places.Above count → ((self.now.newest + count) % 65536 ≡ number) × (1 ≤ count) }
    {
        let above = usize::from(number.wrapping_sub(self.newest));
        let below = usize::from(self.newest.wrapping_sub(number));
        if self.packets.is_empty() {
            Place::Anew
        } else if below < self.limit {
            Place::Below(below)
        } else if above < MAX_HISTORY {
            if above < self.limit {
                Place::Above(above)
            } else {
                Place::Anew
            }
        } else if follows(self.refused, number) {
            Place::Anew
        } else {
            Place::TooOld
        }
    }

    /// Keeps a packet with that number at that place.
    fn store(&mut self, place: Place, number: u16, bytes: &[u8]) -> Result<Kept, AllocError>
        requires place { place ≡ place_for self.old number }
        requires above { (count : ℕ) → place ≡ places.Above count → ((self.old.newest + count) % 65536 ≡ number) × (1 ≤ count) }
        requires number { number_in bytes.now ≡ Some number }
        ensures ok { OnOk result (self.new ≡ kept_at place number bytes.now self.old) }
        ensures answer { IfOk result (λ kept. kept ≡ kept_by place) }
        ensures err { OnErr result (self.new ≡ self.old) }
    {
        match place {
            Place::Anew => self.store_anew(number, bytes)?,
            Place::Above(count) => self.store_above(count, number, bytes)?,
            Place::Below(below) => self.store_below(below, number, bytes)?,
            Place::TooOld => {
                self.refused = Some(number);
                return Ok(Kept::TooOld);
            }
        }
        Ok(Kept::Stored)
    }

    /// Keeps this packet alone.
    fn store_anew(&mut self, number: u16, bytes: &[u8]) -> Result<(), AllocError>
        requires number { number_in bytes.now ≡ Some number }
        ensures ok { OnOk result (self.new ≡ kept_at places.Anew number bytes.now self.old) }
        ensures err { OnErr result (self.new ≡ self.old) }
    {
        copy_in_place(&mut self.spare, bytes)?;
        put_anew(&mut self.packets, &mut self.spare, self.limit)?;
        self.newest = number;
        self.refused = None;
        Ok(())
    }

    /// Keeps a packet so many numbers above the highest one.
    fn store_above(&mut self, count: usize, number: u16, bytes: &[u8]) -> Result<(), AllocError>
        requires number { number_in bytes.now ≡ Some number }
        requires above { (self.old.newest + count) % 65536 ≡ number }
        requires some { 1 ≤ count }
        ensures ok { OnOk result (self.new ≡ kept_at (places.Above count) number bytes.now self.old) }
        ensures err { OnErr result (self.new ≡ self.old) }
    {
        copy_in_place(&mut self.spare, bytes)?;
        put_above(&mut self.packets, &mut self.spare, count, self.limit)?;
        self.newest = number;
        self.refused = None;
        Ok(())
    }

    /// Keeps a packet so many numbers below the highest one.
    fn store_below(&mut self, below: usize, number: u16, bytes: &[u8]) -> Result<(), AllocError>
        requires number { number_in bytes.now ≡ Some number }
        requires below { (self.old.newest + 65536 - number) % 65536 ≡ below }
        requires few { below < self.old.limit }
        ensures ok { OnOk result (self.new ≡ kept_at (places.Below below) number bytes.now self.old) }
        ensures err { OnErr result (self.new ≡ self.old) }
    {
        copy_in_place(&mut self.spare, bytes)?;
        put_below(&mut self.packets, &mut self.spare, below)?;
        self.refused = None;
        Ok(())
    }

    /// Returns the packet with that number, and its place: its distance from the highest number.
    fn find(&self, number: u16) -> Option<(usize, &SentPacket)>
        ensures found { IfSome result (λ x. IsAt self.now number x.0 (sent_of x.1.now)) }
        ensures none { IfNone result (HasNot self.now number) }
    {
        let place = usize::from(self.newest.wrapping_sub(number));
        let packet = self.packets.get(place)?;
        if packet.bytes.is_empty() {
            return None;
        }
        Some((place, packet))
    }

    /// Returns whether the history has the packet with that number.
    fn has(&self, number: u16) -> bool
        ensures there { IsTrue result → (held : List ℕ) × IsKept self.now number held }
        ensures none { IsFalse result → HasNot self.now number }
    {
        match self.packet(number) {
            Some(_) => true,
            None => false,
        }
    }

    /// Returns the datagram with that number as it was kept, if the history has it. It does not count as resent.
    pub fn packet(&self, number: u16) -> Option<&[u8]>
        ensures some { IfSome result (λ bytes. IsKept self.now number bytes.now) }
        ensures none { IfNone result (HasNot self.now number) }
    {
        let (_, packet) = self.find(number)?;
        Some(&packet.bytes)
    }

    /// Records that the packet at a place was resent.
    fn record(&mut self, now: Ticks, place: usize)
        requires { (p : Sent) × (number : ℕ) × (slice_get self.old.packets place ≡ Some p) × (number_in p.bytes ≡ Some number) }
        ensures { (p : Sent) × (slice_get self.old.packets place ≡ Some p) × (self.new ≡ resent_at now place p self.old) }
    {
        mark_resent(&mut self.packets, place, now);
        self.next = next_after(self.stream, self.next);
    }

    /// Writes the packet with that number again and replaces what `out` has. Without a stream of retransmissions the packet is as it
    /// was. Otherwise it has the next number of the stream, and the original number in front of its payload (RFC 4588, section 4).
    /// Unless the answer is [`Resent::Written`], `out` is unchanged. It is never [`Resent::TooLarge`].
    ///
    /// If an allocation fails, `out` is empty and the history is unchanged.
    pub fn resend(
        &mut self,
        now: Ticks,
        number: u16,
        out: &mut Vec<u8>,
    ) -> Result<Resent, AllocError>
        ensures ok { IfOk result (λ resent. Resends now number self.old out.old.items resent out.new.items self.new) }
        ensures err { OnErr result ((self.new ≡ self.old) × (out.new.items ≡ [])) }
    {
        let Some((place, packet)) = self.find(number) else {
            return Ok(Resent::NotKept);
        };
        if packet.is_too_soon(now, self.interval) {
            return Ok(Resent::TooSoon);
        }
        write_again(self.stream, self.next, &packet.bytes, out)?;
        self.record(now, place);
        Ok(Resent::Written)
    }

    /// Writes the packet as [`History::resend`] does, and resends it if the datagram has at most `most` bytes. If it has more, `out`
    /// has the datagram, the answer is [`Resent::TooLarge`], and the history is unchanged: the number of the retransmission is not
    /// used, and the packet does not count as resent. So a caller whose memory is limited may try again.
    ///
    /// If an allocation fails, `out` is empty and the history is unchanged.
    pub fn resend_within(
        &mut self,
        now: Ticks,
        number: u16,
        most: usize,
        out: &mut Vec<u8>,
    ) -> Result<Resent, AllocError>
        ensures ok { IfOk result (λ resent. ResendsWithin most now number self.old out.old.items resent out.new.items self.new) }
        ensures err { OnErr result ((self.new ≡ self.old) × (out.new.items ≡ [])) }
    {
        let Some((place, packet)) = self.find(number) else {
            return Ok(Resent::NotKept);
        };
        if packet.is_too_soon(now, self.interval) {
            return Ok(Resent::TooSoon);
        }
        write_again(self.stream, self.next, &packet.bytes, out)?;
        if out.len() > most {
            return Ok(Resent::TooLarge);
        }
        self.record(now, place);
        Ok(Resent::Written)
    }
}

/// Returns the number of the retransmission after that one.
fn next_after(stream: Option<RetransmissionStream>, next: u16) -> u16
    ensures { result ≡ next_after stream next }
{
    match stream {
        None => next,
        Some(_) => next.wrapping_add(1),
    }
}

/// Records in the packet at a place that it was resent.
fn mark_resent(packets: &mut VecDeque<SentPacket>, place: usize, now: Ticks)
    requires { place < length packets.old.items }
    ensures marked { (p : Sent) × (slice_get (packets_of packets.old.items) place ≡ Some p)
        × (packets_of packets.new.items ≡ slice_set (packets_of packets.old.items) place (record p { resent = Some now })) }
    ensures count { length packets.new.items ≡ length packets.old.items }
{
    packets[place].resent = Some(now);
}

/// Returns whether a number comes right after the one that was refused last.
fn follows(refused: Option<u16>, number: u16) -> bool
    ensures { result ≡ follows refused number }
{
    match refused {
        None => false,
        Some(refused) => number == refused.wrapping_add(1),
    }
}

/// Replaces what `out` has by these bytes.
fn copy_in_place(out: &mut Vec<u8>, bytes: &[u8]) -> Result<(), AllocError>
    ensures { OnOk result (out.new.items ≡ bytes.now) }
{
    out.clear();
    out.extend_from_slice(bytes)
}

/// Keeps the packet whose bytes `spare` has, alone.
fn put_anew(
    packets: &mut VecDeque<SentPacket>,
    spare: &mut Vec<u8>,
    limit: usize,
) -> Result<(), AllocError>
    requires some { 1 ≤ limit }
    ensures ok { OnOk result (packets_of packets.new.items ≡ with_bytes 0 spare.old.items (raised limit 1 [])) }
    ensures few { OnOk result (length packets.new.items ≤ limit) }
    ensures err { OnErr result (packets.new.items ≡ packets.old.items) }
{
    packets.reserve(1_usize.saturating_sub(packets.len()))?;
    packets.clear();
    raise(packets, 1, limit);
    put(packets, spare, 0);
    Ok(())
}

/// Puts the packet whose bytes `spare` has so many numbers above the highest one.
fn put_above(
    packets: &mut VecDeque<SentPacket>,
    spare: &mut Vec<u8>,
    count: usize,
    limit: usize,
) -> Result<(), AllocError>
    requires some { 1 ≤ count }
    requires few { length packets.old.items ≤ limit }
    requires limit { 1 ≤ limit }
    ensures ok { OnOk result (packets_of packets.new.items ≡ with_bytes 0 spare.old.items (raised limit count (packets_of packets.old.items))) }
    ensures few { OnOk result (length packets.new.items ≤ limit) }
    ensures err { OnErr result (packets.new.items ≡ packets.old.items) }
{
    packets.reserve(count.min(limit - packets.len()))?;
    raise(packets, count, limit);
    put(packets, spare, 0);
    Ok(())
}

/// Puts the packet whose bytes `spare` has so many numbers below the highest one.
fn put_below(
    packets: &mut VecDeque<SentPacket>,
    spare: &mut Vec<u8>,
    place: usize,
) -> Result<(), AllocError>
    requires few { place < 32768 }
    ensures ok { OnOk result (packets_of packets.new.items ≡ with_bytes place spare.old.items (lowered (suc place - length packets.old.items) (packets_of packets.old.items))) }
    ensures len { OnOk result (length packets.new.items ≡ max (length packets.old.items) (suc place)) }
    ensures err { OnErr result (packets.new.items ≡ packets.old.items) }
{
    let missing = (place + 1).saturating_sub(packets.len());
    packets.reserve(missing)?;
    lower(packets, missing);
    put(packets, spare, place);
    Ok(())
}

/// Puts the bytes of a packet at a place, and takes the memory that was there.
fn put(packets: &mut VecDeque<SentPacket>, spare: &mut Vec<u8>, place: usize)
    requires { place < length packets.old.items }
    ensures items { packets_of packets.new.items ≡ with_bytes place spare.old.items (packets_of packets.old.items) }
    ensures len { length packets.new.items ≡ length packets.old.items }
{
    mem::swap(&mut packets[place].bytes, spare);
}

/// Puts so many places in front of the others.
fn raise(packets: &mut VecDeque<SentPacket>, count: usize, limit: usize)
    requires some { 1 ≤ limit }
    requires few { length packets.old.items ≤ limit }
    requires room { min (length packets.old.items + count) limit ≤ deque_capacity packets.old }
    ensures items { packets_of packets.new.items ≡ raised limit count (packets_of packets.old.items) }
    ensures few { length packets.new.items ≤ limit }
    ensures some { 1 ≤ count → 1 ≤ length packets.new.items }
{
    for _ in 0..count {
        raise_once(packets, limit);
    }
}

/// Puts one place in front of the others. If there are `limit` places, the last one leaves, and its memory is used.
fn raise_once(packets: &mut VecDeque<SentPacket>, limit: usize)
    requires some { 1 ≤ limit }
    requires few { length packets.old.items ≤ limit }
    requires room { min (length packets.old.items + 1) limit ≤ deque_capacity packets.old }
    ensures items { packets_of packets.new.items ≡ take limit (no_packet ∷ packets_of packets.old.items) }
    ensures len { length packets.new.items ≡ min (length packets.old.items + 1) limit }
    ensures capacity { deque_capacity packets.new ≡ deque_capacity packets.old }
{
    let bytes = last_memory(packets, limit);
    packets.push_front_reserved(SentPacket {
        bytes,
        resent: None,
    });
}

/// Takes the last of `limit` places away, and returns its memory.
fn last_memory(packets: &mut VecDeque<SentPacket>, limit: usize) -> Vec<u8>
    requires some { 1 ≤ limit }
    ensures items { packets.new.items ≡ take (limit - 1) packets.old.items }
    ensures capacity { deque_capacity packets.new ≡ deque_capacity packets.old }
    ensures empty { result.items ≡ [] }
{
    let alloc = *packets.allocator();
    if packets.len() >= limit
        && let Some(mut last) = packets.pop_back()
    {
        packets.truncate(limit - 1);
        last.bytes.clear();
        return last.bytes;
    }
    Vec::new(alloc)
}

/// Appends so many places.
fn lower(packets: &mut VecDeque<SentPacket>, count: usize)
    requires room { length packets.old.items + count ≤ deque_capacity packets.old }
    ensures items { packets_of packets.new.items ≡ lowered count (packets_of packets.old.items) }
    ensures len { length packets.new.items ≡ length packets.old.items + count }
{
    for _ in 0..count {
        lower_once(packets);
    }
}

/// Appends one place.
fn lower_once(packets: &mut VecDeque<SentPacket>)
    requires room { length packets.old.items < deque_capacity packets.old }
    ensures items { packets_of packets.new.items ≡ packets_of packets.old.items ++ no_packet ∷ [] }
    ensures len { length packets.new.items ≡ length packets.old.items + 1 }
    ensures capacity { deque_capacity packets.new ≡ deque_capacity packets.old }
{
    let alloc = *packets.allocator();
    packets.push_back_reserved(SentPacket {
        bytes: Vec::new(alloc),
        resent: None,
    });
}

/// Writes a packet again, and replaces what `out` has.
fn write_again(
    stream: Option<RetransmissionStream>,
    next: u16,
    bytes: &[u8],
    out: &mut Vec<u8>,
) -> Result<(), AllocError>
    requires fits { IsTrue (stream_fits stream) }
    requires packet { (original : ℕ) × (number_in bytes.now ≡ Some original) }
    ensures ok { OnOk result (Repeats stream next bytes.now out.new.items) }
    ensures err { OnErr result (out.new.items ≡ []) }
{
    out.clear();
    let answer = match stream {
        None => out.extend_from_slice(bytes),
        Some(stream) => stream.write(next, bytes, out),
    };
    if answer.is_err() {
        out.clear();
    }
    answer
}
