//! When packets leave: a token bucket with four queues.

ghost use Rattle.std.specs.Prelude.{◌≡◌, ◌≤◌, ◌<◌, ◌+◌, ◌*◌, ◌^◌, ◌↔◌, drop, IfErr, IsTrue, OnErr, OnOk};
ghost use Rattle.std.specs.Option.{option_map};
ghost use Rattle.codec_payload_bandwidth_pacer.specs.Pacing.{after_pop, bytes_in, bytes_of, deadline_of, filled, first_kind, first_of, new_pacing, next_of, pushed, removed, removed_of, with_rate, with_waiting};
ghost use Rattle.codec_payload_bandwidth_pacer.specs.declared.pacer.PacerError.TheVariants as errors;

use codec_payload_base::wire::Ticks;
use std::alloc::Global;
use std::collections::VecDeque;
use std::marker::Model;
use thiserror::Error;

/// What one byte weighs in the bucket: bits, times microseconds in a second.
const BYTE: u128 = 8_000_000;

/// What a packet is for. Packets of a kind leave before those of the kinds below it.
#[derive(Clone, Copy, Debug, PartialEq, Eq)]
pub enum PacedKind {
    /// Audio: little, and it does not wait for anything else.
    Audio,
    /// A retransmission: a frame waits for it, and so do all frames after it.
    Resent,
    /// Video that is sent for the first time.
    Media,
    /// Padding, which fills the rate of a trial.
    Padding,
}

/// A packet that a pacer holds.
#[derive(Clone, Copy, Debug, PartialEq, Eq)]
pub struct PacedPacket {
    pub kind: PacedKind,
    /// Its bytes, with the headers that the path carries.
    pub size: u32,
    /// Your name of the packet, for example its index among your packets. The pacer does not interpret it.
    pub id: u64,
}

/// A packet in the queue of its kind.
#[derive(Clone, Copy, Debug, PartialEq, Eq)]
pub(crate) struct Waiting {
    pub(crate) size: u32,
    pub(crate) id: u64,
}

/// How a pacer sends.
#[derive(Clone, Copy, Debug, PartialEq, Eq)]
pub struct PacerSettings {
    /// The bytes that may leave at once, before one packet more. 2,500 by default: two packets.
    pub burst: u32,
    /// The most bytes that wait. 250,000 by default: a second at 2 Mbit/s.
    pub bound: u64,
}

impl PacerSettings {
    /// Returns the defaults.
    pub fn live() -> PacerSettings
        ensures { result ≡ record { burst = 2500; bound = 250000 } }
    {
        PacerSettings {
            burst: 2_500,
            bound: 250_000,
        }
    }
}

/// Why a packet was not stored.
#[derive(Clone, Copy, Debug, PartialEq, Eq, Error)]
pub enum PacerError {
    /// With this packet more than `bound` bytes would wait.
    #[error("queue of the pacer is full")]
    Full,
    /// Out of memory.
    #[error("out of memory")]
    OutOfMemory,
}

/// Sends packets by a rate: a token bucket (RFC 2697 calls its parameters information rate and burst size).
///
/// [`Pacer::push`] stores a packet, and [`Pacer::pop`] returns the packet that leaves now. In each interval of `t` seconds at a rate
/// of `r` bits per second, at most `r * t / 8 + burst` bytes leave, and one packet more. Audio leaves first, then
/// retransmissions, media, and padding; within a kind the first that was pushed. Times are in microseconds of your clock. If a time
/// is below one before, no time has passed.
#[derive(Debug, Drop)]
pub struct Pacer {
    settings: PacerSettings,
    /// In bits per second.
    rate: u64,
    /// The highest time of a call.
    at: u64,
    /// What left, less what the rate has carried since: in bits, times 1,000,000.
    owed: u128,
    audio: VecDeque<Waiting>,
    resent: VecDeque<Waiting>,
    media: VecDeque<Waiting>,
    padding: VecDeque<Waiting>,
    /// How many bytes wait.
    bytes: u64,
}

impl Model for Pacer {
    ghost use Rattle.std.specs.Prelude.{◌≡◌, ◌≤◌, ◌+◌, ◌*◌, ◌^◌};
    ghost use Rattle.codec_payload_bandwidth_pacer.specs.Pacing.{Pacing, bytes_in};

    ghost Value = { Pacing };

    ghost view = { λ p. record { settings = p.settings; rate = p.rate; at = p.at; owed = p.owed; waits = record { audio = p.audio.items; resent = p.resent.items; media = p.media.items; padding = p.padding.items } } };

    ghost invariant = { λ p. (p.bytes ≡ bytes_in (record { audio = p.audio.items; resent = p.resent.items; media = p.media.items; padding = p.padding.items })) × (p.bytes ≤ p.settings.bound) × (p.owed ≤ (p.settings.burst + 2 ^ 32) * 8000000) };
}

impl Pacer {
    /// Returns a pacer without packets, whose bucket is full. `rate` is in bits per second; 0: nothing leaves once the burst has left.
    /// Does not allocate.
    pub fn new(alloc: Global, rate: u64, settings: PacerSettings) -> Pacer
        ensures { result ≡ new_pacing rate settings }
    {
        Pacer {
            settings,
            rate,
            at: 0,
            owed: 0,
            audio: VecDeque::new(alloc),
            resent: VecDeque::new(alloc),
            media: VecDeque::new(alloc),
            padding: VecDeque::new(alloc),
            bytes: 0,
        }
    }

    /// Sets the rate from this time on.
    pub fn set_rate(&mut self, now: Ticks, rate: u64)
        ensures { self.new ≡ with_rate now.0 rate self.old }
    {
        self.advance(now);
        self.rate = rate;
    }

    /// Stores a packet after those of its kind.
    ///
    /// # Errors
    ///
    /// Nothing changed. [`PacerError::Full`] exactly if more than `bound` bytes would wait.
    pub fn push(&mut self, packet: PacedPacket) -> Result<(), PacerError>
        ensures ok { OnOk result (self.new ≡ pushed packet self.old) }
        ensures err { OnErr result (self.new ≡ self.old) }
        ensures fits { OnOk result (bytes_in self.old.waits + packet.size ≤ self.old.settings.bound) }
        ensures full { IfErr result (λ fault. (fault ≡ errors.Full) ↔ (self.old.settings.bound < bytes_in self.old.waits + packet.size)) }
    {
        if u64::from(packet.size) > self.settings.bound - self.bytes {
            return Err(PacerError::Full);
        }
        let waiting = Waiting {
            size: packet.size,
            id: packet.id,
        };
        let stored = match packet.kind {
            PacedKind::Audio => append(waiting, &mut self.audio),
            PacedKind::Resent => append(waiting, &mut self.resent),
            PacedKind::Media => append(waiting, &mut self.media),
            PacedKind::Padding => append(waiting, &mut self.padding),
        };
        stored?;
        self.bytes += u64::from(packet.size);
        Ok(())
    }

    /// Returns the packet that leaves now, and removes it. `None`: nothing waits, or the rate does not allow a packet yet.
    pub fn pop(&mut self, now: Ticks) -> Option<PacedPacket>
        ensures packet { result ≡ next_of (filled now.0 self.old) }
        ensures after { self.new ≡ after_pop now.0 self.old }
    {
        self.advance(now);
        if self.owed > u128::from(self.settings.burst) * BYTE {
            return None;
        }
        let kind = self.first_kind()?;
        let packet = self.remove(kind)?;
        self.owed += u128::from(packet.size) * BYTE;
        Some(packet)
    }

    /// Removes the first packet of a kind, and returns it: it is not to leave any more. So
    /// `while let Some(packet) = pacer.remove(kind)` removes all of a kind.
    pub fn remove(&mut self, kind: PacedKind) -> Option<PacedPacket>
        ensures packet { result ≡ removed_of kind self.old }
        ensures after { self.new ≡ removed kind self.old }
    {
        let first = match kind {
            PacedKind::Audio => take_first(&mut self.audio),
            PacedKind::Resent => take_first(&mut self.resent),
            PacedKind::Media => take_first(&mut self.media),
            PacedKind::Padding => take_first(&mut self.padding),
        };
        let first = first?;
        self.bytes -= u64::from(first.size);
        Some(PacedPacket {
            kind,
            size: first.size,
            id: first.id,
        })
    }

    /// Returns the kind of the packet that leaves next. `None`: nothing waits.
    pub fn first_kind(&self) -> Option<PacedKind>
        ensures { result ≡ first_kind self.now.waits }
    {
        if !self.audio.is_empty() {
            Some(PacedKind::Audio)
        } else if !self.resent.is_empty() {
            Some(PacedKind::Resent)
        } else if !self.media.is_empty() {
            Some(PacedKind::Media)
        } else if !self.padding.is_empty() {
            Some(PacedKind::Padding)
        } else {
            None
        }
    }

    /// Returns how many bytes wait.
    pub fn waiting(&self) -> u64
        ensures value { result ≡ bytes_in self.now.waits }
        ensures most { result ≤ self.now.settings.bound }
    {
        self.bytes
    }

    /// Returns the time from which on [`Pacer::pop`] returns a packet. `None`: nothing waits, or the rate is 0 and the burst has left, or
    /// the time is beyond what [`Ticks`] hold.
    pub fn next_deadline(&self) -> Option<Ticks>
        ensures { option_map (λ at. at.0) result ≡ deadline_of self.now }
    {
        self.first_kind()?;
        let limit = u128::from(self.settings.burst) * BYTE;
        if self.owed <= limit {
            return Some(Ticks(self.at));
        }
        if self.rate == 0 {
            return None;
        }
        let at = u128::from(self.at) + (self.owed - limit - 1) / u128::from(self.rate) + 1;
        match u64::try_from(at) {
            Ok(at) => Some(Ticks(at)),
            Err(_) => None,
        }
    }

    /// Lets time pass.
    fn advance(&mut self, now: Ticks)
        ensures { self.new ≡ filled now.0 self.old }
    {
        let earned = earned(now.0.saturating_sub(self.at), self.rate);
        self.owed = self.owed.saturating_sub(earned);
        self.at = self.at.max(now.0);
    }
}

/// Returns what a rate carries in a time, in bits times 1,000,000.
fn earned(elapsed: u64, rate: u64) -> u128
    ensures { result ≡ rate * elapsed }
{
    u128::from(rate) * u128::from(elapsed)
}

/// Appends a packet to a queue.
fn append(waiting: Waiting, queue: &mut VecDeque<Waiting>) -> Result<(), PacerError>
    ensures ok { OnOk result (queue.new.items ≡ with_waiting waiting queue.old.items) }
    ensures bytes { OnOk result (bytes_of queue.new.items ≡ bytes_of queue.old.items + waiting.size) }
    ensures err { OnErr result (queue.new.items ≡ queue.old.items) }
    ensures memory { IfErr result (λ fault. fault ≡ errors.OutOfMemory) }
{
    match queue.push_back(waiting) {
        Ok(()) => Ok(()),
        Err(_) => Err(PacerError::OutOfMemory),
    }
}

/// Removes the first packet of a queue.
fn take_first(queue: &mut VecDeque<Waiting>) -> Option<Waiting>
    ensures first { result ≡ first_of queue.old.items }
    ensures rest { queue.new.items ≡ drop 1 queue.old.items }
{
    queue.pop_front()
}
