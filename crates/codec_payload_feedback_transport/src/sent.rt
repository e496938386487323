//! The packets that were sent on a transport.

ghost use Rattle.std.specs.Prelude.{◌≡◌, ◌-◌, ◌+◌, ◌≤◌, ◌<◌, length, IfOk, OnErr, OnOk};
ghost use Rattle.std.specs.Option.{option_map};
ghost use Rattle.codec_payload_feedback_transport.specs.Sent.{after_sent, back_of, one_more, results_of, sent_at, sent_by};

use codec_payload_base::wire::Ticks;
use codec_payload_feedback_congestion::transport::TransportFeedback;
use std::alloc::{AllocError, Global};
use std::collections::VecDeque;
use std::marker::Model;
use thiserror::Error;

/// The largest number of sent packets that are remembered: half of the numbers of 16 bits.
pub const MAX_SENT: usize = 32_768;

/// The setting of sent packets that is out of range.
#[derive(Clone, Copy, Debug, PartialEq, Eq, Error)]
pub enum SentPacketsError {
    /// The limit is 0, or above [`MAX_SENT`].
    #[error("number of remembered packets must be 1 to 32768")]
    Limit,
}

/// What feedback says about a packet.
#[derive(Clone, Copy, Debug, PartialEq, Eq)]
pub struct PacketResult {
    /// The transport-wide number of the packet.
    pub number: u16,
    /// When the packet was sent. `None`: it is not remembered any more, or no packet with this number was sent.
    pub sent: Option<Ticks>,
    /// When the packet arrived, in quarters of a millisecond of the receiver's clock, modulo 2^32. `None`: it did not arrive.
    pub received: Option<u32>,
}

/// The counter of a transport, and when its last packets were sent.
///
/// One counter serves all streams of a transport: media, retransmissions and padding. [`SentPackets::assign`] gives each packet its
/// number, and remembers when it is sent; [`SentPackets::results`] reads feedback with these times. The last `limit` packets are
/// remembered, 8 bytes each.
#[derive(Debug, Drop)]
pub struct SentPackets {
    limit: usize,
    next: u16,
    times: VecDeque<u64>,
}

impl Model for SentPackets {
    ghost use Rattle.codec_payload_feedback_transport.specs.Sent.{IsSent, Sent};

    ghost Value = { Sent };

    ghost view = { λ s. record { limit = s.limit; next = s.next; times = s.times.items } };

    ghost invariant = { λ s. IsSent (record { limit = s.limit; next = s.next; times = s.times.items }) };
}

/// Appends a time. If there are `limit` times, the first one is removed.
fn push_time(limit: usize, time: u64, times: &mut VecDeque<u64>) -> Result<(), AllocError>
    requires some { 1 ≤ limit }
    requires within { length times.old.items ≤ limit }
    ensures ok { OnOk result (times.new.items ≡ one_more limit time times.old.items) }
    ensures err { OnErr result (times.new.items ≡ times.old.items) }
{
    times.push_back(time)?;
    if times.len() > limit {
        times.pop_front();
    }
    Ok(())
}

impl SentPackets {
    /// Returns a transport on which nothing was sent: its first number is 0. The last `limit` packets will be remembered, 1 to
    /// [`MAX_SENT`]: those of the round-trip time and of the interval between two feedbacks suit, 2,048 at 10 Mbit/s. Does not allocate.
    ///
    /// # Errors
    ///
    /// The limit is out of range.
    pub fn new(alloc: Global, limit: usize) -> Result<SentPackets, SentPacketsError>
        ensures { result ≡ sent_by limit }
    {
        if limit == 0 || limit > MAX_SENT {
            return Err(SentPacketsError::Limit);
        }
        Ok(SentPackets {
            limit,
            next: 0,
            times: VecDeque::new(alloc),
        })
    }

    /// Counts the next packet of the transport, which is sent at this time, and returns its number. The number belongs into the header
    /// extension of the packet, as two bytes in network order.
    ///
    /// # Errors
    ///
    /// Out of memory: nothing changed, and the number is not used.
    pub fn assign(&mut self, now: Ticks) -> Result<u16, AllocError>
        ensures number { IfOk result (λ number. number ≡ self.old.next) }
        ensures ok { OnOk result (self.new ≡ after_sent now.0 self.old) }
        ensures err { OnErr result (self.new ≡ self.old) }
    {
        push_time(self.limit, now.0, &mut self.times)?;
        let number = self.next;
        self.next = number.wrapping_add(1);
        Ok(number)
    }

    /// Returns when the packet with this number was sent. `None`: it is not among the remembered packets.
    pub fn sent_at(&self, number: u16) -> Option<Ticks>
        ensures { option_map (λ at. at.0) result ≡ sent_at number self.now }
    {
        let back = usize::from(self.next.wrapping_sub(1).wrapping_sub(number));
        if back >= self.times.len() {
            return None;
        }
        Some(Ticks(self.times[self.times.len() - 1 - back]))
    }

    /// Returns what a feedback says: for each number that it reports, in order, when the packet was sent, if that is remembered, and when
    /// it arrived, if it did.
    ///
    /// # Errors
    ///
    /// Out of memory.
    pub fn results(
        &self,
        alloc: Global,
        feedback: &TransportFeedback,
    ) -> Result<Vec<PacketResult>, AllocError>
        ensures { IfOk result (λ results. results.items ≡ results_of feedback.now.base feedback.now.statuses.items self.now) }
    {
        let mut results = Vec::new(alloc);
        let mut number = feedback.base;
        for received in &feedback.statuses {
            results.push(PacketResult {
                number,
                sent: self.sent_at(number),
                received: *received,
            })?;
            number = number.wrapping_add(1);
        }
        Ok(results)
    }
}
