//! What a forwarder wrote for a viewer, and what it did not.

ghost use Rattle.std.specs.Prelude.{◌≡◌};
ghost use Rattle.codec_payload_sending_forward.specs.Counting.{after_answer, after_resent, no_counts, one_packet};

use crate::forwarder::Forwarded;

/// Counts of a viewer's stream, each modulo 2^64.
///
/// Pass each answer of [`Forwarder::write`](crate::forwarder::Forwarder::write) and
/// [`Forwarder::leave_out`](crate::forwarder::Forwarder::leave_out) to [`ForwardCounts::count`], and each packet that was written again
/// to [`ForwardCounts::count_resent`]. `packets` and `octets` are those of the sender report of the viewer's stream (RFC 3550, section
/// 6.4.1).
#[derive(Clone, Copy, Debug, PartialEq, Eq)]
pub struct ForwardCounts {
    /// Packets under the viewer's SSRC: [`Forwarded::Began`], [`Forwarded::Written`], [`Forwarded::Filled`] and those that were resent
    /// under it.
    pub packets: u64,
    /// The bytes of payload in these packets, without padding.
    pub octets: u64,
    /// Sources that began: [`Forwarded::Began`].
    pub switches: u64,
    /// Packets of padding: [`Forwarded::Filled`].
    pub filled: u64,
    /// [`Forwarded::LeftOut`].
    pub left_out: u64,
    /// [`Forwarded::NoKeyframe`], [`Forwarded::OtherSource`] and [`Forwarded::TooOld`].
    pub refused: u64,
    /// Packets that were resent, under the viewer's SSRC or under that of its retransmissions.
    pub resent: u64,
}

impl Default for ForwardCounts {
    /// Nothing was counted.
    fn default() -> ForwardCounts
        ensures { result ≡ no_counts }
    {
        ForwardCounts {
            packets: 0,
            octets: 0,
            switches: 0,
            filled: 0,
            left_out: 0,
            refused: 0,
            resent: 0,
        }
    }
}

impl ForwardCounts {
    /// Counts an answer for a packet whose payload has `octets` bytes.
    pub fn count(&mut self, answer: Forwarded, octets: usize)
        ensures { self.new ≡ after_answer answer octets self.old }
    {
        match answer {
            Forwarded::Began => {
                self.switches = self.switches.wrapping_add(1);
                self.count_packet(octets);
            }
            Forwarded::Written => self.count_packet(octets),
            Forwarded::Filled => {
                self.filled = self.filled.wrapping_add(1);
                self.count_packet(0);
            }
            Forwarded::LeftOut => self.left_out = self.left_out.wrapping_add(1),
            Forwarded::NoKeyframe | Forwarded::OtherSource | Forwarded::TooOld => {
                self.refused = self.refused.wrapping_add(1);
            }
        }
    }

    /// Counts a packet that was resent, whose payload has `octets` bytes. `wrapped`: under the SSRC of the retransmissions.
    pub fn count_resent(&mut self, wrapped: bool, octets: usize)
        ensures { self.new ≡ after_resent wrapped octets self.old }
    {
        self.resent = self.resent.wrapping_add(1);
        if !wrapped {
            self.count_packet(octets);
        }
    }

    /// Counts a packet under the viewer's SSRC.
    fn count_packet(&mut self, octets: usize)
        ensures { self.new ≡ one_packet octets self.old }
    {
        self.packets = self.packets.wrapping_add(1);
        self.octets = self.octets.wrapping_add(octets as u64);
    }
}
