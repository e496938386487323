//! The answers for the numbers of packets: their extended numbers, or why they have none.

ghost use Rattle.std.specs.Prelude.{◌≡◌, ◌≤◌, IfSome, Option};
ghost use Rattle.codec_payload_numbers.specs.Numbers.{number_in};
ghost use Rattle.codec_payload_jitter.specs.Receiving.{answer_in, answer_to, follows_kept, is_contradicted, is_of_former_sender, number_again, number_again_for};

use super::JitterBuffer;
use codec_payload_buffer::buffer::PackedHeader;
use codec_payload_codec::codec::Depacketizer;
use codec_payload_numbers::noted_times::{NotedTime, is_soon_after, is_untimely};
use codec_payload_numbers::numbers::{Extended, number_within, without_restart};

impl<B: Depacketizer> JitterBuffer<B> {
    /// Returns the extended number, or the answer without one, for the next packet with the low bits `low`.
    #[inline(always)]
    pub(super) fn answer_to(&self, low: u16) -> Extended
        ensures value { result ≡ answer_in self.now low }
        ensures far { IfSome (number_in result) (λ x. self.now.numbering.greatest ≡ None → 65536 ≤ x) }
    {
        if self.is_restarting {
            return self.numbers.answer_anew(low);
        }
        let answer = self.numbers.answer_for(low);
        if self.ended {
            without_restart(answer)
        } else {
            answer
        }
    }

    /// Returns the same for a packet with media: if its number arrived before with another RTP time, or if it is below the first
    /// one with an RTP time that does not fit, the packet is suspect, or it confirms that the sender has restarted.
    #[inline(always)]
    pub(super) fn answer_to_packet(&self, header: &PackedHeader) -> Extended
        ensures value { result ≡ answer_to self.now header.now }
        ensures far { IfSome (number_in result) (λ x. self.now.numbering.greatest ≡ None → 65536 ≤ x) }
    {
        if self.is_of_former_sender(header.sequence_number(), header.timestamp()) {
            return Extended::Spent;
        }
        let answer = self.answer_to(header.sequence_number());
        let Extended::Number(number) = answer else {
            return answer;
        };
        if !self.is_contradicted(number, header.timestamp()) {
            return answer;
        }
        if self.follows_kept(header) {
            self.numbers.answer_anew(header.sequence_number())
        } else {
            Extended::Suspect
        }
    }

    /// Returns whether the number arrived before with another RTP time, or is below the first one with an RTP time that is not
    /// from 5 seconds before the first one's up to that time. Always false while no restart is detected.
    #[inline(always)]
    fn is_contradicted(&self, number: u64, time: u32) -> bool
        ensures { result ≡ is_contradicted self.now number time }
    {
        let packet = NotedTime { number, time };
        !(self.ended || self.is_restarting)
            && (self.noted_times.contradicts(packet)
                || is_untimely(self.clock_rate, self.first, packet))
    }

    /// Returns whether the packet comes soon after the suspect packet.
    fn follows_kept(&self, header: &PackedHeader) -> bool
        ensures { result ≡ follows_kept self.now.rate self.now.kept header.now }
    {
        match &self.kept {
            Some(kept) => is_soon_after(self.clock_rate, &kept.header, header),
            None => false,
        }
    }

    /// Returns the number of a retransmitted packet, if it is within the windows.
    pub(super) fn number_again(&self, low: u16) -> Option<u64>
        ensures value { result ≡ number_again self.now low }
        ensures far { IfSome result (λ x. self.now.numbering.greatest ≡ None → 65536 ≤ x) }
    {
        if self.is_restarting {
            return None;
        }
        number_within(self.numbers.answer_for(low))
    }

    /// Returns the same for a packet with this RTP time. A packet of the former sender has none.
    pub(super) fn number_again_for(&self, low: u16, time: u32) -> Option<u64>
        ensures value { result ≡ number_again_for self.now low time }
        ensures far { IfSome result (λ x. self.now.numbering.greatest ≡ None → 65536 ≤ x) }
    {
        if self.is_of_former_sender(low, time) {
            return None;
        }
        self.number_again(low)
    }

    /// Returns whether a packet with this number and this RTP time is of the sender before the latest restart that was found.
    #[inline(always)]
    fn is_of_former_sender(&self, low: u16, time: u32) -> bool
        ensures { result ≡ is_of_former_sender self.now low time }
    {
        self.noted_times.has_former() && self.goes_with_former(low, time)
    }

    /// Does the same, out of the way of packets of senders that did not restart.
    #[cold]
    #[inline(never)]
    fn goes_with_former(&self, low: u16, time: u32) -> bool
        ensures { result ≡ is_of_former_sender self.now low time }
    {
        self.noted_times
            .is_of_former(self.clock_rate, self.first, low, time)
    }
}
