//! Packets that are rebuilt.

ghost use Rattle.std.specs.Prelude.{◌≡◌, ◌<◌, IfOk, option_to_list};
ghost use Rattle.std.specs.Option.{option_map};
ghost use Rattle.codec_payload_fec.specs.Fec.{if_set, is_set, number_at, numbers};
ghost use Rattle.codec_payload_fec.specs.FecReading.{fec_of};
ghost use Rattle.codec_payload_fec.specs.Rebuilding.{are_none, found_in, found_of, missing_of, only, rebuilt, sum_in, to_list};
ghost use Rattle.codec_payload_fec.specs.Sums.{sum_of};

use crate::packet::FecPacket;
use crate::store::PacketStore;
use crate::strings::Sum;
use std::alloc::{AllocError, Global};

/// How many numbers a mask has room for.
const PLACES: u16 = 48;

/// Returns whether a bit of a mask of 48 bits is set, counted from the highest bit.
#[tactic(auto, unfolding(crate::specs::Fec::is_set))]
pub(crate) fn is_set(place: u16, mask: u64) -> bool
    requires { place < 48 }
    ensures { result ≡ is_set place mask }
{
    mask >> (47 - place) & 1 == 1
}

/// Returns the number that a place stands for.
pub(crate) fn number_at(place: u16, base: u16) -> u16
    ensures { result ≡ number_at place base }
{
    base.wrapping_add(place)
}

impl FecPacket<'_> {
    /// Returns the number that a place stands for, if it is protected and no packet with it is kept.
    fn missing_at(&self, place: u16, mask: u64, store: &PacketStore) -> Option<u16>
        requires { place < 48 }
        ensures { option_to_list result ≡ missing_of (found_in store.now.slots) (if_set (is_set place mask) (number_at place self.now.base)) }
    {
        if !is_set(place, mask) {
            return None;
        }
        let number = number_at(place, self.base);
        match store.find(number) {
            Some(_) => None,
            None => Some(number),
        }
    }

    /// Returns the packet whose number a place stands for, if it is protected and kept.
    fn found_at<'b>(&self, place: u16, mask: u64, store: &'b PacketStore) -> Option<&'b [u8]>
        requires { place < 48 }
        ensures { to_list (option_map (λ p. p.now) result) ≡ found_of (found_in store.now.slots) (if_set (is_set place mask) (number_at place self.now.base)) }
    {
        if !is_set(place, mask) {
            return None;
        }
        store.find(number_at(place, self.base))
    }

    /// Returns the only protected number under which no packet is kept. `None`: there is no such number, or there are several.
    pub fn only_missing(&self, store: &PacketStore) -> Option<u16>
        ensures { result ≡ only (missing_of (found_in store.now.slots) (numbers (fec_of self.now))) }
    {
        let mask = self.mask_bits();
        let mut missing = None;
        for place in 0..PLACES {
            if let Some(number) = self.missing_at(place, mask, store) {
                if missing.is_some() {
                    return None;
                }
                missing = Some(number);
            }
        }
        missing
    }

    /// Returns whether no protected packet is missing.
    pub fn is_complete(&self, store: &PacketStore) -> bool
        ensures { result ≡ are_none (missing_of (found_in store.now.slots) (numbers (fec_of self.now))) }
    {
        let mask = self.mask_bits();
        for place in 0..PLACES {
            if let Some(_missing) = self.missing_at(place, mask, store) {
                return false;
            }
        }
        true
    }

    /// Returns the exclusive or of this packet's fields and of the bit strings of the packets that came.
    fn sum_with(&self, alloc: Global, store: &PacketStore) -> Result<Sum, AllocError>
        ensures { IfOk result (λ s. sum_of s ≡ sum_in (fec_of self.now) (found_in store.now.slots)) }
    {
        let mask = self.mask_bits();
        let mut sum = Sum::of(alloc, self)?;
        for place in 0..PLACES {
            if let Some(packet) = self.found_at(place, mask, store) {
                sum.add(packet);
            }
        }
        Ok(sum)
    }

    /// Returns the only missing one of the packets that this packet of FEC protects: a whole RTP packet of the stream with this SSRC, with
    /// its header. `None`: no protected packet is missing, or several are; the length is larger than what is protected; or the result is
    /// not an RTP packet.
    ///
    /// For FEC of this crate's writer and packets that were sent, it is a packet that was sent, byte for byte. For any
    /// bytes it does at most 96 look-ups and 48 additions of at most 65,535 bytes.
    ///
    /// # Errors
    ///
    /// Out of memory.
    pub fn rebuild(
        &self,
        alloc: Global,
        ssrc: u32,
        store: &PacketStore,
    ) -> Result<Option<Vec<u8>>, AllocError>
        ensures { IfOk result (λ p. option_map (λ v. v.items) p ≡ rebuilt ssrc (fec_of self.now) (found_in store.now.slots)) }
    {
        match self.only_missing(store) {
            None => Ok(None),
            Some(number) => self.sum_with(alloc, store)?.packet(alloc, number, ssrc),
        }
    }
}
