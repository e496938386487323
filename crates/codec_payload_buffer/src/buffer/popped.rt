//! A popped unit in memory that the next pop uses again.

ghost use Rattle.std.specs.Prelude.{◌≡◌, ◌<◌, ◌⊎◌, [], length, false, slice_get, Option};
ghost use Rattle.std.specs.Range.{range_inclusive_start, range_inclusive_end, range_inclusive_exhausted};
ghost use Rattle.codec_payload_metadata.specs.Release.{AreValues, IsFirst, IsLast, IsReceivedFirst, released_none};
ghost use Rattle.codec_payload_metadata.specs.declared.meta.RtpMeta.{RtpMeta as Meta};

use super::popped_packets::{PoppedPackets, values_among};
use codec_payload_base::interface::CodecExtra;
use codec_payload_base::wire::{ExtensionValues, MediaTime, SenderInfo, SeqNo, Ticks};
use codec_payload_metadata::known::PackedMeta;
use codec_payload_metadata::meta::RtpMeta;
use std::alloc::Global;
use std::marker::Model;
use std::mem;
use std::ops::RangeInclusive;

/// A unit that a pop wrote, in memory that the next pop uses again.
///
/// Its packets keep the form in which the buffer held them, about 70 bytes each, so a pop makes no [`RtpMeta`]. A new unit has no
/// packets. After a pop that returned a unit it has at least one.
#[derive(Debug, Drop)]
pub struct PoppedUnit {
    /// The RTP time, which all of its packets have.
    pub time: MediaTime,
    /// Whether it directly follows the unit released before it; see [`super::unit::Depacketized`].
    pub contiguous: bool,
    /// The bytes of the unit.
    pub bytes: Vec<u8>,
    /// The codec-specific data of its payloads.
    pub codec_extra: CodecExtra,
    pub(super) metas: Vec<PackedMeta>,
}

impl Model for PoppedUnit {
    ghost use Rattle.codec_payload_metadata.specs.Release.{Release};

    ghost Value = { Release };

    ghost view = { λ u. record {
      time = u.time;
      contiguous = u.contiguous;
      bytes = u.bytes.items;
      codec_extra = u.codec_extra;
      metas = u.metas.items;
    } };
}

impl PoppedUnit {
    /// Returns a unit without packets and bytes, for the first pop. Its time is 0, and it is not contiguous. Allocates nothing.
    pub fn new(alloc: Global) -> Self
        ensures { result ≡ released_none }
    {
        PoppedUnit {
            time: MediaTime::from_90khz(0),
            contiguous: false,
            bytes: Vec::new(alloc),
            codec_extra: CodecExtra::None,
            metas: Vec::new(alloc),
        }
    }

    /// Returns the number of its packets.
    #[inline(always)]
    pub fn packets(&self) -> usize
        ensures { result ≡ length self.now.metas }
    {
        self.metas.len()
    }

    /// Returns the metadata of the packet at this place, in order of the sequence numbers.
    pub fn meta(&self, place: usize) -> RtpMeta
        requires { place < length self.now.metas }
        ensures { slice_get self.now.metas place ≡ Option.Some result }
    {
        self.metas[place].meta()
    }

    /// Returns the sequence numbers of its first and last packet.
    #[inline(always)]
    pub fn seq_range(&self) -> RangeInclusive<SeqNo>
        requires { 0 < length self.now.metas }
        ensures start { (m : Meta) × IsFirst self.now.metas m × (range_inclusive_start result ≡ m.seq_no) }
        ensures end { (m : Meta) × IsLast self.now.metas m × (range_inclusive_end result ≡ m.seq_no) }
        ensures whole { range_inclusive_exhausted result ≡ false }
    {
        let metas = self.metas.as_slice();
        metas[0].seq_no()..=metas[metas.len() - 1].seq_no()
    }

    /// Returns the time at which the first of its packets arrived. The cost grows with the number of packets.
    #[inline(always)]
    pub fn first_network_time(&self) -> Ticks
        requires { 0 < length self.now.metas }
        ensures { (m : Meta) × IsReceivedFirst self.now.metas m × (result ≡ m.received) }
    {
        received_first(&self.metas).received()
    }

    /// Returns the sender report of the packet that arrived first; of several that arrived at that time, the packet with the
    /// lowest sequence number. The cost grows with the number of packets.
    pub fn first_sender_info(&self) -> Option<SenderInfo>
        requires { 0 < length self.now.metas }
        ensures { (m : Meta) × IsReceivedFirst self.now.metas m × (result ≡ m.last_sender_info) }
    {
        received_first(&self.metas).last_sender_info()
    }

    /// Returns whether its first packet has the marker of the RTP header, which audio sets at the start of a talk spurt (RFC
    /// 3551, section 4.1).
    #[inline(always)]
    pub fn start_of_talkspurt(&self) -> bool
        requires { 0 < length self.now.metas }
        ensures { (m : Meta) × IsFirst self.now.metas m × (result ≡ m.header.marker) }
    {
        self.metas[0].marker()
    }

    /// Returns the values of its header extensions: the values of the last packet, with the capture time and the layers
    /// allocation of the first packet, if that has them.
    pub fn ext_vals(&self) -> ExtensionValues
        requires { 0 < length self.now.metas }
        ensures { AreValues self.now.metas result }
    {
        values_among(&self.metas)
    }

    /// Moves the unit to `to`, and keeps the memory that `to` had. What this unit has afterwards is unspecified.
    #[inline(always)]
    pub fn move_to(&mut self, to: &mut PoppedUnit)
        ensures { to.new ≡ self.old }
    {
        to.time = self.time;
        to.contiguous = self.contiguous;
        to.codec_extra = self.codec_extra;
        mem::swap(&mut self.bytes, &mut to.bytes);
        mem::swap(&mut self.metas, &mut to.metas);
    }

    /// Moves the metadata of its packets to `to`, and keeps the memory that `to` had. Which packets this unit has afterwards is
    /// unspecified; the rest is unchanged.
    #[inline(always)]
    pub fn move_packets(&mut self, to: &mut PoppedPackets)
        ensures moved { to.new ≡ self.old.metas }
        ensures rest { self.new ≡ record self.old { metas = self.new.metas } }
    {
        mem::swap(&mut self.metas, &mut to.metas);
    }

    /// Frees memory with room for more than this number of bytes, and memory with room for more than this number of packets. A
    /// unit whose memory is freed loses its bytes or its packets; the rest is unchanged.
    #[inline(always)]
    pub fn free_above(&mut self, alloc: Global, bytes: usize, packets: usize)
        ensures bytes { (self.new.bytes ≡ self.old.bytes) ⊎ (self.new.bytes ≡ []) }
        ensures packets { (self.new.metas ≡ self.old.metas) ⊎ (self.new.metas ≡ []) }
        ensures rest { self.new ≡ record self.old { bytes = self.new.bytes; metas = self.new.metas } }
    {
        if self.bytes.capacity() > bytes {
            self.bytes = Vec::new(alloc);
        }
        if self.metas.capacity() > packets {
            self.metas = Vec::new(alloc);
        }
    }
}

/// Returns the first of the packets with the earliest time of arrival.
#[inline(always)]
fn received_first(metas: &[PackedMeta]) -> &PackedMeta
    requires { 0 < length metas.now }
    ensures { IsReceivedFirst metas.now result.now }
{
    let mut first = 0;
    for (i, meta) in metas.iter().enumerate() {
        if meta.received().0 < metas[first].received().0 {
            first = i;
        }
    }
    &metas[first]
}
