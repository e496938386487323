//! Units with the metadata of their packets.

ghost use Rattle.std.specs.Prelude.{◌≡◌, ◌<◌, length, false};
ghost use Rattle.std.specs.Range.{range_inclusive_start, range_inclusive_end, range_inclusive_exhausted};
ghost use Rattle.codec_payload_metadata.specs.Release.{AreValues, IsFirst, IsLast, IsReceivedFirst};
ghost use Rattle.codec_payload_metadata.specs.declared.meta.RtpMeta.{RtpMeta as Meta};

use codec_payload_base::interface::CodecExtra;
use codec_payload_base::wire::{ExtensionValues, MediaTime, SenderInfo, SeqNo, Ticks};
use codec_payload_metadata::meta::RtpMeta;
use std::marker::Model;
use std::ops::RangeInclusive;

/// A unit whose bytes and metadata are in the caller's memory.
#[derive(Clone, Copy, Debug, PartialEq, Eq)]
pub struct UnitInfo {
    /// The RTP time, which all of its packets have.
    pub time: MediaTime,
    /// Whether it directly follows the unit released before it; see [`Depacketized`].
    pub contiguous: bool,
    /// The codec-specific data of its payloads.
    pub codec_extra: CodecExtra,
}

/// A unit that was reassembled from the payloads of one or more packets.
#[derive(Debug, Drop)]
pub struct Depacketized {
    /// The RTP time, which all of its packets have.
    pub time: MediaTime,
    /// Whether it directly follows the unit released before it: by its sequence numbers, or by picture ids if both units of VP8
    /// or VP9 have them. The first unit is contiguous, unless sequence numbers decide and a packet was evicted before.
    pub contiguous: bool,
    /// The bytes of the unit.
    pub bytes: Vec<u8>,
    /// The codec-specific data of its payloads.
    pub codec_extra: CodecExtra,
    metas: Vec<RtpMeta>,
}

impl Model for Depacketized {
    ghost use Rattle.std.specs.Prelude.{◌<◌, length};
    ghost use Rattle.codec_payload_metadata.specs.Release.{Release};

    ghost Value = { Release };

    ghost view = { λ u. record {
      time = u.time;
      contiguous = u.contiguous;
      bytes = u.bytes.items;
      codec_extra = u.codec_extra;
      metas = u.metas.items;
    } };

    ghost invariant = { λ u. 0 < length u.metas.items };
}

impl Depacketized {
    pub(super) fn new(
        time: MediaTime,
        contiguous: bool,
        bytes: Vec<u8>,
        codec_extra: CodecExtra,
        metas: Vec<RtpMeta>,
    ) -> Self
        requires { 0 < length metas.items }
        ensures { result ≡ record {
          time = time;
          contiguous = contiguous;
          bytes = bytes.items;
          codec_extra = codec_extra;
          metas = metas.items;
        } }
    {
        Depacketized {
            time,
            contiguous,
            bytes,
            codec_extra,
            metas,
        }
    }

    /// Returns the metadata of its packets, in order of their sequence numbers. There is at least one packet.
    pub fn meta(&self) -> &[RtpMeta]
        ensures value { result.now ≡ self.now.metas }
        ensures some { 0 < length result.now }
    {
        self.metas.as_slice()
    }

    /// Returns the time at which the first of its packets arrived. The cost grows with the number of packets.
    pub fn first_network_time(&self) -> Ticks
        ensures { (m : Meta) × IsReceivedFirst self.now.metas m × (result ≡ m.received) }
    {
        received_first(self.meta()).received
    }

    /// Returns the sender report of the packet that arrived first; of several that arrived at that time, the packet with the
    /// lowest sequence number. The cost grows with the number of packets.
    pub fn first_sender_info(&self) -> Option<SenderInfo>
        ensures { (m : Meta) × IsReceivedFirst self.now.metas m × (result ≡ m.last_sender_info) }
    {
        received_first(self.meta()).last_sender_info
    }

    /// Returns the sequence numbers of its first and last packet.
    pub fn seq_range(&self) -> RangeInclusive<SeqNo>
        ensures start { (m : Meta) × IsFirst self.now.metas m × (range_inclusive_start result ≡ m.seq_no) }
        ensures end { (m : Meta) × IsLast self.now.metas m × (range_inclusive_end result ≡ m.seq_no) }
        ensures whole { range_inclusive_exhausted result ≡ false }
    {
        let metas = self.meta();
        metas[0].seq_no..=metas[metas.len() - 1].seq_no
    }

    /// Returns whether its first packet has the marker of the RTP header, which audio sets at the start of a talk spurt (RFC
    /// 3551, section 4.1).
    pub fn start_of_talkspurt(&self) -> bool
        ensures { (m : Meta) × IsFirst self.now.metas m × (result ≡ m.header.marker) }
    {
        self.meta()[0].header.marker
    }

    /// Returns the values of its header extensions: the values of the last packet, with the capture time and the layers
    /// allocation of the first packet, if that has them.
    pub fn ext_vals(&self) -> ExtensionValues
        ensures { AreValues self.now.metas result }
    {
        let metas = self.meta();
        let first = metas[0].header.ext_vals;
        let last = metas[metas.len() - 1].header.ext_vals;
        ExtensionValues {
            abs_capture_time: first.abs_capture_time.or(last.abs_capture_time),
            layers_allocation: first.layers_allocation.or(last.layers_allocation),
            ..last
        }
    }
}

/// Returns the first of the packets with the earliest time of arrival.
fn received_first(metas: &[RtpMeta]) -> &RtpMeta
    requires { 0 < length metas.now }
    ensures { IsReceivedFirst metas.now result.now }
{
    let mut first = 0;
    for (i, meta) in metas.iter().enumerate() {
        if meta.received.0 < metas[first].received.0 {
            first = i;
        }
    }
    &metas[first]
}
