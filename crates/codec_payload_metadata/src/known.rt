//! The metadata of a held packet, packed.

ghost use Rattle.std.specs.Prelude.{◌≡◌, IfOk, IsOk, IsTrue, Option, true};
ghost use Rattle.std.specs.Option.{option_map};
ghost use Rattle.codec_payload_metadata.specs.Rare.{are_plain, capture_of, header_with, layers_of, plain_meta, plain_of, sender_info_of, timing_of, values_with};

use crate::meta::RtpMeta;
use crate::packed_header::PackedHeader;
use codec_payload_base::wire::{
    AbsCaptureTime, ExtensionValues, MediaTime, Pt, RtpHeader, SenderInfo, SeqNo, Ticks,
    VideoLayersAllocation, VideoTiming,
};
use std::alloc::{AllocError, Global};
use std::marker::Model;
use std::mem::size_of;

/// The metadata of a packet in 72 bytes. Rare values (a capture time, a timing, a layers allocation, values of a sender report)
/// are in a separate memory block, which exists only if the packet has any of them.
#[derive(Debug, Drop)]
pub struct PackedMeta {
    received: Ticks,
    time: MediaTime,
    seq_no: SeqNo,
    rare: Option<Box<Rare>>,
    plain: PlainHeader,
}

/// Packed metadata have at most 72 bytes, without rare values.
const _: () = prove!(size_of::<PackedMeta>() <= 72);

/// Rare values. A layers allocation, which is larger than all other values together, has a separate memory block.
#[derive(Debug, Drop)]
pub(crate) struct Rare {
    pub(crate) abs_capture_time: Option<AbsCaptureTime>,
    pub(crate) video_timing: Option<VideoTiming>,
    layers_allocation: Option<Box<VideoLayersAllocation>>,
    last_sender_info: Option<SenderInfo>,
}

/// What a header says besides the rare values of its extensions.
#[derive(Clone, Copy, Debug)]
pub(crate) struct PlainHeader {
    pub(crate) timestamp: u32,
    pub(crate) ssrc: u32,
    pub(crate) sequence_number: u16,
    pub(crate) payload_type: Pt,
    pub(crate) marker: bool,
    pub(crate) video_orientation: Option<u8>,
    pub(crate) video_content_type: Option<u8>,
    pub(crate) audio_level: Option<i8>,
    pub(crate) voice_activity: Option<bool>,
}

impl PlainHeader {
    /// Returns the header without the rare values.
    #[inline(always)]
    pub(crate) fn of(header: &RtpHeader) -> Self
        ensures { result ≡ plain_of header.now }
    {
        let values = &header.ext_vals;
        PlainHeader {
            timestamp: header.timestamp,
            ssrc: header.ssrc,
            sequence_number: header.sequence_number,
            payload_type: header.payload_type,
            marker: header.marker,
            video_orientation: values.video_orientation,
            video_content_type: values.video_content_type,
            audio_level: values.audio_level,
            voice_activity: values.voice_activity,
        }
    }

    /// Returns the values of header extensions, if none is rare.
    #[inline(always)]
    fn values(&self) -> ExtensionValues
        ensures { result ≡ values_with self.now Option.None }
    {
        ExtensionValues {
            abs_capture_time: None,
            video_orientation: self.video_orientation,
            video_content_type: self.video_content_type,
            video_timing: None,
            layers_allocation: None,
            audio_level: self.audio_level,
            voice_activity: self.voice_activity,
        }
    }

    /// Returns the values of header extensions, with these rare ones.
    fn values_with(&self, rare: &Rare) -> ExtensionValues
        ensures { result ≡ values_with self.now (Option.Some rare.now) }
    {
        ExtensionValues {
            abs_capture_time: rare.abs_capture_time,
            video_timing: rare.video_timing,
            layers_allocation: rare.layers(),
            ..self.values()
        }
    }

    /// Returns the values of header extensions, with the rare ones if there are any.
    pub(crate) fn all_values(&self, rare: &Option<Box<Rare>>) -> ExtensionValues
        ensures { result ≡ values_with self.now (option_map (λ b. b.value) rare.now) }
    {
        match rare {
            Some(rare) => self.values_with(rare),
            None => self.values(),
        }
    }

    /// Returns the header with these values.
    #[inline(always)]
    pub(crate) fn with(&self, values: ExtensionValues) -> RtpHeader
        ensures { result ≡ header_with self.now values }
    {
        RtpHeader {
            payload_type: self.payload_type,
            sequence_number: self.sequence_number,
            timestamp: self.timestamp,
            ssrc: self.ssrc,
            marker: self.marker,
            ext_vals: values,
        }
    }
}

/// Returns whether none of the values is rare.
#[inline(always)]
pub fn are_plain(values: &ExtensionValues, sender_info: &Option<SenderInfo>) -> bool
    ensures { result ≡ are_plain values.now sender_info.now }
{
    values.abs_capture_time.is_none()
        && values.video_timing.is_none()
        && values.layers_allocation.is_none()
        && sender_info.is_none()
}

impl Rare {
    /// The rare ones of these values, if there are any.
    #[inline(always)]
    pub(crate) fn of(
        alloc: Global,
        values: &ExtensionValues,
        sender_info: &Option<SenderInfo>,
    ) -> Result<Option<Box<Rare>>, AllocError>
        ensures capture { IfOk result (λ rare. capture_of (option_map (λ b. b.value) rare) ≡ values.now.abs_capture_time) }
        ensures timing { IfOk result (λ rare. timing_of (option_map (λ b. b.value) rare) ≡ values.now.video_timing) }
        ensures layers { IfOk result (λ rare. layers_of (option_map (λ b. b.value) rare) ≡ values.now.layers_allocation) }
        ensures sender_info { IfOk result (λ rare. sender_info_of (option_map (λ b. b.value) rare) ≡ sender_info.now) }
        ensures plain { IsTrue (are_plain values.now sender_info.now) → IsOk result }
    {
        if are_plain(values, sender_info) {
            return Ok(None);
        }
        let layers_allocation = match values.layers_allocation {
            Some(layers) => Some(Box::new(alloc, layers)?),
            None => None,
        };
        let rare = Rare {
            abs_capture_time: values.abs_capture_time,
            video_timing: values.video_timing,
            layers_allocation,
            last_sender_info: *sender_info,
        };
        Ok(Some(Box::new(alloc, rare)?))
    }

    /// Returns the layers allocation, if there is one.
    pub(crate) fn layers(&self) -> Option<VideoLayersAllocation>
        ensures { result ≡ option_map (λ b. b.value) self.now.layers_allocation }
    {
        match &self.layers_allocation {
            Some(layers) => Some(**layers),
            None => None,
        }
    }
}

/// Removes the values of a sender report.
#[inline(always)]
fn without_sender_info(rare: Option<Box<Rare>>) -> Option<Box<Rare>>
    ensures capture { capture_of (option_map (λ b. b.value) result) ≡ capture_of (option_map (λ b. b.value) rare) }
    ensures timing { timing_of (option_map (λ b. b.value) result) ≡ timing_of (option_map (λ b. b.value) rare) }
    ensures layers { layers_of (option_map (λ b. b.value) result) ≡ layers_of (option_map (λ b. b.value) rare) }
    ensures sender_info { sender_info_of (option_map (λ b. b.value) result) ≡ Option.None }
{
    match rare {
        Some(mut rare) => {
            rare.last_sender_info = None;
            Some(rare)
        }
        None => None,
    }
}

impl Model for PackedMeta {
    ghost use Rattle.std.specs.Option.{option_map};
    ghost use Rattle.codec_payload_metadata.specs.declared.meta.RtpMeta.{RtpMeta as Meta};
    ghost use Rattle.codec_payload_metadata.specs.Rare.{header_with, sender_info_of, values_with};

    ghost Value = { Meta };

    ghost view = { λ k. record {
      received = k.received;
      time = k.time;
      seq_no = k.seq_no;
      header = header_with k.plain (values_with k.plain (option_map (λ b. b.value) k.rare));
      last_sender_info = sender_info_of (option_map (λ b. b.value) k.rare);
    } };
}

impl PackedMeta {
    /// Packs the metadata of a packet. Allocates only for rare values.
    #[inline(always)]
    pub fn of(alloc: Global, meta: &RtpMeta) -> Result<Self, AllocError>
        ensures ok { IfOk result (λ packed. packed ≡ meta.now) }
        ensures plain { IsTrue (are_plain meta.now.header.ext_vals meta.now.last_sender_info) → IsOk result }
    {
        let header = &meta.header;
        let rare = Rare::of(alloc, &header.ext_vals, &meta.last_sender_info)?;
        Ok(PackedMeta {
            received: meta.received,
            time: meta.time,
            seq_no: meta.seq_no,
            rare,
            plain: PlainHeader::of(header),
        })
    }

    /// Makes the metadata of a packet that arrived at `received`, without a sender report. Allocates nothing.
    #[inline(always)]
    pub fn new(received: Ticks, time: MediaTime, seq_no: SeqNo, header: PackedHeader) -> Self
        ensures { result ≡ record { received = received; time = time; seq_no = seq_no; header = header; last_sender_info = Option.None } }
    {
        PackedMeta {
            received,
            time,
            seq_no,
            rare: without_sender_info(header.rare),
            plain: header.plain,
        }
    }

    /// Returns the sequence number.
    #[inline(always)]
    pub fn number(&self) -> u64
        ensures { result ≡ self.now.seq_no.0 }
    {
        self.seq_no.0
    }

    /// Returns the sequence number, as users see it.
    #[inline(always)]
    pub fn seq_no(&self) -> SeqNo
        ensures { result ≡ self.now.seq_no }
    {
        self.seq_no
    }

    /// Returns the marker bit.
    #[inline(always)]
    pub fn marker(&self) -> bool
        ensures { result ≡ self.now.header.marker }
    {
        self.plain.marker
    }

    /// Returns the RTP time.
    #[inline(always)]
    pub fn time(&self) -> MediaTime
        ensures { result ≡ self.now.time }
    {
        self.time
    }

    /// Frees the memory of the rare values.
    #[inline(always)]
    pub fn drop_rare(&mut self) {
        self.rare = None;
    }

    /// Moves the metadata out of a packet that leaves the buffer. Rare values move without a copy. The packet keeps the others.
    #[inline(always)]
    pub fn take(&mut self) -> PackedMeta
        ensures taken { result ≡ self.old }
        ensures left { self.new ≡ plain_meta self.old }
    {
        PackedMeta {
            received: self.received,
            time: self.time,
            seq_no: self.seq_no,
            rare: self.rare.take(),
            plain: self.plain,
        }
    }

    /// Returns the time at which the packet arrived.
    #[inline(always)]
    pub fn received(&self) -> Ticks
        ensures { result ≡ self.now.received }
    {
        self.received
    }

    /// Returns whether the packet has no rare values.
    #[inline(always)]
    pub fn is_plain(&self) -> bool
        ensures { result ≡ true → plain_meta self.now ≡ self.now }
    {
        self.rare.is_none()
    }

    /// Returns the metadata without rare values.
    #[inline(always)]
    pub fn plain_meta(&self) -> RtpMeta
        ensures { result ≡ plain_meta self.now }
    {
        self.meta_with(self.plain.values(), None)
    }

    /// Returns the metadata of the packet, as users see it.
    pub fn meta(&self) -> RtpMeta
        ensures { result ≡ self.now }
    {
        match &self.rare {
            Some(rare) => self.meta_with(self.plain.values_with(rare), rare.last_sender_info),
            None => self.plain_meta(),
        }
    }

    /// Returns the values of its header extensions.
    pub fn values(&self) -> ExtensionValues
        ensures { result ≡ self.now.header.ext_vals }
    {
        self.plain.all_values(&self.rare)
    }

    /// Returns the values of the latest sender report before the packet.
    pub fn last_sender_info(&self) -> Option<SenderInfo>
        ensures { result ≡ self.now.last_sender_info }
    {
        match &self.rare {
            Some(rare) => rare.last_sender_info,
            None => None,
        }
    }

    /// Returns the metadata with these values and this sender report.
    #[inline(always)]
    fn meta_with(&self, values: ExtensionValues, last_sender_info: Option<SenderInfo>) -> RtpMeta
        ensures { result ≡ record self.now { header = record self.now.header { ext_vals = values }; last_sender_info = last_sender_info } }
    {
        RtpMeta {
            received: self.received,
            time: self.time,
            seq_no: self.seq_no,
            header: self.plain.with(values),
            last_sender_info,
        }
    }
}
