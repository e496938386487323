//! The header of a packet, packed.

ghost use Rattle.std.specs.Prelude.{◌≡◌, IfOk, Option};
ghost use Rattle.codec_payload_base.specs.Extensions.{no_values};
ghost use Rattle.codec_payload_metadata.specs.Rare.{small_values};

use crate::known::{PlainHeader, Rare};
use codec_payload_base::wire::{Pt, RtpHeader};
use std::alloc::{AllocError, Global};
use std::marker::Model;
use std::mem::size_of;

/// The header of a packet in 40 bytes; an [`RtpHeader`] has more than 300. Rare values of header extensions (a capture time, a
/// timing, a layers allocation) are in a separate memory block, which exists only if the packet has any of them.
#[derive(Debug, Drop)]
pub struct PackedHeader {
    pub(crate) rare: Option<Box<Rare>>,
    pub(crate) plain: PlainHeader,
}

/// A packed header has at most 40 bytes, without rare values.
const _: () = prove!(size_of::<PackedHeader>() <= 40);

impl Model for PackedHeader {
    ghost use Rattle.std.specs.Option.{option_map};
    ghost use Rattle.codec_payload_base.specs.declared.wire.RtpHeader.{RtpHeader as Header};
    ghost use Rattle.codec_payload_metadata.specs.Rare.{header_with, values_with};

    ghost Value = { Header };

    ghost view = { λ h. header_with h.plain (values_with h.plain (option_map (λ b. b.value) h.rare)) };
}

impl PackedHeader {
    /// Packs a header. Allocates only for rare values.
    #[inline(always)]
    pub fn new(alloc: Global, header: &RtpHeader) -> Result<Self, AllocError>
        ensures { IfOk result (λ packed. packed ≡ header.now) }
    {
        let rare = Rare::of(alloc, &header.ext_vals, &None)?;
        Ok(PackedHeader {
            rare,
            plain: PlainHeader::of(header),
        })
    }

    /// Makes the header of a packet without header extensions. Allocates nothing.
    #[inline(always)]
    pub fn plain(
        payload_type: Pt,
        sequence_number: u16,
        timestamp: u32,
        ssrc: u32,
        marker: bool,
    ) -> Self
        ensures { result ≡ record { payload_type = payload_type; sequence_number = sequence_number; timestamp = timestamp; ssrc = ssrc; marker = marker; ext_vals = no_values } }
    {
        PackedHeader {
            rare: None,
            plain: PlainHeader {
                timestamp,
                ssrc,
                sequence_number,
                payload_type,
                marker,
                video_orientation: None,
                video_content_type: None,
                audio_level: None,
                voice_activity: None,
            },
        }
    }

    /// Replaces the values of header extensions by these small ones. Allocates nothing.
    #[inline(always)]
    pub fn with_small_values(
        self,
        video_orientation: Option<u8>,
        video_content_type: Option<u8>,
        audio_level: Option<i8>,
        voice_activity: Option<bool>,
    ) -> Self
        ensures { result ≡ record self { ext_vals = small_values video_orientation video_content_type audio_level voice_activity } }
    {
        PackedHeader {
            rare: None,
            plain: PlainHeader {
                video_orientation,
                video_content_type,
                audio_level,
                voice_activity,
                ..self.plain
            },
        }
    }

    /// Returns the sequence number.
    #[inline(always)]
    pub fn sequence_number(&self) -> u16
        ensures { result ≡ self.now.sequence_number }
    {
        self.plain.sequence_number
    }

    /// Returns the RTP time.
    #[inline(always)]
    pub fn timestamp(&self) -> u32
        ensures { result ≡ self.now.timestamp }
    {
        self.plain.timestamp
    }

    /// Returns the header as an [`RtpHeader`].
    pub fn header(&self) -> RtpHeader
        ensures { result ≡ self.now }
    {
        self.plain.with(self.plain.all_values(&self.rare))
    }
}
