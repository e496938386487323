//! A depacketizer of any supported codec.

ghost use Rattle.std.specs.Prelude.{◌≡◌, option_map, true};
ghost use Rattle.codec_payload_codec.specs.Depacketizers.{depacketizer_state_of, depacketizer_state_for, configured_depacketizer, kind_of_depacketizer, is_built_in_depacketizer, DepacketizerStep, DepacketizerStepTo, numbers_of_depacketizer, head_of, tail_of, hint_of};

use super::boxed::NoBox;
use codec_payload_audio::amr_wb::AmrWbDepacketizer;
use codec_payload_audio::plain::{
    ComfortNoiseDepacketizer, G711Depacketizer, NullDepacketizer, OpusDepacketizer,
};
use codec_payload_audio::tele::TelephoneEventDepacketizer;
use codec_payload_av1::av1::Av1Depacketizer;
use codec_payload_base::error::PacketError;
use codec_payload_base::interface::{CodecExtra, Depacketizer};
use codec_payload_base::wire::{Codec, CodecSpec};
use codec_payload_vp8::vp8::Vp8Depacketizer;
use codec_payload_vp9::vp9::Vp9Depacketizer;
use std::alloc::Global;
use std::fmt;

/// A depacketizer of a built-in codec, or a custom one of type `B`: the default [`NoBox`] means no custom codec;
/// [`BoxedDepacketizer`] means one in a box.
#[derive(Drop)]
pub enum CodecDepacketizer<B = NoBox> {
    G711(G711Depacketizer),
    Opus(OpusDepacketizer),
    ComfortNoise(ComfortNoiseDepacketizer),
    Tele(TelephoneEventDepacketizer),
    Vp8(Vp8Depacketizer),
    Vp9(Vp9Depacketizer),
    Av1(Av1Depacketizer),
    AmrWb(AmrWbDepacketizer),
    Null(NullDepacketizer),
    /// A custom depacketizer. The library relies on none of its results.
    Boxed(B),
}

/// Prints the name of the codec. The contents of a box are not printed.
impl<B> fmt::Debug for CodecDepacketizer<B> {
    fn fmt<W: fmt::Write>(&self, f: &mut fmt::Formatter<W>) -> fmt::Result {
        match self {
            CodecDepacketizer::G711(d) => write!(f, "G711({d:?})"),
            CodecDepacketizer::Opus(d) => write!(f, "Opus({d:?})"),
            CodecDepacketizer::ComfortNoise(d) => write!(f, "ComfortNoise({d:?})"),
            CodecDepacketizer::Tele(d) => write!(f, "Tele({d:?})"),
            CodecDepacketizer::Vp8(d) => write!(f, "Vp8({d:?})"),
            CodecDepacketizer::Vp9(d) => write!(f, "Vp9({d:?})"),
            CodecDepacketizer::Av1(d) => write!(f, "Av1({d:?})"),
            CodecDepacketizer::AmrWb(d) => write!(f, "AmrWb({d:?})"),
            CodecDepacketizer::Null(d) => write!(f, "Null({d:?})"),
            CodecDepacketizer::Boxed(_) => write!(f, "Boxed"),
        }
    }
}

impl CodecDepacketizer {
    /// The depacketizer of a codec; `None` if the codec is unsupported. G.722 uses the depacketizer of G.711.
    pub fn from_codec(alloc: Global, codec: Codec) -> Option<Self>
        ensures { option_map depacketizer_state_of result ≡ depacketizer_state_for codec }
    {
        match codec {
            Codec::PCMU | Codec::PCMA | Codec::G722 => {
                Some(CodecDepacketizer::G711(G711Depacketizer {}))
            }
            Codec::Opus => Some(CodecDepacketizer::Opus(OpusDepacketizer {})),
            Codec::CN => Some(CodecDepacketizer::ComfortNoise(ComfortNoiseDepacketizer {})),
            Codec::Tele => Some(CodecDepacketizer::Tele(TelephoneEventDepacketizer::default())),
            Codec::Vp8 => Some(CodecDepacketizer::Vp8(Vp8Depacketizer::default())),
            Codec::Vp9 => Some(CodecDepacketizer::Vp9(Vp9Depacketizer::new(alloc))),
            Codec::Av1 => Some(CodecDepacketizer::Av1(Av1Depacketizer::new(alloc))),
            Codec::AmrWb => Some(CodecDepacketizer::AmrWb(AmrWbDepacketizer::default())),
            Codec::Null => Some(CodecDepacketizer::Null(NullDepacketizer {})),
            _ => None,
        }
    }
}

impl<B> CodecDepacketizer<B> {
    /// Takes over what a specification says of payloads: the layout of AMR-WB, and the clock of telephone events. Other
    /// codecs stay as they are.
    pub fn configure_for(&mut self, spec: &CodecSpec)
        ensures { depacketizer_state_of self.new ≡ configured_depacketizer spec.now.octet_align spec.now.clock_rate (depacketizer_state_of self.old) }
    {
        match self {
            CodecDepacketizer::AmrWb(d) => d.octet_align = spec.octet_align,
            CodecDepacketizer::Tele(d) => *d = TelephoneEventDepacketizer::new(spec.clock_rate),
            _ => {}
        }
    }
}

/// Each call is forwarded to the selected depacketizer.
impl<B: Depacketizer> Depacketizer for CodecDepacketizer<B> {
    ghost use Rattle.codec_payload_codec.specs.declared.codec.depacketizer.CodecDepacketizer.TheVariants.{Boxed as BoxedIn};

    ghost state = { elim [ BoxedIn b ↦ B.state b | d ↦ numbers_of_depacketizer (depacketizer_state_of d) ] };

    ghost depacketize_step = { elim [ BoxedIn b ↦ B.depacketize_step b | d ↦ DepacketizerStepTo (depacketizer_state_of d) ] };

    ghost size_hint = { elim [ BoxedIn b ↦ B.size_hint b | d ↦ hint_of (depacketizer_state_of d) ] };

    ghost is_head = { elim [ BoxedIn b ↦ B.is_head b | d ↦ head_of (depacketizer_state_of d) ] };

    ghost is_tail = { elim [ BoxedIn b ↦ B.is_tail b | d ↦ tail_of (depacketizer_state_of d) ] };

    fn out_size_hint(&self, packets_size: usize) -> Option<usize>
        ensures step { result ≡ ⟦<CodecDepacketizer<B> as Depacketizer>⟧.size_hint self.now packets_size }
        ensures built_in { is_built_in_depacketizer (depacketizer_state_of self.now) ≡ true → result ≡ hint_of (depacketizer_state_of self.now) packets_size }
    {
        match self {
            CodecDepacketizer::G711(d) => d.out_size_hint(packets_size),
            CodecDepacketizer::Opus(d) => d.out_size_hint(packets_size),
            CodecDepacketizer::ComfortNoise(d) => d.out_size_hint(packets_size),
            CodecDepacketizer::Tele(d) => d.out_size_hint(packets_size),
            CodecDepacketizer::Vp8(d) => d.out_size_hint(packets_size),
            CodecDepacketizer::Vp9(d) => d.out_size_hint(packets_size),
            CodecDepacketizer::Av1(d) => d.out_size_hint(packets_size),
            CodecDepacketizer::AmrWb(d) => d.out_size_hint(packets_size),
            CodecDepacketizer::Null(d) => d.out_size_hint(packets_size),
            CodecDepacketizer::Boxed(d) => d.out_size_hint(packets_size),
        }
    }

    fn depacketize(
        &mut self,
        packet: &[u8],
        out: &mut Vec<u8>,
        codec_extra: &mut CodecExtra,
    ) -> Result<(), PacketError>
        ensures step { ⟦<CodecDepacketizer<B> as Depacketizer>⟧.depacketize_step self.old packet.now out.old.items codec_extra.old result (⟦<CodecDepacketizer<B> as Depacketizer>⟧.state self.new) out.new.items codec_extra.new }
        ensures built_in { DepacketizerStep (depacketizer_state_of self.old) packet.now out.old.items codec_extra.old result (depacketizer_state_of self.new) out.new.items codec_extra.new }
        ensures kind { kind_of_depacketizer (depacketizer_state_of self.new) ≡ kind_of_depacketizer (depacketizer_state_of self.old) }
    {
        match self {
            CodecDepacketizer::G711(d) => d.depacketize(packet, out, codec_extra),
            CodecDepacketizer::Opus(d) => d.depacketize(packet, out, codec_extra),
            CodecDepacketizer::ComfortNoise(d) => d.depacketize(packet, out, codec_extra),
            CodecDepacketizer::Tele(d) => d.depacketize(packet, out, codec_extra),
            CodecDepacketizer::Vp8(d) => d.depacketize(packet, out, codec_extra),
            CodecDepacketizer::Vp9(d) => d.depacketize(packet, out, codec_extra),
            CodecDepacketizer::Av1(d) => d.depacketize(packet, out, codec_extra),
            CodecDepacketizer::AmrWb(d) => d.depacketize(packet, out, codec_extra),
            CodecDepacketizer::Null(d) => d.depacketize(packet, out, codec_extra),
            CodecDepacketizer::Boxed(d) => d.depacketize(packet, out, codec_extra),
        }
    }

    #[inline(always)]
    fn is_partition_head(&self, packet: &[u8]) -> bool
        ensures step { result ≡ ⟦<CodecDepacketizer<B> as Depacketizer>⟧.is_head self.now packet.now }
        ensures built_in { is_built_in_depacketizer (depacketizer_state_of self.now) ≡ true → result ≡ head_of (depacketizer_state_of self.now) packet.now }
    {
        match self {
            CodecDepacketizer::G711(d) => d.is_partition_head(packet),
            CodecDepacketizer::Opus(d) => d.is_partition_head(packet),
            CodecDepacketizer::ComfortNoise(d) => d.is_partition_head(packet),
            CodecDepacketizer::Tele(d) => d.is_partition_head(packet),
            CodecDepacketizer::Vp8(d) => d.is_partition_head(packet),
            CodecDepacketizer::Vp9(d) => d.is_partition_head(packet),
            CodecDepacketizer::Av1(d) => d.is_partition_head(packet),
            CodecDepacketizer::AmrWb(d) => d.is_partition_head(packet),
            CodecDepacketizer::Null(d) => d.is_partition_head(packet),
            CodecDepacketizer::Boxed(d) => d.is_partition_head(packet),
        }
    }

    fn is_partition_tail(&self, marker: bool, packet: &[u8]) -> bool
        ensures step { result ≡ ⟦<CodecDepacketizer<B> as Depacketizer>⟧.is_tail self.now marker packet.now }
        ensures built_in { is_built_in_depacketizer (depacketizer_state_of self.now) ≡ true → result ≡ tail_of (depacketizer_state_of self.now) marker packet.now }
    {
        match self {
            CodecDepacketizer::G711(d) => d.is_partition_tail(marker, packet),
            CodecDepacketizer::Opus(d) => d.is_partition_tail(marker, packet),
            CodecDepacketizer::ComfortNoise(d) => d.is_partition_tail(marker, packet),
            CodecDepacketizer::Tele(d) => d.is_partition_tail(marker, packet),
            CodecDepacketizer::Vp8(d) => d.is_partition_tail(marker, packet),
            CodecDepacketizer::Vp9(d) => d.is_partition_tail(marker, packet),
            CodecDepacketizer::Av1(d) => d.is_partition_tail(marker, packet),
            CodecDepacketizer::AmrWb(d) => d.is_partition_tail(marker, packet),
            CodecDepacketizer::Null(d) => d.is_partition_tail(marker, packet),
            CodecDepacketizer::Boxed(d) => d.is_partition_tail(marker, packet),
        }
    }
}
