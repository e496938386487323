//! A packetizer of any supported codec.

ghost use Rattle.std.specs.Prelude.{◌≡◌, ◌≤◌, [], option_map, OnErr, true};
ghost use Rattle.std.specs.Option.{option_copied};
ghost use Rattle.codec_payload_base.specs.Answers.{packets_of, written, IsWritten};
ghost use Rattle.codec_payload_base.specs.PayloadLists.{rooms_of};
ghost use Rattle.codec_payload_base.specs.declared.interface.Vp9PacketizerMode.TheVariants.{NonFlexible};
ghost use Rattle.codec_payload_codec.specs.Packetizers.{packetizer_state_of, packetizer_state_for, configured, is_built_in, PacketizerStep, PacketizerStepTo, MarkerStep, numbers_of_packetizer, marker_of, talk_spurt_of, nackable_of};

use super::boxed::NoBox;
use codec_payload_audio::amr_wb::AmrWbPacketizer;
use codec_payload_audio::plain::{
    ComfortNoisePacketizer, G711Packetizer, G722Packetizer, NullPacketizer, OpusPacketizer,
};
use codec_payload_audio::tele::TelephoneEventPacketizer;
use codec_payload_av1::av1::Av1Packetizer;
use codec_payload_base::error::PacketError;
use codec_payload_base::interface::{Packetizer, Vp9PacketizerMode};
use codec_payload_base::payloads::Payloads;
use codec_payload_base::wire::{Codec, CodecSpec};
use codec_payload_vp8::vp8::Vp8Packetizer;
use codec_payload_vp9::vp9::Vp9Packetizer;
use std::alloc::Global;
use std::fmt;

/// A packetizer of a built-in codec, or a custom one of type `B`: the default [`NoBox`] means no custom codec; [`BoxedPacketizer`]
/// means one in a box.
#[derive(Drop)]
pub enum CodecPacketizer<B = NoBox> {
    G711(G711Packetizer),
    G722(G722Packetizer),
    Opus(OpusPacketizer),
    ComfortNoise(ComfortNoisePacketizer),
    Tele(TelephoneEventPacketizer),
    Vp8(Vp8Packetizer),
    Vp9(Vp9Packetizer),
    Av1(Av1Packetizer),
    AmrWb(AmrWbPacketizer),
    Null(NullPacketizer),
    /// A custom packetizer. The library relies on none of its results: packets of any size are sent unchanged.
    Boxed(B),
}

/// Prints the name of the codec. The contents of a box are not printed.
impl<B> fmt::Debug for CodecPacketizer<B> {
    fn fmt<W: fmt::Write>(&self, f: &mut fmt::Formatter<W>) -> fmt::Result {
        match self {
            CodecPacketizer::G711(p) => write!(f, "G711({p:?})"),
            CodecPacketizer::G722(p) => write!(f, "G722({p:?})"),
            CodecPacketizer::Opus(p) => write!(f, "Opus({p:?})"),
            CodecPacketizer::ComfortNoise(p) => write!(f, "ComfortNoise({p:?})"),
            CodecPacketizer::Tele(p) => write!(f, "Tele({p:?})"),
            CodecPacketizer::Vp8(p) => write!(f, "Vp8({p:?})"),
            CodecPacketizer::Vp9(p) => write!(f, "Vp9({p:?})"),
            CodecPacketizer::Av1(p) => write!(f, "Av1({p:?})"),
            CodecPacketizer::AmrWb(p) => write!(f, "AmrWb({p:?})"),
            CodecPacketizer::Null(p) => write!(f, "Null({p:?})"),
            CodecPacketizer::Boxed(_) => write!(f, "Boxed"),
        }
    }
}

impl CodecPacketizer {
    /// The packetizer of a codec; `None` if the codec is unsupported. `mode` and `first_id` are for VP9: its mode, and the picture
    /// id of the first frame. `first_id` must be below 2^15 for every codec. VP8 sends no picture ids.
    pub fn new(codec: Codec, mode: Vp9PacketizerMode, first_id: u16) -> Option<Self>
        requires { first_id ≤ 32767 }
        ensures { option_map packetizer_state_of result ≡ packetizer_state_for mode first_id codec }
    {
        match codec {
            Codec::PCMU | Codec::PCMA => Some(CodecPacketizer::G711(G711Packetizer {})),
            Codec::G722 => Some(CodecPacketizer::G722(G722Packetizer {})),
            Codec::Opus => Some(CodecPacketizer::Opus(OpusPacketizer {})),
            Codec::CN => Some(CodecPacketizer::ComfortNoise(ComfortNoisePacketizer {})),
            Codec::Tele => Some(CodecPacketizer::Tele(TelephoneEventPacketizer {})),
            Codec::Vp8 => Some(CodecPacketizer::Vp8(Vp8Packetizer::default())),
            Codec::Vp9 => Some(CodecPacketizer::Vp9(Vp9Packetizer::with_mode(mode, first_id))),
            Codec::Av1 => Some(CodecPacketizer::Av1(Av1Packetizer::default())),
            Codec::AmrWb => Some(CodecPacketizer::AmrWb(AmrWbPacketizer::default())),
            Codec::Null => Some(CodecPacketizer::Null(NullPacketizer {})),
            _ => None,
        }
    }

    /// The same with the non-flexible mode and the picture id 0.
    pub fn from_codec(codec: Codec) -> Option<Self>
        ensures { option_map packetizer_state_of result ≡ packetizer_state_for NonFlexible 0 codec }
    {
        CodecPacketizer::new(codec, Vp9PacketizerMode::NonFlexible, 0)
    }
}

impl<B> CodecPacketizer<B> {
    /// Takes over what a specification says of payloads: the layout of AMR-WB. Other codecs stay as they are.
    pub fn configure_for(&mut self, spec: &CodecSpec)
        ensures { packetizer_state_of self.new ≡ configured spec.now.octet_align (packetizer_state_of self.old) }
    {
        if let CodecPacketizer::AmrWb(p) = self {
            p.octet_align = spec.octet_align;
        }
    }
}

/// Each call is forwarded to the selected packetizer.
impl<B: Packetizer> Packetizer for CodecPacketizer<B> {
    ghost use Rattle.codec_payload_codec.specs.declared.codec.packetizer.CodecPacketizer.TheVariants.{Boxed};

    ghost state = { elim [ Boxed b ↦ B.state b | p ↦ numbers_of_packetizer (packetizer_state_of p) ] };

    ghost packetize_step = { elim [ Boxed b ↦ B.packetize_step b | p ↦ PacketizerStepTo (packetizer_state_of p) ] };

    ghost marker_step = { elim [ Boxed b ↦ B.marker_step b | p ↦ MarkerStep (packetizer_state_of p) ] };

    ghost marks_spurts = { elim [ Boxed b ↦ B.marks_spurts b | p ↦ talk_spurt_of (packetizer_state_of p) ] };

    ghost may_be_asked_for = { elim [ Boxed b ↦ B.may_be_asked_for b | p ↦ nackable_of (packetizer_state_of p) ] };

    fn packetize(
        &mut self,
        alloc: Global,
        mtu: usize,
        b: &[u8],
    ) -> Result<Vec<Vec<u8>>, PacketError>
        ensures step { ⟦<CodecPacketizer<B> as Packetizer>⟧.packetize_step self.old mtu b.now (packets_of result) (⟦<CodecPacketizer<B> as Packetizer>⟧.state self.new) }
        ensures built_in { PacketizerStep (packetizer_state_of self.old) mtu b.now (packets_of result) (packetizer_state_of self.new) }
    {
        match self {
            CodecPacketizer::G711(p) => p.packetize(alloc, mtu, b),
            CodecPacketizer::G722(p) => p.packetize(alloc, mtu, b),
            CodecPacketizer::Opus(p) => p.packetize(alloc, mtu, b),
            CodecPacketizer::ComfortNoise(p) => p.packetize(alloc, mtu, b),
            CodecPacketizer::Tele(p) => p.packetize(alloc, mtu, b),
            CodecPacketizer::Vp8(p) => p.packetize(alloc, mtu, b),
            CodecPacketizer::Vp9(p) => p.packetize(alloc, mtu, b),
            CodecPacketizer::Av1(p) => p.packetize(alloc, mtu, b),
            CodecPacketizer::AmrWb(p) => p.packetize(alloc, mtu, b),
            CodecPacketizer::Null(p) => p.packetize(alloc, mtu, b),
            CodecPacketizer::Boxed(p) => p.packetize(alloc, mtu, b),
        }
    }

    fn packetize_into(
        &mut self,
        alloc: Global,
        mtu: usize,
        b: &[u8],
        out: &mut Payloads,
    ) -> Result<(), PacketError>
        ensures step { IsWritten (λ answer. ⟦<CodecPacketizer<B> as Packetizer>⟧.packetize_step self.old mtu b.now answer (⟦<CodecPacketizer<B> as Packetizer>⟧.state self.new)) result out.new.payloads }
        ensures built_in { is_built_in (packetizer_state_of self.old) ≡ true → PacketizerStep (packetizer_state_of self.old) mtu b.now (written result out.new.payloads) (packetizer_state_of self.new) }
        ensures fault { OnErr result (out.new.payloads ≡ []) }
        ensures rooms { rooms_of out.new ≡ rooms_of out.old }
    {
        match self {
            CodecPacketizer::G711(p) => p.packetize_into(alloc, mtu, b, out),
            CodecPacketizer::G722(p) => p.packetize_into(alloc, mtu, b, out),
            CodecPacketizer::Opus(p) => p.packetize_into(alloc, mtu, b, out),
            CodecPacketizer::ComfortNoise(p) => p.packetize_into(alloc, mtu, b, out),
            CodecPacketizer::Tele(p) => p.packetize_into(alloc, mtu, b, out),
            CodecPacketizer::Vp8(p) => p.packetize_into(alloc, mtu, b, out),
            CodecPacketizer::Vp9(p) => p.packetize_into(alloc, mtu, b, out),
            CodecPacketizer::Av1(p) => p.packetize_into(alloc, mtu, b, out),
            CodecPacketizer::AmrWb(p) => p.packetize_into(alloc, mtu, b, out),
            CodecPacketizer::Null(p) => p.packetize_into(alloc, mtu, b, out),
            CodecPacketizer::Boxed(p) => p.packetize_into(alloc, mtu, b, out),
        }
    }

    fn is_marker(&mut self, data: &[u8], previous: Option<&[u8]>, last: bool) -> bool
        ensures step { ⟦<CodecPacketizer<B> as Packetizer>⟧.marker_step self.old «data».now (option_copied previous.entry) last result (⟦<CodecPacketizer<B> as Packetizer>⟧.state self.new) }
        ensures built_in { is_built_in (packetizer_state_of self.old) ≡ true → result ≡ marker_of (packetizer_state_of self.old) last }
        ensures same { packetizer_state_of self.new ≡ packetizer_state_of self.old }
    {
        match self {
            CodecPacketizer::G711(p) => p.is_marker(data, previous, last),
            CodecPacketizer::G722(p) => p.is_marker(data, previous, last),
            CodecPacketizer::Opus(p) => p.is_marker(data, previous, last),
            CodecPacketizer::ComfortNoise(p) => p.is_marker(data, previous, last),
            CodecPacketizer::Tele(p) => p.is_marker(data, previous, last),
            CodecPacketizer::Vp8(p) => p.is_marker(data, previous, last),
            CodecPacketizer::Vp9(p) => p.is_marker(data, previous, last),
            CodecPacketizer::Av1(p) => p.is_marker(data, previous, last),
            CodecPacketizer::AmrWb(p) => p.is_marker(data, previous, last),
            CodecPacketizer::Null(p) => p.is_marker(data, previous, last),
            CodecPacketizer::Boxed(p) => p.is_marker(data, previous, last),
        }
    }

    fn marks_talkspurt(&self) -> bool
        ensures step { result ≡ ⟦<CodecPacketizer<B> as Packetizer>⟧.marks_spurts self.now }
        ensures built_in { is_built_in (packetizer_state_of self.now) ≡ true → result ≡ talk_spurt_of (packetizer_state_of self.now) }
    {
        match self {
            CodecPacketizer::G711(p) => p.marks_talkspurt(),
            CodecPacketizer::G722(p) => p.marks_talkspurt(),
            CodecPacketizer::Opus(p) => p.marks_talkspurt(),
            CodecPacketizer::ComfortNoise(p) => p.marks_talkspurt(),
            CodecPacketizer::Tele(p) => p.marks_talkspurt(),
            CodecPacketizer::Vp8(p) => p.marks_talkspurt(),
            CodecPacketizer::Vp9(p) => p.marks_talkspurt(),
            CodecPacketizer::Av1(p) => p.marks_talkspurt(),
            CodecPacketizer::AmrWb(p) => p.marks_talkspurt(),
            CodecPacketizer::Null(p) => p.marks_talkspurt(),
            CodecPacketizer::Boxed(p) => p.marks_talkspurt(),
        }
    }

    fn nackable(&self) -> bool
        ensures step { result ≡ ⟦<CodecPacketizer<B> as Packetizer>⟧.may_be_asked_for self.now }
        ensures built_in { is_built_in (packetizer_state_of self.now) ≡ true → result ≡ nackable_of (packetizer_state_of self.now) }
    {
        match self {
            CodecPacketizer::G711(p) => p.nackable(),
            CodecPacketizer::G722(p) => p.nackable(),
            CodecPacketizer::Opus(p) => p.nackable(),
            CodecPacketizer::ComfortNoise(p) => p.nackable(),
            CodecPacketizer::Tele(p) => p.nackable(),
            CodecPacketizer::Vp8(p) => p.nackable(),
            CodecPacketizer::Vp9(p) => p.nackable(),
            CodecPacketizer::Av1(p) => p.nackable(),
            CodecPacketizer::AmrWb(p) => p.nackable(),
            CodecPacketizer::Null(p) => p.nackable(),
            CodecPacketizer::Boxed(p) => p.nackable(),
        }
    }
}
