//! The settings of packetizers and depacketizers.

ghost use Rattle.std.specs.Prelude.{◌≡◌, true, false, IfSome, IsNone, option_map};
ghost use Rattle.codec_payload_core.specs.Packetizers.{is_built_in, packetizer_state_of};
ghost use Rattle.codec_payload_core.specs.Depacketizers.{depacketizer_state_of};
ghost use Rattle.codec_payload_handle.specs.Settings.{codec_numbered, depacketizer_set, mode_set, packetizer_set};

use codec_payload_core::amr_wb::AmrWbPacketizer;
use codec_payload_core::av1::Av1Packetizer;
use codec_payload_core::codec::{CodecDepacketizer, CodecPacketizer, Vp9PacketizerMode};
use codec_payload_core::plain::{
    ComfortNoisePacketizer, G711Packetizer, G722Packetizer, NullPacketizer, OpusPacketizer,
};
use codec_payload_core::tele::TelephoneEventPacketizer;
use codec_payload_core::vp8::Vp8Packetizer;
use codec_payload_core::wire::{Codec, CodecSpec, Frequency};
use std::alloc::Global;

/// The largest picture id of 15 bits.
const MAX_PICTURE_ID: u16 = 32_767;

/// A codec with its settings.
#[repr(C)]
#[derive(Clone, Copy)]
pub struct Spec {
    /// The number of the codec.
    pub codec: u32,
    /// The rate of the RTP clock in hertz, above 0.
    pub rate: u32,
    /// The first picture id of VP9, and of VP8 with picture ids: at most 32,767.
    pub first_id: u16,
    /// Whether AMR-WB payloads are octet-aligned.
    pub octet_align: bool,
    /// Whether VP8 payloads have picture ids.
    pub vp8_ids: bool,
    /// Whether VP9 uses the flexible mode.
    pub vp9_flexible: bool,
}

/// Returns the codec with this number.
pub fn codec_of(number: u32) -> Codec
    ensures { result ≡ codec_numbered number }
{
    match number {
        0 => Codec::Opus,
        1 => Codec::PCMU,
        2 => Codec::PCMA,
        3 => Codec::G722,
        4 => Codec::CN,
        5 => Codec::AmrWb,
        9 => Codec::Vp8,
        10 => Codec::Vp9,
        11 => Codec::Av1,
        12 => Codec::Null,
        13 => Codec::Tele,
        _ => Codec::Unknown,
    }
}

/// Returns the mode of VP9.
fn mode_of(flexible: bool) -> Vp9PacketizerMode
    ensures { result ≡ mode_set flexible }
{
    if flexible {
        Vp9PacketizerMode::Flexible
    } else {
        Vp9PacketizerMode::NonFlexible
    }
}

/// Returns the packetizer of the codec with these settings, if there is one.
pub fn packetizer_of(spec: &Spec) -> Option<CodecPacketizer>
    ensures { option_map packetizer_state_of result ≡ packetizer_set spec.now }
{
    let clock_rate = Frequency::make(spec.rate)?;
    if spec.first_id > MAX_PICTURE_ID {
        return None;
    }
    let codec = codec_of(spec.codec);
    if spec.vp8_ids && spec.codec == 9 {
        let packetizer = Vp8Packetizer::with_picture_id(spec.first_id);
        return Some(CodecPacketizer::Vp8(packetizer));
    }
    let mut packetizer = CodecPacketizer::new(codec, mode_of(spec.vp9_flexible), spec.first_id)?;
    packetizer.configure_for(&CodecSpec {
        codec,
        clock_rate,
        octet_align: spec.octet_align,
    });
    Some(packetizer)
}

/// Returns a copy of a packetizer, or `None` for a custom one. It does not allocate.
pub fn packetizer_as(packetizer: &CodecPacketizer) -> Option<CodecPacketizer>
    ensures same { IfSome result (λ p. (packetizer_state_of p ≡ packetizer_state_of packetizer.now) × (is_built_in (packetizer_state_of packetizer.now) ≡ true)) }
    ensures built_in { IsNone result → is_built_in (packetizer_state_of packetizer.now) ≡ false }
{
    Some(match packetizer {
        CodecPacketizer::G711(_) => CodecPacketizer::G711(G711Packetizer {}),
        CodecPacketizer::G722(_) => CodecPacketizer::G722(G722Packetizer {}),
        CodecPacketizer::Opus(_) => CodecPacketizer::Opus(OpusPacketizer {}),
        CodecPacketizer::ComfortNoise(_) => {
            CodecPacketizer::ComfortNoise(ComfortNoisePacketizer {})
        }
        CodecPacketizer::Tele(_) => CodecPacketizer::Tele(TelephoneEventPacketizer {}),
        CodecPacketizer::Vp8(sends) => CodecPacketizer::Vp8(sends.clone().ok()?),
        CodecPacketizer::Vp9(sends) => CodecPacketizer::Vp9(sends.clone().ok()?),
        CodecPacketizer::Av1(_) => CodecPacketizer::Av1(Av1Packetizer {}),
        CodecPacketizer::AmrWb(sends) => CodecPacketizer::AmrWb(AmrWbPacketizer {
            octet_align: sends.octet_align,
        }),
        CodecPacketizer::Null(_) => CodecPacketizer::Null(NullPacketizer {}),
        CodecPacketizer::Boxed(_) => return None,
    })
}

/// Returns the depacketizer of the codec with these settings, if there is one.
pub fn depacketizer_of(alloc: Global, spec: &Spec) -> Option<CodecDepacketizer>
    ensures { option_map depacketizer_state_of result ≡ depacketizer_set spec.now }
{
    let clock_rate = Frequency::make(spec.rate)?;
    let codec = codec_of(spec.codec);
    let mut depacketizer = CodecDepacketizer::from_codec(alloc, codec)?;
    depacketizer.configure_for(&CodecSpec {
        codec,
        clock_rate,
        octet_align: spec.octet_align,
    });
    Some(depacketizer)
}
