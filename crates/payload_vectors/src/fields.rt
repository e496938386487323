//! The fields of lines.

ghost use Rattle.std.specs.Prelude.{ℕ, ◌≡◌, IsSome, IfSome};
ghost use Rattle.codec_payload_core.specs.Depacketizers.{depacketizer_state_for};
ghost use Rattle.codec_payload_core.specs.Packetizers.{packetizer_state_for};
ghost use Rattle.payload_vectors.specs.Fields.{codec_of, names_octet_aligned, names_vp8_ids, vp9_mode_of};
ghost use Rattle.codec_payload_core.specs.declared.interface.Vp9PacketizerMode.{Vp9PacketizerMode as Mode};

use codec_payload_core::codec::Vp9PacketizerMode;
use codec_payload_core::wire::Codec;

/// The codec with that name, if it has a payloader and a buffer.
pub fn codec_named(name: &str) -> Option<Codec>
    ensures name { result ≡ codec_of name.now }
    ensures has_packetizer { IfSome result (λ codec. (mode : Mode) (id : ℕ) → IsSome (packetizer_state_for mode id codec)) }
    ensures has_depacketizer { IfSome result (λ codec. IsSome (depacketizer_state_for codec)) }
{
    match name {
        "opus" => Some(Codec::Opus),
        "pcmu" => Some(Codec::PCMU),
        "pcma" => Some(Codec::PCMA),
        "g722" => Some(Codec::G722),
        "cn" => Some(Codec::CN),
        "amrwb" | "amrwb-octet" => Some(Codec::AmrWb),
        "vp8" | "vp8-id" => Some(Codec::Vp8),
        "vp9" | "vp9-flex" => Some(Codec::Vp9),
        "av1" => Some(Codec::Av1),
        "tele" => Some(Codec::Tele),
        "null" => Some(Codec::Null),
        _ => None,
    }
}

/// Whether payloads of the codec with that name have the octet-aligned layout of AMR-WB.
pub fn is_octet_aligned(name: &str) -> bool
    ensures { result ≡ names_octet_aligned name.now }
{
    name == "amrwb-octet"
}

/// Whether the frames of VP8 with that name have picture ids.
pub fn has_vp8_ids(name: &str) -> bool
    ensures { result ≡ names_vp8_ids name.now }
{
    name == "vp8-id"
}

/// The mode of VP9 with that name.
pub fn vp9_mode(name: &str) -> Vp9PacketizerMode
    ensures { result ≡ vp9_mode_of name.now }
{
    match name {
        "vp9-flex" => Vp9PacketizerMode::Flexible,
        _ => Vp9PacketizerMode::NonFlexible,
    }
}
