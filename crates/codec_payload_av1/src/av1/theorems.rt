//! AV1: sent frames are received (docs/use/FORMATS.md, "AV1").

ghost use Rattle.std.specs.Prelude.{◌≡◌, ◌<◌, ◌^◌, ◌++◌, ◌∷◌, ℕ, Bool, true, List, Some, length, slice_index};
ghost use Rattle.std.specs.List.{flat_map};
ghost use Rattle.codec_payload_av1.specs.Av1Obu.{Obu, IsSequence, kept, strings_of, canonical, canonical_unit};
ghost use Rattle.codec_payload_av1.specs.Av1Payload.{is_head};
ghost use Rattle.codec_payload_av1.specs.Av1Packing.{AreSent};
ghost use Rattle.codec_payload_av1.specs.Av1Receiving.{all_received};
ghost use Rattle.codec_payload_av1.specs.Av1Grammar.{ReadsPayload, ReadsSequence, ReadsUnit};

/// Reading finds exactly the OBUs of a frame, and the elements of a payload, that their grammars give. An element gives a unit
/// exactly if it is one OBU.
pub fn reading_follows_the_grammars()
    ensures obus { ReadsSequence }
    ensures payloads { ReadsPayload }
    ensures units { ReadsUnit }
{}

/// The canonical unit of a canonical unit is itself.
pub fn canonical_unit_is_its_own()
    ensures { (bytes : List ℕ) (os : List Obu) → ((i : ℕ) → slice_index bytes i < 256) → length bytes < 2 ^ 64 → IsSequence os bytes
        → (again : List Obu) × IsSequence again (canonical_unit os) × (canonical_unit again ≡ canonical_unit os) }
{}

/// The last packets of a frame, from a head on, give the last of its kept OBUs, whatever a receiver had pending.
pub fn last_packets_give_last_obus()
    ensures { (bytes : List ℕ) (os : List Obu) → ((i : ℕ) → slice_index bytes i < 256) → length bytes < 2 ^ 64 → IsSequence os bytes
        → (mtu : ℕ) (starts : Bool) (front : List (List ℕ)) (packet : List ℕ) (packets : List (List ℕ)) → mtu < 2 ^ 64
        → AreSent mtu starts (strings_of os) (front ++ packet ∷ packets) → is_head packet ≡ true
        → (pending : List ℕ) → (first : List Obu) × (last : List Obu) × (end : List ℕ) × (kept os ≡ first ++ last) × (0 < length last) × (all_received pending (packet ∷ packets) ≡ Some (flat_map canonical last, end)) }
{}
