//! The lines of the input.

ghost use Rattle.std.specs.Prelude.{ℕ, List, ◌≡◌, ◌∷◌, [], ◌↔◌, ◌≤◌, ◌^◌, map, codes, IsSome, IfSome, IfOk, Some, None};
ghost use Rattle.std.specs.Str.Parse.{digits_value};
ghost use Rattle.codec_payload_core.specs.Depacketizers.{depacketizer_state_for};
ghost use Rattle.codec_payload_core.specs.Packetizers.{packetizer_state_for};
ghost use Rattle.payload_vectors.specs.Fields.{AreSetup, IsLimitField};

use crate::fields::{codec_named, has_vp8_ids, is_octet_aligned, vp9_mode};
use crate::red_line::RedSetup;
use codec_payload_core::codec::Vp9PacketizerMode;
use codec_payload_core::schedule::Step;
use codec_payload_core::wire::{Codec, Frequency};
use payload_lines::digits::hex_field;
use payload_lines::numbers::{count, decimal, truth};
use std::alloc::{AllocError, Global};

/// The greatest number that the first packet may have.
const GREATEST_FIRST_NUMBER: u64 = 1 << 62;

/// The greatest picture id, which has 15 bits.
const GREATEST_PICTURE_ID: u16 = 0x7fff;

/// The greatest limit of a buffer, in packets.
const GREATEST_LIMIT: usize = 65_536;

/// What the first line sets.
#[derive(Clone, Copy, Debug)]
pub struct Setup {
    pub codec: Codec,
    /// Whether AMR-WB has its octet-aligned layout.
    pub octet_align: bool,
    /// Whether the frames of VP8 have picture ids.
    pub vp8_ids: bool,
    pub vp9_mode: Vp9PacketizerMode,
    /// The rate of the RTP clock and of the times of samples.
    pub rate: Frequency,
    /// How many later frames a missing one is waited for.
    pub hold_back: usize,
    /// The number of the first packet.
    pub first_number: u64,
    /// The picture id of the first frame, if frames have one.
    pub first_id: u16,
    ghost number_fits: { first_number ≤ 2 ^ 62 },
    ghost id_fits: { first_id ≤ 32767 },
    ghost has_packetizer: { IsSome (packetizer_state_for vp9_mode first_id codec) },
    ghost has_depacketizer: { IsSome (depacketizer_state_for codec) },
}

impl Setup {
    ghost use Rattle.payload_vectors.specs.Line.{IsSetup};

    /// What the fields after `codec` set.
    fn from_fields(name: &str, rate: &str, hold_back: &str, number: &str, id: &str) -> Option<Setup>
        ensures found { IsSome result ↔ AreSetup name.now rate.now hold_back.now number.now id.now }
        ensures value { IfSome result (IsSetup name.now rate.now hold_back.now number.now id.now) }
    {
        let codec = codec_named(name)?;
        let rate = Frequency::make(u32::try_from(decimal(rate)?).ok()?)?;
        let hold_back = count(hold_back)?;
        let first_number = decimal(number)?;
        let first_id = u16::try_from(decimal(id)?).ok()?;
        if first_number > GREATEST_FIRST_NUMBER || first_id > GREATEST_PICTURE_ID {
            return None;
        }
        Some(Setup {
            codec,
            octet_align: is_octet_aligned(name),
            vp8_ids: has_vp8_ids(name),
            vp9_mode: vp9_mode(name),
            rate,
            hold_back,
            first_number,
            first_id,
        })
    }
}

/// How many packets the buffer holds at most.
#[derive(Clone, Copy, Debug)]
pub struct Limit {
    pub packets: usize,
    ghost least: { 1 ≤ packets },
    ghost most: { packets ≤ 65536 },
}

impl Limit {
    /// The default limit of a buffer.
    pub fn unless_set() -> Limit
        ensures { result.packets ≡ 4096 }
    {
        Limit { packets: 4_096 }
    }

    /// The limit that the field after `limit` sets.
    fn from_field(packets: &str) -> Option<Limit>
        ensures found { IsSome result ↔ IsLimitField packets.now }
        ensures value { IfSome result (λ limit. limit.packets ≡ digits_value 10 packets.now) }
    {
        let packets = count(packets)?;
        if packets < 1 || packets > GREATEST_LIMIT {
            return None;
        }
        Some(Limit { packets })
    }
}

/// A line of the input, without its newline.
#[derive(Debug, Drop)]
pub enum Line {
    Codec(Setup),
    Limit(Limit),
    Red(RedSetup),
    Sample {
        time: u64,
        talk_spurt: bool,
        bytes: Vec<u8>,
    },
    Step(Step),
}

impl Line {
    ghost use Rattle.codec_payload_core.specs.declared.schedule.Step.TheVariants.{Pop};
    ghost use Rattle.payload_vectors.specs.Line.{HasForm, IsCodec, IsLimit, IsPush, IsRed, IsSample, IsSend, Says, fields_of};
    ghost use Rattle.payload_vectors.specs.declared.line.Line.TheVariants as lines;

    /// The line that a text spells, whose fields have one space between them. `Ok(None)` for any other text.
    pub fn parse(alloc: Global, text: &str) -> Result<Option<Line>, AllocError>
        ensures { IfOk result (Says (fields_of text.now)) }
    {
        let fields: Vec<&str> = text.split(' ').collect(alloc)?;
        Line::from_fields(alloc, &fields)
    }

    /// The line with these fields.
    fn from_fields(alloc: Global, fields: &[&str]) -> Result<Option<Line>, AllocError>
        ensures pop { map (λ field. field.now) fields.now ≡ codes "pop" ∷ []
            → IfOk result (λ found. found ≡ Some (lines.Step Pop)) }
        ensures push { (packet : List ℕ) → map (λ field. field.now) fields.now ≡ codes "push" ∷ packet ∷ []
            → IfOk result (IsPush packet) }
        ensures limit { (packets : List ℕ) → map (λ field. field.now) fields.now ≡ codes "limit" ∷ packets ∷ []
            → IfOk result (IsLimit packets) }
        ensures send { (sample mtu : List ℕ) → map (λ field. field.now) fields.now ≡ codes "send" ∷ sample ∷ mtu ∷ []
            → IfOk result (IsSend sample mtu) }
        ensures sample { (time talk_spurt hex : List ℕ)
            → map (λ field. field.now) fields.now ≡ codes "sample" ∷ time ∷ talk_spurt ∷ hex ∷ []
            → IfOk result (IsSample time talk_spurt hex) }
        ensures red { (step budget distances : List ℕ) → map (λ field. field.now) fields.now ≡ codes "red" ∷ step ∷ budget ∷ distances ∷ []
            → IfOk result (IsRed step budget distances) }
        ensures codec { (name rate hold_back number id : List ℕ)
            → map (λ field. field.now) fields.now ≡ codes "codec" ∷ name ∷ rate ∷ hold_back ∷ number ∷ id ∷ []
            → IfOk result (IsCodec name rate hold_back number id) }
        ensures other { ¬ HasForm (map (λ field. field.now) fields.now) → IfOk result (λ found. found ≡ None) }
    {
        match fields {
            ["sample", time, talk_spurt, bytes] => Line::sample(alloc, time, talk_spurt, bytes),
            ["codec", name, rate, hold_back, number, id] => {
                Ok(Setup::from_fields(name, rate, hold_back, number, id).map(Line::Codec))
            }
            ["red", step, budget, distances] => Line::red(alloc, step, budget, distances),
            ["send", sample, mtu] => Ok(Line::send(sample, mtu)),
            ["push", packet] => Ok(count(packet).map(|k| Line::Step(Step::Push(k)))),
            ["limit", packets] => Ok(Limit::from_field(packets).map(Line::Limit)),
            ["pop"] => Ok(Some(Line::Step(Step::Pop))),
            _ => Ok(None),
        }
    }

    fn sample(
        alloc: Global,
        time: &str,
        talk_spurt: &str,
        bytes: &str,
    ) -> Result<Option<Line>, AllocError>
        ensures { IfOk result (IsSample time.now talk_spurt.now bytes.now) }
    {
        let (Some(time), Some(talk_spurt)) = (decimal(time), truth(talk_spurt)) else {
            return Ok(None);
        };
        let Some(bytes) = hex_field(alloc, bytes)? else {
            return Ok(None);
        };
        Ok(Some(Line::Sample {
            time,
            talk_spurt,
            bytes,
        }))
    }

    fn red(
        alloc: Global,
        step: &str,
        budget: &str,
        distances: &str,
    ) -> Result<Option<Line>, AllocError>
        ensures { IfOk result (IsRed step.now budget.now distances.now) }
    {
        Ok(RedSetup::from_fields(alloc, step, budget, distances)?.map(Line::Red))
    }

    fn send(sample: &str, mtu: &str) -> Option<Line>
        ensures { IsSend sample.now mtu.now result }
    {
        let sample = count(sample)?;
        let mtu = count(mtu)?;
        Some(Line::Step(Step::Send { sample, mtu }))
    }
}
