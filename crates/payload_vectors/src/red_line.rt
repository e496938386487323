//! The line that has a run send and receive in RED.

ghost use Rattle.std.specs.Prelude.{◌≡◌, ◌<◌, ◌≤◌, ◌↔◌, ◌++◌, ◌^◌, ℕ, List, IsTrue, IsSome, IsNone, IfOk, IfSome, length, map};
ghost use Rattle.std.specs.Str.Parse.{digits_value};
ghost use Rattle.codec_payload_core.specs.RedLevels.{is_accepted};
ghost use Rattle.payload_lines.specs.Numbers.{IsNumber};
ghost use Rattle.payload_vectors.specs.RedFields.{AreNumbers, AreRed, SpellsDistances, IsDistances};

use codec_payload_core::red::RedSender;
use payload_lines::numbers::{count, decimal};
use std::alloc::{AllocError, Global};

/// The most distances that a sender takes: they rise strictly, from 1 to 8.
const MOST_DISTANCES: usize = 8;

/// The greatest step, in ticks of the RTP clock: no older block can be further back.
const GREATEST_STEP: u32 = 16_383;

/// How a run is sent and received in RED.
#[derive(Debug, Drop)]
pub struct RedSetup {
    /// How many ticks of the RTP clock packets are apart.
    pub step: u32,
    /// The most bytes that a payload in RED may have.
    pub budget: usize,
    /// How many packets before a packet those are that it repeats.
    pub distances: Vec<u32>,
    ghost step_is_some: { 0 < step },
    ghost step_fits: { step ≤ 16383 },
    ghost are_accepted: { IsTrue (is_accepted distances.items) },
}

impl RedSetup {
    ghost use Rattle.payload_vectors.specs.Line.{IsRedSetup};

    /// What the fields after `red` set. `Ok(None)` for any that set nothing.
    pub fn from_fields(
        alloc: Global,
        step: &str,
        budget: &str,
        distances: &str,
    ) -> Result<Option<RedSetup>, AllocError>
        ensures found { IfOk result (λ found. IsSome found ↔ AreRed step.now budget.now distances.now) }
        ensures value { IfOk result (λ found. IfSome found (IsRedSetup step.now budget.now distances.now)) }
    {
        let (Some(step), Some(budget)) = (small(step), count(budget)) else {
            return Ok(None);
        };
        if step == 0 || step > GREATEST_STEP {
            return Ok(None);
        }
        let Some(distances) = accepted_distances(alloc, distances)? else {
            return Ok(None);
        };
        Ok(Some(RedSetup {
            step,
            budget,
            distances,
        }))
    }
}

/// The number that decimal digits spell, if it has at most 32 bits.
fn small(field: &str) -> Option<u32>
    ensures found { IsSome result ↔ IsNumber (2 ^ 32) field.now }
    ensures value { IfSome result (λ number. number ≡ digits_value 10 field.now) }
{
    u32::try_from(decimal(field)?).ok()
}

/// The distances that a field spells, if a sender accepts them.
fn accepted_distances(alloc: Global, field: &str) -> Result<Option<Vec<u32>>, AllocError>
    ensures found { IfOk result (λ found. IsSome found ↔ IsDistances field.now) }
    ensures value { IfOk result (λ found. IfSome found (λ distances. SpellsDistances field.now distances.items × IsTrue (is_accepted distances.items))) }
{
    let Some(distances) = spelled_distances(alloc, field)? else {
        return Ok(None);
    };
    if !RedSender::accepts(&distances) {
        return Ok(None);
    }
    Ok(Some(distances))
}

/// The distances that a field spells, if they are no more than a sender accepts.
fn spelled_distances(alloc: Global, field: &str) -> Result<Option<Vec<u32>>, AllocError>
    ensures some { IfOk result (λ found. IfSome found (λ distances. SpellsDistances field.now distances.items)) }
    ensures none { IfOk result (λ found. IsNone found → (distances : List ℕ) → SpellsDistances field.now distances → 8 < length distances) }
{
    if field == "-" {
        return Ok(Some(Vec::new(alloc)));
    }
    let parts: Vec<&str> = field.split(',').collect(alloc)?;
    if parts.len() > MOST_DISTANCES {
        return Ok(None);
    }
    let mut distances = Vec::new(alloc);
    if !add_numbers(&mut distances, &parts)? {
        return Ok(None);
    }
    Ok(Some(distances))
}

/// Adds the numbers that at most eight fields spell as distances of a sender, up to the first that spells none. Returns whether
/// each spells one. Calls itself once per field, so its depth is bounded.
fn add_numbers(numbers: &mut Vec<u32>, fields: &[&str]) -> Result<bool, AllocError>
    requires { length fields.now ≤ 8 }
    ensures all { IfOk result (λ all. IsTrue all ↔ AreNumbers (map (λ field. field.now) fields.now)) }
    ensures added { IfOk result (λ all. IsTrue all → numbers.new.items ≡ numbers.old.items ++ map (digits_value 10) (map (λ field. field.now) fields.now)) }
{
    let Some((first, others)) = fields.split_first() else {
        return Ok(true);
    };
    let Some(number) = small(first) else {
        return Ok(false);
    };
    numbers.push(number)?;
    let all = add_numbers(numbers, others)?;
    Ok(all)
}
