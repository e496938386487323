//! The whole input: settings, samples and steps.

ghost use Rattle.std.specs.Prelude.{◌≡◌, IfErr};
ghost use Rattle.payload_vectors.specs.Program.{IsLineFault};

use crate::line::{Limit, Line, Setup};
use crate::red_line::RedSetup;
use codec_payload_core::schedule::Step;
use codec_payload_core::wire::{ExtensionValues, MediaTime, Pt, Ticks, ToPayload};
use payload_lines::streams::{ProgramFault, text_of};
use std::alloc::{AllocError, Global};

/// The payload type of the samples.
pub const PAYLOAD_TYPE: u8 = 96;

/// What the lines of an input say.
#[derive(Drop)]
pub struct Script {
    pub setup: Setup,
    pub limit: Limit,
    /// How it is sent in RED, if it is.
    pub red: Option<RedSetup>,
    pub samples: Vec<ToPayload>,
    pub steps: Vec<Step>,
}

impl Script {
    /// The script in the lines of `input`. The first line sets up the run, and no other does; at most one of the others sets the
    /// limit of the buffer, and at most one selects RED.
    pub fn read(alloc: Global, input: &[u8]) -> Result<Script, ProgramFault>
        ensures { IfErr result IsLineFault }
    {
        let mut setup = None;
        let mut limit = None;
        let mut red = None;
        let mut samples = Vec::new(alloc);
        let mut steps = Vec::new(alloc);
        for (index, bytes) in input.split_inclusive(|byte| *byte == b'\n').enumerate() {
            match (parse_line(alloc, bytes)?, setup, limit) {
                (Some(Line::Codec(read)), None, _) => setup = Some(read),
                (Some(Line::Limit(read)), Some(_), None) => limit = Some(read),
                (Some(Line::Red(read)), Some(_), _) if red.is_none() => red = Some(read),
                (
                    Some(
                        Line::Sample {
                            time,
                            talk_spurt,
                            bytes,
                        },
                    ),
                    Some(setup),
                    _,
                ) => {
                    samples.push(sample(&setup, time, talk_spurt, bytes))?;
                }
                (Some(Line::Step(step)), Some(_), _) => steps.push(step)?,
                _ => return Err(ProgramFault::BadLine(index + 1)),
            }
        }
        let setup = setup.ok_or(ProgramFault::BadLine(1))?;
        Ok(Script {
            setup,
            limit: limit.unwrap_or(Limit::unless_set()),
            red,
            samples,
            steps,
        })
    }
}

/// The line that the bytes spell, whose last is a newline.
fn parse_line(alloc: Global, bytes: &[u8]) -> Result<Option<Line>, AllocError> {
    match text_of(bytes) {
        Some(text) => Line::parse(alloc, text),
        None => Ok(None),
    }
}

fn sample(setup: &Setup, time: u64, talk_spurt: bool, bytes: Vec<u8>) -> ToPayload
    ensures payload_type { result.pt ≡ 96 }
    ensures wallclock { result.wallclock.0 ≡ 0 }
    ensures time { result.rtp_time ≡ record { numer = time; rate = setup.now.rate } }
    ensures bytes { result.bytes.items ≡ bytes.items }
    ensures talk_spurt { result.start_of_talk_spurt ≡ talk_spurt }
{
    ToPayload {
        pt: Pt::new_with_value(PAYLOAD_TYPE),
        wallclock: Ticks(0),
        rtp_time: MediaTime::new(time, setup.rate),
        bytes,
        start_of_talk_spurt: talk_spurt,
        ext_vals: ExtensionValues::default(),
    }
}
