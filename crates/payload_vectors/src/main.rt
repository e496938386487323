//! Reads a codec, samples and steps from standard input, runs the steps, and prints the packets sent and the units released.
//! `run_lines` does the work, and `finish` reports how it ended; this file has only the streams.
#![tactic(auto)]

mod fields;
mod line;
mod print;
mod red_line;
mod run;
mod script;

use payload_lines::streams::finish;
use run::run_lines;
use std::io;
use std::process::ExitCode;

fn main(rt: HostRuntime) -> ExitCode {
    let mut input = rt.reader();
    let mut output = io::writer(&rt);
    let errors = rt.stderr();
    let mut messages = io::writer(&errors);
    let answer = run_lines(rt.alloc(), &mut input, &mut output);
    ExitCode::from(finish(answer, &mut messages))
}
