//! The whole of an input, its lines, and how a program ends.

ghost use Rattle.std.specs.Prelude.{◌≡◌, ◌≢◌, ◌≤◌, ◌<◌, ℕ, length, IfOk, IfErr, IfSome, OnOk, Err};
ghost use Rattle.payload_lines.specs.Ends.{IsFaultOf, status_of};
ghost use Rattle.payload_lines.specs.declared.streams.ProgramFault.TheVariants.{BadLine, OutOfMemory, TooLong};

use std::alloc::{AllocError, AllocFailed, Global};
use std::io;
use std::io::{ErrorKind, Read, Write};
use thiserror::Error;

/// Why the program stops. Each text is one line.
#[derive(Debug, PartialEq, Eq, Drop, Error)]
pub enum ProgramFault {
    /// The number, from 1, of the first line that is not valid, or 1 if there is no line.
    #[error("bad line {0}")]
    BadLine(usize),
    /// The input has more bytes than the program takes. No line was looked at.
    #[error("input too long")]
    TooLong,
    #[error("out of memory")]
    OutOfMemory,
    #[error("input or output failed")]
    Io,
}

impl ProgramFault {
    /// The exit status.
    pub fn status(&self) -> u8
        ensures { result ≡ status_of self.now }
    {
        match self {
            ProgramFault::BadLine(_) | ProgramFault::TooLong => 2,
            ProgramFault::OutOfMemory | ProgramFault::Io => 1,
        }
    }
}

impl From<AllocError> for ProgramFault {
    ghost from_gives = { λ _ fault. fault ≡ OutOfMemory };

    fn from(_e: AllocError) -> ProgramFault {
        ProgramFault::OutOfMemory
    }
}

impl<T: Drop> From<AllocFailed<T>> for ProgramFault {
    ghost from_gives = { λ _ fault. fault ≡ OutOfMemory };

    fn from(_e: AllocFailed<T>) -> ProgramFault {
        ProgramFault::OutOfMemory
    }
}

impl From<io::Error> for ProgramFault {
    ghost from_gives = { IsFaultOf };

    fn from(e: io::Error) -> ProgramFault {
        if e.kind() == ErrorKind::OutOfMemory {
            ProgramFault::OutOfMemory
        } else {
            ProgramFault::Io
        }
    }
}

/// All of the input, which is to be shorter than the limit, in bytes.
pub fn read_below<R: Read>(
    alloc: Global,
    input: &mut R,
    limit: usize,
) -> Result<Vec<u8>, ProgramFault>
    ensures all { IfOk result (λ bytes. IfSome (R.remaining input.old) (λ text. bytes.items ≡ text)) }
    ensures below { IfOk result (λ bytes. length bytes.items < limit) }
    ensures too_long { result ≡ Err TooLong → IfSome (R.remaining input.old) (λ text. limit ≤ length text) }
    ensures no_line { (line : ℕ) → result ≢ Err (BadLine line) }
{
    let mut bytes = Vec::new(alloc);
    input.take(limit as u64).read_to_end(&mut bytes)?;
    if bytes.len() >= limit {
        return Err(ProgramFault::TooLong);
    }
    Ok(bytes)
}

/// Reports how the program ended: returns the exit status, and writes an error as one line of `messages`. The status is the same if
/// that line cannot be written.
pub fn finish<W: Write>(answer: Result<(), ProgramFault>, messages: &mut W) -> u8
    ensures done { OnOk answer ((result ≡ 0) × (messages.new ≡ messages.old)) }
    ensures fault { IfErr answer (λ fault. result ≡ status_of fault) }
{
    let Err(fault) = answer else {
        return 0;
    };
    let _ = writeln!(messages, "{fault}");
    fault.status()
}

/// The text of a line, whose last byte is a newline. `None` if it is not, or if the bytes are not UTF-8.
pub fn text_of(line: &[u8]) -> Option<&str> {
    match line.split_last() {
        Some((b'\n', text)) => std::str::from_utf8(text).ok(),
        _ => None,
    }
}
