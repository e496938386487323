//! Packet status chunks.

ghost use Rattle.std.specs.Prelude.{◌≡◌, ℕ, ◌+◌, ◌*◌, ◌/◌, ◌%◌, ◌^◌, ◌<◌, ◌≤◌, ◌∷◌, [], ◌++◌, length, OnOk, IsTrue, take, replicate, get_or};
ghost use Rattle.codec_payload_feedback_congestion.specs.Chunks.{unpacked, chunk_symbols, padded, are_below, all_below, symbols_at, Chunked};
ghost use Rattle.codec_payload_feedback_congestion.specs.Feedback.{Gives};

use crate::transport::{TransportError, TransportFault};
use std::alloc::AllocError;

/// The longest run of a chunk.
const LONGEST_RUN: usize = 8_191;

/// Appends the first `count` symbols of `rest` to the digits of `word`, filled up with 0.
fn pack(base: u16, count: u8, word: u16, rest: &[u8]) -> u16
    requires positive { 1 ≤ base }
    requires below { IsTrue (are_below base count rest.now) }
    requires room { (word + 1) * base ^ count ≤ 65536 }
    ensures digits { (j m : ℕ) → m ≡ j + count → unpacked base m result ≡ unpacked base j word ++ padded count rest.now }
    ensures least { word * base ^ count ≤ result }
    ensures most { result < (word + 1) * base ^ count }
{
    if count == 0 {
        return word;
    }
    match rest {
        [] => pack(base, count - 1, word * base, rest),
        [symbol, others @ ..] => pack(base, count - 1, word * base + u16::from(*symbol), others),
    }
}

/// Whether the first `count` symbols are below the base.
fn are_below(base: u8, count: u8, symbols: &[u8]) -> bool
    ensures { result ≡ are_below base count symbols.now }
{
    if count == 0 {
        return true;
    }
    match symbols {
        [] => true,
        [symbol, others @ ..] => *symbol < base && are_below(base, count - 1, others),
    }
}

/// How many symbols at the front are the first one, up to the longest run.
fn run_length(symbols: &[u8]) -> usize
    requires { 1 ≤ length symbols.now }
    ensures some { 1 ≤ result }
    ensures within { result ≤ length symbols.now }
    ensures short { result ≤ 8191 }
    ensures same { take result symbols.now ≡ replicate result (get_or symbols.now 0 0) }
{
    let first = symbols[0];
    let mut count = 1;
    while count < symbols.len() && count < LONGEST_RUN && symbols[count] == first {
        count += 1;
    }
    count
}

/// Whether a run is taken: it is all that is left, or longer than a vector, or longer than the vector of two bits that it would begin.
fn takes_run(symbols: &[u8], run: usize) -> bool
    ensures { IsTrue result → run < length symbols.now → 7 ≤ run }
{
    run == symbols.len()
        || run >= 14
        || (run >= 7 && run < symbols.len() && (symbols[0] == 2 || symbols[run] == 2))
}

/// The chunk of the symbols at the front, and how many it has. As libwebrtc chooses: the chunk takes as many as one can.
fn chunk(symbols: &[u8]) -> (u16, usize)
    requires some { 1 ≤ length symbols.now }
    requires below { IsTrue (all_below 4 symbols.now) }
    ensures some { 1 ≤ result.1 }
    ensures within { result.1 ≤ length symbols.now }
    ensures far { result.1 < length symbols.now → 7 ≤ result.1 }
    ensures says { take (length symbols.now) (chunk_symbols result.0) ≡ take result.1 symbols.now }
{
    let run = run_length(symbols);
    if takes_run(symbols, run) {
        return (u16::from(symbols[0]) * 8_192 + run as u16, run);
    }
    if symbols.len() > 7 && are_below(2, 14, symbols) {
        return (pack(2, 14, 2, symbols), symbols.len().min(14));
    }
    (pack(4, 7, 3, symbols), symbols.len().min(7))
}

/// Appends chunks of the symbols.
pub(crate) fn write_chunks(symbols: &[u8], out: &mut Vec<u8>) -> Result<(), AllocError>
    requires { IsTrue (all_below 4 symbols.now) }
    ensures { OnOk result (Chunked out.old.items out.new.items symbols.now) }
{
    let mut rest = symbols;
    while !rest.is_empty() {
        let (word, count) = chunk(rest);
        out.extend_from_slice(&word.to_be_bytes())?;
        let (_, others) = rest.split_at(count);
        rest = others;
    }
    Ok(())
}

/// Appends the last `count` digits of a word, the most significant first.
fn push_digits(base: u16, count: u8, word: u16, out: &mut Vec<u8>) -> Result<(), AllocError>
    requires least { 1 ≤ base }
    requires most { base ≤ 256 }
    ensures { OnOk result (out.new.items ≡ out.old.items ++ unpacked base count word) }
{
    if count == 0 {
        return Ok(());
    }
    push_digits(base, count - 1, word / base, out)?;
    out.push((word % base) as u8)?;
    Ok(())
}

/// Appends the symbols of a chunk.
#[tactic(auto, unfolding(crate::specs::Chunks::chunk_symbols))]
fn push_symbols(word: u16, symbols: &mut Vec<u8>) -> Result<(), AllocError>
    ensures { OnOk result (symbols.new.items ≡ symbols.old.items ++ chunk_symbols word) }
{
    if word < 32_768 {
        let len = symbols.len() + usize::from(word % 8_192);
        return symbols.resize(len, (word / 8_192) as u8);
    }
    if word < 49_152 {
        return push_digits(2, 14, word, symbols);
    }
    push_digits(4, 7, word, symbols)
}

/// Reads `count` symbols from chunks into `symbols`, which is empty. Returns the bytes after the chunks.
pub(crate) fn read_symbols<'a>(
    count: usize,
    bytes: &'a [u8],
    symbols: &mut Vec<u8>,
) -> Result<&'a [u8], TransportError>
    requires { symbols.old.items ≡ [] }
    ensures { Gives (λ rest. (symbols.new.items, rest.now)) result (symbols_at count bytes.now) }
{
    let mut rest = bytes;
    while symbols.len() < count {
        let [high, low, others @ ..] = rest else {
            return Err(TransportError::Fault(TransportFault::ChunksTooShort));
        };
        let Ok(()) = push_symbols(u16::from_be_bytes([*high, *low]), symbols) else {
            return Err(TransportError::OutOfMemory);
        };
        symbols.truncate(count);
        rest = others;
    }
    Ok(rest)
}
