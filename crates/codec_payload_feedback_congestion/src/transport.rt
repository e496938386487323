//! Transport-wide feedback, read and written.

ghost use Rattle.std.specs.Prelude.{◌≡◌, ℕ, ◌+◌, ◌*◌, ◌/◌, ◌%◌, ◌<◌, ◌≤◌, ◌∷◌, [], ◌++◌, ◌-◌, length, replicate, OnOk, OnErr};
ghost use Rattle.codec_payload_base.specs.Answers.{seen};
ghost use Rattle.codec_payload_feedback_congestion.specs.Feedback.{AppendsReported, Fit, Gives, IsBody, body_at, feedback_at, only_statuses, status_at, statuses_at, reported_of, after_large, deltas_of, delta_bytes, delta_for, fitting, symbol_between, symbol_for, symbols_of, time_for, feedback_header};

use crate::chunks::{read_symbols, write_chunks};
use std::alloc::{AllocError, Global};
use thiserror::Error;

/// Why bytes are not a transport-wide feedback: the first fault in reading order.
#[derive(Clone, Copy, Debug, PartialEq, Eq, Error)]
pub enum TransportFault {
    /// Fewer than 8 bytes are left for the header.
    #[error("transport-wide feedback is shorter than its header")]
    HeaderTooShort,
    /// The chunks end before each packet has a status.
    #[error("transport-wide feedback ends inside its chunks")]
    ChunksTooShort,
    /// A status is 3, which is reserved.
    #[error("transport-wide feedback has a reserved status")]
    ReservedStatus,
    /// The bytes end before the delta of a packet that arrived.
    #[error("transport-wide feedback ends inside its deltas")]
    DeltasTooShort,
}

/// Why a transport-wide feedback was not read.
#[derive(Clone, Copy, Debug, PartialEq, Eq, Error)]
pub enum TransportError {
    #[error("out of memory")]
    OutOfMemory,
    /// The bytes are not a transport-wide feedback.
    #[error("{0}")]
    Fault(TransportFault),
}

/// A transport-wide feedback that was read.
#[derive(Debug, Drop)]
pub struct TransportFeedback {
    /// The 16 bits of the first number.
    pub base: u16,
    /// The reference time, in quarters of a millisecond modulo 2^32: a multiple of 256.
    pub reference: u32,
    /// The number of the feedback, modulo 256.
    pub counter: u8,
    /// Of each number from the first on when the packet arrived, if it did, in quarters of a millisecond modulo 2^32.
    pub statuses: Vec<Option<u32>>,
}

/// The symbol of the delta between two times.
#[tactic(auto, unfolding(crate::specs::Feedback::symbol_between))]
fn symbol_between(from: u32, to: u32) -> u8
    ensures { result ≡ symbol_between from to }
{
    let delta = to.wrapping_sub(from);
    if delta < 256 {
        return 1;
    }
    if delta < 32_768 || 4_294_934_528 <= delta {
        return 2;
    }
    3
}

/// The symbol of a packet.
pub(crate) fn symbol_for(from: u32, status: Option<u32>) -> u8
    ensures { result ≡ symbol_for from status }
{
    match status {
        None => 0,
        Some(to) => symbol_between(from, to),
    }
}

/// The time for the delta of the next packet.
pub(crate) fn time_for(from: u32, status: Option<u32>) -> u32
    ensures { result ≡ time_for from status }
{
    status.unwrap_or(from)
}

/// Appends the delta between two times.
#[tactic(auto, unfolding(crate::specs::Feedback::delta_bytes))]
fn write_between(from: u32, to: u32, out: &mut Vec<u8>) -> Result<(), AllocError>
    ensures { OnOk result (out.new.items ≡ out.old.items ++ delta_bytes from to) }
{
    let delta = to.wrapping_sub(from);
    if delta < 256 {
        return out.extend_from_slice(&[delta as u8]);
    }
    let low = (delta % 65_536) as u16;
    out.extend_from_slice(&low.to_be_bytes())
}

/// Appends the delta of a packet, if it arrived.
fn write_delta(from: u32, status: Option<u32>, out: &mut Vec<u8>) -> Result<(), AllocError>
    ensures { OnOk result (out.new.items ≡ out.old.items ++ delta_for from status) }
{
    match status {
        None => Ok(()),
        Some(to) => write_between(from, to, out),
    }
}

/// Appends the symbol of each packet.
fn put_symbols(from: u32, statuses: &[Option<u32>], symbols: &mut Vec<u8>) -> Result<(), AllocError>
    ensures { OnOk result (symbols.new.items ≡ symbols.old.items ++ symbols_of from statuses.now) }
{
    let mut time = from;
    for status in statuses {
        symbols.push(symbol_for(time, *status))?;
        time = time_for(time, *status);
    }
    Ok(())
}

/// Appends the delta of each packet that arrived.
fn put_deltas(from: u32, statuses: &[Option<u32>], out: &mut Vec<u8>) -> Result<(), AllocError>
    ensures { OnOk result (out.new.items ≡ out.old.items ++ deltas_of from statuses.now) }
{
    let mut time = from;
    for status in statuses {
        write_delta(time, *status, out)?;
        time = time_for(time, *status);
    }
    Ok(())
}

/// Returns how many of the first `most` packets one feedback can report: up to the first whose delta does not fit.
pub(crate) fn fitting(most: usize, from: u32, statuses: &[Option<u32>]) -> usize
    ensures { result ≡ fitting most from statuses.now }
{
    let mut count = 0;
    let mut time = from;
    let mut rest = statuses;
    while let [status, others @ ..] = rest {
        if count >= most || symbol_for(time, *status) > 2 {
            return count;
        }
        time = time_for(time, *status);
        rest = others;
        count += 1;
    }
    count
}

/// The first eight bytes.
fn feedback_header(base: u16, count: u16, word: u32) -> [u8; 8]
    ensures { result ≡ feedback_header base count word }
{
    let [b1, b0] = base.to_be_bytes();
    let [c1, c0] = count.to_be_bytes();
    let [r2, r1, r0, k] = word.to_be_bytes();
    [b1, b0, c1, c0, r2, r1, r0, k]
}

/// Appends zeros up to whole words.
fn fill(out: &mut Vec<u8>) -> Result<(), AllocError>
    ensures { OnOk result (out.new.items ≡ out.old.items ++ replicate ((4 - length out.old.items % 4) % 4) 0) }
{
    let len = out.len();
    let zeros = (4 - len % 4) % 4;
    out.resize(len + zeros, 0)
}

/// Appends the chunks and the deltas behind the header, and fills up to whole words.
fn write_body(
    alloc: Global,
    reference: u32,
    statuses: &[Option<u32>],
    body: &mut Vec<u8>,
) -> Result<(), AllocError>
    requires { Fit reference statuses.now }
    ensures { OnOk result (IsBody body.old.items body.new.items reference statuses.now) }
{
    let mut symbols = Vec::new(alloc);
    symbols.reserve(statuses.len())?;
    put_symbols(reference, statuses, &mut symbols)?;
    write_chunks(&symbols, body)?;
    put_deltas(reference, statuses, body)?;
    fill(body)?;
    Ok(())
}

/// Appends the feedback control information: when each packet arrived, if it did, from number `base` on. `reference` and the
/// times are in quarters of a millisecond, modulo 2^32. `counter` is the number of this feedback, modulo 256. If memory runs out,
/// nothing changes.
pub fn write_transport_feedback(
    alloc: Global,
    base: u16,
    reference: u32,
    counter: u8,
    statuses: &[Option<u32>],
    out: &mut Vec<u8>,
) -> Result<(), AllocError>
    requires whole { reference % 256 ≡ 0 }
    requires fit { Fit reference statuses.now }
    requires few { length statuses.now ≤ 65535 }
    ensures ok { OnOk result (AppendsReported out.old.items out.new.items (record { base = base; reference = reference; counter = counter; statuses = statuses.now })) }
    ensures err { OnErr result (out.new.items ≡ out.old.items) }
{
    let mut bytes = Vec::new(alloc);
    bytes.reserve(16 + 2 * statuses.len())?;
    bytes.extend_from_slice(&feedback_header(
        base,
        statuses.len() as u16,
        reference + u32::from(counter),
    ))?;
    write_body(alloc, reference, statuses, &mut bytes)?;
    out.extend_from_slice(&bytes)?;
    Ok(())
}

/// Reads what a symbol says: when the packet arrived, the time for the next delta, and the bytes after the delta.
#[tactic(auto, unfolding(crate::specs::Feedback::status_at))]
fn read_status(
    time: u32,
    symbol: u8,
    bytes: &[u8],
) -> Result<(Option<u32>, u32, &[u8]), TransportFault>
    ensures { seen (λ x. (x.0, x.1, x.2.now)) result ≡ status_at time symbol bytes.now }
{
    if symbol == 0 {
        return Ok((None, time, bytes));
    }
    if symbol == 1 {
        let [delta, rest @ ..] = bytes else {
            return Err(TransportFault::DeltasTooShort);
        };
        let after = time.wrapping_add(u32::from(*delta));
        return Ok((Some(after), after, rest));
    }
    if symbol == 2 {
        let [high, low, rest @ ..] = bytes else {
            return Err(TransportFault::DeltasTooShort);
        };
        let after = after_large(time, u16::from_be_bytes([*high, *low]));
        return Ok((Some(after), after, rest));
    }
    Err(TransportFault::ReservedStatus)
}

/// The time after a delta of 16 bits in two's complement.
fn after_large(time: u32, delta: u16) -> u32
    ensures { result ≡ after_large time delta }
{
    if delta < 32_768 {
        time.wrapping_add(u32::from(delta))
    } else {
        time.wrapping_add(u32::from(delta) + 4_294_901_760)
    }
}

/// Reads what each symbol says into `statuses`, which is empty.
fn read_statuses(
    reference: u32,
    symbols: &[u8],
    bytes: &[u8],
    statuses: &mut Vec<Option<u32>>,
) -> Result<(), TransportError>
    requires { statuses.old.items ≡ [] }
    ensures { Gives (λ done. statuses.new.items) result (only_statuses (statuses_at reference symbols.now bytes.now)) }
{
    let mut time = reference;
    let mut rest = bytes;
    for symbol in symbols {
        let (status, after, others) = match read_status(time, *symbol, rest) {
            Ok(step) => step,
            Err(fault) => return Err(TransportError::Fault(fault)),
        };
        let Ok(()) = statuses.push(status) else {
            return Err(TransportError::OutOfMemory);
        };
        time = after;
        rest = others;
    }
    Ok(())
}

/// Reads what is behind the header.
fn read_body(
    alloc: Global,
    base: u16,
    count: u16,
    word: u32,
    bytes: &[u8],
) -> Result<TransportFeedback, TransportError>
    ensures { Gives reported_of result (body_at base count word bytes.now) }
{
    let reference = 256 * (word / 256);
    let mut symbols = Vec::new(alloc);
    let rest = match read_symbols(usize::from(count), bytes, &mut symbols) {
        Ok(rest) => rest,
        Err(error) => return Err(error),
    };
    let mut statuses = Vec::new(alloc);
    if let Err(error) = read_statuses(reference, &symbols, rest, &mut statuses) {
        return Err(error);
    }
    Ok(TransportFeedback {
        base,
        reference,
        counter: (word % 256) as u8,
        statuses,
    })
}

/// Reads feedback control information. Bytes behind the last delta are not read. It needs memory for up to 65,535 statuses,
/// whatever the number of bytes.
///
/// # Errors
///
/// The first fault in reading order, or out of memory.
#[tactic(auto, unfolding(crate::specs::Feedback::feedback_at))]
pub fn read_transport_feedback(
    alloc: Global,
    bytes: &[u8],
) -> Result<TransportFeedback, TransportError>
    ensures { Gives reported_of result (feedback_at bytes.now) }
{
    let [b1, b0, c1, c0, r2, r1, r0, k, rest @ ..] = bytes else {
        return Err(TransportError::Fault(TransportFault::HeaderTooShort));
    };
    read_body(
        alloc,
        u16::from_be_bytes([*b1, *b0]),
        u16::from_be_bytes([*c1, *c0]),
        u32::from_be_bytes([*r2, *r1, *r0, *k]),
        rest,
    )
}
