//! Feedback about the arrivals of a transport.

ghost use Rattle.std.specs.Prelude.{◌≡◌, ◌+◌, ◌*◌, ◌≤◌, ◌<◌, length, IfOk, OnOk, OnErr};
ghost use Rattle.codec_payload_feedback_congestion.specs.Arrivals.{after_reported};
ghost use Rattle.codec_payload_feedback_congestion.specs.Feedback.{AppendsReported};
ghost use Rattle.codec_payload_feedback_congestion.specs.Report.{count_reported, most_reported, reference_of, report};

use crate::arrivals::ArrivalLog;
use crate::transport::{fitting, write_transport_feedback};
use std::alloc::{AllocError, Global};

/// The first time, down to a multiple of 64 ms.
fn reference_of(slots: &[Option<u32>]) -> u32
    ensures { result ≡ reference_of slots.now }
{
    let mut rest = slots;
    while let [slot, others @ ..] = rest {
        if let Some(time) = slot {
            return 256 * (*time / 256);
        }
        rest = others;
    }
    0
}

/// Returns how many numbers one feedback may report, so that its control information has at most `size` bytes: 475 for 1,100 bytes.
/// A `size` above 65,535 counts as 65,535; below 15 no number fits.
pub fn most_reported(size: usize) -> usize
    ensures value { result ≡ most_reported size }
    ensures bounded { 13 ≤ size → 16 * result + 89 ≤ 7 * size }
{
    (7 * size.min(65_535)).saturating_sub(89) / 16
}

/// Appends the feedback control information about the numbers of a log that were not reported, and returns how many it reports: each
/// exactly once, with its time or as missing, up to `most` numbers ([`most_reported`]), and up to the first whose delta does not fit.
/// `counter` is the number of the feedback, modulo 256. Pass the result to [`ArrivalLog::mark_reported`] once the feedback is sent.
///
/// # Errors
///
/// Out of memory: `out` is unchanged.
pub fn append_report(
    alloc: Global,
    log: &ArrivalLog,
    counter: u8,
    most: usize,
    out: &mut Vec<u8>,
) -> Result<usize, AllocError>
    ensures reported { OnOk result (AppendsReported out.old.items out.new.items (report most counter log.now)) }
    ensures count { IfOk result (λ count. count ≡ count_reported most log.now) }
    ensures within { IfOk result (λ count. log.now.reported + count ≤ length log.now.slots) }
    // A packet has room for it.
    ensures short { OnOk result (length out.new.items ≤ length out.old.items + 74911) }
    // Something is reported, if there is something.
    ensures some { IfOk result (λ count. 1 ≤ most → log.now.reported < length log.now.slots → 1 ≤ count) }
    ensures unchanged { OnErr result (out.new.items ≡ out.old.items) }
{
    let unreported = log.unreported();
    let reference = reference_of(unreported);
    let count = fitting(most, reference, unreported);
    let (reported, _) = unreported.split_at(count);
    write_transport_feedback(
        alloc,
        log.first_unreported(),
        reference,
        counter,
        reported,
        out,
    )?;
    Ok(count)
}

/// Appends the same as [`append_report`], and counts it as reported. Call it until the log has nothing unreported.
///
/// # Errors
///
/// Out of memory: nothing changed.
pub fn take_report(
    alloc: Global,
    log: &mut ArrivalLog,
    counter: u8,
    most: usize,
    out: &mut Vec<u8>,
) -> Result<(), AllocError>
    ensures reported { OnOk result (AppendsReported out.old.items out.new.items (report most counter log.old)) }
    ensures after { OnOk result (log.new ≡ after_reported (count_reported most log.old) log.old) }
    // Something is reported, if there is something.
    ensures some { OnOk result (1 ≤ most → log.old.reported < length log.old.slots → log.old.reported < log.new.reported) }
    ensures err { OnErr result (log.new ≡ log.old) }
    ensures unchanged { OnErr result (out.new.items ≡ out.old.items) }
{
    let count = append_report(alloc, log, counter, most, out)?;
    log.mark_reported(count);
    Ok(())
}
