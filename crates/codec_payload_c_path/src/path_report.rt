//! The path to a viewer: which packets a feedback reports lost, packets that are taken back, and what the path knows.

ghost use Rattle.std.specs.Prelude.{◌≡◌, ◌≢◌, length, nat_le};
ghost use Rattle.codec_payload_base.specs.Answers.{seen};
ghost use Rattle.codec_payload_feedback_congestion.specs.Feedback.{feedback_at};
ghost use Rattle.codec_payload_c_path.specs.Bytes.{filled};
ghost use Rattle.codec_payload_c_path.specs.PathReports.{FindsLost, NamesLost, TakesBack, estimate_told, trial_rate_of};

use crate::object::CallerPath;
use crate::path::fault_status;
use crate::status;
use codec_payload_bandwidth_estimate::rate::Trial;
use codec_payload_bandwidth_path::path::{PathStatistics, ViewerPath};
use codec_payload_feedback_congestion::transport::{TransportError, read_transport_feedback};
use std::alloc::Global;

/// What a path knows, for statistics.
#[repr(C)]
#[derive(Clone, Copy)]
pub struct PathEstimateInfo {
    /// The estimate of the rate that the path carries, in bits per second.
    pub estimate: u64,
    /// What is left of it for first transmissions, in bits per second.
    pub carries: u64,
    /// How long packets stand in the queue of the path, in microseconds.
    pub standing: u64,
    /// The usual losses, in thousandths.
    pub usual_losses: u64,
    /// The rate that the trial under way goes to, in bits per second; 0 without one.
    pub trial_rate: u64,
    /// Whether a trial is under way.
    pub has_trial: bool,
    /// Whether a queue is being emptied.
    pub is_draining: bool,
}

/// Returns the rate that a trial goes to, or 0.
fn trial_rate_of(trial: Option<Trial>) -> u64
    ensures { result ≡ trial_rate_of trial }
{
    match trial {
        Some(trial) => trial.to,
        None => 0,
    }
}

/// Describes what a path knows for C.
pub fn estimate_told(statistics: PathStatistics) -> PathEstimateInfo
    ensures { result ≡ estimate_told statistics }
{
    PathEstimateInfo {
        estimate: statistics.estimate,
        carries: statistics.carries,
        standing: statistics.standing,
        usual_losses: statistics.usual_losses,
        trial_rate: trial_rate_of(statistics.trial),
        has_trial: statistics.trial.is_some(),
        is_draining: statistics.is_draining,
    }
}

/// Takes back the latest packet that left, if it has this number.
pub fn take_back(caller: &mut CallerPath, number: u16) -> u32
    ensures { TakesBack number caller.old.path result caller.new.path }
{
    if caller.path.take_back(number) {
        status::OK
    } else {
        status::NONE
    }
}

/// Copies the given numbers to the front of the output buffer, if it is large enough.
fn fill_numbers(numbers: &mut [u16], given: &[u16]) -> bool
    ensures enough { result ≡ nat_le (length given.now) (length numbers.old) }
    ensures written { numbers.new ≡ filled given.now numbers.old }
{
    if numbers.len() < given.len() {
        return false;
    }
    numbers[..given.len()].copy_from_slice(given);
    true
}

/// Returns the numbers of the packets that the control information of a transport-wide feedback reports lost, or the status that refuses
/// it.
fn lost_numbers(alloc: Global, path: &ViewerPath, control: &[u8]) -> Result<Vec<u16>, u32>
    ensures { FindsLost control.now path.now (seen (λ lost. lost.items) result) }
{
    match read_transport_feedback(alloc, control) {
        Ok(feedback) => {
            let mut lost = Vec::new(alloc);
            match path.append_lost(&feedback, &mut lost) {
                Ok(()) => Ok(lost),
                Err(_) => Err(status::OUT_OF_MEMORY),
            }
        }
        Err(TransportError::Fault(fault)) => Err(fault_status(fault)),
        Err(TransportError::OutOfMemory) => Err(status::OUT_OF_MEMORY),
    }
}

/// Writes the numbers of the packets that the control information of a transport-wide feedback reports lost.
pub fn lost(
    alloc: Global,
    path: &ViewerPath,
    control: &[u8],
    numbers: &mut [u16],
    count: &mut usize,
) -> u32
    ensures names { NamesLost control.now path.now result (record { before = numbers.old; bytes = numbers.new; size_before = count.old; size = count.new }) }
    ensures untouched { result ≢ 0 → numbers.new ≡ numbers.old }
    ensures unchanged { result ≢ 0 → result ≢ 33 → count.new ≡ count.old }
{
    match lost_numbers(alloc, path, control) {
        Ok(lost) => {
            *count = lost.len();
            if fill_numbers(numbers, lost.as_slice()) {
                status::OK
            } else {
                status::TOO_SMALL
            }
        }
        Err(status) => status,
    }
}
