//! Whole runs over datagrams: samples are sent, some of their datagrams are delivered, in any order, and units are popped.

ghost use Rattle.std.specs.Prelude.{◌≡◌, ◌≢◌, ◌<◌, ◌^◌, ◌++◌, ◌∷◌, [], List, length, map, IfOk, IfErr, OnOk, OnErr, Option, Result};
ghost use Rattle.std.specs.Result.{result_err};
ghost use Rattle.codec_payload_base.specs.declared.error.PacketError.TheVariants.{OutOfMemory};
ghost use Rattle.codec_payload_payloader.specs.Sending.{sample_of};
ghost use Rattle.codec_payload_sending.specs.Senders.{Refuses};
ghost use Rattle.codec_payload_jitter.specs.declared.outcome.Outcome.{Outcome as Told};
ghost use Rattle.codec_payload_receiver.specs.declared.receiver.ReceiveError.{ReceiveError as Refusal};
ghost use Rattle.codec_payload_receiver.specs.declared.receiver.ReceiveError.TheVariants as refusals;
ghost use Rattle.codec_payload_buffer_runs.specs.Schedule.{Answer};
ghost use Rattle.codec_payload_receiver.specs.Sessions.{ReceivesBytes};
ghost use Rattle.codec_payload_datagram_runs.specs.OwnRuns.{AsksForEnds, AsksForUnit, AsksInRun, AsksInStep, AsksPacketizer};
ghost use Rattle.codec_payload_datagram_runs.specs.Releases.{ReleasesWithinWindows};
ghost use Rattle.codec_payload_datagram_runs.specs.WireLogs.{KeepsPromisesWithinWindows};
ghost use Rattle.codec_payload_datagram_runs.specs.WireRuns.{DoesStep, PopsUnit, Runs, SendsIt, SendsOrRefuses, Stops, StopsAt, StopsSending, begins, bytes_in, sent_sample, wire_of};
ghost use Rattle.codec_payload_datagram_runs.specs.declared.run.SentSample.{SentSample as Entry};

use codec_payload_base::error::PacketError;
use codec_payload_base::wire::{Ticks, ToPayload};
use codec_payload_buffer::buffer::Depacketized;
use codec_payload_codec::codec::{Depacketizer, Packetizer};
use codec_payload_receiver::outcome::Outcome;
use codec_payload_receiver::pops::Popped;
use codec_payload_receiver::receiver::{ReceiveError, Receiver};
use codec_payload_sending::sender::{Sample, Sender};
use std::alloc::Global;

/// One step of a run over datagrams.
#[derive(Clone, Copy, Debug, PartialEq, Eq)]
pub enum DatagramStep {
    /// Sends the sample with this index. Skipped if there is no such sample.
    Send(usize),
    /// Passes the datagram with this index, from 0, among the datagrams sent so far, to the receiver at this time. Skipped if
    /// there is no such datagram.
    Deliver { datagram: usize, now: Ticks },
    /// Pops at this time.
    Pop { now: Ticks },
    /// Ends the stream: see [`Receiver::finish`].
    Finish,
}

/// The results of the steps.
#[derive(Debug, Drop)]
pub struct DatagramRun {
    /// All sent datagrams, in order.
    pub datagrams: Vec<Vec<u8>>,
    /// One entry for each `Send` step that names a sample, in order.
    pub sends: Vec<SentSample>,
    /// The result for the datagram of each `Deliver` step that names one, in order.
    pub receipts: Vec<Result<Outcome, ReceiveError>>,
    /// The answer of each `Pop` step, in order: a unit, also one that is too large for the receiver, or the fault of a refused
    /// frame.
    pub pops: Vec<Option<Result<Depacketized, PacketError>>>,
}

/// The result of a `Send` step.
#[derive(Debug, Drop)]
pub struct SentSample {
    /// How many datagrams it sent.
    pub count: usize,
    /// The reason why nothing was sent, if the sample was refused.
    pub fault: Option<PacketError>,
}

/// Executes the steps in order: sends samples, delivers datagrams that were sent, and pops.
///
/// If the packetizer refuses a sample, the entry of the `Send` step has the error, and the run continues. Memory for an entry
/// is allocated before its step begins, so each popped unit gets an entry. Each datagram is copied once, out of the sender's
/// memory.
///
/// # Errors
///
/// `OutOfMemory` ends the run: the sender and the receiver are as the failed call left them, and the results of earlier steps
/// are discarded.
pub fn run_datagrams<P: Packetizer, D: Depacketizer>(
    alloc: Global,
    sender: &mut Sender<P>,
    receiver: &mut Receiver<D>,
    samples: &[ToPayload],
    steps: &[DatagramStep],
) -> Result<DatagramRun, PacketError>
    ensures runs { IfOk result (λ run. Runs (map sample_of samples.now) steps.now (begins sender.old receiver.old) (wire_of sender.new receiver.new run)) }
    // The popped units, if the delivered datagrams arrive within the windows of the receiver.
    ensures units { IfOk result (λ run. ReleasesWithinWindows (map sample_of samples.now) steps.now (begins sender.old receiver.old) (wire_of sender.new receiver.new run)) }
    // Pop by pop: what the receiver holds, which units are contiguous, and that none is lost silently.
    ensures promises { IfOk result (λ run. KeepsPromisesWithinWindows (map sample_of samples.now) steps.now (begins sender.old receiver.old) (wire_of sender.new receiver.new run)) }
    ensures stops { OnErr result (Stops (map sample_of samples.now) steps.now (begins sender.old receiver.old) sender.new receiver.new) }
    ensures fault { IfErr result (λ fault. fault ≡ OutOfMemory) }
    // Custom codecs are asked in each step, as `specs/OwnRuns.antt` says.
    ensures own { IfOk result (λ run. AsksInRun (AsksPacketizer P.state P.packetize_step P.marker_step P.marks_spurts) (AsksForEnds D.is_head D.is_tail) (AsksForUnit D.state D.depacketize_step)
        (map sample_of samples.now) steps.now (begins sender.old receiver.old) (wire_of sender.new receiver.new run)) }
{
    let mut run = no_results(alloc);
    for step in steps {
        do_step(sender, receiver, samples, *step, &mut run)?;
    }
    Ok(run)
}

/// The results before any step.
pub(crate) fn no_results(alloc: Global) -> DatagramRun
    ensures datagrams { result.datagrams.items ≡ [] }
    ensures sends { result.sends.items ≡ [] }
    ensures receipts { result.receipts.items ≡ [] }
    ensures pops { result.pops.items ≡ [] }
{
    DatagramRun {
        datagrams: Vec::new(alloc),
        sends: Vec::new(alloc),
        receipts: Vec::new(alloc),
        pops: Vec::new(alloc),
    }
}

/// Executes one step, and records its result.
pub(crate) fn do_step<P: Packetizer, D: Depacketizer>(
    sender: &mut Sender<P>,
    receiver: &mut Receiver<D>,
    samples: &[ToPayload],
    step: DatagramStep,
    run: &mut DatagramRun,
) -> Result<(), PacketError>
    ensures ok { OnOk result (DoesStep (map sample_of samples.now) step (wire_of sender.old receiver.old run.old) (wire_of sender.new receiver.new run.new)) }
    ensures err { OnErr result (StopsAt (map sample_of samples.now) step (wire_of sender.old receiver.old run.old) sender.new receiver.new) }
    ensures fault { IfErr result (λ fault. fault ≡ OutOfMemory) }
    ensures own { OnOk result (AsksInStep (AsksPacketizer P.state P.packetize_step P.marker_step P.marks_spurts) (AsksForEnds D.is_head D.is_tail) (AsksForUnit D.state D.depacketize_step)
        (map sample_of samples.now) step (wire_of sender.old receiver.old run.old) (wire_of sender.new receiver.new run.new)) }
{
    match step {
        DatagramStep::Send(sample) => {
            let Some(sample) = samples.get(sample) else {
                return Ok(());
            };
            run.sends.reserve(1)?;
            let alloc = *run.sends.allocator();
            let entry = send_step(alloc, sender, sample, &mut run.datagrams)?;
            run.sends.push(entry).unwrap();
            Ok(())
        }
        DatagramStep::Deliver { datagram, now } => {
            let Some(bytes) = run.datagrams.get(datagram) else {
                return Ok(());
            };
            run.receipts.reserve(1)?;
            let receipt = deliver(receiver, now, bytes)?;
            run.receipts.push(receipt).unwrap();
            Ok(())
        }
        DatagramStep::Pop { now } => {
            run.pops.reserve(1)?;
            let answer = pop_at(receiver, now)?;
            run.pops.push(answer).unwrap();
            Ok(())
        }
        DatagramStep::Finish => {
            receiver.finish()?;
            Ok(())
        }
    }
}

/// Sends a sample, and appends copies of its datagrams.
fn send_step<P: Packetizer>(
    alloc: Global,
    sender: &mut Sender<P>,
    sample: &ToPayload,
    datagrams: &mut Vec<Vec<u8>>,
) -> Result<SentSample, PacketError>
    ensures ok { IfOk result (λ entry. SendsIt (sample_of sample.now) sender.old (bytes_in datagrams.old.items) entry sender.new (bytes_in datagrams.new.items)) }
    ensures err { OnErr result (StopsSending (sent_sample (sample_of sample.now)) sender.old sender.new) }
    ensures fault { IfErr result (λ fault. fault ≡ OutOfMemory) }
    ensures own { IfOk result (λ entry. AsksPacketizer P.state P.packetize_step P.marker_step P.marks_spurts (sent_sample (sample_of sample.now)) sender.old entry.fault sender.new) }
{
    let fault = send(sender, sample)?;
    copy_datagrams(alloc, sender, datagrams)?;
    Ok(SentSample {
        count: sender.len(),
        fault,
    })
}

/// Sends a sample. Returns the error of the packetizer, if it refused the sample, as `Ok(Some(..))`.
///
/// # Errors
///
/// `OutOfMemory`: memory ran out for the sample.
fn send<P: Packetizer>(
    sender: &mut Sender<P>,
    sample: &ToPayload,
) -> Result<Option<PacketError>, PacketError>
    ensures ok { IfOk result (λ fault. SendsOrRefuses (sent_sample (sample_of sample.now)) sender.old fault sender.new) }
    ensures err { OnErr result (Refuses sender.old (sent_sample (sample_of sample.now)) OutOfMemory sender.new) }
    ensures fault { IfErr result (λ fault. fault ≡ OutOfMemory) }
    ensures own { IfOk result (λ fault. AsksPacketizer P.state P.packetize_step P.marker_step P.marks_spurts (sent_sample (sample_of sample.now)) sender.old fault sender.new) }
{
    let sample = Sample {
        rtp_time: sample.rtp_time,
        bytes: &sample.bytes,
        start_of_talk_spurt: sample.start_of_talk_spurt,
        ext_vals: sample.ext_vals,
    };
    match sender.send(&sample) {
        Ok(()) => Ok(None),
        Err(PacketError::OutOfMemory) => Err(PacketError::OutOfMemory),
        Err(fault) => Ok(Some(fault)),
    }
}

/// Appends copies of the datagrams of the latest sample.
fn copy_datagrams<P: Packetizer>(
    alloc: Global,
    sender: &Sender<P>,
    datagrams: &mut Vec<Vec<u8>>,
) -> Result<(), PacketError>
    ensures ok { OnOk result (bytes_in datagrams.new.items ≡ bytes_in datagrams.old.items ++ sender.now.datagrams) }
    ensures few { length (bytes_in datagrams.new.items) < 2 ^ 63 }
    ensures fault { IfErr result (λ fault. fault ≡ OutOfMemory) }
{
    for place in 0..sender.len() {
        datagrams.push(Vec::from_slice(alloc, sender.datagram(place))?)?;
    }
    Ok(())
}

/// Passes a datagram to the receiver.
///
/// # Errors
///
/// `OutOfMemory`: memory ran out for the datagram, which then has no receipt.
pub(crate) fn deliver<D: Depacketizer>(
    receiver: &mut Receiver<D>,
    now: Ticks,
    bytes: &[u8],
) -> Result<Result<Outcome, ReceiveError>, PacketError>
    ensures ok { IfOk result (λ receipt. (receipt ≢ Result.Err refusals.OutOfMemory) × ReceivesBytes now bytes.now receiver.old receipt receiver.new) }
    ensures err { OnErr result (ReceivesBytes now bytes.now receiver.old (Result.Err refusals.OutOfMemory) receiver.new) }
    ensures fault { IfErr result (λ fault. fault ≡ OutOfMemory) }
    ensures own { AsksForEnds D.is_head D.is_tail receiver.old.packets.buffer receiver.new.packets.buffer }
{
    match receiver.receive(now, bytes) {
        Err(ReceiveError::OutOfMemory) => Err(PacketError::OutOfMemory),
        receipt => Ok(receipt),
    }
}

/// Pops.
///
/// # Errors
///
/// `OutOfMemory`: memory ran out for the unit; the step then has no answer.
fn pop_at<D: Depacketizer>(
    receiver: &mut Receiver<D>,
    now: Ticks,
) -> Result<Option<Result<Depacketized, PacketError>>, PacketError>
    ensures ok { IfOk result (λ answer. (answer ≢ Option.Some (Result.Err OutOfMemory)) × PopsUnit now receiver.old answer receiver.new) }
    ensures err { OnErr result (PopsUnit now receiver.old (Option.Some (Result.Err OutOfMemory)) receiver.new) }
    ensures fault { IfErr result (λ fault. fault ≡ OutOfMemory) }
    ensures own { IfOk result (λ answer. AsksForUnit D.state D.depacketize_step now.0 receiver.old answer) }
{
    match receiver.pop(now) {
        Some(Ok(Popped::Unit(unit))) => Ok(Some(Ok(unit))),
        Some(Ok(Popped::TooLarge(unit))) => Ok(Some(Ok(unit))),
        Some(Ok(Popped::Refused(fault))) => Ok(Some(Err(fault))),
        Some(Err(_)) => Err(PacketError::OutOfMemory),
        None => Ok(None),
    }
}
