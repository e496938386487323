//! Whole runs over datagrams with retransmissions: a history keeps the sent datagrams, and answers requests (RFC 4588).

ghost use Rattle.std.specs.Prelude.{◌≡◌, ◌≢◌, ◌++◌, ℕ, [], List, drop, map, IfOk, IfErr, OnOk, OnErr, All};
ghost use Rattle.codec_payload_base.specs.declared.error.PacketError.TheVariants.{OutOfMemory};
ghost use Rattle.codec_payload_sending_history.specs.Histories.{Resends};
ghost use Rattle.codec_payload_sending_history.specs.declared.retransmission.Resent.{Resent as Answer};
ghost use Rattle.codec_payload_payloader.specs.Sending.{sample_of};
ghost use Rattle.codec_payload_datagram_runs.specs.HistoryReleases.{KeepsPromisesWithHistory, ReleasesWithHistory, RepeatsDatagrams};
ghost use Rattle.codec_payload_datagram_runs.specs.HistoryRuns.{DoesHistoryStep, HistoryRuns, HistoryStops, HistoryStopsAt, IsPacket, KeepsAll, KeepsSome, begins_with, resending_of, written};
ghost use Rattle.codec_payload_datagram_runs.specs.OwnHistoryRuns.{AsksInHistoryRun, AsksInHistoryStep};
ghost use Rattle.codec_payload_datagram_runs.specs.OwnRuns.{AsksForEnds, AsksForUnit, AsksPacketizer};
ghost use Rattle.codec_payload_datagram_runs.specs.WireRuns.{bytes_in};

use crate::run::{DatagramRun, DatagramStep, deliver, do_step, no_results};
use codec_payload_base::error::PacketError;
use codec_payload_base::wire::{Ticks, ToPayload};
use codec_payload_codec::codec::{Depacketizer, Packetizer};
use codec_payload_receiver::receiver::Receiver;
use codec_payload_sending::sender::Sender;
use codec_payload_sending_history::retransmission::{History, KeepError, Resent};
use std::alloc::Global;

/// One step of a run with retransmissions.
#[derive(Clone, Copy, Debug, PartialEq, Eq)]
pub enum HistoryStep {
    /// A step of a run without a history. The history keeps each datagram that the step sends.
    Plain(DatagramStep),
    /// Requests the packet with this sequence number from the history at this time.
    Resend { number: u16, now: Ticks },
    /// Passes the retransmission with this index, from 0, among the retransmissions so far, to the receiver at this time. Skipped
    /// if there is no such retransmission.
    DeliverAgain { retransmission: usize, now: Ticks },
}

/// The results of the steps.
#[derive(Debug, Drop)]
pub struct HistoryRun {
    /// The sent datagrams, and the results of sends, deliveries and pops. `DeliverAgain` has a receipt as `Deliver` has.
    pub run: DatagramRun,
    /// All datagrams that the history wrote, in order.
    pub retransmissions: Vec<Vec<u8>>,
    /// The answer of each `Resend` step, in order.
    pub answers: Vec<Resent>,
}

/// A sender with the history of its datagrams, and the receiver of its stream.
#[derive(Drop)]
pub struct Link<P: Packetizer, D: Depacketizer> {
    pub sender: Sender<P>,
    pub history: History,
    pub receiver: Receiver<D>,
}

/// Executes the steps in order: sends samples, delivers datagrams, resends packets by the history, delivers retransmissions, and
/// pops.
///
/// The history keeps each datagram when it is sent. A retransmission is delivered any number of times, and at any time after it
/// was written. Everything else is as in `run_datagrams`.
///
/// # Errors
///
/// `OutOfMemory` ends the run: sender, history and receiver are as the failed call left them, and the results of earlier steps
/// are discarded. If the history has no memory for a sent datagram, it has kept the datagrams before it.
pub fn run_with_history<P: Packetizer, D: Depacketizer>(
    alloc: Global,
    link: &mut Link<P, D>,
    samples: &[ToPayload],
    steps: &[HistoryStep],
) -> Result<HistoryRun, PacketError>
    ensures runs { IfOk result (λ run. HistoryRuns (map sample_of samples.now) steps.now (begins_with link.old.sender link.old.history link.old.receiver) (resending_of link.new.sender link.new.history link.new.receiver run)) }
    // The popped units, if datagrams and retransmissions arrive within the windows of the receiver.
    ensures units { IfOk result (λ run. ReleasesWithHistory (map sample_of samples.now) steps.now (begins_with link.old.sender link.old.history link.old.receiver) (resending_of link.new.sender link.new.history link.new.receiver run)) }
    // Pop by pop: what the receiver holds, which units are contiguous, and that none is lost silently.
    ensures promises { IfOk result (λ run. KeepsPromisesWithHistory (map sample_of samples.now) steps.now (begins_with link.old.sender link.old.history link.old.receiver) (resending_of link.new.sender link.new.history link.new.receiver run)) }
    // Which datagram each retransmission repeats.
    ensures repeats { IfOk result (λ run. RepeatsDatagrams (map sample_of samples.now) steps.now (begins_with link.old.sender link.old.history link.old.receiver) (resending_of link.new.sender link.new.history link.new.receiver run)) }
    ensures stops { OnErr result (HistoryStops (map sample_of samples.now) steps.now (begins_with link.old.sender link.old.history link.old.receiver) link.new.sender link.new.history link.new.receiver) }
    ensures fault { IfErr result (λ fault. fault ≡ OutOfMemory) }
    // Custom codecs are asked in each step, as `specs/OwnHistoryRuns.antt` says.
    ensures own { IfOk result (λ run. AsksInHistoryRun (AsksPacketizer P.state P.packetize_step P.marker_step P.marks_spurts) (AsksForEnds D.is_head D.is_tail) (AsksForUnit D.state D.depacketize_step)
        (map sample_of samples.now) steps.now (begins_with link.old.sender link.old.history link.old.receiver) (resending_of link.new.sender link.new.history link.new.receiver run)) }
{
    let mut run = HistoryRun {
        run: no_results(alloc),
        retransmissions: Vec::new(alloc),
        answers: Vec::new(alloc),
    };
    for step in steps {
        do_history_step(alloc, link, samples, *step, &mut run)?;
    }
    Ok(run)
}

/// Executes one step, and records its result.
fn do_history_step<P: Packetizer, D: Depacketizer>(
    alloc: Global,
    link: &mut Link<P, D>,
    samples: &[ToPayload],
    step: HistoryStep,
    run: &mut HistoryRun,
) -> Result<(), PacketError>
    ensures ok { OnOk result (DoesHistoryStep (map sample_of samples.now) step (resending_of link.old.sender link.old.history link.old.receiver run.old) (resending_of link.new.sender link.new.history link.new.receiver run.new)) }
    ensures err { OnErr result (HistoryStopsAt (map sample_of samples.now) step (resending_of link.old.sender link.old.history link.old.receiver run.old) link.new.sender link.new.history link.new.receiver) }
    ensures fault { IfErr result (λ fault. fault ≡ OutOfMemory) }
    ensures own { OnOk result (AsksInHistoryStep (AsksPacketizer P.state P.packetize_step P.marker_step P.marks_spurts) (AsksForEnds D.is_head D.is_tail) (AsksForUnit D.state D.depacketize_step)
        (map sample_of samples.now) step (resending_of link.old.sender link.old.history link.old.receiver run.old) (resending_of link.new.sender link.new.history link.new.receiver run.new)) }
{
    match step {
        HistoryStep::Plain(step) => {
            let sent = run.run.datagrams.len();
            do_step(
                &mut link.sender,
                &mut link.receiver,
                samples,
                step,
                &mut run.run,
            )?;
            keep_all(&mut link.history, &run.run.datagrams[sent..])
        }
        HistoryStep::Resend { number, now } => {
            run.answers.reserve(1)?;
            let answer = resend(
                alloc,
                &mut link.history,
                now,
                number,
                &mut run.retransmissions,
            )?;
            run.answers.push(answer).unwrap();
            Ok(())
        }
        HistoryStep::DeliverAgain {
            retransmission,
            now,
        } => {
            let Some(bytes) = run.retransmissions.get(retransmission) else {
                return Ok(());
            };
            run.run.receipts.reserve(1)?;
            let receipt = deliver(&mut link.receiver, now, bytes)?;
            run.run.receipts.push(receipt).unwrap();
            Ok(())
        }
    }
}

/// Keeps datagrams that a sender wrote.
pub(crate) fn keep_all(history: &mut History, datagrams: &[Vec<u8>]) -> Result<(), PacketError>
    requires { All IsPacket (bytes_in datagrams.now) }
    ensures ok { OnOk result (KeepsAll history.old (bytes_in datagrams.now) history.new) }
    ensures err { OnErr result (KeepsSome history.old (bytes_in datagrams.now) history.new) }
    ensures fault { IfErr result (λ fault. fault ≡ OutOfMemory) }
{
    for datagram in datagrams {
        match history.keep(datagram) {
            Ok(_) => {}
            Err(KeepError::OutOfMemory) => return Err(PacketError::OutOfMemory),
            Err(KeepError::Rtp(_)) => unreachable!(),
        }
    }
    Ok(())
}

/// Requests a packet, and appends its retransmission, if the history wrote one.
pub(crate) fn resend(
    alloc: Global,
    history: &mut History,
    now: Ticks,
    number: u16,
    retransmissions: &mut Vec<Vec<u8>>,
) -> Result<Resent, PacketError>
    ensures ok { IfOk result (λ answer. (bytes : List ℕ) × Resends now number history.old [] answer bytes history.new × (bytes_in retransmissions.new.items ≡ bytes_in retransmissions.old.items ++ written answer bytes)) }
    ensures err { OnErr result (history.new ≡ history.old) }
    ensures fault { IfErr result (λ fault. fault ≡ OutOfMemory) }
{
    retransmissions.reserve(1)?;
    let mut bytes = Vec::new(alloc);
    let answer = history.resend(now, number, &mut bytes)?;
    if answer == Resent::Written {
        retransmissions.push(bytes).unwrap();
    }
    Ok(answer)
}
