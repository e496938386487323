//! Whole runs over datagrams in RED with retransmissions: a history keeps the written datagrams, and answers requests (RFC 4588).

ghost use Rattle.std.specs.Prelude.{◌≡◌, ◌++◌, ℕ, [], List, drop, map, IfOk, IfErr, OnOk, OnErr, All};
ghost use Rattle.codec_payload_base.specs.declared.error.PacketError.TheVariants.{OutOfMemory};
ghost use Rattle.codec_payload_payloader.specs.Sending.{sample_of};
ghost use Rattle.codec_payload_datagram_runs.specs.OwnRedHistoryRuns.{AsksInRedHistoryRun, AsksInRedHistoryStep};
ghost use Rattle.codec_payload_datagram_runs.specs.OwnRuns.{AsksForEnds, AsksForUnit, AsksPacketizer};
ghost use Rattle.codec_payload_datagram_runs.specs.RedHistoryReleases.{KeepsPromisesInRedWithHistory, ReleasesInRedWithHistory, RepeatsWritten};
ghost use Rattle.codec_payload_datagram_runs.specs.RedHistoryRuns.{DoesRedHistoryStep, RedHistoryRuns, RedHistoryStops, RedHistoryStopsAt, begins_in_red_with, red_resending_of};

use crate::history_run::{HistoryStep, keep_all, resend};
use crate::red_run::{RedLink, RedRun, deliver_whole, do_red_step};
use crate::run::no_results;
use codec_payload_base::error::PacketError;
use codec_payload_base::wire::ToPayload;
use codec_payload_codec::codec::{Depacketizer, Packetizer};
use codec_payload_sending_history::retransmission::{History, Resent};
use std::alloc::Global;

/// The results of the steps.
#[derive(Debug, Drop)]
pub struct RedHistoryRun {
    /// The datagrams of the sender, those that the writer wrote, and the results of sends, deliveries and pops. `DeliverAgain` has a
    /// receipt as `Deliver` has.
    pub red: RedRun,
    /// All datagrams that the history wrote, in order.
    pub retransmissions: Vec<Vec<u8>>,
    /// The answer of each `Resend` step, in order.
    pub answers: Vec<Resent>,
}

/// A sender with its writer, the history of the written datagrams, and the receiver of the stream.
#[derive(Drop)]
pub struct RedHistoryLink<P: Packetizer, D: Depacketizer> {
    pub red: RedLink<P, D>,
    pub history: History,
}

/// Executes the steps in order: sends samples, puts their datagrams in RED, delivers written datagrams, resends packets by the
/// history, delivers retransmissions, and pops.
///
/// The history keeps each written datagram when it is written, so a retransmission has the RED payload. It is delivered any number
/// of times, and at any time after it was written. Everything else is as in `run_datagrams_in_red`.
///
/// # Errors
///
/// `OutOfMemory` ends the run, also if memory ran out for a redundant block. Sender, writer, history and receiver are as the
/// failed call left them, and the results of earlier steps are discarded. If the history has no memory for a written datagram, it
/// has kept the datagrams before it.
pub fn run_in_red_with_history<P: Packetizer, D: Depacketizer>(
    alloc: Global,
    link: &mut RedHistoryLink<P, D>,
    samples: &[ToPayload],
    steps: &[HistoryStep],
) -> Result<RedHistoryRun, PacketError>
    ensures runs { IfOk result (λ run. RedHistoryRuns (map sample_of samples.now) steps.now (begins_in_red_with link.old.red.sender link.old.red.writer link.old.history link.old.red.receiver) (red_resending_of link.new.red.sender link.new.red.writer link.new.history link.new.red.receiver run)) }
    // The popped units, if datagrams and retransmissions arrive within the windows of the receiver.
    ensures units { IfOk result (λ run. ReleasesInRedWithHistory (map sample_of samples.now) steps.now (begins_in_red_with link.old.red.sender link.old.red.writer link.old.history link.old.red.receiver) (red_resending_of link.new.red.sender link.new.red.writer link.new.history link.new.red.receiver run)) }
    // Pop by pop: what each delivery pushes, what the receiver holds, which units are contiguous, and that none is lost silently.
    ensures promises { IfOk result (λ run. KeepsPromisesInRedWithHistory (map sample_of samples.now) steps.now (begins_in_red_with link.old.red.sender link.old.red.writer link.old.history link.old.red.receiver) (red_resending_of link.new.red.sender link.new.red.writer link.new.history link.new.red.receiver run)) }
    // Which written datagram each retransmission repeats.
    ensures repeats { IfOk result (λ run. RepeatsWritten (map sample_of samples.now) steps.now (begins_in_red_with link.old.red.sender link.old.red.writer link.old.history link.old.red.receiver) (red_resending_of link.new.red.sender link.new.red.writer link.new.history link.new.red.receiver run)) }
    ensures stops { OnErr result (RedHistoryStops (map sample_of samples.now) steps.now (begins_in_red_with link.old.red.sender link.old.red.writer link.old.history link.old.red.receiver) link.new.red.sender link.new.red.writer link.new.history link.new.red.receiver) }
    ensures fault { IfErr result (λ fault. fault ≡ OutOfMemory) }
    // Custom codecs are asked in each step, as `specs/OwnRedHistoryRuns.antt` says.
    ensures own { IfOk result (λ run. AsksInRedHistoryRun (AsksPacketizer P.state P.packetize_step P.marker_step P.marks_spurts) (AsksForEnds D.is_head D.is_tail) (AsksForUnit D.state D.depacketize_step)
        (map sample_of samples.now) steps.now (begins_in_red_with link.old.red.sender link.old.red.writer link.old.history link.old.red.receiver) (red_resending_of link.new.red.sender link.new.red.writer link.new.history link.new.red.receiver run)) }
{
    let mut run = RedHistoryRun {
        red: RedRun {
            run: no_results(alloc),
            written: Vec::new(alloc),
        },
        retransmissions: Vec::new(alloc),
        answers: Vec::new(alloc),
    };
    for step in steps {
        do_red_history_step(alloc, link, samples, *step, &mut run)?;
    }
    Ok(run)
}

/// Executes one step, and records its result.
fn do_red_history_step<P: Packetizer, D: Depacketizer>(
    alloc: Global,
    link: &mut RedHistoryLink<P, D>,
    samples: &[ToPayload],
    step: HistoryStep,
    run: &mut RedHistoryRun,
) -> Result<(), PacketError>
    ensures ok { OnOk result (DoesRedHistoryStep (map sample_of samples.now) step (red_resending_of link.old.red.sender link.old.red.writer link.old.history link.old.red.receiver run.old) (red_resending_of link.new.red.sender link.new.red.writer link.new.history link.new.red.receiver run.new)) }
    ensures err { OnErr result (RedHistoryStopsAt (map sample_of samples.now) step (red_resending_of link.old.red.sender link.old.red.writer link.old.history link.old.red.receiver run.old) link.new.red.sender link.new.red.writer link.new.history link.new.red.receiver) }
    ensures fault { IfErr result (λ fault. fault ≡ OutOfMemory) }
    ensures own { OnOk result (AsksInRedHistoryStep (AsksPacketizer P.state P.packetize_step P.marker_step P.marks_spurts) (AsksForEnds D.is_head D.is_tail) (AsksForUnit D.state D.depacketize_step)
        (map sample_of samples.now) step (red_resending_of link.old.red.sender link.old.red.writer link.old.history link.old.red.receiver run.old) (red_resending_of link.new.red.sender link.new.red.writer link.new.history link.new.red.receiver run.new)) }
{
    match step {
        HistoryStep::Plain(step) => {
            let written = run.red.written.len();
            do_red_step(alloc, &mut link.red, samples, step, &mut run.red)?;
            keep_all(&mut link.history, &run.red.written[written..])
        }
        HistoryStep::Resend { number, now } => {
            run.answers.reserve(1)?;
            let answer = resend(
                alloc,
                &mut link.history,
                now,
                number,
                &mut run.retransmissions,
            )?;
            run.answers.push(answer).unwrap();
            Ok(())
        }
        HistoryStep::DeliverAgain {
            retransmission,
            now,
        } => {
            let Some(bytes) = run.retransmissions.get(retransmission) else {
                return Ok(());
            };
            run.red.run.receipts.reserve(1)?;
            let receipt = deliver_whole(&mut link.red.receiver, now, bytes)?;
            run.red.run.receipts.push(receipt).unwrap();
            Ok(())
        }
    }
}
