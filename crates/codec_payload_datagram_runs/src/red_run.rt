//! Whole runs over datagrams in RED: a writer puts the sent datagrams in RED (RFC 2198), and the receiver stores their blocks.

ghost use Rattle.std.specs.Prelude.{◌≡◌, ◌≢◌, ◌⊎◌, ◌++◌, ℕ, List, [], Result, map, IfOk, IfErr, OnOk, OnErr, All};
ghost use Rattle.codec_payload_base.specs.declared.error.PacketError.TheVariants.{OutOfMemory};
ghost use Rattle.codec_payload_payloader.specs.Sending.{sample_of};
ghost use Rattle.codec_payload_receiver.specs.Sessions.{ReceivesBytes};
ghost use Rattle.codec_payload_datagram_runs.specs.HistoryRuns.{IsPacket};
ghost use Rattle.codec_payload_datagram_runs.specs.OwnRedRuns.{AsksInRedRun, AsksInRedStep};
ghost use Rattle.codec_payload_datagram_runs.specs.OwnRuns.{AsksForEnds, AsksForUnit, AsksPacketizer};
ghost use Rattle.codec_payload_datagram_runs.specs.RedLogs.{KeepsPromisesInRed};
ghost use Rattle.codec_payload_datagram_runs.specs.RedReleases.{ReleasesInRed};
ghost use Rattle.codec_payload_datagram_runs.specs.RedRuns.{DeliversWhole, DoesRedStep, RedRuns, RedStops, RedStopsAt, StopsDelivering, WritesAll, WritesSome, begins_in_red, red_wire_of};
ghost use Rattle.codec_payload_datagram_runs.specs.WireRuns.{bytes_in};

use crate::run::{DatagramRun, DatagramStep, deliver, do_step, no_results};
use codec_payload_base::error::PacketError;
use codec_payload_base::wire::{Ticks, ToPayload};
use codec_payload_codec::codec::{Depacketizer, Packetizer};
use codec_payload_receiver::outcome::Outcome;
use codec_payload_receiver::receiver::{ReceiveError, Receiver};
use codec_payload_sending::sender::Sender;
use codec_payload_sending_red::red_writer::{RedWriteError, RedWriter};
use std::alloc::Global;

/// The results of the steps.
#[derive(Debug, Drop)]
pub struct RedRun {
    /// The datagrams of the sender, before they were put in RED, and the results of sends, deliveries and pops.
    pub run: DatagramRun,
    /// The datagrams that the writer wrote, in order: one for each datagram of the sender.
    pub written: Vec<Vec<u8>>,
}

/// A sender with the writer of its datagrams, and the receiver of its stream.
#[derive(Drop)]
pub struct RedLink<P: Packetizer, D: Depacketizer> {
    pub sender: Sender<P>,
    pub writer: RedWriter,
    pub receiver: Receiver<D>,
}

/// Executes the steps in order: sends samples, puts their datagrams in RED, delivers written datagrams, and pops.
///
/// The writer writes each datagram when it is sent. A `Deliver` step names one of the written datagrams by its index. Everything
/// else is as in `run_datagrams`.
///
/// # Errors
///
/// `OutOfMemory` ends the run, also if memory ran out for a redundant block. Sender, writer and receiver are as the failed call
/// left them, and the results of earlier steps are discarded.
pub fn run_datagrams_in_red<P: Packetizer, D: Depacketizer>(
    alloc: Global,
    link: &mut RedLink<P, D>,
    samples: &[ToPayload],
    steps: &[DatagramStep],
) -> Result<RedRun, PacketError>
    ensures runs { IfOk result (λ run. RedRuns (map sample_of samples.now) steps.now (begins_in_red link.old.sender link.old.writer link.old.receiver) (red_wire_of link.new.sender link.new.writer link.new.receiver run)) }
    // The popped units, if the delivered datagrams arrive within the windows of the receiver.
    ensures units { IfOk result (λ run. ReleasesInRed (map sample_of samples.now) steps.now (begins_in_red link.old.sender link.old.writer link.old.receiver) (red_wire_of link.new.sender link.new.writer link.new.receiver run)) }
    // Pop by pop: what each delivery pushes, what the receiver holds, which units are contiguous, and that none is lost silently.
    ensures promises { IfOk result (λ run. KeepsPromisesInRed (map sample_of samples.now) steps.now (begins_in_red link.old.sender link.old.writer link.old.receiver) (red_wire_of link.new.sender link.new.writer link.new.receiver run)) }
    ensures stops { OnErr result (RedStops (map sample_of samples.now) steps.now (begins_in_red link.old.sender link.old.writer link.old.receiver) link.new.sender link.new.writer link.new.receiver) }
    ensures fault { IfErr result (λ fault. fault ≡ OutOfMemory) }
    // Custom codecs are asked in each step, as `specs/OwnRedRuns.antt` says.
    ensures own { IfOk result (λ run. AsksInRedRun (AsksPacketizer P.state P.packetize_step P.marker_step P.marks_spurts) (AsksForEnds D.is_head D.is_tail) (AsksForUnit D.state D.depacketize_step)
        (map sample_of samples.now) steps.now (begins_in_red link.old.sender link.old.writer link.old.receiver) (red_wire_of link.new.sender link.new.writer link.new.receiver run)) }
{
    let mut run = RedRun {
        run: no_results(alloc),
        written: Vec::new(alloc),
    };
    for step in steps {
        do_red_step(alloc, link, samples, *step, &mut run)?;
    }
    Ok(run)
}

/// Executes one step, and records its result.
pub(crate) fn do_red_step<P: Packetizer, D: Depacketizer>(
    alloc: Global,
    link: &mut RedLink<P, D>,
    samples: &[ToPayload],
    step: DatagramStep,
    run: &mut RedRun,
) -> Result<(), PacketError>
    ensures ok { OnOk result (DoesRedStep (map sample_of samples.now) step (red_wire_of link.old.sender link.old.writer link.old.receiver run.old) (red_wire_of link.new.sender link.new.writer link.new.receiver run.new)) }
    ensures err { OnErr result (RedStopsAt (map sample_of samples.now) step (red_wire_of link.old.sender link.old.writer link.old.receiver run.old) link.new.sender link.new.writer link.new.receiver) }
    ensures fault { IfErr result (λ fault. fault ≡ OutOfMemory) }
    ensures own { OnOk result (AsksInRedStep (AsksPacketizer P.state P.packetize_step P.marker_step P.marks_spurts) (AsksForEnds D.is_head D.is_tail) (AsksForUnit D.state D.depacketize_step)
        (map sample_of samples.now) step (red_wire_of link.old.sender link.old.writer link.old.receiver run.old) (red_wire_of link.new.sender link.new.writer link.new.receiver run.new)) }
{
    match step {
        DatagramStep::Deliver { datagram, now } => {
            let Some(bytes) = run.written.get(datagram) else {
                return Ok(());
            };
            run.run.receipts.reserve(1)?;
            let receipt = deliver_whole(&mut link.receiver, now, bytes)?;
            run.run.receipts.push(receipt).unwrap();
            Ok(())
        }
        _ => {
            let sent = run.run.datagrams.len();
            do_step(
                &mut link.sender,
                &mut link.receiver,
                samples,
                step,
                &mut run.run,
            )?;
            write_all(
                alloc,
                &mut link.writer,
                &run.run.datagrams[sent..],
                &mut run.written,
            )
        }
    }
}

/// Passes a datagram to the receiver.
///
/// # Errors
///
/// `OutOfMemory`: memory ran out for the datagram or for one of its blocks; the datagram then has no receipt.
pub(crate) fn deliver_whole<D: Depacketizer>(
    receiver: &mut Receiver<D>,
    now: Ticks,
    bytes: &[u8],
) -> Result<Result<Outcome, ReceiveError>, PacketError>
    ensures ok { IfOk result (λ receipt. DeliversWhole now bytes.now receiver.old receipt receiver.new) }
    ensures err { OnErr result (StopsDelivering now bytes.now receiver.old receiver.new) }
    ensures fault { IfErr result (λ fault. fault ≡ OutOfMemory) }
    ensures own { AsksForEnds D.is_head D.is_tail receiver.old.packets.buffer receiver.new.packets.buffer }
{
    match deliver(receiver, now, bytes)? {
        Err(ReceiveError::BlocksOutOfMemory) => Err(PacketError::OutOfMemory),
        receipt => Ok(receipt),
    }
}

/// Writes datagrams of a sender in RED, and appends the results.
fn write_all(
    alloc: Global,
    writer: &mut RedWriter,
    datagrams: &[Vec<u8>],
    written: &mut Vec<Vec<u8>>,
) -> Result<(), PacketError>
    requires { All IsPacket (bytes_in datagrams.now) }
    ensures ok { OnOk result ((outs : List (List ℕ)) × WritesAll writer.old (bytes_in datagrams.now) outs writer.new × (bytes_in written.new.items ≡ bytes_in written.old.items ++ outs)) }
    ensures err { OnErr result (WritesSome writer.old (bytes_in datagrams.now) writer.new) }
    ensures fault { IfErr result (λ fault. fault ≡ OutOfMemory) }
{
    for datagram in datagrams {
        written.reserve(1)?;
        let mut out = Vec::new(alloc);
        match writer.write(datagram, &mut out) {
            Ok(()) => {}
            Err(RedWriteError::OutOfMemory) => return Err(PacketError::OutOfMemory),
            Err(RedWriteError::Rtp(_)) => unreachable!(),
        }
        written.push(out).unwrap();
    }
    Ok(())
}
