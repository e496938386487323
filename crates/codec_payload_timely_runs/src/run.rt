//! Runs over datagrams whose contracts say when units come.

ghost use Rattle.std.specs.Prelude.{◌≡◌, map, IfOk, IfErr, OnErr};
ghost use Rattle.codec_payload_base.specs.declared.error.PacketError.TheVariants.{OutOfMemory};
ghost use Rattle.codec_payload_payloader.specs.Sending.{sample_of};
ghost use Rattle.codec_payload_datagram_runs.specs.HistoryRuns.{HistoryRuns, HistoryStops, begins_with, resending_of};
ghost use Rattle.codec_payload_datagram_runs.specs.RedRuns.{RedRuns, RedStops, begins_in_red, red_wire_of};
ghost use Rattle.codec_payload_datagram_runs.specs.WireRuns.{Runs, Stops, begins, wire_of};
ghost use Rattle.codec_payload_timely_runs.specs.RedTimes.{KeepsTimesInRed};
ghost use Rattle.codec_payload_timely_runs.specs.TimelyRuns.{KeepsTimesWithHistory, KeepsTimesWithinWindows};

use codec_payload_base::error::PacketError;
use codec_payload_base::wire::ToPayload;
use codec_payload_codec::codec::{Depacketizer, Packetizer};
use codec_payload_datagram_runs::history_run::{HistoryRun, HistoryStep, Link, run_with_history};
use codec_payload_datagram_runs::red_run::{RedLink, RedRun, run_datagrams_in_red};
use codec_payload_datagram_runs::run::{DatagramRun, DatagramStep, run_datagrams};
use codec_payload_receiver::receiver::Receiver;
use codec_payload_sending::sender::Sender;
use std::alloc::Global;

/// Does the same as [`run_datagrams`].
///
/// # Errors
///
/// Those of [`run_datagrams`].
pub fn run_in_time<P: Packetizer, D: Depacketizer>(
    alloc: Global,
    sender: &mut Sender<P>,
    receiver: &mut Receiver<D>,
    samples: &[ToPayload],
    steps: &[DatagramStep],
) -> Result<DatagramRun, PacketError>
    ensures runs { IfOk result (λ run. Runs (map sample_of samples.now) steps.now (begins sender.old receiver.old) (wire_of sender.new receiver.new run)) }
    // When units come: if pops come until `None` after each delivery and at each deadline, and without that premise.
    ensures times { IfOk result (λ run. KeepsTimesWithinWindows (map sample_of samples.now) steps.now (begins sender.old receiver.old) (wire_of sender.new receiver.new run)) }
    ensures stops { OnErr result (Stops (map sample_of samples.now) steps.now (begins sender.old receiver.old) sender.new receiver.new) }
    ensures fault { IfErr result (λ fault. fault ≡ OutOfMemory) }
{
    run_datagrams(alloc, sender, receiver, samples, steps)
}

/// Does the same as [`run_with_history`].
///
/// # Errors
///
/// Those of [`run_with_history`].
pub fn run_with_history_in_time<P: Packetizer, D: Depacketizer>(
    alloc: Global,
    link: &mut Link<P, D>,
    samples: &[ToPayload],
    steps: &[HistoryStep],
) -> Result<HistoryRun, PacketError>
    ensures runs { IfOk result (λ run. HistoryRuns (map sample_of samples.now) steps.now (begins_with link.old.sender link.old.history link.old.receiver) (resending_of link.new.sender link.new.history link.new.receiver run)) }
    // When units come, as in a run without a history that delivers the same packets.
    ensures times { IfOk result (λ run. KeepsTimesWithHistory (map sample_of samples.now) steps.now (begins_with link.old.sender link.old.history link.old.receiver) (resending_of link.new.sender link.new.history link.new.receiver run)) }
    ensures stops { OnErr result (HistoryStops (map sample_of samples.now) steps.now (begins_with link.old.sender link.old.history link.old.receiver) link.new.sender link.new.history link.new.receiver) }
    ensures fault { IfErr result (λ fault. fault ≡ OutOfMemory) }
{
    run_with_history(alloc, link, samples, steps)
}

/// Does the same as [`run_datagrams_in_red`].
///
/// # Errors
///
/// Those of [`run_datagrams_in_red`].
pub fn run_in_red_in_time<P: Packetizer, D: Depacketizer>(
    alloc: Global,
    link: &mut RedLink<P, D>,
    samples: &[ToPayload],
    steps: &[DatagramStep],
) -> Result<RedRun, PacketError>
    ensures runs { IfOk result (λ run. RedRuns (map sample_of samples.now) steps.now (begins_in_red link.old.sender link.old.writer link.old.receiver) (red_wire_of link.new.sender link.new.writer link.new.receiver run)) }
    // When units come: a block arrives with the datagram that brings it.
    ensures times { IfOk result (λ run. KeepsTimesInRed (map sample_of samples.now) steps.now (begins_in_red link.old.sender link.old.writer link.old.receiver) (red_wire_of link.new.sender link.new.writer link.new.receiver run)) }
    ensures stops { OnErr result (RedStops (map sample_of samples.now) steps.now (begins_in_red link.old.sender link.old.writer link.old.receiver) link.new.sender link.new.writer link.new.receiver) }
    ensures fault { IfErr result (λ fault. fault ≡ OutOfMemory) }
{
    run_datagrams_in_red(alloc, link, samples, steps)
}
