//! Whole runs over two hops: a sender's datagrams come to a forwarder, and what the forwarder writes comes to a viewer's receiver.

ghost use Rattle.std.specs.Prelude.{◌≡◌, ◌<◌, ◌^◌, ◌++◌, ℕ, [], List, length, map, true, IfOk, IfErr, OnOk, OnErr, Result};
ghost use Rattle.codec_payload_base.specs.declared.error.PacketError.TheVariants.{OutOfMemory};
ghost use Rattle.codec_payload_payloader.specs.Sending.{sample_of};
ghost use Rattle.codec_payload_receiver.specs.declared.receiver.ReceiveError.TheVariants as refusals;
ghost use Rattle.codec_payload_receiver.specs.Sessions.{ReceivesBytes};
ghost use Rattle.codec_payload_rtp.specs.RtpValues.{packet_of};
ghost use Rattle.codec_payload_sending_forward.specs.Forwarding.{Forwards};
ghost use Rattle.codec_payload_datagram_runs.specs.WireRuns.{Delivers, DoesStep, bytes_in, wire_of};
ghost use Rattle.codec_payload_forward_runs.specs.ForwardReleases.{ForwardsPackets, KeepsPromisesForwarded, ReleasesForwarded};
ghost use Rattle.codec_payload_forward_runs.specs.ForwardRuns.{DoesForwardStep, ForwardRuns, ForwardStops, ForwardStopsAt, StopsOrIsDone, begins_forwarding, hops_of, is_plain, written_by};

use codec_payload_base::error::PacketError;
use codec_payload_base::wire::{Ticks, ToPayload};
use codec_payload_codec::codec::{Depacketizer, Packetizer};
use codec_payload_datagram_runs::run::{DatagramRun, DatagramStep, run_datagrams};
use codec_payload_receiver::outcome::Outcome;
use codec_payload_receiver::receiver::{ReceiveError, Receiver};
use codec_payload_rtp::rtp::RtpPacket;
use codec_payload_sending::sender::Sender;
use codec_payload_sending_forward::forwarder::{Forwarded, Forwarder};
use std::alloc::{AllocError, Global};

/// One step of a run with a forwarder.
#[derive(Clone, Copy, Debug, PartialEq, Eq)]
pub enum ForwardStep {
    /// Sends the sample with this index. Skipped if there is no such sample.
    Send(usize),
    /// Passes the datagram with this index, from 0, among the datagrams sent so far, to the forwarder at this time. Skipped if there
    /// is no such datagram.
    Forward { datagram: usize, now: u64 },
    /// Passes the datagram with this index, from 0, among those that the forwarder wrote so far, to the viewer's receiver at this
    /// time. Skipped if there is no such datagram.
    Deliver { written: usize, now: Ticks },
    /// Pops from the viewer's receiver at this time.
    Pop { now: Ticks },
    /// Ends the viewer's stream: see [`Receiver::finish`].
    Finish,
}

/// The results of the steps.
#[derive(Debug, Drop)]
pub struct ForwardedRun {
    /// The sent datagrams, and the results of sends, deliveries and pops.
    pub run: DatagramRun,
    /// All datagrams that the forwarder wrote, in order.
    pub written: Vec<Vec<u8>>,
    /// What the forwarder did with the datagram of each `Forward` step that names one, in order.
    pub answers: Vec<Forwarded>,
}

/// A sender, the forwarder of its datagrams, and the receiver of a viewer.
#[derive(Drop)]
pub struct ForwardLink<P: Packetizer, D: Depacketizer> {
    pub sender: Sender<P>,
    pub forwarder: Forwarder,
    pub receiver: Receiver<D>,
}

/// Executes the steps in order: sends samples, passes sent datagrams to the forwarder, delivers what the forwarder wrote to the
/// viewer's receiver, and pops.
///
/// A datagram that no `Forward` step names is lost on the first hop, and one that no `Deliver` step names on the second. Steps may
/// name a datagram any number of times, in any order. Call [`Forwarder::want`] with the sender's SSRC before, else nothing is
/// forwarded.
///
/// # Errors
///
/// `OutOfMemory` ends the run: sender, forwarder and receiver are as the failed call left them, and the results of earlier steps
/// are discarded.
pub fn run_forwarded<P: Packetizer, D: Depacketizer>(
    alloc: Global,
    link: &mut ForwardLink<P, D>,
    samples: &[ToPayload],
    steps: &[ForwardStep],
) -> Result<ForwardedRun, PacketError>
    ensures runs { IfOk result (λ run. ForwardRuns (map sample_of samples.now) steps.now (begins_forwarding link.old.sender link.old.forwarder link.old.receiver) (hops_of link.new.sender link.new.forwarder link.new.receiver run)) }
    // What the forwarder writes: each datagram that it forwards, except for the fields of the viewer's stream.
    ensures forwards { IfOk result (λ run. ForwardsPackets (map sample_of samples.now) steps.now (begins_forwarding link.old.sender link.old.forwarder link.old.receiver) (hops_of link.new.sender link.new.forwarder link.new.receiver run)) }
    // The units that the viewer's receiver releases, if what is delivered to it arrives within its windows.
    ensures units { IfOk result (λ run. ReleasesForwarded (map sample_of samples.now) steps.now (begins_forwarding link.old.sender link.old.forwarder link.old.receiver) (hops_of link.new.sender link.new.forwarder link.new.receiver run)) }
    // Pop by pop: what the receiver holds, which units are contiguous, and that none is lost silently.
    ensures promises { IfOk result (λ run. KeepsPromisesForwarded (map sample_of samples.now) steps.now (begins_forwarding link.old.sender link.old.forwarder link.old.receiver) (hops_of link.new.sender link.new.forwarder link.new.receiver run)) }
    ensures stops { OnErr result (ForwardStops (map sample_of samples.now) steps.now (begins_forwarding link.old.sender link.old.forwarder link.old.receiver) link.new.sender link.new.forwarder link.new.receiver) }
    ensures fault { IfErr result (λ fault. fault ≡ OutOfMemory) }
{
    let mut run = no_results(alloc);
    for step in steps {
        do_forward_step(alloc, link, samples, *step, &mut run)?;
    }
    Ok(run)
}

/// Returns the results before any step. Does not allocate.
pub fn no_results(alloc: Global) -> ForwardedRun
    ensures datagrams { result.run.datagrams.items ≡ [] }
    ensures sends { result.run.sends.items ≡ [] }
    ensures receipts { result.run.receipts.items ≡ [] }
    ensures pops { result.run.pops.items ≡ [] }
    ensures written { result.written.items ≡ [] }
    ensures answers { result.answers.items ≡ [] }
{
    ForwardedRun {
        run: DatagramRun {
            datagrams: Vec::new(alloc),
            sends: Vec::new(alloc),
            receipts: Vec::new(alloc),
            pops: Vec::new(alloc),
        },
        written: Vec::new(alloc),
        answers: Vec::new(alloc),
    }
}

/// Executes one step of [`run_forwarded`], and appends its results to those of the earlier steps. A `Send`, `Forward` or `Deliver` step
/// that names nothing changes nothing.
///
/// # Errors
///
/// `OutOfMemory`: sender, forwarder and receiver are as the failed call left them. Discard the results, which may lack some of this step.
pub fn do_forward_step<P: Packetizer, D: Depacketizer>(
    alloc: Global,
    link: &mut ForwardLink<P, D>,
    samples: &[ToPayload],
    step: ForwardStep,
    run: &mut ForwardedRun,
) -> Result<(), PacketError>
    ensures ok { OnOk result (DoesForwardStep (map sample_of samples.now) step (hops_of link.old.sender link.old.forwarder link.old.receiver run.old) (hops_of link.new.sender link.new.forwarder link.new.receiver run.new)) }
    ensures err { OnErr result (ForwardStopsAt (map sample_of samples.now) step (hops_of link.old.sender link.old.forwarder link.old.receiver run.old) link.new.sender link.new.forwarder link.new.receiver) }
    ensures fault { IfErr result (λ fault. fault ≡ OutOfMemory) }
{
    match step {
        ForwardStep::Send(sample) => {
            do_plain_step(
                alloc,
                link,
                samples,
                DatagramStep::Send(sample),
                &mut run.run,
            )
        }
        ForwardStep::Forward { datagram, now } => {
            let Some(bytes) = run.run.datagrams.get(datagram) else {
                return Ok(());
            };
            let Ok(packet) = RtpPacket::parse(bytes) else {
                return Ok(());
            };
            run.answers.reserve(1)?;
            let answer = forward(alloc, &mut link.forwarder, now, &packet, &mut run.written)?;
            run.answers.push(answer).unwrap();
            Ok(())
        }
        ForwardStep::Deliver { written, now } => {
            let Some(bytes) = run.written.get(written) else {
                return Ok(());
            };
            run.run.receipts.reserve(1)?;
            let receipt = deliver(&mut link.receiver, now, bytes)?;
            run.run.receipts.push(receipt).unwrap();
            Ok(())
        }
        ForwardStep::Pop { now } => {
            do_plain_step(
                alloc,
                link,
                samples,
                DatagramStep::Pop { now },
                &mut run.run,
            )
        }
        ForwardStep::Finish => {
            do_plain_step(alloc, link, samples, DatagramStep::Finish, &mut run.run)
        }
    }
}

/// Executes a step of the sender or of the receiver as a run of one step, and appends the results.
fn do_plain_step<P: Packetizer, D: Depacketizer>(
    alloc: Global,
    link: &mut ForwardLink<P, D>,
    samples: &[ToPayload],
    step: DatagramStep,
    run: &mut DatagramRun,
) -> Result<(), PacketError>
    requires { is_plain step ≡ true }
    ensures ok { OnOk result (DoesStep (map sample_of samples.now) step (wire_of link.old.sender link.old.receiver run.old) (wire_of link.new.sender link.new.receiver run.new)) }
    ensures same { link.new.forwarder ≡ link.old.forwarder }
    ensures err { OnErr result (StopsOrIsDone (map sample_of samples.now) step (wire_of link.old.sender link.old.receiver run.old) link.new.sender link.new.receiver) }
    ensures fault { IfErr result (λ fault. fault ≡ OutOfMemory) }
{
    let one = run_datagrams(
        alloc,
        &mut link.sender,
        &mut link.receiver,
        samples,
        &[step],
    )?;
    append(&mut run.datagrams, one.datagrams)?;
    append(&mut run.sends, one.sends)?;
    append(&mut run.pops, one.pops)?;
    Ok(())
}

/// Appends items to a list.
fn append<T: Drop>(list: &mut Vec<T>, more: Vec<T>) -> Result<(), AllocError>
    ensures ok { OnOk result (list.new.items ≡ list.old.items ++ more.items) }
    ensures few { length list.new.items < 2 ^ 63 }
{
    for item in more {
        list.push(item)?;
    }
    Ok(())
}

/// Passes a packet to the forwarder, and appends the datagram that the forwarder wrote, if it wrote one.
///
/// # Errors
///
/// `OutOfMemory`: the forwarder is unchanged.
pub fn forward(
    alloc: Global,
    forwarder: &mut Forwarder,
    now: u64,
    packet: &RtpPacket<'_>,
    written: &mut Vec<Vec<u8>>,
) -> Result<Forwarded, PacketError>
    ensures ok { IfOk result (λ answer. (bytes : List ℕ) × Forwards now (packet_of packet.now) forwarder.old answer bytes forwarder.new × (bytes_in written.new.items ≡ bytes_in written.old.items ++ written_by answer bytes)) }
    ensures err { OnErr result (forwarder.new ≡ forwarder.old) }
    ensures fault { IfErr result (λ fault. fault ≡ OutOfMemory) }
{
    written.reserve(1)?;
    let mut out = Vec::new(alloc);
    let answer = forwarder.write(now, packet, &mut out)?;
    if answer == Forwarded::Began || answer == Forwarded::Written {
        written.push(out).unwrap();
    }
    Ok(answer)
}

/// Passes a datagram to the viewer's receiver.
///
/// # Errors
///
/// `OutOfMemory`: memory ran out for the datagram, which then has no receipt.
pub(crate) fn deliver<D: Depacketizer>(
    receiver: &mut Receiver<D>,
    now: Ticks,
    bytes: &[u8],
) -> Result<Result<Outcome, ReceiveError>, PacketError>
    ensures ok { IfOk result (λ receipt. Delivers now bytes.now receiver.old receipt receiver.new) }
    ensures err { OnErr result (ReceivesBytes now bytes.now receiver.old (Result.Err refusals.OutOfMemory) receiver.new) }
    ensures fault { IfErr result (λ fault. fault ≡ OutOfMemory) }
{
    match receiver.receive(now, bytes) {
        Err(ReceiveError::OutOfMemory) => Err(PacketError::OutOfMemory),
        receipt => Ok(receipt),
    }
}
