//! Whole runs over two hops in which the forwarder leaves packets out, such as those of frames that the viewer does not want.

ghost use Rattle.std.specs.Prelude.{◌≡◌, ◌++◌, ℕ, List, map, IfOk, IfErr, OnOk, OnErr};
ghost use Rattle.codec_payload_base.specs.declared.error.PacketError.TheVariants.{OutOfMemory};
ghost use Rattle.codec_payload_payloader.specs.Sending.{sample_of};
ghost use Rattle.codec_payload_rtp.specs.RtpValues.{packet_of};
ghost use Rattle.codec_payload_sending_forward.specs.Forwarding.{Leaves};
ghost use Rattle.codec_payload_datagram_runs.specs.WireRuns.{bytes_in};
ghost use Rattle.codec_payload_forward_runs.specs.ForwardRuns.{begins_forwarding, hops_of};
ghost use Rattle.codec_payload_forward_runs.specs.LeaveReleases.{ForwardsKept, ReleasesLeavingOut};
ghost use Rattle.codec_payload_forward_runs.specs.LeaveRuns.{DoesLeaveStep, LeaveRuns, LeaveStops, LeaveStopsAt, filled_by};

use crate::run::{ForwardLink, ForwardStep, ForwardedRun, do_forward_step, no_results};
use codec_payload_base::error::PacketError;
use codec_payload_base::wire::ToPayload;
use codec_payload_codec::codec::{Depacketizer, Packetizer};
use codec_payload_rtp::rtp::RtpPacket;
use codec_payload_sending_forward::forwarder::{Forwarded, Forwarder};
use std::alloc::Global;

/// One step of a run whose forwarder leaves packets out.
#[derive(Clone, Copy, Debug, PartialEq, Eq)]
pub enum LeaveStep {
    /// A step of a run in which nothing is left out.
    Plain(ForwardStep),
    /// Passes the datagram with this index, from 0, among the datagrams sent so far, to [`Forwarder::leave_out`]. Skipped if there is
    /// no such datagram. Its answer is among those of the `Forward` steps, in order.
    LeaveOut { datagram: usize },
}

/// Executes the steps in order, as [`run_forwarded`](crate::run::run_forwarded) does, and leaves packets out.
///
/// To leave a frame out, pass all its datagrams to the forwarder in `LeaveOut` steps, ahead of the datagrams of later frames. Then
/// the viewer does not miss them. A packet of padding that the forwarder writes for a packet that came late is among the written
/// datagrams.
///
/// # Errors
///
/// `OutOfMemory` ends the run: sender, forwarder and receiver are as the failed call left them, and the results of earlier steps
/// are discarded.
pub fn run_forwarded_leaving_out<P: Packetizer, D: Depacketizer>(
    alloc: Global,
    link: &mut ForwardLink<P, D>,
    samples: &[ToPayload],
    steps: &[LeaveStep],
) -> Result<ForwardedRun, PacketError>
    ensures runs { IfOk result (λ run. LeaveRuns (map sample_of samples.now) steps.now (begins_forwarding link.old.sender link.old.forwarder link.old.receiver) (hops_of link.new.sender link.new.forwarder link.new.receiver run)) }
    // What the forwarder writes, if whole frames are left out: numbers and picture ids close up.
    ensures forwards { IfOk result (λ run. ForwardsKept (map sample_of samples.now) steps.now (begins_forwarding link.old.sender link.old.forwarder link.old.receiver) (hops_of link.new.sender link.new.forwarder link.new.receiver run)) }
    // The units that the viewer's receiver releases, if whole frames are left out, and what is delivered arrives within its windows.
    ensures units { IfOk result (λ run. ReleasesLeavingOut (map sample_of samples.now) steps.now (begins_forwarding link.old.sender link.old.forwarder link.old.receiver) (hops_of link.new.sender link.new.forwarder link.new.receiver run)) }
    ensures stops { OnErr result (LeaveStops (map sample_of samples.now) steps.now (begins_forwarding link.old.sender link.old.forwarder link.old.receiver) link.new.sender link.new.forwarder link.new.receiver) }
    ensures fault { IfErr result (λ fault. fault ≡ OutOfMemory) }
{
    let mut run = no_results(alloc);
    for step in steps {
        do_leave_step(alloc, link, samples, *step, &mut run)?;
    }
    Ok(run)
}

/// Executes one step of [`run_forwarded_leaving_out`], and appends its results to those of the earlier steps. A step that names nothing
/// changes nothing.
///
/// # Errors
///
/// `OutOfMemory`: sender, forwarder and receiver are as the failed call left them. Discard the results, which may lack some of this step.
pub fn do_leave_step<P: Packetizer, D: Depacketizer>(
    alloc: Global,
    link: &mut ForwardLink<P, D>,
    samples: &[ToPayload],
    step: LeaveStep,
    run: &mut ForwardedRun,
) -> Result<(), PacketError>
    ensures ok { OnOk result (DoesLeaveStep (map sample_of samples.now) step (hops_of link.old.sender link.old.forwarder link.old.receiver run.old) (hops_of link.new.sender link.new.forwarder link.new.receiver run.new)) }
    ensures err { OnErr result (LeaveStopsAt (map sample_of samples.now) step (hops_of link.old.sender link.old.forwarder link.old.receiver run.old) link.new.sender link.new.forwarder link.new.receiver) }
    ensures fault { IfErr result (λ fault. fault ≡ OutOfMemory) }
{
    match step {
        LeaveStep::Plain(step) => do_forward_step(alloc, link, samples, step, run),
        LeaveStep::LeaveOut { datagram } => {
            let Some(bytes) = run.run.datagrams.get(datagram) else {
                return Ok(());
            };
            let Ok(packet) = RtpPacket::parse(bytes) else {
                return Ok(());
            };
            run.answers.reserve(1)?;
            let answer = leave_out(alloc, &mut link.forwarder, &packet, &mut run.written)?;
            run.answers.push(answer).unwrap();
            Ok(())
        }
    }
}

/// Leaves a packet out, and appends the packet of padding, if the forwarder wrote one.
///
/// # Errors
///
/// `OutOfMemory`: the forwarder is unchanged.
pub fn leave_out(
    alloc: Global,
    forwarder: &mut Forwarder,
    packet: &RtpPacket<'_>,
    written: &mut Vec<Vec<u8>>,
) -> Result<Forwarded, PacketError>
    ensures ok { IfOk result (λ answer. (bytes : List ℕ) × Leaves (packet_of packet.now) forwarder.old answer bytes forwarder.new × (bytes_in written.new.items ≡ bytes_in written.old.items ++ filled_by answer bytes)) }
    ensures err { OnErr result (forwarder.new ≡ forwarder.old) }
    ensures fault { IfErr result (λ fault. fault ≡ OutOfMemory) }
{
    written.reserve(1)?;
    let mut out = Vec::new(alloc);
    let answer = forwarder.leave_out(packet, &mut out)?;
    if answer == Forwarded::Filled {
        written.push(out).unwrap();
    }
    Ok(answer)
}
