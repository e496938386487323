//! Whole runs of a media server that leaves packets out, such as those of frames that the viewer does not want.

ghost use Rattle.std.specs.Prelude.{◌≡◌, [], ℕ, false, map, Option, IfOk, IfErr, OnOk, OnErr};
ghost use Rattle.codec_payload_base.specs.declared.error.PacketError.TheVariants.{OutOfMemory};
ghost use Rattle.codec_payload_payloader.specs.Sending.{sample_of};
ghost use Rattle.codec_payload_receiver.specs.Sessions.{Session as Receiver};
ghost use Rattle.codec_payload_sending.specs.Senders.{Sending};
ghost use Rattle.codec_payload_forward_runs.specs.ForwardRuns.{hops_of};
ghost use Rattle.codec_payload_server_runs.specs.ServeLeaveReleases.{ReleasesServedLeavingOut, ServesKept, ServesLeavingAsSession};
ghost use Rattle.codec_payload_server_runs.specs.ServeLeaveRuns.{DoesLeavingOut, DoesServeLeaveStep, PassesOrIsLeftOut, ServeLeaveRuns, ServeLeaveStops, ServeLeaveStopsAt, StaysAll, StopsLeavingOut, StopsPassing, begins_serving_leaving_out, left_as, left_by, serving_of};
ghost use Rattle.codec_payload_server_runs.specs.Serving.{ComesTo, PassesUnwrapped, StopsComing, StopsUnwrapping, hop_of, serves};
ghost use Rattle.codec_payload_forward_runs.specs.declared.run.ForwardStep.TheVariants.{Forward};
ghost use Rattle.codec_payload_server_runs.specs.declared.run.ServeStep.TheVariants.{Arrive};

use crate::run::{ServeLink, ServeStep, ServedRun, forward_bytes, take_in};
use crate::serving::{Coming, again_of, call, hop_of, original_of, take_sent};
use codec_payload_base::error::PacketError;
use codec_payload_base::wire::ToPayload;
use codec_payload_codec::codec::{Depacketizer, Packetizer};
use codec_payload_forward_runs::leave_run::{LeaveStep, do_leave_step, leave_out};
use codec_payload_forward_runs::run::{ForwardStep, ForwardedRun, do_forward_step, no_results};
use codec_payload_rtp::rtp::RtpPacket;
use codec_payload_sending_forward::forwarder::Forwarder;
use std::alloc::Global;

/// One step of a run of a media server that leaves packets out.
#[derive(Debug, Drop)]
pub enum ServeLeaveStep {
    /// A step of a run in which nothing is left out.
    Plain(ServeStep),
    /// The same, but what the session takes as one of the stream is left out: it comes to [`Forwarder::leave_out`].
    LeaveOut(ServeStep),
}

/// Executes the steps in order, as [`run_served`](crate::run::run_served) does, and leaves packets out.
///
/// To leave a frame out, pass all its datagrams in `LeaveOut` steps, also the retransmissions of them, ahead of the datagrams of later
/// frames. Then the viewer does not miss them.
///
/// # Errors
///
/// `OutOfMemory` ends the run: sender, session, forwarder and receiver are as the failed call left them, and the results of earlier
/// steps are discarded.
pub fn run_served_leaving_out<P: Packetizer, D: Depacketizer>(
    alloc: Global,
    link: &mut ServeLink<P, D>,
    samples: &[ToPayload],
    steps: &[ServeLeaveStep],
) -> Result<ServedRun, PacketError>
    ensures runs { IfOk result (λ run. ServeLeaveRuns link.old.stream (map sample_of samples.now) steps.now (begins_serving_leaving_out link.old.link.sender link.old.link.forwarder link.old.link.receiver link.old.session) (serving_of link.new.link.sender link.new.link.forwarder link.new.link.receiver link.new.session run)) }
    // The session: it gets the datagrams that arrive, beside all other calls. So each of its streams is a receiver alone.
    ensures session { IfOk result (λ run. ServesLeavingAsSession link.old.stream (map sample_of samples.now) steps.now (begins_serving_leaving_out link.old.link.sender link.old.link.forwarder link.old.link.receiver link.old.session) (serving_of link.new.link.sender link.new.link.forwarder link.new.link.receiver link.new.session run)) }
    // What the forwarder writes, if whole frames are left out: numbers and picture ids close up.
    ensures forwards { IfOk result (λ run. ServesKept link.old.stream (map sample_of samples.now) steps.now (begins_serving_leaving_out link.old.link.sender link.old.link.forwarder link.old.link.receiver link.old.session) (serving_of link.new.link.sender link.new.link.forwarder link.new.link.receiver link.new.session run)) }
    // The units that the viewer's receiver releases, if whole frames are left out, and what is delivered arrives within its windows.
    ensures units { IfOk result (λ run. ReleasesServedLeavingOut link.old.stream (map sample_of samples.now) steps.now (begins_serving_leaving_out link.old.link.sender link.old.link.forwarder link.old.link.receiver link.old.session) (serving_of link.new.link.sender link.new.link.forwarder link.new.link.receiver link.new.session run)) }
    ensures stream { link.new.stream ≡ link.old.stream }
    ensures stops { OnErr result (ServeLeaveStops link.old.stream (map sample_of samples.now) steps.now (begins_serving_leaving_out link.old.link.sender link.old.link.forwarder link.old.link.receiver link.old.session) (left_by link.new.link.sender link.new.link.forwarder link.new.link.receiver) link.new.session) }
    ensures fault { IfErr result (λ fault. fault ≡ OutOfMemory) }
{
    let mut run = ServedRun {
        run: no_results(alloc),
        answers: Vec::new(alloc),
    };
    for step in steps {
        do_serve_leave_step(alloc, link, samples, step, &mut run)?;
    }
    Ok(run)
}

/// Executes one step, and records its result.
fn do_serve_leave_step<P: Packetizer, D: Depacketizer>(
    alloc: Global,
    link: &mut ServeLink<P, D>,
    samples: &[ToPayload],
    step: &ServeLeaveStep,
    run: &mut ServedRun,
) -> Result<(), PacketError>
    ensures ok { OnOk result (DoesServeLeaveStep link.old.stream (map sample_of samples.now) step.now (serving_of link.old.link.sender link.old.link.forwarder link.old.link.receiver link.old.session run.old) (serving_of link.new.link.sender link.new.link.forwarder link.new.link.receiver link.new.session run.new)) }
    ensures stream { link.new.stream ≡ link.old.stream }
    ensures err { OnErr result (ServeLeaveStopsAt link.old.stream (map sample_of samples.now) step.now (serving_of link.old.link.sender link.old.link.forwarder link.old.link.receiver link.old.session run.old) (left_by link.new.link.sender link.new.link.forwarder link.new.link.receiver) link.new.session) }
    ensures fault { IfErr result (λ fault. fault ≡ OutOfMemory) }
{
    match step {
        ServeLeaveStep::Plain(step) => {
            match hop_of(step) {
                Some(hop) => do_forward_step(alloc, &mut link.link, samples, hop, &mut run.run),
                None => come(alloc, link, step, true, run),
            }
        }
        ServeLeaveStep::LeaveOut(step) => {
            match hop_of(step) {
                Some(hop) => do_forward_step(alloc, &mut link.link, samples, hop, &mut run.run),
                None => come(alloc, link, step, false, run),
            }
        }
    }
}

/// The session gets the call of this step, and what it takes is forwarded or left out.
fn come<P: Packetizer, D: Depacketizer>(
    alloc: Global,
    link: &mut ServeLink<P, D>,
    step: &ServeStep,
    plain: bool,
    run: &mut ServedRun,
) -> Result<(), PacketError>
    requires { hop_of step.now ≡ Option.None }
    ensures ok { OnOk result (DoesLeavingOut link.old.stream [] (serves plain step.now) (serving_of link.old.link.sender link.old.link.forwarder link.old.link.receiver link.old.session run.old) (serving_of link.new.link.sender link.new.link.forwarder link.new.link.receiver link.new.session run.new)) }
    ensures stream { link.new.stream ≡ link.old.stream }
    ensures err { OnErr result (StopsLeavingOut link.old.stream [] (serves plain step.now) (serving_of link.old.link.sender link.old.link.forwarder link.old.link.receiver link.old.session run.old) (left_by link.new.link.sender link.new.link.forwarder link.new.link.receiver) link.new.session) }
    ensures fault { IfErr result (λ fault. fault ≡ OutOfMemory) }
{
    match step {
        ServeStep::Arrive { datagram, at } => {
            let coming = Coming {
                datagram: *datagram,
                at: *at,
                plain,
            };
            arrive(alloc, link, coming, run)
        }
        ServeStep::Repeat {
            datagram,
            again,
            at,
        } => {
            let datagrams = &run.run.run.datagrams;
            let made = again_of(alloc, link.stream, *again, datagrams, *datagram)?;
            let Some(retransmission) = made else {
                return Ok(());
            };
            let coming = Coming {
                datagram: *datagram,
                at: *at,
                plain,
            };
            repeat(alloc, link, &retransmission, coming, run)
        }
        ServeStep::Call(step) => {
            call(&mut link.session, step, &mut run.answers)?;
            Ok(())
        }
        _ => Ok(()),
    }
}

/// The datagram comes to the session, and may come to the forwarder.
fn arrive<P: Packetizer, D: Depacketizer>(
    alloc: Global,
    link: &mut ServeLink<P, D>,
    coming: Coming,
    run: &mut ServedRun,
) -> Result<(), PacketError>
    ensures ok { OnOk result (DoesLeavingOut link.old.stream [] (serves coming.plain (Arrive coming.datagram coming.at)) (serving_of link.old.link.sender link.old.link.forwarder link.old.link.receiver link.old.session run.old) (serving_of link.new.link.sender link.new.link.forwarder link.new.link.receiver link.new.session run.new)) }
    ensures stream { link.new.stream ≡ link.old.stream }
    ensures err { OnErr result (StopsLeavingOut link.old.stream [] (serves coming.plain (Arrive coming.datagram coming.at)) (serving_of link.old.link.sender link.old.link.forwarder link.old.link.receiver link.old.session run.old) (left_by link.new.link.sender link.new.link.forwarder link.new.link.receiver) link.new.session) }
    ensures fault { IfErr result (λ fault. fault ≡ OutOfMemory) }
{
    let datagrams = &run.run.run.datagrams;
    let taken = take_sent(
        &mut link.session,
        link.stream,
        coming,
        datagrams,
        &mut run.answers,
    )?;
    if !taken {
        return Ok(());
    }
    let step = passing_step(coming);
    do_leave_step(alloc, &mut link.link, &[], step, &mut run.run)
}

/// Returns the step of the run behind the session that passes the datagram on.
fn passing_step(coming: Coming) -> LeaveStep
    ensures { result ≡ left_as (Forward coming.datagram coming.at.time) coming.plain }
{
    let datagram = coming.datagram;
    if coming.plain {
        let now = coming.at.time;
        LeaveStep::Plain(ForwardStep::Forward { datagram, now })
    } else {
        LeaveStep::LeaveOut { datagram }
    }
}

/// The retransmission comes to the session, and what it repeats may come to the forwarder.
fn repeat<P: Packetizer, D: Depacketizer>(
    alloc: Global,
    link: &mut ServeLink<P, D>,
    retransmission: &[u8],
    coming: Coming,
    run: &mut ServedRun,
) -> Result<(), PacketError>
    ensures ok { OnOk result (ComesTo link.old.stream coming.at retransmission.now (PassesUnwrapped link.old.stream retransmission.now (PassesOrIsLeftOut coming.plain coming.at.time)) (serving_of link.old.link.sender link.old.link.forwarder link.old.link.receiver link.old.session run.old) (serving_of link.new.link.sender link.new.link.forwarder link.new.link.receiver link.new.session run.new)) }
    ensures stream { link.new.stream ≡ link.old.stream }
    ensures err { OnErr result (StopsComing link.old.stream coming.at retransmission.now (StaysAll (left_by link.new.link.sender link.new.link.forwarder link.new.link.receiver)) (StopsUnwrapping link.old.stream retransmission.now (StaysAll (left_by link.new.link.sender link.new.link.forwarder link.new.link.receiver)) (StopsPassing (left_by link.new.link.sender link.new.link.forwarder link.new.link.receiver) coming.plain)) (serving_of link.old.link.sender link.old.link.forwarder link.old.link.receiver link.old.session run.old) link.new.session) }
    ensures fault { IfErr result (λ fault. fault ≡ OutOfMemory) }
{
    let taken = take_in(
        &mut link.session,
        link.stream,
        coming.at,
        retransmission,
        &mut run.answers,
    )?;
    if !taken {
        return Ok(());
    }
    let original = original_of(alloc, link.stream, retransmission)?;
    let forwarder = &mut link.link.forwarder;
    if coming.plain {
        forward_bytes(alloc, forwarder, coming.at.time, &original, &mut run.run)
    } else {
        leave_bytes(alloc, forwarder, &original, &mut run.run)
    }
}

/// Passes a datagram to the forwarder to leave it out, and records what the forwarder did with it.
fn leave_bytes(
    alloc: Global,
    forwarder: &mut Forwarder,
    datagram: &[u8],
    run: &mut ForwardedRun,
) -> Result<(), PacketError>
    ensures ok { OnOk result ((time : ℕ) (sending : Sending) (receiver : Receiver) → PassesOrIsLeftOut false time datagram.now (hops_of sending forwarder.old receiver run.old) (hops_of sending forwarder.new receiver run.new)) }
    ensures err { OnErr result (forwarder.new ≡ forwarder.old) }
    ensures fault { IfErr result (λ fault. fault ≡ OutOfMemory) }
{
    let Ok(packet) = RtpPacket::parse(datagram) else {
        return Ok(());
    };
    run.answers.reserve(1)?;
    let answer = leave_out(alloc, forwarder, &packet, &mut run.written)?;
    run.answers.push(answer).unwrap();
    Ok(())
}
