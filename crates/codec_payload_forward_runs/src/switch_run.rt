//! Whole runs over two hops with two sources, such as two layers of simulcast: the forwarder goes over from one to the other.

ghost use Rattle.std.specs.Prelude.{◌≡◌, map, IfOk, IfErr, OnOk, OnErr};
ghost use Rattle.codec_payload_base.specs.declared.error.PacketError.TheVariants.{OutOfMemory};
ghost use Rattle.codec_payload_payloader.specs.Sending.{sample_of};
ghost use Rattle.codec_payload_forward_runs.specs.declared.switch_run.Source.TheVariants as sources;
ghost use Rattle.codec_payload_forward_runs.specs.declared.switch_run.SwitchStep.TheVariants as steps;
ghost use Rattle.codec_payload_forward_runs.specs.SwitchReleases.{ForwardsSwitching, WritesOneStream};
ghost use Rattle.codec_payload_forward_runs.specs.SwitchRuns.{DoesSwitchStep, SwitchRuns, SwitchStops, SwitchStopsAt, begins_switching, swapped, switched_of};
ghost use Rattle.codec_payload_forward_runs.specs.SwitchStretches.{ReleasesAllStretches, WritesStretches};
ghost use Rattle.codec_payload_forward_runs.specs.SwitchUnits.{ReleasesSwitching};

use crate::run::{ForwardLink, ForwardStep, ForwardedRun, do_forward_step, no_results};
use codec_payload_base::error::PacketError;
use codec_payload_base::wire::ToPayload;
use codec_payload_codec::codec::{Depacketizer, Packetizer};
use codec_payload_datagram_runs::run::SentSample;
use codec_payload_sending::sender::Sender;
use std::alloc::Global;
use std::mem::swap;

/// One of two sources.
#[derive(Clone, Copy, Debug, PartialEq, Eq)]
pub enum Source {
    First,
    Second,
}

/// One step of a run with two sources.
#[derive(Clone, Copy, Debug, PartialEq, Eq)]
pub enum SwitchStep {
    /// A step of [`run_forwarded`](crate::run::run_forwarded) with the sender of this source: `Send` sends a sample from it, and
    /// `Forward` names one of its datagrams. `Deliver`, `Pop` and `Finish` are of the viewer, so they are the same with each source.
    Of(Source, ForwardStep),
    /// The forwarder wants the source with this SSRC.
    Want { ssrc: u32 },
}

/// What a source sent.
#[derive(Debug, Drop)]
pub struct SourceRun {
    /// Its datagrams, in order.
    pub datagrams: Vec<Vec<u8>>,
    /// The results of its sends.
    pub sends: Vec<SentSample>,
}

/// The results of the steps.
#[derive(Debug, Drop)]
pub struct SwitchedRun {
    /// What the first source sent, and the results of the viewer. `answers` has what the forwarder did with the datagrams of both
    /// sources, in order.
    pub run: ForwardedRun,
    /// What the second source sent.
    pub second: SourceRun,
}

/// Two sources, the forwarder of their datagrams, and the receiver of a viewer.
#[derive(Drop)]
pub struct SwitchLink<P: Packetizer, D: Depacketizer> {
    /// The first source, the forwarder and the receiver.
    pub link: ForwardLink<P, D>,
    pub second: Sender<P>,
}

/// Executes the steps in order, as [`run_forwarded`](crate::run::run_forwarded) does, with two sources. Both send samples of one
/// list.
///
/// The forwarder goes over to the wanted source at its next keyframe. Give the sources different SSRCs.
///
/// # Errors
///
/// `OutOfMemory` ends the run: senders, forwarder and receiver are as the failed call left them, and the results of earlier steps
/// are discarded.
pub fn run_forwarded_switching<P: Packetizer, D: Depacketizer>(
    alloc: Global,
    link: &mut SwitchLink<P, D>,
    samples: &[ToPayload],
    steps: &[SwitchStep],
) -> Result<SwitchedRun, PacketError>
    ensures runs { IfOk result (λ run. SwitchRuns (map sample_of samples.now) steps.now (begins_switching link.old.link.sender link.old.second link.old.link.forwarder link.old.link.receiver) (switched_of link.new.link.sender link.new.second link.new.link.forwarder link.new.link.receiver run)) }
    // What the forwarder writes: numbers go on by one at a switch, and times do not go back.
    ensures forwards { IfOk result (λ run. ForwardsSwitching (map sample_of samples.now) steps.now (begins_switching link.old.link.sender link.old.second link.old.link.forwarder link.old.link.receiver) (switched_of link.new.link.sender link.new.second link.new.link.forwarder link.new.link.receiver run)) }
    // With one switch it is one stream: the first source up to the switch, then the second from its keyframe on.
    ensures stream { IfOk result (λ run. WritesOneStream (map sample_of samples.now) steps.now (begins_switching link.old.link.sender link.old.second link.old.link.forwarder link.old.link.receiver) (switched_of link.new.link.sender link.new.second link.new.link.forwarder link.new.link.receiver run)) }
    // The units that the viewer's receiver releases, with one switch between two frames, if what is delivered arrives within its windows.
    ensures units { IfOk result (λ run. ReleasesSwitching (map sample_of samples.now) steps.now (begins_switching link.old.link.sender link.old.second link.old.link.forwarder link.old.link.receiver) (switched_of link.new.link.sender link.new.second link.new.link.forwarder link.new.link.receiver run)) }
    // With any number of switches it is one stream of stretches, each of one source from its keyframe on.
    ensures stretches { IfOk result (λ run. WritesStretches (map sample_of samples.now) steps.now (begins_switching link.old.link.sender link.old.second link.old.link.forwarder link.old.link.receiver) (switched_of link.new.link.sender link.new.second link.new.link.forwarder link.new.link.receiver run)) }
    // The units that the viewer's receiver releases, with any number of switches, each between two frames, if what is delivered arrives within its
    // windows.
    ensures units_of_all { IfOk result (λ run. ReleasesAllStretches (map sample_of samples.now) steps.now (begins_switching link.old.link.sender link.old.second link.old.link.forwarder link.old.link.receiver) (switched_of link.new.link.sender link.new.second link.new.link.forwarder link.new.link.receiver run)) }
    ensures stops { OnErr result (SwitchStops (map sample_of samples.now) steps.now (begins_switching link.old.link.sender link.old.second link.old.link.forwarder link.old.link.receiver) link.new.link.sender link.new.second link.new.link.forwarder link.new.link.receiver) }
    ensures fault { IfErr result (λ fault. fault ≡ OutOfMemory) }
{
    let mut run = SwitchedRun {
        run: no_results(alloc),
        second: SourceRun {
            datagrams: Vec::new(alloc),
            sends: Vec::new(alloc),
        },
    };
    for step in steps {
        do_switch_step(alloc, link, samples, *step, &mut run)?;
    }
    Ok(run)
}

/// Executes one step, and records its result.
fn do_switch_step<P: Packetizer, D: Depacketizer>(
    alloc: Global,
    link: &mut SwitchLink<P, D>,
    samples: &[ToPayload],
    step: SwitchStep,
    run: &mut SwitchedRun,
) -> Result<(), PacketError>
    ensures ok { OnOk result (DoesSwitchStep (map sample_of samples.now) step (switched_of link.old.link.sender link.old.second link.old.link.forwarder link.old.link.receiver run.old) (switched_of link.new.link.sender link.new.second link.new.link.forwarder link.new.link.receiver run.new)) }
    ensures err { OnErr result (SwitchStopsAt (map sample_of samples.now) step (switched_of link.old.link.sender link.old.second link.old.link.forwarder link.old.link.receiver run.old) link.new.link.sender link.new.second link.new.link.forwarder link.new.link.receiver) }
    ensures fault { IfErr result (λ fault. fault ≡ OutOfMemory) }
{
    match step {
        SwitchStep::Want { ssrc } => {
            link.link.forwarder.want(ssrc);
            Ok(())
        }
        SwitchStep::Of(Source::First, step) => {
            do_forward_step(alloc, &mut link.link, samples, step, &mut run.run)
        }
        SwitchStep::Of(Source::Second, step) => do_second_step(alloc, link, samples, step, run),
    }
}

/// Executes one step with the second source.
fn do_second_step<P: Packetizer, D: Depacketizer>(
    alloc: Global,
    link: &mut SwitchLink<P, D>,
    samples: &[ToPayload],
    step: ForwardStep,
    run: &mut SwitchedRun,
) -> Result<(), PacketError>
    ensures ok { OnOk result (DoesSwitchStep (map sample_of samples.now) (steps.Of sources.Second step) (switched_of link.old.link.sender link.old.second link.old.link.forwarder link.old.link.receiver run.old) (switched_of link.new.link.sender link.new.second link.new.link.forwarder link.new.link.receiver run.new)) }
    ensures err { OnErr result (SwitchStopsAt (map sample_of samples.now) (steps.Of sources.Second step) (switched_of link.old.link.sender link.old.second link.old.link.forwarder link.old.link.receiver run.old) link.new.link.sender link.new.second link.new.link.forwarder link.new.link.receiver) }
    ensures fault { IfErr result (λ fault. fault ≡ OutOfMemory) }
{
    swap_sources(link, run);
    let done = do_forward_step(alloc, &mut link.link, samples, step, &mut run.run);
    swap_sources(link, run);
    done
}

/// Exchanges the sources, and what they sent.
fn swap_sources<P: Packetizer, D: Depacketizer>(link: &mut SwitchLink<P, D>, run: &mut SwitchedRun)
    ensures { switched_of link.new.link.sender link.new.second link.new.link.forwarder link.new.link.receiver run.new ≡ swapped (switched_of link.old.link.sender link.old.second link.old.link.forwarder link.old.link.receiver run.old) }
{
    swap(&mut link.link.sender, &mut link.second);
    swap(&mut run.run.run.datagrams, &mut run.second.datagrams);
    swap(&mut run.run.run.sends, &mut run.second.sends);
}
