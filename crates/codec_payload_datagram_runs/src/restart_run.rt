//! Whole runs over datagrams whose sender restarts: another sender takes over, and the restart is announced to the receiver.

ghost use Rattle.std.specs.Prelude.{◌≡◌, map, IfOk, IfErr, OnErr, Bool};
ghost use Rattle.codec_payload_base.specs.declared.error.PacketError.TheVariants.{OutOfMemory};
ghost use Rattle.codec_payload_payloader.specs.Sending.{sample_of};
ghost use Rattle.codec_payload_datagram_runs.specs.OwnRuns.{AsksForEnds, AsksForUnit, AsksPacketizer};
ghost use Rattle.codec_payload_datagram_runs.specs.RestartLogs.{KeepsPromisesWithRestarts};
ghost use Rattle.codec_payload_datagram_runs.specs.RestartReleases.{ReleasesWithRestarts};
ghost use Rattle.codec_payload_datagram_runs.specs.RestartRuns.{AsksInParts, RunsParts, StopsParts, told_if};

use crate::run::{DatagramRun, DatagramStep, run_datagrams};
use codec_payload_base::error::PacketError;
use codec_payload_base::wire::ToPayload;
use codec_payload_codec::codec::{Depacketizer, Packetizer};
use codec_payload_receiver::receiver::Receiver;
use codec_payload_sending::sender::Sender;
use std::alloc::Global;

/// The steps of one sender, until the next sender takes over.
#[derive(Debug, Drop)]
pub struct Part {
    /// The SSRC of this sender, if the restart is announced by [`Receiver::restart_as`]. `None`: [`Receiver::restart`] announces
    /// it. Ignored in the first part, before which nobody restarts.
    pub ssrc: Option<u32>,
    /// The steps. `Deliver` names a datagram of this part.
    pub steps: Vec<DatagramStep>,
}

/// Executes the parts in order, each with its own sender. Before each part, except the first, the restart is announced to the
/// receiver. Returns the results of each part.
///
/// A part that has no sender is skipped, and a sender that has no part sends nothing. The receiver continues through all parts:
/// pops of a part return the units of earlier parts that it still holds first.
///
/// # Errors
///
/// `OutOfMemory` ends the run: the senders and the receiver are as the failed call left them, and the results of earlier steps
/// are discarded.
pub fn run_with_restarts<P: Packetizer, D: Depacketizer>(
    alloc: Global,
    senders: &mut [Sender<P>],
    receiver: &mut Receiver<D>,
    samples: &[ToPayload],
    parts: &[Part],
) -> Result<Vec<DatagramRun>, PacketError>
    ensures runs { IfOk result (λ runs. RunsParts (map sample_of samples.now) Bool.false parts.now senders.old receiver.old runs.items senders.new receiver.new) }
    // The popped units of all parts, if the datagrams of each part arrive within the windows of the receiver.
    ensures units { IfOk result (λ runs. ReleasesWithRestarts (map sample_of samples.now) parts.now senders.old receiver.old runs.items) }
    // Pop by pop over all parts: what the receiver holds, which units are contiguous, and that none is lost silently.
    ensures promises { IfOk result (λ runs. KeepsPromisesWithRestarts (map sample_of samples.now) parts.now senders.old receiver.old runs.items receiver.new) }
    ensures stops { OnErr result (StopsParts (map sample_of samples.now) Bool.false parts.now senders.old receiver.old senders.new receiver.new) }
    ensures fault { IfErr result (λ fault. fault ≡ OutOfMemory) }
    // Custom codecs are asked in each step, as `specs/OwnRuns.antt` says.
    ensures own { IfOk result (λ runs. AsksInParts (AsksPacketizer P.state P.packetize_step P.marker_step P.marks_spurts) (AsksForEnds D.is_head D.is_tail) (AsksForUnit D.state D.depacketize_step)
        (map sample_of samples.now) Bool.false parts.now senders.old receiver.old runs.items senders.new receiver.new) }
{
    let mut runs = Vec::new(alloc);
    for place in 0..parts.len().min(senders.len()) {
        runs.reserve(1)?;
        let part = &parts[place];
        tell_if(receiver, place > 0, part.ssrc);
        let run = run_datagrams(alloc, &mut senders[place], receiver, samples, &part.steps)?;
        runs.push(run).unwrap();
    }
    Ok(runs)
}

/// Announces a restart to the receiver, with the SSRC of the next sender if it is named. Does nothing before the first part.
fn tell_if<D: Depacketizer>(receiver: &mut Receiver<D>, later: bool, ssrc: Option<u32>)
    ensures { receiver.new ≡ told_if later ssrc receiver.old }
{
    if !later {
        return;
    }
    match ssrc {
        Some(ssrc) => receiver.restart_as(ssrc, None),
        None => receiver.restart(),
    }
}
