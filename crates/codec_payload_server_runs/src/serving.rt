//! What a media server does with what comes to its session, whatever stands behind the session.

ghost use Rattle.std.specs.Prelude.{◌≡◌, ◌++◌, ◌∷◌, [], List, ℕ, false, Option, MatchOption, IfOk, IfErr, OnOk, OnErr, slice_get};
ghost use Rattle.codec_payload_base.specs.declared.error.PacketError.TheVariants.{OutOfMemory};
ghost use Rattle.std.specs.Global.{Vec as TheVec};
ghost use Rattle.codec_payload_datagram_runs.specs.WireRuns.{bytes_in};
ghost use Rattle.codec_payload_rtp.specs.RtpPackets.{Packet};
ghost use Rattle.codec_payload_sending_history.specs.Originals.{WritesOriginal};
ghost use Rattle.codec_payload_session_runs.specs.SessionRuns.{Does};
ghost use Rattle.codec_payload_session_runs.specs.declared.run.StepAnswer.{StepAnswer as TheAnswer};
ghost use Rattle.codec_payload_server_runs.specs.ServeRuns.{IsAgain, repeated_in};
ghost use Rattle.codec_payload_server_runs.specs.Serving.{IsSpelled, Takes, hop_of};

use crate::run::{Moment, ServeStep, retransmission_of, take_in};
use codec_payload_base::error::PacketError;
use codec_payload_forward_runs::run::ForwardStep;
use codec_payload_sending_history::original::OriginalStream;
use codec_payload_sending_history::retransmission::RetransmissionStream;
use codec_payload_session::session::Session;
use codec_payload_session_runs::run::{SessionStep, StepAnswer, do_step};
use std::alloc::{AllocError, Global};

/// A sent datagram that comes to a media server.
#[derive(Clone, Copy)]
pub(crate) struct Coming {
    /// Its index among the sent datagrams.
    pub datagram: usize,
    pub at: Moment,
    /// Whether it is forwarded, if the session takes it as one of the stream.
    pub plain: bool,
}

/// Returns the step of the run with the forwarder that this step is. `None`: the session gets a call.
pub(crate) fn hop_of(step: &ServeStep) -> Option<ForwardStep>
    ensures { result ≡ hop_of step.now }
{
    match step {
        ServeStep::Send(sample) => Some(ForwardStep::Send(*sample)),
        ServeStep::Arrive { .. } => None,
        ServeStep::Repeat { .. } => None,
        ServeStep::Call(_) => None,
        ServeStep::Deliver { written, now } => {
            Some(ForwardStep::Deliver {
                written: *written,
                now: *now,
            })
        }
        ServeStep::Pop { now } => Some(ForwardStep::Pop { now: *now }),
        ServeStep::Finish => Some(ForwardStep::Finish),
    }
}

/// Makes a call of the session, and records its answer.
///
/// # Errors
///
/// Out of memory for the record: the session is unchanged.
pub(crate) fn call(
    session: &mut Session,
    step: &SessionStep,
    answers: &mut Vec<StepAnswer>,
) -> Result<(), AllocError>
    ensures ok { OnOk result ((answer : TheAnswer) × Does step.now session.old answer session.new × (answers.new.items ≡ answers.old.items ++ answer ∷ [])) }
    ensures err { OnErr result (session.new ≡ session.old) }
{
    answers.reserve(1)?;
    let answer = do_step(session, step);
    answers.push(answer).unwrap();
    Ok(())
}

/// The session receives the datagram that comes, if there is one, and its answer is recorded. Returns whether it took the datagram as one
/// of the stream.
///
/// # Errors
///
/// Out of memory for the record: the session is unchanged.
pub(crate) fn take_sent(
    session: &mut Session,
    stream: OriginalStream,
    coming: Coming,
    datagrams: &[Vec<u8>],
    answers: &mut Vec<StepAnswer>,
) -> Result<bool, AllocError>
    ensures ok { IfOk result (λ taken. MatchOption (slice_get (bytes_in datagrams.now) coming.datagram) ((taken ≡ false) × (session.new ≡ session.old) × (answers.new.items ≡ answers.old.items)) (λ bytes. (datagram : TheVec ℕ) × (datagram.items ≡ bytes) × Takes stream coming.at datagram.items taken session.old session.new answers.old.items answers.new.items)) }
    ensures err { OnErr result ((bytes : List ℕ) × (slice_get (bytes_in datagrams.now) coming.datagram ≡ Option.Some bytes) × (session.new ≡ session.old)) }
{
    let Some(bytes) = datagrams.get(coming.datagram) else {
        return Ok(false);
    };
    take_in(session, stream, coming.at, bytes, answers)
}

/// Writes the retransmission of the datagram with this index under the first number of a stream of retransmissions. `None`: there is no
/// such datagram, it is no packet, or one of both payload types is above 127.
pub(crate) fn again_of(
    alloc: Global,
    stream: OriginalStream,
    again: RetransmissionStream,
    datagrams: &[Vec<u8>],
    datagram: usize,
) -> Result<Option<Vec<u8>>, AllocError>
    ensures { IfOk result (λ made. MatchOption made (repeated_in stream again (slice_get (bytes_in datagrams.now) datagram) ≡ Option.None) (λ bytes. (packet : Packet) × (repeated_in stream again (slice_get (bytes_in datagrams.now) datagram) ≡ Option.Some packet) × IsSpelled (slice_get (bytes_in datagrams.now) datagram) packet × IsAgain again packet bytes.items)) }
{
    let Some(bytes) = datagrams.get(datagram) else {
        return Ok(None);
    };
    retransmission_of(alloc, stream, again, bytes)
}

/// Returns the packet that a retransmission repeats.
///
/// # Errors
///
/// `OutOfMemory`.
pub(crate) fn original_of(
    alloc: Global,
    stream: OriginalStream,
    retransmission: &[u8],
) -> Result<Vec<u8>, PacketError>
    ensures ok { IfOk result (λ original. WritesOriginal stream retransmission.now original.items) }
    ensures fault { IfErr result (λ fault. fault ≡ OutOfMemory) }
{
    let mut original = Vec::new(alloc);
    if stream.write(retransmission, &mut original).is_err() {
        return Err(PacketError::OutOfMemory);
    }
    Ok(original)
}
