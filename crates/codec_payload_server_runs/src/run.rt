//! Whole runs of a media server: a session between the first hop and the forwarder.

ghost use Rattle.std.specs.Prelude.{◌≡◌, ◌++◌, ◌∷◌, [], Option, Result, IfOk, IfErr, OnOk, OnErr, map, MatchOption};
ghost use Rattle.std.specs.declared.alloc.AllocError.{AllocError as NoMemory};
ghost use Rattle.codec_payload_base.specs.declared.error.PacketError.TheVariants.{OutOfMemory};
ghost use Rattle.codec_payload_payloader.specs.Sending.{sample_of};
ghost use Rattle.codec_payload_receiver.specs.Sessions.{Session as Receiver};
ghost use Rattle.codec_payload_rtp.specs.RtpPackets.{IsRtp, Packet};
ghost use Rattle.codec_payload_sending.specs.Senders.{Sending};
ghost use Rattle.codec_payload_session.specs.Accepting.{Accepts, time_for};
ghost use Rattle.codec_payload_session_stream.specs.declared.arrival.Arrival.{Arrival as TheArrival};
ghost use Rattle.codec_payload_session_runs.specs.declared.run.StepAnswer.TheVariants.{Received};
ghost use Rattle.codec_payload_forward_runs.specs.ForwardRuns.{Comes, hops_of, packet_in};
ghost use Rattle.codec_payload_server_runs.specs.ServeReleases.{KeepsPromisesServed, ReleasesServed, ServesAsSession, ServesPackets};
ghost use Rattle.codec_payload_server_runs.specs.ServeRuns.{Arrives, ComesUnwrapped, DoesHop, DoesServeStep, IsAgain, ServeRuns, ServeStops, ServeStopsAt, StopsArriving, StopsHop, begins_serving, is_taken_as, repeated_in, served_of};
ghost use Rattle.codec_payload_server_runs.specs.declared.run.ServeStep.TheVariants.{Arrive};

use codec_payload_base::error::PacketError;
use codec_payload_base::wire::{Ticks, ToPayload};
use codec_payload_codec::codec::{Depacketizer, Packetizer};
use codec_payload_forward_runs::run::{
    ForwardLink, ForwardStep, ForwardedRun, do_forward_step, forward, no_results,
};
use codec_payload_rtp::rtp::{PacketHeader, RtpPacket};
use codec_payload_sending_forward::forwarder::Forwarder;
use codec_payload_sending_history::original::OriginalStream;
use codec_payload_sending_history::retransmission::RetransmissionStream;
use codec_payload_session::session::{Arrival, Session};
use codec_payload_session_runs::run::{SessionStep, StepAnswer, do_step, receive};
use std::alloc::{AllocError, Global};

/// When a datagram comes to a media server.
#[derive(Clone, Copy, Debug, PartialEq, Eq)]
pub struct Moment {
    /// The time for the session, in its ticks.
    pub now: Ticks,
    /// The time for [`Session::receive_at`], in microseconds. `None`: the session gets the datagram by [`Session::receive`].
    pub micros: Option<u64>,
    /// The time for the forwarder, in units of the viewer's RTP time.
    pub time: u64,
}

/// One step of a run of a media server.
#[derive(Debug, Drop)]
pub enum ServeStep {
    /// Sends the sample with this index. Skipped if there is no such sample.
    Send(usize),
    /// The datagram with this index, from 0, among the datagrams sent so far, comes to the session of the media server. If the
    /// session takes it as one of the stream of [`ServeLink`], it comes to the forwarder too. Skipped if there is no such datagram.
    Arrive {
        datagram: usize,
        at: Moment,
    },
    /// A retransmission (RFC 4588) of the datagram with this index comes to the session, under the first number of this stream. If the
    /// session takes it as one of the stream of [`ServeLink`], it is unwrapped, and comes to the forwarder too. Skipped if there is no
    /// such datagram, or one of both payload types is above 127.
    Repeat {
        datagram: usize,
        again: RetransmissionStream,
        at: Moment,
    },
    /// Makes any call of the session: a poll, or a datagram of another sender.
    Call(SessionStep),
    /// Passes the datagram with this index, from 0, among those that the forwarder wrote so far, to the viewer's receiver at this
    /// time. Skipped if there is no such datagram.
    Deliver {
        written: usize,
        now: Ticks,
    },
    /// Pops from the viewer's receiver at this time.
    Pop {
        now: Ticks,
    },
    /// Ends the viewer's stream.
    Finish,
}

/// The results of the steps.
#[derive(Debug, Drop)]
pub struct ServedRun {
    /// The sent datagrams, what the forwarder wrote and answered, and the results of sends, deliveries and pops.
    pub run: ForwardedRun,
    /// The answer of the session to each step that calls it, in order: `Arrive`, `Repeat` and `Call`, without skipped steps.
    pub answers: Vec<StepAnswer>,
}

/// A sender, a media server that gets its datagrams, and the receiver of a viewer.
#[derive(Drop)]
pub struct ServeLink<P: Packetizer, D: Depacketizer> {
    /// The sender, the forwarder of the media server, and the viewer's receiver.
    pub link: ForwardLink<P, D>,
    /// The session of the media server. It may have any other streams.
    pub session: Session,
    /// The stream whose datagrams the media server forwards.
    pub stream: OriginalStream,
}

/// Executes the steps in order: sends samples, passes sent datagrams and retransmissions to the session and then to the forwarder,
/// calls the session, delivers what the forwarder wrote to the viewer's receiver, and pops.
///
/// A datagram that no `Arrive` or `Repeat` step names is lost on the first hop, and one that no `Deliver` step names on the second.
/// Steps may name a datagram any number of times, in any order. If memory runs out for a call of the session, its answer says so, and
/// the run goes on. Call [`Forwarder::want`] with the SSRC of the stream before, else nothing is forwarded.
///
/// # Errors
///
/// `OutOfMemory` ends the run: sender, session, forwarder and receiver are as the failed call left them, and the results of earlier
/// steps are discarded.
pub fn run_served<P: Packetizer, D: Depacketizer>(
    alloc: Global,
    link: &mut ServeLink<P, D>,
    samples: &[ToPayload],
    steps: &[ServeStep],
) -> Result<ServedRun, PacketError>
    ensures runs { IfOk result (λ run. ServeRuns link.old.stream (map sample_of samples.now) steps.now (begins_serving link.old.link.sender link.old.link.forwarder link.old.link.receiver link.old.session) (served_of link.new.link.sender link.new.link.forwarder link.new.link.receiver link.new.session run)) }
    // The session: it gets the datagrams that arrive, beside all other calls. So each of its streams is a receiver alone.
    ensures session { IfOk result (λ run. ServesAsSession link.old.stream (map sample_of samples.now) steps.now (begins_serving link.old.link.sender link.old.link.forwarder link.old.link.receiver link.old.session) (served_of link.new.link.sender link.new.link.forwarder link.new.link.receiver link.new.session run)) }
    // What the forwarder writes: each datagram that it forwards, except for the fields of the viewer's stream.
    ensures forwards { IfOk result (λ run. ServesPackets link.old.stream (map sample_of samples.now) steps.now (begins_serving link.old.link.sender link.old.link.forwarder link.old.link.receiver link.old.session) (served_of link.new.link.sender link.new.link.forwarder link.new.link.receiver link.new.session run)) }
    // The units that the viewer's receiver releases, if what is delivered to it arrives within its windows.
    ensures units { IfOk result (λ run. ReleasesServed link.old.stream (map sample_of samples.now) steps.now (begins_serving link.old.link.sender link.old.link.forwarder link.old.link.receiver link.old.session) (served_of link.new.link.sender link.new.link.forwarder link.new.link.receiver link.new.session run)) }
    // Pop by pop: what the receiver holds, which units are contiguous, and that none is lost silently.
    ensures promises { IfOk result (λ run. KeepsPromisesServed link.old.stream (map sample_of samples.now) steps.now (begins_serving link.old.link.sender link.old.link.forwarder link.old.link.receiver link.old.session) (served_of link.new.link.sender link.new.link.forwarder link.new.link.receiver link.new.session run)) }
    ensures stream { link.new.stream ≡ link.old.stream }
    ensures stops { OnErr result (ServeStops link.old.stream (map sample_of samples.now) steps.now (begins_serving link.old.link.sender link.old.link.forwarder link.old.link.receiver link.old.session) link.new.link.sender link.new.link.forwarder link.new.link.receiver link.new.session) }
    ensures fault { IfErr result (λ fault. fault ≡ OutOfMemory) }
{
    let mut run = ServedRun {
        run: no_results(alloc),
        answers: Vec::new(alloc),
    };
    for step in steps {
        do_serve_step(alloc, link, samples, step, &mut run)?;
    }
    Ok(run)
}

/// Executes one step, and records its result.
fn do_serve_step<P: Packetizer, D: Depacketizer>(
    alloc: Global,
    link: &mut ServeLink<P, D>,
    samples: &[ToPayload],
    step: &ServeStep,
    run: &mut ServedRun,
) -> Result<(), PacketError>
    ensures ok { OnOk result (DoesServeStep link.old.stream (map sample_of samples.now) step.now (served_of link.old.link.sender link.old.link.forwarder link.old.link.receiver link.old.session run.old) (served_of link.new.link.sender link.new.link.forwarder link.new.link.receiver link.new.session run.new)) }
    ensures stream { link.new.stream ≡ link.old.stream }
    ensures err { OnErr result (ServeStopsAt link.old.stream (map sample_of samples.now) step.now (served_of link.old.link.sender link.old.link.forwarder link.old.link.receiver link.old.session run.old) link.new.link.sender link.new.link.forwarder link.new.link.receiver link.new.session) }
    ensures fault { IfErr result (λ fault. fault ≡ OutOfMemory) }
{
    match step {
        ServeStep::Send(sample) => hop(alloc, link, samples, ForwardStep::Send(*sample), run),
        ServeStep::Arrive { datagram, at } => arrive(alloc, link, *datagram, *at, run),
        ServeStep::Repeat {
            datagram,
            again,
            at,
        } => {
            let Some(bytes) = run.run.run.datagrams.get(*datagram) else {
                return Ok(());
            };
            let Some(retransmission) = retransmission_of(alloc, link.stream, *again, bytes)? else {
                return Ok(());
            };
            repeat(alloc, link, &retransmission, *at, run)
        }
        ServeStep::Call(step) => {
            run.answers.reserve(1)?;
            let answer = do_step(&mut link.session, step);
            run.answers.push(answer).unwrap();
            Ok(())
        }
        ServeStep::Deliver { written, now } => {
            let step = ForwardStep::Deliver {
                written: *written,
                now: *now,
            };
            hop(alloc, link, samples, step, run)
        }
        ServeStep::Pop { now } => hop(alloc, link, samples, ForwardStep::Pop { now: *now }, run),
        ServeStep::Finish => hop(alloc, link, samples, ForwardStep::Finish, run),
    }
}

/// Executes a step that the session does not see.
fn hop<P: Packetizer, D: Depacketizer>(
    alloc: Global,
    link: &mut ServeLink<P, D>,
    samples: &[ToPayload],
    step: ForwardStep,
    run: &mut ServedRun,
) -> Result<(), PacketError>
    ensures ok { OnOk result (DoesHop (map sample_of samples.now) step (served_of link.old.link.sender link.old.link.forwarder link.old.link.receiver link.old.session run.old) (served_of link.new.link.sender link.new.link.forwarder link.new.link.receiver link.new.session run.new)) }
    ensures stream { link.new.stream ≡ link.old.stream }
    ensures err { OnErr result (StopsHop (map sample_of samples.now) step (served_of link.old.link.sender link.old.link.forwarder link.old.link.receiver link.old.session run.old) link.new.link.sender link.new.link.forwarder link.new.link.receiver link.new.session) }
    ensures fault { IfErr result (λ fault. fault ≡ OutOfMemory) }
{
    do_forward_step(alloc, &mut link.link, samples, step, &mut run.run)
}

/// The datagram with this index comes to the session, and may come to the forwarder.
fn arrive<P: Packetizer, D: Depacketizer>(
    alloc: Global,
    link: &mut ServeLink<P, D>,
    datagram: usize,
    at: Moment,
    run: &mut ServedRun,
) -> Result<(), PacketError>
    ensures ok { OnOk result (DoesServeStep link.old.stream [] (Arrive datagram at) (served_of link.old.link.sender link.old.link.forwarder link.old.link.receiver link.old.session run.old) (served_of link.new.link.sender link.new.link.forwarder link.new.link.receiver link.new.session run.new)) }
    ensures stream { link.new.stream ≡ link.old.stream }
    ensures err { OnErr result (ServeStopsAt link.old.stream [] (Arrive datagram at) (served_of link.old.link.sender link.old.link.forwarder link.old.link.receiver link.old.session run.old) link.new.link.sender link.new.link.forwarder link.new.link.receiver link.new.session) }
    ensures fault { IfErr result (λ fault. fault ≡ OutOfMemory) }
{
    let Some(bytes) = run.run.run.datagrams.get(datagram) else {
        return Ok(());
    };
    let taken = take_in(&mut link.session, link.stream, at, bytes, &mut run.answers)?;
    if !taken {
        return Ok(());
    }
    let step = ForwardStep::Forward {
        datagram,
        now: at.time,
    };
    do_forward_step(alloc, &mut link.link, &[], step, &mut run.run)
}

/// The retransmission comes to the session, and what it repeats may come to the forwarder.
fn repeat<P: Packetizer, D: Depacketizer>(
    alloc: Global,
    link: &mut ServeLink<P, D>,
    retransmission: &[u8],
    at: Moment,
    run: &mut ServedRun,
) -> Result<(), PacketError>
    ensures ok { OnOk result (Arrives link.old.stream at retransmission.now (ComesUnwrapped link.old.stream retransmission.now at.time) (served_of link.old.link.sender link.old.link.forwarder link.old.link.receiver link.old.session run.old) (served_of link.new.link.sender link.new.link.forwarder link.new.link.receiver link.new.session run.new)) }
    ensures stream { link.new.stream ≡ link.old.stream }
    ensures err { OnErr result (StopsArriving link.old.stream at retransmission.now (served_of link.old.link.sender link.old.link.forwarder link.old.link.receiver link.old.session run.old) link.new.link.sender link.new.link.forwarder link.new.link.receiver link.new.session) }
    ensures fault { IfErr result (λ fault. fault ≡ OutOfMemory) }
{
    let taken = take_in(
        &mut link.session,
        link.stream,
        at,
        retransmission,
        &mut run.answers,
    )?;
    if !taken {
        return Ok(());
    }
    let mut original = Vec::new(alloc);
    if link.stream.write(retransmission, &mut original).is_err() {
        return Err(PacketError::OutOfMemory);
    }
    forward_bytes(
        alloc,
        &mut link.link.forwarder,
        at.time,
        &original,
        &mut run.run,
    )
}

/// The session receives a datagram, and its answer is recorded. Returns whether it took the datagram as one of the stream.
///
/// # Errors
///
/// Out of memory for the record: the session is unchanged.
pub(crate) fn take_in(
    session: &mut Session,
    stream: OriginalStream,
    at: Moment,
    datagram: &[u8],
    answers: &mut Vec<StepAnswer>,
) -> Result<bool, AllocError>
    ensures ok { IfOk result (λ taken. (arrival : Result TheArrival NoMemory) × Accepts (time_for at.micros at.now session.old) at.now datagram.now session.old arrival session.new × (taken ≡ is_taken_as stream arrival) × (answers.new.items ≡ answers.old.items ++ Received arrival ∷ [])) }
    ensures err { OnErr result (session.new ≡ session.old) }
{
    answers.reserve(1)?;
    let arrival = receive(session, at.now, at.micros, datagram);
    let taken = is_taken_as(stream, &arrival);
    answers.push(StepAnswer::Received(arrival)).unwrap();
    Ok(taken)
}

/// Returns whether the session took the datagram as one of this stream, whatever the stream did with it.
fn is_taken_as(stream: OriginalStream, arrival: &Result<Arrival, AllocError>) -> bool
    ensures { result ≡ is_taken_as stream arrival.now }
{
    match arrival {
        Ok(
            Arrival::Stream {
                ssrc,
                payload_type,
                ..
            },
        ) => *ssrc == stream.ssrc && *payload_type == stream.payload_type,
        _ => false,
    }
}

/// Writes the retransmission of a datagram under the first number of a stream of retransmissions. `None`: the datagram is no packet, or
/// one of both payload types is above 127.
pub(crate) fn retransmission_of(
    alloc: Global,
    stream: OriginalStream,
    again: RetransmissionStream,
    datagram: &[u8],
) -> Result<Option<Vec<u8>>, AllocError>
    ensures { IfOk result (λ made. MatchOption made (repeated_in stream again (Option.Some datagram.now) ≡ Option.None) (λ bytes. (packet : Packet) × (repeated_in stream again (Option.Some datagram.now) ≡ Option.Some packet) × IsAgain again packet bytes.items × IsRtp datagram.now packet)) }
{
    if stream.payload_type > 127 || again.payload_type > 127 {
        return Ok(None);
    }
    let Ok(packet) = RtpPacket::parse(datagram) else {
        return Ok(None);
    };
    let header = PacketHeader {
        payload_type: again.payload_type,
        sequence_number: again.first_number,
        ssrc: again.ssrc,
        ..packet.header
    };
    let mut out = Vec::new(alloc);
    header.write(&mut out)?;
    out.extend_from_slice(&packet.header.sequence_number.to_be_bytes())?;
    out.extend_from_slice(packet.payload)?;
    Ok(Some(out))
}

/// Passes a datagram to the forwarder, and records what the forwarder did with it.
pub(crate) fn forward_bytes(
    alloc: Global,
    forwarder: &mut Forwarder,
    time: u64,
    datagram: &[u8],
    run: &mut ForwardedRun,
) -> Result<(), PacketError>
    ensures ok { OnOk result ((sending : Sending) (receiver : Receiver) → Comes (packet_in (Option.Some datagram.now)) time (hops_of sending forwarder.old receiver run.old) (hops_of sending forwarder.new receiver run.new)) }
    ensures err { OnErr result (forwarder.new ≡ forwarder.old) }
    ensures fault { IfErr result (λ fault. fault ≡ OutOfMemory) }
{
    let Ok(packet) = RtpPacket::parse(datagram) else {
        return Ok(());
    };
    run.answers.reserve(1)?;
    let answer = forward(alloc, forwarder, time, &packet, &mut run.written)?;
    run.answers.push(answer).unwrap();
    Ok(())
}
