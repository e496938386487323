//! Whole runs of a media server with a store: what the session takes as one of the stream comes to the store and to the forwarder, and
//! the forwarder answers the viewer's requests from the store.

ghost use Rattle.std.specs.Prelude.{◌≡◌, [], map, Option, IfOk, IfErr, OnOk, OnErr};
ghost use Rattle.codec_payload_base.specs.declared.error.PacketError.TheVariants.{OutOfMemory};
ghost use Rattle.codec_payload_payloader.specs.Sending.{sample_of};
ghost use Rattle.codec_payload_forward_runs.specs.StoreRuns.{KeepsPacket};
ghost use Rattle.codec_payload_server_runs.specs.ServeStoreReleases.{ReleasesServedWithStore, ServesStoreAsSession};
ghost use Rattle.codec_payload_server_runs.specs.ServeStoreRuns.{DoesServeStoreStep, DoesWithStore, PassesToStore, ServeStoreRuns, ServeStoreStops, ServeStoreStopsAt, StopsPassing, StopsWithStore, StaysAll, begins_serving_with_store, left_by, served_store_of, stored_as};
ghost use Rattle.codec_payload_server_runs.specs.Serving.{ComesTo, PassesUnwrapped, StopsComing, StopsUnwrapping, hop_of, serves};
ghost use Rattle.codec_payload_forward_runs.specs.declared.run.ForwardStep.TheVariants.{Forward};
ghost use Rattle.codec_payload_server_runs.specs.declared.run.ServeStep.TheVariants.{Arrive};

use crate::run::{ServeStep, forward_bytes, take_in};
use crate::serving::{Coming, again_of, call, hop_of, original_of, take_sent};
use codec_payload_base::error::PacketError;
use codec_payload_base::wire::{Ticks, ToPayload};
use codec_payload_codec::codec::{Depacketizer, Packetizer};
use codec_payload_forward_runs::run::{ForwardStep, no_results};
use codec_payload_forward_runs::store_run::{StoreLink, StoreRun, StoreStep, do_store_step};
use codec_payload_sending_history::original::OriginalStream;
use codec_payload_sending_history::retransmission::{History, KeepError};
use codec_payload_session::session::Session;
use codec_payload_session_runs::run::StepAnswer;
use std::alloc::Global;

/// One step of a run of a media server with a store.
#[derive(Debug, Drop)]
pub enum ServeStoreStep {
    /// A step of a run without a store. What comes to the forwarder comes to the store before.
    Plain(ServeStep),
    /// The same before the viewer joins: what the session takes as one of the stream comes to the store alone.
    Keep(ServeStep),
    /// The viewer requests the packet with this sequence number. If the store has the packet that was sent under it, the forwarder
    /// writes it again.
    Request { number: u16 },
    /// Passes the packet with this index, from 0, among the packets written again so far, to the viewer's receiver at this time.
    /// Skipped if there is no such packet.
    DeliverAgain { again: usize, now: Ticks },
}

/// The results of the steps.
#[derive(Debug, Drop)]
pub struct ServedStoreRun {
    /// The results of a run with a forwarder and a store.
    pub run: StoreRun,
    /// The answer of the session to each step that calls it, in order: `Arrive`, `Repeat` and `Call`, without skipped steps.
    pub answers: Vec<StepAnswer>,
}

/// A sender, a media server with a store that gets its datagrams, and the receiver of a viewer.
#[derive(Drop)]
pub struct ServeStoreLink<P: Packetizer, D: Depacketizer> {
    /// The sender, the forwarder and the store of the media server, and the viewer's receiver.
    pub link: StoreLink<P, D>,
    /// The session of the media server. It may have any other streams.
    pub session: Session,
    /// The stream whose datagrams the media server keeps and forwards.
    pub stream: OriginalStream,
}

/// Executes the steps in order, as [`run_served`](crate::run::run_served) does, and answers the viewer's requests.
///
/// The store keeps each datagram that the session takes as one of the stream once ([`History::keep_once`]), also what is unwrapped from a
/// retransmission. A viewer that joins late gets the datagrams of later steps, and on request those that the store has.
///
/// # Errors
///
/// `OutOfMemory` ends the run: sender, session, forwarder, receiver and store are as the failed call left them, and the results of
/// earlier steps are discarded.
pub fn run_served_with_store<P: Packetizer, D: Depacketizer>(
    alloc: Global,
    link: &mut ServeStoreLink<P, D>,
    samples: &[ToPayload],
    steps: &[ServeStoreStep],
) -> Result<ServedStoreRun, PacketError>
    ensures runs { IfOk result (λ run. ServeStoreRuns link.old.stream (map sample_of samples.now) steps.now (begins_serving_with_store link.old.link.link.sender link.old.link.link.forwarder link.old.link.link.receiver link.old.link.store link.old.session) (served_store_of link.new.link.link.sender link.new.link.link.forwarder link.new.link.link.receiver link.new.link.store link.new.session run)) }
    // The session: it gets the datagrams that arrive, beside all other calls. So each of its streams is a receiver alone.
    ensures session { IfOk result (λ run. ServesStoreAsSession link.old.stream (map sample_of samples.now) steps.now (begins_serving_with_store link.old.link.link.sender link.old.link.link.forwarder link.old.link.link.receiver link.old.link.store link.old.session) (served_store_of link.new.link.link.sender link.new.link.link.forwarder link.new.link.link.receiver link.new.link.store link.new.session run)) }
    // What is written again, and what the viewer's receiver releases, if all that is delivered to it arrives within its windows.
    ensures units { IfOk result (λ run. ReleasesServedWithStore link.old.stream (map sample_of samples.now) steps.now (begins_serving_with_store link.old.link.link.sender link.old.link.link.forwarder link.old.link.link.receiver link.old.link.store link.old.session) (served_store_of link.new.link.link.sender link.new.link.link.forwarder link.new.link.link.receiver link.new.link.store link.new.session run)) }
    ensures stream { link.new.stream ≡ link.old.stream }
    ensures stops { OnErr result (ServeStoreStops link.old.stream (map sample_of samples.now) steps.now (begins_serving_with_store link.old.link.link.sender link.old.link.link.forwarder link.old.link.link.receiver link.old.link.store link.old.session) (left_by link.new.link.link.sender link.new.link.link.forwarder link.new.link.link.receiver link.new.link.store) link.new.session) }
    ensures fault { IfErr result (λ fault. fault ≡ OutOfMemory) }
{
    let mut run = ServedStoreRun {
        run: StoreRun {
            run: no_results(alloc),
            again: Vec::new(alloc),
            found: Vec::new(alloc),
        },
        answers: Vec::new(alloc),
    };
    for step in steps {
        do_serve_store_step(alloc, link, samples, step, &mut run)?;
    }
    Ok(run)
}

/// Executes one step, and records its result.
fn do_serve_store_step<P: Packetizer, D: Depacketizer>(
    alloc: Global,
    link: &mut ServeStoreLink<P, D>,
    samples: &[ToPayload],
    step: &ServeStoreStep,
    run: &mut ServedStoreRun,
) -> Result<(), PacketError>
    ensures ok { OnOk result (DoesServeStoreStep link.old.stream (map sample_of samples.now) step.now (served_store_of link.old.link.link.sender link.old.link.link.forwarder link.old.link.link.receiver link.old.link.store link.old.session run.old) (served_store_of link.new.link.link.sender link.new.link.link.forwarder link.new.link.link.receiver link.new.link.store link.new.session run.new)) }
    ensures stream { link.new.stream ≡ link.old.stream }
    ensures err { OnErr result (ServeStoreStopsAt link.old.stream (map sample_of samples.now) step.now (served_store_of link.old.link.link.sender link.old.link.link.forwarder link.old.link.link.receiver link.old.link.store link.old.session run.old) (left_by link.new.link.link.sender link.new.link.link.forwarder link.new.link.link.receiver link.new.link.store) link.new.session) }
    ensures fault { IfErr result (λ fault. fault ≡ OutOfMemory) }
{
    match step {
        ServeStoreStep::Plain(step) => {
            match hop_of(step) {
                Some(hop) => {
                    let hop = StoreStep::Plain(hop);
                    do_store_step(alloc, &mut link.link, samples, hop, &mut run.run)
                }
                None => come(alloc, link, step, true, run),
            }
        }
        ServeStoreStep::Keep(step) => {
            match hop_of(step) {
                Some(hop) => {
                    let hop = StoreStep::Plain(hop);
                    do_store_step(alloc, &mut link.link, samples, hop, &mut run.run)
                }
                None => come(alloc, link, step, false, run),
            }
        }
        ServeStoreStep::Request { number } => {
            let step = StoreStep::Request { number: *number };
            do_store_step(alloc, &mut link.link, samples, step, &mut run.run)
        }
        ServeStoreStep::DeliverAgain { again, now } => {
            let step = StoreStep::DeliverAgain {
                again: *again,
                now: *now,
            };
            do_store_step(alloc, &mut link.link, samples, step, &mut run.run)
        }
    }
}

/// The session gets the call of this step, and what it takes passes on.
fn come<P: Packetizer, D: Depacketizer>(
    alloc: Global,
    link: &mut ServeStoreLink<P, D>,
    step: &ServeStep,
    plain: bool,
    run: &mut ServedStoreRun,
) -> Result<(), PacketError>
    requires { hop_of step.now ≡ Option.None }
    ensures ok { OnOk result (DoesWithStore link.old.stream [] (serves plain step.now) (served_store_of link.old.link.link.sender link.old.link.link.forwarder link.old.link.link.receiver link.old.link.store link.old.session run.old) (served_store_of link.new.link.link.sender link.new.link.link.forwarder link.new.link.link.receiver link.new.link.store link.new.session run.new)) }
    ensures stream { link.new.stream ≡ link.old.stream }
    ensures err { OnErr result (StopsWithStore link.old.stream [] (serves plain step.now) (served_store_of link.old.link.link.sender link.old.link.link.forwarder link.old.link.link.receiver link.old.link.store link.old.session run.old) (left_by link.new.link.link.sender link.new.link.link.forwarder link.new.link.link.receiver link.new.link.store) link.new.session) }
    ensures fault { IfErr result (λ fault. fault ≡ OutOfMemory) }
{
    match step {
        ServeStep::Arrive { datagram, at } => {
            let coming = Coming {
                datagram: *datagram,
                at: *at,
                plain,
            };
            arrive(alloc, link, coming, run)
        }
        ServeStep::Repeat {
            datagram,
            again,
            at,
        } => {
            let datagrams = &run.run.run.run.datagrams;
            let made = again_of(alloc, link.stream, *again, datagrams, *datagram)?;
            let Some(retransmission) = made else {
                return Ok(());
            };
            let coming = Coming {
                datagram: *datagram,
                at: *at,
                plain,
            };
            repeat(alloc, link, &retransmission, coming, run)
        }
        ServeStep::Call(step) => {
            call(&mut link.session, step, &mut run.answers)?;
            Ok(())
        }
        _ => Ok(()),
    }
}

/// The datagram comes to the session, and may come to the store and to the forwarder.
fn arrive<P: Packetizer, D: Depacketizer>(
    alloc: Global,
    link: &mut ServeStoreLink<P, D>,
    coming: Coming,
    run: &mut ServedStoreRun,
) -> Result<(), PacketError>
    ensures ok { OnOk result (DoesWithStore link.old.stream [] (serves coming.plain (Arrive coming.datagram coming.at)) (served_store_of link.old.link.link.sender link.old.link.link.forwarder link.old.link.link.receiver link.old.link.store link.old.session run.old) (served_store_of link.new.link.link.sender link.new.link.link.forwarder link.new.link.link.receiver link.new.link.store link.new.session run.new)) }
    ensures stream { link.new.stream ≡ link.old.stream }
    ensures err { OnErr result (StopsWithStore link.old.stream [] (serves coming.plain (Arrive coming.datagram coming.at)) (served_store_of link.old.link.link.sender link.old.link.link.forwarder link.old.link.link.receiver link.old.link.store link.old.session run.old) (left_by link.new.link.link.sender link.new.link.link.forwarder link.new.link.link.receiver link.new.link.store) link.new.session) }
    ensures fault { IfErr result (λ fault. fault ≡ OutOfMemory) }
{
    let datagrams = &run.run.run.run.datagrams;
    let taken = take_sent(
        &mut link.session,
        link.stream,
        coming,
        datagrams,
        &mut run.answers,
    )?;
    if !taken {
        return Ok(());
    }
    let step = passing_step(coming);
    do_store_step(alloc, &mut link.link, &[], step, &mut run.run)
}

/// Returns the step of the run with a store that passes the datagram on.
fn passing_step(coming: Coming) -> StoreStep
    ensures { result ≡ stored_as (Forward coming.datagram coming.at.time) coming.plain }
{
    let datagram = coming.datagram;
    if coming.plain {
        let now = coming.at.time;
        StoreStep::Plain(ForwardStep::Forward { datagram, now })
    } else {
        StoreStep::Keep { datagram }
    }
}

/// The retransmission comes to the session, and what it repeats may come to the store and to the forwarder.
fn repeat<P: Packetizer, D: Depacketizer>(
    alloc: Global,
    link: &mut ServeStoreLink<P, D>,
    retransmission: &[u8],
    coming: Coming,
    run: &mut ServedStoreRun,
) -> Result<(), PacketError>
    ensures ok { OnOk result (ComesTo link.old.stream coming.at retransmission.now (PassesUnwrapped link.old.stream retransmission.now (PassesToStore coming.plain coming.at.time)) (served_store_of link.old.link.link.sender link.old.link.link.forwarder link.old.link.link.receiver link.old.link.store link.old.session run.old) (served_store_of link.new.link.link.sender link.new.link.link.forwarder link.new.link.link.receiver link.new.link.store link.new.session run.new)) }
    ensures stream { link.new.stream ≡ link.old.stream }
    ensures err { OnErr result (StopsComing link.old.stream coming.at retransmission.now (StaysAll (left_by link.new.link.link.sender link.new.link.link.forwarder link.new.link.link.receiver link.new.link.store)) (StopsUnwrapping link.old.stream retransmission.now (StaysAll (left_by link.new.link.link.sender link.new.link.link.forwarder link.new.link.link.receiver link.new.link.store)) (StopsPassing (left_by link.new.link.link.sender link.new.link.link.forwarder link.new.link.link.receiver link.new.link.store) coming.plain)) (served_store_of link.old.link.link.sender link.old.link.link.forwarder link.old.link.link.receiver link.old.link.store link.old.session run.old) link.new.session) }
    ensures fault { IfErr result (λ fault. fault ≡ OutOfMemory) }
{
    let taken = take_in(
        &mut link.session,
        link.stream,
        coming.at,
        retransmission,
        &mut run.answers,
    )?;
    if !taken {
        return Ok(());
    }
    let original = original_of(alloc, link.stream, retransmission)?;
    keep(&mut link.link.store, &original)?;
    if !coming.plain {
        return Ok(());
    }
    forward_bytes(
        alloc,
        &mut link.link.link.forwarder,
        coming.at.time,
        &original,
        &mut run.run.run,
    )
}

/// The store keeps a datagram, if it is a packet.
///
/// # Errors
///
/// `OutOfMemory`: the store is unchanged.
fn keep(store: &mut History, datagram: &[u8]) -> Result<(), PacketError>
    ensures ok { OnOk result (KeepsPacket (Option.Some datagram.now) store.old store.new) }
    ensures err { OnErr result (store.new ≡ store.old) }
    ensures fault { IfErr result (λ fault. fault ≡ OutOfMemory) }
{
    match store.keep_once(datagram) {
        Ok(_) => Ok(()),
        Err(KeepError::Rtp(_)) => Ok(()),
        Err(KeepError::OutOfMemory) => Err(PacketError::OutOfMemory),
    }
}
