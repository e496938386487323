//! Whole runs over two hops with retransmissions to the viewer: a store keeps the datagrams that come to the forwarder, and the
//! forwarder answers the viewer's requests from it.

ghost use Rattle.std.specs.Prelude.{◌≡◌, ◌++◌, ℕ, List, map, slice_get, IfOk, IfErr, OnOk, OnErr};
ghost use Rattle.codec_payload_base.specs.declared.error.PacketError.TheVariants.{OutOfMemory};
ghost use Rattle.codec_payload_payloader.specs.Sending.{sample_of};
ghost use Rattle.codec_payload_datagram_runs.specs.WireRuns.{bytes_in};
ghost use Rattle.codec_payload_forward_runs.specs.StoreReleases.{ReleasesWithStore};
ghost use Rattle.codec_payload_forward_runs.specs.StoreRuns.{DoesStoreStep, KeepsFor, KeepsPacket, Requests, StoreRuns, StoreStops, StoreStopsAt, again_by, begins_with_store, stored_of};

use crate::run::{ForwardLink, ForwardStep, ForwardedRun, deliver, do_forward_step, no_results};
use codec_payload_base::error::PacketError;
use codec_payload_base::wire::{Ticks, ToPayload};
use codec_payload_codec::codec::{Depacketizer, Packetizer};
use codec_payload_sending_forward::forwarder::Forwarder;
use codec_payload_sending_history::retransmission::{History, KeepError};
use std::alloc::Global;

/// One step of a run with a forwarder and a store.
#[derive(Clone, Copy, Debug, PartialEq, Eq)]
pub enum StoreStep {
    /// A step of a run without a store. The store keeps each datagram that comes to the forwarder.
    Plain(ForwardStep),
    /// Passes the datagram with this index, from 0, among the datagrams sent so far, to the store alone, as before the viewer joins.
    /// Skipped if there is no such datagram.
    Keep { datagram: usize },
    /// The viewer requests the packet with this sequence number. If the store has the packet that was sent under it, the forwarder
    /// writes it again.
    Request { number: u16 },
    /// Passes the packet with this index, from 0, among the packets written again so far, to the viewer's receiver at this time.
    /// Skipped if there is no such packet.
    DeliverAgain { again: usize, now: Ticks },
}

/// The results of the steps.
#[derive(Debug, Drop)]
pub struct StoreRun {
    /// The results of a run without a store. `DeliverAgain` has a receipt as `Deliver` has.
    pub run: ForwardedRun,
    /// All packets that the forwarder wrote again, in order.
    pub again: Vec<Vec<u8>>,
    /// Whether the forwarder wrote a packet for each `Request` step, in order.
    pub found: Vec<bool>,
}

/// A sender, the forwarder of its datagrams, the receiver of a viewer, and a store of what came to the forwarder.
#[derive(Drop)]
pub struct StoreLink<P: Packetizer, D: Depacketizer> {
    pub link: ForwardLink<P, D>,
    pub store: History,
}

/// Executes the steps in order, as [`run_forwarded`](crate::run::run_forwarded) does, and answers the viewer's requests.
///
/// The store keeps each datagram that comes to the forwarder once ([`History::keep_once`]). A request may name any
/// number, any number of times. A packet that was written again is delivered any number of times, at any later moment.
///
/// # Errors
///
/// `OutOfMemory` ends the run: sender, forwarder, receiver and store are as the failed call left them, and the results of earlier
/// steps are discarded.
pub fn run_forwarded_with_store<P: Packetizer, D: Depacketizer>(
    alloc: Global,
    link: &mut StoreLink<P, D>,
    samples: &[ToPayload],
    steps: &[StoreStep],
) -> Result<StoreRun, PacketError>
    ensures runs { IfOk result (λ run. StoreRuns (map sample_of samples.now) steps.now (begins_with_store link.old.link.sender link.old.link.forwarder link.old.link.receiver link.old.store) (stored_of link.new.link.sender link.new.link.forwarder link.new.link.receiver link.new.store run)) }
    // What is written again, and what the viewer's receiver releases, if all that is delivered to it arrives within its windows.
    ensures units { IfOk result (λ run. ReleasesWithStore (map sample_of samples.now) steps.now (begins_with_store link.old.link.sender link.old.link.forwarder link.old.link.receiver link.old.store) (stored_of link.new.link.sender link.new.link.forwarder link.new.link.receiver link.new.store run)) }
    ensures stops { OnErr result (StoreStops (map sample_of samples.now) steps.now (begins_with_store link.old.link.sender link.old.link.forwarder link.old.link.receiver link.old.store) link.new.link.sender link.new.link.forwarder link.new.link.receiver link.new.store) }
    ensures fault { IfErr result (λ fault. fault ≡ OutOfMemory) }
{
    let mut run = StoreRun {
        run: no_results(alloc),
        again: Vec::new(alloc),
        found: Vec::new(alloc),
    };
    for step in steps {
        do_store_step(alloc, link, samples, *step, &mut run)?;
    }
    Ok(run)
}

/// Executes one step of [`run_forwarded_with_store`], and appends its results to those of the earlier steps. A step that names nothing
/// changes nothing.
///
/// # Errors
///
/// `OutOfMemory`: sender, forwarder, receiver and store are as the failed call left them. Discard the results, which may lack some of
/// this step.
pub fn do_store_step<P: Packetizer, D: Depacketizer>(
    alloc: Global,
    link: &mut StoreLink<P, D>,
    samples: &[ToPayload],
    step: StoreStep,
    run: &mut StoreRun,
) -> Result<(), PacketError>
    ensures ok { OnOk result (DoesStoreStep (map sample_of samples.now) step (stored_of link.old.link.sender link.old.link.forwarder link.old.link.receiver link.old.store run.old) (stored_of link.new.link.sender link.new.link.forwarder link.new.link.receiver link.new.store run.new)) }
    ensures err { OnErr result (StoreStopsAt (map sample_of samples.now) step (stored_of link.old.link.sender link.old.link.forwarder link.old.link.receiver link.old.store run.old) link.new.link.sender link.new.link.forwarder link.new.link.receiver link.new.store) }
    ensures fault { IfErr result (λ fault. fault ≡ OutOfMemory) }
{
    match step {
        StoreStep::Plain(step) => {
            keep(&mut link.store, &run.run.run.datagrams, step)?;
            do_forward_step(alloc, &mut link.link, samples, step, &mut run.run)
        }
        StoreStep::Keep { datagram } => {
            keep_datagram(&mut link.store, &run.run.run.datagrams, datagram)
        }
        StoreStep::Request { number } => {
            run.found.reserve(1)?;
            let found = write_again(
                alloc,
                &mut link.link.forwarder,
                &link.store,
                number,
                &mut run.again,
            )?;
            run.found.push(found).unwrap();
            Ok(())
        }
        StoreStep::DeliverAgain { again, now } => {
            let Some(bytes) = run.again.get(again) else {
                return Ok(());
            };
            run.run.run.receipts.reserve(1)?;
            let receipt = deliver(&mut link.link.receiver, now, bytes)?;
            run.run.run.receipts.push(receipt).unwrap();
            Ok(())
        }
    }
}

/// Keeps the datagram that comes to the forwarder in this step, if one does.
fn keep(store: &mut History, datagrams: &[Vec<u8>], step: ForwardStep) -> Result<(), PacketError>
    ensures ok { OnOk result (KeepsFor step (bytes_in datagrams.now) store.old store.new) }
    ensures err { OnErr result (store.new ≡ store.old) }
    ensures fault { IfErr result (λ fault. fault ≡ OutOfMemory) }
{
    let ForwardStep::Forward { datagram, .. } = step else {
        return Ok(());
    };
    keep_datagram(store, datagrams, datagram)
}

/// Keeps the datagram with this index, if there is one.
fn keep_datagram(
    store: &mut History,
    datagrams: &[Vec<u8>],
    datagram: usize,
) -> Result<(), PacketError>
    ensures ok { OnOk result (KeepsPacket (slice_get (bytes_in datagrams.now) datagram) store.old store.new) }
    ensures err { OnErr result (store.new ≡ store.old) }
    ensures fault { IfErr result (λ fault. fault ≡ OutOfMemory) }
{
    let Some(bytes) = datagrams.get(datagram) else {
        return Ok(());
    };
    match store.keep_once(bytes) {
        Ok(_) => Ok(()),
        Err(KeepError::Rtp(_)) => Ok(()),
        Err(KeepError::OutOfMemory) => Err(PacketError::OutOfMemory),
    }
}

/// Writes the packet again that the viewer requests, and appends it, if the store has it.
fn write_again(
    alloc: Global,
    forwarder: &mut Forwarder,
    store: &History,
    number: u16,
    again: &mut Vec<Vec<u8>>,
) -> Result<bool, PacketError>
    ensures ok { IfOk result (λ found. (bytes : List ℕ) × Requests number forwarder.old store.now found bytes forwarder.new × (bytes_in again.new.items ≡ bytes_in again.old.items ++ again_by found bytes)) }
    ensures err { OnErr result (forwarder.new ≡ forwarder.old) }
    ensures fault { IfErr result (λ fault. fault ≡ OutOfMemory) }
{
    again.reserve(1)?;
    let Some(packet) = forwarder.requested(number, store) else {
        return Ok(false);
    };
    let mut out = Vec::new(alloc);
    let written = forwarder.write_again(&packet, &mut out)?;
    if written {
        again.push(out).unwrap();
    }
    Ok(written)
}
