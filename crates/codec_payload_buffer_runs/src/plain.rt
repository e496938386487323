//! Runs without RED.

ghost use Rattle.std.specs.Prelude.{◌≡◌, ◌++◌, List, map, IfOk, IfErr, OnOk, OnErr, Option, Result};
ghost use Rattle.codec_payload_base.specs.declared.error.PacketError.TheVariants.{OutOfMemory};
ghost use Rattle.codec_payload_buffer.specs.Steps.{State};
ghost use Rattle.codec_payload_payloader.specs.Packets.{packet_of};
ghost use Rattle.codec_payload_payloader.specs.Sending.{sample_of};
ghost use Rattle.codec_payload_buffer_runs.specs.RunPromises.{KeepsPromises, ran};
ghost use Rattle.codec_payload_buffer_runs.specs.Schedule.{run_state, SendsIt, StopsSending, DoesStep, StopsAt, Stops, Answer, Pushes};
ghost use Rattle.codec_payload_buffer_runs.specs.declared.run.Sent.{Sent as Entry};

use crate::run::{Run, Sent, Step, pop_step, push_copy, refusal};
use codec_payload_base::error::PacketError;
use codec_payload_base::wire::{Frequency, MediaTime, Ticks, ToPayload};
use codec_payload_buffer::buffer::{DepacketizingBuffer, RtpMeta};
use codec_payload_codec::codec::{Depacketizer, Packetizer};
use codec_payload_payloader::memory_sink::MemorySink;
use codec_payload_payloader::payloader::Payloader;
use codec_payload_payloader::sink::OutgoingPacket;
use std::alloc::Global;

/// A step, its place from 0, and the samples that it may name.
#[derive(Drop)]
pub(crate) struct Turn<'a> {
    pub(crate) samples: &'a [ToPayload],
    pub(crate) place: usize,
    pub(crate) step: Step,
}

/// A sample to be sent by the step at `place`, cut for an MTU in bytes.
#[derive(Drop)]
pub(crate) struct Sending<'a> {
    pub(crate) sample: &'a ToPayload,
    pub(crate) mtu: usize,
    pub(crate) place: usize,
}

/// A packet to be pushed by the step at `place`, with an RTP clock of this rate.
#[derive(Drop)]
pub(crate) struct Pushing<'a> {
    pub(crate) packet: &'a OutgoingPacket,
    pub(crate) clock_rate: Frequency,
    pub(crate) place: usize,
}

/// Does the steps of a run in order, without RED.
pub(crate) fn run_plain<P: Packetizer, D: Depacketizer>(
    alloc: Global,
    payloader: &mut Payloader<P>,
    buffer: &mut DepacketizingBuffer<D>,
    sink: &mut MemorySink,
    samples: &[ToPayload],
    steps: &[Step],
) -> Result<Run, PacketError>
    ensures promises { IfOk result (λ run. KeepsPromises (ran samples.now steps.now (run_state payloader.old buffer.old sink.old) run (run_state payloader.new buffer.new sink.new))) }
    ensures limit { buffer.new.limit ≡ buffer.old.limit }
    ensures fault { IfErr result (λ fault. fault ≡ OutOfMemory) }
    ensures stops { OnErr result (Stops (map sample_of samples.now) 0 steps.now (run_state payloader.old buffer.old sink.old)
        (run_state payloader.new buffer.new sink.new)) }
{
    let mut run = Run {
        sends: Vec::new(alloc),
        pops: Vec::new(alloc),
    };
    for (place, step) in steps.iter().enumerate() {
        let turn = Turn {
            samples,
            place,
            step: *step,
        };
        do_step(payloader, buffer, sink, &turn, &mut run)?;
    }
    Ok(run)
}

/// Does one step of a run, and records the result.
fn do_step<P: Packetizer, D: Depacketizer>(
    payloader: &mut Payloader<P>,
    buffer: &mut DepacketizingBuffer<D>,
    sink: &mut MemorySink,
    turn: &Turn<'_>,
    run: &mut Run,
) -> Result<(), PacketError>
    ensures ok { OnOk result ((sends : List Entry) × (pops : List Answer) × (run.new.sends.items ≡ run.old.sends.items ++ sends) × (run.new.pops.items ≡ run.old.pops.items ++ pops)
        × DoesStep (map sample_of turn.now.samples.now) turn.now.place turn.now.step (run_state payloader.old buffer.old sink.old) sends pops (run_state payloader.new buffer.new sink.new)) }
    ensures limit { buffer.new.limit ≡ buffer.old.limit }
    ensures fault { IfErr result (λ fault. fault ≡ OutOfMemory) }
    ensures err { OnErr result (StopsAt (map sample_of turn.now.samples.now) turn.now.step (run_state payloader.old buffer.old sink.old) (run_state payloader.new buffer.new sink.new)) }
{
    let alloc = *run.sends.allocator();
    match turn.step {
        Step::Send { sample, mtu } => {
            let Some(sample) = turn.samples.get(sample) else {
                return Ok(());
            };
            run.sends.reserve(1)?;
            let sending = Sending {
                sample,
                mtu,
                place: turn.place,
            };
            let entry = send_step(alloc, payloader, sink, &sending)?;
            run.sends.push(entry).unwrap();
            Ok(())
        }
        Step::Push(k) => {
            let Some(packet) = sink.packets().get(k) else {
                return Ok(());
            };
            let pushing = Pushing {
                packet,
                clock_rate: payloader.clock_rate(),
                place: turn.place,
            };
            push_step(alloc, buffer, &pushing)
        }
        Step::Pop => pop_step(buffer, run),
    }
}

/// Sends a sample.
fn send_step<P: Packetizer>(
    alloc: Global,
    payloader: &mut Payloader<P>,
    sink: &mut MemorySink,
    sending: &Sending<'_>,
) -> Result<Sent, PacketError>
    ensures ok { IfOk result (λ entry. (buffer : State) → SendsIt sending.now.place sending.now.mtu (sample_of sending.now.sample.now) (run_state payloader.old buffer sink.old) entry (run_state payloader.new buffer sink.new)) }
    ensures fault { IfErr result (λ fault. fault ≡ OutOfMemory) }
    ensures err { OnErr result ((buffer : State) → StopsSending sending.now.mtu (sample_of sending.now.sample.now) (run_state payloader.old buffer sink.old) (run_state payloader.new buffer sink.new)) }
{
    let first = sink.packets().len();
    let fault = refusal(payloader.push_sample(alloc, sending.sample, sending.mtu, sink))?;
    Ok(Sent {
        step: sending.place,
        first,
        count: sink.packets().len() - first,
        fault,
    })
}

/// Pushes a copy of a sent packet.
fn push_step<D: Depacketizer>(
    alloc: Global,
    buffer: &mut DepacketizingBuffer<D>,
    pushing: &Pushing<'_>,
) -> Result<(), PacketError>
    ensures ok { OnOk result (Pushes pushing.now.place pushing.now.clock_rate (Option.Some (packet_of pushing.now.packet.now)) buffer.old buffer.new) }
    ensures limit { buffer.new.limit ≡ buffer.old.limit }
    ensures fault { IfErr result (λ fault. fault ≡ OutOfMemory) }
    ensures err { OnErr result (buffer.new ≡ buffer.old) }
{
    let packet = pushing.packet;
    let time = MediaTime::new(u64::from(packet.rtp_time), pushing.clock_rate);
    let received = Ticks(pushing.place as u64);
    let mut meta = RtpMeta::of(packet.seq_no, time, packet.pt, received);
    meta.header.marker = packet.marker;
    meta.header.ext_vals = packet.ext_vals;
    push_copy(alloc, buffer, meta, &packet.payload)
}
