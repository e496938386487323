//! Runs with RED (RFC 2198): samples are sent in RED, and a push pushes the packets that a receiver finds in a packet.

ghost use Rattle.std.specs.Prelude.{◌≡◌, ◌≢◌, ◌++◌, ◌⊎◌, List, map, length, IfOk, IfErr, OnOk, OnErr, Option, Result};
ghost use Rattle.codec_payload_base.specs.declared.error.PacketError.TheVariants.{OutOfMemory};
ghost use Rattle.codec_payload_buffer.specs.Held.{Held};
ghost use Rattle.codec_payload_buffer.specs.Steps.{State, IsArrived, pushed};
ghost use Rattle.codec_payload_payloader.specs.Packets.{Packet, packet_of};
ghost use Rattle.codec_payload_buffer_runs.specs.RedPromises.{KeepsRedPromises, ran_in_red, protection_of};
ghost use Rattle.codec_payload_buffer_runs.specs.RedSchedule.{red_state, meta_of_recovered, PushesAll, RedPushes, StopsAmong, StopsPushing, SendsInRed, DoesRedStep, StopsSendingInRed, StopsAtInRed, StopsInRed};
ghost use Rattle.codec_payload_buffer_runs.specs.Schedule.{Answer, run_state, SendsIt};
ghost use Rattle.codec_payload_payloader.specs.Sending.{sample_of};
ghost use Rattle.codec_payload_buffer_runs.specs.declared.run.Sent.{Sent as Entry};
ghost use Rattle.codec_payload_red.specs.RedRecovery.{packet_of as recovered_of};

use crate::plain::{Pushing, Sending, Turn};
use crate::run::{RedRun, Run, Sent, Step, pop_step, push_copy, refusal};
use codec_payload_base::error::PacketError;
use codec_payload_base::wire::{MediaTime, Pt, Ticks, ToPayload};
use codec_payload_buffer::buffer::{DepacketizingBuffer, RtpMeta};
use codec_payload_codec::codec::{Depacketizer, Packetizer};
use codec_payload_payloader::memory_sink::MemorySink;
use codec_payload_payloader::payloader::Payloader;
use codec_payload_payloader::red_sink::RedSink;
use codec_payload_red::red::{Recovered, RedReceiver};
use std::alloc::Global;

/// Pushes a copy of one packet that was recovered from the packet to be pushed.
fn push_recovered<D: Depacketizer>(
    alloc: Global,
    buffer: &mut DepacketizingBuffer<D>,
    pushing: &Pushing<'_>,
    recovered: &Recovered<'_>,
    pt: u8,
) -> Result<(), PacketError>
    ensures ok { OnOk result ((held : Held) × IsArrived buffer.old.depacketizer (meta_of_recovered pushing.now.place pushing.now.clock_rate pt (packet_of pushing.now.packet.now) (recovered_of recovered.now)) recovered.now.payload.now held
        × (buffer.new ≡ pushed buffer.old held)) }
    ensures limit { buffer.new.limit ≡ buffer.old.limit }
    ensures fault { IfErr result (λ fault. fault ≡ OutOfMemory) }
    ensures err { OnErr result (buffer.new ≡ buffer.old) }
{
    let time = MediaTime::new(u64::from(recovered.rtp_time), pushing.clock_rate);
    let pt = Pt::new_with_value(pt);
    let received = Ticks(pushing.place as u64);
    let mut meta = RtpMeta::of(recovered.seq_no, time, pt, received);
    if recovered.is_primary {
        meta.header.marker = pushing.packet.marker;
        meta.header.ext_vals = pushing.packet.ext_vals;
    }
    push_copy(alloc, buffer, meta, recovered.payload)
}

/// Pushes the packets that were recovered from the packet to be pushed, in order.
fn push_all_recovered<D: Depacketizer>(
    alloc: Global,
    buffer: &mut DepacketizingBuffer<D>,
    pushing: &Pushing<'_>,
    recovered: &[Recovered<'_>],
    pt: u8,
) -> Result<(), PacketError>
    ensures ok { OnOk result (PushesAll pushing.now.place pushing.now.clock_rate pt (packet_of pushing.now.packet.now) (map recovered_of recovered.now) buffer.old buffer.new) }
    ensures limit { buffer.new.limit ≡ buffer.old.limit }
    ensures fault { IfErr result (λ fault. fault ≡ OutOfMemory) }
    ensures err { OnErr result (StopsAmong pushing.now.place pushing.now.clock_rate pt (packet_of pushing.now.packet.now) (map recovered_of recovered.now) buffer.old buffer.new) }
{
    let Some((first, others)) = recovered.split_first() else {
        return Ok(());
    };
    push_recovered(alloc, buffer, pushing, first, pt)?;
    push_all_recovered(alloc, buffer, pushing, others, pt)
}

/// Pushes the packets that the RED receiver finds in a packet. An invalid RED payload is skipped.
fn red_push_step<D: Depacketizer>(
    alloc: Global,
    buffer: &mut DepacketizingBuffer<D>,
    pushing: &Pushing<'_>,
    receiver: &RedReceiver,
) -> Result<(), PacketError>
    ensures ok { OnOk result (RedPushes pushing.now.place pushing.now.clock_rate receiver.now (Option.Some (packet_of pushing.now.packet.now)) buffer.old buffer.new) }
    ensures limit { buffer.new.limit ≡ buffer.old.limit }
    ensures fault { IfErr result (λ fault. fault ≡ OutOfMemory) }
    ensures err { OnErr result (StopsPushing pushing.now.place pushing.now.clock_rate receiver.now (packet_of pushing.now.packet.now) buffer.old buffer.new) }
{
    let packet = pushing.packet;
    match receiver.recover(alloc, packet.seq_no, packet.rtp_time, &packet.payload) {
        Ok(recovered) => {
            let pt = receiver.primary_pt();
            push_all_recovered(alloc, buffer, pushing, &recovered, pt)
        }
        Err(PacketError::OutOfMemory) => Err(PacketError::OutOfMemory),
        Err(_) => Ok(()),
    }
}

/// Sends a sample in RED.
fn red_send_step<P: Packetizer>(
    alloc: Global,
    payloader: &mut Payloader<P>,
    sink: &mut MemorySink,
    red: &mut RedRun<'_>,
    sending: &Sending<'_>,
) -> Result<Sent, PacketError>
    ensures ok { IfOk result (λ entry. (buffer : State) → (sent : List Packet) → length sent ≡ length sink.old.packets
        → (now : List Packet) × (length now ≡ length sink.new.packets)
        × SendsIt sending.now.place sending.now.mtu (sample_of sending.now.sample.now) (run_state payloader.old buffer (record sink.old { packets = sent })) entry (run_state payloader.new buffer (record sink.new { packets = now }))
        × SendsInRed red.old.budget (red_state payloader.old buffer sink.old sent red.old.sender.now) (red_state payloader.new buffer sink.new now red.new.sender.now)) }
    ensures fault { IfErr result (λ fault. fault ≡ OutOfMemory) }
    ensures err { OnErr result ((buffer : State) → (sent : List Packet) → length sent ≡ length sink.old.packets
        → (now : List Packet) × (length now ≡ length sink.new.packets)
        × StopsSendingInRed red.old.budget sending.now.mtu (sample_of sending.now.sample.now) (red_state payloader.old buffer sink.old sent red.old.sender.now) (red_state payloader.new buffer sink.new now red.new.sender.now)) }
    ensures loan { red.new.sender.ghost_name ≡ red.old.sender.ghost_name }
    ensures protection { protection_of red.new ≡ protection_of red.old }
{
    let first = sink.packets().len();
    let mut in_red = RedSink::new(sink, red.sender, red.budget);
    let fault = refusal(payloader.push_sample(alloc, sending.sample, sending.mtu, &mut in_red))?;
    Ok(Sent {
        step: sending.place,
        first,
        count: sink.packets().len() - first,
        fault,
    })
}

/// Does one step of a run, and records the result.
fn do_red_step<P: Packetizer, D: Depacketizer>(
    payloader: &mut Payloader<P>,
    buffer: &mut DepacketizingBuffer<D>,
    sink: &mut MemorySink,
    red: &mut RedRun<'_>,
    turn: &Turn<'_>,
    run: &mut Run,
) -> Result<(), PacketError>
    ensures ok { OnOk result ((sent : List Packet) → length sent ≡ length sink.old.packets
        → (now : List Packet) × (sends : List Entry) × (pops : List Answer) × (length now ≡ length sink.new.packets)
        × (run.new.sends.items ≡ run.old.sends.items ++ sends) × (run.new.pops.items ≡ run.old.pops.items ++ pops)
        × DoesRedStep (protection_of red.old) (map sample_of turn.now.samples.now) turn.now.place turn.now.step
        (red_state payloader.old buffer.old sink.old sent red.old.sender.now) sends pops (red_state payloader.new buffer.new sink.new now red.new.sender.now)) }
    ensures limit { buffer.new.limit ≡ buffer.old.limit }
    ensures fault { IfErr result (λ fault. fault ≡ OutOfMemory) }
    ensures err { OnErr result ((sent : List Packet) → length sent ≡ length sink.old.packets
        → (now : List Packet) × (length now ≡ length sink.new.packets)
        × StopsAtInRed (protection_of red.old) (map sample_of turn.now.samples.now) turn.now.place turn.now.step
        (red_state payloader.old buffer.old sink.old sent red.old.sender.now) (red_state payloader.new buffer.new sink.new now red.new.sender.now)) }
    ensures loan { red.new.sender.ghost_name ≡ red.old.sender.ghost_name }
    ensures protection { protection_of red.new ≡ protection_of red.old }
{
    let alloc = *run.sends.allocator();
    match turn.step {
        Step::Send { sample, mtu } => {
            let Some(sample) = turn.samples.get(sample) else {
                return Ok(());
            };
            run.sends.reserve(1)?;
            let sending = Sending {
                sample,
                mtu,
                place: turn.place,
            };
            let entry = red_send_step(alloc, payloader, sink, red, &sending)?;
            run.sends.push(entry).unwrap();
            Ok(())
        }
        Step::Push(k) => {
            let Some(packet) = sink.packets().get(k) else {
                return Ok(());
            };
            let pushing = Pushing {
                packet,
                clock_rate: payloader.clock_rate(),
                place: turn.place,
            };
            red_push_step(alloc, buffer, &pushing, red.receiver)
        }
        Step::Pop => pop_step(buffer, run),
    }
}

/// Does the work of [`run_schedule`](crate::run::run_schedule) with this [`RedRun`]. The contract states how the call changes the
/// RED sender, so the `RedRun` is passed by reference. Its budget and its RED receiver are unchanged.
pub fn run_in_red<P: Packetizer, D: Depacketizer>(
    alloc: Global,
    payloader: &mut Payloader<P>,
    buffer: &mut DepacketizingBuffer<D>,
    sink: &mut MemorySink,
    red: &mut RedRun<'_>,
    samples: &[ToPayload],
    steps: &[Step],
) -> Result<Run, PacketError>
    ensures promises { IfOk result (λ run. (sent : List Packet) × KeepsRedPromises (ran_in_red (protection_of red.old) samples.now steps.now
        (red_state payloader.old buffer.old sink.old sink.old.packets red.old.sender.now) run (red_state payloader.new buffer.new sink.new sent red.new.sender.now))) }
    ensures limit { buffer.new.limit ≡ buffer.old.limit }
    ensures fault { IfErr result (λ fault. fault ≡ OutOfMemory) }
    ensures stops { OnErr result ((sent : List Packet) × StopsInRed (protection_of red.old) (map sample_of samples.now) 0 steps.now
        (red_state payloader.old buffer.old sink.old sink.old.packets red.old.sender.now) (red_state payloader.new buffer.new sink.new sent red.new.sender.now)) }
    // The borrows, the budget and the RED receiver stay.
    ensures loan { red.new.sender.ghost_name ≡ red.old.sender.ghost_name }
    ensures protection { protection_of red.new ≡ protection_of red.old }
{
    let mut run = Run {
        sends: Vec::new(alloc),
        pops: Vec::new(alloc),
    };
    for (place, step) in steps.iter().enumerate() {
        let turn = Turn {
            samples,
            place,
            step: *step,
        };
        do_red_step(payloader, buffer, sink, red, &turn, &mut run)?;
    }
    Ok(run)
}
