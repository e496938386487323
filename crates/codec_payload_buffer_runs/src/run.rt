//! Whole runs: a run sends samples, pushes some of their packets in any order, and pops units.

ghost use Rattle.std.specs.Prelude.{◌≡◌, ◌≢◌, ◌∷◌, ◌++◌, ◌⊎◌, [], List, ◌≤◌, ◌^◌, ◌↔◌, map, IfOk, IfErr, IfSome, IsNone, OnOk, OnErr, Option, Result};
ghost use Rattle.std.specs.Result.{result_err};
ghost use Rattle.codec_payload_base.specs.declared.error.PacketError.TheVariants.{OutOfMemory};
ghost use Rattle.codec_payload_red.specs.RedLevels.{Sender};
ghost use Rattle.codec_payload_codec.specs.Packetizers.{packetizer_state_for};
ghost use Rattle.codec_payload_buffer.specs.Held.{Held};
ghost use Rattle.codec_payload_buffer.specs.Steps.{IsArrived, Pops, pushed};
ghost use Rattle.codec_payload_payloader.specs.Packets.{Packet};
ghost use Rattle.codec_payload_payloader.specs.Sending.{sample_of};
ghost use Rattle.codec_payload_buffer_runs.specs.RedPromises.{KeepsRedPromises, LeavesSender, ran_in_red, protection_of};
ghost use Rattle.codec_payload_buffer_runs.specs.RedSchedule.{red_state, StopsInRed};
ghost use Rattle.codec_payload_buffer_runs.specs.RunPromises.{KeepsPromises, ran};
ghost use Rattle.codec_payload_buffer_runs.specs.RunStream.{RunsStream};
ghost use Rattle.codec_payload_buffer_runs.specs.Schedule.{run_state, Stops, Answer};

use crate::plain::run_plain;
use crate::red::run_in_red;
use codec_payload_base::error::PacketError;
use codec_payload_base::wire::{CodecSpec, ToPayload};
use codec_payload_buffer::buffer::{Depacketized, DepacketizingBuffer, RtpMeta};
use codec_payload_codec::codec::{CodecDepacketizer, Depacketizer, Packetizer, Vp9PacketizerMode};
use codec_payload_payloader::memory_sink::MemorySink;
use codec_payload_payloader::payloader::Payloader;
use codec_payload_red::red::{RedReceiver, RedSender};
use std::alloc::Global;

/// One step of a run.
#[derive(Clone, Copy, Debug, PartialEq, Eq)]
pub enum Step {
    /// Packetizes the sample with this index for an MTU in bytes, and sends its packets. Skipped if the sample does not exist.
    Send { sample: usize, mtu: usize },
    /// Pushes a copy of the packet with this index in the sink, from 0. Skipped if the packet does not exist.
    Push(usize),
    /// Pops a unit from the buffer.
    Pop,
}

/// The results of the steps of a run.
#[derive(Debug, Drop)]
pub struct Run {
    /// One entry for each `Send` step that names a sample, in order.
    pub sends: Vec<Sent>,
    /// The answer of each `Pop` step, in order.
    pub pops: Vec<Option<Result<Depacketized, PacketError>>>,
}

/// The result of a `Send` step.
#[derive(Debug, Drop)]
pub struct Sent {
    /// The index of the step, from 0.
    pub step: usize,
    /// The number of packets in the sink before the step.
    pub first: usize,
    /// The number of packets that the step sent.
    pub count: usize,
    /// The fault of the packetizer, if it refused the sample. Then nothing was sent.
    pub fault: Option<PacketError>,
}

/// How a run uses RED (RFC 2198).
#[derive(Drop)]
pub struct RedRun<'a> {
    /// Puts sent packets in RED.
    pub sender: &'a mut RedSender,
    /// The highest number of bytes of a payload in RED: see [`RedSender::wrap`].
    pub budget: usize,
    /// Finds the packets in a pushed packet.
    pub receiver: &'a RedReceiver,
}

/// The settings of both sides of a stream.
#[derive(Clone, Copy, Debug, PartialEq, Eq)]
pub struct Stream {
    /// The codec, the RTP clock and the layout of payloads, for both sides.
    pub spec: CodecSpec,
    /// The mode of a VP9 packetizer.
    pub mode: Vp9PacketizerMode,
    /// The picture id of the first frame of a VP9 packetizer: 0 to 32,767.
    pub first_id: u16,
    /// The number of the first packet: 0 to 2^62.
    pub first_number: u64,
    /// The number of complete frames that may wait after a gap. With one more, the buffer stops waiting for the gap.
    pub hold_back: usize,
    /// The highest number of packets in the buffer: 1 to 65,536.
    pub limit: usize,
}

/// Does the steps in order: sends samples into the sink, pushes packets that the sink holds into the buffer, and pops.
///
/// If the packetizer refuses the sample of a `Send`, the run records the fault and continues. The run allocates an entry before its
/// step begins, so it can return every popped unit. Each pushed packet is a copy. The cost of a run is the sum of its calls.
///
/// With `red`, a `Send` goes through a [`RedSink`](codec_payload_payloader::red_sink::RedSink). A `Push` pushes, in payload order, each
/// packet that the RED receiver recovers from the payload of the named packet. Each recovered packet has its own number and RTP
/// time, and the payload type of the RED receiver. The named packet is pushed last, with its marker and its values of header
/// extensions; recovered packets have neither. An invalid RED payload (fault 14) is skipped.
///
/// # Errors
///
/// Out of memory ends the run. The payloader, the buffer and the sink are as the failed call left them. The popped units and the
/// entries are discarded. With `red`, the packets that were pushed before the failed push stay in the buffer.
pub fn run_schedule<P: Packetizer, D: Depacketizer>(
    alloc: Global,
    payloader: &mut Payloader<P>,
    buffer: &mut DepacketizingBuffer<D>,
    sink: &mut MemorySink,
    samples: &[ToPayload],
    steps: &[Step],
    red: Option<RedRun<'_>>,
) -> Result<Run, PacketError>
    // Without RED: run as steps, both halves of the theorem, order, contiguous, no silent loss, beginning: see
    // `specs/RunPromises.antt`.
    ensures promises { IsNone red.entry → IfOk result (λ run. KeepsPromises (ran samples.now steps.now (run_state payloader.old buffer.old sink.old) run (run_state payloader.new buffer.new sink.new))) }
    ensures limit { buffer.new.limit ≡ buffer.old.limit }
    ensures fault { IfErr result (λ fault. fault ≡ OutOfMemory) }
    ensures stops { IsNone red.entry → OnErr result (Stops (map sample_of samples.now) 0 steps.now (run_state payloader.old buffer.old sink.old)
        (run_state payloader.new buffer.new sink.new)) }
    // With RED: run as steps, and the same guarantees with the recovered packets as further pushes: see `specs/RedPromises.antt`.
    // The guarantees are about the sent packets as they were before RED. `sender` is the RED sender at the end of the run.
    ensures red_promises { IfSome red.entry (λ lent. (sender : Sender) × LeavesSender red.exit sender × IfOk result (λ run. (sent : List Packet) × KeepsRedPromises (ran_in_red (protection_of lent) samples.now steps.now
        (red_state payloader.old buffer.old sink.old sink.old.packets lent.sender.now) run (red_state payloader.new buffer.new sink.new sent sender)))) }
    ensures red_stops { IfSome red.entry (λ lent. (sender : Sender) × LeavesSender red.exit sender × OnErr result ((sent : List Packet) × StopsInRed (protection_of lent) (map sample_of samples.now) 0 steps.now
        (red_state payloader.old buffer.old sink.old sink.old.packets lent.sender.now) (red_state payloader.new buffer.new sink.new sent sender))) }
{
    match red {
        None => run_plain(alloc, payloader, buffer, sink, samples, steps),
        // The prover cannot lend a struct that a parameter holds, so a new `RedRun` has its parts.
        Some(lent) => {
            let budget = lent.budget;
            let receiver = lent.receiver;
            let mut red = RedRun {
                sender: lent.sender,
                budget,
                receiver,
            };
            run_in_red(alloc, payloader, buffer, sink, &mut red, samples, steps)
        }
    }
}

/// Makes a payloader, a buffer and a sink for a stream, and runs the steps over them. The specification of the stream configures
/// both sides. Returns `None` if the codec has no packetizer.
pub fn run_stream(
    alloc: Global,
    stream: Stream,
    samples: &[ToPayload],
    steps: &[Step],
) -> Result<Option<Run>, PacketError>
    requires id { stream.first_id ≤ 32767 }
    requires number { stream.first_number ≤ 2 ^ 62 }
    requires least { 1 ≤ stream.limit }
    requires most { stream.limit ≤ 65536 }
    ensures none { (result ≡ Result.Ok Option.None) ↔ (packetizer_state_for stream.mode stream.first_id stream.spec.codec ≡ Option.None) }
    ensures promises { IfOk result (λ run. IfSome run (RunsStream stream samples.now steps.now)) }
    ensures fault { IfErr result (λ fault. fault ≡ OutOfMemory) }
{
    let Some(mut payloader) = Payloader::new(stream.spec, stream.mode, stream.first_id) else {
        return Ok(None);
    };
    let Some(mut depacketizer) = CodecDepacketizer::from_codec(alloc, stream.spec.codec) else {
        return Ok(None);
    };
    depacketizer.configure_for(&stream.spec);
    let mut buffer = DepacketizingBuffer::with_limit(
        alloc,
        depacketizer,
        stream.hold_back,
        stream.limit,
    );
    let mut sink = MemorySink::new(alloc, stream.first_number);
    let run = run_schedule(
        alloc,
        &mut payloader,
        &mut buffer,
        &mut sink,
        samples,
        steps,
        None,
    )?;
    Ok(Some(run))
}

/// Returns the fault of the packetizer, if it refused the sample. Out of memory does not count as a refusal.
pub(crate) fn refusal(answer: Result<(), PacketError>) -> Result<Option<PacketError>, PacketError>
    ensures ok { IfOk result (λ fault. (fault ≡ result_err answer) × (fault ≢ Option.Some OutOfMemory)) }
    ensures fault { IfErr result (λ fault. fault ≡ OutOfMemory) }
    ensures err { OnErr result (answer ≡ Result.Err OutOfMemory) }
{
    match answer.err() {
        Some(PacketError::OutOfMemory) => Err(PacketError::OutOfMemory),
        fault => Ok(fault),
    }
}

/// Pushes a copy of a payload, with the metadata of its packet.
pub(crate) fn push_copy<D: Depacketizer>(
    alloc: Global,
    buffer: &mut DepacketizingBuffer<D>,
    meta: RtpMeta,
    payload: &[u8],
) -> Result<(), PacketError>
    ensures ok { OnOk result ((held : Held) × IsArrived buffer.old.depacketizer meta payload.now held × (buffer.new ≡ pushed buffer.old held)) }
    ensures limit { buffer.new.limit ≡ buffer.old.limit }
    ensures fault { IfErr result (λ fault. fault ≡ OutOfMemory) }
    ensures err { OnErr result (buffer.new ≡ buffer.old) }
{
    let payload = Vec::from_slice(alloc, payload)?;
    buffer.push(meta, payload)
}

/// Makes room for a result, pops, and records the result. Out of memory is not recorded.
pub(crate) fn pop_step<D: Depacketizer>(
    buffer: &mut DepacketizingBuffer<D>,
    run: &mut Run,
) -> Result<(), PacketError>
    ensures ok { OnOk result ((answer : Answer) × (run.new.sends.items ≡ run.old.sends.items) × (run.new.pops.items ≡ run.old.pops.items ++ answer ∷ [])
        × (answer ≢ Option.Some (Result.Err OutOfMemory)) × Pops buffer.old answer buffer.new) }
    ensures limit { buffer.new.limit ≡ buffer.old.limit }
    ensures fault { IfErr result (λ fault. fault ≡ OutOfMemory) }
    ensures err { OnErr result ((buffer.new ≡ buffer.old) ⊎ Pops buffer.old (Option.Some (Result.Err OutOfMemory)) buffer.new) }
{
    run.pops.reserve(1)?;
    match buffer.pop() {
        Some(Err(PacketError::OutOfMemory)) => Err(PacketError::OutOfMemory),
        answer => {
            run.pops.push(answer).unwrap();
            Ok(())
        }
    }
}
