//! The program's work, over any reader and writer.

ghost use Rattle.std.specs.Prelude.{◌≡◌, ◌≢◌, ◌≤◌, ◌<◌, ◌^◌, ℕ, [], length, true, false, Some, option_map, IfOk, IfErr, IfSome, OnOk};
ghost use Rattle.codec_payload_core.specs.Depacketizers.{configured_depacketizer, depacketizer_state_for};
ghost use Rattle.codec_payload_core.specs.Packetizers.{Vp8Packetizing, configured, packetizer_state_for};
ghost use Rattle.payload_lines.specs.Ends.{status_of};
ghost use Rattle.payload_lines.specs.declared.streams.ProgramFault.TheVariants.{BadLine, OutOfMemory, TooLong};

use crate::line::{Limit, Setup};
use crate::print::printed;
use crate::red_line::RedSetup;
use crate::script::{PAYLOAD_TYPE, Script};
use codec_payload_core::buffer::DepacketizingBuffer;
use codec_payload_core::codec::{CodecDepacketizer, CodecPacketizer};
use codec_payload_core::error::PacketError;
use codec_payload_core::payload::{MemorySink, Payloader};
use codec_payload_core::red::{RedReceiver, RedSender};
use codec_payload_core::schedule::{RedRun, Run, run_schedule};
use codec_payload_core::vp8::Vp8Packetizer;
use codec_payload_core::wire::{CodecSpec, Pt};
use payload_lines::streams::{ProgramFault, read_below};
use std::alloc::Global;
use std::io::{Read, Write};

/// The greatest length of the input, in bytes.
const INPUT_LIMIT: usize = 1_048_576;

/// The payload type of packets in RED.
const RED_PAYLOAD_TYPE: u8 = 63;

/// Reads all input, runs its steps, and writes the packets sent and the units released. Nothing is written before all output is
/// complete; a write that fails leaves a beginning of it.
pub fn run_lines<R: Read, W: Write>(
    alloc: Global,
    input: &mut R,
    output: &mut W,
) -> Result<(), ProgramFault>
    ensures ok { OnOk result (IfSome (R.remaining input.old) (λ text. length text ≤ 2 ^ 20)) }
    ensures too_long { result ≡ Err TooLong → IfSome (R.remaining input.old) (λ text. 2 ^ 20 < length text) }
    ensures bad_line { (line : ℕ) → result ≡ Err (BadLine line) → 0 < line }
    ensures bad_line_short { (line : ℕ) → result ≡ Err (BadLine line)
        → IfSome (R.remaining input.old) (λ text. length text ≤ 2 ^ 20) }
    ensures nothing_written { IfErr result (λ fault. status_of fault ≡ 2 → output.new ≡ output.old) }
{
    let bytes = read_below(alloc, input, INPUT_LIMIT + 1)?;
    let script = Script::read(alloc, &bytes)?;
    let text = output_of(alloc, &script)?;
    output.write_all(text.as_bytes())?;
    output.flush()?;
    Ok(())
}

/// What the setup says of the codec.
fn codec_spec(setup: &Setup) -> CodecSpec
    ensures codec { result.codec ≡ setup.now.codec }
    ensures clock_rate { result.clock_rate ≡ setup.now.rate }
    ensures octet_align { result.octet_align ≡ setup.now.octet_align }
{
    CodecSpec {
        codec: setup.codec,
        clock_rate: setup.rate,
        octet_align: setup.octet_align,
    }
}

/// The payloader that is set up.
fn payloader(setup: &Setup) -> Payloader
    ensures vp8_ids { setup.now.vp8_ids ≡ true
        → result ≡ record { packetizer = Vp8Packetizing (Some setup.now.first_id); clock_rate = setup.now.rate } }
    ensures by_codec { setup.now.vp8_ids ≡ false
        → Some result ≡ option_map (λ packetizer. record { packetizer = configured setup.now.octet_align packetizer; clock_rate = setup.now.rate })
        (packetizer_state_for setup.now.vp9_mode setup.now.first_id setup.now.codec) }
{
    if setup.vp8_ids {
        let packetizer = CodecPacketizer::Vp8(Vp8Packetizer::with_picture_id(setup.first_id));
        return Payloader::with_packetizer(packetizer, setup.rate);
    }
    Payloader::new(codec_spec(setup), setup.vp9_mode, setup.first_id).unwrap()
}

/// The empty buffer that is set up.
fn buffer(alloc: Global, setup: &Setup, limit: Limit) -> DepacketizingBuffer
    ensures empty { result.held ≡ [] }
    ensures limit { result.limit ≡ limit.packets }
    ensures hold_back { result.hold_back ≡ setup.now.hold_back }
    ensures depacketizer { Some result.depacketizer ≡ option_map (configured_depacketizer setup.now.octet_align setup.now.rate) (depacketizer_state_for setup.now.codec) }
{
    let mut depacketizer = CodecDepacketizer::from_codec(alloc, setup.codec).unwrap();
    depacketizer.configure_for(&codec_spec(setup));
    DepacketizingBuffer::with_limit(alloc, depacketizer, setup.hold_back, limit.packets)
}

/// A sender in RED that has sent nothing.
fn red_sender(alloc: Global, red: &RedSetup) -> RedSender
    ensures { result ≡ record { red_pt = 63; primary_pt = 96; distances = red.now.distances.items; history = [] } }
{
    RedSender::new(
        alloc,
        Pt::new_with_value(RED_PAYLOAD_TYPE),
        Pt::new_with_value(PAYLOAD_TYPE),
        &red.distances,
    )
}

/// The receiver of what that sender sends.
fn red_receiver(red: &RedSetup) -> RedReceiver
    ensures { result ≡ record { primary_pt = 96; step = red.now.step } }
{
    RedReceiver::new(PAYLOAD_TYPE, red.step).unwrap()
}

/// Does the script's steps.
fn run_of(alloc: Global, script: &Script, sink: &mut MemorySink) -> Result<Run, PacketError> {
    let setup = script.setup;
    let mut payloader = payloader(&setup);
    let mut buffer = buffer(alloc, &setup, script.limit);
    let samples = script.samples.as_slice();
    let steps = script.steps.as_slice();
    let Some(red) = &script.red else {
        return run_schedule(
            alloc,
            &mut payloader,
            &mut buffer,
            sink,
            samples,
            steps,
            None,
        );
    };
    let mut sender = red_sender(alloc, red);
    let receiver = red_receiver(red);
    let red = RedRun {
        sender: &mut sender,
        budget: red.budget,
        receiver: &receiver,
    };
    run_schedule(
        alloc,
        &mut payloader,
        &mut buffer,
        sink,
        samples,
        steps,
        Some(red),
    )
}

/// What the script's run prints.
fn output_of(alloc: Global, script: &Script) -> Result<String, ProgramFault>
    ensures { IfErr result (λ fault. fault ≡ OutOfMemory) }
{
    let mut sink = MemorySink::new(alloc, script.setup.first_number);
    let Ok(run) = run_of(alloc, script, &mut sink) else {
        return Err(ProgramFault::OutOfMemory);
    };
    Ok(printed(alloc, &run, sink.packets())?)
}
