//! Calls of the library that several tests make. None has a contract, so the guarantees of the library are not part of the proof of
//! a test.

use codec_payload_core::buffer::DepacketizingBuffer;
use codec_payload_core::codec::{CodecDepacketizer, Depacketizer, Packetizer, Vp9PacketizerMode};
use codec_payload_core::error::PacketError;
use codec_payload_core::payload::{MemorySink, Payloader};
use codec_payload_core::schedule::{RedRun, Run, Step, run_schedule};
use codec_payload_core::wire::{
    Codec, CodecSpec, ExtensionValues, Frequency, MediaTime, Pt, Ticks, ToPayload,
};
use std::alloc::{AllocError, Global};
use std::test::Fail;

/// A depacketizer of a built-in codec.
pub(super) fn depacketizer_of(alloc: Global, codec: Codec) -> Result<CodecDepacketizer, Fail> {
    Ok(CodecDepacketizer::from_codec(alloc, codec).ok_or("no depacketizer")?)
}

/// An empty buffer of a built-in codec, which holds nothing back.
pub(super) fn buffer_of(alloc: Global, codec: Codec) -> Result<DepacketizingBuffer, Fail> {
    let depacketizer = depacketizer_of(alloc, codec)?;
    Ok(DepacketizingBuffer::new(alloc, depacketizer, 0))
}

/// A payloader of a codec in its default mode.
pub(super) fn payloader_of(codec: Codec, clock_rate: Frequency) -> Result<Payloader, Fail> {
    let spec = CodecSpec {
        codec,
        clock_rate,
        octet_align: false,
    };
    Ok(Payloader::new(spec, Vp9PacketizerMode::NonFlexible, 0).ok_or("no packetizer")?)
}

/// The state after a run.
#[derive(Drop)]
pub(super) struct Ended {
    pub run: Run,
    pub sink: MemorySink,
    /// How many packets the buffer holds.
    pub held: usize,
}

/// A run over an unused sink, whose first number is 10.
pub(super) fn run_steps<P: Packetizer, D: Depacketizer>(
    alloc: Global,
    payloader: &mut Payloader<P>,
    buffer: &mut DepacketizingBuffer<D>,
    samples: &[ToPayload],
    steps: &[Step],
    red: Option<RedRun<'_>>,
) -> Result<Ended, PacketError> {
    let mut sink = MemorySink::new(alloc, 10);
    let run = run_schedule(alloc, payloader, buffer, &mut sink, samples, steps, red)?;
    Ok(Ended {
        run,
        sink,
        held: buffer.held(),
    })
}

/// A sample of payload type 96, at that many ticks of 48 kHz, that starts a talk spurt.
pub(super) fn sample(alloc: Global, time: u64, bytes: &[u8]) -> Result<ToPayload, Fail> {
    Ok(ToPayload {
        pt: Pt::new_with_value(96),
        wallclock: Ticks(5),
        rtp_time: MediaTime::new(time, Frequency::FORTY_EIGHT_KHZ),
        bytes: Vec::from_slice(alloc, bytes)?,
        start_of_talk_spurt: true,
        ext_vals: ExtensionValues::default(),
    })
}

/// A sample of each frame, 960 ticks apart.
pub(super) fn samples_of(alloc: Global, frames: &[&[u8]]) -> Result<Vec<ToPayload>, Fail> {
    let mut samples = Vec::new(alloc);
    let mut time = 0u64;
    for frame in frames {
        time = time.wrapping_add(960);
        samples.push(sample(alloc, time, frame)?)?;
    }
    Ok(samples)
}

/// For each packet its bytes and then its marker.
pub(super) fn bytes_and_markers(alloc: Global, sink: &MemorySink) -> Result<Vec<u8>, AllocError> {
    let mut sent = Vec::new(alloc);
    for packet in sink.packets() {
        sent.extend_from_slice(&packet.payload)?;
        sent.push(u8::from(packet.marker))?;
    }
    Ok(sent)
}

/// The bytes of the released units, and 255 for each other result of a pop.
pub(super) fn bytes_of_units(alloc: Global, run: &Run) -> Result<Vec<u8>, AllocError> {
    let mut bytes = Vec::new(alloc);
    for pop in &run.pops {
        match pop {
            Some(Ok(unit)) => bytes.extend_from_slice(&unit.bytes)?,
            _ => bytes.push(255)?,
        }
    }
    Ok(bytes)
}
