//! The example of docs/develop/RATTLE.md.

use crate::asserts::{assert_bytes, assert_count, assert_holds};
use crate::library::samples_of;
use codec_payload_core::buffer::{Depacketized, DepacketizingBuffer, RtpMeta};
use codec_payload_core::codec::{CodecDepacketizer, Vp9PacketizerMode};
use codec_payload_core::error::PacketError;
use codec_payload_core::payload::{MemorySink, OutgoingPacket, Payloader};
use codec_payload_core::wire::{
    Codec, CodecSpec, Frequency, MediaTime, RtpHeader, Ticks, ToPayload,
};
use std::alloc::Global;
use std::process::Abort;
use std::test::Fail;

/// The metadata of a packet that arrived as it was sent.
fn received(packet: &OutgoingPacket, clock_rate: Frequency) -> RtpMeta {
    RtpMeta {
        received: Ticks(0),
        time: MediaTime::new(u64::from(packet.rtp_time), clock_rate),
        seq_no: packet.seq_no,
        header: RtpHeader {
            payload_type: packet.pt,
            sequence_number: (packet.seq_no.0 % (1 << 16)) as u16,
            timestamp: packet.rtp_time,
            ssrc: 0,
            marker: packet.marker,
            ext_vals: packet.ext_vals,
        },
        last_sender_info: None,
    }
}

/// Sends samples and receives their packets. A codec without a payload format gives no units.
fn send_and_receive(
    alloc: Global,
    spec: CodecSpec,
    samples: &[ToPayload],
) -> Result<Vec<Depacketized>, PacketError> {
    let mut units = Vec::new(alloc);

    // A sender cuts samples into packets of at most 1,200 bytes, which go to a sink: yours implements `PacketSink`.
    let Some(mut payloader) = Payloader::new(spec, Vp9PacketizerMode::NonFlexible, 0) else {
        return Ok(units);
    };
    let mut sink = MemorySink::new(alloc, 1);
    for sample in samples {
        payloader.push_sample(alloc, sample, 1_200, &mut sink)?;
    }

    // A receiver of the same specification pushes packets as they come, in any order, and takes the units that are ready.
    let Some(mut depacketizer) = CodecDepacketizer::from_codec(alloc, spec.codec) else {
        return Ok(units);
    };
    depacketizer.configure_for(&spec);
    let mut buffer = DepacketizingBuffer::new(alloc, depacketizer, 30);
    for packet in sink.packets() {
        let payload = Vec::from_slice(alloc, &packet.payload)?;
        buffer.push(received(packet, spec.clock_rate), payload)?;
    }
    while let Some(unit) = buffer.pop() {
        units.push(unit?)?;
    }
    Ok(units)
}

/// Each unit is a sample, and follows the one before.
fn assert_received(rt: &impl Abort, units: &[Depacketized], samples: &[ToPayload]) {
    assert_count(rt, "units", units.len(), samples.len());
    for (unit, sample) in units.iter().zip(samples) {
        assert_bytes(rt, "a unit", &unit.bytes, &sample.bytes);
        assert_holds(rt, "units that follow", unit.contiguous);
    }
}

/// Speech of AMR-WB in octet-aligned payloads: receivers of the other layout would refuse it.
#[test]
fn what_is_sent_is_received(rt: HostRuntime) -> Result<(), Fail> {
    let alloc = rt.alloc();
    let spec = CodecSpec {
        codec: Codec::AmrWb,
        clock_rate: Frequency::make(16_000).ok_or("a rate")?,
        octet_align: true,
    };
    let samples = samples_of(alloc, &[&[0x74], &[0x4c, 1, 2, 3, 4, 0x50]])?;
    let units = send_and_receive(alloc, spec, &samples)?;
    assert_received(&rt, &units, &samples);
    let red = CodecSpec {
        codec: Codec::Red,
        ..spec
    };
    let units = send_and_receive(alloc, red, &samples)?;
    assert_count(&rt, "units of RED", units.len(), 0);
    Ok(())
}
