//! Calls in which an allocation is refused. `scripts/refuse.sh` runs each test with each allocation refused in turn.
//!
//! A call returns its whole answer, or `OutOfMemory` with the state that its comment states. Each test makes the same attempt twice.
//! At most one allocation is refused, so one of both attempts has the whole answer. An attempt ends early if the allocation
//! is refused before or after the call.

use crate::asserts::{assert_bytes, assert_count, assert_holds, assert_same};
use codec_payload_core::buffer::DepacketizingBuffer;
use codec_payload_core::codec::{CodecDepacketizer, CodecPacketizer};
use codec_payload_core::error::PacketError;
use codec_payload_core::payload::{MemorySink, OutgoingPacket, PacketSink, Payloader, RedSink};
use codec_payload_core::red::RedSender;
use codec_payload_core::schedule::{Step, run_schedule};
use codec_payload_core::vp8::Vp8Packetizer;
use codec_payload_core::wire::{
    Codec, ExtensionValues, Frequency, MediaTime, Pt, SeqNo, Ticks, ToPayload,
};
use std::alloc::{AllocError, Global};
use std::process::Abort;

/// Whether an attempt had the whole answer. An `Err` says that the allocation was refused outside of the call.
type Attempt = Result<bool, PacketError>;

fn is_whole(attempt: Attempt) -> bool {
    matches!(attempt, Ok(true))
}

/// The number of a fault, and 0 for success.
fn number_of(answer: &Result<(), PacketError>) -> u8 {
    match answer {
        Ok(()) => 0,
        Err(fault) => fault.number(),
    }
}

fn packet(
    alloc: Global,
    number: SeqNo,
    rtp_time: u32,
    payload: &[u8],
) -> Result<OutgoingPacket, AllocError> {
    Ok(OutgoingPacket {
        pt: Pt::new_with_value(96),
        seq_no: number,
        rtp_time,
        wallclock: Ticks(0),
        marker: false,
        nackable: false,
        ext_vals: ExtensionValues::default(),
        payload: Vec::from_slice(alloc, payload)?,
    })
}

/// A sample of payload type 96, at that many ticks of 8 kHz.
fn sample(alloc: Global, time: u64, bytes: &[u8]) -> Result<ToPayload, AllocError> {
    Ok(ToPayload {
        pt: Pt::new_with_value(96),
        wallclock: Ticks(0),
        rtp_time: MediaTime::new(time, Frequency::EIGHT_KHZ),
        bytes: Vec::from_slice(alloc, bytes)?,
        start_of_talk_spurt: false,
        ext_vals: ExtensionValues::default(),
    })
}

/// A refused packet is not in the sink, and its number is free.
fn send_to_memory(rt: &impl Abort, alloc: Global) -> Attempt {
    let mut sink = MemorySink::new(alloc, 1);
    let answer = sink.send(packet(alloc, SeqNo(1), 0, &[1, 2])?);
    let seen = (sink.packets().len(), sink.next_seq_no().0);
    if answer.is_ok() {
        assert_same(rt, "a packet and the next number", &seen, &(1, 2));
        return Ok(true);
    }
    assert_same(rt, "the fault", &number_of(&answer), &17);
    assert_same(rt, "no packet, and the same number", &seen, &(0, 1));
    Ok(false)
}

#[test]
fn memory_sink_refused(rt: HostRuntime) {
    let (first, second) = (
        send_to_memory(&rt, rt.alloc()),
        send_to_memory(&rt, rt.alloc()),
    );
    assert_holds(&rt, "one of both", is_whole(first) || is_whole(second));
}

/// The second payload in RED (RFC 2198, section 3), with the first one, 960 ticks older, and without it.
const REPEATING: &[u8] = &[0xef, 0x0f, 0x00, 0x02, 0x6f, 1, 2, 3];

const ALONE: &[u8] = &[0x6f, 3];

/// Sends two packets in RED. The second one, which shows what the sender remembers, is not refused with the first one.
fn send_in_red(rt: &impl Abort, alloc: Global) -> Attempt {
    let mut sink = MemorySink::new(alloc, 1);
    let mut red = RedSender::new(alloc, Pt::new_with_value(63), Pt::new_with_value(111), &[1]);
    let first = packet(alloc, SeqNo(1), 0, &[1, 2])?;
    let answer = RedSink::new(&mut sink, &mut red, 1_200).send(first);
    let next = sink.next_seq_no();
    let second = packet(alloc, next, 960, &[3])?;
    RedSink::new(&mut sink, &mut red, 1_200).send(second)?;
    let last = sink.last_packet().unwrap_or_default();
    let remembers = last == REPEATING;
    if answer.is_ok() {
        assert_holds(rt, "the second packet repeats the first", remembers);
        assert_count(rt, "packets in RED", sink.packets().len(), 2);
        return Ok(true);
    }
    assert_same(rt, "the fault in RED", &number_of(&answer), &17);
    assert_same(rt, "the number of the second packet", &next, &SeqNo(1));
    // The sender was refused, and does not remember the payload, or the sink was refused after it.
    assert_holds(rt, "the sender", remembers || last == ALONE);
    Ok(false)
}

#[test]
fn red_sink_refused(rt: HostRuntime) {
    let (first, second) = (send_in_red(&rt, rt.alloc()), send_in_red(&rt, rt.alloc()));
    assert_holds(&rt, "one of both", is_whole(first) || is_whole(second));
}

/// The packets of a VP8 frame with the picture id 0x20, at an MTU of 4 (RFC 7741, section 4.2).
const OF_VP8: [&[u8]; 5] = [
    &[0x90, 0x80, 0x20, 0x90],
    &[0x80, 0x80, 0x20, 0x91],
    &[0x80, 0x80, 0x20, 0x92],
    &[0x80, 0x80, 0x20, 0x93],
    &[0x80, 0x80, 0x20, 0x94],
];

/// The packet of the second frame, if the first frame took an id, and if it did not.
const NEXT_ID: &[u8] = &[0x90, 0x80, 0x21, 0x95];

const SAME_ID: &[u8] = &[0x90, 0x80, 0x20, 0x95];

/// Asserts that a sink holds the first `count` of these packets.
fn assert_beginning(rt: &impl Abort, sink: &MemorySink, count: usize, packets: &[&[u8]]) {
    for (packet, wanted) in sink.packets().iter().take(count).zip(packets) {
        assert_bytes(rt, "a packet of the frame", &packet.payload, wanted);
    }
}

/// Pushes a sample of five packets, and then one that shows the picture id. If the packetizer was refused, the id is unchanged and
/// nothing was sent. If the sink was, a beginning of the packets was sent.
fn push_samples(rt: &impl Abort, alloc: Global) -> Attempt {
    let packetizer = CodecPacketizer::Vp8(Vp8Packetizer::with_picture_id(0x20));
    let mut payloader: Payloader = Payloader::with_packetizer(packetizer, Frequency::EIGHT_KHZ);
    let mut sink = MemorySink::new(alloc, 1);
    let first = sample(alloc, 0, &[0x90, 0x91, 0x92, 0x93, 0x94])?;
    let answer = payloader.push_sample(alloc, &first, 4, &mut sink);
    let sent = sink.packets().len();
    let second = sample(alloc, 960, &[0x95])?;
    payloader.push_sample(alloc, &second, 4, &mut sink)?;
    assert_beginning(rt, &sink, sent, &OF_VP8);
    let last = sink.last_packet().unwrap_or_default();
    let advanced = last == NEXT_ID;
    if answer.is_ok() {
        assert_count(rt, "packets of VP8", sent, 5);
        assert_holds(rt, "the id after the frame", advanced);
        return Ok(true);
    }
    assert_same(rt, "the fault of a sample", &number_of(&answer), &17);
    assert_holds(rt, "not all packets", sent < 5);
    let same = last == SAME_ID;
    assert_holds(
        rt,
        "the id after the refusal",
        advanced || same && sent == 0,
    );
    Ok(false)
}

#[test]
fn push_sample_refused(rt: HostRuntime) {
    let (first, second) = (push_samples(&rt, rt.alloc()), push_samples(&rt, rt.alloc()));
    assert_holds(&rt, "one of both", is_whole(first) || is_whole(second));
}

/// One sample of Opus in two packets.
const ALL_OF_ONE: [Step; 6] = [
    Step::Send { sample: 0, mtu: 2 },
    Step::Push(0),
    Step::Push(1),
    Step::Pop,
    Step::Pop,
    Step::Pop,
];

/// The packets of the sample, each of which is a unit too.
const OF_OPUS: [&[u8]; 2] = [&[0x90, 0x90], &[0x91]];

/// Runs all steps. After a refusal the sink holds a beginning of the packets, and the buffer holds packets that were pushed and
/// not popped.
fn run_steps_of_opus(rt: &impl Abort, alloc: Global) -> Attempt {
    let packetizer = CodecPacketizer::from_codec(Codec::Opus);
    let depacketizer = CodecDepacketizer::from_codec(alloc, Codec::Opus);
    let (Some(packetizer), Some(depacketizer)) = (packetizer, depacketizer) else {
        return Ok(false);
    };
    let mut payloader: Payloader = Payloader::with_packetizer(packetizer, Frequency::EIGHT_KHZ);
    let mut buffer: DepacketizingBuffer = DepacketizingBuffer::new(alloc, depacketizer, 0);
    let mut sink = MemorySink::new(alloc, 10);
    let samples = [sample(alloc, 960, &[0x90, 0x90, 0x91])?];
    let run = run_schedule(
        alloc,
        &mut payloader,
        &mut buffer,
        &mut sink,
        &samples,
        &ALL_OF_ONE,
        None,
    );
    let sent = sink.packets().len();
    assert_beginning(rt, &sink, sent, &OF_OPUS);
    let held = buffer.held();
    match run {
        Ok(run) => {
            assert_same(rt, "after the run", &(sent, held), &(2, 0));
            assert_count(rt, "the pops", run.pops.len(), 3);
            for (pop, wanted) in run.pops.iter().zip(&OF_OPUS) {
                match pop {
                    Some(Ok(unit)) => assert_bytes(rt, "a unit", &unit.bytes, wanted),
                    _ => assert_holds(rt, "a unit that is missing", false),
                }
            }
            Ok(true)
        }
        Err(fault) => {
            assert_same(rt, "the fault of a run", &fault.number(), &17);
            assert_holds(rt, "what is held was sent", held <= sent && sent <= 2);
            for (place, packet) in sink.packets().iter().enumerate() {
                let number = u64::try_from(place).map_or(0, |it| it.wrapping_add(10));
                assert_same(rt, "a number", &packet.seq_no, &SeqNo(number));
            }
            Ok(false)
        }
    }
}

#[test]
fn run_schedule_refused(rt: HostRuntime) {
    let (first, second) = (
        run_steps_of_opus(&rt, rt.alloc()),
        run_steps_of_opus(&rt, rt.alloc()),
    );
    assert_holds(&rt, "one of both", is_whole(first) || is_whole(second));
}
