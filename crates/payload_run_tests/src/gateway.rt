//! The example of an audio gateway in docs/develop/RATTLE.md.

use crate::asserts::assert_bytes;
use crate::library::{buffer_of, payloader_of, sample};
use codec_payload_core::buffer::{DepacketizingBuffer, RtpMeta};
use codec_payload_core::error::PacketError;
use codec_payload_core::payload::{MemorySink, OutgoingPacket, Payloader, RedSink};
use codec_payload_core::red::{Recovered, RedReceiver, RedSender};
use codec_payload_core::wire::{
    Codec, ExtensionValues, Frequency, MediaTime, Pt, RtpHeader, Ticks, ToPayload,
};
use std::alloc::Global;
use std::test::Fail;

/// The most bytes of a payload in RED.
const BUDGET: usize = 1_200;

/// The metadata of a packet that was found in a RED payload.
fn found(packet: &Recovered<'_>) -> RtpMeta {
    RtpMeta {
        received: Ticks(0),
        time: MediaTime::new(u64::from(packet.rtp_time), Frequency::FORTY_EIGHT_KHZ),
        seq_no: packet.seq_no,
        header: RtpHeader {
            payload_type: Pt::new_with_value(96),
            sequence_number: (packet.seq_no.0 % (1 << 16)) as u16,
            timestamp: packet.rtp_time,
            ssrc: 0,
            marker: false,
            ext_vals: ExtensionValues::default(),
        },
        last_sender_info: None,
    }
}

/// Sends each frame of 20 milliseconds in RED (payload type 63), with the previous frame and the third before it. The MTU is one
/// byte less than the budget, so that each frame fits its packet.
fn send_in_red(
    alloc: Global,
    payloader: &mut Payloader,
    frames: &[ToPayload],
    stream: &mut MemorySink,
) -> Result<(), PacketError> {
    let mut red = RedSender::new(
        alloc,
        Pt::new_with_value(63),
        Pt::new_with_value(96),
        &[1, 3],
    );
    for frame in frames {
        let mut sink = RedSink::new(stream, &mut red, BUDGET);
        payloader.push_sample(alloc, frame, BUDGET - 1, &mut sink)?;
    }
    Ok(())
}

/// Pushes the packets in a payload: the packet itself, and the frames that it repeats. The buffer drops duplicates.
fn receive(
    alloc: Global,
    receiver: &RedReceiver,
    packet: &OutgoingPacket,
    buffer: &mut DepacketizingBuffer,
) -> Result<(), PacketError> {
    for one in &receiver.recover(alloc, packet.seq_no, packet.rtp_time, &packet.payload)? {
        buffer.push(found(one), Vec::from_slice(alloc, one.payload)?)?;
    }
    Ok(())
}

/// The packets of eight frames; each has its number as its only byte.
fn sent_frames(alloc: Global) -> Result<MemorySink, Fail> {
    let mut frames = Vec::new(alloc);
    for number in 0..8u8 {
        frames.push(sample(alloc, u64::from(number) * 960, &[number])?)?;
    }
    let mut payloader = payloader_of(Codec::Opus, Frequency::FORTY_EIGHT_KHZ)?;
    let mut stream = MemorySink::new(alloc, 1);
    send_in_red(alloc, &mut payloader, &frames, &mut stream)?;
    Ok(stream)
}

/// The bytes of all units that a buffer gives.
fn pop_all(alloc: Global, buffer: &mut DepacketizingBuffer) -> Result<Vec<u8>, PacketError> {
    let mut units = Vec::new(alloc);
    while let Some(unit) = buffer.pop() {
        units.extend_from_slice(&unit?.bytes)?;
    }
    Ok(units)
}

/// The frames released if the packets with these indices arrive.
fn units_of(alloc: Global, arrived: &[usize]) -> Result<Vec<u8>, Fail> {
    let stream = sent_frames(alloc)?;
    let receiver = RedReceiver::new(96, 960).ok_or("no step")?;
    let mut buffer = buffer_of(alloc, Codec::Opus)?;
    for index in arrived {
        let packet = stream.packets().get(*index).ok_or("no packet")?;
        receive(alloc, &receiver, packet, &mut buffer)?;
    }
    Ok(pop_all(alloc, &mut buffer)?)
}

/// One lost packet; three in a row, of which the next packet repeats the first and the last, and the one after it the second; and
/// two at the end, which nothing repeats.
#[test]
fn lost_frames_come_back(rt: HostRuntime) -> Result<(), Fail> {
    let all = [0, 1, 2, 3, 4, 5, 6, 7];
    for (name, arrived, wanted) in [
        ("one lost", [0, 1, 3, 4, 5, 6, 7].as_slice(), all.as_slice()),
        ("three lost", &[0, 1, 5, 6, 7], &all),
        (
            "two lost at the end",
            &[0, 1, 2, 3, 4, 5],
            &[0, 1, 2, 3, 4, 5],
        ),
    ] {
        assert_bytes(&rt, name, &units_of(rt.alloc(), arrived)?, wanted);
    }
    Ok(())
}
