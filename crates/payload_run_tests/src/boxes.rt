//! A run of custom codecs in boxes.

ghost use Rattle.std.specs.Prelude.{[], Some, ⊤, true};

use crate::asserts::{assert_bytes, assert_count};
use crate::library::{Ended, bytes_of_units, run_steps, samples_of};
use crate::own_codec::EachByte;
use codec_payload_core::buffer::DepacketizingBuffer;
use codec_payload_core::codec::{
    BoxedDepacketizer, BoxedPacketizer, CodecDepacketizer, CodecExtra, CodecPacketizer,
    Depacketizer,
};
use codec_payload_core::error::PacketError;
use codec_payload_core::payload::Payloader;
use codec_payload_core::schedule::Step;
use codec_payload_core::wire::Frequency;
use std::alloc::Global;
use std::test::Fail;

/// Each packet is a unit.
#[derive(Debug, Drop)]
struct EachPacket {}

impl Depacketizer for EachPacket {
    ghost state = { λ _. [] };

    ghost depacketize_step = { λ _ _ _ _ _ _ _ _. ⊤ };

    ghost size_hint = { λ _ size. Some size };

    ghost is_head = { λ _ _. true };

    ghost is_tail = { λ _ _ _. true };

    fn out_size_hint(&self, packets_size: usize) -> Option<usize> {
        Some(packets_size)
    }

    fn depacketize(
        &mut self,
        packet: &[u8],
        out: &mut Vec<u8>,
        _codec_extra: &mut CodecExtra,
    ) -> Result<(), PacketError> {
        out.extend_from_slice(packet)?;
        Ok(())
    }

    fn is_partition_head(&self, _packet: &[u8]) -> bool {
        true
    }

    fn is_partition_tail(&self, _marker: bool, _packet: &[u8]) -> bool {
        true
    }
}

const TWO_PACKETS: [Step; 6] = [
    Step::Send {
        sample: 0,
        mtu: 1_200,
    },
    Step::Push(0),
    Step::Push(1),
    Step::Pop,
    Step::Pop,
    Step::Pop,
];

/// A run with both boxes over a frame of two bytes.
fn run_boxes(alloc: Global) -> Result<Ended, Fail> {
    let each_byte = BoxedPacketizer(Box::new(alloc, EachByte {})?);
    let packetizer = CodecPacketizer::Boxed(each_byte);
    let mut payloader = Payloader::with_packetizer(packetizer, Frequency::EIGHT_KHZ);
    let each_packet = BoxedDepacketizer(Box::new(alloc, EachPacket {})?);
    let mut buffer = DepacketizingBuffer::new(alloc, CodecDepacketizer::Boxed(each_packet), 0);
    let samples = samples_of(alloc, &[&[1, 2]])?;
    Ok(run_steps(
        alloc,
        &mut payloader,
        &mut buffer,
        &samples,
        &TWO_PACKETS,
        None,
    )?)
}

#[test]
fn box_run_two_units(rt: HostRuntime) -> Result<(), Fail> {
    let ended = run_boxes(rt.alloc())?;
    assert_count(&rt, "the sends", ended.run.sends.len(), 1);
    for sent in &ended.run.sends {
        assert_count(&rt, "packets of the sample", sent.count, 2);
    }
    let units = bytes_of_units(rt.alloc(), &ended.run)?;
    assert_bytes(&rt, "the units", &units, &[1, 2, 255]);
    Ok(())
}
