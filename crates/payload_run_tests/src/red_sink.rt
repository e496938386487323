//! What a sink of RED sends, and that its contract gives a caller the state of both values that it borrows.

ghost use Rattle.std.specs.Prelude.{◌≡◌, ◌∷◌, ◌++◌, ◌<◌, [], length, OnOk, IfErr};
ghost use Rattle.codec_payload_base.specs.declared.error.PacketError.TheVariants.{OutOfMemory};
ghost use Rattle.codec_payload_red.specs.RedLevels.{recorded};
ghost use Rattle.codec_payload_core.specs.Packets.{packet_of};
ghost use Rattle.codec_payload_core.specs.RedPackets.{in_red, HasPrimary};

use crate::asserts::{assert_bytes, assert_count, assert_same};
use codec_payload_core::error::PacketError;
use codec_payload_core::payload::{MemorySink, OutgoingPacket, PacketSink, RedSink};
use codec_payload_core::red::RedSender;
use codec_payload_core::wire::{ExtensionValues, Pt, SeqNo, Ticks};
use std::alloc::Global;
use std::process::Abort;
use std::test::Fail;

/// A packet of type 111 and number 1.
fn packet(alloc: Global, payload: &[u8]) -> Result<OutgoingPacket, Fail> {
    Ok(OutgoingPacket {
        pt: Pt::new_with_value(111),
        seq_no: SeqNo(1),
        rtp_time: 960,
        wallclock: Ticks(5),
        marker: true,
        nackable: false,
        ext_vals: ExtensionValues::default(),
        payload: Vec::from_slice(alloc, payload)?,
    })
}

/// Sends one packet in RED.
fn send_in_red(
    stream: &mut MemorySink,
    red: &mut RedSender,
    budget: usize,
    packet: OutgoingPacket,
) -> Result<(), PacketError>
    ensures sent { OnOk result (stream.new.packets ≡ stream.old.packets ++ in_red red.old budget (packet_of packet) ∷ []) }
    ensures remembered { OnOk result (red.new ≡ recorded red.old packet.payload.items packet.rtp_time) }
    ensures primary { OnOk result (length packet.payload.items < budget → HasPrimary (in_red red.old budget (packet_of packet)).payload packet.payload.items) }
    ensures refused { IfErr result (λ fault. (fault ≡ OutOfMemory) × (stream.new ≡ stream.old)) }
{
    let mut sink = RedSink::new(stream, red, budget);
    sink.send(packet)
}

/// The number of the next packet, and whether there is a last one, as a sink of RED reports them.
fn told(stream: &mut MemorySink, red: &mut RedSender) -> (SeqNo, bool) {
    let mut sink = RedSink::new(stream, red, 1_200);
    (sink.next_seq_no(), sink.last_packet().is_some())
}

/// Payload type, RTP time, wall clock and marker.
type Fields = (Pt, u32, Ticks, bool);

fn fields_of(packet: &OutgoingPacket) -> Fields {
    (packet.pt, packet.rtp_time, packet.wallclock, packet.marker)
}

/// What a stream of one packet holds is this packet, which is also the last.
fn assert_sent(rt: &impl Abort, stream: &MemorySink, fields: Fields, payload: &[u8]) {
    assert_count(rt, "how many are sent", stream.packets().len(), 1);
    assert_same(
        rt,
        "the last payload",
        &stream.last_packet(),
        &Some(payload),
    );
    for packet in stream.packets() {
        assert_bytes(rt, "the payload", &packet.payload, payload);
        assert_same(rt, "the fields", &fields_of(packet), &fields);
    }
}

#[test]
fn red_sink_sends_wrapped(rt: HostRuntime) -> Result<(), Fail> {
    let alloc = rt.alloc();
    let mut stream = MemorySink::new(alloc, 1);
    let mut red = RedSender::new(alloc, Pt::new_with_value(63), Pt::new_with_value(111), &[1]);
    assert_same(
        &rt,
        "a new sink",
        &told(&mut stream, &mut red),
        &(SeqNo(1), false),
    );
    send_in_red(&mut stream, &mut red, 1_200, packet(alloc, &[1, 2])?)?;
    let fields = (Pt::new_with_value(63), 960, Ticks(5), true);
    assert_sent(&rt, &stream, fields, &[0x6f, 1, 2]);
    Ok(())
}
