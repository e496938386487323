//! Packetizers, which cut frames into packets.

ghost use Rattle.std.specs.Prelude.{◌≡◌, ◌≢◌, is_some};
ghost use Rattle.codec_payload_handle.specs.Kinds.{Makes, OnFrameSender, Refuses, is_frame_sender};
ghost use Rattle.codec_payload_c_packets.specs.Senders.{CutsFrame, GivesPacket, IsFrameSenderOf};
ghost use Rattle.codec_payload_handle.specs.Settings.{packetizer_set};

use codec_payload_c_packets::packetizer::{PacketInfo, packet, packetize};
use codec_payload_core::payloads::Payloads;
use codec_payload_handle::handle::Handle;
use codec_payload_handle::object::{FrameSender, Object};
use codec_payload_handle::settings::{Spec, packetizer_of};
use codec_payload_handle::status;
use std::alloc::Global;

/// Creates a packetizer with these settings in an empty handle.
#[unsafe(no_mangle)]
pub extern "C" fn cpay_packetizer_new(alloc: Global, handle: &mut Handle, spec: &Spec) -> u32
    ensures { Makes (IsFrameSenderOf (packetizer_set spec.now)) (is_some (packetizer_set spec.now)) handle.old.place.value result handle.new.place.value }
{
    if let Some(object) = handle.take(alloc) {
        handle.put(object);
        return status::FULL;
    }
    let Some(packetizer) = packetizer_of(spec) else {
        return status::INVALID;
    };
    let Ok(frame) = Payloads::new(alloc, 0, 0) else {
        return status::OUT_OF_MEMORY;
    };
    let sender = FrameSender {
        packetizer,
        packets: Vec::new(alloc),
        taken: 0,
        marked: false,
        frame,
    };
    let Ok(sender) = Box::new(alloc, sender) else {
        return status::OUT_OF_MEMORY;
    };
    match Box::new(alloc, Object::FrameSender(sender)) {
        Ok(object) => {
            handle.put(object);
            status::OK
        }
        Err(_) => status::OUT_OF_MEMORY,
    }
}

/// Packetizes a frame, and reports how many packets there are to fetch.
#[unsafe(no_mangle)]
pub extern "C" fn cpay_packetize(
    alloc: Global,
    handle: &mut Handle,
    mtu: usize,
    starts_talk_spurt: bool,
    frame: &[u8],
    count: &mut usize,
) -> u32
    ensures cuts { OnFrameSender handle.old.place.value (λ r s. CutsFrame r mtu starts_talk_spurt frame.now result count.new s) handle.new.place.value }
    ensures refused { Refuses is_frame_sender handle.old.place.value result handle.new.place.value }
    ensures unchanged { result ≢ 0 → count.new ≡ count.old }
{
    let Some(mut object) = handle.take(alloc) else {
        return status::EMPTY;
    };
    let answer = match &mut *object {
        Object::FrameSender(sender) => packetize(sender, mtu, starts_talk_spurt, frame, count),
        _ => status::OTHER_KIND,
    };
    handle.put(object);
    answer
}

/// Writes the next packet to the output buffer.
#[unsafe(no_mangle)]
pub extern "C" fn cpay_packet(
    alloc: Global,
    handle: &mut Handle,
    info: &mut PacketInfo,
    bytes: &mut [u8],
) -> u32
    ensures gives { OnFrameSender handle.old.place.value (λ r s. GivesPacket r result info.new bytes.old bytes.new s) handle.new.place.value }
    ensures refused { Refuses is_frame_sender handle.old.place.value result handle.new.place.value }
    ensures untouched { result ≢ 0 → bytes.new ≡ bytes.old }
    ensures unchanged { result ≢ 0 → result ≢ 33 → info.new ≡ info.old }
{
    let Some(mut object) = handle.take(alloc) else {
        return status::EMPTY;
    };
    let answer = match &mut *object {
        Object::FrameSender(sender) => packet(sender, info, bytes),
        _ => status::OTHER_KIND,
    };
    handle.put(object);
    answer
}
