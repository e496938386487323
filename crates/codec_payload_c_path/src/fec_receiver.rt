//! Receivers of FEC (RFC 5109 in RFC 2198).

ghost use Rattle.std.specs.Prelude.{◌≡◌, ◌≢◌, IfOk, OnErr, OnOk};
ghost use Rattle.codec_payload_fec_receiver.specs.States.{after_tries};
ghost use Rattle.codec_payload_c_path.specs.FecReceivers.{FetchesPacket, TakesDatagram, fetched, id_of, new_held, restarted, settings_of};
ghost use Rattle.codec_payload_c_path.specs.Held.{held_of};

use crate::object::CallerFec;
use crate::status;
use crate::writing::put_packet;
use codec_payload_fec_receiver::content::FecSettings;
use codec_payload_fec_receiver::fec_receiver::FecReceiver;
use codec_payload_fec_receiver::late::LateIds;
use std::alloc::{AllocError, Global};

/// The settings of a receiver of FEC. An id of 0: the header extension was not agreed on.
#[repr(C)]
#[derive(Clone, Copy)]
pub struct FecReceiverSettings {
    /// How many bytes all packets that are kept may take.
    pub bytes: usize,
    /// The SSRC of the media and of its FEC.
    pub ssrc: u32,
    /// The payload type of RED.
    pub red_type: u8,
    /// The payload type of ULPFEC.
    pub fec_type: u8,
    /// The id of the transport-wide sequence number.
    pub transport_number: u8,
    /// The id of abs-send-time.
    pub abs_send_time: u8,
    /// The id of toffset.
    pub transmission_offset: u8,
    /// The id of video-timing.
    pub video_timing: u8,
}

/// Returns the id of a header extension, if it was agreed on.
pub fn id_of(id: u8) -> Option<u8>
    ensures { result ≡ id_of id }
{
    if id == 0 { None } else { Some(id) }
}

/// Returns the settings of the library.
fn settings_of(settings: &FecReceiverSettings) -> FecSettings
    ensures { result ≡ settings_of settings.now }
{
    FecSettings {
        ssrc: settings.ssrc,
        red_type: settings.red_type,
        fec_type: settings.fec_type,
        late_ids: LateIds {
            transport_number: id_of(settings.transport_number),
            abs_send_time: id_of(settings.abs_send_time),
            transmission_offset: id_of(settings.transmission_offset),
            video_timing: id_of(settings.video_timing),
        },
        bytes: settings.bytes,
    }
}

/// Returns a receiver that holds nothing.
pub fn new_receiver(alloc: Global, settings: &FecReceiverSettings) -> Result<CallerFec, AllocError>
    ensures { IfOk result (λ c. held_of c ≡ new_held settings.now) }
{
    Ok(CallerFec {
        receiver: FecReceiver::new(alloc, settings_of(settings))?,
        packet: None,
    })
}

/// Takes a datagram.
pub fn take(caller: &mut CallerFec, datagram: &[u8]) -> u32
    ensures { TakesDatagram datagram.now (held_of caller.old) result (held_of caller.new) }
{
    match caller.receiver.receive(datagram) {
        Ok(()) => status::OK,
        Err(_) => status::OUT_OF_MEMORY,
    }
}

/// Drops all packets.
pub fn restart(caller: &mut CallerFec)
    ensures { held_of caller.new ≡ restarted (held_of caller.old) }
{
    caller.receiver.restart();
    caller.packet = None;
}

/// Has the next packet ready, if there is one.
fn fetch(caller: &mut CallerFec) -> Result<(), AllocError>
    ensures ok { OnOk result (held_of caller.new ≡ fetched (held_of caller.old)) }
    ensures err { OnErr result (held_of caller.new ≡ record (held_of caller.old) { receiver = after_tries (held_of caller.old).receiver }) }
{
    if caller.packet.is_none() {
        caller.packet = caller.receiver.next_rebuilt()?;
    }
    Ok(())
}

/// Writes the next packet that was rebuilt to the output buffer.
pub fn next(caller: &mut CallerFec, bytes: &mut [u8], size: &mut usize) -> u32
    ensures fetches { FetchesPacket (held_of caller.old) result (record { before = bytes.old; bytes = bytes.new; size_before = size.old; size = size.new }) (held_of caller.new) }
    ensures untouched { result ≢ 0 → bytes.new ≡ bytes.old }
    ensures unchanged { result ≢ 0 → result ≢ 33 → size.new ≡ size.old }
{
    if fetch(caller).is_err() {
        return status::OUT_OF_MEMORY;
    }
    let Some(packet) = &caller.packet else {
        return status::NONE;
    };
    let answer = put_packet(packet.as_slice(), bytes, size);
    if answer == status::OK {
        caller.packet = None;
    }
    answer
}
