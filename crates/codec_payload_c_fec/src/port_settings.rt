//! Settings of a port with FEC, from C.

ghost use Rattle.std.specs.Prelude.{◌≡◌, IfErr, IfOk, map};
ghost use Rattle.codec_payload_c_fec.specs.PortSettings.{AreSettings, IsNewPort, IsRefused, fault_status, given_if, late_given, pair_given, port_defaults};

use crate::status;
use codec_payload_c_path::fec_receiver::id_of;
use codec_payload_c_path::object::CallerFecPort;
use codec_payload_fec_port::fec_port::FecPort;
use codec_payload_fec_port::port_settings::{
    FecPortSettings as Settings, FecPortSettingsError, RetransmissionType as Pair,
};
use codec_payload_fec_receiver::late::LateIds;
use std::alloc::{AllocError, Global};

/// The settings of a port with FEC. An id of 0: the header extension was not agreed on.
#[repr(C)]
#[derive(Clone, Copy)]
pub struct FecPortSettings {
    /// How many bytes the packets of media may take that are kept of a stream.
    pub bytes: usize,
    /// The largest number of streams.
    pub max_streams: usize,
    /// The payload type of RED.
    pub red_type: u8,
    /// The payload type of ULPFEC.
    pub fec_type: u8,
    /// The payload type of retransmissions of packets in RED, if there is one.
    pub red_retransmission: u8,
    pub has_red_retransmission: bool,
    /// The id of the transport-wide sequence number.
    pub transport_number: u8,
    /// The id of abs-send-time.
    pub abs_send_time: u8,
    /// The id of toffset.
    pub transmission_offset: u8,
    /// The id of video-timing.
    pub video_timing: u8,
}

/// A payload type of media, and that of its retransmissions.
#[repr(C)]
#[derive(Clone, Copy)]
pub struct RetransmissionType {
    pub media: u8,
    pub retransmission: u8,
}

/// Returns the defaults: room for 512 packets of 1,500 bytes for each of 64 streams, and no payload types.
pub fn port_defaults() -> FecPortSettings
    ensures { result ≡ port_defaults }
{
    FecPortSettings {
        bytes: 768_000,
        max_streams: 64,
        red_type: 0,
        fec_type: 0,
        red_retransmission: 0,
        has_red_retransmission: false,
        transport_number: 0,
        abs_send_time: 0,
        transmission_offset: 0,
        video_timing: 0,
    }
}

/// Returns which header extensions are filled in late.
pub fn late_given(
    transport_number: u8,
    abs_send_time: u8,
    transmission_offset: u8,
    video_timing: u8,
) -> LateIds
    ensures { result ≡ late_given transport_number abs_send_time transmission_offset video_timing }
{
    LateIds {
        transport_number: id_of(transport_number),
        abs_send_time: id_of(abs_send_time),
        transmission_offset: id_of(transmission_offset),
        video_timing: id_of(video_timing),
    }
}

/// Converts a payload type and that of its retransmissions from C.
fn pair_given(pair: &RetransmissionType) -> Pair
    ensures { result ≡ pair_given pair.now }
{
    Pair {
        media: pair.media,
        retransmission: pair.retransmission,
    }
}

/// Converts payload types of retransmissions from C.
fn pairs_given(alloc: Global, given: &[RetransmissionType]) -> Result<Vec<Pair>, AllocError>
    ensures { IfOk result (λ pairs. pairs.items ≡ map pair_given given.now) }
{
    let mut pairs = Vec::with_capacity(alloc, given.len())?;
    for pair in given {
        pairs.push(pair_given(pair))?;
    }
    Ok(pairs)
}

/// Converts settings from C.
fn settings_given(
    alloc: Global,
    settings: &FecPortSettings,
    retransmissions: &[RetransmissionType],
) -> Result<Settings, AllocError>
    ensures { IfOk result (λ t. AreSettings settings.now retransmissions.now t) }
{
    Ok(Settings {
        red_type: settings.red_type,
        fec_type: settings.fec_type,
        red_retransmission: given_if(settings.has_red_retransmission, settings.red_retransmission),
        retransmissions: pairs_given(alloc, retransmissions)?,
        late_ids: late_given(
            settings.transport_number,
            settings.abs_send_time,
            settings.transmission_offset,
            settings.video_timing,
        ),
        bytes: settings.bytes,
        max_streams: settings.max_streams,
    })
}

/// Returns a number, if it is given.
fn given_if(is_given: bool, number: u8) -> Option<u8>
    ensures { result ≡ given_if is_given number }
{
    if is_given { Some(number) } else { None }
}

/// Returns the status for settings that no port can meet.
fn fault_status(fault: FecPortSettingsError) -> u32
    ensures { result ≡ fault_status fault }
{
    match fault {
        FecPortSettingsError::MaxStreams => status::FEC_STREAMS,
        FecPortSettingsError::PayloadType(_) => status::FEC_PAYLOAD_TYPE,
        FecPortSettingsError::TwoMeanings(_) => status::FEC_TWO_MEANINGS,
    }
}

/// Returns a port without streams. If there is none, returns the status that says why.
pub fn port_by(
    alloc: Global,
    settings: &FecPortSettings,
    retransmissions: &[RetransmissionType],
) -> Result<CallerFecPort, u32>
    ensures ok { IfOk result (λ c. IsNewPort settings.now retransmissions.now c) }
    ensures refused { IfErr result (λ status. IsRefused settings.now retransmissions.now status) }
{
    let Ok(settings) = settings_given(alloc, settings, retransmissions) else {
        return Err(status::OUT_OF_MEMORY);
    };
    match FecPort::new(alloc, settings) {
        Ok(port) => Ok(CallerFecPort {
            port,
            passed: Vec::new(alloc),
            rebuilt: Vec::new(alloc),
        }),
        Err(fault) => Err(fault_status(fault)),
    }
}
