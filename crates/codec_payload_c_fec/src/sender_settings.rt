//! Settings of a sender of FEC, from C.

ghost use Rattle.std.specs.Prelude.{◌≡◌, IfErr, IfOk};
ghost use Rattle.codec_payload_c_fec.specs.SenderSettings.{IsNewSender, IsRefused, refusal_status, settings_given};

use crate::port_settings::late_given;
use crate::status;
use codec_payload_base::payloads::Payloads;
use codec_payload_c_path::object::CallerFecSender;
use codec_payload_fec::writing::FecWriter;
use codec_payload_sending_fec::fec_sender::{
    FecSender, FecSenderError, FecSenderSettings as Settings,
};
use std::alloc::Global;

/// The settings of a sender of FEC. An id of 0: the header extension was not agreed on.
#[repr(C)]
#[derive(Clone, Copy)]
pub struct FecSenderSettings {
    /// The SSRC of the stream.
    pub ssrc: u32,
    /// The number of the first packet.
    pub first_number: u16,
    /// The payload type of RED.
    pub red_type: u8,
    /// The payload type of ULPFEC.
    pub fec_type: u8,
    /// The share of protection, in 256ths.
    pub protection: u8,
    /// The share of protection of keyframes, in 256ths.
    pub keyframe_protection: u8,
    /// The id of the transport-wide sequence number.
    pub transport_number: u8,
    /// The id of abs-send-time.
    pub abs_send_time: u8,
    /// The id of toffset.
    pub transmission_offset: u8,
    /// The id of video-timing.
    pub video_timing: u8,
}

/// Converts settings from C.
fn settings_given(settings: &FecSenderSettings) -> Settings
    ensures { result ≡ settings_given settings.now }
{
    Settings {
        ssrc: settings.ssrc,
        red_type: settings.red_type,
        fec_type: settings.fec_type,
        first_number: settings.first_number,
        writer: FecWriter {
            protection: settings.protection,
            keyframe_protection: settings.keyframe_protection,
        },
        late_ids: late_given(
            settings.transport_number,
            settings.abs_send_time,
            settings.transmission_offset,
            settings.video_timing,
        ),
    }
}

/// Returns the status for settings that are out of range.
fn refusal_status(settings: &FecSenderSettings, fault: FecSenderError) -> u32
    ensures { result ≡ refusal_status settings.now fault }
{
    match fault {
        FecSenderError::FecType if settings.fec_type < 128 => status::FEC_TWO_MEANINGS,
        _ => status::FEC_PAYLOAD_TYPE,
    }
}

/// Returns a sender that has written nothing. If there is none, returns the status that says why.
pub fn sender_by(alloc: Global, settings: &FecSenderSettings) -> Result<CallerFecSender, u32>
    ensures ok { IfOk result (λ c. IsNewSender settings.now c) }
    ensures refused { IfErr result (λ status. IsRefused settings.now status) }
{
    let sender = match FecSender::new(alloc, settings_given(settings)) {
        Ok(sender) => sender,
        Err(fault) => return Err(refusal_status(settings, fault)),
    };
    let Ok(fec) = Payloads::new(alloc, 0, 0) else {
        return Err(status::OUT_OF_MEMORY);
    };
    Ok(CallerFecSender {
        sender,
        packet: Vec::new(alloc),
        fec,
    })
}
