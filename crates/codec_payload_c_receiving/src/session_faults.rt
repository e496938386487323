//! The first setting of a session that no session can meet.

ghost use Rattle.std.specs.Prelude.{◌≡◌, IfErr, IfOk};
ghost use Rattle.codec_payload_c_receiving.specs.SessionFaults.{TellsFault, fault_at, fault_for_c, fault_told, plain_fault, range_fault, rate_fault, type_fault_at};

use crate::session_settings::{SessionFormat, SessionSettings, is_format_in_range, settings_by};
use codec_payload_handle::status;
use codec_payload_session_formats::checks::SessionSettingsError;
use std::alloc::Global;

/// A setting of a session that no session can meet.
#[repr(C)]
#[derive(Clone, Copy)]
pub struct SettingsFault {
    /// The index of the format, if the fault is in one; else 0.
    pub format: usize,
    /// 0: no fault; 1: `tick_rate`; 2: `from_keyframe`; 3: the clock rate of a format; 4: `limit`; 5: `max_streams`; 6: the codec of
    /// a format; 7: the step of RED of a format; 8: a payload type out of range; 9: one with two meanings; 10: the name; 11: the extension id of the
    /// transport; 12: its window.
    pub kind: u32,
    /// The payload type, if the fault is about one; else 0.
    pub payload_type: u8,
    /// Whether the fault is in a format.
    pub has_format: bool,
    /// Whether the fault is about a payload type.
    pub has_payload_type: bool,
}

/// Returns a fault that is in no format and no list, or no fault.
fn plain_fault(kind: u32) -> SettingsFault
    ensures { result ≡ plain_fault kind }
{
    SettingsFault {
        format: 0,
        kind,
        payload_type: 0,
        has_format: false,
        has_payload_type: false,
    }
}

/// Returns a fault of the format with this index.
fn fault_at(kind: u32, format: usize) -> SettingsFault
    ensures { result ≡ fault_at kind format }
{
    SettingsFault {
        format,
        has_format: true,
        ..plain_fault(kind)
    }
}

/// Returns a fault of a payload type, of the format with this index or else of a list.
fn type_fault_at(kind: u32, format: Option<usize>, payload_type: u8) -> SettingsFault
    ensures { result ≡ type_fault_at kind format payload_type }
{
    let fault = match format {
        Some(format) => fault_at(kind, format),
        None => plain_fault(kind),
    };
    SettingsFault {
        payload_type,
        has_payload_type: true,
        ..fault
    }
}

/// Converts a fault for C.
fn fault_told(fault: SessionSettingsError) -> SettingsFault
    ensures { result ≡ fault_told fault }
{
    match fault {
        SessionSettingsError::Limit => plain_fault(4),
        SessionSettingsError::MaxStreams => plain_fault(5),
        SessionSettingsError::Codec(format) => fault_at(6, format),
        SessionSettingsError::RedStep(format) => fault_at(7, format),
        SessionSettingsError::PayloadType {
            format,
            payload_type,
        } => type_fault_at(8, format, payload_type),
        SessionSettingsError::TwoMeanings {
            format,
            payload_type,
        } => type_fault_at(9, format, payload_type),
        SessionSettingsError::Cname => plain_fault(10),
        SessionSettingsError::TransportId => plain_fault(11),
        SessionSettingsError::TransportWindow => plain_fault(12),
    }
}

/// Returns the fault of the first format whose clock has no rate.
fn rate_fault(formats: &[SessionFormat]) -> Option<SettingsFault>
    ensures { result ≡ rate_fault 0 formats.now }
{
    for index in 0..formats.len() {
        if !is_format_in_range(&formats[index]) {
            return Some(fault_at(3, index));
        }
    }
    None
}

/// Returns the first fault of numbers that cannot be converted.
fn range_fault(settings: &SessionSettings, formats: &[SessionFormat]) -> Option<SettingsFault>
    ensures { result ≡ range_fault settings.now formats.now }
{
    if settings.tick_rate == 0 {
        return Some(plain_fault(1));
    }
    if settings.from_keyframe > 2 {
        return Some(plain_fault(2));
    }
    rate_fault(formats)
}

/// Returns the first fault of the settings. An error is the status of out of memory.
pub fn first_fault(
    alloc: Global,
    settings: &SessionSettings,
    formats: &[SessionFormat],
    no_media: &[u8],
) -> Result<Option<SettingsFault>, u32>
    ensures ok { IfOk result (λ fault. fault ≡ fault_for_c settings.now formats.now no_media.now) }
    ensures err { IfErr result (λ status. status ≡ 17) }
{
    let range = range_fault(settings, formats);
    if range.is_some() {
        return Ok(range);
    }
    match settings_by(alloc, settings, formats, no_media, &[]) {
        Ok(settings) => match settings.check() {
            Ok(()) => Ok(None),
            Err(fault) => Ok(Some(fault_told(fault))),
        },
        Err(status) => Err(status),
    }
}

/// Writes the fault, if there is one, and returns the status for it.
pub fn write_fault(found: Option<SettingsFault>, fault: &mut SettingsFault) -> u32
    ensures { TellsFault found result fault.new }
{
    match found {
        Some(found) => {
            *fault = found;
            status::INVALID
        }
        None => {
            *fault = plain_fault(0);
            status::OK
        }
    }
}
