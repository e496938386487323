//! Whether a session can meet its settings.

ghost use Rattle.std.specs.Prelude.{◌≡◌, [], is_some};
ghost use Rattle.codec_payload_codec.specs.Depacketizers.{depacketizer_state_for};
ghost use Rattle.codec_payload_datagrams.specs.Kinds.{is_among};
ghost use Rattle.codec_payload_session_formats.specs.Checks.{checked, fault_of, feedback_fault, first_of, format_fault, formats_fault, is_named, is_payload_type, limit_fault, listed_fault, name_fault, red_fault, red_retransmission_fault, retransmission_fault, step_fault, streams_fault, transport_fault, transport_settings_fault, type_fault};

use crate::formats::{FeedbackSettings, Format, LONGEST_NAME, SessionSettings, is_among};
use codec_payload_base::wire::Codec;
use codec_payload_feedback::transport::TransportSettings;
use codec_payload_receiver::receiver::RedSettings;
use thiserror::Error;

/// The largest number of packets that a stream can hold.
const LARGEST_LIMIT: usize = 65_536;

/// The largest number of transport-wide numbers that are remembered: half of what 16 bits count.
const LARGEST_WINDOW: usize = 32_768;

/// The largest step of RED: its offsets have 14 bits (RFC 2198, section 3).
const LARGEST_STEP: u32 = 16_383;

/// The setting that no session can meet.
///
/// The settings are checked in the order of the fields here: `limit`, `max_streams`, each format in order, `no_media`,
/// `telephone_events`, the name of `feedback`, `transport`: its extension id and its window. A format is checked in the order: codec, payload type, payload type and step of RED, payload type of
/// retransmissions, payload type of retransmitted RED packets.
#[derive(Clone, Copy, Debug, PartialEq, Eq, Error)]
pub enum SessionSettingsError {
    /// `limit` is 0, or above 65,536.
    #[error("limit of held packets is not 1 to 65536")]
    Limit,
    /// `max_streams` is 0.
    #[error("the session has no place for a stream")]
    MaxStreams,
    /// The codec of the format with this index has no depacketizer.
    #[error("the codec of format {0} has no depacketizer")]
    Codec(usize),
    /// The step of RED of the format with this index is 0, or above 16,383.
    #[error("the RED step of format {0} is not 1 to 16383")]
    RedStep(usize),
    /// A payload type is above 127, or 64 to 95: with a marker, packets of these look like RTCP (RFC 5761, section 4). `format` is
    /// the index of the format that uses it. `None`: it is in `no_media` or `telephone_events`.
    #[error("payload type {payload_type} is not 0 to 63 or 96 to 127")]
    PayloadType {
        format: Option<usize>,
        payload_type: u8,
    },
    /// A payload type has another meaning already: in this format or an earlier one, or, for one of `telephone_events`, in
    /// `no_media`. So a packet would not say what it carries. `format` is as above.
    #[error("payload type {payload_type} has two meanings")]
    TwoMeanings {
        format: Option<usize>,
        payload_type: u8,
    },
    /// `cname` of `feedback` has no byte, or more than 255.
    #[error("the canonical name does not have 1 to 255 bytes")]
    Cname,
    /// `extension_id` of `transport` is 0, which is padding (RFC 8285, section 4.1.1).
    #[error("the extension id of the transport is 0")]
    TransportId,
    /// `window` of `transport` is 0, or above 32,768.
    #[error("the window of the transport is not 1 to 32768")]
    TransportWindow,
}

impl SessionSettings {
    /// Returns whether a session can meet these settings. [`Session::new`] asks for it. Does not allocate. The cost is a step for
    /// each pair of formats, and for each format and each other payload type.
    ///
    /// # Errors
    ///
    /// The first fault, in the order that [`SessionSettingsError`] states. The payload types of retransmissions and of
    /// retransmitted RED packets are checked exactly if they are used: the second only beside the first.
    ///
    /// [`Session::new`]: codec_payload_session::session::Session::new
    pub fn check(&self) -> Result<(), SessionSettingsError>
        ensures { result ≡ checked (fault_of self.now) }
    {
        match self.fault() {
            Some(fault) => Err(fault),
            None => Ok(()),
        }
    }

    /// Returns the first fault.
    pub fn fault(&self) -> Option<SessionSettingsError>
        ensures { result ≡ fault_of self.now }
    {
        let formats = formats_fault(&self.formats);
        let no_media = listed_fault(&self.formats, &[], &self.no_media);
        let events = listed_fault(&self.formats, &self.no_media, &self.telephone_events);
        let listed = first_of(no_media, events);
        let numbers = first_of(limit_fault(self.limit), streams_fault(self.max_streams));
        let types = first_of(numbers, first_of(formats, listed));
        let feedback = first_of(
            feedback_fault(&self.feedback),
            transport_fault(self.transport),
        );
        first_of(types, feedback)
    }
}

/// Returns the fault of the settings of feedback, if there are any.
fn feedback_fault(feedback: &Option<FeedbackSettings>) -> Option<SessionSettingsError>
    ensures { result ≡ feedback_fault feedback.now }
{
    match feedback {
        Some(feedback) => name_fault(feedback.cname.len()),
        None => None,
    }
}

/// Returns the first fault of the settings of a transport, if there are any.
fn transport_fault(transport: Option<TransportSettings>) -> Option<SessionSettingsError>
    ensures { result ≡ transport_fault transport }
{
    match transport {
        Some(transport) => transport_settings_fault(transport),
        None => None,
    }
}

/// Returns the first fault of these settings of a transport.
fn transport_settings_fault(transport: TransportSettings) -> Option<SessionSettingsError>
    ensures { result ≡ transport_settings_fault transport }
{
    if transport.extension_id == 0 {
        return Some(SessionSettingsError::TransportId);
    }
    if transport.window == 0 || transport.window > LARGEST_WINDOW {
        return Some(SessionSettingsError::TransportWindow);
    }
    None
}

/// Returns the fault of a canonical name with that number of bytes.
fn name_fault(len: usize) -> Option<SessionSettingsError>
    ensures { result ≡ name_fault len }
{
    if len == 0 || len > LONGEST_NAME {
        Some(SessionSettingsError::Cname)
    } else {
        None
    }
}

/// Returns the fault of the largest number of packets.
fn limit_fault(limit: usize) -> Option<SessionSettingsError>
    ensures { result ≡ limit_fault limit }
{
    if limit == 0 || limit > LARGEST_LIMIT {
        Some(SessionSettingsError::Limit)
    } else {
        None
    }
}

/// Returns the fault of the largest number of streams.
fn streams_fault(max_streams: usize) -> Option<SessionSettingsError>
    ensures { result ≡ streams_fault max_streams }
{
    if max_streams > 0 {
        None
    } else {
        Some(SessionSettingsError::MaxStreams)
    }
}

/// Returns the first fault of the formats.
fn formats_fault(formats: &[Format]) -> Option<SessionSettingsError>
    ensures { result ≡ formats_fault [] formats.now }
{
    for index in 0..formats.len() {
        let fault = format_fault(&formats[..index], &formats[index]);
        if fault.is_some() {
            return fault;
        }
    }
    None
}

/// Returns the first fault of a format after these formats.
fn format_fault(earlier: &[Format], format: &Format) -> Option<SessionSettingsError>
    ensures { result ≡ format_fault earlier.now format.now }
{
    if !has_depacketizer(format.spec.codec) {
        return Some(SessionSettingsError::Codec(earlier.len()));
    }
    let is_taken = is_named(earlier, format.payload_type);
    let own = type_fault(Some(earlier.len()), is_taken, format.payload_type);
    let retransmission = retransmission_fault(earlier, format);
    first_of(own, first_of(red_fault(earlier, format), retransmission))
}

/// Returns the first fault of the format's RED, if it is used.
fn red_fault(earlier: &[Format], format: &Format) -> Option<SessionSettingsError>
    ensures { result ≡ red_fault earlier.now format.now.payload_type format.now.red }
{
    match format.red {
        Some(red) => {
            let own = red.payload_type;
            let is_taken = is_named(earlier, own) || format.payload_type == own;
            let fault = type_fault(Some(earlier.len()), is_taken, own);
            first_of(fault, step_fault(earlier.len(), red.step))
        }
        None => None,
    }
}

/// Returns the fault of the step of RED of the format with this index.
fn step_fault(index: usize, step: u32) -> Option<SessionSettingsError>
    ensures { result ≡ step_fault index step }
{
    if step == 0 || step > LARGEST_STEP {
        Some(SessionSettingsError::RedStep(index))
    } else {
        None
    }
}

/// Returns the first fault of the format's retransmissions, if they are used.
fn retransmission_fault(earlier: &[Format], format: &Format) -> Option<SessionSettingsError>
    ensures { result ≡ retransmission_fault earlier.now format.now format.now.retransmission }
{
    match format.retransmission {
        Some(own) => {
            let is_taken = is_named(earlier, own) || format.has_type(own);
            let fault = type_fault(Some(earlier.len()), is_taken, own);
            first_of(fault, red_retransmission_fault(earlier, format, own))
        }
        None => None,
    }
}

/// Returns the fault of the format's retransmitted RED packets, if they are used. `own` is its payload type of retransmissions.
fn red_retransmission_fault(
    earlier: &[Format],
    format: &Format,
    own: u8,
) -> Option<SessionSettingsError>
    ensures { result ≡ red_retransmission_fault earlier.now format.now own format.now.red }
{
    match format.red {
        Some(
            RedSettings {
                retransmission: Some(red),
                ..
            },
        ) => {
            let is_taken = is_named(earlier, red) || format.has_type(red) || own == red;
            type_fault(Some(earlier.len()), is_taken, red)
        }
        _ => None,
    }
}

/// Returns the first fault of payload types without media. No format has them, and neither have the `others`.
fn listed_fault(formats: &[Format], others: &[u8], types: &[u8]) -> Option<SessionSettingsError>
    ensures { result ≡ listed_fault formats.now others.now types.now }
{
    for t in types {
        let is_taken = is_named(formats, *t) || is_among(*t, others);
        let fault = type_fault(None, is_taken, *t);
        if fault.is_some() {
            return fault;
        }
    }
    None
}

/// Returns the fault of a payload type. `is_taken`: it has another meaning.
fn type_fault(
    format: Option<usize>,
    is_taken: bool,
    payload_type: u8,
) -> Option<SessionSettingsError>
    ensures { result ≡ type_fault format is_taken payload_type }
{
    if !is_payload_type(payload_type) {
        return Some(SessionSettingsError::PayloadType {
            format,
            payload_type,
        });
    }
    if is_taken {
        return Some(SessionSettingsError::TwoMeanings {
            format,
            payload_type,
        });
    }
    None
}

/// Returns whether packets of this payload type never look like RTCP.
fn is_payload_type(payload_type: u8) -> bool
    ensures { result ≡ is_payload_type payload_type }
{
    payload_type <= 127 && (payload_type < 64 || payload_type > 95)
}

/// Returns whether one of the formats has this payload type, for its media or for its retransmissions.
fn is_named(formats: &[Format], payload_type: u8) -> bool
    ensures { result ≡ is_named formats.now payload_type }
{
    for format in formats {
        if format.has_type(payload_type) || format.resends(payload_type) {
            return true;
        }
    }
    false
}

/// Returns whether the codec has a depacketizer.
fn has_depacketizer(codec: Codec) -> bool
    ensures { result ≡ is_some (depacketizer_state_for codec) }
{
    !matches!(
        codec,
        Codec::H264 | Codec::H265 | Codec::H266 | Codec::Rtx | Codec::Red | Codec::Unknown
    )
}

/// Returns the first of two faults.
fn first_of(
    one: Option<SessionSettingsError>,
    other: Option<SessionSettingsError>,
) -> Option<SessionSettingsError>
    ensures { result ≡ first_of one other }
{
    match one {
        Some(fault) => Some(fault),
        None => other,
    }
}
