//! The settings of sessions.

ghost use Rattle.std.specs.Prelude.{◌≡◌, is_some, map, filter_map, IfErr, IfOk, IfSome, Bool};
ghost use Rattle.std.specs.List.{list_all};
ghost use Rattle.codec_payload_c_receiving.specs.SessionFormats.{AreSessionSettings, HasPlainSettings, IsNewSession, MatchFeedback, RefusesSession, can_convert, format_given, format_in_range, is_in_range, no_media_given, pair_given, red_given, session_in_range, telephone_given, transport_given, waiting_given};

use crate::adaptive_wait::{AdaptiveWaitSettings, bounds_of};
use crate::receiver::{WaitLimits, bound_of, from_keyframe_of, waiting_for};
use crate::session_names::{StreamNameIds, name_ids_of};
use codec_payload_core::wire::{CodecSpec, Frequency};
use codec_payload_feedback::transport::TransportSettings;
use codec_payload_feedback_requests::nack::NackSettings;
use codec_payload_handle::extension_ids::{ExtensionIds, id_of, ids_of};
use codec_payload_handle::object::PortSession;
use codec_payload_handle::settings::{Spec, codec_of};
use codec_payload_handle::status;
use codec_payload_receiver::receiver::RedSettings;
use codec_payload_session::session::Session;
use codec_payload_session_formats::formats::{
    FeedbackSettings, Format, SessionSettings as Settings, SsrcPair as Pair, Waiting,
};
use std::alloc::{AllocError, Global};

/// A payload format of a port.
#[repr(C)]
#[derive(Clone, Copy)]
pub struct SessionFormat {
    pub spec: Spec,
    /// The RTP timestamp difference between successive RED packets, 1 to 16,383.
    pub red_step: u32,
    /// The payload type of the media, 0 to 127.
    pub payload_type: u8,
    /// The payload type of RED, 0 to 127; differs from `payload_type`.
    pub red_payload_type: u8,
    /// The payload type of retransmissions, 0 to 127.
    pub rtx_payload_type: u8,
    /// The payload type of retransmitted RED packets, 0 to 127.
    pub red_rtx_payload_type: u8,
    /// Whether the format is sent in RED too.
    pub has_red: bool,
    /// Whether there are retransmissions of the format.
    pub has_rtx: bool,
    /// Whether RED packets of the format are retransmitted too.
    pub has_red_rtx: bool,
    /// Whether its sender answers requests for missing packets.
    pub nack: bool,
    /// Whether its sender answers requests for keyframes.
    pub pli: bool,
    /// Whether frames wait as the session's limits say, also with a `longest_wait`.
    pub fixed_wait: bool,
    /// Whether frames wait by how late missing packets arrive. Then `fixed_wait` is ignored.
    pub late_wait: bool,
}

/// Two SSRCs of one source.
#[repr(C)]
#[derive(Clone, Copy)]
pub struct SsrcPair {
    /// The SSRC of the stream.
    pub ssrc: u32,
    /// The SSRC of its retransmissions.
    pub rtx_ssrc: u32,
}

/// Who requests missing packets and keyframes, and when.
#[repr(C)]
#[derive(Clone, Copy)]
pub struct SessionFeedback {
    /// The least number of ticks between two requests of a stream for a keyframe.
    pub keyframe_interval: u64,
    /// For how many ticks after its latest datagram a stream requests anything.
    pub silence: u64,
    /// Ticks from the moment that a number is first reported missing until its first request.
    pub first_wait: u64,
    /// Ticks between two requests of a number while the round-trip time is unknown.
    pub retry: u64,
    /// The least number of ticks between two requests of a number once the round-trip time is known.
    pub shortest_retry: u64,
    /// The largest number of ticks between two requests of a number once the round-trip time is known.
    pub longest_retry: u64,
    /// How long a frame may wait at most if waiting follows the round trip.
    pub longest_wait: u64,
    /// The number of ticks between two receiver reports of the session.
    pub report_interval: u64,
    /// The largest number of bytes of a receiver report.
    pub max_report: usize,
    /// How many missing numbers of a stream are followed at most.
    pub capacity: usize,
    /// How often a number is requested at most.
    pub tries: u32,
    /// The SSRC of the session as a sender of RTCP.
    pub ssrc: u32,
    /// The canonical name of the session.
    pub cname: [u8; 255],
    /// How many bytes the name has, 1 to 255.
    pub cname_len: u8,
    /// Whether each packet begins with an empty receiver report.
    pub has_report: bool,
    /// Whether `longest_wait` is set. If not, the wait limits stay.
    pub has_longest_wait: bool,
    /// Whether `report_interval` is set. If not, no reports are sent.
    pub has_report_interval: bool,
    /// Whether reports also measure the round trip.
    pub extended: bool,
}

/// How the arrivals of packets are reported.
#[repr(C)]
#[derive(Clone, Copy)]
pub struct SessionTransport {
    /// The number of ticks between two feedbacks; 0 counts as 1.
    pub interval: u64,
    /// The largest number of bytes of the control information of a feedback.
    pub size: usize,
    /// How many numbers are remembered, 1 to 32,768.
    pub window: usize,
    /// The id of the header extension with the transport-wide number, 1 to 255.
    pub extension_id: u8,
}

/// The settings of a session, except its lists.
#[repr(C)]
#[derive(Clone, Copy)]
pub struct SessionSettings {
    /// How long frames of audio wait for missing packets.
    pub audio: WaitLimits,
    /// How long frames of video wait for missing packets.
    pub video: WaitLimits,
    /// Within which bounds frames wait by how late missing packets arrive.
    pub late: AdaptiveWaitSettings,
    /// A stream ends once this number of ticks has passed since its last datagram.
    pub idle_timeout: u64,
    /// A stream takes packets for this number of ticks after its BYE.
    pub bye_wait: u64,
    /// The number of accepted datagrams after which a stream is announced.
    pub probation: u64,
    /// The largest number of packets that a stream holds, 1 to 65,536.
    pub limit: usize,
    /// The largest number of bytes of a unit. `usize::MAX`: no bound.
    pub max_unit: usize,
    /// The largest number of streams, above 0.
    pub max_streams: usize,
    /// Ticks per second of your clock, above 0.
    pub tick_rate: u32,
    /// What happens to units of video that a decoder cannot show. 0: nothing; 1: they are marked; 2: they are dropped.
    pub from_keyframe: u8,
    /// Whether `feedback` is set. If not, nothing is requested.
    pub has_feedback: bool,
    /// Whether `transport` is set. If not, no arrivals are reported.
    pub has_transport: bool,
    /// Who requests missing packets and keyframes.
    pub feedback: SessionFeedback,
    /// The ids of the header extensions to read.
    pub extension_ids: ExtensionIds,
    /// How the arrivals of packets are reported.
    pub transport: SessionTransport,
    /// The ids of the header extensions with names of streams.
    pub name_ids: StreamNameIds,
    /// The id of the header extension with the dependency descriptor. 0: it is not read.
    pub dependency_descriptor: u8,
}

/// Returns how the format uses RED.
fn red_of(format: &SessionFormat) -> Option<RedSettings>
    ensures { result ≡ red_given format.now }
{
    if !format.has_red {
        return None;
    }
    Some(RedSettings {
        payload_type: format.red_payload_type,
        step: format.red_step,
        retransmission: if format.has_red_rtx {
            Some(format.red_rtx_payload_type)
        } else {
            None
        },
    })
}

/// Returns how long frames of the format wait.
fn waiting_of(format: &SessionFormat) -> Waiting
    ensures { result ≡ waiting_given format.now }
{
    if format.late_wait {
        Waiting::Late
    } else if format.fixed_wait {
        Waiting::Fixed
    } else {
        Waiting::RoundTrip
    }
}

/// Converts a format of C. `None`: its clock has no rate.
fn format_of(format: &SessionFormat) -> Option<Format>
    ensures { result ≡ format_given format.now }
{
    let clock_rate = Frequency::make(format.spec.rate)?;
    Some(Format {
        payload_type: format.payload_type,
        spec: CodecSpec {
            codec: codec_of(format.spec.codec),
            clock_rate,
            octet_align: format.spec.octet_align,
        },
        red: red_of(format),
        retransmission: if format.has_rtx {
            Some(format.rtx_payload_type)
        } else {
            None
        },
        nack: format.nack,
        pli: format.pli,
        wait: waiting_of(format),
    })
}

/// Returns whether the clock of the format has a rate.
pub(crate) fn is_format_in_range(format: &SessionFormat) -> bool
    ensures { result ≡ format_in_range format.now }
{
    format.spec.rate > 0
}

/// Returns whether the clocks of all formats have rates.
pub(crate) fn are_in_range(formats: &[SessionFormat]) -> bool
    ensures { result ≡ list_all format_in_range formats.now }
{
    formats.iter().all(|format| is_format_in_range(format))
}

/// Converts the formats of C whose clocks have rates.
pub(crate) fn formats_of(
    alloc: Global,
    formats: &[SessionFormat],
) -> Result<Vec<Format>, AllocError>
    ensures { IfOk result (λ list. list.items ≡ filter_map format_given formats.now) }
{
    formats
        .iter()
        .filter_map(|format| format_of(format))
        .collect(alloc)
}

/// Converts a pair of SSRCs.
fn pair_of(pair: &SsrcPair) -> Pair
    ensures { result ≡ pair_given pair.now }
{
    Pair {
        ssrc: pair.ssrc,
        retransmission: pair.rtx_ssrc,
    }
}

/// Converts pairs of SSRCs.
fn pairs_of(alloc: Global, pairs: &[SsrcPair]) -> Result<Vec<Pair>, AllocError>
    ensures { IfOk result (λ list. list.items ≡ map pair_given pairs.now) }
{
    pairs.iter().map(|pair| pair_of(pair)).collect(alloc)
}

/// Returns the payload type of telephone events that this entry is.
fn telephone_of(entry: u8) -> Option<u8>
    ensures { result ≡ telephone_given entry }
{
    if entry < 128 {
        return None;
    }
    Some(entry - 128)
}

/// Returns the payload type without media that this entry is, if it is not one of telephone events.
fn no_media_of(entry: u8) -> Option<u8>
    ensures { result ≡ no_media_given entry }
{
    if entry < 128 {
        return Some(entry);
    }
    None
}

/// Returns the payload types without media, except those of telephone events.
fn dropped_of(alloc: Global, no_media: &[u8]) -> Result<Vec<u8>, AllocError>
    ensures { IfOk result (λ list. list.items ≡ filter_map no_media_given no_media.now) }
{
    no_media
        .iter()
        .filter_map(|entry| no_media_of(*entry))
        .collect(alloc)
}

/// Returns the payload types of telephone events among the types without media.
fn telephones_of(alloc: Global, no_media: &[u8]) -> Result<Vec<u8>, AllocError>
    ensures { IfOk result (λ list. list.items ≡ filter_map telephone_given no_media.now) }
{
    no_media
        .iter()
        .filter_map(|entry| telephone_of(*entry))
        .collect(alloc)
}

/// Converts the settings of requests, if they are set.
fn feedback_of(
    alloc: Global,
    settings: &SessionSettings,
) -> Result<Option<FeedbackSettings>, AllocError>
    ensures { IfOk result (MatchFeedback settings.now) }
{
    if !settings.has_feedback {
        return Ok(None);
    }
    let len = usize::from(settings.feedback.cname_len);
    let cname = Vec::from_slice(alloc, &settings.feedback.cname[..len])?;
    let feedback = settings.feedback;
    Ok(Some(FeedbackSettings {
        ssrc: feedback.ssrc,
        cname,
        has_report: feedback.has_report,
        nack: NackSettings {
            first_wait: feedback.first_wait,
            retry: feedback.retry,
            shortest_retry: feedback.shortest_retry,
            longest_retry: feedback.longest_retry,
            tries: feedback.tries,
            capacity: feedback.capacity,
        },
        keyframe_interval: feedback.keyframe_interval,
        silence: feedback.silence,
        longest_wait: if feedback.has_longest_wait {
            Some(feedback.longest_wait)
        } else {
            None
        },
        report_interval: if feedback.has_report_interval {
            Some(feedback.report_interval)
        } else {
            None
        },
        max_report: feedback.max_report,
        extended: feedback.extended,
    }))
}

/// Converts the settings of a transport, if they are set.
fn transport_of(settings: &SessionSettings) -> Option<TransportSettings>
    ensures { result ≡ transport_given settings.now }
{
    if !settings.has_transport {
        return None;
    }
    Some(TransportSettings {
        extension_id: settings.transport.extension_id,
        interval: settings.transport.interval,
        size: settings.transport.size,
        window: settings.transport.window,
    })
}

/// Returns whether the clock has a rate, and `from_keyframe` a meaning.
fn is_session_in_range(settings: &SessionSettings) -> bool
    ensures { result ≡ session_in_range settings.now }
{
    settings.tick_rate > 0 && settings.from_keyframe <= 2
}

/// Converts the settings of C, without any lists and feedback. `None`: the clock has no rate, or `from_keyframe` no meaning.
fn settings_of(alloc: Global, settings: &SessionSettings) -> Option<Settings>
    ensures made { is_some result ≡ session_in_range settings.now }
    ensures settings { IfSome result (HasPlainSettings settings.now) }
{
    if !is_session_in_range(settings) {
        return None;
    }
    let tick_rate = Frequency::make(settings.tick_rate)?;
    let from_keyframe = from_keyframe_of(settings.from_keyframe)?;
    Some(Settings {
        formats: Vec::new(alloc),
        no_media: Vec::new(alloc),
        telephone_events: Vec::new(alloc),
        pairs: Vec::new(alloc),
        extension_ids: ids_of(settings.extension_ids),
        dependency_descriptor: id_of(settings.dependency_descriptor),
        name_ids: name_ids_of(settings.name_ids),
        audio: waiting_for(settings.audio),
        video: waiting_for(settings.video),
        late: bounds_of(&settings.late),
        from_keyframe,
        limit: settings.limit,
        max_unit: bound_of(settings.max_unit),
        max_streams: settings.max_streams,
        probation: settings.probation,
        idle_timeout: settings.idle_timeout,
        bye_wait: settings.bye_wait,
        tick_rate,
        feedback: None,
        transport: transport_of(settings),
    })
}

/// Converts the settings of C. They are refused if a clock has no rate or `from_keyframe` no meaning.
pub(crate) fn settings_by(
    alloc: Global,
    given: &SessionSettings,
    formats: &[SessionFormat],
    no_media: &[u8],
    pairs: &[SsrcPair],
) -> Result<Settings, u32>
    ensures ok { IfOk result (AreSessionSettings given.now formats.now no_media.now pairs.now) }
    ensures in_range { IfOk result (λ settings. can_convert given.now formats.now ≡ Bool.true) }
    ensures err { IfErr result (λ status. RefusesSession (can_convert given.now formats.now) status) }
{
    let Some(mut settings) = settings_of(alloc, given) else {
        return Err(status::INVALID);
    };
    if !are_in_range(formats) {
        return Err(status::INVALID);
    }
    let (Ok(formats), Ok(telephone_events), Ok(no_media), Ok(pairs), Ok(feedback)) = (
        formats_of(alloc, formats),
        telephones_of(alloc, no_media),
        dropped_of(alloc, no_media),
        pairs_of(alloc, pairs),
        feedback_of(alloc, given),
    ) else {
        return Err(status::OUT_OF_MEMORY);
    };
    settings.formats = formats;
    settings.no_media = no_media;
    settings.telephone_events = telephone_events;
    settings.pairs = pairs;
    settings.feedback = feedback;
    Ok(settings)
}

/// Creates a session. Which settings it can meet, it says itself.
pub fn session_by(
    alloc: Global,
    given: &SessionSettings,
    formats: &[SessionFormat],
    no_media: &[u8],
    pairs: &[SsrcPair],
) -> Result<PortSession, u32>
    ensures ok { IfOk result (λ s. IsNewSession given.now formats.now no_media.now pairs.now s × (is_in_range given.now formats.now no_media.now ≡ Bool.true)) }
    ensures err { IfErr result (λ status. RefusesSession (is_in_range given.now formats.now no_media.now) status) }
{
    let settings = match settings_by(alloc, given, formats, no_media, pairs) {
        Ok(settings) => settings,
        Err(status) => return Err(status),
    };
    match Session::new(alloc, settings) {
        Ok(session) => Ok(PortSession::new(alloc, session)),
        Err(_) => Err(status::INVALID),
    }
}
