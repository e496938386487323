//! The payload types of a port, and the settings of its streams.

ghost use Rattle.std.specs.Prelude.{◌≡◌, IfOk};
ghost use Rattle.codec_payload_session_formats.specs.Formats.{HasSettings, IsLive, IsLiveFeedback, has_type, is_no_media, is_telephone, is_type, is_video, limits_for, plain_format, resends, resends_red, retransmission_for, retransmission_of, role_by, role_of, stream_of};
ghost use Rattle.codec_payload_datagrams.specs.Kinds.{is_among};

use crate::names::StreamNameIds;
use codec_payload_base::wire::{Codec, CodecSpec, Frequency};
use codec_payload_feedback::transport::TransportSettings;
use codec_payload_feedback_requests::nack::NackSettings;
use codec_payload_feedback_wait::adaptive_wait::AdaptiveWaitSettings;
use codec_payload_jitter::jitter::WaitLimits;
use codec_payload_keyframes::unit_gate::FromKeyframe;
use codec_payload_receiver::receiver::{RedSettings, Retransmission, Settings};
use codec_payload_rtp::values::ExtensionIds;
use std::alloc::{AllocError, Global};

/// The longest canonical name (RFC 3550, section 6.5.1), in bytes.
pub const LONGEST_NAME: usize = 255;

/// The default number of accepted datagrams after which a new stream is announced.
const PROBATION: u64 = 2;

/// The default for the largest number of streams.
const MAX_STREAMS: usize = 64;

/// The default for the largest number of packets that a stream holds.
const LIMIT: usize = 4_096;

/// The default for the largest number of bytes of a unit: 1 MiB.
const MAX_UNIT: usize = 1_048_576;

/// A payload format of a port, as `a=rtpmap` and `a=fmtp` of a session description name it.
#[derive(Clone, Copy, Debug, PartialEq, Eq)]
pub struct Format {
    /// The payload type, 0 to 127.
    pub payload_type: u8,
    pub spec: CodecSpec,
    /// The payload type and the step of RED (RFC 2198) over this format, if RED is used, and the payload type of its
    /// retransmissions (`apt`), which are read only if there is a `retransmission` too.
    pub red: Option<RedSettings>,
    /// The payload type of its retransmissions (RFC 4588, `apt`), 0 to 127, if there are any.
    pub retransmission: Option<u8>,
    /// Whether its sender answers requests for missing packets: `a=rtcp-fb` with `nack` (RFC 4585, section 4.2).
    pub nack: bool,
    /// Whether its sender answers requests for keyframes: `a=rtcp-fb` with `nack pli`.
    pub pli: bool,
    /// How long frames of its streams wait for missing packets. By default waiting follows the round trip, if `longest_wait` of the
    /// feedback's settings says so.
    pub wait: Waiting,
}

/// How long the frames of a stream wait for missing packets (`max_wait` of its [`WaitLimits`]).
#[derive(Clone, Copy, Debug, PartialEq, Eq)]
pub enum Waiting {
    /// As long as the session's limits for audio or video say.
    Fixed,
    /// By the round trip, if there is a [`FeedbackSettings::longest_wait`]. Otherwise as with `Fixed`.
    RoundTrip,
    /// By how late missing packets arrive, within the bounds of [`SessionSettings::late`]: each datagram that the stream takes sets
    /// the limit of an [`AdaptiveWait`]. It suits senders without retransmissions, whose missing packets come late or never, and retransmissions of
    /// others than the session. It takes 1.9 kB for each stream.
    ///
    /// [`AdaptiveWait`]: codec_payload_feedback_wait::adaptive_wait::AdaptiveWait
    Late,
}

/// Two SSRCs of one source, as `a=ssrc-group:FID` names them.
#[derive(Clone, Copy, Debug, PartialEq, Eq)]
pub struct SsrcPair {
    /// The SSRC of the stream.
    pub ssrc: u32,
    /// The SSRC of its retransmissions.
    pub retransmission: u32,
}

/// Who requests missing packets and keyframes and sends receiver reports, and when.
#[derive(Clone, Debug, Drop)]
pub struct FeedbackSettings {
    /// The SSRC of the session as a sender of RTCP.
    pub ssrc: u32,
    /// The canonical name of the session (RFC 3550, section 6.5.1), 1 to 255 bytes. Each compound packet has it: reports, and
    /// with `has_report` requests.
    pub cname: Vec<u8>,
    /// Whether each packet of requests is a compound packet, which begins with an empty receiver report and the name, as RFC
    /// 3550, section 6.1, asks. Else it has reduced size (RFC 5506): the other side has to accept that (`a=rtcp-rsize`).
    pub has_report: bool,
    /// When missing packets are requested. Two requests of a number are at least one tick apart, whatever it says, and at most a quarter
    /// of the time for which a frame of the stream waits at most (`longest_wait` where waiting follows the round trip, else the
    /// session's limits), unless `shortest_retry` is longer.
    pub nack: NackSettings,
    /// The least number of ticks between two requests of a stream for a keyframe. 0 counts as 1. Once the round trip is known, they are
    /// also one and a half round trips apart, so that a keyframe that is on its way is not requested again.
    pub keyframe_interval: u64,
    /// A stream requests nothing once its latest datagram arrived more than this number of ticks ago: its sender is silent, or
    /// continues in another stream, and cannot answer.
    pub silence: u64,
    /// How long a frame may wait at most if waiting follows the round trip. A frame then waits as long as a request of one of its packets
    /// can still be answered: `first_wait` of `nack`, and `tries` times the time between two requests of a number
    /// ([`NackSettings::retry_for`]). That is at least as long as the session's limits for audio or video say, and at most this number
    /// of ticks, unless these limits are above it. Until two requests were answered, or an extended report measured the round trip,
    /// video with `nack` waits this number of ticks, so that a first keyframe is not dropped while its packets are on their way; all
    /// other streams wait as the session's limits say. `None`, or no `max_wait` in the session's limits: the wait limits stay. It
    /// applies to formats whose [`Format::wait`] is [`Waiting::RoundTrip`], as it is by default. For a stricter delay, set this number
    /// to it: two requests of a number are at most a quarter of it apart, so that four leave in time.
    pub longest_wait: Option<u64>,
    /// The number of ticks between two receiver reports of the session ([`Event::Report`]); the first one is due this long after
    /// the first stream is announced. 0 counts as 1. `None`: it sends none. RFC 3550, section 6.2, asks for 5 s at least; the
    /// profile of WebRTC (RFC 4585, section 3.4) lifts that, and libwebrtc sends a report each second for video.
    ///
    /// [`Event::Report`]: codec_payload_session::session::Event::Report
    pub report_interval: Option<u64>,
    /// The largest number of bytes of a receiver report, so that it fits into one datagram. If more streams are announced than
    /// blocks of 24 bytes fit, they take turns (RFC 3550, section 6.1), in the order in which they began: a report is about the
    /// first ones that had no block in this round, and a round ends once all had one. So each of `n` streams is reported at least
    /// once in `n / k` intervals, rounded up, if `k` blocks fit. One block is written also if it does not fit.
    pub max_report: usize,
    /// Whether reports also measure the round trip (RFC 3611, sections 4.4 and 4.5). Each report then has a reference time of the
    /// session, in 20 bytes, and an answer to the latest reference time that came since the previous report, if one came, in 24 bytes. A
    /// sender that answers so tells the round trip, from the first loss on: it counts for all streams, in place of the answers to
    /// requests, until three reports in a row have no answer. A peer that does not know extended reports skips them; `a=rtcp-xr` with
    /// `rcvr-rtt` says who does.
    pub extended: bool,
}

/// The settings of a session.
#[derive(Clone, Debug, Drop)]
pub struct SessionSettings {
    /// The payload formats. No two of them have a payload type in common ([`SessionSettings::check`]).
    pub formats: Vec<Format>,
    /// Payload types without media that share the SSRC and the numbers of a stream: comfort noise, error correction. Their
    /// payloads are dropped.
    pub no_media: Vec<u8>,
    /// Payload types of telephone events (RFC 4733) that share the SSRC and the numbers of a stream of audio. They count as
    /// without media, so audio does not wait for them, and polls return their packets ([`Event::Telephone`]).
    ///
    /// [`Event::Telephone`]: codec_payload_session::session::Event::Telephone
    pub telephone_events: Vec<u8>,
    /// The SSRCs of retransmissions. A session that requests packets finds other pairs by the answers to its requests
    /// ([`Session::receive`]). Pairs that become known later: [`Session::add_pair`].
    ///
    /// [`Session::receive`]: codec_payload_session::session::Session::receive
    /// [`Session::add_pair`]: codec_payload_session::session::Session::add_pair
    pub pairs: Vec<SsrcPair>,
    /// The ids of the header extensions to read.
    pub extension_ids: ExtensionIds,
    /// The id of the header extension with the dependency descriptor (AV1 RTP specification, appendix A), 1 to 255, which streams of
    /// video of any codec may have. From a keyframe with a descriptor on, `decodable` of a unit follows the frames that descriptors
    /// refer to ([`FromKeyframe`]). Set it exactly if your session description accepts the extension: a sender that has it accepted
    /// may leave out the picture ids of VP8, which `decodable` follows without it. An id that another extension has too reads that
    /// element. `None`, which is the default: it is not read.
    pub dependency_descriptor: Option<u8>,
    /// The ids of the header extensions that name streams: MID, RID and repaired RID ([`Session::names_of`]). By default none is
    /// read. They are not checked: an id that another extension has too reads that element.
    ///
    /// [`Session::names_of`]: codec_payload_session::session::Session::names_of
    pub name_ids: StreamNameIds,
    /// How long frames of audio wait for missing packets.
    pub audio: WaitLimits,
    /// How long frames of video wait for missing packets.
    pub video: WaitLimits,
    /// Within which bounds frames wait, in formats that wait by how late missing packets arrive ([`Waiting::Late`]).
    pub late: AdaptiveWaitSettings,
    /// What a stream of video does with units that a decoder cannot show. By default they are marked
    /// ([`Session::receiver_of`]).
    ///
    /// [`Session::receiver_of`]: codec_payload_session::session::Session::receiver_of
    pub from_keyframe: FromKeyframe,
    /// The largest number of packets that a stream holds, 1 to 65,536.
    pub limit: usize,
    /// The largest number of bytes of a unit. A larger unit has its own event ([`Event::TooLarge`]), and counts as a refused
    /// frame. So a peer cannot choose how large a buffer of yours must be. `None`: no bound.
    ///
    /// [`Event::TooLarge`]: codec_payload_session::session::Event::TooLarge
    pub max_unit: Option<usize>,
    /// The largest number of streams.
    pub max_streams: usize,
    /// The number of accepted datagrams after which a new stream is announced: a stray packet announces nothing. Duplicates,
    /// late and suspect packets do not count.
    pub probation: u64,
    /// A stream ends once this number of ticks has passed since its last datagram.
    pub idle_timeout: u64,
    /// A stream still takes packets for this number of ticks after its BYE, since packets may arrive after it. The same time
    /// after its last datagram it leaves, if its sender continues in another format.
    pub bye_wait: u64,
    /// Ticks per second of your clock.
    pub tick_rate: Frequency,
    /// Who requests what streams miss, and reports on them. `None`: the session requests nothing, and sends no reports.
    pub feedback: Option<FeedbackSettings>,
    /// How the arrivals of packets are reported to the sender, for its congestion control (transport-wide-cc,
    /// draft-holmer-rmcat-transport-wide-cc-extensions-01): [`Event::TransportFeedback`]. Set it exactly if your session
    /// description accepts the header extension and `a=rtcp-fb` with `transport-cc`; a browser that finds them accepted and gets no
    /// feedback sends almost nothing. It works only beside `feedback`, whose SSRC and name send the packets. The numbers count all
    /// packets of one transport, so such a session has one peer. `None`: nothing is reported.
    ///
    /// [`Event::TransportFeedback`]: codec_payload_session::session::Event::TransportFeedback
    pub transport: Option<TransportSettings>,
}

/// The role of a payload type.
#[derive(Clone, Copy, Debug)]
pub enum Role {
    /// Media of the format, in RED or not.
    Media(Format),
    /// Retransmissions of the format.
    Retransmission(Format),
    /// Packets without media, telephone events among them.
    NoMedia,
    Unknown,
}

impl FeedbackSettings {
    /// Returns settings for live streams and a clock in milliseconds, with this SSRC and this canonical name of 1 to 255 bytes:
    /// requests in packets of reduced size, the defaults of [`NackSettings`], and at most one request for a keyframe in 100 ms.
    /// Waiting follows the round trip, up to 1,500 ms. Nothing is requested 2 s after the latest datagram. A receiver report of at
    /// most 1,200 bytes is sent each second, with extended reports. Does not allocate.
    pub fn live(ssrc: u32, cname: Vec<u8>) -> FeedbackSettings
        ensures { IsLiveFeedback ssrc cname.items result }
    {
        FeedbackSettings {
            ssrc,
            cname,
            has_report: false,
            nack: NackSettings::live(),
            keyframe_interval: 100,
            silence: 2_000,
            longest_wait: Some(1_500),
            report_interval: Some(1_000),
            max_report: 1_200,
            extended: true,
        }
    }
}

impl SessionSettings {
    /// Returns settings without formats, for live streams and a clock in milliseconds. Frames of audio wait for at most 100 ms,
    /// frames of video for at most 200 ms, and formats that wait by late packets within [`AdaptiveWaitSettings::live`]. A session has at most 64 streams of 4,096 packets, and a unit at most
    /// 1,048,576 bytes. A stream is announced with its second datagram, ends after 30 s without a datagram, and takes packets
    /// for 200 ms after its BYE. Nothing is requested. Does not allocate.
    pub fn live(alloc: Global) -> SessionSettings
        ensures { IsLive result }
    {
        SessionSettings {
            formats: Vec::new(alloc),
            no_media: Vec::new(alloc),
            telephone_events: Vec::new(alloc),
            pairs: Vec::new(alloc),
            extension_ids: ExtensionIds::default(),
            dependency_descriptor: None,
            name_ids: StreamNameIds::default(),
            audio: WaitLimits::live(),
            video: WaitLimits::live_video_with_nack(),
            late: AdaptiveWaitSettings::live(),
            from_keyframe: FromKeyframe::Mark,
            limit: LIMIT,
            max_unit: Some(MAX_UNIT),
            max_streams: MAX_STREAMS,
            probation: PROBATION,
            idle_timeout: 30_000,
            bye_wait: 200,
            tick_rate: Frequency::make(1_000).unwrap(),
            feedback: None,
            transport: None,
        }
    }

    /// Returns the role of this payload type.
    #[inline(always)]
    pub fn role(&self, payload_type: u8) -> Role
        ensures { result ≡ role_of self.now payload_type }
    {
        role_in(
            &self.formats,
            &self.no_media,
            &self.telephone_events,
            payload_type,
        )
    }

    /// Returns whether packets of this payload type are telephone events beside audio.
    #[inline(always)]
    pub fn is_telephone(&self, payload_type: u8) -> bool
        ensures { result ≡ is_telephone self.now payload_type }
    {
        is_among(payload_type, &self.telephone_events) && is_no_media(self.role(payload_type))
    }

    /// Returns the SSRC of the stream whose packets are retransmitted under this SSRC.
    pub fn stream_of(&self, retransmission: u32) -> Option<u32>
        ensures { result ≡ stream_of retransmission self.now.pairs.items }
    {
        stream_of(&self.pairs, retransmission)
    }

    /// Returns how long frames of this format wait.
    pub fn limits(&self, format: &Format) -> WaitLimits
        ensures { result ≡ limits_for self.now (is_video format.now.spec.codec) }
    {
        if is_video(format.spec.codec) {
            self.video
        } else {
            self.audio
        }
    }

    /// Returns the settings of the receiver of a stream.
    pub fn receiver(
        &self,
        alloc: Global,
        ssrc: u32,
        format: &Format,
    ) -> Result<Settings, AllocError>
        ensures { IfOk result (λ settings. HasSettings self.now ssrc format.now settings) }
    {
        let mut no_media = Vec::from_slice(alloc, &self.no_media)?;
        no_media.extend_from_slice(&self.telephone_events)?;
        let (payload_type, clock_rate) = (format.payload_type, format.spec.clock_rate);
        let mut settings = if is_video(format.spec.codec) {
            Settings::live_video(alloc, payload_type, clock_rate)
        } else {
            Settings::live_audio(alloc, payload_type, clock_rate)
        };
        settings.no_media = no_media;
        settings.ssrc = Some(ssrc);
        settings.red = format.red;
        settings.retransmission = retransmission_for(&self.pairs, ssrc, format.retransmission);
        settings.extension_ids = self.extension_ids;
        settings.dependency_descriptor = self.dependency_descriptor;
        settings.tick_rate = self.tick_rate;
        settings.wait_limits = self.limits(format);
        settings.from_keyframe = self.from_keyframe;
        settings.limit = self.limit;
        settings.max_unit = self.max_unit;
        Ok(settings)
    }
}

impl Format {
    /// Returns a format without RED, retransmissions and requests. Waiting follows the round trip, if the session requests.
    pub fn new(payload_type: u8, spec: CodecSpec) -> Format
        ensures { result ≡ plain_format payload_type spec }
    {
        Format {
            payload_type,
            spec,
            red: None,
            retransmission: None,
            nack: false,
            pli: false,
            wait: Waiting::RoundTrip,
        }
    }

    /// Returns whether packets of this payload type carry media of this format.
    #[inline(always)]
    pub(crate) fn has_type(&self, payload_type: u8) -> bool
        ensures { result ≡ has_type self.now payload_type }
    {
        if self.payload_type == payload_type {
            return true;
        }
        match self.red {
            Some(red) => red.payload_type == payload_type,
            None => false,
        }
    }

    /// Returns whether packets of this payload type are retransmissions of this format.
    #[inline(always)]
    pub fn resends(&self, payload_type: u8) -> bool
        ensures { result ≡ resends self.now payload_type }
    {
        match self.retransmission {
            Some(own) if own == payload_type => true,
            Some(_) => self.resends_red(payload_type),
            None => false,
        }
    }

    /// Returns whether packets of this payload type are retransmissions of RED packets of this format.
    fn resends_red(&self, payload_type: u8) -> bool
        ensures { result ≡ resends_red self.now.red payload_type }
    {
        match self.red {
            Some(red) => is_type(red.retransmission, payload_type),
            None => false,
        }
    }
}

/// Returns whether this payload type is given.
fn is_type(given: Option<u8>, payload_type: u8) -> bool
    ensures { result ≡ is_type given payload_type }
{
    match given {
        Some(own) => own == payload_type,
        None => false,
    }
}

/// Returns whether the payload type is in the list.
#[inline(always)]
pub(crate) fn is_among(payload_type: u8, types: &[u8]) -> bool
    ensures { result ≡ is_among payload_type types.now }
{
    for t in types {
        if *t == payload_type {
            return true;
        }
    }
    false
}

/// Returns whether frames of this codec are video.
pub fn is_video(codec: Codec) -> bool
    ensures { result ≡ is_video codec }
{
    matches!(codec, Codec::Vp8 | Codec::Vp9 | Codec::Av1)
}

/// Returns the SSRC and payload type of the retransmissions of a stream, if both are known.
pub fn retransmission_for(
    pairs: &[SsrcPair],
    ssrc: u32,
    payload_type: Option<u8>,
) -> Option<Retransmission>
    ensures { result ≡ retransmission_for ssrc payload_type pairs.now }
{
    match payload_type {
        Some(payload_type) => retransmission_of(pairs, ssrc, payload_type),
        None => None,
    }
}

/// Returns the retransmissions of the stream's pair, under this payload type.
fn retransmission_of(pairs: &[SsrcPair], ssrc: u32, payload_type: u8) -> Option<Retransmission>
    ensures { result ≡ retransmission_of ssrc payload_type pairs.now }
{
    for pair in pairs {
        if pair.ssrc == ssrc {
            return Some(Retransmission {
                ssrc: pair.retransmission,
                payload_type,
            });
        }
    }
    None
}

/// Returns the SSRC of the stream whose packets are retransmitted under this SSRC.
fn stream_of(pairs: &[SsrcPair], retransmission: u32) -> Option<u32>
    ensures { result ≡ stream_of retransmission pairs.now }
{
    for pair in pairs {
        if pair.retransmission == retransmission {
            return Some(pair.ssrc);
        }
    }
    None
}

/// Returns the role of this payload type, by the first format that names it.
#[inline(always)]
fn role_in(formats: &[Format], no_media: &[u8], telephone_events: &[u8], payload_type: u8) -> Role
    ensures { result ≡ role_by formats.now no_media.now telephone_events.now payload_type }
{
    for format in formats {
        if format.has_type(payload_type) {
            return Role::Media(*format);
        }
        if format.resends(payload_type) {
            return Role::Retransmission(*format);
        }
    }
    if is_among(payload_type, no_media) || is_among(payload_type, telephone_events) {
        Role::NoMedia
    } else {
        Role::Unknown
    }
}

/// Returns whether packets of this role have no media.
fn is_no_media(role: Role) -> bool
    ensures { result ≡ is_no_media role }
{
    matches!(role, Role::NoMedia)
}
