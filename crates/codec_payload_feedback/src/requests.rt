//! The requests of one stream, and the compound packets that carry them.

ghost use Rattle.std.specs.Prelude.{◌≡◌, ◌≤◌, ◌%◌, ◌∷◌, [], ◌++◌, IfErr, IfOk, OnErr, OnOk, length};
ghost use Rattle.codec_payload_rtcp.specs.RtcpWriting.{AreUnpadded};
ghost use Rattle.codec_payload_feedback_congestion.specs.Packet.{transport_feedback};
ghost use Rattle.std.specs.Option.{option_map};
ghost use Rattle.codec_payload_feedback_requests.specs.NackSchedule.{requested_by, sure_answer_time};
ghost use Rattle.codec_payload_feedback_requests.specs.Requests.{earlier, has_come};
ghost use Rattle.codec_payload_feedback_requests.specs.RoundTrips.{known_trip};
ghost use Rattle.codec_payload_feedback.specs.Feedback.{AppendsAll, AppendsNack, IsFeedback, after_answered, after_feedback, counted, deadline_of, description_part, has_any, is_idle, keyframe_is_due, keyframe_part, keyframe_pause, new_requests, numbers_due, report_part, reporting, source_by, updated, wanting};

use codec_payload_base::wire::Ticks;
use codec_payload_feedback_congestion::packet::write_transport_packet;
use codec_payload_feedback_requests::keyframe::KeyframeRequests;
use codec_payload_feedback_requests::nack::{NackSchedule, NackSettings};
use codec_payload_rtcp::nack::pack_numbers;
use codec_payload_rtcp::packet::{Nack, PictureLoss, ReceiverReport};
use codec_payload_rtcp::writing::write_cname;
use std::alloc::{AllocError, Global};
use std::marker::Model;

/// The largest number of missing packets that are followed: one NACK has room for them.
const MOST_NUMBERS: usize = 65_533;

/// Who sends feedback, and in which form.
#[derive(Debug, Drop)]
pub struct FeedbackSource {
    alloc: Global,
    ssrc: u32,
    cname: Vec<u8>,
    has_report: bool,
}

/// How many requests the packets of [`StreamRequests::take_due`] had so far, each modulo 2^64.
#[derive(Clone, Copy, Debug, Default, PartialEq, Eq)]
pub struct RequestCounts {
    /// Numbers of missing packets. A number that is requested again counts again.
    pub numbers: u64,
    /// Keyframes (PLI).
    pub keyframes: u64,
}

/// The requests of one stream: which missing packets and which keyframes are requested when.
///
/// Hand it what the stream's receiver misses by [`StreamRequests::update`], and send what [`StreamRequests::take_due`] returns. Call both
/// after each datagram and at [`StreamRequests::next_deadline`].
#[derive(Debug, Drop)]
pub struct StreamRequests {
    alloc: Global,
    ssrc: u32,
    nack: NackSchedule,
    keyframes: KeyframeRequests,
    counts: RequestCounts,
}

impl Model for FeedbackSource {
    ghost use Rattle.std.specs.Prelude.{◌≤◌, length};
    ghost use Rattle.codec_payload_feedback.specs.Feedback.{Source};

    ghost Value = { Source };

    ghost view = { λ s. record { ssrc = s.ssrc; cname = s.cname.items; has_report = s.has_report } };

    ghost invariant = { λ s. length s.cname.items ≤ 255 };
}

impl Model for StreamRequests {
    ghost use Rattle.codec_payload_feedback.specs.Feedback.{Bounded, Requests};

    ghost Value = { Requests };

    ghost view = { λ s. record { ssrc = s.ssrc; nack = s.nack; keyframes = s.keyframes; counts = s.counts } };

    ghost invariant = { λ s. Bounded s.nack };
}

impl FeedbackSource {
    /// Returns a source of feedback with its own SSRC. `cname` is its canonical name (RFC 3550, section 6.5.1). With `has_report`
    /// each packet is a compound packet: it begins with an empty receiver report and the name, as RFC 3550, section 6.1, asks;
    /// without bytes in `cname` the name is left out. Else a packet has the requests alone: reduced size (RFC 5506). `None`: the
    /// name has more than 255 bytes. Does not allocate.
    pub fn new(alloc: Global, ssrc: u32, cname: Vec<u8>, has_report: bool) -> Option<FeedbackSource>
        ensures { result ≡ source_by ssrc cname.items has_report }
    {
        if cname.len() > 255 {
            return None;
        }
        Some(FeedbackSource {
            alloc,
            ssrc,
            cname,
            has_report,
        })
    }

    /// Appends the report that a packet begins with.
    fn write_report(&self, out: &mut Vec<u8>) -> Result<(), AllocError>
        ensures { OnOk result (AppendsAll (report_part self.now) out.old.items out.new.items) }
    {
        if !self.has_report {
            return Ok(());
        }
        let report = ReceiverReport {
            ssrc: self.ssrc,
            blocks: &[],
            extension: &[],
        };
        report.write(out)
    }

    /// Appends the description of the source, if the packet is a compound packet.
    fn write_description(&self, out: &mut Vec<u8>) -> Result<(), AllocError>
        ensures { OnOk result (AppendsAll (description_part self.now) out.old.items out.new.items) }
    {
        if !self.has_report || self.cname.is_empty() {
            return Ok(());
        }
        write_cname(self.ssrc, &self.cname, out)
    }

    /// Returns a packet of transport-wide feedback with this control information, which is whole words and at most 262,132 bytes. In a
    /// compound packet the report and the name come before it.
    pub(crate) fn transport_packet(
        &self,
        media_ssrc: u32,
        fci: &[u8],
    ) -> Result<Vec<u8>, AllocError>
        requires whole { length fci.now % 4 ≡ 0 }
        requires short { length fci.now ≤ 262132 }
        ensures { IfOk result (λ packet. AreUnpadded (report_part self.now ++ (description_part self.now ++ transport_feedback self.now.ssrc media_ssrc fci.now ∷ [])) packet.items) }
    {
        let mut out = Vec::new(self.alloc);
        out.reserve(64 + fci.len())?;
        self.write_report(&mut out)?;
        self.write_description(&mut out)?;
        write_transport_packet(self.ssrc, media_ssrc, fci, &mut out)?;
        Ok(out)
    }

    /// Appends a NACK of the numbers, if there are any.
    fn write_nack(
        &self,
        media_ssrc: u32,
        numbers: &[u16],
        out: &mut Vec<u8>,
    ) -> Result<(), AllocError>
        requires { length numbers.now ≤ 65533 }
        ensures { OnOk result (AppendsNack self.now.ssrc media_ssrc numbers.now out.old.items out.new.items) }
    {
        if numbers.is_empty() {
            return Ok(());
        }
        let mut pairs = Vec::new(self.alloc);
        pack_numbers(numbers, &mut pairs)?;
        let nack = Nack {
            sender_ssrc: self.ssrc,
            media_ssrc,
            pairs: &pairs,
        };
        nack.write(out)
    }

    /// Appends a request for a keyframe, if there is one.
    fn write_keyframe_request(
        &self,
        media_ssrc: u32,
        is_due: bool,
        out: &mut Vec<u8>,
    ) -> Result<(), AllocError>
        ensures { OnOk result (AppendsAll (keyframe_part self.now.ssrc media_ssrc is_due) out.old.items out.new.items) }
    {
        if !is_due {
            return Ok(());
        }
        let request = PictureLoss {
            sender_ssrc: self.ssrc,
            media_ssrc,
        };
        request.write(out)
    }

    /// Returns the packet with these requests. `None`: there are none.
    fn packet(
        &self,
        media_ssrc: u32,
        numbers: &[u16],
        keyframe: bool,
    ) -> Result<Option<Vec<u8>>, AllocError>
        requires { length numbers.now ≤ 65533 }
        ensures { IfOk result (λ packet. IsFeedback self.now media_ssrc numbers.now keyframe (option_map (λ bytes. bytes.items) packet)) }
    {
        if !has_any(numbers, keyframe) {
            return Ok(None);
        }
        let mut out = Vec::new(self.alloc);
        self.write_report(&mut out)?;
        self.write_description(&mut out)?;
        self.write_nack(media_ssrc, numbers, &mut out)?;
        self.write_keyframe_request(media_ssrc, keyframe, &mut out)?;
        Ok(Some(out))
    }
}

impl StreamRequests {
    /// Returns the requests of the stream with this SSRC: so far none. `nack` says when a missing packet is requested; with 0 `tries`
    /// none is, and at most 65,533 numbers are followed. Two requests for a keyframe are at least `keyframe_interval` ticks apart, and at
    /// least one and a half round trips, so that a keyframe that is on its way is not requested again: 100 ms suit live video. Does not
    /// allocate.
    pub fn new(
        alloc: Global,
        ssrc: u32,
        nack: NackSettings,
        keyframe_interval: u64,
    ) -> StreamRequests
        ensures { result ≡ new_requests ssrc nack keyframe_interval }
    {
        let mut settings = nack;
        settings.capacity = nack.capacity.min(MOST_NUMBERS);
        StreamRequests {
            alloc,
            ssrc,
            nack: NackSchedule::new(alloc, settings),
            keyframes: KeyframeRequests::new(keyframe_interval),
            counts: RequestCounts {
                numbers: 0,
                keyframes: 0,
            },
        }
    }

    /// Replaces what is requested: the missing numbers, which rise, and whether a keyframe is. `Receiver::missing` and
    /// `Receiver::wants_keyframe` report both. A number that was missing before keeps its times and its tries.
    ///
    /// # Errors
    ///
    /// Out of memory: nothing changed.
    pub fn update(
        &mut self,
        now: Ticks,
        missing: &[u64],
        wants_keyframe: bool,
    ) -> Result<(), AllocError>
        ensures ok { OnOk result (self.new ≡ updated now.0 missing.now wants_keyframe self.old) }
        ensures err { OnErr result (self.new ≡ self.old) }
    {
        self.nack.refresh(now, missing)?;
        self.keyframes.set_wanted(wants_keyframe);
        Ok(())
    }

    /// Returns a packet with the requests that are due, and counts them as sent: a NACK of the numbers (RFC 4585, section 6.2.1),
    /// lowest first, and a PLI if a keyframe is due (section 6.3.1). If `source` sends compound packets, its report and its name come
    /// before them. `None`: nothing is due.
    ///
    /// # Errors
    ///
    /// Out of memory: nothing changed, and the requests stay due.
    pub fn take_due(
        &mut self,
        now: Ticks,
        source: &FeedbackSource,
    ) -> Result<Option<Vec<u8>>, AllocError>
        ensures packet { IfOk result (λ packet. IsFeedback source.now self.old.ssrc (numbers_due now.0 self.old) (keyframe_is_due now.0 self.old) (option_map (λ bytes. bytes.items) packet)) }
        ensures after { IfOk result (λ packet. self.new ≡ after_feedback now.0 self.old) }
        ensures err { IfErr result (λ e. self.new ≡ self.old) }
    {
        if !self.has_due(now) {
            return Ok(None);
        }
        let mut numbers = Vec::new(self.alloc);
        self.nack.append_due(now, &mut numbers)?;
        let mut keyframes = self.keyframes;
        let keyframe = keyframes.take_due_after(now, self.keyframe_pause());
        let packet = source.packet(self.ssrc, &numbers, keyframe)?;
        self.nack.count_due(now);
        self.keyframes = keyframes;
        count(&mut self.counts, &numbers, keyframe);
        Ok(packet)
    }

    /// Returns how many requests were sent so far.
    pub fn counts(&self) -> RequestCounts
        ensures { result ≡ self.now.counts }
    {
        self.counts
    }

    /// Records that a keyframe is needed, until the next `update` says otherwise. So [`StreamRequests::next_deadline`] is the moment from
    /// which on it can be requested.
    pub fn want_keyframe(&mut self)
        ensures { self.new ≡ wanting self.old }
    {
        self.keyframes.set_wanted(true);
    }

    /// Returns whether the packet that [`StreamRequests::take_due`] would return at this moment requests a keyframe.
    pub fn is_keyframe_due(&self, now: Ticks) -> bool
        ensures { result ≡ keyframe_is_due now.0 self.now }
    {
        let mut keyframes = self.keyframes;
        keyframes.take_due(now)
    }

    /// Records that a retransmission of this sequence number (16 bits) arrived: the time since the first request of the number is a
    /// sample of the round trip. Call it before the `update` after that datagram.
    pub fn answered(&mut self, now: Ticks, number: u16)
        ensures { self.new ≡ after_answered now.0 number self.old }
    {
        self.nack.answered(now, number);
    }

    /// Sets the round trip that reports measured, in ticks: extended reports (RFC 3611), for example. It then counts in place of the
    /// answers. `None`: the answers count.
    pub fn set_reported(&mut self, round_trip: Option<u64>)
        ensures { self.new ≡ reporting round_trip self.old }
    {
        self.nack.set_reported(round_trip);
    }

    /// Returns how long after a request for a keyframe the next one follows at least, beside the interval: one and a half round trips, if
    /// the round trip is known.
    fn keyframe_pause(&self) -> u64
        ensures { result ≡ keyframe_pause self.now }
    {
        match self.nack.round_trip() {
            Some(round_trip) => round_trip.saturating_add(round_trip / 2),
            None => 0,
        }
    }

    /// Returns whether a missing number with these 16 bits was requested.
    pub fn has_requested(&self, number: u16) -> bool
        ensures { result ≡ requested_by number self.now.nack }
    {
        self.nack.has_requested(number)
    }

    /// Returns the round-trip time in ticks: what reports say, or else the median of the latest five answers. `None`: no request was
    /// answered.
    pub fn round_trip(&self) -> Option<u64>
        ensures { result ≡ known_trip self.now.nack.trip }
    {
        self.nack.round_trip()
    }

    /// Returns how long a packet that is missing is worth waiting for, in ticks: until its last request is answered
    /// ([`NackSettings::answer_time`]). `None`: the round trip is not sure, since reports do not say it, and fewer than two requests were
    /// answered.
    pub fn answer_time(&self) -> Option<u64>
        ensures { result ≡ sure_answer_time self.now.nack }
    {
        self.nack.answer_time()
    }

    /// Returns whether nothing is requested: no number is missing, and no keyframe is needed, by the latest `update`.
    pub fn is_idle(&self) -> bool
        ensures { result ≡ is_idle self.now }
    {
        self.nack.is_empty() && !self.keyframes.is_wanted()
    }

    /// Returns whether a request is due.
    fn has_due(&self, now: Ticks) -> bool
        ensures { result ≡ has_come (deadline_of self.now) now.0 }
    {
        match self.next_deadline() {
            Some(at) => at.0 <= now.0,
            None => false,
        }
    }

    /// Returns when the next request is due. `None`: none is without an `update`.
    pub fn next_deadline(&self) -> Option<Ticks>
        ensures { option_map (λ at. at.0) result ≡ deadline_of self.now }
    {
        earlier(self.nack.next_deadline(), self.keyframes.next_deadline())
    }
}

/// Counts these requests.
fn count(counts: &mut RequestCounts, numbers: &[u16], keyframe: bool)
    ensures { counts.new ≡ counted numbers.now keyframe counts.old }
{
    if !numbers.is_empty() {
        counts.numbers = counts.numbers.wrapping_add(numbers.len() as u64);
    }
    if keyframe {
        counts.keyframes = counts.keyframes.wrapping_add(1);
    }
}

/// Whether something is requested.
fn has_any(numbers: &[u16], keyframe: bool) -> bool
    ensures { result ≡ has_any numbers.now keyframe }
{
    keyframe || !numbers.is_empty()
}

/// The earlier of two moments.
fn earlier(one: Option<Ticks>, other: Option<Ticks>) -> Option<Ticks>
    ensures { option_map (λ at. at.0) result ≡ earlier (option_map (λ at. at.0) one) (option_map (λ at. at.0) other) }
{
    match (one, other) {
        (Some(one), Some(other)) if other.0 < one.0 => Some(other),
        (Some(one), _) => Some(one),
        (None, other) => other,
    }
}
