//! The receiver reports that a session sends by itself (RFC 3550, sections 6.1 and 6.4.2): about which streams, when, and as
//! which packet.

ghost use Rattle.std.specs.Prelude.{◌≡◌, ◌++◌, ◌+◌, ◌*◌, min, ◌<◌, ◌≤◌, ◌%◌, drop, max, IfErr, IfOk, OnOk, length};
ghost use Rattle.codec_payload_feedback.specs.Feedback.{AppendsAll, cname_by, cname_part};
ghost use Rattle.codec_payload_feedback_xr.specs.Exchange.{reference_time};
ghost use Rattle.codec_payload_rtcp.specs.RtcpWriting.{Appends};
ghost use Rattle.codec_payload_session.specs.Reporting.{AppendsGroups, IsReport, ReportsBy, ReportsEach, TakeTurns, all_reported, any_announced, blocks_of, blocks_within, bytes_if, bytes_of, deadline_if, due_after, due_streams, extended_length, extended_part, has_announced, is_due_if, is_first_chosen, is_first_due, is_first_reported, is_new_round, is_time, most_blocks, name_length, noted_sent, planned, report_of_group, room_after};
ghost use Rattle.codec_payload_session_stream.specs.Reports.{block_of};
ghost use Rattle.codec_payload_session_requests.specs.Requests.{source_for};
ghost use Rattle.codec_payload_session_stream.specs.Streams.{later};

use crate::streams::Streams;
use codec_payload_base::wire::{Frequency, Ticks};
use codec_payload_feedback_xr::exchange::{TimeExchange, reference_time};
use codec_payload_rtcp::packet::ReceiverReport;
use codec_payload_rtcp::writing::{write_cname, written_packets_are_read};
use codec_payload_session_formats::formats::{FeedbackSettings, LONGEST_NAME, SessionSettings};
use codec_payload_session_stream::stream::StreamState;
use std::alloc::{AllocError, Global};

/// The bytes of the 31 blocks that a receiver report holds at most.
const MOST_BYTES: usize = 31 * 24;

/// Each report takes as many streams off its round as it has room for, so each stream has its turn.
pub fn reports_take_turns()
    ensures { TakeTurns }
{}

/// Which streams the next report is about.
#[derive(Clone, Copy)]
struct Round {
    /// Whether all streams are due: a round of reports begins.
    is_new: bool,
    /// For how many more streams the report has room.
    room: usize,
}

impl Streams {
    /// Returns the report, if one is due. `due` is when the next one is due.
    #[inline(always)]
    pub(crate) fn report_due(
        &mut self,
        settings: &SessionSettings,
        now: Ticks,
        due: &mut Option<u64>,
    ) -> Option<Result<Vec<u8>, AllocError>>
        ensures { ReportsBy settings.now.feedback settings.now.tick_rate now.0 due.old self.old result due.new self.new }
    {
        match &settings.feedback {
            Some(feedback) => self.report_each(feedback, settings.tick_rate, now, due),
            None => None,
        }
    }

    /// Does the same for a session with feedback.
    #[inline(always)]
    fn report_each(
        &mut self,
        feedback: &FeedbackSettings,
        tick_rate: Frequency,
        now: Ticks,
        due: &mut Option<u64>,
    ) -> Option<Result<Vec<u8>, AllocError>>
        ensures { ReportsEach feedback.now.report_interval feedback.now tick_rate now.0 due.old self.old result due.new self.new }
    {
        let Some(interval) = feedback.report_interval else {
            return None;
        };
        let is_reporting = self.is_reporting();
        if !is_report_due(is_reporting, now, *due) {
            *due = planned(is_reporting, now, interval, *due);
            return None;
        }
        let packet = self.report_all(feedback, tick_rate, now);
        *due = due_after(&packet, now, interval, *due);
        Some(packet)
    }

    /// Returns the packet with the blocks of the first streams that are due, and the extended reports. If memory runs out, nothing has
    /// changed.
    #[inline(never)]
    fn report_all(
        &mut self,
        feedback: &FeedbackSettings,
        tick_rate: Frequency,
        now: Ticks,
    ) -> Result<Vec<u8>, AllocError>
        ensures ok { IfOk result (λ packet. IsReport feedback.now (bytes_of (blocks_of (is_new_round (most_blocks feedback.now) self.old.streams) (most_blocks feedback.now) tick_rate now.0 self.old.streams)) (extended_part feedback.now (reference_time now.0 tick_rate) self.old.exchange) packet.items) }
        ensures after { IfOk result (λ packet. self.new ≡ noted_sent (record self.old { streams = all_reported (is_new_round (most_blocks feedback.now) self.old.streams) (most_blocks feedback.now) self.old.streams })) }
        ensures err { IfErr result (λ e. self.new ≡ self.old) }
    {
        let round = next_round(&self.list, most_blocks(feedback));
        let mut blocks = Vec::new(self.alloc);
        append_blocks(&self.list, round, now, tick_rate, &mut blocks)?;
        let time = reference_time(now, tick_rate);
        let packet = write_report(self.alloc, feedback, &blocks, &self.exchange, time)?;
        self.waking.forget();
        start_fractions(&mut self.list, round);
        self.note_sent();
        Ok(packet)
    }
}

/// Returns when the next report is due, if one is to be sent.
#[tactic(auto, using(crate::proofs::ReportingLemmas::none_planned))]
pub(crate) fn report_deadline(is_reporting: bool, due: Option<u64>) -> Option<u64>
    ensures { result ≡ deadline_if is_reporting due }
{
    let Some(at) = due else {
        return None;
    };
    if is_reporting { Some(at) } else { None }
}

/// Returns whether a report is due: its time has come, and one is to be sent.
fn is_report_due(is_reporting: bool, now: Ticks, due: Option<u64>) -> bool
    ensures { result ≡ is_due_if is_reporting now.0 due }
{
    is_time(now, due) && is_reporting
}

/// Returns whether the time has come.
fn is_time(now: Ticks, due: Option<u64>) -> bool
    ensures { result ≡ is_time now.0 due }
{
    match due {
        Some(at) => at <= now.0,
        None => false,
    }
}

/// Returns when the next report is due if none is now: one interval after there is something to report.
fn planned(is_reporting: bool, now: Ticks, interval: u64, due: Option<u64>) -> Option<u64>
    ensures { result ≡ planned is_reporting interval now.0 due }
{
    if !is_reporting {
        return None;
    }
    match due {
        Some(at) => Some(at),
        None => later(now, interval),
    }
}

/// Returns the time one interval later, at least one tick. `None`: 64 bits do not hold it.
fn later(now: Ticks, interval: u64) -> Option<u64>
    ensures { result ≡ later now.0 (max 1 interval) }
{
    now.0.checked_add(interval.max(1))
}

/// Returns when the next report is due after this one.
fn due_after(
    packet: &Result<Vec<u8>, AllocError>,
    now: Ticks,
    interval: u64,
    due: Option<u64>,
) -> Option<u64>
    ensures { result ≡ due_after packet.now interval now.0 due }
{
    match packet {
        Ok(_) => later(now, interval),
        Err(_) => due,
    }
}

/// Returns whether a stream is announced.
pub(crate) fn any_announced(streams: &[StreamState]) -> bool
    ensures { result ≡ any_announced streams.now }
{
    for stream in streams {
        if stream.announced {
            return true;
        }
    }
    false
}

/// Returns whether a stream of the SSRC is announced.
fn has_announced(streams: &[StreamState], ssrc: u32) -> bool
    ensures { result ≡ has_announced ssrc streams.now }
{
    for stream in streams {
        if stream.announced && stream.ssrc == ssrc {
            return true;
        }
    }
    false
}

/// Returns whether the stream at this place is reported: it is announced, and no later announced stream has its SSRC.
fn is_reported(streams: &[StreamState], place: usize) -> bool
    requires { place < length streams.now }
    ensures { result ≡ is_first_reported (drop place streams.now) }
{
    let stream = &streams[place];
    stream.announced && !has_announced(&streams[place + 1..], stream.ssrc)
}

/// Returns whether the stream at this place is due: it is reported, and this round had no block about it.
fn is_due(streams: &[StreamState], place: usize, is_new: bool) -> bool
    requires { place < length streams.now }
    ensures { result ≡ is_first_due is_new (drop place streams.now) }
{
    let stream = &streams[place];
    is_reported(streams, place) && (is_new || !stream.was_reported)
}

/// Returns whether the stream at this place is due, and the report has room for a block about it.
fn is_chosen(streams: &[StreamState], place: usize, is_new: bool, room: usize) -> bool
    requires { place < length streams.now }
    ensures { result ≡ is_first_chosen is_new room (drop place streams.now) }
{
    room > 0 && is_due(streams, place, is_new)
}

/// Returns how many streams this round had no block about, or in a new round how many are reported.
fn due_count(streams: &[StreamState], is_new: bool) -> usize
    ensures { result ≡ length (due_streams is_new streams.now) }
{
    let mut count = 0;
    for place in 0..streams.len() {
        if is_due(streams, place, is_new) {
            count += 1;
        }
    }
    count
}

/// Returns which streams the next report is about, if it has room for `room` blocks: all streams, if there is room for all or the
/// round has ended, else those that had no block in this round.
fn next_round(streams: &[StreamState], room: usize) -> Round
    ensures is_new { result.is_new ≡ is_new_round room streams.now }
    ensures room { result.room ≡ room }
{
    Round {
        is_new: due_count(streams, true) <= room || due_count(streams, false) == 0,
        room,
    }
}

/// Returns the number of bytes of a source description whose name has `len` bytes.
fn name_length(len: usize) -> usize
    requires { len ≤ 255 }
    ensures { result ≡ name_length len }
{
    if len == 0 {
        0
    } else {
        12 + 4 * ((len + 2) / 4)
    }
}

/// Returns how many blocks fit into `bytes` bytes, in reports of up to 31 blocks.
fn blocks_within(bytes: usize) -> usize
    ensures { result ≡ blocks_within bytes }
{
    31 * (bytes / (8 + MOST_BYTES)) + (bytes % (8 + MOST_BYTES)).saturating_sub(8) / 24
}

/// Returns how many bytes extended reports may have in a report.
fn extended_length(extended: bool) -> usize
    ensures { result ≡ extended_length extended }
{
    if extended { 44 } else { 0 }
}

/// Returns how many blocks a report has at most: those that fit beside the name and the extended reports, and at least one.
fn most_blocks(feedback: &FeedbackSettings) -> usize
    ensures { result ≡ most_blocks feedback.now }
{
    let name = name_length(LONGEST_NAME.min(feedback.cname.len()));
    let room = feedback.max_report.saturating_sub(name);
    blocks_within(room.saturating_sub(extended_length(feedback.extended))).max(1)
}

/// Appends the blocks about the first streams that are due.
fn append_blocks(
    streams: &[StreamState],
    round: Round,
    now: Ticks,
    tick_rate: Frequency,
    blocks: &mut Vec<u8>,
) -> Result<(), AllocError>
    ensures { OnOk result (blocks.new.items ≡ blocks.old.items ++ bytes_of (blocks_of round.is_new round.room tick_rate now.0 streams.now)) }
{
    let mut room = round.room;
    for place in 0..streams.len() {
        if is_chosen(streams, place, round.is_new, room) {
            append_block(&streams[place], now, tick_rate, blocks)?;
            room = room.saturating_sub(1);
        }
    }
    Ok(())
}

/// Appends the block about the stream, if it has one.
fn append_block(
    stream: &StreamState,
    now: Ticks,
    tick_rate: Frequency,
    blocks: &mut Vec<u8>,
) -> Result<(), AllocError>
    ensures { OnOk result (blocks.new.items ≡ blocks.old.items ++ bytes_if (block_of tick_rate now.0 stream.now)) }
{
    match stream.peek_report(now, tick_rate) {
        Some(block) => block.write(blocks),
        None => Ok(()),
    }
}

/// Returns for how many more streams there is room.
fn room_after(is_chosen: bool, room: usize) -> usize
    ensures { result ≡ room_after is_chosen room }
{
    if is_chosen {
        room.saturating_sub(1)
    } else {
        room
    }
}

/// Starts the fraction of the next report here, for each stream that this report is about.
fn start_fractions(streams: &mut [StreamState], round: Round)
    ensures { streams.new ≡ all_reported round.is_new round.room streams.old }
{
    let mut room = round.room;
    for place in 0..streams.len() {
        let is_chosen = is_chosen(streams, place, round.is_new, room);
        streams[place].start_fraction(is_chosen, round.is_new);
        room = room_after(is_chosen, room);
    }
}

/// Returns a compound packet of receiver reports with these blocks, the name, and the extended reports at this NTP time.
fn write_report(
    alloc: Global,
    feedback: &FeedbackSettings,
    blocks: &[u8],
    exchange: &TimeExchange,
    time: u64,
) -> Result<Vec<u8>, AllocError>
    requires whole { length blocks.now % 24 ≡ 0 }
    requires few { length blocks.now ≤ 24 * most_blocks feedback.now }
    ensures { IfOk result (λ packet. IsReport feedback.now blocks.now (extended_part feedback.now time exchange.now) packet.items) }
{
    let mut packet = Vec::new(alloc);
    write_groups(feedback.ssrc, blocks, &mut packet)?;
    write_name(feedback, &mut packet)?;
    write_extended(feedback, exchange, time, &mut packet)?;
    written_packets_are_read();
    Ok(packet)
}

/// Appends receiver reports with these blocks, 31 in each but the last. Without a block there is one empty report.
fn write_groups(ssrc: u32, blocks: &[u8], out: &mut Vec<u8>) -> Result<(), AllocError>
    requires { length blocks.now % 24 ≡ 0 }
    ensures { OnOk result (AppendsGroups ssrc blocks.now out.old.items out.new.items) }
{
    let mut rest = blocks;
    while rest.len() > MOST_BYTES {
        let (group, others) = rest.split_at(MOST_BYTES);
        write_group(ssrc, group, out)?;
        rest = others;
    }
    write_group(ssrc, rest, out)
}

/// Appends a receiver report with these blocks.
fn write_group(ssrc: u32, blocks: &[u8], out: &mut Vec<u8>) -> Result<(), AllocError>
    requires whole { length blocks.now % 24 ≡ 0 }
    requires few { length blocks.now ≤ 744 }
    ensures { OnOk result (Appends out.old.items out.new.items (report_of_group ssrc blocks.now)) }
{
    let report = ReceiverReport {
        ssrc,
        blocks,
        extension: &[],
    };
    report.write(out)
}

/// Appends the extended reports at this NTP time, if the session has them.
fn write_extended(
    feedback: &FeedbackSettings,
    exchange: &TimeExchange,
    time: u64,
    out: &mut Vec<u8>,
) -> Result<(), AllocError>
    ensures length { OnOk result (length out.new.items ≤ length out.old.items + extended_length feedback.now.extended) }
    ensures packets { OnOk result (AppendsAll (extended_part feedback.now time exchange.now) out.old.items out.new.items) }
{
    if feedback.extended {
        exchange.write(feedback.ssrc, time, out)
    } else {
        Ok(())
    }
}

/// Appends the description of the session, if it has a name.
fn write_name(feedback: &FeedbackSettings, out: &mut Vec<u8>) -> Result<(), AllocError>
    ensures length { OnOk result (length out.new.items ≡ length out.old.items + name_length (min 255 (length feedback.now.cname.items))) }
    ensures packets { OnOk result (AppendsAll (cname_part (source_for feedback.now)) out.old.items out.new.items) }
{
    let len = LONGEST_NAME.min(feedback.cname.len());
    write_name_of(feedback.ssrc, &feedback.cname[..len], out)
}

/// Appends a source description with this name, unless it is empty.
fn write_name_of(ssrc: u32, name: &[u8], out: &mut Vec<u8>) -> Result<(), AllocError>
    requires { length name.now ≤ 255 }
    ensures length { OnOk result (length out.new.items ≡ length out.old.items + name_length (length name.now)) }
    ensures packets { OnOk result (AppendsAll (cname_by ssrc name.now) out.old.items out.new.items) }
{
    if name.is_empty() {
        return Ok(());
    }
    write_cname(ssrc, name, out)
}
