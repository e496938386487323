//! RED: the sender, which remembers what it sent (RFC 2198, section 3; docs/use/FORMATS.md, "RED").

ghost use Rattle.std.specs.Prelude.{◌≡◌, ◌+◌, ◌-◌, ◌<◌, ◌≤◌, ◌++◌, [], length, take, reverse, sum_by, IfOk, IfErr, IfSome, OnOk, IsTrue};
ghost use Rattle.std.specs.List.{flat_map};
ghost use Rattle.codec_payload_base.specs.declared.error.PacketError.TheVariants.{OutOfMemory};
ghost use Rattle.codec_payload_red.specs.RedPayload.{IsRed, spelling};
ghost use Rattle.codec_payload_red.specs.RedLevels.{is_accepted, deepest, back, as_block, level, levels, levels_of, within, room_of, cost, kept, wrapped, output, recorded, synced, IsLongest};
ghost use Rattle.codec_payload_base.specs.Answers.{Finds};
ghost use Rattle.codec_payload_red.specs.RedBlocks.{part_of};
ghost use Rattle.codec_payload_red.specs.RedHistory.{entry_of, entries_of};

use crate::red::blocks::{BlockPart, REDUNDANT_HEADER_LEN, fits_fields, put_part};
use codec_payload_base::error::PacketError;
use codec_payload_base::wire::Pt;
use std::alloc::{AllocError, Global};
use std::collections::VecDeque;
use std::marker::Model;
use std::mem;

/// The greatest distance, in packets, of a redundant block: the limit of a receiver and of a sender.
pub const MAX_RED_RECOVERY_DEPTH: u64 = 8;

/// The greatest distance of a sender is 8.
pub fn constants_of_red()
    ensures { MAX_RED_RECOVERY_DEPTH ≡ 8 }
{}

/// A payload that was sent.
#[derive(Debug, Drop)]
struct SentPayload {
    bytes: Vec<u8>,
    /// In ticks of the RTP clock, modulo 2^32.
    time: u32,
}

/// The payload that was sent `distance` packets earlier.
fn back_of(history: &VecDeque<SentPayload>, distance: u32) -> Option<&SentPayload>
    ensures { Finds (λ x. entry_of x.now) result (back (entries_of history.now.items) distance) }
{
    let index = distance.checked_sub(1)?;
    history.get(index as usize)
}

/// A payload as a block's offset and bytes, if it fits the header's fields.
fn as_block_of(sent: &SentPayload, pt: u8, time: u32) -> Option<(u32, &[u8])>
    ensures { Finds (λ x. record { pt = pt; offset = x.0; bytes = x.1.now }) result (as_block pt time (entry_of sent.now)) }
{
    let offset = time.wrapping_sub(sent.time);
    if !fits_fields(offset, sent.bytes.len()) {
        return None;
    }
    Some((offset, sent.bytes.as_slice()))
}

/// The payloads before a packet, and what their blocks in the packet's payload depend on.
#[derive(Drop)]
struct Earlier<'a> {
    /// Newest first.
    history: &'a VecDeque<SentPayload>,
    /// The payload type of the blocks: 0 to 127.
    pt: u8,
    /// The RTP time of the packet.
    time: u32,
}

/// The level of a distance: the payload sent that many packets earlier, as the offset and bytes of a block.
fn level_of<'a>(earlier: &Earlier<'a>, distance: u32) -> Option<(u32, &'a [u8])>
    ensures found { Finds (λ x. record { pt = earlier.now.pt; offset = x.0; bytes = x.1.now }) result (level earlier.now.pt earlier.now.time (entries_of earlier.now.history.now.items) distance) }
    ensures low { IfSome result (λ x. x.0 ≤ 16383) }
    ensures short { IfSome result (λ x. length x.1.now ≤ 1023) }
{
    let sent = back_of(earlier.history, distance)?;
    as_block_of(sent, earlier.pt, earlier.time)
}

/// The distances whose levels are sent: the first so many, shallowest first.
#[derive(Clone, Copy)]
struct Chosen {
    count: usize,
    /// How many bytes their blocks take, headers and all.
    size: usize,
}

/// Chooses as many distances, from the shallowest on, as have levels that fit the room together.
#[tactic(auto, unfolding(crate::specs::RedLevels::levels, crate::specs::RedLevels::within))]
fn choose(earlier: &Earlier<'_>, distances: &[u32], room: usize) -> Chosen
    ensures kept { within room (levels earlier.now.pt earlier.now.time (entries_of earlier.now.history.now.items) distances.now) ≡ levels earlier.now.pt earlier.now.time (entries_of earlier.now.history.now.items) (take result.count distances.now) }
    ensures count { result.count ≤ length distances.now }
    ensures cost { result.size ≡ sum_by cost (levels earlier.now.pt earlier.now.time (entries_of earlier.now.history.now.items) (take result.count distances.now)) }
    ensures fits { result.size ≤ room }
{
    let Some((first, deeper)) = distances.split_first() else {
        return Chosen { count: 0, size: 0 };
    };
    let size = match level_of(earlier, *first) {
        None => 0,
        Some((_, bytes)) => REDUNDANT_HEADER_LEN + bytes.len(),
    };
    if room < size {
        return Chosen { count: 0, size: 0 };
    }
    let others = choose(earlier, deeper, room - size);
    Chosen {
        count: others.count + 1,
        size: others.size + size,
    }
}

/// Writes one part of each level, deepest first.
#[tactic(auto, unfolding(crate::specs::RedLevels::levels))]
fn put_levels(
    out: &mut Vec<u8>,
    part: BlockPart,
    earlier: &Earlier<'_>,
    distances: &[u32],
) -> Result<(), AllocError>
    requires { earlier.now.pt < 128 }
    ensures { OnOk result (out.new.items ≡ out.old.items ++ flat_map (part_of part) (reverse (levels earlier.now.pt earlier.now.time (entries_of earlier.now.history.now.items) distances.now))) }
{
    let Some((first, deeper)) = distances.split_first() else {
        return Ok(());
    };
    put_levels(out, part, earlier, deeper)?;
    if let Some((offset, bytes)) = level_of(earlier, *first) {
        put_part(out, part, earlier.pt, offset, bytes)?;
    }
    Ok(())
}

/// Appends the levels that fit the budget, deepest first, and then the payload.
#[tactic(auto, using(crate::proofs::SenderOutputLemmas::appended_in_order))]
fn put_wrapped(
    out: &mut Vec<u8>,
    earlier: &Earlier<'_>,
    distances: &[u32],
    payload: &[u8],
    budget: usize,
) -> Result<(), AllocError>
    requires room { length payload.now < budget }
    requires small { earlier.now.pt < 128 }
    ensures { OnOk result (out.new.items ≡ out.old.items ++ spelling (record { redundant = reverse (within (budget - length payload.now - 1) (levels earlier.now.pt earlier.now.time (entries_of earlier.now.history.now.items) distances.now)); pt = earlier.now.pt; primary = payload.now })) }
{
    let chosen = choose(earlier, distances, budget - payload.len() - 1);
    let (kept, _) = distances.split_at(chosen.count);
    out.reserve(chosen.size + 1 + payload.len())?;
    put_levels(out, BlockPart::Header, earlier, kept)?;
    out.push(earlier.pt)?;
    put_levels(out, BlockPart::Bytes, earlier, kept)?;
    out.extend_from_slice(payload)?;
    Ok(())
}

/// Up to eight distances, strictly rising.
#[derive(Debug, Drop)]
struct Distances {
    list: [u32; MAX_RED_RECOVERY_DEPTH as usize],
    count: usize,
}

impl Model for Distances {
    ghost use Rattle.std.specs.Prelude.{List, ℕ, take, ◌≤◌};

    ghost Value = { List ℕ };

    ghost view = { λ d. take d.count d.list };

    ghost invariant = { λ d. d.count ≤ 8 };
}

impl Distances {
    #[tactic(auto, using(crate::proofs::SenderHistoryLemmas::accepted_few))]
    fn from_list(distances: &[u32]) -> Self
        requires { IsTrue (is_accepted distances.now) }
        ensures { result ≡ distances.now }
    {
        let mut list = [0; MAX_RED_RECOVERY_DEPTH as usize];
        for (i, distance) in distances.iter().enumerate() {
            list[i] = *distance;
        }
        Distances {
            list,
            count: distances.len(),
        }
    }

    fn as_slice(&self) -> &[u32]
        ensures { result.now ≡ self.now }
    {
        &self.list[..self.count]
    }
}

/// The most payloads that the history holds: the greatest distance, or one without distances.
fn depth_of(distances: &[u32]) -> usize
    ensures { result ≡ deepest distances.now }
{
    match distances {
        [] => 1,
        [.., last] => *last as usize,
    }
}

/// Removes the oldest payload if the history holds more than `depth`, and returns its memory.
#[tactic(auto, using(crate::proofs::SenderHistoryLemmas::all_within, crate::proofs::SenderHistoryLemmas::one_past))]
fn take_past(history: &mut VecDeque<SentPayload>, depth: usize) -> Vec<u8>
    requires { length history.old.items ≤ depth + 1 }
    ensures { history.new.items ≡ take depth history.old.items }
{
    if history.len() > depth
        && let Some(oldest) = history.pop_back()
    {
        return oldest.bytes;
    }
    Vec::new(*history.allocator())
}

/// Sends each payload together with some earlier ones, so that a receiver can recover lost packets (RFC 2198).
///
/// A *distance* is how many payloads back a redundant block goes: 1 is the payload right before. The sender keeps as many payloads
/// as its greatest distance.
#[derive(Debug, Drop)]
pub struct RedSender {
    red_pt: Pt,
    primary_pt: Pt,
    distances: Distances,
    /// Newest first.
    history: VecDeque<SentPayload>,
    /// Memory of a payload that left the history, for reuse.
    spare: Vec<u8>,
}

impl Model for RedSender {
    ghost use Rattle.std.specs.Prelude.{IsTrue, length, ◌≤◌};
    ghost use Rattle.codec_payload_red.specs.RedLevels.{Sender, is_accepted, deepest};
    ghost use Rattle.codec_payload_red.specs.RedHistory.{entries_of};

    ghost Value = { Sender };

    ghost view = { λ s. record { red_pt = s.red_pt; primary_pt = s.primary_pt; distances = s.distances; history = entries_of s.history.items } };

    ghost invariant = { λ s. IsTrue (is_accepted s.distances) × (length s.history.items ≤ deepest s.distances) };
}

impl RedSender {
    /// Whether a sender takes these distances: they rise strictly, and each is from 1 to 8. The empty list is taken too.
    pub fn accepts(distances: &[u32]) -> bool
        ensures { result ≡ is_accepted distances.now }
    {
        let mut low = 0;
        for distance in distances {
            if *distance <= low || u64::from(*distance) > MAX_RED_RECOVERY_DEPTH {
                return false;
            }
            low = *distance;
        }
        true
    }

    /// A sender that has sent nothing. `red_pt` is the payload type of the packets, `primary_pt` the payload type of the blocks; 7
    /// bits of each are written. Does not allocate; the history grows in `alloc`.
    ///
    /// Requires distances that [`RedSender::accepts`] accepts: strictly rising, each 1 to 8; an empty list is allowed. Call it
    /// first if the distances come from outside.
    pub fn new(alloc: Global, red_pt: Pt, primary_pt: Pt, distances: &[u32]) -> Self
        requires { IsTrue (is_accepted distances.now) }
        ensures { result ≡ record { red_pt = red_pt; primary_pt = primary_pt; distances = distances.now; history = [] } }
    {
        RedSender {
            red_pt,
            primary_pt,
            distances: Distances::from_list(distances),
            history: VecDeque::new(alloc),
            spare: Vec::new(alloc),
        }
    }

    /// Sets new payload types and distances. The newest payloads of the history stay, as many as the new greatest distance, or one
    /// without distances. Does not allocate.
    ///
    /// It asks, as [`RedSender::new`] does, for distances that [`RedSender::accepts`] takes.
    #[tactic(auto, using(crate::proofs::SenderHistoryLemmas::synced_is))]
    pub fn sync(&mut self, red_pt: Pt, primary_pt: Pt, distances: &[u32])
        requires { IsTrue (is_accepted distances.now) }
        ensures { self.new ≡ synced self.old red_pt primary_pt distances.now }
    {
        self.red_pt = red_pt;
        self.primary_pt = primary_pt;
        self.distances = Distances::from_list(distances);
        self.history.truncate(depth_of(distances));
    }

    /// The payload type of the packets.
    pub fn red_pt(&self) -> Pt
        ensures { result ≡ self.now.red_pt }
    {
        self.red_pt
    }

    /// Appends the output for a payload.
    fn put_output(
        &self,
        payload: &[u8],
        time: u32,
        budget: usize,
        out: &mut Vec<u8>,
    ) -> Result<(), AllocError>
        ensures written { OnOk result (out.new.items ≡ out.old.items ++ output self.now payload.now time budget) }
        ensures accepted { IsTrue (is_accepted self.now.distances) }
    {
        if payload.len() < budget {
            let earlier = Earlier {
                history: &self.history,
                pt: self.primary_pt.value() % 128,
                time,
            };
            put_wrapped(out, &earlier, self.distances.as_slice(), payload, budget)
        } else {
            out.extend_from_slice(payload)
        }
    }

    /// The output for a payload.
    #[tactic(auto, using(crate::proofs::SenderOutputLemmas::output_is_red))]
    fn output(&self, payload: &[u8], time: u32, budget: usize) -> Result<Vec<u8>, AllocError>
        ensures written { IfOk result (λ v. v.items ≡ output self.now payload.now time budget) }
        ensures payload { IfOk result (λ v. length payload.now < budget → IsRed v.items (wrapped self.now payload.now time budget)) }
        ensures longest { IsLongest (room_of (length payload.now) budget) (levels_of self.now time) (kept self.now (length payload.now) time budget) }
    {
        let mut out = Vec::new(*self.history.allocator());
        self.put_output(payload, time, budget, &mut out)?;
        Ok(out)
    }

    /// Puts a payload into the history, which the oldest ones leave.
    fn record(&mut self, payload: Vec<u8>, time: u32) -> Result<(), PacketError>
        ensures ok { OnOk result (self.new ≡ recorded self.old payload.items time) }
        ensures err { IfErr result (λ e. (e ≡ OutOfMemory) × (self.new ≡ self.old)) }
    {
        self.history.push_front(SentPayload {
            bytes: payload,
            time,
        })?;
        self.history.truncate(depth_of(self.distances.as_slice()));
        Ok(())
    }

    /// The RED payload for a media payload, in at most `budget` bytes (RFC 2198, section 3); its RTP time is `rtp_time` ticks,
    /// modulo 2^32. Redundant blocks repeat earlier payloads. The distances are tried shallowest first; a payload is repeated if it
    /// fits a block (offset at most 16,383 ticks, at most 1,023 bytes) and fits the budget with its header of 4 bytes. The blocks
    /// are written deepest first. The payload is then remembered.
    ///
    /// **A payload of `budget` bytes or more is returned unchanged**, without the one byte of RED's last header, and is remembered
    /// too. Sent under the RED payload type, as [`RedSender::red_pt`] is, such bytes are an invalid RED payload, or they parse by
    /// accident as blocks that nobody sent. So packetize with an MTU of `budget - 1`.
    ///
    /// The only error is `OutOfMemory` (17): the sender is unchanged, and the payload is lost. The payload moves into the history
    /// and is copied once, into the result; each repeated payload is copied once too.
    #[tactic(auto, using(crate::proofs::SenderOutputLemmas::output_bounded))]
    pub fn wrap(
        &mut self,
        payload: Vec<u8>,
        rtp_time: u32,
        budget: usize,
    ) -> Result<Vec<u8>, PacketError>
        ensures written { IfOk result (λ v. v.items ≡ output self.old payload.items rtp_time budget) }
        ensures payload { IfOk result (λ v. length payload.items < budget → IsRed v.items (wrapped self.old payload.items rtp_time budget)) }
        ensures longest { OnOk result (IsLongest (room_of (length payload.items) budget) (levels_of self.old rtp_time) (kept self.old (length payload.items) rtp_time budget)) }
        ensures bounded { IfOk result (λ v. length payload.items < budget → length v.items ≤ budget) }
        ensures recorded { OnOk result (self.new ≡ recorded self.old payload.items rtp_time) }
        ensures err { IfErr result (λ e. (e ≡ OutOfMemory) × (self.new ≡ self.old)) }
    {
        let out = self.output(&payload, rtp_time, budget)?;
        self.record(payload, rtp_time)?;
        Ok(out)
    }

    /// Copies a payload into the history, into the memory of an earlier one, and keeps the memory of the payload that leaves.
    #[tactic(auto, using(crate::proofs::SenderHistoryLemmas::recorded_is))]
    fn remember(&mut self, payload: &[u8], time: u32) -> Result<(), PacketError>
        ensures ok { OnOk result (self.new ≡ recorded self.old payload.now time) }
        ensures err { IfErr result (λ e. (e ≡ OutOfMemory) × (self.new ≡ self.old)) }
    {
        self.spare.clear();
        self.spare.extend_from_slice(payload)?;
        let unused = Vec::new(*self.history.allocator());
        let bytes = mem::replace(&mut self.spare, unused);
        self.history.push_front(SentPayload { bytes, time })?;
        let depth = depth_of(self.distances.as_slice());
        self.spare = take_past(&mut self.history, depth);
        Ok(())
    }

    /// Appends the output, and remembers the payload.
    fn put_and_remember(
        &mut self,
        payload: &[u8],
        time: u32,
        budget: usize,
        out: &mut Vec<u8>,
    ) -> Result<(), PacketError>
        ensures written { OnOk result (out.new.items ≡ out.old.items ++ output self.old payload.now time budget) }
        ensures ok { OnOk result (self.new ≡ recorded self.old payload.now time) }
        ensures err { IfErr result (λ e. (e ≡ OutOfMemory) × (self.new ≡ self.old)) }
        ensures accepted { IsTrue (is_accepted self.old.distances) }
    {
        self.put_output(payload, time, budget, out)?;
        self.remember(payload, time)
    }

    /// The same as [`RedSender::wrap`] over reused memory: the output replaces the contents of `out`, which keeps its memory, and
    /// the payload is copied into the history, into the memory of the payload that leaves it. Allocates only if `out`, or the
    /// memory of the payload that left, is too short, and until the history is full.
    ///
    /// The only fault is 17, `OutOfMemory`, which leaves the sender as it was, and `out` empty. The payload is copied twice,
    /// and each payload that is repeated once.
    #[tactic(auto, using(crate::proofs::SenderOutputLemmas::output_bounded, crate::proofs::SenderOutputLemmas::output_is_red))]
    pub fn wrap_into(
        &mut self,
        payload: &[u8],
        rtp_time: u32,
        budget: usize,
        out: &mut Vec<u8>,
    ) -> Result<(), PacketError>
        ensures written { OnOk result (out.new.items ≡ output self.old payload.now rtp_time budget) }
        ensures payload { OnOk result (length payload.now < budget → IsRed out.new.items (wrapped self.old payload.now rtp_time budget)) }
        ensures longest { OnOk result (IsLongest (room_of (length payload.now) budget) (levels_of self.old rtp_time) (kept self.old (length payload.now) rtp_time budget)) }
        ensures bounded { OnOk result (length payload.now < budget → length out.new.items ≤ budget) }
        ensures recorded { OnOk result (self.new ≡ recorded self.old payload.now rtp_time) }
        ensures err { IfErr result (λ e. (e ≡ OutOfMemory) × (self.new ≡ self.old) × (out.new.items ≡ [])) }
    {
        out.clear();
        if let Err(fault) = self.put_and_remember(payload, rtp_time, budget, out) {
            out.clear();
            return Err(fault);
        }
        Ok(())
    }
}
