//! Packets of FEC for the packets of a frame.

ghost use Rattle.std.specs.Prelude.{◌≡◌, ◌<◌, ◌≤◌, ◌++◌, ◌∷◌, ◌/◌, ◌%◌, ◌==◌, [], IfErr, IfOk, IsTrue, OnErr, OnOk, if◌then◌else◌, length, map, slice_index_or};
ghost use Rattle.std.specs.Option.{option_map};
ghost use Rattle.codec_payload_base.specs.PayloadLists.{rooms_of};
ghost use Rattle.codec_payload_base.specs.declared.error.PacketError.TheVariants.{OutOfMemory};
ghost use Rattle.codec_payload_fec.specs.Fec.{fec_bytes, fec_fits, number_at};
ghost use Rattle.codec_payload_fec.specs.FecReading.{fec_of};
ghost use Rattle.codec_payload_fec.specs.Rebuilding.{to_list};
ghost use Rattle.codec_payload_fec.specs.Strings.{number_of, xor_all};
ghost use Rattle.codec_payload_fec.specs.Sums.{sum_of};
ghost use Rattle.codec_payload_fec.specs.Writing.{AreShort, bit_of, chosen_in, fec_count, fec_for, fecs, group_fecs, group_size, if_chosen, is_chosen, lists_of, low_bits, mask_in};

use crate::packet::FecPacket;
use crate::store::number_of;
use crate::strings::Sum;
use codec_payload_base::error::PacketError;
use codec_payload_base::payloads::{PayloadWriter, Payloads};
use std::alloc::{AllocError, Global};

/// How many numbers a mask has room for.
const PLACES: usize = 48;

/// Returns how many packets of FEC protect a group of at most 48 packets.
fn fec_count(media: usize, protection: u8) -> usize
    requires some { 0 < media }
    requires few { media ≤ 48 }
    ensures value { result ≡ fec_count media protection }
    ensures fewer { result ≤ media }
{
    if protection == 0 {
        return 0;
    }
    let share = media * usize::from(protection) + 128;
    (share / 256).max(1)
}

/// Returns whether packet of FEC `n` of `count` protects the packet at a place of a group of that size.
fn is_chosen(size: usize, count: usize, n: usize, place: usize) -> bool
    requires { 0 < count }
    ensures { result ≡ is_chosen size count n place }
{
    place < size && place % count == n
}

/// Returns whether a packet has the number that is so many after another one.
fn has_number(packet: &[u8], base: u16, after: usize) -> bool
    requires { after < 48 }
    ensures { result ≡ (number_of packet.now == number_at after base) }
{
    number_of(packet) == base.wrapping_add(after as u16)
}

/// Returns how many packets from the front are a group: their numbers are consecutive, and there are at most 48.
fn group_size(packets: &[&[u8]]) -> usize
    requires { 0 < length packets.now }
    ensures value { result ≡ group_size (lists_of packets.now) }
    ensures some { 0 < result }
    ensures few { result ≤ 48 }
    ensures within { result ≤ length packets.now }
{
    let base = number_of(packets[0]);
    for size in 1..PLACES {
        if size >= packets.len() {
            return size;
        }
        if !has_number(packets[size], base, size) {
            return size;
        }
    }
    PLACES
}

/// Returns a bit.
fn bit_of(is_set: bool) -> u64
    ensures value { result ≡ bit_of is_set }
    ensures small { result ≤ 1 }
{
    if is_set { 1 } else { 0 }
}

/// Returns the mask of 48 bits of a packet of FEC.
fn mask_of(size: usize, count: usize, n: usize) -> u64
    requires { 0 < count }
    ensures { result ≡ mask_in 48 size count n }
{
    let mut mask = 0u64;
    for place in 0..PLACES {
        let bit = bit_of(is_chosen(size, count, n, place));
        mask = mask * 2 + bit;
    }
    mask
}

/// Returns the packet at a place, if packet of FEC `n` of `count` protects it.
fn chosen_at<'a>(group: &[&'a [u8]], count: usize, n: usize, place: usize) -> Option<&'a [u8]>
    requires { 0 < count }
    ensures { to_list (option_map (λ p. p.now) result) ≡ if_chosen (is_chosen (length (lists_of group.now)) count n place) (slice_index_or (lists_of group.now) place []) }
{
    if place < group.len() && place % count == n {
        Some(group[place])
    } else {
        None
    }
}

/// Returns the exclusive or of the bit strings of the packets that a packet of FEC protects.
fn sum_of(alloc: Global, group: &[&[u8]], count: usize, n: usize) -> Result<Sum, AllocError>
    requires { 0 < count }
    ensures { IfOk result (λ s. sum_of s ≡ xor_all (chosen_in 48 count n (lists_of group.now))) }
{
    let mut sum = Sum::zeros(alloc);
    for place in 0..PLACES {
        if let Some(packet) = chosen_at(group, count, n, place) {
            sum.add_whole(packet)?;
        }
    }
    Ok(sum)
}

/// Returns the further bits of a mask, if one is set.
fn low_bits(low: u32) -> Option<u32>
    ensures { result ≡ low_bits low }
{
    if low == 0 { None } else { Some(low) }
}

/// Returns the packet of FEC with this mask and this sum.
fn fec_with<'a>(base: u16, mask: u64, sum: &'a Sum) -> FecPacket<'a>
    requires { mask < 281474976710656 }
    ensures { fec_of result ≡ record { base = base; mask = mask / 4294967296; continued = low_bits (mask % 4294967296); recovery = sum_of sum.now; further = [] } }
{
    FecPacket {
        base,
        mask: (mask / 4_294_967_296) as u16,
        mask_continued: low_bits((mask % 4_294_967_296) as u32),
        first: sum.first,
        second: sum.second,
        time: sum.time,
        length: sum.size,
        payload: sum.bytes.as_slice(),
        further: &[],
    }
}

/// Appends a packet of FEC.
fn put_fec(alloc: Global, fec: &FecPacket<'_>, out: &mut Payloads) -> Result<(), PacketError>
    requires { IsTrue (fec_fits (fec_of fec.now)) }
    ensures ok { OnOk result (out.new.payloads ≡ out.old.payloads ++ fec_bytes (fec_of fec.now) ∷ []) }
    ensures fault { IfErr result (λ fault. fault ≡ OutOfMemory) }
    ensures rooms { rooms_of out.new ≡ rooms_of out.old }
{
    let mut bytes = Vec::new(alloc);
    fec.write(&mut bytes)?;
    out.begin(bytes.len())?;
    out.put(&mut (), bytes.as_slice())?;
    out.end(())
}

/// Appends packet of FEC `n` of `count` of a group.
fn put_one(
    alloc: Global,
    group: &[&[u8]],
    count: usize,
    n: usize,
    out: &mut Payloads,
) -> Result<(), PacketError>
    requires here { n < count }
    requires fewer { count ≤ length group.now }
    requires few { length group.now ≤ 48 }
    requires short { AreShort (lists_of group.now) }
    ensures ok { OnOk result (out.new.payloads ≡ out.old.payloads ++ fec_bytes (fec_for count n (lists_of group.now)) ∷ []) }
    ensures fault { IfErr result (λ fault. fault ≡ OutOfMemory) }
    ensures rooms { rooms_of out.new ≡ rooms_of out.old }
{
    let base = number_of(group[0]);
    let mask = mask_of(group.len(), count, n);
    let sum = sum_of(alloc, group, count, n)?;
    let fec = fec_with(base, mask, &sum);
    put_fec(alloc, &fec, out)
}

/// Appends the packets of FEC of a group.
fn put_group(
    alloc: Global,
    protection: u8,
    group: &[&[u8]],
    out: &mut Payloads,
) -> Result<(), PacketError>
    requires some { 0 < length group.now }
    requires few { length group.now ≤ 48 }
    requires short { AreShort (lists_of group.now) }
    ensures ok { OnOk result (out.new.payloads ≡ out.old.payloads ++ map fec_bytes (group_fecs protection (lists_of group.now))) }
    ensures fault { IfErr result (λ fault. fault ≡ OutOfMemory) }
    ensures rooms { rooms_of out.new ≡ rooms_of out.old }
{
    let count = fec_count(group.len(), protection);
    for n in 0..count {
        put_one(alloc, group, count, n, out)?;
    }
    Ok(())
}

/// Appends the packets of FEC of all groups.
fn put_all(
    alloc: Global,
    protection: u8,
    packets: &[&[u8]],
    out: &mut Payloads,
) -> Result<(), PacketError>
    requires { AreShort (lists_of packets.now) }
    ensures ok { OnOk result (out.new.payloads ≡ out.old.payloads ++ map fec_bytes (fecs protection (lists_of packets.now))) }
    ensures fault { IfErr result (λ fault. fault ≡ OutOfMemory) }
    ensures rooms { rooms_of out.new ≡ rooms_of out.old }
{
    let mut start = 0;
    while start < packets.len() {
        let rest = &packets[start..];
        let size = group_size(rest);
        put_group(alloc, protection, &rest[..size], out)?;
        start += size;
    }
    Ok(())
}

/// Makes packets of FEC for the packets of a frame.
#[derive(Clone, Copy, Debug, PartialEq, Eq)]
pub struct FecWriter {
    /// The share of protection in 256ths: about so many packets of FEC for 256 packets of media. 0: no FEC.
    pub protection: u8,
    /// The same for keyframes.
    pub keyframe_protection: u8,
}

impl FecWriter {
    /// Writes the payloads of the packets of FEC for the packets of a frame, in place of what `out` has. Send them behind the frame, in
    /// packets of RED (RFC 2198) or with a payload type of their own.
    ///
    /// `packets`: whole RTP packets of one SSRC before RED, of at most 65,547 bytes, with rising numbers, and with zeros in the elements of
    /// header extensions that are filled in later. Packets with consecutive numbers are protected in groups of at most 48: k = (packets *
    /// protection + 128) / 256 packets of FEC, at least one, and FEC n of k protects the places n, n + k, n + 2k, .. So losses in a row hit
    /// packets of different FEC. A gap between numbers begins a new group.
    ///
    /// # Errors
    ///
    /// Out of memory: `out` has no payloads.
    pub fn write(
        &self,
        alloc: Global,
        is_keyframe: bool,
        packets: &[&[u8]],
        out: &mut Payloads,
    ) -> Result<(), PacketError>
        requires { AreShort (lists_of packets.now) }
        ensures ok { OnOk result (out.new.payloads ≡ map fec_bytes (fecs (if is_keyframe then self.now.keyframe_protection else self.now.protection) (lists_of packets.now))) }
        ensures err { OnErr result (out.new.payloads ≡ []) }
        ensures fault { IfErr result (λ fault. fault ≡ OutOfMemory) }
        ensures rooms { rooms_of out.new ≡ rooms_of out.old }
    {
        let protection = if is_keyframe {
            self.keyframe_protection
        } else {
            self.protection
        };
        out.clear();
        let answer = put_all(alloc, protection, packets, out);
        out.settle(answer)
    }
}
