//! AMR-WB: payloads as frames (docs/use/FORMATS.md, "AMR-WB").

ghost use Rattle.std.specs.Prelude.{◌≡◌, ◌↔◌, ℕ, ◌+◌, ◌*◌, ◌%◌, ◌<◌, ◌≤◌, ◌++◌, length, take, drop, IfOk, IfErr, OnOk, MatchResult, IsTrue, if◌then◌else◌, List, Some, true, Ok, Err};
ghost use Rattle.codec_payload_base.specs.Bits.{bits_of, left, moved};
ghost use Rattle.codec_payload_base.specs.declared.error.PacketError.TheVariants.{OutOfMemory};
ghost use Rattle.codec_payload_audio.specs.AmrWb.{gap, layout, speech_size, padded};
ghost use Rattle.codec_payload_audio.specs.AmrWbReceived.{AmrWbStep, Entry, Extends, FailsAs, Gains, HasEntries, IsCopyFault, entries_at, frame_at, frames_of, received};
ghost use Rattle.codec_payload_audio.specs.AmrWbEntries.{ReadsEntry, entry_of};

use crate::amr_wb::shift::append_shifted;
use crate::amr_wb::speech_bits;
use crate::amr_wb::toc::TocEntry;
use codec_payload_base::bits::{BitRead, BitReader};
use codec_payload_base::error::PacketError;
use codec_payload_base::interface::{CodecExtra, Depacketizer};

/// Gives the frames of each payload; each payload is a unit.
#[derive(Debug, Default, Drop)]
pub struct AmrWbDepacketizer {
    /// Whether payloads have the octet-aligned layout (RFC 4867, section 4.4), and else the bandwidth-efficient one
    /// (section 4.3).
    pub octet_align: bool,
}

impl Depacketizer for AmrWbDepacketizer {
    ghost state = { λ d. layout d.octet_align };

    ghost depacketize_step = { λ d payload out extra answer after out' extra'. AmrWbStep d.octet_align payload out extra answer out' extra' × (after ≡ layout d.octet_align) };

    ghost size_hint = { λ _ size. Some size };

    ghost is_head = { λ _ _. true };

    ghost is_tail = { λ _ _ _. true };

    fn out_size_hint(&self, packets_size: usize) -> Option<usize> {
        Some(packets_size)
    }

    /// Appends the frames of a payload in storage form, one after another, with no bit set that means nothing. An empty
    /// payload appends nothing. The mode request and the bits that fill up bytes may have any value.
    ///
    /// The first error in reading order. `ErrShortPacket`: an entry of the table of contents or its speech is cut off.
    /// `ErrAmrWbCorruptedPacket`: a reserved frame type, or eight or more bits after the frames. `OutOfMemory`: the payload has
    /// frames and the allocation fails. The whole payload is checked before anything is allocated. On an error `out` is unchanged.
    fn depacketize(
        &mut self,
        packet: &[u8],
        out: &mut Vec<u8>,
        codec_extra: &mut CodecExtra,
    ) -> Result<(), PacketError>
        ensures step { AmrWbStep self.old.octet_align packet.now out.old.items codec_extra.old result out.new.items codec_extra.new × (layout self.new.octet_align ≡ layout self.old.octet_align) }
        ensures same { self.new ≡ self.old }
    {
        if packet.is_empty() {
            return Ok(());
        }
        let contents = check_payload(self.octet_align, packet)?;
        let size_before = out.len();
        if let Err(fault) = append_payload(self.octet_align, contents, packet, out) {
            out.truncate(size_before);
            return Err(fault);
        }
        Ok(())
    }

    fn is_partition_head(&self, _packet: &[u8]) -> bool {
        true
    }

    fn is_partition_tail(&self, _marker: bool, _packet: &[u8]) -> bool {
        true
    }
}

/// The layout of a payload that was checked.
#[derive(Drop)]
struct Contents<'a> {
    /// At the table of contents.
    toc: BitReader<'a>,
    /// After the table of contents, at the first frame.
    speech: BitReader<'a>,
    /// The size of the frames in storage form, in bytes; `usize::MAX` if it is larger.
    storage_size: usize,
}

/// Checks a whole payload. Does not allocate.
fn check_payload<'a>(octet_align: bool, packet: &'a [u8]) -> Result<Contents<'a>, PacketError>
    requires { 0 < length packet.now }
    ensures received { MatchResult result (λ _. (frames : List ℕ) × (received octet_align (bits_of packet.now) ≡ Ok frames)) (λ e. received octet_align (bits_of packet.now) ≡ Err e) }
    ensures toc { IfOk result (λ c. c.toc ≡ record { bytes = packet.now; place = (if octet_align then 8 else 4) }) }
    ensures speech { IfOk result (λ c. (es : List Entry) × (entries_at octet_align (left c.toc) ≡ Ok (es, left c.speech))) }
    ensures whole { IfOk result (λ c. IsTrue octet_align → (length (left c.toc) % 8 ≡ 0) × (length (left c.speech) % 8 ≡ 0)) }
{
    let toc = behind_request(octet_align, packet);
    let mut speech = toc.fork();
    skip_entries(&mut speech, octet_align)?;
    let mut entries = toc.fork();
    let mut frames = speech.fork();
    let storage_size = skip_frames(&mut entries, &mut frames, octet_align)?;
    if !less_than_a_byte_is_left(&frames) {
        return Err(PacketError::ErrAmrWbCorruptedPacket);
    }
    Ok(Contents {
        toc,
        speech,
        storage_size,
    })
}

/// Whether fewer than eight bits are left.
fn less_than_a_byte_is_left<'a>(reader: &BitReader<'a>) -> bool
    ensures { IsTrue result ↔ (length (left reader.now) < 8) }
{
    reader.remaining_bytes() == 0
}

/// Appends the frames of a payload that was checked; after a refusal some of them may be there.
fn append_payload<'a>(
    octet_align: bool,
    contents: Contents<'a>,
    packet: &'a [u8],
    out: &mut Vec<u8>,
) -> Result<(), PacketError>
    requires some { 0 < length packet.now }
    requires received { (frames : List ℕ) × (received octet_align (bits_of packet.now) ≡ Ok frames) }
    requires toc { contents.toc ≡ record { bytes = packet.now; place = (if octet_align then 8 else 4) } }
    requires speech { (es : List Entry) × (entries_at octet_align (left contents.toc) ≡ Ok (es, left contents.speech)) }
    requires whole { IsTrue octet_align → (length (left contents.toc) % 8 ≡ 0) × (length (left contents.speech) % 8 ≡ 0) }
    ensures ok { OnOk result ((frames : List ℕ) × (received octet_align (bits_of packet.now) ≡ Ok frames) × (bits_of out.new.items ≡ bits_of out.old.items ++ frames)) }
    ensures err { IfErr result (λ e. (e ≡ OutOfMemory) × (0 < length packet.now)) }
    ensures kept { Extends out.old.items out.new.items }
{
    out.reserve(contents.storage_size)?;
    let mut toc = contents.toc;
    let mut speech = contents.speech;
    append_frames(&mut toc, &mut speech, octet_align, out)
}

/// A reader at the table of contents, after the mode request.
fn behind_request<'a>(octet_align: bool, packet: &'a [u8]) -> BitReader<'a>
    requires { 0 < length packet.now }
    ensures place { result ≡ record { bytes = packet.now; place = (if octet_align then 8 else 4) } }
    ensures whole { IsTrue octet_align → length (left result) % 8 ≡ 0 }
{
    BitReader::at(packet, if octet_align { 8 } else { 4 })
}

/// Reads an entry of the table of contents.
fn read_entry<'a>(reader: &mut BitReader<'a>, octet_align: bool) -> Option<TocEntry>
    requires { IsTrue octet_align → length (left reader.old) % 8 ≡ 0 }
    ensures read { ReadsEntry octet_align (left reader.old) (left reader.new) result }
    ensures whole { IsTrue octet_align → length (left reader.new) % 8 ≡ 0 }
{
    if octet_align {
        let bits = reader.get_bits(8)?;
        Some(TocEntry::from_bits(bits / 4))
    } else {
        let bits = reader.get_bits(6)?;
        Some(TocEntry::from_bits(bits))
    }
}

/// Goes over the table of contents.
fn skip_entries<'a>(reader: &mut BitReader<'a>, octet_align: bool) -> Result<(), PacketError>
    requires { IsTrue octet_align → length (left reader.old) % 8 ≡ 0 }
    ensures whole { OnOk result (IsTrue octet_align → length (left reader.new) % 8 ≡ 0) }
    ensures read { MatchResult result (λ _. (es : List Entry) × (entries_at octet_align (left reader.old) ≡ Ok (es, left reader.new))) (λ e. entries_at octet_align (left reader.old) ≡ Err e) }
{
    loop {
        let entry = read_entry(reader, octet_align).ok_or(PacketError::ErrShortPacket)?;
        if !entry.follows {
            return Ok(());
        }
    }
}

/// Goes over the frames of a table of contents, and counts their bytes in storage form.
fn skip_frames<'a>(
    toc: &mut BitReader<'a>,
    speech: &mut BitReader<'a>,
    octet_align: bool,
) -> Result<usize, PacketError>
    requires table { HasEntries octet_align (left toc.old) }
    requires whole { IsTrue octet_align → (length (left toc.old) % 8 ≡ 0) × (length (left speech.old) % 8 ≡ 0) }
    ensures { MatchResult result (λ _. (frames : List ℕ) × (frames_of octet_align (entries_at octet_align (left toc.old)) (left speech.old) ≡ Ok (frames, left speech.new))) (λ e. frames_of octet_align (entries_at octet_align (left toc.old)) (left speech.old) ≡ Err e) }
{
    let mut storage_size = 0usize;
    loop {
        let entry = read_entry(toc, octet_align).ok_or(PacketError::ErrShortPacket)?;
        let count = skip_frame(speech, entry, octet_align)?;
        storage_size = storage_size.saturating_add(1 + count.div_ceil(8));
        if !entry.follows {
            return Ok(storage_size);
        }
    }
}

/// Skips the speech of an entry, and returns its number of bits.
fn skip_frame<'a>(
    reader: &mut BitReader<'a>,
    entry: TocEntry,
    octet_align: bool,
) -> Result<usize, PacketError>
    requires { IsTrue octet_align → length (left reader.old) % 8 ≡ 0 }
    ensures whole { OnOk result (IsTrue octet_align → length (left reader.new) % 8 ≡ 0) }
    ensures read { MatchResult result (λ _. (frame : List ℕ) × (frame_at octet_align (entry_of entry) (left reader.old) (speech_size entry.frame_type) ≡ Ok (frame, left reader.new))) (λ e. frame_at octet_align (entry_of entry) (left reader.old) (speech_size entry.frame_type) ≡ Err e) }
{
    let Some(count) = speech_bits(entry.frame_type) else {
        return Err(PacketError::ErrAmrWbCorruptedPacket);
    };
    if !reader.skip_bits(count) {
        return Err(PacketError::ErrShortPacket);
    }
    skip_padding(reader, count, octet_align);
    Ok(count)
}

/// Appends the frames of a table of contents.
fn append_frames<'a>(
    toc: &mut BitReader<'a>,
    speech: &mut BitReader<'a>,
    octet_align: bool,
    out: &mut Vec<u8>,
) -> Result<(), PacketError>
    requires table { HasEntries octet_align (left toc.old) }
    requires whole { IsTrue octet_align → (length (left toc.old) % 8 ≡ 0) × (length (left speech.old) % 8 ≡ 0) }
    ensures ok { OnOk result (Gains out.old.items out.new.items (left speech.new) (frames_of octet_align (entries_at octet_align (left toc.old)) (left speech.old))) }
    ensures err { IfErr result (λ e. FailsAs e (frames_of octet_align (entries_at octet_align (left toc.old)) (left speech.old))) }
    ensures kept { Extends out.old.items out.new.items }
{
    loop {
        let entry = read_entry(toc, octet_align).ok_or(PacketError::ErrShortPacket)?;
        read_frame(speech, entry, octet_align, out)?;
        if !entry.follows {
            return Ok(());
        }
    }
}

/// Reads the speech of an entry, and appends the frame.
fn read_frame<'a>(
    reader: &mut BitReader<'a>,
    entry: TocEntry,
    octet_align: bool,
    out: &mut Vec<u8>,
) -> Result<(), PacketError>
    requires { IsTrue octet_align → length (left reader.old) % 8 ≡ 0 }
    ensures whole { OnOk result (IsTrue octet_align → length (left reader.new) % 8 ≡ 0) }
    ensures ok { OnOk result (Gains out.old.items out.new.items (left reader.new) (frame_at octet_align (entry_of entry) (left reader.old) (speech_size entry.frame_type))) }
    ensures err { IfErr result (λ e. FailsAs e (frame_at octet_align (entry_of entry) (left reader.old) (speech_size entry.frame_type))) }
    ensures kept { Extends out.old.items out.new.items }
{
    let Some(count) = speech_bits(entry.frame_type) else {
        return Err(PacketError::ErrAmrWbCorruptedPacket);
    };
    out.push(entry.storage_header())?;
    copy_bits(reader, count, out)?;
    skip_padding(reader, count, octet_align);
    Ok(())
}

/// Skips the rest of the byte that holds the last of `count` bits, if frames begin at a byte.
fn skip_padding<'a>(reader: &mut BitReader<'a>, count: usize, octet_align: bool)
    requires whole { IsTrue octet_align → (length (left reader.old) + count) % 8 ≡ 0 }
    ensures { left reader.new ≡ drop (if octet_align then gap count else 0) (left reader.old) }
{
    if octet_align {
        let _ = reader.get_bits((8 - count % 8) % 8);
    }
}

/// Appends the next `count` bits, with zeros up to a byte.
fn copy_bits<'a>(
    reader: &mut BitReader<'a>,
    count: usize,
    out: &mut Vec<u8>,
) -> Result<(), PacketError>
    ensures copied { OnOk result (bits_of out.new.items ≡ bits_of out.old.items ++ padded (take count (left reader.old))) }
    ensures place { OnOk result ((count ≤ length (left reader.old)) × (reader.new ≡ moved reader.old count)) }
    ensures short { IfErr result (λ e. IsCopyFault (left reader.old) count e) }
    ensures kept { Extends out.old.items out.new.items }
{
    copy_bytes(reader, count / 8, out)?;
    copy_rest(reader, count % 8, out)?;
    Ok(())
}

/// Appends the next bits, eight at a time.
fn copy_bytes<'a>(
    reader: &mut BitReader<'a>,
    count: usize,
    out: &mut Vec<u8>,
) -> Result<(), PacketError>
    ensures copied { OnOk result (bits_of out.new.items ≡ bits_of out.old.items ++ take (8 * count) (left reader.old)) }
    ensures place { OnOk result ((8 * count ≤ length (left reader.old)) × (reader.new ≡ moved reader.old (8 * count))) }
    ensures short { IfErr result (λ e. IsCopyFault (left reader.old) (8 * count) e) }
    ensures kept { Extends out.old.items out.new.items }
{
    let bytes = reader.ahead();
    let shift = reader.bits_behind_byte();
    let whole = reader.get_bytes(count).ok_or(PacketError::ErrShortPacket)?;
    if shift == 0 {
        out.extend_from_slice(whole)?;
    } else {
        append_shifted(out, bytes, shift, count)?;
    }
    Ok(())
}

/// Appends the next `count` bits, fewer than eight, with zeros up to a byte.
fn copy_rest<'a>(
    reader: &mut BitReader<'a>,
    count: usize,
    out: &mut Vec<u8>,
) -> Result<(), PacketError>
    requires { count < 8 }
    ensures copied { OnOk result (bits_of out.new.items ≡ bits_of out.old.items ++ padded (take count (left reader.old))) }
    ensures place { OnOk result ((count ≤ length (left reader.old)) × (reader.new ≡ moved reader.old count)) }
    ensures short { IfErr result (λ e. IsCopyFault (left reader.old) count e) }
    ensures kept { Extends out.old.items out.new.items }
{
    if count == 0 {
        return Ok(());
    }
    let bits = reader.get_bits(count).ok_or(PacketError::ErrShortPacket)?;
    out.push(bits << (8 - count))?;
    Ok(())
}
