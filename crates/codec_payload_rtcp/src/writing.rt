//! Packets that are written: each is appended to what `out` has, without padding; `write_padded` then adds padding to the last. A
//! datagram is one packet or more, the first a report unless it may have reduced size.

ghost use Rattle.std.specs.Prelude.{◌≡◌, ℕ, List, ◌∷◌, [], ◌++◌, ◌+◌, ◌/◌, ◌%◌, ◌<◌, ◌≤◌, ◌&&◌, length, false, OnOk, IsTrue, Some, None, IfSome};
ghost use Rattle.std.specs.Int.{w32, to_be_bytes};
ghost use Rattle.codec_payload_rtcp.specs.RtcpPackets.{FitsSender, header_bytes, sender_report, receiver_report, source_description, goodbye, nack, picture_loss, full_intra};
ghost use Rattle.codec_payload_rtcp.specs.RtcpItems.{are_items, reason_short, report_fits};
ghost use Rattle.codec_payload_rtcp.specs.RtcpValues.{description_of, leaving_of, sender_of, receiver_of, nack_of, picture_loss_of, full_intra_of};
ghost use Rattle.codec_payload_base.specs.Flags.{AreBytes};
ghost use Rattle.codec_payload_rtcp.specs.SdesWriting.{description_bytes, description_fits};
ghost use Rattle.codec_payload_rtcp.specs.RtcpWriting.{Appends, AppendsPadded, OneMore, AreCompound, LastPadded, padding_fits, feedback_head, sender_head, receiver_head, cname_head, cname_chunk, leaving_bytes, padded_bytes};

use crate::packet::{
    FullIntraRequest, Goodbye, Nack, PictureLoss, ReceiverReport, SenderReport, SourceDescription,
};
use crate::sdes::check_chunks;
use std::alloc::AllocError;

/// The four bytes of a header without padding.
fn header(count: u8, packet_type: u8, words: u16) -> [u8; 4]
    requires { count < 32 }
    ensures { result ≡ header_bytes false count packet_type words }
{
    let [l1, l0] = words.to_be_bytes();
    [128 + count, packet_type, l1, l0]
}

/// Writes three parts one after another.
fn write_parts(
    first: &[u8],
    second: &[u8],
    third: &[u8],
    out: &mut Vec<u8>,
) -> Result<(), AllocError>
    ensures { OnOk result (out.new.items ≡ ((out.old.items ++ first.now) ++ second.now) ++ third.now) }
{
    out.extend_from_slice(first)?;
    out.extend_from_slice(second)?;
    out.extend_from_slice(third)
}

/// The header of a feedback message, and its two sources.
fn feedback_head(format: u8, packet_type: u8, words: u16, sender: u32, media: u32) -> [u8; 12]
    requires { format < 32 }
    ensures { result ≡ feedback_head format packet_type words sender media }
{
    let [h3, h2, h1, h0] = header(format, packet_type, words);
    let [s3, s2, s1, s0] = sender.to_be_bytes();
    let [m3, m2, m1, m0] = media.to_be_bytes();
    [h3, h2, h1, h0, s3, s2, s1, s0, m3, m2, m1, m0]
}

/// Writes a feedback message.
fn write_feedback(
    format: u8,
    packet_type: u8,
    sender: u32,
    media: u32,
    fci: &[u8],
    out: &mut Vec<u8>,
) -> Result<(), AllocError>
    requires format { format < 32 }
    requires short { length fci.now ≤ 262132 }
    ensures { OnOk result (out.new.items ≡ (out.old.items ++ feedback_head format packet_type (2 + length fci.now / 4) sender media) ++ fci.now) }
{
    let words = (2 + fci.len() / 4) as u16;
    out.extend_from_slice(&feedback_head(format, packet_type, words, sender, media))?;
    out.extend_from_slice(fci)
}

/// Whether these are whole items of that size, from the least to the most number of bytes.
fn are_items(size: usize, least: usize, most: usize, bytes: &[u8]) -> bool
    requires { 0 < size }
    ensures { result ≡ are_items size least most (length bytes.now) }
{
    bytes.len() % size == 0 && least <= bytes.len() && bytes.len() <= most
}

/// Whether report blocks and an extension fit into a report.
fn report_fits(blocks: &[u8], extension: &[u8]) -> bool
    ensures { result ≡ report_fits (length blocks.now) (length extension.now) }
{
    are_items(24, 0, 744, blocks) && are_items(4, 0, 261_372, extension)
}

impl PictureLoss {
    /// Appends the packet.
    pub fn write(&self, out: &mut Vec<u8>) -> Result<(), AllocError>
        ensures { OnOk result (Appends out.old.items out.new.items (picture_loss (picture_loss_of self.now))) }
    {
        write_feedback(1, 206, self.sender_ssrc, self.media_ssrc, &[], out)
    }
}

impl<'a> Nack<'a> {
    /// Whether the packet can be written: it has 1 to 65,533 pairs.
    pub fn fits(&self) -> bool
        ensures { result ≡ are_items 4 1 262132 (length self.now.pairs.now) }
    {
        are_items(4, 1, 262_132, self.pairs)
    }

    /// Appends the packet. Its pairs are one or more, at most 65,533 (see [`crate::nack::pack_numbers`]).
    pub fn write(&self, out: &mut Vec<u8>) -> Result<(), AllocError>
        requires some { 1 ≤ length self.now.pairs.now }
        requires whole { length self.now.pairs.now % 4 ≡ 0 }
        requires short { length self.now.pairs.now ≤ 262132 }
        ensures { OnOk result (Appends out.old.items out.new.items (nack (nack_of self.now))) }
    {
        write_feedback(1, 205, self.sender_ssrc, self.media_ssrc, self.pairs, out)
    }
}

impl<'a> FullIntraRequest<'a> {
    /// Whether the packet can be written: it has 1 to 32,766 entries.
    pub fn fits(&self) -> bool
        ensures { result ≡ are_items 8 1 262132 (length self.now.entries.now) }
    {
        are_items(8, 1, 262_132, self.entries)
    }

    /// Appends the packet. Its entries are one or more, at most 32,766.
    pub fn write(&self, out: &mut Vec<u8>) -> Result<(), AllocError>
        requires some { 1 ≤ length self.now.entries.now }
        requires whole { length self.now.entries.now % 8 ≡ 0 }
        requires short { length self.now.entries.now ≤ 262132 }
        ensures { OnOk result (Appends out.old.items out.new.items (full_intra (full_intra_of self.now))) }
    {
        write_feedback(4, 206, self.sender_ssrc, self.media_ssrc, self.entries, out)
    }
}

impl<'a> SenderReport<'a> {
    /// What the types of the fields say.
    fn known(self)
        requires blocks { length self.blocks.now % 24 ≡ 0 }
        requires few { length self.blocks.now ≤ 744 }
        ensures { FitsSender (sender_of self.entry) }
    {}

    /// Whether the packet can be written: it has at most 31 report blocks, and at most 65,343 words of extension.
    pub fn fits(&self) -> bool
        ensures { result ≡ report_fits (length self.now.blocks.now) (length self.now.extension.now) }
    {
        report_fits(self.blocks, self.extension)
    }

    /// The header, and the six words before the report blocks.
    fn head(&self, count: u8, words: u16) -> [u8; 28]
        requires { count < 32 }
        ensures { result ≡ sender_head count words (sender_of self.now) }
    {
        let [h3, h2, h1, h0] = header(count, 200, words);
        let [a3, a2, a1, a0] = self.ssrc.to_be_bytes();
        let [b3, b2, b1, b0] = self.ntp_seconds.to_be_bytes();
        let [c3, c2, c1, c0] = self.ntp_fraction.to_be_bytes();
        let [d3, d2, d1, d0] = self.rtp_time.to_be_bytes();
        let [e3, e2, e1, e0] = self.packet_count.to_be_bytes();
        let [f3, f2, f1, f0] = self.octet_count.to_be_bytes();
        [
            h3, h2, h1, h0, a3, a2, a1, a0, b3, b2, b1, b0, c3, c2, c1, c0, d3, d2, d1, d0, e3, e2,
            e1, e0, f3, f2, f1, f0,
        ]
    }

    /// Appends the packet. It has at most 31 report blocks (see [`crate::items::ReportBlock::write`]), and an extension of
    /// whole words.
    pub fn write(&self, out: &mut Vec<u8>) -> Result<(), AllocError>
        requires blocks { length self.now.blocks.now % 24 ≡ 0 }
        requires few { length self.now.blocks.now ≤ 744 }
        requires whole { length self.now.extension.now % 4 ≡ 0 }
        requires short { length self.now.extension.now ≤ 261372 }
        ensures { OnOk result (Appends out.old.items out.new.items (sender_report (sender_of self.now))) }
    {
        self.known();
        let count = (self.blocks.len() / 24) as u8;
        let words = (6 + self.blocks.len() / 4 + self.extension.len() / 4) as u16;
        write_parts(&self.head(count, words), self.blocks, self.extension, out)
    }
}

impl<'a> ReceiverReport<'a> {
    /// Whether the packet can be written: it has at most 31 report blocks, and at most 65,343 words of extension.
    pub fn fits(&self) -> bool
        ensures { result ≡ report_fits (length self.now.blocks.now) (length self.now.extension.now) }
    {
        report_fits(self.blocks, self.extension)
    }

    /// The header, and the SSRC.
    fn head(&self, count: u8, words: u16) -> [u8; 8]
        requires { count < 32 }
        ensures { result ≡ receiver_head count words (receiver_of self.now) }
    {
        let [h3, h2, h1, h0] = header(count, 201, words);
        let [a3, a2, a1, a0] = self.ssrc.to_be_bytes();
        [h3, h2, h1, h0, a3, a2, a1, a0]
    }

    /// Appends the packet. It has at most 31 report blocks (see [`crate::items::ReportBlock::write`]), and an extension of
    /// whole words.
    pub fn write(&self, out: &mut Vec<u8>) -> Result<(), AllocError>
        requires blocks { length self.now.blocks.now % 24 ≡ 0 }
        requires few { length self.now.blocks.now ≤ 744 }
        requires whole { length self.now.extension.now % 4 ≡ 0 }
        requires short { length self.now.extension.now ≤ 261372 }
        ensures { OnOk result (Appends out.old.items out.new.items (receiver_report (receiver_of self.now))) }
    {
        let count = (self.blocks.len() / 24) as u8;
        let words = (1 + self.blocks.len() / 4 + self.extension.len() / 4) as u16;
        write_parts(&self.head(count, words), self.blocks, self.extension, out)
    }
}

/// The header of a source description with one chunk, its SSRC, and the type and the length of a CNAME.
fn cname_head(words: u16, ssrc: u32, len: u8) -> [u8; 10]
    ensures { result ≡ cname_head words ssrc len }
{
    let [h3, h2, h1, h0] = header(1, 202, words);
    let [a3, a2, a1, a0] = ssrc.to_be_bytes();
    [h3, h2, h1, h0, a3, a2, a1, a0, 1, len]
}

/// Appends a source description of one source with its canonical name, at most 255 bytes.
pub fn write_cname(ssrc: u32, cname: &[u8], out: &mut Vec<u8>) -> Result<(), AllocError>
    requires { length cname.now ≤ 255 }
    ensures packet { OnOk result (Appends out.old.items out.new.items (source_description (cname_chunk ssrc cname.now ∷ []))) }
    ensures exact { OnOk result (out.new.items ≡ out.old.items ++ description_bytes (cname_chunk ssrc cname.now)) }
{
    let zeros = 4 - (cname.len() + 2) % 4;
    let words = (6 + cname.len() + zeros) / 4;
    let head = cname_head(words as u16, ssrc, cname.len() as u8);
    write_parts(&head, cname, &[0u8; 4][..zeros], out)
}

/// What the type of bytes says.
fn known_bytes(bytes: &[u8])
    ensures { AreBytes bytes.now }
{}

impl<'a> SourceDescription<'a> {
    /// Whether the packet can be written: it has at most 31 chunks, they are read without a fault, and they are at most 65,535
    /// whole words.
    pub fn fits(&self) -> bool
        ensures { result ≡ description_fits self.now.count self.now.chunks.now }
    {
        self.count <= 31
            && are_items(4, 0, 262_140, self.chunks)
            && check_chunks(self.count, self.chunks).is_ok()
    }

    /// Appends the packet. [`SourceDescription::fits`] says whether it can be written; chunks of
    /// [`crate::sdes::write_chunk`] are read without a fault.
    pub fn write(&self, out: &mut Vec<u8>) -> Result<(), AllocError>
        requires { IsTrue (description_fits self.now.count self.now.chunks.now) }
        ensures packet { OnOk result (Appends out.old.items out.new.items (source_description (description_of self.now))) }
        ensures exact { OnOk result (out.new.items ≡ out.old.items ++ (header_bytes false self.now.count 202 (length self.now.chunks.now / 4) ++ self.now.chunks.now)) }
    {
        known_bytes(self.chunks);
        let words = (self.chunks.len() / 4) as u16;
        write_parts(&header(self.count, 202, words), self.chunks, &[], out)
    }
}

/// Appends a BYE of these sources, without a reason.
fn write_leaving(ssrcs: &[u8], out: &mut Vec<u8>) -> Result<(), AllocError>
    requires whole { length ssrcs.now % 4 ≡ 0 }
    requires few { length ssrcs.now ≤ 124 }
    ensures packet { OnOk result (Appends out.old.items out.new.items (goodbye (record { ssrcs = ssrcs.now; reason = None }))) }
    ensures exact { OnOk result (out.new.items ≡ out.old.items ++ leaving_bytes (record { ssrcs = ssrcs.now; reason = None })) }
{
    let words = (ssrcs.len() / 4) as u16;
    write_parts(&header(words as u8, 203, words), ssrcs, &[], out)
}

/// Appends a BYE of these sources, with a reason.
fn write_leaving_for(ssrcs: &[u8], reason: &[u8], out: &mut Vec<u8>) -> Result<(), AllocError>
    requires whole { length ssrcs.now % 4 ≡ 0 }
    requires few { length ssrcs.now ≤ 124 }
    requires short { length reason.now ≤ 255 }
    ensures packet { OnOk result (Appends out.old.items out.new.items (goodbye (record { ssrcs = ssrcs.now; reason = Some reason.now }))) }
    ensures exact { OnOk result (out.new.items ≡ out.old.items ++ leaving_bytes (record { ssrcs = ssrcs.now; reason = Some reason.now })) }
{
    let zeros = 3 - reason.len() % 4;
    let words = (ssrcs.len() + 1 + reason.len() + zeros) / 4;
    let count = (ssrcs.len() / 4) as u8;
    let head = header(count, 203, words as u16);
    write_parts(&head, ssrcs, &[reason.len() as u8], out)?;
    write_parts(reason, &[0u8; 3][..zeros], &[], out)
}

impl<'a> Goodbye<'a> {
    /// Whether the packet can be written: it has at most 31 sources, and a reason of at most 255 bytes, if there is one.
    pub fn fits(&self) -> bool
        ensures { result ≡ (are_items 4 0 124 (length self.now.ssrcs.now) && reason_short (leaving_of self.now).reason) }
    {
        let short = match self.reason {
            None => true,
            Some(reason) => reason.len() <= 255,
        };
        are_items(4, 0, 124, self.ssrcs) && short
    }

    /// Appends the packet. It has at most 31 sources, and a reason of at most 255 bytes.
    pub fn write(&self, out: &mut Vec<u8>) -> Result<(), AllocError>
        requires whole { length self.now.ssrcs.now % 4 ≡ 0 }
        requires few { length self.now.ssrcs.now ≤ 124 }
        requires short { IfSome self.now.reason (λ r. length r.now ≤ 255) }
        ensures packet { OnOk result (Appends out.old.items out.new.items (goodbye (leaving_of self.now))) }
        ensures exact { OnOk result (out.new.items ≡ out.old.items ++ leaving_bytes (leaving_of self.now)) }
    {
        match self.reason {
            None => write_leaving(self.ssrcs, out),
            Some(reason) => write_leaving_for(self.ssrcs, reason, out),
        }
    }
}

/// Returns whether [`write_padded`] can add `padding` bytes to a packet: `padding` is 4 to 252, a multiple of 4, the packet has no
/// padding yet (P is clear), and at most 65,536 words result.
pub fn padding_fits(packet: &[u8], padding: u8) -> bool
    ensures { result ≡ padding_fits padding packet.now }
{
    4 <= packet.len()
        && packet[0] <= 159
        && 1 <= padding
        && padding % 4 == 0
        && packet.len() + usize::from(padding) <= 262_144
}

/// Appends a written packet with `padding` bytes of padding: zeros, and their number last (RFC 3550, section 6.4.1). Only the last
/// packet of a datagram may have padding: write that packet into a separate vector first.
pub fn write_padded(packet: &[u8], padding: u8, out: &mut Vec<u8>) -> Result<(), AllocError>
    requires { IsTrue (padding_fits padding packet.now) }
    ensures packet { OnOk result (AppendsPadded padding out.old.items out.new.items packet.now) }
    ensures exact { OnOk result (out.new.items ≡ out.old.items ++ padded_bytes padding packet.now) }
{
    let words = ((packet.len() + usize::from(padding)) / 4 - 1) as u16;
    let [l1, l0] = words.to_be_bytes();
    out.extend_from_slice(&[packet[0] + 32, packet[1], l1, l0])?;
    let zeros = usize::from(padding) - 1;
    write_parts(&packet[4..], &[0u8; 255][..zeros], &[padding], out)
}

/// Packets that are appended one after another are a compound packet, which is then read. The last may have padding.
pub fn written_packets_are_read()
    ensures one_more { OneMore }
    ensures compound { AreCompound }
    ensures padded { LastPadded }
{}
