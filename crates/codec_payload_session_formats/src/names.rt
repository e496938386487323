//! The names of streams, as header extensions carry them: MID, RID and repaired RID.

ghost use Rattle.std.specs.Prelude.{◌≡◌, ◌<◌, ◌≤◌, length};
ghost use Rattle.std.specs.Option.{option_map};
ghost use Rattle.codec_payload_rtp.specs.Elements.{elements_left};
ghost use Rattle.codec_payload_rtp.specs.ExtensionFormats.{and_then, elements_of};
ghost use Rattle.codec_payload_rtp.specs.RtpValues.{extension_of};
ghost use Rattle.codec_payload_session_formats.specs.Names.{are_of_one, is_any, is_same, name_of, names_after, names_by, newer};

use codec_payload_datagrams::parsed::ParsedDatagram;
use codec_payload_rtp::elements::Elements;
use codec_payload_rtp::rtp::HeaderExtension;
use codec_payload_rtp::values::keep_first;
use std::fmt;
use std::marker::Model;

/// The largest number of bytes of a name. An element of the one-byte form has at most 16 (RFC 8285, section 4.2).
const LONGEST_STREAM_NAME: usize = 32;

/// The ids that signalling gave to the header extensions with names of streams (RFC 8285, section 5): 1 to 14 in the one-byte form,
/// 1 to 255 in the two-byte form. `None`, which is the default: the extension was not agreed on. No element has the id 0, and two
/// equal ids read the same element.
#[derive(Clone, Copy, Debug, Default, PartialEq, Eq)]
pub struct StreamNameIds {
    /// `urn:ietf:params:rtp-hdrext:sdes:mid` (RFC 9143, section 15).
    pub mid: Option<u8>,
    /// `urn:ietf:params:rtp-hdrext:sdes:rtp-stream-id` (RFC 8852, section 3).
    pub rid: Option<u8>,
    /// `urn:ietf:params:rtp-hdrext:sdes:repaired-rtp-stream-id` (RFC 8852, section 3).
    pub repaired_rid: Option<u8>,
}

/// The names of a stream. `None`: no packet of the stream had the name so far.
#[derive(Clone, Copy, Debug, Default, PartialEq, Eq)]
pub struct StreamNames {
    /// The MID: which media description (`a=mid`) the stream belongs to.
    pub mid: Option<StreamName>,
    /// The RID: which of the streams of a simulcast (`a=rid`) it is.
    pub rid: Option<StreamName>,
    /// The repaired RID, which retransmissions of the stream have: the RID of the stream that they repair.
    pub repaired_rid: Option<StreamName>,
}

/// The name of a stream: 1 to 32 bytes, which a sender should choose among the letters and digits of ASCII, `-` and `_` (RFC 8851,
/// section 10), but can choose freely.
#[derive(Clone, Copy)]
pub struct StreamName {
    len: u8,
    /// The bytes, padded with zeros, so that equal bytes mean equal values.
    padded: [u8; 32],
}

impl Model for StreamName {
    ghost use Rattle.std.specs.Prelude.{◌≡◌, ◌<◌, ℕ, ◌-◌, List, ◌++◌, length, take, replicate};

    ghost Value = { List ℕ };

    ghost view = { λ n. take n.len n.padded };

    ghost inverse = { λ bytes. record { len = length bytes; padded = bytes ++ replicate (32 - length bytes) 0 } };

    ghost invariant = { λ n. let bytes = take n.len n.padded in (length bytes ≡ n.len) × (bytes ++ replicate (32 - length bytes) 0 ≡ n.padded) × (0 < n.len) };

    ghost inverse_ok = { λ n h i. record { len = h.0 i; padded = h.1 i } };
}

impl PartialEq for StreamName {
    ghost use Rattle.std.specs.Prelude.{nat_eq};
    ghost use Rattle.std.specs.Cmp.{partial_equiv_from_equiv};
    ghost use Rattle.std.specs.Cmp.Lexicographic.{nat_list_eq_equiv, pointwise};

    ghost eq = { pointwise nat_eq };

    ghost laws = { partial_equiv_from_equiv nat_list_eq_equiv };

    fn eq(&self, other: &Self) -> bool {
        self.as_bytes() == other.as_bytes()
    }
}

impl Eq for StreamName {
    ghost use Rattle.std.specs.Cmp.Lexicographic.{nat_list_eq_equiv};

    ghost laws = { nat_list_eq_equiv };
}

impl StreamName {
    /// Returns the name that these bytes are. `None`: there is no byte, or there are more than 32.
    pub fn new(bytes: &[u8]) -> Option<Self>
        ensures { result ≡ name_of bytes.now }
    {
        if bytes.is_empty() || bytes.len() > LONGEST_STREAM_NAME {
            return None;
        }
        let mut padded = [0; LONGEST_STREAM_NAME];
        padded[..bytes.len()].copy_from_slice(bytes);
        Some(StreamName {
            len: bytes.len() as u8,
            padded,
        })
    }

    /// Returns the bytes of the name. They can be any, so check them before you take them for text.
    pub fn as_bytes(&self) -> &[u8]
        ensures value { result.now ≡ self.now }
        ensures some { 0 < length result.now }
        ensures few { length result.now ≤ 32 }
    {
        &self.padded[..usize::from(self.len)]
    }
}

/// Writes the bytes of the name.
impl fmt::Debug for StreamName {
    fn fmt<W: fmt::Write>(&self, f: &mut fmt::Formatter<W>) -> fmt::Result {
        f.debug_tuple("StreamName").field(&self.as_bytes()).finish()
    }
}

impl StreamNameIds {
    /// Returns whether an extension was agreed on.
    #[inline(always)]
    fn is_any(&self) -> bool
        ensures { result ≡ is_any self.now }
    {
        self.mid.is_some() || self.rid.is_some() || self.repaired_rid.is_some()
    }
}

impl StreamNames {
    /// Returns whether both are names of one sender: the same MID, and the same RID or none.
    pub fn are_of_one(&self, other: &StreamNames) -> bool
        ensures { result ≡ are_of_one self.now other.now }
    {
        self.mid.is_some() && is_same(&self.mid, &other.mid) && is_same(&self.rid, &other.rid)
    }

    /// Replaces the names that the datagram has.
    #[inline(always)]
    pub fn note(&mut self, ids: &StreamNameIds, datagram: &ParsedDatagram<'_>)
        ensures { self.new ≡ names_after ids.now datagram.now self.old }
    {
        // Most sessions have no such extension: then no name is copied.
        if !ids.is_any() {
            return;
        }
        if let Ok(packet) = datagram.packet() {
            self.read(ids, &packet.header.extension);
        }
    }

    /// Replaces the names that the header extension has.
    #[inline(never)]
    fn read(&mut self, ids: &StreamNameIds, extension: &Option<HeaderExtension<'_>>)
        ensures { self.new ≡ names_by ids.now (elements_of (extension_of extension.now)) self.old }
    {
        let Some(extension) = extension else {
            return;
        };
        match extension.elements() {
            Some(elements) => self.read_among(ids, elements),
            None => {}
        }
    }

    /// Replaces the names that these elements have.
    #[inline(always)]
    fn read_among(&mut self, ids: &StreamNameIds, elements: Elements<'_>)
        ensures { self.new ≡ names_by ids.now (elements_left elements.entry) self.old }
    {
        let mut mid = None;
        let mut rid = None;
        let mut repaired_rid = None;
        for element in elements {
            keep_first(&mut mid, ids.mid, &element);
            keep_first(&mut rid, ids.rid, &element);
            keep_first(&mut repaired_rid, ids.repaired_rid, &element);
        }
        replace(&mut self.mid, mid);
        replace(&mut self.rid, rid);
        replace(&mut self.repaired_rid, repaired_rid);
    }
}

/// Returns whether both names are the same, or neither is known.
fn is_same(one: &Option<StreamName>, other: &Option<StreamName>) -> bool
    ensures { result ≡ is_same one.now other.now }
{
    match (one, other) {
        (Some(one), Some(other)) => one == other,
        (None, None) => true,
        _ => false,
    }
}

/// Replaces the name from before, if these bytes are one.
#[inline(always)]
fn replace(name: &mut Option<StreamName>, arrived: Option<&[u8]>)
    ensures { name.new ≡ newer (and_then name_of (option_map (λ bytes. bytes.now) arrived.entry)) name.old }
{
    if let Some(bytes) = arrived {
        replace_by(name, bytes);
    }
}

/// Replaces the name from before, if these bytes are one.
#[cold]
#[inline(never)]
fn replace_by(name: &mut Option<StreamName>, bytes: &[u8])
    ensures { name.new ≡ newer (name_of bytes.now) name.old }
{
    if let Some(arrived) = StreamName::new(bytes) {
        *name = Some(arrived);
    }
}
