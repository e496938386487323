//! What a packet says of the picture of which it is a part.

ghost use Rattle.std.specs.Prelude.{◌≡◌, ◌-◌};
ghost use Rattle.codec_payload_edges.specs.Edges.{described_edge, edge_with, id_after, ids_of, vp8_edge, vp9_edge, vp9_with};

use codec_payload_base::picture_id::PictureId;

/// How many bits an id has.
#[derive(Clone, Copy, Debug, PartialEq, Eq)]
pub enum IdWidth {
    /// PictureID of VP8 or VP9 in one byte.
    Bits7,
    /// PictureID of VP8 or VP9 in two bytes.
    Bits15,
    /// frame_number of the dependency descriptor.
    Bits16,
}

impl IdWidth {
    /// Returns how many ids there are: 2 to the power of the bits.
    pub fn ids(self) -> u64
        ensures { result ≡ ids_of self }
    {
        match self {
            IdWidth::Bits7 => 128,
            IdWidth::Bits15 => 32_768,
            IdWidth::Bits16 => 65_536,
        }
    }

    /// Returns the id that comes after this one: 1 more, or 0 after the last one.
    pub fn next(self, id: u16) -> u16
        ensures { result ≡ id_after self id 1 }
    {
        match self {
            IdWidth::Bits7 => ((u32::from(id) + 1) % 128) as u16,
            IdWidth::Bits15 => ((u32::from(id) + 1) % 32_768) as u16,
            IdWidth::Bits16 => ((u32::from(id) + 1) % 65_536) as u16,
        }
    }

    /// Returns the id that comes before this one: 1 less, or the last one before 0.
    pub fn prior(self, id: u16) -> u16
        ensures { result ≡ id_after self id (ids_of self - 1) }
    {
        match self {
            IdWidth::Bits7 => ((u32::from(id) + 127) % 128) as u16,
            IdWidth::Bits15 => ((u32::from(id) + 32_767) % 32_768) as u16,
            IdWidth::Bits16 => ((u32::from(id) + 65_535) % 65_536) as u16,
        }
    }
}

/// What a packet with media says of its picture. In a stream with dependency descriptors: of its frame.
///
/// A picture of VP9 is all its layer frames together.
#[derive(Clone, Copy, Debug, PartialEq, Eq)]
pub struct Edge {
    /// PictureID, or frame_number.
    pub id: u16,
    /// How many bits the id has.
    pub width: IdWidth,
    /// It is the first packet of its picture.
    pub begins: bool,
    /// It is the last packet of its picture.
    pub ends: bool,
}

impl Edge {
    /// Returns the edge with this PictureID.
    fn with(id: PictureId, begins: bool, ends: bool) -> Edge
        ensures { result ≡ edge_with id begins ends }
    {
        let width = match id {
            PictureId::Short(_) => IdWidth::Bits7,
            PictureId::Long(_) => IdWidth::Bits15,
        };
        Edge {
            id: id.value(),
            width,
            begins,
            ends,
        }
    }

    /// Returns what a payload of VP8 says (RFC 7741, section 4.2): X R N S R PID(3), then I L T K RSV(4), if X is set, then PictureID, if
    /// I is set. The first packet of a picture has S set and PID 0; the last one has the marker of RTP. `None`: the payload has no
    /// PictureID. Does not allocate.
    pub fn in_vp8(payload: &[u8], marker: bool) -> Option<Edge>
        ensures { result ≡ vp8_edge marker payload.now }
    {
        let (&first, bytes) = payload.split_first()?;
        if first & 0x80 == 0 {
            return None;
        }
        let (&flags, bytes) = bytes.split_first()?;
        if flags & 0x80 == 0 {
            return None;
        }
        let (id, _) = PictureId::take(bytes)?;
        let begins = first & 0x10 != 0 && first % 8 == 0;
        Some(Edge::with(id, begins, marker))
    }

    /// Returns what a payload of VP9 says (RFC 9628, section 4.2): I P L F B E V Z, then PictureID, if I is set, then TID(3) U SID(3) D, if
    /// L is set. The first packet of a picture has B set and SID 0; the last one has E set and the marker of RTP. `None`: the payload
    /// has no PictureID. Does not allocate.
    pub fn in_vp9(payload: &[u8], marker: bool) -> Option<Edge>
        ensures { result ≡ vp9_edge marker payload.now }
    {
        let (&flags, bytes) = payload.split_first()?;
        if flags & 0x80 == 0 {
            return None;
        }
        let (id, rest) = PictureId::take(bytes)?;
        vp9_with(flags, marker, id, rest)
    }

    /// Returns what a dependency descriptor says (AV1 RTP specification, appendix A): start_of_frame(1), end_of_frame(1),
    /// frame_dependency_template_id(6), frame_number(16). `None`: a byte of it is missing. Does not allocate.
    pub fn in_descriptor(descriptor: &[u8]) -> Option<Edge>
        ensures { result ≡ described_edge descriptor.now }
    {
        let (&flags, bytes) = descriptor.split_first()?;
        let (&high, bytes) = bytes.split_first()?;
        let (&low, _) = bytes.split_first()?;
        Some(Edge {
            id: u16::from_be_bytes([high, low]),
            width: IdWidth::Bits16,
            begins: flags & 0x80 != 0,
            ends: flags & 0x40 != 0,
        })
    }
}

/// Returns what a payload of VP9 with this first byte, this PictureID and these bytes behind it says.
fn vp9_with(flags: u8, marker: bool, id: PictureId, bytes: &[u8]) -> Option<Edge>
    ensures { result ≡ vp9_with flags marker id bytes.now }
{
    let begins = flags & 0x08 != 0;
    let ends = flags & 0x04 != 0 && marker;
    if flags & 0x20 == 0 {
        return Some(Edge::with(id, begins, ends));
    }
    let (&layers, _) = bytes.split_first()?;
    let is_lowest = layers / 2 % 8 == 0;
    Some(Edge::with(id, begins && is_lowest, ends))
}
