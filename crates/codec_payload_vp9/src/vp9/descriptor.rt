//! VP9: the descriptor of a payload, read in order, and the bits of its bytes (docs/use/FORMATS.md, "VP9").

ghost use Rattle.std.specs.Prelude.{◌≡◌, ◌<◌, IfErr, false, true};
ghost use Rattle.codec_payload_base.specs.Answers.{seen};
ghost use Rattle.codec_payload_vp9.specs.Vp9Fields.{fields_of, Groups};
ghost use Rattle.codec_payload_vp9.specs.Vp9Reading.{all_groups, group_at, group_count, groups_at, groups_from, groups_of, head_at, is_no_memory, no_groups, number_at, read_before, read_all, read_differences, read_group_count, read_groups, read_head, read_id, read_layers, read_size, read_sizes, with_flags, with_structure, Begins, SameButGroups};

use crate::vp9::depacketizer::Vp9Depacketizer;
use codec_payload_base::error::PacketError;
use codec_payload_base::picture_id::PictureId;
use codec_payload_base::wire::extend_u8;

/// I of the first byte (RFC 9628, section 4.2): the picture id is present.
pub(crate) const PICTURE_ID_PRESENT: u8 = 0x80;

/// P of the first byte: the frame refers to others.
pub(crate) const INTER_PICTURE_PREDICTED: u8 = 0x40;

/// L of the first byte: the layers are there.
pub(crate) const LAYERS_PRESENT: u8 = 0x20;

/// F of the first byte: the mode is the flexible one.
pub(crate) const FLEXIBLE_MODE: u8 = 0x10;

/// B of the first byte: a frame begins here.
pub(crate) const START_OF_FRAME: u8 = 0x08;

/// E of the first byte: a frame ends here.
pub(crate) const END_OF_FRAME: u8 = 0x04;

/// V of the first byte: a scalability structure is present.
pub(crate) const STRUCTURE_PRESENT: u8 = 0x02;

/// Z of the first byte: upper spatial layers do without this frame.
const NO_UPPER_REFERENCE: u8 = 0x01;

/// U, beside TID, SID and D, and beside the TID of a group: the temporal layer may be switched up to.
pub(crate) const SWITCHING_UP_POINT: u8 = 0x10;

/// D, beside TID, U and SID: the layer refers to the spatial layer below.
const INTER_LAYER_DEPENDENCY: u8 = 0x01;

/// N, beside P_DIFF: another difference follows.
const MORE_DIFFERENCES: u8 = 0x01;

/// Y of a structure: the sizes of its layers are there.
const SIZES_PRESENT: u8 = 0x10;

/// G of a structure: groups of pictures are there.
const GROUPS_PRESENT: u8 = 0x08;

/// The number of 16 bits at the front, and the bytes after it.
fn u16_of(bytes: &[u8]) -> Result<(u16, &[u8]), PacketError>
    ensures { seen (λ x. (x.0, x.1.now)) result ≡ number_at bytes.now }
{
    let [high, low, rest @ ..] = bytes else {
        return Err(PacketError::ErrShortPacket);
    };
    Ok((u16::from_be_bytes([*high, *low]), rest))
}

impl Vp9Depacketizer {
    /// Notes I P L F B E V Z.
    pub(crate) fn note_flags(&mut self, flags: u8)
        ensures { fields_of self.new ≡ with_flags (fields_of self.old) flags }
    {
        self.i = flags & PICTURE_ID_PRESENT != 0;
        self.p = flags & INTER_PICTURE_PREDICTED != 0;
        self.l = flags & LAYERS_PRESENT != 0;
        self.f = flags & FLEXIBLE_MODE != 0;
        self.b = flags & START_OF_FRAME != 0;
        self.e = flags & END_OF_FRAME != 0;
        self.v = flags & STRUCTURE_PRESENT != 0;
        self.z = flags & NO_UPPER_REFERENCE != 0;
    }

    /// Reads the picture id, if present, and returns the bytes after it.
    fn read_id<'a>(&mut self, bytes: &'a [u8]) -> Result<&'a [u8], PacketError>
        ensures fields { fields_of self.new ≡ (read_id (fields_of self.old) bytes.now).fields }
        ensures rest { seen (λ r. r.now) result ≡ (read_id (fields_of self.old) bytes.now).rest }
    {
        if !self.i {
            return Ok(bytes);
        }
        let Some((id, rest)) = PictureId::take(bytes) else {
            return Err(PacketError::ErrShortPacket);
        };
        self.extended_pid = Some(id.extend(self.extended_pid, self.picture_id));
        self.picture_id = id.value();
        Ok(rest)
    }

    /// Reads the layers, if they are there.
    fn read_layers<'a>(&mut self, bytes: &'a [u8]) -> Result<&'a [u8], PacketError>
        ensures fields { fields_of self.new ≡ (read_layers (fields_of self.old) bytes.now).fields }
        ensures rest { seen (λ r. r.now) result ≡ (read_layers (fields_of self.old) bytes.now).rest }
    {
        if !self.l {
            return Ok(bytes);
        }
        let Some((&octet, rest)) = bytes.split_first() else {
            return Err(PacketError::ErrShortPacket);
        };
        self.tid = octet / 32;
        self.u = octet & SWITCHING_UP_POINT != 0;
        self.sid = octet / 2 % 8;
        self.d = octet & INTER_LAYER_DEPENDENCY != 0;
        if self.sid > 2 {
            return Err(PacketError::ErrTooManySpatialLayers);
        }
        if self.f {
            return Ok(rest);
        }
        let Some((&index, rest)) = rest.split_first() else {
            return Err(PacketError::ErrShortPacket);
        };
        self.extended_tl0picidx = Some(extend_u8(self.extended_tl0picidx, index));
        self.tl0picidx = index;
        Ok(rest)
    }

    /// Reads the differences to the frames that are referred to, if they are there.
    fn read_differences<'a>(&mut self, bytes: &'a [u8]) -> Result<&'a [u8], PacketError>
        ensures fields { fields_of self.new ≡ (read_differences (fields_of self.old) bytes.now).fields }
        ensures rest { seen (λ r. r.now) result ≡ (read_differences (fields_of self.old) bytes.now).rest }
    {
        if !self.f || !self.p {
            return Ok(bytes);
        }
        let mut rest = bytes;
        for place in 0..3usize {
            let Some((&byte, others)) = rest.split_first() else {
                return Err(PacketError::ErrShortPacket);
            };
            self.pdiff[place] = byte / 2;
            rest = others;
            if byte & MORE_DIFFERENCES == 0 {
                return Ok(rest);
            }
        }
        Err(PacketError::ErrTooManyPDiff)
    }

    /// Reads the fields before the scalability structure.
    fn read_before<'a>(&mut self, bytes: &'a [u8]) -> Result<&'a [u8], PacketError>
        ensures fields { fields_of self.new ≡ (read_before (fields_of self.old) bytes.now).fields }
        ensures rest { seen (λ r. r.now) result ≡ (read_before (fields_of self.old) bytes.now).rest }
    {
        let rest = self.read_id(bytes)?;
        let rest = self.read_layers(rest)?;
        self.read_differences(rest)
    }

    /// Notes N_S(3) Y G.
    fn note_structure(&mut self, head: u8)
        ensures { fields_of self.new ≡ with_structure (fields_of self.old) head }
    {
        self.ns = head / 32;
        self.y = head & SIZES_PRESENT != 0;
        self.g = head & GROUPS_PRESENT != 0;
        self.ng = 0;
    }

    /// Reads the width and the height of a spatial layer.
    fn read_size<'a>(&mut self, layer: usize, bytes: &'a [u8]) -> Result<&'a [u8], PacketError>
        requires { layer < 3 }
        ensures fields { fields_of self.new ≡ (read_size (fields_of self.old) layer bytes.now).fields }
        ensures rest { seen (λ r. r.now) result ≡ (read_size (fields_of self.old) layer bytes.now).rest }
    {
        let (width, rest) = u16_of(bytes)?;
        self.width[layer] = Some(width);
        let (height, rest) = u16_of(rest)?;
        self.height[layer] = Some(height);
        Ok(rest)
    }

    /// Reads the sizes of the spatial layers, if they are there.
    fn read_sizes<'a>(&mut self, bytes: &'a [u8]) -> Result<&'a [u8], PacketError>
        requires { (fields_of self.old).ns < 3 }
        ensures fields { fields_of self.new ≡ (read_sizes (fields_of self.old) bytes.now).fields }
        ensures rest { seen (λ r. r.now) result ≡ (read_sizes (fields_of self.old) bytes.now).rest }
    {
        if !self.y {
            return Ok(bytes);
        }
        let mut rest = bytes;
        for layer in 0..usize::from(self.ns) + 1 {
            rest = self.read_size(layer, rest)?;
        }
        Ok(rest)
    }

    /// Reads the number of pictures in a group, if present.
    fn read_group_count<'a>(&mut self, bytes: &'a [u8]) -> Result<&'a [u8], PacketError>
        ensures fields { fields_of self.new ≡ (read_group_count (fields_of self.old) bytes.now).fields }
        ensures rest { seen (λ r. r.now) result ≡ (read_group_count (fields_of self.old) bytes.now).rest }
    {
        if !self.g {
            return Ok(bytes);
        }
        let Some((&count, rest)) = bytes.split_first() else {
            return Err(PacketError::ErrShortPacket);
        };
        self.ng = count;
        Ok(rest)
    }

    /// Reads a scalability structure without its groups.
    fn read_head<'a>(&mut self, bytes: &'a [u8]) -> Result<&'a [u8], PacketError>
        ensures fields { fields_of self.new ≡ (head_at (fields_of self.old) bytes.now).fields }
        ensures rest { seen (λ r. r.now) result ≡ (head_at (fields_of self.old) bytes.now).rest }
    {
        let Some((&head, rest)) = bytes.split_first() else {
            return Err(PacketError::ErrShortPacket);
        };
        self.note_structure(head);
        if self.ns > 2 {
            return Err(PacketError::ErrVP9CorruptedPacket);
        }
        let rest = self.read_sizes(rest)?;
        self.read_group_count(rest)
    }

    /// Forgets the groups of earlier structures.
    fn clear_groups(&mut self)
        ensures kept { SameButGroups (fields_of self.new) (fields_of self.old) }
        ensures groups { groups_of (fields_of self.new) ≡ no_groups }
    {
        self.pgtid.clear();
        self.pgu.clear();
        self.pgpdiff.clear();
    }

    /// Reads a scalability structure, if present, without its groups. The groups of an earlier structure are discarded once the
    /// first byte is read.
    fn read_structure<'a>(&mut self, bytes: &'a [u8]) -> Result<&'a [u8], PacketError>
        ensures kept { SameButGroups (fields_of self.new) (read_head (fields_of self.old) bytes.now).fields }
        ensures groups { read_groups (fields_of self.old) bytes.now ≡ groups_from (groups_of (fields_of self.new)) (read_head (fields_of self.old) bytes.now).rest (groups_at (group_count (fields_of self.new))) }
        ensures rest { seen (λ r. r.now) result ≡ (read_head (fields_of self.old) bytes.now).rest }
    {
        if !self.v {
            return Ok(bytes);
        }
        let read = self.read_head(bytes);
        if !bytes.is_empty() {
            self.clear_groups();
        }
        read
    }

    /// Reads the fields after the first byte, without the groups. Returns the rest: the groups, and the frame's bytes.
    pub(crate) fn read_fields<'a>(&mut self, bytes: &'a [u8]) -> Result<&'a [u8], PacketError>
        ensures kept { SameButGroups (fields_of self.new) (read_all (fields_of self.old) bytes.now).fields }
        ensures groups { all_groups (fields_of self.old) bytes.now ≡ groups_from (groups_of (fields_of self.new)) (read_all (fields_of self.old) bytes.now).rest (groups_at (group_count (fields_of self.new))) }
        ensures rest { seen (λ r. r.now) result ≡ (read_all (fields_of self.old) bytes.now).rest }
    {
        let rest = self.read_before(bytes)?;
        self.read_structure(rest)
    }

    /// The number of groups of the structure; 0 without a structure.
    pub(crate) fn group_count(&self) -> u8
        ensures { result ≡ group_count (fields_of self.now) }
    {
        if self.v { self.ng } else { 0 }
    }

    /// Reads a group. If memory is refused, nothing changes.
    fn read_group<'a>(&mut self, bytes: &'a [u8]) -> Result<&'a [u8], PacketError>
        ensures kept { SameButGroups (fields_of self.new) (fields_of self.old) }
        ensures groups { is_no_memory result ≡ false → groups_of (fields_of self.new) ≡ (group_at (groups_of (fields_of self.old)) bytes.now).groups }
        ensures rest { is_no_memory result ≡ false → seen (λ r. r.now) result ≡ (group_at (groups_of (fields_of self.old)) bytes.now).rest }
        ensures no_memory { is_no_memory result ≡ true → groups_of (fields_of self.new) ≡ groups_of (fields_of self.old) }
    {
        let Some((&head, rest)) = bytes.split_first() else {
            return Err(PacketError::ErrShortPacket);
        };
        let count = usize::from(head / 4 % 4);
        let (differences, others) = rest.split_at(count.min(rest.len()));
        let differences = Vec::from_slice(*self.pgtid.allocator(), differences)?;
        self.pgtid.reserve(1)?;
        self.pgu.reserve(1)?;
        self.pgpdiff.reserve(1)?;
        self.pgtid.push(head / 32).unwrap();
        self.pgu.push(head & SWITCHING_UP_POINT != 0).unwrap();
        self.pgpdiff.push(differences).unwrap();
        if rest.len() < count {
            return Err(PacketError::ErrShortPacket);
        }
        Ok(others)
    }

    /// Reads `count` groups. If memory is refused, the groups before are kept.
    pub(crate) fn read_groups<'a>(
        &mut self,
        count: u8,
        bytes: &'a [u8],
    ) -> Result<&'a [u8], PacketError>
        ensures kept { SameButGroups (fields_of self.new) (fields_of self.old) }
        ensures groups { is_no_memory result ≡ false → groups_of (fields_of self.new) ≡ (groups_at count (groups_of (fields_of self.old)) bytes.now).groups }
        ensures rest { is_no_memory result ≡ false → seen (λ r. r.now) result ≡ (groups_at count (groups_of (fields_of self.old)) bytes.now).rest }
        ensures no_memory { is_no_memory result ≡ true → Begins (groups_of (fields_of self.new)) (groups_at count (groups_of (fields_of self.old)) bytes.now).groups }
        ensures some { IfErr result (λ _. 0 < count) }
    {
        let mut rest = bytes;
        for _ in 0..count {
            rest = self.read_group(rest)?;
        }
        Ok(rest)
    }
}

/// The bytes after a group.
fn behind_group(bytes: &[u8]) -> Result<&[u8], PacketError>
    ensures { (groups : Groups) → seen (λ r. r.now) result ≡ (group_at groups bytes.now).rest }
{
    let Some((&head, rest)) = bytes.split_first() else {
        return Err(PacketError::ErrShortPacket);
    };
    let differences = usize::from(head / 4 % 4);
    if rest.len() < differences {
        return Err(PacketError::ErrShortPacket);
    }
    let (_, others) = rest.split_at(differences);
    Ok(others)
}

/// The bytes after `count` groups.
pub(crate) fn behind_groups(count: u8, bytes: &[u8]) -> Result<&[u8], PacketError>
    ensures { (groups : Groups) → seen (λ r. r.now) result ≡ (groups_at count groups bytes.now).rest }
{
    let mut rest = bytes;
    for _ in 0..count {
        rest = behind_group(rest)?;
    }
    Ok(rest)
}
