//! PictureID and TL0PICIDX in the payloads of a viewer's stream (VP8: RFC 7741, section 4.2; VP9: RFC 9628, section 4.2).

ghost use Rattle.std.specs.Prelude.{◌≡◌, ◌<◌, ◌∷◌, IfSome, None, OnErr, OnOk, Some, false, length, option_map, true};
ghost use Rattle.codec_payload_base.specs.PictureIds.{FitsWidth, id_value};
ghost use Rattle.codec_payload_sending_forward.specs.Numbers.{after_packet};
ghost use Rattle.codec_payload_sending_forward.specs.Ids.{after_picture, after_sent, first_ids, id_offset, id_to_leave, is_ahead, left_picture, moved_ids, moved_picture, offsets_at, offsets_switched, picture_closed, picture_replaced, switched_ids, tl0_offset};

use crate::renumbering::{MAX_LEFT_OUT, Renumbering, count_above, replace_last};
use codec_payload_base::picture_id::PictureId;
use std::alloc::{AllocError, Global};
use std::collections::VecDeque;
use std::marker::Model;

/// What is added to the ids in a payload.
#[derive(Clone, Copy, Debug, PartialEq, Eq)]
pub struct IdOffsets {
    /// What is added to a PictureID, modulo 2^15, or modulo 2^7 if it has 7 bits.
    pub picture: u16,
    /// What is added to TL0PICIDX, modulo 2^8.
    pub tl0: u8,
}

/// The ids in a payload, each if the payload has it.
///
/// [`PayloadIds::in_vp8`] and [`PayloadIds::in_vp9`] read them.
#[derive(Clone, Copy, Debug, PartialEq, Eq)]
pub struct PayloadIds {
    /// PictureID, with its width: 7 or 15 bits.
    pub picture_id: Option<PictureId>,
    /// TL0PICIDX, 8 bits.
    pub tl0_pic_idx: Option<u8>,
}

/// The map from PictureID and TL0PICIDX of a source to those of a viewer's stream.
///
/// Both go on by one at a switch, and are moved by an offset until the next one, in the width that they have. PictureIDs of VP8 close
/// up behind each picture that is left out ([`ForwardedIds::leave_out`]), so the viewer sees no gap. KEYIDX stays as it is. A picture that is left out takes 8 bytes; the latest
/// [`MAX_LEFT_OUT`] are remembered. If no picture is left out, no call allocates.
#[derive(Debug, Drop)]
pub struct ForwardedIds {
    /// What is added to the ids of packets before all pictures that are left out.
    offsets: IdOffsets,
    /// The PictureID of the last picture that was sent.
    picture: u16,
    /// The last TL0PICIDX that was sent.
    tl0: u8,
    /// The number of the first packet of each picture that was left out, the highest first.
    left_out: VecDeque<u64>,
    /// The PictureID of the source's last picture, if that was left out.
    leaving: Option<u16>,
}

impl Model for ForwardedIds {
    ghost use Rattle.std.specs.Prelude.{◌≤◌, length};
    ghost use Rattle.codec_payload_sending_forward.specs.Numbers.{Falls};
    ghost use Rattle.codec_payload_sending_forward.specs.Ids.{Ids};

    ghost Value = { Ids };

    ghost view = { λ m. record { offsets = m.offsets; picture = m.picture; tl0 = m.tl0; left_out = m.left_out.items; leaving = m.leaving } };

    ghost invariant = { λ m. Falls m.left_out.items × (length m.left_out.items ≤ 4096) };
}

/// Returns the offset that gives the id after the last one.
fn id_offset(last: u16, id: Option<PictureId>) -> u16
    ensures { result ≡ id_offset last id }
{
    match id {
        None => 0,
        Some(id) => last.wrapping_add(1).wrapping_sub(id.value()),
    }
}

/// Returns the offset that gives the TL0PICIDX after the last one.
fn tl0_offset(last: u8, tl0: Option<u8>) -> u8
    ensures { result ≡ tl0_offset last tl0 }
{
    match tl0 {
        None => 0,
        Some(tl0) => last.wrapping_add(1).wrapping_sub(tl0),
    }
}

/// Returns whether a number is above all of these.
fn is_ahead(numbers: &VecDeque<u64>, number: u64) -> bool
    ensures { result ≡ is_ahead number numbers.now.items }
{
    match numbers.front() {
        None => true,
        Some(highest) => *highest < number,
    }
}

/// Leaves out the packet with this number, and puts it in front of the others.
fn add_picture(
    left_out: &mut VecDeque<u64>,
    numbers: &mut Renumbering,
    number: u64,
) -> Result<(), AllocError>
    ensures items { OnOk result (left_out.new.items ≡ number ∷ left_out.old.items) }
    ensures numbers { OnOk result (numbers.new ≡ after_packet number false numbers.old) }
    ensures err { OnErr result ((left_out.new.items ≡ left_out.old.items) × (numbers.new ≡ numbers.old)) }
{
    left_out.reserve(1)?;
    numbers.place(number, false)?;
    left_out.push_front_reserved(number);
    Ok(())
}

impl IdOffsets {
    /// Returns a PictureID moved by the offset, in the width that it has.
    #[tactic(auto, using(crate::proofs::IdLemmas::short_id, crate::proofs::IdLemmas::long_id))]
    fn picture_id(self, id: PictureId) -> PictureId
        ensures value { result ≡ moved_picture self.picture id }
        ensures fits { FitsWidth result }
    {
        match id {
            PictureId::Short(id) => {
                PictureId::Short((u16::from(id).wrapping_add(self.picture) % 128) as u8)
            }
            PictureId::Long(id) => PictureId::Long(id.wrapping_add(self.picture) % 32_768),
        }
    }
}

impl PayloadIds {
    /// Returns the ids moved by these offsets, in the widths that they have.
    pub fn moved(self, offsets: IdOffsets) -> PayloadIds
        ensures value { result ≡ moved_ids offsets self }
        ensures fits { IfSome result.picture_id FitsWidth }
    {
        PayloadIds {
            picture_id: match self.picture_id {
                None => None,
                Some(id) => Some(offsets.picture_id(id)),
            },
            tl0_pic_idx: match self.tl0_pic_idx {
                None => None,
                Some(tl0) => Some(tl0.wrapping_add(offsets.tl0)),
            },
        }
    }

    /// Returns the value of PictureID.
    pub(crate) fn picture(self) -> Option<u16>
        ensures { result ≡ option_map id_value self.picture_id }
    {
        match self.picture_id {
            None => None,
            Some(id) => Some(id.value()),
        }
    }
}

impl ForwardedIds {
    /// Returns the map before the first picture, which gets PictureID 0 and TL0PICIDX 0. Does not allocate.
    pub fn new(alloc: Global) -> ForwardedIds
        ensures { result ≡ first_ids }
    {
        ForwardedIds {
            offsets: IdOffsets { picture: 0, tl0: 0 },
            picture: 32_767,
            tl0: 255,
            left_out: VecDeque::new(alloc),
            leaving: None,
        }
    }

    /// Returns what is added to the ids of the source's packet with this number. For a packet that comes late it costs a search by
    /// halves among the remembered pictures.
    pub fn offsets(&self, number: u64) -> IdOffsets
        ensures { result ≡ offsets_at self.now number }
    {
        let lower = self.left_out.len() - count_above(&self.left_out, number);
        IdOffsets {
            picture: self.offsets.picture.wrapping_sub(lower as u16),
            ..self.offsets
        }
    }

    /// Returns what is added to the ids since the last switch, if no picture is left out.
    pub fn begun_offsets(&self) -> IdOffsets
        ensures { result ≡ self.now.offsets }
    {
        self.offsets
    }

    /// Returns what is added to the ids of another source, whose first payload has these ids: they follow those of the last picture.
    /// `None`: the payload has no descriptor, and the offsets stay.
    pub fn offsets_switched(&self, ids: Option<PayloadIds>) -> IdOffsets
        ensures { result ≡ offsets_switched self.now ids }
    {
        match ids {
            Some(ids) => IdOffsets {
                picture: id_offset(self.picture, ids.picture_id),
                tl0: tl0_offset(self.tl0, ids.tl0_pic_idx),
            },
            None => self.offsets,
        }
    }

    /// Records that a payload with these ids was sent, moved by these offsets, and that its packet is above all others.
    pub fn record(&mut self, offsets: IdOffsets, ids: Option<PayloadIds>)
        ensures { self.new ≡ after_picture offsets ids self.old }
    {
        self.leaving = None;
        self.record_late(offsets, ids);
    }

    /// Records the same for a packet that is above all others that were sent, but not above all that were left out: its ids are the last
    /// ones that were sent, and the picture that is left out above it stays so.
    pub fn record_late(&mut self, offsets: IdOffsets, ids: Option<PayloadIds>)
        ensures { self.new ≡ after_sent offsets ids self.old }
    {
        if let Some(ids) = ids {
            let sent = ids.moved(offsets);
            self.picture = sent.picture().unwrap_or(self.picture);
            self.tl0 = sent.tl0_pic_idx.unwrap_or(self.tl0);
        }
    }

    /// Goes over to another source, whose first payload has these ids: its ids follow those of the last picture.
    pub fn switch(&mut self, ids: Option<PayloadIds>)
        ensures { self.new ≡ switched_ids ids self.old }
    {
        let offsets = self.offsets_switched(ids);
        self.offsets = offsets;
        self.left_out.clear();
        self.record(offsets, ids);
    }

    /// Returns the PictureID of a picture that is left out, if this is its first packet: its ids have to close up.
    fn to_leave(&self, number: u64, picture: Option<u16>) -> Option<u16>
        ensures value { result ≡ id_to_leave self.now number picture }
        ensures ahead { IfSome result (λ id. is_ahead number self.now.left_out ≡ true) }
    {
        let id = picture?;
        if self.leaving == Some(id) || !is_ahead(&self.left_out, number) {
            return None;
        }
        Some(id)
    }

    /// Leaves out the source's packet with this number, which is above all others. If it is the first packet of the picture with this
    /// PictureID, the PictureIDs after it close up. `numbers` leave the packet out too. `None`: PictureIDs do not close up.
    ///
    /// # Errors
    ///
    /// Memory ran out: both maps are unchanged.
    pub fn leave_out(
        &mut self,
        numbers: &mut Renumbering,
        number: u64,
        picture: Option<u16>,
    ) -> Result<(), AllocError>
        ensures ids { OnOk result (self.new ≡ left_picture number picture self.old) }
        ensures numbers { OnOk result (numbers.new ≡ after_packet number false numbers.old) }
        ensures err { OnErr result ((self.new ≡ self.old) × (numbers.new ≡ numbers.old)) }
    {
        match self.to_leave(number, picture) {
            Some(id) => self.close_up(numbers, number, id),
            None => {
                numbers.place(number, false)?;
                Ok(())
            }
        }
    }

    /// Leaves out the first packet of the picture with this PictureID.
    fn close_up(
        &mut self,
        numbers: &mut Renumbering,
        number: u64,
        id: u16,
    ) -> Result<(), AllocError>
        requires ahead { is_ahead number self.old.left_out ≡ true }
        ensures ids { OnOk result (self.new ≡ picture_closed number (Some id) self.old) }
        ensures numbers { OnOk result (numbers.new ≡ after_packet number false numbers.old) }
        ensures err { OnErr result ((self.new ≡ self.old) × (numbers.new ≡ numbers.old)) }
    {
        if self.left_out.len() < MAX_LEFT_OUT {
            return self.add(numbers, number, id);
        }
        numbers.place(number, false)?;
        self.replace_lowest(number, id);
        Ok(())
    }

    /// Leaves out the first packet of a picture, if there is room for it.
    fn add(&mut self, numbers: &mut Renumbering, number: u64, id: u16) -> Result<(), AllocError>
        requires ahead { is_ahead number self.old.left_out ≡ true }
        requires room { length self.old.left_out < 4096 }
        ensures ids { OnOk result (self.new ≡ record self.old { left_out = number ∷ self.old.left_out; leaving = Some id }) }
        ensures numbers { OnOk result (numbers.new ≡ after_packet number false numbers.old) }
        ensures err { OnErr result ((self.new ≡ self.old) × (numbers.new ≡ numbers.old)) }
    {
        add_picture(&mut self.left_out, numbers, number)?;
        self.leaving = Some(id);
        Ok(())
    }

    /// Puts the first packet of a picture in front of the others, and forgets the lowest one.
    fn replace_lowest(&mut self, number: u64, id: u16)
        requires ahead { is_ahead number self.old.left_out ≡ true }
        requires full { length self.old.left_out ≡ 4096 }
        ensures { self.new ≡ picture_replaced number id self.old }
    {
        replace_last(&mut self.left_out, number);
        self.offsets.picture = self.offsets.picture.wrapping_sub(1);
        self.leaving = Some(id);
    }
}
