//! AV1: reassembles frames from payloads (docs/use/FORMATS.md, "AV1").

ghost use Rattle.std.specs.Prelude.{◌≡◌, ◌∷◌, List, [], Some, length, take, true, nat_lt, ◌&&◌, ℕ, is_some, not, ◌++◌, OnOk, if◌then◌else◌};
ghost use Rattle.codec_payload_av1.specs.Av1Obu.{canonical, has_bit, is_kept_type};
ghost use Rattle.codec_payload_av1.specs.Av1Packing.{is_begun};
ghost use Rattle.codec_payload_av1.specs.Av1Payload.{is_head};
ghost use Rattle.codec_payload_av1.specs.Av1Receiving.{unit_of, received, begun_at, can_take};
ghost use Rattle.codec_payload_av1.specs.Av1Outcome.{Appends, Takes};
ghost use Rattle.codec_payload_av1.specs.Av1Steps.{Av1Step, TakesPayload, extra_of};

use crate::av1::aggregation_header::AggregationHeader;
use crate::av1::detect_av1_keyframe;
use crate::av1::leb::number_len;
use crate::av1::obu::{has_size_bit, is_kept, is_one_obu, obu_of, put_canonical};
use crate::av1::payload::{next_element, w_after_one};
use crate::av1::pending::{MOST_BEFORE, Pending};
use codec_payload_base::error::PacketError;
use codec_payload_base::interface::{Av1CodecExtra, CodecExtra, Depacketizer};
use std::alloc::{AllocError, Global};
use std::marker::Model;

/// Puts AV1 temporal units together, each OBU with its size (RTP Payload Format for AV1, sections 4.4 and 5). It holds
/// the beginning of an OBU whose end is still to come.
#[derive(Debug, Drop)]
pub struct Av1Depacketizer {
    pending: Pending,
}

impl Model for Av1Depacketizer {
    ghost Value = { List ℕ };

    ghost view = { λ d. d.pending };
}

impl Av1Depacketizer {
    /// An empty depacketizer. Does not allocate until it is used.
    pub fn new(alloc: Global) -> Self
        ensures { result ≡ [] }
    {
        Av1Depacketizer {
            pending: Pending::new(alloc),
        }
    }

    /// Accepts the payload of an aggregation header and the bytes after it. After an error any bytes may be pending.
    fn take_payload(
        &mut self,
        header: AggregationHeader,
        bytes: &[u8],
        out: &mut Vec<u8>,
    ) -> Result<(), PacketError>
        ensures taken { TakesPayload result self.old (header.byte ∷ bytes.now) out.old.items out.new.items self.new }
        ensures kept { take (length out.old.items) out.new.items ≡ out.old.items }
    {
        if header.is_inside() && !self.pending.as_slice().is_empty() {
            self.pending.extend(bytes)?;
            return Ok(());
        }
        if !is_readable(self.pending.as_slice(), header, bytes) {
            return Err(PacketError::ErrAv1CorruptedPacket);
        }
        self.take_elements_of(header, bytes, out)
    }

    /// The same, with an allocation failure possible for any payload.
    fn take_elements_of(
        &mut self,
        header: AggregationHeader,
        bytes: &[u8],
        out: &mut Vec<u8>,
    ) -> Result<(), PacketError>
        ensures taken { Takes result out.old.items out.new.items self.new (received self.old (header.byte ∷ bytes.now)) }
        ensures kept { take (length out.old.items) out.new.items ≡ out.old.items }
    {
        keep_begun(&mut self.pending, header);
        reserve_for_first(out, bytes.len())?;
        take_elements(&mut self.pending, out, header, bytes)
    }
}

/// The codec-specific data of the payload, merged with `before`, the data of the earlier payloads of the frame.
fn extra(packet: &[u8], before: &CodecExtra) -> CodecExtra
    ensures { result ≡ extra_of packet.now before.now }
{
    let was_keyframe = match before {
        CodecExtra::Av1(extra) => extra.is_keyframe,
        _ => false,
    };
    CodecExtra::Av1(Av1CodecExtra {
        is_keyframe: detect_av1_keyframe(packet) || was_keyframe,
    })
}

impl Depacketizer for Av1Depacketizer {
    ghost state = { λ pending. pending };

    ghost depacketize_step = { λ pending payload out extra answer after out' extra'. Av1Step pending payload out extra answer after out' extra' };

    ghost size_hint = { λ _ size. Some size };

    ghost is_head = { λ _ payload. is_head payload };

    ghost is_tail = { λ _ marker _. marker };

    fn out_size_hint(&self, packets_size: usize) -> Option<usize> {
        Some(packets_size)
    }

    /// Appends the kept OBUs that end in the payload, each with its size, and records the codec-specific data. A frame that was
    /// reported as a keyframe stays one. The beginning of an OBU that continues in the next payload stays pending.
    ///
    /// `ErrShortPacket`: the payload is empty. `ErrAv1CorruptedPacket`: the length of an element is unreadable, 0 or beyond the
    /// end, or an element is not exactly one OBU; this is checked before anything is allocated. On an error `out` and the
    /// codec-specific data are unchanged, and nothing is pending.
    fn depacketize(
        &mut self,
        packet: &[u8],
        out: &mut Vec<u8>,
        codec_extra: &mut CodecExtra,
    ) -> Result<(), PacketError> {
        let start = out.len();
        let taken = match packet {
            [] => Err(PacketError::ErrShortPacket),
            [header, bytes @ ..] => self.take_payload(
                AggregationHeader { byte: *header },
                bytes,
                out,
            ),
        };
        match taken {
            Ok(()) => {
                *codec_extra = extra(packet, codec_extra);
                Ok(())
            }
            Err(error) => {
                out.truncate(start);
                self.pending.clear();
                Err(error)
            }
        }
    }

    /// Whether the Z bit is clear, so that the payload does not begin inside an OBU; false for an empty payload.
    fn is_partition_head(&self, packet: &[u8]) -> bool {
        match packet.first() {
            Some(header) => !AggregationHeader { byte: *header }.continues(),
            None => false,
        }
    }

    fn is_partition_tail(&self, marker: bool, _packet: &[u8]) -> bool {
        marker
    }
}

/// What of the pending bytes goes on in the payload of this aggregation header.
fn begun_of(header: AggregationHeader, pending: &[u8]) -> &[u8]
    ensures { result.now ≡ begun_at header.byte pending.now }
{
    if header.continues_pending() {
        pending
    } else {
        &[]
    }
}

/// Makes room for what a payload of `count` bytes adds to a unit that has just begun: at most these bytes and one size. Packets can
/// be shorter than the unit that they give, so this avoids a request for twice as much.
fn reserve_for_first(out: &mut Vec<u8>, count: usize) -> Result<(), AllocError>
    ensures { out.new.items ≡ out.old.items }
{
    if out.len() <= MOST_BEFORE {
        out.reserve_exact(count.saturating_add(number_len(count as u64)))?;
    }
    Ok(())
}

/// Discards the pending bytes if they do not continue in the payload of this aggregation header.
fn keep_begun(pending: &mut Pending, header: AggregationHeader)
    ensures { pending.new ≡ begun_at header.byte pending.old }
{
    if !header.continues_pending() {
        pending.clear();
    }
}

/// Whether the first element of a payload goes on from bytes that never came.
fn has_orphan(header: AggregationHeader, begun: &[u8]) -> bool
    ensures { result ≡ (has_bit 128 header.byte && not (is_begun begun.now)) }
{
    header.continues() && begun.is_empty()
}

/// Whether an element with a W of `w` is acceptable after the begun bytes and before these bytes: it is dropped, it continues in
/// the next packet, or it ends one OBU.
fn can_be_taken(
    is_orphan: bool,
    may_go_on: bool,
    w: u8,
    begun: &[u8],
    element: &[u8],
    rest: &[u8],
) -> bool
    ensures { result ≡ can_take is_orphan may_go_on w begun.now element.now rest.now }
{
    is_orphan || (may_go_on && w < 2 && rest.is_empty()) || is_one_obu(begun, element)
}

/// Whether a depacketizer with these pending bytes accepts the payload of an aggregation header and the bytes after it. Does not
/// allocate.
fn is_readable(pending: &[u8], header: AggregationHeader, bytes: &[u8]) -> bool
    ensures { result ≡ is_some (received pending.now (header.byte ∷ bytes.now)) }
{
    let may_go_on = header.goes_on();
    let mut begun = begun_of(header, pending);
    let mut is_orphan = has_orphan(header, begun);
    let mut w = header.count();
    let mut rest = bytes;
    while !rest.is_empty() {
        let Some((element, after)) = next_element(w, rest) else {
            return false;
        };
        if !can_be_taken(is_orphan, may_go_on, w, begun, element, after) {
            return false;
        }
        is_orphan = false;
        begun = &[];
        w = w_after_one(w);
        rest = after;
    }
    true
}

/// Appends the unit of an element, which must be exactly one OBU: nothing if the OBU is not kept.
#[tactic(auto, using(crate::proofs::Av1FrontKept::kept_more, crate::proofs::Av1FrontKept::kept_same), unfolding(crate::specs::Av1Receiving::unit_of))]
fn append_unit(out: &mut Vec<u8>, element: &[u8]) -> Result<(), PacketError>
    ensures added { Appends result out.old.items out.new.items (unit_of element.now) }
    ensures kept { take (length out.old.items) out.new.items ≡ out.old.items }
{
    let Some((obu, rest)) = obu_of(element) else {
        return Err(PacketError::ErrAv1CorruptedPacket);
    };
    if !rest.is_empty() {
        return Err(PacketError::ErrAv1CorruptedPacket);
    }
    if is_kept(obu.header) {
        if has_size_bit(obu.header) {
            out.extend_from_slice(element)?;
        } else {
            put_canonical(out, &obu)?;
        }
    }
    Ok(())
}

/// Appends the OBU from the pending bytes and an element after them, which must be exactly one OBU. Nothing is pending afterwards.
/// The element is copied once, unless the OBU has a size field.
fn append_joined(
    pending: &mut Pending,
    out: &mut Vec<u8>,
    element: &[u8],
) -> Result<(), PacketError>
    ensures added { Appends result out.old.items out.new.items (unit_of (pending.old ++ element.now)) }
    ensures kept { take (length out.old.items) out.new.items ≡ out.old.items }
    ensures emptied { OnOk result (pending.new ≡ []) }
{
    if pending.as_slice().is_empty() {
        return append_unit(out, element);
    }
    if pending.complete(out, element)? {
        return Ok(());
    }
    pending.extend(element)?;
    append_unit(out, pending.as_slice())?;
    pending.clear();
    Ok(())
}

/// Handles an element that ends here: joins it to the pending bytes and appends the result, or drops it if the bytes that it
/// continues never came. Nothing is pending afterwards.
fn take_element(
    pending: &mut Pending,
    out: &mut Vec<u8>,
    is_orphan: bool,
    element: &[u8],
) -> Result<(), PacketError>
    requires { is_orphan ≡ true → pending.old ≡ [] }
    ensures added { Appends result out.old.items out.new.items (if is_orphan then Some [] else unit_of (pending.old ++ element.now)) }
    ensures kept { take (length out.old.items) out.new.items ≡ out.old.items }
    ensures emptied { OnOk result (pending.new ≡ []) }
{
    if is_orphan {
        return Ok(());
    }
    append_joined(pending, out, element)
}

/// Whether an element under a W of `w` and before these bytes goes on in the next packet.
fn stays_open(is_orphan: bool, may_go_on: bool, w: u8, rest: &[u8]) -> bool
    ensures { result ≡ (not is_orphan && may_go_on && nat_lt w 2 && not (is_begun rest.now)) }
{
    !is_orphan && may_go_on && w < 2 && rest.is_empty()
}

/// Reads the elements after an aggregation header one after another; the last one of a packet that continues stays pending.
fn take_elements(
    pending: &mut Pending,
    out: &mut Vec<u8>,
    header: AggregationHeader,
    bytes: &[u8],
) -> Result<(), PacketError>
    requires { begun_at header.byte pending.old ≡ pending.old }
    ensures taken { Takes result out.old.items out.new.items pending.new (received pending.old (header.byte ∷ bytes.now)) }
    ensures kept { take (length out.old.items) out.new.items ≡ out.old.items }
{
    let may_go_on = header.goes_on();
    let mut is_orphan = has_orphan(header, pending.as_slice());
    let mut w = header.count();
    let mut rest = bytes;
    while !rest.is_empty() {
        let Some((element, after)) = next_element(w, rest) else {
            return Err(PacketError::ErrAv1CorruptedPacket);
        };
        if stays_open(is_orphan, may_go_on, w, after) {
            pending.extend_behind(out, element)?;
            return Ok(());
        }
        take_element(pending, out, is_orphan, element)?;
        is_orphan = false;
        w = w_after_one(w);
        rest = after;
    }
    Ok(())
}
