//! What a payload of VP9 in the flexible mode says of the layer frame that it begins (RFC 9628, section 4.2).

ghost use Rattle.std.specs.Prelude.{◌≡◌, ◌/◌, ◌^◌, option_map};
ghost use Rattle.codec_payload_references.specs.LayerFrames.{after_id, differences_if, differences_in, layer_frame_of, layer_octet, read_layer_frame};

use codec_payload_base::picture_id::PictureId;

/// I of the first byte: the picture id is present.
const PICTURE_ID_PRESENT: u8 = 0x80;

/// P of the first byte: the frame refers to others.
const INTER_PICTURE_PREDICTED: u8 = 0x40;

/// L of the first byte: the layers are present.
const LAYERS_PRESENT: u8 = 0x20;

/// F of the first byte: the flexible mode.
const FLEXIBLE_MODE: u8 = 0x10;

/// B of the first byte: a layer frame begins here.
const START_OF_FRAME: u8 = 0x08;

/// D, beside TID, U and SID: the layer frame refers to the spatial layer below.
const INTER_LAYER_DEPENDENCY: u8 = 0x01;

/// N, beside P_DIFF: another P_DIFF follows.
const MORE_DIFFERENCES: u8 = 0x01;

/// The largest number of P_DIFFs of a layer frame.
const MOST_DIFFERENCES: u8 = 3;

/// What a payload of VP9 in the flexible mode says of the layer frame that it begins.
#[derive(Clone, Copy, Debug, PartialEq, Eq)]
pub struct LayerFrame {
    /// Bit d, 1 to 127, for each P_DIFF d: it refers to the picture whose id is less by d. Bit 0: it refers to a picture that is not
    /// known.
    pub differences: u128,
    /// Whether it refers to a lower spatial layer of the same picture: SID is above 0, and D is set.
    pub needs_lower_layer: bool,
}

/// The bytes after the picture id. `None`: they end early.
fn after_id(present: bool, bytes: &[u8]) -> Option<&[u8]>
    ensures { option_map (λ rest. rest.now) result ≡ after_id present bytes.now }
{
    if !present {
        return Some(bytes);
    }
    let (_, rest) = PictureId::take(bytes)?;
    Some(rest)
}

/// The byte TID(3) U SID(3) D and the bytes after it; 0 if it is absent. `None`: they end early.
fn layer_octet(present: bool, bytes: &[u8]) -> Option<(u8, &[u8])>
    ensures { option_map (λ x. (x.0, x.1.now)) result ≡ layer_octet present bytes.now }
{
    if !present {
        return Some((0, bytes));
    }
    let (&octet, rest) = bytes.split_first()?;
    Some((octet, rest))
}

/// The bit for the P_DIFF in a byte P_DIFF(7) N.
fn difference_bit(octet: u8) -> u128
    ensures { result ≡ 2 ^ (octet / 2) }
{
    1 << (octet / 2)
}

/// One bit for each P_DIFF at the front. `None`: the bytes end early, or there are more than `most`.
fn differences_in(bytes: &[u8], most: u8) -> Option<u128>
    ensures { result ≡ differences_in most bytes.now }
{
    if most == 0 {
        return None;
    }
    let (&octet, rest) = bytes.split_first()?;
    let difference = difference_bit(octet);
    if octet & MORE_DIFFERENCES == 0 {
        return Some(difference);
    }
    let others = differences_in(rest, most - 1)?;
    Some(difference | others)
}

/// One bit for each P_DIFF, if P is set.
fn differences_if(predicted: bool, bytes: &[u8]) -> Option<u128>
    ensures { result ≡ differences_if predicted bytes.now }
{
    if predicted {
        differences_in(bytes, MOST_DIFFERENCES)
    } else {
        Some(0)
    }
}

/// Reads what follows the first byte. `None`: the bytes end early, or there are more than three P_DIFFs.
fn read_layer_frame(flags: u8, bytes: &[u8]) -> Option<LayerFrame>
    ensures { result ≡ read_layer_frame flags bytes.now }
{
    let rest = after_id(flags & PICTURE_ID_PRESENT != 0, bytes)?;
    let (octet, rest) = layer_octet(flags & LAYERS_PRESENT != 0, rest)?;
    let differences = differences_if(flags & INTER_PICTURE_PREDICTED != 0, rest)?;
    Some(LayerFrame {
        differences,
        needs_lower_layer: octet & INTER_LAYER_DEPENDENCY != 0 && octet / 2 % 8 != 0,
    })
}

impl LayerFrame {
    /// Reads the payload descriptor of a payload that begins a layer frame in the flexible mode: B and F are set. `None`: it does
    /// not. If the descriptor ends early or has more than three P_DIFFs, the layer frame refers to a picture that is not known.
    pub fn of(payload: &[u8]) -> Option<LayerFrame>
        ensures { result ≡ layer_frame_of payload.now }
    {
        let (&flags, rest) = payload.split_first()?;
        if flags & START_OF_FRAME == 0 || flags & FLEXIBLE_MODE == 0 {
            return None;
        }
        match read_layer_frame(flags, rest) {
            Some(frame) => Some(frame),
            None => Some(LayerFrame {
                differences: 1,
                needs_lower_layer: false,
            }),
        }
    }
}
