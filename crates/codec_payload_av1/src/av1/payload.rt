//! AV1: reads payloads (RTP Payload Format for AV1, section 4.4; docs/use/FORMATS.md, "AV1").

ghost use Rattle.std.specs.Prelude.{◌≡◌};
ghost use Rattle.codec_payload_base.specs.Answers.{Finds};
ghost use Rattle.codec_payload_av1.specs.Av1Payload.{element_at, next_at, w_after};

use crate::av1::leb::number_at;

/// The element after its length at the front, and the bytes after it; `None` if the length is unreadable, 0 or beyond the end.
#[tactic(auto, unfolding(crate::specs::Av1Payload::element_at))]
fn element_of(bytes: &[u8]) -> Option<(&[u8], &[u8])>
    ensures { Finds (λ x. (x.0.now, x.1.now)) result (element_at bytes.now) }
{
    let (size, bytes) = number_at(bytes)?;
    if size == 0 || (bytes.len() as u64) < size {
        return None;
    }
    Some(bytes.split_at(size as usize))
}

/// The next element with a W of `w`, and the bytes after it.
pub fn next_element(w: u8, bytes: &[u8]) -> Option<(&[u8], &[u8])>
    ensures { Finds (λ x. (x.0.now, x.1.now)) result (next_at w bytes.now) }
{
    if w == 1 {
        Some((bytes, &[]))
    } else {
        element_of(bytes)
    }
}

/// The W for the bytes after an element.
pub fn w_after_one(w: u8) -> u8
    ensures { result ≡ w_after w }
{
    if w > 1 { w - 1 } else { w }
}
