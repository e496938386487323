//! The packets of a frame, in order of their numbers.

ghost use Rattle.std.specs.Prelude.{◌≡◌, ◌<◌, ◌≤◌, IfOk, OnErr, OnOk, length, map, vec_capacity, vec_len};
ghost use Rattle.std.specs.List.{insert};
ghost use Rattle.codec_payload_fec.specs.Strings.{number_of};
ghost use Rattle.codec_payload_fec.specs.Writing.{lists_of};
ghost use Rattle.codec_payload_sending_fec.specs.Senders.{is_before, place_in, with_packet};

use std::alloc::{AllocError, Global};

/// Returns whether a number is before another one.
fn is_before(number: u16, other: u16) -> bool
    ensures { result ≡ is_before number other }
{
    number.wrapping_sub(other).wrapping_add(32_768) < 32_768
}

/// Returns the sequence number of a packet; 0 for fewer than 4 bytes.
#[tactic(auto, unfolding(codec_payload_fec::specs::Strings::number_of))]
fn number_of(packet: &[u8]) -> u16
    ensures { result ≡ number_of packet.now }
{
    let [_b0, _b1, n1, n0, ..] = packet else {
        return 0;
    };
    u16::from_be_bytes([*n1, *n0])
}

/// Returns the place of a packet with this number: behind the last one that is not behind it.
fn place_in(number: u16, frame: &[Vec<u8>]) -> usize
    ensures value { result ≡ place_in number (length frame.now) (map (λ p. p.items) frame.now) }
    ensures within { result ≤ length frame.now }
{
    let mut place = frame.len();
    while place > 0 {
        if !is_before(number, number_of(&frame[place - 1])) {
            return place;
        }
        place -= 1;
    }
    0
}

/// Inserts a packet at a place. There is room for it.
fn insert_at(frame: &mut Vec<Vec<u8>>, place: usize, packet: Vec<u8>)
    requires place { place ≤ length frame.old.items }
    requires room { vec_len frame.old < vec_capacity frame.old }
    ensures { frame.new.items ≡ insert frame.old.items place packet }
{
    frame.insert(place, packet).unwrap();
}

/// Puts a packet into its place.
///
/// # Errors
///
/// Out of memory: nothing changes.
pub(crate) fn hold(frame: &mut Vec<Vec<u8>>, packet: Vec<u8>) -> Result<(), AllocError>
    ensures ok { OnOk result (map (λ p. p.items) frame.new.items ≡ with_packet packet.items (map (λ p. p.items) frame.old.items)) }
    ensures err { OnErr result (frame.new.items ≡ frame.old.items) }
{
    frame.reserve(1)?;
    let place = place_in(number_of(packet.as_slice()), frame.as_slice());
    insert_at(frame, place, packet);
    Ok(())
}

/// Returns the packets as slices.
pub(crate) fn slices(alloc: Global, frame: &[Vec<u8>]) -> Result<Vec<&[u8]>, AllocError>
    ensures { IfOk result (λ v. lists_of v.items ≡ map (λ p. p.items) frame.now) }
{
    let mut slices = Vec::with_capacity(alloc, frame.len())?;
    for place in 0..frame.len() {
        slices.push(frame[place].as_slice())?;
    }
    Ok(slices)
}
