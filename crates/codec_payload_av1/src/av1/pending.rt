//! AV1: the pending part of an OBU between packets (docs/use/FORMATS.md, "AV1").

ghost use Rattle.std.specs.Prelude.{◌≡◌, ◌≤◌, ℕ, List, [], true, false, Some, length, take, drop, ◌++◌, OnOk, IfOk};
ghost use Rattle.codec_payload_av1.specs.Av1Receiving.{unit_of};

use crate::av1::leb::number_len;
use crate::av1::obu::{has_size_bit, is_kept, obu_of, put_front};
use std::alloc::{AllocError, Global};
use std::marker::Model;
use std::mem::swap;

/// The largest size of earlier bytes in a unit for which these bytes are copied, rather than the OBU after them.
pub const MOST_BEFORE: usize = 64;

/// The beginning of an OBU whose end is still to come. There may be room before it, for the unit's earlier bytes and for the size
/// of the OBU. If they fill that room in the end, they are written there, and the pending bytes are not copied again.
#[derive(Debug, Drop)]
pub struct Pending {
    bytes: Vec<u8>,
    /// How many of the bytes are room.
    room: usize,
}

impl Model for Pending {
    ghost Value = { List ℕ };

    ghost view = { λ p. drop p.room p.bytes.items };

    ghost invariant = { λ p. p.room ≤ length p.bytes.items };
}

impl Pending {
    /// Nothing.
    pub fn new(alloc: Global) -> Self
        ensures { result ≡ [] }
    {
        Pending {
            bytes: Vec::new(alloc),
            room: 0,
        }
    }

    /// The pending bytes.
    pub fn as_slice(&self) -> &[u8]
        ensures { result.now ≡ self.now }
    {
        &self.bytes[self.room..]
    }

    /// Discards the pending bytes.
    pub fn clear(&mut self)
        ensures { self.new ≡ [] }
    {
        self.bytes.clear();
        self.room = 0;
    }

    /// Adds the next bytes of the OBU.
    pub fn extend(&mut self, more: &[u8]) -> Result<(), AllocError>
        ensures { OnOk result (self.new ≡ self.old ++ more.now) }
    {
        self.bytes.extend_from_slice(more)
    }

    /// Appends the next bytes of an OBU, or its first ones, which will follow `out`.
    pub fn extend_behind(&mut self, out: &Vec<u8>, more: &[u8]) -> Result<(), AllocError>
        ensures { OnOk result (self.new ≡ self.old ++ more.now) }
    {
        if self.as_slice().is_empty() {
            self.leave_room(out)?;
        }
        self.extend(more)
    }

    /// Leaves room for the contents of `out`, if they are few, and for the size of an OBU that takes all free memory of `out`. The
    /// pending part then has as much memory as `out`; a smaller one is not grown, which would copy its old contents.
    fn leave_room(&mut self, out: &Vec<u8>) -> Result<(), AllocError>
        ensures { OnOk result (self.new ≡ []) }
    {
        self.room = 0;
        self.bytes.clear();
        if out.len() <= MOST_BEFORE {
            let free = out.capacity() - out.len();
            let room = out.len() + number_len(free as u64);
            if self.bytes.capacity() < out.capacity() {
                self.bytes = Vec::with_capacity(*out.allocator(), out.capacity())?;
            }
            self.bytes.resize(room, 0)?;
            self.room = room;
        }
        Ok(())
    }

    /// Appends the unit of the pending OBU that ends in these bytes, if it has no size field; then nothing is pending. Otherwise
    /// nothing changes. If the OBU takes most of the room of `out`, and the bytes before its payload fill the room before the
    /// pending bytes, the pending memory becomes `out`.
    pub fn complete(&mut self, out: &mut Vec<u8>, end: &[u8]) -> Result<bool, AllocError>
        ensures added { IfOk result (λ is_whole. is_whole ≡ true → (added : List ℕ) × (unit_of (self.old ++ end.now) ≡ Some added) × (out.new.items ≡ out.old.items ++ added) × (self.new ≡ [])) }
        ensures same { IfOk result (λ is_whole. is_whole ≡ false → (out.new.items ≡ out.old.items) × (self.new ≡ self.old)) }
        ensures kept { take (length out.old.items) out.new.items ≡ out.old.items }
    {
        let Some((begun, _)) = obu_of(self.as_slice()) else {
            return Ok(false);
        };
        if has_size_bit(begun.header) {
            return Ok(false);
        }
        if is_kept(begun.header) {
            let size = begun.payload.len() as u64 + end.len() as u64;
            put_front(out, begun.header, begun.extension, size)?;
            let is_most = size > out.capacity() as u64 / 2;
            if is_most && begun.payload.len() + out.len() == self.bytes.len() {
                self.bytes.extend_from_slice(end)?;
                self.room = 0;
                swap_behind(&mut self.bytes, out);
            } else {
                out.extend_from_slice(begun.payload)?;
                out.extend_from_slice(end)?;
            }
        }
        self.clear();
        Ok(true)
    }
}

/// Writes over the front.
fn write_over(to: &mut [u8], front: &[u8])
    requires { length front.now ≤ length to.old }
    ensures { to.new ≡ front.now ++ drop (length front.now) to.old }
{
    to[..front.len()].copy_from_slice(front);
}

/// Moves the bytes of `bytes` from position `out.len()` on to the end of `out`, by a swap of both.
fn swap_behind(bytes: &mut Vec<u8>, out: &mut Vec<u8>)
    requires { length out.old.items ≤ length bytes.old.items }
    ensures { out.new.items ≡ out.old.items ++ drop (length out.old.items) bytes.old.items }
{
    write_over(bytes, out);
    swap(bytes, out);
}
