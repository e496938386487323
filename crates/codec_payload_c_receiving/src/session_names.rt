//! The names of the streams of a session: MID, RID and repaired RID.

ghost use Rattle.std.specs.Prelude.{◌≡◌, ◌≢◌};
ghost use Rattle.codec_payload_c_receiving.specs.SessionNames.{TellsNames, name_len, name_told, names_given, names_info, names_told_by};

use codec_payload_handle::extension_ids::id_of;
use codec_payload_handle::object::PortSession;
use codec_payload_handle::status;
use codec_payload_session_formats::names::{
    StreamName, StreamNameIds as Ids, StreamNames as Names,
};

/// The ids of the header extensions with names of streams. 0: no id was agreed on.
#[repr(C)]
#[derive(Clone, Copy)]
pub struct StreamNameIds {
    pub mid: u8,
    pub rid: u8,
    pub repaired_rid: u8,
}

/// The names of a stream, each with zeros after its bytes.
#[repr(C)]
#[derive(Clone, Copy)]
pub struct StreamNames {
    pub mid: [u8; 32],
    pub rid: [u8; 32],
    pub repaired_rid: [u8; 32],
    /// How many bytes the MID has. 0: no packet had one.
    pub mid_len: u8,
    pub rid_len: u8,
    pub repaired_rid_len: u8,
}

/// Converts the ids of C.
pub(crate) fn name_ids_of(ids: StreamNameIds) -> Ids
    ensures { result ≡ names_given ids }
{
    Ids {
        mid: id_of(ids.mid),
        rid: id_of(ids.rid),
        repaired_rid: id_of(ids.repaired_rid),
    }
}

/// Returns the number of bytes of a name, and the bytes with zeros after them.
fn name_told(name: &Option<StreamName>) -> (u8, [u8; 32])
    ensures len { result.0 ≡ name_len name.now }
    ensures bytes { result.1 ≡ name_told name.now }
{
    let mut padded = [0; 32];
    let Some(name) = name else {
        return (0, padded);
    };
    let bytes = name.as_bytes();
    padded[..bytes.len()].copy_from_slice(bytes);
    (bytes.len() as u8, padded)
}

/// Returns the fields of the names.
fn names_info(names: Names) -> StreamNames
    ensures { result ≡ names_info names }
{
    let (mid_len, mid) = name_told(&names.mid);
    let (rid_len, rid) = name_told(&names.rid);
    let (repaired_rid_len, repaired_rid) = name_told(&names.repaired_rid);
    StreamNames {
        mid,
        rid,
        repaired_rid,
        mid_len,
        rid_len,
        repaired_rid_len,
    }
}

/// Writes the names of a stream.
pub fn names_of(port: &PortSession, ssrc: u32, payload_type: u8, names: &mut StreamNames) -> u32
    ensures tells { TellsNames (names_told_by ssrc payload_type port.now) result names.old names.new }
    ensures unchanged { result ≢ 0 → names.new ≡ names.old }
{
    match port.session.names_of(ssrc, payload_type) {
        Some(told) => {
            *names = names_info(told);
            status::OK
        }
        None => status::NONE,
    }
}
