//! Spatial layers that a viewer does not want.

ghost use Rattle.std.specs.Prelude.{◌≡◌};
ghost use Rattle.codec_payload_spatial.specs.Spatial.{after_packet, decided, kept_at, nearest_to, place_in};
ghost use Rattle.codec_payload_c.specs.Spatial.{Keeps, TellsPlaceOf, filter_of, info_of, place_of, state_of};

use codec_payload_handle::status;
use codec_payload_spatial::spatial::{SpatialFilter, SpatialPlace, vp9_place};

/// What a packet says of its spatial layer.
#[repr(C)]
#[derive(Drop)]
pub struct SpatialPlaceInfo {
    /// 0 is the lowest layer.
    pub layer: u8,
    /// The packet is the first one of its layer in a picture.
    pub begins: bool,
    /// The packet is the last one of its layer in a picture.
    pub ends: bool,
    /// The layer's frame refers to no picture before it.
    pub intra: bool,
}

/// The state of a filter.
#[repr(C)]
#[derive(Drop)]
pub struct SpatialFilterState {
    /// The extended number of the first packet for which `kept` holds.
    pub since: u64,
    /// The highest extended number that was taken; 0 without one.
    pub highest: u64,
    /// A packet was taken.
    pub has_highest: bool,
    /// The highest layer that the viewer wants.
    pub wanted: u8,
    /// The highest layer that is kept.
    pub kept: u8,
    /// The highest layer that was kept below `since`.
    pub before: u8,
}

/// Returns the place of a packet.
fn place_of(info: &SpatialPlaceInfo) -> SpatialPlace
    ensures { result ≡ place_of info.now }
{
    SpatialPlace {
        layer: info.layer,
        begins: info.begins,
        ends: info.ends,
        intra: info.intra,
    }
}

/// Returns the filter in this state.
fn filter_of(state: &SpatialFilterState) -> SpatialFilter
    ensures { result ≡ filter_of state.now }
{
    SpatialFilter {
        wanted: state.wanted,
        kept: state.kept,
        before: state.before,
        since: state.since,
        highest: if state.has_highest {
            Some(state.highest)
        } else {
            None
        },
    }
}

/// Returns the state of a filter.
fn state_of(filter: &SpatialFilter) -> SpatialFilterState
    ensures { result ≡ state_of filter.now }
{
    let (highest, has_highest) = match filter.highest {
        Some(highest) => (highest, true),
        None => (0, false),
    };
    SpatialFilterState {
        since: filter.since,
        highest,
        has_highest,
        wanted: filter.wanted,
        kept: filter.kept,
        before: filter.before,
    }
}

/// Writes the marker of a packet that is kept, and returns the status.
fn keeps(decided: Option<bool>, marker: &mut bool) -> u32
    ensures { Keeps decided result marker.old marker.new }
{
    match decided {
        Some(marked) => {
            *marker = marked;
            status::OK
        }
        None => status::NONE,
    }
}

/// Reads the place of a payload of VP9.
#[unsafe(no_mangle)]
pub extern "C" fn cpay_vp9_spatial_place(payload: &[u8], place: &mut SpatialPlaceInfo) -> u32
    ensures { TellsPlaceOf (place_in payload.now) result place.old place.new }
{
    let Some(found) = vp9_place(payload) else {
        return status::NONE;
    };
    *place = SpatialPlaceInfo {
        layer: found.layer,
        begins: found.begins,
        ends: found.ends,
        intra: found.intra,
    };
    status::OK
}

/// Takes the next packet of the source, and writes its marker for the viewer if it is kept.
#[unsafe(no_mangle)]
pub extern "C" fn cpay_spatial_filter_take(
    filter: &mut SpatialFilterState,
    number: u16,
    place: &SpatialPlaceInfo,
    marker: &mut bool,
) -> u32
    ensures after { filter.new ≡ state_of (after_packet number (place_of place.now) (filter_of filter.old)) }
    ensures value { Keeps (decided (kept_at (after_packet number (place_of place.now) (filter_of filter.old)) (nearest_to (filter_of filter.old).highest number)) (place_of place.now) marker.old) result marker.old marker.new }
{
    let mut taken = filter_of(filter);
    let decided = taken.take(number, place_of(place), *marker);
    *filter = state_of(&taken);
    keeps(decided, marker)
}

/// Writes the marker of a packet once more, for a request.
#[unsafe(no_mangle)]
pub extern "C" fn cpay_spatial_filter_again(
    filter: &SpatialFilterState,
    number: u16,
    place: &SpatialPlaceInfo,
    marker: &mut bool,
) -> u32
    ensures { Keeps (decided (kept_at (filter_of filter.now) (nearest_to (filter_of filter.now).highest number)) (place_of place.now) marker.old) result marker.old marker.new }
{
    let decided = filter_of(filter).again(number, place_of(place), *marker);
    keeps(decided, marker)
}
