//! Upper spatial layers are left out: between pictures, and with the marker on the last packet of the highest layer that is kept.

ghost use Rattle.std.specs.Prelude.{◌≡◌, ◌<◌, ◌≤◌, Some, None, false, true};
ghost use Rattle.codec_payload_base.specs.Flags.{has_bit};
ghost use Rattle.codec_payload_spatial.specs.Spatial.{after_packet, begins_picture, changed, decided, kept_at, new_filter, nearest_to, place_behind, place_in};

use codec_payload_layers::layers::behind_id;

/// What a packet says of the spatial layer that it belongs to. For VP9 [`vp9_place`] reads it. For AV1 take it from the dependency
/// descriptor: `layer.spatial_id`, `start_of_frame`, `end_of_frame`, and whether there are no `references`.
#[derive(Clone, Copy, Debug, PartialEq, Eq)]
pub struct SpatialPlace {
    /// The spatial layer, 0 to 7; 0 is the lowest.
    pub layer: u8,
    /// The packet is the first one of its layer in a picture.
    pub begins: bool,
    /// The packet is the last one of its layer in a picture.
    pub ends: bool,
    /// The layer's frame refers to no picture before it.
    pub intra: bool,
}

/// Returns the place that a payload descriptor names, whose octet of layers, if it has one, is the first of these.
fn place_of(flags: u8, layers: Option<u8>) -> Option<SpatialPlace>
    ensures { result ≡ place_behind (has_bit flags 5) flags layers }
{
    let layer = if flags & 0x20 == 0 {
        0
    } else {
        layers? / 2 % 8
    };
    Some(SpatialPlace {
        layer,
        begins: flags & 0x08 != 0,
        ends: flags & 0x04 != 0,
        intra: flags & 0x40 == 0,
    })
}

/// Reads the place of a payload of VP9 (RFC 9628, section 4.2): SID, B, E, and whether P is clear. Without layers (L is clear) the layer
/// is 0. `None`: the payload is empty, or ends before SID. Does not allocate.
pub fn vp9_place(payload: &[u8]) -> Option<SpatialPlace>
    ensures { result ≡ place_in payload.now }
{
    let (&flags, behind) = payload.split_first()?;
    place_of(flags, behind_id(flags, behind).first().copied())
}

/// Returns the number nearest to the highest one with these low 16 bits.
fn nearest_to(highest: Option<u64>, number: u16) -> u64
    ensures { result ≡ nearest_to highest number }
{
    let Some(highest) = highest else {
        return u64::from(number);
    };
    let ahead = (u64::from(number) + 65_536 - highest % 65_536) % 65_536;
    if ahead <= 32_768 {
        highest.wrapping_add(ahead)
    } else {
        highest.wrapping_sub(65_536 - ahead)
    }
}

/// Returns whether a packet is the first one of a picture.
fn begins_picture(place: SpatialPlace) -> bool
    ensures { result ≡ begins_picture place }
{
    place.begins && place.layer == 0
}

/// Returns what a packet becomes if the layers up to `kept` are kept.
fn decided(kept: u8, place: SpatialPlace, marker: bool) -> Option<bool>
    ensures { result ≡ decided kept place marker }
{
    if place.layer > kept {
        return None;
    }
    Some(marker || (place.ends && place.layer == kept))
}

/// Chooses the packets of a viewer that does not want the upper spatial layers of a stream.
///
/// Pass each packet of the source that arrived to [`SpatialFilter::take`], once, and forward it with the marker that this returns, or
/// leave it out: the layers above the kept one are left out. A fall of [`SpatialFilter::want`] takes effect with the next picture, a
/// rise with the next picture whose lowest layer is intra, since other pictures of a higher layer need those before them. So request a
/// keyframe after a rise.
///
/// A filter begins with the lowest layer. It takes 32 bytes, and does not allocate. Its fields are its whole state: make it by
/// [`SpatialFilter::new`], and change it by calls alone.
#[derive(Clone, Copy, Debug, PartialEq, Eq)]
pub struct SpatialFilter {
    /// The highest layer that the viewer wants.
    pub wanted: u8,
    /// The highest layer that is kept.
    pub kept: u8,
    /// The highest layer that was kept below the number `since`.
    pub before: u8,
    /// The extended number of the first packet for which `kept` holds.
    pub since: u64,
    /// The highest extended number that was taken. `None`: no packet was taken.
    pub highest: Option<u64>,
}

impl SpatialFilter {
    /// Returns a filter for a new source: it keeps the lowest layer, and `wanted` and the layers below it from the next intra picture on.
    pub fn new(wanted: u8) -> SpatialFilter
        ensures { result ≡ new_filter wanted }
    {
        SpatialFilter {
            wanted,
            kept: 0,
            before: 0,
            since: 0,
            highest: None,
        }
    }

    /// Sets the highest spatial layer that the viewer wants.
    pub fn want(&mut self, layer: u8)
        ensures { self.new ≡ record self.old { wanted = layer } }
    {
        self.wanted = layer;
    }

    /// Returns the highest layer that is kept now. Below the layer of [`SpatialFilter::want`] the filter waits for a keyframe.
    pub fn kept(&self) -> u8
        ensures { result ≡ self.now.kept }
    {
        self.kept
    }

    /// Takes the next packet of the source: its sequence number, its place, and its marker. Returns the marker of the packet for the
    /// viewer, or `None`: leave the packet out.
    ///
    /// The marker is set on the last packet of the highest layer that is kept. It also stays where it is, so that a picture with fewer
    /// layers ends. Packets may come in any order, less than 32,768 numbers from the highest one. A picture whose first packet comes
    /// behind packets with higher numbers changes no layer.
    pub fn take(&mut self, number: u16, place: SpatialPlace, marker: bool) -> Option<bool>
        ensures after { self.new ≡ after_packet number place self.old }
        ensures value { result ≡ decided (kept_at self.new (nearest_to self.old.highest number)) place marker }
        ensures rises { self.old.kept < self.new.kept → (begins_picture place ≡ true) × (place.intra ≡ true) × (self.new.kept ≡ self.old.wanted) }
    {
        let number = nearest_to(self.highest, number);
        self.note(number, place);
        decided(self.kept_at(number), place, marker)
    }

    /// Returns what [`SpatialFilter::take`] returned for a packet, to write it once more for a request. Of the changes between layers
    /// the filter knows the latest one: packets before the one in front of it count as those behind that one.
    pub fn again(&self, number: u16, place: SpatialPlace, marker: bool) -> Option<bool>
        ensures { result ≡ decided (kept_at self.now (nearest_to self.now.highest number)) place marker }
    {
        decided(
            self.kept_at(nearest_to(self.highest, number)),
            place,
            marker,
        )
    }

    /// Returns the highest layer that is kept of the picture to which the packet with this number belongs.
    fn kept_at(&self, number: u64) -> u8
        ensures { result ≡ kept_at self.now number }
    {
        if number < self.since {
            self.before
        } else {
            self.kept
        }
    }

    /// Notes a packet that may begin a picture.
    fn note(&mut self, number: u64, place: SpatialPlace)
        ensures { self.new ≡ changed number place self.old }
    {
        if self.highest.is_some_and(|highest| number < highest) {
            return;
        }
        self.highest = Some(number);
        if !begins_picture(place) {
            return;
        }
        let kept = if place.intra {
            self.wanted
        } else {
            self.kept.min(self.wanted)
        };
        if kept != self.kept {
            self.before = self.kept;
            self.kept = kept;
            self.since = number;
        }
    }
}
