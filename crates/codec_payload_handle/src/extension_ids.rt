//! Ids of header extensions, as C gives them.

ghost use Rattle.std.specs.Prelude.{◌≡◌};
ghost use Rattle.codec_payload_handle.specs.Ids.{id_given, ids_given};

use codec_payload_rtp::values::ExtensionIds as Ids;

/// The ids that signalling gave to header extensions (RFC 8285, section 5). 0: no id was agreed on.
#[repr(C)]
#[derive(Clone, Copy)]
pub struct ExtensionIds {
    /// abs-capture-time: 8 bytes, or 16 with the offset of the clock.
    pub abs_capture_time: u8,
    /// The coordination of video orientation (3GPP TS 26.114, section 7.4.5): 1 byte.
    pub video_orientation: u8,
    /// video-content-type: 1 byte.
    pub video_content_type: u8,
    /// video-timing: 13 bytes.
    pub video_timing: u8,
    /// video-layers-allocation: 0 to 255 bytes.
    pub layers_allocation: u8,
    /// The audio level and voice activity (RFC 6464): 1 byte.
    pub audio_level: u8,
}

/// Returns an id, if one was agreed on.
pub fn id_of(id: u8) -> Option<u8>
    ensures { result ≡ id_given id }
{
    if id == 0 { None } else { Some(id) }
}

/// Converts the ids of C.
pub fn ids_of(ids: ExtensionIds) -> Ids
    ensures { result ≡ ids_given ids }
{
    Ids {
        abs_capture_time: id_of(ids.abs_capture_time),
        video_orientation: id_of(ids.video_orientation),
        video_content_type: id_of(ids.video_content_type),
        video_timing: id_of(ids.video_timing),
        layers_allocation: id_of(ids.layers_allocation),
        audio_level: id_of(ids.audio_level),
    }
}
