//! Types of media.

ghost use Rattle.std.specs.Prelude.{◌≡◌, ◌↔◌, IsTrue};
ghost use Rattle.codec_payload_base.specs.Media.{kind_of};

use std::fmt;

/// What a media line of a session description carries.
#[derive(Clone, Copy, Debug, PartialEq, Eq)]
pub enum MediaType {
    Audio,
    Video,
    Application,
    Unknown,
}

/// The media type of a stream.
#[derive(Clone, Copy, Debug, PartialEq, Eq, Hash)]
pub enum MediaKind {
    Audio,
    Video,
}

impl MediaKind {
    /// The media kind of this media type; `None` if it is neither audio nor video.
    pub fn from_media_type(media_type: MediaType) -> Option<MediaKind>
        ensures { result ≡ kind_of media_type }
    {
        match media_type {
            MediaType::Audio => Some(MediaKind::Audio),
            MediaType::Video => Some(MediaKind::Video),
            MediaType::Application | MediaType::Unknown => None,
        }
    }

    /// Whether it is audio.
    pub fn is_audio(&self) -> bool
        ensures { IsTrue result ↔ (self.now ≡ MediaKind.Audio) }
    {
        *self == MediaKind::Audio
    }

    /// Whether it is video.
    pub fn is_video(&self) -> bool
        ensures { IsTrue result ↔ (self.now ≡ MediaKind.Video) }
    {
        *self == MediaKind::Video
    }
}

/// Writes `audio` or `video`.
impl fmt::Display for MediaKind {
    ghost use Rattle.std.specs.Prelude.{Some};
    ghost use Rattle.codec_payload_base.specs.Media.{name_of};

    ghost output = { λ kind. Some (name_of kind) };

    fn fmt<W: fmt::Write>(&self, f: &mut fmt::Formatter<W>) -> fmt::Result {
        match self {
            MediaKind::Audio => f.write_str("audio"),
            MediaKind::Video => f.write_str("video"),
        }
    }
}
