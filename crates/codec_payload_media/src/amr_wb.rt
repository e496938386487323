//! AMR-WB: frames in their storage form, one channel (RFC 4867, section 5.3; docs/use/FORMATS.md, "What a frame says").

ghost use Rattle.std.specs.Prelude.{◌≡◌, ◌<◌};
ghost use Rattle.codec_payload_media.specs.AmrWbFrames.{frame_at, frame_of, frames_left, speech_length, told_frame, unit_ticks, with_speech};
ghost use Rattle.codec_payload_media.specs.Items.{count_of, items_at};
ghost use Rattle.codec_payload_vpx.specs.Reading.{told};

use codec_payload_vpx::error::MediaError;
use std::marker::Model;

/// How long a frame is, 20 ms, in ticks of the RTP clock of 16 kHz.
pub const AMR_WB_FRAME_TICKS: u64 = 320;

/// A frame.
#[derive(Clone, Copy, Debug, PartialEq, Eq)]
pub struct AmrWbFrame<'a> {
    /// The type: 0 to 8 a mode of speech, 9 comfort noise, 14 a lost frame, 15 no data.
    pub frame_type: u8,
    /// Whether the frame is not damaged.
    pub quality: bool,
    /// The speech bits in whole bytes, as many as the type has: 17, 23, 32, 36, 40, 46, 50, 58, 60 or 5 bytes of the types 0
    /// to 9, none of 14 and 15.
    pub speech: &'a [u8],
}

/// How many bytes of speech a type has; `None` for a reserved one.
fn speech_length(frame_type: u8) -> Option<usize>
    requires { frame_type < 16 }
    ensures { result ≡ speech_length frame_type }
{
    let length = match frame_type {
        0 => 17,
        1 => 23,
        2 => 32,
        3 => 36,
        4 => 40,
        5 => 46,
        6 => 50,
        7 => 58,
        8 => 60,
        9 => 5,
        _ => 0,
    };
    if (10..14).contains(&frame_type) {
        None
    } else {
        Some(length)
    }
}

/// The frame at the front, and the bytes after it. The errors are those of [`AmrWbFrames`]; `MissingBytes` for an empty slice. Does
/// not allocate.
pub fn front_frame(bytes: &[u8]) -> Result<(AmrWbFrame<'_>, &[u8]), MediaError>
    ensures { told (λ x. (frame_of x.0, x.1.now)) result ≡ frame_at bytes.now }
{
    let [byte, rest @ ..] = bytes else {
        return Err(MediaError::MissingBytes);
    };
    let frame_type = byte / 8 % 16;
    let Some(length) = speech_length(frame_type) else {
        return Err(MediaError::ReservedValue);
    };
    if rest.len() < length {
        return Err(MediaError::MissingBytes);
    }
    let (speech, rest) = rest.split_at(length);
    let frame = AmrWbFrame {
        frame_type,
        quality: byte / 4 % 2 == 1,
        speech,
    };
    Ok((frame, rest))
}

/// The frames of a unit, in order, up to the first malformed one, whose fault is returned. No step allocates.
///
/// `ReservedValue`: the type is 10 to 13. `MissingBytes`: the speech is cut off.
#[derive(Debug, Drop)]
pub struct AmrWbFrames<'a> {
    bytes: &'a [u8],
}

impl<'a> Model for AmrWbFrames<'a> {
    ghost use Rattle.codec_payload_media.specs.AmrWbFrames.{Left};

    ghost Value = { Left };

    ghost view = { λ s. record { bytes = s.bytes.now } };
}

impl<'a> AmrWbFrames<'a> {
    /// The frames in these bytes.
    pub fn new(unit: &'a [u8]) -> AmrWbFrames<'a>
        ensures { result ≡ record { bytes = unit.now } }
    {
        AmrWbFrames { bytes: unit }
    }
}

impl<'a> Iterator for AmrWbFrames<'a> {
    ghost use Rattle.std.specs.Iterator.{YieldsFirstBy, item_count};

    type Item = Result<AmrWbFrame<'a>, MediaError>;

    ghost next_gives = { YieldsFirstBy told_frame frames_left };

    ghost remaining = { item_count frames_left };

    fn next(&mut self) -> Option<Result<AmrWbFrame<'a>, MediaError>> {
        if self.bytes.is_empty() {
            return None;
        }
        match front_frame(self.bytes) {
            Ok((frame, rest)) => {
                self.bytes = rest;
                Some(Ok(frame))
            }
            Err(fault) => {
                self.bytes = &[];
                Some(Err(fault))
            }
        }
    }
}

/// How many frames a unit has.
fn frame_count(unit: &[u8]) -> Result<usize, MediaError>
    ensures { result ≡ count_of (items_at frame_at unit.now) }
{
    let mut rest = unit;
    let mut count = 0;
    while !rest.is_empty() {
        match front_frame(rest) {
            Ok((_, others)) => rest = others,
            Err(fault) => return Err(fault),
        }
        count += 1;
    }
    Ok(count)
}

/// The duration of a unit, 20 ms for each frame, in ticks of the RTP clock of 16 kHz. The error is the fault of the first malformed
/// frame (see [`AmrWbFrames`]). Does not allocate.
pub fn amr_wb_ticks(unit: &[u8]) -> Result<u64, MediaError>
    ensures { result ≡ unit_ticks unit.now }
{
    let count = frame_count(unit)?;
    Ok((count as u64).saturating_mul(AMR_WB_FRAME_TICKS))
}
