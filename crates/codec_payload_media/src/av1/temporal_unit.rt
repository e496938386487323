//! AV1: reads a temporal unit up to its first frame header (sections 5.3, 5.9.2 and 7.5; docs/use/FORMATS.md, "What a frame says").

ghost use Rattle.std.specs.Prelude.{◌≡◌};
ghost use Rattle.codec_payload_base.specs.Bits.{bits_of};
ghost use Rattle.codec_payload_media.specs.Av1TemporalUnits.{begins_sequence, empty_unit, existing_frame, frame_start, is_reduced, is_shown_keyframe, long_start, new_frame, still_frame, temporal_layer, unit_at, with_frame, with_header, with_obu};
ghost use Rattle.codec_payload_media.specs.Av1Units.{obu_of};
ghost use Rattle.codec_payload_syntax.specs.FieldReaders.{left};
ghost use Rattle.codec_payload_syntax.specs.Syntax.{paired};
ghost use Rattle.codec_payload_vpx.specs.Syntax.{read, value_of};

use crate::av1::obu::{Av1Extension, Av1Obu, OBU_SEQUENCE_HEADER, front_obu};
use crate::av1::sequence_header::Av1SequenceHeader;
use codec_payload_syntax::reader::FieldReader;
use codec_payload_vpx::error::MediaError;
use codec_payload_vpx::fields::{read_field, read_flag};

/// The type of a frame header.
pub const OBU_FRAME_HEADER: u8 = 3;

/// The type of a frame: a frame header and tiles.
pub const OBU_FRAME: u8 = 6;

/// How a frame header begins.
#[derive(Clone, Copy, Debug, PartialEq, Eq)]
pub struct Av1FrameStart {
    /// Whether it shows a frame that was decoded before. The header does not say the type of that frame.
    pub existing: bool,
    /// Whether it is a new keyframe.
    pub keyframe: bool,
    /// Whether the frame is shown, now and not later by another header.
    pub shown: bool,
    /// The temporal layer, 0 to 7; 0 if the OBU has no extension.
    pub temporal_id: u8,
}

impl Av1FrameStart {
    /// A frame that was decoded before.
    fn existing(temporal_id: u8) -> Av1FrameStart
        ensures { result ≡ existing_frame temporal_id }
    {
        Av1FrameStart {
            existing: true,
            keyframe: false,
            shown: true,
            temporal_id,
        }
    }

    /// The one frame of a stream with a short sequence header.
    fn still(temporal_id: u8) -> Av1FrameStart
        ensures { result ≡ still_frame temporal_id }
    {
        Av1FrameStart {
            existing: false,
            keyframe: true,
            shown: true,
            temporal_id,
        }
    }

    /// A new frame.
    fn read_new(reader: &mut FieldReader<'_>, temporal_id: u8) -> Result<Av1FrameStart, MediaError>
        ensures { paired result (left reader.new) ≡ read (new_frame temporal_id) (left reader.old) }
    {
        let kind = read_field(reader, 2)?;
        let shown = read_flag(reader)?;
        Ok(Av1FrameStart {
            existing: false,
            keyframe: kind == 0,
            shown,
            temporal_id,
        })
    }

    /// The front of a frame header.
    fn read_long(reader: &mut FieldReader<'_>, temporal_id: u8) -> Result<Av1FrameStart, MediaError>
        ensures { paired result (left reader.new) ≡ read (long_start temporal_id) (left reader.old) }
    {
        if read_flag(reader)? {
            return Ok(Av1FrameStart::existing(temporal_id));
        }
        Av1FrameStart::read_new(reader, temporal_id)
    }

    /// The front of a frame header, which a short sequence header leaves out.
    fn parse(payload: &[u8], reduced: bool, temporal_id: u8) -> Result<Av1FrameStart, MediaError>
        ensures { result ≡ value_of (frame_start reduced temporal_id) (bits_of payload.now) }
    {
        if reduced {
            return Ok(Av1FrameStart::still(temporal_id));
        }
        let mut reader = FieldReader::new(payload);
        Av1FrameStart::read_long(&mut reader, temporal_id)
    }

    /// Whether it is a keyframe that is shown at once.
    pub fn is_shown_keyframe(&self) -> bool
        ensures { result ≡ is_shown_keyframe self.now }
    {
        self.keyframe && self.shown && !self.existing
    }
}

/// The temporal layer in an extension.
fn temporal_layer(extension: Option<Av1Extension>) -> u8
    ensures { result ≡ temporal_layer extension }
{
    match extension {
        None => 0,
        Some(extension) => extension.temporal_id,
    }
}

/// The facts about a temporal unit up to its first frame header.
#[derive(Clone, Copy, Debug, PartialEq, Eq)]
pub struct Av1TemporalUnit {
    /// The last sequence header before the first frame header, if there is one.
    pub sequence_header: Option<Av1SequenceHeader>,
    /// How the first frame header begins, if there is one.
    pub frame: Option<Av1FrameStart>,
}

impl Av1TemporalUnit {
    /// A unit without OBUs.
    fn empty() -> Av1TemporalUnit
        ensures { result ≡ empty_unit }
    {
        Av1TemporalUnit {
            sequence_header: None,
            frame: None,
        }
    }

    /// Whether its sequence header is of the short form.
    fn is_reduced(&self) -> bool
        ensures { result ≡ is_reduced self.now.sequence_header }
    {
        match self.sequence_header {
            None => false,
            Some(header) => header.reduced,
        }
    }

    /// The facts with one more OBU.
    fn with(self, obu: &Av1Obu<'_>) -> Result<Av1TemporalUnit, MediaError>
        ensures { result ≡ with_obu self (obu_of obu.now) }
    {
        if obu.obu_type == OBU_SEQUENCE_HEADER {
            let header = Av1SequenceHeader::parse(obu.payload)?;
            return Ok(Av1TemporalUnit {
                sequence_header: Some(header),
                frame: self.frame,
            });
        }
        if obu.obu_type != OBU_FRAME_HEADER && obu.obu_type != OBU_FRAME {
            return Ok(self);
        }
        let layer = temporal_layer(obu.extension);
        let start = Av1FrameStart::parse(obu.payload, self.is_reduced(), layer)?;
        Ok(Av1TemporalUnit {
            sequence_header: self.sequence_header,
            frame: Some(start),
        })
    }

    /// Reads a temporal unit up to its first frame header. The first fault is that of [`Av1Obus`] or of
    /// [`Av1SequenceHeader::parse`], or `MissingBytes` if a frame header is empty. Bytes after the front of the first frame header
    /// are ignored. Does not allocate.
    ///
    /// [`Av1Obus`]: crate::av1::obu::Av1Obus
    pub fn parse(unit: &[u8]) -> Result<Av1TemporalUnit, MediaError>
        ensures { result ≡ unit_at unit.now }
    {
        let mut rest = unit;
        let mut told = Av1TemporalUnit::empty();
        while !rest.is_empty() {
            let (obu, behind) = front_obu(rest)?;
            told = told.with(&obu)?;
            if told.frame.is_some() {
                return Ok(told);
            }
            rest = behind;
        }
        Ok(told)
    }

    /// Whether a coded video sequence starts with this unit (section 7.5), so that decoding can start here: a sequence header
    /// precedes its first frame header, and that frame is a keyframe of temporal layer 0 that is shown at once.
    pub fn begins_sequence(&self) -> bool
        ensures { result ≡ begins_sequence self.now.sequence_header self.now.frame }
    {
        match self.frame {
            Some(frame) => {
                self.sequence_header.is_some()
                    && frame.is_shown_keyframe()
                    && frame.temporal_id == 0
            }
            None => false,
        }
    }
}
