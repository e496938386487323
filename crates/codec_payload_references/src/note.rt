//! What a packet says of the frame that it begins.

ghost use Rattle.std.specs.Prelude.{◌≡◌, IfOk, option_map};
ghost use Rattle.codec_payload_references.specs.FrameNotes.{descriptor_if, note_of, starts_frame};

use crate::layer_frame::LayerFrame;
use std::alloc::{AllocError, Global};
use std::marker::Model;

/// start_of_frame of the first byte of a dependency descriptor.
const START_OF_FRAME: u8 = 0x80;

/// What a packet says of the frame that it begins: by its dependency descriptor, and by its payload descriptor of VP9.
#[derive(Debug, Drop)]
pub struct FrameNote {
    descriptor: Option<Vec<u8>>,
    layer_frame: Option<LayerFrame>,
}

impl Model for FrameNote {
    ghost use Rattle.std.specs.Prelude.{option_map};
    ghost use Rattle.codec_payload_references.specs.FrameNotes.{Note};

    ghost Value = { Note };

    ghost view = { λ s. record { descriptor = option_map (λ v. v.items) s.descriptor; layer_frame = s.layer_frame } };
}

/// Whether a dependency descriptor is that of the first packet of a frame.
fn starts_frame(descriptor: &[u8]) -> bool
    ensures { result ≡ starts_frame descriptor.now }
{
    match descriptor.first() {
        Some(&flags) => flags & START_OF_FRAME != 0,
        None => false,
    }
}

/// The bytes of a dependency descriptor, if it is that of the first packet of a frame.
fn descriptor_if(alloc: Global, descriptor: Option<&[u8]>) -> Result<Option<Vec<u8>>, AllocError>
    ensures { IfOk result (λ d. option_map (λ v. v.items) d ≡ descriptor_if (option_map (λ bytes. bytes.now) descriptor.entry)) }
{
    let Some(bytes) = descriptor else {
        return Ok(None);
    };
    if !starts_frame(bytes) {
        return Ok(None);
    }
    Ok(Some(Vec::from_slice(alloc, bytes)?))
}

impl FrameNote {
    /// Returns what a packet says of the frame that it begins. `payload`: its payload, of VP9 if `is_vp9`. `descriptor`: the bytes of
    /// its dependency descriptor, if it has one. `None`: it begins no frame by its descriptor, and no layer frame of VP9 in the
    /// flexible mode.
    ///
    /// Allocates for the bytes of a descriptor that begins a frame, and else not.
    ///
    /// # Errors
    ///
    /// `AllocError`: out of memory.
    pub fn of(
        alloc: Global,
        is_vp9: bool,
        payload: &[u8],
        descriptor: Option<&[u8]>,
    ) -> Result<Option<FrameNote>, AllocError>
        ensures { IfOk result (λ note. note ≡ note_of is_vp9 payload.now (option_map (λ bytes. bytes.now) descriptor.entry)) }
    {
        let layer_frame = if is_vp9 {
            LayerFrame::of(payload)
        } else {
            None
        };
        let descriptor = descriptor_if(alloc, descriptor)?;
        if layer_frame.is_none() && descriptor.is_none() {
            return Ok(None);
        }
        Ok(Some(FrameNote {
            descriptor,
            layer_frame,
        }))
    }

    /// The bytes of its dependency descriptor.
    pub fn descriptor(&self) -> Option<&[u8]>
        ensures { option_map (λ bytes. bytes.now) result ≡ self.now.descriptor }
    {
        match &self.descriptor {
            Some(bytes) => Some(bytes.as_slice()),
            None => None,
        }
    }

    /// The layer frame of VP9 that it begins.
    pub fn layer_frame(&self) -> Option<LayerFrame>
        ensures { result ≡ self.now.layer_frame }
    {
        self.layer_frame
    }
}
