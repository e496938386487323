//! Why bytes are not a frame.

use thiserror::Error;

/// Why bytes are not a frame of their format: the first fault in reading order.
#[derive(Clone, Copy, Debug, PartialEq, Eq, Error)]
pub enum MediaError {
    /// The bytes end before what the format says.
    #[error("media frame truncated")]
    MissingBytes,
    /// A marker, a sync code or a start code is another than the standard's.
    #[error("wrong start code or marker in media frame")]
    WrongMarker,
    /// A field has a value that the standard reserves or forbids.
    #[error("reserved value in media frame")]
    ReservedValue,
    /// A size in the frame does not fit to the bytes that are there, or is larger than the standard allows.
    #[error("inconsistent sizes in media frame")]
    SizesDoNotFit,
}
