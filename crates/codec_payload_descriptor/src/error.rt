//! Why bytes are not a dependency descriptor.

ghost use Rattle.std.specs.Prelude.{◌≡◌};
ghost use Rattle.codec_payload_descriptor.specs.declared.error.DescriptorError.TheVariants.{Fault};

use thiserror::Error;

/// Why bytes are not a dependency descriptor: the first fault in reading order.
#[derive(Clone, Copy, Debug, PartialEq, Eq, Error)]
pub enum DescriptorFault {
    /// The bytes end inside a field.
    #[error("dependency descriptor truncated")]
    Short,
    /// The descriptor has no structure, and none came before.
    #[error("dependency descriptor without a template structure")]
    NoStructure,
    /// The structure does not have the template that the descriptor names.
    #[error("dependency descriptor names a template that its structure lacks")]
    Template,
    /// The structure has more than 64 templates, a spatial id above 3, or a temporal id above 7.
    #[error("template structure with too many templates or layers")]
    Layers,
    /// A template or a frame has more than 16 references.
    #[error("dependency descriptor with more than 16 references")]
    References,
}

/// Why a dependency descriptor was not read.
#[derive(Clone, Copy, Debug, PartialEq, Eq, Error)]
pub enum DescriptorError {
    #[error("out of memory")]
    OutOfMemory,
    /// The bytes are not a dependency descriptor that can be read.
    #[error("{0}")]
    Fault(DescriptorFault),
}

impl From<DescriptorFault> for DescriptorError {
    ghost from_gives = { λ fault e. e ≡ Fault fault };

    fn from(fault: DescriptorFault) -> DescriptorError {
        DescriptorError::Fault(fault)
    }
}
