//! The dependency descriptor of a frame (AV1 RTP specification, appendix A.8.2), and the state that a stream of them needs.

ghost use Rattle.std.specs.Prelude.{◌≡◌, ◌≢◌, ◌≤◌, IfOk, OnErr, Option, None, Ok, Err, true};
ghost use Rattle.std.specs.Option.{option_map};
ghost use Rattle.codec_payload_base.specs.Bits.{bits_of};
ghost use Rattle.codec_payload_syntax.specs.FieldReaders.{left};
ghost use Rattle.codec_payload_descriptor.specs.declared.dependency.DependencyDescriptor.{DependencyDescriptor};
ghost use Rattle.codec_payload_descriptor.specs.declared.error.DescriptorError.TheVariants.{OutOfMemory};
ghost use Rattle.codec_payload_descriptor.specs.Descriptors.{HasStructure, active_targets, descriptor, descriptor_in, descriptor_of, flags_if, frame, header, own_or, stream_read, structure_flag, structure_if, with_structure};
ghost use Rattle.codec_payload_descriptor.specs.Structures.{Structure, references};
ghost use Rattle.codec_payload_syntax.specs.Syntax.{IsSpelled, field, paired, times};
ghost use Rattle.codec_payload_descriptor.specs.Syntax.{Gives, read, value_of};

use crate::error::{DescriptorError, DescriptorFault};
use crate::fields::{read_field, read_flag, read_mask, read_numbers, read_references, read_wide};
use crate::numbers::Numbers;
use crate::structure::{Layer, TemplateStructure};
use codec_payload_syntax::reader::FieldReader;
use std::alloc::Global;
use std::marker::Model;

/// The fields that every descriptor has.
#[derive(Clone, Copy)]
pub(crate) struct Header {
    start_of_frame: bool,
    end_of_frame: bool,
    template_id: u8,
    frame_number: u16,
}

/// Which parts follow.
#[derive(Clone, Copy)]
pub(crate) struct Flags {
    structure: bool,
    active: bool,
    indications: bool,
    references: bool,
    chains: bool,
}

/// What a dependency descriptor says of its frame. Only the descriptor of the first packet of a frame counts.
#[derive(Debug, Drop)]
pub struct DependencyDescriptor {
    /// Whether the packet is the first of its frame.
    pub start_of_frame: bool,
    /// Whether the packet is the last of its frame.
    pub end_of_frame: bool,
    /// The number of the frame, modulo 65,536. Frames are numbered in decoding order.
    pub frame_number: u16,
    /// The layer of the frame.
    pub layer: Layer,
    /// The indication of each decode target. 0, not present: the decode target leaves this frame out. 1, discardable: no later
    /// frame of the decode target refers to this frame. 2, switch: a decoder can switch to the decode target here. 3, required:
    /// later frames of the decode target may refer to this frame.
    pub indications: Numbers,
    /// The frames that this frame refers to, each by its distance: how much lower its frame number is, 1 to 4,096. At most 16.
    pub references: Numbers,
    /// The previous frame of each chain, by its distance in frame numbers, 0 to 255. With 0 the chain begins at this frame.
    pub chain_differences: Numbers,
    /// The decode targets that are active from this frame on, bit 0 for the first; `None` if they are the same as before.
    pub active_targets: Option<u32>,
}

/// Reads the fields that every descriptor has.
#[tactic(auto, unfolding(crate::specs::Descriptors::header))]
fn read_header(reader: &mut FieldReader<'_>) -> Result<Header, DescriptorFault>
    ensures { paired result (left reader.new) ≡ read header (left reader.old) }
{
    let start_of_frame = read_flag(reader)?;
    let end_of_frame = read_flag(reader)?;
    let template_id = read_field(reader, 6)?;
    let frame_number = read_wide(reader, 16)?;
    Ok(Header {
        start_of_frame,
        end_of_frame,
        template_id,
        frame_number,
    })
}

/// Reads which parts follow. A descriptor of three bytes has no such field.
#[tactic(auto, unfolding(crate::specs::Descriptors::flags_if))]
fn read_flags(reader: &mut FieldReader<'_>, there: bool) -> Result<Flags, DescriptorFault>
    ensures { paired result (left reader.new) ≡ read (flags_if there) (left reader.old) }
{
    if !there {
        return Ok(Flags {
            structure: false,
            active: false,
            indications: false,
            references: false,
            chains: false,
        });
    }
    let structure = read_flag(reader)?;
    let active = read_flag(reader)?;
    let indications = read_flag(reader)?;
    let references = read_flag(reader)?;
    let chains = read_flag(reader)?;
    Ok(Flags {
        structure,
        active,
        indications,
        references,
        chains,
    })
}

/// Reads the active decode targets. With a new structure all are active, unless the descriptor says which.
fn read_active(
    reader: &mut FieldReader<'_>,
    flags: Flags,
    targets: u8,
) -> Result<Option<u32>, DescriptorFault>
    requires { targets ≤ 32 }
    ensures { paired result (left reader.new) ≡ read (active_targets flags targets) (left reader.old) }
{
    if flags.active {
        let mask = read_mask(reader, usize::from(targets))?;
        return Ok(Some(mask));
    }
    if flags.structure {
        return Ok(Some(((1u64 << targets) - 1) as u32));
    }
    Ok(None)
}

/// Reads a frame's own numbers, each of the same size, or returns the numbers of its template.
fn read_numbers_or(
    reader: &mut FieldReader<'_>,
    own: bool,
    count: u8,
    bits: usize,
    template: Numbers,
) -> Result<Numbers, DescriptorFault>
    requires few { count ≤ 32 }
    requires narrow { bits ≤ 8 }
    ensures { paired result (left reader.new) ≡ read (own_or own (times count (field bits)) template) (left reader.old) }
{
    if own {
        return read_numbers(reader, usize::from(count), bits);
    }
    Ok(template)
}

/// Reads a frame's own references, or returns the references of its template.
fn read_references_or(
    reader: &mut FieldReader<'_>,
    own: bool,
    template: Numbers,
) -> Result<Numbers, DescriptorFault>
    ensures { paired result (left reader.new) ≡ read (own_or own (references true) template) (left reader.old) }
{
    if own {
        return read_references(reader, true);
    }
    Ok(template)
}

/// Reads the part after the active decode targets.
#[tactic(auto, unfolding(crate::specs::Descriptors::frame))]
fn read_frame(
    reader: &mut FieldReader<'_>,
    header: Header,
    flags: Flags,
    active: Option<u32>,
    structure: &TemplateStructure,
) -> Result<DependencyDescriptor, DescriptorFault>
    ensures { paired result (left reader.new) ≡ read (frame header flags active structure.now) (left reader.old) }
{
    let place = structure.place_of(header.template_id);
    let Some(layer) = structure.layer(place) else {
        return Err(DescriptorFault::Template);
    };
    let (targets, chains) = (structure.decode_targets(), structure.chains());
    let template = structure.indications(place);
    let indications = read_numbers_or(reader, flags.indications, targets, 2, template)?;
    let references = read_references_or(reader, flags.references, structure.references(place))?;
    let template = structure.chain_differences(place);
    let chain_differences = read_numbers_or(reader, flags.chains, chains, 8, template)?;
    Ok(DependencyDescriptor {
        start_of_frame: header.start_of_frame,
        end_of_frame: header.end_of_frame,
        frame_number: header.frame_number,
        layer,
        indications,
        references,
        chain_differences,
        active_targets: active,
    })
}

/// Reads the part after the structure.
fn read_with(
    reader: &mut FieldReader<'_>,
    header: Header,
    flags: Flags,
    structure: Option<&TemplateStructure>,
) -> Result<DependencyDescriptor, DescriptorFault>
    ensures { paired result (left reader.new) ≡ read (with_structure header flags (option_map (λ s. s.now) structure.entry)) (left reader.old) }
{
    let Some(structure) = structure else {
        return Err(DescriptorFault::NoStructure);
    };
    let active = read_active(reader, flags, structure.decode_targets())?;
    read_frame(reader, header, flags, active, structure)
}

/// Reads the structure, if the descriptor has one.
fn read_structure_if(
    alloc: Global,
    reader: &mut FieldReader<'_>,
    there: bool,
) -> Result<Option<TemplateStructure>, DescriptorError>
    ensures exact { Gives (λ s. (s, left reader.new)) result (read (structure_if there) (left reader.old)) }
    ensures memory { result ≡ Err OutOfMemory → there ≡ true }
{
    if !there {
        return Ok(None);
    }
    match TemplateStructure::read(alloc, reader) {
        Ok(structure) => Ok(Some(structure)),
        Err(error) => Err(error),
    }
}

/// Reads a descriptor over a reader of its bits.
#[tactic(auto, unfolding(crate::specs::Descriptors::descriptor, crate::specs::Descriptors::structure_flag))]
fn read_fields(
    alloc: Global,
    reader: &mut FieldReader<'_>,
    extended: bool,
    before: Option<&TemplateStructure>,
) -> Result<(DependencyDescriptor, Option<TemplateStructure>), DescriptorError>
    ensures exact { Gives (λ d. (d, left reader.new)) result (read (descriptor extended (option_map (λ s. s.now) before.entry)) (left reader.old)) }
    ensures memory { result ≡ Err OutOfMemory → value_of (structure_flag extended) (left reader.old) ≡ Ok true }
{
    let header = read_header(reader)?;
    let flags = read_flags(reader, extended)?;
    let own = read_structure_if(alloc, reader, flags.structure)?;
    let frame = match &own {
        Some(structure) => read_with(reader, header, flags, Some(structure))?,
        None => read_with(reader, header, flags, before)?,
    };
    Ok((frame, own))
}

/// Reads a descriptor.
fn read_bytes(
    alloc: Global,
    bytes: &[u8],
    before: Option<&TemplateStructure>,
) -> Result<(DependencyDescriptor, Option<TemplateStructure>), DescriptorError>
    ensures exact { Gives (λ d. d) result (descriptor_of (option_map (λ s. s.now) before.entry) bytes.now) }
    ensures memory { result ≡ Err OutOfMemory → HasStructure bytes.now }
{
    let mut reader = FieldReader::new(bytes);
    read_fields(alloc, &mut reader, bytes.len() > 3, before)
}

impl DependencyDescriptor {
    /// Reads a dependency descriptor: the bytes of one header extension element. `structure` is the stream's latest structure.
    /// Returns the descriptor, and its structure if the descriptor has one. Bits after the last field are ignored.
    ///
    /// Only a structure allocates: about 220 bytes for each template.
    ///
    /// # Errors
    ///
    /// [`DescriptorError::OutOfMemory`], or the first fault in reading order:
    ///
    /// - `Short`: the bytes end inside a field.
    /// - `Layers`: the structure has more than 64 templates, a spatial id above 3, or a temporal id above 7.
    /// - `References`: a template or a frame has more than 16 references.
    /// - `NoStructure`: neither the descriptor nor `structure` has a structure.
    /// - `Template`: the structure does not have the template that the descriptor names.
    pub fn read(
        alloc: Global,
        bytes: &[u8],
        structure: Option<&TemplateStructure>,
    ) -> Result<(DependencyDescriptor, Option<TemplateStructure>), DescriptorError>
        // A descriptor that was read has this spelling.
        ensures spelled { IfOk result (λ d. IsSpelled (descriptor_in bytes.now (option_map (λ s. s.now) structure.entry)) (bits_of bytes.now) d) }
        // Everything with this spelling is read, unless memory runs out.
        ensures accepted { (d : DependencyDescriptor × Option Structure) → IsSpelled (descriptor_in bytes.now (option_map (λ s. s.now) structure.entry)) (bits_of bytes.now) d → result ≢ Err OutOfMemory → result ≡ Ok d }
        // Which fault comes first.
        ensures exact { Gives (λ d. d) result (descriptor_of (option_map (λ s. s.now) structure.entry) bytes.now) }
        // Only a structure takes memory.
        ensures memory { result ≡ Err OutOfMemory → HasStructure bytes.now }
    {
        read_bytes(alloc, bytes, structure)
    }
}

/// Reads the descriptors of a stream, in the order of the packets. Keeps the latest structure and the active decode targets.
#[derive(Debug, Drop)]
pub struct DescriptorReader {
    alloc: Global,
    structure: Option<TemplateStructure>,
    active: u32,
}

impl Model for DescriptorReader {
    ghost use Rattle.codec_payload_descriptor.specs.Descriptors.{Stream};

    ghost Value = { Stream };

    ghost view = { λ s. record { structure = s.structure; active = s.active } };
}

impl DescriptorReader {
    /// Returns a reader for a new stream: it has no structure and no active decode target. Does not allocate.
    pub fn new(alloc: Global) -> DescriptorReader
        ensures structure { result.structure ≡ None }
        ensures active { result.active ≡ 0 }
    {
        DescriptorReader {
            alloc,
            structure: None,
            active: 0,
        }
    }

    /// Returns the latest structure.
    pub fn structure(&self) -> Option<&TemplateStructure>
        ensures { option_map (λ s. s.now) result ≡ self.now.structure }
    {
        self.structure.as_ref()
    }

    /// Returns the active decode targets: bit 0 for the first.
    pub fn active_targets(&self) -> u32
        ensures { result ≡ self.now.active }
    {
        self.active
    }

    /// Reads the next descriptor of the stream. A structure in the descriptor replaces the latest structure, and active decode
    /// targets in the descriptor replace the latest active decode targets. Only a structure allocates.
    ///
    /// # Errors
    ///
    /// The errors of [`DependencyDescriptor::read`]. The reader is unchanged.
    pub fn read(&mut self, bytes: &[u8]) -> Result<DependencyDescriptor, DescriptorError>
        ensures exact { Gives (λ d. (d, self.new)) result (stream_read self.old bytes.now) }
        ensures memory { result ≡ Err OutOfMemory → HasStructure bytes.now }
        ensures unchanged { OnErr result (self.new ≡ self.old) }
    {
        let (descriptor, own) = DependencyDescriptor::read(
            self.alloc,
            bytes,
            self.structure.as_ref(),
        )?;
        if own.is_some() {
            self.structure = own;
        }
        if let Some(active) = descriptor.active_targets {
            self.active = active;
        }
        Ok(descriptor)
    }
}
