//! The template structure: what the frames of a stream have in common (AV1 RTP specification, appendix A.8.2).

ghost use Rattle.std.specs.Prelude.{◌≡◌, ◌<◌, ◌≤◌, [], get_or, slice_get, false, true, IfOk};
ghost use Rattle.codec_payload_syntax.specs.FieldReaders.{left};
ghost use Rattle.codec_payload_descriptor.specs.Structures.{chains, highest, is_layer, layers, next_layer, place_of, protected, references, resolutions, structure, templates, with_targets};
ghost use Rattle.codec_payload_syntax.specs.Syntax.{field, paired, times};
ghost use Rattle.codec_payload_descriptor.specs.Syntax.{Gives, read};

use crate::error::{DescriptorError, DescriptorFault};
use crate::fields::{
    read_below, read_field, read_flag, read_numbers, read_numbers_below, read_references, skip_bits,
};
use crate::numbers::Numbers;
use codec_payload_syntax::reader::FieldReader;
use std::alloc::Global;
use std::marker::Model;

/// How many templates a structure has at most.
pub const MOST_TEMPLATES: usize = 64;

/// The layer of a frame.
#[derive(Clone, Copy, Debug, PartialEq, Eq)]
pub struct Layer {
    /// The spatial id, 0 to 3: higher layers have a larger picture.
    pub spatial_id: u8,
    /// The temporal id, 0 to 7: higher layers have more frames a second.
    pub temporal_id: u8,
}

impl Layer {
    /// Whether the ids are in their ranges.
    fn is_valid(&self) -> bool
        ensures { result ≡ is_layer self.now }
    {
        self.spatial_id <= 3 && self.temporal_id <= 7
    }

    /// The layer of the next template, by its `next_layer_idc`.
    fn next(&self, idc: u8) -> Layer
        requires { is_layer self.now ≡ true }
        ensures { result ≡ next_layer idc self.now }
    {
        match idc {
            1 => Layer {
                spatial_id: self.spatial_id,
                temporal_id: self.temporal_id + 1,
            },
            2 => Layer {
                spatial_id: self.spatial_id + 1,
                temporal_id: 0,
            },
            _ => *self,
        }
    }
}

/// Reads the layers of the templates.
fn read_layers(alloc: Global, reader: &mut FieldReader<'_>) -> Result<Vec<Layer>, DescriptorError>
    ensures { Gives (λ v. (v.items, left reader.new)) result (read layers (left reader.old)) }
{
    let mut layers = Vec::new(alloc);
    let mut layer = Layer {
        spatial_id: 0,
        temporal_id: 0,
    };
    while layers.len() < MOST_TEMPLATES && layer.is_valid() {
        let Ok(()) = layers.push(layer) else {
            return Err(DescriptorError::OutOfMemory);
        };
        let idc = read_field(reader, 2)?;
        if idc == 3 {
            return Ok(layers);
        }
        layer = layer.next(idc);
    }
    Err(DescriptorError::Fault(DescriptorFault::Layers))
}

/// Reads the references of each template.
fn read_reference_rows(
    alloc: Global,
    reader: &mut FieldReader<'_>,
    templates: usize,
) -> Result<Vec<Numbers>, DescriptorError>
    ensures { Gives (λ v. (v.items, left reader.new)) result (read (times templates (references false)) (left reader.old)) }
{
    let mut rows = Vec::new(alloc);
    while rows.len() < templates {
        let row = read_references(reader, false)?;
        let Ok(()) = rows.push(row) else {
            return Err(DescriptorError::OutOfMemory);
        };
    }
    Ok(rows)
}

/// Reads `count` fields of the same size for each template.
fn read_rows(
    alloc: Global,
    reader: &mut FieldReader<'_>,
    templates: usize,
    count: usize,
    bits: usize,
) -> Result<Vec<Numbers>, DescriptorError>
    requires few { count ≤ 32 }
    requires narrow { bits ≤ 8 }
    ensures { Gives (λ v. (v.items, left reader.new)) result (read (times templates (times count (field bits))) (left reader.old)) }
{
    let mut rows = Vec::new(alloc);
    while rows.len() < templates {
        let row = read_numbers(reader, count, bits)?;
        let Ok(()) = rows.push(row) else {
            return Err(DescriptorError::OutOfMemory);
        };
    }
    Ok(rows)
}

/// Reads the chain that protects each decode target. Without chains the list is empty.
fn read_protected(
    reader: &mut FieldReader<'_>,
    targets: usize,
    chains: u8,
) -> Result<Numbers, DescriptorFault>
    requires few { targets ≤ 32 }
    requires narrow { chains ≤ 32 }
    ensures { paired result (left reader.new) ≡ read (protected targets chains) (left reader.old) }
{
    if chains == 0 {
        return Ok(Numbers::new());
    }
    read_numbers_below(reader, targets, chains)
}

/// A list of numbers for each template.
type Rows = Vec<Numbers>;

/// Reads the layers of the templates, the indications of each template, and its references.
#[tactic(auto, unfolding(crate::specs::Structures::templates))]
fn read_templates(
    alloc: Global,
    reader: &mut FieldReader<'_>,
    targets: usize,
) -> Result<(Vec<Layer>, Rows, Rows), DescriptorError>
    requires { targets ≤ 32 }
    ensures { Gives (λ t. ((t.0.items, t.1.items, t.2.items), left reader.new)) result (read (templates targets) (left reader.old)) }
{
    let layers = read_layers(alloc, reader)?;
    let indications = read_rows(alloc, reader, layers.len(), targets, 2)?;
    let references = read_reference_rows(alloc, reader, layers.len())?;
    Ok((layers, indications, references))
}

/// Reads the number of chains, the chain of each decode target, and the distances of each template in the chains.
#[tactic(auto, unfolding(crate::specs::Structures::chains))]
fn read_chains(
    alloc: Global,
    reader: &mut FieldReader<'_>,
    templates: usize,
    targets: u8,
) -> Result<(u8, Numbers, Rows), DescriptorError>
    requires { targets ≤ 32 }
    ensures value { Gives (λ c. ((c.0, c.1, c.2.items), left reader.new)) result (read (chains templates targets) (left reader.old)) }
    ensures few { IfOk result (λ c. c.0 ≤ 32) }
{
    let count = read_below(reader, targets + 1)?;
    let protected = read_protected(reader, usize::from(targets), count)?;
    let differences = read_rows(alloc, reader, templates, usize::from(count), 4)?;
    Ok((count, protected, differences))
}

/// Returns the highest spatial id, which the last template has.
fn highest(layers: &[Layer]) -> u8
    ensures { result ≡ highest layers.now }
{
    match layers.last() {
        Some(layer) => layer.spatial_id,
        None => 0,
    }
}

/// Skips the size of the pictures of each spatial layer, if the structure has them.
#[tactic(auto, unfolding(crate::specs::Structures::resolutions))]
fn skip_resolutions(reader: &mut FieldReader<'_>, layers: &[Layer]) -> Result<u8, DescriptorFault>
    ensures { paired result (left reader.new) ≡ read (resolutions layers.now) (left reader.old) }
{
    if !read_flag(reader)? {
        return Ok(0);
    }
    skip_bits(reader, 32 * (usize::from(highest(layers)) + 1))
}

/// Returns the list at a place, or an empty list past the end.
fn copy_at(rows: &[Numbers], place: usize) -> Numbers
    ensures { result ≡ get_or rows.now place [] }
{
    match rows.get(place) {
        Some(row) => row.copy(),
        None => Numbers::new(),
    }
}

/// What the frames of a stream have in common: templates, decode targets and chains.
#[derive(Debug, Drop)]
pub struct TemplateStructure {
    /// The template id of the first template.
    first: u8,
    targets: u8,
    layers: Vec<Layer>,
    indications: Vec<Numbers>,
    references: Vec<Numbers>,
    chains: u8,
    protected: Numbers,
    chain_differences: Vec<Numbers>,
}

impl Model for TemplateStructure {
    ghost use Rattle.std.specs.Prelude.{◌≤◌, ◌<◌};
    ghost use Rattle.codec_payload_descriptor.specs.Structures.{Structure};

    ghost Value = { Structure };

    ghost view = { λ s. record { first = s.first; targets = s.targets; layers = s.layers.items; indications = s.indications.items; references = s.references.items; chains = s.chains; protected = s.protected; chain_differences = s.chain_differences.items } };

    ghost invariant = { λ s. (s.first < 64) × (s.targets ≤ 32) × (s.chains ≤ 32) };
}

impl TemplateStructure {
    /// Reads a structure.
    #[tactic(auto, unfolding(crate::specs::Structures::structure))]
    pub(crate) fn read(
        alloc: Global,
        reader: &mut FieldReader<'_>,
    ) -> Result<TemplateStructure, DescriptorError>
        ensures { Gives (λ s. (s, left reader.new)) result (read structure (left reader.old)) }
    {
        let first = read_field(reader, 6)?;
        let targets = read_field(reader, 5)? + 1;
        TemplateStructure::read_rest(alloc, reader, first, targets)
    }

    /// Reads the part after the number of decode targets.
    fn read_rest(
        alloc: Global,
        reader: &mut FieldReader<'_>,
        first: u8,
        targets: u8,
    ) -> Result<TemplateStructure, DescriptorError>
        requires few { targets ≤ 32 }
        requires low { first < 64 }
        ensures { Gives (λ s. (s, left reader.new)) result (read (with_targets first targets) (left reader.old)) }
    {
        let (layers, indications, references) = read_templates(
            alloc,
            reader,
            usize::from(targets),
        )?;
        let (chains, protected, chain_differences) = read_chains(
            alloc,
            reader,
            layers.len(),
            targets,
        )?;
        skip_resolutions(reader, &layers)?;
        Ok(TemplateStructure {
            first,
            targets,
            layers,
            indications,
            references,
            chains,
            protected,
            chain_differences,
        })
    }

    /// Returns the template id of the first template, 0 to 63.
    pub fn first_template(&self) -> u8
        ensures { result ≡ self.now.first }
    {
        self.first
    }

    /// Returns the number of decode targets, 1 to 32.
    pub fn decode_targets(&self) -> u8
        ensures value { result ≡ self.now.targets }
        ensures most { result ≤ 32 }
    {
        self.targets
    }

    /// Returns the number of chains, 0 to 32.
    pub fn chains(&self) -> u8
        ensures value { result ≡ self.now.chains }
        ensures most { result ≤ 32 }
    {
        self.chains
    }

    /// Returns the layer of each template, 1 to 64 of them.
    pub fn layers(&self) -> &[Layer]
        ensures { result.now ≡ self.now.layers }
    {
        &self.layers
    }

    /// Returns the chain that protects each decode target, counted from 0. Without chains the list is empty.
    pub fn protected_by(&self) -> &[u16]
        ensures { result.now ≡ self.now.protected }
    {
        self.protected.as_slice()
    }

    /// Returns the place among the templates that a template id names.
    pub fn place_of(&self, template_id: u8) -> usize
        ensures { result ≡ place_of template_id self.now }
    {
        (usize::from(template_id) + 64 - usize::from(self.first)) % 64
    }

    /// Returns the layer of the template at a place; `None` past the last template.
    pub fn layer(&self, place: usize) -> Option<Layer>
        ensures { result ≡ slice_get self.now.layers place }
    {
        self.layers.get(place).copied()
    }

    /// Returns the indications of the template at a place, for each decode target. Past the last template the list is empty.
    pub fn indications(&self, place: usize) -> Numbers
        ensures { result ≡ get_or self.now.indications place [] }
    {
        copy_at(&self.indications, place)
    }

    /// Returns the references of the template at a place, as distances of 1 to 16. Past the last template the list is empty.
    pub fn references(&self, place: usize) -> Numbers
        ensures { result ≡ get_or self.now.references place [] }
    {
        copy_at(&self.references, place)
    }

    /// Returns the distance of the template at a place in each chain, 0 to 15. Past the last template the list is empty.
    pub fn chain_differences(&self, place: usize) -> Numbers
        ensures { result ≡ get_or self.now.chain_differences place [] }
    {
        copy_at(&self.chain_differences, place)
    }
}
