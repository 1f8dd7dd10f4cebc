//! Objects whose addresses are fixed.
//!
//! Each section can now be written by itself: its bytes without those that relaxation drops, and then the value of each
//! relocation to the place to which its field has moved.

ghost use Rattle.std.specs.Prelude.{◌≡◌, ◌+◌, ◌-◌, ◌++◌, ◌<◌, ◌≤◌, IfOk, IfErr, OnOk, Some, pos, true, length};
ghost use Rattle.std.specs.List.{AllByRecursion};
ghost use Rattle.rv_isa.specs.Kinds.{is_low_part};
ghost use Rattle.rv_isa_laws.specs.Bytes.{zeros};
ghost use Rattle.rv_object_types.specs.Parts.{relocation_of};
ghost use Rattle.rv_link_laws.specs.Inputs.{has_no_bytes};
ghost use Rattle.rv_link_laws.specs.Moves.{kept, new_offset};
ghost use Rattle.rv_link_laws.specs.Values.{applied, initial_bytes, value};
ghost use Rattle.rv_link_laws.specs.Names.{object_at};
ghost use Rattle.rv_link_laws.specs.Untaken.{IsUntaken, worth};
ghost use Rattle.rv_link_laws.specs.Layout.{outer_in};
ghost use Rattle.rv_shorten.specs.Sections.{short_section_of};
ghost use Rattle.rv_relax.specs.Kept.{moves_of};
ghost use Rattle.rv_placement.specs.Placement.{starts_of, layout_of};
ghost use Rattle.rv_link.specs.Idle.{is_idle};
ghost use Rattle.rv_link.specs.Regions.{IsFixed};
ghost use Rattle.rv_link.specs.Untaken.{AreUntakenOf, OrMemory};
ghost use Rattle.rv_link.specs.Filled.{AreTakenOf, IsInside, IsInputOf, input_bytes, input_of, objects_of};

use crate::fields::apply;
use rv_fault::LinkFault;
use rv_isa::Kind;
use rv_link_values::Values;
use rv_object_types::{Contents, FileIndex, Relocation, SectionIndex};
use rv_placement::{PlacedSection, Placement};
use rv_relax::SectionPaddings;
use rv_shorten::{LeftBytes, ShortObject, ShortSection};
use std::alloc::{AllocError, Global};

/// A section of a file, and where it stands.
#[derive(Drop)]
pub(crate) struct PlacedInput<'p, 'o, 'a> {
    pub(crate) file: FileIndex,
    pub(crate) index: SectionIndex,
    pub(crate) section: &'p ShortSection<'o, 'a>,
    pub(crate) placed: &'p PlacedSection<'p>,
}

/// Objects whose sections and names have their addresses.
#[derive(Drop)]
pub(crate) struct Fixed<'p, 'o, 'a, 'n> {
    pub(crate) objects: &'p [ShortObject<'o, 'a>],
    pub(crate) placement: &'p Placement<'p>,
    pub(crate) values: &'p Values<'p, 'o, 'a, 'n>,
}

impl<'p, 'o, 'a, 'n> Fixed<'p, 'o, 'a, 'n> {
    /// The section at an index of a file.
    pub(crate) fn input(&self, file: FileIndex, index: SectionIndex) -> PlacedInput<'p, 'o, 'a>
        requires fixed { IsFixed self.now }
        requires section { index.0
            < length (object_at (objects_of self.now) (file.0 + 1)).sections }
        ensures input { IsInputOf self.now result }
        ensures at { (result.file ≡ file) × (result.index ≡ index) }
    {
        PlacedInput {
            file,
            index,
            section: &self.objects[file.0].sections[index.0],
            placed: &self.placement.files[file.0][index.0],
        }
    }

    /// The value of a relocation of a section, as it has moved.
    fn value(
        &self,
        input: &PlacedInput<'_, '_, '_>,
        relocation: &Relocation,
    ) -> Result<i64, LinkFault>
        requires fixed { IsFixed self.now }
        requires input { IsInputOf self.now input.now }
        ensures found { IfOk result
            (λ v. value (outer_in (objects_of self.now) (layout_of (self.now).placement.now))
            (starts_of (self.now).placement.now) (objects_of self.now)
            (input_of self.now input.now) (relocation_of relocation.now) ≡ Some v) }
        ensures alone { IfOk result
            (λ v. is_low_part (relocation.now).kind ≡ true → (relocation.now).addend ≡ pos 0) }
        ensures refuses { IfErr result (λ fault. IsUntaken (objects_of self.now)
            (layout_of (self.now).placement.now) (input_of self.now input.now) fault
            (relocation_of relocation.now)) }
    {
        let value = self.values.value(input.file, input.index, relocation)?;
        Ok(value)
    }

    /// Writes the values of a section's relocations to their fields in what is kept of it.
    pub(crate) fn relocate(
        &self,
        input: &PlacedInput<'_, '_, '_>,
        bytes: &mut [u8],
    ) -> Result<(), LinkFault>
        requires fixed { IsFixed self.now }
        requires input { IsInputOf self.now input.now }
        requires inside { AllByRecursion
            (IsInside (moves_of (input.now).placed.now.plan.now) (length bytes.old))
            (short_section_of (input.now).section.now).relocations }
        ensures applied { OnOk result
            (bytes.new ≡ applied (new_offset (moves_of (input.now).placed.now.plan.now))
            (worth (objects_of self.now) (layout_of (self.now).placement.now)
            (input_of self.now input.now))
            (short_section_of (input.now).section.now).relocations bytes.old) }
        // each of its relocations has a value, which its field takes
        ensures taken { OnOk result (AreTakenOf self.now input.now) }
        ensures refuses { IfErr result (λ fault. AreUntakenOf self.now input.now fault) }
    {
        for relocation in &input.section.whole.relocations {
            if is_idle(relocation.kind) {
                continue;
            }
            let relocation = input.section.relocation(relocation);
            let value = self.value(input, &relocation)?;
            let place = input.placed.plan.new_offset(relocation.place);
            apply(bytes, place, relocation.kind, value)?;
        }
        Ok(())
    }

    /// Judges the relocations of a section without bytes.
    pub(crate) fn judge(&self, input: &PlacedInput<'_, '_, '_>) -> Result<(), LinkFault>
        requires fixed { IsFixed self.now }
        requires input { IsInputOf self.now input.now }
        requires zeroed { has_no_bytes (short_section_of (input.now).section.now).contents ≡ true }
        ensures taken { OnOk result (AreTakenOf self.now input.now) }
        ensures refuses { IfErr result (λ fault. AreUntakenOf self.now input.now fault) }
    {
        self.relocate(input, &mut [])?;
        Ok(())
    }

    /// Adds what is kept of a section's bytes, with its relocations applied.
    fn put_bytes(
        &self,
        alloc: Global,
        input: &PlacedInput<'_, '_, '_>,
        out: &mut Vec<u8>,
    ) -> Result<(), LinkFault>
        requires fixed { IsFixed self.now }
        requires input { IsInputOf self.now input.now }
        ensures bytes { OnOk result (out.new.items ≡ out.old.items
            ++ input_bytes self.now input.now) }
        // each of its relocations has a value, which its field takes
        ensures taken { OnOk result (AreTakenOf self.now input.now) }
        ensures refuses { IfErr result (OrMemory (AreUntakenOf self.now input.now)) }
    {
        let from = out.len();
        put_contents(alloc, input.placed.plan, input.section, out)?;
        self.relocate(input, &mut out[from..])?;
        Ok(())
    }

    /// Adds a section to its region, which starts at an address: zeros up to where the section starts, and then its bytes.
    pub(crate) fn put(
        &self,
        alloc: Global,
        input: &PlacedInput<'_, '_, '_>,
        region: u64,
        out: &mut Vec<u8>,
    ) -> Result<(), LinkFault>
        requires fixed { IsFixed self.now }
        requires input { IsInputOf self.now input.now }
        requires later { region + length out.old.items ≤ (input.now).placed.now.start }
        ensures bytes { OnOk result (out.new.items ≡ out.old.items
            ++ (zeros ((input.now).placed.now.start - (region + length out.old.items))
            ++ input_bytes self.now input.now)) }
        // each of its relocations has a value, which its field takes
        ensures taken { OnOk result (AreTakenOf self.now input.now) }
        ensures refuses { IfErr result (OrMemory (AreUntakenOf self.now input.now)) }
    {
        put_zeros(out, input.placed.start - (region + out.len() as u64))?;
        self.put_bytes(alloc, input, out)
    }
}

/// Whether a relocation of this kind has no field.
fn is_idle(kind: Kind) -> bool
    ensures { result ≡ is_idle kind }
{
    matches!(kind, Kind::None | Kind::Relax | Kind::Align)
}

/// Adds zeros.
fn put_zeros(out: &mut Vec<u8>, count: u64) -> Result<(), AllocError>
    ensures { OnOk result (out.new.items ≡ out.old.items ++ zeros count) }
{
    for _ in 0..count {
        out.push(0)?;
    }
    Ok(())
}

/// Adds what is kept of the bytes with which a section begins.
fn put_contents(
    alloc: Global,
    plan: &SectionPaddings,
    section: &ShortSection<'_, '_>,
    out: &mut Vec<u8>,
) -> Result<(), AllocError>
    ensures { OnOk result (out.new.items ≡ out.old.items
        ++ kept 0 (moves_of plan.now) (initial_bytes (short_section_of section.now).contents)) }
{
    match &section.whole.contents {
        Contents::Progbits(_) | Contents::Note(_) => plan.put_kept(out, section.bytes()),
        Contents::Nobits(size) => {
            let mut bytes = Vec::new(alloc);
            put_zeros(&mut bytes, *size)?;
            plan.put_kept(out, LeftBytes::of(&bytes))
        }
    }
}
