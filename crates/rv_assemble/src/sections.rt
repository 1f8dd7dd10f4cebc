//! The sections of an object.

ghost use Rattle.std.specs.Prelude.{◌≡◌, IfOk, map};
ghost use Rattle.rv_unit.specs.Sections.{extent_section};
ghost use Rattle.rv_object_types.specs.Parts.{contents_of as made_of, relocation_of};
ghost use Rattle.rv_object_types.specs.Sections.{section_of};
ghost use Rattle.rv_assemble_laws.specs.IsObjectOf.{contents_of};
ghost use Rattle.rv_assemble.specs.Making.{section_by, IsMakeable, sections_by, AreEach};
ghost use Rattle.std.specs.List.{AllByRecursion};

use rv_object_types::{Contents, Relocation, Section};
use rv_unit::{Extent, SectionType};
use std::alloc::{AllocError, Global};
use std::borrow::CowSlice;
use std::mem;

/// What a section has in the file: its bytes, or its size.
fn contents<'a>(section_type: SectionType, end: u32, bytes: Vec<u8>) -> Contents<'a>
    ensures { made_of result ≡ contents_of section_type end bytes.items }
{
    match section_type {
        SectionType::Progbits => Contents::Progbits(CowSlice::Owned(bytes)),
        SectionType::Note => Contents::Note(CowSlice::Owned(bytes)),
        SectionType::Nobits => Contents::Nobits(u64::from(end)),
    }
}

/// A section with its end, its bytes and its relocations. Its name is the source's own.
fn section<'a>(
    extent: &Extent<'a>,
    end: u32,
    bytes: Vec<u8>,
    relocations: Vec<Relocation>,
) -> Section<'a>
    requires { IsMakeable (section_by (extent_section extent.now) (extent.now).alignment end
        bytes.items (map relocation_of relocations.items)) }
    ensures { section_of result
        ≡ section_by (extent_section extent.now) (extent.now).alignment end bytes.items
        (map relocation_of relocations.items) }
{
    let section = &extent.section;
    Section {
        name: section.name,
        loaded: section.loaded,
        executable: section.executable,
        writable: section.writable,
        contents: contents(section.section_type, end, bytes),
        alignment: u64::from(extent.alignment),
        relocations,
    }
}

/// The sections of a source, in its order, with the end, the bytes and the relocations of each.
pub(crate) fn sections<'a>(
    alloc: Global,
    extents: &[Extent<'a>],
    ends: &[u32],
    mut bytes: Vec<Vec<u8>>,
    mut relocations: Vec<Vec<Relocation>>,
) -> Result<Vec<Section<'a>>, AllocError>
    requires each { AreEach extents.now ends.now bytes.items relocations.items }
    requires makeable { AllByRecursion IsMakeable
        (sections_by extents.now ends.now bytes.items relocations.items) }
    ensures { IfOk result (λ sections. map section_of sections.items
        ≡ sections_by extents.now ends.now bytes.items relocations.items) }
{
    let mut sections = Vec::new(alloc);
    for index in 0..extents.len() {
        let own_bytes = mem::replace(&mut bytes[index], Vec::new(alloc));
        let own_relocations = mem::replace(&mut relocations[index], Vec::new(alloc));
        let extent = extents[index];
        let end = ends[index];
        let section = section(&extent, end, own_bytes, own_relocations);
        sections.push(section)?;
    }
    Ok(sections)
}
