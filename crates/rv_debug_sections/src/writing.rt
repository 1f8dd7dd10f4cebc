//! Writes the file with the sections of objects that no program loads.

ghost use Rattle.std.specs.Prelude.{◌≡◌, ℕ, ◌+◌, ◌-◌, ◌≤◌, ◌<◌, ◌^◌, ◌⊎◌, List, ◌++◌, Some, None, true, false, length, flat_map, replicate, IfOk, IfErr, IfSome, IfNone, OnOk};
ghost use Rattle.rv_fault.specs.declared.file_fault.FileFault.{FileFault};
ghost use Rattle.rv_elf_laws.specs.FirstFault.{first_true, open_tests};
ghost use Rattle.rv_elf_laws.specs.Records.{section_header_bytes};
ghost use Rattle.rv_elf_laws.specs.Sections.{names_section, section_header_of};
ghost use Rattle.rv_object_file_laws.specs.Parts.{is_section};
ghost use Rattle.rv_size_laws.specs.Alignment.{aligned};
ghost use Rattle.rv_debug_laws.specs.Carried.{section_names_in};
ghost use Rattle.rv_debug_laws.specs.CarriedFile as laws;
ghost use Rattle.rv_debug_laws.specs.CarriedNames.{carried_names};
ghost use Rattle.rv_debug_laws.specs.CarriedFile.{merged_names};
ghost use Rattle.rv_debug_laws.specs.File.{retabled};
ghost use Rattle.rv_debug_laws.specs.Stored.{can_grow};
ghost use Rattle.rv_debug_sections.specs.declared.fault.CarryFault.TheVariants.{OutOfMemory};
ghost use Rattle.rv_debug_sections.specs.Bounds.{AreEnds, AreInBounds};
ghost use Rattle.rv_debug_sections.specs.Views.{all_merged, all_names, front_with};

use crate::carried::carried_names;
use crate::fault::CarryFault;
use crate::headers::{headers_in, own_sections, put_header, put_headers};
use crate::merged::{Merged, put_objects};
use crate::named::section_names_in;
use crate::names::TOO_LONG;
use crate::part::aligned;
use rv_debug_laws::{Carried, carried_file_is_loaded};
use rv_elf::{ElfView, ElfWriter, SECTION_HEADER_SIZE, SectionHeader, SectionIndex};
use std::alloc::{AllocError, Global};

/// The first number that is no section's.
const TOO_MANY: usize = 0xFF00;

/// Where what stands behind a file ends: the contents of its debug sections, and the names of its sections.
#[derive(Clone, Copy, Drop)]
struct Ends {
    contents: u64,
    names: u64,
}

/// The file of an executable with the sections of objects that no program loads.
pub fn with_sections_of(
    alloc: Global,
    file: &[u8],
    objects: &[Carried<'_>],
) -> Result<Vec<u8>, CarryFault>
    ensures written { IfOk result (λ new. laws.IsCarriedFile file.now objects.now new.items) }
    // It is loaded as it was, if nothing of the program stands in the file's header.
    ensures loaded { IfOk result
        (λ new. can_grow file.now ≡ true → laws.IsLoadedSame file.now new.items) }
    // It is refused only where there is no such file.
    ensures refuses { IfErr result (λ fault. (fault ≡ OutOfMemory)
        ⊎ ((new : List ℕ) → laws.IsCarriedFile file.now objects.now new → ⊥)) }
{
    let names = carried_names(alloc, objects)?;
    with_named_sections(alloc, file, names.as_slice(), objects)
}

/// The file of an executable with those of these names, which the objects bring.
fn with_named_sections(
    alloc: Global,
    file: &[u8],
    names: &[Vec<u8>],
    objects: &[Carried<'_>],
) -> Result<Vec<u8>, CarryFault>
    requires { all_names names.now ≡ carried_names objects.now }
    ensures written { IfOk result (λ new. laws.IsCarriedFile file.now objects.now new.items) }
    ensures loaded { IfOk result
        (λ new. can_grow file.now ≡ true → laws.IsLoadedSame file.now new.items) }
    ensures refuses { IfErr result (λ fault. (fault ≡ OutOfMemory)
        ⊎ ((new : List ℕ) → laws.IsCarriedFile file.now objects.now new → ⊥)) }
{
    carried_file_is_loaded();
    let Some(view) = open(file) else {
        return Err(CarryFault::NoSections);
    };
    let mut merged = own_sections(alloc, &view, names)?;
    put_objects(alloc, &mut merged, objects)?;
    let Some(new) = file_with(alloc, &view, merged.as_slice())? else {
        return Err(CarryFault::TooLong);
    };
    Ok(new)
}

/// A view of a file whose sections have names; none of another.
fn open(file: &[u8]) -> Option<ElfView<'_>>
    ensures file { IfSome result (λ view. view.file.now ≡ file.now) }
    ensures opens { IfSome result (λ view. first_true (open_tests file.now) ≡ None) }
    ensures named { IfSome result
        (λ view. is_section file.now (names_section file.now) ≡ true) }
    ensures none { IfNone result
        (((fault : FileFault) × (first_true (open_tests file.now) ≡ Some fault))
        ⊎ (is_section file.now (names_section file.now) ≡ false)) }
{
    let Ok(view) = ElfView::open(file) else {
        return None;
    };
    let header = view.header();
    if header.e_shstrndx == 0 || header.e_shstrndx >= header.e_shnum {
        return None;
    }
    Some(view)
}

/// The file with these merged sections; none where one of its numbers is too large.
fn file_with(
    alloc: Global,
    view: &ElfView<'_>,
    merged: &[Merged<'_>],
) -> Result<Option<Vec<u8>>, AllocError>
    requires long { 64 ≤ length view.now.file.now }
    requires named { is_section view.now.file.now (names_section view.now.file.now) ≡ true }
    ensures some { IfOk result (λ new. IfSome new
        (λ new. AreInBounds view.now.file.now (all_merged merged.now)
        × (new.items ≡ laws.carried_file view.now.file.now (all_merged merged.now)))) }
    ensures none { IfOk result (λ new. IfNone new
        (AreInBounds view.now.file.now (all_merged merged.now) → ⊥)) }
{
    let own = section_names_in(view);
    let Some(ends) = ends_of(view, own, merged) else {
        return Ok(None);
    };
    let headers = headers_of(alloc, view, own, merged, ends)?;
    if headers.len() >= TOO_MANY {
        return Ok(None);
    }
    let new = put_file(alloc, view, own, merged, headers.as_slice(), ends)?;
    Ok(Some(new))
}

/// Where what stands behind a file ends; none where a number is too large.
fn ends_of(view: &ElfView<'_>, own: &[u8], merged: &[Merged<'_>]) -> Option<Ends>
    requires { own.now ≡ section_names_in view.now.file.now }
    ensures some { IfSome result (λ ends. AreEnds view.now.file.now (all_merged merged.now) ends) }
    ensures none { IfNone result
        ((2 ^ 63 ≤ laws.carried_end view.now.file.now (all_merged merged.now))
        ⊎ (2 ^ 32 ≤ length (laws.strings_of view.now.file.now (all_merged merged.now)))) }
{
    let contents = contents_end(view.file().len() as u64, merged)?;
    let size = names_end(own.len() as u64, merged)?;
    let names = contents.checked_add(size)?;
    if size >= TOO_LONG as u64 || names >= 1 << 63 {
        return None;
    }
    Some(Ends { contents, names })
}

/// The place behind the contents of sections that stand from a place on.
fn contents_end(place: u64, merged: &[Merged<'_>]) -> Option<u64>
    ensures some { IfSome result
        (λ end. end ≡ place + length (laws.merged_contents (all_merged merged.now))) }
    ensures none { IfNone result
        (2 ^ 64 ≤ place + length (laws.merged_contents (all_merged merged.now))) }
{
    let mut end = place;
    for section in merged {
        end = end.checked_add(section.bytes.as_slice().len() as u64)?;
    }
    Some(end)
}

/// The place behind the names of sections that stand from a place on.
fn names_end(place: u64, merged: &[Merged<'_>]) -> Option<u64>
    ensures some { IfSome result
        (λ end. end ≡ place + length (merged_names (all_merged merged.now))) }
    ensures none { IfNone result
        (2 ^ 64 ≤ place + length (merged_names (all_merged merged.now))) }
{
    let mut end = place;
    for section in merged {
        end = end.checked_add(section.name.len() as u64)?;
    }
    Some(end)
}

/// The section headers of the file.
fn headers_of(
    alloc: Global,
    view: &ElfView<'_>,
    own: &[u8],
    merged: &[Merged<'_>],
    ends: Ends,
) -> Result<Vec<SectionHeader>, AllocError>
    requires own { own.now ≡ section_names_in view.now.file.now }
    requires named { is_section view.now.file.now (names_section view.now.file.now) ≡ true }
    requires ends { AreEnds view.now.file.now (all_merged merged.now) ends }
    ensures { IfOk result (λ headers.
        headers.items ≡ laws.headers_of view.now.file.now (all_merged merged.now)) }
{
    let mut headers = headers_in(alloc, view)?;
    put_headers(
        &mut headers,
        view.file().len() as u64,
        own.len() as u32,
        merged,
    )?;
    let index = view.header().e_shstrndx;
    put_header(&mut headers, Some(index), strings_header(view, ends))?;
    Ok(headers)
}

/// The header of the section of names.
fn strings_header(view: &ElfView<'_>, ends: Ends) -> SectionHeader
    requires named { is_section view.now.file.now (names_section view.now.file.now) ≡ true }
    requires after { ends.contents ≤ ends.names }
    ensures { result ≡ record (section_header_of view.now.file.now (names_section view.now.file.now)) {
      sh_offset = ends.contents;
      sh_size = ends.names - ends.contents;
    } }
{
    let old = view.section_header(SectionIndex(view.header().e_shstrndx));
    SectionHeader {
        sh_offset: ends.contents,
        sh_size: ends.names - ends.contents,
        ..old
    }
}

/// The file with these merged sections and headers.
fn put_file(
    alloc: Global,
    view: &ElfView<'_>,
    own: &[u8],
    merged: &[Merged<'_>],
    headers: &[SectionHeader],
    ends: Ends,
) -> Result<Vec<u8>, AllocError>
    requires long { 64 ≤ length view.now.file.now }
    requires own { own.now ≡ section_names_in view.now.file.now }
    requires headers { headers.now ≡ laws.headers_of view.now.file.now (all_merged merged.now) }
    requires few { length headers.now < 0xFF00 }
    requires ends { AreEnds view.now.file.now (all_merged merged.now) ends }
    ensures { IfOk result (λ new.
        new.items ≡ laws.carried_file view.now.file.now (all_merged merged.now)) }
{
    let table = aligned(8, ends.names);
    let mut out = ElfWriter::new(alloc);
    put_old(&mut out, view, table, headers.len() as u16)?;
    put_contents(&mut out, merged)?;
    put_strings(&mut out, own, merged)?;
    put_table(&mut out, (table - ends.names) as usize, headers)?;
    Ok(out.finish())
}

/// Writes the file, with a header that leads to a table of so many section headers.
fn put_old(
    out: &mut ElfWriter,
    view: &ElfView<'_>,
    table: u64,
    count: u16,
) -> Result<(), AllocError>
    requires { 64 ≤ length view.now.file.now }
    ensures { OnOk result (out.new ≡ out.old
        ++ retabled view.now.file.now table count (names_section view.now.file.now)) }
{
    let file = view.file();
    put_front(out, file, table, count, view.header().e_shstrndx)?;
    out.raw(&file[64..])?;
    Ok(())
}

/// Writes the header of a file, whose four fields for section headers lead to this table.
fn put_front(
    out: &mut ElfWriter,
    file: &[u8],
    table: u64,
    count: u16,
    names: u16,
) -> Result<(), AllocError>
    requires { 64 ≤ length file.now }
    ensures { OnOk result (out.new ≡ out.old ++ front_with file.now table count names) }
{
    out.raw(&file[..40])?;
    out.raw(&table.to_le_bytes())?;
    out.raw(&file[48..58])?;
    out.raw(&(SECTION_HEADER_SIZE as u16).to_le_bytes())?;
    out.raw(&count.to_le_bytes())?;
    out.raw(&names.to_le_bytes())
}

/// Writes the contents of sections.
fn put_contents(out: &mut ElfWriter, merged: &[Merged<'_>]) -> Result<(), AllocError>
    ensures { OnOk result (out.new ≡ out.old ++ laws.merged_contents (all_merged merged.now)) }
{
    for section in merged {
        out.raw(section.bytes.as_slice())?;
    }
    Ok(())
}

/// Writes these names of sections, and those of merged sections.
fn put_strings(out: &mut ElfWriter, own: &[u8], merged: &[Merged<'_>]) -> Result<(), AllocError>
    ensures { OnOk result (out.new ≡ out.old
        ++ (own.now ++ merged_names (all_merged merged.now))) }
{
    out.raw(own)?;
    put_names(out, merged)
}

/// Writes the names of merged sections.
fn put_names(out: &mut ElfWriter, merged: &[Merged<'_>]) -> Result<(), AllocError>
    ensures { OnOk result (out.new ≡ out.old ++ merged_names (all_merged merged.now)) }
{
    for section in merged {
        out.raw(section.name)?;
    }
    Ok(())
}

/// Writes zeros up to the table of section headers, and these.
fn put_table(out: &mut ElfWriter, gap: usize, headers: &[SectionHeader]) -> Result<(), AllocError>
    ensures { OnOk result (out.new ≡ out.old
        ++ (replicate gap 0 ++ flat_map section_header_bytes headers.now)) }
{
    out.zeros(gap)?;
    put_all_headers(out, headers)
}

/// Writes section headers.
fn put_all_headers(out: &mut ElfWriter, headers: &[SectionHeader]) -> Result<(), AllocError>
    ensures { OnOk result (out.new ≡ out.old ++ flat_map section_header_bytes headers.now) }
{
    for header in headers {
        out.section_header(header)?;
    }
    Ok(())
}
