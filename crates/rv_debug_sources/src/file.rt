//! Files in which sections are not loaded that a source has not loaded.

ghost use Rattle.std.specs.Prelude.{◌≡◌, ◌+◌, ◌*◌, ◌<◌, ◌⊎◌, ◌++◌, Some, drop, map, take, IfOk, IfErr, OnOk};
ghost use Rattle.rv_elf_laws.specs.Fields.{section_header_size};
ghost use Rattle.rv_elf_laws.specs.FirstFault.{first_true, open_tests};
ghost use Rattle.rv_elf_laws.specs.Numbers.{shf_alloc};
ghost use Rattle.rv_elf_laws.specs.Sections.{section_count, section_header_of};
ghost use Rattle.rv_fault.specs.declared.file_fault.FileFault.TheVariants.{OutOfMemory};
ghost use Rattle.rv_object_types.specs.Sections.{section_of};
ghost use Rattle.rv_debug_sources.specs.Unloaded as laws;

use crate::object::is_loaded;
use rv_elf::{ElfView, ElfWriter, SECTION_HEADER_SIZE, SHF_ALLOC, SectionHeader, SectionIndex};
use rv_fault::FileFault;
use rv_object_types::Section;
use std::alloc::{AllocError, Global};

/// The file of an object in which only sections are loaded that are so among others, those of the source itself, or the first
/// fault of its header and tables.
pub fn unloaded(alloc: Global, file: &[u8], own: &[Section<'_>]) -> Result<Vec<u8>, FileFault>
    ensures bytes { IfOk result (λ bytes.
        bytes.items ≡ laws.unloaded (map section_of own.now) file.now) }
    ensures refuses { IfErr result
        (λ fault. (fault ≡ OutOfMemory) ⊎ (first_true (open_tests file.now) ≡ Some fault)) }
{
    let view = ElfView::open(file)?;
    Ok(unloaded_view(alloc, view, own)?)
}

/// The file of a view in which only these sections are loaded.
fn unloaded_view(
    alloc: Global,
    view: ElfView<'_>,
    own: &[Section<'_>],
) -> Result<Vec<u8>, AllocError>
    ensures { IfOk result (λ bytes.
        bytes.items ≡ laws.unloaded (map section_of own.now) view.entry.file.now) }
{
    let file = view.file();
    let header = view.header();
    let mut out = ElfWriter::new(alloc);
    out.raw(front(file, header.e_shoff))?;
    put_headers(&mut out, &view, own)?;
    out.raw(behind(file, header.e_shoff, header.e_shnum))?;
    Ok(out.finish())
}

/// Adds the headers of the sections.
fn put_headers(
    out: &mut ElfWriter,
    view: &ElfView<'_>,
    own: &[Section<'_>],
) -> Result<(), AllocError>
    ensures { OnOk result (out.new
        ≡ out.old ++ laws.headers_bytes (map section_of own.now) view.now.file.now) }
{
    for index in 0..view.header().e_shnum {
        out.section_header(&unloaded_at(view, own, index))?;
    }
    Ok(())
}

/// The header of the section of an index, which may not be loaded.
fn unloaded_at(view: &ElfView<'_>, own: &[Section<'_>], index: u16) -> SectionHeader
    requires { index < section_count view.now.file.now }
    ensures { result ≡ laws.unloaded_header (map section_of own.now) index
        (section_header_of view.now.file.now index) }
{
    let header = view.section_header(SectionIndex(index));
    if index > 0 && is_loaded(own, index as usize - 1) {
        return header;
    }
    without_flag(header)
}

/// A header of a section that is not loaded.
fn without_flag(header: SectionHeader) -> SectionHeader
    ensures { result ≡ laws.without_flag shf_alloc header }
{
    let mut unloaded = header;
    unloaded.sh_flags -= header.sh_flags / SHF_ALLOC % 2 * SHF_ALLOC;
    unloaded
}

/// The bytes before an offset.
fn front(file: &[u8], at: u64) -> &[u8]
    ensures { result.now ≡ take at file.now }
{
    file.get(..at as usize).unwrap_or(file)
}

/// The bytes behind a table of so many section headers at an offset.
fn behind(file: &[u8], at: u64, count: u16) -> &[u8]
    ensures { result.now ≡ drop (at + section_header_size * count) file.now }
{
    let Some(end) = (at as usize).checked_add(SECTION_HEADER_SIZE * count as usize) else {
        return &[];
    };
    file.get(end..).unwrap_or(&[])
}
