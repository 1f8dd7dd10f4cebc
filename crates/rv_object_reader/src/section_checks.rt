//! The header of a section.

ghost use Rattle.std.specs.Prelude.{◌≡◌, ◌<◌, true, OnOk};
ghost use Rattle.rv_elf_laws.specs.FirstFault.{Finds};
ghost use Rattle.rv_object_file_laws.specs.FirstFault.{record_size, is_rela_linked, is_linked};
ghost use Rattle.rv_object_file_laws.specs.Parts.{is_section};
ghost use Rattle.rv_object_reader.specs.Tests.{tests_behind, size_tests, link_tests};

use crate::headers::{
    is_aligned, is_executable, is_loaded, is_rela, is_symbol_table, is_unsupported,
};
use crate::names::Names;
use crate::row_record::ROW_SIZE;
use rv_elf::{ElfView, RELA_SIZE, SHT_NOBITS, SYMBOL_SIZE, SectionIndex, lies_past};
use rv_elf_laws::SectionHeader;
use rv_fault::FileFault;

/// Looks at the header of a section, with a section of symbols before it in the file or not, and one of rows.
#[tactic(auto, using(rv_elf_laws::specs::FirstTrue::first_true_some, rv_elf_laws::specs::FirstTrue::first_true_none))]
pub(crate) fn check_section(
    names: &Names<'_>,
    header: &SectionHeader,
    symbols: bool,
    rows: bool,
) -> Result<(), FileFault>
    ensures faults { Finds (tests_behind names.now.view.file.now symbols rows header.now) result }
    ensures linked { OnOk result (is_linked names.now.view.file.now header.now ≡ true) }
{
    check_size(names, header, symbols, rows)?;
    check_links(names, header)?;
    Ok(())
}

/// Looks at the bytes of a section.
#[tactic(auto, unfolding(crate::specs::Tests::size_tests))]
fn check_size(
    names: &Names<'_>,
    header: &SectionHeader,
    symbols: bool,
    rows: bool,
) -> Result<(), FileFault>
    ensures { Finds (size_tests names.now.view.file.now symbols rows header.now) result }
{
    if header.sh_type != SHT_NOBITS
        && lies_past(names.view.file(), header.sh_offset, header.sh_size)
    {
        return Err(FileFault::Truncated);
    }
    if is_symbol_table(header) && symbols || names.is_rows(header) && rows {
        return Err(FileFault::BadTable);
    }
    if header.sh_size % record_size(names, header) != 0 || !is_aligned(header.sh_addralign) {
        return Err(FileFault::BadTable);
    }
    if is_executable(header) && header.sh_size % 2 != 0 {
        return Err(FileFault::BadTable);
    }
    Ok(())
}

/// Looks at what a section names, and at its type.
#[tactic(auto, unfolding(crate::specs::Tests::link_tests))]
fn check_links(names: &Names<'_>, header: &SectionHeader) -> Result<(), FileFault>
    ensures faults { Finds (link_tests names.now.view.file.now header.now) result }
    ensures linked { OnOk result (is_linked names.now.view.file.now header.now ≡ true) }
{
    if !names.has_name(header) {
        return Err(FileFault::BadString);
    }
    if !is_linked(&names.view, header) {
        return Err(FileFault::BadIndex);
    }
    if is_unsupported(header) {
        return Err(FileFault::UnsupportedSection(header.sh_type));
    }
    Ok(())
}

/// The bytes of a record of the section's table, 1 where it is none.
fn record_size(names: &Names<'_>, header: &SectionHeader) -> u64
    ensures size { result ≡ record_size names.now.view.file.now header.now }
    ensures some { 0 < result }
{
    if is_symbol_table(header) {
        SYMBOL_SIZE as u64
    } else if is_rela(header) {
        RELA_SIZE as u64
    } else if names.is_rows(header) {
        ROW_SIZE as u64
    } else {
        1
    }
}

/// Whether the sections that the section needs are there.
fn is_linked(view: &ElfView<'_>, header: &SectionHeader) -> bool
    ensures { result ≡ is_linked view.now.file.now header.now }
{
    if is_symbol_table(header) {
        is_section(view, header.sh_link)
    } else {
        !is_rela(header) || is_rela_linked(view, header)
    }
}

/// Whether relocations name their section and that of the symbols, those of a loaded section a symbol table.
fn is_rela_linked(view: &ElfView<'_>, header: &SectionHeader) -> bool
    ensures { result ≡ is_rela_linked view.now.file.now header.now }
{
    if !is_section(view, header.sh_link) || !is_section(view, header.sh_info) {
        return false;
    }
    let target = view.section_header(SectionIndex(header.sh_info as u16));
    let symbols = view.section_header(SectionIndex(header.sh_link as u16));
    !is_loaded(&target) || is_symbol_table(&symbols)
}

/// Whether there is a section of this index.
pub(crate) fn is_section(view: &ElfView<'_>, index: u32) -> bool
    ensures { result ≡ is_section view.now.file.now index }
{
    0 < index && index < u32::from(view.header().e_shnum)
}
