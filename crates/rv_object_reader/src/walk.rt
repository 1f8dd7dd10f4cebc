//! Goes over the sections of a file, one after the other.

ghost use Rattle.std.specs.Prelude.{◌≡◌, ◌⊎◌, ◌<◌, ℕ, true, List, [], ◌∷◌, ◌++◌, ◌||◌, None, Some, MatchResult, IfOk, length};
ghost use Rattle.rv_elf_laws.specs.FirstFault.{first_true};
ghost use Rattle.rv_elf_laws.specs.Sections.{section_count};
ghost use Rattle.rv_fault.specs.declared.file_fault.FileFault.TheVariants.{OutOfMemory};
ghost use Rattle.rv_object_file_laws.specs.FirstFault.{is_linked, rela_tests, records_tests, sections_tests};
ghost use Rattle.rv_object_file_laws.specs.Parts.{FileSection, is_rela, sections};
ghost use Rattle.rv_object_reader.specs.Walk.{HoldBefore};

use crate::headers::{is_loaded, is_rela, is_symbol_table};
use crate::places::Places;
use crate::relocation_checks::check_relocations;
use crate::row_checks::check_rows;
use crate::section_checks::check_section;
use crate::symbol_checks::{check_symbols, count_symbols};
use crate::tables::{Tables, count_sections};
use rv_elf::{ElfView, SectionIndex};
use rv_elf_laws::SectionHeader;
use rv_fault::FileFault;
use std::alloc::{AllocError, Global};

/// Looks at the sections of a file, each header before its records.
pub(crate) fn check_sections(alloc: Global, tables: &Tables<'_>) -> Result<(), FileFault>
    ensures { MatchResult result
        (λ _. first_true
        (sections_tests tables.now.names.view.file.now []
        (sections tables.now.names.view.file.now)) ≡ None)
        (λ fault. (fault ≡ OutOfMemory)
        ⊎ (first_true
        (sections_tests tables.now.names.view.file.now []
        (sections tables.now.names.view.file.now)) ≡ Some fault)) }
{
    let mut held = no_places(alloc, tables.names.view.header().e_shnum)?;
    let mut symbols_before = false;
    let mut rows_before = false;
    for earlier in 0..count_sections(&tables.names.view) {
        let header = tables.names.view.section_header(SectionIndex(earlier + 1));
        check_section(&tables.names, &header, symbols_before, rows_before)?;
        check_records(alloc, tables, &header, &mut held)?;
        symbols_before = either(symbols_before, is_symbol_table(&header));
        rows_before = either(rows_before, tables.names.is_rows(&header));
    }
    Ok(())
}

/// Whether one of the two is so.
fn either(a: bool, b: bool) -> bool
    ensures { result ≡ (a || b) }
{
    a || b
}

/// For each of so many sections, what no relocation holds of it.
fn no_places(alloc: Global, count: u16) -> Result<Vec<Places>, AllocError>
    ensures { IfOk result
        (λ all. (file : List ℕ) → section_count file ≡ count → HoldBefore file [] all.items) }
{
    let mut all = Vec::new(alloc);
    for _ in 0..count {
        all.push(Places::new(alloc))?;
    }
    Ok(all)
}

/// Looks at the records of a section.
fn check_records(
    alloc: Global,
    tables: &Tables<'_>,
    header: &SectionHeader,
    held: &mut [Places],
) -> Result<(), FileFault>
    requires linked { is_linked tables.now.names.view.file.now header.now ≡ true }
    requires long { length held.old ≡ section_count tables.now.names.view.file.now }
    ensures { (before : List FileSection) (i : ℕ)
        → HoldBefore tables.now.names.view.file.now before held.old
        → MatchResult result
        (λ _. (first_true (records_tests tables.now.names.view.file.now before header.now) ≡ None)
        × HoldBefore tables.now.names.view.file.now
        (before ++ record { index = i; header = header.now } ∷ []) held.new)
        (λ fault. (fault ≡ OutOfMemory)
        ⊎ (first_true (records_tests tables.now.names.view.file.now before header.now)
        ≡ Some fault)) }
{
    if is_symbol_table(header) {
        return check_symbols(alloc, &tables.names.view, header);
    }
    if is_rela(header) {
        return check_target(&tables.names.view, header, held);
    }
    if tables.names.is_rows(header) {
        return check_rows(tables, header);
    }
    Ok(())
}

/// Looks at the relocations in a section, if these are of a loaded section.
fn check_target(
    view: &ElfView<'_>,
    header: &SectionHeader,
    held: &mut [Places],
) -> Result<(), FileFault>
    requires rela { is_rela header.now ≡ true }
    requires within { header.now.sh_info < section_count view.now.file.now }
    requires linked { header.now.sh_link < section_count view.now.file.now }
    requires long { length held.old ≡ section_count view.now.file.now }
    ensures { (before : List FileSection) (i : ℕ)
        → HoldBefore view.now.file.now before held.old
        → MatchResult result
        (λ _. (first_true (rela_tests view.now.file.now before header.now) ≡ None)
        × HoldBefore view.now.file.now
        (before ++ record { index = i; header = header.now } ∷ []) held.new)
        (λ fault. (fault ≡ OutOfMemory)
        ⊎ (first_true (rela_tests view.now.file.now before header.now) ≡ Some fault)) }
{
    let target = view.section_header(SectionIndex(header.sh_info as u16));
    if !is_loaded(&target) {
        return Ok(());
    }
    let symbols = count_symbols(view, header);
    let places = &mut held[header.sh_info as usize];
    check_relocations(&target, symbols, places, view.contents(header))
}
