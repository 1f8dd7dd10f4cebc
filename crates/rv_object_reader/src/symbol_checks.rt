//! The symbols of a section.

ghost use Rattle.std.specs.Prelude.{◌≡◌, ◌⊎◌, ◌+◌, ◌*◌, ◌/◌, ◌==◌, ◌≤◌, ◌<◌, true, None, Some, MatchResult, drop, flat_map, length};
ghost use Rattle.rv_elf_laws.specs.Fields.{symbol_size};
ghost use Rattle.rv_elf_laws.specs.FirstFault.{Finds, first_true};
ghost use Rattle.rv_elf_laws.specs.Records.{symbol_at};
ghost use Rattle.rv_elf_laws.specs.Sections.{section_count, indexed_contents, file_contents, symbols_in};
ghost use Rattle.rv_fault.specs.declared.file_fault.FileFault.TheVariants.{OutOfMemory};
ghost use Rattle.rv_object_file_laws.specs.FirstFault.{symbol_tests, symbol_count, is_bad_name, has_binding, has_home, is_shared_record};
ghost use Rattle.rv_object_file_laws.specs.Parts.{is_section, name_at};

use crate::shown_strings::Strings;
use rv_elf::{
    ElfView, SHN_ABS, SHN_UNDEF, STB_GLOBAL, STB_LOCAL, STB_WEAK, SYMBOL_SIZE, SectionIndex,
    SymbolIndex, symbol_in,
};
use rv_elf_laws::{SectionHeader, Symbol};
use rv_fault::FileFault;
use std::alloc::Global;

/// How many symbols there are for these relocations, by the header of the table that they name, symbol 0 as well.
pub(crate) fn count_symbols(view: &ElfView<'_>, relocations: &SectionHeader) -> u64
    requires { relocations.now.sh_link < section_count view.now.file.now }
    ensures { result ≡ symbol_count view.now.file.now relocations.now }
{
    let table = view.section_header(SectionIndex(relocations.sh_link as u16));
    table.sh_size / SYMBOL_SIZE as u64
}

/// The symbol of this index in a section of these bytes.
pub(crate) fn symbol_from(bytes: &[u8], index: usize) -> Symbol
    requires { symbol_size * index + symbol_size ≤ length bytes.now }
    ensures { result ≡ symbol_at (symbol_size * index) bytes.now }
{
    symbol_in(&bytes[SYMBOL_SIZE * index..], SymbolIndex(0))
}

/// Looks at the symbols of a section, one after the other, but for symbol 0.
pub(crate) fn check_symbols(
    alloc: Global,
    view: &ElfView<'_>,
    header: &SectionHeader,
) -> Result<(), FileFault>
    requires { is_section view.now.file.now header.now.sh_link ≡ true }
    ensures { MatchResult result
        (λ _. first_true (flat_map
        (symbol_tests view.now.file.now (indexed_contents view.now.file.now header.now.sh_link))
        (drop 1 (symbols_in (file_contents view.now.file.now header.now)))) ≡ None)
        (λ fault. (fault ≡ OutOfMemory)
        ⊎ (first_true (flat_map
        (symbol_tests view.now.file.now (indexed_contents view.now.file.now header.now.sh_link))
        (drop 1 (symbols_in (file_contents view.now.file.now header.now)))) ≡ Some fault)) }
{
    let names = Strings::of(alloc, view.section(SectionIndex(header.sh_link as u16)))?;
    check_table(view, &names, view.contents(header))
}

/// Looks at the symbols in a table of these bytes, but for symbol 0.
fn check_table(view: &ElfView<'_>, names: &Strings<'_>, bytes: &[u8]) -> Result<(), FileFault>
    ensures { Finds
        (flat_map (symbol_tests view.now.file.now names.now.table.now)
        (drop 1 (symbols_in bytes.now))) result }
{
    let others = (bytes.len() / SYMBOL_SIZE).saturating_sub(1);
    for earlier in 0..others {
        let symbol = symbol_from(bytes, earlier + 1);
        check_symbol(view, names, &symbol)?;
    }
    Ok(())
}

/// Looks at a symbol, whose name stands in a table of strings.
#[tactic(auto, unfolding(rv_object_file_laws::specs::FirstFault::symbol_tests))]
fn check_symbol(view: &ElfView<'_>, names: &Strings<'_>, symbol: &Symbol) -> Result<(), FileFault>
    ensures { Finds (symbol_tests view.now.file.now names.now.table.now symbol.now) result }
{
    if is_bad_name(names, symbol) {
        return Err(FileFault::BadString);
    }
    if !has_binding(symbol) || !has_home(view, symbol) {
        return Err(FileFault::BadIndex);
    }
    Ok(())
}

/// Whether the symbol's name has no end, or is that of a symbol that all objects see and none that a map can show.
/// Offset 0 is no name.
fn is_bad_name(names: &Strings<'_>, symbol: &Symbol) -> bool
    ensures { result ≡ is_bad_name symbol.now
        (name_at names.now.table.now symbol.now.st_name) }
{
    if symbol.st_name == 0 {
        return is_shared(symbol);
    }
    if is_shared(symbol) {
        return !names.is_shown(symbol.st_name);
    }
    !names.has_end(symbol.st_name)
}

/// Whether all objects see the symbol.
fn is_shared(symbol: &Symbol) -> bool
    ensures { result ≡ is_shared_record symbol.now }
{
    symbol.st_info / 16 == STB_GLOBAL || symbol.st_info / 16 == STB_WEAK
}

/// Whether the symbol is local, global or weak.
fn has_binding(symbol: &Symbol) -> bool
    ensures { result ≡ has_binding symbol.now }
{
    symbol.st_info / 16 == STB_LOCAL || is_shared(symbol)
}

/// Whether the symbol is undefined, a number, or in a section.
fn has_home(view: &ElfView<'_>, symbol: &Symbol) -> bool
    ensures { result ≡ has_home view.now.file.now symbol.now }
{
    let home = symbol.st_shndx;
    home == SHN_UNDEF || home == SHN_ABS || home < view.header().e_shnum
}
