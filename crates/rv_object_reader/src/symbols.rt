//! The symbols of an object.

ghost use Rattle.std.specs.Prelude.{◌≡◌, true, None, IfOk, drop, map};
ghost use Rattle.std.specs.List.{AllByRecursion};
ghost use Rattle.rv_elf_laws.specs.FirstFault.{first_true};
ghost use Rattle.rv_elf_laws.specs.Sections.{symbols_in as records_in};
ghost use Rattle.rv_object_types.specs.Parts.{symbol_of};
ghost use Rattle.rv_object_file_laws.specs.FirstFault.{has_home, symbol_tests};
ghost use Rattle.rv_object_file_laws.specs.ObjectOf.{names_of, symbol_in, definition_in};
ghost use Rattle.rv_object_file_laws.specs.Parts.{symbol_records, symbol_table};

use crate::checked::Checked;
use crate::parts::binding;
use crate::strings::Strings;
use crate::symbol_checks::symbol_from;
use rv_elf::{SHN_ABS, SHN_UNDEF, SYMBOL_SIZE, SectionIndex};
use rv_elf_laws::Symbol as SymbolRecord;
use rv_object_types::{Definition, Symbol};
use std::alloc::{AllocError, Global};

/// The symbols of a file, but for symbol 0.
pub(crate) fn symbols<'a>(
    alloc: Global,
    checked: &Checked<'a>,
) -> Result<Vec<Symbol<'a>>, AllocError>
    ensures { IfOk result (λ symbols. map symbol_of symbols.items
        ≡ map (symbol_in checked.now.view.file.now)
        (drop 1 (symbol_records checked.now.view.file.now))) }
{
    let Some(table) = checked.symbol_table() else {
        return Ok(Vec::new(alloc));
    };
    let header = checked.view.section_header(table);
    let names = checked.view.section(SectionIndex(header.sh_link as u16));
    let strings = Strings::of(alloc, names)?;
    symbols_in(alloc, checked, checked.view.contents(&header), &strings)
}

/// The symbols in a table of these bytes, but for symbol 0, whose names stand in a table of strings.
fn symbols_in<'a>(
    alloc: Global,
    checked: &Checked<'a>,
    bytes: &[u8],
    names: &Strings<'a>,
) -> Result<Vec<Symbol<'a>>, AllocError>
    requires named { names.now.table.now
        ≡ names_of checked.now.view.file.now (symbol_table checked.now.view.file.now) }
    requires good { AllByRecursion
        (λ s. first_true (symbol_tests checked.now.view.file.now names.now.table.now s) ≡ None)
        (drop 1 (records_in bytes.now)) }
    ensures { IfOk result (λ symbols. map symbol_of symbols.items
        ≡ map (symbol_in checked.now.view.file.now) (drop 1 (records_in bytes.now))) }
{
    let others = (bytes.len() / SYMBOL_SIZE).saturating_sub(1);
    let mut symbols = Vec::with_capacity(alloc, others)?;
    for earlier in 0..others {
        symbols.push(symbol(checked, names, &symbol_from(bytes, earlier + 1)))?;
    }
    Ok(symbols)
}

/// The symbol of a record.
fn symbol<'a>(checked: &Checked<'a>, names: &Strings<'a>, entry: &SymbolRecord) -> Symbol<'a>
    requires named { names.now.table.now
        ≡ names_of checked.now.view.file.now (symbol_table checked.now.view.file.now) }
    requires good { first_true
        (symbol_tests checked.now.view.file.now names.now.table.now entry.now) ≡ None }
    ensures { symbol_of result ≡ symbol_in checked.now.view.file.now entry.now }
{
    Symbol {
        name: names.name(entry.st_name),
        binding: binding(entry),
        definition: definition(checked, entry),
    }
}

/// Where a symbol stands.
fn definition(checked: &Checked<'_>, entry: &SymbolRecord) -> Definition
    requires { has_home checked.now.view.file.now entry.now ≡ true }
    ensures { result ≡ definition_in checked.now.view.file.now entry.now }
{
    if entry.st_shndx == SHN_UNDEF {
        return Definition::Undefined;
    }
    if entry.st_shndx == SHN_ABS {
        return Definition::Absolute(entry.st_value);
    }
    match checked.place(SectionIndex(entry.st_shndx)) {
        Some(place) => Definition::InSection(u32::from(place), entry.st_value),
        None => Definition::Skipped(entry.st_value),
    }
}
