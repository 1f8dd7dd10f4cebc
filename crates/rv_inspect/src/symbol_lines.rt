//! The lines of a file's symbols.

use crate::columns::Column::{Decimal, Hexadecimal, Left, Name, Padded, Text};
use crate::columns::{Column, put_columns};
use crate::parts::{bytes_of, count_symbols, section_at, section_named, symbol_at};
use crate::section_lines::section_name;
use rv_elf::{ElfView, SHN_ABS, SHN_UNDEF, SHT_SYMTAB, STB_GLOBAL, STB_LOCAL, STB_WEAK, string_in};
use rv_elf_laws::{SectionHeader, Symbol};
use rv_fault::FileFault;
use std::alloc::AllocError;

/// The lower half of `st_info`: the symbol stands for a section (gABI, STT_SECTION).
const STT_SECTION: u8 = 3;
/// `st_shndx`: the symbol is to get bytes of its own (gABI, SHN_COMMON).
const SHN_COMMON: u16 = 0xFFF2;
/// The largest size that stands there in decimal.
const DECIMAL: u64 = 99_999;

const HEADING: &[u8] = b"   Num:    Value          Size Type    Bind   Vis      Ndx Name\n";

/// How far the lines of the symbol tables are.
#[derive(Drop)]
pub(crate) struct SymbolLines<'a> {
    /// The index of the section after the one whose lines are added.
    section: u16,
    /// That one's symbols, and the index of the next of them.
    symbols: &'a [u8],
    index: usize,
    strings: &'a [u8],
}

impl<'a> SymbolLines<'a> {
    /// At their beginning.
    pub(crate) fn new() -> SymbolLines<'a> {
        SymbolLines {
            section: 0,
            symbols: b"",
            index: 0,
            strings: b"",
        }
    }

    /// Adds the line of the next symbol, or the lines above those of the next table; false where none is left.
    pub(crate) fn next(
        &mut self,
        text: &mut Vec<u8>,
        view: &ElfView<'a>,
    ) -> Result<bool, AllocError> {
        if let Some(symbol) = symbol_at(self.symbols, self.index) {
            let name = symbol_name(view, self.strings, &symbol).unwrap_or(b"");
            put_symbol(text, self.index, &symbol, name)?;
            self.index = self.index.saturating_add(1);
            return Ok(true);
        }
        let Some(header) = self.next_table(view) else {
            return Ok(false);
        };
        let count = count_symbols(self.symbols);
        put_heading(text, section_name(view, &header), count)?;
        Ok(true)
    }

    /// Goes on to the next symbol table; its header, if there is one.
    fn next_table(&mut self, view: &ElfView<'a>) -> Option<SectionHeader> {
        for index in self.section..view.header().e_shnum {
            self.section = index.saturating_add(1);
            if let Some(header) = section_at(view, index) {
                if header.sh_type == SHT_SYMTAB {
                    self.symbols = bytes_of(view, &header).unwrap_or(b"");
                    self.strings = strings_of(view, &header).unwrap_or(b"");
                    self.index = 0;
                    return Some(header);
                }
            }
        }
        None
    }
}

/// Finds the first fault of the symbol tables, after which their lines have none.
pub(crate) fn check_symbols(view: &ElfView<'_>) -> Result<(), FileFault> {
    for index in 0..view.header().e_shnum {
        let header = section_at(view, index).ok_or(FileFault::BadIndex)?;
        if header.sh_type == SHT_SYMTAB {
            check_table(view, &header)?;
        }
    }
    Ok(())
}

/// Finds the first fault of a symbol table.
fn check_table(view: &ElfView<'_>, header: &SectionHeader) -> Result<(), FileFault> {
    let bytes = bytes_of(view, header)?;
    let strings = strings_of(view, header)?;
    for index in 0..count_symbols(bytes) {
        let symbol = symbol_at(bytes, index).ok_or(FileFault::Truncated)?;
        symbol_name(view, strings, &symbol)?;
    }
    Ok(())
}

/// The names of a symbol table.
fn strings_of<'a>(view: &ElfView<'a>, header: &SectionHeader) -> Result<&'a [u8], FileFault> {
    bytes_of(view, &section_named(view, header.sh_link)?)
}

/// Adds the lines above the symbols.
fn put_heading(text: &mut Vec<u8>, name: &[u8], count: usize) -> Result<(), AllocError> {
    put_columns(
        text,
        &[
            Text(b"\nSymbol table '"),
            Name(name, 0),
            Text(b"' contains "),
            Decimal(count as u64, 0),
            Text(if count == 1 {
                b" entry:\n"
            } else {
                b" entries:\n"
            }),
            Text(HEADING),
        ],
    )
}

/// Adds the line of a symbol.
fn put_symbol(
    text: &mut Vec<u8>,
    index: usize,
    symbol: &Symbol,
    name: &[u8],
) -> Result<(), AllocError> {
    let size = symbol.st_size;
    let is_large = size > DECIMAL;
    put_columns(
        text,
        &[
            Decimal(index as u64, 6),
            Text(b": "),
            Padded(symbol.st_value, 16),
            Text(if is_large { b" 0x" } else { b" " }),
            if is_large {
                Hexadecimal(size, 0)
            } else {
                Decimal(size, 5)
            },
            Text(b" "),
            Left(type_name(symbol.st_info % 16), 7),
            Text(b" "),
            Left(binding_name(symbol.st_info / 16), 6),
            Text(b" "),
            Left(visibility_name(symbol.st_other % 4), 7),
            Text(b" "),
            home(symbol.st_shndx),
            Text(b" "),
            Name(name, 0),
            Text(b"\n"),
        ],
    )
}

/// Where a symbol stands.
fn home<'a>(section: u16) -> Column<'a> {
    match section {
        SHN_UNDEF => Text(b" UND"),
        SHN_ABS => Text(b" ABS"),
        SHN_COMMON => Text(b" COM"),
        _ => Decimal(u64::from(section), 4),
    }
}

/// The name of a symbol; that of its section where it stands for one and has none.
pub fn symbol_name<'a>(
    view: &ElfView<'a>,
    strings: &'a [u8],
    symbol: &Symbol,
) -> Result<&'a [u8], FileFault> {
    if symbol.st_name != 0 {
        return string_in(strings, symbol.st_name).ok_or(FileFault::BadString);
    }
    if symbol.st_info % 16 != STT_SECTION {
        return Ok(b"");
    }
    match section_at(view, symbol.st_shndx) {
        Some(header) => Ok(section_name(view, &header)),
        None => Ok(b""),
    }
}

/// The name of a type of symbols (gABI, "Symbol Table").
fn type_name(kind: u8) -> &'static [u8] {
    match kind {
        0 => b"NOTYPE",
        1 => b"OBJECT",
        2 => b"FUNC",
        STT_SECTION => b"SECTION",
        4 => b"FILE",
        5 => b"COMMON",
        6 => b"TLS",
        _ => b"<other>",
    }
}

/// The name of a binding (gABI, "Symbol Table").
fn binding_name(binding: u8) -> &'static [u8] {
    match binding {
        STB_LOCAL => b"LOCAL",
        STB_GLOBAL => b"GLOBAL",
        STB_WEAK => b"WEAK",
        _ => b"<other>",
    }
}

/// The name of a visibility (gABI, "Symbol Table").
fn visibility_name(visibility: u8) -> &'static [u8] {
    match visibility {
        0 => b"DEFAULT",
        1 => b"INTERNAL",
        2 => b"HIDDEN",
        _ => b"PROTECTED",
    }
}
