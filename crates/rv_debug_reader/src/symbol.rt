//! The names of an executable by its symbol table.

use crate::section::{contents_of, header_at};
use crate::text::{is_shown, text_in};
use rv_elf::{
    ElfView, SHN_UNDEF, SHT_SYMTAB, STB_GLOBAL, STB_LOCAL, SYMBOL_SIZE, SymbolIndex, symbol_in,
};
use rv_elf_laws::{SectionHeader, Symbol};
use std::alloc::{AllocError, Global};

/// From here on, `st_shndx` names no section (gABI, SHN_LORESERVE).
const FIRST_RESERVED: u16 = 0xFF00;

/// A name and its address.
#[derive(Clone, Copy, Drop)]
pub struct NamedAddress<'e> {
    pub name: &'e [u8],
    pub address: u64,
    /// Which of the names of an address comes first: functions, then variables, then others, and global names before local ones.
    pub rank: u8,
}

/// The names that stand in sections, in the order of the table: none of a section or a source, of local use (`.L`), or a
/// mark of code and data (`$x`, `$d`).
pub(crate) fn names_of<'e>(
    alloc: Global,
    view: &ElfView<'e>,
) -> Result<Vec<NamedAddress<'e>>, AllocError> {
    let mut names = Vec::new(alloc);
    let Some(table) = symbol_table(view) else {
        return Ok(names);
    };
    let strings = match header_at(view, table.sh_link) {
        Some(header) => contents_of(view, &header),
        None => return Ok(names),
    };
    let table = contents_of(view, &table);
    for index in 0..table.len() / SYMBOL_SIZE {
        let symbol = symbol_in(&table[SYMBOL_SIZE * index..], SymbolIndex(0));
        if let Some(name) = name_of(strings, &symbol) {
            names.push(name)?;
        }
    }
    Ok(names)
}

/// The header of the symbol table, if there is one.
fn symbol_table(view: &ElfView<'_>) -> Option<SectionHeader> {
    for index in 0..view.header().e_shnum {
        let header = header_at(view, u32::from(index))?;
        if header.sh_type == SHT_SYMTAB {
            return Some(header);
        }
    }
    None
}

/// The name of a symbol that stands in a section and is shown.
fn name_of<'e>(strings: &'e [u8], symbol: &Symbol) -> Option<NamedAddress<'e>> {
    let rank = rank_of(symbol)?;
    if symbol.st_shndx == SHN_UNDEF || symbol.st_shndx >= FIRST_RESERVED {
        return None;
    }
    let name = text_in(strings, u64::from(symbol.st_name))?;
    if !is_shown(name) || !is_given(name) {
        return None;
    }
    Some(NamedAddress {
        name,
        address: symbol.st_value,
        rank,
    })
}

/// By its type (STT_FUNC, STT_OBJECT, STT_NOTYPE) and its binding; none of a type that names no place.
fn rank_of(symbol: &Symbol) -> Option<u8> {
    let kind = match symbol.st_info % 16 {
        2 => 0,
        1 => 3,
        0 => 6,
        _ => return None,
    };
    let binding = match symbol.st_info / 16 {
        STB_GLOBAL => 0,
        STB_LOCAL => 2,
        _ => 1,
    };
    Some(kind + binding)
}

/// Whether people gave the name: it is none of local use, and no mark of code and data.
fn is_given(name: &[u8]) -> bool {
    !name.starts_with(b"$x") && !name.starts_with(b"$d") && !name.starts_with(b".L")
}
