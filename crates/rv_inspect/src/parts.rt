//! The records of any file, by their index: none where the file has none there.

use rv_elf::{
    ElfView, RELA_SIZE, SHT_NOBITS, SHT_SYMTAB, SYMBOL_SIZE, SectionIndex, SymbolIndex, lies_past,
    rela_in, symbol_in,
};
use rv_elf_laws::{Rela, SectionHeader, Symbol};
use rv_fault::FileFault;

/// The header of the section of this index.
pub fn section_at(view: &ElfView<'_>, index: u16) -> Option<SectionHeader> {
    if index >= view.header().e_shnum {
        return None;
    }
    Some(view.section_header(SectionIndex(index)))
}

/// The header of the section that another names (`sh_link`, `sh_info`).
pub fn section_named(view: &ElfView<'_>, index: u32) -> Result<SectionHeader, FileFault> {
    if index >= u32::from(view.header().e_shnum) {
        return Err(FileFault::BadIndex);
    }
    section_at(view, index as u16).ok_or(FileFault::BadIndex)
}

/// The bytes of a section, which lie in the file.
pub fn bytes_of<'a>(view: &ElfView<'a>, header: &SectionHeader) -> Result<&'a [u8], FileFault> {
    if header.sh_type != SHT_NOBITS && lies_past(view.file(), header.sh_offset, header.sh_size) {
        return Err(FileFault::Truncated);
    }
    Ok(view.contents(header))
}

/// The header of the symbol table, if the file has one.
pub fn symbol_table(view: &ElfView<'_>) -> Option<SectionHeader> {
    for index in 0..view.header().e_shnum {
        if let Some(header) = section_at(view, index) {
            if header.sh_type == SHT_SYMTAB {
                return Some(header);
            }
        }
    }
    None
}

/// How many symbols a table of these bytes has.
pub fn count_symbols(bytes: &[u8]) -> usize {
    bytes.len() / SYMBOL_SIZE
}

/// The symbol of this index in a table of these bytes.
pub fn symbol_at(bytes: &[u8], index: usize) -> Option<Symbol> {
    let place = index.checked_mul(SYMBOL_SIZE)?;
    let rest = bytes.get(place..)?;
    if rest.len() < SYMBOL_SIZE {
        return None;
    }
    Some(symbol_in(rest, SymbolIndex(0)))
}

/// How many relocations a section of these bytes has.
pub fn count_relas(bytes: &[u8]) -> usize {
    bytes.len() / RELA_SIZE
}

/// The relocation of this index in a section of these bytes.
pub fn rela_at(bytes: &[u8], index: usize) -> Option<Rela> {
    let place = index.checked_mul(RELA_SIZE)?;
    let rest = bytes.get(place..)?;
    if rest.len() < RELA_SIZE {
        return None;
    }
    Some(rela_in(rest, 0))
}
