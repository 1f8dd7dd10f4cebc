//! The section and the record for which an object's file is refused by F1, F6 and F7: what passes the end of the file, names
//! without an end, and indexes of what there is not.

use crate::records::Wrong;
use rv_elf::{
    ElfView, SHF_ALLOC, SHN_ABS, SHN_UNDEF, SHT_NOBITS, SHT_RELA, SHT_SYMTAB, STB_GLOBAL,
    STB_LOCAL, STB_WEAK, SectionIndex, lies_past,
};
use rv_elf_laws::{SectionHeader, Symbol};
use rv_inspect::{
    bytes_of, count_relas, count_symbols, rela_at, section_named, symbol_at, symbol_name,
};

/// The home of a symbol that is common (gABI, "Symbol Table").
const SHN_COMMON: u16 = 0xFFF2;

/// What is wrong where the bytes of a section pass the end of the file.
pub(crate) fn past_end(view: &ElfView<'_>, header: &SectionHeader) -> Option<&'static str> {
    let has_bytes = header.sh_type != SHT_NOBITS;
    if has_bytes && lies_past(view.file(), header.sh_offset, header.sh_size) {
        return Some("has bytes behind the end of the file");
    }
    None
}

/// What is wrong with the name of a section, or with those of its symbols.
pub(crate) fn wrong_name(
    view: &ElfView<'_>,
    section: u16,
    header: &SectionHeader,
) -> Option<Wrong> {
    let names = view.header().e_shstrndx;
    let has_name = names < view.header().e_shnum
        && view.name(SectionIndex(names), header.sh_name).is_some();
    if names != 0 && !has_name {
        return Some(Wrong::of_section(section, "has a name without an end"));
    }
    if header.sh_type != SHT_SYMTAB {
        return None;
    }
    Some(Wrong {
        section,
        record: Some(badly_named(view, header)?),
        what: "has a name without an end, or one that a map cannot show",
    })
}

/// The first symbol of a table whose name has no end, or is none that all objects see.
fn badly_named(view: &ElfView<'_>, header: &SectionHeader) -> Option<usize> {
    let symbols = bytes_of(view, header).ok()?;
    let strings = bytes_of(view, &section_named(view, header.sh_link).ok()?).ok()?;
    for record in 1..count_symbols(symbols) {
        if is_badly_named(view, strings, &symbol_at(symbols, record)?) {
            return Some(record);
        }
    }
    None
}

/// Whether the name of a symbol has no end, or is none that all objects see.
fn is_badly_named(view: &ElfView<'_>, strings: &[u8], symbol: &Symbol) -> bool {
    let is_shared = symbol.st_info / 16 != STB_LOCAL;
    if symbol.st_name == 0 {
        return is_shared;
    }
    match symbol_name(view, strings, symbol) {
        Ok(name) => is_shared && !is_shown(name),
        Err(_) => true,
    }
}

/// Whether a map can show a name.
fn is_shown(name: &[u8]) -> bool {
    !name.is_empty() && name.iter().all(|byte| byte.is_ascii_graphic())
}

/// What is wrong with what a section names, or what its records name.
pub(crate) fn wrong_index(
    view: &ElfView<'_>,
    section: u16,
    header: &SectionHeader,
) -> Option<Wrong> {
    match header.sh_type {
        SHT_SYMTAB => wrong_symbol(view, section, header),
        SHT_RELA => wrong_target(view, section, header),
        _ => None,
    }
}

/// What is wrong with a table of symbols, or with one of them.
fn wrong_symbol(view: &ElfView<'_>, section: u16, header: &SectionHeader) -> Option<Wrong> {
    if !is_section(view, header.sh_link) {
        return Some(Wrong::of_section(
            section,
            "names a section for its strings that there is not",
        ));
    }
    let symbols = bytes_of(view, header).ok()?;
    for record in 1..count_symbols(symbols) {
        if let Some(what) = wrong_home(view, &symbol_at(symbols, record)?) {
            return Some(Wrong {
                section,
                record: Some(record),
                what,
            });
        }
    }
    None
}

/// What is wrong with the binding of a symbol or with its home.
fn wrong_home(view: &ElfView<'_>, symbol: &Symbol) -> Option<&'static str> {
    let home = symbol.st_shndx;
    let binding = symbol.st_info / 16;
    if binding != STB_LOCAL && binding != STB_GLOBAL && binding != STB_WEAK {
        return Some("is neither local, global nor weak");
    }
    if home == SHN_COMMON {
        return Some("is common: compile with -fno-common, and write no .comm");
    }
    if home != SHN_UNDEF && home != SHN_ABS && view.header().e_shnum <= home {
        return Some("is in a section that there is not");
    }
    None
}

/// What is wrong with a section of relocations, or with one of them.
fn wrong_target(view: &ElfView<'_>, section: u16, header: &SectionHeader) -> Option<Wrong> {
    if let Some(what) = wrong_link(view, header) {
        return Some(Wrong::of_section(section, what));
    }
    let symbols = section_named(view, header.sh_link).ok()?;
    let count = count_symbols(bytes_of(view, &symbols).ok()?);
    let target = section_named(view, header.sh_info).ok()?;
    if target.sh_flags & SHF_ALLOC == 0 {
        return None;
    }
    Some(Wrong {
        section,
        record: Some(record_past(bytes_of(view, header).ok()?, count)?),
        what: "names a symbol that there is not",
    })
}

/// The first of some relocations that names none of so many symbols.
fn record_past(relas: &[u8], count: usize) -> Option<usize> {
    for record in 0..count_relas(relas) {
        let symbol = rela_at(relas, record)?.r_sym as usize;
        if symbol != 0 && count <= symbol {
            return Some(record);
        }
    }
    None
}

/// What is wrong with the sections that a section of relocations names.
fn wrong_link(view: &ElfView<'_>, header: &SectionHeader) -> Option<&'static str> {
    if !is_section(view, header.sh_link) {
        return Some("names a section for its symbols that there is not");
    }
    if !is_section(view, header.sh_info) {
        return Some("is of a section that there is not");
    }
    let symbols = section_named(view, header.sh_link).ok()?;
    let target = section_named(view, header.sh_info).ok()?;
    if target.sh_flags & SHF_ALLOC != 0 && symbols.sh_type != SHT_SYMTAB {
        return Some("names a section for its symbols that is no table of symbols");
    }
    None
}

/// Whether there is a section of this index.
fn is_section(view: &ElfView<'_>, index: u32) -> bool {
    0 < index && index < u32::from(view.header().e_shnum)
}
