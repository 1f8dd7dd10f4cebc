//! The places of objects that a fault of the link is about: which refer to a name, and which define it.

use crate::records::put_name;
use crate::sites::{Site, sites_in};
use crate::tables::{name_of_section, row_of, symbol_named};
use rv_elf::{ElfView, SHN_UNDEF, SHT_SYMTAB, STB_GLOBAL};
use rv_inspect::{bytes_of, count_symbols, section_at, section_named};
use rv_object_reader::RowRecord;
use std::alloc::{AllocError, Global};

/// The most references to a name that are shown.
const MOST_REFERENCES: usize = 20;

/// Shows the references to a name that has no meaning.
pub(crate) fn show_references(
    alloc: Global,
    names: &[&str],
    files: &[&[u8]],
    name: &[u8],
    text: &mut String,
) -> Result<(), AllocError> {
    let mut left = MOST_REFERENCES;
    for file in 0..files.len() {
        let all = sites_in(alloc, files[file], file)?;
        left = show_sites_of(alloc, names, files, all.as_slice(), name, left, text)?;
    }
    Ok(())
}

/// Shows those relocations of a file that name a symbol, so many at most; how many more there may be.
fn show_sites_of(
    alloc: Global,
    names: &[&str],
    files: &[&[u8]],
    sites: &[Site],
    name: &[u8],
    most: usize,
    text: &mut String,
) -> Result<usize, AllocError> {
    let mut left = most;
    for site in sites {
        if left == 0 {
            break;
        }
        if refers_to(files, site, name) {
            show_site(alloc, names, files, site, text)?;
            left = left.saturating_sub(1);
        }
    }
    Ok(left)
}

/// Whether a relocation names a symbol of another object.
fn refers_to(files: &[&[u8]], site: &Site, name: &[u8]) -> bool {
    let Some(file) = files.get(site.file) else {
        return false;
    };
    let Ok(view) = ElfView::open(file) else {
        return false;
    };
    match symbol_named(&view, site.symbols, site.rela.r_sym) {
        Some(symbol) => symbol.section == SHN_UNDEF
            && symbol.binding == STB_GLOBAL
            && symbol.name == name,
        None => false,
    }
}

/// Shows a relocation's place.
pub(crate) fn show_site(
    alloc: Global,
    names: &[&str],
    files: &[&[u8]],
    site: &Site,
    text: &mut String,
) -> Result<(), AllocError> {
    show_place(
        alloc,
        names,
        files,
        site.file,
        site.section,
        site.rela.r_offset,
        text,
    )
}

/// Shows the symbols that define a name for all objects.
pub(crate) fn show_definitions(
    alloc: Global,
    names: &[&str],
    files: &[&[u8]],
    name: &[u8],
    text: &mut String,
) -> Result<(), AllocError> {
    for file in 0..files.len() {
        if let Some((section, offset)) = definition_in(files[file], name, STB_GLOBAL) {
            show_place(alloc, names, files, file, section, offset, text)?;
        }
    }
    Ok(())
}

/// The section and the offset that a file gives, by this binding, to a name for all objects; none where it does not.
pub(crate) fn definition_in(file: &[u8], name: &[u8], binding: u8) -> Option<(u32, u64)> {
    let view = ElfView::open(file).ok()?;
    definition_of(&view, index_of_symbols(&view)?, name, binding)
}

/// The section and the offset that a table of symbols gives to a name, by this binding.
fn definition_of(view: &ElfView<'_>, table: u32, name: &[u8], binding: u8) -> Option<(u32, u64)> {
    for index in 0..count_of(view, table) {
        let symbol = symbol_named(view, table, u32::try_from(index).ok()?)?;
        if symbol.binding == binding && symbol.section != SHN_UNDEF && symbol.name == name {
            return Some((u32::from(symbol.section), symbol.value));
        }
    }
    None
}

/// The index of the section that has the symbols of a file.
pub(crate) fn index_of_symbols(view: &ElfView<'_>) -> Option<u32> {
    for index in 0..view.header().e_shnum {
        match section_at(view, index) {
            Some(header) if header.sh_type == SHT_SYMTAB => return Some(u32::from(index)),
            _ => {}
        }
    }
    None
}

/// How many symbols a table has.
pub(crate) fn count_of(view: &ElfView<'_>, table: u32) -> usize {
    let Ok(header) = section_named(view, table) else {
        return 0;
    };
    match bytes_of(view, &header) {
        Ok(symbols) => count_symbols(symbols),
        Err(_) => 0,
    }
}

/// Shows a place of a file, as `a.o: .text+0x12, line 5 of its source`; a number has no section.
fn show_place(
    alloc: Global,
    names: &[&str],
    files: &[&[u8]],
    file: usize,
    section: u32,
    offset: u64,
    text: &mut String,
) -> Result<(), AllocError> {
    let title = names.get(file).copied().unwrap_or("");
    let bytes = files.get(file).copied().unwrap_or(b"");
    let head = format!(in alloc; "  {title}: ")?;
    put_name(text, head.as_str(), section_in(bytes, section))?;
    put_offset(alloc, offset, row_of(bytes, section, offset), text)
}

/// The name of the section of an index; no byte where a file has none.
fn section_in(file: &[u8], section: u32) -> &[u8] {
    match ElfView::open(file) {
        Ok(view) => name_of_section(&view, section),
        Err(_) => b"",
    }
}

/// Shows an offset, and the line of its row if it has one.
fn put_offset(
    alloc: Global,
    offset: u64,
    row: Option<RowRecord>,
    text: &mut String,
) -> Result<(), AllocError> {
    let place = match row {
        Some(row) => {
            let line = row.r_line;
            format!(in alloc; "+0x{offset:x}, line {line} of its source\n")?
        }
        None => format!(in alloc; "+0x{offset:x}\n")?,
    };
    text.push_str(place.as_str())
}
