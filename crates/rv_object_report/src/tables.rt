//! What the tables of an object's file say of a place in a section: its name, and the row of the statement that stands there.

use crate::sites::Site;
use rv_elf::ElfView;
use rv_elf_laws::SectionHeader;
use rv_inspect::{bytes_of, section_at, section_name, section_named, symbol_at, symbol_name};
use rv_object_reader::{ROW_SIZE, RowRecord, row_in};

/// The name of the section that has the rows of statements.
const ROWS: &[u8] = b".rv.rows";

/// The name of the section of an index; no byte where there is none.
pub(crate) fn name_of_section<'a>(view: &ElfView<'a>, index: u32) -> &'a [u8] {
    match section_named(view, index) {
        Ok(header) => section_name(view, &header),
        Err(_) => b"",
    }
}

/// A symbol of a table of symbols.
#[derive(Clone, Copy, Drop)]
pub(crate) struct NamedSymbol<'a> {
    /// Its name, or that of its section where it has none.
    pub name: &'a [u8],
    /// The index of its section, as the table has it.
    pub section: u16,
    /// Its binding: `STB_LOCAL`, `STB_GLOBAL` or `STB_WEAK`.
    pub binding: u8,
    /// Its offset in its section, or its number.
    pub value: u64,
}

/// The symbol of an index of the table of symbols that a section names; none where the file has no such symbol.
pub(crate) fn symbol_named<'a>(
    view: &ElfView<'a>,
    table: u32,
    index: u32,
) -> Option<NamedSymbol<'a>> {
    let header = section_named(view, table).ok()?;
    let symbols = bytes_of(view, &header).ok()?;
    let strings = bytes_of(view, &section_named(view, header.sh_link).ok()?).ok()?;
    let symbol = symbol_at(symbols, index as usize)?;
    let name = symbol_name(view, strings, &symbol).ok()?;
    let shown = if name.is_empty() {
        name_of_section(view, u32::from(symbol.st_shndx))
    } else {
        name
    };
    Some(NamedSymbol {
        name: shown,
        section: symbol.st_shndx,
        binding: symbol.st_info / 16,
        value: symbol.st_value,
    })
}

/// The name of the symbol of a relocation, or that of its section where it has none.
pub fn symbol_of<'a>(file: &'a [u8], site: &Site) -> &'a [u8] {
    let Ok(view) = ElfView::open(file) else {
        return b"";
    };
    match symbol_named(&view, site.symbols, site.rela.r_sym) {
        Some(symbol) => symbol.name,
        None => b"",
    }
}

/// The row of the statement that has a byte of a section; none where the file has no rows, as that of another tool.
pub fn row_of(file: &[u8], section: u32, offset: u64) -> Option<RowRecord> {
    let view = ElfView::open(file).ok()?;
    let rows = bytes_of(&view, &rows_header(&view)?).ok()?;
    for index in 0..rows.len() / ROW_SIZE {
        let row = row_at(rows, index)?;
        let stop = row.r_offset.saturating_add(u64::from(row.r_bytes));
        if row.r_section == section && row.r_offset <= offset && offset < stop {
            return Some(row);
        }
    }
    None
}

/// The row of this index in a section of these bytes.
pub(crate) fn row_at(bytes: &[u8], index: usize) -> Option<RowRecord> {
    let place = index.checked_mul(ROW_SIZE)?;
    let rest = bytes.get(place..)?;
    if rest.len() < ROW_SIZE {
        return None;
    }
    Some(row_in(rest, 0))
}

/// The header of the section that has the rows.
fn rows_header(view: &ElfView<'_>) -> Option<SectionHeader> {
    for index in 0..view.header().e_shnum {
        if let Some(header) = section_at(view, index) {
            if is_rows(view, &header) {
                return Some(header);
            }
        }
    }
    None
}

/// Whether a section has the rows of statements.
pub(crate) fn is_rows(view: &ElfView<'_>, header: &SectionHeader) -> bool {
    section_name(view, header) == ROWS
}
