//! The names of a file and where they stand, in the columns of GNU's `nm`.

use crate::columns::Column::{Left, Name, Padded, Text};
use crate::columns::put_columns;
use crate::letter::letter_of;
use crate::parts::{bytes_of, count_symbols, section_named, symbol_at, symbol_table};
use rv_elf::{ElfView, SHN_UNDEF, string_in};
use rv_elf_laws::Symbol;
use rv_fault::FileFault;
use rv_json::{name, number_or_null};
use rv_map::{Global as MapGlobal, Map};
use rv_map_laws::Region;
use serde_json::{Map as Members, Value, put};
use std::alloc::{AllocError, Global};

/// The lower half of `st_info`: the symbol stands for a section (gABI, STT_SECTION).
const STT_SECTION: u8 = 3;
/// The lower half of `st_info`: the symbol is the name of a source (gABI, STT_FILE).
const STT_FILE: u8 = 4;

/// A line of the table.
#[derive(Drop)]
struct Named<'a> {
    name: &'a [u8],
    letter: u8,
    /// Where it stands, or its number; `None` where it is not defined here.
    value: Option<u64>,
}

/// The names of a file or a map, whose lines are made one by one: names that end in one string may have lines that are
/// very much longer than their file.
#[derive(Drop)]
pub struct NameLines<'a> {
    /// The names in their order.
    names: Vec<Named<'a>>,
    /// How many of them have been added.
    added: usize,
}

impl<'a> NameLines<'a> {
    /// The symbols of a file by name, a line each; none where it has no symbol table.
    ///
    /// Left out are symbols of sections and sources, those without a name, and those that assemblers make for themselves:
    /// as GNU's `nm` leaves them out.
    pub fn of_file(alloc: Global, file: &'a [u8]) -> Result<Option<Self>, FileFault> {
        let view = ElfView::open(file)?;
        let Some(table) = symbol_table(&view) else {
            return Ok(None);
        };
        let bytes = bytes_of(&view, &table)?;
        let strings = bytes_of(&view, &section_named(&view, table.sh_link)?)?;
        let mut names = Vec::new(alloc);
        add_symbols(&mut names, &view, bytes, strings)?;
        Ok(Some(NameLines::of(names)?))
    }

    /// The global names of a map by name, a line each.
    pub fn of_map(alloc: Global, map: &'a Map) -> Result<Self, AllocError> {
        let mut names = Vec::new(alloc);
        add_globals(&mut names, map)?;
        NameLines::of(names)
    }

    /// Those of these names.
    fn of(mut names: Vec<Named<'a>>) -> Result<Self, AllocError> {
        names.sort_by_key(|named| named.name)?;
        Ok(NameLines { names, added: 0 })
    }

    /// Adds the next name as an object of JSON in a line; false where none is left.
    pub fn next_object(&mut self, text: &mut Vec<u8>) -> Result<bool, AllocError> {
        let Some(named) = self.names.get(self.added) else {
            return Ok(false);
        };
        put_object(text, named)?;
        self.added = self.added.saturating_add(1);
        Ok(true)
    }

    /// Adds the next line; false where none is left.
    pub fn next(&mut self, text: &mut Vec<u8>) -> Result<bool, AllocError> {
        let Some(named) = self.names.get(self.added) else {
            return Ok(false);
        };
        put_line(text, named)?;
        self.added = self.added.saturating_add(1);
        Ok(true)
    }
}

/// Adds the global names of a map.
fn add_globals<'a>(names: &mut Vec<Named<'a>>, map: &'a Map) -> Result<(), AllocError> {
    for global in &map.globals {
        names.push(Named {
            name: global.name.as_slice(),
            letter: global_letter(map, global),
            value: Some(global.address),
        })?;
    }
    Ok(())
}

/// The letter of a global name. Those that the linker makes at the ends of regions have that of their region.
fn global_letter(map: &Map, global: &MapGlobal) -> u8 {
    let name = global.name.as_slice();
    if name == b"_etext".as_slice() {
        b'T'
    } else if name == b"_edata".as_slice() {
        b'D'
    } else if name == b"__bss_start".as_slice() || name == b"_end".as_slice() {
        b'B'
    } else {
        region_letter(map, global.address)
    }
}

/// The letter of the region that an address lies in.
fn region_letter(map: &Map, address: u64) -> u8 {
    if is_in(&map.text, address) {
        b'T'
    } else if is_in(&map.rodata, address) {
        b'R'
    } else if is_in(&map.data, address) {
        b'D'
    } else if is_in(&map.bss, address) {
        b'B'
    } else {
        b'A'
    }
}

fn is_in(region: &Region, address: u64) -> bool {
    region.start <= address && address < region.end
}

/// Adds the symbols of a table that are shown.
fn add_symbols<'a>(
    names: &mut Vec<Named<'a>>,
    view: &ElfView<'a>,
    table: &'a [u8],
    strings: &'a [u8],
) -> Result<(), FileFault> {
    for index in 1..count_symbols(table).max(1) {
        let symbol = symbol_at(table, index).ok_or(FileFault::Truncated)?;
        let name = string_in(strings, symbol.st_name).ok_or(FileFault::BadString)?;
        if is_shown(&symbol, name) {
            names.push(Named {
                name,
                letter: letter_of(view, &symbol),
                value: value_of(&symbol),
            })?;
        }
    }
    Ok(())
}

fn value_of(symbol: &Symbol) -> Option<u64> {
    if symbol.st_shndx == SHN_UNDEF {
        return None;
    }
    Some(symbol.st_value)
}

/// Whether the table shows a symbol of this name.
fn is_shown(symbol: &Symbol, name: &[u8]) -> bool {
    let kind = symbol.st_info % 16;
    let is_own = name.starts_with(b".L") || name.starts_with(b"$d") || name.starts_with(b"$x");
    kind != STT_SECTION && kind != STT_FILE && !name.is_empty() && !is_own
}

/// Adds the object of a name.
fn put_object(text: &mut Vec<u8>, named: &Named<'_>) -> Result<(), AllocError> {
    let alloc = *text.allocator();
    let mut object = Members::new(alloc);
    put_members(alloc, &mut object, named)?;
    rv_json::put_line(alloc, text, &Value::Object(object))
}

/// Adds a name, its letter, and its value or null.
fn put_members(
    alloc: Global,
    object: &mut Members<String, Value>,
    named: &Named<'_>,
) -> Result<(), AllocError> {
    put(object, alloc, "name", name(alloc, named.name)?)?;
    put(object, alloc, "letter", name(alloc, &[named.letter])?)?;
    put(object, alloc, "value", number_or_null(alloc, named.value)?)
}

/// Adds the line of a name.
fn put_line(text: &mut Vec<u8>, named: &Named<'_>) -> Result<(), AllocError> {
    let value = match named.value {
        Some(value) => Padded(value, 16),
        None => Left(b"", 16),
    };
    put_columns(text, &[value, Text(b" ")])?;
    text.push(named.letter)?;
    put_columns(text, &[Text(b" "), Name(named.name, 0), Text(b"\n")])
}
