//! The names of a file's code and where code and data begin there, from its symbols or from a map.
//!
//! Data in code is told by the marks `$d` and `$x` that GNU's assembler makes. Sources of `rv` have none: there, what is no
//! instruction is the filling of an alignment.

use crate::labels::{Label, Labels};
use crate::marks::{Mark, Marks};
use crate::parts::{bytes_of, count_symbols, section_named, symbol_at, symbol_table};
use crate::relocations::{Relocation, file_relocations};
use rv_elf::{ET_REL, ElfView, SHN_ABS, SHN_UNDEF, STB_GLOBAL, STB_LOCAL, string_in};
use rv_elf_laws::{SectionHeader, Symbol};
use rv_fault::FileFault;
use rv_map::Map;
use std::alloc::{AllocError, Global};

/// The lower half of `st_info`: a variable (gABI, STT_OBJECT).
const STT_OBJECT: u8 = 1;
/// The lower half of `st_info`: a function (gABI, STT_FUNC).
const STT_FUNC: u8 = 2;
/// The lower half of `st_info`: the symbol stands for a section (gABI, STT_SECTION).
const STT_SECTION: u8 = 3;
/// The lower half of `st_info`: the symbol is the name of a source (gABI, STT_FILE).
const STT_FILE: u8 = 4;
/// From here on, `st_shndx` names no section (gABI, SHN_LORESERVE).
const FIRST_RESERVED: u16 = 0xFF00;

/// What stands where in a file.
#[derive(Drop)]
pub(crate) struct CodeNames<'a> {
    pub(crate) labels: Labels<'a>,
    pub(crate) marks: Marks,
    /// The value of `__global_pointer$`.
    pub(crate) pointer: Option<u64>,
    /// The relocations of an object, by their sections and places.
    pub(crate) relocations: Vec<Relocation<'a>>,
}

impl<'a> CodeNames<'a> {
    /// None yet.
    pub(crate) fn new(alloc: Global) -> CodeNames<'a> {
        CodeNames {
            labels: Labels::new(alloc),
            marks: Marks::new(alloc),
            pointer: None,
            relocations: Vec::new(alloc),
        }
    }

    /// Puts labels and marks in order.
    fn order(&mut self) -> Result<(), AllocError> {
        self.labels.order()?;
        self.marks.order()
    }

    /// Adds what the symbols of a file say.
    fn add_symbols(&mut self, view: &ElfView<'a>, table: &SectionHeader) -> Result<(), FileFault> {
        let symbols = bytes_of(view, table)?;
        let strings = bytes_of(view, &section_named(view, table.sh_link)?)?;
        for index in 1..count_symbols(symbols).max(1) {
            let symbol = symbol_at(symbols, index).ok_or(FileFault::Truncated)?;
            let name = string_in(strings, symbol.st_name).ok_or(FileFault::BadString)?;
            self.add_symbol(&symbol, name)?;
        }
        Ok(())
    }

    /// Adds what a symbol says.
    fn add_symbol(&mut self, symbol: &Symbol, name: &'a [u8]) -> Result<(), AllocError> {
        let section = u32::from(symbol.st_shndx);
        let address = symbol.st_value;
        if name == b"__global_pointer$".as_slice() && symbol.st_shndx != SHN_UNDEF {
            self.pointer = Some(address);
        }
        if let Some(is_data) = mark_named(name) {
            return self.marks.add(Mark {
                section,
                address,
                is_data,
            });
        }
        if is_label(symbol, name) {
            return self.labels.add(Label {
                section,
                address,
                rank: rank_of(symbol, name),
                size: symbol.st_size,
                name,
            });
        }
        Ok(())
    }

    /// Adds the names of a map.
    fn add_globals(&mut self, map: &'a Map) -> Result<(), AllocError> {
        for global in &map.globals {
            let name = global.name.as_slice();
            let address = global.address;
            if name == b"__global_pointer$".as_slice() {
                self.pointer = Some(address);
            }
            self.labels.add(Label {
                section: 0,
                address,
                rank: 0,
                size: 0,
                name,
            })?;
        }
        Ok(())
    }
}

/// Those of a file's symbols.
pub(crate) fn file_names<'a>(
    alloc: Global,
    view: &ElfView<'a>,
) -> Result<CodeNames<'a>, FileFault> {
    let mut names = CodeNames::new(alloc);
    if view.header().e_type == ET_REL {
        names.relocations = file_relocations(alloc, view)?;
    }
    if let Some(table) = symbol_table(view) {
        names.add_symbols(view, &table)?;
    }
    names.order()?;
    Ok(names)
}

/// Those of a map.
pub(crate) fn names_of_map<'a>(alloc: Global, map: &'a Map) -> Result<CodeNames<'a>, AllocError> {
    let mut names = CodeNames::new(alloc);
    names.add_globals(map)?;
    names.order()?;
    Ok(names)
}

/// Whether a name says that data begins, or that code does; none of another name.
fn mark_named(name: &[u8]) -> Option<bool> {
    if name == b"$d".as_slice() || name.starts_with(b"$d.") {
        Some(true)
    } else if name == b"$x".as_slice() || name.starts_with(b"$x.") || name.starts_with(b"$xrv") {
        Some(false)
    } else {
        None
    }
}

/// Whether a symbol names a place.
fn is_label(symbol: &Symbol, name: &[u8]) -> bool {
    let kind = symbol.st_info % 16;
    let section = symbol.st_shndx;
    let stands = section == SHN_ABS || (section != SHN_UNDEF && section < FIRST_RESERVED);
    stands
        && kind != STT_SECTION
        && kind != STT_FILE
        && !name.is_empty()
        && name != b".L0 ".as_slice()
}

fn rank_of(symbol: &Symbol, name: &[u8]) -> u8 {
    let kind = match symbol.st_info % 16 {
        STT_FUNC => 0,
        STT_OBJECT => 8,
        _ => 16,
    };
    let binding = match symbol.st_info / 16 {
        STB_GLOBAL => 0,
        STB_LOCAL => 4,
        _ => 2,
    };
    kind + binding + u8::from(name.starts_with(b"."))
}
