//! What the tables of an executable say, together.

use crate::file::Strings;
use crate::section::{LoadedSection, loaded_sections, section_called};
use crate::symbol::{NamedAddress, names_of};
use crate::unit::{LineUnit, units_of};
use rv_elf::ElfView;
use std::alloc::{AllocError, Global};

/// What the tables of an executable say of its addresses.
#[derive(Drop)]
pub struct DebugTables<'e> {
    /// The sections that are loaded, in the order of the file.
    pub sections: Vec<LoadedSection<'e>>,
    /// The names, in the order of the symbol table.
    pub names: Vec<NamedAddress<'e>>,
    /// The line tables, in their order.
    pub units: Vec<LineUnit<'e>>,
}

impl<'e> DebugTables<'e> {
    /// Those of a file; nothing of one that is damaged where they stand.
    pub fn of(alloc: Global, file: &'e [u8]) -> Result<Self, AllocError> {
        let Ok(view) = ElfView::open(file) else {
            return Ok(DebugTables::nothing(alloc));
        };
        let strings = Strings {
            of_lines: section_called(&view, b".debug_line_str"),
            of_all: section_called(&view, b".debug_str"),
        };
        let lines = section_called(&view, b".debug_line");
        Ok(DebugTables {
            sections: loaded_sections(alloc, &view)?,
            names: names_of(alloc, &view)?,
            units: units_of(alloc, lines, strings)?,
        })
    }

    /// Those of a file without any.
    pub fn nothing(alloc: Global) -> Self {
        DebugTables {
            sections: Vec::new(alloc),
            names: Vec::new(alloc),
            units: Vec::new(alloc),
        }
    }

    /// Whether neither names nor lines are known.
    pub fn is_empty(&self) -> bool {
        self.names.is_empty() && self.units.is_empty()
    }
}
