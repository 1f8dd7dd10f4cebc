//! Relocatable objects.

ghost use Rattle.std.specs.Prelude.{IsTrue, map};
ghost use Rattle.rv_object_types.specs.Parts.{symbol_of};
ghost use Rattle.rv_object_types.specs.Sections.{section_of};
ghost use Rattle.rv_object_laws.specs.Valid.{are_indexed, are_defined, are_rows, are_counted};

use crate::section::Section;
use crate::symbol::Symbol;
use rv_object_laws::Row;

/// What the assembler makes of one source, and what the linker takes. It lends names and bytes from the source or the file.
#[derive(Drop)]
pub struct Object<'a> {
    /// Its sections, in the order of the source.
    pub sections: Vec<Section<'a>>,
    /// Its symbols: those of its own, and then those that others may name.
    pub symbols: Vec<Symbol<'a>>,
    /// Where the statements of its source stand, in any order.
    pub rows: Vec<Row>,
    /// It has compressed code (psABI, EF_RISCV_RVC).
    pub rvc: bool,
    /// Each relocation names one of the symbols.
    pub ghost indexed: { IsTrue
        (are_indexed (map symbol_of symbols.items) (map section_of sections.items)) },
    /// Each symbol stands in one of the sections.
    pub ghost defined: { IsTrue
        (are_defined (map section_of sections.items) (map symbol_of symbols.items)) },
    /// Each row lies in a section that has a place in memory.
    pub ghost lie: { IsTrue (are_rows (map section_of sections.items) rows.items) },
    /// The numbers of each row have the widths of their fields.
    pub ghost counted: { IsTrue (are_counted rows.items) },
}
