//! Reads what debuggers find in an executable: its sections, its names, and which code is of which line.
//!
//! It takes the bytes of an executable of any tool and gives [`DebugTables`], which lend from them: the sections that are
//! loaded, the names of `.symtab` that people gave, and of each unit of `.debug_line` (DWARF 2 to 5) its files and the rows of
//! its code. An executable that has none, or whose tables are damaged, gives nothing of what cannot be read: a run is not
//! refused for what only says more of it.
//!
//! Main contract: [`rv_debug_laws`] says what a line number program means. What this crate runs is that machine, with the
//! instructions beside that say nothing of addresses and lines, as those of columns ([`Machine`]), so a table here is the
//! standard's ([`line_table`]), and what `rv_debug` writes is read as it was meant (`wider_tables`). Rows are those between two
//! entries of a table, with a line and bytes. Names and files are tested against GNU's tools.
//!
//! No table makes it take long: a name has at most 4,095 bytes, since names may lie over each other, and a number ten. It does not
//! know what the names and lines are shown for.
//!
//! ```text
//! let tables = DebugTables::of(alloc, &exe)?;
//! let name = &tables.names[0];                             // main, 100e8h
//! let unit = &tables.units[0];
//! let row = unit.rows[0];                                  // 4 bytes at 100e8h, of line 6
//! let file = unit.files[row.file as usize];                // a.c, compiled in /demo
//! ```
//!
//! Source: System V gABI, "Sections", "Symbol Table"; DWARF Debugging Information Format, versions 2 to 5, 6.2 "Line Number
//! Information", 7.5, 7.6 "Variable Length Data".
//!
//! [`Machine`]: ../specs/Machine.antt
//! [`line_table`]: ../specs/Table.antt
#![tactic(auto)]

mod file;
mod law;
mod leb128;
mod machine;
mod program;
mod section;
mod state;
mod symbol;
mod tables;
mod text;
mod unit;

pub use file::FileName;
pub use law::wider_tables;
pub use rv_debug_laws::LineRow;
pub use section::LoadedSection;
pub use symbol::NamedAddress;
pub use tables::DebugTables;
pub use unit::LineUnit;
