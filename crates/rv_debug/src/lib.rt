//! Writes what debuggers find: executables with debug information, and the names of the sources of objects.
//!
//! It takes an executable, its map, what is known of its names, and the paths of the sources with the directory in which
//! they were assembled, and gives the executable's bytes with section headers, symbols and line tables behind them.
//! Debuggers, profilers and the tools of binutils then know its addresses by name, file and line.
//!
//! Main contract: [`with_debug`], whose clause `found` says in the terms of a reader (`HasDebug` of rv_debug_laws) that the
//! executable stands in front to the byte, but for the fields of its header that lead to the section headers; that it is
//! loaded as the same image; that each symbol has the address, the type and the size of its name; and that the line tables are the map's rows of code
//! with their files and lines. [`debug_file`] does that by the text of a map and the objects that were linked, whose names
//! are those of rv_labels, and [`debug_file_of_tables`] with those of the objects' symbol tables (rv_table_names). It does not know
//! sources.
//!
//! Line tables are written by rows of code, each with its address, size, file and line, in any order. Where a row begins at the
//! address behind the code before it, the program of a table goes on by one byte or a few; elsewhere a sequence ends and the next
//! begins, so that no address without code gets a line. What [`put_line_program`] adds, run by the state machine of the standard,
//! gives exactly the rows in order, and the ends of their sequences (`AppendsTable`). What [`line_unit`] gives is a unit with such
//! a program: a reader that goes by its lengths and its header finds this table (`table_at` of rv_debug_laws), whatever
//! follows it.
//!
//! An object's file has no address yet, so it names its source: [`with_source`] takes its bytes, with the directory in which its
//! source was assembled and the path by which it was named there, and gives the file of the same object with the section
//! `.rv.source` behind its own (`with_source` of rv_debug_laws). [`source_of`] gives the name that any bytes have, and [`path_from`]
//! the path by which that source is found from a directory. What is no name counts as none, so no link is refused for one.
//!
//! ```text
//! let file = with_debug(alloc, &exe, &map, &names, directory, &sources)?;
//! let same = debug_file(alloc, &exe, &map_text, &objects, directory, &sources)?;
//! let unit = line_unit(alloc, directory, &files, &rows)?.ok_or("too long")?;
//! let named = with_source(alloc, &object, b"/demo", b"prog.s")?;
//! let name = source_of(alloc, &named)?;         // Some: /demo, prog.s
//! ```
//!
//! Source: System V gABI, "Sections", "Symbol Table"; DWARF Debugging Information Format, version 5, 3.1.1, 6.1.2, 6.2 "Line
//! Number Information", 7.5, 7.6 "Variable Length Data"; of `.rv.source` this project's format.
#![tactic(auto)]

mod code;
mod executable;
mod fault;
mod instruction;
mod leb128;
mod name;
mod naming;
mod numbers;
mod piece;
mod program;
mod reading;
mod symbols;
mod text;
mod unit;
mod units;
mod writing;

pub use fault::DebugFault;
pub use name::{SourceName, path_from};
pub use naming::with_source;
pub use program::put_line_program;
pub use reading::source_of;
pub use rv_debug_laws::{LineRow, SourceFile};
pub use rv_labels::{Described, KnownName, Mark, Names, Object, Said, SaidSize, SymbolType};
pub use rv_map::{Global, Map};
pub use rv_table_names::{SymbolExtent, SymbolRecord, Tabled, symbol_sizes};
pub use text::{debug_file, debug_file_of_tables};
pub use unit::line_unit;
pub use writing::with_debug;
