//! Sources and objects with what sections refer to that are not loaded, as those that debuggers read (`.debug_info`).
//!
//! The language keeps of such a section its bytes alone. So that what it refers to is kept, the source is changed before it is
//! read ([`changed_source`]): each `.section` of a section without the flag `a` gets the flag, in its line, as `specs/Sources`
//! defines it by tokens, and LEB128 numbers become bytes. What is assembled of it has relocations for all sections as for loaded
//! ones. By the object of the source itself, which has the same sections, it loses the rows of those that are not loaded
//! ([`without_unloaded_rows`]), and in its file these lose the flag again ([`unloaded`]): the file has what it has without this,
//! and the relocations of these sections.
//!
//! Lines that a source says of its code by `.file N` and `.loc` become a line table, which stands as data behind its last line:
//! `.loc` gives way to a label in its line, and the table says the label's address by a relocation. So it holds wherever the
//! linker puts the code, and the language knows neither directive. [`plain_source`] is the source without lines, which is what
//! a build loads.
//!
//! It knows neither what the sections mean nor where statements stand.
//!
//! ```text
//! let changed = changed_source(alloc, b"f: ret\n.section .info,\"\"\n.8byte f\n")?;
//! // f: ret
//! // .section .info,"a"
//! // .8byte f
//! ```
//!
//! Source: GNU as, "Statements", ".section", ".file", ".loc", ".uleb128", ".sleb128"; DWARF 5, 6.2 "Line Number Information",
//! 7.6 "Variable Length Data"; System V gABI, "Sections".
#![tactic(auto)]

mod edit;
mod file;
mod header;
mod label;
mod leb128;
mod line;
mod loc;
mod object;
mod program;
mod said;
mod source;
mod statement;
mod table;
mod tokens;

pub use edit::{Change, Edit};
pub use file::unloaded;
pub use object::without_unloaded_rows;
pub use source::{changed_source, plain_source};
