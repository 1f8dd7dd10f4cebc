//! What debuggers are given: an executable with sections, symbols and line tables behind it, and the names of sources in objects.
//!
//! Of line tables it gives the numbers ([`Leb128`]), the state machine whose program a table is ([`LineProgram`]), the unit in
//! which a program stands ([`LineUnit`]), and the entries that rows of code are to have ([`LineTable`]). These are total functions
//! on bytes, so nothing is said of the writer: whoever makes a unit, a reader finds this table in it. [`LineRow`],
//! [`SourceFile`] and [`Mark`] are types that definitions and code share.
//!
//! Of an executable it says which rows of a map are the code of a source ([`Code`]), which units describe a source ([`Units`]),
//! what the directives `.type` and `.size` of a source say of names ([`Marks`]), which names the objects of a link and its map
//! have, with their types and sizes ([`Labels`]), which symbols these have ([`Symbols`]), what an executable has to be for more
//! to stand behind it ([`Stored`]), and how the file is laid out ([`File`]). What a reader finds in it ([`DebugFile`]) is said in
//! the terms of readers: by its table of section headers, its strings and the state machine of line tables; but of
//! `.debug_info` and the sections beside it by their bytes.
//!
//! Of an object's file it says how it names its source ([`SourceNames`]): a section `.rv.source`, one of the object's own, without
//! an address, so that the definitions of objects hold of it as of any other, and no program has it.
//!
//! Main definitions: `line_table`, `table_at`, `IsUnit`, `entries_of`; `IsDebugFile`, `HasDebug`; `marks_of`, `link_names`; `with_source`,
//! `source_of`. Of a source it knows tokens, and neither instructions nor what statements mean.
//!
//! Nothing here runs.
//!
//! [`Leb128`]: ../specs/Leb128.antt
//! [`LineProgram`]: ../specs/LineProgram.antt
//! [`LineUnit`]: ../specs/LineUnit.antt
//! [`LineTable`]: ../specs/LineTable.antt
//! [`Code`]: ../specs/Code.antt
//! [`Units`]: ../specs/Units.antt
//! [`Marks`]: ../specs/Marks.antt
//! [`Labels`]: ../specs/Labels.antt
//! [`Symbols`]: ../specs/Symbols.antt
//! [`Stored`]: ../specs/Stored.antt
//! [`File`]: ../specs/File.antt
//! [`DebugFile`]: ../specs/DebugFile.antt
//! [`SourceNames`]: ../specs/SourceNames.antt
//!
//! Source: DWARF Debugging Information Format, version 5, 3.1.1, 6.1.2, 6.2 "Line Number Information", 7.5, 7.6 "Variable Length
//! Data"; System V gABI, "Sections", "Symbol Table"; GNU as, ".type", ".size"; of `.rv.source` this project's format.
#![tactic(auto)]

mod carried;
mod laws;
mod line_laws;
mod line_row;
mod mark;
mod source_names;

pub use carried::Carried;
pub use laws::{carried_file_is_loaded, debug_file_is_read};
pub use line_laws::{lengths_are_right, sections_are_read};
pub use line_row::{LineRow, SourceFile};
pub use mark::{Mark, NameSaid, Said, SaidSize, SymbolType};
pub use source_names::source_is_read;
