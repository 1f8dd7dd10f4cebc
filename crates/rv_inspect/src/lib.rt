//! What files hold, as texts for people and scripts: the words `size`, `nm`, `elf` and `dis` of the program.
//!
//! It takes the bytes of an object or an executable, and of an executable its [`Map`](rv_map::Map), and gives texts in the
//! columns of GNU's `size`, `nm`, `readelf` and `objdump -d -r`, or the first fault of the file. A text that may be very
//! much longer than its file is made part by part (`next`), after all faults are found.
//!
//! Main contract: every call is safe and ends, for the bytes of any file; what the texts hold is tested against GNU's
//! tools. It must not know how files come about, and it names no file but in what it prints.
//!
//! ```text
//! let mut table = SizeTable::new(alloc)?;
//! table.add("a.o", file)?;
//! let sizes = table.finish()?;         // "   text\t   data\t.."
//! let mut text = Vec::new(alloc);
//! let mut names = NameLines::of_map(alloc, &map)?;
//! names.next(&mut text)?;              // true: "0000000000010000 T _start\n"
//! let code = CodeFile::of(alloc, file, None, Style { aliases: true, lines: false })?;
//! let mut lines = code.lines("a.o");
//! lines.next(&mut text)?;              // true: "\na.o:     file format elf64-littleriscv\n\n"
//! ```
//!
//! Source: System V gABI, "Sections", "Symbol Table", "Relocation", "Program Header"; RISC-V ELF psABI; the manual of the
//! GNU binary utilities, "size", "nm", "readelf", "objdump"; RISC-V Unprivileged ISA 20191213, chapters 2, 5, 7, 8 and 16.
#![tactic(auto)]

mod alias_text;
mod code_lines;
mod code_names;
mod columns;
mod disassembly;
mod elf;
mod file_header;
mod instruction_text;
mod labels;
mod letter;
mod line_numbers;
mod marks;
mod names;
mod pairs;
mod parcel_text;
mod parts;
mod relocation_lines;
mod relocation_name;
mod relocations;
mod scope;
mod section_lines;
mod segment_lines;
mod size;
mod symbol_lines;

pub use alias_text::put_shortest;
pub use disassembly::{CodeFile, CodeLines, Style};
pub use elf::ElfLines;
pub use names::NameLines;
pub use parts::{
    bytes_of, count_relas, count_symbols, rela_at, section_at, section_named, symbol_at,
    symbol_table,
};
pub use relocation_name::kind_name;
pub use rv_fault::FileFault;
pub use rv_map::Map;
pub use section_lines::section_name;
pub use size::SizeTable;
pub use symbol_lines::symbol_name;
