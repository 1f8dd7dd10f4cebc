//! The fields of ELF files: the records of a file, read and written.
//!
//! It takes the bytes of any file and gives an [`ElfView`] of its headers, sections, strings, symbols and
//! relocations, or the first fault of its header and tables; and an [`ElfWriter`] takes records and gives their bytes.
//!
//! Main contracts: `ElfView::open` gives a view just of a file whose header and tables have no fault, and otherwise the
//! fault that stands first (`open_tests`); each call of a view gives the numbers that the table of fields
//! (`rv_elf_laws/specs/Fields`) names; each call of a writer adds the bytes of its record (`Records` beside it).
//! It does not know what sections mean.
//!
//! ```text
//! let view = ElfView::open(file)?;
//! let names = SectionIndex(view.header().e_shstrndx);
//! let section = view.section_header(SectionIndex(1));
//! let name = view.name(names, section.sh_name).ok_or(FileFault::BadString)?;
//! let symbol = view.symbol(SectionIndex(2), SymbolIndex(1));
//! ```
//!
//! Source: System V gABI, "ELF Header", "Sections", "String Table", "Symbol Table", "Relocation", "Program Header";
//! RISC-V ELF psABI, "File Header".
#![tactic(auto)]

mod checks;
mod fields;
mod file_header;
mod index;
mod numbers;
mod offsets;
mod program_header;
mod rela;
mod section_header;
mod string;
mod symbol;
mod view;
mod writer;

pub use checks::{file_type, lies_past};
pub use file_header::FILE_HEADER_SIZE;
pub use index::{SectionIndex, SymbolIndex};
pub use numbers::{
    EF_RISCV_RVC, EM_RISCV, ET_EXEC, ET_REL, EV_CURRENT, PF_R, PF_W, PF_X, PT_DYNAMIC, PT_INTERP,
    PT_LOAD, PT_TLS, SHF_ALLOC, SHF_EXECINSTR, SHF_WRITE, SHN_ABS, SHN_UNDEF, SHT_GROUP,
    SHT_NOBITS, SHT_NOTE, SHT_NULL, SHT_PROGBITS, SHT_RELA, SHT_STRTAB, SHT_SYMTAB, STB_GLOBAL,
    STB_LOCAL, STB_WEAK,
};
pub use program_header::PROGRAM_HEADER_SIZE;
pub use rela::{RELA_SIZE, rela_in};
pub use rv_elf_laws::{FileHeader, ProgramHeader, Rela, SectionHeader, Symbol};
pub use rv_fault::FileFault;
pub use section_header::SECTION_HEADER_SIZE;
pub use string::string_in;
pub use symbol::{SYMBOL_SIZE, symbol_in};
pub use view::ElfView;
pub use writer::ElfWriter;
