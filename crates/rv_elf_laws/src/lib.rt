//! What the fields and records of ELF files are, and which fault of a file's header and tables stands first.
//!
//! It gives the records as types that definitions and code share ([`FileHeader`], [`SectionHeader`], [`ProgramHeader`],
//! [`Symbol`], [`Rela`]), their fields and numbers ([`Fields`], [`Numbers`]), what records stand in bytes and what bytes a
//! record has ([`Records`], [`ReadBack`]), and the tests by which a file is refused ([`FirstFault`]).
//!
//! Nothing here runs, and nothing here knows what sections mean.
//!
//! [`Fields`]: ../specs/Fields.antt
//! [`Numbers`]: ../specs/Numbers.antt
//! [`Records`]: ../specs/Records.antt
//! [`ReadBack`]: ../specs/ReadBack.antt
//! [`FirstFault`]: ../specs/FirstFault.antt
//!
//! Source: System V gABI, "ELF Header", "Sections", "String Table", "Symbol Table", "Relocation", "Program Header";
//! RISC-V ELF psABI, "File Header".
#![tactic(auto)]

mod file_header;
mod program_header;
mod rela;
mod section_header;
mod symbol;

pub use file_header::FileHeader;
pub use program_header::ProgramHeader;
pub use rela::Rela;
pub use section_header::SectionHeader;
pub use symbol::Symbol;
