//! The offset of each field in its record, in bytes, under the field's name in the System V gABI.
//!
//! Source: System V gABI, "ELF Header", "Sections", "Symbol Table", "Relocation", "Program Header".

// The header of a file.

pub(crate) const EI_CLASS: usize = 4;

pub(crate) const EI_DATA: usize = 5;

pub(crate) const EI_VERSION: usize = 6;

pub(crate) const E_TYPE: usize = 16;

pub(crate) const E_MACHINE: usize = 18;

pub(crate) const E_VERSION: usize = 20;

pub(crate) const E_ENTRY: usize = 24;

pub(crate) const E_PHOFF: usize = 32;

pub(crate) const E_SHOFF: usize = 40;

pub(crate) const E_FLAGS: usize = 48;

pub(crate) const E_EHSIZE: usize = 52;

pub(crate) const E_PHENTSIZE: usize = 54;

pub(crate) const E_PHNUM: usize = 56;

pub(crate) const E_SHENTSIZE: usize = 58;

pub(crate) const E_SHNUM: usize = 60;

pub(crate) const E_SHSTRNDX: usize = 62;

// A program header.

pub(crate) const P_TYPE: usize = 0;

pub(crate) const P_FLAGS: usize = 4;

pub(crate) const P_OFFSET: usize = 8;

pub(crate) const P_VADDR: usize = 16;

pub(crate) const P_PADDR: usize = 24;

pub(crate) const P_FILESZ: usize = 32;

pub(crate) const P_MEMSZ: usize = 40;

pub(crate) const P_ALIGN: usize = 48;

// A section header.

pub(crate) const SH_NAME: usize = 0;

pub(crate) const SH_TYPE: usize = 4;

pub(crate) const SH_FLAGS: usize = 8;

pub(crate) const SH_ADDR: usize = 16;

pub(crate) const SH_OFFSET: usize = 24;

pub(crate) const SH_SIZE: usize = 32;

pub(crate) const SH_LINK: usize = 40;

pub(crate) const SH_INFO: usize = 44;

pub(crate) const SH_ADDRALIGN: usize = 48;

pub(crate) const SH_ENTSIZE: usize = 56;

// A symbol.

pub(crate) const ST_NAME: usize = 0;

pub(crate) const ST_INFO: usize = 4;

pub(crate) const ST_OTHER: usize = 5;

pub(crate) const ST_SHNDX: usize = 6;

pub(crate) const ST_VALUE: usize = 8;

pub(crate) const ST_SIZE: usize = 16;

// A relocation with an addend; `r_info` is its type, the lower half, and its symbol, the upper.

pub(crate) const R_OFFSET: usize = 0;

pub(crate) const R_TYPE: usize = 8;

pub(crate) const R_SYM: usize = 12;

pub(crate) const R_ADDEND: usize = 16;
