//! The numbers of the sections of a file with debug information.
//!
//! The offsets of names lead into [`SECTION_STRINGS`].

/// The names of all sections, each with a zero behind it.
pub(crate) static SECTION_STRINGS: [u8; 105] =
    *b"\0.text\0.rodata\0.data\0.bss\0.symtab\0.strtab\0.shstrtab\0.debug_line\0.debug_info\0.debug_abbrev\0.debug_aranges\0";

/// How many sections there are, with section 0.
pub(crate) const SECTION_TOTAL: u16 = 12;

pub(crate) const TEXT_NAME: u32 = 1;

pub(crate) const RODATA_NAME: u32 = 7;

pub(crate) const DATA_NAME: u32 = 15;

pub(crate) const BSS_NAME: u32 = 21;

pub(crate) const SYMTAB_NAME: u32 = 26;

pub(crate) const STRTAB_NAME: u32 = 34;

pub(crate) const SHSTRTAB_NAME: u32 = 42;

pub(crate) const DEBUG_LINE_NAME: u32 = 52;

pub(crate) const DEBUG_INFO_NAME: u32 = 64;

pub(crate) const DEBUG_ABBREV_NAME: u32 = 76;

pub(crate) const DEBUG_ARANGES_NAME: u32 = 90;

pub(crate) const TEXT: u16 = 1;

pub(crate) const RODATA: u16 = 2;

pub(crate) const DATA: u16 = 3;

pub(crate) const BSS: u16 = 4;

pub(crate) const STRTAB: u32 = 6;

pub(crate) const SHSTRTAB: u16 = 7;

/// From this size on a section's numbers may need more than 32 bits.
pub(crate) const TOO_LONG: usize = 0x1_0000_0000;
