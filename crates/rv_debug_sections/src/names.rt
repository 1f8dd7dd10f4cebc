//! The names of debug sections.

/// The names, each with a zero behind it.
pub(crate) static DEBUG_NAMES: [&[u8]; 21] = [
    b".debug_info\0",
    b".debug_abbrev\0",
    b".debug_line\0",
    b".debug_aranges\0",
    b".debug_str\0",
    b".debug_line_str\0",
    b".debug_str_offsets\0",
    b".debug_addr\0",
    b".debug_rnglists\0",
    b".debug_loclists\0",
    b".debug_ranges\0",
    b".debug_loc\0",
    b".debug_frame\0",
    b".debug_types\0",
    b".debug_macro\0",
    b".debug_macinfo\0",
    b".debug_names\0",
    b".debug_pubnames\0",
    b".debug_pubtypes\0",
    b".debug_gnu_pubnames\0",
    b".debug_gnu_pubtypes\0",
];

/// The section of lines.
pub(crate) const LINE: &[u8] = b".debug_line\0";

/// The section of strings of entries.
pub(crate) const STR: &[u8] = b".debug_str\0";

/// The section of strings of line tables.
pub(crate) const LINE_STR: &[u8] = b".debug_line_str\0";

/// The strings that name tools.
pub(crate) const COMMENT: &[u8] = b".comment\0";

/// The lists of ranges of version 4.
pub(crate) const RANGES: &[u8] = b".debug_ranges\0";

/// From this size on a section's numbers may need more than 32 bits.
pub(crate) const TOO_LONG: usize = 0x1_0000_0000;
