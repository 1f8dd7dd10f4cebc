//! Indices into the tables of a file.

/// The index of a section, from 0; section 0 is none (`SHN_UNDEF`).
#[derive(Clone, Copy, Drop)]
pub struct SectionIndex(pub u16);

/// The index of a symbol in its section, from 0; symbol 0 is none.
#[derive(Clone, Copy, Drop)]
pub struct SymbolIndex(pub u32);
