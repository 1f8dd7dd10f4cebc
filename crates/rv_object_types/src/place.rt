//! Places in objects, and the indices by which files, sections and symbols are known.
//!
//! Each counts from 0. An index is as wide as a length, since what it leads to stands in a list: an object's own numbers of sections
//! and symbols have 32 bits. The definitions count files from 1, as a map does (`specs/Places`).

/// The index of a file among those that are linked, from 0.
#[derive(Clone, Copy, PartialEq, Eq, PartialOrd, Ord, Drop)]
pub struct FileIndex(pub usize);

/// The index of a section among those of its object, from 0.
#[derive(Clone, Copy, PartialEq, Eq, PartialOrd, Ord, Drop)]
pub struct SectionIndex(pub usize);

/// The index of a symbol among those of its object, from 0.
#[derive(Clone, Copy, PartialEq, Eq, Drop)]
pub struct SymbolIndex(pub usize);

/// A place: a section of a file, and an offset there. Places are in the order of their files, sections and offsets.
#[derive(Clone, Copy, PartialEq, Eq, PartialOrd, Ord, Drop)]
pub struct Place {
    pub file: FileIndex,
    pub section: SectionIndex,
    /// In bytes from the section's first; past its end too.
    pub offset: u64,
}
