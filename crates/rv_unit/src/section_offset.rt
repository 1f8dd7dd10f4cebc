//! Where statements and names stand.

/// Where a statement stands.
#[derive(Clone, Copy, PartialEq, Eq, Drop)]
pub struct SectionOffset {
    /// The index of its section in the source, from 0.
    pub section: u32,
    /// The bytes of data before it in that section.
    pub offset: u32,
}

/// The definition of a symbol in this source.
#[derive(Clone, Copy, Drop)]
pub struct Definition {
    /// The ordinal of the statement, from 1.
    pub ordinal: u32,
    /// The bytes after the statement's start.
    pub plus: u64,
}
