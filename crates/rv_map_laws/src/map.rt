//! The parts of a map that are plain numbers.

/// The addresses from `start` on and below `end`.
#[derive(Clone, Copy, Drop)]
pub struct Region {
    /// The address of its first byte.
    pub start: u64,
    /// The address after its last byte.
    pub end: u64,
}

/// A section of a file.
#[derive(Clone, Copy, Drop)]
pub struct SectionId {
    /// Its file, from 1.
    pub file: u64,
    /// Its number among the sections of the file, from 1.
    pub section: u64,
}

/// Where a statement stands, and what it became there.
#[derive(Clone, Copy, Drop)]
pub struct Row {
    /// Its file, from 1.
    pub file: u64,
    /// Its line in the file, from 1.
    pub line: u64,
    /// Its number among the statements of the file, from 1.
    pub ordinal: u64,
    /// The address of its first byte.
    pub address: u64,
    /// How many bytes it has there.
    pub bytes: u64,
    /// How many instructions it has there.
    pub instructions: u64,
}
