//! Rows of code, and the files from which they come.

/// Code that comes from a line of a source.
#[derive(Clone, Copy, Drop)]
pub struct LineRow {
    /// The address of its first byte.
    pub address: u64,
    /// How many bytes it has.
    pub bytes: u64,
    /// The number of the file in the table of its unit.
    pub file: u64,
    /// The line in the file, from 1.
    pub line: u64,
}

/// A source file.
#[derive(Clone, Copy, Drop)]
pub struct SourceFile<'a> {
    /// The bytes of its path, from the directory on.
    pub path: &'a [u8],
}
