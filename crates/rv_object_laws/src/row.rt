//! Rows of an object.

/// Where a statement of the source stands, as the section `.rv.rows` keeps it.
#[derive(Clone, Copy, Drop)]
pub struct Row {
    /// Its line in the source, from 1.
    pub line: u32,
    /// Its number among the statements of the source, from 1.
    pub ordinal: u32,
    /// The index of its section in the object.
    pub section: u32,
    /// The offset of its first byte there.
    pub offset: u64,
    /// How many bytes it has there.
    pub bytes: u32,
    /// How many instructions these are.
    pub instructions: u32,
}
