//! The rows of a section: records of 32 bytes, which say where a statement of the source stands.

/// The bytes of a row.
pub const ROW_SIZE: usize = 32;

/// A row of the section `.rv.rows`.
#[derive(Clone, Copy, Drop)]
pub struct RowRecord {
    /// The line of the statement, from 1.
    pub r_line: u32,
    /// The number of the statement in its source, from 0.
    pub r_ordinal: u32,
    /// The index of its section in the file.
    pub r_section: u32,
    /// How many instructions it has.
    pub r_instructions: u32,
    /// The offset of its first byte in its section.
    pub r_offset: u64,
    /// How many bytes it has.
    pub r_bytes: u32,
    /// Always 0.
    pub r_reserved: u32,
}
