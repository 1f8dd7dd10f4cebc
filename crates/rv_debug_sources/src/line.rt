//! What a source says of lines.

/// A part of a source, by the offsets of its first byte and of the byte behind it.
#[derive(Clone, Copy, Drop)]
pub struct SourcePart {
    pub start: u32,
    pub stop: u32,
}

/// A file that a directive names: its strings are parts of the source, with their quotes.
#[derive(Clone, Copy, Drop)]
pub struct SaidFile {
    pub number: u64,
    pub directory: Option<SourcePart>,
    pub name: SourcePart,
}

/// A file of the line table.
#[derive(Clone, Copy, Drop)]
pub struct FileName {
    pub number: u64,
    pub name: SourcePart,
    /// The number of its directory.
    pub directory: u64,
}

/// A row of the line table, as `.loc` says it (DWARF 5, 6.2.2).
#[derive(Clone, Copy, Drop)]
pub struct LineRow {
    /// Where the statement begins in the source.
    pub at: u32,
    pub file: u64,
    pub line: u64,
    pub column: u64,
    pub discriminator: u64,
    pub is_stmt: bool,
    pub basic_block: bool,
    pub prologue_end: bool,
    pub epilogue_begin: bool,
}

/// A part of the line program.
#[derive(Clone, Copy, Drop)]
pub enum LineStep {
    Row(LineRow),
    /// The end of a sequence, in front of the statement that begins at this offset.
    End(u32),
}
