//! Where a statement stands in an object.
//!
//! A source may have 4 million of them, so that a byte here is 4 MiB of memory.

/// Where a statement stands in its section.
#[derive(Clone, Copy, Drop)]
pub struct Item {
    /// The index of its section in the source.
    pub section: u32,
    /// The bytes before it in its section.
    pub offset: u32,
    /// Its own bytes.
    pub bytes: u32,
    /// Its line in the source, from 1.
    pub line: u32,
    /// It has a row in the map.
    pub shown: bool,
    /// How many instructions its bytes are: padding has at most 65535 bytes, and other code few.
    pub instructions: u16,
}
