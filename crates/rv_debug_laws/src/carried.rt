//! Objects whose debug sections are kept.

/// An object whose debug sections are kept, and where its symbols are.
#[derive(Clone, Copy, Drop)]
pub struct Carried<'a> {
    /// The bytes of its file.
    pub file: &'a [u8],
    /// The address of each symbol of the file but the first, in order; none of one that is not loaded.
    pub addresses: &'a [Option<u64>],
}
