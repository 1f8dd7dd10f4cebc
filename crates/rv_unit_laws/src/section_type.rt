//! What a section holds.

/// The type of a section (gABI, "Sections", `sh_type`).
#[derive(Clone, Copy, Drop)]
pub enum SectionType {
    /// Bytes of the program.
    Progbits,
    /// Zeros, of which files have no bytes.
    Nobits,
    /// Notes for other programs.
    Note,
}
