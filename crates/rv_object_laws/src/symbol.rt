//! What a symbol is, and who may name it.

/// Who may name a symbol (gABI, "Symbol Table", st_info).
#[derive(Clone, Copy, Drop)]
pub enum Binding {
    /// Its own object alone.
    Local,
    /// Every object.
    Global,
    /// Every object, but a global definition of its name comes before it; without any the name is 0.
    Weak,
}

/// What a symbol is (gABI, "Symbol Table", st_shndx and st_value).
#[derive(Clone, Copy, Drop)]
pub enum Definition {
    /// Another object's (SHN_UNDEF).
    Undefined,
    /// A number (SHN_ABS).
    Absolute(u64),
    /// The index of a section of the object, and an offset there.
    InSection(u32, u64),
    /// A value in a section that is not kept: it has no address.
    Skipped(u64),
}
