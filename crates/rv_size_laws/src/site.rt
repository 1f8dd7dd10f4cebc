//! A part of the text that may keep only its first bytes.

/// A part of the text that may keep only its first bytes. Offsets count the text as it is before relaxation, with each
/// padding in full, over all sections; so do the bytes from the end of one section to the start of the next. They have 128
/// bits, since each of many sections may have 2^64 - 1 bytes.
#[derive(Clone, Copy, Drop)]
pub struct Site {
    /// The bytes of the text before it.
    pub offset: u128,
    /// What it is.
    pub kind: SiteKind,
}

/// What a part of the text is that may keep only its first bytes.
#[derive(Clone, Copy, Drop)]
pub enum SiteKind {
    /// A call that may be shortened, of 8 bytes.
    Call(Call),
    /// An alignment, or the start of a section.
    Padding(Padding),
}

/// A call: to what, and whether `c.j` may stand for it.
#[derive(Clone, Copy, Drop)]
pub struct Call {
    /// The target's offset in the text.
    pub target: u128,
    /// The constant that is added to the target, in bytes.
    pub addend: i64,
    /// Whether it links no register and its object may have compressed instructions.
    pub compressed: bool,
}

/// A padding up to a multiple of the alignment.
#[derive(Clone, Copy, Drop)]
pub struct Padding {
    /// The bytes in full.
    pub bytes: u32,
    /// The alignment in bytes.
    pub alignment: u32,
}
