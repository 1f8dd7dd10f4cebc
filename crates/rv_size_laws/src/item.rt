//! A statement as branch sizes see it.

/// The forms in which a statement can be written, shortest first. The conditional branches and `jal x0` of a label in
/// another section, and those without compressed forms, have fewer.
#[derive(Clone, Copy, Drop)]
pub enum Forms {
    /// One form, of as many bytes as this at any distance.
    Settled(u32),
    /// `c.beqz` or `c.bnez` of 2 bytes, a branch of 4, the inverted branch over `jal x0` of 8.
    CompressedBranch,
    /// A branch of 4 bytes, the inverted branch over `jal x0` of 8.
    Branch,
    /// `c.j` of 2 bytes, `jal x0` of 4.
    CompressedJump,
}

/// A statement: its section, its forms, and for a branch or jump the statement to whose start it leads.
#[derive(Clone, Copy, Drop)]
pub struct Item {
    /// The constant that is added to the target, in bytes.
    pub addend: i64,
    /// The index of the section.
    pub section: u32,
    /// The index of the target's statement, which stands in the same section. Settled statements have none: 0.
    pub target: u32,
    /// The forms.
    pub forms: Forms,
}
