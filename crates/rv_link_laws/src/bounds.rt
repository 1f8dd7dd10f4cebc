//! Where a link may put a program.

/// The memory that a program may have.
#[derive(Clone, Copy, Drop)]
pub struct Ground {
    /// Where its text begins.
    pub text: u64,
    /// Where it ends, or before.
    pub ceiling: u64,
}
