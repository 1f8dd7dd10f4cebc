//! The fields that stay open.

use rv_expression::Symbol;
use rv_isa::Kind;

/// A field that the linker fills in, as a statement says it (gABI, "Relocation").
#[derive(Clone, Copy, Drop)]
pub struct OpenField<'a> {
    /// The index of its section in the source.
    pub section: u32,
    /// The offset of its first byte there.
    pub place: u32,
    /// What it takes.
    pub kind: Kind,
    /// The ordinal of the statement that names the symbol, from 1.
    pub ordinal: u32,
    /// The symbol, as that statement names it, if there is one.
    pub symbol: Option<Symbol<'a>>,
    /// What is added.
    pub addend: i64,
}
