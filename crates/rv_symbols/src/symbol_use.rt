//! The symbols that relocations name.

use rv_expression::Symbol;

/// A symbol as a relocation of a loaded section names it.
#[derive(Clone, Copy, Drop)]
pub struct SymbolUse<'a> {
    /// The ordinal of the statement that names it, from 1.
    pub ordinal: u32,
    /// A name, `.` or a numeric reference; `.` is the place of that statement.
    pub symbol: Symbol<'a>,
}
