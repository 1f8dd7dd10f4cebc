//! What directives say of names.

/// The type of what a name is (gABI, "Symbol Table", ELF64_ST_TYPE).
#[derive(Clone, Copy, Drop)]
pub enum SymbolType {
    /// STT_NOTYPE: none is said.
    NoType,
    /// STT_OBJECT: a variable or a constant.
    Datum,
    /// STT_FUNC: a function.
    Function,
}

/// How many bytes a name has.
#[derive(Clone, Copy, Drop)]
pub enum SaidSize {
    /// It is not said.
    NoSize,
    /// Those up to the statement of this ordinal, which stands behind them.
    UpTo(u32),
    /// So many.
    Bytes(u64),
}

/// What a directive says of a name.
#[derive(Clone, Copy, Drop)]
pub enum Said {
    /// `.type`
    Typed(SymbolType),
    /// `.size`
    Sized(SaidSize),
}

/// What directives say of a name.
#[derive(Clone, Copy, Drop)]
pub struct NameSaid {
    pub kind: SymbolType,
    pub size: SaidSize,
}

/// A directive of a source: the name, and what is said of it.
#[derive(Clone, Copy, Drop)]
pub struct Mark<'a> {
    pub name: &'a [u8],
    pub said: Said,
}
