//! Punctuation and operators.

/// Punctuation, an operator, or a sign that the language spells but leaves out.
#[derive(Clone, Copy, Drop)]
pub enum Punct {
    /// `,`
    Comma,
    /// `:`
    Colon,
    /// `;`
    Semicolon,
    /// `(`
    Open,
    /// `)`
    Close,
    /// `+`
    Plus,
    /// `-`
    Minus,
    /// `*`
    Star,
    /// `/`
    Slash,
    /// `%`
    Percent,
    /// `<<`
    ShiftLeft,
    /// `>>`
    ShiftRight,
    /// `|`
    Bar,
    /// `&`
    Ampersand,
    /// `^`
    Caret,
    /// `~`
    Tilde,
    /// `@`
    At,
    /// `==`
    Equal,
    /// `!=`
    NotEqual,
    /// `<>`, another spelling of `!=`
    LessGreater,
    /// `<`
    Less,
    /// `>`
    Greater,
    /// `<=`
    LessEqual,
    /// `>=`
    GreaterEqual,
    /// `//`, a comment that the language leaves out
    DoubleSlash,
}
