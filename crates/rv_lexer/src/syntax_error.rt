//! What is wrong while a source is read: the token, its code, and where the fault stands.

ghost use Rattle.std.specs.Prelude.{◌≡◌, ◌==◌};
ghost use Rattle.rv_expression_laws.specs.Codes.{limit};
ghost use Rattle.rv_expression_laws.specs.SyntaxError.{is_long, fault_offset, wrong};
ghost use Rattle.rv_fault.specs.SourceFault.{source_fault_number};
ghost use Rattle.rv_lexer.specs.Token.{token_of, kind_of};

use crate::token::{Token, TokenKind};
use rv_fault::SourceCode;
use std::alloc::{AllocError, AllocFailed};
use thiserror::Error;

/// The longest name, in bytes.
pub const LONGEST_NAME: usize = 4095;

/// A token that is wrong where it stands.
#[derive(Clone, Copy, Debug, Drop)]
pub struct SyntaxError {
    /// The offset of the fault in the source, in bytes: of the token's first byte, but of a name that is too long of the
    /// first byte past the limit.
    pub offset: usize,
    /// The line of the token's first byte, from 1.
    pub line: u32,
    /// What is wrong with it.
    pub code: SourceCode,
}

impl SyntaxError {
    ghost use Rattle.rv_lexer.specs.Cursor.{syntax_error_of};

    /// The fault of a token with this code.
    pub fn at(token: Token<'_>, code: SourceCode) -> Self
        ensures { syntax_error_of result ≡ wrong (token_of token.entry) (source_fault_number code) }
    {
        SyntaxError {
            offset: offset_of(token, code),
            line: token.line,
            code,
        }
    }
}

/// Why nothing is read.
#[derive(Debug, Drop, Error)]
pub enum ReadError {
    /// A token is wrong.
    #[error("a wrong token")]
    At(SyntaxError),
    /// Memory ran out.
    #[error("out of memory")]
    OutOfMemory,
}

impl From<SyntaxError> for ReadError {
    ghost use Rattle.rv_lexer.specs.declared.syntax_error.ReadError.TheVariants.{At};

    ghost from_gives = { λ w e. e ≡ At w };

    fn from(error: SyntaxError) -> Self {
        ReadError::At(error)
    }
}

impl From<AllocError> for ReadError {
    ghost use Rattle.rv_lexer.specs.declared.syntax_error.ReadError.TheVariants.{OutOfMemory};

    ghost from_gives = { λ _ e. e ≡ OutOfMemory };

    fn from(_error: AllocError) -> Self {
        ReadError::OutOfMemory
    }
}

impl<T: Drop> From<AllocFailed<T>> for ReadError {
    ghost use Rattle.rv_lexer.specs.declared.syntax_error.ReadError.TheVariants.{OutOfMemory};

    ghost from_gives = { λ _ e. e ≡ OutOfMemory };

    fn from(_error: AllocFailed<T>) -> Self {
        ReadError::OutOfMemory
    }
}

/// A name that is longer than a symbol's.
fn is_long(kind: TokenKind<'_>) -> bool
    ensures { result ≡ is_long (kind_of kind.entry) }
{
    match kind {
        TokenKind::Name(name) => LONGEST_NAME < name.len(),
        _ => false,
    }
}

/// The code of what is too long or too many.
fn is_limit(code: SourceCode) -> bool
    ensures { result ≡ (source_fault_number code == limit) }
{
    matches!(code, SourceCode::Limit)
}

/// The offset of a token's fault: of its first byte, but a name's limit at the first byte past it.
#[tactic(auto, unfolding(rv_expression_laws::specs::SyntaxError::fault_offset))]
fn offset_of(token: Token<'_>, code: SourceCode) -> usize
    ensures { result ≡ fault_offset (token_of token.entry) (source_fault_number code) }
{
    if is_limit(code) && is_long(token.kind) {
        token.start as usize + LONGEST_NAME
    } else {
        token.start as usize
    }
}
