//! Tokens of a statement, by their indices.

ghost use Rattle.std.specs.Prelude.{◌≡◌, Some, option_map, slice_get};
ghost use Rattle.rv_lexer.specs.Token.{kind_of};
ghost use Rattle.rv_debug_laws.specs.Marks as laws;
ghost use Rattle.rv_marks.specs.Reading.{kinds_of};

use rv_lexer::{Punct, TokenKind};

/// The name that stands at an index.
pub(crate) fn name_at<'a>(tokens: &[TokenKind<'a>], index: usize) -> Option<&'a [u8]>
    ensures { option_map (λ name. name.now) result
        ≡ laws.token_name (slice_get (kinds_of tokens.now) index) }
{
    match tokens.get(index) {
        Some(kind) => name_of(*kind),
        None => None,
    }
}

/// The name that a token is.
fn name_of(kind: TokenKind<'_>) -> Option<&[u8]>
    ensures { option_map (λ name. name.now) result ≡ laws.token_name (Some (kind_of kind.entry)) }
{
    match kind {
        TokenKind::Name(name) => Some(name),
        _ => None,
    }
}

/// The number that stands at an index.
pub(crate) fn number_at(tokens: &[TokenKind<'_>], index: usize) -> Option<u64>
    ensures { result ≡ laws.token_number (slice_get (kinds_of tokens.now) index) }
{
    match tokens.get(index) {
        Some(kind) => number_of(*kind),
        None => None,
    }
}

/// The number that a token is.
fn number_of(kind: TokenKind<'_>) -> Option<u64>
    ensures { result ≡ laws.token_number (Some (kind_of kind.entry)) }
{
    match kind {
        TokenKind::Number(_, number) => Some(number),
        _ => None,
    }
}

/// Whether a comma stands at an index.
pub(crate) fn is_comma_at(tokens: &[TokenKind<'_>], index: usize) -> bool
    ensures { result ≡ laws.is_comma (slice_get (kinds_of tokens.now) index) }
{
    match tokens.get(index) {
        Some(kind) => is_comma(*kind),
        None => false,
    }
}

fn is_comma(kind: TokenKind<'_>) -> bool
    ensures { result ≡ laws.is_comma (Some (kind_of kind.entry)) }
{
    matches!(kind, TokenKind::Punct(Punct::Comma))
}

/// Whether a minus sign stands at an index.
pub(crate) fn is_minus_at(tokens: &[TokenKind<'_>], index: usize) -> bool
    ensures { result ≡ laws.is_minus (slice_get (kinds_of tokens.now) index) }
{
    match tokens.get(index) {
        Some(kind) => is_minus(*kind),
        None => false,
    }
}

fn is_minus(kind: TokenKind<'_>) -> bool
    ensures { result ≡ laws.is_minus (Some (kind_of kind.entry)) }
{
    matches!(kind, TokenKind::Punct(Punct::Minus))
}

/// Whether the sign in front of a type's name stands at an index.
pub(crate) fn is_type_sign_at(tokens: &[TokenKind<'_>], index: usize) -> bool
    ensures { result ≡ laws.is_type_sign (slice_get (kinds_of tokens.now) index) }
{
    match tokens.get(index) {
        Some(kind) => is_type_sign(*kind),
        None => false,
    }
}

fn is_type_sign(kind: TokenKind<'_>) -> bool
    ensures { result ≡ laws.is_type_sign (Some (kind_of kind.entry)) }
{
    matches!(
        kind,
        TokenKind::Punct(Punct::At) | TokenKind::Punct(Punct::Percent)
    )
}

/// Whether a statement ends in front of a token.
pub(crate) fn is_end(kind: TokenKind<'_>) -> bool
    ensures { result ≡ laws.ends_statement (kind_of kind.entry) }
{
    matches!(
        kind,
        TokenKind::Newline | TokenKind::Punct(Punct::Semicolon) | TokenKind::End
    )
}

/// Whether a token is a colon.
pub(crate) fn is_colon(kind: TokenKind<'_>) -> bool
    ensures { result ≡ laws.is_colon (kind_of kind.entry) }
{
    matches!(kind, TokenKind::Punct(Punct::Colon))
}
