//! Tokens of a statement, by their indices.

ghost use Rattle.std.specs.Prelude.{◌≡◌, Some, map, option_map, slice_get};
ghost use Rattle.std.specs.List.{find};
ghost use Rattle.rv_expression_laws.specs.Lexing.{Token as SaidToken};
ghost use Rattle.rv_lexer.specs.Token.{kind_of, token_of};
ghost use Rattle.rv_debug_laws.specs.Marks as marks;
ghost use Rattle.rv_debug_sources.specs.Lines as lines;
ghost use Rattle.rv_debug_sources.specs.Sources as laws;

use crate::line::SourcePart;
use rv_lexer::{Punct, Token, TokenKind};
use rv_unit::Section;

/// Whether this word stands at an index.
pub(crate) fn is_word_at(tokens: &[Token<'_>], index: usize, word: &[u8]) -> bool
    ensures { result ≡ laws.is_this_word word.now (laws.kind_in (slice_get (map token_of tokens.now) index)) }
{
    match tokens.get(index) {
        Some(token) => is_word(token.kind, word),
        None => false,
    }
}

fn is_word(kind: TokenKind<'_>, word: &[u8]) -> bool
    ensures { result ≡ laws.is_this_word word.now (Some (kind_of kind.entry)) }
{
    match kind {
        TokenKind::Name(name) => name == word,
        _ => false,
    }
}

/// Whether the section is loaded whose name begins at an index, if no flags are given.
pub(crate) fn is_loaded_at(tokens: &[Token<'_>], index: usize) -> bool
    ensures { result ≡ laws.is_loaded_name (laws.kind_in (slice_get (map token_of tokens.now) index)) }
{
    match tokens.get(index) {
        Some(token) => is_loaded_name(token.kind),
        None => true,
    }
}

fn is_loaded_name(kind: TokenKind<'_>) -> bool
    ensures { result ≡ laws.is_loaded_name (Some (kind_of kind.entry)) }
{
    match kind {
        TokenKind::Name(name) => Section::of(name, None, None).loaded,
        _ => true,
    }
}

/// The flags of a statement that opens a section: its first string.
pub(crate) fn flags_in<'a>(tokens: &[Token<'a>]) -> Option<Token<'a>>
    ensures { option_map token_of result
        ≡ find (λ (t : SaidToken). lines.is_string_kind t.kind) (map token_of tokens.now) }
{
    for token in tokens {
        if is_text(token.kind) {
            return Some(*token);
        }
    }
    None
}

/// Whether a minus sign stands at an index.
pub(crate) fn is_minus_at(tokens: &[Token<'_>], index: usize) -> bool
    ensures { result ≡ marks.is_minus (laws.kind_in (slice_get (map token_of tokens.now) index)) }
{
    match tokens.get(index) {
        Some(token) => is_minus(token.kind),
        None => false,
    }
}

fn is_minus(kind: TokenKind<'_>) -> bool
    ensures { result ≡ marks.is_minus (Some (kind_of kind.entry)) }
{
    matches!(kind, TokenKind::Punct(Punct::Minus))
}

/// The number that stands at an index.
pub(crate) fn number_at(tokens: &[Token<'_>], index: usize) -> Option<u64>
    ensures { result ≡ marks.token_number (laws.kind_in (slice_get (map token_of tokens.now) index)) }
{
    match tokens.get(index) {
        Some(token) => number_of(token.kind),
        None => None,
    }
}

fn number_of(kind: TokenKind<'_>) -> Option<u64>
    ensures { result ≡ marks.token_number (Some (kind_of kind.entry)) }
{
    match kind {
        TokenKind::Number(_, number) => Some(number),
        _ => None,
    }
}

/// Whether a statement ends in front of a token.
pub(crate) fn is_end(kind: TokenKind<'_>) -> bool
    ensures { result ≡ marks.ends_statement (kind_of kind.entry) }
{
    matches!(
        kind,
        TokenKind::Newline | TokenKind::Punct(Punct::Semicolon) | TokenKind::End
    )
}

/// Whether a token is a colon.
pub(crate) fn is_colon(kind: TokenKind<'_>) -> bool
    ensures { result ≡ marks.is_colon (kind_of kind.entry) }
{
    matches!(kind, TokenKind::Punct(Punct::Colon))
}

/// A number, if it has 32 bits.
pub(crate) fn small(number: u64) -> Option<u64>
    ensures { result ≡ lines.small number }
{
    if number < 1 << 32 { Some(number) } else { None }
}

/// The number of 32 bits that stands at an index.
pub(crate) fn small_at(tokens: &[Token<'_>], index: usize) -> Option<u64>
    ensures { result ≡ lines.small_number (slice_get (map token_of tokens.now) index) }
{
    match tokens.get(index) {
        Some(token) => small_in(token.kind),
        None => None,
    }
}

fn small_in(kind: TokenKind<'_>) -> Option<u64>
    ensures { result ≡ lines.small_in (kind_of kind.entry) }
{
    match kind {
        TokenKind::Number(_, number) => small(number),
        _ => None,
    }
}

/// The string that stands at an index, with its quotes.
pub(crate) fn quoted_at(tokens: &[Token<'_>], index: usize) -> Option<SourcePart>
    ensures { result ≡ lines.quoted (slice_get (map token_of tokens.now) index) }
{
    match tokens.get(index) {
        Some(token) if is_text(token.kind) => Some(SourcePart {
            start: token.start,
            stop: token.stop,
        }),
        _ => None,
    }
}

fn is_text(kind: TokenKind<'_>) -> bool
    ensures { result ≡ lines.is_string_kind (kind_of kind.entry) }
{
    matches!(kind, TokenKind::Text(_))
}
