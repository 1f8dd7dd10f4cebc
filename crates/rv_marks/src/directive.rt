//! A directive, by the tokens of its statement.

ghost use Rattle.std.specs.Prelude.{◌≡◌, option_map, slice_get};
ghost use Rattle.rv_debug_laws.specs.declared.mark.Said.TheVariants.{Sized, Typed};
ghost use Rattle.rv_debug_laws.specs.Marks as laws;
ghost use Rattle.rv_marks.specs.Reading.{kinds_of, mark_of};

use crate::tokens::{is_comma_at, is_minus_at, is_type_sign_at, name_at, number_at};
use rv_debug_laws::{Mark, Said, SaidSize, SymbolType};
use rv_lexer::TokenKind;

/// What the statement of an ordinal says, if it is `.type` or `.size`.
pub(crate) fn mark_in<'a>(ordinal: u32, tokens: &[TokenKind<'a>]) -> Option<Mark<'a>>
    ensures { option_map mark_of result ≡ laws.mark_in ordinal (kinds_of tokens.now) }
{
    if !is_comma_at(tokens, 2) {
        return None;
    }
    let word = name_at(tokens, 0)?;
    let name = name_at(tokens, 1)?;
    mark_by(ordinal, word, name, tokens)
}

/// What a directive of this word says of a name.
fn mark_by<'a>(
    ordinal: u32,
    word: &[u8],
    name: &'a [u8],
    tokens: &[TokenKind<'_>],
) -> Option<Mark<'a>>
    ensures { option_map mark_of result
        ≡ laws.mark_by ordinal word.now name.now (kinds_of tokens.now) }
{
    if word == b".type".as_slice() {
        return type_mark(name, type_said(tokens));
    }
    if word == b".size".as_slice() {
        return size_mark(name, size_said(ordinal, name, tokens));
    }
    None
}

/// That a name has a type.
fn type_mark(name: &[u8], kind: Option<SymbolType>) -> Option<Mark<'_>>
    ensures { option_map mark_of result
        ≡ option_map (λ kind. record { name = name.now; said = Typed kind }) kind }
{
    match kind {
        Some(kind) => Some(Mark {
            name,
            said: Said::Typed(kind),
        }),
        None => None,
    }
}

/// That a name has a size.
fn size_mark(name: &[u8], size: Option<SaidSize>) -> Option<Mark<'_>>
    ensures { option_map mark_of result
        ≡ option_map (λ size. record { name = name.now; said = Sized size }) size }
{
    match size {
        Some(size) => Some(Mark {
            name,
            said: Said::Sized(size),
        }),
        None => None,
    }
}

/// The type that `.type` says.
fn type_said(tokens: &[TokenKind<'_>]) -> Option<SymbolType>
    ensures { result ≡ laws.type_said (kinds_of tokens.now) }
{
    if tokens.len() != 5 || !is_type_sign_at(tokens, 3) {
        return None;
    }
    type_named(name_at(tokens, 4)?)
}

/// The type of a name.
fn type_named(name: &[u8]) -> Option<SymbolType>
    ensures { result ≡ laws.type_named name.now }
{
    if name == b"function".as_slice() {
        return Some(SymbolType::Function);
    }
    if name == b"object".as_slice() {
        return Some(SymbolType::Datum);
    }
    if name == b"notype".as_slice() {
        return Some(SymbolType::NoType);
    }
    None
}

/// The size that `.size` says.
fn size_said(ordinal: u32, name: &[u8], tokens: &[TokenKind<'_>]) -> Option<SaidSize>
    ensures { result ≡ laws.size_said ordinal name.now (kinds_of tokens.now) }
{
    if is_up_to(name, tokens) {
        return Some(SaidSize::UpTo(ordinal));
    }
    if tokens.len() != 4 {
        return None;
    }
    Some(SaidSize::Bytes(number_at(tokens, 3)?))
}

/// Whether the size is what stands from a name to the statement.
fn is_up_to(name: &[u8], tokens: &[TokenKind<'_>]) -> bool
    ensures { result ≡ laws.is_up_to name.now (kinds_of tokens.now) }
{
    tokens.len() == 6
        && is_name_at(tokens, 3, b".")
        && is_minus_at(tokens, 4)
        && is_name_at(tokens, 5, name)
}

/// Whether this name stands at an index.
fn is_name_at(tokens: &[TokenKind<'_>], index: usize, name: &[u8]) -> bool
    ensures { result ≡ laws.says_name name.now (laws.token_name (slice_get (kinds_of tokens.now) index)) }
{
    match name_at(tokens, index) {
        Some(other) => other == name,
        None => false,
    }
}
