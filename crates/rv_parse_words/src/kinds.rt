//! What a token is, in each slot of a statement.
//!
//! Each question is of one token's kind alone, without a cursor, as the definitions ask it: so a contract here is one
//! equation, and what may stand in a slot and what is wrong there are told by the same test.

ghost use Rattle.std.specs.Prelude.{◌≡◌, ◌≤◌, ◌^◌, ◌∷◌, [], option_map};
ghost use Rattle.std.specs.List.{list_all};
ghost use Rattle.rv_expression_laws.specs.Bytes.{is_decimal};
ghost use Rattle.rv_expression_laws.specs.Lexing.{is_last};
ghost use Rattle.rv_lexer.specs.Token.{kind_of};
ghost use Rattle.rv_statement.specs.View.{now_of, statement_kind};
ghost use Rattle.rv_parse_laws.specs.Syntax.{is_symbol, is_section_name, register_of, kept_in, token_symbol, label_of, begins, is_comma, is_colon, is_percent, is_at_sign, is_plt, is_end, is_source_end, is_opening, is_closing, is_zero, is_any, accesses_of, single, A_string, A_type, may_stand, function_in, label_named};
ghost use Rattle.rv_parse_laws.specs.Faults.{is_name};
ghost use Rattle.rv_expression.specs.Expr.{tree_of_expr};
ghost use Rattle.rv_parse_laws.specs.WrongOpening.{is_section};
ghost use Rattle.rv_parse_laws.specs.Parsing.{width};
ghost use Rattle.rv_parse_words.specs.View.{choice_of, word_of, string_of};

use crate::words::{accesses_named, beginning_with, choice_named, function_named, register_named};
use rv_expression::{Expr, LONGEST_NAME, Punct, TokenKind};
use rv_isa::{AccessSet, Reg};
use rv_parcel::RegisterSet;
use rv_parse_laws::{Beginning, Role};
use rv_statement::StatementKind;
use rv_statement_laws::{Choice, Function};

/// A name that a symbol may have.
#[tactic(auto, unfolding(rv_parse_laws::specs::Syntax::is_symbol))]
fn is_symbol(name: &[u8]) -> bool
    ensures { result ≡ is_symbol name.now }
{
    register_named(name).is_none() && name != b".".as_slice() && name.len() <= LONGEST_NAME
}

/// A name that a section of a source may have: not that of the rows.
#[tactic(auto, unfolding(rv_parse_laws::specs::Syntax::is_section_name))]
pub fn is_section_name(name: &[u8]) -> bool
    ensures { result ≡ is_section_name name.now }
{
    name.len() <= LONGEST_NAME && name != b".rv.rows".as_slice()
}

/// The register that the token names.
pub fn register_of(kind: TokenKind<'_>) -> Option<Reg>
    ensures { result ≡ register_of (kind_of kind.entry) }
{
    match kind {
        TokenKind::Name(name) => register_named(name),
        _ => None,
    }
}

/// The register of a set that the token names.
pub fn register_in(set: RegisterSet, kind: TokenKind<'_>) -> Option<Reg>
    ensures { result ≡ kept_in set (register_of (kind_of kind.entry)) }
{
    match register_of(kind) {
        Some(register) if set.contains(register) => Some(register),
        _ => None,
    }
}

/// The symbol that the token names.
pub fn symbol_of(kind: TokenKind<'_>) -> Option<&[u8]>
    ensures { option_map now_of result ≡ token_symbol (kind_of kind.entry) }
{
    match kind {
        TokenKind::Name(name) if is_symbol(name) => Some(name),
        _ => None,
    }
}

/// A literal of value 0.
pub fn is_zero(kind: TokenKind<'_>) -> bool
    ensures { result ≡ is_zero (kind_of kind.entry) }
{
    match kind {
        TokenKind::Number(_, number) => number == 0,
        TokenKind::Character(byte) => byte == 0,
        _ => false,
    }
}

/// The string that the token is, as it stands between its quotes.
pub fn string_of(kind: TokenKind<'_>) -> Option<&[u8]>
    ensures { option_map (λ text. string_of text ∷ []) result
        ≡ single A_string (kind_of kind.entry) }
{
    match kind {
        TokenKind::Text(text) => Some(text),
        _ => None,
    }
}

/// The choice of `.option` that the token names.
pub fn choice_of(kind: TokenKind<'_>) -> Option<Choice>
    ensures { result ≡ choice_of (kind_of kind.entry) }
{
    match kind {
        TokenKind::Name(name) => choice_named(name),
        _ => None,
    }
}

/// The word that the token is, as the type of a section.
pub fn type_of(kind: TokenKind<'_>) -> Option<&[u8]>
    ensures { option_map (λ name. word_of name ∷ []) result ≡ single A_type (kind_of kind.entry) }
{
    match kind {
        TokenKind::Name(name) => Some(name),
        _ => None,
    }
}

/// Decimal digits alone.
fn is_decimal(word: &[u8]) -> bool
    ensures { result ≡ list_all is_decimal word.now }
{
    word.iter().all(|digit| digit.is_ascii_digit())
}

/// The label that the token is before a colon.
pub fn label_of(kind: TokenKind<'_>) -> Option<StatementKind<'_>>
    ensures { option_map statement_kind result ≡ label_of (kind_of kind.entry) }
{
    match kind {
        TokenKind::Name(name) if is_symbol(name) => Some(StatementKind::Label(name)),
        TokenKind::Number(word, _) | TokenKind::BadWord(word) if is_decimal(word) => {
            Some(StatementKind::Numbered(word))
        }
        _ => None,
    }
}

/// A token that may stand where operands are not looked at.
pub fn is_any(kind: TokenKind<'_>) -> bool
    ensures { result ≡ is_any (kind_of kind.entry) }
{
    match kind {
        TokenKind::Name(name) => name.len() <= LONGEST_NAME,
        TokenKind::Newline
        | TokenKind::End
        | TokenKind::BadByte
        | TokenKind::BadToken
        | TokenKind::BadWord(_)
        | TokenKind::Punct(Punct::Semicolon | Punct::DoubleSlash) => false,
        _ => true,
    }
}

/// The bytes that the token has of a name of several tokens.
pub fn width(kind: TokenKind<'_>) -> usize
    ensures width { result ≡ width (kind_of kind.entry) }
    ensures within { result ≤ 2 ^ 63 }
{
    match kind {
        TokenKind::Name(word) | TokenKind::Number(word, _) | TokenKind::BadWord(word) => word.len(),
        TokenKind::Reference(reference) => reference.digits().len() + 1,
        TokenKind::Punct(Punct::Minus) => 1,
        _ => 0,
    }
}

/// `@`
pub fn is_at(kind: TokenKind<'_>) -> bool
    ensures { result ≡ is_at_sign (kind_of kind.entry) }
{
    matches!(kind, TokenKind::Punct(Punct::At))
}

/// The word `plt`.
pub fn is_plt(kind: TokenKind<'_>) -> bool
    ensures { result ≡ is_plt (kind_of kind.entry) }
{
    match kind {
        TokenKind::Name(word) => word == b"plt".as_slice(),
        _ => false,
    }
}

/// `%`
pub fn is_percent(kind: TokenKind<'_>) -> bool
    ensures { result ≡ is_percent (kind_of kind.entry) }
{
    matches!(kind, TokenKind::Punct(Punct::Percent))
}

/// A function that may stand here.
fn may_stand(role: Role, function: Function) -> bool
    ensures { result ≡ may_stand role function }
{
    match function {
        Function::Hi => role == Role::Upper,
        Function::PcrelHi => role == Role::PcrelUpper,
        Function::Lo => matches!(role, Role::Operand | Role::Source),
        Function::PcrelLo => role == Role::Operand,
    }
}

/// The function that the token names, where it may stand.
pub fn function_in(role: Role, kind: TokenKind<'_>) -> Option<Function>
    ensures { result ≡ function_in role (kind_of kind.entry) }
{
    match kind {
        TokenKind::Name(name) => match function_named(name) {
            Some(function) if may_stand(role, function) => Some(function),
            _ => None,
        },
        _ => None,
    }
}

/// A name.
pub fn is_name(kind: TokenKind<'_>) -> bool
    ensures { result ≡ is_name (kind_of kind.entry) }
{
    matches!(kind, TokenKind::Name(_))
}

/// The label that the token names, as an expression.
#[tactic(auto, unfolding(rv_expression_laws::specs::Expression::tree_of))]
pub fn label_named(kind: TokenKind<'_>) -> Option<Expr<'_>>
    ensures { option_map tree_of_expr result ≡ label_named (kind_of kind.entry) }
{
    match kind {
        TokenKind::Name(name) if is_symbol(name) => Some(Expr::Name(name)),
        TokenKind::Reference(reference) => Some(Expr::Reference(reference)),
        _ => None,
    }
}

/// What the token begins, as the first of a statement.
pub fn begins(kind: TokenKind<'_>) -> Beginning
    ensures { result ≡ begins (kind_of kind.entry) }
{
    match kind {
        TokenKind::Name(name) => beginning_with(name),
        _ => Beginning::Nothing,
    }
}

/// The word `.section`.
pub fn is_section(kind: TokenKind<'_>) -> bool
    ensures { result ≡ is_section (kind_of kind.entry) }
{
    match kind {
        TokenKind::Name(word) => word == b".section".as_slice(),
        _ => false,
    }
}

/// A comma.
pub fn is_comma(kind: TokenKind<'_>) -> bool
    ensures { result ≡ is_comma (kind_of kind.entry) }
{
    matches!(kind, TokenKind::Punct(Punct::Comma))
}

/// A colon.
pub fn is_colon(kind: TokenKind<'_>) -> bool
    ensures { result ≡ is_colon (kind_of kind.entry) }
{
    matches!(kind, TokenKind::Punct(Punct::Colon))
}

/// `(`
pub fn is_opening(kind: TokenKind<'_>) -> bool
    ensures { result ≡ is_opening (kind_of kind.entry) }
{
    matches!(kind, TokenKind::Punct(Punct::Open))
}

/// `)`
pub fn is_closing(kind: TokenKind<'_>) -> bool
    ensures { result ≡ is_closing (kind_of kind.entry) }
{
    matches!(kind, TokenKind::Punct(Punct::Close))
}

/// The set of accesses that the token names.
pub fn accesses_of(kind: TokenKind<'_>) -> Option<AccessSet>
    ensures { result ≡ accesses_of (kind_of kind.entry) }
{
    match kind {
        TokenKind::Name(name) => accesses_named(name),
        _ => None,
    }
}

/// The end of a statement.
pub fn is_end(kind: TokenKind<'_>) -> bool
    ensures { result ≡ is_end (kind_of kind.entry) }
{
    matches!(
        kind,
        TokenKind::Newline | TokenKind::Punct(Punct::Semicolon) | TokenKind::End
    )
}

/// The last token of a source.
pub fn is_last(kind: TokenKind<'_>) -> bool
    ensures { result ≡ is_last (kind_of kind.entry) }
{
    matches!(
        kind,
        TokenKind::BadByte | TokenKind::BadToken | TokenKind::End
    )
}

/// The source's end.
pub fn is_source_end(kind: TokenKind<'_>) -> bool
    ensures { result ≡ is_source_end (kind_of kind.entry) }
{
    matches!(kind, TokenKind::End)
}
