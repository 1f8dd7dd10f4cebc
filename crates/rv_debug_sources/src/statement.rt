//! A statement, by its tokens.

ghost use Rattle.std.specs.Prelude.{◌≡◌, Some, drop, map, option_and_then, slice_get};
ghost use Rattle.rv_lexer.specs.Token.{kind_of, string_bytes, token_of};
ghost use Rattle.rv_debug_sources.specs.Reading.{said_of};
ghost use Rattle.rv_debug_sources.specs.Sources as laws;

use crate::edit::{Change, Edit, Statement};
use crate::line::{LineRow, SaidFile};
use crate::said::{Lines, file_said};
use crate::tokens::{flags_in, is_loaded_at, is_minus_at, is_word_at, number_at};
use rv_lexer::{Token, TokenKind, string_contains};

/// What becomes of a statement.
pub(crate) fn statement_in(lines: &Lines, tokens: &[Token<'_>]) -> Statement
    ensures { result ≡ laws.statement_in (said_of lines.now) (map token_of tokens.now) }
{
    if is_word_at(tokens, 0, b".section") {
        return opening_in(tokens);
    }
    if is_word_at(tokens, 0, b".uleb128") {
        return unsigned_in(tokens);
    }
    if is_word_at(tokens, 0, b".sleb128") {
        return signed_in(tokens);
    }
    if is_word_at(tokens, 0, b".file") {
        return named_by(lines, tokens, file_said(tokens));
    }
    if is_word_at(tokens, 0, b".loc") {
        return placed_at(lines, tokens);
    }
    Statement::Kept
}

/// What becomes of `.file`, which names a file.
fn named_by(lines: &Lines, tokens: &[Token<'_>], file: Option<SaidFile>) -> Statement
    ensures { result ≡ laws.named_by (said_of lines.now) (map token_of tokens.now) file }
{
    match file {
        Some(file) => named_as(lines, tokens, file),
        None => Statement::Kept,
    }
}

fn named_as(lines: &Lines, tokens: &[Token<'_>], file: SaidFile) -> Statement
    ensures { result ≡ laws.named_by (said_of lines.now) (map token_of tokens.now) (Some file) }
{
    if lines.may_stand(&file) {
        return named(whole(tokens, Change::Nothing), file);
    }
    Statement::Kept
}

/// A changed statement names a file.
fn named(statement: Statement, file: SaidFile) -> Statement
    ensures { result ≡ laws.naming_file statement file }
{
    match statement {
        Statement::Changed(edit) => Statement::Named(edit, file),
        _ => Statement::Kept,
    }
}

/// What becomes of `.loc`.
fn placed_at(lines: &Lines, tokens: &[Token<'_>]) -> Statement
    ensures { result ≡ laws.loc_at (said_of lines.now) (map token_of tokens.now)
        (slice_get (map token_of tokens.now) 0) }
{
    match tokens.get(0) {
        Some(first) => placed_by(tokens, lines.row_said(first.start, operands(tokens))),
        None => Statement::Kept,
    }
}

/// The tokens behind the first.
fn operands<'a>(tokens: &'a [Token<'a>]) -> &'a [Token<'a>]
    ensures { map token_of result.now ≡ drop 1 (map token_of tokens.now) }
{
    tokens.get(1..).unwrap_or(&[])
}

fn placed_by(tokens: &[Token<'_>], row: Option<LineRow>) -> Statement
    ensures { result ≡ laws.placed_by (map token_of tokens.now) row }
{
    match row {
        Some(row) => placed(whole(tokens, change_of_row(&row)), row),
        None => Statement::Kept,
    }
}

/// A changed statement is a row.
fn placed(statement: Statement, row: LineRow) -> Statement
    ensures { result ≡ laws.placing_row statement row }
{
    match statement {
        Statement::Changed(edit) => Statement::Placed(edit, row),
        _ => Statement::Kept,
    }
}

/// The label of a row, if it is of a line.
fn change_of_row(row: &LineRow) -> Change
    ensures { result ≡ laws.change_of_row row.now }
{
    if row.line == 0 {
        return Change::Nothing;
    }
    Change::RowLabel(row.at)
}

/// A whole statement gives way to a text.
fn whole(tokens: &[Token<'_>], change: Change) -> Statement
    ensures { result ≡ laws.whole_statement (map token_of tokens.now) change }
{
    replaced_by(tokens, tokens.len().saturating_sub(1), change)
}

/// What becomes of the statement that opens a section.
fn opening_in(tokens: &[Token<'_>]) -> Statement
    ensures { result ≡ laws.opening_in (map token_of tokens.now) }
{
    match flags_in(tokens) {
        Some(flags) => flags_by(flags.start, flags.kind),
        None => without_flags(tokens),
    }
}

/// Flags go behind the name, unless its front has the section loaded.
fn without_flags(tokens: &[Token<'_>]) -> Statement
    ensures { result ≡ laws.without_flags (map token_of tokens.now) }
{
    if is_loaded_at(tokens, 1) {
        return Statement::Kept;
    }
    match tokens.get(tokens.len().saturating_sub(1)) {
        Some(last) => insertion(last.stop as usize, Change::Flags),
        None => Statement::Kept,
    }
}

/// The flag goes into flags that begin at this offset, unless they have it.
fn flags_by(start: u32, flags: TokenKind<'_>) -> Statement
    ensures { result ≡ laws.flags_by start (kind_of flags.entry) }
{
    match flags {
        TokenKind::Text(flags) => flags_with(start, flags),
        _ => Statement::Kept,
    }
}

/// The flag goes into these flags, which begin at this offset, unless they have it.
fn flags_with(start: u32, flags: &[u8]) -> Statement
    ensures { result ≡ laws.flags_with start (string_bytes flags.now) }
{
    if string_contains(flags, b'a') {
        return Statement::Kept;
    }
    insertion(start as usize + 1, Change::Flag)
}

/// A text goes to an offset.
fn insertion(at: usize, change: Change) -> Statement
    ensures { result ≡ laws.insertion at change }
{
    Statement::Changed(Edit {
        start: at,
        stop: at,
        change,
    })
}

/// What becomes of `.uleb128`.
fn unsigned_in(tokens: &[Token<'_>]) -> Statement
    ensures { result ≡ laws.unsigned_in (map token_of tokens.now) }
{
    if tokens.len() != 2 {
        return Statement::Kept;
    }
    match number_at(tokens, 1) {
        Some(number) => replaced_by(tokens, 1, Change::Unsigned(number)),
        None => Statement::Kept,
    }
}

/// What becomes of `.sleb128`.
fn signed_in(tokens: &[Token<'_>]) -> Statement
    ensures { result ≡ laws.signed_in (map token_of tokens.now) }
{
    if tokens.len() == 2 {
        return replaced(tokens, 1, above(number_at(tokens, 1)));
    }
    if tokens.len() == 3 && is_minus_at(tokens, 1) {
        return replaced(tokens, 2, below(number_at(tokens, 2)));
    }
    Statement::Kept
}

/// A signed number that is not negative, if it has 64 bits.
fn above(number: Option<u64>) -> Option<Change>
    ensures { result ≡ option_and_then laws.above number }
{
    match number {
        Some(number) if number < 1 << 63 => Some(Change::Signed(false, number)),
        _ => None,
    }
}

/// The signed number below 0, if it has 64 bits.
fn below(number: Option<u64>) -> Option<Change>
    ensures { result ≡ option_and_then laws.below number }
{
    match number {
        Some(0) => Some(Change::Signed(false, 0)),
        Some(number) if number <= 1 << 63 => Some(Change::Signed(true, number - 1)),
        _ => None,
    }
}

/// The tokens from the first to another in its line give way to a text, if there is one.
fn replaced(tokens: &[Token<'_>], last: usize, change: Option<Change>) -> Statement
    ensures { result ≡ laws.replaced (map token_of tokens.now) last change }
{
    match change {
        Some(change) => replaced_by(tokens, last, change),
        None => Statement::Kept,
    }
}

/// The tokens from the first to another in its line give way to a text.
fn replaced_by(tokens: &[Token<'_>], last: usize, change: Change) -> Statement
    ensures { result ≡ laws.replaced_by (slice_get (map token_of tokens.now) 0)
        (slice_get (map token_of tokens.now) last) change }
{
    let Some(first) = tokens.get(0) else {
        return Statement::Kept;
    };
    let Some(last) = tokens.get(last) else {
        return Statement::Kept;
    };
    if first.line != last.line {
        return Statement::Kept;
    }
    Statement::Changed(Edit {
        start: first.start as usize,
        stop: last.stop as usize,
        change,
    })
}
