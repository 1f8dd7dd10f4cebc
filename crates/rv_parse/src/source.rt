//! The statements of a source.
//!
//! Lines that are too long are searched apart from the tokens, 65,536 bytes at a time from the back, so that ordinary
//! sources are hardly read for it. `memchr` looks for line feeds.

ghost use Rattle.std.specs.Prelude.{◌≡◌, ◌<◌, ◌≤◌, ℕ, List, [], IfOk, IfErr, IfSome, length, map, take, false, ◌+◌};
ghost use Rattle.rv_lexer.specs.Token.{token_of, kind_of};
ghost use Rattle.rv_expression_laws.specs.Lexing.{Token as SpecToken, Lexes, newlines};
ghost use Rattle.rv_parse_laws.specs.Syntax.{is_end, Says};
ghost use Rattle.rv_expression_laws.specs.Codes.{limit};
ghost use Rattle.rv_statement_laws.specs.Statement.{Statement as SpecStatement};
ghost use Rattle.rv_statement.specs.declared.statement.Statement.{Statement as SourceStatement};
ghost use Rattle.rv_statement.specs.declared.statements.Statements.{Statements as CompactList};
ghost use Rattle.rv_parse_laws.specs.Opening.{is_opened};
ghost use Rattle.rv_parse_laws.specs.Parsing.{checked_at};
ghost use Rattle.rv_parse.specs.Opened.{Knows};
ghost use Rattle.rv_parse_laws.specs.Reading.{Reads};
ghost use Rattle.rv_statement_laws.specs.Limits.{most_statements};
ghost use Rattle.rv_parse_laws.specs.Refusals.{SaysUpTo};
ghost use Rattle.rv_parse.specs.Lines.{past_line};
ghost use Rattle.rv_parse.specs.Offsets.{BeginIn};
ghost use Rattle.rv_lexer.specs.Left.{tokens_left};
ghost use Rattle.rv_statement.specs.View.{statement_kind, statement_of};
ghost use Rattle.rv_statement.specs.Statements.{statements_of};
ghost use Rattle.rv_lexer.specs.Cursor.{remaining, syntax_error_of, Answers};
ghost use Rattle.rv_parse.specs.Left.{StopsAt, RefusesTokens, RefusedAt, RefusedWith};

use crate::list::{PlacedStatements, StatementList};
use crate::opening::{Opened, wrong_opening};
use crate::statement::statement;
use memchr::{memchr_iter, memrchr};
use rv_expression::{Cursor, Lexer, ReadError, SourceCode, SourceFault, SyntaxError, Token};
use rv_parse_words::kinds;
use rv_statement::{MOST_STATEMENTS, Statement, StatementKind, Statements};
use std::alloc::Global;

/// The longest source, in bytes.
const LONGEST_SOURCE: usize = 1 << 24;

/// The longest line without its line feed, in bytes.
const LONGEST_LINE: usize = 65535;

/// The offset of the first byte past the limit of its line. Of the bytes that a line with its line feed may have, the
/// last line feed alone is looked for: the lines before it are short enough.
fn past_line(source: &[u8]) -> Option<usize>
    ensures place { result ≡ past_line 0 0 source.now }
    ensures within { IfSome result (λ place. place ≤ length source.now) }
{
    let mut start = 0;
    while LONGEST_LINE < source.len() - start {
        match memrchr(b'\n', &source[start..start + LONGEST_LINE + 1]) {
            Some(end) => start += end + 1,
            None => return Some(start + LONGEST_LINE),
        }
    }
    None
}

/// The fault of the first token of a statement past the most.
fn past_statements(first: Token<'_>) -> SyntaxError
    ensures { syntax_error_of result
        ≡ record { offset = first.entry.start; line = first.entry.line; code = limit } }
{
    SyntaxError {
        offset: first.start as usize,
        line: first.line,
        code: SourceCode::Limit,
    }
}

/// The statement at the front of the tokens, where these names are opened; the next token ends none.
fn checked<'a>(
    alloc: Global,
    cursor: &mut Cursor<'a>,
    opened: &Opened<'a>,
) -> Result<StatementKind<'a>, ReadError>
    requires { is_end (kind_of cursor.old.next.kind) ≡ false }
    ensures { (ss : List SpecStatement) → Knows (opened.now).set ss →
        Answers (λ k. (Says (statement_kind k), remaining cursor.new)) result
        (checked_at (is_opened ss) (remaining cursor.old)) }
{
    if let Some(wrong) = wrong_opening(alloc, cursor, opened)? {
        return Err(ReadError::At(wrong));
    }
    statement(alloc, cursor)
}

/// The statement at the front of the tokens, after `count` others; the next token ends none.
fn next_statement<'a>(
    alloc: Global,
    cursor: &mut Cursor<'a>,
    count: usize,
    opened: &Opened<'a>,
) -> Result<Statement<'a>, ReadError>
    requires { is_end (kind_of cursor.old.next.kind) ≡ false }
    ensures read { (ss : List SpecStatement) → Knows (opened.now).set ss →
        IfOk result
        (λ s. checked_at (is_opened ss) (remaining cursor.old)
        ≡ Ok (Says (statement_kind s.kind), remaining cursor.new)) }
    ensures line { IfOk result (λ s. s.line ≡ cursor.old.next.line) }
    ensures room { IfOk result (λ s. count < most_statements) }
    ensures stops { (ss : List SpecStatement) → Knows (opened.now).set ss →
        count ≤ most_statements →
        IfErr result
        (λ e. StopsAt e (is_opened ss) count (token_of cursor.old.next) (remaining cursor.old)) }
{
    let first = cursor.next;
    let past = past_statements(first);
    match checked(alloc, cursor, opened) {
        Ok(kind) => {
            if count < MOST_STATEMENTS {
                Ok(Statement {
                    kind,
                    line: first.line,
                })
            } else {
                Err(ReadError::At(past))
            }
        }
        Err(ReadError::At(wrong)) => {
            if count < MOST_STATEMENTS || wrong.offset == past.offset {
                Err(ReadError::At(wrong))
            } else {
                Err(ReadError::At(past))
            }
        }
        Err(ReadError::OutOfMemory) => Err(ReadError::OutOfMemory),
    }
}

/// The statements that the tokens of a source say, up to its end, put into an empty list.
#[tactic(auto, using(rv_parse_laws::proofs::ProgressLemmas::end_no_last))]
fn statements<'a, L: StatementList<'a>>(
    alloc: Global,
    lexer: Lexer<'a>,
    list: L,
) -> Result<L, ReadError>
    requires none { L.said list ≡ [] }
    requires begin { (ts : List SpecToken) → L.begin_in list ts }
    ensures begin { IfOk result (λ v. L.begin_in v (tokens_left lexer.entry)) }
    ensures says { IfOk result (λ v. SaysUpTo (tokens_left lexer.entry) [] (L.said v)) }
    ensures within { IfOk result (λ v. length (L.said v) ≤ most_statements) }
    ensures refuses { IfErr result (λ e. RefusesTokens (tokens_left lexer.entry) e) }
{
    let mut cursor = Cursor::new(lexer);
    let mut statements = list;
    let mut opened = Opened::new(alloc);
    let mut count = 0;
    while !kinds::is_source_end(cursor.next.kind) {
        if kinds::is_end(cursor.next.kind) {
            cursor.advance();
        } else {
            let from = cursor.next.start as usize;
            let statement = next_statement(alloc, &mut cursor, count, &opened)?;
            opened.add(&statement.kind)?;
            statements.put(statement, from)?;
            count += 1;
        }
    }
    Ok(statements)
}

/// The line of the byte after a text, from 1.
#[tactic(auto, using(crate::proofs::LineFeedsLemmas::feeds_counted))]
fn line_of(text: &[u8]) -> u32
    requires { length text.now ≤ 16777216 }
    ensures { result ≡ 1 + newlines text.now }
{
    memchr_iter(b'\n', text).count() as u32 + 1
}

/// The fault of a line that is too long, whose first byte past the limit is at an offset.
fn past_limit(source: &[u8], place: usize) -> SyntaxError
    requires within { place ≤ length source.now }
    requires short { length source.now ≤ 16777216 }
    ensures { syntax_error_of result
        ≡ record { offset = place; line = 1 + newlines (take place source.now); code = limit } }
{
    SyntaxError {
        offset: place,
        line: line_of(&source[..place]),
        code: SourceCode::Limit,
    }
}

/// The statements of a source, put into an empty list, or the first fault with its place.
fn placed<'a, L: StatementList<'a>>(
    alloc: Global,
    source: &'a [u8],
    list: L,
) -> Result<L, ReadError>
    requires none { L.said list ≡ [] }
    requires begin { (ts : List SpecToken) → L.begin_in list ts }
    ensures reads { IfOk result (λ v. Reads source.now (L.said v)) }
    ensures begin { IfOk result
        (λ v. (ts : List SpecToken) × Lexes source.now ts × L.begin_in v ts) }
    ensures refuses { IfErr result (λ e. RefusedAt source.now e) }
{
    if LONGEST_SOURCE < source.len() {
        return Err(ReadError::At(SyntaxError {
            offset: 0,
            line: 0,
            code: SourceCode::Limit,
        }));
    }
    let past = past_line(source);
    match statements(alloc, Lexer::new(source), list) {
        Err(ReadError::OutOfMemory) => Err(ReadError::OutOfMemory),
        Err(ReadError::At(wrong)) => match past {
            Some(place) if place < wrong.offset => Err(ReadError::At(past_limit(source, place))),
            _ => Err(ReadError::At(wrong)),
        },
        Ok(statements) => match past {
            Some(place) => Err(ReadError::At(past_limit(source, place))),
            None => Ok(statements),
        },
    }
}

/// A fault without its place.
#[tactic(auto, using(crate::proofs::RefusalsLemmas::refused_with))]
fn without_place(error: ReadError) -> SourceFault
    ensures { (bytes : List ℕ) → RefusedAt bytes error → RefusedWith bytes result }
{
    match error {
        ReadError::At(wrong) => SourceFault::At {
            code: wrong.code,
            line: wrong.line,
        },
        ReadError::OutOfMemory => SourceFault::OutOfMemory,
    }
}

/// The statements of a source. A fault names its line, from 1: it is the first of the source, in the order of its bytes;
/// a source over 16 MiB has it at line 0. Each takes as many bytes as the largest, which [`parse_compact`] spares.
pub fn parse(alloc: Global, source: &[u8]) -> Result<Vec<Statement<'_>>, SourceFault>
    ensures reads { IfOk result (λ v. Reads source.now (map statement_of v.items)) }
    ensures refuses { IfErr result (λ e. RefusedWith source.now e) }
{
    match placed(alloc, source, Vec::new(alloc)) {
        Ok(statements) => Ok(statements),
        Err(error) => Err(without_place(error)),
    }
}

/// The statements of a source, as [`parse`] reads them, in a list that keeps most of them in few bytes.
pub fn parse_compact(alloc: Global, source: &[u8]) -> Result<Statements<'_>, SourceFault>
    ensures reads { IfOk result (λ v. Reads source.now (statements_of v)) }
    ensures refuses { IfErr result (λ e. RefusedWith source.now e) }
{
    match placed(alloc, source, Statements::new(alloc, source)) {
        Ok(statements) => Ok(statements),
        Err(error) => Err(without_place(error)),
    }
}

/// The statements of a source, as [`parse`] reads them, and where each begins. A fault keeps the offset of its byte, in a
/// source that is not too long.
pub fn parse_placed(alloc: Global, source: &[u8]) -> Result<PlacedStatements<'_>, ReadError>
    ensures reads { IfOk result (λ v. Reads source.now (map statement_of v.statements.items)) }
    ensures begin { IfOk result
        (λ v. BeginIn source.now (map statement_of v.statements.items) v.offsets.items) }
    ensures refuses { IfErr result (λ e. RefusedAt source.now e) }
{
    placed(alloc, source, PlacedStatements::new(alloc))
}

/// A source has the same statements in either list.
pub fn lists_agree()
    ensures { (source : List ℕ) (whole : List SourceStatement) (compact : CompactList) →
        Reads source (map statement_of whole) → Reads source (statements_of compact) →
        map statement_of whole ≡ statements_of compact }
{}
