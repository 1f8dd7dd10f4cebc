//! Statements at the front of a cursor's tokens.

ghost use Rattle.std.specs.Prelude.{◌≡◌, false, true};
ghost use Rattle.rv_lexer.specs.Token.{token_of, kind_of};
ghost use Rattle.rv_lexer.specs.Cursor.{remaining, Answers};
ghost use Rattle.rv_statement.specs.View.{statement_kind};
ghost use Rattle.rv_parse_laws.specs.Syntax.{begins, label_of, is_colon, is_end, Says};
ghost use Rattle.rv_parse_laws.specs.Faults.{wrong_label};
ghost use Rattle.rv_parse_laws.specs.Parsing.{begun_at, statement_at, part_at, taken, after_first};

use crate::directive::directive;
use crate::instruction::instruction;
use rv_expression::{Cursor, ReadError, SyntaxError, Token};
use rv_parse_words::{Beginning, fault, kinds};
use rv_statement::StatementKind;
use std::alloc::Global;

/// A label, after its name or its digits: the colon comes next.
#[tactic(auto, using(crate::proofs::TokensLemmas::colon_no_last), unfolding(rv_lexer::specs::Cursor::remaining))]
fn label<'a>(cursor: &mut Cursor<'a>, first: Token<'a>) -> Result<StatementKind<'a>, ReadError>
    requires { is_colon (kind_of cursor.old.next.kind) ≡ true }
    ensures { Answers (λ k. (statement_kind k, remaining cursor.new)) result
        (taken (token_of first.entry) (after_first (remaining cursor.old))
        (label_of (kind_of first.entry.kind)) (wrong_label (kind_of first.entry.kind))) }
{
    match kinds::label_of(first.kind) {
        Some(label) => {
            cursor.advance();
            Ok(label)
        }
        None => Err(ReadError::At(SyntaxError::at(first, fault::at_label(first.kind)))),
    }
}

/// What the first token begins, that is no label.
#[tactic(auto, unfolding(rv_parse_laws::specs::Parsing::begun_at))]
fn begun<'a>(
    alloc: Global,
    cursor: &mut Cursor<'a>,
    first: Token<'a>,
) -> Result<StatementKind<'a>, ReadError>
    ensures { Answers (λ k. (statement_kind k, remaining cursor.new)) result
        (begun_at (begins (kind_of first.entry.kind)) (token_of first.entry) (remaining cursor.old)) }
{
    match kinds::begins(first.kind) {
        Beginning::Instruction(mnemonic) => instruction(alloc, cursor, mnemonic),
        Beginning::Directive(word) => directive(alloc, cursor, word),
        Beginning::Nothing => Err(ReadError::At(SyntaxError::at(
            first,
            fault::at_start(first.kind),
        ))),
    }
}

/// A label, or another statement up to its end, after its first token.
#[tactic(auto, unfolding(rv_lexer::specs::Cursor::remaining, rv_parse_laws::specs::Parsing::statement_at))]
fn statement_after<'a>(
    alloc: Global,
    cursor: &mut Cursor<'a>,
    first: Token<'a>,
) -> Result<StatementKind<'a>, ReadError>
    ensures { Answers (λ k. (statement_kind k, remaining cursor.new)) result
        (statement_at (token_of first.entry) (remaining cursor.old)) }
{
    if kinds::is_colon(cursor.next.kind) {
        label(cursor, first)
    } else {
        begun(alloc, cursor, first)
    }
}

/// A label, or another statement up to its end; the next token ends none.
#[tactic(auto, using(rv_parse_laws::proofs::PartsLemmas::last_begins_nothing), unfolding(rv_lexer::specs::Cursor::remaining, rv_parse_laws::specs::Parsing::part_at, rv_parse_laws::specs::Parsing::statement_at, rv_parse_laws::specs::Parsing::begun_at))]
pub fn statement<'a>(alloc: Global, cursor: &mut Cursor<'a>) -> Result<StatementKind<'a>, ReadError>
    requires { is_end (kind_of cursor.old.next.kind) ≡ false }
    ensures { Answers (λ k. (Says (statement_kind k), remaining cursor.new)) result
        (part_at (remaining cursor.old)) }
{
    let first = cursor.next;
    if kinds::is_last(first.kind) {
        return Err(ReadError::At(cursor.wrong(fault::at_start(first.kind))));
    }
    cursor.advance();
    statement_after(alloc, cursor, first)
}
