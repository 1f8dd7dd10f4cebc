//! A source, one statement after another.

ghost use Rattle.std.specs.Prelude.{◌≡◌, ◌+◌, ◌<◌, ◌^◌, List, [], ◌∷◌, length, map, option_map, slice_get, IfOk, OnOk};
ghost use Rattle.rv_expression_laws.specs.Lexing.{Token as SaidToken, is_last};
ghost use Rattle.rv_lexer.specs.Token.{kind_of, token_of};
ghost use Rattle.rv_debug_sources.specs.Sources as laws;
ghost use Rattle.rv_debug_sources.specs.Reading.{found_with, read_so_far};

use crate::edit::{Change, Edit, Statement, edited};
use crate::said::{Lines, enters_section};
use crate::statement::statement_in;
use crate::table::put_table;
use crate::tokens::{is_colon, is_end};
use rv_lexer::{Cursor, Lexer, Token, TokenKind};
use std::alloc::{AllocError, Global};

/// What has been read of a source.
#[derive(Drop)]
struct Reader<'a> {
    /// The edits of its statements.
    edits: Vec<Edit>,
    /// What they say of lines.
    lines: Lines,
    /// The tokens of the statement that has begun.
    begun: Vec<Token<'a>>,
}

/// A source whose sections are opened as if all of them were loaded, with the line table that its `.loc` make; none where
/// nothing is changed. A source of 4 GiB is none.
pub fn changed_source(alloc: Global, source: &[u8]) -> Result<Option<Vec<u8>>, AllocError>
    ensures { IfOk result (λ changed. length source.now + 1 < 2 ^ 32
        → option_map (λ text. text.items) changed ≡ laws.changed source.now) }
{
    let read = read(alloc, source)?;
    if read.is_kept() {
        return Ok(None);
    }
    let mut text = edited(alloc, false, source, read.edits.as_slice())?;
    put_table(&mut text, source, &read.lines)?;
    Ok(Some(text))
}

/// A source without what says lines, and with LEB128 numbers as bytes; none where [`changed_source`] has none.
pub fn plain_source(alloc: Global, source: &[u8]) -> Result<Option<Vec<u8>>, AllocError>
    ensures { IfOk result (λ plain. length source.now + 1 < 2 ^ 32
        → option_map (λ text. text.items) plain ≡ laws.plain_text source.now) }
{
    let read = read(alloc, source)?;
    if read.is_kept() {
        return Ok(None);
    }
    Ok(Some(edited(alloc, true, source, read.edits.as_slice())?))
}

/// Reads a source to its end.
fn read<'a>(alloc: Global, source: &'a [u8]) -> Result<Reader<'a>, AllocError>
    ensures { IfOk result (λ read. length source.now + 1 < 2 ^ 32
        → read_so_far read ≡ laws.read_of source.now) }
{
    let mut cursor = Cursor::new(Lexer::new(source));
    let mut reader = Reader {
        edits: Vec::new(alloc),
        lines: Lines::new(alloc),
        begun: Vec::new(alloc),
    };
    while !is_last(cursor.next.kind) {
        reader.take(cursor.next)?;
        cursor.advance();
    }
    reader.take(cursor.next)?;
    Ok(reader)
}

/// Whether a token is the last.
fn is_last(kind: TokenKind<'_>) -> bool
    ensures { result ≡ is_last (kind_of kind.entry) }
{
    matches!(
        kind,
        TokenKind::BadByte | TokenKind::BadToken | TokenKind::End
    )
}

impl<'a> Reader<'a> {
    /// Whether the source stays as it is.
    fn is_kept(&self) -> bool
        ensures { result ≡ laws.stays_as_it_is (read_so_far self.now) }
    {
        self.edits.is_empty()
    }

    /// Takes the next token.
    fn take(&mut self, token: Token<'a>) -> Result<(), AllocError>
        ensures { OnOk result ((ts : List SaidToken)
            → found_with self.new ts ≡ found_with self.old (token_of token.entry ∷ ts)) }
    {
        if is_end(token.kind) {
            return self.end();
        }
        if self.begun.len() == 1 && is_colon(token.kind) {
            self.begun.clear();
            return Ok(());
        }
        Ok(self.begun.push(token)?)
    }

    /// Ends the statement that has begun.
    fn end(&mut self) -> Result<(), AllocError>
        ensures read { OnOk result (read_so_far self.new
            ≡ laws.read_next (read_so_far self.old) (map token_of self.old.begun.items)) }
        ensures none { OnOk result (self.new.begun.items ≡ []) }
    {
        let statement = statement_in(&self.lines, self.begun.as_slice());
        self.end_sequence()?;
        self.add(statement)?;
        self.begun.clear();
        Ok(())
    }

    /// Ends the sequence that has begun, where the statement leaves its section.
    fn end_sequence(&mut self) -> Result<(), AllocError>
        ensures read { OnOk result (read_so_far self.new
            ≡ laws.sequence_ended (read_so_far self.old) (slice_get (map token_of self.old.begun.items) 0)) }
        ensures same { OnOk result (self.new.begun.items ≡ self.old.begun.items) }
    {
        match self.left_at() {
            Some(at) => self.end_at(at),
            None => Ok(()),
        }
    }

    /// Where the statement begins, if it leaves the section of a sequence that has begun.
    fn left_at(&self) -> Option<u32>
        ensures { result ≡ laws.left_at (read_so_far self.now)
            (slice_get (map token_of (self.now).begun.items) 0) }
    {
        match self.begun.as_slice().get(0) {
            Some(first) if self.lines.is_open && enters_section(first.kind) => Some(first.start),
            _ => None,
        }
    }

    /// Ends the sequence that has begun, in front of the statement at an offset.
    fn end_at(&mut self, at: u32) -> Result<(), AllocError>
        ensures read { OnOk result (read_so_far self.new ≡ laws.ended_at (read_so_far self.old) at) }
        ensures same { OnOk result (self.new.begun.items ≡ self.old.begun.items) }
    {
        self.edits.push(Edit {
            start: at as usize,
            stop: at as usize,
            change: Change::EndLabel(at),
        })?;
        self.lines.end(at)
    }

    /// Adds what becomes of a statement.
    fn add(&mut self, statement: Statement) -> Result<(), AllocError>
        ensures { OnOk result (read_so_far self.new
            ≡ laws.with_statement (read_so_far self.old) statement) }
    {
        match statement {
            Statement::Kept => Ok(()),
            Statement::Changed(edit) => Ok(self.edits.push(edit)?),
            Statement::Named(edit, file) => {
                self.edits.push(edit)?;
                self.lines.name(file)
            }
            Statement::Placed(edit, row) => {
                self.edits.push(edit)?;
                self.lines.place(row)
            }
        }
    }
}
