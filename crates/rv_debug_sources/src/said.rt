//! What statements have said of lines so far.

ghost use Rattle.std.specs.Prelude.{◌≡◌, ◌<◌, Some, length, map, option_map, slice_get, OnOk};
ghost use Rattle.rv_lexer.specs.Token.{kind_of, token_of};
ghost use Rattle.rv_debug_sources.specs.Lines as laws;
ghost use Rattle.rv_debug_sources.specs.Reading.{said_of};

use crate::line::{FileName, LineRow, LineStep, SaidFile, SourcePart};
use crate::loc::{Awaited, LocReading, row_from};
use crate::tokens::{quoted_at, small_at};
use rv_lexer::{Token, TokenKind};
use std::alloc::{AllocError, Global};

/// The files and their directories, the rows and the ends of their sequences, the column and is_stmt that the next row begins
/// with, and whether a sequence has begun.
#[derive(Drop)]
pub(crate) struct Lines {
    pub names: Vec<FileName>,
    pub directories: Vec<SourcePart>,
    pub steps: Vec<LineStep>,
    pub column: u64,
    pub is_stmt: bool,
    pub is_open: bool,
}

impl Lines {
    /// Nothing has been said.
    pub(crate) fn new(alloc: Global) -> Self
        ensures { said_of result ≡ laws.nothing_said }
    {
        Lines {
            names: Vec::new(alloc),
            directories: Vec::new(alloc),
            steps: Vec::new(alloc),
            column: 0,
            is_stmt: true,
            is_open: false,
        }
    }

    /// Whether a file may be named next.
    pub(crate) fn may_stand(&self, file: &SaidFile) -> bool
        ensures { result ≡ laws.may_stand (said_of self.now) file.now }
    {
        self.is_next(file.number) && (file.number > 0 || is_given(file.directory))
    }

    /// Whether a number is that of the next file.
    fn is_next(&self, number: u64) -> bool
        ensures { result ≡ laws.follows_files number (length (said_of self.now).names) (slice_get (said_of self.now).names 0) }
    {
        match self.names.as_slice().get(0) {
            Some(file) => {
                file.number <= number && number - file.number == self.names.len() as u64
            }
            None => number <= 1,
        }
    }

    /// Whether a file of this number has been named.
    fn is_named(&self, number: u64) -> bool
        ensures { result ≡ laws.is_among_files number (length (said_of self.now).names) (slice_get (said_of self.now).names 0) }
    {
        match self.names.as_slice().get(0) {
            Some(file) => {
                file.number <= number && number - file.number < self.names.len() as u64
            }
            None => false,
        }
    }

    /// Names a file.
    pub(crate) fn name(&mut self, file: SaidFile) -> Result<(), AllocError>
        ensures { OnOk result (said_of self.new ≡ laws.with_file (said_of self.old) file file.directory) }
    {
        match file.directory {
            Some(directory) => self.name_in(file, directory),
            None => Ok(
                self.names.push(FileName {
                    number: file.number,
                    name: file.name,
                    directory: 0,
                })?,
            ),
        }
    }

    /// Names a file in a directory of its own.
    fn name_in(&mut self, file: SaidFile, directory: SourcePart) -> Result<(), AllocError>
        ensures { OnOk result (said_of self.new ≡ laws.with_file (said_of self.old) file (Some directory)) }
    {
        let number = self.directories.len() as u64
            + first_directory(self.first_number(file.number));
        self.names.push(FileName {
            number: file.number,
            name: file.name,
            directory: number,
        })?;
        Ok(self.directories.push(directory)?)
    }

    /// The number of the first file, which is this one if there is none.
    fn first_number(&self, number: u64) -> u64
        ensures { result ≡ laws.first_number number (slice_get (said_of self.now).names 0) }
    {
        match self.names.as_slice().get(0) {
            Some(file) => file.number,
            None => number,
        }
    }

    /// The row of a statement at an offset, by the tokens behind its word.
    pub(crate) fn row_said(&self, at: u32, tokens: &[Token<'_>]) -> Option<LineRow>
        ensures { result ≡ laws.row_said (said_of self.now) at (map token_of tokens.now) }
    {
        let begun = LocReading {
            row: self.begun_row(at),
            awaits: Awaited::File,
        };
        match row_from(begun, tokens) {
            Some(row) if self.is_named(row.file) => Some(row),
            _ => None,
        }
    }

    /// A row before anything is said of it.
    fn begun_row(&self, at: u32) -> LineRow
        ensures { result ≡ laws.begun_row (said_of self.now) at }
    {
        LineRow {
            at,
            file: 0,
            line: 0,
            column: self.column,
            discriminator: 0,
            is_stmt: self.is_stmt,
            basic_block: false,
            prologue_end: false,
            epilogue_begin: false,
        }
    }

    /// Adds a row.
    pub(crate) fn place(&mut self, row: LineRow) -> Result<(), AllocError>
        ensures { OnOk result (said_of self.new ≡ laws.with_row (said_of self.old) row) }
    {
        self.column = row.column;
        self.is_stmt = row.is_stmt;
        if row.line == 0 {
            return Ok(());
        }
        self.is_open = true;
        Ok(self.steps.push(LineStep::Row(row))?)
    }

    /// Ends a sequence, in front of the statement at an offset.
    pub(crate) fn end(&mut self, at: u32) -> Result<(), AllocError>
        ensures { OnOk result (said_of self.new ≡ laws.with_end (said_of self.old) at) }
    {
        self.is_open = false;
        Ok(self.steps.push(LineStep::End(at))?)
    }
}

/// The number of the first directory, by that of the first file.
fn first_directory(first: u64) -> u64
    ensures is { result ≡ laws.first_directory first }
    ensures small { result < 2 }
{
    if first == 0 { 0 } else { 1 }
}

/// Whether there is a directory.
fn is_given(directory: Option<SourcePart>) -> bool
    ensures { result ≡ laws.is_given directory }
{
    match directory {
        Some(_) => true,
        None => false,
    }
}

/// The file that `.file` names.
pub(crate) fn file_said(tokens: &[Token<'_>]) -> Option<SaidFile>
    ensures { result ≡ laws.file_said (map token_of tokens.now) }
{
    match small_at(tokens, 1) {
        Some(number) => file_by(tokens, number),
        None => None,
    }
}

/// The file that `.file` names by this number.
fn file_by(tokens: &[Token<'_>], number: u64) -> Option<SaidFile>
    ensures { result ≡ laws.file_by (map token_of tokens.now) number }
{
    if tokens.len() == 3 {
        return file_of(number, None, quoted_at(tokens, 2));
    }
    if tokens.len() != 4 {
        return None;
    }
    match quoted_at(tokens, 2) {
        Some(directory) => file_of(number, Some(directory), quoted_at(tokens, 3)),
        None => None,
    }
}

/// A file, if it has a name.
fn file_of(number: u64, directory: Option<SourcePart>, name: Option<SourcePart>) -> Option<SaidFile>
    ensures { result ≡ option_map (laws.file_of number directory) name }
{
    match name {
        Some(name) => Some(SaidFile {
            number,
            directory,
            name,
        }),
        None => None,
    }
}

/// Whether a section is entered by this first token of a statement.
pub(crate) fn enters_section(kind: TokenKind<'_>) -> bool
    ensures { result ≡ laws.enters_section (kind_of kind.entry) }
{
    match kind {
        TokenKind::Name(word) => enters_by(word),
        _ => false,
    }
}

/// Whether a section is entered by this word.
fn enters_by(word: &[u8]) -> bool
    ensures { result ≡ laws.enters_by word.now }
{
    word == b".section".as_slice()
        || word == b".text".as_slice()
        || word == b".data".as_slice()
        || word == b".bss".as_slice()
        || word == b".rodata".as_slice()
}
