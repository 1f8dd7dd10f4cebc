//! `.loc`, by the tokens behind its word.

ghost use Rattle.std.specs.Prelude.{◌≡◌, Some, map, option_and_then};
ghost use Rattle.rv_lexer.specs.Token.{kind_of, token_of};
ghost use Rattle.rv_debug_sources.specs.Lines as laws;

use crate::line::LineRow;
use crate::tokens::small;
use rv_lexer::{Token, TokenKind};

/// What the next token of `.loc` may be.
#[derive(Clone, Copy, Drop)]
pub(crate) enum Awaited {
    /// The file's number.
    File,
    /// The line.
    Line,
    /// The column, or an option's word.
    Column,
    /// An option's word.
    Word,
    /// 0 or 1, for is_stmt.
    Truth,
    /// The discriminator.
    Discriminator,
}

/// A row, as far as it has been read.
#[derive(Clone, Copy, Drop)]
pub(crate) struct LocReading {
    pub row: LineRow,
    pub awaits: Awaited,
}

/// The row that these tokens complete.
pub(crate) fn row_from(begun: LocReading, tokens: &[Token<'_>]) -> Option<LineRow>
    ensures { result ≡ laws.row_from (Some begun) (map token_of tokens.now) }
{
    let mut reading = Some(begun);
    for token in tokens {
        reading = read_next(reading, token);
    }
    finished(reading)
}

/// The row, if it may end.
fn finished(reading: Option<LocReading>) -> Option<LineRow>
    ensures { result ≡ option_and_then laws.finished reading }
{
    match reading {
        Some(reading) if awaits_word(reading.awaits) => Some(reading.row),
        _ => None,
    }
}

/// A row with one more token, if it is still one.
fn read_next(reading: Option<LocReading>, token: &Token<'_>) -> Option<LocReading>
    ensures { result ≡ option_and_then (λ r. laws.read_more r (token_of token.now).kind) reading }
{
    match reading {
        Some(reading) => read_more(reading, token.kind),
        None => None,
    }
}

/// A row with one more token.
fn read_more(reading: LocReading, kind: TokenKind<'_>) -> Option<LocReading>
    ensures { result ≡ laws.read_more reading (kind_of kind.entry) }
{
    match kind {
        TokenKind::Number(_, number) => with_small(reading, small(number)),
        TokenKind::Name(word) => with_name(reading, word),
        _ => None,
    }
}

/// A row with a number, if it has 32 bits.
fn with_small(reading: LocReading, number: Option<u64>) -> Option<LocReading>
    ensures { result ≡ option_and_then (laws.loc_with_number reading.row reading.awaits) number }
{
    match number {
        Some(number) => with_number(reading.row, reading.awaits, number),
        None => None,
    }
}

/// A row with a number.
fn with_number(row: LineRow, awaits: Awaited, number: u64) -> Option<LocReading>
    ensures { result ≡ laws.loc_with_number row awaits number }
{
    match awaits {
        Awaited::File => then(
            LineRow {
                file: number,
                ..row
            },
            Awaited::Line,
        ),
        Awaited::Line => then(
            LineRow {
                line: number,
                ..row
            },
            Awaited::Column,
        ),
        Awaited::Column => then(
            LineRow {
                column: number,
                ..row
            },
            Awaited::Word,
        ),
        Awaited::Truth => with_truth(row, number),
        Awaited::Discriminator => then(
            LineRow {
                discriminator: number,
                ..row
            },
            Awaited::Word,
        ),
        Awaited::Word => None,
    }
}

/// A row whose is_stmt is a number, if that is 0 or 1.
fn with_truth(row: LineRow, number: u64) -> Option<LocReading>
    ensures { result ≡ laws.with_truth row number }
{
    if number > 1 {
        return None;
    }
    then(
        LineRow {
            is_stmt: number == 1,
            ..row
        },
        Awaited::Word,
    )
}

/// A row, and what may come behind it.
fn then(row: LineRow, awaits: Awaited) -> Option<LocReading>
    ensures { result ≡ laws.reading row awaits }
{
    Some(LocReading { row, awaits })
}

/// Whether an option's word may come, so that the row may end too.
fn awaits_word(awaits: Awaited) -> bool
    ensures { result ≡ laws.awaits_word awaits }
{
    matches!(awaits, Awaited::Column | Awaited::Word)
}

/// A row with an option's word, where one may come.
fn with_name(reading: LocReading, word: &[u8]) -> Option<LocReading>
    ensures { result ≡ laws.with_name reading word.now }
{
    if awaits_word(reading.awaits) {
        return with_word(reading.row, word);
    }
    None
}

/// A row with an option's word.
fn with_word(row: LineRow, word: &[u8]) -> Option<LocReading>
    ensures { result ≡ laws.with_word row word.now }
{
    if word == b"is_stmt".as_slice() {
        return then(row, Awaited::Truth);
    }
    if word == b"discriminator".as_slice() {
        return then(row, Awaited::Discriminator);
    }
    if word == b"basic_block".as_slice() {
        return then(
            LineRow {
                basic_block: true,
                ..row
            },
            Awaited::Word,
        );
    }
    if word == b"prologue_end".as_slice() {
        return then(
            LineRow {
                prologue_end: true,
                ..row
            },
            Awaited::Word,
        );
    }
    if word == b"epilogue_begin".as_slice() {
        return then(
            LineRow {
                epilogue_begin: true,
                ..row
            },
            Awaited::Word,
        );
    }
    None
}
