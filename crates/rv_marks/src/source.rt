//! The directives of a source, one statement after another.

ghost use Rattle.std.specs.Prelude.{◌≡◌, ◌+◌, ◌<◌, ◌^◌, List, [], ◌∷◌, ◌++◌, length, map, IfOk, OnOk};
ghost use Rattle.rv_expression_laws.specs.Lexing.{Token as SaidToken, is_last};
ghost use Rattle.rv_lexer.specs.Token.{kind_of, token_of};
ghost use Rattle.rv_debug_laws.specs.Labels.{one_of};
ghost use Rattle.rv_debug_laws.specs.Marks as laws;
ghost use Rattle.rv_marks.specs.Reading.{kinds_of, mark_of, read_with};

use crate::directive::mark_in;
use crate::tokens::{is_colon, is_end};
use rv_debug_laws::Mark;
use rv_lexer::{Cursor, Lexer, TokenKind};
use std::alloc::{AllocError, Global};

/// The most tokens that are kept of a statement: those of a directive, and one.
const MOST_TOKENS: usize = 7;

/// What has been read of a source.
#[derive(Drop)]
struct Reader<'a> {
    /// What its directives say.
    marks: Vec<Mark<'a>>,
    /// The ordinal of the statement that is next, or that has begun.
    ordinal: u32,
    /// The first tokens of the one that has begun.
    begun: Vec<TokenKind<'a>>,
}

/// What the directives of a source say, in their order. A source of 4 GiB is none.
pub fn marks<'a>(alloc: Global, source: &'a [u8]) -> Result<Vec<Mark<'a>>, AllocError>
    ensures { IfOk result (λ marks. length source.now + 1 < 2 ^ 32
        → map mark_of marks.items ≡ laws.marks_of source.now) }
{
    let mut cursor = Cursor::new(Lexer::new(source));
    let mut reader = Reader {
        marks: Vec::new(alloc),
        ordinal: 1,
        begun: Vec::new(alloc),
    };
    while !is_last(cursor.next.kind) {
        reader.take(cursor.next.kind)?;
        cursor.advance();
    }
    reader.take(cursor.next.kind)?;
    Ok(reader.marks)
}

/// Whether a token is the last.
fn is_last(kind: TokenKind<'_>) -> bool
    ensures { result ≡ is_last (kind_of kind.entry) }
{
    matches!(
        kind,
        TokenKind::BadByte | TokenKind::BadToken | TokenKind::End
    )
}

impl<'a> Reader<'a> {
    /// Takes the next token.
    fn take(&mut self, kind: TokenKind<'a>) -> Result<(), AllocError>
        ensures { OnOk result ((t : SaidToken) (ts : List SaidToken) → t.kind ≡ kind_of kind.entry
            → read_with self.new ts ≡ read_with self.old (t ∷ ts)) }
    {
        if is_end(kind) {
            return self.end();
        }
        if self.begun.len() == 1 && is_colon(kind) {
            self.pass();
            return Ok(());
        }
        if self.begun.len() < MOST_TOKENS {
            self.begun.push(kind)?;
        }
        Ok(())
    }

    /// Ends the statement that has begun, if one has.
    fn end(&mut self) -> Result<(), AllocError>
        ensures { OnOk result ((ts : List SaidToken) → read_with self.new ts
            ≡ map mark_of self.old.marks.items
            ++ (one_of (laws.mark_in self.old.ordinal (kinds_of self.old.begun.items))
            ++ laws.marks_from (laws.ordinal_behind self.old.ordinal
            (kinds_of self.old.begun.items)) [] ts)) }
    {
        if let Some(mark) = mark_in(self.ordinal, self.begun.as_slice()) {
            self.marks.push(mark)?;
        }
        if !self.begun.is_empty() {
            self.pass();
        }
        Ok(())
    }

    /// Goes on to the next statement.
    fn pass(&mut self)
        ensures marks { self.new.marks ≡ self.old.marks }
        ensures ordinal { self.new.ordinal ≡ laws.next_ordinal self.old.ordinal }
        ensures begun { self.new.begun.items ≡ [] }
    {
        self.ordinal = self.ordinal.saturating_add(1);
        self.begun.clear();
    }
}
