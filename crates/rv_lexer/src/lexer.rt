//! The lexer: the tokens of a source, one after the other.
//!
//! Places and lines fit 32 bits; a source for which they might not is a bad token, and the parser's limit is lower. No
//! function here is `inline(always)`: a token's parts are then built apart and put together again, which cost half as
//! many instructions again.

ghost use Rattle.std.specs.Prelude.{◌≡◌, slice_index, ◌+◌, ◌-◌, ◌<◌, ◌≤◌, ◌^◌, ◌∷◌, [], true, length, take, drop, if◌then◌else◌};
ghost use Rattle.rv_expression_laws.specs.Bytes.{class as class_of};
ghost use Rattle.rv_expression_laws.specs.declared.class.Class.TheVariants.{Letter, Digit};
ghost use Rattle.rv_expression_laws.specs.Grammar.{Spells};
ghost use Rattle.rv_expression_laws.specs.Lexing.{newlines, is_last, last_kind};
ghost use Rattle.std.specs.Iterator.{YieldsFirstBy, item_count};
ghost use Rattle.rv_lexer.specs.Lexeme.{lexeme_kind_of};
ghost use Rattle.rv_lexer.specs.Token.{kind_of, token_of};

use crate::class::class;
use crate::lexeme::{Lexeme, blanks, frequent_at, lexeme_at, line_feeds_of};
use crate::token::{Token, TokenKind};
use rv_expression_laws::Class;

/// The tokens that a source has left. It is copied to look ahead.
#[derive(Clone, Copy, Drop)]
pub struct Lexer<'a> {
    /// The bytes that are left.
    rest: &'a [u8],
    /// The offset of the first of them in the source.
    at: u32,
    /// Its line, from 1.
    line: u32,
    ghost offset_fits: { at + length rest.now < 2 ^ 32 },
    ghost line_fits: { line + length rest.now < 2 ^ 32 },
}

impl<'a> Lexer<'a> {
    ghost use Rattle.rv_lexer.specs.Left.{tokens_left, items_left, oversized};
    ghost use Rattle.rv_expression_laws.specs.Front.{tokens_from};

    /// The lexer of a source. Where its places do not fit 32 bits, the source is one bad token.
    pub fn new(source: &'a [u8]) -> Self
        ensures whole { length source.now + 1 < 2 ^ 32 →
            tokens_left result ≡ tokens_from 0 1 source.now }
        ensures long { 2 ^ 32 ≤ length source.now + 1 → tokens_left result ≡ oversized ∷ [] }
    {
        if source.len() < u32::MAX as usize {
            Lexer::at_start(source)
        } else {
            Lexer::at_start(b"?")
        }
    }

    /// The lexer of bytes whose places fit.
    #[inline(always)]
    #[tactic(auto, unfolding(crate::specs::Left::tokens_left))]
    fn at_start(source: &'a [u8]) -> Self
        requires { length source.now + 1 < 2 ^ 32 }
        ensures { tokens_left result ≡ tokens_from 0 1 source.now }
    {
        Lexer {
            rest: source,
            at: 0,
            line: 1,
        }
    }

    /// Passes over all that is left.
    fn finish(&mut self)
        ensures { items_left self.new ≡ [] }
    {
        let (_, rest) = self.rest.split_at(self.rest.len());
        *self = Lexer {
            rest,
            at: self.at + self.rest.len() as u32,
            line: self.line,
        };
    }

    /// The next token. After the last one (the end, a bad byte or a bad token) it comes again.
    pub fn token(&mut self) -> Token<'a>
        ensures first { tokens_left self.old
            ≡ token_of result ∷
            (if is_last (token_of result).kind then [] else tokens_left self.new) }
        ensures stays { is_last (token_of result).kind ≡ true →
            tokens_left self.new ≡ tokens_left self.old }
    {
        let mut token = Token {
            kind: TokenKind::End,
            start: 0,
            stop: 0,
            line: 0,
        };
        self.put_next(&mut token);
        token
    }

    /// Puts the next token in place of another: it is written once, where it stays.
    pub(crate) fn put_next(&mut self, token: &mut Token<'a>)
        ensures first { tokens_left self.old
            ≡ token_of token.new ∷
            (if is_last (token_of token.new).kind then [] else tokens_left self.new) }
        ensures stays { is_last (token_of token.new).kind ≡ true →
            tokens_left self.new ≡ tokens_left self.old }
    {
        self.skip_blanks();
        if self.rest.is_empty() {
            self.put_of_all(token);
            return;
        }
        let first = class(self.rest[0]);
        match first {
            Class::Letter => self.put_name(token),
            Class::Digit => self.put_number(token),
            _ => self.put_by(first, token),
        }
    }

    /// Puts the token that begins with a byte of this class. Where the class is known, little is left of this: what is
    /// written then depends on few values, which fit the registers that need not be kept.
    #[inline(always)]
    fn put_by(&mut self, class: Class, token: &mut Token<'a>)
        requires some { 0 < length self.old.rest.now }
        requires class { class ≡ class_of (slice_index self.old.rest.now 0) }
        ensures first { tokens_left self.old
            ≡ token_of token.new ∷
            (if is_last (token_of token.new).kind then [] else tokens_left self.new) }
        ensures stays { is_last (token_of token.new).kind ≡ true →
            tokens_left self.new ≡ tokens_left self.old }
    {
        let Some(frequent) = frequent_at(class, self.rest) else {
            self.put_of_all(token);
            return;
        };
        let (_, rest) = self.rest.split_at(frequent.length);
        let behind = Lexer {
            rest,
            at: self.at + frequent.length as u32,
            line: self.line + frequent.feeds,
        };
        *token = Token {
            kind: frequent.kind,
            start: self.at,
            stop: behind.at,
            line: self.line,
        };
        *self = behind;
    }

    /// Puts the name at the front.
    #[inline(never)]
    fn put_name(&mut self, token: &mut Token<'a>)
        requires some { 0 < length self.old.rest.now }
        requires class { Letter ≡ class_of (slice_index self.old.rest.now 0) }
        ensures first { tokens_left self.old
            ≡ token_of token.new ∷
            (if is_last (token_of token.new).kind then [] else tokens_left self.new) }
        ensures stays { is_last (token_of token.new).kind ≡ true →
            tokens_left self.new ≡ tokens_left self.old }
    {
        self.put_by(Class::Letter, token);
    }

    /// Puts the number at the front, or the word that begins with a digit.
    #[inline(never)]
    fn put_number(&mut self, token: &mut Token<'a>)
        requires some { 0 < length self.old.rest.now }
        requires class { Digit ≡ class_of (slice_index self.old.rest.now 0) }
        ensures first { tokens_left self.old
            ≡ token_of token.new ∷
            (if is_last (token_of token.new).kind then [] else tokens_left self.new) }
        ensures stays { is_last (token_of token.new).kind ≡ true →
            tokens_left self.new ≡ tokens_left self.old }
    {
        self.put_by(Class::Digit, token);
    }

    /// Puts the next token, whichever it is.
    #[inline(never)]
    fn put_of_all(&mut self, token: &mut Token<'a>)
        ensures first { tokens_left self.old
            ≡ token_of token.new ∷
            (if is_last (token_of token.new).kind then [] else tokens_left self.new) }
        ensures stays { is_last (token_of token.new).kind ≡ true →
            tokens_left self.new ≡ tokens_left self.old }
    {
        *token = self.next_of_all();
    }

    /// The next token, whichever it is, after any blanks and comments.
    fn next_of_all(&mut self) -> Token<'a>
        ensures first { tokens_left self.old
            ≡ token_of result ∷
            (if is_last (token_of result).kind then [] else tokens_left self.new) }
        ensures stays { is_last (token_of result).kind ≡ true →
            tokens_left self.new ≡ tokens_left self.old }
    {
        while let Some(lexeme) = lexeme_at(self.rest) {
            let start = self.at;
            let line = self.line;
            self.skip(lexeme);
            if let Some(kind) = lexeme.kind.token() {
                return Token {
                    kind,
                    start,
                    stop: self.at,
                    line,
                };
            }
        }
        Token {
            kind: last_kind(self.rest),
            start: self.at,
            stop: self.at + self.rest.len() as u32,
            line: self.line,
        }
    }

    /// The bytes between two offsets in the source.
    pub(crate) fn between(&self, start: u32, stop: u32) -> &'a [u8]
        requires within { (self.now.at ≤ start) × (start ≤ stop)
            × (stop ≤ self.now.at + length self.now.rest.now) }
        ensures { result.now ≡ take (stop - start) (drop (start - self.now.at) self.now.rest.now) }
    {
        let from = (start - self.at) as usize;
        let to = (stop - self.at) as usize;
        &self.rest[from..to]
    }

    /// Passes over the blanks at the front.
    #[inline(always)]
    fn skip_blanks(&mut self)
        ensures { tokens_left self.new ≡ tokens_left self.old }
    {
        let count = blanks(self.rest);
        let (_, rest) = self.rest.split_at(count);
        *self = Lexer {
            rest,
            at: self.at + count as u32,
            line: self.line,
        };
    }

    /// Passes over the lexeme at the front.
    #[inline(always)]
    fn skip(&mut self, lexeme: Lexeme<'a>)
        requires within { lexeme.length ≤ length self.old.rest.now }
        requires spelled { Spells (lexeme_kind_of lexeme.kind)
            (take lexeme.length self.old.rest.now) }
        ensures rest { self.new.rest.now ≡ drop lexeme.entry.length self.old.rest.now }
        ensures at { self.new.at ≡ self.old.at + lexeme.entry.length }
        ensures line { self.new.line
            ≡ self.old.line + newlines (take lexeme.entry.length self.old.rest.now) }
    {
        let (text, rest) = self.rest.split_at(lexeme.length);
        let feeds = line_feeds_of(lexeme.kind, text);
        *self = Lexer {
            rest,
            at: self.at + lexeme.length as u32,
            line: self.line + feeds as u32,
        };
    }
}

/// The tokens, each once: a bad byte or a bad token is the last of them, and after the source's end nothing comes.
impl<'a> Iterator for Lexer<'a> {
    type Item = Token<'a>;

    ghost use Rattle.rv_lexer.specs.Left.{items_left};

    ghost next_gives = { YieldsFirstBy token_of items_left };

    ghost remaining = { item_count items_left };

    fn next(&mut self) -> Option<Token<'a>> {
        let token = self.token();
        match token.kind {
            TokenKind::End => return None,
            TokenKind::BadByte | TokenKind::BadToken => self.finish(),
            _ => (),
        }
        Some(token)
    }
}

/// The kind of the last token, by what stands where no lexeme can.
fn last_kind(rest: &[u8]) -> TokenKind<'_>
    ensures { kind_of result ≡ last_kind rest.now }
{
    if rest.is_empty() {
        return TokenKind::End;
    }
    match class(rest[0]) {
        Class::Foreign => TokenKind::BadByte,
        _ => TokenKind::BadToken,
    }
}
