//! Lexemes: blanks, comments and tokens.
//!
//! The class of the first byte decides which lexeme can begin there, and a lexeme is as long as it can be: at each
//! place at most one stands, and nothing is tried twice. Names, numbers, punctuation of one byte and line feeds are most
//! of a source, so they are found first, without the way through all others.

ghost use Rattle.std.specs.Prelude.{◌≡◌, ◌+◌, ◌≤◌, ◌<◌, ◌^◌, ◌∷◌, slice_index, true, false, MatchOption, IfSome, length, option_map, if◌then◌else◌};
ghost use Rattle.std.specs.List.{prefix_len};
ghost use Rattle.rv_expression_laws.specs.Bytes.{in_line, class as class_of};
ghost use Rattle.rv_expression_laws.specs.Grammar.{Spells};
ghost use Rattle.rv_expression_laws.specs.Lexing.{newlines, is_gap};
ghost use Rattle.rv_expression_laws.specs.Front.{close_at, lexeme_at, lexeme_by, after_slash, after_less, after_greater, with_equal};
ghost use Rattle.rv_lexer.specs.Token.{kind_of};
ghost use Rattle.rv_lexer.specs.Lexeme.{front_of, lexeme_kind_of, has_feeds, is_blank};

use crate::class::{class, is_blank};
use crate::strings::{character_at, string_length};
use crate::token::TokenKind;
use crate::word::{digits_kind, word_length};
use memchr::{memchr, memmem};
use rv_expression_laws::{Class, Punct};

/// What a lexeme is.
#[derive(Clone, Copy, Drop)]
pub(crate) enum LexemeKind<'a> {
    /// A blank.
    Space,
    /// `#` and the rest of its line.
    LineComment,
    /// `/*` to the next `*/`.
    BlockComment,
    Token(TokenKind<'a>),
}

impl<'a> LexemeKind<'a> {
    /// The token that the lexeme is; `None` for blanks and comments.
    #[tactic(auto, using(crate::proofs::StepsLemmas::no_gap))]
    pub(crate) fn token(self) -> Option<TokenKind<'a>>
        ensures { MatchOption result (is_gap (lexeme_kind_of self.entry) ≡ true)
            (λ kind. (lexeme_kind_of self.entry ≡ kind_of kind)
            × (is_gap (lexeme_kind_of self.entry) ≡ false)) }
    {
        match self {
            LexemeKind::Token(kind) => Some(kind),
            _ => None,
        }
    }
}

impl LexemeKind<'_> {
    /// Whether such lexemes have line feeds.
    fn has_feeds(self) -> bool
        ensures { result ≡ has_feeds (lexeme_kind_of self.entry) }
    {
        matches!(
            self,
            LexemeKind::BlockComment | LexemeKind::Token(TokenKind::Newline)
        )
    }
}

/// The lexeme at the front of bytes.
#[derive(Clone, Copy, Drop)]
pub(crate) struct Lexeme<'a> {
    pub(crate) kind: LexemeKind<'a>,
    /// Its bytes.
    pub(crate) length: usize,
}

/// The line feeds of a lexeme that has this text.
#[tactic(auto, using(crate::proofs::FeedsLemmas::no_feeds))]
pub(crate) fn line_feeds_of(kind: LexemeKind<'_>, text: &[u8]) -> usize
    requires { Spells (lexeme_kind_of kind) text.now }
    ensures count { result ≡ newlines text.now }
    ensures within { result ≤ length text.now }
{
    if kind.has_feeds() {
        line_feeds(text)
    } else {
        0
    }
}

/// The line feeds in bytes.
fn line_feeds(bytes: &[u8]) -> usize
    ensures count { result ≡ newlines bytes.now }
    ensures within { result ≤ length bytes.now }
{
    let mut count = 0;
    for byte in bytes {
        if *byte == b'\n' {
            count += 1;
        }
    }
    count
}

/// How many blanks are at the front.
#[inline(always)]
pub(crate) fn blanks(bytes: &[u8]) -> usize
    ensures count { result ≡ prefix_len is_blank bytes.now }
    ensures within { result ≤ length bytes.now }
{
    bytes.iter().take_while(|byte| is_blank(**byte)).count()
}

/// How many bytes are left of the line.
fn line_length(bytes: &[u8]) -> usize
    ensures { result ≡ prefix_len in_line bytes.now }
{
    match memchr(b'\n', bytes) {
        Some(length) => length,
        None => bytes.len(),
    }
}

/// Where the first `*/` begins.
fn close_at(bytes: &[u8]) -> Option<usize>
    ensures { result ≡ close_at bytes.now }
{
    memmem::find(bytes, b"*/")
}

/// A token of this length.
fn token(kind: TokenKind<'_>, length: usize) -> Option<Lexeme<'_>>
    ensures { option_map front_of result ≡ Some (kind_of kind.entry, length) }
{
    Some(Lexeme {
        kind: LexemeKind::Token(kind),
        length,
    })
}

/// The lexeme that begins with a `/`, by what follows.
fn after_slash(rest: &[u8]) -> Option<Lexeme<'_>>
    requires { length rest.now + 1 < 2 ^ 64 }
    ensures { option_map front_of result ≡ after_slash rest.now }
{
    match rest {
        [b'/', ..] => token(TokenKind::Punct(Punct::DoubleSlash), 2),
        [b'*', inside @ ..] => match close_at(inside) {
            Some(length) => Some(Lexeme {
                kind: LexemeKind::BlockComment,
                length: length + 4,
            }),
            None => None,
        },
        _ => token(TokenKind::Punct(Punct::Slash), 1),
    }
}

/// The lexeme that begins with a `<`, by what follows.
fn after_less(rest: &[u8]) -> Option<Lexeme<'_>>
    ensures { option_map front_of result ≡ after_less rest.now }
{
    match rest {
        [b'<', ..] => token(TokenKind::Punct(Punct::ShiftLeft), 2),
        [b'=', ..] => token(TokenKind::Punct(Punct::LessEqual), 2),
        [b'>', ..] => token(TokenKind::Punct(Punct::LessGreater), 2),
        _ => token(TokenKind::Punct(Punct::Less), 1),
    }
}

/// The lexeme that begins with a `>`, by what follows.
fn after_greater(rest: &[u8]) -> Option<Lexeme<'_>>
    ensures { option_map front_of result ≡ after_greater rest.now }
{
    match rest {
        [b'>', ..] => token(TokenKind::Punct(Punct::ShiftRight), 2),
        [b'=', ..] => token(TokenKind::Punct(Punct::GreaterEqual), 2),
        _ => token(TokenKind::Punct(Punct::Greater), 1),
    }
}

/// Punctuation of two bytes, where a `=` follows.
fn with_equal(punct: Punct, rest: &[u8]) -> Option<Lexeme<'_>>
    ensures { option_map front_of result ≡ with_equal punct rest.now }
{
    match rest {
        [b'=', ..] => token(TokenKind::Punct(punct), 2),
        _ => None,
    }
}

/// The lexeme at the front of bytes, by the class of the first of them.
fn lexeme_by<'a>(class: Class, bytes: &'a [u8], rest: &'a [u8]) -> Option<Lexeme<'a>>
    requires whole { bytes.now ≡ slice_index bytes.now 0 ∷ rest.now }
    ensures { option_map front_of result ≡ lexeme_by class (slice_index bytes.now 0) rest.now }
{
    match class {
        Class::Letter => {
            let length = word_length(rest) + 1;
            token(TokenKind::Name(bytes.split_at(length).0), length)
        }
        Class::Digit => {
            let length = word_length(rest) + 1;
            token(digits_kind(bytes.split_at(length).0), length)
        }
        Class::Blank => Some(Lexeme {
            kind: LexemeKind::Space,
            length: 1,
        }),
        Class::LineEnd => token(TokenKind::Newline, 1),
        Class::Single(punct) => token(TokenKind::Punct(punct), 1),
        Class::HashByte => Some(Lexeme {
            kind: LexemeKind::LineComment,
            length: line_length(rest) + 1,
        }),
        Class::SlashByte => after_slash(rest),
        Class::QuoteByte => match string_length(rest) {
            Some(length) => token(TokenKind::Text(rest.split_at(length).0), length + 2),
            None => None,
        },
        Class::ApostropheByte => match character_at(rest) {
            Some((byte, length)) => token(TokenKind::Character(byte), length),
            None => None,
        },
        Class::LessByte => after_less(rest),
        Class::GreaterByte => after_greater(rest),
        Class::EqualByte => with_equal(Punct::Equal, rest),
        Class::BangByte => with_equal(Punct::NotEqual, rest),
        Class::Odd | Class::Foreign => None,
    }
}

/// The lexeme at the front of bytes; `None` where none can stand.
#[tactic(auto, unfolding(rv_expression_laws::specs::Front::lexeme_at))]
pub(crate) fn lexeme_at(bytes: &[u8]) -> Option<Lexeme<'_>>
    ensures { option_map front_of result ≡ lexeme_at bytes.now }
{
    if bytes.is_empty() {
        return None;
    }
    let (_, rest) = bytes.split_at(1);
    lexeme_by(class(bytes[0]), bytes, rest)
}

/// A name, a number, punctuation of one byte or a line feed: the most frequent tokens, found without a way through all
/// others.
#[derive(Clone, Copy, Drop)]
pub(crate) struct Frequent<'a> {
    pub(crate) kind: TokenKind<'a>,
    /// Its bytes.
    pub(crate) length: usize,
    /// Its line feeds.
    pub(crate) feeds: u32,
}

/// The frequent token at the front of bytes, by the class of the first of them.
#[inline(always)]
fn frequent_by<'a>(class: Class, bytes: &'a [u8], rest: &'a [u8]) -> Option<Frequent<'a>>
    requires whole { bytes.now ≡ slice_index bytes.now 0 ∷ rest.now }
    ensures is { IfSome result
        (λ f. Some (kind_of f.kind, f.length)
        ≡ lexeme_by class (slice_index bytes.now 0) rest.now) }
    ensures feeds { IfSome result
        (λ f. f.feeds ≡ (if has_feeds (kind_of f.kind) then 1 else 0)) }
{
    match class {
        Class::Letter => {
            let length = word_length(rest) + 1;
            Some(Frequent {
                kind: TokenKind::Name(bytes.split_at(length).0),
                length,
                feeds: 0,
            })
        }
        Class::Digit => {
            let length = word_length(rest) + 1;
            Some(Frequent {
                kind: digits_kind(bytes.split_at(length).0),
                length,
                feeds: 0,
            })
        }
        Class::LineEnd => Some(Frequent {
            kind: TokenKind::Newline,
            length: 1,
            feeds: 1,
        }),
        Class::Single(punct) => Some(Frequent {
            kind: TokenKind::Punct(punct),
            length: 1,
            feeds: 0,
        }),
        _ => None,
    }
}

/// The frequent token at the front of bytes, of which the first has this class, where one stands there.
#[inline(always)]
#[tactic(auto, unfolding(rv_expression_laws::specs::Front::lexeme_at))]
pub(crate) fn frequent_at(class: Class, bytes: &[u8]) -> Option<Frequent<'_>>
    requires some { 0 < length bytes.now }
    requires class { class ≡ class_of (slice_index bytes.now 0) }
    ensures is { IfSome result (λ f. Some (kind_of f.kind, f.length) ≡ lexeme_at bytes.now) }
    ensures feeds { IfSome result
        (λ f. f.feeds ≡ (if has_feeds (kind_of f.kind) then 1 else 0)) }
{
    let (_, rest) = bytes.split_at(1);
    frequent_by(class, bytes, rest)
}
