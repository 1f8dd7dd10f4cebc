//! The openings of sections: the names that a source has had, and what is wrong with the flags or the type of a name.
//!
//! Names of opened sections are in std's hash set with its fixed seed. A hostile source can choose names that collide;
//! the bound is the source's 16 MiB.

ghost use Rattle.std.specs.Str.{bytes_eq};
ghost use Rattle.std.specs.Prelude.{◌≡◌, ℕ, List, [], Bool, ◌||◌, option_map, IfOk, OnOk};
ghost use Rattle.rv_lexer.specs.Cursor.{remaining, syntax_error_of};
ghost use Rattle.rv_statement_laws.specs.Statement.{Statement};
ghost use Rattle.rv_statement.specs.View.{statement_kind};
ghost use Rattle.rv_parse_laws.specs.Opening.{opens, is_opened};
ghost use Rattle.rv_parse_laws.specs.WrongOpening.{flags_fault, type_fault};
ghost use Rattle.rv_parse_laws.specs.Parsing.{front_fault, type_wrong, flags_wrong, opening_at};
ghost use Rattle.rv_parse.specs.Opened.{Has, Knows};

use crate::slot;
use rv_expression::{Cursor, LONGEST_NAME, SourceCode, SyntaxError, TokenKind, append_string};
use rv_parse_words::fault::{self, Slot};
use rv_parse_words::{kinds, words};
use rv_statement::{StatementKind, section_name};
use std::alloc::{AllocError, Global};
use std::collections::HashSet;

/// The names of the sections that statements opened or entered so far.
#[derive(Drop)]
pub struct Opened<'a> {
    pub set: HashSet<&'a [u8]>,
}

impl<'a> Opened<'a> {
    /// None yet.
    pub fn new(alloc: Global) -> Self
        ensures { Knows result.set [] }
    {
        Opened {
            set: HashSet::new(alloc),
        }
    }

    /// Whether a statement had this name; a source begins in `.text`.
    pub fn has(&self, name: &[u8]) -> bool
        ensures { (ss : List Statement) → Knows (self.now).set ss → result ≡ is_opened ss name.now }
    {
        name == b".text".as_slice() || self.set.contains(&name)
    }

    /// Adds a name.
    fn insert(&mut self, name: &'a [u8]) -> Result<(), AllocError>
        ensures { OnOk result
            ((test : List ℕ → Bool) → Has (self.old).set test →
            Has (self.new).set (λ n. bytes_eq name.now n || test n)) }
    {
        self.set.insert(name)?;
        Ok(())
    }

    /// Adds what a statement opens or enters.
    pub fn add(&mut self, kind: &StatementKind<'a>) -> Result<(), AllocError>
        ensures { OnOk result
            ((test : List ℕ → Bool) → Has (self.old).set test →
            Has (self.new).set (λ n. opens n (statement_kind kind.now) || test n)) }
    {
        match kind {
            StatementKind::Enters(standard) => self.insert(section_name(*standard)),
            StatementKind::Opens(opening) => self.insert(opening.name),
            _ => Ok(()),
        }
    }
}

/// What is wrong with the next token as the type of a name that is known, or new.
#[tactic(auto, unfolding(rv_lexer::specs::Cursor::remaining))]
fn type_fault(cursor: &Cursor<'_>, known: bool) -> Option<SyntaxError>
    ensures { option_map syntax_error_of result ≡ front_fault (type_fault known) (remaining cursor.now) }
{
    let TokenKind::Name(word) = cursor.next.kind else {
        return None;
    };
    if known {
        if LONGEST_NAME < word.len() {
            return Some(cursor.wrong(SourceCode::Limit));
        }
        return None;
    }
    if words::is_section_type(word) {
        None
    } else {
        Some(cursor.wrong(SourceCode::UnsupportedHere))
    }
}

/// What is wrong with the next token as the flags of a name that is known, or new.
#[tactic(auto, unfolding(rv_lexer::specs::Cursor::remaining))]
fn flags_fault(
    alloc: Global,
    cursor: &Cursor<'_>,
    known: bool,
) -> Result<Option<SyntaxError>, AllocError>
    ensures { IfOk result
        (λ found. option_map syntax_error_of found
        ≡ front_fault (flags_fault known) (remaining cursor.now)) }
{
    if known {
        return Ok(None);
    }
    let TokenKind::Text(text) = cursor.next.kind else {
        return Ok(None);
    };
    let mut letters = Vec::new(alloc);
    append_string(text, &mut letters)?;
    if words::are_flags(letters.as_slice()) {
        Ok(None)
    } else {
        Ok(Some(cursor.wrong(fault::at_flags(letters.as_slice()))))
    }
}

/// What is wrong with the type after flags, a comma and `@`.
fn type_wrong(cursor: Cursor<'_>, known: bool) -> Option<SyntaxError>
    ensures { option_map syntax_error_of result ≡ type_wrong known (remaining cursor.entry) }
{
    let mut ahead = cursor;
    if slot::flags(&mut ahead).is_err() {
        return None;
    }
    if slot::comma(&mut ahead, Slot::Flags).is_err() {
        return None;
    }
    if slot::at_sign(&mut ahead).is_err() {
        return None;
    }
    type_fault(&ahead, known)
}

/// What is wrong with flags and the type after them.
fn flags_wrong(
    alloc: Global,
    cursor: Cursor<'_>,
    known: bool,
) -> Result<Option<SyntaxError>, AllocError>
    ensures { IfOk result
        (λ found. option_map syntax_error_of found ≡ flags_wrong known (remaining cursor.entry)) }
{
    match flags_fault(alloc, &cursor, known)? {
        Some(wrong) => Ok(Some(wrong)),
        None => Ok(type_wrong(cursor, known)),
    }
}

/// What is wrong with the flags or the type of an opening that begins here: they count where the name is new.
#[tactic(auto, using(crate::proofs::OpenedLemmas::section_no_last, crate::proofs::OpenedLemmas::named_left, crate::proofs::OpenedLemmas::name_wrong, crate::proofs::OpenedLemmas::comma_wrong), unfolding(rv_lexer::specs::Cursor::remaining, rv_parse_laws::specs::Parsing::opening_at))]
pub fn wrong_opening(
    alloc: Global,
    cursor: &Cursor<'_>,
    opened: &Opened<'_>,
) -> Result<Option<SyntaxError>, AllocError>
    ensures { IfOk result
        (λ found. (ss : List Statement) → Knows (opened.now).set ss →
        option_map syntax_error_of found ≡ opening_at (is_opened ss) (remaining cursor.now)) }
{
    if !kinds::is_section(cursor.next.kind) {
        return Ok(None);
    }
    let mut ahead = *cursor;
    ahead.advance();
    match slot::section_name(&mut ahead) {
        Ok(name) => {
            if slot::comma(&mut ahead, Slot::Section).is_err() {
                return Ok(None);
            }
            flags_wrong(alloc, ahead, opened.has(name))
        }
        Err(_) => Ok(None),
    }
}
