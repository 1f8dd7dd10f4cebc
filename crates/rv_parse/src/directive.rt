//! The operands of directives, up to the statement's end.
//!
//! The end is read with the operands, so that a token after the last of them is a fault of this directive, by the slot
//! before it. Lists take their first item before the loop: an empty list is no case, and its fault is that of a single
//! operand. The loops stand in functions of their own, so that a directive only hands on what they read.

ghost use Rattle.std.specs.Prelude.{◌∷◌, [], map, Some};
ghost use Rattle.rv_lexer.specs.Cursor.{remaining, Answers};
ghost use Rattle.rv_statement_laws.specs.declared.directive.DirectiveWord.TheVariants.{Enters, Section, Binds, Set, AlignToPower, AlignToBytes, Value, Ascii, Asciz, Zero, Option, Ignored};
ghost use Rattle.rv_statement_laws.specs.Statement.{Directs};
ghost use Rattle.rv_statement.specs.View.{statement_kind};
ghost use Rattle.rv_parse_laws.specs.Syntax.{A_symbol, A_string, A_value, directed};
ghost use Rattle.rv_parse_laws.specs.declared.role.Role.TheVariants as roles;
ghost use Rattle.rv_parse_laws.specs.Parsing.{operands_at, items_at, any_at, seen_as};
ghost use Rattle.rv_parse.specs.View.{operand_of_value};
ghost use Rattle.rv_parse_words.specs.View.{word_of, string_of};
ghost use Rattle.rv_parse.specs.Slots.{flags_slots, type_slots, further_items, prepended};
ghost use Rattle.rv_parse.specs.Left.{Gives, GivesDirective, ReadsDirective};

use crate::{slot, value};
use rv_expression::{Cursor, Expr, ReadError, SyntaxError};
use rv_parse_words::fault::{self, Slot};
use rv_parse_words::{Role, kinds};
use rv_statement::{Opening, Setting, StatementKind};
use rv_statement_laws::{Binding, DirectiveWord, Standard, Width};
use std::alloc::Global;

/// One symbol or more, with commas between.
#[tactic(auto, using(crate::proofs::ListsLemmas::names_first_wrong, crate::proofs::ListsLemmas::names_begin, crate::proofs::ListsLemmas::names_wrong, crate::proofs::ListsLemmas::names_done))]
fn names<'a>(alloc: Global, cursor: &mut Cursor<'a>) -> Result<Vec<&'a [u8]>, ReadError>
    ensures { Answers (λ names. (map word_of names.items, remaining cursor.new)) result
        (items_at A_symbol (remaining cursor.old)) }
{
    let mut names = Vec::new(alloc);
    names.push(slot::symbol(cursor)?)?;
    while kinds::is_comma(cursor.next.kind) {
        cursor.advance();
        names.push(slot::symbol(cursor)?)?;
    }
    slot::end(cursor, Slot::Symbol)?;
    Ok(names)
}

/// One string or more, with commas between.
#[tactic(auto, using(crate::proofs::ListsLemmas::strings_first_wrong, crate::proofs::ListsLemmas::strings_begin, crate::proofs::ListsLemmas::strings_wrong, crate::proofs::ListsLemmas::strings_done))]
fn strings<'a>(alloc: Global, cursor: &mut Cursor<'a>) -> Result<Vec<&'a [u8]>, ReadError>
    ensures { Answers (λ strings. (map string_of strings.items, remaining cursor.new)) result
        (items_at A_string (remaining cursor.old)) }
{
    let mut strings = Vec::with_capacity(alloc, 1)?;
    strings.push(slot::string(cursor)?)?;
    while kinds::is_comma(cursor.next.kind) {
        cursor.advance();
        strings.push(slot::string(cursor)?)?;
    }
    slot::end(cursor, Slot::Text)?;
    Ok(strings)
}

/// The first of several values, and the others after it, with a comma before each.
#[tactic(auto, using(crate::proofs::ListsLemmas::values_start, crate::proofs::ListsLemmas::value_shorter, crate::proofs::ListsLemmas::values_wrong, crate::proofs::ListsLemmas::values_done))]
fn several<'a>(
    alloc: Global,
    cursor: &mut Cursor<'a>,
    first: Expr<'a>,
) -> Result<Vec<Expr<'a>>, ReadError>
    ensures { Answers (λ values. (map operand_of_value values.items, remaining cursor.new)) result
        (prepended (operand_of_value first.entry ∷ [])
        (further_items (A_value roles.Directive) (remaining cursor.old))) }
{
    let mut values = Vec::new(alloc);
    values.push(first)?;
    while kinds::is_comma(cursor.next.kind) {
        cursor.advance();
        values.push(value::value(alloc, cursor, Role::Directive)?)?;
    }
    slot::end(cursor, Slot::Value(Role::Directive))?;
    Ok(values)
}

/// The values of `.byte` to `.quad`.
fn values<'a>(
    alloc: Global,
    cursor: &mut Cursor<'a>,
    width: Width,
) -> Result<StatementKind<'a>, ReadError>
    ensures { ReadsDirective (Value width) cursor.old cursor.new result }
{
    let first = value::value(alloc, cursor, Role::Directive)?;
    if slot::begins_comma(cursor) {
        return Ok(StatementKind::Values(width, several(alloc, cursor, first)?));
    }
    slot::end(cursor, Slot::Value(Role::Directive))?;
    Ok(StatementKind::Value(width, first))
}

/// The names of `.globl`, `.local` and `.weak`.
#[tactic(auto, using(crate::proofs::ListsLemmas::all_names), unfolding(rv_parse_laws::specs::Parsing::operands_at))]
fn binds<'a>(
    alloc: Global,
    cursor: &mut Cursor<'a>,
    binding: Binding,
) -> Result<StatementKind<'a>, ReadError>
    ensures { ReadsDirective (Binds binding) cursor.old cursor.new result }
{
    Ok(StatementKind::Binds(binding, names(alloc, cursor)?))
}

/// The strings of `.ascii`.
#[tactic(auto, using(crate::proofs::ListsLemmas::all_strings), unfolding(rv_parse_laws::specs::Parsing::operands_at))]
fn ascii<'a>(alloc: Global, cursor: &mut Cursor<'a>) -> Result<StatementKind<'a>, ReadError>
    ensures { ReadsDirective Ascii cursor.old cursor.new result }
{
    Ok(StatementKind::Ascii(strings(alloc, cursor)?))
}

/// The strings of `.asciz`.
#[tactic(auto, using(crate::proofs::ListsLemmas::all_strings), unfolding(rv_parse_laws::specs::Parsing::operands_at))]
fn asciz<'a>(alloc: Global, cursor: &mut Cursor<'a>) -> Result<StatementKind<'a>, ReadError>
    ensures { ReadsDirective Asciz cursor.old cursor.new result }
{
    Ok(StatementKind::Asciz(strings(alloc, cursor)?))
}

/// The size of `.zero`.
#[tactic(auto, unfolding(rv_parse_laws::specs::Parsing::operands_at))]
fn zero<'a>(alloc: Global, cursor: &mut Cursor<'a>) -> Result<StatementKind<'a>, ReadError>
    ensures { ReadsDirective Zero cursor.old cursor.new result }
{
    let count = value::value(alloc, cursor, Role::Directive)?;
    slot::end(cursor, Slot::Value(Role::Directive))?;
    Ok(StatementKind::Zeros(count))
}

/// The operand of `.align`.
#[tactic(auto, unfolding(rv_parse_laws::specs::Parsing::operands_at))]
fn align_to_power<'a>(
    alloc: Global,
    cursor: &mut Cursor<'a>,
) -> Result<StatementKind<'a>, ReadError>
    ensures { ReadsDirective AlignToPower cursor.old cursor.new result }
{
    let exponent = value::value(alloc, cursor, Role::Alignment)?;
    slot::end(cursor, Slot::Value(Role::Alignment))?;
    Ok(StatementKind::AlignsToPower(exponent))
}

/// The operand of `.balign`.
#[tactic(auto, unfolding(rv_parse_laws::specs::Parsing::operands_at))]
fn align_to_bytes<'a>(
    alloc: Global,
    cursor: &mut Cursor<'a>,
) -> Result<StatementKind<'a>, ReadError>
    ensures { ReadsDirective AlignToBytes cursor.old cursor.new result }
{
    let bytes = value::value(alloc, cursor, Role::Alignment)?;
    slot::end(cursor, Slot::Value(Role::Alignment))?;
    Ok(StatementKind::AlignsToBytes(bytes))
}

/// The operands of `.set`: `name, e`.
#[tactic(auto, unfolding(rv_parse_laws::specs::Parsing::operands_at))]
fn set<'a>(alloc: Global, cursor: &mut Cursor<'a>) -> Result<StatementKind<'a>, ReadError>
    ensures { ReadsDirective Set cursor.old cursor.new result }
{
    let name = slot::symbol(cursor)?;
    slot::comma(cursor, Slot::Symbol)?;
    let expression = value::value(alloc, cursor, Role::Directive)?;
    slot::end(cursor, Slot::Value(Role::Directive))?;
    let setting = Box::new(alloc, Setting { name, expression })?;
    Ok(StatementKind::Sets(setting))
}

/// The word of `.option`.
#[tactic(auto, using(crate::proofs::TokensLemmas::choice_no_last), unfolding(rv_lexer::specs::Cursor::remaining, rv_parse_laws::specs::Parsing::operands_at))]
fn option<'a>(cursor: &mut Cursor<'a>) -> Result<StatementKind<'a>, SyntaxError>
    ensures { GivesDirective Option cursor.old cursor.new result }
{
    match kinds::choice_of(cursor.next.kind) {
        Some(choice) => {
            cursor.advance();
            slot::end(cursor, Slot::Choice)?;
            Ok(StatementKind::Chooses(choice))
        }
        None => Err(cursor.wrong(fault::at_option(cursor.next.kind))),
    }
}

/// The type of a section, after its name and flags; the size of an entry after it is read and dropped.
#[tactic(auto, unfolding(rv_parse_laws::specs::Parsing::operands_at))]
fn section_type<'a>(
    alloc: Global,
    cursor: &mut Cursor<'a>,
    name: &'a [u8],
    flags: &'a [u8],
) -> Result<StatementKind<'a>, ReadError>
    ensures { Answers (λ k. (statement_kind k, remaining cursor.new)) result
        (seen_as
        (λ os. Directs (directed Section (word_of name.entry ∷ string_of flags.entry ∷ os)))
        (operands_at type_slots (remaining cursor.old))) }
{
    let kind = slot::section_type(cursor)?;
    if slot::begins_comma(cursor) {
        slot::comma(cursor, Slot::Type)?;
        let _size = value::value(alloc, cursor, Role::Directive)?;
        slot::end(cursor, Slot::Value(Role::Directive))?;
    } else {
        slot::end(cursor, Slot::Type)?;
    }
    let opening = Opening {
        name,
        flags: Some(flags),
        kind: Some(kind),
    };
    Ok(StatementKind::Opens(Box::new(alloc, opening)?))
}

/// The flags of a section, after its name, and its type.
#[tactic(auto, unfolding(rv_parse_laws::specs::Parsing::operands_at))]
fn section_flags<'a>(
    alloc: Global,
    cursor: &mut Cursor<'a>,
    name: &'a [u8],
) -> Result<StatementKind<'a>, ReadError>
    ensures { Answers (λ k. (statement_kind k, remaining cursor.new)) result
        (seen_as (λ os. Directs (directed Section (word_of name.entry ∷ os)))
        (operands_at flags_slots (remaining cursor.old))) }
{
    let flags = slot::flags(cursor)?;
    if slot::begins_comma(cursor) {
        slot::comma(cursor, Slot::Flags)?;
        slot::at_sign(cursor)?;
        return section_type(alloc, cursor, name, flags);
    }
    slot::end(cursor, Slot::Flags)?;
    let opening = Opening {
        name,
        flags: Some(flags),
        kind: None,
    };
    Ok(StatementKind::Opens(Box::new(alloc, opening)?))
}

/// The operands of `.section`.
#[tactic(auto, unfolding(rv_parse_laws::specs::Parsing::operands_at))]
fn section<'a>(alloc: Global, cursor: &mut Cursor<'a>) -> Result<StatementKind<'a>, ReadError>
    ensures { ReadsDirective Section cursor.old cursor.new result }
{
    let name = slot::section_name(cursor)?;
    if slot::begins_comma(cursor) {
        slot::comma(cursor, Slot::Section)?;
        return section_flags(alloc, cursor, name);
    }
    slot::end(cursor, Slot::Section)?;
    let opening = Opening {
        name,
        flags: None,
        kind: None,
    };
    Ok(StatementKind::Opens(Box::new(alloc, opening)?))
}

/// No operands: the statement's end.
#[tactic(auto, unfolding(rv_parse_laws::specs::Parsing::operands_at))]
fn enters<'a>(cursor: &mut Cursor<'a>, section: Standard) -> Result<StatementKind<'a>, ReadError>
    ensures { ReadsDirective (Enters section) cursor.old cursor.new result }
{
    slot::end(cursor, Slot::ANY_REGISTER)?;
    Ok(StatementKind::Enters(section))
}

/// Operands that are not looked at.
#[tactic(auto, using(crate::proofs::TokensLemmas::any_no_last), unfolding(rv_lexer::specs::Cursor::remaining))]
fn anything(cursor: &mut Cursor<'_>) -> Result<(), SyntaxError>
    ensures { Gives (λ _. ([], remaining cursor.new)) result (any_at (remaining cursor.old)) }
{
    while !kinds::is_end(cursor.next.kind) {
        if !kinds::is_any(cursor.next.kind) {
            return Err(cursor.wrong(fault::at_any(cursor.next.kind)));
        }
        cursor.advance();
    }
    Ok(())
}

/// The operands of a directive without effect.
#[tactic(auto, unfolding(rv_parse_laws::specs::Parsing::operands_at))]
fn ignored<'a>(cursor: &mut Cursor<'a>) -> Result<StatementKind<'a>, SyntaxError>
    ensures { GivesDirective Ignored cursor.old cursor.new result }
{
    anything(cursor)?;
    Ok(StatementKind::Ignored)
}

/// The operands of a directive, up to the statement's end.
pub fn directive<'a>(
    alloc: Global,
    cursor: &mut Cursor<'a>,
    word: DirectiveWord,
) -> Result<StatementKind<'a>, ReadError>
    ensures { ReadsDirective word cursor.old cursor.new result }
{
    match word {
        DirectiveWord::Enters(section) => enters(cursor, section),
        DirectiveWord::Section => section(alloc, cursor),
        DirectiveWord::Binds(binding) => binds(alloc, cursor, binding),
        DirectiveWord::Set => set(alloc, cursor),
        DirectiveWord::AlignToPower => align_to_power(alloc, cursor),
        DirectiveWord::AlignToBytes => align_to_bytes(alloc, cursor),
        DirectiveWord::Value(width) => values(alloc, cursor, width),
        DirectiveWord::Ascii => ascii(alloc, cursor),
        DirectiveWord::Asciz => asciz(alloc, cursor),
        DirectiveWord::Zero => zero(alloc, cursor),
        DirectiveWord::Option => Ok(option(cursor)?),
        DirectiveWord::Ignored => Ok(ignored(cursor)?),
    }
}
