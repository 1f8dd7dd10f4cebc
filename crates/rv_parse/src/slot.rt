//! What stands in one slot of a statement, at the front of a cursor's tokens.
//!
//! One function a slot, which takes its tokens or names the first that is wrong there, with the code of that slot.
//! Statements are put together of these, so a code is chosen once for each slot and not once for each mnemonic. A
//! function that only looks (`begins_..`) leaves the cursor alone, and decides where a statement has two forms.

ghost use Rattle.std.specs.Prelude.{◌≡◌, ◌∷◌, []};
ghost use Rattle.rv_lexer.specs.Cursor.{remaining, syntax_error_of};
ghost use Rattle.rv_statement_laws.specs.Statement.{Register, Accesses};
ghost use Rattle.rv_parse_laws.specs.Syntax.{A_register_of, A_register, A_zero, Some_accesses, A_symbol, A_string, A_section, Some_flags, At_sign, A_type, A_plt, A_comma, An_opening, A_closing, Slot as AnySlot, front_begins};
ghost use Rattle.rv_parse_laws.specs.Parsing.{operand_at, end_at, base_at, base_next, plt_next, too_long};
ghost use Rattle.rv_parse_words.specs.View.{slot_of, word_of, string_of};
ghost use Rattle.rv_parse.specs.Left.{Gives};

use rv_expression::{Cursor, LONGEST_NAME, SourceCode, SyntaxError};
use rv_isa::{AccessSet, Reg};
use rv_parcel::RegisterSet;
use rv_parse_words::fault::{self, Slot};
use rv_parse_words::kinds;

/// A register of a set.
#[tactic(auto, using(crate::proofs::TokensLemmas::register_in_no_last), unfolding(rv_lexer::specs::Cursor::remaining))]
pub fn register_of(cursor: &mut Cursor<'_>, set: RegisterSet) -> Result<Reg, SyntaxError>
    ensures { Gives (λ r. (Register r ∷ [], remaining cursor.new)) result
        (operand_at (A_register_of set) (remaining cursor.old)) }
{
    match kinds::register_in(set, cursor.next.kind) {
        Some(register) => {
            cursor.advance();
            Ok(register)
        }
        None => Err(cursor.wrong(fault::at_other(cursor.next.kind))),
    }
}

/// A register.
pub fn register(cursor: &mut Cursor<'_>) -> Result<Reg, SyntaxError>
    ensures { Gives (λ r. (Register r ∷ [], remaining cursor.new)) result
        (operand_at A_register (remaining cursor.old)) }
{
    register_of(cursor, RegisterSet::Any)
}

/// A register comes next.
#[tactic(auto, unfolding(rv_lexer::specs::Cursor::remaining))]
pub fn begins_register(cursor: &Cursor<'_>) -> bool
    ensures { result ≡ front_begins A_register (remaining cursor.now) }
{
    kinds::register_of(cursor.next.kind).is_some()
}

/// A comma comes next.
#[tactic(auto, unfolding(rv_lexer::specs::Cursor::remaining))]
pub fn begins_comma(cursor: &Cursor<'_>) -> bool
    ensures { (s : AnySlot) → result ≡ front_begins (A_comma s) (remaining cursor.now) }
{
    kinds::is_comma(cursor.next.kind)
}

/// A register in parentheses comes next.
#[tactic(auto, unfolding(rv_lexer::specs::Cursor::remaining))]
pub fn begins_base(cursor: &Cursor<'_>) -> bool
    ensures { result ≡ base_next (remaining cursor.now) }
{
    if !kinds::is_opening(cursor.next.kind) {
        return false;
    }
    let mut behind = *cursor;
    behind.advance();
    kinds::register_of(behind.next.kind).is_some()
}

/// An opening parenthesis comes next.
#[tactic(auto, unfolding(rv_lexer::specs::Cursor::remaining))]
pub fn begins_opening(cursor: &Cursor<'_>) -> bool
    ensures { (s : AnySlot) → result ≡ front_begins (An_opening s) (remaining cursor.now) }
{
    kinds::is_opening(cursor.next.kind)
}

/// A symbol and `@` come next.
#[tactic(auto, unfolding(rv_lexer::specs::Cursor::remaining))]
pub fn begins_plt(cursor: &Cursor<'_>) -> bool
    ensures { result ≡ plt_next (remaining cursor.now) }
{
    if kinds::symbol_of(cursor.next.kind).is_none() {
        return false;
    }
    let mut behind = *cursor;
    behind.advance();
    kinds::is_at(behind.next.kind)
}

/// A set of accesses comes next.
#[tactic(auto, unfolding(rv_lexer::specs::Cursor::remaining))]
pub fn begins_accesses(cursor: &Cursor<'_>) -> bool
    ensures { result ≡ front_begins Some_accesses (remaining cursor.now) }
{
    kinds::accesses_of(cursor.next.kind).is_some()
}

/// A set of accesses.
#[tactic(auto, using(crate::proofs::TokensLemmas::accesses_no_last), unfolding(rv_lexer::specs::Cursor::remaining))]
pub fn accesses(cursor: &mut Cursor<'_>) -> Result<AccessSet, SyntaxError>
    ensures { Gives (λ set. (Accesses set ∷ [], remaining cursor.new)) result
        (operand_at Some_accesses (remaining cursor.old)) }
{
    match kinds::accesses_of(cursor.next.kind) {
        Some(set) => {
            cursor.advance();
            Ok(set)
        }
        None => Err(cursor.wrong(fault::at_other(cursor.next.kind))),
    }
}

/// A literal 0.
#[tactic(auto, using(crate::proofs::TokensLemmas::zero_no_last), unfolding(rv_lexer::specs::Cursor::remaining))]
pub fn zero(cursor: &mut Cursor<'_>) -> Result<(), SyntaxError>
    ensures { Gives (λ _. ([], remaining cursor.new)) result (operand_at A_zero (remaining cursor.old)) }
{
    if kinds::is_zero(cursor.next.kind) {
        cursor.advance();
        Ok(())
    } else {
        Err(cursor.wrong(fault::at_other(cursor.next.kind)))
    }
}

/// An opening parenthesis, after what stands in this slot.
#[tactic(auto, using(crate::proofs::TokensLemmas::opening_no_last), unfolding(rv_lexer::specs::Cursor::remaining))]
pub fn opening(cursor: &mut Cursor<'_>, behind: Slot) -> Result<(), SyntaxError>
    ensures { Gives (λ _. ([], remaining cursor.new)) result
        (operand_at (An_opening (slot_of behind)) (remaining cursor.old)) }
{
    if kinds::is_opening(cursor.next.kind) {
        cursor.advance();
        Ok(())
    } else {
        Err(cursor.wrong(fault::after(behind, cursor.next.kind)))
    }
}

/// A closing parenthesis.
#[tactic(auto, using(crate::proofs::TokensLemmas::closing_no_last), unfolding(rv_lexer::specs::Cursor::remaining))]
pub fn closing(cursor: &mut Cursor<'_>) -> Result<(), SyntaxError>
    ensures { Gives (λ _. ([], remaining cursor.new)) result (operand_at A_closing (remaining cursor.old)) }
{
    if kinds::is_closing(cursor.next.kind) {
        cursor.advance();
        Ok(())
    } else {
        Err(cursor.wrong(fault::at_other(cursor.next.kind)))
    }
}

/// A register of a set in parentheses.
pub fn base(cursor: &mut Cursor<'_>, set: RegisterSet) -> Result<Reg, SyntaxError>
    ensures { Gives (λ r. (Register r ∷ [], remaining cursor.new)) result
        (base_at set (remaining cursor.old)) }
{
    opening(cursor, Slot::ANY_REGISTER)?;
    let register = register_of(cursor, set)?;
    closing(cursor)?;
    Ok(register)
}

/// A symbol, in a directive.
#[tactic(auto, using(crate::proofs::TokensLemmas::symbol_no_last), unfolding(rv_lexer::specs::Cursor::remaining))]
pub fn symbol<'a>(cursor: &mut Cursor<'a>) -> Result<&'a [u8], SyntaxError>
    ensures { Gives (λ name. (word_of name ∷ [], remaining cursor.new)) result
        (operand_at A_symbol (remaining cursor.old)) }
{
    match kinds::symbol_of(cursor.next.kind) {
        Some(name) => {
            cursor.advance();
            Ok(name)
        }
        None => Err(cursor.wrong(fault::at_symbol(cursor.next.kind))),
    }
}

/// A string.
#[tactic(auto, using(crate::proofs::TokensLemmas::string_no_last), unfolding(rv_lexer::specs::Cursor::remaining))]
pub fn string<'a>(cursor: &mut Cursor<'a>) -> Result<&'a [u8], SyntaxError>
    ensures { Gives (λ text. (string_of text ∷ [], remaining cursor.new)) result
        (operand_at A_string (remaining cursor.old)) }
{
    match kinds::string_of(cursor.next.kind) {
        Some(text) => {
            cursor.advance();
            Ok(text)
        }
        None => Err(cursor.wrong(fault::at_other(cursor.next.kind))),
    }
}

/// The `@` before a section's type.
#[tactic(auto, using(crate::proofs::TokensLemmas::at_no_last), unfolding(rv_lexer::specs::Cursor::remaining))]
pub fn at_sign(cursor: &mut Cursor<'_>) -> Result<(), SyntaxError>
    ensures { Gives (λ _. ([], remaining cursor.new)) result (operand_at At_sign (remaining cursor.old)) }
{
    if kinds::is_at(cursor.next.kind) {
        cursor.advance();
        Ok(())
    } else {
        Err(cursor.wrong(fault::at_other(cursor.next.kind)))
    }
}

/// The `plt` after `@` in a call.
#[tactic(auto, using(crate::proofs::TokensLemmas::plt_no_last), unfolding(rv_lexer::specs::Cursor::remaining))]
pub fn plt(cursor: &mut Cursor<'_>) -> Result<(), SyntaxError>
    ensures { Gives (λ _. ([], remaining cursor.new)) result (operand_at A_plt (remaining cursor.old)) }
{
    if kinds::is_plt(cursor.next.kind) {
        cursor.advance();
        Ok(())
    } else {
        Err(cursor.wrong(fault::at_other(cursor.next.kind)))
    }
}

/// A section's type.
#[tactic(auto, using(crate::proofs::TokensLemmas::type_no_last), unfolding(rv_lexer::specs::Cursor::remaining))]
pub fn section_type<'a>(cursor: &mut Cursor<'a>) -> Result<&'a [u8], SyntaxError>
    ensures { Gives (λ name. (word_of name ∷ [], remaining cursor.new)) result
        (operand_at A_type (remaining cursor.old)) }
{
    match kinds::type_of(cursor.next.kind) {
        Some(name) => {
            cursor.advance();
            Ok(name)
        }
        None => Err(cursor.wrong(fault::at_other(cursor.next.kind))),
    }
}

/// A comma, after an operand in this slot.
#[tactic(auto, using(crate::proofs::TokensLemmas::comma_no_last), unfolding(rv_lexer::specs::Cursor::remaining))]
pub fn comma(cursor: &mut Cursor<'_>, behind: Slot) -> Result<(), SyntaxError>
    ensures { Gives (λ _. ([], remaining cursor.new)) result
        (operand_at (A_comma (slot_of behind)) (remaining cursor.old)) }
{
    if kinds::is_comma(cursor.next.kind) {
        cursor.advance();
        Ok(())
    } else {
        Err(cursor.wrong(fault::after(behind, cursor.next.kind)))
    }
}

/// The statement's end comes next, after an operand in this slot.
#[tactic(auto, unfolding(rv_lexer::specs::Cursor::remaining))]
pub fn end(cursor: &Cursor<'_>, behind: Slot) -> Result<(), SyntaxError>
    ensures { Gives (λ _. remaining cursor.now) result (end_at (slot_of behind) (remaining cursor.now)) }
{
    if kinds::is_end(cursor.next.kind) {
        Ok(())
    } else {
        Err(cursor.wrong(fault::after(behind, cursor.next.kind)))
    }
}

/// The first token with which a name of several tokens is too long; nowhere if there is none.
#[tactic(auto, using(crate::proofs::TokensLemmas::last_width), unfolding(rv_lexer::specs::Cursor::remaining))]
fn too_long(cursor: Cursor<'_>) -> SyntaxError
    ensures { syntax_error_of result ≡ too_long 0 (remaining cursor.entry) }
{
    let mut ahead = cursor;
    let mut bytes = 0;
    while !kinds::is_last(ahead.next.kind) {
        bytes += kinds::width(ahead.next.kind);
        if LONGEST_NAME < bytes {
            return ahead.wrong(SourceCode::Limit);
        }
        ahead.advance();
    }
    SyntaxError {
        offset: 0,
        line: 0,
        code: SourceCode::BadOperands,
    }
}

/// The name of a section.
#[tactic(auto, unfolding(rv_lexer::specs::Cursor::remaining))]
pub fn section_name<'a>(cursor: &mut Cursor<'a>) -> Result<&'a [u8], SyntaxError>
    ensures { Gives (λ name. (word_of name ∷ [], remaining cursor.new)) result
        (operand_at A_section (remaining cursor.old)) }
{
    let before = *cursor;
    match cursor.joined() {
        Some(name) => {
            if kinds::is_section_name(name) {
                Ok(name)
            } else if LONGEST_NAME < name.len() {
                Err(too_long(before))
            } else {
                Err(before.wrong(SourceCode::UnsupportedHere))
            }
        }
        None => Err(before.wrong(fault::at_section_name(before.next.kind))),
    }
}

/// The flags of a section.
#[tactic(auto, using(crate::proofs::TokensLemmas::string_no_last), unfolding(rv_lexer::specs::Cursor::remaining))]
pub fn flags<'a>(cursor: &mut Cursor<'a>) -> Result<&'a [u8], SyntaxError>
    ensures { Gives (λ text. (string_of text ∷ [], remaining cursor.new)) result
        (operand_at Some_flags (remaining cursor.old)) }
{
    match kinds::string_of(cursor.next.kind) {
        Some(text) => {
            cursor.advance();
            Ok(text)
        }
        None => Err(cursor.wrong(fault::at_other(cursor.next.kind))),
    }
}
