//! What is wrong where: the codes of the faults of phase one.

ghost use Rattle.std.specs.Prelude.{◌≡◌};
ghost use Rattle.rv_fault.specs.SourceFault.{source_fault_number};
ghost use Rattle.rv_lexer.specs.Token.{kind_of};
ghost use Rattle.rv_expression_laws.specs.Codes.{bad_operands};
ghost use Rattle.rv_parse_laws.specs.Faults.{may_call, wrong_or, wrong_name, wrong_section_name, wrong_after_value, wrong_after, wrong_symbol, wrong_letters, wrong_option, wrong_any, wrong_word, wrong_start, wrong_label};
ghost use Rattle.rv_parse_words.specs.View.{slot_of};
ghost use Rattle.rv_parse_laws.specs.Syntax.{targets};

use crate::kinds::is_comma;
use crate::words::{are_known_flags, is_frame, is_left_out, is_left_out_option};
use rv_expression::{LONGEST_NAME, Punct, SourceCode, TokenKind};
use rv_parcel::RegisterSet;
use rv_parse_laws::Role;

/// What stands in one slot of a statement.
#[derive(Clone, Copy, Drop)]
pub enum Slot {
    /// A register of a set.
    Register(RegisterSet),
    /// An expression.
    Value(Role),
    /// A register of a set in parentheses, with or without an expression before it.
    Address(RegisterSet),
    /// What a call calls.
    Callee,
    /// The 0 before an atomic's address.
    Zero,
    /// The accesses that a fence orders.
    Accesses,
    Symbol,
    /// A string.
    Text,
    /// A section's name.
    Section,
    /// A section's flags.
    Flags,
    /// A section's type.
    Type,
    /// What `.option` takes.
    Choice,
}

impl Slot {
    /// A register, whichever.
    pub const ANY_REGISTER: Self = Slot::Register(RegisterSet::Any);
    /// An address by a register, whichever.
    pub const ANY_ADDRESS: Self = Slot::Address(RegisterSet::Any);
}

/// The code of a token that is wrong wherever it stands; for every other the code of its slot.
fn or_slot(kind: TokenKind<'_>, code: SourceCode) -> SourceCode
    ensures { source_fault_number result
        ≡ wrong_or (kind_of kind.entry) (source_fault_number code) }
{
    match kind {
        TokenKind::BadByte => SourceCode::BadByte,
        TokenKind::BadToken | TokenKind::BadWord(_) => SourceCode::BadToken,
        TokenKind::Punct(Punct::DoubleSlash) => SourceCode::UnsupportedHere,
        _ => code,
    }
}

/// A name that is no symbol's, where a symbol may stand.
fn at_name(name: &[u8]) -> SourceCode
    ensures { source_fault_number result ≡ wrong_name name.now }
{
    if LONGEST_NAME < name.len() {
        SourceCode::Limit
    } else {
        SourceCode::BadOperands
    }
}

/// Where the name of a section begins; a string would be a quoted name.
pub fn at_section_name(kind: TokenKind<'_>) -> SourceCode
    ensures { source_fault_number result ≡ wrong_section_name (kind_of kind.entry) }
{
    match kind {
        TokenKind::Text(_) => SourceCode::UnsupportedHere,
        _ => or_slot(kind, SourceCode::BadOperands),
    }
}

/// Where an expression may stand, a function of one may too.
pub fn may_call(role: Role) -> bool
    ensures { result ≡ may_call role }
{
    match role {
        Role::Operand | Role::Source | Role::Upper | Role::PcrelUpper => true,
        Role::Directive | Role::Alignment | Role::Target => false,
    }
}

/// An expression that says where something goes.
pub fn targets(role: Role) -> bool
    ensures { result ≡ targets role }
{
    role == Role::Target
}

/// After a whole expression: an alignment has one operand alone.
fn after_value(role: Role, kind: TokenKind<'_>) -> SourceCode
    ensures { source_fault_number result ≡ wrong_after_value role (kind_of kind.entry) }
{
    match role {
        Role::Alignment if is_comma(kind) => SourceCode::UnsupportedHere,
        _ => or_slot(kind, SourceCode::BadOperands),
    }
}

/// After what stands in a slot.
pub fn after(slot: Slot, kind: TokenKind<'_>) -> SourceCode
    ensures { source_fault_number result ≡ wrong_after (slot_of slot) (kind_of kind.entry) }
{
    match slot {
        Slot::Value(role) => after_value(role, kind),
        _ => or_slot(kind, SourceCode::BadOperands),
    }
}

/// Where one token alone is good: a register, a string, or a sign.
pub fn at_other(kind: TokenKind<'_>) -> SourceCode
    ensures { source_fault_number result ≡ wrong_or (kind_of kind.entry) bad_operands }
{
    or_slot(kind, SourceCode::BadOperands)
}

/// Where a directive wants a symbol.
pub fn at_symbol(kind: TokenKind<'_>) -> SourceCode
    ensures { source_fault_number result ≡ wrong_symbol (kind_of kind.entry) }
{
    match kind {
        TokenKind::Name(name) => at_name(name),
        TokenKind::Text(_) => SourceCode::UnsupportedHere,
        _ => or_slot(kind, SourceCode::BadOperands),
    }
}

/// Letters that are no flags of a section; an unknown one counts before those that are left out.
pub fn at_flags(letters: &[u8]) -> SourceCode
    ensures { source_fault_number result ≡ wrong_letters letters.now }
{
    if are_known_flags(letters) {
        SourceCode::UnsupportedHere
    } else {
        SourceCode::BadOperands
    }
}

/// The word after `.option`.
pub fn at_option(kind: TokenKind<'_>) -> SourceCode
    ensures { source_fault_number result ≡ wrong_option (kind_of kind.entry) }
{
    match kind {
        TokenKind::Name(name) if is_left_out_option(name) => SourceCode::UnsupportedHere,
        _ => or_slot(kind, SourceCode::BadOperands),
    }
}

/// Where operands are not looked at.
pub fn at_any(kind: TokenKind<'_>) -> SourceCode
    ensures { source_fault_number result ≡ wrong_any (kind_of kind.entry) }
{
    match kind {
        TokenKind::Name(name) => at_name(name),
        _ => or_slot(kind, SourceCode::BadOperands),
    }
}

/// A word that begins a statement, and is neither a mnemonic nor a directive: call frame information where it is too long.
fn at_word(word: &[u8]) -> SourceCode
    ensures { source_fault_number result ≡ wrong_word word.now }
{
    if is_left_out(word) {
        SourceCode::UnsupportedHere
    } else if is_frame(word) {
        SourceCode::Limit
    } else if word.starts_with(b".") {
        SourceCode::UnknownDirective
    } else {
        SourceCode::UnknownMnemonic
    }
}

/// A token that begins a statement, and no label.
pub fn at_start(kind: TokenKind<'_>) -> SourceCode
    ensures { source_fault_number result ≡ wrong_start (kind_of kind.entry) }
{
    match kind {
        TokenKind::Name(name) => at_word(name),
        TokenKind::Text(_) => SourceCode::UnsupportedHere,
        _ => or_slot(kind, SourceCode::UnknownMnemonic),
    }
}

/// A token before a colon, at a statement's start.
pub fn at_label(kind: TokenKind<'_>) -> SourceCode
    ensures { source_fault_number result ≡ wrong_label (kind_of kind.entry) }
{
    match kind {
        TokenKind::Name(name) => at_name(name),
        _ => at_start(kind),
    }
}
