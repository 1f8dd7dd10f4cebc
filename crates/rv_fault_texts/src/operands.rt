//! Which operand of a statement has a fault, by the code of that.

use crate::excerpt::Place;
use crate::names::{is_alignment, is_assignment, is_register, is_store};
use crate::tokens::{LineToken, Sort, is_label, part, place, span, text_of};
use rv_fault::SourceCode;

/// The operand of a statement, or the part of it, that has a fault of this code: the only one that can. `all` are the tokens
/// of the source for a fault of a reference.
pub(crate) fn operand_at_fault(
    source: &[u8],
    all: &[LineToken],
    statement: &[LineToken],
    code: SourceCode,
) -> Option<Place> {
    let (mnemonic, operands) = statement.split_first()?;
    let word = text_of(source, mnemonic);
    let values = values_of(source, word, operands);
    match code {
        SourceCode::WrongSection => Some(place(mnemonic)),
        SourceCode::DivisionByZero => behind_sign(source, values, Sort::Divide),
        SourceCode::ShiftTooLarge => behind_sign(source, values, Sort::Shift),
        SourceCode::UndefinedLocal => undefined_in(source, all, operands),
        SourceCode::ScratchRegister => scratch_of(word, operands),
        SourceCode::NotConstant => only_value(source, values, true),
        SourceCode::ImmediateRange => only_value(source, values, false),
        SourceCode::OptionStack => span(operands),
        SourceCode::Limit if is_alignment(word) => only_value(source, values, false),
        _ => None,
    }
}

/// The operands of a statement that may have values: of an assignment, those behind the name.
fn values_of<'t>(source: &[u8], word: &[u8], operands: &'t [LineToken]) -> &'t [LineToken] {
    match operands {
        [_, comma, values @ ..] if is_assignment(word) && comma.sort == Sort::Comma => values,
        _ => operands,
    }
}

/// The only operand that is no register, without a register in parentheses after it; among several with a name in them, if
/// so asked.
fn only_value(source: &[u8], values: &[LineToken], is_named: bool) -> Option<Place> {
    let mut found = None;
    for operand in values.split(|token| token.sort == Sort::Comma) {
        let value = without_base(source, operand);
        if is_value(source, operand) && (!is_named || value.iter().any(is_name)) {
            if found.is_some() {
                return None;
            }
            found = span(value);
        }
    }
    found
}

/// Whether a token stands for a value that other statements give.
fn is_name(token: &LineToken) -> bool {
    matches!(token.sort, Sort::Name | Sort::Reference)
}

/// Whether an operand is there and no register.
fn is_value(source: &[u8], operand: &[LineToken]) -> bool {
    match operand {
        [] => false,
        [only] => !is_register(text_of(source, only)),
        _ => true,
    }
}

/// An operand without a register in parentheses at its end.
fn without_base<'t>(source: &[u8], operand: &'t [LineToken]) -> &'t [LineToken] {
    match operand {
        [first, .., open, base, close]
            if open.sort == Sort::Open
                && close.sort == Sort::Close
                && first.sort != Sort::Open
                && is_register(text_of(source, base)) => { &operand[..operand.len() - 3] }
        _ => operand,
    }
}

/// The token behind a sign between two: the first number there that is wrong in any case, else the token behind the only
/// sign, else the operand.
fn behind_sign(source: &[u8], values: &[LineToken], sign: Sort) -> Option<Place> {
    let mut before = [Sort::Comma; 2];
    let mut found = None;
    let mut count = 0usize;
    for token in values {
        let [first, second] = before;
        if second == sign && ends_value(first) {
            if is_wrong_behind(sign, token) {
                return Some(place(token));
            }
            found = Some(place(token));
            count = count.saturating_add(1);
        }
        before = [second, token.sort];
    }
    if count == 1 {
        return found;
    }
    only_value(source, values, false)
}

/// Whether a value may end with a token of a sort, so that the next token is a sign between two.
fn ends_value(sort: Sort) -> bool {
    matches!(
        sort,
        Sort::Name | Sort::Number | Sort::Reference | Sort::Close
    )
}

/// Whether a token is a number that cannot stand behind a sign: a divisor of 0, or a shift by 64 or more.
fn is_wrong_behind(sign: Sort, token: &LineToken) -> bool {
    let is_wrong = if sign == Sort::Divide {
        token.value == 0
    } else {
        64 <= token.value
    };
    token.sort == Sort::Number && is_wrong
}

/// The register of an instruction that holds the address on the way to a symbol: a store and `jump` name it last, the others
/// first.
fn scratch_of(word: &[u8], operands: &[LineToken]) -> Option<Place> {
    let found = if is_store(word) || word == b"jump".as_slice() {
        operands.last()
    } else {
        operands.first()
    };
    Some(place(found?))
}

/// The label in `%pcrel_lo`, else the first reference to a numeric label that the source does not have.
fn undefined_in(source: &[u8], all: &[LineToken], operands: &[LineToken]) -> Option<Place> {
    if let Some(label) = label_of_high_part(source, operands) {
        return Some(label);
    }
    let found = operands.iter().find(|token| token.sort == Sort::Reference
        && !has_label(source, all, token))?;
    Some(place(found))
}

/// The label in `%pcrel_lo`.
fn label_of_high_part(source: &[u8], operands: &[LineToken]) -> Option<Place> {
    let mut is_next = false;
    for token in operands {
        if is_next && token.sort != Sort::Open {
            return Some(place(token));
        }
        is_next = is_next || text_of(source, token) == b"pcrel_lo".as_slice();
    }
    None
}

/// Whether a source has the numeric label of a reference, before or after it.
fn has_label(source: &[u8], all: &[LineToken], reference: &LineToken) -> bool {
    let text = text_of(source, reference);
    let digits = without_zeros(part(text, 0, text.len().saturating_sub(1)));
    let is_forward = text.last() == Some(&b'f');
    let mut before: Option<LineToken> = None;
    for token in all {
        match before {
            Some(label)
                if is_label(&label, token)
                    && (reference.start < label.start) == is_forward
                    && without_zeros(text_of(source, &label)) == digits => {
                return true;
            }
            _ => {}
        }
        before = Some(*token);
    }
    false
}

/// Digits without the zeros at their front.
fn without_zeros(digits: &[u8]) -> &[u8] {
    match digits.iter().position(|digit| *digit != b'0') {
        Some(first) => part(digits, first, digits.len()),
        None => &digits[..0],
    }
}
