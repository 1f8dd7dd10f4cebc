//! What may stand in the place of a wrong operand: what its statement's mnemonic or directive takes there.

use crate::names::is_register;
use crate::place::Expected;
use crate::tokens::{LineToken, Sort, text_of};
use rv_parcel::{OperandShape, ParcelOperation, RegisterSet};
use rv_parse_words::Beginning;
use rv_parse_words::words::{beginning_with, has_constant};
use rv_statement_laws::{DirectiveWord, Mnemonic};

/// What comes before a token of a statement.
#[derive(Clone, Copy)]
enum Front {
    /// A comma or the first word: an operand begins.
    Operand,
    /// A parenthesis behind an offset: a register stands in it.
    Base,
    /// A sign: the operand goes on.
    Sign,
    /// A number or a parenthesis that ends.
    Number,
    /// A register in parentheses.
    Address,
    /// Another word.
    Word,
}

/// What may stand in the place of a wrong token of a statement, which begins behind its labels.
pub(crate) fn expected_at(source: &[u8], statement: &[LineToken], wrong: &LineToken) -> Expected {
    let Some((first, operands)) = statement.split_first() else {
        return Expected::Unknown;
    };
    let count = operands
        .iter()
        .filter(|token| token.start < wrong.start)
        .count();
    let before = operands.get(..count).unwrap_or(&[]);
    let index = before
        .iter()
        .filter(|token| token.sort == Sort::Comma)
        .count();
    let front = front_of(source, before);
    let expected = match beginning_with(text_of(source, first)) {
        Beginning::Instruction(mnemonic) => of_instruction(mnemonic, index, front),
        Beginning::Directive(word) => of_directive(word, index, front),
        Beginning::Nothing => Expected::Unknown,
    };
    match expected {
        Expected::Register if is_register(text_of(source, wrong)) => Expected::OtherRegister,
        // a parenthesis before a number that an operand begins with mends nothing
        Expected::Parenthesis if matches!(front, Front::Operand) && wrong.sort == Sort::Number => {
            Expected::Unknown
        }
        _ => expected,
    }
}

/// What the last of some tokens of operands is to the next.
fn front_of(source: &[u8], before: &[LineToken]) -> Front {
    let Some((last, others)) = before.split_last() else {
        return Front::Operand;
    };
    match last.sort {
        Sort::Comma => Front::Operand,
        Sort::Close if ends_with_base(source, others) => Front::Address,
        Sort::Number | Sort::Close => Front::Number,
        Sort::Open => match others.last() {
            Some(offset) if matches!(offset.sort, Sort::Number | Sort::Close | Sort::Name) => {
                Front::Base
            }
            _ => Front::Sign,
        },
        Sort::Name => match others.last() {
            Some(sign) if text_of(source, sign) == b"%".as_slice() => Front::Number,
            _ => Front::Word,
        },
        Sort::Reference => Front::Word,
        _ => Front::Sign,
    }
}

/// Whether the last of some tokens is a register behind a parenthesis.
fn ends_with_base(source: &[u8], tokens: &[LineToken]) -> bool {
    let Some((base, others)) = tokens.split_last() else {
        return false;
    };
    match others.last() {
        Some(open) => open.sort == Sort::Open && is_register(text_of(source, base)),
        None => false,
    }
}

/// What may stand in an operand of an instruction, by the operands before it.
fn of_instruction(mnemonic: Mnemonic, index: usize, front: Front) -> Expected {
    let (registers, last) = operands_of(mnemonic);
    match front {
        Front::Operand if index < registers => register_of(mnemonic, index),
        Front::Operand if index == registers => last,
        Front::Operand => behind_last(mnemonic),
        Front::Base => base_of(mnemonic),
        Front::Sign => Expected::NumberOrName,
        Front::Number if has_base(mnemonic) && registers <= index => Expected::Parenthesis,
        Front::Number | Front::Word if index < registers || lacks_operand(mnemonic, index) => {
            Expected::Comma
        }
        Front::Number | Front::Address | Front::Word => Expected::Unknown,
    }
}

/// How many operands of an instruction are registers in any case, and what the next is.
fn operands_of(mnemonic: Mnemonic) -> (usize, Expected) {
    match mnemonic {
        Mnemonic::Registers(operation) if has_constant(operation) => {
            (2, Expected::RegisterOrNumber)
        }
        Mnemonic::Registers(_) | Mnemonic::Compare(_) => (2, Expected::Register),
        Mnemonic::Immediate(_)
        | Mnemonic::Shift(_)
        | Mnemonic::Branch(_)
        | Mnemonic::SwappedBranch(_) => (2, Expected::NumberOrName),
        Mnemonic::Upper(_)
        | Mnemonic::Load(_)
        | Mnemonic::Store(_)
        | Mnemonic::ZeroBranch(_)
        | Mnemonic::La
        | Mnemonic::Li => (1, Expected::NumberOrName),
        Mnemonic::Unary(_) => (1, Expected::Register),
        Mnemonic::Jal | Mnemonic::Jalr | Mnemonic::Jr => (0, Expected::RegisterOrNumber),
        Mnemonic::J | Mnemonic::Tail | Mnemonic::Jump => (0, Expected::NumberOrName),
        Mnemonic::Call => (0, Expected::Name),
        Mnemonic::LoadReserved(_) => (1, Expected::Parenthesis),
        Mnemonic::Atomic(..) => (2, Expected::Parenthesis),
        Mnemonic::Fence => (0, Expected::Letters),
        Mnemonic::FenceTso | Mnemonic::Ecall | Mnemonic::Ebreak | Mnemonic::Nop | Mnemonic::Ret => (
            0,
            Expected::Unknown,
        ),
        Mnemonic::Parcel(operation) => parcel_operands(operation),
    }
}

/// The same of a `c.` mnemonic.
fn parcel_operands(operation: ParcelOperation) -> (usize, Expected) {
    let registers = match (operation.first(), operation.second()) {
        (None, _) => 0,
        (Some(_), None) => 1,
        (Some(_), Some(_)) => 2,
    };
    match operation.shape() {
        OperandShape::Registers => (registers, Expected::Unknown),
        OperandShape::Number | OperandShape::Target => (registers, Expected::NumberOrName),
        OperandShape::Address => (1, Expected::NumberOrName),
    }
}

/// Which register an operand of an instruction is.
fn register_of(mnemonic: Mnemonic, index: usize) -> Expected {
    match mnemonic {
        Mnemonic::Parcel(operation) if index == 0 => of_set(operation.first()),
        Mnemonic::Parcel(operation) => of_set(operation.second()),
        _ => Expected::Register,
    }
}

/// Which register the base of an address is.
fn base_of(mnemonic: Mnemonic) -> Expected {
    match mnemonic {
        Mnemonic::Parcel(operation) => of_set(operation.second()),
        _ if has_base(mnemonic) => Expected::Register,
        _ => Expected::NumberOrName,
    }
}

/// A register of a set.
fn of_set(set: Option<RegisterSet>) -> Expected {
    match set {
        None => Expected::Unknown,
        Some(RegisterSet::Short) => Expected::ShortRegister,
        Some(RegisterSet::Stack) => Expected::Stack,
        Some(RegisterSet::Any) | Some(RegisterSet::Nonzero) | Some(RegisterSet::Upper) => {
            Expected::Register
        }
    }
}

/// Whether an operand is a register in parentheses with a number before it.
fn has_base(mnemonic: Mnemonic) -> bool {
    match mnemonic {
        Mnemonic::Load(_)
        | Mnemonic::Store(_)
        | Mnemonic::Jalr
        | Mnemonic::Jr
        | Mnemonic::LoadReserved(_)
        | Mnemonic::Atomic(..) => true,
        Mnemonic::Parcel(operation) => operation.shape() == OperandShape::Address,
        _ => false,
    }
}

/// Whether one more operand is wanted behind the one of an index that is not a register in any case.
fn lacks_operand(mnemonic: Mnemonic, index: usize) -> bool {
    match mnemonic {
        Mnemonic::Jump | Mnemonic::Fence => index == 0,
        Mnemonic::Store(_) => index == 1,
        _ => false,
    }
}

/// What the operand is that some instructions take behind those of [`operands_of`].
fn behind_last(mnemonic: Mnemonic) -> Expected {
    match mnemonic {
        Mnemonic::Jump | Mnemonic::Store(_) => Expected::Register,
        Mnemonic::Fence => Expected::Letters,
        Mnemonic::Jal | Mnemonic::Jalr => Expected::NumberOrName,
        Mnemonic::Call => Expected::Name,
        _ => Expected::Unknown,
    }
}

/// What may stand in an operand of a directive.
fn of_directive(word: DirectiveWord, index: usize, front: Front) -> Expected {
    match (word, front) {
        (DirectiveWord::Binds(_), Front::Operand) => Expected::Name,
        (DirectiveWord::Set | DirectiveWord::Section, Front::Operand) if index == 0 => {
            Expected::Name
        }
        (DirectiveWord::Set, Front::Word) if index == 0 => Expected::Comma,
        (
            DirectiveWord::Set
            | DirectiveWord::AlignToPower
            | DirectiveWord::AlignToBytes
            | DirectiveWord::Value(_)
            | DirectiveWord::Zero,
            Front::Operand | Front::Sign,
        ) => Expected::NumberOrName,
        _ => Expected::Unknown,
    }
}
