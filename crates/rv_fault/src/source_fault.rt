//! Why a source is refused.

ghost use Rattle.std.specs.Prelude.{◌≡◌};
ghost use Rattle.rv_fault.specs.SourceFault.{source_fault_number, source_fault_name};

use std::alloc::{AllocError, AllocFailed};
use thiserror::Error;

/// The codes of faults, E1 to E17 in this order.
#[derive(Clone, Copy, Debug, Drop)]
pub enum SourceCode {
    /// E1: a byte that stands in strings and comments alone.
    BadByte,
    /// E2: no token, an unclosed string or comment, or a literal of 2^64 or more.
    BadToken,
    /// E3: more than 64 parentheses and unary operators in one another.
    NestingTooDeep,
    /// E4: a divisor of 0.
    DivisionByZero,
    /// E5: a shift by 64 or more.
    ShiftTooLarge,
    /// E6: no mnemonic.
    UnknownMnemonic,
    /// E7: operands that the mnemonic or the directive does not take.
    BadOperands,
    /// E8: no directive.
    UnknownDirective,
    /// E9: spelled, but left out.
    UnsupportedHere,
    /// E10: a scratch register that cannot be used.
    ScratchRegister,
    /// E11: a second definition of a symbol's name.
    DuplicateLabel,
    /// E12: a numeric label, or a label of a low part, that is not defined.
    UndefinedLocal,
    /// E13: a value that has to be a constant and is none.
    NotConstant,
    /// E14: a value out of its range.
    ImmediateRange,
    /// E15: a statement in a section that cannot hold it.
    WrongSection,
    /// E16: `.option pop` without its push.
    OptionStack,
    /// E17: a source, line, name, alignment or section beyond its limit.
    Limit,
}

impl SourceCode {
    /// The number after the `E`.
    pub fn number(self) -> u8
        ensures { result ≡ source_fault_number self }
    {
        match self {
            SourceCode::BadByte => 1,
            SourceCode::BadToken => 2,
            SourceCode::NestingTooDeep => 3,
            SourceCode::DivisionByZero => 4,
            SourceCode::ShiftTooLarge => 5,
            SourceCode::UnknownMnemonic => 6,
            SourceCode::BadOperands => 7,
            SourceCode::UnknownDirective => 8,
            SourceCode::UnsupportedHere => 9,
            SourceCode::ScratchRegister => 10,
            SourceCode::DuplicateLabel => 11,
            SourceCode::UndefinedLocal => 12,
            SourceCode::NotConstant => 13,
            SourceCode::ImmediateRange => 14,
            SourceCode::WrongSection => 15,
            SourceCode::OptionStack => 16,
            SourceCode::Limit => 17,
        }
    }

    /// The name that messages show after the number.
    pub fn name(self) -> &'static str
        ensures { result.now ≡ source_fault_name self }
    {
        match self {
            SourceCode::BadByte => "BadByte",
            SourceCode::BadToken => "BadToken",
            SourceCode::NestingTooDeep => "NestingTooDeep",
            SourceCode::DivisionByZero => "DivisionByZero",
            SourceCode::ShiftTooLarge => "ShiftTooLarge",
            SourceCode::UnknownMnemonic => "UnknownMnemonic",
            SourceCode::BadOperands => "BadOperands",
            SourceCode::UnknownDirective => "UnknownDirective",
            SourceCode::UnsupportedHere => "UnsupportedHere",
            SourceCode::ScratchRegister => "ScratchRegister",
            SourceCode::DuplicateLabel => "DuplicateLabel",
            SourceCode::UndefinedLocal => "UndefinedLocal",
            SourceCode::NotConstant => "NotConstant",
            SourceCode::ImmediateRange => "ImmediateRange",
            SourceCode::WrongSection => "WrongSection",
            SourceCode::OptionStack => "OptionStack",
            SourceCode::Limit => "Limit",
        }
    }
}

/// Why a source is refused: a fault at a line of it, or want of memory.
#[derive(Debug, Drop, Error)]
pub enum SourceFault {
    /// The first fault of the source: its code and its line, from 1 (0 for a source that is too long).
    #[error("a fault at line {line}")]
    At { code: SourceCode, line: u32 },
    /// Memory ran out.
    #[error("out of memory")]
    OutOfMemory,
}

impl From<AllocError> for SourceFault {
    ghost use Rattle.rv_fault.specs.declared.source_fault.SourceFault.TheVariants.{OutOfMemory};

    ghost from_gives = { λ _ e. e ≡ OutOfMemory };

    fn from(_error: AllocError) -> Self {
        SourceFault::OutOfMemory
    }
}

impl<T: Drop> From<AllocFailed<T>> for SourceFault {
    ghost use Rattle.rv_fault.specs.declared.source_fault.SourceFault.TheVariants.{OutOfMemory};

    ghost from_gives = { λ _ e. e ≡ OutOfMemory };

    fn from(_error: AllocFailed<T>) -> Self {
        SourceFault::OutOfMemory
    }
}
