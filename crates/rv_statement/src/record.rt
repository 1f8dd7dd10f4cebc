//! What is kept of a statement that says little: registers alone, or a numeric label.
//!
//! Every other statement is kept whole, and its record says which it is. So a statement is lent nearly always, and one
//! that is made again takes a few bytes.

ghost use Rattle.std.specs.Prelude.{◌≡◌, ◌≤◌, ◌+◌, length, IfSome};
ghost use Rattle.rv_expression_laws.specs.Bytes.{digits_value};
ghost use Rattle.rv_statement_laws.specs.Statement.{Numbered};
ghost use Rattle.rv_statement.specs.View.{statement_kind};
ghost use Rattle.rv_statement.specs.Records.{part, plain_in, part_end, packed_kind, IsPacked};

use crate::statement::{Plain, StatementKind};
use rv_isa::{LoadOperation, Reg, RegisterOperation, StoreOperation};
use rv_parcel::ParcelOperation;
use rv_statement_laws::{CompareOperation, UnaryOperation};

/// An instruction of registers alone, as in `Plain`; those that order memory have more bytes.
#[derive(Clone, Copy, Drop)]
pub(crate) enum Short {
    Registers(RegisterOperation, Reg, Reg, Reg),
    Load(LoadOperation, Reg, Reg),
    Store(StoreOperation, Reg, Reg),
    Jalr(Reg, Reg),
    JalrLinked(Reg),
    Ecall,
    Ebreak,
    Nop,
    Unary(UnaryOperation, Reg, Reg),
    Compare(CompareOperation, Reg, Reg, Reg),
    Jr(Reg),
    Ret,
    Parcel(ParcelOperation, Reg, Reg),
}

/// What a statement says, or where it is kept whole.
#[derive(Clone, Copy, Drop)]
pub(crate) enum Words {
    Plain(Short),
    /// A numeric label: how many digits it has, and where in the source they begin.
    Numbered(u8, u32),
    /// The index of a statement among those that are kept whole.
    Whole(u32),
}

/// What a statement says, with its line.
#[derive(Clone, Copy, Drop)]
pub(crate) struct Record {
    pub(crate) words: Words,
    pub(crate) line: u32,
}

const _: () = prove!(size_of::<Record>() <= 12);

/// An instruction in few bytes, if it has so few.
#[inline(never)]
fn shortened(plain: Plain) -> Option<Short>
    ensures { IfSome result (λ short. plain_in short ≡ plain) }
{
    match plain {
        Plain::Registers(operation, rd, rs1, rs2) => {
            Some(Short::Registers(operation, rd, rs1, rs2))
        }
        Plain::Load(operation, rd, rs1) => Some(Short::Load(operation, rd, rs1)),
        Plain::Store(operation, rs2, rs1) => Some(Short::Store(operation, rs2, rs1)),
        Plain::Jalr(rd, rs1) => Some(Short::Jalr(rd, rs1)),
        Plain::JalrLinked(rs1) => Some(Short::JalrLinked(rs1)),
        Plain::Ecall => Some(Short::Ecall),
        Plain::Ebreak => Some(Short::Ebreak),
        Plain::Nop => Some(Short::Nop),
        Plain::Unary(operation, rd, rs) => Some(Short::Unary(operation, rd, rs)),
        Plain::Compare(operation, rd, rs1, rs2) => Some(Short::Compare(operation, rd, rs1, rs2)),
        Plain::Jr(rs) => Some(Short::Jr(rs)),
        Plain::Ret => Some(Short::Ret),
        Plain::Parcel(operation, a, b) => Some(Short::Parcel(operation, a, b)),
        Plain::LoadReserved(..)
        | Plain::Atomic(..)
        | Plain::Fence
        | Plain::FenceBetween(..)
        | Plain::FenceTso => None,
    }
}

/// The instruction of few bytes.
fn plain(short: Short) -> Plain
    ensures { result ≡ plain_in short }
{
    match short {
        Short::Registers(operation, rd, rs1, rs2) => Plain::Registers(operation, rd, rs1, rs2),
        Short::Load(operation, rd, rs1) => Plain::Load(operation, rd, rs1),
        Short::Store(operation, rs2, rs1) => Plain::Store(operation, rs2, rs1),
        Short::Jalr(rd, rs1) => Plain::Jalr(rd, rs1),
        Short::JalrLinked(rs1) => Plain::JalrLinked(rs1),
        Short::Ecall => Plain::Ecall,
        Short::Ebreak => Plain::Ebreak,
        Short::Nop => Plain::Nop,
        Short::Unary(operation, rd, rs) => Plain::Unary(operation, rd, rs),
        Short::Compare(operation, rd, rs1, rs2) => Plain::Compare(operation, rd, rs1, rs2),
        Short::Jr(rs) => Plain::Jr(rs),
        Short::Ret => Plain::Ret,
        Short::Parcel(operation, a, b) => Plain::Parcel(operation, a, b),
    }
}

/// A numeric label whose digits begin at `from` in the source.
#[inline(never)]
fn numbered(source: &[u8], from: usize, digits: &[u8]) -> Option<Words>
    ensures { IfSome result
        (λ words. IsPacked source.now words (Numbered (digits_value 10 digits.now))) }
{
    let count = u8::try_from(digits.len()).ok()?;
    let start = u32::try_from(from).ok()?;
    let end = from.checked_add(digits.len())?;
    if end <= source.len() && &source[from..end] == digits {
        return Some(Words::Numbered(count, start));
    }
    None
}

/// What a statement says whose bytes begin at `from` in the source, where it says little.
#[inline(always)]
pub(crate) fn packed(source: &[u8], from: usize, kind: &StatementKind<'_>) -> Option<Words>
    ensures { IfSome result (λ words. IsPacked source.now words (statement_kind kind.now)) }
{
    match kind {
        StatementKind::Plain(plain) => Some(Words::Plain(shortened(*plain)?)),
        StatementKind::Numbered(digits) => numbered(source, from, digits),
        _ => None,
    }
}

/// A part of the source, by its length and its offset.
fn part(source: &[u8], count: u8, start: u32) -> &[u8]
    requires { start + count ≤ length source.now }
    ensures { result.now ≡ part source.now count start }
{
    let start = start as usize;
    &source[start..start + usize::from(count)]
}

/// What a statement says that is not kept whole.
pub(crate) fn made(source: &[u8], words: Words) -> StatementKind<'_>
    requires { part_end words ≤ length source.now }
    ensures { statement_kind result ≡ packed_kind source.now words }
{
    match words {
        Words::Plain(short) => StatementKind::Plain(plain(short)),
        Words::Numbered(count, start) => StatementKind::Numbered(part(source, count, start)),
        Words::Whole(_) => StatementKind::Ignored,
    }
}
