//! Which operands an instruction's word can hold.

ghost use Rattle.std.specs.Prelude.{◌≡◌, IsTrue, ◌↔◌, ◌<◌};
ghost use Rattle.rv_isa.specs.Ranges.{IsSigned12, IsBranchOffset, IsJumpOffset, IsFence, IsValid, IsValidFormat, shift_limit};

use crate::instruction::{Fence, Format, Inst};
use crate::operation::ShiftOperation;

/// Whether a load, a store or an operation can hold this immediate: -2048 to 2047.
#[inline]
pub fn is_signed_12(immediate: i32) -> bool
    ensures { IsTrue result ↔ IsSigned12 immediate }
{
    -2048 <= immediate && immediate <= 2047
}

/// Whether a branch can hold this offset: even, -4096 to 4094.
#[inline]
pub fn is_branch_offset(offset: i32) -> bool
    ensures { IsTrue result ↔ IsBranchOffset offset }
{
    -4096 <= offset && offset <= 4094 && offset.unsigned_abs() % 2 == 0
}

/// Whether `jal` can hold this offset: even, -1048576 to 1048574.
#[inline]
pub fn is_jump_offset(offset: i32) -> bool
    ensures { IsTrue result ↔ IsJumpOffset offset }
{
    -1_048_576 <= offset && offset <= 1_048_574 && offset.unsigned_abs() % 2 == 0
}

/// Whether a fence's word can hold these fields of four bits each.
fn is_fence(x: Fence) -> bool
    ensures { IsTrue result ↔ IsFence x }
{
    x.fm < 16 && x.pred < 16 && x.succ < 16
}

impl ShiftOperation {
    /// The number of the bits that it shifts: amounts are below it.
    #[inline]
    pub fn limit(self) -> u8
        ensures { result ≡ shift_limit self }
    {
        match self {
            ShiftOperation::Slli | ShiftOperation::Srli | ShiftOperation::Srai => 64,
            ShiftOperation::Slliw | ShiftOperation::Srliw | ShiftOperation::Sraiw => 32,
        }
    }
}

impl Inst {
    /// Whether every operand is in the range of its format: then a word spells this instruction.
    pub fn is_valid(&self) -> bool
        ensures { IsTrue result ↔ IsValid self.now }
    {
        is_in_range(self.format())
    }
}

fn is_in_range(format: Format) -> bool
    ensures { IsTrue result ↔ IsValidFormat format }
{
    match format {
        Format::Registers(_, _) | Format::LoadReserved(_, _) | Format::Atomic(_, _, _) => true,
        Format::Immediate(_, x) | Format::Load(_, x) | Format::Jalr(x) => is_signed_12(x.immediate),
        Format::Shift(operation, x) => x.amount < operation.limit(),
        Format::Upper(_, x) => x.immediate < 1 << 20,
        Format::Store(_, x) => is_signed_12(x.immediate),
        Format::Branch(_, x) => is_branch_offset(x.offset),
        Format::Jal(x) => is_jump_offset(x.offset),
        Format::Fence(x) => is_fence(x),
        Format::Ecall | Format::Ebreak => true,
    }
}
