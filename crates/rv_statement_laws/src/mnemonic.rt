//! The mnemonics of a source, grouped by the operands that they have.
//!
//! Source: RISC-V Unprivileged ISA 20191213, chapter 24; RISC-V Assembly Programmer's Manual.

use crate::pseudo::{
    CompareOperation, SwappedBranchOperation, UnaryOperation, ZeroBranchOperation,
};
use rv_isa::{
    AtomicForm, AtomicOperation, BranchOperation, ImmediateOperation, LoadOperation,
    RegisterOperation, ShiftOperation, StoreOperation, UpperOperation,
};
use rv_parcel::ParcelOperation;

/// A mnemonic: of a base instruction, of a pseudo-instruction, of a parcel.
#[derive(Clone, Copy, Drop)]
pub enum Mnemonic {
    Registers(RegisterOperation),
    Immediate(ImmediateOperation),
    Shift(ShiftOperation),
    Upper(UpperOperation),
    Load(LoadOperation),
    Store(StoreOperation),
    Branch(BranchOperation),
    /// `jal` with any of its operands.
    Jal,
    /// `jalr` with any of its operands.
    Jalr,
    LoadReserved(AtomicForm),
    Atomic(AtomicOperation, AtomicForm),
    Fence,
    FenceTso,
    Ecall,
    Ebreak,
    Nop,
    Unary(UnaryOperation),
    Compare(CompareOperation),
    ZeroBranch(ZeroBranchOperation),
    SwappedBranch(SwappedBranchOperation),
    /// `j target`
    J,
    /// `jr rs` or `jr offset(rs)`
    Jr,
    Ret,
    /// `la rd, symbol` or `lla rd, symbol`
    La,
    /// `li rd, immediate`
    Li,
    /// `call symbol` or `call rd, symbol`
    Call,
    /// `tail symbol`
    Tail,
    /// `jump symbol, rt`
    Jump,
    /// `c.addi` and its kin: one parcel.
    Parcel(ParcelOperation),
}
