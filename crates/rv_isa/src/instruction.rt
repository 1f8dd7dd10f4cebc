//! The instructions of RV64IMA: one variant a base mnemonic, with the operands of its format; and the same by format.
//!
//! Source: RISC-V Unprivileged ISA 20191213, section 2.2 (formats) and chapters 2, 5, 7 and 8.

ghost use Rattle.std.specs.Prelude.{◌≡◌};
ghost use Rattle.rv_isa.specs.Operations.{format_of};

use crate::operation::{
    AtomicOperation, BranchOperation, ImmediateOperation, LoadOperation, RegisterOperation,
    ShiftOperation, StoreOperation, UpperOperation,
};
use crate::register::Reg;

/// Register format (R-type): `rd, rs1, rs2`.
#[derive(Clone, Copy, PartialEq, Eq, Drop)]
pub struct RType {
    pub rd: Reg,
    pub rs1: Reg,
    pub rs2: Reg,
}

/// Immediate format (I-type): arithmetic, loads and `jalr`.
#[derive(Clone, Copy, PartialEq, Eq, Drop)]
pub struct IType {
    /// -2048 to 2047.
    pub immediate: i32,
    pub rd: Reg,
    pub rs1: Reg,
}

/// Shift by a constant: the I-type with a shift amount in place of its immediate.
#[derive(Clone, Copy, PartialEq, Eq, Drop)]
pub struct Shift {
    pub rd: Reg,
    pub rs1: Reg,
    /// 0 to 63, for the `w` forms 0 to 31.
    pub amount: u8,
}

/// Store format (S-type): `rs2, immediate(rs1)`.
#[derive(Clone, Copy, PartialEq, Eq, Drop)]
pub struct SType {
    /// -2048 to 2047.
    pub immediate: i32,
    pub rs1: Reg,
    pub rs2: Reg,
}

/// Branch format (B-type): `rs1, rs2, offset`.
#[derive(Clone, Copy, PartialEq, Eq, Drop)]
pub struct BType {
    /// From the instruction's own address: even, -4096 to 4094.
    pub offset: i32,
    pub rs1: Reg,
    pub rs2: Reg,
}

/// Upper-immediate format (U-type): `lui` and `auipc`.
#[derive(Clone, Copy, PartialEq, Eq, Drop)]
pub struct UType {
    /// The upper 20 bits, 0 to 1048575.
    pub immediate: u32,
    pub rd: Reg,
}

/// Jump format (J-type): `jal`.
#[derive(Clone, Copy, PartialEq, Eq, Drop)]
pub struct JType {
    /// From the instruction's own address: even, -1048576 to 1048574.
    pub offset: i32,
    pub rd: Reg,
}

/// An atomic memory operation or store-conditional: `rd, rs2, (rs1)`.
#[derive(Clone, Copy, PartialEq, Eq, Drop)]
pub struct Atomic {
    pub rd: Reg,
    pub rs1: Reg,
    pub rs2: Reg,
    /// The aq bit.
    pub acquire: bool,
    /// The rl bit.
    pub release: bool,
}

/// A load-reserved: `rd, (rs1)`.
#[derive(Clone, Copy, PartialEq, Eq, Drop)]
pub struct Reserve {
    pub rd: Reg,
    pub rs1: Reg,
    /// The aq bit.
    pub acquire: bool,
    /// The rl bit.
    pub release: bool,
}

/// A memory-ordering fence, with every field that its word has.
#[derive(Clone, Copy, PartialEq, Eq, Drop)]
pub struct Fence {
    /// The fence mode, 0 to 15.
    pub fm: u8,
    /// The predecessor set: i 8, o 4, r 2, w 1.
    pub pred: u8,
    /// The successor set, as `pred`.
    pub succ: u8,
    /// Reserved; kept.
    pub rs1: Reg,
    /// Reserved; kept.
    pub rd: Reg,
}

/// An instruction of RV64IMA: its mnemonic and its operands.
#[derive(Clone, Copy, PartialEq, Eq, Drop)]
pub enum Inst {
    Lui(UType),
    Auipc(UType),
    Jal(JType),
    Jalr(IType),
    Beq(BType),
    Bne(BType),
    Blt(BType),
    Bge(BType),
    Bltu(BType),
    Bgeu(BType),
    Lb(IType),
    Lh(IType),
    Lw(IType),
    Ld(IType),
    Lbu(IType),
    Lhu(IType),
    Lwu(IType),
    Sb(SType),
    Sh(SType),
    Sw(SType),
    Sd(SType),
    Addi(IType),
    Slti(IType),
    Sltiu(IType),
    Xori(IType),
    Ori(IType),
    Andi(IType),
    Slli(Shift),
    Srli(Shift),
    Srai(Shift),
    Add(RType),
    Sub(RType),
    Sll(RType),
    Slt(RType),
    Sltu(RType),
    Xor(RType),
    Srl(RType),
    Sra(RType),
    Or(RType),
    And(RType),
    Addiw(IType),
    Slliw(Shift),
    Srliw(Shift),
    Sraiw(Shift),
    Addw(RType),
    Subw(RType),
    Sllw(RType),
    Srlw(RType),
    Sraw(RType),
    Fence(Fence),
    Ecall,
    Ebreak,
    Mul(RType),
    Mulh(RType),
    Mulhsu(RType),
    Mulhu(RType),
    Div(RType),
    Divu(RType),
    Rem(RType),
    Remu(RType),
    Mulw(RType),
    Divw(RType),
    Divuw(RType),
    Remw(RType),
    Remuw(RType),
    LrW(Reserve),
    ScW(Atomic),
    AmoswapW(Atomic),
    AmoaddW(Atomic),
    AmoxorW(Atomic),
    AmoandW(Atomic),
    AmoorW(Atomic),
    AmominW(Atomic),
    AmomaxW(Atomic),
    AmominuW(Atomic),
    AmomaxuW(Atomic),
    LrD(Reserve),
    ScD(Atomic),
    AmoswapD(Atomic),
    AmoaddD(Atomic),
    AmoxorD(Atomic),
    AmoandD(Atomic),
    AmoorD(Atomic),
    AmominD(Atomic),
    AmomaxD(Atomic),
    AmominuD(Atomic),
    AmomaxuD(Atomic),
}

/// An instruction by its format: the operation that tells it from the others of that format, and its operands.
#[derive(Clone, Copy, Drop)]
pub enum Format {
    Registers(RegisterOperation, RType),
    Immediate(ImmediateOperation, IType),
    Shift(ShiftOperation, Shift),
    Upper(UpperOperation, UType),
    Load(LoadOperation, IType),
    Store(StoreOperation, SType),
    Branch(BranchOperation, BType),
    Jal(JType),
    Jalr(IType),
    /// Of eight bytes where the flag is set, else of four.
    LoadReserved(bool, Reserve),
    /// On eight bytes where the flag is set, else on four.
    Atomic(AtomicOperation, bool, Atomic),
    Fence(Fence),
    Ecall,
    Ebreak,
}

/// `nop`, the instruction without effect (ISA, 2.4): what a place of a fixed list holds before it is used.
impl Default for Inst {
    fn default() -> Self {
        Inst::Addi(IType {
            immediate: 0,
            rd: Reg::ZERO,
            rs1: Reg::ZERO,
        })
    }
}

impl Inst {
    /// The instruction's format, with its operation and its operands.
    #[inline(always)]
    pub fn format(self) -> Format
        ensures { result ≡ format_of self }
    {
        match self {
            Inst::Lui(x) => Format::Upper(UpperOperation::Lui, x),
            Inst::Auipc(x) => Format::Upper(UpperOperation::Auipc, x),
            Inst::Jal(x) => Format::Jal(x),
            Inst::Jalr(x) => Format::Jalr(x),
            Inst::Beq(x) => Format::Branch(BranchOperation::Beq, x),
            Inst::Bne(x) => Format::Branch(BranchOperation::Bne, x),
            Inst::Blt(x) => Format::Branch(BranchOperation::Blt, x),
            Inst::Bge(x) => Format::Branch(BranchOperation::Bge, x),
            Inst::Bltu(x) => Format::Branch(BranchOperation::Bltu, x),
            Inst::Bgeu(x) => Format::Branch(BranchOperation::Bgeu, x),
            Inst::Lb(x) => Format::Load(LoadOperation::Lb, x),
            Inst::Lh(x) => Format::Load(LoadOperation::Lh, x),
            Inst::Lw(x) => Format::Load(LoadOperation::Lw, x),
            Inst::Ld(x) => Format::Load(LoadOperation::Ld, x),
            Inst::Lbu(x) => Format::Load(LoadOperation::Lbu, x),
            Inst::Lhu(x) => Format::Load(LoadOperation::Lhu, x),
            Inst::Lwu(x) => Format::Load(LoadOperation::Lwu, x),
            Inst::Sb(x) => Format::Store(StoreOperation::Sb, x),
            Inst::Sh(x) => Format::Store(StoreOperation::Sh, x),
            Inst::Sw(x) => Format::Store(StoreOperation::Sw, x),
            Inst::Sd(x) => Format::Store(StoreOperation::Sd, x),
            Inst::Addi(x) => Format::Immediate(ImmediateOperation::Addi, x),
            Inst::Slti(x) => Format::Immediate(ImmediateOperation::Slti, x),
            Inst::Sltiu(x) => Format::Immediate(ImmediateOperation::Sltiu, x),
            Inst::Xori(x) => Format::Immediate(ImmediateOperation::Xori, x),
            Inst::Ori(x) => Format::Immediate(ImmediateOperation::Ori, x),
            Inst::Andi(x) => Format::Immediate(ImmediateOperation::Andi, x),
            Inst::Slli(x) => Format::Shift(ShiftOperation::Slli, x),
            Inst::Srli(x) => Format::Shift(ShiftOperation::Srli, x),
            Inst::Srai(x) => Format::Shift(ShiftOperation::Srai, x),
            Inst::Add(x) => Format::Registers(RegisterOperation::Add, x),
            Inst::Sub(x) => Format::Registers(RegisterOperation::Sub, x),
            Inst::Sll(x) => Format::Registers(RegisterOperation::Sll, x),
            Inst::Slt(x) => Format::Registers(RegisterOperation::Slt, x),
            Inst::Sltu(x) => Format::Registers(RegisterOperation::Sltu, x),
            Inst::Xor(x) => Format::Registers(RegisterOperation::Xor, x),
            Inst::Srl(x) => Format::Registers(RegisterOperation::Srl, x),
            Inst::Sra(x) => Format::Registers(RegisterOperation::Sra, x),
            Inst::Or(x) => Format::Registers(RegisterOperation::Or, x),
            Inst::And(x) => Format::Registers(RegisterOperation::And, x),
            Inst::Addiw(x) => Format::Immediate(ImmediateOperation::Addiw, x),
            Inst::Slliw(x) => Format::Shift(ShiftOperation::Slliw, x),
            Inst::Srliw(x) => Format::Shift(ShiftOperation::Srliw, x),
            Inst::Sraiw(x) => Format::Shift(ShiftOperation::Sraiw, x),
            Inst::Addw(x) => Format::Registers(RegisterOperation::Addw, x),
            Inst::Subw(x) => Format::Registers(RegisterOperation::Subw, x),
            Inst::Sllw(x) => Format::Registers(RegisterOperation::Sllw, x),
            Inst::Srlw(x) => Format::Registers(RegisterOperation::Srlw, x),
            Inst::Sraw(x) => Format::Registers(RegisterOperation::Sraw, x),
            Inst::Fence(x) => Format::Fence(x),
            Inst::Ecall => Format::Ecall,
            Inst::Ebreak => Format::Ebreak,
            Inst::Mul(x) => Format::Registers(RegisterOperation::Mul, x),
            Inst::Mulh(x) => Format::Registers(RegisterOperation::Mulh, x),
            Inst::Mulhsu(x) => Format::Registers(RegisterOperation::Mulhsu, x),
            Inst::Mulhu(x) => Format::Registers(RegisterOperation::Mulhu, x),
            Inst::Div(x) => Format::Registers(RegisterOperation::Div, x),
            Inst::Divu(x) => Format::Registers(RegisterOperation::Divu, x),
            Inst::Rem(x) => Format::Registers(RegisterOperation::Rem, x),
            Inst::Remu(x) => Format::Registers(RegisterOperation::Remu, x),
            Inst::Mulw(x) => Format::Registers(RegisterOperation::Mulw, x),
            Inst::Divw(x) => Format::Registers(RegisterOperation::Divw, x),
            Inst::Divuw(x) => Format::Registers(RegisterOperation::Divuw, x),
            Inst::Remw(x) => Format::Registers(RegisterOperation::Remw, x),
            Inst::Remuw(x) => Format::Registers(RegisterOperation::Remuw, x),
            Inst::LrW(x) => Format::LoadReserved(false, x),
            Inst::ScW(x) => Format::Atomic(AtomicOperation::Sc, false, x),
            Inst::AmoswapW(x) => Format::Atomic(AtomicOperation::Amoswap, false, x),
            Inst::AmoaddW(x) => Format::Atomic(AtomicOperation::Amoadd, false, x),
            Inst::AmoxorW(x) => Format::Atomic(AtomicOperation::Amoxor, false, x),
            Inst::AmoandW(x) => Format::Atomic(AtomicOperation::Amoand, false, x),
            Inst::AmoorW(x) => Format::Atomic(AtomicOperation::Amoor, false, x),
            Inst::AmominW(x) => Format::Atomic(AtomicOperation::Amomin, false, x),
            Inst::AmomaxW(x) => Format::Atomic(AtomicOperation::Amomax, false, x),
            Inst::AmominuW(x) => Format::Atomic(AtomicOperation::Amominu, false, x),
            Inst::AmomaxuW(x) => Format::Atomic(AtomicOperation::Amomaxu, false, x),
            Inst::LrD(x) => Format::LoadReserved(true, x),
            Inst::ScD(x) => Format::Atomic(AtomicOperation::Sc, true, x),
            Inst::AmoswapD(x) => Format::Atomic(AtomicOperation::Amoswap, true, x),
            Inst::AmoaddD(x) => Format::Atomic(AtomicOperation::Amoadd, true, x),
            Inst::AmoxorD(x) => Format::Atomic(AtomicOperation::Amoxor, true, x),
            Inst::AmoandD(x) => Format::Atomic(AtomicOperation::Amoand, true, x),
            Inst::AmoorD(x) => Format::Atomic(AtomicOperation::Amoor, true, x),
            Inst::AmominD(x) => Format::Atomic(AtomicOperation::Amomin, true, x),
            Inst::AmomaxD(x) => Format::Atomic(AtomicOperation::Amomax, true, x),
            Inst::AmominuD(x) => Format::Atomic(AtomicOperation::Amominu, true, x),
            Inst::AmomaxuD(x) => Format::Atomic(AtomicOperation::Amomaxu, true, x),
        }
    }
}
