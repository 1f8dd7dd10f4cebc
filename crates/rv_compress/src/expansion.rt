//! From a parcel to the instruction that it stands for.

ghost use Rattle.std.specs.Prelude.{◌≡◌, ◌↔◌, IfSome};
ghost use Rattle.rv_isa.specs.Ranges.{IsValid};
ghost use Rattle.rv_parcel.specs.Parcel.{IsLine, StandsFor, expansion};

use crate::reading::read;
use rv_isa::{BType, IType, Inst, JType, RType, Reg, SType, Shift, UType};
use rv_parcel::Compressed;

#[inline(always)]
fn immediate_operands(rd: Reg, rs1: Reg, immediate: i32) -> IType
    ensures { result ≡ record { immediate = immediate; rd = rd; rs1 = rs1 } }
{
    IType { immediate, rd, rs1 }
}

#[inline(always)]
fn store_operands(rs1: Reg, rs2: Reg, immediate: i32) -> SType
    ensures { result ≡ record { immediate = immediate; rs1 = rs1; rs2 = rs2 } }
{
    SType {
        immediate,
        rs1,
        rs2,
    }
}

#[inline(always)]
fn register_operands(rd: Reg, rs1: Reg, rs2: Reg) -> RType
    ensures { result ≡ record { rd = rd; rs1 = rs1; rs2 = rs2 } }
{
    RType { rd, rs1, rs2 }
}

/// A shift of a register into itself.
#[inline(always)]
fn shift_operands(rd: Reg, amount: u8) -> Shift
    ensures { result ≡ record { rd = rd; rs1 = rd; amount = amount } }
{
    let rs1 = rd;
    Shift { rd, rs1, amount }
}

/// A comparison with x0.
#[inline(always)]
fn branch_operands(rs1: Reg, offset: i32) -> BType
    ensures { result ≡ record { offset = offset; rs1 = rs1; rs2 = 0 } }
{
    BType {
        offset,
        rs1,
        rs2: Reg::ZERO,
    }
}

/// The instruction that a form stands for.
///
/// Unprivileged ISA 20191213, sections 16.3 to 16.5.
#[inline(always)]
pub fn expanded(form: Compressed) -> Inst
    requires { IsLine form }
    ensures same { result ≡ expansion form }
    ensures valid { IsValid result }
{
    match form {
        Compressed::Addi4spn { rd, immediate } => Inst::Addi(immediate_operands(
            rd,
            Reg::SP,
            immediate as i32,
        )),
        Compressed::Lw { rd, rs1, offset } => Inst::Lw(immediate_operands(rd, rs1, offset as i32)),
        Compressed::Ld { rd, rs1, offset } => Inst::Ld(immediate_operands(rd, rs1, offset as i32)),
        Compressed::Sw { rs1, rs2, offset } => Inst::Sw(store_operands(rs1, rs2, offset as i32)),
        Compressed::Sd { rs1, rs2, offset } => Inst::Sd(store_operands(rs1, rs2, offset as i32)),
        Compressed::Nop { immediate } => Inst::Addi(immediate_operands(
            Reg::ZERO,
            Reg::ZERO,
            immediate,
        )),
        Compressed::Addi { rd, immediate } => Inst::Addi(immediate_operands(rd, rd, immediate)),
        Compressed::Addiw { rd, immediate } => Inst::Addiw(immediate_operands(rd, rd, immediate)),
        Compressed::Li { rd, immediate } => Inst::Addi(immediate_operands(
            rd,
            Reg::ZERO,
            immediate,
        )),
        Compressed::Addi16sp { immediate } => Inst::Addi(immediate_operands(
            Reg::SP,
            Reg::SP,
            immediate,
        )),
        Compressed::Lui { rd, immediate } => Inst::Lui(UType { rd, immediate }),
        Compressed::Srli { rd, amount } => Inst::Srli(shift_operands(rd, amount)),
        Compressed::Srai { rd, amount } => Inst::Srai(shift_operands(rd, amount)),
        Compressed::Andi { rd, immediate } => Inst::Andi(immediate_operands(rd, rd, immediate)),
        Compressed::Sub { rd, rs2 } => Inst::Sub(register_operands(rd, rd, rs2)),
        Compressed::Xor { rd, rs2 } => Inst::Xor(register_operands(rd, rd, rs2)),
        Compressed::Or { rd, rs2 } => Inst::Or(register_operands(rd, rd, rs2)),
        Compressed::And { rd, rs2 } => Inst::And(register_operands(rd, rd, rs2)),
        Compressed::Subw { rd, rs2 } => Inst::Subw(register_operands(rd, rd, rs2)),
        Compressed::Addw { rd, rs2 } => Inst::Addw(register_operands(rd, rd, rs2)),
        Compressed::J { offset } => Inst::Jal(JType {
            rd: Reg::ZERO,
            offset,
        }),
        Compressed::Beqz { rs1, offset } => Inst::Beq(branch_operands(rs1, offset)),
        Compressed::Bnez { rs1, offset } => Inst::Bne(branch_operands(rs1, offset)),
        Compressed::Slli { rd, amount } => Inst::Slli(shift_operands(rd, amount)),
        Compressed::Lwsp { rd, offset } => Inst::Lw(immediate_operands(rd, Reg::SP, offset as i32)),
        Compressed::Ldsp { rd, offset } => Inst::Ld(immediate_operands(rd, Reg::SP, offset as i32)),
        Compressed::Jr { rs1 } => Inst::Jalr(immediate_operands(Reg::ZERO, rs1, 0)),
        Compressed::Mv { rd, rs2 } => Inst::Add(register_operands(rd, Reg::ZERO, rs2)),
        Compressed::Ebreak => Inst::Ebreak,
        Compressed::Jalr { rs1 } => Inst::Jalr(immediate_operands(Reg::RA, rs1, 0)),
        Compressed::Add { rd, rs2 } => Inst::Add(register_operands(rd, rd, rs2)),
        Compressed::Swsp { rs2, offset } => Inst::Sw(store_operands(Reg::SP, rs2, offset as i32)),
        Compressed::Sdsp { rs2, offset } => Inst::Sd(store_operands(Reg::SP, rs2, offset as i32)),
    }
}

/// The instruction that a parcel stands for, HINTs with their literal expansion; `None` exactly where
/// it stands for none.
///
/// Unprivileged ISA 20191213, chapter 16.
#[inline(always)]
pub fn expand(parcel: u16) -> Option<Inst>
    ensures exact { (inst : Inst) → result ≡ Some inst ↔ StandsFor parcel inst }
    ensures valid { IfSome result IsValid }
{
    match read(parcel) {
        Some(form) => Some(expanded(form)),
        None => None,
    }
}
