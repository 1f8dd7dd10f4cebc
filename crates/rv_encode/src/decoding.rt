//! Words into instructions, by opcode and then by the other selectors.

ghost use Rattle.std.specs.Prelude.{◌≡◌, ◌/◌, ◌%◌, ◌^◌};
ghost use Rattle.rv_isa_laws.specs.Word.{IsSpelled};

use crate::operands;
use crate::operands::{funct3, funct5, funct6, funct7, opcode};
use rv_isa::Inst;

/// LOAD: I-type by funct3.
#[inline(always)]
fn load(bits: u32) -> Option<Inst>
    requires { bits % 128 ≡ 0x03 }
    ensures { IsSpelled result bits }
{
    match funct3(bits) {
        0 => Some(Inst::Lb(operands::i_type(bits))),
        1 => Some(Inst::Lh(operands::i_type(bits))),
        2 => Some(Inst::Lw(operands::i_type(bits))),
        3 => Some(Inst::Ld(operands::i_type(bits))),
        4 => Some(Inst::Lbu(operands::i_type(bits))),
        5 => Some(Inst::Lhu(operands::i_type(bits))),
        6 => Some(Inst::Lwu(operands::i_type(bits))),
        _ => None,
    }
}

/// STORE: S-type by funct3.
#[inline(always)]
fn store(bits: u32) -> Option<Inst>
    requires { bits % 128 ≡ 0x23 }
    ensures { IsSpelled result bits }
{
    match funct3(bits) {
        0 => Some(Inst::Sb(operands::s_type(bits))),
        1 => Some(Inst::Sh(operands::s_type(bits))),
        2 => Some(Inst::Sw(operands::s_type(bits))),
        3 => Some(Inst::Sd(operands::s_type(bits))),
        _ => None,
    }
}

/// BRANCH: B-type by funct3.
#[inline(always)]
fn branch(bits: u32) -> Option<Inst>
    requires { bits % 128 ≡ 0x63 }
    ensures { IsSpelled result bits }
{
    match funct3(bits) {
        0 => Some(Inst::Beq(operands::b_type(bits))),
        1 => Some(Inst::Bne(operands::b_type(bits))),
        4 => Some(Inst::Blt(operands::b_type(bits))),
        5 => Some(Inst::Bge(operands::b_type(bits))),
        6 => Some(Inst::Bltu(operands::b_type(bits))),
        7 => Some(Inst::Bgeu(operands::b_type(bits))),
        _ => None,
    }
}

/// OP-IMM: I-type by funct3, and the shifts by the six bits above the amount.
#[inline(always)]
fn op_imm(bits: u32) -> Option<Inst>
    requires { bits % 128 ≡ 0x13 }
    ensures { IsSpelled result bits }
{
    match funct3(bits) {
        0 => Some(Inst::Addi(operands::i_type(bits))),
        1 => match funct6(bits) {
            0x00 => Some(Inst::Slli(operands::shift_by(bits))),
            _ => None,
        },
        2 => Some(Inst::Slti(operands::i_type(bits))),
        3 => Some(Inst::Sltiu(operands::i_type(bits))),
        4 => Some(Inst::Xori(operands::i_type(bits))),
        5 => match funct6(bits) {
            0x00 => Some(Inst::Srli(operands::shift_by(bits))),
            0x10 => Some(Inst::Srai(operands::shift_by(bits))),
            _ => None,
        },
        6 => Some(Inst::Ori(operands::i_type(bits))),
        7 => Some(Inst::Andi(operands::i_type(bits))),
        _ => None,
    }
}

/// OP-IMM-32: `addiw` by funct3, and the shifts by funct7.
#[inline(always)]
fn op_imm_32(bits: u32) -> Option<Inst>
    requires { bits % 128 ≡ 0x1b }
    ensures { IsSpelled result bits }
{
    match funct3(bits) {
        0 => Some(Inst::Addiw(operands::i_type(bits))),
        1 => match funct7(bits) {
            0x00 => Some(Inst::Slliw(operands::word_shift(bits))),
            _ => None,
        },
        5 => match funct7(bits) {
            0x00 => Some(Inst::Srliw(operands::word_shift(bits))),
            0x20 => Some(Inst::Sraiw(operands::word_shift(bits))),
            _ => None,
        },
        _ => None,
    }
}

/// OP: R-type by funct7 and funct3.
#[inline(always)]
fn op(bits: u32) -> Option<Inst>
    requires { bits % 128 ≡ 0x33 }
    ensures { IsSpelled result bits }
{
    match funct7(bits) {
        0x00 => match funct3(bits) {
            0 => Some(Inst::Add(operands::r_type(bits))),
            1 => Some(Inst::Sll(operands::r_type(bits))),
            2 => Some(Inst::Slt(operands::r_type(bits))),
            3 => Some(Inst::Sltu(operands::r_type(bits))),
            4 => Some(Inst::Xor(operands::r_type(bits))),
            5 => Some(Inst::Srl(operands::r_type(bits))),
            6 => Some(Inst::Or(operands::r_type(bits))),
            7 => Some(Inst::And(operands::r_type(bits))),
            _ => None,
        },
        0x01 => match funct3(bits) {
            0 => Some(Inst::Mul(operands::r_type(bits))),
            1 => Some(Inst::Mulh(operands::r_type(bits))),
            2 => Some(Inst::Mulhsu(operands::r_type(bits))),
            3 => Some(Inst::Mulhu(operands::r_type(bits))),
            4 => Some(Inst::Div(operands::r_type(bits))),
            5 => Some(Inst::Divu(operands::r_type(bits))),
            6 => Some(Inst::Rem(operands::r_type(bits))),
            7 => Some(Inst::Remu(operands::r_type(bits))),
            _ => None,
        },
        0x20 => match funct3(bits) {
            0 => Some(Inst::Sub(operands::r_type(bits))),
            5 => Some(Inst::Sra(operands::r_type(bits))),
            _ => None,
        },
        _ => None,
    }
}

/// OP-32: R-type by funct7 and funct3.
#[inline(always)]
fn op_32(bits: u32) -> Option<Inst>
    requires { bits % 128 ≡ 0x3b }
    ensures { IsSpelled result bits }
{
    match funct7(bits) {
        0x00 => match funct3(bits) {
            0 => Some(Inst::Addw(operands::r_type(bits))),
            1 => Some(Inst::Sllw(operands::r_type(bits))),
            5 => Some(Inst::Srlw(operands::r_type(bits))),
            _ => None,
        },
        0x01 => match funct3(bits) {
            0 => Some(Inst::Mulw(operands::r_type(bits))),
            4 => Some(Inst::Divw(operands::r_type(bits))),
            5 => Some(Inst::Divuw(operands::r_type(bits))),
            6 => Some(Inst::Remw(operands::r_type(bits))),
            7 => Some(Inst::Remuw(operands::r_type(bits))),
            _ => None,
        },
        0x20 => match funct3(bits) {
            0 => Some(Inst::Subw(operands::r_type(bits))),
            5 => Some(Inst::Sraw(operands::r_type(bits))),
            _ => None,
        },
        _ => None,
    }
}

/// AMO of 32 bits by funct5; a load-reserved has no rs2.
#[inline(always)]
fn amo_word(bits: u32) -> Option<Inst>
    requires opcode { bits % 128 ≡ 0x2f }
    requires width { bits / 2 ^ 12 % 8 ≡ 2 }
    ensures { IsSpelled result bits }
{
    match funct5(bits) {
        0x00 => Some(Inst::AmoaddW(operands::memory(bits))),
        0x01 => Some(Inst::AmoswapW(operands::memory(bits))),
        0x02 => {
            if operands::rs2(bits).number() == 0 {
                Some(Inst::LrW(operands::load_reserved(bits)))
            } else {
                None
            }
        }
        0x03 => Some(Inst::ScW(operands::memory(bits))),
        0x04 => Some(Inst::AmoxorW(operands::memory(bits))),
        0x08 => Some(Inst::AmoorW(operands::memory(bits))),
        0x0c => Some(Inst::AmoandW(operands::memory(bits))),
        0x10 => Some(Inst::AmominW(operands::memory(bits))),
        0x14 => Some(Inst::AmomaxW(operands::memory(bits))),
        0x18 => Some(Inst::AmominuW(operands::memory(bits))),
        0x1c => Some(Inst::AmomaxuW(operands::memory(bits))),
        _ => None,
    }
}

/// AMO of 64 bits by funct5; a load-reserved has no rs2.
#[inline(always)]
fn amo_doubleword(bits: u32) -> Option<Inst>
    requires opcode { bits % 128 ≡ 0x2f }
    requires width { bits / 2 ^ 12 % 8 ≡ 3 }
    ensures { IsSpelled result bits }
{
    match funct5(bits) {
        0x00 => Some(Inst::AmoaddD(operands::memory(bits))),
        0x01 => Some(Inst::AmoswapD(operands::memory(bits))),
        0x02 => {
            if operands::rs2(bits).number() == 0 {
                Some(Inst::LrD(operands::load_reserved(bits)))
            } else {
                None
            }
        }
        0x03 => Some(Inst::ScD(operands::memory(bits))),
        0x04 => Some(Inst::AmoxorD(operands::memory(bits))),
        0x08 => Some(Inst::AmoorD(operands::memory(bits))),
        0x0c => Some(Inst::AmoandD(operands::memory(bits))),
        0x10 => Some(Inst::AmominD(operands::memory(bits))),
        0x14 => Some(Inst::AmomaxD(operands::memory(bits))),
        0x18 => Some(Inst::AmominuD(operands::memory(bits))),
        0x1c => Some(Inst::AmomaxuD(operands::memory(bits))),
        _ => None,
    }
}

/// AMO by width.
#[inline(always)]
fn amo(bits: u32) -> Option<Inst>
    requires { bits % 128 ≡ 0x2f }
    ensures { IsSpelled result bits }
{
    match funct3(bits) {
        2 => amo_word(bits),
        3 => amo_doubleword(bits),
        _ => None,
    }
}

/// MISC-MEM: FENCE.
#[inline(always)]
fn misc_mem(bits: u32) -> Option<Inst>
    requires { bits % 128 ≡ 0x0f }
    ensures { IsSpelled result bits }
{
    match funct3(bits) {
        0 => Some(Inst::Fence(operands::ordering(bits))),
        _ => None,
    }
}

/// JALR: I-type.
#[inline(always)]
fn jalr(bits: u32) -> Option<Inst>
    requires { bits % 128 ≡ 0x67 }
    ensures { IsSpelled result bits }
{
    match funct3(bits) {
        0 => Some(Inst::Jalr(operands::i_type(bits))),
        _ => None,
    }
}

/// SYSTEM: the two words without operands.
#[inline(always)]
fn system(bits: u32) -> Option<Inst>
    requires { bits % 128 ≡ 0x73 }
    ensures { IsSpelled result bits }
{
    match bits {
        0x0000_0073 => Some(Inst::Ecall),
        0x0010_0073 => Some(Inst::Ebreak),
        _ => None,
    }
}

/// The instruction that this word spells, or `None` where it spells none of RV64IMA.
#[inline(always)]
pub fn decode(bits: u32) -> Option<Inst>
    ensures { IsSpelled result bits }
{
    match opcode(bits) {
        0x03 => load(bits),
        0x0f => misc_mem(bits),
        0x13 => op_imm(bits),
        0x17 => Some(Inst::Auipc(operands::u_type(bits))),
        0x1b => op_imm_32(bits),
        0x23 => store(bits),
        0x2f => amo(bits),
        0x33 => op(bits),
        0x37 => Some(Inst::Lui(operands::u_type(bits))),
        0x3b => op_32(bits),
        0x63 => branch(bits),
        0x67 => jalr(bits),
        0x6f => Some(Inst::Jal(operands::j_type(bits))),
        0x73 => system(bits),
        _ => None,
    }
}
