//! The selectors and the operands of a word: the fields of each format, and what they are in the word.
//!
//! All are inlined: whoever runs a program reads them at each step.
//!
//! Source: RISC-V Unprivileged ISA 20191213, sections 2.2 and 2.3.

ghost use Rattle.std.specs.Prelude.{◌≡◌, ◌/◌, ◌%◌, ◌^◌, ◌<◌, ◌+◌, ◌*◌};
ghost use Rattle.rv_isa.specs.Ranges.{
  IsRType,
  IsIType,
  IsShift,
  IsWordShift,
  IsSType,
  IsBType,
  IsUType,
  IsJType,
  IsAtomic,
  IsReserve,
  IsFence,
};
ghost use Rattle.rv_isa_laws.specs.Word.{
  word,
  Register,
  Immediate,
  ShiftBy,
  WordShift,
  Store,
  Branch,
  Upper,
  Jump,
  Memory,
  LoadReserved,
  Ordering,
};
ghost use Rattle.rv_encode.specs.Selectors.{selector_in};

use crate::signed::{signed_13, signed_21, spread_12, upper_12};
use rv_isa::{Atomic, BType, Fence, IType, JType, RType, Reg, Reserve, SType, Shift, UType};

/// The low seven bits.
#[inline(always)]
pub fn opcode(bits: u32) -> u32
    ensures { result ≡ bits % 128 }
{
    bits & 0x7f
}

/// Bits 14:12.
#[inline(always)]
pub(crate) fn funct3(bits: u32) -> u32
    ensures { result ≡ bits / 2 ^ 12 % 8 }
{
    bits >> 12 & 7
}

/// Bits 31:27.
#[inline(always)]
pub(crate) fn funct5(bits: u32) -> u32
    ensures { result ≡ bits / 2 ^ 27 }
{
    bits >> 27
}

/// Bits 31:26, above the amount of a shift of 64 bits.
#[inline(always)]
pub fn funct6(bits: u32) -> u32
    ensures { result ≡ bits / 2 ^ 26 }
{
    bits >> 26
}

/// Bits 31:25.
#[inline(always)]
pub fn funct7(bits: u32) -> u32
    ensures { result ≡ bits / 2 ^ 25 }
{
    bits >> 25
}

/// The opcode's bits 6:2 and then funct3, as octal digits; bits 1:0 are those of any word.
#[inline(always)]
pub fn selector(bits: u32) -> u32
    ensures { result ≡ selector_in bits }
{
    bits >> 12 & 7 | (bits >> 2 & 0x1f) << 3
}

#[inline(always)]
fn rd(bits: u32) -> Reg
    ensures { result ≡ bits / 2 ^ 7 % 32 }
{
    Reg::from_low_bits(bits >> 7)
}

#[inline(always)]
fn rs1(bits: u32) -> Reg
    ensures { result ≡ bits / 2 ^ 15 % 32 }
{
    Reg::from_low_bits(bits >> 15)
}

#[inline(always)]
pub(crate) fn rs2(bits: u32) -> Reg
    ensures { result ≡ bits / 2 ^ 20 % 32 }
{
    Reg::from_low_bits(bits >> 20)
}

/// The operands of R-type: two sources and a destination.
#[inline(always)]
pub fn r_type(bits: u32) -> RType
    ensures valid { IsRType result }
    ensures sum { word (Register (bits % 128) (bits / 2 ^ 12 % 8) (bits / 2 ^ 25) result) ≡ bits }
{
    RType {
        rd: rd(bits),
        rs1: rs1(bits),
        rs2: rs2(bits),
    }
}

/// The operands of I-type: a source, a destination and the sign-extended bits 31:20.
#[inline(always)]
pub fn i_type(bits: u32) -> IType
    ensures valid { IsIType result }
    ensures sum { word (Immediate (bits % 128) (bits / 2 ^ 12 % 8) result) ≡ bits }
{
    IType {
        immediate: upper_12(bits),
        rd: rd(bits),
        rs1: rs1(bits),
    }
}

/// The operands of a shift of 64 bits, whose amount is bits 25:20.
#[inline(always)]
pub fn shift_by(bits: u32) -> Shift
    ensures valid { IsShift result }
    ensures sum { word (ShiftBy (bits % 128) (bits / 2 ^ 12 % 8) (bits / 2 ^ 26) result) ≡ bits }
{
    Shift {
        rd: rd(bits),
        rs1: rs1(bits),
        amount: (bits >> 20 & 0x3f) as u8,
    }
}

/// The operands of a shift of 32 bits, whose amount is bits 24:20.
#[inline(always)]
pub fn word_shift(bits: u32) -> Shift
    ensures valid { IsWordShift result }
    ensures sum { word (WordShift (bits % 128) (bits / 2 ^ 12 % 8) (bits / 2 ^ 25) result) ≡ bits }
{
    Shift {
        rd: rd(bits),
        rs1: rs1(bits),
        amount: (bits >> 20 & 0x1f) as u8,
    }
}

/// A store's immediate: bits 4:0 from 7 and bits 11:5 from 25, moved to the top.
#[inline(always)]
fn store_immediate(bits: u32) -> u32
    ensures { result ≡ bits / 2 ^ 7 % 32 * 2 ^ 20 + bits / 2 ^ 25 * 2 ^ 25 }
{
    (bits >> 7 & 0x1f) << 20 | bits >> 25 << 25
}

/// The operands of S-type: two sources and the sign-extended immediate in bits 31:25 and 11:7.
#[inline(always)]
pub fn s_type(bits: u32) -> SType
    ensures valid { IsSType result }
    ensures sum { word (Store (bits % 128) (bits / 2 ^ 12 % 8) result) ≡ bits }
{
    SType {
        immediate: upper_12(store_immediate(bits)),
        rs1: rs1(bits),
        rs2: rs2(bits),
    }
}

/// A branch's offset without the bits below: bits 10:5 from 25, and bit 12 at 31, the sign, modulo 2^32.
#[inline(always)]
fn high_branch_offset(bits: u32) -> u32
    ensures { result ≡ bits / 2 ^ 25 % 2 ^ 6 * 2 ^ 5 + bits / 2 ^ 31 * 4294963200 }
{
    let high = spread_12(bits);
    (high >> 5 & 0x3f) << 5 | high >> 12 << 12
}

/// Bits 4:1 of a branch's offset from 8, and bit 11 at 7.
#[inline(always)]
fn low_branch_offset(bits: u32) -> u32
    ensures { result ≡ bits / 2 ^ 8 % 2 ^ 4 * 2 + bits / 2 ^ 7 % 2 * 2 ^ 11 }
{
    (bits >> 8 & 0xf) << 1 | (bits >> 7 & 1) << 11
}

/// A branch's offset modulo 2^32. Both parts are sums of their own, as LLVM takes the bits of each with one mask.
#[inline(always)]
fn branch_offset(bits: u32) -> u32
    ensures { result
        ≡ bits / 2 ^ 8 % 2 ^ 4 * 2 + bits / 2 ^ 25 % 2 ^ 6 * 2 ^ 5 + bits / 2 ^ 7 % 2 * 2 ^ 11
        + bits / 2 ^ 31 * 4294963200 }
{
    low_branch_offset(bits) + high_branch_offset(bits)
}

/// The operands of B-type: two sources and the even offset.
#[inline(always)]
pub fn b_type(bits: u32) -> BType
    ensures valid { IsBType result }
    ensures sum { word (Branch (bits % 128) (bits / 2 ^ 12 % 8) result) ≡ bits }
{
    BType {
        offset: signed_13(branch_offset(bits)),
        rs1: rs1(bits),
        rs2: rs2(bits),
    }
}

/// The operands of U-type: a destination and bits 31:12.
#[inline(always)]
pub fn u_type(bits: u32) -> UType
    ensures valid { IsUType result }
    ensures sum { word (Upper (bits % 128) result) ≡ bits }
{
    UType {
        immediate: bits >> 12,
        rd: rd(bits),
    }
}

/// A jump's offset: bits 19:12 from 12, bit 11 at 20, bits 10:1 from 21 and bit 20 at 31.
#[inline(always)]
fn jump_offset(bits: u32) -> u32
    ensures sum { result
        ≡ bits / 2 ^ 21 % 2 ^ 10 * 2 + bits / 2 ^ 20 % 2 * 2 ^ 11 + bits / 2 ^ 12 % 2 ^ 8 * 2 ^ 12
        + bits / 2 ^ 31 * 2 ^ 20 }
    ensures below { result < 2 ^ 21 }
    ensures even { result % 2 ≡ 0 }
{
    (bits >> 21 & 0x3ff) << 1
        | (bits >> 20 & 1) << 11
        | (bits >> 12 & 0xff) << 12
        | bits >> 31 << 20
}

/// The operands of J-type: a destination and the even offset.
#[inline(always)]
pub fn j_type(bits: u32) -> JType
    ensures valid { IsJType result }
    ensures sum { word (Jump (bits % 128) result) ≡ bits }
{
    JType {
        offset: signed_21(jump_offset(bits)),
        rd: rd(bits),
    }
}

#[inline(always)]
pub(crate) fn memory(bits: u32) -> Atomic
    ensures valid { IsAtomic result }
    ensures sum { word (Memory (bits % 128) (bits / 2 ^ 12 % 8) (bits / 2 ^ 27) result) ≡ bits }
{
    Atomic {
        rd: rd(bits),
        rs1: rs1(bits),
        rs2: rs2(bits),
        acquire: bits >> 26 & 1 == 1,
        release: bits >> 25 & 1 == 1,
    }
}

#[inline(always)]
pub(crate) fn load_reserved(bits: u32) -> Reserve
    requires { bits / 2 ^ 20 % 32 ≡ 0 }
    ensures valid { IsReserve result }
    ensures sum { word (LoadReserved (bits % 128) (bits / 2 ^ 12 % 8) (bits / 2 ^ 27) result)
        ≡ bits }
{
    Reserve {
        rd: rd(bits),
        rs1: rs1(bits),
        acquire: bits >> 26 & 1 == 1,
        release: bits >> 25 & 1 == 1,
    }
}

#[inline(always)]
pub(crate) fn ordering(bits: u32) -> Fence
    ensures valid { IsFence result }
    ensures sum { word (Ordering (bits % 128) (bits / 2 ^ 12 % 8) result) ≡ bits }
{
    Fence {
        fm: (bits >> 28) as u8,
        pred: (bits >> 24 & 0xf) as u8,
        succ: (bits >> 20 & 0xf) as u8,
        rs1: rs1(bits),
        rd: rd(bits),
    }
}
