//! `li`: the instructions that put a number into a register.
//!
//! Of more than 32 bits the bits above the low twelve are made first, by `li` again, without the zero bits that they
//! end with; a shift and an `addi` follow. So one rule serves every width: three such steps lead from 64 bits to 32,
//! which bounds the sequence at eight. GNU as takes other sequences for some numbers.
//!
//! Source: RISC-V Assembly Programmer's Manual, "Load Immediate".

ghost use Rattle.std.specs.Prelude.{◌≡◌, ◌≢◌, ◌≤◌, ◌<◌, ◌+◌, ◌*◌, ◌%◌, ◌^◌, ◌++◌, [], ◌∷◌, false, pos, length, unsigned_abs};
ghost use Rattle.std.specs.Int.{w64, trailing_zeros};
ghost use Rattle.rv_isa.specs.Ranges.{IsSigned12};
ghost use Rattle.rv_isa_laws.specs.Arithmetic.{wrapped, floor};
ghost use Rattle.rv_isa_laws.specs.Halves.{hi, lo};
ghost use Rattle.rv_pseudo_laws.specs.Li as is;
ghost use Rattle.rv_pseudo_laws.specs.Li.{is_signed, li, addi, addiw, slli, unless_zero, IsInReach};

use arrayvec::ArrayVec;
use rv_isa::{IType, Inst, Reg, Shift, UType};

/// A number as a multiple of 4096, counted in 4096, and what is left of it: -2048 to 2047.
pub(crate) fn halves(value: i64) -> (i64, i32)
    ensures hi { result.0 ≡ hi value }
    ensures lo { result.1 ≡ lo value }
    ensures range { IsSigned12 result.1 }
{
    let above = value.div_euclid(4096);
    let low = value.rem_euclid(4096);
    if low < 2048 {
        (above, low as i32)
    } else {
        (above + 1, (low - 4096) as i32)
    }
}

/// Adds an instruction that adds a number, unless that is 0.
fn push_unless_zero(sequence: &mut ArrayVec<Inst, 8>, number: i32, inst: Inst)
    requires { length sequence.old.items < 8 }
    ensures items { sequence.new.items ≡ sequence.old.items ++ unless_zero number inst }
    ensures count { length sequence.new.items ≤ length sequence.old.items + 1 }
{
    if number != 0 {
        sequence.push(inst);
    }
}

/// Whether a number has 12 bits in two's complement.
pub(crate) fn is_short(value: i64) -> bool
    ensures { result ≡ is_signed 12 value }
{
    -2048 <= value && value < 2048
}

/// Whether a number has 32 bits in two's complement.
fn is_word(value: i64) -> bool
    ensures { result ≡ is_signed 32 value }
{
    -0x8000_0000 <= value && value < 0x8000_0000
}

/// One instruction.
fn alone(inst: Inst) -> ArrayVec<Inst, 8>
    ensures { result.items ≡ inst ∷ [] }
{
    let mut sequence = ArrayVec::new();
    sequence.push(inst);
    sequence
}

/// The low 20 bits of an upper half.
fn upper_field(upper: i64) -> u32
    ensures { result ≡ wrapped upper % 2 ^ 20 }
{
    upper.rem_euclid(1 << 20) as u32
}

/// `li` of a number of 32 bits.
fn li_short(rd: Reg, value: i64) -> ArrayVec<Inst, 8>
    ensures items { result.items ≡ is.li_short rd value }
    ensures count { length result.items ≤ 2 }
{
    if is_short(value) {
        let immediate = value as i32;
        return alone(Inst::Addi(IType {
            immediate,
            rd,
            rs1: Reg::ZERO,
        }));
    }
    let (upper, low) = halves(value);
    let immediate = upper_field(upper);
    let mut sequence = alone(Inst::Lui(UType { immediate, rd }));
    push_unless_zero(&mut sequence, low, add_word(rd, low));
    sequence
}

/// `addiw rd, rd, number`
fn add_word(rd: Reg, number: i32) -> Inst
    ensures { result ≡ addiw rd rd number }
{
    Inst::Addiw(IType {
        immediate: number,
        rd,
        rs1: rd,
    })
}

/// `addi rd, rd, number`
fn add(rd: Reg, number: i32) -> Inst
    ensures { result ≡ addi rd rd number }
{
    Inst::Addi(IType {
        immediate: number,
        rd,
        rs1: rd,
    })
}

/// How many zero bits a number other than 0 ends with.
fn zero_bits(number: u64) -> u8
    requires some { 0 < number }
    requires within { number ≤ 2 ^ 51 }
    ensures count { result ≡ trailing_zeros w64 number }
    ensures within { result ≤ 51 }
{
    number.trailing_zeros() as u8
}

/// How many zero bits an upper half ends with.
fn zeros(upper: i64) -> u8
    requires some { upper ≢ pos 0 }
    requires within { unsigned_abs upper ≤ 2 ^ 51 }
    ensures count { result ≡ trailing_zeros w64 (unsigned_abs upper) }
    ensures within { result ≤ 51 }
{
    zero_bits(upper.unsigned_abs())
}

/// An upper half without the zero bits that it ends with.
fn without_zeros(upper: i64, zeros: u8) -> i64
    requires { zeros ≤ 51 }
    ensures { result ≡ floor upper (2 ^ zeros) }
{
    upper >> zeros
}

/// The bits above the low 12 of a number of more than 32 bits, without the zero bits that they end with; how many these
/// are; and the rest, -2048 to 2047.
fn parts(value: i64) -> (i64, u8, i32)
    requires { is_signed 32 value ≡ false }
    ensures above { result.0 ≡ is.above value }
    ensures zeros { result.1 ≡ is.zeros value }
    ensures low { result.2 ≡ lo value }
    ensures within { result.1 ≤ 51 }
{
    let (upper, low) = halves(value);
    let zeros = zeros(upper);
    (without_zeros(upper, zeros), zeros, low)
}

/// The shift and the addition that follow the sequence of the bits above the low 12.
fn then_low(before: ArrayVec<Inst, 8>, rd: Reg, zeros: u8, low: i32) -> ArrayVec<Inst, 8>
    requires room { length before.items ≤ 6 }
    requires zeros { zeros ≤ 51 }
    ensures items { result.items ≡ before.items
        ++ slli rd rd (12 + zeros) ∷ unless_zero low (addi rd rd low) }
    ensures count { length result.items ≤ length before.items + 2 }
{
    let mut sequence = before;
    sequence.push(Inst::Slli(Shift {
        rd,
        rs1: rd,
        amount: 12 + zeros,
    }));
    push_unless_zero(&mut sequence, low, add(rd, low));
    sequence
}

/// `li` of a number that at most this many steps bring to 32 bits.
fn li_in(steps: u8, rd: Reg, value: i64) -> ArrayVec<Inst, 8>
    requires within { IsInReach steps value }
    requires steps { steps ≤ 3 }
    ensures items { result.items ≡ is.li_in steps rd value }
    ensures count { length result.items ≤ 2 + 2 * steps }
{
    if is_word(value) {
        return li_short(rd, value);
    }
    let (above, zeros, low) = parts(value);
    let before = li_in(steps - 1, rd, above);
    then_low(before, rd, zeros, low)
}

/// The instructions that put a number into a register: `addi` for 12 bits, `lui` and `addiw` for 32, else those for the
/// bits above the low 12, a shift and an addition.
pub fn li_sequence(rd: Reg, value: i64) -> ArrayVec<Inst, 8>
    ensures { result.items ≡ li rd value }
{
    li_in(3, rd, value)
}
