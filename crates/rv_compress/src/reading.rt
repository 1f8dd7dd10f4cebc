//! From a parcel to the form that it spells, by quadrant and funct3.

ghost use Rattle.std.specs.Prelude.{◌≡◌, ◌≢◌, ◌*◌, ◌<◌, ◌/◌, ◌%◌, ◌^◌, ◌+◌};
ghost use Rattle.rv_parcel.specs.Parcel.{HasOpcode, IsForm, IsRead, bits_at};

use crate::immediate::{
    branch_offset, double_load, double_offset, double_store, jump_offset, signed_10, signed_12,
    signed_six, six, stack_address, stack_step, upper_20, word_load, word_offset, word_store,
};
use rv_isa::Reg;
use rv_parcel::Compressed;

/// x8 to x15, by bits 4:2.
#[inline]
fn short_2(bits: u32) -> Reg
    ensures { result ≡ 8 + bits_at bits 2 3 0 }
{
    Reg::from_low_bits((bits >> 2 & 7) + 8)
}

/// x8 to x15, by bits 9:7.
#[inline]
fn short_7(bits: u32) -> Reg
    ensures { result ≡ 8 + bits_at bits 7 3 0 }
{
    Reg::from_low_bits((bits >> 7 & 7) + 8)
}

/// x0 to x31, by bits 6:2.
#[inline]
fn any_2(bits: u32) -> Reg
    ensures { result ≡ bits_at bits 2 5 0 }
{
    Reg::from_low_bits(bits >> 2)
}

/// x0 to x31, by bits 11:7.
#[inline]
fn any_7(bits: u32) -> Reg
    ensures { result ≡ bits_at bits 7 5 0 }
{
    Reg::from_low_bits(bits >> 7)
}

#[inline(always)]
fn addi4spn(bits: u32) -> Option<Compressed>
    requires { HasOpcode bits 0 0 }
    ensures { IsRead result bits }
{
    let (rd, immediate) = (short_2(bits), stack_address(bits));
    if immediate == 0 {
        None
    } else {
        Some(Compressed::Addi4spn { rd, immediate })
    }
}

#[inline(always)]
fn lw(bits: u32) -> Compressed
    requires { HasOpcode bits 0 2 }
    ensures { IsForm result bits }
{
    let (rd, rs1, offset) = (short_2(bits), short_7(bits), word_offset(bits));
    Compressed::Lw { rd, rs1, offset }
}

#[inline(always)]
fn ld(bits: u32) -> Compressed
    requires { HasOpcode bits 0 3 }
    ensures { IsForm result bits }
{
    let (rd, rs1, offset) = (short_2(bits), short_7(bits), double_offset(bits));
    Compressed::Ld { rd, rs1, offset }
}

#[inline(always)]
fn sw(bits: u32) -> Compressed
    requires { HasOpcode bits 0 6 }
    ensures { IsForm result bits }
{
    let (rs1, rs2, offset) = (short_7(bits), short_2(bits), word_offset(bits));
    Compressed::Sw { rs1, rs2, offset }
}

#[inline(always)]
fn sd(bits: u32) -> Compressed
    requires { HasOpcode bits 0 7 }
    ensures { IsForm result bits }
{
    let (rs1, rs2, offset) = (short_7(bits), short_2(bits), double_offset(bits));
    Compressed::Sd { rs1, rs2, offset }
}

#[inline(always)]
fn addi(bits: u32) -> Compressed
    requires { HasOpcode bits 1 0 }
    ensures { IsForm result bits }
{
    let (rd, immediate) = (any_7(bits), signed_six(bits));
    if rd.number() == 0 {
        Compressed::Nop { immediate }
    } else {
        Compressed::Addi { rd, immediate }
    }
}

#[inline(always)]
fn addiw(bits: u32) -> Option<Compressed>
    requires { HasOpcode bits 1 1 }
    ensures { IsRead result bits }
{
    let (rd, immediate) = (any_7(bits), signed_six(bits));
    if rd.number() == 0 {
        None
    } else {
        Some(Compressed::Addiw { rd, immediate })
    }
}

#[inline(always)]
fn li(bits: u32) -> Compressed
    requires { HasOpcode bits 1 2 }
    ensures { IsForm result bits }
{
    let (rd, immediate) = (any_7(bits), signed_six(bits));
    Compressed::Li { rd, immediate }
}

#[inline(always)]
fn addi16sp(bits: u32) -> Option<Compressed>
    requires opcode { HasOpcode bits 1 3 }
    requires rd { bits / 2 ^ 7 % 32 ≡ 2 }
    ensures { IsRead result bits }
{
    let immediate = signed_10(stack_step(bits));
    if immediate == 0 {
        None
    } else {
        Some(Compressed::Addi16sp { immediate })
    }
}

#[inline(always)]
fn lui(bits: u32) -> Option<Compressed>
    requires opcode { HasOpcode bits 1 3 }
    requires rd { bits / 2 ^ 7 % 32 ≢ 2 }
    ensures { IsRead result bits }
{
    let (rd, value) = (any_7(bits), six(bits));
    if value == 0 {
        return None;
    }
    let immediate = upper_20(value);
    Some(Compressed::Lui { rd, immediate })
}

/// `c.addi16sp` and `c.lui`.
#[inline(always)]
fn upper(bits: u32) -> Option<Compressed>
    requires { HasOpcode bits 1 3 }
    ensures { IsRead result bits }
{
    if bits >> 7 & 0x1f == 2 {
        addi16sp(bits)
    } else {
        lui(bits)
    }
}

/// Bits 12:10 and 6:5, which tell the short arithmetic apart.
#[inline(always)]
fn short_selector(bits: u32) -> u32
    ensures { result ≡ bits / 2 ^ 10 % 8 * 4 + bits / 2 ^ 5 % 4 }
{
    bits >> 5 & 3 | (bits >> 10 & 7) << 2
}

#[inline(always)]
fn srli(bits: u32) -> Compressed
    requires opcode { HasOpcode bits 1 4 }
    requires funct2 { bits / 2 ^ 10 % 4 ≡ 0 }
    ensures { IsForm result bits }
{
    let (rd, amount) = (short_7(bits), six(bits) as u8);
    Compressed::Srli { rd, amount }
}

#[inline(always)]
fn srai(bits: u32) -> Compressed
    requires opcode { HasOpcode bits 1 4 }
    requires funct2 { bits / 2 ^ 10 % 4 ≡ 1 }
    ensures { IsForm result bits }
{
    let (rd, amount) = (short_7(bits), six(bits) as u8);
    Compressed::Srai { rd, amount }
}

#[inline(always)]
fn andi(bits: u32) -> Compressed
    requires opcode { HasOpcode bits 1 4 }
    requires funct2 { bits / 2 ^ 10 % 4 ≡ 2 }
    ensures { IsForm result bits }
{
    let (rd, immediate) = (short_7(bits), signed_six(bits));
    Compressed::Andi { rd, immediate }
}

/// Shifts, `c.andi` and arithmetic of x8 to x15.
#[inline(always)]
fn short_arithmetic(bits: u32) -> Option<Compressed>
    requires { HasOpcode bits 1 4 }
    ensures { IsRead result bits }
{
    let (rd, rs2) = (short_7(bits), short_2(bits));
    match short_selector(bits) {
        0b000_00..=0b000_11 | 0b100_00..=0b100_11 => Some(srli(bits)),
        0b001_00..=0b001_11 | 0b101_00..=0b101_11 => Some(srai(bits)),
        0b010_00..=0b010_11 | 0b110_00..=0b110_11 => Some(andi(bits)),
        0b011_00 => Some(Compressed::Sub { rd, rs2 }),
        0b011_01 => Some(Compressed::Xor { rd, rs2 }),
        0b011_10 => Some(Compressed::Or { rd, rs2 }),
        0b011_11 => Some(Compressed::And { rd, rs2 }),
        0b111_00 => Some(Compressed::Subw { rd, rs2 }),
        0b111_01 => Some(Compressed::Addw { rd, rs2 }),
        _ => None,
    }
}

/// The eleven bits of a jump's offset, at 12:2.
#[inline]
fn jump_bits(bits: u32) -> u32
    requires { HasOpcode bits 1 5 }
    ensures below { result < 2 ^ 11 }
    ensures rest { bits ≡ 0xa001 + result * 4 }
{
    bits >> 2 & 0x7ff
}

#[inline(always)]
fn j(bits: u32) -> Compressed
    requires { HasOpcode bits 1 5 }
    ensures { IsForm result bits }
{
    Compressed::J {
        offset: signed_12(jump_offset(jump_bits(bits))),
    }
}

#[inline(always)]
fn beqz(bits: u32) -> Compressed
    requires { HasOpcode bits 1 6 }
    ensures { IsForm result bits }
{
    let (rs1, offset) = (short_7(bits), branch_offset(bits));
    Compressed::Beqz { rs1, offset }
}

#[inline(always)]
fn bnez(bits: u32) -> Compressed
    requires { HasOpcode bits 1 7 }
    ensures { IsForm result bits }
{
    let (rs1, offset) = (short_7(bits), branch_offset(bits));
    Compressed::Bnez { rs1, offset }
}

#[inline(always)]
fn slli(bits: u32) -> Compressed
    requires { HasOpcode bits 2 0 }
    ensures { IsForm result bits }
{
    let (rd, amount) = (any_7(bits), six(bits) as u8);
    Compressed::Slli { rd, amount }
}

#[inline(always)]
fn lwsp(bits: u32) -> Option<Compressed>
    requires { HasOpcode bits 2 2 }
    ensures { IsRead result bits }
{
    let (rd, offset) = (any_7(bits), word_load(bits));
    if rd.number() == 0 {
        None
    } else {
        Some(Compressed::Lwsp { rd, offset })
    }
}

#[inline(always)]
fn ldsp(bits: u32) -> Option<Compressed>
    requires { HasOpcode bits 2 3 }
    ensures { IsRead result bits }
{
    let (rd, offset) = (any_7(bits), double_load(bits));
    if rd.number() == 0 {
        None
    } else {
        Some(Compressed::Ldsp { rd, offset })
    }
}

/// `c.mv` and `c.jr`.
#[inline(always)]
fn move_or_jump(bits: u32) -> Option<Compressed>
    requires opcode { HasOpcode bits 2 4 }
    requires bit_12 { bits / 2 ^ 12 % 2 ≡ 0 }
    ensures { IsRead result bits }
{
    let (rd, rs2) = (any_7(bits), any_2(bits));
    match (rd.number(), rs2.number()) {
        (0, 0) => None,
        (_, 0) => Some(Compressed::Jr { rs1: rd }),
        _ => Some(Compressed::Mv { rd, rs2 }),
    }
}

/// `c.add`, `c.jalr` and `c.ebreak`.
#[inline(always)]
fn add_or_call(bits: u32) -> Compressed
    requires opcode { HasOpcode bits 2 4 }
    requires bit_12 { bits / 2 ^ 12 % 2 ≡ 1 }
    ensures { IsForm result bits }
{
    let (rd, rs2) = (any_7(bits), any_2(bits));
    match (rd.number(), rs2.number()) {
        (0, 0) => Compressed::Ebreak,
        (_, 0) => Compressed::Jalr { rs1: rd },
        _ => Compressed::Add { rd, rs2 },
    }
}

/// The forms with two registers of five bits.
#[inline(always)]
fn registers(bits: u32) -> Option<Compressed>
    requires { HasOpcode bits 2 4 }
    ensures { IsRead result bits }
{
    if bits >> 12 & 1 == 0 {
        move_or_jump(bits)
    } else {
        Some(add_or_call(bits))
    }
}

#[inline(always)]
fn swsp(bits: u32) -> Compressed
    requires { HasOpcode bits 2 6 }
    ensures { IsForm result bits }
{
    let (rs2, offset) = (any_2(bits), word_store(bits));
    Compressed::Swsp { rs2, offset }
}

#[inline(always)]
fn sdsp(bits: u32) -> Compressed
    requires { HasOpcode bits 2 7 }
    ensures { IsForm result bits }
{
    let (rs2, offset) = (any_2(bits), double_store(bits));
    Compressed::Sdsp { rs2, offset }
}

/// The quadrant and funct3, each an octal digit: a parcel turned by the three bits of funct3 has both at its low end.
#[inline(always)]
fn selector_of(parcel: u16) -> u16
    ensures { result ≡ parcel % 4 * 8 + parcel / 2 ^ 13 }
{
    (parcel >> 13 | parcel << 3) & 0x1f
}

/// The form that a parcel spells, with its operands; HINTs are forms, reserved parcels and 0 none.
///
/// Unprivileged ISA 20191213, section 16.8.
#[inline(always)]
pub fn read(parcel: u16) -> Option<Compressed>
    ensures { IsRead result parcel }
{
    let bits = u32::from(parcel);
    match selector_of(parcel) {
        0o00 => addi4spn(bits),
        0o02 => Some(lw(bits)),
        0o03 => Some(ld(bits)),
        0o06 => Some(sw(bits)),
        0o07 => Some(sd(bits)),
        0o10 => Some(addi(bits)),
        0o11 => addiw(bits),
        0o12 => Some(li(bits)),
        0o13 => upper(bits),
        0o14 => short_arithmetic(bits),
        0o15 => Some(j(bits)),
        0o16 => Some(beqz(bits)),
        0o17 => Some(bnez(bits)),
        0o20 => Some(slli(bits)),
        0o22 => lwsp(bits),
        0o23 => ldsp(bits),
        0o24 => registers(bits),
        0o26 => Some(swsp(bits)),
        0o27 => Some(sdsp(bits)),
        // with all numbers of five bits named, one by one, LLVM asks for no bound
        0o01 => None,
        0o04 => None,
        0o05 => None,
        0o21 => None,
        0o25 => None,
        0o30 => None,
        0o31 => None,
        0o32 => None,
        0o33 => None,
        0o34 => None,
        0o35 => None,
        0o36 => None,
        0o37 => None,
        _ => None,
    }
}
