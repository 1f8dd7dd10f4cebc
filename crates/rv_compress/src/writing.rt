//! From a form to the parcel that spells it.

ghost use Rattle.std.specs.Prelude.{◌≡◌, ◌<◌, ◌%◌, ◌^◌, ◌*◌, ◌+◌};
ghost use Rattle.rv_isa_laws.specs.Word.{field};
ghost use Rattle.rv_parcel.specs.Parcel.{
  IsBranch,
  IsJump,
  IsLine,
  IsSixBits,
  IsStackStep,
  arithmetic,
  bits_at,
  branch_offset,
  double_load,
  double_offset,
  double_store,
  jump_offset,
  opcode,
  parcel,
  six,
  stack_address,
  stack_step,
  word_load,
  word_offset,
  word_store,
};

use rv_isa::Reg;
use rv_parcel::Compressed;

/// The number of a register, for a field of five bits.
fn five(register: Reg) -> u32
    ensures below { result < 2 ^ 5 }
    ensures same { result ≡ register }
{
    u32::from(register.number())
}

/// The low three bits of a register of x8 to x15.
fn three(register: Reg) -> u32
    ensures below { result < 2 ^ 3 }
    ensures same { result ≡ register % 8 }
{
    u32::from(register.number()) & 7
}

/// The formats CR and CI: five bits at 6:2, a register's field at 11:7, one bit at 12.
fn wide_format(quadrant: u32, low: u32, middle: u32, high: u32, funct3: u32) -> u16
    requires quadrant { quadrant < 2 ^ 2 }
    requires low { low < 2 ^ 5 }
    requires middle { middle < 2 ^ 5 }
    requires high { high < 2 }
    requires funct3 { funct3 < 2 ^ 3 }
    ensures { result ≡ quadrant + low * 2 ^ 2 + middle * 2 ^ 7 + high * 2 ^ 12 + funct3 * 2 ^ 13 }
{
    (quadrant | low << 2 | middle << 7 | high << 12 | funct3 << 13) as u16
}

/// The formats CL, CS, CA and CB: fields at 4:2, 6:5, 9:7 and 12:10.
fn short_format(quadrant: u32, low: u32, two: u32, middle: u32, high: u32, funct3: u32) -> u16
    requires quadrant { quadrant < 2 ^ 2 }
    requires low { low < 2 ^ 3 }
    requires two { two < 2 ^ 2 }
    requires middle { middle < 2 ^ 3 }
    requires high { high < 2 ^ 3 }
    requires funct3 { funct3 < 2 ^ 3 }
    ensures { result
        ≡ quadrant + low * 2 ^ 2 + two * 2 ^ 5 + middle * 2 ^ 7 + high * 2 ^ 10 + funct3 * 2 ^ 13 }
{
    (quadrant | low << 2 | two << 5 | middle << 7 | high << 10 | funct3 << 13) as u16
}

/// The formats CSS and CJ: five bits at 6:2, six at 12:7.
fn split_format(quadrant: u32, low: u32, high: u32, funct3: u32) -> u16
    requires quadrant { quadrant < 2 ^ 2 }
    requires low { low < 2 ^ 5 }
    requires high { high < 2 ^ 6 }
    requires funct3 { funct3 < 2 ^ 3 }
    ensures { result ≡ quadrant + low * 2 ^ 2 + high * 2 ^ 7 + funct3 * 2 ^ 13 }
{
    (quadrant | low << 2 | high << 7 | funct3 << 13) as u16
}

/// A form with six bits, at 12 and 6:2.
fn six_format(quadrant: u32, value: u32, middle: u32, funct3: u32) -> u16
    requires quadrant { quadrant < 2 ^ 2 }
    requires middle { middle < 2 ^ 5 }
    requires funct3 { funct3 < 2 ^ 3 }
    ensures { result ≡ opcode quadrant funct3 + six value + middle * 2 ^ 7 }
{
    wide_format(quadrant, value & 0x1f, middle, value >> 5 & 1, funct3)
}

/// The low six bits of a number with sign.
fn field_6(value: i32) -> u32
    requires { IsSixBits value }
    ensures { result ≡ field 6 value }
{
    value.cast_unsigned() & 0x3f
}

/// The low nine bits of a number with sign.
fn field_9(value: i32) -> u32
    requires { IsBranch value }
    ensures { result ≡ field 9 value }
{
    value.cast_unsigned() & 0x1ff
}

/// The low ten bits of a number with sign.
fn field_10(value: i32) -> u32
    requires { IsStackStep value }
    ensures { result ≡ field 10 value }
{
    value.cast_unsigned() & 0x3ff
}

/// The low twelve bits of a number with sign.
fn field_12(value: i32) -> u32
    requires { IsJump value }
    ensures { result ≡ field 12 value }
{
    value.cast_unsigned() & 0xfff
}

/// `c.addi4spn`.
fn stack_address_format(rd: Reg, immediate: u32) -> u16
    ensures { result ≡ opcode 0 0 + stack_address immediate + rd % 8 * 2 ^ 2 }
{
    let low = immediate >> 3 & 1 | (immediate >> 2 & 1) << 1 | (immediate >> 6 & 0xf) << 2;
    let high = low | (immediate >> 4 & 3) << 6;
    (three(rd) << 2 | high << 5) as u16
}

/// `c.lw` and `c.sw`; `other` is the register at 4:2.
fn word_format(rs1: Reg, other: Reg, offset: u32, funct3: u32) -> u16
    requires { funct3 < 2 ^ 3 }
    ensures { result ≡ opcode 0 funct3 + word_offset offset + rs1 % 8 * 2 ^ 7 + other % 8 * 2 ^ 2 }
{
    let two = offset >> 6 & 1 | (offset >> 2 & 1) << 1;
    short_format(0, three(other), two, three(rs1), offset >> 3 & 7, funct3)
}

/// `c.ld` and `c.sd`; `other` is the register at 4:2.
fn double_format(rs1: Reg, other: Reg, offset: u32, funct3: u32) -> u16
    requires { funct3 < 2 ^ 3 }
    ensures { result
        ≡ opcode 0 funct3 + double_offset offset + rs1 % 8 * 2 ^ 7 + other % 8 * 2 ^ 2 }
{
    short_format(
        0,
        three(other),
        offset >> 6 & 3,
        three(rs1),
        offset >> 3 & 7,
        funct3,
    )
}

/// `c.addi16sp`.
fn stack_step_format(value: u32) -> u16
    requires { value < 2 ^ 10 }
    ensures { result ≡ opcode 1 3 + stack_step value + 2 * 2 ^ 7 }
{
    let low = value >> 5 & 1
        | (value >> 7 & 3) << 1
        | (value >> 6 & 1) << 3
        | (value >> 4 & 1) << 4;
    wide_format(1, low, 2, value >> 9 & 1, 3)
}

/// `c.j`.
fn jump_format(value: u32) -> u16
    ensures { result ≡ opcode 1 5 + jump_offset value }
{
    let low = value >> 5 & 1 | (value >> 1 & 7) << 1 | (value >> 7 & 1) << 4;
    let middle = value >> 6 & 1 | (value >> 10 & 1) << 1 | (value >> 8 & 3) << 2;
    let high = value >> 4 & 1 | (value >> 11 & 1) << 1;
    split_format(1, low, middle | high << 4, 5)
}

/// `c.beqz` and `c.bnez`.
fn branch_format(rs1: Reg, value: u32, funct3: u32) -> u16
    requires { funct3 < 2 ^ 3 }
    ensures { result ≡ opcode 1 funct3 + branch_offset value + rs1 % 8 * 2 ^ 7 }
{
    let low = value >> 5 & 1 | (value >> 1 & 3) << 1 | (value >> 6 & 3) << 3;
    let high = value >> 3 & 3 | (value >> 8 & 1) << 2;
    short_format(1, low & 7, low >> 3, three(rs1), high, funct3)
}

/// Arithmetic of x8 to x15; the low bit of `select` at 12, funct2 at 6:5.
fn arithmetic_format(bit_12: u32, funct2: u32, rd: Reg, rs2: Reg) -> u16
    requires bit_12 { bit_12 < 2 }
    requires funct2 { funct2 < 4 }
    ensures { result ≡ arithmetic bit_12 funct2 rd rs2 }
{
    short_format(1, three(rs2), funct2, three(rd), bit_12 << 2 | 3, 4)
}

/// `c.srli`, `c.srai` and `c.andi`, by funct2 at 11:10.
fn short_six_format(funct2: u32, rd: Reg, value: u32) -> u16
    requires funct2 { funct2 < 4 }
    ensures { result ≡ opcode 1 4 + funct2 * 2 ^ 10 + six value + rd % 8 * 2 ^ 7 }
{
    six_format(1, value, three(rd) | funct2 << 3, 4)
}

/// `c.lwsp`.
fn word_load_format(rd: Reg, offset: u32) -> u16
    ensures { result ≡ opcode 2 2 + word_load offset + rd * 2 ^ 7 }
{
    wide_format(
        2,
        offset >> 6 & 3 | (offset >> 2 & 7) << 2,
        five(rd),
        offset >> 5 & 1,
        2,
    )
}

/// `c.ldsp`.
fn double_load_format(rd: Reg, offset: u32) -> u16
    ensures { result ≡ opcode 2 3 + double_load offset + rd * 2 ^ 7 }
{
    wide_format(
        2,
        offset >> 6 & 7 | (offset >> 3 & 3) << 3,
        five(rd),
        offset >> 5 & 1,
        3,
    )
}

/// `c.swsp`.
fn word_store_format(rs2: Reg, offset: u32) -> u16
    ensures { result ≡ opcode 2 6 + word_store offset + rs2 * 2 ^ 2 }
{
    split_format(2, five(rs2), offset >> 6 & 3 | (offset >> 2 & 0xf) << 2, 6)
}

/// `c.sdsp`.
fn double_store_format(rs2: Reg, offset: u32) -> u16
    ensures { result ≡ opcode 2 7 + double_store offset + rs2 * 2 ^ 2 }
{
    split_format(2, five(rs2), offset >> 6 & 7 | (offset >> 3 & 7) << 3, 7)
}

/// The parcel that spells a form with its operands.
///
/// Unprivileged ISA 20191213, section 16.8.
pub fn write(form: Compressed) -> u16
    requires { IsLine form }
    ensures { result ≡ parcel form }
{
    match form {
        Compressed::Addi4spn { rd, immediate } => stack_address_format(rd, immediate),
        Compressed::Lw { rd, rs1, offset } => word_format(rs1, rd, offset, 2),
        Compressed::Ld { rd, rs1, offset } => double_format(rs1, rd, offset, 3),
        Compressed::Sw { rs1, rs2, offset } => word_format(rs1, rs2, offset, 6),
        Compressed::Sd { rs1, rs2, offset } => double_format(rs1, rs2, offset, 7),
        Compressed::Nop { immediate } => six_format(1, field_6(immediate), 0, 0),
        Compressed::Addi { rd, immediate } => six_format(1, field_6(immediate), five(rd), 0),
        Compressed::Addiw { rd, immediate } => six_format(1, field_6(immediate), five(rd), 1),
        Compressed::Li { rd, immediate } => six_format(1, field_6(immediate), five(rd), 2),
        Compressed::Addi16sp { immediate } => stack_step_format(field_10(immediate)),
        Compressed::Lui { rd, immediate } => six_format(1, immediate, five(rd), 3),
        Compressed::Srli { rd, amount } => short_six_format(0, rd, u32::from(amount)),
        Compressed::Srai { rd, amount } => short_six_format(1, rd, u32::from(amount)),
        Compressed::Andi { rd, immediate } => short_six_format(2, rd, field_6(immediate)),
        Compressed::Sub { rd, rs2 } => arithmetic_format(0, 0, rd, rs2),
        Compressed::Xor { rd, rs2 } => arithmetic_format(0, 1, rd, rs2),
        Compressed::Or { rd, rs2 } => arithmetic_format(0, 2, rd, rs2),
        Compressed::And { rd, rs2 } => arithmetic_format(0, 3, rd, rs2),
        Compressed::Subw { rd, rs2 } => arithmetic_format(1, 0, rd, rs2),
        Compressed::Addw { rd, rs2 } => arithmetic_format(1, 1, rd, rs2),
        Compressed::J { offset } => jump_format(field_12(offset)),
        Compressed::Beqz { rs1, offset } => branch_format(rs1, field_9(offset), 6),
        Compressed::Bnez { rs1, offset } => branch_format(rs1, field_9(offset), 7),
        Compressed::Slli { rd, amount } => six_format(2, u32::from(amount), five(rd), 0),
        Compressed::Lwsp { rd, offset } => word_load_format(rd, offset),
        Compressed::Ldsp { rd, offset } => double_load_format(rd, offset),
        Compressed::Jr { rs1 } => wide_format(2, 0, five(rs1), 0, 4),
        Compressed::Mv { rd, rs2 } => wide_format(2, five(rs2), five(rd), 0, 4),
        Compressed::Ebreak => wide_format(2, 0, 0, 1, 4),
        Compressed::Jalr { rs1 } => wide_format(2, 0, five(rs1), 1, 4),
        Compressed::Add { rd, rs2 } => wide_format(2, five(rs2), five(rd), 1, 4),
        Compressed::Swsp { rs2, offset } => word_store_format(rs2, offset),
        Compressed::Sdsp { rs2, offset } => double_store_format(rs2, offset),
    }
}
