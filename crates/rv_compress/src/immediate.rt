//! The immediate fields of a parcel: from their scrambled bits to the number, and signs.
//!
//! Each function is named by the field of the manual's tables 16.5 to 16.7 that it gathers.

ghost use Rattle.std.specs.Prelude.{◌≡◌, ◌<◌, ◌^◌, ◌+◌, ◌≤ℤ◌, pos, negsuc, nat_lt, if◌then◌else◌};
ghost use Rattle.rv_isa_laws.specs.Word.{field};
ghost use Rattle.rv_parcel.specs.Parcel.{bits_at};

/// uimm[5:3] at 12:10, uimm[2|6] at 6:5.
#[inline]
pub fn word_offset(bits: u32) -> u32
    ensures { result ≡ bits_at bits 6 1 2 + bits_at bits 10 3 3 + bits_at bits 5 1 6 }
{
    (bits >> 6 & 1) << 2 | (bits >> 10 & 7) << 3 | (bits >> 5 & 1) << 6
}

/// uimm[5:3] at 12:10, uimm[7:6] at 6:5.
#[inline]
pub fn double_offset(bits: u32) -> u32
    ensures { result ≡ bits_at bits 10 3 3 + bits_at bits 5 2 6 }
{
    (bits >> 10 & 7) << 3 | (bits >> 5 & 3) << 6
}

/// uimm[5] at 12, uimm[4:0] at 6:2.
#[inline]
pub fn six(bits: u32) -> u32
    ensures { result ≡ bits_at bits 2 5 0 + bits_at bits 12 1 5 }
{
    bits >> 2 & 0x1f | (bits >> 12 & 1) << 5
}

/// nzuimm[5:4|9:6|2|3] at 12:5.
#[inline]
pub fn stack_address(bits: u32) -> u32
    ensures { result
        ≡ bits_at bits 6 1 2 + bits_at bits 5 1 3 + bits_at bits 11 2 4 + bits_at bits 7 4 6 }
{
    (bits >> 6 & 1) << 2 | (bits >> 5 & 1) << 3 | (bits >> 11 & 3) << 4 | (bits >> 7 & 0xf) << 6
}

/// nzimm[9] at 12, nzimm[4|6|8:7|5] at 6:2.
#[inline]
pub fn stack_step(bits: u32) -> u32
    ensures { result
        ≡ bits_at bits 6 1 4
        + bits_at bits 2 1 5
        + bits_at bits 5 1 6
        + bits_at bits 3 2 7
        + bits_at bits 12 1 9 }
{
    (bits >> 6 & 1) << 4
        | (bits >> 2 & 1) << 5
        | (bits >> 5 & 1) << 6
        | (bits >> 3 & 3) << 7
        | (bits >> 12 & 1) << 9
}

/// imm[11|4|9:8|10|6|7|3:1|5] of a jump, from the eleven bits that stand at 12:2.
#[inline]
pub fn jump_offset(bits: u32) -> u32
    ensures { result
        ≡ bits_at bits 1 3 1
        + bits_at bits 9 1 4
        + bits_at bits 0 1 5
        + bits_at bits 5 1 6
        + bits_at bits 4 1 7
        + bits_at bits 7 2 8
        + bits_at bits 6 1 10
        + bits_at bits 10 1 11 }
{
    let low = (bits >> 1 & 7) << 1 | (bits >> 9 & 1) << 4 | (bits & 1) << 5 | (bits >> 5 & 1) << 6;
    let high = bits >> 4 & 1 | (bits >> 7 & 3) << 1 | (bits >> 6 & 1) << 3 | (bits >> 10 & 1) << 4;
    low | high << 7
}

/// uimm[5] at 12, uimm[4:2|7:6] at 6:2.
#[inline]
pub fn word_load(bits: u32) -> u32
    ensures { result ≡ bits_at bits 4 3 2 + bits_at bits 12 1 5 + bits_at bits 2 2 6 }
{
    (bits >> 4 & 7) << 2 | (bits >> 12 & 1) << 5 | (bits >> 2 & 3) << 6
}

/// uimm[5] at 12, uimm[4:3|8:6] at 6:2.
#[inline]
pub fn double_load(bits: u32) -> u32
    ensures { result ≡ bits_at bits 5 2 3 + bits_at bits 12 1 5 + bits_at bits 2 3 6 }
{
    (bits >> 5 & 3) << 3 | (bits >> 12 & 1) << 5 | (bits >> 2 & 7) << 6
}

/// uimm[5:2|7:6] at 12:7.
#[inline]
pub fn word_store(bits: u32) -> u32
    ensures { result ≡ bits_at bits 9 4 2 + bits_at bits 7 2 6 }
{
    (bits >> 9 & 0xf) << 2 | (bits >> 7 & 3) << 6
}

/// uimm[5:3|8:6] at 12:7.
#[inline]
pub fn double_store(bits: u32) -> u32
    ensures { result ≡ bits_at bits 10 3 3 + bits_at bits 7 3 6 }
{
    (bits >> 10 & 7) << 3 | (bits >> 7 & 7) << 6
}

/// imm[4:0] at 6:2.
#[inline]
fn low_five(bits: u32) -> i32
    ensures { result ≡ pos (bits_at bits 2 5 0) }
{
    (bits >> 2 & 0x1f).cast_signed()
}

/// The worth of imm[5] at 12.
#[inline]
fn sixth(bits: u32) -> i32
    ensures { result ≡ pos (bits_at bits 12 1 5) }
{
    ((bits >> 12 & 1) << 5).cast_signed()
}

/// imm[5] at 12, imm[4:0] at 6:2: the low five bits, less 32 where the sixth is set.
#[inline]
pub fn signed_six(bits: u32) -> i32
    ensures low { negsuc 31 ≤ℤ result }
    ensures high { result ≤ℤ pos 31 }
    ensures same { field 6 result ≡ bits_at bits 2 5 0 + bits_at bits 12 1 5 }
{
    low_five(bits) - sixth(bits)
}

/// imm[4:3] at 11:10, imm[7:6|2:1|5] at 6:2.
#[inline]
fn low_eight(bits: u32) -> i32
    ensures { result
        ≡ pos (bits_at bits 3 2 1 + bits_at bits 10 2 3 + bits_at bits 2 1 5 + bits_at bits 5 2 6) }
{
    let low = (bits >> 3 & 3) << 1
        | (bits >> 10 & 3) << 3
        | (bits >> 2 & 1) << 5
        | (bits >> 5 & 3) << 6;
    low.cast_signed()
}

/// The worth of imm[8] at 12.
#[inline]
fn ninth(bits: u32) -> i32
    ensures { result ≡ pos (bits_at bits 12 1 8) }
{
    ((bits >> 12 & 1) << 8).cast_signed()
}

/// imm[8|4:3] at 12:10, imm[7:6|2:1|5] at 6:2: the low bits, less 256 where the ninth is set.
#[inline]
pub fn branch_offset(bits: u32) -> i32
    ensures low { negsuc 255 ≤ℤ result }
    ensures high { result ≤ℤ pos 255 }
    ensures same { field 9 result
        ≡ bits_at bits 3 2 1
        + bits_at bits 10 2 3
        + bits_at bits 2 1 5
        + bits_at bits 5 2 6
        + bits_at bits 12 1 8 }
{
    low_eight(bits) - ninth(bits)
}

/// Ten bits as a number with sign.
#[inline]
pub fn signed_10(value: u32) -> i32
    requires { value < 2 ^ 10 }
    ensures low { negsuc 511 ≤ℤ result }
    ensures high { result ≤ℤ pos 511 }
    ensures same { field 10 result ≡ value }
{
    (value << 22).cast_signed() >> 22
}

/// Twelve bits as a number with sign.
#[inline]
pub fn signed_12(value: u32) -> i32
    requires { value < 2 ^ 12 }
    ensures low { negsuc 2047 ≤ℤ result }
    ensures high { result ≤ℤ pos 2047 }
    ensures same { field 12 result ≡ value }
{
    (value << 20).cast_signed() >> 20
}

/// The low 20 bits of a number with sign of six bits.
#[inline]
pub fn upper_20(value: u32) -> u32
    requires { value < 2 ^ 6 }
    ensures { result ≡ (if nat_lt value 32 then value else value + 0xfffc0) }
{
    if value < 0x20 { value } else { value + 0xfffc0 }
}
