//! Numbers in two's complement at 12, 13 and 21 bits.

ghost use Rattle.std.specs.Prelude.{◌≡◌, ◌/◌, ◌^◌, ◌<◌, ◌≤◌, ◌%◌, ◌*◌, ◌⊎◌};
ghost use Rattle.rv_isa.specs.Ranges.{IsSigned12, IsBranchOffset, IsJumpOffset};
ghost use Rattle.rv_isa_laws.specs.Word.{field};

/// An immediate's low 12 bits.
#[inline]
pub(crate) fn field_12(value: i32) -> u32
    requires { IsSigned12 value }
    ensures { result ≡ field 12 value }
{
    value.cast_unsigned() & 0xfff
}

/// A branch offset's low 13 bits.
#[inline]
pub(crate) fn field_13(value: i32) -> u32
    requires { IsBranchOffset value }
    ensures value { result ≡ field 13 value }
    ensures even { result % 2 ≡ 0 }
{
    value.cast_unsigned() & 0x1fff
}

/// A jump offset's low 21 bits.
#[inline]
pub(crate) fn field_21(value: i32) -> u32
    requires { IsJumpOffset value }
    ensures value { result ≡ field 21 value }
    ensures even { result % 2 ≡ 0 }
{
    value.cast_unsigned() & 0x1f_ffff
}

/// The 12 bits from bit 20 on, with their sign.
#[inline(always)]
pub(crate) fn upper_12(bits: u32) -> i32
    ensures range { IsSigned12 result }
    ensures same { field 12 result ≡ bits / 2 ^ 20 }
{
    bits.cast_signed() >> 20
}

/// The same modulo 2^32.
#[inline(always)]
pub(crate) fn spread_12(bits: u32) -> u32
    ensures low { result % 2 ^ 12 ≡ bits / 2 ^ 20 }
    ensures high { result / 2 ^ 12 ≡ bits / 2 ^ 31 * 1048575 }
{
    upper_12(bits).cast_unsigned()
}

/// The branch offset that is this modulo 2^32.
#[inline(always)]
pub(crate) fn signed_13(word: u32) -> i32
    requires range { (word < 2 ^ 12) ⊎ (4294963200 ≤ word) }
    requires even { word % 2 ≡ 0 }
    ensures range { IsBranchOffset result }
    ensures same { field 13 result ≡ word % 2 ^ 13 }
{
    word.cast_signed()
}

/// The jump offset with these low 21 bits.
#[inline(always)]
pub(crate) fn signed_21(bits: u32) -> i32
    requires below { bits < 2 ^ 21 }
    requires even { bits % 2 ≡ 0 }
    ensures range { IsJumpOffset result }
    ensures same { field 21 result ≡ bits }
{
    (bits << 11).cast_signed() >> 11
}
