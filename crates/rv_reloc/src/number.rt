//! Numbers: those of a field's bytes, and a value's bits and halves.

ghost use Rattle.std.specs.Prelude.{◌≡◌, ◌<◌, ◌*◌, ◌^◌, pos, ◌+ℤ◌, ◌-ℤ◌, length};
ghost use Rattle.rv_isa_laws.specs.Bytes.{little_endian, number_in};
ghost use Rattle.rv_isa_laws.specs.Halves.{hi, lo};
ghost use Rattle.rv_reloc_laws.specs.Fields.{modulo, IsFieldWidth};

/// The number of a field's bytes, the lowest first.
pub(crate) fn number(field: &[u8]) -> u64
    requires { IsFieldWidth (length field.now) }
    ensures value { result ≡ number_in field.now }
    ensures below { result < 2 ^ (8 * length field.now) }
{
    match field {
        [] => 0,
        [a] => u64::from(*a),
        [a, b] => u64::from(u16::from_le_bytes([*a, *b])),
        [a, b, c, d] => u64::from(u32::from_le_bytes([*a, *b, *c, *d])),
        [a, b, c, d, e, f, g, h] => u64::from_le_bytes([*a, *b, *c, *d, *e, *f, *g, *h]),
        _ => 0,
    }
}

/// Writes a number to the field, the lowest byte first, modulo the field's width.
pub(crate) fn put(field: &mut [u8], number: u64)
    requires { IsFieldWidth (length field.old) }
    ensures { field.new ≡ little_endian (length field.old) number }
{
    let bytes = number.to_le_bytes();
    match field.len() {
        1 => field.copy_from_slice(&bytes[..1]),
        2 => field.copy_from_slice(&bytes[..2]),
        4 => field.copy_from_slice(&bytes[..4]),
        8 => field.copy_from_slice(&bytes),
        _ => {}
    }
}

/// The sum modulo 2^64.
pub(crate) fn sum(number: u64, value: i64) -> u64
    ensures { result ≡ modulo 64 (pos number +ℤ value) }
{
    number.wrapping_add(value.cast_unsigned())
}

/// The difference modulo 2^64.
pub(crate) fn difference(number: u64, value: i64) -> u64
    ensures { result ≡ modulo 64 (pos number -ℤ value) }
{
    number.wrapping_sub(value.cast_unsigned())
}

/// The value in two's complement: modulo 2^64.
pub(crate) fn low_64(value: i64) -> u64
    ensures { result ≡ modulo 64 value }
{
    value.cast_unsigned()
}

/// The low 6 bits of a value in two's complement.
pub(crate) fn low_6(value: i64) -> u64
    ensures value { result ≡ modulo 6 value }
    ensures below { result < 2 ^ 6 }
{
    value.cast_unsigned() & 0x3f
}

/// The low 9 bits of a value in two's complement.
pub(crate) fn low_9(value: i64) -> u64
    ensures value { result ≡ modulo 9 value }
    ensures below { result < 2 ^ 9 }
{
    value.cast_unsigned() & 0x1ff
}

/// The low 12 bits of a value in two's complement.
pub(crate) fn low_12(value: i64) -> u64
    ensures value { result ≡ modulo 12 value }
    ensures below { result < 2 ^ 12 }
{
    value.cast_unsigned() & 0xfff
}

/// The low 13 bits of a value in two's complement.
pub(crate) fn low_13(value: i64) -> u64
    ensures value { result ≡ modulo 13 value }
    ensures below { result < 2 ^ 13 }
{
    value.cast_unsigned() & 0x1fff
}

/// The low 21 bits of a value in two's complement.
pub(crate) fn low_21(value: i64) -> u64
    ensures value { result ≡ modulo 21 value }
    ensures below { result < 2 ^ 21 }
{
    value.cast_unsigned() & 0x1f_ffff
}

/// The low 20 bits of the upper half, as `lui` and `auipc` take it.
pub(crate) fn upper(value: i64) -> u64
    ensures value { result ≡ modulo 20 (hi value) }
    ensures below { result < 2 ^ 20 }
{
    let rounded = value.cast_unsigned().wrapping_add(0x800);
    rounded >> 12 & 0xf_ffff
}

/// The low 12 bits of the lower half, which are those of the value.
#[tactic(auto, using(crate::proofs::HalvesLemmas::lo_keeps))]
pub(crate) fn lower(value: i64) -> u64
    ensures value { result ≡ modulo 12 (lo value) }
    ensures below { result < 2 ^ 12 }
{
    low_12(value)
}
