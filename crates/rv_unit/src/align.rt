//! Counts, alignments and sizes, by the values of their expressions.

ghost use Rattle.std.specs.Prelude.{◌≡◌, ◌≤◌, ◌+◌, ◌*◌, ◌-◌, ◌^◌, min, length, map};
ghost use Rattle.rv_statement_laws.specs.Widths.{width_bytes};
ghost use Rattle.rv_statement.specs.View.{quoted};
ghost use Rattle.rv_expression.specs.Eval.{IsOutcome};
ghost use Rattle.rv_expression_laws.specs.Values as values;
ghost use Rattle.rv_unit_laws.specs.Tables as laws;

use rv_expression::{SourceFault, Value, string_size};
use rv_statement_laws::Width;

/// The longest section, in bytes.
pub const LONGEST_SECTION: u64 = 1 << 28;

/// The greatest alignment, in bytes.
pub(crate) const GREATEST_ALIGNMENT: u64 = 4096;

/// Whether a number is a power of two below this one.
pub(crate) fn is_power_below(power: u32, number: u64) -> bool
    requires { power ≤ 63 }
    ensures { result ≡ laws.is_power_below power number }
{
    let mut remaining = power;
    while remaining > 0 {
        remaining -= 1;
        if number == 1 << remaining {
            return true;
        }
    }
    false
}

/// The alignment to the power of two that a value is; none where it can't be had.
pub fn power_alignment(value: Result<Value<'_>, SourceFault>) -> Option<u32>
    ensures { (v : values.Value) → IsOutcome value.entry 0 v → result ≡ laws.power_alignment v }
{
    match value {
        Ok(Value::Constant(power)) => if power < 13 { Some(1 << power) } else { None },
        Ok(Value::Symbolic(..)) => None,
        Ok(Value::Difference(..)) => None,
        Err(_) => None,
    }
}

/// The alignment of the bytes that a value is; none where it can't be had.
pub fn byte_alignment(value: Result<Value<'_>, SourceFault>) -> Option<u32>
    ensures { (v : values.Value) → IsOutcome value.entry 0 v → result ≡ laws.byte_alignment v }
{
    match value {
        Ok(Value::Constant(bytes)) => if is_power_below(63, bytes) && bytes <= GREATEST_ALIGNMENT {
            Some(bytes as u32)
        } else {
            None
        },
        Ok(Value::Symbolic(..)) => None,
        Ok(Value::Difference(..)) => None,
        Err(_) => None,
    }
}

/// The bytes that a value counts; none where it is no size.
pub(crate) fn counted(value: Result<Value<'_>, SourceFault>) -> u64
    ensures { (v : values.Value) → IsOutcome value.entry 0 v →
        result ≡ laws.or_none (laws.counted v) }
{
    match value {
        Ok(Value::Constant(count)) => if count < 1 << 63 { count } else { 0 },
        Ok(Value::Symbolic(..)) => 0,
        Ok(Value::Difference(..)) => 0,
        Err(_) => 0,
    }
}

/// The bytes from an offset to the next multiple of an alignment.
pub fn padding(alignment: Option<u32>, offset: u32) -> u64
    ensures { result ≡ laws.padding alignment offset }
{
    match alignment {
        None => 0,
        Some(0) => 0,
        Some(alignment) => {
            let alignment = u64::from(alignment);
            let offset = u64::from(offset);
            (offset + (alignment - 1)) / alignment * alignment - offset
        }
    }
}

/// The end of so many bytes at an offset, where they do not pass the longest section; else the offset.
pub(crate) fn end_within(offset: u32, bytes: u64) -> u32
    ensures { result ≡ offset + laws.within offset bytes }
{
    match u64::from(offset).checked_add(bytes) {
        Some(end) => if end <= LONGEST_SECTION {
            end as u32
        } else {
            offset
        },
        None => offset,
    }
}

/// The bytes of a value of data.
pub(crate) fn width_in_bytes(width: Width) -> u64
    ensures { result ≡ width_bytes width }
{
    match width {
        Width::Byte => 1,
        Width::Half => 2,
        Width::Word => 4,
        Width::Double => 8,
    }
}

/// The bytes of values of data, or as many as a number shows.
pub fn values_size(width: Width, count: usize) -> u64
    ensures { result ≡ min (width_bytes width * count) (2 ^ 64 - 1) }
{
    width_in_bytes(width).saturating_mul(count as u64)
}

/// The bytes of strings, where asked with a zero byte after each, or as many as a number shows.
pub fn strings_size(ended: bool, strings: &[&[u8]]) -> u64
    ensures { result
        ≡ min (length (laws.string_bytes ended (map quoted strings.now))) (2 ^ 64 - 1) }
{
    let mut size: u64 = 0;
    for text in strings {
        size = size.saturating_add(string_size(text) as u64);
        size = size.saturating_add(u64::from(ended));
    }
    size
}
