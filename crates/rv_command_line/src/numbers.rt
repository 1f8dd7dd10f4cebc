//! Numbers among the operands of a word.

use crate::operands::{Operands, Text};
use rv_numbers::decimal;

/// The number of an operand in digits alone, where it is there; `wanted` says what it should be.
pub(crate) fn count(
    operands: &mut Operands<'_, '_>,
    text: Text,
    wanted: &'static str,
) -> Option<u64> {
    let text = operands.optional(text)?;
    Some(number(operands, decimal(text), wanted))
}

/// The number that was read, or that it is wanted.
pub(crate) fn number(
    operands: &mut Operands<'_, '_>,
    read: Option<u64>,
    wanted: &'static str,
) -> u64 {
    if read.is_none() {
        operands.refuse(wanted);
    }
    read.unwrap_or(0)
}
