//! Which numbers a `c.` mnemonic takes, in words: the table of the short forms is asked for each.

use rv_parcel::{OperandShape, ParcelOperation};
use rv_parse_words::Beginning;
use rv_parse_words::words::beginning_with;
use rv_statement_laws::Mnemonic;
use std::alloc::{AllocError, Global};

/// No number of a parcel has more than eleven bits.
const LEAST: i64 = -1024;

const GREATEST: i64 = 1023;
/// What stands in the place of a negative number where its upper 20 bits are written, as of `c.lui`.
const UPPER: i64 = 1 << 20;

/// The `c.` mnemonic of this name, if it takes a number.
pub(crate) fn parcel_named(name: &[u8]) -> Option<ParcelOperation> {
    let operation = match beginning_with(name) {
        Beginning::Instruction(mnemonic) => parcel_of(mnemonic)?,
        _ => return None,
    };
    match operation.shape() {
        OperandShape::Number | OperandShape::Address => Some(operation),
        _ => None,
    }
}

fn parcel_of(mnemonic: Mnemonic) -> Option<ParcelOperation> {
    match mnemonic {
        Mnemonic::Parcel(operation) => Some(operation),
        _ => None,
    }
}

/// The numbers that a mnemonic takes.
pub(crate) fn numbers_of(alloc: Global, operation: ParcelOperation) -> Result<String, AllocError> {
    let least = first_taken(operation, LEAST, GREATEST);
    let greatest = last_taken(operation, LEAST, GREATEST);
    let next = first_taken(operation, least.saturating_add(1), GREATEST);
    let unit = next.saturating_sub(least);
    let mut text = if unit == 1 {
        format!(in alloc; "{least} to {greatest}")?
    } else {
        format!(in alloc; "a multiple of {unit} from {least} to {greatest}")?
    };
    if least < 0 && !operation.takes(0) {
        text.push_str(" but 0")?;
    }
    if operation.takes(UPPER - 1) {
        put_upper(alloc, &mut text, operation)?;
    }
    Ok(text)
}

/// Adds the numbers whose upper 20 bits are those of negative ones.
fn put_upper(
    alloc: Global,
    text: &mut String,
    operation: ParcelOperation,
) -> Result<(), AllocError> {
    let least = first_taken(operation, UPPER + LEAST, UPPER - 1);
    let greatest = UPPER - 1;
    let added = format!(in alloc; " or 0x{least:x} to 0x{greatest:x}")?;
    text.push_str(added.as_str())
}

/// The first number from one to another that a mnemonic takes; else the other.
fn first_taken(operation: ParcelOperation, from: i64, to: i64) -> i64 {
    for number in from..to {
        if operation.takes(number) {
            return number;
        }
    }
    to
}

/// The last number from one to another that a mnemonic takes; else the former.
fn last_taken(operation: ParcelOperation, from: i64, to: i64) -> i64 {
    let mut last = from;
    for number in from..=to {
        if operation.takes(number) {
            last = number;
        }
    }
    last
}
