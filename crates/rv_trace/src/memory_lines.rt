//! The memory around an address, and the stack, as they are when a run ends.

use crate::columns::put;
use crate::parts::Part::{Fixed, Small, Symbol, Text};
use crate::parts::put_parts;
use crate::places::Places;
use rv_image::{STACK_BYTES, STACK_START};
use rv_isa::Reg;
use rv_machine::Watched;
use rv_memory::{Memory, Right};
use std::alloc::AllocError;

/// How many words before an access are shown, and with it in all.
const BEFORE: u64 = 4;

const WORDS: u64 = 8;
/// How many double words below sp are shown, and in all.
const BELOW: u64 = 2;

const DOUBLES: u64 = 10;

/// Adds the words around the address of an access, if there is one, as far as they may be read.
pub(crate) fn put_words_around<M: Memory>(
    text: &mut Vec<u8>,
    machine: &Watched<M>,
    places: &Places<'_>,
    address: Option<u64>,
) -> Result<(), AllocError> {
    let Some(address) = address else {
        return Ok(());
    };
    let aligned = address.wrapping_sub(address % 4);
    let mut has_heading = false;
    for number in 0..WORDS {
        let place = aligned.wrapping_sub(BEFORE * 4).wrapping_add(number * 4);
        if let Some(word) = machine.memory().try_load(place, 4, Right::Read) {
            if !has_heading {
                put(text, "memory around the access\n")?;
            }
            has_heading = true;
            put_word(text, places, place, (word, 4), place == aligned)?;
        }
    }
    Ok(())
}

/// Adds the double words around sp, where it points into the stack.
pub(crate) fn put_stack<M: Memory>(
    text: &mut Vec<u8>,
    machine: &Watched<M>,
    places: &Places<'_>,
) -> Result<(), AllocError> {
    let pointer = machine.register(Reg::SP);
    if STACK_BYTES as u64 <= pointer.wrapping_sub(STACK_START) {
        return Ok(());
    }
    put(text, "stack\n")?;
    for number in 0..DOUBLES {
        let place = pointer.wrapping_sub(BELOW * 8).wrapping_add(number * 8);
        if let Some(word) = machine.memory().try_load(place, 8, Right::Read) {
            put_word(text, places, place, (word, 8), place == pointer)?;
        }
    }
    Ok(())
}

/// Adds the line of a value of so many bytes: its address, the value, that in decimal where it is small, and the symbol that it points into;
/// with a sign before it where it is the one that is looked for.
fn put_word(
    text: &mut Vec<u8>,
    places: &Places<'_>,
    address: u64,
    value: (u64, u64),
    is_wanted: bool,
) -> Result<(), AllocError> {
    let pointer = if value.1 == 8 { value.0 } else { address };
    put_parts(
        text,
        &[
            Text(if is_wanted { "> " } else { "  " }),
            Fixed(address, 8),
            Text(" "),
            Fixed(value.0, value.1),
            Small(signed(value)),
            Symbol(places.symbol_at(pointer)),
            Text("\n"),
        ],
    )
}

/// A value of so many bytes with its sign, modulo 2^64.
fn signed(value: (u64, u64)) -> u64 {
    if value.1 == 8 {
        return value.0;
    }
    let word = (value.0 % 0x1_0000_0000) as u32;
    i64::from(word.cast_signed()).cast_unsigned()
}
