//! Warnings as remarks: where they stand, and their sentences.

use crate::addresses::put_misaligned;
use crate::calls::put_calls;
use crate::conventions::put_conventions;
use crate::data::{put_cut, put_lost, put_unloaded};
use crate::ends::put_ends;
use crate::facts::Facts;
use crate::warning::{Doubt, Warning};
use rv_fault_texts::{Remark, statement_in_line};
use rv_statement::{Statement, Statements, Width};
use std::alloc::{AllocError, Global};

/// Adds the warnings of a source without a fault, by the index of its file, from 0, and the text of its program's map; at
/// most so many. `is_alone` says that the program has no other source.
pub fn put_warnings(
    alloc: Global,
    file: usize,
    source: &[u8],
    map: &[u8],
    is_alone: bool,
    most: usize,
    remarks: &mut Vec<Remark>,
) -> Result<(), AllocError> {
    let given = Given {
        file,
        source,
        map,
        is_alone,
    };
    // a statement's long drop is repeated at each way out of its owner, so its owner has one
    let mut room = Statements::room();
    put_warnings_of(alloc, &given, most, &mut room, remarks)
}

/// A source: the index of its file, its text, the text of its program's map, and whether the program has no other.
#[derive(Clone, Copy, Drop)]
struct Given<'a> {
    file: usize,
    source: &'a [u8],
    map: &'a [u8],
    is_alone: bool,
}

/// Adds the warnings of a source. All passes read its statements into the same room.
fn put_warnings_of<'a>(
    alloc: Global,
    given: &Given<'a>,
    most: usize,
    room: &mut Statement<'a>,
    remarks: &mut Vec<Remark>,
) -> Result<(), AllocError> {
    match Facts::of(alloc, given.source, room)? {
        Some(facts) => put_remarks(alloc, given, &facts, most, room, remarks),
        None => Ok(()),
    }
}

/// Adds what is said of the warnings of a source.
fn put_remarks<'a>(
    alloc: Global,
    given: &Given<'a>,
    facts: &Facts<'a>,
    most: usize,
    room: &mut Statement<'a>,
    remarks: &mut Vec<Remark>,
) -> Result<(), AllocError> {
    let mut found = Vec::new(alloc);
    put_found(alloc, given, facts, room, &mut found)?;
    for warning in found.iter().take(most) {
        if let Some(remark) = remark_of(alloc, given, facts, warning, room)? {
            remarks.push(remark)?;
        }
    }
    Ok(())
}

/// Adds the warnings of a source, kind by kind.
fn put_found<'a>(
    alloc: Global,
    given: &Given<'a>,
    facts: &Facts<'a>,
    room: &mut Statement<'a>,
    found: &mut Vec<Warning>,
) -> Result<(), AllocError> {
    put_calls(facts, facts.sets_number() || !given.is_alone, room, found)?;
    put_conventions(alloc, facts, room, found)?;
    put_ends(alloc, facts, room, found)?;
    put_cut(facts, room, found)?;
    put_unloaded(facts, room, found)?;
    put_misaligned(alloc, facts, given.file, given.map, room, found)?;
    put_lost(alloc, facts, room, found)
}

/// What is said of a warning, where its statement is found in its line.
fn remark_of<'a>(
    alloc: Global,
    given: &Given<'a>,
    facts: &Facts<'a>,
    warning: &Warning,
    room: &mut Statement<'a>,
) -> Result<Option<Remark>, AllocError> {
    let Some((line, rank)) = line_of(facts, warning.index, room) else {
        return Ok(None);
    };
    let Some(shown) = statement_in_line(alloc, given.source, line, rank)? else {
        return Ok(None);
    };
    let mut remark = Remark::new(alloc);
    remark.show(given.file, given.source, line, shown)?;
    put_doubt(alloc, &mut remark.sentence, warning.doubt)?;
    Ok(Some(remark))
}

/// The line of the statement at an index, and how many statements of the line stand before it.
fn line_of<'a>(facts: &Facts<'a>, index: usize, room: &mut Statement<'a>) -> Option<(u32, usize)> {
    let statements = facts.unit.statements();
    if statements.len() <= index {
        return None;
    }
    let line = statements.read(index, room).line;
    let mut rank = 0usize;
    for before in (0..index).rev() {
        if statements.read(before, room).line != line {
            break;
        }
        rank = rank.saturating_add(1);
    }
    Some((line, rank))
}

/// Adds what may be wrong, and the cure.
fn put_doubt(alloc: Global, text: &mut String, doubt: Doubt) -> Result<(), AllocError> {
    match doubt {
        Doubt::UnknownCall(number) => put_unknown_call(alloc, text, number),
        Doubt::WrongFile(number, file) => put_wrong_file(alloc, text, number, file),
        Doubt::LostRegister(register) => {
            text.push_str(register.abi_name())?;
            text.push_str(
                " is the caller's: save it on the stack before, and load it again before ret",
            )
        }
        Doubt::Cut(width, number) => put_cut_number(alloc, text, width, number),
        Doubt::Misaligned(address, width) => {
            let told = format!(in alloc;
                "the address {address:x}h is no multiple of {width}, the width; .balign {width} before the label, or another offset, makes it one"
            )?;
            text.push_str(told.as_str())
        }
        Doubt::NoNumber => text.push_str(
            "nothing sets a7, the number of the call, before: 63 reads, 64 writes, 93 exits; Venus has it in a0",
        ),
        Doubt::LostReturn => text.push_str(
            "this overwrites ra, by which the function returns: save ra on the stack before, and load it again before ret",
        ),
        Doubt::NotLoaded(register) => {
            text.push_str(register.abi_name())?;
            text.push_str(
                " is saved here and changed below, but a way to ret does not load it again",
            )
        }
        Doubt::StackShifted(distance) => {
            let told = format!(in alloc;
                "sp is {distance} below where the function found it: add before ret what was taken from it"
            )?;
            text.push_str(told.as_str())
        }
        Doubt::StackOff => text.push_str(
            "sp is no multiple of 16 at this call, as the calling convention wants: move it by a multiple of 16",
        ),
        Doubt::Unloaded => text.push_str(
            "a program has no bytes of this section, whose name has no flags: .data, .rodata and .bss are loaded, or one with flags, as \"aw\"",
        ),
        Doubt::Lost => text.push_str(
            "this is 0: of a section that is not loaded only numbers are kept, unless rv as, rv build and rv ld have -g",
        ),
        Doubt::RunsOff => text.push_str(
            "the run goes on behind this, where nothing stands: end it by call 93 (li a7, 93; ecall), or a function by ret",
        ),
        Doubt::FallsInto => text.push_str(
            "the run goes on from here into the function below: end it by call 93 (li a7, 93; ecall), or a function by ret",
        ),
    }
}

/// Adds what is said of a call that there is not, and what another simulator does by it.
fn put_unknown_call(alloc: Global, text: &mut String, number: u64) -> Result<(), AllocError> {
    let told = format!(in alloc; "call {number} is not one of 63, 64, 93")?;
    text.push_str(told.as_str())?;
    text.push_str(match number {
        1 | 4 | 11 | 34 | 35 | 36 => {
            ": RARS prints so; here 64 writes a2 bytes from a1, with a0 = 1, and a number's digits are made first"
        }
        5 | 8 | 12 => { ": RARS reads so; here 63 reads a2 bytes to a1, with a0 = 0" }
        10 => ": RARS's exit is 93 here",
        17 => ": RARS's exit with a status is 93 here",
        9 | 214 => ": no memory is given; .bss or the stack has room",
        _ => ", and answers -38",
    })
}

/// Adds what is said of a call of another file than there is.
fn put_wrong_file(
    alloc: Global,
    text: &mut String,
    number: u64,
    file: u64,
) -> Result<(), AllocError> {
    let wanted = if number == 63 {
        "reads only where a0 is 0"
    } else {
        "writes only where a0 is 1 or 2"
    };
    let told = format!(in alloc; "call {number} {wanted}; here it is {file}, so nothing is moved")?;
    text.push_str(told.as_str())
}

/// Adds what is said of a number that has no room.
fn put_cut_number(
    alloc: Global,
    text: &mut String,
    width: Width,
    number: u64,
) -> Result<(), AllocError> {
    let room = match width {
        Width::Byte => "a byte holds -128 to 255",
        Width::Half => "2 bytes hold -32768 to 65535",
        _ => "4 bytes hold -2147483648 to 4294967295",
    };
    let shown = number.cast_signed();
    let told = format!(in alloc; "{shown} is cut: {room}")?;
    text.push_str(told.as_str())
}
