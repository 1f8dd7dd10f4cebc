//! How what was made, or why it was not, is given to the caller.

ghost use Rattle.std.specs.Prelude.{◌≡◌, ◌&&◌, [], length};
ghost use Rattle.rv_system.specs.Messages.{fault_text};
ghost use Rattle.rv_library.specs.Answer.{answer_of, refusal_of};
ghost use Rattle.rv_library.specs.Given.{IsBytesGiven, IsGiven, IsMadeGiven, IsRefusalGiven, have_room, put_in, room_status};

use crate::buffers::put;
use crate::finding::{message, numbers_of};
use rv_fault::Fault;
use std::alloc::{AllocError, Global};

/// The call has done all that it was asked.
pub(crate) const DONE: u32 = 0;
/// A buffer had no room for all.
pub(crate) const SMALL: u32 = 1;
/// What was given has a fault.
pub(crate) const REFUSED: u32 = 2;
/// Memory ran out.
pub(crate) const NO_MEMORY: u32 = 3;
/// The arguments do not belong together.
pub(crate) const UNFIT: u32 = 4;
/// The guest has written more than is kept.
pub(crate) const TOO_LONG: u32 = 5;
/// What was taken of an input is not known. The input of this library never comes to this.
pub(crate) const UNKNOWN: u32 = 6;

/// What a call says beside its bytes: `struct rv_answer`.
#[repr(C)]
#[derive(Drop)]
pub struct Answer {
    /// How many bytes there are for the first buffer, those without room too.
    pub length: u64,
    /// How many there are for the second.
    pub second_length: u64,
    /// The letter of the fault's code; 0 without a fault.
    pub kind: u32,
    /// The number behind that letter.
    pub number: u32,
    /// The text or file that has the fault, from 1; 0 where none alone has it.
    pub file: u32,
    /// The line of the fault, from 1; 0 where it has none.
    pub line: u32,
}

/// What a call has made: the bytes for the first buffer and those for the second.
#[derive(Drop)]
pub(crate) struct Made {
    pub first: Vec<u8>,
    pub second: Vec<u8>,
}

/// Gives what was made, or why nothing was; `None` stands for arguments that do not belong together. The status.
pub(crate) fn give(
    alloc: Global,
    made: Result<Option<Made>, Fault>,
    first: &mut [u8],
    second: &mut [u8],
    answer: &mut Answer,
) -> u32
    ensures { IsGiven made result first.old first.new second.old second.new answer.new }
{
    match made {
        Ok(found) => give_found(found, first, second, answer),
        Err(fault) => refuse(alloc, &fault, first, answer),
    }
}

/// Gives what was made, if anything was; the status.
fn give_found(found: Option<Made>, first: &mut [u8], second: &mut [u8], answer: &mut Answer) -> u32
    ensures { IsMadeGiven found result first.old first.new second.old second.new answer.new }
{
    match found {
        Some(made) => give_both(
            made.first.as_slice(),
            made.second.as_slice(),
            first,
            second,
            answer,
        ),
        None => {
            *answer = told(0, 0);
            UNFIT
        }
    }
}

/// Gives bytes to two buffers; the status.
pub(crate) fn give_both(
    bytes: &[u8],
    others: &[u8],
    first: &mut [u8],
    second: &mut [u8],
    answer: &mut Answer,
) -> u32
    ensures status { result ≡ room_status (have_room bytes.now first.old && have_room others.now second.old) }
    ensures first { first.new ≡ put_in bytes.now first.old }
    ensures second { second.new ≡ put_in others.now second.old }
    ensures answer { answer.new ≡ answer_of (length bytes.now) (length others.now) }
{
    *answer = told(bytes.len() as u64, others.len() as u64);
    let fits_first = put(bytes, first);
    let fits_second = put(others, second);
    status_of(fits_first && fits_second)
}

/// Gives bytes to the only buffer; the status.
pub(crate) fn give_bytes(bytes: &[u8], first: &mut [u8], answer: &mut Answer) -> u32
    ensures { IsBytesGiven bytes.now result first.old first.new answer.new }
{
    *answer = told(bytes.len() as u64, 0);
    status_of(put(bytes, first))
}

/// The status of bytes that had room, or had none.
pub(crate) fn status_of(fits: bool) -> u32
    ensures { result ≡ room_status fits }
{
    if fits { DONE } else { SMALL }
}

/// The answer of a call without a fault.
pub(crate) fn told(length: u64, second_length: u64) -> Answer
    ensures { result ≡ answer_of length second_length }
{
    Answer {
        length,
        second_length,
        kind: 0,
        number: 0,
        file: 0,
        line: 0,
    }
}

/// Gives the line of a fault; the status.
pub(crate) fn refuse(alloc: Global, fault: &Fault, first: &mut [u8], answer: &mut Answer) -> u32
    ensures { IsRefusalGiven (fault_text [] fault.now) fault.now result first.old first.new answer.new }
{
    match message(alloc, fault) {
        Ok(Some(line)) => give_line(line.as_bytes(), fault, first, answer),
        Ok(None) | Err(AllocError) => {
            *answer = told(0, 0);
            NO_MEMORY
        }
    }
}

/// Gives the bytes of the line of a fault, with its numbers; the status.
fn give_line(line: &[u8], fault: &Fault, first: &mut [u8], answer: &mut Answer) -> u32
    ensures status { result ≡ 2 }
    ensures first { first.new ≡ put_in line.now first.old }
    ensures answer { answer.new ≡ refusal_of fault.now (length line.now) }
{
    let numbers = numbers_of(fault);
    *answer = Answer {
        length: line.len() as u64,
        second_length: 0,
        kind: numbers.kind,
        number: numbers.number,
        file: numbers.file,
        line: numbers.line,
    };
    let _ = put(line, first);
    REFUSED
}
