//! Machines in states that snapshots say.
//!
//! Nothing of a snapshot is believed: what is not there is refused, and each piece is put only where it may be written.

ghost use Rattle.std.specs.Prelude.{
  ◌≡◌,
  ◌≤◌,
  ◌++◌,
  ℕ,
  List,
  suc,
  false,
  Some,
  None,
  [],
  length,
  drop,
  slice_index,
  IfOk,
  IfSome,
  MatchBool,
  MatchOption,
};
ghost use Rattle.rv_image.specs.Views.{image_of};
ghost use Rattle.rv_machine.specs.Hart.{hart_of, reservation_of};
ghost use Rattle.rv_memory.specs.HeldPages.{held_pages};
ghost use Rattle.rv_states.specs.Snapshot.{
  words,
  hart_by,
  reservation_by,
  with_pieces,
  state_by,
  state_in,
};
ghost use Rattle.rv_states.specs.Views.{resumed_state};

use crate::{HEAD_BYTES, HEAD_NUMBERS};
use byteorder::{ByteOrder, LittleEndian};
use rv_image::Image;
use rv_machine::{Hart, Parts, Registers, Reservation, Watched};
use rv_memory::{Memory, Paged, Right, put_bytes};
use std::alloc::{AllocError, Global};

/// A machine in a kept state, and how many bytes of its input were taken.
#[derive(Drop)]
pub struct Resumed {
    pub machine: Watched<Paged>,
    pub taken: usize,
}

/// The machine in the state that a snapshot says; `None` where the bytes are no snapshot of a run of this image with this
/// input. No bytes at all are the state at the start.
pub fn resume(
    alloc: Global,
    image: Image,
    snapshot: &[u8],
    input: &[u8],
) -> Result<Option<Resumed>, AllocError>
    ensures state { IfOk result (λ found. resumed_state found input.now
        ≡ state_in (image_of image) input.now snapshot.now) }
    ensures ended { IfOk result
        (λ found. IfSome found (λ resumed. resumed.machine.intake.ended ≡ false)) }
    ensures taken { IfOk result (λ found. IfSome found (λ resumed. resumed.taken ≤ length input.now)) }
{
    if snapshot.is_empty() {
        let entry = image.entry;
        let memory = Paged::new(alloc, image)?;
        return Ok(Some(Resumed {
            machine: Watched::new(memory, entry),
            taken: 0,
        }));
    }
    if snapshot.len() < HEAD_BYTES {
        return Ok(None);
    }
    let (head, pieces) = snapshot.split_at(HEAD_BYTES);
    let numbers = numbers_of(head);
    resume_by(alloc, image, &numbers, pieces, input)
}

/// The same by the numbers of the head, and the pieces.
fn resume_by(
    alloc: Global,
    image: Image,
    numbers: &[u64; HEAD_NUMBERS],
    pieces: &[u8],
    input: &[u8],
) -> Result<Option<Resumed>, AllocError>
    ensures state { IfOk result (λ found. resumed_state found input.now
        ≡ state_by (image_of image) numbers.now pieces.now input.now) }
    ensures ended { IfOk result
        (λ found. IfSome found (λ resumed. resumed.machine.intake.ended ≡ false)) }
    ensures taken { IfOk result (λ found. IfSome found (λ resumed. resumed.taken ≤ length input.now)) }
{
    let taken = numbers[35];
    if taken > input.len() as u64 {
        return Ok(None);
    }
    let mut memory = Paged::new(alloc, image)?;
    if !put_pieces(&mut memory, numbers[36], pieces) {
        return Ok(None);
    }
    let machine = Watched::from_parts(Parts {
        hart: hart_of_numbers(numbers),
        memory,
        input_ended: false,
    });
    Ok(Some(Resumed {
        machine,
        taken: taken as usize,
    }))
}

/// The numbers of a head.
fn numbers_of(head: &[u8]) -> [u64; HEAD_NUMBERS]
    requires { length head.now ≡ 296 }
    ensures { (rest : List ℕ) → result ≡ words 37 (head.now ++ rest) }
{
    let mut numbers = [0; HEAD_NUMBERS];
    LittleEndian::read_u64_into(head, &mut numbers);
    numbers
}

/// The hart that the numbers of a head say.
fn hart_of_numbers(numbers: &[u64; HEAD_NUMBERS]) -> Hart
    ensures { (input : List ℕ) →
        hart_of result (drop (slice_index numbers.now 35) input) [] ≡ hart_by numbers.now input }
{
    let mut values = [0; 32];
    values[1..].copy_from_slice(&numbers[..31]);
    Hart {
        registers: Registers::of(values),
        pc: numbers[31],
        reservation: reservation_of_numbers(numbers[32], numbers[33], numbers[34]),
    }
}

/// The reservation, if there is one.
fn reservation_of_numbers(is_there: u64, address: u64, bytes: u64) -> Option<Reservation>
    ensures { reservation_of result ≡ reservation_by is_there address bytes }
{
    if is_there == 0 {
        return None;
    }
    Some(Reservation { address, bytes })
}

/// Puts so many pieces into memory; whether each may be written, and nothing is left behind the last.
fn put_pieces(memory: &mut Paged, count: u64, pieces: &[u8]) -> bool
    ensures { MatchBool result
        (with_pieces count pieces.now (held_pages memory.old) ≡ Some (held_pages memory.new))
        (with_pieces count pieces.now (held_pages memory.old) ≡ None) }
{
    let mut rest = pieces;
    for _ in 0..count {
        match put_piece(memory, rest) {
            Some(behind) => rest = behind,
            None => return false,
        }
    }
    rest.is_empty()
}

/// Puts the first piece into memory, if it is whole and may be written; what stands behind it.
fn put_piece<'b>(memory: &mut Paged, bytes: &'b [u8]) -> Option<&'b [u8]>
    ensures { (n : ℕ) → MatchOption result
        (with_pieces (suc n) bytes.now (held_pages memory.old) ≡ None)
        (λ rest. with_pieces (suc n) bytes.now (held_pages memory.old)
        ≡ with_pieces n rest.now (held_pages memory.new)) }
{
    if bytes.len() < 16 {
        return None;
    }
    let address = LittleEndian::read_u64(bytes);
    let count = LittleEndian::read_u64(bytes.split_at(8).1);
    let behind = bytes.split_at(16).1;
    if count > behind.len() as u64 {
        return None;
    }
    if !memory.may(address, count, Right::Write) {
        return None;
    }
    let (piece, rest) = behind.split_at(count as usize);
    put_bytes(memory, address, piece);
    Some(rest)
}
