//! Snapshots of machines.
//!
//! Of a machine's memory go the segments that may be written, and the stack, for no step changes another byte; and of these
//! what is not as in the image. So a small program's snapshot is small, and a debugger can take one at each step.

ghost use Rattle.std.specs.Prelude.{
  ◌≡◌,
  ◌≤◌,
  ℕ,
  List,
  [],
  true,
  false,
  Some,
  length,
  drop,
  slice_index,
  IfOk,
  OnOk,
  IfSome,
  IfNone,
};
ghost use Rattle.rv_isa_laws.specs.Memory.{Mem, bytes_at, may, Read as ToRead, Write as ToWrite};
ghost use Rattle.rv_image.specs.SegmentView.{segment_of};
ghost use Rattle.rv_image.specs.Views.{image_of};
ghost use Rattle.rv_image_laws.specs.Memory.{mem_of};
ghost use Rattle.rv_machine.specs.Hart.{hart_of, reservation_of};
ghost use Rattle.rv_memory.specs.HeldPages.{held_pages};
ghost use Rattle.rv_states.specs.Keeps.{Keeps};
ghost use Rattle.rv_states.specs.Pieces.{Add, written_size};
ghost use Rattle.rv_states.specs.Snapshot.{
  words,
  hart_by,
  reservation_by,
  with_pieces,
  has_snapshots as has_snapshots_by,
  is_readable as is_readable_by,
  state_in,
};

use crate::pieces::Pieces;
use crate::{HEAD_BYTES, HEAD_NUMBERS};
use byteorder::{ByteOrder, LittleEndian};
use rv_image::{Image, STACK_BYTES, STACK_START, Segment};
use rv_machine::{Hart, Reservation, Watched};
use rv_memory::Paged;
use std::alloc::{AllocError, Global};

/// The end of the stack.
const STACK_END: u64 = STACK_START + STACK_BYTES as u64;

/// The state of a machine of an image as bytes. `None` where a segment may be written and not be read (no linker makes one).
pub fn snapshot(
    alloc: Global,
    image: &Image,
    machine: &Watched<Paged>,
    taken: usize,
) -> Result<Option<Vec<u8>>, AllocError>
    requires kept { Keeps (mem_of (image_of image.now)) (held_pages machine.now.memory) }
    ensures state { IfOk result (λ found. IfSome found (λ bytes. (input : List ℕ) →
        taken ≤ length input → state_in (image_of image.now) input bytes.items
        ≡ Some (hart_of machine.now.hart (drop taken input) [], held_pages machine.now.memory))) }
    ensures none { IfOk result
        (λ found. IfNone found (has_snapshots_by (image_of image.now) ≡ false)) }
{
    if !has_snapshots(image) {
        return Ok(None);
    }
    let pieces = pieces_of(alloc, image, machine.memory())?;
    let numbers = head_numbers(machine.hart(), taken as u64, pieces.count);
    Ok(Some(joined(alloc, &numbers, pieces.bytes.as_slice())?))
}

/// A snapshot of the numbers of its head, and its pieces.
fn joined(
    alloc: Global,
    numbers: &[u64; HEAD_NUMBERS],
    pieces: &[u8],
) -> Result<Vec<u8>, AllocError>
    ensures head { IfOk result (λ bytes. words 37 bytes.items ≡ numbers.now) }
    ensures rest { IfOk result (λ bytes. drop 296 bytes.items ≡ pieces.now) }
    ensures long { IfOk result (λ bytes. 296 ≤ length bytes.items) }
{
    let mut head = [0; HEAD_BYTES];
    LittleEndian::write_u64_into(numbers, &mut head);
    let mut bytes = Vec::with_capacity(alloc, HEAD_BYTES)?;
    bytes.extend_from_slice(&head)?;
    bytes.extend_from_slice(pieces)?;
    Ok(bytes)
}

/// The numbers of a head.
fn head_numbers(hart: &Hart, taken: u64, count: u64) -> [u64; HEAD_NUMBERS]
    ensures hart { (input : List ℕ) →
        hart_by result input ≡ hart_of hart.now (drop taken input) [] }
    ensures taken { slice_index result 35 ≡ taken }
    ensures count { slice_index result 36 ≡ count }
{
    let reservation = reservation_numbers(&hart.reservation);
    let values = hart.registers.values();
    let behind = [
        hart.pc,
        reservation.0,
        reservation.1,
        reservation.2,
        taken,
        count,
    ];
    let mut numbers = [0; HEAD_NUMBERS];
    numbers[..31].copy_from_slice(&values[1..]);
    numbers[31..].copy_from_slice(&behind);
    numbers
}

/// Whether there is a reservation, its address and its width.
fn reservation_numbers(reservation: &Option<Reservation>) -> (u64, u64, u64)
    ensures { reservation_by result.0 result.1 result.2 ≡ reservation_of reservation.now }
{
    match *reservation {
        Some(reservation) => (1, reservation.address, reservation.bytes),
        None => (0, 0, 0),
    }
}

/// Whether each segment that may be written can be read.
fn has_snapshots(image: &Image) -> bool
    ensures { result ≡ has_snapshots_by (image_of image.now) }
{
    for segment in &image.segments {
        if !is_readable(segment) {
            return false;
        }
    }
    true
}

/// Whether a segment can be read, or may not be written.
fn is_readable(segment: &Segment) -> bool
    ensures { result ≡ is_readable_by (segment_of segment.now) }
{
    segment.flags / 2 % 2 == 0 || segment.flags / 4 % 2 == 1
}

/// The pieces of a machine's memory that are not as in its image.
fn pieces_of(alloc: Global, image: &Image, memory: &Paged) -> Result<Pieces, AllocError>
    requires kept { Keeps (mem_of (image_of image.now)) (held_pages memory.now) }
    requires readable { has_snapshots_by (image_of image.now) ≡ true }
    ensures { IfOk result (λ pieces. with_pieces pieces.count pieces.bytes.items
        (mem_of (image_of image.now)) ≡ Some (held_pages memory.now)) }
{
    let mut pieces = Pieces::new(alloc);
    for segment in &image.segments {
        add_segment(&mut pieces, memory, segment)?;
    }
    pieces.add_zeros(memory, memory.stack_from(), STACK_END)?;
    Ok(pieces)
}

/// Adds what differs of a segment, if it may be written.
fn add_segment(pieces: &mut Pieces, memory: &Paged, segment: &Segment) -> Result<(), AllocError>
    requires reads { may (held_pages memory.now) segment.now.address
        (written_size (segment_of segment.now)) ToRead ≡ true }
    requires writes { may (held_pages memory.now) segment.now.address
        (written_size (segment_of segment.now)) ToWrite ≡ true }
    ensures { OnOk result ((image : Mem) →
        bytes_at image segment.now.address (length segment.now.bytes.items)
        ≡ segment.now.bytes.items →
        Add pieces.old pieces.new image (held_pages memory.now) segment.now.address
        (written_size (segment_of segment.now))) }
{
    if segment.flags / 2 % 2 == 0 {
        return Ok(());
    }
    pieces.add_area(memory, segment.address, segment.bytes.as_slice())
}
