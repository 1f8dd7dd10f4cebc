//! A window of a machine's memory.

ghost use Rattle.std.specs.Prelude.{◌≡◌, ◌≤◌, length};
ghost use Rattle.rv_memory.specs.HeldPages.{held_pages};
ghost use Rattle.rv_library.specs.GivenRuns.{AreOf, right_bit, rights_of, shown_byte};
ghost use Rattle.rv_memory.specs.Rights.{right_of};

use rv_memory::{Memory, Paged, Right};

/// Puts the bytes of memory from an address on, as many as there is room for; those that may be neither read nor executed
/// are 0.
pub(crate) fn put_memory(memory: &Paged, address: u64, room: &mut [u8])
    ensures length { length room.new ≡ length room.old }
    ensures bytes { AreOf (shown_byte (held_pages memory.now)) address room.new }
{
    for k in 0..room.len() {
        room[k] = shown_byte(memory, address.wrapping_add(k as u64));
    }
}

/// Puts the rights of as many bytes.
pub(crate) fn put_rights(memory: &Paged, address: u64, room: &mut [u8])
    ensures length { length room.new ≡ length room.old }
    ensures rights { AreOf (rights_of (held_pages memory.now)) address room.new }
{
    for k in 0..room.len() {
        room[k] = rights_of(memory, address.wrapping_add(k as u64));
    }
}

/// A byte of memory.
fn shown_byte(memory: &Paged, address: u64) -> u8
    ensures { result ≡ shown_byte (held_pages memory.now) address }
{
    if let Some(number) = memory.try_load(address, 1, Right::Read) {
        return number as u8;
    }
    match memory.try_load(address, 1, Right::Execute) {
        Some(number) => number as u8,
        None => 0,
    }
}

/// The rights of a byte, as segment flags.
fn rights_of(memory: &Paged, address: u64) -> u8
    ensures { result ≡ rights_of (held_pages memory.now) address }
{
    4 * right_bit(memory, address, Right::Read)
        + 2 * right_bit(memory, address, Right::Write)
        + right_bit(memory, address, Right::Execute)
}

/// 1 where a byte has a right, else 0.
fn right_bit(memory: &Paged, address: u64, right: Right) -> u8
    ensures right { result ≡ right_bit (held_pages memory.now) address (right_of right) }
    ensures most { result ≤ 1 }
{
    if memory.may(address, 1, right) { 1 } else { 0 }
}
