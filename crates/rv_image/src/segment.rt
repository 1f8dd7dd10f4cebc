//! A segment of an image.

ghost use Rattle.std.specs.Prelude.{◌+◌, ◌^◌, ◌≤◌, length};

/// The first address of the stack.
pub const STACK_START: u64 = 0x3ff0_0000;
/// The bytes of the stack.
pub const STACK_BYTES: usize = 0x10_0000;
/// A program ends here or before: the last page stays free.
pub const HIGHEST: u64 = 0xffff_ffff_ffff_f000;
/// The most bytes of memory that the segments of a program have in sum.
pub const MEMORY_LIMIT: u64 = 0x1000_0000;

/// Bytes that stand in memory from `address` on.
#[derive(PartialEq, Eq, Drop)]
pub struct Segment {
    /// The address of its first byte.
    pub address: u64,
    /// Its bytes, with the zeros that the file leaves out.
    pub bytes: Vec<u8>,
    /// Its rights: 1 to execute, 2 to write, 4 to read; other bits have no meaning.
    pub flags: u32,
    /// It ends at the end of the addresses or before.
    pub ghost ends: { address + length bytes.items ≤ 2 ^ 64 },
}
