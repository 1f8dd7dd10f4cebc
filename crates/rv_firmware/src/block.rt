//! Bytes at an address.

ghost use Rattle.std.specs.Prelude.{◌+◌, ◌^◌, ◌≤◌, length};

/// Bytes that are kept from an address on.
#[derive(Clone, Copy, Drop)]
pub struct Block<'a> {
    /// The address of its first byte.
    pub address: u32,
    /// Its bytes.
    pub bytes: &'a [u8],
    /// Its last address has 32 bits.
    pub ghost ends: { address + length bytes.now ≤ 2 ^ 32 },
}
