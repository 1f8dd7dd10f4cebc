//! What memories that keep their bytes in pieces do alike: accesses, whether or not one piece holds them.

ghost use Rattle.std.specs.Prelude.{
  ◌≡◌,
  ℕ,
  ◌+◌,
  ◌%◌,
  ◌^◌,
  ◌<◌,
  true,
  false,
  [],
  length,
  slice_index,
  MatchBool,
};
ghost use Rattle.rv_isa_laws.specs.Memory.{
  Mem,
  may,
  bytes_at,
  number_at,
  with_bytes,
  with_number,
  Right as ARight,
  Write as ToWrite,
};
ghost use Rattle.rv_isa_laws.specs.Bytes.{number_in};
ghost use Rattle.rv_memory.specs.Rights.{right_of, IsWidth, MayLoad};

use crate::memory::Right;

/// A memory in pieces, in each of which bytes lie one beside the other.
pub trait Pieces {
    /// The bytes and their rights.
    ghost mem: { Self → Mem };

    /// How many bytes from an address on have the right, as far as its piece goes and no more than are asked for.
    fn run(&self, address: u64, most: u64, right: Right) -> u64
        ensures all { may (mem self.now) address result (right_of right) ≡ true }
        ensures none { result ≡ 0 → 0 < most
            → (mem self.now).has address (right_of right) ≡ false };

    /// The bytes from an address on, as far as its piece goes.
    fn rest(&self, address: u64) -> &[u8]
        ensures bytes { bytes_at (mem self.now) address (length result.now) ≡ result.now }
        ensures small { (k : ℕ) → slice_index result.now k < 256 }
        ensures none { result.now ≡ [] →
            (right : ARight) → (mem self.now).has address right ≡ false };

    /// Puts bytes that lie in one piece; whether they do.
    fn put_within(&mut self, address: u64, bytes: &[u8]) -> bool
        ensures put { MatchBool result
            (mem self.new ≡ with_bytes (mem self.old) address bytes.now)
            (mem self.new ≡ mem self.old) }
        ensures one { length bytes.now ≡ 1 → may (mem self.old) address 1 ToWrite ≡ true →
            result ≡ true };
}

/// The little-endian number of 1, 2, 4 or 8 bytes.
#[inline(always)]
pub fn number(bytes: &[u8]) -> u64
    requires { IsWidth (length bytes.now) }
    ensures { result ≡ number_in bytes.now }
{
    let mut digits = [0; 8];
    digits[..bytes.len()].copy_from_slice(bytes);
    u64::from_le_bytes(digits)
}

/// Whether bytes have the right.
#[inline]
pub fn have_right<P: Pieces>(memory: &P, address: u64, bytes: u64, right: Right) -> bool
    ensures { result ≡ may (P.mem memory.now) address bytes (right_of right) }
{
    let mut at = address;
    let mut remaining = bytes;
    while remaining > 0 {
        let run = memory.run(at, remaining, right);
        if run == 0 {
            return false;
        }
        if remaining <= run {
            return true;
        }
        remaining -= run;
        at = at.wrapping_add(run);
    }
    true
}

/// The byte of an address that may be read or executed.
fn byte<P: Pieces>(memory: &P, address: u64) -> u8
    requires { MayLoad (P.mem memory.now) address 1 }
    ensures { result ≡ (P.mem memory.now).byte address }
{
    match memory.rest(address) {
        [byte, ..] => *byte,
        [] => 0,
    }
}

/// The number of bytes that do not lie in one piece.
#[inline(never)]
fn load_across<P: Pieces>(memory: &P, address: u64, bytes: usize) -> u64
    requires width { IsWidth bytes }
    requires may { MayLoad (P.mem memory.now) address bytes }
    ensures number { result ≡ number_at (P.mem memory.now) address bytes }
    ensures bytes { (k : ℕ) → k < bytes →
        (P.mem memory.now).byte ((address + k) % 2 ^ 64) < 256 }
{
    let mut gathered = [0; 8];
    for k in 0..bytes {
        gathered[k] = byte(memory, address.wrapping_add(k as u64));
    }
    number(&gathered[..bytes])
}

/// The number of bytes, all of which may be read or all executed.
#[inline]
pub fn load_number<P: Pieces>(memory: &P, address: u64, bytes: u64) -> u64
    requires width { IsWidth bytes }
    requires may { MayLoad (P.mem memory.now) address bytes }
    ensures number { result ≡ number_at (P.mem memory.now) address bytes }
    ensures bytes { (k : ℕ) → k < bytes →
        (P.mem memory.now).byte ((address + k) % 2 ^ 64) < 256 }
{
    let rest = memory.rest(address);
    if bytes as usize <= rest.len() {
        number(&rest[..bytes as usize])
    } else {
        load_across(memory, address, bytes as usize)
    }
}

/// Puts bytes one by one, where they do not lie in one piece.
#[inline(never)]
fn put_across<P: Pieces>(memory: &mut P, address: u64, bytes: &[u8])
    requires { may (P.mem memory.old) address (length bytes.now) ToWrite ≡ true }
    ensures { P.mem memory.new ≡ with_bytes (P.mem memory.old) address bytes.now }
{
    for k in 0..bytes.len() {
        memory.put_within(address.wrapping_add(k as u64), &bytes[k..k + 1]);
    }
}

/// Puts the low bytes of a number, where all may be written.
#[inline]
pub fn store_number<P: Pieces>(memory: &mut P, address: u64, bytes: u64, value: u64)
    requires width { IsWidth bytes }
    requires may { may (P.mem memory.old) address bytes ToWrite ≡ true }
    ensures { P.mem memory.new ≡ with_number (P.mem memory.old) address bytes value }
{
    let digits = value.to_le_bytes();
    let low = &digits[..bytes as usize];
    if !memory.put_within(address, low) {
        put_across(memory, address, low);
    }
}
