//! What a hart asks of its memory.
//!
//! `try_load` and `try_store` are the test of the right and the access in one look-up. `piece` and `put_piece` move the
//! bytes of an environment call at once.

ghost use Rattle.std.specs.Prelude.{
  ◌≡◌,
  ℕ,
  ◌+◌,
  ◌%◌,
  ◌^◌,
  ◌<◌,
  true,
  false,
  length,
  IfSome,
  MatchOption,
  MatchBool,
};
ghost use Rattle.rv_isa_laws.specs.Memory.{
  Mem,
  may,
  bytes_at,
  number_at,
  with_bytes,
  with_number,
  Write as ToWrite,
};
ghost use Rattle.rv_memory.specs.Rights.{right_of, IsWidth, IsToLoad, MayLoad};

/// What may be done with a byte: the segment flags PF_R, PF_W and PF_X (gABI, program header).
#[derive(Clone, Copy, Drop)]
pub enum Right {
    Read,
    Write,
    Execute,
}

/// Bytes with rights at the addresses 0 to 2^64 - 1. A range of addresses goes on from the last
/// address to 0 (ISA, 1.4).
pub trait Memory: Drop {
    /// The bytes and their rights.
    ghost mem: { Self → Mem };

    /// Whether all `bytes` bytes from `address` have the right; of no byte, always.
    fn may(&self, address: u64, bytes: u64, right: Right) -> bool
        ensures { result ≡ may (mem self.now) address bytes (right_of right) };

    /// The little-endian number of 1, 2, 4 or 8 bytes, all of which may be read or all executed.
    fn load(&self, address: u64, bytes: u64) -> u64
        requires width { IsWidth bytes }
        requires may { MayLoad (mem self.now) address bytes }
        ensures number { result ≡ number_at (mem self.now) address bytes }
        ensures bytes { (k : ℕ) → k < bytes → (mem self.now).byte ((address + k) % 2 ^ 64) < 256 };

    /// Puts the low 1, 2, 4 or 8 bytes of a number, the lowest first, where all may be written.
    /// Nothing else changes, and no right.
    fn store(&mut self, address: u64, bytes: u64, value: u64)
        requires width { IsWidth bytes }
        requires may { may (mem self.old) address bytes ToWrite ≡ true }
        ensures { mem self.new ≡ with_number (mem self.old) address bytes value };

    /// The little-endian number of 1, 2, 4 or 8 bytes, where all have the right to be read or executed;
    /// `None` exactly where one lacks it.
    #[inline]
    fn try_load(&self, address: u64, bytes: u64, right: Right) -> Option<u64>
        requires width { IsWidth bytes }
        requires right { IsToLoad right }
        ensures right { MatchOption result
            (may (mem self.now) address bytes (right_of right) ≡ false)
            (λ _. may (mem self.now) address bytes (right_of right) ≡ true) }
        ensures number { IfSome result (λ number. number ≡ number_at (mem self.now) address bytes) }
        ensures bytes { IfSome result
            (λ _. (k : ℕ) → k < bytes → (mem self.now).byte ((address + k) % 2 ^ 64) < 256) }
    {
        if self.may(address, bytes, right) {
            Some(self.load(address, bytes))
        } else {
            None
        }
    }

    /// Puts the low 1, 2, 4 or 8 bytes of a number, the lowest first, where all may be written, and
    /// else nothing; whether they may.
    #[inline]
    fn try_store(&mut self, address: u64, bytes: u64, value: u64) -> bool
        requires { IsWidth bytes }
        ensures right { result ≡ may (mem self.old) address bytes ToWrite }
        ensures put { MatchBool result
            (mem self.new ≡ with_number (mem self.old) address bytes value)
            (mem self.new ≡ mem self.old) }
    {
        let may = self.may(address, bytes, Right::Write);
        if may {
            self.store(address, bytes, value);
        }
        may
    }

    /// Bytes from an address on that the memory has in one piece, for reading many at once; it may
    /// be none of them.
    #[inline]
    fn piece(&self, address: u64) -> &[u8]
        ensures { bytes_at (mem self.now) address (length result.now) ≡ result.now }
    {
        &[]
    }

    /// Puts bytes that lie in one piece of memory at once; where it does not, nothing changes.
    #[inline]
    fn put_piece(&mut self, address: u64, bytes: &[u8]) -> bool
        ensures { MatchBool result (mem self.new ≡ with_bytes (mem self.old) address bytes.now)
            (mem self.new ≡ mem self.old) }
    {
        false
    }
}
