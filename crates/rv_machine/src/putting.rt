//! Stores of who answers in a memory's place.

ghost use Rattle.std.specs.Prelude.{◌≡◌, true, MatchBool};
ghost use Rattle.rv_isa_laws.specs.Memory.{may, with_number, Write as ToWrite};
ghost use Rattle.rv_memory.specs.Rights.{IsWidth};

use crate::watching::Watched;
use rv_memory::Memory;

impl<M: Memory> Watched<M> {
    /// Puts the low bytes of a number into memory where all may be written, and else nothing; whether they may.
    pub fn put(&mut self, address: u64, bytes: u64, value: u64) -> bool
        requires { IsWidth bytes }
        ensures right { result ≡ may (M.mem self.old.memory) address bytes ToWrite }
        ensures put { MatchBool result
            (M.mem self.new.memory ≡ with_number (M.mem self.old.memory) address bytes value)
            (M.mem self.new.memory ≡ M.mem self.old.memory) }
        ensures hart { self.new.hart ≡ self.old.hart }
        ensures ended { self.new.intake.ended ≡ self.old.intake.ended }
    {
        self.memory.try_store(address, bytes, value)
    }
}
