//! What follows from the table of words alone.

ghost use Rattle.std.specs.Prelude.{ℕ, Option};
ghost use Rattle.rv_isa.specs.declared.instruction.Inst.{Inst};
ghost use Rattle.rv_isa_laws.specs.Word.{IsReader};

/// A law: some reader answers for every word exactly the instruction that it spells. So a word spells one
/// instruction at most, and a definition that reads words by such a reader has one to read by.
pub fn reader_exists()
    ensures { (read : ℕ → Option Inst) × IsReader read }
{}
