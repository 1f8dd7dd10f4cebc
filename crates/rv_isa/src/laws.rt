//! What holds of the tables of formats and of relocation kinds. Nothing here runs.

ghost use Rattle.std.specs.Prelude.{◌≡◌};
ghost use Rattle.rv_isa.specs.declared.instruction.Format.{Format};
ghost use Rattle.rv_isa.specs.declared.instruction.Inst.{Inst};
ghost use Rattle.rv_isa.specs.declared.kind.Kind.{Kind};
ghost use Rattle.rv_isa.specs.Kinds.{number_of};
ghost use Rattle.rv_isa.specs.Operations.{format_of, instruction_of};

/// The two tables agree: each instruction is the one that its format writes, and each format is that of the
/// instruction that it writes.
pub fn formats_agree()
    ensures written { (i : Inst) → instruction_of (format_of i) ≡ i }
    ensures read { (f : Format) → format_of (instruction_of f) ≡ f }
{}

/// No two kinds of relocations have one number.
pub fn kinds_agree()
    ensures { (a b : Kind) → number_of a ≡ number_of b → a ≡ b }
{}
