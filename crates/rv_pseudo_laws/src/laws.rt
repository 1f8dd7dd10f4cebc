//! What holds of the code of statements, and of the sequences of `li`. Nothing here runs.

ghost use Rattle.std.specs.Prelude.{◌≡◌, ◌<◌, ◌*◌, ◌%◌, ◌^◌, ◌+◌, ◌++◌, ℕ, ℤ, pos, ◌*ℤ◌, Bool, true, false, List, [], ◌∷◌, Some, unsigned_abs, if◌then◌else◌};
ghost use Rattle.std.specs.List.{AllByRecursion};
ghost use Rattle.rv_isa.specs.declared.instruction.Inst.{Inst};
ghost use Rattle.rv_isa.specs.declared.kind.Kind.{Kind};
ghost use Rattle.rv_isa.specs.Ranges.{IsValid};
ghost use Rattle.rv_isa_laws.specs.Arithmetic.{wrapped};
ghost use Rattle.rv_isa_laws.specs.Halves.{hi, lo};
ghost use Rattle.rv_reloc_laws.specs.Operands.{with_value};
ghost use Rattle.rv_reloc_laws.specs.Ranges.{Takes};
ghost use Rattle.rv_statement_laws.specs.declared.mnemonic.Mnemonic.{Mnemonic};
ghost use Rattle.rv_statement_laws.specs.Statement.{Operand};
ghost use Rattle.rv_pseudo_laws.specs.Code.{Part, Constants, code};
ghost use Rattle.rv_pseudo_laws.specs.Filled.{FieldValue, AreTaken, filled};
ghost use Rattle.rv_pseudo_laws.specs.Valid.{AreOperandsOf, IsOpen, IsValidPart};
ghost use Rattle.rv_pseudo_laws.specs.Li.{is_signed, upper_20, zeros, above, unless_zero, li, lui, addi, addiw, slli};
ghost use Rattle.rv_pseudo_laws.specs.Runs.{Sets};

/// The sequence of a number of 64 bits sets its register to the number, from every hart.
pub fn li_sets()
    ensures { (rd : ℕ) (v : ℤ) → is_signed 64 v ≡ true → Sets rd (wrapped v) (li rd v) }
{}

/// The sequences by themselves: 12 bits by `addi`, 32 by `lui` and `addiw`, and more by those of the bits above the low 12
/// without the zeros that they end with, a shift, and `addi` of the rest, if there is one.
pub fn li_recurs()
    ensures { (rd : ℕ) (v : ℤ) → is_signed 64 v ≡ true → li rd v ≡
        (if is_signed 12 v then addi rd 0 v ∷ []
        else if is_signed 32 v then lui rd (upper_20 v) ∷ unless_zero (lo v) (addiw rd rd (lo v))
        else li rd (above v)
        ++ slli rd rd (12 + zeros v) ∷ unless_zero (lo v) (addi rd rd (lo v))) }
{}

/// What `above` and `zeros` are where the sequences take them: the upper half is one with so many zero bits after it, it
/// ends with no zero bit itself, and it has eleven bits less than the number.
pub fn li_shrinks()
    ensures whole { (v : ℤ) → hi v ≡ above v *ℤ pos (2 ^ zeros v) }
    ensures odd { (v : ℤ) → is_signed 64 v ≡ true → is_signed 32 v ≡ false →
        unsigned_abs (above v) % 2 ≡ 1 }
    ensures fewer { (v : ℤ) → is_signed 32 v ≡ false →
        2 ^ 11 * unsigned_abs (above v) < unsigned_abs v }
{}

/// Every instruction of a sequence has its operands in their ranges, so a word spells it.
pub fn li_valid()
    ensures { (rd : ℕ) (v : ℤ) → rd < 32 → is_signed 64 v ≡ true →
        AllByRecursion IsValid (li rd v) }
{}

/// Every part of a statement's code has its operands in their ranges, where the statement's own are, and an open field is
/// one of its relocation's kind.
pub fn code_valid()
    ensures { (v : Constants) (rvc : Bool) (bytes : ℕ) (mnemonic : Mnemonic)
        (operands : List Operand) (parts : List Part) →
        AreOperandsOf v mnemonic operands → code v rvc bytes mnemonic operands ≡ Some parts →
        AllByRecursion IsValidPart parts }
{}

/// An instruction of which a relocation fills the field keeps its operands in their ranges, and so does the code of a
/// statement with its open fields filled.
pub fn filling_valid()
    ensures one { (k : Kind) (v : ℤ) (i : Inst) → IsOpen k i → Takes k v →
        IsValid (with_value v i) }
    ensures all { (value : FieldValue) (a : ℕ) (parts : List Part) →
        AllByRecursion IsValidPart parts → AreTaken value a parts →
        AllByRecursion IsValid (filled value a parts) }
{}
