//! Laws of the reading of a source, each the contract of a function with nothing to do.

ghost use Rattle.std.specs.Prelude.{◌≡◌, ℕ, List, Some};
ghost use Rattle.rv_isa.specs.declared.instruction.Format.{Format};
ghost use Rattle.rv_statement_laws.specs.Statement.{Statement};
ghost use Rattle.rv_parse_laws.specs.Names.{word_of, mnemonic_of};
ghost use Rattle.rv_parse_laws.specs.Reading.{Reads};
ghost use Rattle.rv_parse_laws.specs.Refusals.{SyntaxFault, Refuses};
ghost use Rattle.rv_parse_laws.specs.Words.{mnemonic_named};

/// Bytes have at most one reading.
pub fn one_reading()
    ensures { (bytes : List ℕ) (ss others : List Statement) → Reads bytes ss → Reads bytes others →
        ss ≡ others }
{}

/// Bytes have at most one first fault.
pub fn one_fault()
    ensures { (bytes : List ℕ) (fault other : SyntaxFault) → Refuses bytes fault →
        Refuses bytes other → fault ≡ other }
{}

/// No bytes have both a reading and a fault.
pub fn not_both()
    ensures { (bytes : List ℕ) (ss : List Statement) (fault : SyntaxFault) → Reads bytes ss →
        Refuses bytes fault → ⊥ }
{}

/// Sources and `rv_isa` name base instructions alike, one to one: the name of each means its operation, no other word
/// does, and two that share a name share their operation.
pub fn names_agree()
    ensures means { (f : Format) → mnemonic_named (word_of f) ≡ Some (mnemonic_of f) }
    ensures alone { (f : Format) (word : List ℕ) → mnemonic_named word ≡ Some (mnemonic_of f) →
        word ≡ word_of f }
    ensures apart { (f g : Format) → word_of f ≡ word_of g → mnemonic_of f ≡ mnemonic_of g }
{}
