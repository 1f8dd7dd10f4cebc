//! The laws of values: of any expression, and of those of sources at a map.

ghost use Rattle.std.specs.Prelude.{◌≡◌, ℕ, ◌^◌, ◌<◌, ◌↔◌, List, Option, Some, None, IsSome};
ghost use Rattle.rv_expression_laws.specs.Expression.{Primary, Tree};
ghost use Rattle.rv_expression_laws.specs.Values.{Meaning, Constant, value_of};
ghost use Rattle.rv_source_laws.specs.Program.{program, resolved};
ghost use Rattle.rv_map_laws.specs.Map.{Map};
ghost use Rattle.rv_map_laws.specs.Limits.{IsMap};
ghost use Rattle.rv_statement_laws.specs.Statement.{Statement};
ghost use Rattle.rv_source_laws.specs.Fits.{Fits};
ghost use Rattle.rv_value_theorems.specs.Plain.{plain};
ghost use Rattle.rv_value_theorems.specs.Forms.{sort_of};
ghost use Rattle.rv_value_theorems.specs.Agreement.{
  Agree,
  AreConstants,
  AreSmall,
  HasForm,
  HaveTheirNumbers,
  numbers,
};
ghost use Rattle.rv_value_theorems.specs.Sites.{ArePlain};

/// A value that is no fault is what plain arithmetic gives.
pub fn plain_value()
    ensures is { (base : ℕ → ℕ) (m : Primary → Meaning) (a : Primary → Option ℕ) (e : Tree) →
        Agree base m a e → HaveTheirNumbers m a e → HasForm (value_of m e)
        → resolved a (value_of m e) ≡ plain a e }
    ensures found { (base : ℕ → ℕ) (m : Primary → Meaning) (a : Primary → Option ℕ) (e : Tree)
        (x : ℕ) → Agree base m a e → HasForm (value_of m e) → plain a e ≡ Some x
        → resolved a (value_of m e) ≡ Some x }
    ensures by_addresses { (base : ℕ → ℕ) (m : Primary → Meaning) (a : Primary → Option ℕ)
        (e : Tree) → Agree base m (numbers m a) e → HaveTheirNumbers m (numbers m a) e
        → HasForm (value_of m e) → resolved a (value_of m e) ≡ plain (numbers m a) e }
    ensures found_by_addresses { (base : ℕ → ℕ) (m : Primary → Meaning) (a : Primary → Option ℕ)
        (e : Tree) (x : ℕ) → Agree base m (numbers m a) e → HasForm (value_of m e)
        → plain (numbers m a) e ≡ Some x → resolved a (value_of m e) ≡ Some x }
{}

/// An expression of constants is one, if plain arithmetic gives it a number, and else a fault.
pub fn plain_constant()
    ensures is { (m : Primary → Meaning) (a : Primary → Option ℕ) (e : Tree) (x : ℕ) →
        AreConstants m e → (value_of m e ≡ Constant x) ↔ (plain (numbers m a) e ≡ Some x) }
    ensures faulty { (m : Primary → Meaning) (a : Primary → Option ℕ) (e : Tree) → AreConstants m e
        → plain (numbers m a) e ≡ None → HasForm (value_of m e) → ⊥ }
{}

/// Numbers of 64 bits give one of 64 bits.
pub fn plain_fits()
    ensures { (a : Primary → Option ℕ) (e : Tree) (x : ℕ) → AreSmall a e → plain a e ≡ Some x →
        x < 2 ^ 64 }
{}

/// An expression that keeps numbers, places and distances apart is no fault, if plain arithmetic
/// gives it a number.
pub fn sorted_form()
    ensures { (m : Primary → Meaning) (a : Primary → Option ℕ) (e : Tree) → IsSome (sort_of m e) →
        IsSome (plain (numbers m a) e) → HasForm (value_of m e) }
{}

/// Where a map fits sources, each value in them is plain arithmetic with the addresses of the map.
/// `IsMap` says that the map's numbers have 64 bits.
pub fn values_are_plain()
    ensures { (sources : List (List Statement)) (m : Map) (text_start : ℕ) → IsMap m →
        Fits sources m text_start → ArePlain (program sources m) }
{}
