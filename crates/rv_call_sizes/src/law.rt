//! Worked numbers.

ghost use Rattle.std.specs.Prelude.{[], ◌∷◌};
ghost use Rattle.rv_size_laws.specs.Calls.{IsGreatestClosed};
ghost use Rattle.rv_call_sizes.specs.Worked.{calls_to_f};

/// Three calls, each of 8 bytes, and 8 bytes between them and their target: `jal` reaches, so each keeps 4.
pub fn three_calls()
    ensures { IsGreatestClosed calls_to_f (0 ∷ 4 ∷ 4 ∷ 4 ∷ []) }
{}
