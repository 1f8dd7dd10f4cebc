//! Bindings by their names.

ghost use Rattle.std.specs.Prelude.{◌≡◌, ◌||◌, ℕ, List, map, OnOk};
ghost use Rattle.rv_statement.specs.View.{now_of};
ghost use Rattle.rv_unit_laws.specs.Bindings.{bound, is_weak};
ghost use Rattle.rv_unit.specs.Tables.{binding_in};

use indexmap::IndexMap;
use rv_statement_laws::Binding;
use std::alloc::AllocError;

/// Whether one of the names is weak, with one more binding.
pub(crate) fn weak_after(weak: bool, binding: Binding) -> bool
    ensures { result ≡ (weak || is_weak binding) }
{
    weak || matches!(binding, Binding::Weak)
}

/// Gives names a binding, in place of what was said of them before.
pub(crate) fn bind_all<'a>(
    bindings: &mut IndexMap<&'a [u8], Binding>,
    binding: Binding,
    names: &[&'a [u8]],
) -> Result<(), AllocError>
    ensures { OnOk result ((name : List ℕ) → binding_in bindings.new name
        ≡ bound binding (map now_of names.now) (λ n. binding_in bindings.old n) name) }
{
    for name in names {
        bindings.insert(*name, binding)?;
    }
    Ok(())
}
