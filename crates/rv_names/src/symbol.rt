//! Which symbols are definitions for all files, and which are their own objects' whatever others define.

ghost use Rattle.std.specs.Prelude.{◌≡◌};
ghost use Rattle.rv_object_types.specs.Parts.{symbol_of};
ghost use Rattle.rv_object_laws.specs.Bindings as bindings;
ghost use Rattle.rv_link_laws.specs.Names as laws;

use rv_object_types::{Binding, Definition, Symbol};

/// Whether a symbol is a global definition.
pub(crate) fn is_global_definition(symbol: &Symbol<'_>) -> bool
    ensures { result ≡ laws.is_export bindings.is_global (symbol_of symbol.now) }
{
    match symbol.binding {
        Binding::Local => false,
        Binding::Global => is_defined(symbol.definition),
        Binding::Weak => false,
    }
}

/// Whether a symbol is a weak definition.
pub(crate) fn is_weak_definition(symbol: &Symbol<'_>) -> bool
    ensures { result ≡ laws.is_export bindings.is_weak (symbol_of symbol.now) }
{
    match symbol.binding {
        Binding::Local => false,
        Binding::Global => false,
        Binding::Weak => is_defined(symbol.definition),
    }
}

/// Whether a symbol of this definition is its own object's.
pub fn is_defined(definition: Definition) -> bool
    ensures { result ≡ laws.is_defined definition }
{
    match definition {
        Definition::Undefined => false,
        Definition::Absolute(_) => true,
        Definition::InSection(_, _) => true,
        Definition::Skipped(_) => true,
    }
}

/// Whether a symbol means its own object's definition, whatever others define: a number, or a place that isn't weak.
pub fn is_sure(binding: Binding, definition: Definition) -> bool
    ensures { result ≡ laws.is_sure_by binding definition }
{
    match definition {
        Definition::Undefined => false,
        Definition::Absolute(_) => true,
        Definition::InSection(_, _) => !is_weak(binding),
        Definition::Skipped(_) => !is_weak(binding),
    }
}

/// Whether a binding is weak.
pub fn is_weak(binding: Binding) -> bool
    ensures { result ≡ bindings.is_weak binding }
{
    match binding {
        Binding::Local => false,
        Binding::Global => false,
        Binding::Weak => true,
    }
}
