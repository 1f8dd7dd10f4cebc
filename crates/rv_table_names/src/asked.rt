//! The symbols that are asked for.

ghost use Rattle.std.specs.Prelude.{◌≡◌, true, IsTrue};
ghost use Rattle.rv_map_laws.specs.Name.{is_name};
ghost use Rattle.rv_object_types.specs.Parts.{symbol_of};
ghost use Rattle.rv_table_names.specs.Tables as laws;

use rv_labels::is_asked;
use rv_names::{is_defined, is_weak};
use rv_object_types::{Binding, Definition, Symbol};

/// Whether a symbol is asked for: a label of its object's own, or else a definition of this binding.
pub(crate) fn is_wanted(binding: Binding, symbol: &Symbol<'_>) -> bool
    ensures is { result ≡ laws.is_wanted binding (symbol_of symbol.now) }
    ensures named { result ≡ true → IsTrue (is_name (symbol.now).name.now) }
{
    match binding {
        Binding::Local => is_asked(false, symbol) && is_place(symbol.definition),
        Binding::Global => {
            is_asked(true, symbol) && !is_weak(symbol.binding) && is_defined(symbol.definition)
        }
        Binding::Weak => {
            is_asked(true, symbol) && is_weak(symbol.binding) && is_defined(symbol.definition)
        }
    }
}

/// Whether this is a place in a section.
fn is_place(definition: Definition) -> bool
    ensures { result ≡ laws.is_place definition }
{
    match definition {
        Definition::Undefined => false,
        Definition::Absolute(_) => false,
        Definition::InSection(_, _) => true,
        Definition::Skipped(_) => false,
    }
}
