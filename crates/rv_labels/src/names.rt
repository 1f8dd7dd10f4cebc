//! The names that are asked for.

ghost use Rattle.std.specs.Prelude.{◌≡◌, true, IsTrue};
ghost use Rattle.std.specs.List.{list_all};
ghost use Rattle.rv_map_laws.specs.Name.{is_name, is_name_byte};
ghost use Rattle.rv_object_laws.specs.Bindings.{is_shared};
ghost use Rattle.rv_object_types.specs.Parts.{symbol_of};
ghost use Rattle.rv_debug_laws.specs.Labels as laws;

use rv_object_types::{Binding, Symbol};

/// Whether a symbol is asked for: one that all files can mean, or else a label.
pub fn is_asked(shared: bool, symbol: &Symbol<'_>) -> bool
    ensures is { result ≡ laws.is_asked shared (symbol_of symbol.now) }
    ensures named { result ≡ true → IsTrue (is_name (symbol.now).name.now) }
{
    if shared {
        is_shared(symbol.binding)
    } else {
        is_label(symbol)
    }
}

/// Whether a symbol is a label: its own object's alone, with a name that people read.
fn is_label(symbol: &Symbol<'_>) -> bool
    ensures { result ≡ laws.is_own_label (symbol_of symbol.now) }
{
    !is_shared(symbol.binding) && is_label_name(symbol.name)
}

/// Whether all objects can mean a name.
fn is_shared(binding: Binding) -> bool
    ensures { result ≡ is_shared binding }
{
    match binding {
        Binding::Local => false,
        Binding::Global => true,
        Binding::Weak => true,
    }
}

/// Whether people read a name: a table of symbols can show it, and no tool has made it up.
fn is_label_name(name: &[u8]) -> bool
    ensures { result ≡ laws.is_label_name name.now }
{
    is_name(name) && !name.starts_with(b".L")
}

/// Whether a name has one byte or more, each of them printed and no blank.
fn is_name(name: &[u8]) -> bool
    ensures { result ≡ is_name name.now }
{
    !name.is_empty() && are_shown(name)
}

/// Whether each byte is printed and no blank: 21h to 7Eh.
fn are_shown(name: &[u8]) -> bool
    ensures { result ≡ list_all is_name_byte name.now }
{
    name.iter().all(|byte| b'!' <= *byte && *byte <= b'~')
}
