//! The symbols that a file leaves undefined.

ghost use Rattle.std.specs.Prelude.{◌≡◌, ◌++◌, List, true, map, OnOk};
ghost use Rattle.rv_statement.specs.View.{now_of};
ghost use Rattle.rv_object_laws.specs.declared.symbol.Definition.TheVariants.{Undefined};
ghost use Rattle.rv_object_types.specs.Parts.{symbol_of};
ghost use Rattle.rv_assemble_laws.specs.LaidStatements.{LaidStatement};
ghost use Rattle.rv_assemble_laws.specs.Symbols.{shared_symbol};
ghost use Rattle.rv_assemble_laws.specs.ShownNames.{are_shown};
ghost use Rattle.rv_symbols.specs.Source.{tables_of, IsSource};

use crate::source::Source;
use rv_object_types::{Definition, Symbol};
use std::alloc::AllocError;

/// Adds the names that a file leaves undefined.
pub(crate) fn put_undefined<'a>(
    symbols: &mut Vec<Symbol<'a>>,
    source: &Source<'_, '_>,
    names: &[&'a [u8]],
) -> Result<(), AllocError>
    requires { are_shown (map now_of names.now) ≡ true }
    ensures { OnOk result ((laid : List LaidStatement) → IsSource source.now laid
        → map symbol_of symbols.new.items ≡ map symbol_of symbols.old.items
        ++ map (λ name. shared_symbol (tables_of source.now) name Undefined)
        (map now_of names.now)) }
{
    for name in names {
        let undefined = Symbol {
            name: *name,
            binding: source.outer_binding(*name),
            definition: Definition::Undefined,
        };
        symbols.push(undefined)?;
    }
    Ok(())
}
