//! The symbols of an object and their indices.

ghost use Rattle.std.specs.Prelude.{◌≡◌, ◌+◌, ◌*◌, ◌^◌, ◌<◌, None, List, length, IfOk};
ghost use Rattle.rv_unit_laws.specs.Tables.{tables};
ghost use Rattle.rv_unit_laws.specs.Faults.{first_unit_fault};
ghost use Rattle.rv_unit.specs.Unit.{said};
ghost use Rattle.rv_unit.specs.Items.{offsets_of};
ghost use Rattle.rv_assemble_laws.specs.LaidStatements.{LaidStatement};
ghost use Rattle.rv_assemble_laws.specs.ShownNames.{used_names, HasNames, AreShown};
ghost use Rattle.rv_symbols.specs.SymbolUse.{uses_of, AreMeant};
ghost use Rattle.rv_symbols.specs.HasSymbols.{AreLaid, HasSymbols};

use crate::numbers::numbers;
use crate::own::own_symbols;
use crate::source::Source;
use crate::symbol_use::SymbolUse;
use crate::undefined::put_undefined;
use crate::uses::{definitions, marks, missing};
use rv_object_types::Symbol;
use rv_unit::{Item, Unit};
use std::alloc::{AllocError, Global};

/// The symbols of an object, and for each use of a symbol its index.
#[derive(Drop)]
pub struct SymbolTable<'a> {
    /// Those of the file alone, then those that it defines for other files, then those that it leaves undefined.
    pub symbols: Vec<Symbol<'a>>,
    /// A number for each use, in the order of the uses: the index of its symbol.
    pub numbers: Vec<u32>,
}

/// The symbols of a source whose statements stand at the offsets of these items in their sections, with the index of the
/// symbol for each use: these stand in the order of their statements, but for `.`, which may name any place.
pub fn symbols<'a>(
    alloc: Global,
    unit: &Unit<'a>,
    items: &[Item],
    uses: &[SymbolUse<'a>],
) -> Result<SymbolTable<'a>, AllocError>
    requires good { first_unit_fault (said unit.now) ≡ None }
    requires names { HasNames (said unit.now) }
    requires shown { AreShown (uses_of uses.now) }
    requires meant { AreMeant (tables (said unit.now)) (uses_of uses.now) }
    requires each { length items.now ≡ length (said unit.now) }
    requires few { 3 * length items.now + length (used_names (uses_of uses.now)) < 2 ^ 32 }
    ensures { IfOk result (λ r. (laid : List LaidStatement)
        → AreLaid (said unit.now) (offsets_of items.now) (uses_of uses.now) laid
        → HasSymbols (tables (said unit.now)) laid (uses_of uses.now) r) }
{
    let source = Source::of(alloc, unit, items)?;
    let definitions = definitions(alloc, unit, uses)?;
    let meant = marks(alloc, items.len(), uses, definitions.as_slice())?;
    let mut symbols = own_symbols(alloc, &source, meant.as_slice())?;
    let missing = missing(alloc, uses, definitions.as_slice())?;
    let numbers = numbers(
        alloc,
        &source,
        symbols.as_slice(),
        &missing,
        uses,
        definitions.as_slice(),
    )?;
    put_undefined(&mut symbols, &source, missing.as_slice())?;
    Ok(SymbolTable { symbols, numbers })
}
