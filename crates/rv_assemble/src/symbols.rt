//! The symbols of a draft.

ghost use Rattle.std.specs.Prelude.{◌≡◌, ◌++◌, None, IfOk, OnOk, flat_map};
ghost use Rattle.rv_unit_laws.specs.Faults.{first_unit_fault};
ghost use Rattle.rv_unit.specs.Unit.{said};
ghost use Rattle.rv_assemble_laws.specs.ShownNames.{HasNames};
ghost use Rattle.rv_assemble_laws.specs.Small.{AreSmall};
ghost use Rattle.rv_draft.specs.Draft.{IsDraft};
ghost use Rattle.rv_symbols.specs.SymbolUse.{uses_of};
ghost use Rattle.rv_assemble.specs.Tabled.{open_field_use, HasTable};

use rv_draft::{Draft, OpenField};
use rv_symbols::{SymbolTable, SymbolUse, symbols};
use rv_unit::Unit;
use std::alloc::{AllocError, Global};

/// The symbols of a draft, with the index of each that a field names.
pub(crate) fn table<'a>(
    alloc: Global,
    unit: &Unit<'a>,
    draft: &Draft<'a>,
) -> Result<SymbolTable<'a>, AllocError>
    requires good { first_unit_fault (said unit.now) ≡ None }
    requires names { HasNames (said unit.now) }
    requires small { AreSmall (said unit.now) }
    requires draft { IsDraft (said unit.now) draft.now }
    ensures { IfOk result (λ table. HasTable (said unit.now) draft.now table) }
{
    let uses = uses(alloc, draft.fields.as_slice())?;
    symbols(alloc, unit, draft.items.as_slice(), uses.as_slice())
}

/// Adds the symbol that a field names, if there is one.
fn put_use<'a>(uses: &mut Vec<SymbolUse<'a>>, field: &OpenField<'a>) -> Result<(), AllocError>
    ensures { OnOk result (uses_of uses.new.items ≡ uses_of uses.old.items ++ open_field_use field.now) }
{
    let Some(symbol) = field.symbol else {
        return Ok(());
    };
    uses.push(SymbolUse {
        ordinal: field.ordinal,
        symbol,
    })?;
    Ok(())
}

/// The symbols that fields name, in their order.
fn uses<'a>(alloc: Global, fields: &[OpenField<'a>]) -> Result<Vec<SymbolUse<'a>>, AllocError>
    ensures { IfOk result (λ uses. uses_of uses.items ≡ flat_map open_field_use fields.now) }
{
    let mut uses = Vec::with_capacity(alloc, fields.len())?;
    for index in 0..fields.len() {
        put_use(&mut uses, &fields[index])?;
    }
    Ok(uses)
}
