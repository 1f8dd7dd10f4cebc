//! The object of a draft.

ghost use Rattle.std.specs.Prelude.{◌≡◌, None, IfOk};
ghost use Rattle.rv_unit.specs.Unit.{said};
ghost use Rattle.rv_object_types.specs.View.{object_of};
ghost use Rattle.rv_assemble_laws.specs.IsObjectOf.{IsObjectOf};
ghost use Rattle.rv_assemble_laws.specs.Refusals.{statements_fault};
ghost use Rattle.rv_draft.specs.Draft.{IsDraft};
ghost use Rattle.rv_assemble.specs.KeptNames.{OpenKept};
ghost use Rattle.rv_assemble.specs.Tabled.{HasTable};

use crate::indices::indices;
use crate::relocations::relocations;
use crate::rows::rows;
use crate::sections::sections;
use rv_draft::Draft;
use rv_object_types::Object;
use rv_symbols::SymbolTable;
use rv_unit::Unit;
use std::alloc::{AllocError, Global};

/// The object of a draft with its symbols. The bytes of its sections are moved, and the unit is given up.
pub(crate) fn object<'a>(
    alloc: Global,
    unit: Unit<'a>,
    draft: Draft<'a>,
    table: SymbolTable<'a>,
) -> Result<Object<'a>, AllocError>
    requires good { statements_fault (said unit) ≡ None }
    requires kept { OpenKept (said unit) }
    requires draft { IsDraft (said unit) draft }
    requires table { HasTable (said unit) draft table }
    ensures { IfOk result (λ o. IsObjectOf (said unit.entry) (object_of o)) }
{
    let Draft {
        items,
        sections: bytes,
        ends,
        fields,
        rvc,
    } = draft;
    let SymbolTable { symbols, numbers } = table;
    let extents = unit.sections();
    let indices = indices(alloc, fields.as_slice(), numbers.as_slice())?;
    let relocations = relocations(alloc, extents.len(), fields.as_slice(), indices.as_slice())?;
    let sections = sections(alloc, extents, ends.as_slice(), bytes, relocations)?;
    // the statements make room for their rows
    drop(unit);
    let rows = rows(alloc, items)?;
    Ok(Object {
        sections,
        symbols,
        rows,
        rvc,
    })
}
