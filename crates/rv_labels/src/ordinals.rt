//! The statements at the places of an object, by its rows.

ghost use Rattle.std.specs.Prelude.{◌≡◌, ◌++◌, [], ◌∷◌, List, IfOk, OnOk};
ghost use Rattle.rv_object_laws.specs.declared.row.Row.{Row as SaidRow};
ghost use Rattle.rv_labels.specs.Indices.{AreOrdinals};

use rv_object_types::Row;
use std::alloc::{AllocError, Global};
use std::collections::HashMap;

/// By section and offset the ordinal of the last row there.
pub(crate) fn ordinals(alloc: Global, rows: &[Row]) -> Result<HashMap<(u32, u64), u32>, AllocError>
    ensures { IfOk result (λ ordinals. AreOrdinals ordinals rows.now) }
{
    let mut ordinals = HashMap::with_capacity(alloc, rows.len())?;
    for row in rows {
        put_ordinal(&mut ordinals, row)?;
    }
    Ok(ordinals)
}

/// Adds the next row.
fn put_ordinal(ordinals: &mut HashMap<(u32, u64), u32>, row: &Row) -> Result<(), AllocError>
    ensures { OnOk result ((rows : List SaidRow) → AreOrdinals ordinals.old rows
        → AreOrdinals ordinals.new (rows ++ row.now ∷ [])) }
{
    ordinals.insert((row.section, row.offset), row.ordinal)?;
    Ok(())
}
