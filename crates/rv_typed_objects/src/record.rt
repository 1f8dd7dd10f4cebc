//! The records of symbols with types and sizes.

ghost use Rattle.std.specs.Prelude.{◌≡◌, List};
ghost use Rattle.std.specs.List.{slice_get};
ghost use Rattle.rv_object_types.specs.View.{object_of};
ghost use Rattle.rv_labels.specs.Indices.{AreSaid};
ghost use Rattle.rv_debug_laws.specs.Labels.{Mark as SaidMark};
ghost use Rattle.rv_typed_objects.specs.Typed as laws;

use crate::sizes::said_bytes;
use rv_elf::Symbol as SymbolRecord;
use rv_labels::{NameSaid, said_of};
use rv_object_types::{Definition, Object, Row};
use rv_table_names::type_number;
use std::collections::BTreeMap;

/// The record of the symbol at an index of an object, of whose names this is said.
pub(crate) fn typed_record(
    object: &Object<'_>,
    said: &BTreeMap<&[u8], NameSaid>,
    index: usize,
    entry: &SymbolRecord,
) -> SymbolRecord
    ensures { (marks : List SaidMark) → AreSaid said.now marks
        → result ≡ laws.typed_record (object_of object.now) marks entry.now
        (slice_get (object_of object.now).symbols index) }
{
    match object.symbols.as_slice().get(index) {
        Some(symbol) => typed_by(
            object.rows.as_slice(),
            symbol.definition,
            said_of(said, symbol.name),
            entry,
        ),
        None => *entry,
    }
}

/// The record of a symbol of which this is said.
fn typed_by(
    rows: &[Row],
    definition: Definition,
    said: NameSaid,
    entry: &SymbolRecord,
) -> SymbolRecord
    ensures { result ≡ laws.typed_by rows.now definition said entry.now }
{
    let kind = type_number(said.kind);
    let size = said_bytes(rows, definition, said.size);
    SymbolRecord {
        st_info: entry.st_info / 16 * 16 + kind,
        st_size: size,
        ..*entry
    }
}
