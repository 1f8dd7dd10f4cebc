//! The addresses of statements, by the rows of a map.

ghost use Rattle.std.specs.Prelude.{◌≡◌, ◌++◌, [], ◌∷◌, List, IfOk, OnOk};
ghost use Rattle.rv_map_laws.specs.declared.map.Row.{Row as MapRow};
ghost use Rattle.rv_debug_laws.specs.Labels as laws;
ghost use Rattle.rv_labels.specs.Indices.{AreSpans};

use rv_map::{Region, Row};
use std::alloc::{AllocError, Global};
use std::collections::HashMap;

/// By file and ordinal the addresses of the only row; none where there are several.
pub(crate) fn spans(
    alloc: Global,
    rows: &[Row],
) -> Result<HashMap<(u64, u64), Option<Region>>, AllocError>
    ensures { IfOk result (λ spans. AreSpans spans rows.now) }
{
    let mut spans = HashMap::with_capacity(alloc, rows.len())?;
    for row in rows {
        put_span(&mut spans, row)?;
    }
    Ok(spans)
}

/// Adds the next row.
fn put_span(spans: &mut HashMap<(u64, u64), Option<Region>>, row: &Row) -> Result<(), AllocError>
    ensures { OnOk result ((rows : List MapRow) → AreSpans spans.old rows
        → AreSpans spans.new (rows ++ row.now ∷ [])) }
{
    let statement = (row.file, row.ordinal);
    let span = if spans.contains_key(&statement) {
        None
    } else {
        Some(row_span(row))
    };
    spans.insert(statement, span)?;
    Ok(())
}

/// From the first byte of a row to the address behind its last one.
fn row_span(row: &Row) -> Region
    ensures { result ≡ laws.row_span row.now }
{
    Region {
        start: row.address,
        end: row.address.saturating_add(row.bytes),
    }
}

/// The addresses of a statement.
pub(crate) fn statement_span(
    spans: &HashMap<(u64, u64), Option<Region>>,
    file: u64,
    ordinal: u64,
) -> Option<Region>
    ensures { (rows : List MapRow) → AreSpans spans.now rows
        → result ≡ laws.statement_span rows file ordinal }
{
    match spans.get(&(file, ordinal)) {
        Some(span) => *span,
        None => None,
    }
}
